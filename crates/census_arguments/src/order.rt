//! The order in which the words of a command stand, which is said where one of them is refused.

use census_failure::{Failure, Reason};
use census_state::Fault;
use census_words::{CommandRow, words_text};
use std::alloc::{AllocError, Global};

/// What was read of the words of the command of this row. Where one was refused with `Number` or `Words`, and the command has several,
/// the failure also says in which order they stand, and what lists them.
pub fn with_order<T>(
    alloc: Global,
    row: &CommandRow,
    read: Result<T, Failure>,
) -> Result<T, Failure> {
    match read {
        Err(failure) => Err(in_order(alloc, failure, row)),
        asked => asked,
    }
}

// The failure of a word, with the order in which the words of its command stand.
fn in_order(alloc: Global, failure: Failure, row: &CommandRow) -> Failure {
    if failure.fault != Fault::Number && failure.fault != Fault::Words {
        return failure;
    }
    let text = match &failure.reason {
        Reason::Found(found) if row.words.len() > 1 => order_text(alloc, found, row),
        _ => return failure,
    };
    let name = row.name;
    let advice = format!(in alloc; "census {name} --help says what each word is");
    failure.found(text).advise(advice)
}

fn order_text(alloc: Global, found: &str, row: &CommandRow) -> Result<String, AllocError> {
    let words = words_text(alloc, row.words)?;
    format!(in alloc; "{found}; the order is{words}")
}
