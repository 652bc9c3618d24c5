//! What is said of a heap whose nim-value is not known: up to which heap they are, and what tells more.

use census_core::{Form, Request, number, perform};
use census_failure::{quoted, shown_bytes};
use oct_code::LIMIT;
use std::alloc::{AllocError, Global};

/// What the known nim-values of a game show.
#[derive(Clone, Copy)]
struct Known {
    /// The last heap whose nim-value is known.
    last: u64,
    /// The period that they prove, and the heap from which on it holds.
    repeats: Option<(u64, u64)>,
}

/// A line on a heap that the state of this name, of these bytes, gives no nim-value of; none where the state can't be asked.
pub(crate) fn unknown_text(
    alloc: Global,
    name: &str,
    bytes: &[u8],
    code: &[u8],
    heap: u64,
) -> Option<String> {
    let known = known_of(alloc, bytes, code)?;
    advised(alloc, name, code, heap, known).ok()
}

/// A code as a list of one.
pub fn one_code(alloc: Global, code: &[u8]) -> Result<Vec<Vec<u8>>, AllocError> {
    let mut codes = Vec::new(alloc);
    codes.push(Vec::from_slice(alloc, code)?)?;
    Ok(codes)
}

fn advised(
    alloc: Global,
    name: &str,
    code: &[u8],
    heap: u64,
    known: Known,
) -> Result<String, AllocError> {
    let Known { last, repeats } = known;
    let name = quoted(alloc, name)?;
    let code = shown_bytes(alloc, code)?;
    if let Some((period, start)) = repeats {
        return format!(in alloc;
            "heap {heap} is not known: values are known to heap {last}; census find proves period {period} \
             from {start}: census period {name} {code} {start} {period}"
        );
    }
    if heap < LIMIT as u64 {
        let count = heap + 1;
        return format!(in alloc;
            "heap {heap} is not known: values are known to heap {last}, and prove no period; \
             census extend {name} {count} {code} computes them"
        );
    }
    format!(in alloc;
        "heap {heap} is not known: values are known to heap {last}, and prove no period; \
         --search COUNT looks for one among more values"
    )
}

// What `find` says of the game: its line has the numbers of a period, its start, how many values prove it and how many are known,
// or else the last of these alone.
fn known_of(alloc: Global, state: &[u8], code: &[u8]) -> Option<Known> {
    let request = Request::Find {
        codes: one_code(alloc, code).ok()?,
        form: Form::Lines,
    };
    let reply = perform(alloc, &request, state, b"").ok()?;
    let mut numbers = Vec::new(alloc);
    for word in reply.text.trim_ascii_end().split(|byte| *byte == b' ') {
        if let Some(read) = number_word(word) {
            numbers.push(read).ok()?;
        }
    }
    let count: u64 = *numbers.last()?;
    let repeats = match (numbers.get(0), numbers.get(1)) {
        (Some(period), Some(start)) => Some((*period, *start)),
        _ => None,
    };
    Some(Known {
        last: count.checked_sub(1)?,
        repeats,
    })
}

fn number_word(word: &[u8]) -> Option<u64> {
    number(str::from_utf8(word).ok()?, u64::MAX)
}
