//! What is told of a position as one line of JSON.

ghost use Rattle.std.specs.Prelude.{◌≡◌, ◌++◌, IfOk, OnOk};
ghost use Rattle.census_tell.specs.JsonLines.{left_member, lost_object, move_object, outcome_member, unknown_object, value_object};

use oct_period::{Move, Outcome};
use oct_text::{append_labelled, append_text};
use std::alloc::{AllocError, Global};

/// The object of a position: its value, and who wins it.
pub(crate) fn value_object(
    alloc: Global,
    value: u32,
    outcome: &Outcome,
) -> Result<Vec<u8>, AllocError>
    ensures { IfOk result (λ text. text.items ≡ value_object value outcome.now) }
{
    let mut text = Vec::new(alloc);
    append_labelled(&mut text, b"{\"value\":", value)?;
    append_text(&mut text, outcome_member(outcome))?;
    append_text(&mut text, b"}\n")?;
    Ok(text)
}

// The member of who wins, and none where it is not known.
fn outcome_member(outcome: &Outcome) -> &'static [u8]
    ensures { result.now ≡ outcome_member outcome.now }
{
    match outcome {
        Outcome::NextWins => b",\"next_player\":\"wins\"",
        Outcome::NextLoses => b",\"next_player\":\"loses\"",
        Outcome::Unknown { .. } => b"",
    }
}

/// The object of a position with a heap whose nim-value is not known: the place of the first.
pub(crate) fn unknown_object(alloc: Global, index: usize) -> Result<Vec<u8>, AllocError>
    ensures { IfOk result (λ text. text.items ≡ unknown_object index) }
{
    let mut text = Vec::new(alloc);
    append_labelled(&mut text, b"{\"unknown\":", index)?;
    append_text(&mut text, b"}\n")?;
    Ok(text)
}

/// The object of a move in a heap of so many beans.
pub(crate) fn move_object(alloc: Global, found: &Move, beans: u64) -> Result<Vec<u8>, AllocError>
    ensures { IfOk result (λ text. text.items ≡ move_object found.now beans) }
{
    let mut text = Vec::new(alloc);
    append_labelled(&mut text, b"{\"heap\":", found.index)?;
    append_labelled(&mut text, b",\"of\":", beans)?;
    append_labelled(&mut text, b",\"remove\":", found.removed)?;
    append_left_member(&mut text, found.left.0, found.left.1)?;
    append_text(&mut text, b"]}\n")?;
    Ok(text)
}

// Appends which heaps are left, of which one or both may be empty.
fn append_left_member(text: &mut Vec<u8>, less: u64, more: u64) -> Result<(), AllocError>
    ensures { OnOk result (text.new.items ≡ text.old.items ++ left_member less more) }
{
    if more == 0 {
        return append_text(text, b",\"leave\":[");
    }
    if less == 0 {
        return append_labelled(text, b",\"leave\":[", more);
    }
    append_labelled(text, b",\"leave\":[", less)?;
    append_labelled(text, b",", more)
}

/// The object of a position in which no move wins.
pub(crate) fn lost_object(alloc: Global) -> Result<Vec<u8>, AllocError>
    ensures { IfOk result (λ text. text.items ≡ lost_object) }
{
    Vec::from_slice(alloc, b"{\"heap\":null,\"next_player\":\"loses\"}\n")
}
