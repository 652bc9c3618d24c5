//! The text that names a winning move.

ghost use Rattle.std.specs.Prelude.{◌≡◌, ◌<◌, length, IfOk, IfSome, ◌++◌, OnOk};
ghost use Rattle.census_tell.specs.Moving.{left_text, lost_text, move_line, move_text, move_told};

use crate::asking::unknown_text;
use crate::json_lines::{lost_object, move_object};
use oct_period::{Move, Unknown};
use oct_text::{Form, append_labelled, append_text};
use std::alloc::{AllocError, Global};

/// A move that wins a position, or that there is none, or the first heap whose nim-value is not known.
pub fn move_text(
    alloc: Global,
    answer: Result<Option<Move>, Unknown>,
    heaps: &[u64],
    form: Form,
) -> Result<Vec<u8>, AllocError>
    requires { IfOk answer (λ found. IfSome found (λ m. m.index < length heaps.now)) }
    ensures { IfOk result (λ text. text.items ≡ move_text form heaps.now answer) }
{
    match answer {
        Ok(Some(found)) => move_told(alloc, &found, heaps[found.index], form),
        Ok(None) => lost_text(alloc, form),
        Err(unknown) => unknown_text(alloc, unknown.index, form),
    }
}

// A move in a heap of so many beans.
fn move_told(alloc: Global, found: &Move, beans: u64, form: Form) -> Result<Vec<u8>, AllocError>
    ensures { IfOk result (λ text. text.items ≡ move_told form found.now beans) }
{
    match form {
        Form::Lines => move_line(alloc, found, beans),
        Form::Json => move_object(alloc, found, beans),
    }
}

// No move wins.
fn lost_text(alloc: Global, form: Form) -> Result<Vec<u8>, AllocError>
    ensures { IfOk result (λ text. text.items ≡ lost_text form) }
{
    match form {
        Form::Lines => Vec::from_slice(alloc, b"none: the player to move loses\n"),
        Form::Json => lost_object(alloc),
    }
}

// The line of a move in a heap of so many beans.
fn move_line(alloc: Global, found: &Move, beans: u64) -> Result<Vec<u8>, AllocError>
    ensures { IfOk result (λ line. line.items ≡ move_line found.now beans) }
{
    let mut line = Vec::new(alloc);
    append_labelled(&mut line, b"heap ", found.index)?;
    append_labelled(&mut line, b" of ", beans)?;
    append_labelled(&mut line, b": remove ", found.removed)?;
    append_left(&mut line, found.left.0, found.left.1)?;
    append_text(&mut line, b"\n")?;
    Ok(line)
}

// Appends which heaps are left, of which one or both may be empty.
fn append_left(line: &mut Vec<u8>, less: u64, more: u64) -> Result<(), AllocError>
    ensures { OnOk result (line.new.items ≡ line.old.items ++ left_text less more) }
{
    if more == 0 {
        return append_text(line, b", leave nothing");
    }
    if less == 0 {
        return append_labelled(line, b", leave ", more);
    }
    append_labelled(line, b", leave ", less)?;
    append_labelled(line, b" and ", more)
}
