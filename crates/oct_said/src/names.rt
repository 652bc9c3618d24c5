//! The names of the notes of games.

ghost use Rattle.std.specs.Prelude.{◌≡◌, IfOk};
ghost use Rattle.oct_said.specs.Names.{code_spelled, game_named, note_name};

use oct_code::Code;
use std::alloc::{AllocError, Allocator};

// What stands before the code.
const LEAD: &[u8] = b"period-";

// The place of the hyphen that stands for the point of the code.
const POINT: usize = 8;

/// The name of the notes of a game's period: `period-`, and the code with a hyphen in place of the point. It has at most 25 bytes.
pub fn note_name<A: Allocator>(alloc: A, code: Code) -> Result<Vec<u8, A>, AllocError>
    ensures { IfOk result (λ name. name.items ≡ note_name code) }
{
    let mut name = Vec::from_slice(alloc, LEAD)?;
    code.append_text(&mut name)?;
    name[POINT] = b'-';
    Ok(name)
}

/// The game of whose notes this is the name.
pub(crate) fn game_named<A: Allocator + Copy>(
    alloc: A,
    name: &[u8],
) -> Result<Option<Code>, AllocError>
    ensures { IfOk result (λ game. game ≡ game_named name.now) }
{
    let Some(code) = code_behind(alloc, name)? else {
        return Ok(None);
    };
    let spelled = note_name(alloc, code)?;
    if spelled.as_slice() == name {
        Ok(Some(code))
    } else {
        Ok(None)
    }
}

// The code that stands behind seven bytes, whatever these are and whatever stands for its point.
fn code_behind<A: Allocator>(alloc: A, name: &[u8]) -> Result<Option<Code>, AllocError>
    ensures { IfOk result (λ code. code ≡ code_spelled name.now) }
{
    if name.len() <= POINT {
        return Ok(None);
    }
    let mut text = Vec::from_slice(alloc, &name[LEAD.len()..])?;
    text[1] = b'.';
    Ok(Code::parse(&text).ok())
}
