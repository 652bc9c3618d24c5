//! The dots that authors withdraw.

ghost use Rattle.std.specs.Prelude.{◌≡◌, IfOk};
ghost use Rattle.oct_ops.specs.Operation.{dot_of as dot_value};
ghost use Rattle.oct_said.specs.Dots.{dot_said, if_dot, number_behind, withdrawn_by};

use crate::lines::number_of;
use crate::noting::{name_of, text_of};
use oct_ops::{Dot, Op};
use oct_text::{append_dot, append_number};
use std::alloc::{AllocError, Allocator};

// The name of the notes that withdraw something.
const WITHDRAWN: &[u8] = b"withdrawn";

/// The dot that the operation withdraws: it is a note of the name `withdrawn`, and its text is a dot of its own author, just as
/// dots are written.
pub fn withdrawn_by<A: Allocator + Copy, B: Allocator>(
    alloc: A,
    op: &Op<B>,
) -> Result<Option<Dot>, AllocError>
    ensures { IfOk result (λ dot. dot ≡ withdrawn_by op.now) }
{
    if name_of(op.body()) != WITHDRAWN {
        return Ok(None);
    }
    dot_said(alloc, op.dot().author(), text_of(op.body()))
}

// The dot of the author whose text this is.
fn dot_said<A: Allocator + Copy>(
    alloc: A,
    author: u32,
    text: &[u8],
) -> Result<Option<Dot>, AllocError>
    ensures { IfOk result (λ dot. dot ≡ dot_said author text.now) }
{
    let Some(number) = number_behind(alloc, author, text)? else {
        return Ok(None);
    };
    let Some(dot) = dot_of(author, number) else {
        return Ok(None);
    };
    let mut spelled = Vec::new(alloc);
    append_dot(&mut spelled, dot)?;
    if spelled.as_slice() == text {
        Ok(Some(dot))
    } else {
        Ok(None)
    }
}

// The dot of the author and the number, if there is one.
fn dot_of(author: u32, number: usize) -> Option<Dot>
    ensures { result ≡ if_dot (dot_value author number) }
{
    let number = u32::try_from(number).ok()?;
    Dot::new(author, number).ok()
}

// The number that is spelled behind the author's number and a point, whatever stands before it.
fn number_behind<A: Allocator>(
    alloc: A,
    author: u32,
    text: &[u8],
) -> Result<Option<usize>, AllocError>
    ensures { IfOk result (λ number. number ≡ number_behind author text.now) }
{
    let mut lead = Vec::new(alloc);
    append_number(&mut lead, author)?;
    if text.len() <= lead.len() {
        return Ok(None);
    }
    Ok(number_of(&text[lead.len() + 1..]))
}
