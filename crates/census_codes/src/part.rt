//! A part of a list.

ghost use Rattle.std.specs.Prelude.{◌≡◌, ◌≤◌, ◌-◌, IfOk, IfSome, IfNone};
ghost use Rattle.census_codes.specs.Parts.{each_nth, IsPart};

use std::alloc::{AllocError, Allocator};
use std::marker::Model;

/// The most parts of a list.
pub const MAX_PARTS: u32 = 65_536;

/// One of the parts that a list is dealt into.
#[derive(Clone, Copy)]
pub struct Part {
    number: u32,
    of: u32,
}

impl Model for Part {
    ghost use Rattle.census_codes.specs.Parts.{IsPart, ListPart};

    ghost Value = { ListPart };

    ghost view = { λ part. record { number = part.number; of = part.of } };

    ghost invariant = { λ part. IsPart part.number part.of };

    ghost inverse = { λ part. record { number = part.number; of = part.of } };
}

impl Part {
    /// The part of this number, counted from 1, of so many; none exactly where the number is 0 or above them, or they are more
    /// than `MAX_PARTS`.
    pub fn new(number: u32, of: u32) -> Option<Part>
        ensures ok { IfSome result (λ part. part ≡ record { number = number; of = of }) }
        ensures valid { IfSome result (λ part. IsPart number of) }
        ensures none { IfNone result (¬ IsPart number of) }
    {
        if number == 0 || number > of || of > MAX_PARTS {
            return None;
        }
        Some(Part { number, of })
    }

    /// Which part it is, counted from 1.
    pub fn number(&self) -> u32
        ensures value { result ≡ self.now.number }
        ensures valid { IsPart self.now.number self.now.of }
    {
        self.number
    }

    /// How many parts there are, at most `MAX_PARTS`.
    pub fn of(&self) -> u32
        ensures value { result ≡ self.now.of }
        ensures valid { IsPart self.now.number self.now.of }
    {
        self.of
    }
}

/// The items of a list that are its part: the I-th, the I + N-th, and so on, in their order, where the part is the I-th of N.
/// The one error is that memory is refused.
pub fn part_of<T: Copy, A: Allocator>(
    alloc: A,
    list: &[T],
    part: Part,
) -> Result<Vec<T, A>, AllocError>
    ensures { IfOk result (λ items. items.items ≡ each_nth part.of (part.number - 1) list.now) }
{
    let mut items = Vec::new(alloc);
    let others = part.of() - 1;
    let mut before = part.number() - 1;
    for item in list {
        if before > 0 {
            before -= 1;
            continue;
        }
        items.push(*item)?;
        before = others;
    }
    Ok(items)
}
