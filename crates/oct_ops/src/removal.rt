//! Removals of what was said earlier.

ghost use Rattle.std.specs.Prelude.{◌≡◌, true, IfOk, IfErr, OnOk};
ghost use Rattle.std.specs.List.{All};
ghost use Rattle.oct_ops.specs.Faults.{removal_fault};
ghost use Rattle.oct_ops.specs.Operation.{removing};
ghost use Rattle.oct_ops.specs.Valid.{IsDot, IsRemoval};

use crate::dot::Dot;
use crate::error::RemovalError;
use crate::items::Items;
use crate::limits::MAX_ITEMS;
use crate::rising::rises;
use std::alloc::{AllocError, Allocator};
use std::marker::Model;

/// The dots of the notes that are removed. A dot of another kind of operation, or of none, removes nothing.
#[derive(Drop)]
#[derive_where(PartialEq, Eq, PartialOrd, Ord)]
pub struct Removal<A: Allocator> {
    dots: Items<Dot, A>,
}

impl<A: Allocator> Model for Removal<A> {
    ghost use Rattle.oct_ops.specs.Operation.{Removal as RemovalValue, removing};
    ghost use Rattle.oct_ops.specs.Valid.{IsRemoval};

    ghost Value = { RemovalValue };

    ghost view = { λ r. removing r.dots };

    ghost invariant = { λ r. IsRemoval (removing r.dots) };

    ghost inverse = { λ r. record { dots = r.dots } };
}

// Each dot is valid: `prove!` learns it by this call, which is always true.
fn are_valid(dots: &[Dot]) -> bool
    ensures yes { result ≡ true }
    ensures valid { All IsDot dots.now }
{
    let mut valid = true;
    for dot in dots {
        valid = dot.author() >= 1;
    }
    valid
}

impl<A: Allocator> Removal<A> {
    /// The removal of the notes that have these dots. A refusal names the first fault, in the order of `RemovalError`, and
    /// hands the dots back.
    pub fn new(dots: Vec<Dot, A>) -> Result<Removal<A>, (RemovalError, Vec<Dot, A>)>
        ensures ok { IfOk result (λ removal. removal ≡ removing dots.items) }
        ensures accepted { OnOk result (removal_fault (removing dots.items) ≡ None) }
        ensures fault { IfErr result (λ refused. removal_fault (removing dots.items) ≡ Some refused.0) }
        ensures back { IfErr result (λ refused. refused.1 ≡ dots) }
    {
        if dots.is_empty() {
            return Err((RemovalError::Empty, dots));
        }
        if dots.len() > MAX_ITEMS {
            return Err((RemovalError::TooMany, dots));
        }
        if !rises(&dots) {
            return Err((RemovalError::NotRising, dots));
        }
        prove!(are_valid(&dots));
        Ok(Removal {
            dots: Items::new(dots),
        })
    }

    /// The dots, 1 to `MAX_ITEMS` of them, strictly rising.
    pub fn dots(&self) -> &[Dot]
        ensures value { result.now ≡ self.now.dots }
        ensures valid { IsRemoval self.now }
    {
        self.dots.as_slice()
    }

    /// A removal that is equal to this one, in memory of `alloc`.
    pub fn copy(&self, alloc: A) -> Result<Removal<A>, AllocError>
        ensures { IfOk result (λ copy. copy ≡ self.now) }
    {
        Ok(Removal {
            dots: self.dots.copy(alloc)?,
        })
    }
}
