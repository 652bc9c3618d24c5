//! Whoever a session speaks for.

ghost use Rattle.std.specs.Prelude.{◌≡◌, ◌<◌, ◌^◌, ℕ, length, take, IfOk, OnOk, OnErr};
ghost use Rattle.oct_ops.specs.Operations.{Operations, listed, union, set_of, IsRising};
ghost use Rattle.oct_record.specs.Valid.{AreValid};
ghost use Rattle.oct_store.specs.Summary as summary;

use oct_join::Clock;
use oct_ops::{Op, OpList};
use oct_record::Record;
use oct_record::taking::take_ops;
use std::alloc::{AllocError, Allocator};

/// Keeps a finite set of operations under an author, says by a clock what it holds, and takes operations in.
pub trait Peer<A: Allocator + Copy> {
    ghost held: { Self → Operations };

    ghost author: { Self → ℕ };

    /// For each author the number through which all of its operations are held, from the first on.
    fn clock(&self) -> Result<Clock<A>, AllocError>
        ensures ok { IfOk result (λ clock. clock ≡ summary.clock_of (listed (held self.now))) }
        // Each operation keeps the ranges of its parts.
        ensures valid { AreValid (held self.now) };

    /// Copies of the operations that the clock does not cover, in order.
    fn beyond(&self, clock: &Clock<A>) -> Result<OpList<A>, AllocError>
        ensures { IfOk result (λ list. list ≡ listed (summary.beyond (held self.now) clock.now)) };

    /// Moves the operations in; the author stays. After a refusal the first so many are in, and no other.
    fn take_ops(&mut self, ops: &mut Vec<Op<A>, A>) -> Result<(), AllocError>
        requires rises { IsRising ops.old.items }
        requires few { length ops.old.items < 2 ^ 32 }
        ensures ok { OnOk result (held self.new ≡ union (held self.old) (set_of ops.old.items)) }
        ensures err { OnErr result ((count : ℕ) × (held self.new ≡ union (held self.old) (set_of (take count ops.old.items)))) }
        ensures author { author self.new ≡ author self.old };
}

impl<A: Allocator + Copy> Peer<A> for Record<A> {
    ghost held = { λ said. said.ops };

    ghost author = { λ said. said.author };

    fn clock(&self) -> Result<Clock<A>, AllocError> {
        Record::clock(self)
    }

    fn beyond(&self, clock: &Clock<A>) -> Result<OpList<A>, AllocError> {
        Record::beyond(self, clock)
    }

    fn take_ops(&mut self, ops: &mut Vec<Op<A>, A>) -> Result<(), AllocError> {
        take_ops(self, ops)
    }
}
