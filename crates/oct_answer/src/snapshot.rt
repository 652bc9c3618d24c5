//! What a record holds at one moment.

ghost use Rattle.std.specs.Prelude.{◌≡◌, ◌<◌, ◌^◌, ◌++◌, drop, length, IfOk, OnOk, OnErr};
ghost use Rattle.oct_ops.specs.Operations.{listed};
ghost use Rattle.oct_record.specs.Valid.{AreValid};
ghost use Rattle.oct_sync.specs.Session.{clock_frame};

use crate::frames::put_clock_frame;
use crate::shared::Shared;
use oct_join::Clock;
use oct_record::Record;
use std::alloc::{AllocError, Allocator};
use std::marker::Model;

/// What a record holds at one moment. It has references to the operations, and copies none; what the record takes in later is
/// not among them.
#[derive(Drop)]
pub struct Snapshot<A: Allocator + Copy> {
    ops: Vec<Shared<A>, A>,
    clock: Clock<A>,
}

impl<A: Allocator + Copy> Model for Snapshot<A> {
    ghost use Rattle.oct_ops.specs.Operations.{Operations, operations_code, set_of};
    ghost use Rattle.oct_answer.specs.Snapshots.{IsSnapshot};

    ghost Value = { Operations };

    ghost coded = { operations_code };

    ghost view = { λ s. set_of s.ops.items };

    ghost invariant = { λ s. IsSnapshot s.ops.items s.clock };
}

impl<A: Allocator + Copy> Snapshot<A> {
    /// What the record holds now. This is two passes over the set.
    pub fn of(alloc: A, said: &Record<A>) -> Result<Snapshot<A>, AllocError>
        ensures { IfOk result (λ snapshot. snapshot ≡ said.now.ops) }
    {
        let clock = said.clock()?;
        let mut ops = Vec::new(alloc);
        for op in said.store().iter_shared() {
            let shared = op.clone()?;
            let entry = Shared::new(shared);
            ops.push(entry)?;
        }
        Ok(Snapshot { ops, clock })
    }

    /// Appends the clock frame of a side that holds this. After a refusal `out` is as it was.
    pub fn put_clock(&self, out: &mut Vec<u8, A>) -> Result<(), AllocError>
        ensures ok { OnOk result (out.new.items ≡ out.old.items ++ clock_frame self.now) }
        ensures err { OnErr result (out.new.items ≡ out.old.items) }
    {
        put_clock_frame(out, &self.clock)?;
        Ok(())
    }

    /// The operations from a place on.
    pub(crate) fn from(&self, at: usize) -> &[Shared<A>]
        ensures value { result.now ≡ drop at (listed self.now) }
        ensures few { length (listed self.now) < 2 ^ 64 }
        ensures valid { AreValid self.now }
    {
        match self.ops.get(at..) {
            Some(rest) => rest,
            None => &[],
        }
    }
}
