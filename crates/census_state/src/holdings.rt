//! Operations that are held under no author.

ghost use Rattle.std.specs.Prelude.{◌≡◌, ◌↔◌, not, false, None, List, IsSome, IfOk, IfErr, OnOk, OnErr, IsErrOf};
ghost use Rattle.oct_ops.specs.Body.{Operation};
ghost use Rattle.oct_ops.specs.Operations.{empty, insert, contains, listed, union, IsSubset};
ghost use Rattle.oct_join.specs.Order.{IsBetween};
ghost use Rattle.oct_delta.specs.Decoding.{format_at, read_delta};
ghost use Rattle.oct_delta.specs.Delta.{IsDeltaText};
ghost use Rattle.oct_delta.specs.Taken.{operations_of};
ghost use Rattle.oct_record.specs.Taking.{count_new};
ghost use Rattle.census_state.specs.Holdings.{LeavesAt};

use oct_ops::Op;
use oct_record::{Record, TakeError};
use std::alloc::{AllocError, Allocator};
use std::marker::Model;
use std::rc::Rc;

/// A set of operations that is nobody's to go on with: what deltas and files say together, or a part of what a state says. It
/// keeps them as a record does, in memory of `A`, and issues nothing.
#[derive(Drop)]
pub struct Holdings<A: Allocator + Copy> {
    // Its author stands for nobody.
    said: Record<A>,
}

impl<A: Allocator + Copy> Model for Holdings<A> {
    ghost use Rattle.oct_ops.specs.Operations.{Operations, operations_code};

    ghost Value = { Operations };

    ghost coded = { operations_code };

    ghost view = { λ held. held.said.ops };
}

impl<A: Allocator + Copy> Holdings<A> {
    /// No operation. It will grow in memory of `alloc`, and takes none now.
    pub fn new(alloc: A) -> Holdings<A>
        ensures { result ≡ empty }
    {
        match Record::new(alloc, 1) {
            Ok(said) => Holdings { said },
            Err(_) => unreachable!(),
        }
    }

    /// What a record holds, whoever its author is. Takes no memory.
    pub fn of(said: Record<A>) -> Holdings<A>
        ensures { result ≡ said.ops }
    {
        Holdings { said }
    }

    /// The operations as a record, for what shows or counts those of a record. Its author has no meaning.
    pub fn as_record(&self) -> &Record<A>
        ensures { result.now.ops ≡ self.now }
    {
        &self.said
    }

    /// Takes in the operations that the bytes spell, and says how many of them are new. The answer is `Version` exactly
    /// where the first four bytes are no tag of a delta, and `Refused` exactly for any other bytes that are no delta; then
    /// nothing changes. Where memory is refused, the answer says how many operations, from the first on, are in, held
    /// before or not; no other was added, and one more was due.
    pub fn take(&mut self, bytes: &[u8]) -> Result<u32, TakeError>
        ensures ok { OnOk result (self.new ≡ union self.old (operations_of bytes.now)) }
        ensures new { IfOk result (λ new. new ≡ count_new self.old (listed (operations_of bytes.now))) }
        ensures text { OnOk result (IsSome (read_delta bytes.now)) }
        ensures version { IsErrOf result TakeError.Version ↔ (format_at bytes.now ≡ None) }
        ensures refused { IsErrOf result TakeError.Refused ↔ (IsSome (format_at bytes.now) × ((ops : List Operation) → ¬ IsDeltaText bytes.now ops)) }
        ensures err { IfErr result (LeavesAt self.old self.new (listed (operations_of bytes.now))) }
    {
        self.said.take(bytes)
    }

    /// Takes in the operations of others. Memory can be refused only where they have one that is not here. After a refusal the
    /// set is one between the old set and the union.
    pub fn join(&mut self, other: &Holdings<A>) -> Result<(), AllocError>
        ensures ok { OnOk result (self.new ≡ union self.old other.now) }
        ensures between { IsBetween IsSubset self.old self.new (union self.old other.now) }
        ensures absent { OnErr result (¬ IsSubset other.now self.old) }
    {
        self.said.join(&other.said)
    }

    /// Puts in an operation that others hold too, and says whether it is new. Memory can be refused only for one that is not
    /// there; then nothing changes.
    pub fn share(&mut self, op: &Rc<Op<A>, A>) -> Result<bool, AllocError>
        ensures added { IfOk result (λ added. added ≡ not (contains self.old op.now.value)) }
        ensures ok { OnOk result (self.new ≡ insert self.old op.now.value) }
        ensures err { OnErr result (self.new ≡ self.old) }
        ensures absent { OnErr result (contains self.old op.now.value ≡ false) }
    {
        self.said.share(op)
    }
}
