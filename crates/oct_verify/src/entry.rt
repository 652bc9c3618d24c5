//! The operation of a block with its status, and what entries are searched by.

ghost use Rattle.std.specs.Prelude.{◌≡◌, not};
ghost use Rattle.std.specs.Option.{IsSome};
ghost use Rattle.oct_verify.specs.Filed.{block_in, filed_of};
ghost use Rattle.oct_verify.specs.Filing.{block_of, filing_cmp};
ghost use Rattle.oct_verify.specs.Kept.{filing_of, is_pending};
ghost use Rattle.oct_verify.specs.declared.status.Status.TheVariants.{Pending};

use crate::status::Status;
use chunked::{Change, Probe, Test};
use oct_ops::{Block, Body, Dot, Op};
use std::alloc::Allocator;
use std::cmp::Ordering;
use std::marker::Model;
use std::rc::Rc;

/// A block under its dot, with its status. The operation that it is may be shared.
#[derive(Drop)]
pub(crate) struct Entry<A: Allocator> {
    op: Rc<Op<A>, A>,
    status: Status,
}

impl<A: Allocator> Model for Entry<A> {
    ghost use Rattle.std.specs.Option.{IsSome};
    ghost use Rattle.oct_verify.specs.Filed.{Filed, filed_of};
    ghost use Rattle.oct_verify.specs.Filing.{block_of};

    ghost Value = { Filed };

    ghost view = { λ e. filed_of e.op.value e.status };

    ghost invariant = { λ e. IsSome (block_of e.op.value.body) };
}

impl<A: Allocator> Entry<A> {
    /// The entry of a block that is not judged yet.
    pub(crate) fn new(op: Rc<Op<A>, A>) -> Entry<A>
        requires { IsSome (block_of op.value.body) }
        ensures { result ≡ filed_of op.value Pending }
    {
        Entry {
            op,
            status: Status::Pending,
        }
    }

    /// Who made the block, and which of the author's operations it is.
    pub(crate) fn dot(&self) -> Dot
        ensures { result ≡ self.now.dot }
    {
        self.op.dot()
    }

    /// The block.
    pub(crate) fn block(&self) -> &Block<A>
        ensures { result.now ≡ self.now.block }
    {
        block_within(&self.op)
    }

    /// Its status.
    pub(crate) fn status(&self) -> Status
        ensures { result ≡ self.now.status }
    {
        self.status
    }

    /// Writes its status.
    pub(crate) fn set_status(&mut self, status: Status)
        ensures { self.new ≡ record self.old { status = status } }
    {
        self.status = status;
    }
}

/// The block of an operation.
pub(crate) fn block_within<A: Allocator>(op: &Op<A>) -> &Block<A>
    requires { IsSome (block_of op.now.body) }
    ensures { result.now ≡ block_in op.now.body }
{
    match op.body() {
        Body::Block(block) => block,
        Body::Period(_) | Body::Note(_) | Body::Removal(_) => unreachable!(),
    }
}

/// The block of an operation alone.
pub(crate) fn into_block<A: Allocator>(op: Op<A>) -> Block<A>
    requires { IsSome (block_of op.body) }
    ensures { result ≡ block_in op.body }
{
    match op.into_body() {
        Body::Block(block) => block,
        Body::Period(_) | Body::Note(_) | Body::Removal(_) => unreachable!(),
    }
}

/// The block that is searched, under its dot.
#[derive(Clone, Copy)]
pub(crate) struct Sought<'a, A: Allocator> {
    pub(crate) dot: &'a Dot,
    pub(crate) block: &'a Block<A>,
}

impl<A: Allocator> Probe<Entry<A>> for Sought<'_, A> {
    ghost order = { λ s e. filing_cmp (filing_of e) (s.dot.now, s.block.now) };

    // By the first place, then by the dot, then by the block.
    fn compare(&self, entry: &Entry<A>) -> Ordering {
        let block = entry.block();
        let starts = block.start().cmp(&self.block.start());
        starts.then_with(|| entry
            .dot()
            .cmp(self.dot)
            .then_with(|| block.cmp(self.block)))
    }
}

/// That an entry is settled.
#[derive(Clone, Copy)]
pub(crate) struct IsSettled;

impl<A: Allocator> Test<Entry<A>> for IsSettled {
    ghost passes = { λ _ e. not (is_pending e.status) };

    fn passes(&self, entry: &Entry<A>) -> bool {
        entry.status() != Status::Pending
    }
}

/// That an entry gets this status.
#[derive(Clone, Copy)]
pub(crate) struct Judged {
    pub(crate) status: Status,
}

impl<A: Allocator> Change<Entry<A>> for Judged {
    ghost changed = { λ j e. record e { status = j.status } };

    fn change(&self, entry: &mut Entry<A>) {
        entry.set_status(self.status);
    }
}
