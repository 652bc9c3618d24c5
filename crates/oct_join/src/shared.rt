//! An operation that is shared.

ghost use Rattle.std.specs.Prelude.{◌≡◌};
ghost use Rattle.oct_ops.specs.Order.{op_cmp};

use oct_ops::{Dot, Op};
use std::alloc::Allocator;
use std::cmp::Ordering;
use std::marker::Model;
use std::rc::Rc;

/// An operation that is shared. Its dot stands beside the reference, so that a search among many follows few references.
#[derive(Drop)]
pub(crate) struct Shared<A: Allocator> {
    dot: Dot,
    op: Rc<Op<A>, A>,
}

impl<A: Allocator> Model for Shared<A> {
    ghost use Rattle.std.specs.Prelude.{◌≡◌};
    ghost use Rattle.oct_ops.specs.Body.{Operation};

    ghost Value = { Operation };

    ghost view = { λ s. s.op.value };

    ghost invariant = { λ s. s.dot ≡ s.op.value.dot };
}

impl<A: Allocator> Shared<A> {
    /// The operation, to be kept with others.
    pub(crate) fn new(op: Rc<Op<A>, A>) -> Shared<A>
        ensures { result ≡ op.value }
    {
        Shared { dot: op.dot(), op }
    }

    /// Who made the operation, and which of the author's operations it is.
    pub(crate) fn dot(&self) -> Dot
        ensures { result ≡ self.now.dot }
    {
        self.dot
    }

    /// What refers to the operation.
    pub(crate) fn reference(&self) -> &Rc<Op<A>, A>
        ensures { result.now.value ≡ self.now }
    {
        &self.op
    }

    /// The operation.
    pub(crate) fn op(&self) -> &Op<A>
        ensures { result.now ≡ self.now }
    {
        self.op.as_ref()
    }

    /// How the operation compares with another, which is looked at whole only where the dots are equal.
    pub(crate) fn compare(&self, other: &Op<A>) -> Ordering
        ensures { result ≡ op_cmp self.now other.now }
    {
        match self.dot.cmp(&other.dot()) {
            Ordering::Equal => self.op().cmp(other),
            dots => dots,
        }
    }
}
