//! A reference to an operation.

ghost use Rattle.std.specs.Prelude.{◌≡◌};

use oct_ops::Op;
use std::alloc::Allocator;
use std::marker::Model;
use std::rc::Rc;

/// A reference to an operation, which others have too. It is seen as the operation.
#[derive(Drop)]
pub(crate) struct Shared<A: Allocator> {
    op: Rc<Op<A>, A>,
}

impl<A: Allocator> Model for Shared<A> {
    ghost use Rattle.oct_ops.specs.Body.{Operation};

    ghost Value = { Operation };

    ghost view = { λ s. s.op.value };
}

impl<A: Allocator> Shared<A> {
    /// The operation, to be kept with others.
    pub(crate) fn new(op: Rc<Op<A>, A>) -> Shared<A>
        ensures { result ≡ op.value }
    {
        Shared { op }
    }

    /// The operation.
    pub(crate) fn op(&self) -> &Op<A>
        ensures { result.now ≡ self.now }
    {
        self.op.as_ref()
    }
}
