//! The operations of a set, to be shared with others.

ghost use Rattle.std.specs.Prelude.{◌≡◌, length};
ghost use Rattle.std.specs.Iterator.{at_most};
ghost use Rattle.std.specs.Map.Iter.{TakesFirst};
ghost use Rattle.oct_join.specs.Shared.{contents};

use crate::shared::Shared;
use chunked::Iter;
use oct_ops::Op;
use std::alloc::Allocator;
use std::marker::Model;
use std::rc::Rc;

/// An iterator over what refers to the operations of a set, in their order, so that another keeps them too and copies none. It
/// is seen as the list of the operations that are left.
#[derive(Drop)]
pub struct SharedOps<'a, A: Allocator> {
    shared: Iter<'a, Shared<A>, A>,
}

impl<'a, A: Allocator> Model for SharedOps<'a, A> {
    ghost use Rattle.std.specs.Prelude.{List};
    ghost use Rattle.oct_join.specs.Shared.{contents};
    ghost use Rattle.oct_ops.specs.Body.{Operation};

    ghost Value = { List Operation };

    ghost view = { λ ops. contents ops.shared };
}

impl<'a, A: Allocator> SharedOps<'a, A> {
    /// What refers to the operations.
    pub(crate) fn new(shared: Iter<'a, Shared<A>, A>) -> SharedOps<'a, A>
        ensures { result ≡ contents shared.entry }
    {
        SharedOps { shared }
    }
}

impl<'a, A: Allocator> Iterator for SharedOps<'a, A> {
    type Item = &'a Rc<Op<A>, A>;

    ghost next_gives = { TakesFirst (λ r. r.now.value) };

    ghost remaining = { λ s. at_most (length s) };

    fn next(&mut self) -> Option<&'a Rc<Op<A>, A>> {
        match self.shared.next() {
            Some(shared) => Some(shared.reference()),
            None => None,
        }
    }

    fn size_hint(&self) -> (usize, Option<usize>) {
        self.shared.size_hint()
    }
}
