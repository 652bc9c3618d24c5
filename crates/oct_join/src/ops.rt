//! The operations of a set, in their order.

ghost use Rattle.std.specs.Prelude.{◌≡◌, length, ⊤};
ghost use Rattle.std.specs.Iterator.{at_most};
ghost use Rattle.std.specs.Map.Iter.{TakesFirst, deref};
ghost use Rattle.oct_join.specs.Shared.{contents};

use crate::shared::Shared;
use chunked::Iter;
use oct_ops::Op;
use std::alloc::{AllocError, Allocator};
use std::iter::FusedIterator;
use std::marker::Model;

/// An iterator over the operations of a set, in their order. It is seen as the list of those that are left.
#[derive(Drop)]
pub struct Ops<'a, A: Allocator> {
    shared: Iter<'a, Shared<A>, A>,
}

impl<'a, A: Allocator> Model for Ops<'a, A> {
    ghost use Rattle.std.specs.Prelude.{List};
    ghost use Rattle.oct_join.specs.Shared.{contents};
    ghost use Rattle.oct_ops.specs.Body.{Operation};

    ghost Value = { List Operation };

    ghost view = { λ ops. contents ops.shared };
}

impl<'a, A: Allocator> Ops<'a, A> {
    /// The operations that are shared.
    pub(crate) fn new(shared: Iter<'a, Shared<A>, A>) -> Ops<'a, A>
        ensures { result ≡ contents shared.entry }
    {
        Ops { shared }
    }
}

impl<'a, A: Allocator> Iterator for Ops<'a, A> {
    type Item = &'a Op<A>;

    ghost next_gives = { TakesFirst deref };

    ghost remaining = { λ s. at_most (length s) };

    fn next(&mut self) -> Option<&'a Op<A>> {
        match self.shared.next() {
            Some(shared) => Some(shared.op()),
            None => None,
        }
    }

    fn size_hint(&self) -> (usize, Option<usize>) {
        self.shared.size_hint()
    }
}

impl<'a, A: Allocator> ExactSizeIterator for Ops<'a, A> {
    fn len(&self) -> usize {
        self.shared.len()
    }
}

impl<'a, A: Allocator> FusedIterator for Ops<'a, A> {}

impl<'a, A: Allocator> Clone for Ops<'a, A> {
    ghost is_clone = { λ s r. r ≡ s };

    ghost is_infallible = { λ _. ⊤ };

    fn clone(&self) -> Result<Ops<'a, A>, AllocError> {
        Ok(Ops {
            shared: self.shared.clone()?,
        })
    }
}
