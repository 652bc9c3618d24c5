//! The items of a list in chunks, in their order.

ghost use Rattle.std.specs.Prelude.{◌≡◌, [], length, ⊤};
ghost use Rattle.std.specs.Iterator.{at_most};
ghost use Rattle.std.specs.Map.Iter.{TakesFirst, deref};
ghost use Rattle.chunked.specs.Left.{left, IsLeft};

use std::alloc::{AllocError, Allocator};
use std::iter::FusedIterator;
use std::marker::Model;

/// An iterator over the items, in their order. It is seen as the list of those that are left.
#[derive(Drop)]
pub struct Iter<'a, T, A: Allocator> {
    chunk: &'a [T],
    chunks: &'a [Vec<T, A>],
    len: usize,
}

impl<'a, T, A: Allocator> Model for Iter<'a, T, A> {
    ghost use Rattle.std.specs.Prelude.{List};
    ghost use Rattle.chunked.specs.Left.{left, IsLeft};

    ghost Value = { List T };

    ghost view = { λ i. left i.chunk.now i.chunks.now };

    ghost invariant = { λ i. IsLeft i.chunk.now i.chunks.now i.len };
}

impl<'a, T, A: Allocator> Iter<'a, T, A> {
    /// The items of these chunks, `len` of them.
    pub(crate) fn new(chunks: &'a [Vec<T, A>], len: usize) -> Iter<'a, T, A>
        requires { IsLeft [] chunks.now len }
        ensures { result ≡ left [] chunks.now }
    {
        Iter {
            chunk: &[],
            chunks,
            len,
        }
    }
}

impl<'a, T, A: Allocator> Iterator for Iter<'a, T, A> {
    type Item = &'a T;

    ghost next_gives = { TakesFirst deref };

    ghost remaining = { λ s. at_most (length s) };

    fn next(&mut self) -> Option<&'a T> {
        while self.chunk.is_empty() {
            let (first, chunks) = self.chunks.split_first()?;
            self.chunk = first;
            self.chunks = chunks;
        }
        let chunk = self.chunk;
        self.chunk = &chunk[1..];
        self.len -= 1;
        Some(&chunk[0])
    }

    fn size_hint(&self) -> (usize, Option<usize>) {
        (self.len, Some(self.len))
    }
}

impl<'a, T, A: Allocator> ExactSizeIterator for Iter<'a, T, A> {
    fn len(&self) -> usize {
        self.len
    }
}

impl<'a, T, A: Allocator> FusedIterator for Iter<'a, T, A> {}

impl<'a, T, A: Allocator> Clone for Iter<'a, T, A> {
    ghost is_clone = { λ s r. r ≡ s };

    ghost is_infallible = { λ _. ⊤ };

    fn clone(&self) -> Result<Iter<'a, T, A>, AllocError> {
        Ok(Iter {
            chunk: self.chunk,
            chunks: self.chunks,
            len: self.len,
        })
    }
}
