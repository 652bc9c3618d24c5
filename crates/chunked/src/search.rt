//! What a list is searched by, and what is done to an item.

ghost use Rattle.std.specs.Prelude.{◌≡◌, Bool, true, false, ◌≤◌, length};
ghost use Rattle.std.specs.Ordering.{is_lt};
ghost use Rattle.std.specs.declared.cmp.Ordering.{Ordering as Order};
ghost use Rattle.std.specs.List.Sorted.{IsPartitionedBy, IsPartitionPoint};
ghost use Rattle.chunked.specs.Chunked.{starts};

use std::alloc::Allocator;
use std::cmp::Ordering;

/// A test of items. In a list that is searched by it, those that pass stand in front of the others.
pub trait Test<T> {
    ghost passes: { Self → T → Bool };

    /// Whether the item passes.
    fn passes(&self, item: &T) -> bool
        ensures { result ≡ passes self.now item.now };
}

/// What is searched in a list that is in order.
pub trait Probe<T> {
    ghost order: { Self → T → Order };

    /// How the item compares with what is searched: `Less` where it stands before it.
    fn compare(&self, item: &T) -> Ordering
        ensures { result ≡ order self.now item.now };
}

/// What is done to an item where it lies.
pub trait Change<T> {
    ghost changed: { Self → T → T };

    /// Changes the item.
    fn change(&self, item: &mut T)
        ensures { item.new ≡ changed self.now item.old };
}

/// That an item stands before what is searched.
#[derive(Clone, Copy)]
pub(crate) struct IsBefore<'a, P> {
    pub(crate) probe: &'a P,
}

impl<T, P: Probe<T>> Test<T> for IsBefore<'_, P> {
    ghost passes = { λ t e. is_lt (P.order t.probe.now e) };

    fn passes(&self, item: &T) -> bool {
        self.probe.compare(item) == Ordering::Less
    }
}

/// That the first item of a chunk passes the test, or there is none.
#[derive(Clone, Copy)]
pub(crate) struct Starts<'a, P> {
    pub(crate) test: &'a P,
}

impl<T, A: Allocator, P: Test<T>> Test<Vec<T, A>> for Starts<'_, P> {
    ghost passes = { λ s chunk. starts (P.passes s.test.now) chunk };

    fn passes(&self, chunk: &Vec<T, A>) -> bool {
        match chunk.first() {
            Some(item) => self.test.passes(item),
            None => true,
        }
    }
}

/// The index between the items that pass the test and the others. The end is tried first.
pub(crate) fn partition_point<T, P: Test<T>>(items: &[T], test: &P) -> usize
    requires { IsPartitionedBy (P.passes test.now) items.now }
    ensures point { IsPartitionPoint (λ e. P.passes test.now e ≡ true) (λ e. P.passes test.now e ≡ false) items.now result }
    ensures within { result ≤ length items.now }
{
    match items.last() {
        Some(item) if test.passes(item) => items.len(),
        _ => items.partition_point(|item| test.passes(item)),
    }
}
