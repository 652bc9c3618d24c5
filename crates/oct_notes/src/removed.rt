//! The dots that removals name.

ghost use Rattle.std.specs.Prelude.{◌≡◌};
ghost use Rattle.std.specs.List.{list_any};
ghost use Rattle.std.specs.Ordering.{eq_by_cmp};
ghost use Rattle.oct_ops.specs.DotOrder.{dot_cmp};
ghost use Rattle.oct_ops.specs.Operation.{Dot as DotValue};
ghost use Rattle.oct_notes.specs.Notes.{leaves};

use oct_ops::{Body, Dot, Op};
use std::alloc::Allocator;
use std::marker::Model;

/// Dots in their order, of which one may be there more than once.
#[derive(Drop)]
pub(crate) struct Removed<A: Allocator> {
    dots: Vec<Dot, A>,
}

impl<A: Allocator> Model for Removed<A> {
    ghost use Rattle.std.specs.Prelude.{List};
    ghost use Rattle.std.specs.List.Sorted.{IsSorted};
    ghost use Rattle.oct_ops.specs.DotOrder.{dot_cmp};
    ghost use Rattle.oct_ops.specs.Operation.{Dot as DotValue};

    ghost Value = { List DotValue };

    ghost view = { λ r. r.dots.items };

    ghost invariant = { λ r. IsSorted dot_cmp r.dots.items };
}

impl<A: Allocator> Removed<A> {
    /// These dots, in whatever order they come.
    pub(crate) fn new(mut dots: Vec<Dot, A>) -> Removed<A>
        ensures { (d : DotValue) → list_any (eq_by_cmp dot_cmp d) result ≡ list_any (eq_by_cmp dot_cmp d) dots.items }
    {
        dots.sort_unstable();
        Removed { dots }
    }

    // Whether the dot is one of them.
    fn contains(&self, dot: &Dot) -> bool
        ensures { result ≡ list_any (eq_by_cmp dot_cmp dot.now) self.now }
    {
        self.dots.binary_search(dot).is_ok()
    }

    /// Whether the operation is a note, and its dot is none of these.
    pub(crate) fn leaves(&self, op: &Op<A>) -> bool
        ensures { result ≡ leaves self.now op.now }
    {
        matches!(op.body(), Body::Note(_)) && !self.contains(&op.dot())
    }
}
