//! What is withdrawn.

ghost use Rattle.std.specs.Prelude.{◌≡◌, IfOk, map};
ghost use Rattle.std.specs.List.{list_any};
ghost use Rattle.std.specs.Ordering.{eq_by_cmp};
ghost use Rattle.oct_ops.specs.DotOrder.{dot_cmp};
ghost use Rattle.oct_ops.specs.Operation.{Dot as DotValue};
ghost use Rattle.oct_said.specs.Dots.{is_withdrawn, withdrawn_dots};

use crate::dots::withdrawn_by;
use oct_ops::{Dot, Op};
use std::alloc::{AllocError, Allocator};
use std::marker::Model;

/// The dots of what is withdrawn, in their order, of which one may be there more than once.
#[derive(Drop)]
pub struct Withdrawn<A: Allocator> {
    dots: Vec<Dot, A>,
}

impl<A: Allocator> Model for Withdrawn<A> {
    ghost use Rattle.std.specs.Prelude.{List};
    ghost use Rattle.std.specs.List.Sorted.{IsSorted};
    ghost use Rattle.oct_ops.specs.DotOrder.{dot_cmp};
    ghost use Rattle.oct_ops.specs.Operation.{Dot as DotValue};

    ghost Value = { List DotValue };

    ghost view = { λ w. w.dots.items };

    ghost invariant = { λ w. IsSorted dot_cmp w.dots.items };
}

impl<A: Allocator + Copy> Withdrawn<A> {
    /// Those that the notes withdraw.
    pub fn among(alloc: A, notes: &[&Op<A>]) -> Result<Withdrawn<A>, AllocError>
        ensures { IfOk result (λ found. (d : DotValue) → list_any (eq_by_cmp dot_cmp d) found ≡ is_withdrawn (map (λ op. op.now) notes.now) d) }
    {
        let dots = withdrawn_among(alloc, notes)?;
        Ok(Withdrawn::new(dots))
    }

    // These dots, in whatever order they come.
    fn new(mut dots: Vec<Dot, A>) -> Withdrawn<A>
        ensures { (d : DotValue) → list_any (eq_by_cmp dot_cmp d) result ≡ list_any (eq_by_cmp dot_cmp d) dots.items }
    {
        dots.sort_unstable();
        Withdrawn { dots }
    }

    /// Whether the dot is one of them.
    pub fn has(&self, dot: &Dot) -> bool
        ensures { result ≡ list_any (eq_by_cmp dot_cmp dot.now) self.now }
    {
        self.dots.binary_search(dot).is_ok()
    }
}

// The dots that the notes withdraw, in the order of the notes.
fn withdrawn_among<A: Allocator + Copy>(
    alloc: A,
    notes: &[&Op<A>],
) -> Result<Vec<Dot, A>, AllocError>
    ensures { IfOk result (λ found. found.items ≡ withdrawn_dots (map (λ op. op.now) notes.now)) }
{
    let mut found = Vec::new(alloc);
    for op in notes {
        if let Some(dot) = withdrawn_by(alloc, op)? {
            found.push(dot)?;
        }
    }
    Ok(found)
}
