//! Lists that are ordered by their lengths first.

ghost use Rattle.std.specs.Prelude.{◌≡◌, IfOk};
ghost use Rattle.oct_ops.specs.ListOrder.{list_cmp};

use std::alloc::{AllocError, Allocator};
use std::cmp::Ordering;
use std::marker::Model;

/// Which of two lists is the lesser: the shorter one, and of two that are as long the first item that differs decides.
pub(crate) fn compare<T: Ord>(mine: &[T], others: &[T]) -> Ordering
    ensures { result ≡ list_cmp T.cmp mine.now others.now }
{
    match mine.len().cmp(&others.len()) {
        Ordering::Equal => mine.cmp(others),
        lens => lens,
    }
}

/// A list, ordered as `compare` says.
#[derive(Drop)]
pub(crate) struct Items<T, A: Allocator> {
    items: Vec<T, A>,
}

impl<T, A: Allocator> Model for Items<T, A> {
    ghost use Rattle.std.specs.Prelude.{List};

    ghost Value = { List T };

    ghost view = { λ a. a.items.items };
}

impl<T, A: Allocator> Items<T, A> {
    /// The list of a vector.
    pub(crate) fn new(items: Vec<T, A>) -> Self
        ensures { result ≡ items.items }
    {
        Items { items }
    }

    /// The items in their order.
    pub(crate) fn as_slice(&self) -> &[T]
        ensures { result.now ≡ self.now }
    {
        self.items.as_slice()
    }

    /// The items, given up by the list.
    pub(crate) fn into_vec(self) -> Vec<T, A>
        ensures { result.items ≡ self }
    {
        let Items { items } = self;
        items
    }
}

impl<T: Copy, A: Allocator> Items<T, A> {
    /// An equal list, in memory of `alloc`.
    pub(crate) fn copy(&self, alloc: A) -> Result<Items<T, A>, AllocError>
        ensures { IfOk result (λ copy. copy ≡ self.now) }
    {
        Ok(Items {
            items: Vec::from_slice(alloc, &self.items)?,
        })
    }
}

impl<T: Ord, A: Allocator> PartialEq for Items<T, A> {
    ghost use Rattle.std.specs.Ordering.{eq_by_cmp};
    ghost use Rattle.oct_ops.specs.ListOrder.{list_cmp, list_eq_partial};

    ghost eq = { eq_by_cmp (list_cmp T.cmp) };

    ghost laws = { list_eq_partial T.total };

    fn eq(&self, other: &Self) -> bool {
        self.cmp(other).is_eq()
    }
}

impl<T: Ord, A: Allocator> Eq for Items<T, A> {
    ghost use Rattle.oct_ops.specs.ListOrder.{list_eq_equiv};

    ghost laws = { list_eq_equiv T.total };
}

impl<T: Ord, A: Allocator> Ord for Items<T, A> {
    ghost use Rattle.std.specs.Prelude.{refl};
    ghost use Rattle.oct_ops.specs.ListOrder.{list_cmp, list_cmp_total};

    ghost cmp = { list_cmp T.cmp };

    ghost total = { list_cmp_total T.total };

    ghost matches_partial_cmp = { λ a b. refl };

    ghost matches_eq = { λ a b. refl };

    fn cmp(&self, other: &Self) -> Ordering {
        compare(self.as_slice(), other.as_slice())
    }
}

impl<T: Ord, A: Allocator> PartialOrd for Items<T, A> {
    ghost use Rattle.std.specs.Ordering.{as_partial_cmp};
    ghost use Rattle.oct_ops.specs.ListOrder.{list_cmp, list_partial_order};

    ghost partial_cmp = { as_partial_cmp (list_cmp T.cmp) };

    ghost laws = { list_partial_order T.total };

    fn partial_cmp(&self, other: &Self) -> Option<Ordering> {
        Some(self.cmp(other))
    }
}
