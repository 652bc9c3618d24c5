//! Lists that strictly rise.

ghost use Rattle.std.specs.Prelude.{◌≡◌};
ghost use Rattle.oct_ops.specs.Sets.{rises};

/// Whether the list strictly rises: each item is below the next.
pub fn rises<T: Ord>(items: &[T]) -> bool
    ensures { result ≡ rises T.cmp items.now }
{
    items.is_sorted_by(|item, next| item.cmp(next).is_lt())
}
