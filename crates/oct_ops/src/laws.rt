//! What holds of the operation order, and the limits as numbers.

ghost use Rattle.std.specs.Prelude.{◌≡◌};
ghost use Rattle.oct_ops.specs.declared.kinds.TheConstants.{BLOCK, PERIOD, NOTE, REMOVAL};
ghost use Rattle.oct_ops.specs.declared.limits.TheConstants.{MAX_ITEMS, MAX_NAME, MAX_TEXT};
ghost use Rattle.oct_ops.specs.Laws.{OrderIsTotal, TiesAreEqual};

/// The operation order is total, operations that tie in it are equal.
pub fn the_operation_order_is_total()
    ensures total { OrderIsTotal }
    ensures equal { TiesAreEqual }
{}

/// The limits as numbers: the most values of a block and dots of a removal, and the most bytes of a note's name and text.
pub fn the_limits_are_these()
    ensures items { MAX_ITEMS ≡ 1024 }
    ensures name { MAX_NAME ≡ 32 }
    ensures text { MAX_TEXT ≡ 200 }
{}

/// The numbers of the kinds: blocks, period claims, notes, removals.
pub fn the_kinds_are_these()
    ensures block { BLOCK ≡ 1 }
    ensures period { PERIOD ≡ 2 }
    ensures note { NOTE ≡ 3 }
    ensures removal { REMOVAL ≡ 4 }
{}
