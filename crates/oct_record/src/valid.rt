//! What is known of every operation that a record holds.

ghost use Rattle.std.specs.Prelude.{◌≡◌, true};
ghost use Rattle.oct_record.specs.Valid.{AreValid};

use oct_store::Store;
use std::alloc::Allocator;

/// Whether each operation keeps the ranges of its parts, which all do. `prove!` learns it by this call, which is always true.
pub(crate) fn are_valid<A: Allocator + Copy>(store: &Store<A>) -> bool
    ensures yes { result ≡ true }
    ensures valid { AreValid store.now }
{
    for op in store.iter() {
        let _dot = op.dot();
    }
    true
}
