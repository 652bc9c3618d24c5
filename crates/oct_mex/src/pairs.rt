//! Whether an option of two heaps has a nim-value.

ghost use Rattle.std.specs.Prelude.{◌≡◌, ◌+◌, ◌/◌, ◌<◌, ◌≤◌, ◌↔◌, IsTrue, length, map, slice_index};
ghost use Rattle.oct_mex.specs.Marks.{IsPairValue};
ghost use Rattle.oct_mex.specs.Marked.{IsLatePair};

use crate::cell::{Cell, LANES};
use oct_code::Code;

/// Whether an option of the first heap that is not in the list leaves two heaps whose values have an exclusive or, the
/// smaller one from `from` on.
pub(crate) fn has_pair<T: Cell>(code: &Code, values: &[T], from: usize, value: T) -> bool
    requires { 1 ≤ from }
    ensures { IsTrue result ↔ IsLatePair code.now (slice_index (map T.number values.now)) (length values.now) from (T.number value) }
{
    for removed in 0..code.len().min(values.len()) + 1 {
        if code.allows(removed, 2) && is_met(values, values.len() - removed, from, value) {
            return true;
        }
    }
    false
}

/// Whether the values of two heaps of so many beans, the smaller one from `from` on, have an exclusive or.
pub(crate) fn is_met<T: Cell>(values: &[T], rest: usize, from: usize, value: T) -> bool
    requires some { 1 ≤ from }
    requires held { rest ≤ length values.now }
    ensures { IsTrue result ↔ IsPairValue (slice_index (map T.number values.now)) rest from (rest / 2 + 1) (T.number value) }
{
    let end = rest / 2 + 1;
    let mut at = from;
    while at < end && LANES <= end - at {
        if T::has_nim_sum(values, rest, at, value) {
            return true;
        }
        at += LANES;
    }
    for a in at..end {
        if values[a].number() ^ values[rest - a].number() == value.number() {
            return true;
        }
    }
    false
}
