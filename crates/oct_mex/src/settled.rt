//! The nim-value of a heap by the values of the small heaps and of the last ones.
//!
//! Where no heap above some size is rare, the options that leave a heap up to this size mostly settle the mex, and the
//! values of all others need not be known. So a list of the values of the small heaps and of the last heaps before the
//! next one will do, however many are left out between them.

ghost use Rattle.std.specs.Prelude.{◌≡◌, ◌^◌, ◌<◌, ◌≤◌, false, IfSome, length, map, slice_index};
ghost use Rattle.oct_mex.specs.Marks.{IsTableFor};
ghost use Rattle.oct_mex.specs.Rare.{AreBeside, is_rare};
ghost use Rattle.oct_mex.specs.Windows.{Settles};

use crate::cell::Cell;
use crate::marks::{first_unmarked, mark_listed_options, mark_pair_options};
use crate::mask::is_rare;
use crate::rare::Rare;
use oct_code::Code;
use std::alloc::Allocator;

// In the first round so many more pairs are marked, since a round has its price.
const FEW: usize = 32;

/// The least number that no option has of those that leave at most one heap, a listed heap, or a heap up to `reach`, if
/// a value like it is common at the heap `heap`. The list holds the values of the heaps before it, or of those up to
/// `reach` and then of the last ones.
pub fn settled_value<T: Cell, A: Allocator>(
    code: &Code,
    values: &[T],
    rare: &Rare<T, A>,
    heap: usize,
    reach: usize,
    marks: &mut [bool],
) -> Option<usize>
    requires reach { reach < length values.now }
    requires limited { reach < 2 ^ 32 }
    requires beside { AreBeside (map T.number values.now) rare.now.heaps.items (map T.number rare.now.values.items) }
    requires table { IsTableFor (map T.number values.now) (length marks.old) }
    ensures size { length marks.new ≡ length marks.old }
    ensures within { IfSome result (λ value. value ≤ length marks.old) }
    ensures common { IfSome result (λ value. is_rare rare.now.mask heap value ≡ false) }
    ensures settles { IfSome result (Settles code.now (slice_index (map T.number values.now)) (length values.now) rare.now.heaps.items reach (length marks.old)) }
{
    let parity = heap % 2;
    marks.fill(false);
    mark_listed_options(code, values, &rare.heaps, &rare.values, marks);
    let mut least = first_unmarked(marks, 0);
    let mut end = 1;
    while end <= reach && least < marks.len() && is_rare(rare.mask, parity, least) {
        let next = (end * 2 + FEW).min(reach + 1);
        mark_pair_options(code, values, end, next, marks);
        end = next;
        least = first_unmarked(marks, least);
    }
    if is_rare(rare.mask, parity, least) {
        None
    } else {
        Some(least)
    }
}
