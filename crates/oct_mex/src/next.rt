//! The mex of the options' nim-values.

ghost use Rattle.std.specs.Prelude.{◌≡◌, ℕ, ◌^◌, ◌<◌, ◌≤◌, List, IfSome, IsTrue, length, map, slice_index};
ghost use Rattle.std.specs.List.{All};
ghost use Rattle.oct_mex.specs.Marks.{IsTableFor};
ghost use Rattle.oct_mex.specs.Mex.{IsMex};
ghost use Rattle.oct_mex.specs.NimValues.{IsOptionValue};
ghost use Rattle.oct_mex.specs.Rare.{IsFit, Lists};
ghost use Rattle.oct_mex.specs.Totals.{IsLong, IsTable};
ghost use Rattle.oct_mex.specs.declared.mask.Mask.{Mask as MaskValue};

use crate::cell::Cell;
use crate::marks::{first_unmarked, mark, mark_listed_options, mark_one_heaps, mark_pair_options};
use crate::mask::{Mask, is_settled};
use crate::pairs::has_pair;
use crate::totals::{Table, fit_tables, is_in_totals, likely_end, mark_totals};
use oct_code::Code;
use std::alloc::Allocator;

// In the first round so many more pairs are marked, since a round has its price.
const FEW: usize = 32;

// A value is sought in the pairs that are left as soon as so many times as many are marked. To look at a pair takes a quarter of the
// time that it takes to mark it, but a value that some pair has is sought in vain.
const PRICE: usize = 2;

// Under a mask so many pairs are marked before a value is sought in all others, which mostly is in none.
const EARLY: usize = 1_024;

/// The nim-value of the first heap that is not in the list, by a table of marks with room for the values of its options,
/// and by the tables of the totals, if there are any and there is room in them. Where `narrow` has as many values as the list, the
/// same in narrower cells, numbers are sought in these.
pub(crate) fn next_value<T: Cell, N: Cell, A: Allocator>(
    code: &Code,
    values: &[T],
    narrow: &[N],
    mask: Mask,
    heaps: &[u32],
    beside: &[T],
    tables: &mut [Table<A>],
    marks: &mut [bool],
) -> usize
    requires heap { length values.now < 2 ^ 32 }
    requires same { length narrow.now ≡ length values.now → map N.number narrow.now ≡ map T.number values.now }
    requires fit { IsFit code.now mask }
    requires listed { Lists mask (map T.number values.now) (length values.now) heaps.now (map T.number beside.now) }
    requires table { IsTableFor (map T.number values.now) (length marks.old) }
    requires tables { All (IsTable mask (map T.number values.now)) tables.old }
    ensures size { length marks.new ≡ length marks.old }
    ensures within { result ≤ length marks.old }
    ensures value { IsMex (IsOptionValue code.now (slice_index (map T.number values.now)) (length values.now)) result }
    ensures count { length tables.new ≡ length tables.old }
    ensures tables { All (IsTable mask (map T.number values.now)) tables.new }
{
    if narrow.len() == values.len() {
        next_in(code, values, narrow, mask, heaps, beside, tables, marks)
    } else {
        next_in(code, values, values, mask, heaps, beside, tables, marks)
    }
}

// The same by the same values in cells that are compared.
fn next_in<T: Cell, N: Cell, A: Allocator>(
    code: &Code,
    values: &[T],
    compared: &[N],
    mask: Mask,
    heaps: &[u32],
    beside: &[T],
    tables: &mut [Table<A>],
    marks: &mut [bool],
) -> usize
    requires heap { length values.now < 2 ^ 32 }
    requires same { map N.number compared.now ≡ map T.number values.now }
    requires fit { IsFit code.now mask }
    requires listed { Lists mask (map T.number values.now) (length values.now) heaps.now (map T.number beside.now) }
    requires table { IsTableFor (map T.number values.now) (length marks.old) }
    requires tables { All (IsTable mask (map T.number values.now)) tables.old }
    ensures size { length marks.new ≡ length marks.old }
    ensures within { result ≤ length marks.old }
    ensures value { IsMex (IsOptionValue code.now (slice_index (map T.number values.now)) (length values.now)) result }
    ensures count { length tables.new ≡ length tables.old }
    ensures tables { All (IsTable mask (map T.number values.now)) tables.new }
{
    if are_ready(tables, marks.len()) {
        next_by_totals(code, values, compared, mask, heaps, beside, tables, marks)
    } else {
        next_by_marks(code, values, compared, mask, heaps, beside, marks)
    }
}

// Makes the tables so long, where there are any and there is room.
fn are_ready<A: Allocator>(tables: &mut [Table<A>], size: usize) -> bool
    ensures count { length tables.new ≡ length tables.old }
    ensures some { IsTrue result → 0 < length tables.new }
    ensures kept { (mask : MaskValue) (all : List ℕ) → All (IsTable mask all) tables.old → All (IsTable mask all) tables.new }
    ensures long { IsTrue result → All (IsLong size) tables.new }
{
    !tables.is_empty() && fit_tables(tables, size)
}

/// The same by the table of marks alone; numbers are sought in `compared`, which has the same values.
///
/// The options of at most one heap or of a listed heap are marked first. Every other option leaves two common heaps, and
/// so has a value that is rare at this heap: the least value that is not marked is the mex as soon as it is common here.
/// Until then either further pairs are marked, in each round a quarter more and some, or the least value that is not
/// marked is sought in all pairs that are left, and is the mex if none has it: whichever has cost less so far, where a pair
/// that is looked at counts twice.
pub(crate) fn next_by_marks<T: Cell, N: Cell>(
    code: &Code,
    values: &[T],
    compared: &[N],
    mask: Mask,
    heaps: &[u32],
    beside: &[T],
    marks: &mut [bool],
) -> usize
    requires heap { length values.now < 2 ^ 32 }
    requires same { map N.number compared.now ≡ map T.number values.now }
    requires fit { IsFit code.now mask }
    requires listed { Lists mask (map T.number values.now) (length values.now) heaps.now (map T.number beside.now) }
    requires table { IsTableFor (map T.number values.now) (length marks.old) }
    ensures size { length marks.new ≡ length marks.old }
    ensures within { result ≤ length marks.old }
    ensures value { IsMex (IsOptionValue code.now (slice_index (map T.number values.now)) (length values.now)) result }
{
    let heap = values.len();
    marks.fill(false);
    mark_listed_options(code, values, heaps, beside, marks);
    let mut least = first_unmarked(marks, 0);
    let mut end = 1;
    let mut sought = 1;
    while end <= heap / 2 && least < marks.len() && !is_settled(mask, heap, least) {
        if let Some(value) = cell_sought(mask, heap / 2 - end, end, sought, least) {
            if !has_pair(code, compared, end, value) {
                return least;
            }
            mark(marks, least);
            sought = usize::saturating_add(sought, 1);
        } else {
            let next = end + end / 4 + FEW;
            mark_pair_options(code, values, end, next, marks);
            end = next;
        }
        least = first_unmarked(marks, least);
    }
    least
}

// The same by the tables of the totals, which are as long as the table of marks: what they mark is marked there, too.
fn next_by_totals<T: Cell, N: Cell, A: Allocator>(
    code: &Code,
    values: &[T],
    compared: &[N],
    mask: Mask,
    heaps: &[u32],
    beside: &[T],
    tables: &mut [Table<A>],
    marks: &mut [bool],
) -> usize
    requires heap { length values.now < 2 ^ 32 }
    requires same { map N.number compared.now ≡ map T.number values.now }
    requires fit { IsFit code.now mask }
    requires listed { Lists mask (map T.number values.now) (length values.now) heaps.now (map T.number beside.now) }
    requires table { IsTableFor (map T.number values.now) (length marks.old) }
    requires some { 0 < length tables.old }
    requires long { All (IsLong (length marks.old)) tables.old }
    requires tables { All (IsTable mask (map T.number values.now)) tables.old }
    ensures size { length marks.new ≡ length marks.old }
    ensures within { result ≤ length marks.old }
    ensures value { IsMex (IsOptionValue code.now (slice_index (map T.number values.now)) (length values.now)) result }
    ensures count { length tables.new ≡ length tables.old }
    ensures tables { All (IsTable mask (map T.number values.now)) tables.new }
{
    let heap = values.len();
    marks.fill(false);
    mark_one_heaps(code, values, marks);
    let mut end = likely_end(tables);
    mark_totals(code, values, mask, heaps, beside, end, tables, marks);
    let mut least = first_unmarked(marks, 0);
    let mut sought = 1;
    while end <= heap / 2 && least < marks.len() && !is_settled(mask, heap, least) {
        if let Some(value) = cell_sought(mask, heap / 2 - end, end, sought, least) {
            let size = marks.len();
            if !is_in_totals(
                code, values, compared, mask, heaps, beside, tables, size, value,
            ) {
                return least;
            }
            mark(marks, least);
            sought = usize::saturating_add(sought, 1);
        } else {
            end = end + end / 4 + FEW;
            mark_totals(code, values, mask, heaps, beside, end, tables, marks);
        }
        least = first_unmarked(marks, least);
    }
    least
}

// The cell of a value that is sought in the pairs that are left, rather than that more than those before `end` are
// marked.
fn cell_sought<T: Cell>(
    mask: Mask,
    left: usize,
    end: usize,
    sought: usize,
    value: usize,
) -> Option<T>
    ensures { IfSome result (λ cell. T.number cell ≡ value) }
{
    let is_early = mask.bits > 0 && end > EARLY && sought <= 2;
    if is_early || left.saturating_mul(sought).saturating_mul(PRICE) <= end {
        T::from_number(value)
    } else {
        None
    }
}
