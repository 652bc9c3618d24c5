//! A table that marks the nim-values of options.

ghost use Rattle.std.specs.Prelude.{◌≡◌, ℕ, ◌+◌, ◌*◌, ◌/◌, ◌^◌, ◌<◌, ◌≤◌, ◌↔◌, IsTrue, length, map, min, slice_index};
ghost use Rattle.oct_code.specs.Code as octal;
ghost use Rattle.oct_mex.specs.Marks.{AddsMarks, IsBelow, IsMarked, IsOneHeapBy, IsPairBy, IsPairValue, IsPairWith, IsRareBy, IsRarePair, IsTableFor};
ghost use Rattle.oct_mex.specs.Rare.{AreBeside};

use crate::cell::{Cell, LANES};
use oct_code::{Code, LIMIT};

// So many numbers of beans in a row, which pairs of heaps have, are gone through together.
const TOTALS: usize = 3;

// So many marks are looked at together.
const RANGE: usize = 32;

/// How long a table can get whose length is a power of two above the nim-values of the heaps up to a size.
pub(crate) fn table_len(code: &Code, heap: usize) -> usize
    requires { heap ≤ LIMIT }
    ensures value { result ≡ 2 * ((octal.len code.now + 1) * (heap / 2 + 1)) }
    ensures small { result < 2 ^ 32 }
{
    2 * ((code.len() + 1) * (heap / 2 + 1))
}

/// Marks the nim-values of the options that leave at most one heap, or a heap of the list, beside which its value
/// stands.
pub(crate) fn mark_listed_options<T: Cell>(
    code: &Code,
    values: &[T],
    heaps: &[u32],
    beside: &[T],
    marks: &mut [bool],
)
    requires beside { AreBeside (map T.number values.now) heaps.now (map T.number beside.now) }
    requires table { IsTableFor (map T.number values.now) (length marks.old) }
    ensures { AddsMarks marks.old marks.new (IsBelow (IsRareBy code.now (slice_index (map T.number values.now)) (length values.now) heaps.now) (min (octal.len code.now) (length values.now) + 1)) }
{
    let end = code.len().min(values.len()) + 1;
    let mut removed = 0;
    while removed < end {
        if TOTALS <= end - removed && may_split(code, removed, removed + TOTALS) {
            mark_listed_removals(code, values, heaps, beside, removed, marks);
            removed += TOTALS;
        } else {
            mark_listed_removal(code, values, heaps, beside, removed, marks);
            removed += 1;
        }
    }
}

// Whether each removal of so many beans may leave two heaps.
fn may_split(code: &Code, from: usize, end: usize) -> bool
    ensures { IsTrue result → (removed : ℕ) → from ≤ removed → removed < end → IsTrue (octal.allows code.now removed 2) }
{
    for removed in from..end {
        if !code.allows(removed, 2) {
            return false;
        }
    }
    true
}

// Marks the nim-values of the options that remove so many beans and leave at most one heap, or a heap of the list.
fn mark_listed_removal<T: Cell>(
    code: &Code,
    values: &[T],
    heaps: &[u32],
    beside: &[T],
    removed: usize,
    marks: &mut [bool],
)
    requires held { removed ≤ length values.now }
    requires few { removed ≤ octal.len code.now }
    requires beside { AreBeside (map T.number values.now) heaps.now (map T.number beside.now) }
    requires table { IsTableFor (map T.number values.now) (length marks.old) }
    ensures { AddsMarks marks.old marks.new (IsRareBy code.now (slice_index (map T.number values.now)) (length values.now) heaps.now removed) }
{
    mark_one_heap(code, values, removed, marks);
    if code.allows(removed, 2) {
        mark_listed_pairs(values, heaps, beside, values.len() - removed, marks);
    }
}

// The same for `TOTALS` removals that may leave two heaps: each heap of the list is read once for all of them.
fn mark_listed_removals<T: Cell>(
    code: &Code,
    values: &[T],
    heaps: &[u32],
    beside: &[T],
    removed: usize,
    marks: &mut [bool],
)
    requires held { removed + TOTALS ≤ length values.now + 1 }
    requires few { removed + TOTALS ≤ octal.len code.now + 1 }
    requires allowed { (each : ℕ) → removed ≤ each → each < removed + TOTALS → IsTrue (octal.allows code.now each 2) }
    requires beside { AreBeside (map T.number values.now) heaps.now (map T.number beside.now) }
    requires table { IsTableFor (map T.number values.now) (length marks.old) }
    ensures { AddsMarks marks.old marks.new (IsBelow (λ more. IsRareBy code.now (slice_index (map T.number values.now)) (length values.now) heaps.now (removed + more)) TOTALS) }
{
    for more in 0..TOTALS {
        mark_one_heap(code, values, removed + more, marks);
    }
    mark_listed_totals(
        values,
        heaps,
        beside,
        values.len() - removed - (TOTALS - 1),
        marks,
    );
}

/// Marks the nim-values of the options whose smaller heap is not empty and in the range.
pub(crate) fn mark_pair_options<T: Cell>(
    code: &Code,
    values: &[T],
    from: usize,
    end: usize,
    marks: &mut [bool],
)
    requires some { 1 ≤ from }
    requires ordered { from ≤ end }
    requires table { IsTableFor (map T.number values.now) (length marks.old) }
    ensures { AddsMarks marks.old marks.new (IsBelow (IsPairBy code.now (slice_index (map T.number values.now)) (length values.now) from end) (min (octal.len code.now) (length values.now) + 1)) }
{
    for removed in 0..code.len().min(values.len()) + 1 {
        if code.allows(removed, 2) {
            mark_pairs(values, values.len() - removed, from, end, marks);
        }
    }
}

/// Marks the nim-values of the options that leave at most one heap.
pub(crate) fn mark_one_heaps<T: Cell>(code: &Code, values: &[T], marks: &mut [bool])
    requires { IsTableFor (map T.number values.now) (length marks.old) }
    ensures { AddsMarks marks.old marks.new (IsBelow (IsOneHeapBy code.now (slice_index (map T.number values.now)) (length values.now)) (min (octal.len code.now) (length values.now) + 1)) }
{
    for removed in 0..code.len().min(values.len()) + 1 {
        mark_one_heap(code, values, removed, marks);
    }
}

// Marks the nim-value of the option that removes so many beans and leaves at most one heap.
fn mark_one_heap<T: Cell>(code: &Code, values: &[T], removed: usize, marks: &mut [bool])
    requires held { removed ≤ length values.now }
    requires few { removed ≤ octal.len code.now }
    requires table { IsTableFor (map T.number values.now) (length marks.old) }
    ensures { AddsMarks marks.old marks.new (IsOneHeapBy code.now (slice_index (map T.number values.now)) (length values.now) removed) }
{
    let rest = values.len() - removed;
    if removed > 0 && code.allows(removed, u32::from(rest > 0)) {
        mark(marks, values[0].number() ^ values[rest].number());
    }
}

/// Marks the nim-values of the pairs of heaps that are not empty, have so many beans, and one of which is in the list.
pub(crate) fn mark_listed_pairs<T: Cell>(
    values: &[T],
    heaps: &[u32],
    beside: &[T],
    rest: usize,
    marks: &mut [bool],
)
    requires held { rest ≤ length values.now }
    requires beside { AreBeside (map T.number values.now) heaps.now (map T.number beside.now) }
    requires table { IsTableFor (map T.number values.now) (length marks.old) }
    ensures { AddsMarks marks.old marks.new (IsRarePair (slice_index (map T.number values.now)) heaps.now rest (length heaps.now)) }
{
    for at in 0..heaps.len() {
        let heap = heaps[at] as usize;
        if 0 < heap && heap < rest {
            mark(marks, beside[at].number() ^ values[rest - heap].number());
        }
    }
}

// Marks the nim-values of the pairs of heaps that are not empty, have one of `TOTALS` numbers of beans in a row, the least of
// which is `rest`, and one of which is in the list.
fn mark_listed_totals<T: Cell>(
    values: &[T],
    heaps: &[u32],
    beside: &[T],
    rest: usize,
    marks: &mut [bool],
)
    requires held { rest + TOTALS ≤ length values.now + 1 }
    requires beside { AreBeside (map T.number values.now) heaps.now (map T.number beside.now) }
    requires table { IsTableFor (map T.number values.now) (length marks.old) }
    ensures { AddsMarks marks.old marks.new (IsBelow (λ more. IsRarePair (slice_index (map T.number values.now)) heaps.now (rest + more) (length heaps.now)) TOTALS) }
{
    for at in 0..heaps.len() {
        mark_pairs_with(values, heaps[at] as usize, beside[at].number(), rest, marks);
    }
}

// The same for one heap, which has this value.
fn mark_pairs_with<T: Cell>(
    values: &[T],
    heap: usize,
    value: usize,
    rest: usize,
    marks: &mut [bool],
)
    requires held { rest + TOTALS ≤ length values.now + 1 }
    requires within { heap < length values.now }
    requires value { value ≡ slice_index (map T.number values.now) heap }
    requires table { IsTableFor (map T.number values.now) (length marks.old) }
    ensures { AddsMarks marks.old marks.new (IsBelow (λ more. IsPairWith (slice_index (map T.number values.now)) heap (rest + more)) TOTALS) }
{
    for more in 0..TOTALS {
        mark_pair_with(values, heap, value, rest + more, marks);
    }
}

// Marks the nim-value of the pair of heaps that are not empty and have so many beans, one of which is this heap.
fn mark_pair_with<T: Cell>(
    values: &[T],
    heap: usize,
    value: usize,
    total: usize,
    marks: &mut [bool],
)
    requires held { total ≤ length values.now }
    requires within { heap < length values.now }
    requires value { value ≡ slice_index (map T.number values.now) heap }
    requires table { IsTableFor (map T.number values.now) (length marks.old) }
    ensures { AddsMarks marks.old marks.new (IsPairWith (slice_index (map T.number values.now)) heap total) }
{
    if 0 < heap && heap < total {
        mark(marks, value ^ values[total - heap].number());
    }
}

/// Marks the nim-values of the pairs of heaps that have so many beans, the smaller one in the range.
pub(crate) fn mark_pairs<T: Cell>(
    values: &[T],
    rest: usize,
    from: usize,
    end: usize,
    marks: &mut [bool],
)
    requires some { 1 ≤ from }
    requires ordered { from ≤ end }
    requires held { rest ≤ length values.now }
    requires table { IsTableFor (map T.number values.now) (length marks.old) }
    ensures { AddsMarks marks.old marks.new (IsPairValue (slice_index (map T.number values.now)) rest from end) }
{
    let end = end.min(rest / 2 + 1);
    let mut at = from;
    while at < end && LANES <= end - at {
        mark_lanes(values, rest, at, marks);
        at += LANES;
    }
    for a in at..end {
        mark(marks, values[a].number() ^ values[rest - a].number());
    }
}

// The same for `LANES` pairs.
fn mark_lanes<T: Cell>(values: &[T], rest: usize, from: usize, marks: &mut [bool])
    requires some { 1 ≤ from }
    requires smaller { from + LANES ≤ rest / 2 + 1 }
    requires held { rest ≤ length values.now }
    requires table { IsTableFor (map T.number values.now) (length marks.old) }
    ensures { AddsMarks marks.old marks.new (IsPairValue (slice_index (map T.number values.now)) rest from (from + LANES)) }
{
    let sums = T::nim_sums(values, rest, from);
    for lane in 0..LANES {
        mark(marks, sums[lane].number());
    }
}

/// Marks a value.
pub(crate) fn mark(marks: &mut [bool], value: usize)
    requires { value < length marks.old }
    ensures { AddsMarks marks.old marks.new (λ v. v ≡ value) }
{
    marks[value] = true;
}

/// Marks what another table of the same length marks.
pub(crate) fn add_marks(others: &[bool], marks: &mut [bool])
    requires { length others.now ≡ length marks.old }
    ensures { AddsMarks marks.old marks.new (IsMarked others.now) }
{
    for at in 0..marks.len() {
        marks[at] |= others[at];
    }
}

/// The first place that is not marked, or the table's length, where all places before one are marked.
pub(crate) fn first_unmarked(marks: &[bool], from: usize) -> usize
    requires within { from ≤ length marks.now }
    requires marked { (v : ℕ) → v < from → IsMarked marks.now v }
    ensures behind { from ≤ result }
    ensures within { result ≤ length marks.now }
    ensures marked { (v : ℕ) → v < result → IsMarked marks.now v }
    ensures unmarked { result < length marks.now → IsMarked marks.now result → ⊥ }
{
    let mut at = from;
    while RANGE <= marks.len() - at && are_marked(marks, at) {
        at += RANGE;
    }
    for place in at..marks.len() {
        if !marks[place] {
            return place;
        }
    }
    marks.len()
}

// Whether a range of places, `RANGE` from this one on, is marked. All are looked at with no way out, so that many are at a time.
fn are_marked(marks: &[bool], from: usize) -> bool
    requires { from + RANGE ≤ length marks.now }
    ensures { IsTrue result ↔ ((v : ℕ) → from ≤ v → v < from + RANGE → IsMarked marks.now v) }
{
    let mut all = true;
    for at in from..from + RANGE {
        all &= marks[at];
    }
    all
}
