//! Tables of the nim-sums of pairs of heaps, by the totals of their beans.
//!
//! The nim-sums of the pairs of heaps with so many beans together do not depend on the heap that is moved in. So where the
//! moves that leave two heaps may remove different numbers of beans, the pairs of one total serve several heaps, and what is
//! found of them is kept: the nim-sums that are marked, and the numbers that were sought among them and that none has.

ghost use Rattle.std.specs.Prelude.{◌≡◌, ℕ, ◌+◌, ◌/◌, ◌<◌, ◌≤◌, ◌↔◌, List, IsTrue, false, length, map, min, slice_index, vec_len};
ghost use Rattle.std.specs.List.{All};
ghost use Rattle.oct_code.specs.Code as octal;
ghost use Rattle.oct_mex.specs.Marks.{IsMarked, IsOptionBy, IsTableFor};
ghost use Rattle.oct_mex.specs.NimValues.{IsOptionValue};
ghost use Rattle.oct_mex.specs.Rare.{Lists};
ghost use Rattle.oct_mex.specs.Totals.{AddsSums, AddsTotals, IsLong, IsSum, IsTable};
ghost use Rattle.oct_mex.specs.declared.mask.Mask.{Mask as MaskValue};

use crate::cell::Cell;
use crate::marks::{add_marks, mark, mark_listed_pairs, mark_pairs};
use crate::mask::Mask;
use crate::pairs::is_met;
use oct_code::{Code, LIMIT};
use std::alloc::{AllocError, Allocator};

// Fewer values need no tables.
const FEWEST: usize = 1_024;

// Values are mostly below one in so many heaps.
const SHARE: usize = 6;

// Of the pairs that the last totals needed, one in so many is left out for the next one, so that they get fewer where fewer serve.
const WANES: usize = 8;

// No table is longer.
const LONGEST: usize = 65_536;

/// What is known of the pairs of heaps of one total.
#[derive(Drop)]
pub(crate) struct Table<A: Allocator> {
    // The beans of each pair.
    total: usize,
    // The pairs whose smaller heap is below it are marked.
    end: usize,
    // Numbers that are nim-sums.
    marks: Vec<bool, A>,
    // Numbers that are none.
    misses: Vec<bool, A>,
}

impl<A: Allocator> Table<A> {
    // Forgets all.
    fn clear(&mut self)
        ensures { (mask : MaskValue) (all : List ℕ) → IsTable mask all self.new }
    {
        self.total = 0;
        self.end = 1;
        self.marks.clear();
        self.misses.clear();
    }

    // Makes room for so many marks.
    fn room_to(&mut self, size: usize) -> Result<(), AllocError>
        ensures { (mask : MaskValue) (all : List ℕ) → IsTable mask all self.old → IsTable mask all self.new }
    {
        self.marks
            .reserve_exact(size.saturating_sub(self.marks.len()))?;
        self.misses
            .reserve_exact(size.saturating_sub(self.misses.len()))
    }

    // Makes the table so long, where there is room. Takes no memory.
    fn fit(&mut self, size: usize) -> bool
        ensures kept { (mask : MaskValue) (all : List ℕ) → IsTable mask all self.old → IsTable mask all self.new }
        ensures long { IsTrue result → IsLong size self.new }
    {
        if self.marks.len() == size && self.misses.len() == size {
            return true;
        }
        self.total = 0;
        self.end = 1;
        let has_marks = remake(&mut self.marks, size);
        let has_misses = remake(&mut self.misses, size);
        has_marks && has_misses
    }

    // Turns to a total, if the table is of another one: then only the pairs with a listed heap are marked.
    fn turn_to<T: Cell>(
        &mut self,
        values: &[T],
        mask: Mask,
        heaps: &[u32],
        beside: &[T],
        total: usize,
    )
        requires held { total ≤ length values.now }
        requires listed { Lists mask (map T.number values.now) (length values.now) heaps.now (map T.number beside.now) }
        requires table { IsTableFor (map T.number values.now) (length self.old.marks.items) }
        requires kept { IsTable mask (map T.number values.now) self.old }
        ensures total { self.new.total ≡ total }
        ensures long { (size : ℕ) → IsLong size self.old → IsLong size self.new }
        ensures kept { IsTable mask (map T.number values.now) self.new }
    {
        if self.total != total {
            self.total = total;
            self.end = 1;
            self.marks.fill(false);
            self.misses.fill(false);
            if mask.bits > 0 {
                mark_listed_pairs(values, heaps, beside, total, &mut self.marks);
            }
        }
    }

    // Marks the pairs whose smaller heap is below `end`.
    fn mark_to<T: Cell>(&mut self, values: &[T], end: usize)
        requires some { 1 ≤ self.old.end }
        requires held { self.old.total ≤ length values.now }
        requires table { IsTableFor (map T.number values.now) (length self.old.marks.items) }
        ensures total { self.new.total ≡ self.old.total }
        ensures end { end ≤ self.new.end }
        ensures long { (size : ℕ) → IsLong size self.old → IsLong size self.new }
        ensures kept { (mask : MaskValue) → IsTable mask (map T.number values.now) self.old → IsTable mask (map T.number values.now) self.new }
    {
        if self.end < end {
            mark_pairs(values, self.total, self.end, end, &mut self.marks);
            self.end = end;
        }
    }

    // Turns to a total, and marks there its pairs whose smaller heap is below `end`, and in a table of marks what is marked.
    fn mark_sums<T: Cell>(
        &mut self,
        values: &[T],
        mask: Mask,
        heaps: &[u32],
        beside: &[T],
        total: usize,
        end: usize,
        marks: &mut [bool],
    )
        requires held { total ≤ length values.now }
        requires listed { Lists mask (map T.number values.now) (length values.now) heaps.now (map T.number beside.now) }
        requires table { IsTableFor (map T.number values.now) (length marks.old) }
        requires long { IsLong (length marks.old) self.old }
        requires kept { IsTable mask (map T.number values.now) self.old }
        ensures long { IsLong (length marks.old) self.new }
        ensures kept { IsTable mask (map T.number values.now) self.new }
        ensures marked { AddsSums mask (map T.number values.now) total end marks.old marks.new }
    {
        self.turn_to(values, mask, heaps, beside, total);
        self.mark_to(values, end);
        add_marks(&self.marks, marks);
    }

    // Whether a value is a nim-sum of the total. The answer is kept.
    fn has_sum<T: Cell>(&mut self, values: &[T], value: T) -> bool
        requires some { 1 ≤ self.old.end }
        requires held { self.old.total ≤ length values.now }
        requires marks { T.number value < length self.old.marks.items }
        requires misses { T.number value < length self.old.misses.items }
        ensures is { (mask : MaskValue) → IsTable mask (map T.number values.now) self.old → IsTrue result ↔ IsSum (map T.number values.now) self.old.total (T.number value) }
        ensures total { self.new.total ≡ self.old.total }
        ensures long { (size : ℕ) → IsLong size self.old → IsLong size self.new }
        ensures kept { (mask : MaskValue) → IsTable mask (map T.number values.now) self.old → IsTable mask (map T.number values.now) self.new }
    {
        let at = value.number();
        if self.marks[at] {
            return true;
        }
        if self.misses[at] {
            return false;
        }
        let is_sum = is_met(values, self.total, self.end, value);
        if is_sum {
            mark(&mut self.marks, at);
        } else {
            mark(&mut self.misses, at);
        }
        is_sum
    }
}

// Unmarks all, and makes the list so long, where there is room. Takes no memory.
fn remake<A: Allocator>(marks: &mut Vec<bool, A>, size: usize) -> bool
    ensures unmarked { (v : ℕ) → v < length marks.new.items → IsMarked marks.new.items v → ⊥ }
    ensures long { IsTrue result → length marks.new.items ≡ size }
{
    marks.clear();
    if marks.capacity() < size {
        return false;
    }
    marks.resize(size, false).is_ok()
}

// A table of no pairs. Takes no memory.
fn empty_table<A: Allocator + Copy>(alloc: A) -> Table<A>
    ensures { (mask : MaskValue) (all : List ℕ) → IsTable mask all result }
{
    Table {
        total: 0,
        end: 1,
        marks: Vec::new(alloc),
        misses: Vec::new(alloc),
    }
}

/// Makes room for the tables of so many values: one for each total that a heap may leave by the code. There is none where
/// there are few values, or where a total is left of one heap alone.
pub(crate) fn room_for_tables<A: Allocator + Copy>(
    alloc: A,
    code: &Code,
    tables: &mut Vec<Table<A>, A>,
    count: usize,
) -> Result<(), AllocError>
    ensures { (mask : MaskValue) (all : List ℕ) → All (IsTable mask all) tables.old.items → All (IsTable mask all) tables.new.items }
{
    if count < FEWEST || !are_shared(code) {
        return Ok(());
    }
    for _ in tables.len()..code.len() + 1 {
        tables.push(empty_table(alloc))?;
    }
    let size = LONGEST.min(count / SHARE / 2 + 1).next_power_of_two();
    for at in 0..tables.len() {
        tables[at].room_to(size)?;
    }
    Ok(())
}

// Whether a total of two heaps may be left of several heaps: whether there are two numbers of beans that may be removed.
fn are_shared(code: &Code) -> bool {
    let mut splits = 0_usize;
    for removed in 0..code.len() + 1 {
        if code.allows(removed, 2) {
            splits = usize::saturating_add(splits, 1);
        }
    }
    splits > 1
}

/// Forgets all under another mask.
pub(crate) fn follow_mask<A: Allocator>(tables: &mut [Table<A>], old: Mask, new: Mask)
    ensures count { length tables.new ≡ length tables.old }
    ensures kept { (all : List ℕ) → All (IsTable old all) tables.old → All (IsTable new all) tables.new }
{
    if old.bits != new.bits || old.parity != new.parity || old.turn != new.turn {
        clear_tables(tables);
    }
}

// Forgets all.
fn clear_tables<A: Allocator>(tables: &mut [Table<A>])
    ensures count { length tables.new ≡ length tables.old }
    ensures none { (mask : MaskValue) (all : List ℕ) → All (IsTable mask all) tables.new }
{
    for at in 0..tables.len() {
        tables[at].clear();
    }
}

/// Makes the tables so long, where there is room. Takes no memory.
pub(crate) fn fit_tables<A: Allocator>(tables: &mut [Table<A>], size: usize) -> bool
    ensures count { length tables.new ≡ length tables.old }
    ensures kept { (mask : MaskValue) (all : List ℕ) → All (IsTable mask all) tables.old → All (IsTable mask all) tables.new }
    ensures long { IsTrue result → All (IsLong size) tables.new }
{
    for at in 0..tables.len() {
        if !tables[at].fit(size) {
            return false;
        }
    }
    true
}

/// Marks the nim-values of the options that leave a rare heap and another one, or two heaps the smaller of which is below
/// `end`, and maybe of other options that leave two.
pub(crate) fn mark_totals<T: Cell, A: Allocator>(
    code: &Code,
    values: &[T],
    mask: Mask,
    heaps: &[u32],
    beside: &[T],
    end: usize,
    tables: &mut [Table<A>],
    marks: &mut [bool],
)
    requires some { 0 < length tables.old }
    requires listed { Lists mask (map T.number values.now) (length values.now) heaps.now (map T.number beside.now) }
    requires table { IsTableFor (map T.number values.now) (length marks.old) }
    requires long { All (IsLong (length marks.old)) tables.old }
    requires kept { All (IsTable mask (map T.number values.now)) tables.old }
    ensures count { length tables.new ≡ length tables.old }
    ensures long { All (IsLong (length marks.old)) tables.new }
    ensures kept { All (IsTable mask (map T.number values.now)) tables.new }
    ensures marked { AddsTotals code.now (map T.number values.now) (length values.now) mask end (min (octal.len code.now) (length values.now) + 1) marks.old marks.new }
{
    for removed in 0..code.len().min(values.len()) + 1 {
        if code.allows(removed, 2) {
            let total = values.len() - removed;
            mark_total(values, mask, heaps, beside, total, end, tables, marks);
        }
    }
}

// Marks the nim-sums of a total that its table marks, which are at least those of the pairs with a rare heap, or whose
// smaller heap is below `end`.
fn mark_total<T: Cell, A: Allocator>(
    values: &[T],
    mask: Mask,
    heaps: &[u32],
    beside: &[T],
    total: usize,
    end: usize,
    tables: &mut [Table<A>],
    marks: &mut [bool],
)
    requires held { total ≤ length values.now }
    requires some { 0 < length tables.old }
    requires listed { Lists mask (map T.number values.now) (length values.now) heaps.now (map T.number beside.now) }
    requires table { IsTableFor (map T.number values.now) (length marks.old) }
    requires long { All (IsLong (length marks.old)) tables.old }
    requires kept { All (IsTable mask (map T.number values.now)) tables.old }
    ensures count { length tables.new ≡ length tables.old }
    ensures long { All (IsLong (length marks.old)) tables.new }
    ensures kept { All (IsTable mask (map T.number values.now)) tables.new }
    ensures marked { AddsSums mask (map T.number values.now) total end marks.old marks.new }
{
    let table = &mut tables[total % tables.len()];
    table.mark_sums(values, mask, heaps, beside, total, end, marks);
}

/// The pairs of the next total whose smaller heap is below this number are marked at once: in each of the last totals at least
/// about as many had to be marked. So the tables are gone over once or twice for a heap, and one hard heap leaves the next ones as they
/// were.
pub(crate) fn likely_end<A: Allocator>(tables: &[Table<A>]) -> usize
    ensures { 1 ≤ result }
{
    let mut least = LIMIT;
    for table in tables {
        least = least.min(table.end);
    }
    (least - least / WANES).max(1)
}

/// Whether an option of two heaps has a value, which is sought in `compared`, where the same values stand.
pub(crate) fn is_in_totals<T: Cell, N: Cell, A: Allocator>(
    code: &Code,
    values: &[T],
    compared: &[N],
    mask: Mask,
    heaps: &[u32],
    beside: &[T],
    tables: &mut [Table<A>],
    size: usize,
    value: N,
) -> bool
    requires some { 0 < length tables.old }
    requires same { map N.number compared.now ≡ map T.number values.now }
    requires listed { Lists mask (map T.number values.now) (length values.now) heaps.now (map T.number beside.now) }
    requires table { IsTableFor (map T.number values.now) size }
    requires inside { N.number value < size }
    requires long { All (IsLong size) tables.old }
    requires kept { All (IsTable mask (map T.number values.now)) tables.old }
    ensures count { length tables.new ≡ length tables.old }
    ensures long { All (IsLong size) tables.new }
    ensures kept { All (IsTable mask (map T.number values.now)) tables.new }
    ensures found { IsTrue result → IsOptionValue code.now (slice_index (map T.number values.now)) (length values.now) (N.number value) }
    ensures none { result ≡ false → (r : ℕ) (o : IsOptionBy code.now (slice_index (map T.number values.now)) (length values.now) r (N.number value)) → 1 ≤ o.a → ⊥ }
{
    for removed in 0..code.len().min(values.len()) + 1 {
        if code.allows(removed, 2) {
            let total = values.len() - removed;
            if is_in_total(
                values, compared, mask, heaps, beside, total, tables, size, value,
            ) {
                return true;
            }
        }
    }
    false
}

// Whether a value is a nim-sum of a total.
fn is_in_total<T: Cell, N: Cell, A: Allocator>(
    values: &[T],
    compared: &[N],
    mask: Mask,
    heaps: &[u32],
    beside: &[T],
    total: usize,
    tables: &mut [Table<A>],
    size: usize,
    value: N,
) -> bool
    requires held { total ≤ length values.now }
    requires some { 0 < length tables.old }
    requires same { map N.number compared.now ≡ map T.number values.now }
    requires listed { Lists mask (map T.number values.now) (length values.now) heaps.now (map T.number beside.now) }
    requires table { IsTableFor (map T.number values.now) size }
    requires inside { N.number value < size }
    requires long { All (IsLong size) tables.old }
    requires kept { All (IsTable mask (map T.number values.now)) tables.old }
    ensures count { length tables.new ≡ length tables.old }
    ensures long { All (IsLong size) tables.new }
    ensures kept { All (IsTable mask (map T.number values.now)) tables.new }
    ensures is { IsTrue result ↔ IsSum (map T.number values.now) total (N.number value) }
{
    let table = &mut tables[total % tables.len()];
    table.turn_to(values, mask, heaps, beside, total);
    table.has_sum(compared, value)
}
