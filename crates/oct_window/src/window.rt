//! A window of nim-values that goes on in the memory that it begins with.

ghost use Rattle.std.specs.Prelude.{◌≡◌, ℕ, ◌+◌, ◌-◌, ◌*◌, ◌^◌, ◌<◌, ◌≤◌, ◌↔◌, IsTrue, true, false, if◌then◌else◌, length, slice_index, vec_len, vec_capacity, IfOk, IfSome};
ghost use Rattle.std.specs.List.{Contains};
ghost use Rattle.oct_mex.specs.NimValues.{nim_value};
ghost use Rattle.oct_mex.specs.Rare.{is_rare};
ghost use Rattle.oct_mex.specs.Row.{IsRow};
ghost use Rattle.oct_mex.specs.Windows.{IsSettled, window};
ghost use Rattle.oct_window.specs.Windows.{IsBegun, IsKnown, IsSameGame, IsShaped};

use crate::ends::keep_ends;
use oct_code::Code;
use oct_mex::{Rare, Row, settled_value};
use std::alloc::{AllocError, Allocator};

/// How many nim-values have a mark: those below it fit into a window.
pub const MARKS: usize = 65_536;

/// How far a window can go: it has no heap of this size.
pub const FARTHEST: usize = 1 << 60;

/// The values of the heaps up to a reach, with the rare ones among them, and the values of the last heaps before `count`.
#[derive(Drop)]
pub struct Window<A: Allocator> {
    pub code: Code,
    pub rare: Rare<u16, A>,
    /// No rare heap is larger.
    pub reach: usize,
    /// The values up to the reach, and behind them the last ones.
    pub held: Vec<u16, A>,
    /// How many values went before: the next heap.
    pub count: usize,
    /// The part of the marks that is used: a power of two above each value.
    pub used: usize,
}

impl<A: Allocator + Copy> Window<A> {
    /// The window behind the first values of a game, whose reach is the first half of them; none where no mask serves, or
    /// where a rare heap lies in the second half. It has memory for twice as many values.
    pub fn of(alloc: A, code: Code, row: &Row<u16, A>) -> Result<Option<Window<A>>, AllocError>
        requires { IsRow (λ x. x) code row.now }
        ensures { IfOk result (λ made. IfSome made (IsBegun code (vec_len row.now.values))) }
    {
        let count = row.values.len();
        let reach = count.saturating_sub(code.len() + 2) / 2;
        if row.rare.mask.bits == 0
            || row.used > MARKS
            || reach == 0
            || reach < greatest(&row.rare.heaps)
        {
            return Ok(None);
        }
        Ok(Some(Window {
            code,
            rare: copy_of(alloc, &row.rare)?,
            reach,
            held: with_room(alloc, &row.values)?,
            count,
            used: row.used,
        }))
    }

    /// The last value that the window has: that of the heap before the next one.
    pub fn last(&self) -> u16
        requires { IsShaped self.now }
        ensures { IsKnown self.now → result ≡ nim_value self.now.code (self.now.count - 1) }
    {
        self.held[self.held.len() - 1]
    }

    /// The same window in memory of `alloc`, with room for so many more values.
    pub(crate) fn copy(&self, alloc: A, room: usize) -> Result<Window<A>, AllocError>
        requires shaped { IsShaped self.now }
        requires room { 1 ≤ room }
        ensures shaped { IfOk result IsShaped }
        ensures same { IfOk result (IsSameGame self.now) }
        ensures count { IfOk result (λ copy. copy.count ≡ self.now.count) }
        ensures known { IsKnown self.now → IfOk result IsKnown }
    {
        let mut held = Vec::from_slice(alloc, &self.held)?;
        held.reserve_exact(room)?;
        Ok(Window {
            code: self.code,
            rare: copy_of(alloc, &self.rare)?,
            reach: self.reach,
            held,
            count: self.count,
            used: self.used,
        })
    }

    /// The last values, as many as tell the next one.
    pub(crate) fn last_values(&self) -> &[u16]
        requires { IsShaped self.now }
        ensures len { length result.now ≡ window self.now.code self.now.reach }
        ensures values { IsKnown self.now → (i : ℕ) → i < window self.now.code self.now.reach → slice_index result.now i ≡ nim_value self.now.code (self.now.count - window self.now.code self.now.reach + i) }
    {
        &self.held[self.held.len() - self.reach - self.code.len()..]
    }

    /// A copy of the last values, as many as tell the next one.
    #[inline(never)]
    pub(crate) fn copy_last(&self, alloc: A) -> Result<Vec<u16, A>, AllocError>
        requires { IsShaped self.now }
        ensures len { IfOk result (λ last. vec_len last ≡ window self.now.code self.now.reach) }
        ensures values { IsKnown self.now → IfOk result (λ last. (i : ℕ) → i < window self.now.code self.now.reach → slice_index last.items i ≡ nim_value self.now.code (self.now.count - window self.now.code self.now.reach + i)) }
    {
        Vec::from_slice(alloc, self.last_values())
    }

    /// Whether the last values are these. That at the place `look` is compared first, and where it is the same, another one the
    /// next time: mostly a seldom value comes to be the first, and no more is compared.
    #[inline(always)]
    pub(crate) fn ends_with(&self, values: &[u16], look: &mut usize) -> bool
        requires shaped { IsShaped self.now }
        requires size { length values.now ≡ window self.now.code self.now.reach }
        ensures { IsKnown self.now → IsTrue result ↔ ((i : ℕ) → i < window self.now.code self.now.reach → slice_index values.now i ≡ nim_value self.now.code (self.now.count - window self.now.code self.now.reach + i)) }
    {
        let last = self.last_values();
        if *look < values.len() && last[*look] != values[*look] {
            return false;
        }
        *look = look.checked_sub(1).unwrap_or(values.len());
        self.held.ends_with(values)
    }

    /// Adds the next value, by a table of marks, and says whether the window tells it: else nothing changes. Takes no memory.
    #[inline(never)]
    pub fn push_next(&mut self, marks: &mut [bool]) -> bool
        requires shaped { IsShaped self.old }
        requires limited { self.old.count < FARTHEST }
        requires marks { MARKS ≤ length marks.old }
        ensures shaped { IsShaped self.new }
        ensures same { IsSameGame self.old self.new }
        ensures count { self.new.count ≡ (if result then self.old.count + 1 else self.old.count) }
        ensures marks { length marks.new ≡ length marks.old }
        ensures lost { result ≡ false → self.new ≡ self.old }
        ensures known { IsKnown self.old → IsKnown self.new }
        ensures settled { IsKnown self.old → result ≡ true → IsSettled self.old.code self.old.rare.mask self.old.reach self.old.count }
    {
        let Some(cell) = self.next_cell(marks) else {
            return false;
        };
        self.make_room();
        self.push(cell);
        true
    }

    // The next value, if the window tells it.
    fn next_cell(&self, marks: &mut [bool]) -> Option<u16>
        requires shaped { IsShaped self.now }
        requires marks { MARKS ≤ length marks.old }
        ensures marks { length marks.new ≡ length marks.old }
        ensures within { IfSome result (λ cell. cell ≤ self.now.used) }
        ensures fits { IfSome result (λ cell. cell < MARKS) }
        ensures value { IsKnown self.now → IfSome result (λ cell. cell ≡ nim_value self.now.code self.now.count) }
        ensures settled { IsKnown self.now → IfSome result (λ cell. IsSettled self.now.code self.now.rare.mask self.now.reach self.now.count) }
    {
        let value = settled_value(
            &self.code,
            &self.held,
            &self.rare,
            self.count,
            self.reach,
            &mut marks[..self.used],
        )?;
        if value < MARKS {
            Some(value as u16)
        } else {
            None
        }
    }

    // Makes room for a value where there is none: those between the small heaps and the last ones are forgotten.
    #[inline(always)]
    pub(crate) fn make_room(&mut self)
        requires { IsShaped self.old }
        ensures shaped { IsShaped self.new }
        ensures room { vec_len self.new.held < vec_capacity self.new.held }
        ensures same { IsSameGame self.old self.new }
        ensures count { self.new.count ≡ self.old.count }
        ensures used { self.new.used ≡ self.old.used }
        ensures known { IsKnown self.old → IsKnown self.new }
    {
        if self.held.len() == self.held.capacity() {
            self.forget();
        }
    }

    /// Forgets the values between those of the small heaps and the last ones.
    #[inline(never)]
    pub(crate) fn forget(&mut self)
        requires { IsShaped self.old }
        ensures shaped { IsShaped self.new }
        ensures room { vec_len self.new.held < vec_capacity self.new.held }
        ensures same { IsSameGame self.old self.new }
        ensures count { self.new.count ≡ self.old.count }
        ensures used { self.new.used ≡ self.old.used }
        ensures known { IsKnown self.old → IsKnown self.new }
    {
        let last = self.reach + self.code.len();
        keep_ends(&mut self.held, self.reach + 1, last);
    }

    // Adds the next value, for which there is room.
    #[inline(always)]
    pub(crate) fn push(&mut self, cell: u16)
        requires shaped { IsShaped self.old }
        requires limited { self.old.count < FARTHEST }
        requires room { vec_len self.old.held < vec_capacity self.old.held }
        requires within { cell ≤ self.old.used }
        ensures shaped { IsShaped self.new }
        ensures same { IsSameGame self.old self.new }
        ensures count { self.new.count ≡ self.old.count + 1 }
        ensures known { IsKnown self.old → cell ≡ nim_value self.old.code self.old.count → is_rare self.old.rare.mask self.old.count cell ≡ false → IsKnown self.new }
    {
        self.held.push_reserved(cell);
        self.count += 1;
        if usize::from(cell) == self.used {
            self.used *= 2;
        }
    }
}

// A copy of a list with room for twice as many values.
fn with_room<A: Allocator + Copy>(alloc: A, values: &[u16]) -> Result<Vec<u16, A>, AllocError>
    requires { length values.now ≤ 2 ^ 32 }
    ensures items { IfOk result (λ copy. copy.items ≡ values.now) }
    ensures room { IfOk result (λ copy. 2 * length values.now ≤ vec_capacity copy) }
{
    let mut copy = Vec::with_capacity(alloc, 2 * values.len())?;
    copy.extend_from_slice(values)?;
    Ok(copy)
}

// A copy of the lists of the rare heaps.
fn copy_of<A: Allocator + Copy>(alloc: A, rare: &Rare<u16, A>) -> Result<Rare<u16, A>, AllocError>
    ensures mask { IfOk result (λ copy. copy.mask ≡ rare.now.mask) }
    ensures heaps { IfOk result (λ copy. copy.heaps.items ≡ rare.now.heaps.items) }
    ensures values { IfOk result (λ copy. copy.values.items ≡ rare.now.values.items) }
{
    let mut copy = Rare::new(alloc);
    copy.mask = rare.mask;
    copy.heaps = Vec::from_slice(alloc, &rare.heaps)?;
    copy.values = Vec::from_slice(alloc, &rare.values)?;
    Ok(copy)
}

// The greatest heap of a list, or 0.
fn greatest(heaps: &[u32]) -> usize
    ensures within { result < 2 ^ 32 }
    ensures most { (h : ℕ) → Contains heaps.now h → h ≤ result }
{
    let mut most = 0;
    for heap in heaps {
        most = most.max(*heap as usize);
    }
    most
}
