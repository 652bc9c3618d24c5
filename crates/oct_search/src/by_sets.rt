//! The next value of a row by sets of the values of options, where no large heap is rare.

ghost use Rattle.std.specs.Prelude.{◌≡◌, ◌+◌, ◌-◌, ◌^◌, ◌<◌, ◌≤◌, ℕ, false, max, IfSome, IsTrue, length, map, slice_index, vec_len, vec_capacity};
ghost use Rattle.std.specs.List.{Contains};
ghost use Rattle.oct_code.specs.Code as octal;
ghost use Rattle.oct_mex.specs.NimValues.{nim_value};
ghost use Rattle.oct_mex.specs.Rare.{is_rare};
ghost use Rattle.oct_mex.specs.Row.{IsRow};
ghost use Rattle.oct_mex.specs.Windows.{IsSettled, window};
ghost use Rattle.oct_search.specs.BySets.{AreSetsOf};
ghost use Rattle.oct_sets.specs.Plans.{AreFirst, AreLast};
ghost use Rattle.oct_sets.specs.Sets.{limit_of, reach_of};

use crate::certificate::greatest;
use oct_code::Code;
use oct_mex::{Cell, Mask, Row};
use oct_sets::{SMALL, Sets};
use std::alloc::Allocator;

// Fewer values have no sets.
const FIRST: usize = 16_384;

// So far sets reach also where no rare heap is as large: what settles a heap is chosen from the heaps up to this.
const NEAR: usize = 8_192;

// A rare heap up to this one may be reached, and in a longer list one of a larger share of it: so words take less memory than values.
const FAR: usize = 262_144;

const SHARE: usize = 32;

/// Sets that tell the next value of a row, and the mask under which no heap beyond their reach is rare.
#[derive(Drop)]
pub(crate) struct BySets<A: Allocator> {
    pub sets: Sets<A>,
    pub mask: Mask,
}

impl<A: Allocator + Copy> BySets<A> {
    /// The sets behind the first values of a row, those of the heaps below `heap`, where they are many, each value of the row is below
    /// 64, and no large heap is rare. Where memory is refused there are none.
    // Where it goes on value by value, no place is to be made for the sets that this makes now and then.
    #[inline(never)]
    pub(crate) fn behind<T: Cell>(
        alloc: A,
        row: &Row<T, A>,
        code: &Code,
        heap: usize,
    ) -> Option<BySets<A>>
        requires row { IsRow T.number code.now row.now }
        requires within { heap ≤ vec_len row.now.values }
        ensures right { IfSome result (AreSetsOf code.now heap) }
        ensures mask { IfSome result (λ by. by.mask ≡ row.now.rare.mask) }
        ensures wide { IfSome result (λ by. row.now.used ≤ limit_of by.sets) }
        ensures most { IfSome result (λ by. (h : ℕ) → Contains row.now.rare.heaps.items h → h ≤ reach_of by.sets) }
    {
        let reach = reach_of(row, code, heap);
        if heap < FIRST
            || row.used > SMALL
            || row.rare.mask.bits == 0
            || reach > FAR.max(heap / SHARE)
            || reach == 0
            || heap <= 2 * reach + code.len()
        {
            return None;
        }
        let small = first_values(row, code, reach + 1);
        let last = last_values(row, code, reach, heap);
        match Sets::new(alloc, code, small, &row.rare.heaps, last, heap, row.used) {
            Ok(sets) => Some(BySets {
                sets,
                mask: row.rare.mask,
            }),
            Err(_) => None,
        }
    }

    /// Whether the sets tell the value of a heap of the row, or of the next one: then heaps up to their reach settle it.
    pub(crate) fn tell<T: Cell>(&self, row: &Row<T, A>, code: &Code, heap: usize) -> bool
        requires row { IsRow T.number code.now row.now }
        requires within { heap ≤ vec_len row.now.values }
        requires wide { row.now.used ≤ limit_of self.now.sets }
        requires right { AreSetsOf code.now heap self.now }
        ensures { IsTrue result → IsSettled code.now self.now.mask (reach_of self.now.sets) heap }
    {
        let last = last_values(row, code, self.sets.reach(), heap);
        self.sets.settle(self.mask, last).is_some()
    }

    /// Adds the next values up to the heap `end`, for which a row has room, as far as the sets tell them, and goes on with the sets.
    /// Takes no memory.
    pub(crate) fn push_settled<T: Cell>(&mut self, row: &mut Row<T, A>, code: &Code, end: usize)
        requires row { IsRow T.number code.now row.old }
        requires right { AreSetsOf code.now (vec_len row.old.values) self.old }
        requires limited { end ≤ 2 ^ 32 }
        requires room { end ≤ vec_capacity row.old.values }
        ensures row { IsRow T.number code.now row.new }
        ensures more { vec_len row.old.values ≤ vec_len row.new.values }
        ensures most { vec_len row.new.values ≤ max end (vec_len row.old.values) }
        ensures right { AreSetsOf code.now (vec_len row.new.values) self.new }
    {
        if row.used > self.sets.limit() || !is_same(row.rare.mask, self.mask) {
            return;
        }
        while row.values.len() < end {
            let Some(cell) = self.next(row, code) else {
                return;
            };
            push_unlisted(row, cell);
            self.go_on(row, code, row.values.len() - 1);
        }
    }

    // The next value of a row, if the sets tell it, and the marks serve for it.
    #[inline(always)]
    fn next<T: Cell>(&self, row: &Row<T, A>, code: &Code) -> Option<T>
        requires row { IsRow T.number code.now row.now }
        requires right { AreSetsOf code.now (vec_len row.now.values) self.now }
        requires wide { row.now.used ≤ limit_of self.now.sets }
        requires same { row.now.rare.mask ≡ self.now.mask }
        ensures value { IfSome result (λ cell. T.number cell ≡ nim_value code.now (vec_len row.now.values)) }
        ensures within { IfSome result (λ cell. T.number cell < row.now.used) }
        ensures common { IfSome result (λ cell. is_rare row.now.rare.mask (vec_len row.now.values) (T.number cell) ≡ false) }
        ensures settled { IfSome result (λ cell. is_rare self.now.mask (vec_len row.now.values) (nim_value code.now (vec_len row.now.values)) ≡ false) }
    {
        let last = last_values(row, code, self.sets.reach(), row.values.len());
        let value = self.sets.settle(self.mask, last)?;
        if value < row.used {
            T::from_number(value)
        } else {
            None
        }
    }

    /// Goes on behind a value that was found otherwise, and says whether the sets still serve: that the mask is theirs, the value
    /// common, and each value one that the sets can have.
    pub(crate) fn follow<T: Cell>(&mut self, row: &Row<T, A>, code: &Code) -> bool
        requires row { IsRow T.number code.now row.now }
        requires some { 0 < vec_len row.now.values }
        requires right { AreSetsOf code.now (vec_len row.now.values - 1) self.old }
        ensures { IsTrue result → AreSetsOf code.now (vec_len row.now.values) self.new }
    {
        if row.used > self.sets.limit()
            || !is_same(row.rare.mask, self.mask)
            || greatest(&row.rare.heaps) > self.sets.reach()
        {
            return false;
        }
        self.go_on(row, code, row.values.len() - 1);
        true
    }

    /// Goes on behind the value of a heap of the row, which is common.
    #[inline(always)]
    pub(crate) fn go_on<T: Cell>(&mut self, row: &Row<T, A>, code: &Code, heap: usize)
        requires row { IsRow T.number code.now row.now }
        requires within { heap < vec_len row.now.values }
        requires wide { row.now.used ≤ limit_of self.old.sets }
        requires right { AreSetsOf code.now heap self.old }
        requires common { reach_of self.old.sets < heap → is_rare self.old.mask heap (nim_value code.now heap) ≡ false }
        ensures right { AreSetsOf code.now (heap + 1) self.new }
        ensures mask { self.new.mask ≡ self.old.mask }
        ensures wide { limit_of self.new.sets ≡ limit_of self.old.sets }
        ensures reach { reach_of self.new.sets ≡ reach_of self.old.sets }
    {
        let last = last_values(row, code, self.sets.reach(), heap + 1);
        self.sets.push(last);
    }
}

// As far as sets behind the first values of a row are to reach: no listed heap is larger.
fn reach_of<T: Cell, A: Allocator>(row: &Row<T, A>, code: &Code, heap: usize) -> usize
    ensures most { (h : ℕ) → Contains row.now.rare.heaps.items h → h ≤ result }
{
    let room = (heap / 2).saturating_sub(code.len() + 1);
    greatest(&row.rare.heaps).max(NEAR.min(room))
}

// The first values of a row, so many.
fn first_values<'a, T: Cell, A: Allocator>(row: &'a Row<T, A>, code: &Code, count: usize) -> &'a [T]
    requires row { IsRow T.number code.now row.now }
    requires within { count ≤ vec_len row.now.values }
    ensures len { length result.now ≡ count }
    ensures first { AreFirst code.now (map T.number result.now) }
    ensures low { (bound : ℕ) → row.now.used ≤ bound → (i : ℕ) → i < length result.now → slice_index (map T.number result.now) i < bound }
{
    &row.values[..count]
}

// The last values of a row before a heap, as many as tell its value.
fn last_values<'a, T: Cell, A: Allocator>(
    row: &'a Row<T, A>,
    code: &Code,
    reach: usize,
    heap: usize,
) -> &'a [T]
    requires row { IsRow T.number code.now row.now }
    requires held { heap ≤ vec_len row.now.values }
    requires within { window code.now reach ≤ heap }
    ensures len { length result.now ≡ window code.now reach }
    ensures last { AreLast code.now heap (map T.number result.now) }
    ensures low { (bound : ℕ) → row.now.used ≤ bound → (i : ℕ) → i < length result.now → slice_index (map T.number result.now) i < bound }
{
    &row.values[heap - (reach + code.len())..heap]
}

/// Adds a value for which there is room, where it is common, or no mask serves: so it is not listed. Takes no memory.
pub(crate) fn push_unlisted<T: Cell, A: Allocator + Copy>(row: &mut Row<T, A>, cell: T)
    requires limited { vec_len row.old.values < 2 ^ 32 }
    requires room { vec_len row.old.values < vec_capacity row.old.values }
    ensures row { (c : octal.Code) → IsRow T.number c row.old → T.number cell ≡ nim_value c (vec_len row.old.values) → T.number cell < row.old.used → (0 < row.old.rare.mask.bits → is_rare row.old.rare.mask (vec_len row.old.values) (T.number cell) ≡ false) → IsRow T.number c row.new }
    ensures len { vec_len row.new.values ≡ vec_len row.old.values + 1 }
    ensures room { vec_capacity row.new.values ≡ vec_capacity row.old.values }
    ensures used { row.new.used ≡ row.old.used }
    ensures rare { row.new.rare ≡ row.old.rare }
{
    row.values.push_reserved(cell);
}

// Whether two masks are the same.
fn is_same(mask: Mask, other: Mask) -> bool
    ensures { IsTrue result → mask ≡ other }
{
    mask == other
}
