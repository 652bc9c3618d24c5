//! The sets of the values of near options, in words as wide as the values ask for.

ghost use Rattle.std.specs.Prelude.{◌≡◌, ◌+◌, ◌-◌, ◌*◌, ◌^◌, ◌<◌, ◌≤◌, ℕ, List, IfOk, IfSome, length, map, slice_index};
ghost use Rattle.std.specs.List.{Contains};
ghost use Rattle.oct_code.specs.Code as octal;
ghost use Rattle.oct_mex.specs.NimValues.{nim_value};
ghost use Rattle.oct_mex.specs.Windows.{IsSettled};
ghost use Rattle.oct_sets.specs.Plans.{AreFirst, AreLast, IsParted};
ghost use Rattle.oct_sets.specs.Sets.{heap_of, limit_of, reach_of, IsRight, IsShaped};

use crate::sets_of::SetsOf;
use oct_code::Code;
use oct_mex::{Cell, Mask};
use std::alloc::{AllocError, Allocator};

/// Each value is below this number: wide words have as many bits.
pub const SMALL: usize = 64;

// Narrow words have so many bits, so that twice as many fit an instruction.
const NARROW: usize = 32;

/// The sets of the values of near options, by a plan.
#[derive(Drop)]
pub enum Sets<A: Allocator> {
    /// Each value is below 32.
    Narrow(SetsOf<u32, A>),
    /// Each value is below 64.
    Wide(SetsOf<u64, A>),
}

impl<A: Allocator + Copy> Sets<A> {
    /// The sets behind the values of the last heaps before the heap `heap`, all below `bound`: by a plan that leads to the rare
    /// heaps, and to others of the small heaps, whose values are given. They are narrow where the bound fits narrow words. Memory is
    /// taken for the plan, a block, and four times as many words as there are values: twice as many for heaps, and as many for twins.
    pub fn new<T: Cell>(
        alloc: A,
        code: &Code,
        small: &[T],
        rare: &[u32],
        last: &[T],
        heap: usize,
        bound: usize,
    ) -> Result<Sets<A>, AllocError>
        requires bound { bound ≤ SMALL }
        requires some { 1 < length small.now }
        requires few { length small.now ≤ 2 ^ 32 }
        requires low { (h : ℕ) → h < length small.now → slice_index (map T.number small.now) h < bound }
        requires listed { (h : ℕ) → Contains rare.now h → h < length small.now }
        requires window { length last.now ≡ length small.now - 1 + octal.len code.now }
        requires least { (i : ℕ) → i < length last.now → slice_index (map T.number last.now) i < bound }
        requires room { 2 * (length small.now - 1) + octal.len code.now < heap }
        requires limited { heap ≤ 2 ^ 60 }
        ensures shaped { IfOk result (IsShaped (length small.now - 1) (length last.now)) }
        ensures heap { IfOk result (λ sets. heap_of sets ≡ heap) }
        ensures reach { IfOk result (λ sets. reach_of sets ≡ length small.now - 1) }
        ensures bound { IfOk result (λ sets. bound ≤ limit_of sets) }
        ensures narrow { bound ≤ 32 → IfOk result (λ sets. limit_of sets ≡ 32) }
        ensures wide { 32 < bound → IfOk result (λ sets. limit_of sets ≡ 64) }
        ensures right { AreFirst code.now (map T.number small.now) → AreLast code.now heap (map T.number last.now) → IfOk result (IsRight code.now rare.now (length small.now - 1)) }
    {
        if bound <= NARROW {
            let sets = SetsOf::new(alloc, code, small, rare, last, heap)?;
            Ok(Sets::Narrow(sets))
        } else {
            let sets = SetsOf::new(alloc, code, small, rare, last, heap)?;
            Ok(Sets::Wide(sets))
        }
    }

    /// Each value has to be below this number: 32 or 64.
    #[inline(always)]
    pub fn limit(&self) -> usize
        ensures { result ≡ limit_of self.now }
    {
        match self {
            Sets::Narrow(_) => NARROW,
            Sets::Wide(_) => SMALL,
        }
    }

    /// No far heap of the plan is larger.
    #[inline(always)]
    pub fn reach(&self) -> usize
        ensures { result ≡ reach_of self.now }
    {
        match self {
            Sets::Narrow(sets) => sets.reach,
            Sets::Wide(sets) => sets.reach,
        }
    }

    /// The nim-value of the next heap, if near options by the plan settle it: below the limit, and common. The values of the last
    /// heaps before it are given.
    #[inline(always)]
    pub fn settle<T: Cell>(&self, mask: Mask, last: &[T]) -> Option<usize>
        requires shaped { IsShaped (reach_of self.now) (length last.now) self.now }
        requires limited { heap_of self.now ≤ 2 ^ 60 }
        requires low { (i : ℕ) → i < length last.now → slice_index (map T.number last.now) i < limit_of self.now }
        ensures small { IfSome result (λ value. value < limit_of self.now) }
        ensures value { (c : octal.Code) (heaps : List ℕ) (reach : ℕ) → IsRight c heaps reach self.now → AreLast c (heap_of self.now) (map T.number last.now) → IsParted c mask heaps reach (heap_of self.now) → IfSome result (λ value. value ≡ nim_value c (heap_of self.now)) }
        ensures settled { (c : octal.Code) (heaps : List ℕ) (reach : ℕ) → IsRight c heaps reach self.now → AreLast c (heap_of self.now) (map T.number last.now) → IsParted c mask heaps reach (heap_of self.now) → IfSome result (λ value. IsSettled c mask reach (heap_of self.now)) }
    {
        match self {
            Sets::Narrow(sets) => sets.settle(mask, last),
            Sets::Wide(sets) => sets.settle(mask, last),
        }
    }

    /// Goes on to the next heap, by the values of the last heaps, of which this one is the last. Takes no memory.
    #[inline(always)]
    pub fn push<T: Cell>(&mut self, last: &[T])
        requires shaped { IsShaped (reach_of self.old) (length last.now) self.old }
        requires some { 0 < length last.now }
        requires low { (i : ℕ) → i < length last.now → slice_index (map T.number last.now) i < limit_of self.old }
        requires limited { heap_of self.old < 2 ^ 60 }
        ensures shaped { IsShaped (reach_of self.old) (length last.now) self.new }
        ensures reach { reach_of self.new ≡ reach_of self.old }
        ensures heap { heap_of self.new ≡ heap_of self.old + 1 }
        ensures limit { limit_of self.new ≡ limit_of self.old }
        ensures right { (c : octal.Code) (heaps : List ℕ) (reach : ℕ) → IsRight c heaps reach self.old → AreLast c (heap_of self.old + 1) (map T.number last.now) → IsRight c heaps reach self.new }
    {
        match self {
            Sets::Narrow(sets) => sets.push(last),
            Sets::Wide(sets) => sets.push(last),
        }
    }
}
