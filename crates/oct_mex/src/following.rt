//! A game that goes on with the values of another one.
//!
//! The options of two heaps are the same in two games whose codes allow two heaps to be left by the same digits, as long
//! as the smaller heaps have the same nim-values in both. So where the values of one of them, the leader, are known, the
//! next value of the other is the leader's unless the options of at most one heap make a difference: it is none of the
//! game's own options of at most one heap, and each smaller value of such an option of the leader is one of some option
//! of the game.

ghost use Rattle.std.specs.Prelude.{◌≡◌, ◌^◌, ◌<◌, ◌≤◌, ◌⊎◌, ◌↔◌, ℕ, IfOk, IsTrue, MatchOption, length, map, slice_index};
ghost use Rattle.oct_code.specs.Code as octal;
ghost use Rattle.oct_mex.specs.Following.{Follows, HasOneHeap, SplitAlike};
ghost use Rattle.oct_mex.specs.Marks.{IsOneHeapBy};
ghost use Rattle.oct_mex.specs.Mex.{IsMex};
ghost use Rattle.oct_mex.specs.NimValues.{IsOptionValue, nim_value, nim_values};

use crate::cell::Cell;
use crate::pairs::has_pair;
use oct_code::Code;
use std::alloc::{AllocError, Allocator};
use std::marker::Model;

/// The first nim-values of a game in 16 bits, with which other games may go on.
#[derive(Drop)]
pub struct Leader<A: Allocator> {
    code: Code,
    values: Vec<u16, A>,
}

impl<A: Allocator> Model for Leader<A> {
    ghost use Rattle.oct_mex.specs.Following.{Leading};
    ghost use Rattle.oct_mex.specs.Leading.{leading_of, IsLeading};

    ghost Value = { Leading };

    ghost view = { leading_of };

    ghost invariant = { IsLeading };
}

impl<A: Allocator> Leader<A> {
    /// Those of the values of a game before the first one that has more than 16 bits.
    pub(crate) fn new<T: Cell>(alloc: A, code: Code, values: &[T]) -> Result<Leader<A>, AllocError>
        requires { map T.number values.now ≡ nim_values code (length values.now) }
        ensures code { IfOk result (λ leader. leader.code ≡ code) }
        ensures few { IfOk result (λ leader. leader.len ≤ length values.now) }
        ensures all { IfOk result (λ leader. (leader.len ≡ length values.now) ⊎ (2 ^ 16 ≤ nim_value code leader.len)) }
    {
        let mut held = Vec::with_capacity(alloc, values.len())?;
        for heap in 0..values.len() {
            let Ok(value) = u16::try_from(values[heap].number()) else {
                return Ok(Leader { code, values: held });
            };
            held.push_reserved(value);
        }
        Ok(Leader { code, values: held })
    }

    /// The code of the game.
    pub(crate) fn code(&self) -> Code
        ensures { result ≡ self.now.code }
    {
        self.code
    }

    /// How many nim-values it has.
    pub(crate) fn len(&self) -> usize
        ensures { result ≡ self.now.len }
    {
        self.values.len()
    }

    /// One of them.
    pub(crate) fn value(&self, heap: usize) -> usize
        requires { heap < self.now.len }
        ensures { result ≡ nim_value self.now.code heap }
    {
        usize::from(self.values[heap])
    }

    /// Whether a game may go on with them after its first values: as many and more are here, those are the same, and the
    /// same digits allow two heaps to be left.
    pub(crate) fn leads<T: Cell>(&self, code: &Code, values: &[T]) -> bool
        requires { map T.number values.now ≡ nim_values code.now (length values.now) }
        ensures { IsTrue result ↔ ((length values.now ≤ self.now.len) × Follows code.now self.now.code (length values.now)) }
    {
        values.len() <= self.values.len()
            && split_alike(code, &self.code)
            && self.begin_with(values)
    }

    // Whether its values begin with others.
    fn begin_with<T: Cell>(&self, values: &[T]) -> bool
        requires { length values.now ≤ self.now.len }
        ensures { IsTrue result ↔ ((m : ℕ) → m < length values.now → slice_index (map T.number values.now) m ≡ nim_value self.now.code m) }
    {
        for heap in 0..values.len() {
            if values[heap].number() != self.value(heap) {
                return false;
            }
        }
        true
    }
}

// Whether the same digits of two codes allow two heaps to be left.
fn split_alike(code: &Code, other: &Code) -> bool
    ensures { IsTrue result ↔ SplitAlike code.now other.now }
{
    for removed in 0..code.len().max(other.len()) + 1 {
        if code.allows(removed, 2) != other.allows(removed, 2) {
            return false;
        }
    }
    true
}

/// Whether the mex of a leader's options is that of the game's own.
pub(crate) fn is_led<T: Cell>(code: &Code, leader: &Code, values: &[T], value: usize) -> bool
    requires splits { SplitAlike code.now leader.now }
    requires empty { slice_index (map T.number values.now) 0 ≡ 0 }
    requires value { IsMex (IsOptionValue leader.now (slice_index (map T.number values.now)) (length values.now)) value }
    ensures { IsTrue result ↔ IsMex (IsOptionValue code.now (slice_index (map T.number values.now)) (length values.now)) value }
{
    !has_one_heap(code, values, value) && has_those_below(code, leader, values, value)
}

// Whether the game has an option of each value below `end` that the leader's options of at most one heap have.
fn has_those_below<T: Cell>(code: &Code, leader: &Code, values: &[T], end: usize) -> bool
    requires { slice_index (map T.number values.now) 0 ≡ 0 }
    ensures { IsTrue result ↔ ((v : ℕ) → v < end → HasOneHeap leader.now (slice_index (map T.number values.now)) (length values.now) v → IsOptionValue code.now (slice_index (map T.number values.now)) (length values.now) v) }
{
    for removed in 1..leader.len().min(values.len()) + 1 {
        if let Some(option) = one_heap(leader, values, removed) {
            if option.number() < end && !has_option(code, values, option) {
                return false;
            }
        }
    }
    true
}

// Whether an option has a value.
fn has_option<T: Cell>(code: &Code, values: &[T], value: T) -> bool
    requires { slice_index (map T.number values.now) 0 ≡ 0 }
    ensures { IsTrue result ↔ IsOptionValue code.now (slice_index (map T.number values.now)) (length values.now) (T.number value) }
{
    has_one_heap(code, values, value.number()) || has_pair(code, values, 1, value)
}

// Whether an option of at most one heap has a value.
fn has_one_heap<T: Cell>(code: &Code, values: &[T], value: usize) -> bool
    requires { slice_index (map T.number values.now) 0 ≡ 0 }
    ensures { IsTrue result ↔ HasOneHeap code.now (slice_index (map T.number values.now)) (length values.now) value }
{
    for removed in 1..code.len().min(values.len()) + 1 {
        if let Some(option) = one_heap(code, values, removed) {
            if option.number() == value {
                return true;
            }
        }
    }
    false
}

// The value of the option that removes so many beans and leaves at most one heap.
fn one_heap<T: Cell>(code: &Code, values: &[T], removed: usize) -> Option<T>
    requires some { 1 ≤ removed }
    requires held { removed ≤ length values.now }
    requires few { removed ≤ octal.len code.now }
    requires empty { slice_index (map T.number values.now) 0 ≡ 0 }
    ensures { MatchOption result ((v : ℕ) → IsOneHeapBy code.now (slice_index (map T.number values.now)) (length values.now) removed v → ⊥) (λ option. (v : ℕ) → IsOneHeapBy code.now (slice_index (map T.number values.now)) (length values.now) removed v ↔ (v ≡ T.number option)) }
{
    let rest = values.len() - removed;
    if code.allows(removed, u32::from(rest > 0)) {
        Some(values[rest])
    } else {
        None
    }
}
