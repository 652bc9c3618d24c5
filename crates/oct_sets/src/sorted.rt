//! The small heaps that a plan goes by, those of one nim-value side by side, and each value beside one that differs little.

ghost use Rattle.std.specs.Prelude.{◌≡◌, ◌+◌, ◌<◌, ◌≤◌, ℕ, IfOk, OnOk, length, map, slice_index};
ghost use Rattle.std.specs.List.{Contains};
ghost use Rattle.oct_sets.specs.Plans.{HasHeap, IsAmong};
ghost use Rattle.oct_sets.specs.declared.plan.TheConstants.{BLOCK};
ghost use Rattle.oct_sets.specs.declared.sorted.SmallHeap.{SmallHeap};

use crate::pairs::number_at;
use oct_mex::Cell;
use std::alloc::{AllocError, Allocator};

/// A small heap and its nim-value, which may be that of its twin too. They are ordered by the place of the value in Gray's code, in
/// which each number differs from the one before in one bit: so sets are turned by one bit from value to value, where all values
/// are there. The bits stand in it the other way round, so that the low ones, which take longest to turn, are turned least.
#[derive(Clone, Copy, PartialEq, Eq, PartialOrd, Ord)]
pub struct SmallHeap {
    pub place: u16,
    pub value: u16,
    pub heap: u32,
    /// Whether it has a twin.
    pub twin: bool,
}

/// The heaps of three lists, from 1 on, by their values: those of the last one have twins, `apart` beans larger.
pub(crate) fn sorted<T: Cell, A: Allocator + Copy>(
    alloc: A,
    small: &[T],
    rare: &[u32],
    alone: &[u32],
    twins: &[u32],
    apart: usize,
) -> Result<Vec<SmallHeap, A>, AllocError>
    requires low { (h : ℕ) → h < length small.now → slice_index (map T.number small.now) h < 64 }
    requires rare { (h : ℕ) → Contains rare.now h → h < length small.now }
    requires alone { (h : ℕ) → Contains alone.now h → h < length small.now }
    requires twins { (h : ℕ) → Contains twins.now h → (BLOCK ≤ h) × (h + apart < length small.now) × (slice_index (map T.number small.now) (h + apart) ≡ slice_index (map T.number small.now) h) }
    ensures each { IfOk result (λ list. (h : SmallHeap) → Contains list.items h → IsAmong (map T.number small.now) apart h) }
    ensures has { IfOk result (λ list. (h : ℕ) → Contains rare.now h → 1 ≤ h → HasHeap list.items h (slice_index (map T.number small.now) h)) }
{
    let mut list = Vec::new(alloc);
    add(&mut list, small, rare)?;
    add(&mut list, small, alone)?;
    add_twins(&mut list, small, twins)?;
    list.sort_unstable();
    Ok(list)
}

// Adds the heaps of a list, from 1 on.
fn add<T: Cell, A: Allocator>(
    list: &mut Vec<SmallHeap, A>,
    small: &[T],
    heaps: &[u32],
) -> Result<(), AllocError>
    requires low { (h : ℕ) → h < length small.now → slice_index (map T.number small.now) h < 64 }
    requires within { (h : ℕ) → Contains heaps.now h → h < length small.now }
    ensures each { (apart : ℕ) → ((h : SmallHeap) → Contains list.old.items h → IsAmong (map T.number small.now) apart h) → OnOk result ((h : SmallHeap) → Contains list.new.items h → IsAmong (map T.number small.now) apart h) }
    ensures keeps { OnOk result ((h : SmallHeap) → Contains list.old.items h → Contains list.new.items h) }
    ensures has { OnOk result ((h : ℕ) → Contains heaps.now h → 1 ≤ h → HasHeap list.new.items h (slice_index (map T.number small.now) h)) }
{
    for heap in heaps {
        if *heap > 0 {
            let value = number_at(small, *heap as usize) as u16;
            list.push(SmallHeap {
                place: place_of(value),
                value,
                heap: *heap,
                twin: false,
            })?;
        }
    }
    Ok(())
}

// Adds the heaps of a list, each with its twin.
fn add_twins<T: Cell, A: Allocator>(
    list: &mut Vec<SmallHeap, A>,
    small: &[T],
    heaps: &[u32],
) -> Result<(), AllocError>
    requires low { (h : ℕ) → h < length small.now → slice_index (map T.number small.now) h < 64 }
    requires within { (h : ℕ) → Contains heaps.now h → (BLOCK ≤ h) × (h < length small.now) }
    ensures each { (apart : ℕ) → ((h : SmallHeap) → Contains list.old.items h → IsAmong (map T.number small.now) apart h) → ((h : ℕ) → Contains heaps.now h → (h + apart < length small.now) × (slice_index (map T.number small.now) (h + apart) ≡ slice_index (map T.number small.now) h)) → OnOk result ((h : SmallHeap) → Contains list.new.items h → IsAmong (map T.number small.now) apart h) }
    ensures keeps { OnOk result ((h : SmallHeap) → Contains list.old.items h → Contains list.new.items h) }
{
    for heap in heaps {
        let value = number_at(small, *heap as usize) as u16;
        list.push(SmallHeap {
            place: place_of(value),
            value,
            heap: *heap,
            twin: true,
        })?;
    }
    Ok(())
}

// The place of a number below 64 in Gray's code, its bits the other way round: the first six of these bits tell it.
fn place_of(value: u16) -> u16 {
    let turned = value.reverse_bits();
    let two = turned ^ (turned >> 1);
    let four = two ^ (two >> 2);
    four ^ (four >> 4)
}
