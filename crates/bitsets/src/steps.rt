//! What steps make of the sets before a block.

ghost use Rattle.std.specs.Prelude.{◌≡◌, ℕ, ◌+◌, ◌^◌, ◌<◌, ◌≤◌, length, map, slice_index};
ghost use Rattle.bitsets.specs.Sets.{Has, Adds, AddsSmall, IsMadeBehind};

use crate::turning::turn_by;
use crate::word::Word;

// So many sets are made at a time, in an array: its length is known when the loops over it are compiled.
const PART: usize = 64;

// So many at a time of those that are left.
const FEW: usize = 8;

/// Adds to each set of a block, the first of which is that of the place `place`, what the steps make: the exclusive ors of each
/// step's value and the numbers of the set that stands before it by the step's offset. Best with equal values side by side.
pub fn unite_steps<W: Word>(
    block: &mut [W],
    sets: &[W],
    place: usize,
    offsets: &[usize],
    values: &[usize],
)
    requires beside { length values.now ≡ length offsets.now }
    requires few { (k : ℕ) → k < length values.now → slice_index values.now k < 2 ^ W.digits }
    requires before { (k : ℕ) → k < length offsets.now → slice_index offsets.now k ≤ place }
    requires behind { (k : ℕ) → k < length offsets.now → place + length block.old ≤ length sets.now + slice_index offsets.now k }
    requires small { place + length block.old < 2 ^ 63 }
    ensures len { length block.new ≡ length block.old }
    ensures adds { (i : ℕ) → i < length block.old → AddsSmall W.digits (slice_index (map W.number block.old) i) (slice_index (map W.number block.new) i) (IsMadeBehind (map W.number sets.now) (place + i) offsets.now values.now (length offsets.now)) }
{
    let mut done = 0;
    while done + PART <= block.len() {
        unite_long(
            &mut block[done..done + PART],
            sets,
            place + done,
            offsets,
            values,
        );
        done += PART;
    }
    while done + FEW <= block.len() {
        let mut few = [W::empty(); FEW];
        few.copy_from_slice(&block[done..done + FEW]);
        unite_part(&mut few, sets, place + done, offsets, values);
        block[done..done + FEW].copy_from_slice(&few);
        done += FEW;
    }
    if done < block.len() {
        unite_part(&mut block[done..], sets, place + done, offsets, values);
    }
}

// The same for `PART` sets, in an array: apart, so that no array is made where there are fewer.
#[inline(never)]
fn unite_long<W: Word>(
    block: &mut [W],
    sets: &[W],
    place: usize,
    offsets: &[usize],
    values: &[usize],
)
    requires part { length block.old ≡ PART }
    requires beside { length values.now ≡ length offsets.now }
    requires few { (k : ℕ) → k < length values.now → slice_index values.now k < 2 ^ W.digits }
    requires before { (k : ℕ) → k < length offsets.now → slice_index offsets.now k ≤ place }
    requires behind { (k : ℕ) → k < length offsets.now → place + length block.old ≤ length sets.now + slice_index offsets.now k }
    requires small { place + length block.old < 2 ^ 63 }
    ensures len { length block.new ≡ length block.old }
    ensures adds { (i : ℕ) → i < length block.old → AddsSmall W.digits (slice_index (map W.number block.old) i) (slice_index (map W.number block.new) i) (IsMadeBehind (map W.number sets.now) (place + i) offsets.now values.now (length offsets.now)) }
{
    let mut part = [W::empty(); PART];
    part.copy_from_slice(block);
    unite_part(&mut part, sets, place, offsets, values);
    block.copy_from_slice(&part);
}

// Adds to each set of a part of a block, the first of which is that of the place `place`, what the steps make.
#[inline(always)]
fn unite_part<W: Word>(
    block: &mut [W],
    sets: &[W],
    place: usize,
    offsets: &[usize],
    values: &[usize],
)
    requires beside { length values.now ≡ length offsets.now }
    requires few { (k : ℕ) → k < length values.now → slice_index values.now k < 2 ^ W.digits }
    requires before { (k : ℕ) → k < length offsets.now → slice_index offsets.now k ≤ place }
    requires behind { (k : ℕ) → k < length offsets.now → place + length block.old ≤ length sets.now + slice_index offsets.now k }
    requires small { place + length block.old < 2 ^ 63 }
    ensures len { length block.new ≡ length block.old }
    ensures adds { (i : ℕ) → i < length block.old → AddsSmall W.digits (slice_index (map W.number block.old) i) (slice_index (map W.number block.new) i) (IsMadeBehind (map W.number sets.now) (place + i) offsets.now values.now (length offsets.now)) }
{
    // Each number in the block stands xored with the value of the last step.
    let mut frame = 0;
    for at in 0..offsets.len() {
        turn_by(block, frame ^ values[at]);
        frame = values[at];
        let from = place - offsets[at];
        unite(block, &sets[from..from + block.len()]);
    }
    turn_by(block, frame);
}

// Adds to each set the numbers of another one.
#[inline(always)]
fn unite<W: Word>(sets: &mut [W], others: &[W])
    requires { length others.now ≡ length sets.old }
    ensures len { length sets.new ≡ length sets.old }
    ensures adds { (i : ℕ) → i < length sets.old → Adds (slice_index (map W.number sets.old) i) (slice_index (map W.number sets.new) i) (Has (slice_index (map W.number others.now) i)) }
{
    for at in 0..sets.len() {
        sets[at] = sets[at].united(others[at]);
    }
}
