//! Small heaps by which the values of most heaps are settled.
//!
//! A heap is settled where each number below its value is met by a step, so is the value of an option. A plan has the steps that
//! leave one heap, and those over a rare heap. What these don't meet is met by steps over further small heaps, the witnesses: a
//! heap has thousands of options, and some of them settle nearly all heaps. They are chosen from the last heaps, one by one: of
//! those that meet what a heap lacks most, the one that meets most of what the others lack too. Which ones are chosen changes no
//! value, but how many heaps have to be settled one by one.
//!
//! A heap and its twin, which is larger by the same distance for all and has the same value, take one step, and meet about twice as
//! much as a heap alone. They do so most where two heaps at this distance seldom have the same value: else what is left besides
//! the one has the value of what is left besides the other. So the distance is one with few twins, but as many as make a choice.

ghost use Rattle.std.specs.Prelude.{◌≡◌, ◌+◌, ◌^◌, ◌≤◌, ◌<◌, false, IfOk, IfSome, IsTrue, length, map, slice_index, vec_len};
ghost use Rattle.std.specs.List.{All};

use crate::pairs::{number_at, splits_of};
use bitsets::Word;
use oct_code::Code;
use oct_mex::Cell;
use std::alloc::{AllocError, Allocator};

/// So many witnesses are chosen at most.
pub(crate) const MOST: usize = 64;

// A step over a heap from here on leads out of a block of 64 heaps, also where no bean is removed.
const NEAREST: usize = 64;

// Farther heaps are not tried.
const FARTHEST: usize = 4_096;

// So many of the last heaps are looked at: by few of them witnesses are chosen that serve these alone.
const SAMPLE: usize = 2_048;

// While more heaps of the sample lack something, a part of them tells what a witness is worth.
const SCORED: usize = 64;

// So many heaps that meet a number are tried.
const TRIED: usize = 16;

// So many that have no twin are tried.
const TRIED_ALONE: usize = 4;

// Twins are at most so far apart.
const APART: usize = 64;

// Where fewer heaps that may be tried have twins, another distance is taken.
const FEWEST: usize = 64;

// In some rounds no witness is found.
const ROUNDS: usize = 2 * MOST;

// The first step of a value takes as long as so many more of a value that others have, since all sets are xored for it.
const PRICE: usize = 3;

/// Small heaps by which most heaps are settled, besides those of the plan.
#[derive(Drop)]
pub(crate) struct Chosen<A: Allocator> {
    /// Those that are alone.
    pub alone: Vec<u32, A>,
    /// Those that have twins.
    pub twins: Vec<u32, A>,
    /// A twin has so many beans more.
    pub apart: usize,
}

/// Small heaps by which most heaps are settled, besides those of the plan: of the list `small` of the first values, each of a
/// value below 64. They are chosen by the heaps that have the values `last`, in order, so far as these are settled neither by a
/// step that leaves one heap nor by one over a heap of the list `rare`.
pub(crate) fn witnesses<T: Cell, A: Allocator + Copy>(
    alloc: A,
    code: &Code,
    small: &[T],
    last: &[T],
    rare: &[u32],
) -> Result<Chosen<A>, AllocError>
    ensures alone { IfOk result (λ chosen. All (λ h. (NEAREST ≤ h) × (h < length small.now) × (slice_index (map T.number small.now) h < 64)) chosen.alone.items) }
    ensures twins { IfOk result (λ chosen. All (λ h. (NEAREST ≤ h) × (h + chosen.apart < length small.now) × (slice_index (map T.number small.now) h < 64) × (slice_index (map T.number small.now) (h + chosen.apart) ≡ slice_index (map T.number small.now) h)) chosen.twins.items) }
    ensures few { IfOk result (λ chosen. vec_len chosen.alone + vec_len chosen.twins ≤ MOST) }
{
    let splits = splits_of(alloc, code)?;
    let known = Known {
        splits: &splits,
        small,
        last,
        apart: distance(small),
    };
    let pairs = known.pairs(alloc)?;
    let mut lacking = known.lacking(alloc, code, rare)?;
    let mut values = known.values_of(rare);
    let mut alone = Vec::with_capacity(alloc, MOST)?;
    let mut twins = Vec::with_capacity(alloc, MOST)?;
    for _ in 0..ROUNDS {
        if lacking.is_empty() || alone.len() + twins.len() == MOST {
            break;
        }
        let at = neediest(&lacking);
        match known.best(&pairs, lacking[at], &lacking, values) {
            Some(found) => {
                if found.twin {
                    twins.push(found.heap)?;
                } else {
                    alone.push(found.heap)?;
                }
                values |= known.set_of(found.heap as usize);
                known.settle(&mut lacking, found);
            }
            None => {
                lacking.swap_remove(at);
            }
        }
    }
    Ok(Chosen {
        alone,
        twins,
        apart: known.apart,
    })
}

// How far apart twins are: the distance with fewest twins of those that have enough.
fn distance<T: Cell>(small: &[T]) -> usize
    ensures { result ≤ APART }
{
    let mut distance = 0;
    let mut fewest = usize::MAX;
    for apart in 1..APART + 1 {
        let count = twins_at(small, apart, fewest);
        if FEWEST <= count && count < fewest {
            fewest = count;
            distance = apart;
        }
    }
    distance
}

// How many of the heaps that may be tried have twins at a distance, or a number from `enough` on.
fn twins_at<T: Cell>(small: &[T], apart: usize, enough: usize) -> usize
    requires { apart ≤ APART }
{
    let mut count: usize = 0;
    let mut heap = NEAREST;
    while heap + apart < small.len() && heap <= FARTHEST && count < enough {
        if small[heap].number() == small[heap + apart].number() {
            count = count.wrapping_add(1);
        }
        heap += 1;
    }
    count
}

// A heap that is not settled, by its place among the last ones, and the numbers below its value that no step meets.
#[derive(Clone, Copy)]
struct Lacking {
    place: usize,
    numbers: u64,
}

// The heap of which most numbers are not met.
fn neediest(lacking: &[Lacking]) -> usize
    requires { 0 < length lacking.now }
    ensures { result < length lacking.now }
{
    let mut neediest = 0;
    for at in 1..lacking.len() {
        if lacking[at].numbers.count_ones() > lacking[neediest].numbers.count_ones() {
            neediest = at;
        }
    }
    neediest
}

// A small heap that settles others, alone or with its twin.
#[derive(Clone, Copy)]
struct Witness {
    heap: u32,
    twin: bool,
}

// The removals that leave two heaps, the first values, those of the last heaps, and how far apart twins are.
#[derive(Clone, Copy)]
struct Known<'a, T> {
    splits: &'a [usize],
    small: &'a [T],
    last: &'a [T],
    apart: usize,
}

impl<T: Cell> Known<'_, T> {
    // The heaps that may be tried and have twins.
    fn pairs<A: Allocator>(self, alloc: A) -> Result<Vec<u32, A>, AllocError>
        requires { self.apart ≤ APART }
    {
        let mut pairs = Vec::new(alloc);
        for heap in NEAREST..self.small.len().min(FARTHEST + 1) {
            if self.is_paired(heap) {
                pairs.push(heap as u32)?;
            }
        }
        Ok(pairs)
    }

    // Whether a heap may be a witness with its twin.
    fn is_paired(self, heap: usize) -> bool
        requires few { heap < 2 ^ 32 }
        requires near { self.apart ≤ APART }
        ensures { IsTrue result → (NEAREST ≤ heap) × (heap + self.entry.apart < length self.entry.small.now) × (slice_index (map T.number self.entry.small.now) heap < 64) × (slice_index (map T.number self.entry.small.now) (heap + self.entry.apart) ≡ slice_index (map T.number self.entry.small.now) heap) }
    {
        NEAREST <= heap
            && 0 < self.apart
            && heap + self.apart < self.small.len()
            && number_at(self.small, heap) < 64
            && number_at(self.small, heap + self.apart) == number_at(self.small, heap)
    }

    // The heaps of the sample that the plan does not settle.
    fn lacking<A: Allocator>(
        self,
        alloc: A,
        code: &Code,
        rare: &[u32],
    ) -> Result<Vec<Lacking, A>, AllocError> {
        let mut lacking = Vec::with_capacity(alloc, SAMPLE)?;
        let end = self.last.len();
        for place in end.saturating_sub(SAMPLE).max(FARTHEST.min(end / 2))..end {
            let numbers = self.lacking_at(code, rare, place);
            if numbers != 0 {
                lacking.push(Lacking { place, numbers })?;
            }
        }
        Ok(lacking)
    }

    // The numbers below the value at a place that no step of the plan meets.
    fn lacking_at(self, code: &Code, rare: &[u32], place: usize) -> u64 {
        let mut numbers = match self.last.get(place) {
            Some(value) => below(value.number()),
            None => 0,
        };
        for removed in 1..code.len() + 1 {
            if code.allows(removed, 1) {
                numbers &= !self.met(place, removed, 0, 0);
            }
        }
        for heap in rare {
            numbers &= !self.met_by(place, *heap as usize);
        }
        numbers
    }

    // The values of the heaps of a list, and that of no bean.
    fn values_of(self, heaps: &[u32]) -> u64 {
        let mut values = u64::one(0);
        for heap in heaps {
            values |= self.set_of(*heap as usize);
        }
        values
    }

    // The set of the value of a small heap.
    fn set_of(self, heap: usize) -> u64 {
        match self.small.get(heap) {
            Some(value) => set_of(value.number()),
            None => 0,
        }
    }

    // The numbers that steps over a small heap meet at a place.
    fn met_by(self, place: usize, heap: usize) -> u64 {
        let Some(value) = self.small.get(heap) else {
            return 0;
        };
        let mut met = 0;
        for removed in self.splits {
            met |= self.met(place, *removed, heap, value.number());
        }
        met
    }

    // The number that one step over a small heap of a value meets at a place.
    fn met(self, place: usize, removed: usize, heap: usize, value: usize) -> u64 {
        // Where there are too few beans, this is a place behind all others.
        let rest = place.wrapping_sub(removed).wrapping_sub(heap);
        match self.last.get(rest) {
            Some(other) => set_of(other.number() ^ value),
            None => 0,
        }
    }

    // The numbers that steps over a witness meet at a place.
    fn met_of(self, place: usize, witness: Witness) -> u64 {
        let heap = witness.heap as usize;
        let met = self.met_by(place, heap);
        if witness.twin {
            met | self.met_by(place, heap.wrapping_add(self.apart))
        } else {
            met
        }
    }

    // The best heap with a twin, or the best one alone, where this is worth more.
    fn best(
        self,
        pairs: &[u32],
        neediest: Lacking,
        lacking: &[Lacking],
        values: u64,
    ) -> Option<Witness>
        requires { self.apart ≤ APART }
        ensures { IfSome result (λ w. (NEAREST ≤ w.heap) × (w.heap < length self.entry.small.now) × (slice_index (map T.number self.entry.small.now) w.heap < 64) × (IsTrue w.twin → (w.heap + self.entry.apart < length self.entry.small.now) × (slice_index (map T.number self.entry.small.now) (w.heap + self.entry.apart) ≡ slice_index (map T.number self.entry.small.now) w.heap))) }
    {
        let paired = self.best_paired(pairs, neediest, lacking, values);
        let alone = self.best_alone(neediest, lacking, values);
        let Some(first) = paired else {
            return alone;
        };
        let Some(second) = alone else {
            return paired;
        };
        if self.worth(second, lacking, values) > self.worth(first, lacking, values) {
            alone
        } else {
            paired
        }
    }

    // Of the first heaps that have twins and meet the least number that one lacks, the one that is worth most.
    fn best_paired(
        self,
        pairs: &[u32],
        neediest: Lacking,
        lacking: &[Lacking],
        values: u64,
    ) -> Option<Witness>
        requires { self.apart ≤ APART }
        ensures { IfSome result (λ w. (NEAREST ≤ w.heap) × (w.heap < length self.entry.small.now) × (slice_index (map T.number self.entry.small.now) w.heap < 64) × (w.heap + self.entry.apart < length self.entry.small.now) × (slice_index (map T.number self.entry.small.now) (w.heap + self.entry.apart) ≡ slice_index (map T.number self.entry.small.now) w.heap)) }
    {
        let least = least_of(neediest.numbers);
        let mut best = None;
        let mut most = 0;
        let mut tried = 0;
        for heap in pairs {
            let witness = Witness {
                heap: *heap,
                twin: true,
            };
            if tried == TRIED {
                break;
            }
            if self.is_paired(*heap as usize) && self.met_of(neediest.place, witness) & least != 0 {
                tried += 1;
                let worth = self.worth(witness, lacking, values);
                if worth > most {
                    most = worth;
                    best = Some(witness);
                }
            }
        }
        best
    }

    // The same of those alone.
    fn best_alone(self, neediest: Lacking, lacking: &[Lacking], values: u64) -> Option<Witness>
        ensures { IfSome result (λ w. (NEAREST ≤ w.heap) × (w.heap < length self.entry.small.now) × (slice_index (map T.number self.entry.small.now) w.heap < 64) × (w.twin ≡ false)) }
    {
        let least = least_of(neediest.numbers);
        let most_tried = if self.apart == 0 { TRIED } else { TRIED_ALONE };
        let mut best = None;
        let mut most = 0;
        let mut tried = 0;
        for heap in NEAREST..self.small.len().min(FARTHEST + 1) {
            let witness = Witness {
                heap: heap as u32,
                twin: false,
            };
            if tried >= most_tried {
                break;
            }
            if number_at(self.small, heap) < 64 && self.met_by(neediest.place, heap) & least != 0 {
                tried += 1;
                let worth = self.worth(witness, lacking, values);
                if worth > most {
                    most = worth;
                    best = Some(witness);
                }
            }
        }
        best
    }

    // How many numbers that are not met a witness meets, in a part of those that lack some; and more for a value that the plan has.
    fn worth(self, witness: Witness, lacking: &[Lacking], values: u64) -> usize {
        let step = lacking.len() / SCORED + 1;
        let mut worth: usize = 0;
        let mut at = 0;
        while at < lacking.len() {
            let Lacking { place, numbers } = lacking[at];
            let met = self.met_of(place, witness) & numbers;
            worth = worth.wrapping_add(met.count_ones() as usize);
            at += step;
        }
        if self.set_of(witness.heap as usize) & values != 0 {
            worth.saturating_mul(PRICE)
        } else {
            worth
        }
    }

    // Takes away what a witness meets, and the heaps that lack nothing any more.
    fn settle<A: Allocator>(self, lacking: &mut Vec<Lacking, A>, witness: Witness) {
        let mut kept = 0;
        for at in 0..lacking.len() {
            let Lacking { place, numbers } = lacking[at];
            let numbers = numbers & !self.met_of(place, witness);
            if numbers != 0 {
                lacking[kept] = Lacking { place, numbers };
                kept += 1;
            }
        }
        lacking.truncate(kept);
    }
}

// The set of the least number of a set.
fn least_of(numbers: u64) -> u64 {
    numbers & numbers.wrapping_neg()
}

// The set of a number, or of none if it is not below 64.
fn set_of(number: usize) -> u64 {
    if number < 64 { u64::one(number) } else { 0 }
}

// The numbers below a value, as far as they are below 64.
fn below(value: usize) -> u64 {
    if value < 64 {
        u64::one(value).wrapping_sub(1)
    } else {
        u64::MAX
    }
}
