//! How many heaps of a game are left by a plan and its witnesses.

use crate::settled::settled_by;
use crate::witnesses::{Chosen, MOST, witnesses};
use bitsets::Word;
use oct_code::Code;
use oct_mex::{Mask, Values};
use std::alloc::{Allocator, Global};
use std::process::Abort;

const CODE: &str = "0.454";

// No heap at all, and the rare heaps of the game.
const RARE: &[u32] = &[
    0, 1, 4, 5, 13, 14, 22, 31, 40, 44, 50, 53, 72, 102, 103, 115, 124,
];

// So many heaps are known where the witnesses are chosen.
const KNOWN: usize = 20_000;

// So many further heaps are then looked at.
const FURTHER: usize = 1_000;

// So many of them are left at most: three in a hundred.
const MOST_LEFT: usize = 30;

// The first values of the game.
fn values_of(rt: &(impl Abort + AllocGlobal), code: Code) -> Vec<u16, Global> {
    let mut values = Values::new(rt.alloc(), code);
    values
        .extend_to(KNOWN + FURTHER)
        .ok()
        .expect(rt, "the values");
    let mut cells = Vec::new(rt.alloc());
    for value in values.as_slice() {
        let cell = u16::try_from(*value).ok().expect(rt, "a small value");
        cells.push(cell).ok().expect(rt, "memory");
    }
    cells
}

// The set of the value of an option with a small heap beside, or of none.
fn option_of(values: &[u16], heap: usize, removed: usize, beside: usize) -> Option<u64> {
    let rest = heap.checked_sub(removed)?.checked_sub(beside)?;
    let value = usize::from(*values.get(rest)? ^ *values.get(beside)?);
    if value < 64 {
        Some(u64::one(value))
    } else {
        None
    }
}

// Whether all numbers below the value of a heap are values of options with these heaps beside.
fn is_settled(code: &Code, values: &[u16], heap: usize, small: &[u32]) -> bool {
    let mut met = 0_u64;
    for removed in 0..code.len() + 1 {
        for beside in small {
            let left = if *beside == 0 { 1 } else { 2 };
            if code.allows(removed, left) {
                met |= option_of(values, heap, removed, *beside as usize).unwrap_or(0);
            }
        }
    }
    values.get(heap).map(|value| usize::from(*value)) == Some(met.least())
}

#[test]
fn width_of_a_word_is_no_number_of_it(rt: HostRuntime) {
    // Under this mask an even value of an odd heap is common.
    let mask = Mask {
        bits: 1,
        parity: true,
        turn: 0,
    };
    let narrow = settled_by(mask, 41, u32::MAX);
    let wide = settled_by(mask, 41, u64::from(u32::MAX));
    assert_eq!(&rt; narrow, None, "32 in a word of 32 bits");
    assert_eq!(&rt; wide, Some(32), "32 in a word of 64 bits");
}

// No heap at all, the rare heaps, the witnesses, and their twins.
fn heaps_of<A: Allocator>(rt: &(impl Abort + AllocGlobal), chosen: &Chosen<A>) -> Vec<u32, Global> {
    let mut heaps = Vec::new(rt.alloc());
    heaps.extend_from_slice(RARE).ok().expect(rt, "memory");
    heaps
        .extend_from_slice(&chosen.alone)
        .ok()
        .expect(rt, "memory");
    for heap in &chosen.twins {
        let twin = (*heap as usize).wrapping_add(chosen.apart);
        let twin = u32::try_from(twin).ok().expect(rt, "a small heap");
        heaps.push(*heap).ok().expect(rt, "memory");
        heaps.push(twin).ok().expect(rt, "memory");
    }
    heaps
}

#[test]
fn few_heaps_are_left(rt: HostRuntime) {
    let code = Code::parse(CODE.as_bytes()).ok().expect(&rt, CODE);
    let values = values_of(&rt, code);
    let known = values.get(..KNOWN).expect(&rt, "the values");
    let chosen = witnesses(rt.alloc(), &code, known, known, &RARE[1..])
        .ok()
        .expect(&rt, "memory");
    let steps = chosen.alone.len().wrapping_add(chosen.twins.len());
    assert!(&rt; steps <= MOST, "{steps} witnesses");
    let heaps = heaps_of(&rt, &chosen);
    let mut left = 0_usize;
    for heap in KNOWN..KNOWN + FURTHER {
        if !is_settled(&code, &values, heap, &heaps) {
            left = left.saturating_add(1);
        }
    }
    assert!(&rt; left <= MOST_LEFT, "{left} heaps are left");
}
