//! Sets whose numbers are written out.

use crate::{Word, turn_by, unite_steps};

#[test]
fn least_numbers_are_found(rt: HostRuntime) {
    assert_eq!(&rt; u64::one(5), 32, "the set of 5");
    assert_eq!(&rt; 0_u64.least(), 0, "in no number");
    assert_eq!(&rt;
        (u64::one(0) | u64::one(1) | u64::one(3)).least(),
        2,
        "in 0, 1 and 3"
    );
    assert_eq!(&rt; u64::MAX.least(), 64, "in all numbers");
}

#[test]
fn least_numbers_are_found_in_words_of_32_bits(rt: HostRuntime) {
    assert_eq!(&rt; u32::one(5), 32, "the set of 5");
    assert_eq!(&rt; u32::empty().least(), 0, "in no number");
    assert_eq!(&rt; u32::one(0).united(u32::one(1)).least(), 2, "in 0 and 1");
    assert_eq!(&rt; u32::MAX.least(), 32, "in all numbers");
}

#[test]
fn numbers_are_turned(rt: HostRuntime) {
    let mut block = [u64::one(1) | u64::one(40), u64::one(63), 0];
    turn_by(&mut block, 6);
    assert_eq!(&rt; block[0], u64::one(7) | u64::one(46), "1 and 40 by 6");
    assert_eq!(&rt; block[1], u64::one(57), "63 by 6");
    assert_eq!(&rt; block[2], 0, "no number by 6");
    turn_by(&mut block, 0);
    assert_eq!(&rt; block[1], u64::one(57), "57 by 0");
}

#[test]
fn numbers_are_turned_in_words_of_32_bits(rt: HostRuntime) {
    let mut block = [u32::one(1) | u32::one(20), u32::one(31), 0];
    turn_by(&mut block, 22);
    assert_eq!(&rt; block[0], u32::one(23) | u32::one(2), "1 and 20 by 22");
    assert_eq!(&rt; block[1], u32::one(9), "31 by 22");
    assert_eq!(&rt; block[2], 0, "no number by 22");
}

#[test]
fn steps_are_united(rt: HostRuntime) {
    let sets = [
        u64::one(0),
        u64::one(1),
        u64::one(2),
        u64::one(3),
        u64::one(1),
        u64::one(4),
    ];
    let mut block = [0, u64::one(9)];
    unite_steps(&mut block, &sets, 6, &[2, 3, 3], &[0, 0, 6]);
    assert_eq!(&rt;
        block[0],
        u64::one(1) | u64::one(3) | u64::one(5),
        "at the place 6"
    );
    assert_eq!(&rt;
        block[1],
        u64::one(4) | u64::one(1) | u64::one(7) | u64::one(9),
        "at the place 7"
    );
}

#[test]
fn steps_are_united_in_words_of_32_bits(rt: HostRuntime) {
    let sets = [u32::one(0), u32::one(1), u32::one(2), u32::one(3)];
    let mut block = [0, u32::one(9)];
    unite_steps(&mut block, &sets, 4, &[2, 3], &[0, 30]);
    assert_eq!(&rt; block[0], u32::one(2) | u32::one(31), "at the place 4");
    assert_eq!(&rt;
        block[1],
        u32::one(3) | u32::one(28) | u32::one(9),
        "at the place 5"
    );
}

#[test]
fn heap_of_kayles_has_its_value(rt: HostRuntime) {
    // The nim-values of Kayles up to a heap of 11 beans (Winning Ways, chapter 4). Of 12 beans one or two are taken.
    let first = [
        u64::one(0),
        u64::one(1),
        u64::one(2),
        u64::one(3),
        u64::one(1),
        u64::one(4),
    ];
    let next = [
        u64::one(3),
        u64::one(2),
        u64::one(1),
        u64::one(4),
        u64::one(2),
        u64::one(6),
    ];
    let mut sets = [0; 12];
    sets[..6].copy_from_slice(&first);
    sets[6..].copy_from_slice(&next);
    let mut block = [0];
    let offsets = [1, 2, 3, 4, 5, 6, 2, 3, 4, 5, 6, 7];
    let smaller = [0, 1, 2, 3, 1, 4, 0, 1, 2, 3, 1, 4];
    unite_steps(&mut block, &sets, 12, &offsets, &smaller);
    assert_eq!(&rt; block[0].least(), 4, "of 12 beans");
}

// A number of the set that stands at a place.
fn number_of(place: usize) -> usize {
    place.wrapping_mul(7) % 32
}

// What steps by 130 places, and by 135 with each number xored with 6, make of such sets at a place.
fn made_at(place: usize) -> u32 {
    u32::one(number_of(place.wrapping_sub(130)) % 32).united(u32::one(
        (number_of(place.wrapping_sub(135)) ^ 6) % 32,
    ))
}

#[test]
fn steps_are_united_in_a_block_of_many_sets(rt: HostRuntime) {
    let mut sets = [0_u32; 140];
    for place in 0..sets.len() {
        sets[place] = u32::one(number_of(place) % 32);
    }
    let mut block = [0_u32; 130];
    unite_steps(&mut block, &sets, 140, &[130, 135], &[0, 6]);
    for at in [0_usize, 63, 64, 127, 128, 129] {
        assert_eq!(&rt; block[at], made_at(140 + at), "{at} places on");
    }
}
