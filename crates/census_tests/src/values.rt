//! Nim-values of known games, the room that is made for them, and the first place at which two lists differ.

use crate::answers::{check, check_equal, code};
use crate::vectors::KAYLES_VALUES;
use metered::Metered;
use oct_code::{Code, LIMIT};
use oct_mex::{Leaders, Values, first_difference};
use std::alloc::{Allocator, Global};
use std::process::Abort;

// The first two and the first eight nim-values of Kayles.
const TWO: &[u32] = &[0, 1];

const EIGHT: &[u32] = &[0, 1, 2, 3, 1, 4, 3, 2];

// The heaps 0 to 83 of Kayles.
fn eighty_four() -> &'static [u32] {
    &KAYLES_VALUES[..84]
}

// The values become these, and no more of them are computed.
fn come_to<A: Allocator + Copy>(rt: &impl Abort, values: &mut Values<A>, wanted: &[u32]) {
    let count = wanted.len();
    assert!(rt; count <= LIMIT);
    check(rt, values.extend_to(count).is_ok(), ("values", count));
    check_equal(rt, values.as_slice(), wanted, ("values", count));
    check_equal(rt, values.get(count), None, ("value", count));
}

// Games and their first nim-values.
const GAMES: &[(&str, &[u32])] = &[
    ("0.07", &[0, 0, 1, 1, 2, 0, 3]),
    ("0.137", &[0, 1, 1, 2, 0, 3]),
    ("0.3", &[0, 1, 0, 1, 0, 1, 0, 1, 0, 1]),
    ("4.0", &[0, 0, 1, 0, 1, 0, 1, 0, 1, 0]),
    ("0.77", &KAYLES_VALUES),
];

#[test]
fn known_games_have_their_values(rt: HostRuntime) {
    for &(text, wanted) in GAMES {
        come_to(&rt, &mut Values::new(rt.alloc(), code(&rt, text)), wanted);
    }
}

// A game goes on with the values of Kayles as long as they are its own.
fn follows(rt: &(impl Abort + AllocGlobal), leaders: &Leaders<Global>, text: &str, wanted: &[u32]) {
    let mut values = Values::new(rt.alloc(), code(rt, text));
    values.room_to(84).ok().expect(rt, "room");
    values.follow(leaders, 84);
    check_equal(rt, values.as_slice(), wanted, text);
}

// In 0.137 two heaps may be left by another digit.
#[test]
fn games_follow_others(rt: HostRuntime) {
    let mut kayles = Values::new(rt.alloc(), code(&rt, "0.77"));
    come_to(&rt, &mut kayles, eighty_four());
    let mut leaders = Leaders::new(rt.alloc());
    follows(&rt, &leaders, "0.77", &[]);
    leaders.keep(rt.alloc(), &kayles);
    follows(&rt, &leaders, "0.77", eighty_four());
    follows(&rt, &leaders, "0.137", &[]);
}

// A copy of the first eight values of Kayles becomes 84 on its own.
fn copies_grow<A: Allocator + Copy>(rt: &impl Abort, alloc: A, code: Code) {
    let mut values = Values::new(alloc, code);
    come_to(rt, &mut values, EIGHT);
    let mut copy = values.copy(alloc).ok().expect(rt, "a copy");
    check_equal(rt, copy.as_slice(), EIGHT, "the copy");
    come_to(rt, &mut copy, eighty_four());
    check_equal(rt, values.as_slice(), EIGHT, "the values that were copied");
}

// Two values get room for eight, or become 84, where each request for memory is refused in turn, and two values stay before.
fn grow<A: Allocator + Copy>(
    rt: &impl Abort,
    heap: &Metered<Global>,
    values: &mut Values<A>,
    room: bool,
) {
    let wanted = if room { TWO } else { eighty_four() };
    for grants in 0..10u64 {
        heap.arm(grants);
        let grown = if room {
            values.room_to(8)
        } else {
            values.extend_to(84)
        };
        if grown.is_ok() {
            check(rt, grants > 0, "they took no memory");
            check_equal(rt, values.as_slice(), wanted, "the values");
            return;
        }
        check_equal(rt, values.as_slice(), TWO, ("requests", grants));
        check(rt, !room || values.room() == 2, ("room", grants));
    }
    panic!(rt; "they are refused at ten requests");
}

// The values of a game get room, and then grow.
fn grow_after_refusals<A: Allocator + Copy>(
    rt: &impl Abort,
    heap: &Metered<Global>,
    alloc: A,
    code: Code,
) {
    heap.arm(u64::MAX);
    let mut values = Values::new(alloc, code);
    come_to(rt, &mut values, TWO);
    grow(rt, heap, &mut values, true);
    grow(rt, heap, &mut values, false);
}

// Values are made, computed within their room and read without a request for memory.
fn take_no_memory<A: Allocator + Copy>(
    rt: &impl Abort,
    heap: &Metered<Global>,
    alloc: A,
    code: Code,
) {
    heap.arm(1_000);
    let mut values = Values::new(alloc, code);
    check_equal(rt, heap.left(), 1_000, "requests that are left");
    assert!(rt; values.room_to(8).is_ok());
    heap.arm(1_000);
    values.extend_within(8);
    check_equal(rt, values.as_slice(), EIGHT, "eight values");
    check_equal(
        rt,
        (values.get(5), values.get(8)),
        (Some(4), None),
        "the values 5 and 8",
    );
    check_equal(rt, values.room(), 8, "the room");
    check(rt, values.code() == code, "another code");
    check_equal(rt, heap.left(), 1_000, "requests that are left");
}

#[test]
fn values_are_computed_again_and_read_without_memory(rt: HostRuntime) {
    let heap = Metered::new(rt.alloc());
    let code = code(&rt, "0.77");
    copies_grow(&rt, &heap, code);
    grow_after_refusals(&rt, &heap, &heap, code);
    take_no_memory(&rt, &heap, &heap, code);
}

// The lists of sevens differ first at the place, once the second one has an eight there, and then more of them.
fn differ_first_at(rt: &impl Abort, sevens: &[u32], other: &mut [u32], at: usize) {
    assert!(rt; sevens.len() == other.len());
    check_equal(
        rt,
        first_difference(sevens, other),
        None,
        "sevens and sevens",
    );
    for later in at..other.len() {
        other[later] = 8;
        let count = sevens.len();
        check_equal(
            rt,
            first_difference(sevens, other),
            Some(at),
            ("of and up to", count, later),
        );
    }
}

#[test]
fn lists_differ_at_the_first_place(rt: HostRuntime) {
    check_equal(
        &rt,
        first_difference(&[0, 1, 2], &[0, 1, 3]),
        Some(2),
        "three values",
    );
    for len in 0..71 {
        for at in 0..=len {
            let mut other = [7u32; 70];
            differ_first_at(&rt, &[7; 70][..len], &mut other[..len], at);
        }
    }
}
