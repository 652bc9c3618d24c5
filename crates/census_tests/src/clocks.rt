//! Clocks that are raised, read, joined and gathered.

use crate::answers::{check, check_equal, dot};
use metered::Metered;
use oct_join::{Clock, Join, gather};
use std::alloc::{Allocator, Global};
use std::process::Abort;

// Two authors, five of them, what is joined with the five, and the least upper bound.
const TWO: &[(u32, u32)] = &[(1, 3), (2, 1)];

const FIVE: &[(u32, u32)] = &[(1, 5), (2, 5), (3, 5), (4, 5), (5, 5)];

const OLD: &[(u32, u32)] = &[(2, 9), (3, 4)];

const JOINED: &[(u32, u32)] = &[(1, 5), (2, 9), (3, 5), (4, 5), (5, 5)];

// Raises the clock to an entry where memory is refused at first, which changes nothing. An empty clock needs memory for it.
// `heap` counts the requests of the clock.
fn raise<A: Allocator>(
    rt: &impl Abort,
    heap: &Metered<Global>,
    clock: &mut Clock<A>,
    author: u32,
    number: u32,
) {
    assert!(rt; author != 0, "no author is 0");
    let count = clock.entries().len();
    heap.arm(0);
    if clock.raise(author, number).is_ok() {
        check(rt, count > 0, ("took no memory", author, number));
        return;
    }
    let left = (clock.entries().len(), clock.through(author));
    check_equal(rt, left, (count, 0), ("was refused", author, number));
    heap.arm(1);
    let is_raised = clock.raise(author, number).is_ok();
    check(
        rt,
        is_raised,
        ("took more than one request", author, number),
    );
}

// The same of these entries.
fn raise_all<A: Allocator>(
    rt: &impl Abort,
    heap: &Metered<Global>,
    clock: &mut Clock<A>,
    entries: &[(u32, u32)],
) {
    for &(author, number) in entries {
        raise(rt, heap, clock, author, number);
    }
}

fn keeps_greater_numbers<A: Allocator>(rt: &impl Abort, heap: &Metered<Global>, alloc: A) {
    let mut clock = Clock::new(alloc);
    raise_all(rt, heap, &mut clock, &[(7, 4), (2, 9), (7, 3), (5, 0)]);
    check_equal(
        rt,
        clock.entries(),
        [(2, 9), (7, 4)].as_slice(),
        "the entries",
    );
    raise_all(rt, heap, &mut clock, &[(7, u32::MAX)]);
    check_equal(
        rt,
        (clock.through(7), clock.through(5)),
        (u32::MAX, 0),
        "the numbers of authors 7 and 5",
    );
}

#[test]
fn greater_numbers_stay(rt: HostRuntime) {
    let heap = Metered::new(rt.alloc());
    keeps_greater_numbers(&rt, &heap, &heap);
}

/// An operation, and whether a clock covers it that knows the first two of author 5, and no other.
#[derive(Clone, Copy)]
struct Covered {
    author: u32,
    number: u32,
    is_covered: bool,
}

const COVERED: &[Covered] = &[
    Covered {
        author: 5,
        number: 1,
        is_covered: true,
    },
    Covered {
        author: 5,
        number: 2,
        is_covered: true,
    },
    Covered {
        author: 5,
        number: 3,
        is_covered: false,
    },
    Covered {
        author: 6,
        number: 1,
        is_covered: false,
    },
];

// A clock is made and read without a request for memory.
fn takes_no_memory<A: Allocator>(rt: &impl Abort, heap: &Metered<Global>, alloc: A) {
    heap.arm(1_000);
    let mut clock = Clock::new(alloc);
    check_equal(rt, heap.left(), 1_000, "requests left by an empty clock");
    check(rt, clock.raise(5, 2).is_ok(), "the entry is refused");
    heap.arm(1_000);
    check_equal(rt, clock.entries(), [(5, 2)].as_slice(), "the entries");
    check_equal(
        rt,
        (clock.through(5), clock.through(6)),
        (2, 0),
        "the numbers of authors 5 and 6",
    );
    for &Covered {
        author,
        number,
        is_covered,
    } in COVERED {
        let answer = clock.covers(&dot(rt, author, number));
        check_equal(rt, answer, is_covered, (author, number));
    }
    check_equal(rt, heap.left(), 1_000, "requests left by the answers");
}

#[test]
fn answers_take_no_memory(rt: HostRuntime) {
    let heap = Metered::new(rt.alloc());
    takes_no_memory(&rt, &heap, &heap);
}

// Whether each author of the entries has at least that number in the others.
fn is_below(entries: &[(u32, u32)], others: &[(u32, u32)]) -> bool {
    entries.iter().all(|&(author, number)| {
        others
            .iter()
            .any(|&(other, most)| author == other && number <= most)
    })
}

// The others are joined, or gathered where they are not one alone, where each request for memory is refused in turn, with a
// content between before.
fn grows<A: Allocator>(
    rt: &impl Abort,
    heap: &Metered<Global>,
    clock: &mut Clock<A>,
    others: &[Clock<A>],
    case: &Case,
) {
    let Case { held, wanted, .. } = *case;
    for grants in 0..10u64 {
        heap.arm(grants);
        let grown = match others {
            [other] => clock.join(other),
            _ => gather(clock, others),
        };
        let entries = clock.entries();
        if grown.is_ok() {
            check(rt, grants > 0, ("took no memory", wanted));
            check_equal(rt, entries, wanted, ("requests", grants));
            return;
        }
        let is_between = is_below(held, entries) && is_below(entries, wanted);
        check(rt, is_between, ("not between", entries, held, wanted));
    }
    panic!(rt; "{wanted:?} is refused at ten requests");
}

/// What a clock holds, what the others hold that it takes in, and what it holds then.
#[derive(Clone, Copy)]
struct Case {
    held: &'static [(u32, u32)],
    others: &'static [&'static [(u32, u32)]],
    wanted: &'static [(u32, u32)],
}

// The old clock is joined with that of the five; {1 at 1} and others are gathered into the empty clock.
const CASES: &[Case] = &[
    Case {
        held: OLD,
        others: &[FIVE],
        wanted: JOINED,
    },
    Case {
        held: &[],
        others: &[&[(1, 1)], TWO],
        wanted: TWO,
    },
    Case {
        held: &[],
        others: &[&[(1, 1)], FIVE],
        wanted: FIVE,
    },
];

// A clock with exactly these entries.
fn clock_of<A: Allocator>(
    rt: &impl Abort,
    heap: &Metered<Global>,
    alloc: A,
    entries: &[(u32, u32)],
) -> Clock<A> {
    let mut clock = Clock::new(alloc);
    raise_all(rt, heap, &mut clock, entries);
    check_equal(rt, clock.entries(), entries, "the entries of a clock");
    clock
}

fn comes_out<A: Allocator + Copy>(rt: &impl Abort, heap: &Metered<Global>, alloc: A, case: &Case) {
    let mut clock = clock_of(rt, heap, alloc, case.held);
    let mut clocks = Vec::new(alloc);
    for entries in case.others {
        let other = clock_of(rt, heap, alloc, entries);
        heap.arm(u64::MAX);
        check(rt, clocks.push(other).is_ok(), "a clock is not kept");
    }
    grows(rt, heap, &mut clock, &clocks, case);
}

#[test]
fn refused_clocks_grow_in_the_end(rt: HostRuntime) {
    let heap = Metered::new(rt.alloc());
    for case in CASES {
        comes_out(&rt, &heap, &heap, case);
    }
}
