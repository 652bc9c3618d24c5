//! Ledgers of Kayles: what is said of blocks in whatever order they come, without memory and after each refusal of memory.

ghost use Rattle.std.specs.Prelude.{◌≡◌, IfSome};

use crate::answers::{check, check_equal, code, dot};
use metered::Metered;
use oct_code::Code;
use oct_ops::{Block, Dot};
use oct_verify::Status::{Pending, Proved, Refuted};
use oct_verify::{Ledger, Status};
use std::alloc::{Allocator, Global};
use std::process::Abort;

/// The nim-values of Kayles.
const KAYLES: &[u32] = &[0, 1, 2, 3, 1, 4, 3, 2, 1, 4, 2, 6];

/// A block of author 1.
#[derive(Clone, Copy)]
struct Row {
    number: u32,
    start: u32,
    values: &'static [u32],
}

/// A block that is added, and what is said then: its status, how many heaps are known, and how many comparisons were made.
#[derive(Clone, Copy)]
struct Step {
    row: Row,
    status: Status,
    known: u32,
    checks: u64,
}

// Blocks of which the first settles the second, and that the third.
const NEAR: Row = Row {
    number: 1,
    start: 1,
    values: &[1, 2, 3, 1, 4],
};

const NEXT: Row = Row {
    number: 2,
    start: 6,
    values: &[3],
};

const FAR: Row = Row {
    number: 3,
    start: 7,
    values: &[2],
};

// Blocks of which each but the first begins within another one.
const FIRST: Row = Row {
    number: 1,
    start: 0,
    values: &[0, 1, 2, 3, 1],
};

const INNER: Row = Row {
    number: 2,
    start: 2,
    values: &[2, 3],
};

const LAST: Row = Row {
    number: 3,
    start: 3,
    values: &[3, 1, 4, 3, 2],
};

// A block, and the one that goes on from it.
const BEFORE: Row = Row {
    number: 1,
    start: 1,
    values: &[1, 2, 3, 1],
};

const AFTER: Row = Row {
    number: 2,
    start: 5,
    values: &[4, 3, 2],
};

// Blocks that come one after the other.
const CASES: &[&[Step]] = &[
    &[
        Step {
            row: FAR,
            status: Pending,
            known: 1,
            checks: 0,
        },
        Step {
            row: NEXT,
            status: Pending,
            known: 1,
            checks: 0,
        },
        Step {
            row: NEAR,
            status: Proved,
            known: 8,
            checks: 3,
        },
    ],
    &[
        Step {
            row: FAR,
            status: Pending,
            known: 1,
            checks: 0,
        },
        Step {
            row: NEAR,
            status: Proved,
            known: 6,
            checks: 1,
        },
        Step {
            row: NEXT,
            status: Proved,
            known: 8,
            checks: 3,
        },
    ],
    &[
        Step {
            row: NEXT,
            status: Pending,
            known: 1,
            checks: 0,
        },
        Step {
            row: FAR,
            status: Pending,
            known: 1,
            checks: 0,
        },
        Step {
            row: NEAR,
            status: Proved,
            known: 8,
            checks: 3,
        },
    ],
    &[
        Step {
            row: NEXT,
            status: Pending,
            known: 1,
            checks: 0,
        },
        Step {
            row: NEAR,
            status: Proved,
            known: 7,
            checks: 2,
        },
        Step {
            row: FAR,
            status: Proved,
            known: 8,
            checks: 3,
        },
    ],
    &[
        Step {
            row: NEAR,
            status: Proved,
            known: 6,
            checks: 1,
        },
        Step {
            row: FAR,
            status: Pending,
            known: 6,
            checks: 1,
        },
        Step {
            row: NEXT,
            status: Proved,
            known: 8,
            checks: 3,
        },
    ],
    &[
        Step {
            row: NEAR,
            status: Proved,
            known: 6,
            checks: 1,
        },
        Step {
            row: NEXT,
            status: Proved,
            known: 7,
            checks: 2,
        },
        Step {
            row: FAR,
            status: Proved,
            known: 8,
            checks: 3,
        },
    ],
    &[
        Step {
            row: FIRST,
            status: Proved,
            known: 5,
            checks: 1,
        },
        Step {
            row: INNER,
            status: Proved,
            known: 5,
            checks: 2,
        },
        Step {
            row: LAST,
            status: Proved,
            known: 8,
            checks: 3,
        },
        Step {
            row: FIRST,
            status: Proved,
            known: 8,
            checks: 3,
        },
        Step {
            row: INNER,
            status: Proved,
            known: 8,
            checks: 3,
        },
    ],
    &[
        Step {
            row: LAST,
            status: Pending,
            known: 1,
            checks: 0,
        },
        Step {
            row: INNER,
            status: Pending,
            known: 1,
            checks: 0,
        },
        Step {
            row: Row {
                number: 1,
                start: 0,
                values: KAYLES,
            },
            status: Proved,
            known: 12,
            checks: 3,
        },
    ],
    &[
        Step {
            row: AFTER,
            status: Pending,
            known: 1,
            checks: 0,
        },
        Step {
            row: BEFORE,
            status: Proved,
            known: 8,
            checks: 2,
        },
        Step {
            row: AFTER,
            status: Proved,
            known: 8,
            checks: 2,
        },
    ],
    &[Step {
        row: Row {
            number: 1,
            start: 1,
            values: &[1, 2, 3, 1, 5, 0],
        },
        status: Refuted {
            at: 5,
            claimed: 5,
            truth: 4,
        },
        known: 1,
        checks: 1,
    }],
    &[Step {
        row: Row {
            number: 1,
            start: 4_095,
            values: &[0],
        },
        status: Pending,
        known: 1,
        checks: 0,
    }],
];

/// The block of the code with these values, where there is memory.
pub(crate) fn block<A: Allocator>(
    alloc: A,
    code: Code,
    start: u32,
    values: &[u32],
) -> Option<Block<A>>
    ensures { IfSome result (λ block. block.code ≡ code) }
{
    let Ok(values) = Vec::from_slice(alloc, values) else {
        return None;
    };
    match Block::new(code, start, values) {
        Ok(block) => Some(block),
        Err(_) => None,
    }
}

/// A status in words, with the heap at which a block is wrong, what it claims there, and the nim-value.
pub(crate) fn told(status: Option<Status>) -> (&'static str, u32, u32, u32) {
    match status {
        Some(Proved) => ("proved", 0, 0, 0),
        Some(Pending) => ("pending", 0, 0, 0),
        Some(Refuted { at, claimed, truth }) => ("refuted", at, claimed, truth),
        None => ("out of memory", 0, 0, 0),
    }
}

// The status of the block of a row, which is added if it is not there; none where memory is refused. The block and its copy
// take two requests.
#[tactic(auto, using(oct_verify::proofs::Filings::filed_itself))]
fn status<A: Allocator + Copy>(
    rt: &impl Abort,
    alloc: A,
    ledger: &mut Ledger<A>,
    row: Row,
) -> Option<Status> {
    let dot = dot(rt, 1, row.number);
    let block = block(alloc, ledger.code(), row.start, row.values)?;
    let again = block.copy(alloc).ok()?;
    match ledger.add(dot, block) {
        Ok(()) => Some(ledger.status(&dot, &again)),
        Err(_) => None,
    }
}

// So many nim-values are known, each that of its heap, after so many comparisons.
fn knows<A: Allocator + Copy>(
    rt: &impl Abort,
    ledger: &Ledger<A>,
    known: u32,
    checks: u64,
    case: usize,
) {
    let values = ledger.known_values();
    check_equal(
        rt,
        (ledger.known(), ledger.checks()),
        (known, checks),
        ("case", case),
    );
    check_equal(rt, values.len(), known as usize, ("case", case));
    check(rt, KAYLES.starts_with(values), ("case", case, values));
    for heap in 0..13u32 {
        let value = values.get(heap as usize).copied();
        check_equal(rt, ledger.value(heap), value, ("case and heap", case, heap));
    }
}

// The next values are refused at each request in turn, and are those of Kayles in the end.
fn goes_on<A: Allocator + Copy>(
    rt: &impl Abort,
    heap: &Metered<Global>,
    ledger: &Ledger<A>,
    case: usize,
) {
    let count = 12u32.saturating_sub(ledger.known());
    for grants in 0..64u64 {
        heap.arm(grants);
        if let Ok(next) = ledger.next_values(count) {
            check(rt, grants > 0, ("took no memory", case));
            check_equal(rt, next.len(), count as usize, ("case", case));
            check(rt, KAYLES.ends_with(&next), ("case", case));
            return;
        }
    }
    panic!(rt; "case {case}: the next values are refused at 64 requests");
}

// Makes a step, at first with so many requests granted by the heap, in which `alloc` asks for memory. Says whether these were
// too few, which changes nothing. What is said in the end is right and takes no memory.
fn make<A: Allocator + Copy>(
    rt: &impl Abort,
    heap: &Metered<Global>,
    alloc: A,
    ledger: &mut Ledger<A>,
    step: &Step,
    grants: u64,
    case: usize,
) -> bool {
    let Step {
        row,
        status: said,
        known,
        checks,
    } = *step;
    let before = (ledger.known(), ledger.checks());
    heap.arm(grants);
    let refused = status(rt, alloc, ledger, row).is_none();
    if refused {
        knows(rt, ledger, before.0, before.1, case);
    }
    heap.arm(u64::MAX);
    status(rt, alloc, ledger, row);
    heap.arm(1_002);
    let status = status(rt, alloc, ledger, row);
    check_equal(
        rt,
        told(status),
        told(Some(said)),
        ("case and block", case, row.number),
    );
    knows(rt, ledger, known, checks, case);
    check_equal(rt, heap.left(), 1_000, ("requests left in case", case));
    goes_on(rt, heap, ledger, case);
    refused
}

// Makes all the steps on a new ledger, which takes no memory.
fn make_all<A: Allocator + Copy>(
    rt: &impl Abort,
    heap: &Metered<Global>,
    alloc: A,
    steps: &[Step],
    grants: u64,
    case: usize,
) -> bool {
    let code = code(rt, "0.77");
    heap.arm(1_000);
    let mut ledger = Ledger::new(alloc, code);
    knows(rt, &ledger, 1, 0, case);
    check_equal(rt, heap.left(), 1_000, ("requests left in case", case));
    let mut refused = false;
    for step in steps {
        refused |= make(rt, heap, alloc, &mut ledger, step, grants, case);
    }
    check(rt, ledger.code() == code, ("another code in case", case));
    refused
}

// The steps come out right where each request for memory is refused in turn, three of them at least.
fn are_right(rt: &impl Abort, heap: &Metered<Global>, steps: &[Step], case: usize) {
    for grants in 0..64u64 {
        if !make_all(rt, heap, heap, steps, grants, case) {
            check(rt, grants > 2, ("case and requests", case, grants));
            return;
        }
    }
    panic!(rt; "case {case} is refused at 64 requests");
}

#[test]
fn blocks_settle_in_every_order(rt: HostRuntime) {
    let heap = Metered::new(rt.alloc());
    for (case, steps) in CASES.iter().enumerate() {
        are_right(&rt, &heap, steps, case);
    }
}
