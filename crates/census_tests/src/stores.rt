//! Stores: what they show, insertions and joins, where each request for memory is refused in turn; and calls that make none.

use crate::answers::{check, check_equal, code, is_equal, read};
use crate::deltas::is_refused;
use crate::vectors::{
    BLOCK, CLAIMED, Delta, FIRST, FORKED, Item, KAYLES, NEXT, OLD, UNTOLD, many_notes,
};
use metered::Metered;
use oct_delta::{DeltaError, Reader, op_size};
use oct_join::{Clock, Join};
use oct_ops::Op;
use oct_store::{Author, Fork, Store};
use std::alloc::{Allocator, Global};
use std::process::Abort;

// Five operations in order: two blocks of one dot, another block, and the notes 5.1 and 5.3.
const FIVE: Delta<'static> = Delta {
    tag: OLD,
    items: &[
        BLOCK,
        Item::Block(1, 1, KAYLES, 1, &[1, 2, 3, 1]),
        Item::Block(2, 1, KAYLES, 5, &[4, 3, 2]),
        Item::Note(5, 1, b"a", b""),
        Item::Note(5, 3, b"a", b""),
    ],
};

// Their clock, which covers all but the last.
const ENTRIES: &[(u32, u32)] = &[(1, 1), (2, 1), (5, 1)];

// The store takes in the operation after each request for memory was refused in turn, which left it out and gave it back.
// There is one request at least where the store was empty. The answer is whether the operation is new. `heap` counts the
// requests of `alloc`, here and below.
fn insert<A: Allocator + Copy>(
    rt: &impl Abort,
    heap: &Metered<Global>,
    alloc: A,
    store: &mut Store<A>,
    op: &Op<A>,
) -> bool {
    let count = store.len();
    let was_there = store.contains(op);
    for grants in 0..100u64 {
        let copy = op.copy(alloc).ok().expect(rt, "a copy");
        heap.arm(grants);
        let inserted = store.insert(copy);
        heap.arm(u64::MAX);
        match inserted {
            Ok(is_new) => {
                check(rt, store.contains(op), ("an operation is not there", count));
                check(rt, grants > 0 || count > 0, "it took no memory");
                return is_new;
            }
            Err((_, back)) => {
                check(
                    rt,
                    is_equal(back, op),
                    ("another operation came back", count),
                );
                check_equal(
                    rt,
                    store.contains(op),
                    was_there,
                    ("an operation is there", count),
                );
            }
        }
    }
    panic!(rt; "operation {count} is refused at a hundred requests");
}

// The store takes in the operations, which are new to it, or all there.
fn insert_all<A: Allocator + Copy>(
    rt: &impl Abort,
    heap: &Metered<Global>,
    alloc: A,
    store: &mut Store<A>,
    ops: &[Op<A>],
    are_new: bool,
) {
    for (number, op) in ops.iter().enumerate() {
        let is_new = insert(rt, heap, alloc, store, op);
        check_equal(rt, is_new, are_new, ("an operation is new", number));
    }
}

// The store has the first of the operations, perhaps some more of them, and no other.
fn has_some<A: Allocator + Copy>(rt: &impl Abort, store: &Store<A>, ops: &[Op<A>]) {
    let first = ops.first().expect(rt, "an operation");
    check(rt, store.contains(first), "the first one is not there");
    for (number, op) in store.iter().enumerate() {
        check(rt, ops.contains(op), ("another operation", number));
    }
}

fn has_all<A: Allocator + Copy>(rt: &impl Abort, store: &Store<A>, ops: &[Op<A>]) {
    check_equal(rt, store.len(), ops.len(), "operations of the store");
    has_some(rt, store, ops);
}

// The authors of all these operations, of each of whom the first one is there: through which number they are known, and the
// last number.
const AUTHORS: &[Author] = &[
    Author {
        author: 1,
        through: 1,
        last: 1,
    },
    Author {
        author: 2,
        through: 1,
        last: 1,
    },
    Author {
        author: 5,
        through: 1,
        last: 3,
    },
];

fn are_authors(rt: &impl Abort, authors: &[Author]) {
    check(rt, authors == AUTHORS, "other authors");
}

// The one fork is that of the two blocks 1.1.
fn are_forks(rt: &impl Abort, forks: &[Fork]) {
    check_equal(rt, forks.len(), 1, "forks");
    for fork in forks {
        let shown = (fork.dot.author(), fork.dot.number(), fork.contents);
        check_equal(rt, shown, (1, 1, 2), "author, number and contents");
    }
}

/// A call that sums up a store.
#[derive(Clone, Copy)]
enum Summary {
    Clock,
    Authors,
    Forks,
}

impl Summary {
    fn name(self) -> &'static str {
        match self {
            Summary::Clock => "the clock",
            Summary::Authors => "the authors",
            Summary::Forks => "the forks",
        }
    }
}

// The summary of a store with all those operations is right, or there is none without memory; the answer says whether there
// is one.
fn sums_up<A: Allocator + Copy>(rt: &impl Abort, store: &Store<A>, summary: Summary) -> bool {
    match summary {
        Summary::Clock => match store.clock() {
            Ok(clock) => {
                check_equal(rt, clock.entries(), ENTRIES, "the clock");
                true
            }
            Err(_) => false,
        },
        Summary::Authors => match store.authors() {
            Ok(authors) => {
                are_authors(rt, &authors);
                true
            }
            Err(_) => false,
        },
        Summary::Forks => match store.forks() {
            Ok(forks) => {
                are_forks(rt, &forks);
                true
            }
            Err(_) => false,
        },
    }
}

// It is right after each request for memory was refused in turn.
fn sums_up_again<A: Allocator + Copy>(
    rt: &impl Abort,
    heap: &Metered<Global>,
    store: &Store<A>,
    summary: Summary,
) {
    for grants in 0..100u64 {
        heap.arm(grants);
        let is_there = sums_up(rt, store, summary);
        heap.arm(u64::MAX);
        if is_there {
            check(rt, grants > 0, ("took no memory", summary.name()));
            return;
        }
    }
    panic!(rt; "{} is refused at a hundred requests", summary.name());
}

/// A call that copies operations of a store.
#[derive(Clone, Copy)]
enum Choice {
    All,
    Beyond,
    OfGame,
}

impl Choice {
    fn name(self) -> &'static str {
        match self {
            Choice::All => "all",
            Choice::Beyond => "what is beyond a clock",
            Choice::OfGame => "what is of a game",
        }
    }
}

// These operations are copied after each request for memory was refused in turn.
fn copies_again<A: Allocator + Copy>(
    rt: &impl Abort,
    heap: &Metered<Global>,
    store: &Store<A>,
    choice: Choice,
    clock: &Clock<A>,
    ops: &[Op<A>],
) {
    let game = code(rt, "0.77");
    for grants in 0..100u64 {
        heap.arm(grants);
        let answer = match choice {
            Choice::All => store.list(),
            Choice::Beyond => store.beyond(clock),
            Choice::OfGame => store.of_game(game),
        };
        heap.arm(u64::MAX);
        if let Ok(list) = answer {
            check(rt, grants > 0, ("took no memory", choice.name()));
            check_equal(rt, list.len(), ops.len(), choice.name());
            check(rt, list.as_slice() == ops, choice.name());
            return;
        }
    }
    panic!(rt; "{} is refused at a hundred requests", choice.name());
}

// All these calls answer so of a store with those operations: the three blocks come first, and what the clock does not cover
// last.
fn answers<A: Allocator + Copy>(
    rt: &impl Abort,
    heap: &Metered<Global>,
    store: &Store<A>,
    ops: &[Op<A>],
) {
    for summary in [Summary::Clock, Summary::Authors, Summary::Forks] {
        sums_up_again(rt, heap, store, summary);
    }
    let clock = store.clock().ok().expect(rt, "the clock");
    let blocks = ops.get(..3).expect(rt, "three blocks");
    let last = ops.get(4..).expect(rt, "the last one");
    copies_again(rt, heap, store, Choice::All, &clock, ops);
    copies_again(rt, heap, store, Choice::Beyond, &clock, last);
    copies_again(rt, heap, store, Choice::OfGame, &clock, blocks);
}

// A store into which deltas come, each twice, has these operations and answers so.
fn shows<A: Allocator + Copy>(
    rt: &impl Abort,
    heap: &Metered<Global>,
    alloc: A,
    deltas: &[&[u8]],
    all: &[u8],
) {
    let mut store = Store::new(alloc);
    for delta in deltas {
        let list = read(rt, alloc, delta);
        insert_all(rt, heap, alloc, &mut store, list.as_slice(), true);
        insert_all(rt, heap, alloc, &mut store, list.as_slice(), false);
    }
    let all = read(rt, alloc, all);
    has_all(rt, &store, all.as_slice());
    answers(rt, heap, &store, all.as_slice());
}

#[test]
fn stores_show_what_they_hold(rt: HostRuntime) {
    let heap = Metered::new(rt.alloc());
    let forked = FORKED.bytes(&rt);
    let untold = UNTOLD.bytes(&rt);
    let first = FIRST.bytes(&rt);
    let next = NEXT.bytes(&rt);
    let all = FIVE.bytes(&rt);
    shows(&rt, &heap, &heap, &[&forked, &untold, &first, &next], &all);
}

// A store with the first of the operations is joined with one that has the others, after each request for memory was refused
// in turn and left a set between. The answer is how many requests the join makes.
fn joins_again<A: Allocator + Copy>(
    rt: &impl Abort,
    heap: &Metered<Global>,
    alloc: A,
    all: &[u8],
) -> u64 {
    let list = read(rt, alloc, all);
    let (first, others) = list.as_slice().split_at(list.len().min(1));
    let mut other = Store::new(alloc);
    insert_all(rt, heap, alloc, &mut other, others, true);
    for grants in 0..100u64 {
        let mut store = Store::new(alloc);
        insert_all(rt, heap, alloc, &mut store, first, true);
        heap.arm(grants);
        let joined = store.join(&other);
        heap.arm(u64::MAX);
        if joined.is_ok() {
            has_all(rt, &store, list.as_slice());
            return grants;
        }
        has_some(rt, &store, list.as_slice());
    }
    panic!(rt; "the join is refused at a hundred requests");
}

// A new store takes in the operations, and has them and no other.
fn holds<A: Allocator + Copy>(rt: &impl Abort, heap: &Metered<Global>, alloc: A, delta: &[u8]) {
    let list = read(rt, alloc, delta);
    let mut store = Store::new(alloc);
    insert_all(rt, heap, alloc, &mut store, list.as_slice(), true);
    has_all(rt, &store, list.as_slice());
}

#[test]
fn refused_insertions_and_joins_are_made_again(rt: HostRuntime) {
    let heap = Metered::new(rt.alloc());
    holds(&rt, &heap, &heap, &many_notes(&rt));
    joins_again(&rt, &heap, &heap, &FIVE.bytes(&rt));
    let requests = joins_again(&rt, &heap, &heap, &many_notes(&rt));
    check(&rt, requests > 0, "the join took no memory");
}

// A store of two operations, of which the second is removed, answers as it should.
fn removes<A: Allocator + Copy>(
    rt: &impl Abort,
    store: &mut Store<A>,
    block: &Op<A>,
    claim: &Op<A>,
) {
    check(rt, store.contains(claim), "the claim is not there");
    check_equal(
        rt,
        (store.len(), store.last(1)),
        (2, 2),
        "length and last number",
    );
    check(rt, store.remove(claim), "the claim is not removed");
    check(rt, !store.remove(claim), "the claim is removed twice");
    check(rt, !store.contains(claim), "the claim is there");
    check(rt, store.contains(block), "the block is not there");
    check_equal(
        rt,
        (store.len(), store.last(1)),
        (1, 1),
        "length and last number of the block",
    );
    check(rt, !store.is_empty(), "the store is empty");
}

// No operation, with the tag of no format.
const UNKNOWN: Delta<'static> = Delta {
    tag: b"OGD9",
    items: &[],
};

// These calls make no request for memory, and answer as they should for the block and the claim, and for the bytes with an
// unknown tag.
fn makes_no_request<A: Allocator + Copy>(
    rt: &impl Abort,
    heap: &Metered<Global>,
    alloc: A,
    text: &[u8],
    unknown: &[u8],
) {
    let list = read(rt, alloc, text);
    let [block, claim] = list.as_slice() else {
        panic!(rt; "{} operations", list.len());
    };
    let mut store = Store::new(alloc);
    insert_all(rt, heap, alloc, &mut store, list.as_slice(), true);
    heap.arm(1_000);
    is_refused(rt, alloc, unknown, DeltaError::Version);
    let front = text.get(..60).unwrap_or(text);
    is_refused(rt, alloc, front, DeltaError::Refused);
    check_equal(rt, (op_size(block), op_size(claim)), (46, 20), "the sizes");
    let reader = Reader::new(alloc);
    check(rt, reader.items().is_empty(), "items of a new reader");
    let empty = Store::new(alloc);
    check(rt, empty.is_empty(), "a new store is not empty");
    check_equal(
        rt,
        (empty.len(), empty.last(1)),
        (0, 0),
        "length and last number of nothing",
    );
    removes(rt, &mut store, block, claim);
    check_equal(rt, heap.left(), 1_000, "requests that are left");
}

#[test]
fn some_calls_make_no_request(rt: HostRuntime) {
    let heap = Metered::new(rt.alloc());
    let claimed = CLAIMED.bytes(&rt);
    let unknown = UNKNOWN.bytes(&rt);
    makes_no_request(&rt, &heap, &heap, &claimed, &unknown);
}
