//! Replicas: what they print, compute, issue, send, refuse, save and load.

use crate::answers::{bytes, check, check_equal, is_text, plain, put, put_number};
use metered::Metered;
use oct_code::Code;
use oct_delta::decode;
use oct_join::Clock;
use oct_ops::{Block, Body, Note};
use oct_period::Outcome;
use oct_replica::{
    AuthorError, ComputeError, IssueError, LoadError, QueryError, RemovalError, Replica, TakeError,
};
use std::alloc::{Allocator, Global};
use std::process::Abort;
use worked::{
    BOTH_SHOWN, EARLY, EARLY_CLAIM, EMPTY_STATE, FIRST, FORKED_SHOWN, LAST, LATER, LATER_SHOWN,
    NEXT, NEXT_SHOWN, NONE_SHOWN, ONE, REMOVAL, RIGHT_CLAIM, SECOND, THIRD, THIRD_UNTOLD,
    THREE_SHOWN, TURNS, TURNS_SHOWN, TWO, UNTOLD, UNTOLD_SHOWN, UNTOLD_STATE, long_block,
};

mod refusals;

/// A new replica of the author.
pub(crate) fn new_replica<A: Allocator + Copy>(
    rt: &impl Abort,
    alloc: A,
    author: u32,
) -> Replica<A> {
    Replica::new(alloc, author).ok().expect(rt, "a replica")
}

/// This is the replica's catalogue.
pub(crate) fn shows<A: Allocator + Copy>(
    rt: &impl Abort,
    alloc: A,
    replica: &Replica<A>,
    wanted: &str,
    name: &str,
) {
    let mut text = Vec::new(alloc);
    check(
        rt,
        replica.catalogue(&mut text).is_ok(),
        format_args!("no catalogue of {name}"),
    );
    is_text(rt, &text, wanted, name);
}

// Each of the deltas brings in so many new operations, and then none.
fn takes<A: Allocator + Copy>(
    rt: &(impl Abort + AllocGlobal),
    replica: &mut Replica<A>,
    deltas: &[&str],
    new: u32,
) {
    for text in deltas {
        takes_bytes(rt, replica, &bytes(rt, text), new);
    }
}

fn takes_bytes<A: Allocator + Copy>(
    rt: &impl Abort,
    replica: &mut Replica<A>,
    delta: &[u8],
    new: u32,
) {
    check_equal(rt, replica.take(delta), Ok(new), format_args!("{delta:?}"));
    check_equal(
        rt,
        replica.take(delta),
        Ok(0),
        format_args!("{delta:?} once more"),
    );
}

// The code of the text.
fn code_of(rt: &impl Abort, text: &str) -> Code {
    Code::parse(text.as_bytes()).ok().expect(rt, text)
}

/// What a replica of author 1 takes, one operation each, and what it then prints, with a name for the case.
#[derive(Clone, Copy)]
struct Printed<'a> {
    name: &'a str,
    deltas: &'a [&'a str],
    shown: &'a str,
}

const PRINTED: &[Printed<'static>] = &[
    Printed {
        name: "blocks",
        deltas: &[FIRST, NEXT],
        shown: BOTH_SHOWN,
    },
    Printed {
        name: "blocks turned",
        deltas: &[NEXT, FIRST],
        shown: BOTH_SHOWN,
    },
    Printed {
        name: "a far block",
        deltas: &[NEXT],
        shown: NEXT_SHOWN,
    },
    Printed {
        name: "overlapping",
        deltas: &[FIRST, SECOND, THIRD],
        shown: THREE_SHOWN,
    },
    Printed {
        name: "a fork",
        deltas: &[ONE, TWO],
        shown: FORKED_SHOWN,
    },
    Printed {
        name: "a fork turned",
        deltas: &[TWO, ONE],
        shown: FORKED_SHOWN,
    },
    Printed {
        name: "notes 123",
        deltas: &[EARLY, LATER, REMOVAL],
        shown: LATER_SHOWN,
    },
    Printed {
        name: "notes 132",
        deltas: &[EARLY, REMOVAL, LATER],
        shown: LATER_SHOWN,
    },
    Printed {
        name: "notes 213",
        deltas: &[LATER, EARLY, REMOVAL],
        shown: LATER_SHOWN,
    },
    Printed {
        name: "notes 231",
        deltas: &[LATER, REMOVAL, EARLY],
        shown: LATER_SHOWN,
    },
    Printed {
        name: "notes 312",
        deltas: &[REMOVAL, EARLY, LATER],
        shown: LATER_SHOWN,
    },
    Printed {
        name: "notes 321",
        deltas: &[REMOVAL, LATER, EARLY],
        shown: LATER_SHOWN,
    },
];

fn prints(rt: &(impl Abort + AllocGlobal), case: Printed) {
    let Printed {
        name,
        deltas,
        shown,
    } = case;
    let mut replica = new_replica(rt, rt.alloc(), 1);
    takes(rt, &mut replica, deltas, 1);
    shows(rt, rt.alloc(), &replica, shown, name);
}

/// What a replica of author 7 takes, what another takes with which it is joined, and what it then prints.
#[derive(Clone, Copy)]
struct Joined<'a> {
    ours: &'a str,
    theirs: &'a str,
    shown: &'a str,
}

const JOINED: &[Joined<'static>] = &[
    Joined {
        ours: FIRST,
        theirs: NEXT,
        shown: BOTH_SHOWN,
    },
    Joined {
        ours: TWO,
        theirs: ONE,
        shown: FORKED_SHOWN,
    },
];

// The joined replica holds both operations.
fn joins(rt: &(impl Abort + AllocGlobal), case: Joined) {
    let Joined {
        ours,
        theirs,
        shown,
    } = case;
    let mut replica = new_replica(rt, rt.alloc(), 7);
    let mut other = new_replica(rt, rt.alloc(), 1);
    takes(rt, &mut replica, &[ours], 1);
    takes(rt, &mut other, &[theirs], 1);
    check(
        rt,
        replica.join(&other).is_ok(),
        format_args!("{ours} with {theirs}"),
    );
    shows(rt, rt.alloc(), &replica, shown, "a join");
    check_equal(
        rt,
        (replica.author(), replica.len()),
        (7, 2),
        format_args!("{ours} with {theirs}"),
    );
    check(
        rt,
        !replica.is_empty(),
        format_args!("{ours} with {theirs}"),
    );
}

// The replica takes the list of TURNS.
fn prints_list(rt: &(impl Abort + AllocGlobal)) {
    let list = decode(rt.alloc(), &bytes(rt, TURNS)).ok().expect(rt, TURNS);
    assert!(rt; list.len() == 2);
    let mut replica = new_replica(rt, rt.alloc(), 1);
    check_equal(rt, replica.take_list(list), Ok(2), TURNS);
    shows(rt, rt.alloc(), &replica, TURNS_SHOWN, "a list");
}

#[test]
fn operations_come_in_any_order(rt: HostRuntime) {
    for &case in PRINTED {
        prints(&rt, case);
    }
    for &case in JOINED {
        joins(&rt, case);
    }
    prints_list(&rt);
}

// The value of a position, or the place of the heap that is not known.
fn value_of<A: Allocator + Copy>(
    replica: &Replica<A>,
    code: Code,
    heaps: &[u64],
) -> Result<u32, usize> {
    match replica.value(code, heaps) {
        Ok(value) => Ok(value),
        Err(QueryError::Unknown { index }) => Err(index),
    }
}

// The name of an outcome.
fn outcome_name(outcome: Outcome) -> &'static str {
    match outcome {
        Outcome::NextWins => "next wins",
        Outcome::NextLoses => "next loses",
        Outcome::Unknown { index: _ } => "unknown",
    }
}

// Who wins a position.
fn outcome_of<A: Allocator + Copy>(
    replica: &Replica<A>,
    code: Code,
    heaps: &[u64],
) -> &'static str {
    outcome_name(replica.outcome(code, heaps))
}

// Positions of Kayles, and the values that follow from the claim.
const VALUES: &[(&[u64], u32)] = &[(&[1_000_000_000], 1), (&[5, 6], 7), (&[], 0), (&[0], 0)];

// The replica gives these values, and none of the other code.
fn has_values(rt: &(impl Abort + AllocGlobal), replica: &Replica<Global>, code: Code, other: Code) {
    for &(heaps, value) in VALUES {
        check_equal(
            rt,
            value_of(replica, code, heaps),
            Ok(value),
            format_args!("{heaps:?}"),
        );
    }
    check_equal(
        rt,
        outcome_of(replica, code, &[1_000_000_000]),
        "next wins",
        "the outcome of a claim",
    );
    check_equal(rt, value_of(replica, other, &[1]), Err(0), "another game");
    check_equal(
        rt,
        outcome_of(replica, other, &[]),
        "next loses",
        "the outcome of another game",
    );
}

// The catalogue has one page.
fn has_one_page(rt: &(impl Abort + AllocGlobal), replica: &Replica<Global>) {
    let mut text = Vec::new(rt.alloc());
    check_equal(rt, replica.page(0, &mut text), Ok(true), "the first page");
    let is_begun = text.starts_with(b"census 2\ngame 0.77 known 168\n");
    check(rt, is_begun, format_args!("{text:?}"));
    check_equal(rt, replica.page(1, &mut text), Ok(false), "a second page");
}

// The claim gives values once its last value is there, and not before.
fn follows_claims(rt: &(impl Abort + AllocGlobal)) {
    let (code, other) = (code_of(rt, "0.77"), code_of(rt, "0.07"));
    let mut replica = new_replica(rt, rt.alloc(), 1);
    let long = long_block(rt.alloc()).expect(rt, "memory");
    takes_bytes(rt, &mut replica, &long, 1);
    takes(rt, &mut replica, &[RIGHT_CLAIM, EARLY_CLAIM], 1);
    let value = value_of(&replica, code, &[5, 1_000_000_000]);
    check_equal(rt, value, Err(1), "before the last value");
    takes(rt, &mut replica, &[LAST], 1);
    has_values(rt, &replica, code, other);
    has_one_page(rt, &replica);
}

// Issues a note without text, where it can, and gives the author and the number of its dot.
fn issued<A: Allocator + Copy>(
    alloc: A,
    replica: &mut Replica<A>,
) -> Result<(u32, u32), IssueError> {
    match Note::new(alloc, b"a", b"") {
        Ok(note) => match plain(replica.issue(Body::Note(note))) {
            Ok(dot) => Ok((dot.author(), dot.number())),
            Err(fault) => Err(fault),
        },
        Err(_) => Err(IssueError::OutOfMemory),
    }
}

// The delta beyond the clock is this.
fn sends_beyond(
    rt: &(impl Abort + AllocGlobal),
    replica: &Replica<Global>,
    clock: &Clock<Global>,
    wanted: &[u8],
) {
    let mut delta = Vec::new(rt.alloc());
    check(
        rt,
        replica.delta(clock, &mut delta).is_ok(),
        format_args!("no {wanted:?}"),
    );
    check_equal(rt, delta.as_slice(), wanted, "the delta");
}

// One operation is beyond the replica's own clock, and the delta of it is this.
fn sends(rt: &(impl Abort + AllocGlobal), replica: &Replica<Global>, wanted: &str) {
    let clock = replica.clock().ok().expect(rt, "the clock");
    let list = replica.beyond(&clock).ok().expect(rt, "a list");
    check_equal(
        rt,
        list.len(),
        1,
        format_args!("operations beyond {wanted}"),
    );
    sends_beyond(rt, replica, &clock, &bytes(rt, wanted));
}

// A note of author 5 under the greatest number.
const LAST_OF_5: &str = "\
4f474431 00000001
00000005 ffffffff 03 01 61 00";

// A replica of author 5 issues 5.4 after UNTOLD, and nothing after the greatest number.
fn issues_after_the_last(rt: &(impl Abort + AllocGlobal)) {
    let mut replica = new_replica(rt, rt.alloc(), 5);
    takes(rt, &mut replica, &[UNTOLD], 2);
    shows(rt, rt.alloc(), &replica, UNTOLD_SHOWN, "notes without text");
    sends(rt, &replica, THIRD_UNTOLD);
    check_equal(
        rt,
        issued(rt.alloc(), &mut replica),
        Ok((5, 4)),
        "the note 5.4",
    );
    takes(rt, &mut replica, &[LAST_OF_5], 1);
    let refused = issued(rt.alloc(), &mut replica);
    check_equal(
        rt,
        refused,
        Err(IssueError::LastNumber),
        "a note after the last number",
    );
    check_equal(rt, replica.len(), 4, "operations");
}

// The next values of the game are not computed, for this reason.
fn computes_none(
    rt: &(impl Abort + AllocGlobal),
    replica: &Replica<Global>,
    code: Code,
    count: u32,
    why: ComputeError,
) {
    let refused = replica.compute(code, count).err();
    check_equal(rt, refused, Some(why), format_args!("{count} values"));
}

// An empty replica computes five values of 0.137, neither none nor too many, and stays empty.
fn computes_first(rt: &(impl Abort + AllocGlobal)) {
    let code = code_of(rt, "0.137");
    let replica = new_replica(rt, rt.alloc(), 7);
    let block = replica.compute(code, 5).ok().expect(rt, "five values");
    check(rt, block.code() == code, "another code");
    check_equal(rt, block.start(), 1, "the start");
    check_equal(rt, block.values(), [1, 1, 2, 0, 3].as_slice(), "the values");
    computes_none(rt, &replica, code, 0, ComputeError::Zero);
    computes_none(rt, &replica, code, 1_025, ComputeError::TooMany);
    check_equal(rt, replica.len(), 0, "operations");
}

// The block has so many values from the start on, in turn 0 and 1.
fn takes_turns(rt: &(impl Abort + AllocGlobal), block: &Block<Global>, start: u32, count: usize) {
    let shown = (block.start(), block.values().len());
    check_equal(rt, shown, (start, count), "start and count");
    let mut value = start % 2;
    for claimed in block.values() {
        check_equal(
            rt,
            *claimed,
            value,
            format_args!("a value of the block at {start}"),
        );
        value ^= 1;
    }
}

// The block of the next values of 0.3 is such a one. It is issued.
fn goes_on(
    rt: &(impl Abort + AllocGlobal),
    replica: &mut Replica<Global>,
    code: Code,
    start: u32,
    count: usize,
) {
    let block = replica.compute(code, 1_024).ok().expect(rt, "a block");
    takes_turns(rt, &block, start, count);
    let dot = plain(replica.issue(Body::Block(block)));
    check(
        rt,
        dot.is_ok(),
        format_args!("the block at {start} is not issued"),
    );
}

// The values of 0.3 are computed up to the limit, and none beyond it.
fn computes_all(rt: &(impl Abort + AllocGlobal)) {
    let code = code_of(rt, "0.3");
    let mut replica = new_replica(rt, rt.alloc(), 7);
    for turn in 0..63u32 {
        goes_on(rt, &mut replica, code, 1_024 * turn + 1, 1_024);
    }
    goes_on(rt, &mut replica, code, 64_513, 1_023);
    computes_none(rt, &replica, code, 1_025, ComputeError::TooMany);
    computes_none(rt, &replica, code, 1, ComputeError::AtLimit);
}

// The live note of EARLY, LATER and REMOVAL is removed by its name alone, and no other one.
fn removes_by_name(rt: &(impl Abort + AllocGlobal)) {
    let mut replica = new_replica(rt, rt.alloc(), 1);
    takes(rt, &mut replica, &[EARLY, LATER, REMOVAL], 1);
    let removal = replica.removal(b"kayles").ok().expect(rt, "a removal");
    check_equal(rt, removal.dots().len(), 1, "dots");
    for dot in removal.dots() {
        check_equal(rt, (dot.author(), dot.number()), (1, 2), "the dot");
    }
    let refused = replica.removal(b"dawson").err();
    check_equal(rt, refused, Some(RemovalError::NoNote), "the note dawson");
    check_equal(rt, replica.len(), 3, "operations");
}

#[test]
fn operations_are_issued(rt: HostRuntime) {
    follows_claims(&rt);
    issues_after_the_last(&rt);
    computes_first(&rt);
    computes_all(&rt);
    removes_by_name(&rt);
}

// Each proper prefix of the delta is refused.
fn refuses_prefixes(rt: &(impl Abort + AllocGlobal), replica: &mut Replica<Global>, delta: &[u8]) {
    for end in 0..delta.len() {
        let wanted = if end < 4 {
            TakeError::Version
        } else {
            TakeError::Refused
        };
        let front = &delta[..end];
        check_equal(
            rt,
            replica.take(front),
            Err(wanted),
            format_args!("{front:?}"),
        );
    }
}

// FIRST with a byte more.
const LONGER: &str = "\
4f474431 00000001
00000001 00000001 01 00020707 00000000 0005 00000000 00000001 00000002 00000003 00000001
00";

// FIRST with another tag.
const OTHER_TAG: &str = "\
4f474439 00000001
00000001 00000001 01 00020707 00000000 0005 00000000 00000001 00000002 00000003 00000001";

// FIRST with a greater count.
const GREAT_COUNT: &str = "\
4f474431 ffffffff
00000001 00000001 01 00020707 00000000 0005 00000000 00000001 00000002 00000003 00000001";

// FIRST with its operation twice.
const REPEATED: &str = "\
4f474431 00000002
00000001 00000001 01 00020707 00000000 0005 00000000 00000001 00000002 00000003 00000001
00000001 00000001 01 00020707 00000000 0005 00000000 00000001 00000002 00000003 00000001";

// TURNS with its operations the other way round.
const FALLING: &str = "\
4f474431 00000002
00000001 00000002 02 000103 00000001 00000002
00000001 00000001 01 000103 00000000 0007 00000000 00000001 00000000 00000001 00000000 00000001 00000000";

// Those, and why they are refused.
const CHANGED: &[(&str, TakeError)] = &[
    (LONGER, TakeError::Refused),
    (OTHER_TAG, TakeError::Version),
    (GREAT_COUNT, TakeError::Refused),
    (FALLING, TakeError::Refused),
    (REPEATED, TakeError::Refused),
];

// A replica stays empty where it refuses bytes that are no delta.
fn stays_empty(rt: &(impl Abort + AllocGlobal)) {
    let mut replica = new_replica(rt, rt.alloc(), 1);
    for text in [FIRST, TURNS, EARLY, REMOVAL] {
        refuses_prefixes(rt, &mut replica, &bytes(rt, text));
    }
    for &(text, why) in CHANGED {
        let taken = replica.take(&bytes(rt, text));
        check_equal(rt, taken, Err(why), text);
    }
    shows(
        rt,
        rt.alloc(),
        &replica,
        NONE_SHOWN,
        "a replica that refused all",
    );
}

// An empty replica refuses the bytes and stays empty, or takes them in and sends them in the old format.
fn is_refused_or_sent(rt: &(impl Abort + AllocGlobal), bytes: &[u8], old: &[u8]) {
    let mut replica = new_replica(rt, rt.alloc(), 1);
    if replica.take(bytes).is_err() {
        shows(
            rt,
            rt.alloc(),
            &replica,
            NONE_SHOWN,
            "a replica that refused",
        );
    } else {
        sends_beyond(rt, &replica, &Clock::new(rt.alloc()), old);
    }
}

// That is so of the delta with each byte replaced by each other one.
fn changes_are_refused_or_sent(rt: &(impl Abort + AllocGlobal), delta: &[u8]) {
    check(rt, delta.len() <= 74, format_args!("{} bytes", delta.len()));
    let count = delta.len().min(74);
    for place in 0..count {
        for byte in 0..=u8::MAX {
            let mut changed = [0; 74];
            changed[..count].copy_from_slice(&delta[..count]);
            changed[place] = byte;
            let mut old = changed;
            old[3] = b'1';
            is_refused_or_sent(rt, &changed[..count], &old[..count]);
        }
    }
}

#[test]
fn bytes_that_are_no_delta_are_refused(rt: HostRuntime) {
    stays_empty(&rt);
    for text in [FIRST, TURNS, EARLY, REMOVAL] {
        changes_are_refused_or_sent(&rt, &bytes(&rt, text));
    }
}

// The bytes are the state of author 7 that is loaded from them.
fn is_saved_again(rt: &(impl Abort + AllocGlobal), bytes: &[u8]) {
    let replica = Replica::load(rt.alloc(), bytes).ok().expect(rt, "a state");
    check_equal(rt, replica.author(), 7, format_args!("{bytes:?}"));
    let mut text = Vec::new(rt.alloc());
    check(
        rt,
        replica.save(&mut text).is_ok(),
        format_args!("{bytes:?}"),
    );
    check_equal(rt, text.as_slice(), bytes, "the state");
}

// The bytes are no state, for this reason.
fn refuses_state(rt: &(impl Abort + AllocGlobal), bytes: &[u8], why: LoadError) {
    let refused = Replica::load(rt.alloc(), bytes).err();
    check_equal(rt, refused, Some(why), format_args!("{bytes:?}"));
}

// A delta is refused, and each proper prefix of a state.
fn refuses_states(rt: &(impl Abort + AllocGlobal)) {
    refuses_state(rt, &bytes(rt, FIRST), LoadError::Version);
    let state = bytes(rt, EMPTY_STATE);
    check_equal(rt, state.len(), 16, EMPTY_STATE);
    for end in 0..state.len() {
        let wanted = if end < 4 {
            LoadError::Version
        } else {
            LoadError::Refused
        };
        refuses_state(rt, &state[..end], wanted);
    }
}

// Whether no replica has the author 0.
fn no_author_is_zero<A: Allocator + Copy>(alloc: A) -> bool {
    Replica::new(alloc, 0).err() == Some(AuthorError::Zero)
}

#[test]
fn states_are_loaded_as_they_were_saved(rt: HostRuntime) {
    for text in [EMPTY_STATE, UNTOLD_STATE] {
        is_saved_again(&rt, &bytes(&rt, text));
    }
    refuses_states(&rt);
    check(&rt, no_author_is_zero(rt.alloc()), "a replica of author 0");
}

// The delta of the block 1.N of another game for each number N, at heap 1 with the value 0.
fn other_block(rt: &(impl Abort + AllocGlobal), number: u8) -> Vec<u8> {
    let mut out = bytes(rt, "4f474431 00000001 00000001");
    put_number(rt, &mut out, u32::from(number));
    put(rt, &mut out, "01 0003");
    let digits = [number / 49 % 7, number / 7 % 7, number % 7 + 1];
    check(rt, out.extend_from_slice(&digits).is_ok(), number);
    put(rt, &mut out, "00000001 0001 00000000");
    out
}

// The known length and the comparisons of a game.
fn counts<A: Allocator + Copy>(replica: &Replica<A>, code: Code) -> (u32, u64) {
    match replica.game(code) {
        Some(game) => (game.ledger().known(), game.ledger().checks()),
        None => (0, 0),
    }
}

// A replica takes a block of Kayles with a few requests for memory, though it has a block of each of 200 other games.
fn touches_its_game_alone<A: Allocator + Copy>(
    rt: &(impl Abort + AllocGlobal),
    heap: &Metered<Global>,
    alloc: A,
) {
    let mut replica = new_replica(rt, alloc, 1);
    for number in 1..201u8 {
        let taken = replica.take(&other_block(rt, number));
        check_equal(rt, taken, Ok(1), format_args!("game {number}"));
    }
    let first = bytes(rt, FIRST);
    heap.arm(64);
    check_equal(rt, replica.take(&first), Ok(1), "with 64 requests");
    let counted = counts(&replica, code_of(rt, "0.77"));
    check_equal(rt, counted, (5, 1), "the known length and the comparisons");
}

#[test]
fn a_block_touches_its_game_alone(rt: HostRuntime) {
    let heap = Metered::new(rt.alloc());
    touches_its_game_alone(&rt, &heap, &heap);
}
