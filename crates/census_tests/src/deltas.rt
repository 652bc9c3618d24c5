//! Deltas and clocks as bytes: worked texts, what else is read, and what a call leaves where memory is refused.

use crate::answers::{check, check_equal, fault_name, read};
use crate::vectors::{
    BLOCK, CLAIMED, Delta, EARLY, FIRST, Item, KAYLES, LONG, NEW, OLD, OTHERS, REMOVED, SOME,
    many_notes,
};
use metered::Metered;
use oct_delta::{
    ClockError, DeltaError, OpList, decode, decode_clock, encode, encode_clock, put_bytes,
    put_entries, put_u32,
};
use oct_join::Clock;
use oct_ops::{Body, Op};
use std::alloc::{Allocator, Global};
use std::mem;
use std::process::Abort;

// The first block in the new format.
const RENAMED: Delta<'static> = Delta {
    tag: NEW,
    items: &[BLOCK],
};

// Two values from heap 4095, as the new format has them and as the old one would; and from the last heap on.
const PAST_OLD_LIMIT: Item<'static> = Item::Block(1, 1, KAYLES, 4_095, &[0, 0]);

const LATE: Delta<'static> = Delta {
    tag: NEW,
    items: &[PAST_OLD_LIMIT],
};

const LATE_IN_OLD: Delta<'static> = Delta {
    tag: OLD,
    items: &[PAST_OLD_LIMIT],
};

const PAST_LIMIT: Delta<'static> = Delta {
    tag: NEW,
    items: &[Item::Block(1, 1, KAYLES, 65_535, &[0, 0])],
};

/// The bytes are refused by this fault.
pub(crate) fn is_refused<A: Allocator + Copy>(
    rt: &impl Abort,
    alloc: A,
    bytes: &[u8],
    fault: DeltaError,
) {
    let refused = match decode(alloc, bytes) {
        Ok(_) => "read",
        Err(refused) => fault_name(refused),
    };
    check_equal(rt, refused, fault_name(fault), ("of", bytes));
}

// What the bytes spell is written as the text.
fn writes(rt: &impl Abort, alloc: Global, bytes: &[u8], text: &[u8]) {
    let list = read(rt, alloc, bytes);
    let mut out = Vec::new(alloc);
    check(
        rt,
        encode(&list, &mut out).is_ok(),
        ("are not written", bytes),
    );
    check_equal(rt, out.as_slice(), text, "the bytes that are written");
}

// The operation is that of the first block.
fn is_first(rt: &impl Abort, op: &Op<Global>) {
    let dot = op.dot();
    check_equal(rt, (dot.author(), dot.number()), (1, 1), "the dot");
    match op.body() {
        Body::Block(block) => {
            let code = block.code();
            check_equal(
                rt,
                (code.head(), block.start()),
                (0, 0),
                "the head and the start",
            );
            check_equal(rt, code.digits(), [7, 7].as_slice(), "the digits");
            check_equal(rt, block.values(), [0, 1, 2, 3, 1].as_slice(), "the values");
        }
        _ => panic!(rt; "no block"),
    }
}

#[test]
fn worked_texts_of_both_formats_are_read_and_written_back(rt: HostRuntime) {
    let alloc = rt.alloc();
    let first = FIRST.bytes(&rt);
    match read(&rt, alloc, &first).as_slice() {
        [op] => is_first(&rt, op),
        ops => panic!(rt; "{} operations", ops.len()),
    }
    writes(&rt, alloc, &RENAMED.bytes(&rt), &first);
    is_refused(&rt, alloc, &LATE_IN_OLD.bytes(&rt), DeltaError::Refused);
    is_refused(&rt, alloc, &PAST_LIMIT.bytes(&rt), DeltaError::Refused);
    for delta in SOME.iter().chain(OTHERS).chain(&[("late", LATE)]) {
        let text = delta.1.bytes(&rt);
        writes(&rt, alloc, &text, &text);
    }
}

// The bytes after the tag.
fn after_tag(bytes: &[u8]) -> &[u8] {
    match bytes {
        [_, _, _, _, rest @ ..] => rest,
        _ => bytes,
    }
}

// The bytes are refused, or spell what is written as these bytes with the old tag.
fn is_refused_or_written(rt: &impl Abort, alloc: Global, bytes: &[u8], written: &mut Vec<u8>) {
    match decode(alloc, bytes) {
        Ok(list) => {
            written.clear();
            check(
                rt,
                encode(&list, written).is_ok(),
                ("are not written", bytes),
            );
            check(
                rt,
                written.starts_with(OLD),
                ("are written in the new format", bytes),
            );
            check_equal(
                rt,
                after_tag(written),
                after_tag(bytes),
                ("after the tag", bytes),
            );
        }
        Err(refused) => {
            let is_no_delta = refused == DeltaError::Version || refused == DeltaError::Refused;
            check(rt, is_no_delta, (bytes, fault_name(refused)));
        }
    }
}

// Puts the byte there, and gives the one that was there.
fn put_byte(text: &mut [u8], place: usize, byte: u8) -> u8 {
    match text.get_mut(place) {
        Some(held) => mem::replace(held, byte),
        None => byte,
    }
}

// That is so where one byte of the text is any other.
fn is_spelled_in_one_way(rt: &impl Abort, alloc: Global, mut text: Vec<u8>) {
    let mut written = Vec::new(alloc);
    for place in 0..text.len() {
        for byte in 0..=u8::MAX {
            let held = put_byte(&mut text, place, byte);
            is_refused_or_written(rt, alloc, &text, &mut written);
            put_byte(&mut text, place, held);
        }
    }
}

#[test]
fn changed_bytes_are_refused_or_written_back(rt: HostRuntime) {
    for delta in &[FIRST, CLAIMED, EARLY, REMOVED] {
        is_spelled_in_one_way(&rt, rt.alloc(), delta.bytes(&rt));
    }
}

/// What is written as bytes.
#[derive(Drop)]
enum Written<A: Allocator> {
    Delta(OpList<A>),
    Clock(Clock<A>),
}

impl<A: Allocator + Copy> Written<A> {
    // Reads the bytes of a clock, or those of a delta, and gives the name of the fault where they are neither.
    fn read(alloc: A, text: &[u8], is_clock: bool) -> Result<Written<A>, &'static str> {
        if is_clock {
            match decode_clock(alloc, text) {
                Ok(clock) => Ok(Written::Clock(clock)),
                Err(ClockError::OutOfMemory) => Err("out of memory"),
                Err(ClockError::Refused) => Err("refused"),
            }
        } else {
            match decode(alloc, text) {
                Ok(list) => Ok(Written::Delta(list)),
                Err(fault) => Err(fault_name(fault)),
            }
        }
    }

    // Appends its bytes, and says whether that was done.
    fn put(&self, out: &mut Vec<u8, A>) -> bool {
        match self {
            Written::Delta(list) => encode(list, out).is_ok(),
            Written::Clock(clock) => encode_clock(clock, out).is_ok(),
        }
    }
}

// Reads the text after each request for memory was refused in turn. `heap` counts the requests of `alloc`, here and below.
fn read_again<A: Allocator + Copy>(
    rt: &impl Abort,
    heap: &Metered<Global>,
    alloc: A,
    text: &[u8],
    is_clock: bool,
) -> Written<A> {
    for grants in 0..100u64 {
        heap.arm(grants);
        match Written::read(alloc, text, is_clock) {
            Ok(written) => {
                check(rt, grants > 0, ("took no memory", text));
                return written;
            }
            Err(fault) => check_equal(rt, fault, "out of memory", ("of", text)),
        }
    }
    panic!(rt; "{text:?} are refused at a hundred requests")
}

// The text is written after a byte that is put there first, after each request for memory was refused in turn; then the byte
// stays alone.
fn writes_again<A: Allocator + Copy>(
    rt: &impl Abort,
    heap: &Metered<Global>,
    alloc: A,
    written: &Written<A>,
    text: &[u8],
) {
    for grants in 0..100u64 {
        heap.arm(u64::MAX);
        let mut out = Vec::new(alloc);
        check(rt, out.push(7).is_ok(), "the first byte is refused");
        heap.arm(grants);
        let is_put = written.put(&mut out);
        let (seven, rest) = out.split_at(out.len().min(1));
        check_equal(rt, seven, [7].as_slice(), ("before", text));
        if is_put {
            check(rt, grants > 0, ("took no memory", text));
            check_equal(rt, rest, text, "the bytes that are written");
            return;
        }
        check(
            rt,
            rest.is_empty(),
            ("after refused requests", text, grants),
        );
    }
    panic!(rt; "{text:?} are refused at a hundred requests");
}

fn reads_and_writes_again<A: Allocator + Copy>(
    rt: &impl Abort,
    heap: &Metered<Global>,
    alloc: A,
    text: &[u8],
    is_clock: bool,
) -> Written<A> {
    let written = read_again(rt, heap, alloc, text, is_clock);
    writes_again(rt, heap, alloc, &written, text);
    heap.arm(u64::MAX);
    written
}

#[test]
fn refused_texts_are_read_and_written_again(rt: HostRuntime) {
    let heap = Metered::new(rt.alloc());
    for (_, delta) in SOME {
        reads_and_writes_again(&rt, &heap, &heap, &delta.bytes(&rt), false);
    }
    reads_and_writes_again(&rt, &heap, &heap, &LONG.bytes(&rt), false);
    reads_and_writes_again(&rt, &heap, &heap, &many_notes(&rt), false);
}

// The clock {2 at 1}, and one of five authors.
const CLOCK: [u8; 12] = [0, 0, 0, 1, 0, 0, 0, 2, 0, 0, 0, 1];

const FIVE: &[u8] = &[
    0, 0, 0, 5, //
    0, 0, 0, 1, 0, 0, 0, 9, //
    0, 0, 0, 2, 0, 0, 0, 8, //
    0, 0, 0, 3, 0, 0, 0, 7, //
    0, 0, 0, 4, 0, 0, 0, 6, //
    0, 0, 0, 5, 0, 0, 0, 5,
];

// Texts of clocks, and their entries.
const CLOCKS: &[(&[u8], &[(u32, u32)])] = &[
    (&CLOCK, &[(2, 1)]),
    (FIVE, &[(1, 9), (2, 8), (3, 7), (4, 6), (5, 5)]),
];

#[test]
fn refused_clocks_are_read_and_written_again(rt: HostRuntime) {
    let heap = Metered::new(rt.alloc());
    for &(text, entries) in CLOCKS {
        match reads_and_writes_again(&rt, &heap, &heap, text, true) {
            Written::Clock(clock) => check_equal(
                &rt,
                clock.entries(),
                entries,
                "the entries of the clock",
            ),
            Written::Delta(_) => panic!(rt; "{text:?} are a delta"),
        }
    }
}

#[test]
fn changed_clocks_are_refused(rt: HostRuntime) {
    for &(place, byte) in &[(3usize, 0), (3, 2), (7, 0), (11, 0)] {
        let mut text = CLOCK;
        text[place] = byte;
        let refused = decode_clock(rt.alloc(), &text).err();
        check(
            &rt,
            refused == Some(ClockError::Refused),
            ("place and byte", place, byte),
        );
    }
}

// The tag of a state, a number, and the entries of two authors.
const FIELDS: &[u8] = &[
    b'O', b'G', b'S', b'1', //
    0, 0, 1, 2, //
    0, 0, 0, 2, //
    0, 0, 0, 1, 0, 0, 0, 3, //
    0, 0, 0, 2, 0, 1, 0, 0,
];

#[test]
fn fields_are_spelled(rt: HostRuntime) {
    let mut out = Vec::new(rt.alloc());
    check(
        &rt,
        put_bytes(&mut out, b"OGS1").is_ok(),
        "the tag is not put",
    );
    check(&rt, put_u32(&mut out, 258).is_ok(), "the number is not put");
    check(
        &rt,
        put_entries(&mut out, &[(1, 3), (2, 65_536)]).is_ok(),
        "the entries are not put",
    );
    check_equal(&rt, out.as_slice(), FIELDS, "the fields");
}
