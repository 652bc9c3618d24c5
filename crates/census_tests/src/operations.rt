//! Dots, blocks, period claims, notes, removals, operations and lists: made, refused, read, copied and compared.

use crate::answers::{check, check_equal, code, dot, is_equal, read};
use crate::vectors::{BLOCK, Delta, Item, OLD};
use metered::Metered;
use oct_code::Code;
use oct_ops::{
    Block, BlockError, Body, Dot, DotError, ListError, Note, NoteError, Op, OpList, Period,
    PeriodError, Removal, RemovalError, is_name, is_text, rises,
};
use std::alloc::{Allocator, Global};
use std::process::Abort;

// As many values as no block holds.
const ZEROS: &[u32] = &[0; 1_025];

/// The start and the period of a claim, and its fault where it is refused.
#[derive(Clone, Copy)]
struct ClaimRow {
    start: u32,
    period: u32,
    fault: Option<PeriodError>,
}

const CLAIMS: &[ClaimRow] = &[
    ClaimRow {
        start: 0,
        period: 1,
        fault: Some(PeriodError::Zero),
    },
    ClaimRow {
        start: 65_537,
        period: 0,
        fault: Some(PeriodError::Zero),
    },
    ClaimRow {
        start: 65_537,
        period: 1,
        fault: Some(PeriodError::PastLimit),
    },
    ClaimRow {
        start: 4_097,
        period: 1,
        fault: None,
    },
];

#[test]
fn dots_and_claims_are_made_or_refused(rt: HostRuntime) {
    let code = code(&rt, "0.77");
    for (author, number) in [(0, 1), (1, 0)] {
        let refused = Dot::new(author, number).err();
        check(&rt, refused == Some(DotError::Zero), (author, number));
    }
    let last = dot(&rt, 7, u32::MAX);
    check_equal(
        &rt,
        (last.author(), last.number()),
        (7, u32::MAX),
        "the last dot of author 7",
    );
    for &ClaimRow {
        start,
        period,
        fault,
    } in CLAIMS {
        match Period::new(code, start, period) {
            Ok(claim) => {
                check_equal(&rt, None, fault, ("from and by", start, period));
                check_equal(
                    &rt,
                    (claim.start(), claim.period()),
                    (start, period),
                    ("a claim from", start),
                );
                check(&rt, claim.code() == code, "another code");
            }
            Err(error) => check_equal(&rt, Some(error), fault, ("from and by", start, period)),
        }
    }
}

/// The start and the count of a block that is refused, and its fault.
#[derive(Clone, Copy)]
struct RefusedBlock {
    start: u32,
    count: usize,
    fault: BlockError,
}

const BLOCKS: &[RefusedBlock] = &[
    RefusedBlock {
        start: 0,
        count: 0,
        fault: BlockError::Empty,
    },
    RefusedBlock {
        start: 65_536,
        count: 1_025,
        fault: BlockError::TooMany,
    },
    RefusedBlock {
        start: 65_536,
        count: 1,
        fault: BlockError::PastLimit,
    },
    RefusedBlock {
        start: 65_535,
        count: 2,
        fault: BlockError::PastLimit,
    },
];

// So many values from the place on are refused by this fault, and come back.
fn block_is_refused(rt: &impl Abort, alloc: Global, start: u32, count: usize, fault: BlockError) {
    let values = ZEROS.get(..count).unwrap_or(ZEROS).to_vec(alloc);
    let values = values.ok().expect(rt, "memory");
    match Block::new(code(rt, "0.77"), start, values) {
        Ok(_) => panic!(rt; "{count} values at {start} are a block"),
        Err((error, values)) => {
            check(
                rt,
                error == fault,
                ("another fault of values", count, start),
            );
            check_equal(rt, values.len(), count, ("values that come back", start));
        }
    }
}

/// The name and the text of a note that is refused, and its fault.
#[derive(Clone, Copy)]
struct RefusedNote {
    name: &'static [u8],
    text: &'static [u8],
    fault: NoteError,
}

const NOTES: &[RefusedNote] = &[
    RefusedNote {
        name: b"A",
        text: b"",
        fault: NoteError::Name,
    },
    RefusedNote {
        name: b"",
        text: b"\x7f",
        fault: NoteError::Name,
    },
    RefusedNote {
        name: b"a",
        text: b"\x7f",
        fault: NoteError::Text,
    },
];

#[test]
fn blocks_and_notes_are_refused(rt: HostRuntime) {
    for &RefusedBlock {
        start,
        count,
        fault,
    } in BLOCKS {
        block_is_refused(&rt, rt.alloc(), start, count, fault);
    }
    for &RefusedNote { name, text, fault } in NOTES {
        let refused = Note::new(rt.alloc(), name, text).err();
        check_equal(&rt, refused, Some(fault), ("name and text", name, text));
    }
}

// The dots are refused by this fault, and come back.
fn removal_is_refused(rt: &impl Abort, alloc: Global, dots: &[Dot], fault: RemovalError) {
    let count = dots.len();
    match Removal::new(dots.to_vec(alloc).ok().expect(rt, "memory")) {
        Ok(_) => panic!(rt; "{count} dots are a removal"),
        Err((error, items)) => {
            check(rt, error == fault, ("another fault of dots", count));
            check(
                rt,
                items.as_slice() == dots,
                ("other dots come back than the", count),
            );
        }
    }
}

// The claim that Kayles repeats from the start on with period 1.
fn claim<A: Allocator>(rt: &impl Abort, dot: Dot, start: u32) -> Op<A> {
    let claim = Period::new(code(rt, "0.77"), start, 1).expect(rt, "a claim");
    Op::new(dot, Body::Period(claim))
}

#[test]
fn lists_rise(rt: HostRuntime) {
    let alloc = rt.alloc();
    let (first, second) = (dot(&rt, 1, 1), dot(&rt, 1, 2));
    removal_is_refused(&rt, alloc, &[second, first], RemovalError::NotRising);
    removal_is_refused(&rt, alloc, &[], RemovalError::Empty);
    let mut ops = Vec::new(alloc);
    ops.push(claim(&rt, first, 1)).ok().expect(&rt, "memory");
    ops.push(claim(&rt, first, 1)).ok().expect(&rt, "memory");
    match OpList::from_rising(ops) {
        Ok(_) => panic!(rt; "an operation twice is a list"),
        Err((error, ops)) => {
            check(&rt, error == ListError::NotRising, "another fault");
            check_equal(&rt, ops.len(), 2, "operations that come back");
        }
    }
    check(&rt, rises(&[1u32, 2, 4]), "a list that rises");
    check(&rt, !rises(&[1u32, 2, 2]), "a list that does not rise");
}

// A note is made where each request for memory is refused in turn, and then read without one.
fn note_is_made<A: Allocator + Copy>(rt: &impl Abort, heap: &Metered<Global>, alloc: A) {
    for grants in 0..10u64 {
        heap.arm(grants);
        match Note::new(alloc, b"kayles", b"early") {
            Ok(note) => {
                check(rt, grants > 0, "the note took no memory");
                heap.arm(1_000);
                check_equal(rt, note.name(), b"kayles".as_slice(), "the name");
                check_equal(rt, note.text(), b"early".as_slice(), "the text");
                check_equal(rt, heap.left(), 1_000, "requests that are left");
                return;
            }
            Err(fault) => check_equal(rt, fault, NoteError::OutOfMemory, "the fault of a note"),
        }
    }
    panic!(rt; "the note is refused at ten requests");
}

// The block of the value 4 of heap 65,535 is made and read without a request for memory.
fn block_takes_no_memory<A: Allocator>(
    rt: &impl Abort,
    heap: &Metered<Global>,
    alloc: A,
    code: Code,
) {
    heap.arm(u64::MAX);
    let values = Vec::from_slice(alloc, &[4]).expect(rt, "memory");
    heap.arm(1_000);
    let block = Block::new(code, 65_535, values).ok().expect(rt, "a block");
    check(rt, block.code() == code, "another code");
    check_equal(
        rt,
        (block.start(), block.end()),
        (65_535, 65_536),
        "start and end",
    );
    check_equal(rt, block.values(), [4].as_slice(), "the values");
    check_equal(rt, heap.left(), 1_000, "requests that are left");
}

// The dots are a removal, made and read in the same way.
fn removal_takes_no_memory<A: Allocator>(
    rt: &impl Abort,
    heap: &Metered<Global>,
    alloc: A,
    wanted: &[Dot],
) {
    heap.arm(u64::MAX);
    let dots = Vec::from_slice(alloc, wanted).expect(rt, "memory");
    heap.arm(1_000);
    let removal = Removal::new(dots).ok().expect(rt, "a removal");
    check(rt, removal.dots() == wanted, "other dots");
    check_equal(rt, heap.left(), 1_000, "requests that are left");
}

// The list has two operations, the claims from 4,096 and from 4,097 on, the first one under the dot.
fn are_claims<A: Allocator>(rt: &impl Abort, list: &OpList<A>, dot: Dot) {
    check_equal(
        rt,
        (list.len(), list.is_empty()),
        (2, false),
        "the length of the claims",
    );
    match list.as_slice() {
        [one, other] => {
            check(rt, *one < *other, "they do not rise");
            check(rt, one.dot() == dot, "another dot");
            check_equal(rt, one.body().kind(), 2, "the kind of a claim");
            let keep = (one.keeps_old_limits(), other.keeps_old_limits());
            check_equal(rt, keep, (true, false), "they keep the old limits");
        }
        ops => panic!(rt; "{} operations", ops.len()),
    }
}

// These claims are a list, made and read in the same way.
fn list_takes_no_memory<A: Allocator>(
    rt: &impl Abort,
    heap: &Metered<Global>,
    alloc: A,
    first: Dot,
    second: Dot,
) {
    heap.arm(u64::MAX);
    let mut ops = Vec::new(alloc);
    ops.push(claim(rt, first, 4_096)).ok().expect(rt, "memory");
    ops.push(claim(rt, second, 4_097)).ok().expect(rt, "memory");
    heap.arm(1_000);
    let list = OpList::from_rising(ops).ok().expect(rt, "a list");
    are_claims(rt, &list, first);
    let again = OpList::of_rising(list.into_vec());
    check_equal(rt, again.len(), 2, "the length of the list");
    check_equal(rt, heap.left(), 1_000, "requests that are left");
}

#[test]
fn answers_take_no_memory(rt: HostRuntime) {
    let heap = Metered::new(rt.alloc());
    let (first, second) = (dot(&rt, 1, 1), dot(&rt, 1, 2));
    note_is_made(&rt, &heap, &heap);
    block_takes_no_memory(&rt, &heap, &heap, code(&rt, "0.77"));
    removal_takes_no_memory(&rt, &heap, &heap, &[first, second]);
    list_takes_no_memory(&rt, &heap, &heap, first, second);
}

// The operations 1.1 with the first block of Kayles, with a note, and with the removal of 1.1 and 1.2.
const COPIED: Delta<'static> = Delta {
    tag: OLD,
    items: &[
        BLOCK,
        Item::Note(1, 1, b"kayles", b"early"),
        Item::Removal(1, 1, &[(1, 1), (1, 2)]),
    ],
};

// The operation is copied where each request for memory is refused in turn, and the copy equals it.
fn is_copied<A: Allocator + Copy>(
    rt: &impl Abort,
    heap: &Metered<Global>,
    alloc: A,
    operation: &Op<A>,
) {
    let kind = operation.body().kind();
    for grants in 0..10u64 {
        heap.arm(grants);
        if let Ok(copy) = operation.copy(alloc) {
            heap.arm(u64::MAX);
            check(rt, grants > 0, ("the copy took no memory", kind));
            check(rt, is_equal(copy, operation), ("another copy", kind));
            return;
        }
    }
    panic!(rt; "the copy of kind {kind} is refused at ten requests");
}

fn are_copied<A: Allocator + Copy>(rt: &impl Abort, heap: &Metered<Global>, alloc: A, text: &[u8]) {
    let list = read(rt, alloc, text);
    check_equal(rt, list.len(), 3, "operations to copy");
    for operation in list.as_slice() {
        is_copied(rt, heap, alloc, operation);
    }
}

// An operation with a block of one value is given back its block, and keeps the old limits or not.
fn block_keeps(rt: &impl Abort, alloc: Global, start: u32, keeps: bool) {
    let values = [0].to_vec(alloc).ok().expect(rt, "memory");
    let block = Block::new(code(rt, "0.77"), start, values)
        .ok()
        .expect(rt, "a block");
    let operation = Op::new(dot(rt, 1, 1), Body::Block(block));
    check_equal(rt, operation.keeps_old_limits(), keeps, ("at", start));
    match operation.into_body() {
        Body::Block(block) => check_equal(rt, block.start(), start, "the start of the block"),
        _ => panic!(rt; "no block"),
    }
}

#[test]
fn operations_are_copied_and_given_back(rt: HostRuntime) {
    let heap = Metered::new(rt.alloc());
    are_copied(&rt, &heap, &heap, &COPIED.bytes(&rt));
    block_keeps(&rt, rt.alloc(), 4_095, true);
    block_keeps(&rt, rt.alloc(), 4_096, false);
}

// As many letters as no text has, one more than the longest.
const LETTERS: &[u8; 201] = &[b'k'; 201];

/// Bytes, whether they are the name of a note, and whether they are the text of one.
#[derive(Clone, Copy)]
struct Word {
    bytes: &'static [u8],
    is_name: bool,
    is_text: bool,
}

const WORDS: &[Word] = &[
    Word {
        bytes: b"kayles-0-77",
        is_name: true,
        is_text: true,
    },
    Word {
        bytes: b"",
        is_name: false,
        is_text: true,
    },
    Word {
        bytes: b"Kayles",
        is_name: false,
        is_text: true,
    },
    Word {
        bytes: b" ~",
        is_name: false,
        is_text: true,
    },
    Word {
        bytes: b"\x7f",
        is_name: false,
        is_text: false,
    },
    Word {
        bytes: LETTERS,
        is_name: false,
        is_text: false,
    },
];

#[test]
fn names_and_texts_are_told(rt: HostRuntime) {
    for word in WORDS {
        let told = (is_name(word.bytes), is_text(word.bytes));
        check_equal(&rt, told, (word.is_name, word.is_text), ("of", word.bytes));
    }
    check(&rt, is_name(&LETTERS[..32]), "a name of 32 letters");
    check(&rt, !is_name(&LETTERS[..33]), "a name of 33 letters");
    check(&rt, is_text(&LETTERS[..200]), "a text of 200 letters");
}
