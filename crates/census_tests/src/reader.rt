//! Deltas that come in pieces, and bytes that are no delta: they are refused at once and in pieces.

use crate::answers::{check, check_equal, fault_name, read};
use crate::deltas::is_refused;
use crate::vectors::{
    BLOCK, CLAIM, CLAIMED, Delta, EARLY, FIRST, LONG, OLD, OTHERS, REMOVED, SOME, TURNS, many_notes,
};
use metered::Metered;
use oct_delta::{DeltaError, Reader, decode_pieces};
use oct_ops::Op;
use std::alloc::{Allocator, Global};
use std::process::Abort;

// Feeds the bytes in pieces of so many.
fn feed_pieces<A: Allocator + Copy>(
    reader: &mut Reader<A>,
    bytes: &[u8],
    size: usize,
) -> Result<(), DeltaError> {
    for piece in bytes.chunks(size.max(1)) {
        reader.feed(piece)?;
    }
    Ok(())
}

// What was fed ends with these operations.
fn ends_as<A: Allocator + Copy>(rt: &impl Abort, reader: Reader<A>, ops: &[Op<A>]) {
    match reader.finish() {
        Ok(list) => check(rt, list.as_slice() == ops, ("operations", list.len())),
        Err(fault) => panic!(rt; "not whole: {}", fault_name(fault)),
    }
}

// The reader has failed for good.
fn has_failed<A: Allocator + Copy>(rt: &impl Abort, mut reader: Reader<A>) {
    check_equal(
        rt,
        reader.items().len(),
        0,
        "items of a reader that has failed",
    );
    check(
        rt,
        reader.feed(&[]) == Err(DeltaError::Failed),
        "it is fed again",
    );
    check(
        rt,
        reader.finish().err() == Some(DeltaError::Failed),
        "it has an end",
    );
}

// The text is read, fed in pieces of so many bytes, after readers that were refused each request for memory in turn, and
// failed. `heap` counts the requests of `alloc`.
fn reads_after_refusals<A: Allocator + Copy>(
    rt: &impl Abort,
    heap: &Metered<Global>,
    alloc: A,
    text: &[u8],
    size: usize,
) {
    heap.arm(u64::MAX);
    let list = read(rt, alloc, text);
    for grants in 0..1000u64 {
        let mut reader = Reader::new(alloc);
        heap.arm(grants);
        let fed = feed_pieces(&mut reader, text, size);
        heap.arm(u64::MAX);
        match fed {
            Ok(()) => {
                check(rt, grants > 0, ("took no memory", text));
                ends_as(rt, reader, list.as_slice());
                return;
            }
            Err(fault) => {
                check_equal(rt, fault_name(fault), "out of memory", ("of", text));
                has_failed(rt, reader);
            }
        }
    }
    panic!(rt; "{text:?} are refused at a thousand requests");
}

#[test]
fn refused_texts_are_read_again_in_pieces(rt: HostRuntime) {
    let heap = Metered::new(rt.alloc());
    for (_, delta) in SOME {
        let text = delta.bytes(&rt);
        reads_after_refusals(&rt, &heap, &heap, &text, 1);
        reads_after_refusals(&rt, &heap, &heap, &text, 16);
    }
    for (_, delta) in OTHERS {
        reads_after_refusals(&rt, &heap, &heap, &delta.bytes(&rt), 1);
    }
    reads_after_refusals(&rt, &heap, &heap, &LONG.bytes(&rt), 16);
    reads_after_refusals(&rt, &heap, &heap, &many_notes(&rt), 16);
}

#[test]
fn a_text_in_pieces_is_read_as_the_whole(rt: HostRuntime) {
    let alloc = rt.alloc();
    let text = CLAIMED.bytes(&rt);
    let (front, rest) = text.split_at(text.len().min(3));
    let whole = read(&rt, alloc, &text);
    match decode_pieces(alloc, &[front, &[], rest]) {
        Ok(list) => check(
            &rt,
            list.as_slice() == whole.as_slice(),
            ("operations", list.len()),
        ),
        Err(fault) => panic!(rt; "the pieces: {}", fault_name(fault)),
    }
}

// The claim before its block, the first block twice, and it with the tag of no format.
const SWAPPED: Delta<'static> = Delta {
    tag: OLD,
    items: &[CLAIM, TURNS],
};

const TWICE: Delta<'static> = Delta {
    tag: OLD,
    items: &[BLOCK, BLOCK],
};

const UNKNOWN: Delta<'static> = Delta {
    tag: b"OGD9",
    items: &[BLOCK],
};

// The bytes are refused so, at once and byte by byte.
fn is_refused_twice(rt: &impl Abort, alloc: Global, bytes: &[u8], fault: DeltaError) {
    is_refused(rt, alloc, bytes, fault);
    let mut reader = Reader::new(alloc);
    let fed = feed_pieces(&mut reader, bytes, 1);
    let ended = reader.finish().err();
    let refused = match fed {
        Ok(()) => ended.map_or("read", fault_name),
        Err(refused) => fault_name(refused),
    };
    check_equal(rt, refused, fault_name(fault), ("in pieces", bytes));
}

// Each proper prefix of the text is refused.
fn prefixes_are_refused(rt: &impl Abort, alloc: Global, text: &[u8]) {
    for end in 0..text.len() {
        let fault = if end < 4 {
            DeltaError::Version
        } else {
            DeltaError::Refused
        };
        is_refused_twice(rt, alloc, &text[..end], fault);
    }
}

#[test]
fn other_bytes_and_proper_prefixes_are_refused(rt: HostRuntime) {
    let alloc = rt.alloc();
    is_refused_twice(&rt, alloc, &UNKNOWN.bytes(&rt), DeltaError::Version);
    is_refused_twice(&rt, alloc, &SWAPPED.bytes(&rt), DeltaError::Refused);
    is_refused_twice(&rt, alloc, &TWICE.bytes(&rt), DeltaError::Refused);
    // one more byte, and a count of 2^32 - 1
    let mut longer = FIRST.bytes(&rt);
    check(&rt, longer.push(0).is_ok(), "memory");
    is_refused_twice(&rt, alloc, &longer, DeltaError::Refused);
    let mut counted = FIRST.bytes(&rt);
    for byte in counted.iter_mut().skip(4).take(4) {
        *byte = 0xff;
    }
    is_refused_twice(&rt, alloc, &counted, DeltaError::Refused);
    for delta in &[FIRST, CLAIMED, EARLY, REMOVED] {
        prefixes_are_refused(&rt, alloc, &delta.bytes(&rt));
    }
}

// A reader has, after the pieces, the operations that are whole: the block of 46 bytes comes after the tag and the count of
// 8, and the claim of 20 after it.
fn reads_on(
    rt: &impl Abort,
    reader: &mut Reader<Global>,
    piece: &[u8],
    end: usize,
    ops: &[Op<Global>],
) {
    let whole = match end {
        0..=53 => 0,
        54..=73 => 1,
        _ => 2,
    };
    check(rt, reader.feed(piece).is_ok(), ("up to", piece, end));
    let items = reader.items();
    check_equal(rt, items.len(), whole, ("items up to", end));
    check(rt, ops.starts_with(items), ("other items up to", end));
}

#[test]
fn operations_come_as_they_are_whole(rt: HostRuntime) {
    let alloc = rt.alloc();
    let text = CLAIMED.bytes(&rt);
    let list = read(&rt, alloc, &text);
    check_equal(
        &rt,
        (text.len(), list.len()),
        (74, 2),
        "bytes and operations",
    );
    for first in 0..=text.len() {
        for second in first..=text.len() {
            let mut reader = Reader::new(alloc);
            let mut start = 0;
            for end in [first, second, text.len()] {
                let piece = text.get(start..end).unwrap_or(&[]);
                reads_on(&rt, &mut reader, piece, end, list.as_slice());
                start = end;
            }
            ends_as(&rt, reader, list.as_slice());
        }
    }
}

// A reader that has an operation refuses what follows, and has failed then.
#[test]
fn readers_fail_for_good(rt: HostRuntime) {
    let alloc = rt.alloc();
    let text = CLAIMED.bytes(&rt);
    let mut reader = Reader::new(alloc);
    let front = text.get(..60).expect(&rt, "the front");
    check(&rt, reader.feed(front).is_ok(), "the front is refused");
    check_equal(&rt, reader.items().len(), 1, "operations in the front");
    check(
        &rt,
        reader.feed(&[9; 20]) == Err(DeltaError::Refused),
        "nines are not refused",
    );
    has_failed(&rt, reader);
}
