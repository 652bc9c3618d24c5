//! Frames of a session, written here and not by the session that is tested.

use crate::answers::{bytes, check, put_number};
use std::process::Abort;

/// A frame of a session.
#[derive(Clone, Copy)]
pub(crate) enum Frame<'a> {
    /// A clock: its entries, each an author and a number.
    Clock(&'a [(u32, u32)]),
    /// A delta, as a hexadecimal text.
    Delta(&'a str),
    End,
}

// Appends a frame after its length, which counts the tag too.
fn put_frame(rt: &(impl Abort + AllocGlobal), out: &mut Vec<u8>, tag: u8, payload: &[u8]) {
    let length = u32::try_from(payload.len()).ok().expect(rt, "a length");
    put_number(rt, out, length.saturating_add(1));
    check(rt, out.push(tag).is_ok(), "memory");
    check(rt, out.extend_from_slice(payload).is_ok(), "memory");
}

// A clock: the count of its entries, and the entries.
fn clock_bytes(rt: &(impl Abort + AllocGlobal), entries: &[(u32, u32)]) -> Vec<u8> {
    let count = u32::try_from(entries.len()).ok().expect(rt, "a count");
    let mut out = Vec::new(rt.alloc());
    put_number(rt, &mut out, count);
    for &(author, number) in entries {
        put_number(rt, &mut out, author);
        put_number(rt, &mut out, number);
    }
    out
}

/// The bytes of the frames.
pub(crate) fn frame_bytes(rt: &(impl Abort + AllocGlobal), frames: &[Frame]) -> Vec<u8> {
    let mut out = Vec::new(rt.alloc());
    for frame in frames {
        match *frame {
            Frame::Clock(entries) => put_frame(rt, &mut out, 1, &clock_bytes(rt, entries)),
            Frame::Delta(text) => put_frame(rt, &mut out, 2, &bytes(rt, text)),
            Frame::End => put_frame(rt, &mut out, 3, &[]),
        }
    }
    out
}
