//! What the first bytes of a frame say.

ghost use Rattle.std.specs.Prelude.{◌≡◌, ◌≢◌, ◌≤◌, ◌<◌, ◌^◌, length, IfSome};
ghost use Rattle.oct_sync.specs.Frames.{length_field};
ghost use Rattle.oct_sync.specs.Session.{head_fault, is_due, is_head, rest_fault};
ghost use Rattle.oct_sync.specs.SessionState.{phase_of};

use crate::error::SyncError;
use crate::frame::{CLOCK, DELTA, END, MAX_FRAME};
use crate::state::Due;
use std::alloc::Allocator;

/// The length that the first four bytes say.
pub(crate) fn length_field(bytes: &[u8]) -> usize
    requires { 4 ≤ length bytes.now }
    ensures value { result ≡ length_field bytes.now }
    ensures small { result < 2 ^ 32 }
{
    match bytes {
        [a, b, c, d, ..] => u32::from_be_bytes([*a, *b, *c, *d]) as usize,
        _ => unreachable!(),
    }
}

// Whether a frame with the tag is due.
fn is_due<A: Allocator>(due: &Due<A>, tag: u8) -> bool
    ensures { result ≡ is_due (phase_of due.now) tag }
{
    match due {
        Due::Clock => tag == CLOCK,
        Due::Deltas(_) => tag == DELTA || tag == END,
        Due::End => tag == END,
        Due::Nothing => false,
    }
}

// Whether a frame of this length may have the tag.
fn is_head(length: usize, tag: u8) -> bool
    ensures { result ≡ is_head length tag }
{
    tag == CLOCK || tag == DELTA || tag == END && length == 1
}

// The fault that a frame's length and tag show.
fn head_fault<A: Allocator>(due: &Due<A>, length: usize, tag: u8) -> Option<SyncError>
    ensures value { result ≡ head_fault (phase_of due.now) length tag }
    ensures sound { IfSome result (λ fault. fault ≢ SyncError.Failed) }
{
    if !is_head(length, tag) {
        Some(SyncError::Frame)
    } else if !is_due(due, tag) {
        Some(SyncError::Order)
    } else {
        None
    }
}

/// The fault that the first bytes of a frame show: its length with the fourth byte, its tag with the fifth.
pub(crate) fn first_fault<A: Allocator>(due: &Due<A>, bytes: &[u8]) -> Option<SyncError>
    ensures value { result ≡ rest_fault (phase_of due.now) bytes.now }
    ensures sound { IfSome result (λ fault. fault ≢ SyncError.Failed) }
{
    if bytes.len() < 4 {
        return None;
    }
    let length = length_field(bytes);
    if length == 0 || length > MAX_FRAME {
        return Some(SyncError::Frame);
    }
    if bytes.len() < 5 {
        return None;
    }
    head_fault(due, length, bytes[4])
}
