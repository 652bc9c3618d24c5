//! What shows that two tables are apart: digests that differ after a session, and dots that are used twice.

ghost use Rattle.std.specs.Prelude.{◌≡◌, ◌≢◌, ◌↔◌, false, length, None, IfSome, IfOk};
ghost use Rattle.oct_delta.specs.Text.{Bytes};
ghost use Rattle.census_fold.specs.Closing.{closing_bytes, digits_length, new_forks, refusal_bytes};

use oct_ops::Dot;
use oct_store::Fork;
use std::alloc::{AllocError, Global};

/// How many bytes a closing frame has.
pub const CLOSING_LENGTH: usize = 69;

/// How many bytes the longest frame of a refusal has.
pub const REFUSAL_LENGTH: usize = 9;

/// How many digits a digest has.
const DIGITS: usize = 64;

/// The length of the frame, which counts what follows it, and its tag.
const HEAD: [u8; 5] = [0, 0, 0, 65, 4];

/// The length and the tag of a refusal that says no number, and of one that does.
const MOST: [u8; 5] = [0, 0, 0, 1, 5];

const AUTHORS: [u8; 5] = [0, 0, 0, 5, 5];

/// Why a side that serves ends a session, as it says in the place of the frame that is due.
#[derive(Clone, Copy, PartialEq, Eq)]
pub enum Refusal {
    /// The other side has sent more bytes than it takes of one session.
    Most,
    /// With what the other side sent it would have operations by more authors than this.
    Authors(u32),
}

/// The frame that a side which serves sends behind its last one: the digits of the digest of the set that the other side should
/// then hold. No session has a frame of that tag, and none reads further than its last frame.
pub fn closing_frame(alloc: Global, digits: &[u8]) -> Result<Vec<u8>, AllocError>
    ensures { IfOk result (λ frame. frame.items ≡ closing_bytes digits.now) }
{
    let mut frame = Vec::new(alloc);
    frame.extend_from_slice(&HEAD)?;
    frame.extend_from_slice(digits)?;
    Ok(frame)
}

/// The digits of a closing frame; none where the bytes are no such frame.
pub fn closing_digits(frame: &[u8]) -> Option<&[u8]>
    ensures some { IfSome result (λ digits. frame.now ≡ closing_bytes digits.now) }
    ensures length { IfSome result (λ digits. length digits.now ≡ digits_length) }
    ensures none { result ≡ None → (digits : Bytes) → length digits ≡ digits_length → frame.now ≢ closing_bytes digits }
{
    match frame.strip_prefix(&HEAD) {
        Some(digits) if digits.len() == DIGITS => Some(digits),
        _ => None,
    }
}

/// The frame of a refusal. Its tag is one that no session has.
pub fn refusal_frame(alloc: Global, refusal: Refusal) -> Result<Vec<u8>, AllocError>
    ensures { IfOk result (λ frame. frame.items ≡ refusal_bytes refusal) }
{
    let mut frame = Vec::new(alloc);
    match refusal {
        Refusal::Most => frame.extend_from_slice(&MOST)?,
        Refusal::Authors(most) => {
            frame.extend_from_slice(&AUTHORS)?;
            frame.extend_from_slice(&most.to_be_bytes())?;
        }
    }
    Ok(frame)
}

/// The refusal that a frame says; none where the bytes are no such frame.
pub fn read_refusal(frame: &[u8]) -> Option<Refusal>
    ensures some { IfSome result (λ refusal. frame.now ≡ refusal_bytes refusal) }
    ensures none { result ≡ None → (refusal : Refusal) → frame.now ≢ refusal_bytes refusal }
{
    if frame == MOST.as_slice() {
        return Some(Refusal::Most);
    }
    match frame.strip_prefix(&AUTHORS) {
        Some([a, b, c, d]) => Some(Refusal::Authors(u32::from_be_bytes([*a, *b, *c, *d]))),
        _ => None,
    }
}

/// Whether the digits of the digest of what is held, and those of a closing frame, are of two sets.
pub fn is_apart(own: &[u8], digits: &[u8]) -> bool
    ensures { (result ≡ false) ↔ (own.now ≡ digits.now) }
{
    own != digits
}

/// The dots that are used twice now and were not so before, or with fewer contents: those of the `later` forks that are not among
/// the `earlier` ones. Both are what `Store::forks` gives, of one set as it was and as it is with more.
pub fn new_forks(alloc: Global, earlier: &[Fork], later: &[Fork]) -> Result<Vec<Dot>, AllocError>
    ensures { IfOk result (λ dots. dots.items ≡ new_forks earlier.now later.now) }
{
    let mut rest = earlier;
    let mut dots = Vec::new(alloc);
    for &fork in later {
        match rest.split_first() {
            Some((&first, others)) if first.dot == fork.dot => {
                if first.contents != fork.contents {
                    dots.push(fork.dot)?;
                }
                rest = others;
            }
            _ => dots.push(fork.dot)?,
        }
    }
    Ok(dots)
}
