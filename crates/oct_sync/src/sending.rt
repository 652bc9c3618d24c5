//! What a session sends. After a refusal the output is as it was.
#![tactic(auto, using(oct_ops::proofs::Growing::cutting))]

ghost use Rattle.std.specs.Prelude.{◌≡◌, ◌++◌, take, OnOk, OnErr};
ghost use Rattle.oct_ops.specs.Growth.{Extends};
ghost use Rattle.oct_sync.specs.Frames.{end_frame};
ghost use Rattle.oct_sync.specs.Session.{clock_frame, empty_clock_frame, missing_frames};

use crate::deltas::put_delta_frames;
use crate::frame::{put_clock_frame, put_end_frame};
use crate::peer::Peer;
use oct_join::Clock;
use std::alloc::{AllocError, Allocator};

/// The most authors of a clock that is sent.
const MAX_AUTHORS: usize = 65_536;

// Takes back what was appended to the first bytes, where the appending was refused.
fn keep_or_cut<A: Allocator>(
    out: &mut Vec<u8, A>,
    length: usize,
    added: Result<(), AllocError>,
) -> Result<(), AllocError>
    ensures same { result ≡ added }
    ensures ok { OnOk added (out.new.items ≡ out.old.items) }
    ensures err { OnErr added (out.new.items ≡ take length out.old.items) }
{
    if added.is_err() {
        out.truncate(length);
    }
    added
}

// Appends the clock frame of the peer.
fn put_clock<A: Allocator + Copy, P: Peer<A>>(
    peer: &P,
    out: &mut Vec<u8, A>,
) -> Result<(), AllocError>
    ensures ok { OnOk result (out.new.items ≡ out.old.items ++ clock_frame (P.held peer.now)) }
    ensures kept { Extends out.old.items out.new.items }
{
    let clock = peer.clock()?;
    let entries = clock.entries();
    put_clock_frame(out, &entries[..entries.len().min(MAX_AUTHORS)])?;
    Ok(())
}

// Appends what the clock does not cover, and an end frame.
fn put_missing<A: Allocator + Copy, P: Peer<A>>(
    alloc: A,
    peer: &P,
    clock: &Clock<A>,
    out: &mut Vec<u8, A>,
) -> Result<(), AllocError>
    ensures ok { OnOk result (out.new.items ≡ out.old.items ++ missing_frames (P.held peer.now) clock.now) }
    ensures kept { Extends out.old.items out.new.items }
{
    put_delta_frames(alloc, peer.beyond(clock)?, out)?;
    put_end_frame(out)?;
    Ok(())
}

// Appends the clock frame, what the clock of the other side does not cover, and an end frame.
fn put_answer<A: Allocator + Copy, P: Peer<A>>(
    alloc: A,
    peer: &P,
    clock: &Clock<A>,
    out: &mut Vec<u8, A>,
) -> Result<(), AllocError>
    ensures ok { OnOk result (out.new.items ≡ out.old.items ++ clock_frame (P.held peer.now) ++ missing_frames (P.held peer.now) clock.now) }
    ensures kept { Extends out.old.items out.new.items }
{
    put_clock(peer, out)?;
    put_missing(alloc, peer, clock, out)?;
    Ok(())
}

/// Sends the clock frame of the peer.
pub(crate) fn send_clock<A: Allocator + Copy, P: Peer<A>>(
    peer: &P,
    out: &mut Vec<u8, A>,
) -> Result<(), AllocError>
    ensures ok { OnOk result (out.new.items ≡ out.old.items ++ clock_frame (P.held peer.now)) }
    ensures err { OnErr result (out.new.items ≡ out.old.items) }
{
    let length = out.len();
    let added = put_clock(peer, out);
    keep_or_cut(out, length, added)
}

/// Sends the clock frame of a side that says that it has nothing.
pub(crate) fn send_empty_clock<A: Allocator>(out: &mut Vec<u8, A>) -> Result<(), AllocError>
    ensures ok { OnOk result (out.new.items ≡ out.old.items ++ empty_clock_frame) }
    ensures err { OnErr result (out.new.items ≡ out.old.items) }
{
    let length = out.len();
    let added = put_clock_frame(out, &[]);
    keep_or_cut(out, length, added)
}

/// Sends what the clock does not cover, and an end frame.
pub(crate) fn send_missing<A: Allocator + Copy, P: Peer<A>>(
    alloc: A,
    peer: &P,
    clock: &Clock<A>,
    out: &mut Vec<u8, A>,
) -> Result<(), AllocError>
    ensures ok { OnOk result (out.new.items ≡ out.old.items ++ missing_frames (P.held peer.now) clock.now) }
    ensures err { OnErr result (out.new.items ≡ out.old.items) }
{
    let length = out.len();
    let added = put_missing(alloc, peer, clock, out);
    keep_or_cut(out, length, added)
}

/// Sends the clock frame, what the clock of the other side does not cover, and an end frame.
pub(crate) fn send_answer<A: Allocator + Copy, P: Peer<A>>(
    alloc: A,
    peer: &P,
    clock: &Clock<A>,
    out: &mut Vec<u8, A>,
) -> Result<(), AllocError>
    ensures ok { OnOk result (out.new.items ≡ out.old.items ++ clock_frame (P.held peer.now) ++ missing_frames (P.held peer.now) clock.now) }
    ensures err { OnErr result (out.new.items ≡ out.old.items) }
{
    let length = out.len();
    let added = put_answer(alloc, peer, clock, out);
    keep_or_cut(out, length, added)
}

/// Sends an end frame.
pub(crate) fn send_end<A: Allocator>(out: &mut Vec<u8, A>) -> Result<(), AllocError>
    ensures ok { OnOk result (out.new.items ≡ out.old.items ++ end_frame) }
    ensures err { OnErr result (out.new.items ≡ out.old.items) }
{
    let length = out.len();
    let added = put_end_frame(out);
    keep_or_cut(out, length, added)
}
