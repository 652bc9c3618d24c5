//! What the bytes of a frame do, as they come.

ghost use Rattle.std.specs.Prelude.{◌≡◌, ◌≢◌, ◌⊎◌, ◌+◌, ◌≤◌, ◌<◌, ◌++◌, ◌^◌, ℕ, [], length, take, IfOk, IfErr, OnOk, OnErr, IsErrOf};
ghost use Rattle.oct_delta.specs.Clocks.{read_clock};
ghost use Rattle.oct_delta.specs.Text.{Bytes};
ghost use Rattle.oct_ops.specs.Operations.{IsRising, set_of};
ghost use Rattle.oct_sync.specs.Frames.{clock_tag, end_tag, length_field, max_frame, tag_field};
ghost use Rattle.oct_sync.specs.Session as session;
ghost use Rattle.oct_sync.specs.Session.{Phase, Point, missing_bytes, taken_in};
ghost use Rattle.oct_sync.specs.SessionState.{IsCounted, IsDeltaFront, IsOpenPhase, IsShort, IsSessionState, IsWholeFrame, Steps, kept_of, kept_of_delta, phase_of, point, standing_of, wanted_by};
ghost use Rattle.oct_sync.specs.Standing.{Ends, IsAt, IsRest, Known, progress_in};

use crate::error::SyncError;
use crate::frame::{CLOCK, DELTA};
use crate::heads::{first_fault, length_field};
use crate::peer::Peer;
use crate::progress::Progress;
use crate::role::Role;
use crate::sending::{send_answer, send_end, send_missing};
use crate::state::{Delta, Due, Incoming, SessionState};
use oct_delta::laws::texts_are_read;
use oct_delta::{ClockError, DeltaError, Reader, decode_clock};
use oct_join::Clock;
use oct_ops::Op;
use std::alloc::{AllocError, Allocator};

// Takes the other side's clock. A server answers it; a client that sends all does as if it covered nothing.
fn on_clock<A: Allocator + Copy, P: Peer<A>>(
    alloc: A,
    role: Role,
    peer: &P,
    payload: &[u8],
    out: &mut Vec<u8, A>,
) -> Result<Due<A>, SyncError>
    ensures ok { IfOk result (λ due. (phase : Phase) → session.on_clock role (record { phase = phase; held = P.held peer.now; sent = out.old.items }) (read_clock payload.now) ≡ record { phase = phase_of due; held = P.held peer.now; sent = out.new.items }) }
    ensures clock { IsErrOf result SyncError.Clock → read_clock payload.now ≡ None }
    ensures kind { IfErr result (λ e. (e ≡ SyncError.Clock) ⊎ (e ≡ SyncError.OutOfMemory)) }
    ensures err { OnErr result (out.new.items ≡ out.old.items) }
{
    let clock = match decode_clock(alloc, payload) {
        Ok(clock) => clock,
        Err(ClockError::Refused) => return Err(SyncError::Clock),
        Err(ClockError::OutOfMemory) => return Err(SyncError::OutOfMemory),
    };
    match role {
        Role::Client => Ok(Due::Deltas(clock)),
        Role::Giver => Ok(Due::Deltas(clock)),
        Role::ClientOfAll => Ok(Due::Deltas(Clock::new(alloc))),
        Role::Server => {
            send_answer(alloc, peer, &clock, out)?;
            Ok(Due::Deltas(clock))
        }
    }
}

// Takes the end of the other side's operations.
fn on_end<A: Allocator + Copy, P: Peer<A>>(
    alloc: A,
    role: Role,
    due: Due<A>,
    peer: &P,
    out: &mut Vec<u8, A>,
) -> Result<Due<A>, SyncError>
    ensures ok { IfOk result (λ next. session.on_end role (record { phase = phase_of due; held = P.held peer.now; sent = out.old.items }) (phase_of due) ≡ record { phase = phase_of next; held = P.held peer.now; sent = out.new.items }) }
    ensures kind { IfErr result (λ e. e ≡ SyncError.OutOfMemory) }
    ensures err { OnErr result (out.new.items ≡ out.old.items) }
{
    match due {
        Due::Deltas(clock) => match role {
            Role::Client | Role::ClientOfAll | Role::Giver => {
                send_missing(alloc, peer, &clock, out)?;
                Ok(Due::End)
            }
            Role::Server => {
                send_end(out)?;
                Ok(Due::Nothing)
            }
        },
        _ => Ok(Due::Nothing),
    }
}

// Feeds a part of the payload.
fn feed_delta<A: Allocator + Copy>(delta: Delta<A>, piece: &[u8]) -> Result<Delta<A>, AllocError>
    requires counted { IsCounted delta.head.items delta.missing delta.reader }
    requires fits { length piece.now ≤ delta.missing }
    ensures head { IfOk result (λ next. next.head.items ≡ delta.head.items) }
    ensures missing { IfOk result (λ next. next.missing + length piece.now ≡ delta.missing) }
    ensures counted { IfOk result (λ next. IsCounted next.head.items next.missing next.reader) }
    ensures rest { IfOk result (λ next. (rest : Bytes) → IsRest (kept_of_delta delta) rest → IsRest (kept_of_delta next) (rest ++ piece.now)) }
{
    let Delta {
        head,
        missing,
        mut reader,
    } = delta;
    let fed = reader.feed(piece);
    let delta = Delta {
        head,
        missing: missing - piece.len(),
        reader,
    };
    // The reader keeps any other refusal to itself.
    if fed == Err(DeltaError::OutOfMemory) {
        return Err(AllocError);
    }
    Ok(delta)
}

impl<A: Allocator + Copy> SessionState<A> {
    /// No byte of the next frame came.
    pub(crate) fn new(alloc: A, due: Due<A>) -> SessionState<A>
        ensures due { result.due ≡ due }
        ensures kept { kept_of result.incoming ≡ Known [] }
        ensures valid { IsSessionState result }
    {
        SessionState {
            due,
            incoming: Incoming::Kept(Vec::new(alloc)),
        }
    }
}

// Moves the operations into the peer, unless it gives. After a refusal the first so many are in, and no other.
fn take_in<A: Allocator + Copy, P: Peer<A>>(
    role: Role,
    peer: &mut P,
    ops: &mut Vec<Op<A>, A>,
) -> Result<(), AllocError>
    requires rises { IsRising ops.old.items }
    requires few { length ops.old.items < 2 ^ 32 }
    ensures ok { OnOk result (P.held peer.new ≡ taken_in role (P.held peer.old) (set_of ops.old.items)) }
    ensures err { OnErr result ((count : ℕ) × (P.held peer.new ≡ taken_in role (P.held peer.old) (set_of (take count ops.old.items)))) }
    ensures author { P.author peer.new ≡ P.author peer.old }
{
    match role {
        Role::Client | Role::ClientOfAll | Role::Server => peer.take_ops(ops),
        Role::Giver => Ok(()),
    }
}

// Takes the delta in where its payload is whole.
fn end_delta<A: Allocator + Copy, P: Peer<A>>(
    alloc: A,
    role: Role,
    due: Due<A>,
    delta: Delta<A>,
    peer: &mut P,
) -> Result<SessionState<A>, SyncError>
    requires open { IsOpenPhase (phase_of due) }
    requires front { IsDeltaFront (phase_of due) delta.head.items delta.missing delta.reader }
    ensures author { P.author peer.new ≡ P.author peer.old }
    ensures sound { IfErr result (λ e. e ≢ SyncError.Failed) }
    ensures valid { IfOk result IsSessionState }
    ensures steps { (sent r y : Bytes) → IsRest (kept_of_delta delta) (r ++ y) → Steps role (point (phase_of due) (P.held peer.old) sent r) y result (P.held peer.new) sent }
{
    if delta.missing > 0 {
        return Ok(SessionState {
            due,
            incoming: Incoming::Delta(delta),
        });
    }
    texts_are_read();
    let Delta { reader, .. } = delta;
    match reader.finish() {
        Ok(list) => {
            let mut ops = list.into_vec();
            match take_in(role, peer, &mut ops) {
                Ok(()) => Ok(SessionState::new(alloc, due)),
                Err(_) => Err(SyncError::OutOfMemory),
            }
        }
        Err(_) => Err(SyncError::Delta),
    }
}

// Does what a whole frame does that is no delta.
fn end_frame<A: Allocator + Copy, P: Peer<A>>(
    alloc: A,
    role: Role,
    due: Due<A>,
    frame: &[u8],
    peer: &P,
    out: &mut Vec<u8, A>,
) -> Result<SessionState<A>, SyncError>
    requires open { IsOpenPhase (phase_of due) }
    requires whole { IsWholeFrame (phase_of due) frame.now }
    requires tag { (tag_field frame.now ≡ clock_tag) ⊎ (tag_field frame.now ≡ end_tag) }
    ensures sound { IfErr result (λ e. e ≢ SyncError.Failed) }
    ensures valid { IfOk result IsSessionState }
    ensures steps { (r y : Bytes) → r ++ y ≡ frame.now → Steps role (point (phase_of due) (P.held peer.now) out.old.items r) y result (P.held peer.now) out.new.items }
{
    if frame[4] == CLOCK {
        match on_clock(alloc, role, peer, &frame[5..], out) {
            Ok(next) => Ok(SessionState::new(alloc, next)),
            Err(fault) => Err(fault),
        }
    } else {
        match on_end(alloc, role, due, peer, out) {
            Ok(next) => Ok(SessionState::new(alloc, next)),
            Err(_) => Err(SyncError::OutOfMemory),
        }
    }
}

// Does what the bytes of a frame do that came, of which at most the last part is missing.
fn feed_frame<A: Allocator + Copy, P: Peer<A>>(
    alloc: A,
    role: Role,
    due: Due<A>,
    bytes: Vec<u8, A>,
    peer: &mut P,
    out: &mut Vec<u8, A>,
) -> Result<SessionState<A>, SyncError>
    requires open { IsOpenPhase (phase_of due) }
    requires short { IsShort bytes.items }
    ensures author { P.author peer.new ≡ P.author peer.old }
    ensures sound { IfErr result (λ e. e ≢ SyncError.Failed) }
    ensures valid { IfOk result IsSessionState }
    ensures steps { (r y : Bytes) → r ++ y ≡ bytes.items → Steps role (point (phase_of due) (P.held peer.old) out.old.items r) y result (P.held peer.new) out.new.items }
{
    if let Some(fault) = first_fault(&due, &bytes) {
        return Err(fault);
    }
    if bytes.len() < 5 {
        return Ok(SessionState {
            due,
            incoming: Incoming::Kept(bytes),
        });
    }
    let missing = 4 + length_field(&bytes) - bytes.len();
    if bytes[4] == DELTA {
        let reader = Reader::new(alloc);
        let delta = Delta {
            head: bytes,
            missing,
            reader,
        };
        return end_delta(alloc, role, due, delta, peer);
    }
    if missing > 0 {
        return Ok(SessionState {
            due,
            incoming: Incoming::Kept(bytes),
        });
    }
    end_frame(alloc, role, due, &bytes, peer, out)
}

// How many bytes are missing to the end of the first five, or of the payload.
fn missing_bytes(bytes: &[u8]) -> usize
    requires { 5 ≤ length bytes.now → length bytes.now ≤ 4 + length_field bytes.now }
    ensures { result ≡ missing_bytes bytes.now }
{
    if bytes.len() < 5 {
        5 - bytes.len()
    } else {
        4 + length_field(bytes) - bytes.len()
    }
}

/// How many bytes a session wants, which is 0 where it is done.
pub(crate) fn wanted<A: Allocator + Copy>(state: &SessionState<A>) -> usize
    requires { IsSessionState state.now }
    ensures value { result ≡ wanted_by state.now }
    ensures open { 0 < result → IsOpenPhase (phase_of state.now.due) }
    ensures some { progress_in (phase_of state.now.due) ≡ Progress.More → 1 ≤ result }
    ensures most { result ≤ max_frame }
{
    match &state.due {
        Due::Nothing => 0,
        _ => match &state.incoming {
            Incoming::Kept(bytes) => missing_bytes(bytes),
            Incoming::Delta(delta) => delta.missing,
        },
    }
}

/// Takes bytes of one frame, at most as many as are wanted.
pub(crate) fn step<A: Allocator + Copy, P: Peer<A>>(
    alloc: A,
    role: Role,
    state: SessionState<A>,
    peer: &mut P,
    piece: &[u8],
    out: &mut Vec<u8, A>,
) -> Result<SessionState<A>, SyncError>
    requires valid { IsSessionState state }
    requires some { 0 < length piece.now }
    requires fits { length piece.now ≤ wanted_by state }
    ensures author { P.author peer.new ≡ P.author peer.old }
    ensures sound { IfErr result (λ e. e ≢ SyncError.Failed) }
    ensures valid { IfOk result IsSessionState }
    ensures steps { (p : Point) → IsAt role (standing_of role state) (P.held peer.old) out.old.items p → Steps role p piece.now result (P.held peer.new) out.new.items }
{
    let SessionState { due, incoming } = state;
    match incoming {
        Incoming::Kept(mut bytes) => {
            match bytes.extend_from_slice(piece) {
                Ok(()) => feed_frame(alloc, role, due, bytes, peer, out),
                Err(_) => Err(SyncError::OutOfMemory),
            }
        }
        Incoming::Delta(delta) => match feed_delta(delta, piece) {
            Ok(delta) => end_delta(alloc, role, due, delta, peer),
            Err(_) => Err(SyncError::OutOfMemory),
        },
    }
}

/// Takes bytes of any number of frames.
pub(crate) fn advance<A: Allocator + Copy, P: Peer<A>>(
    alloc: A,
    role: Role,
    state: SessionState<A>,
    peer: &mut P,
    piece: &[u8],
    out: &mut Vec<u8, A>,
) -> Result<SessionState<A>, SyncError>
    requires { IsSessionState state }
    ensures author { P.author peer.new ≡ P.author peer.old }
    ensures sound { IfErr result (λ e. e ≢ SyncError.Failed) }
    ensures valid { IfOk result IsSessionState }
    ensures ok { IfOk result (λ next. (p : Point) → IsAt role (standing_of role state) (P.held peer.old) out.old.items p → IsAt role (standing_of role next) (P.held peer.new) out.new.items (session.fed role p piece.now)) }
    ensures err { IfErr result (λ e. (p : Point) → IsAt role (standing_of role state) (P.held peer.old) out.old.items p → Ends role p piece.now e (P.held peer.new) out.new.items) }
{
    let mut state = state;
    let mut rest = piece;
    while !rest.is_empty() {
        let most = wanted(&state);
        if most == 0 {
            return Err(SyncError::Order);
        }
        let (front, later) = rest.split_at(most.min(rest.len()));
        match step(alloc, role, state, peer, front, out) {
            Ok(next) => state = next,
            Err(fault) => return Err(fault),
        }
        rest = later;
    }
    Ok(state)
}
