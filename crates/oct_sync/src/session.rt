//! One side of a session.

ghost use Rattle.std.specs.Prelude.{◌≡◌, ◌≢◌, ◌↔◌, ◌≤◌, ◌++◌, Some, None, IfSome, IfOk, IfErr, OnOk, OnErr, IsErrOf};
ghost use Rattle.oct_delta.specs.Text.{Bytes};
ghost use Rattle.oct_ops.specs.Operations.{Operations};
ghost use Rattle.oct_sync.specs.Frames.{max_frame};
ghost use Rattle.oct_sync.specs.Session.{Point, clock_frame, empty_clock_frame, fed, wanted};
ghost use Rattle.oct_sync.specs.SessionState.{phase_of};
ghost use Rattle.oct_sync.specs.Standing.{Ends, StandsAt, StandsSound, at_start, progress_in, progress_of};
ghost use Rattle.oct_sync.specs.declared.role.Role.TheVariants as roles;

use crate::error::SyncError;
use crate::peer::Peer;
use crate::progress::Progress;
use crate::receiving;
use crate::role::Role;
use crate::sending::{send_clock, send_empty_clock};
use crate::state::{Due, SessionState};
use std::alloc::{AllocError, Allocator};
use std::marker::Model;

/// One side of a session. It takes the other side's bytes, in pieces of any size, and appends what it sends to a vector. It
/// keeps no operations but those of the delta frame that comes; a caller hands it one `Peer` at every call, which nothing
/// else changes meanwhile. After a refusal it answers `Failed`.
///
///     let mut session = Session::client(alloc, &replica, &mut out)?;    // its clock frame is in `out`
///     session.feed(&mut replica, &bytes, &mut out)?                     // More: `session.wanted()` bytes or fewer are to come
#[derive(Drop)]
pub struct Session<A: Allocator + Copy> {
    alloc: A,
    role: Role,
    state: Option<SessionState<A>>,
}

impl<A: Allocator + Copy> Model for Session<A> {
    ghost use Rattle.std.specs.Prelude.{Option};
    ghost use Rattle.oct_sync.specs.Standing.{Standing, session_code};
    ghost use Rattle.oct_sync.specs.SessionState.{IsSessionStateIf, standing_if};

    ghost Value = { Option Standing };

    ghost coded = { session_code };

    ghost view = { λ s. standing_if s.role s.state };

    ghost invariant = { λ s. IsSessionStateIf s.state };
}

impl<A: Allocator + Copy> Session<A> {
    /// The side that speaks first, for the peer. Its clock frame is appended to `out`, which a refusal leaves as it was.
    pub fn client<P: Peer<A>>(
        alloc: A,
        peer: &P,
        out: &mut Vec<u8, A>,
    ) -> Result<Session<A>, AllocError>
        ensures ok { IfOk result (λ session. session ≡ Some (at_start roles.Client)) }
        ensures sent { OnOk result (out.new.items ≡ out.old.items ++ clock_frame (P.held peer.now)) }
        ensures err { OnErr result (out.new.items ≡ out.old.items) }
    {
        send_clock(peer, out)?;
        Ok(Session::begin(alloc, Role::Client))
    }

    /// The side that speaks first and sends all: its clock frame, which covers nothing, is appended to `out`, which a refusal
    /// leaves as it was. Whatever the other side's clock is, all that the peer then holds is sent back. So both sides come to
    /// one set also where two of them used a number twice, which clocks do not show.
    pub fn client_of_all(alloc: A, out: &mut Vec<u8, A>) -> Result<Session<A>, AllocError>
        ensures ok { IfOk result (λ session. session ≡ Some (at_start roles.ClientOfAll)) }
        ensures sent { OnOk result (out.new.items ≡ out.old.items ++ empty_clock_frame) }
        ensures err { OnErr result (out.new.items ≡ out.old.items) }
    {
        send_empty_clock(out)?;
        Ok(Session::begin(alloc, Role::ClientOfAll))
    }

    /// The side that speaks first and gives: its clock frame is appended to `out`, which a refusal leaves as it was. It sends
    /// what the other side's clock does not cover, and takes nothing in: the peer stays as it was. What comes is read all the
    /// same, and is refused where another side would refuse it.
    pub fn giver<P: Peer<A>>(
        alloc: A,
        peer: &P,
        out: &mut Vec<u8, A>,
    ) -> Result<Session<A>, AllocError>
        ensures ok { IfOk result (λ session. session ≡ Some (at_start roles.Giver)) }
        ensures sent { OnOk result (out.new.items ≡ out.old.items ++ clock_frame (P.held peer.now)) }
        ensures err { OnErr result (out.new.items ≡ out.old.items) }
    {
        send_clock(peer, out)?;
        Ok(Session::begin(alloc, Role::Giver))
    }

    /// The side that answers. It takes no memory.
    pub fn server(alloc: A) -> Session<A>
        ensures { result ≡ Some (at_start roles.Server) }
    {
        Session::begin(alloc, Role::Server)
    }

    // A session to which nothing was fed.
    fn begin(alloc: A, role: Role) -> Session<A>
        ensures { result ≡ Some (at_start role) }
    {
        Session {
            alloc,
            role,
            state: Some(SessionState::new(alloc, Due::Clock)),
        }
    }

    /// Takes the next bytes: takes the operations of whole delta frames into the peer, unless the side gives, and appends what
    /// is to be sent to `out`. The answer is the fault of the first frame that shows one, or of the first byte after the end.
    /// The frames before it have done what they do; it appends nothing to `out`, and where its delta ran out of memory the
    /// first so many of its operations are in the peer, unless the side gives. From then on every call answers `Failed`.
    pub fn feed<P: Peer<A>>(
        &mut self,
        peer: &mut P,
        piece: &[u8],
        out: &mut Vec<u8, A>,
    ) -> Result<Progress, SyncError>
        ensures ok { OnOk result ((role : Role) (p : Point) → StandsAt role self.old (P.held peer.old) out.old.items p → StandsAt role self.new (P.held peer.new) out.new.items (fed role p piece.now)) }
        ensures progress { IfOk result (λ progress. progress ≡ progress_of self.new) }
        ensures sound { OnOk result (StandsSound self.new) }
        ensures err { IfErr result (λ e. (role : Role) (p : Point) → StandsAt role self.old (P.held peer.old) out.old.items p → Ends role p piece.now e (P.held peer.new) out.new.items) }
        ensures author { P.author peer.new ≡ P.author peer.old }
        ensures failed { IsErrOf result SyncError.Failed ↔ (self.old ≡ None) }
        // After `Failed` nothing has changed.
        ensures same { self.old ≡ None → (P.held peer.new ≡ P.held peer.old) × (out.new.items ≡ out.old.items) }
        ensures after { OnErr result (self.new ≡ None) }
    {
        let Some(state) = self.state.take() else {
            return Err(SyncError::Failed);
        };
        match receiving::advance(self.alloc, self.role, state, peer, piece, out) {
            Ok(state) => {
                let progress = progress_of(&state);
                self.state = Some(state);
                Ok(progress)
            }
            Err(fault) => Err(fault),
        }
    }

    /// How many bytes are missing to the end of the next frame's first five bytes, or of its payload: 1 to 1,048,576, and 0
    /// where the session is done or has refused something.
    pub fn wanted(&self) -> usize
        ensures value { (role : Role) (held : Operations) (sent : Bytes) (p : Point) → StandsAt role self.now held sent p → result ≡ wanted p }
        ensures failed { self.now ≡ None → result ≡ 0 }
        ensures some { IfSome self.now (λ session. progress_in session.phase ≡ Progress.More → 1 ≤ result) }
        ensures most { result ≤ max_frame }
    {
        match &self.state {
            None => 0,
            Some(state) => receiving::wanted(state),
        }
    }
}

// Whether a frame is due.
fn progress_of<A: Allocator + Copy>(state: &SessionState<A>) -> Progress
    ensures { result ≡ progress_in (phase_of state.now.due) }
{
    match &state.due {
        Due::Nothing => Progress::Done,
        _ => Progress::More,
    }
}
