//! A session over a reader and a writer.

ghost use Rattle.std.specs.Prelude.{◌≡◌, ◌≢◌, ◌++◌, ◌<◌, ◌≤◌, [], Some, length, take, vec_len, IfOk, IfErr, OnOk, OnErr, IsErrOf};
ghost use Rattle.std.specs.Io.KnownBytes.{Appends, Consumes, IsAtEnd, Keeps};
ghost use Rattle.oct_sync.specs.Driven.{Breaks, Completes, Concludes, IsOutside, LacksMemory, RunsOut, begun};
ghost use Rattle.written.specs.Output.{AppendsPrefix};
ghost use Rattle.oct_sync.specs.Standing.{at_start};

use crate::error::SyncError;
use crate::peer::Peer;
use crate::progress::Progress;
use crate::role::Role;
use crate::session::Session;
use std::alloc::{AllocError, Allocator};
use std::io::{Read, Write};
use written::{Unwritten, write_out};

/// The most reads of one session.
pub const MAX_READS: u32 = 1_000_000;

/// The most bytes of one read.
const MAX_READ: usize = 65_536;

/// Brings the peer and another replica up to date, over a reader of the other's bytes and a writer of one's own: writes
/// all that is owed and flushes, and then reads at most as many bytes as the session wants, by turns. Nothing after the last
/// frame is read.
///
/// Besides what a session refuses, the answer is `Cut` where the input ended before the session was done, `Read` where a
/// read failed, `Write` where a write or a flush failed or a write took no byte, and `Turns` where more than `MAX_READS`
/// reads would be needed. None of these four is answered where the bytes that were read show a fault of a frame. What the
/// peer holds then is what those bytes say, and what was written is a prefix of what the session sends. After `OutOfMemory`
/// the same holds of the frames that were taken, with the first so many operations of the one that came, unless the peer
/// gives. The peer's author stays.
///
/// Where it is done and the bytes that were read are what the other side sends for those that were written, the peer holds
/// what `laws::both_sides_hold_all` says. A peer that gives stays as it was, whatever comes:
/// `laws::giving_joins_the_server_alone`.
pub fn drive<A: Allocator + Copy, P: Peer<A>, R: Read, W: Write>(
    alloc: A,
    role: Role,
    peer: &mut P,
    reader: &mut R,
    writer: &mut W,
) -> Result<(), SyncError>
    ensures ok { OnOk result (Completes role (R.remaining reader.old) (R.remaining reader.new) (W.contents writer.old) (W.contents writer.new) (P.held peer.old) (P.held peer.new)) }
    ensures err { IfErr result (λ e. e ≢ SyncError.OutOfMemory → Breaks role e (R.remaining reader.old) (R.remaining reader.new) (W.contents writer.old) (W.contents writer.new) (P.held peer.old) (P.held peer.new)) }
    ensures memory { IfErr result (λ e. e ≡ SyncError.OutOfMemory → LacksMemory role (R.remaining reader.old) (R.remaining reader.new) (W.contents writer.old) (W.contents writer.new) (P.held peer.old) (P.held peer.new)) }
    ensures cut { IsErrOf result SyncError.Cut → IsAtEnd (R.remaining reader.new) }
    ensures author { P.author peer.new ≡ P.author peer.old }
{
    let owed = converse(alloc, role, peer, reader, writer)?;
    write_out(writer, &owed)?;
    Ok(())
}

/// Does what `drive` does, except that the bytes that are owed once the session is done are the answer, and not written. So
/// a server can keep what it holds before it says, by its last frame, that it has it: the caller writes them.
///
/// The errors are those of `drive`, which come while the session is not done.
pub fn converse<A: Allocator + Copy, P: Peer<A>, R: Read, W: Write>(
    alloc: A,
    role: Role,
    peer: &mut P,
    reader: &mut R,
    writer: &mut W,
) -> Result<Vec<u8, A>, SyncError>
    ensures ok { IfOk result (λ owed. Concludes role (R.remaining reader.old) (R.remaining reader.new) (W.contents writer.old) (W.contents writer.new) (P.held peer.old) (P.held peer.new) owed.items) }
    ensures err { IfErr result (λ e. e ≢ SyncError.OutOfMemory → Breaks role e (R.remaining reader.old) (R.remaining reader.new) (W.contents writer.old) (W.contents writer.new) (P.held peer.old) (P.held peer.new)) }
    ensures memory { IfErr result (λ e. e ≡ SyncError.OutOfMemory → LacksMemory role (R.remaining reader.old) (R.remaining reader.new) (W.contents writer.old) (W.contents writer.new) (P.held peer.old) (P.held peer.new)) }
    ensures cut { IsErrOf result SyncError.Cut → IsAtEnd (R.remaining reader.new) }
    ensures author { P.author peer.new ≡ P.author peer.old }
{
    let mut buffer = zeros(alloc, MAX_READ)?;
    let mut owed = Vec::new(alloc);
    let mut session = begin(alloc, role, peer, &mut owed)?;
    take_turns(
        role,
        &mut session,
        peer,
        reader,
        writer,
        &mut buffer,
        &mut owed,
    )?;
    Ok(owed)
}

// Writes all that is owed and reads what the session wants, by turns, until it is done. What is owed then is not written.
fn take_turns<A: Allocator + Copy, P: Peer<A>, R: Read, W: Write>(
    role: Role,
    session: &mut Session<A>,
    peer: &mut P,
    reader: &mut R,
    writer: &mut W,
    buffer: &mut [u8],
    owed: &mut Vec<u8, A>,
) -> Result<(), SyncError>
    requires at { session.now ≡ Some (at_start role) }
    requires owed { owed.now.items ≡ (begun role (P.held peer.now)).sent }
    requires room { 0 < length buffer.old }
    ensures ok { OnOk result (Concludes role (R.remaining reader.old) (R.remaining reader.new) (W.contents writer.old) (W.contents writer.new) (P.held peer.old) (P.held peer.new) owed.new.items) }
    ensures err { IfErr result (λ e. e ≢ SyncError.OutOfMemory → Breaks role e (R.remaining reader.old) (R.remaining reader.new) (W.contents writer.old) (W.contents writer.new) (P.held peer.old) (P.held peer.new)) }
    ensures memory { IfErr result (λ e. e ≡ SyncError.OutOfMemory → RunsOut role (R.remaining reader.old) (R.remaining reader.new) (W.contents writer.old) (W.contents writer.new) (P.held peer.old) (P.held peer.new)) }
    ensures cut { IsErrOf result SyncError.Cut → IsAtEnd (R.remaining reader.new) }
    ensures author { P.author peer.new ≡ P.author peer.old }
{
    for _ in 0..MAX_READS {
        send(writer, owed)?;
        let count = receive(reader, buffer, session.wanted())?;
        let piece = &buffer[..count];
        let progress = session.feed(peer, piece, owed)?;
        if let Progress::Done = progress {
            return Ok(());
        }
    }
    send(writer, owed)?;
    Err(SyncError::Turns)
}

// A session of the role, whose first bytes are owed.
fn begin<A: Allocator + Copy, P: Peer<A>>(
    alloc: A,
    role: Role,
    peer: &P,
    owed: &mut Vec<u8, A>,
) -> Result<Session<A>, AllocError>
    ensures at { IfOk result (λ session. session ≡ Some (at_start role)) }
    ensures owed { OnOk result (owed.new.items ≡ owed.old.items ++ (begun role (P.held peer.now)).sent) }
{
    match role {
        Role::Client => Session::client(alloc, peer, owed),
        Role::ClientOfAll => Session::client_of_all(alloc, owed),
        Role::Giver => Session::giver(alloc, peer, owed),
        Role::Server => Ok(Session::server(alloc)),
    }
}

// Writes all that is owed, and flushes.
fn send<A: Allocator, W: Write>(writer: &mut W, owed: &mut Vec<u8, A>) -> Result<(), Unwritten>
    ensures ok { OnOk result (Appends (W.contents writer.old) (W.contents writer.new) owed.old.items) }
    ensures empty { OnOk result (owed.new.items ≡ []) }
    ensures err { OnErr result (AppendsPrefix (W.contents writer.old) (W.contents writer.new) owed.old.items) }
{
    write_out(writer, owed)?;
    owed.clear();
    Ok(())
}

// Reads some bytes into the front of the buffer, at most so many, and says how many. There are none where the input is at
// its end.
fn receive<R: Read>(reader: &mut R, buffer: &mut [u8], most: usize) -> Result<usize, SyncError>
    requires some { 0 < most }
    requires room { 0 < length buffer.old }
    ensures ok { IfOk result (λ count. Consumes (R.remaining reader.old) (R.remaining reader.new) (take count buffer.new)) }
    ensures few { IfOk result (λ count. count ≤ most) }
    ensures within { IfOk result (λ count. count ≤ length buffer.new) }
    ensures err { OnErr result (Keeps (R.remaining reader.old) (R.remaining reader.new)) }
    ensures cut { IsErrOf result SyncError.Cut → IsAtEnd (R.remaining reader.new) }
    ensures outside { IfErr result IsOutside }
    ensures room { length buffer.new ≡ length buffer.old }
{
    let most = most.min(buffer.len());
    match reader.read(&mut buffer[..most]) {
        Ok(0) => Err(SyncError::Cut),
        Ok(count) => Ok(count),
        Err(_) => Err(SyncError::Read),
    }
}

// A buffer of this length. Its length is a parameter, since a proof would write out so long a literal list.
fn zeros<A: Allocator>(alloc: A, len: usize) -> Result<Vec<u8, A>, AllocError>
    ensures { IfOk result (λ bytes. vec_len bytes ≡ len) }
{
    vec![in alloc; 0u8; len]
}
