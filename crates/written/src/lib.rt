//! All bytes to a writer, or a prefix of them and then a failure.
//!
//! A writer takes as many bytes as it likes at a time, and a signal may interrupt it: `write_out` goes on until it has taken all.
//!
//!     write_out(&mut file, b"census 2\nend\n")?;      // `Unwritten` where the disk is full
//!
//! A long text is written as it is made: what comes next is put together in a piece, which `spill` writes once it is large.
//!
//! `specs/Output` says what a writer holds after a failure, and what of a piece was written.
#![tactic(auto)]

ghost use Rattle.std.specs.Prelude.{◌≡◌, ◌<◌, ◌≤◌, length, take, IfOk, OnOk, OnErr};
ghost use Rattle.std.specs.Io.KnownBytes.{Appends, Keeps};
ghost use Rattle.written.specs.Output.{AppendsFront, AppendsPrefix, piece_size};

use std::alloc::Allocator;
use std::io::{self, ErrorKind, Write};

/// A write or a flush failed, or a write took no byte.
#[derive(Clone, Copy, PartialEq, Eq, Drop)]
pub struct Unwritten;

// So many bytes are put together before they are written.
const PIECE: usize = 65_536;

// How many times in a row a write that a signal interrupted is made again.
const SIGNALS: u32 = 1_000;

/// Writes all the bytes, and flushes. A write that takes no byte is a failure. After one a prefix of the bytes was written.
pub fn write_out<W: Write>(writer: &mut W, bytes: &[u8]) -> Result<(), Unwritten>
    ensures ok { OnOk result (Appends (W.contents writer.old) (W.contents writer.new) bytes.now) }
    ensures err { OnErr result (AppendsPrefix (W.contents writer.old) (W.contents writer.new) bytes.now) }
{
    let mut written = 0;
    while written < bytes.len() {
        written += write_some(writer, &bytes[written..])?;
    }
    match writer.flush() {
        Ok(()) => Ok(()),
        Err(_) => Err(Unwritten),
    }
}

// Writes some of the bytes, and says how many. A write that a signal interrupted is made again.
fn write_some<W: Write>(writer: &mut W, bytes: &[u8]) -> Result<usize, Unwritten>
    requires { 0 < length bytes.now }
    ensures some { IfOk result (λ n. 0 < n) }
    ensures bound { IfOk result (λ n. n ≤ length bytes.now) }
    ensures ok { IfOk result (λ n. Appends (W.contents writer.old) (W.contents writer.new) (take n bytes.now)) }
    ensures err { OnErr result (Keeps (W.contents writer.old) (W.contents writer.new)) }
{
    for _ in 0..SIGNALS {
        match writer.write(bytes) {
            Ok(n) if n > 0 => return Ok(n),
            Ok(_) => return Err(Unwritten),
            Err(e) if e.kind() == ErrorKind::Interrupted => {}
            Err(_) => return Err(Unwritten),
        }
    }
    Err(Unwritten)
}

/// Writes a piece of a text that has 64 KiB or more, and empties it; a smaller one stays. The error is the writer's, and a part of
/// the piece may have been written then.
pub fn spill<W: Write, A: Allocator>(piece: &mut Vec<u8, A>, out: &mut W) -> io::Result<()>
    ensures ok { OnOk result (AppendsFront (W.contents out.old) (W.contents out.new) piece.old.items piece.new.items) }
    ensures small { OnOk result (length piece.new.items < piece_size) }
{
    if piece.len() < PIECE {
        return Ok(());
    }
    out.write_all(piece)?;
    piece.clear();
    Ok(())
}
