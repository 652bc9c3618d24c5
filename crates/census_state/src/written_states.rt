//! A state's text, written piece by piece, so that no memory is taken for all of it.
#![tactic(auto, using(oct_ops::proofs::Growing::growing))]

ghost use Rattle.std.specs.Prelude.{◌≡◌, ◌↔◌, ◌<◌, ◌^◌, ◌++◌, IsTrue, length, IfOk, OnOk};
ghost use Rattle.std.specs.Io.KnownBytes.{Appends};
ghost use Rattle.std.specs.List.{flat_map};
ghost use Rattle.oct_delta.specs.Text.{op_bytes};
ghost use Rattle.oct_ops.specs.Operations.{listed};
ghost use Rattle.oct_record.specs.States.{state_text};

use crate::input::INPUT_LIMIT;
use oct_delta::{op_size, put_bytes, put_head, put_op, put_u32};
use oct_join::Ops;
use oct_record::Record;
use std::alloc::{AllocError, Global};
use std::io::{self, ErrorKind, Write};
use written::spill;

// How many bytes stand in a state's text in front of its operations: its tag, the author, and the head of the delta.
const FRONT: u64 = 16;

/// Writes the text of the state of what was said, in pieces of some 64 KiB. The error is that of the writer, or of the kind
/// `OutOfMemory`; a part of the text may have been written then.
pub fn write_state<W: Write>(said: &Record<Global>, out: &mut W) -> io::Result<()>
    requires { length (listed said.now.ops) < 2 ^ 32 }
    ensures { OnOk result (Appends (W.contents out.old) (W.contents out.new) (state_text said.now.author (listed said.now.ops))) }
{
    match front_of(said) {
        Ok(front) => write_ops(front, said.store().iter(), out),
        Err(_) => Err(io::Error::from(ErrorKind::OutOfMemory)),
    }
}

// What stands in the text in front of its operations.
fn front_of(said: &Record<Global>) -> Result<Vec<u8>, AllocError>
    requires { length (listed said.now.ops) < 2 ^ 32 }
    ensures { IfOk result (λ front. front.items ++ flat_map op_bytes (listed said.now.ops) ≡ state_text said.now.author (listed said.now.ops)) }
{
    let mut front = Vec::new(said.allocator());
    put_bytes(&mut front, b"OGS1")?;
    put_u32(&mut front, said.author())?;
    put_head(&mut front, said.store().iter())?;
    Ok(front)
}

// Writes what was put together, and the texts of the operations behind it.
fn write_ops<W: Write>(front: Vec<u8>, ops: Ops<'_, Global>, out: &mut W) -> io::Result<()>
    ensures { OnOk result (Appends (W.contents out.old) (W.contents out.new) (front.items ++ flat_map op_bytes ops.entry)) }
{
    let mut piece = front;
    for op in ops {
        spill(&mut piece, out)?;
        if put_op(&mut piece, op).is_err() {
            return Err(io::Error::from(ErrorKind::OutOfMemory));
        }
    }
    out.write_all(&piece)
}

/// Whether the state of what was said has more bytes than a file may have.
pub fn is_too_long(said: &Record<Global>) -> bool
    ensures { IsTrue result ↔ (INPUT_LIMIT < length (state_text said.now.author (listed said.now.ops))) }
{
    let mut room = INPUT_LIMIT - FRONT;
    for op in said.store().iter() {
        let size = op_size(op) as u64;
        if size > room {
            return true;
        }
        room -= size;
    }
    false
}
