//! The whole of an input, and what it means that a stream fails.

ghost use Rattle.std.specs.Prelude.{◌≡◌, ◌⊎◌, ◌+◌, ◌<◌, ◌≤◌, ◌^◌, length, vec_len, IfOk, OnOk, IfSome, IfErr, IsErrOf};
ghost use Rattle.std.specs.Io.KnownBytes.{IsAtEnd};
ghost use Rattle.std.specs.IoError.{error_kind};
ghost use Rattle.census_state.specs.Inputs.{IsInputFault, read_fault, write_fault};

use crate::fault::Fault;
use std::alloc::Allocator;
use std::io::{Error, ErrorKind, Read};

/// The most bytes that an input or a file may have.
pub const INPUT_LIMIT: u64 = 1_073_741_824;

/// All bytes that the reader gives. The answer is `TooLong` where there are more than `limit`, `Read` where a read
/// failed, and `OutOfMemory` where memory was refused.
pub fn read_whole<A: Allocator, R: Read>(
    alloc: A,
    reader: &mut R,
    limit: u64,
) -> Result<Vec<u8, A>, Fault>
    requires { limit + 1 < 2 ^ 64 }
    ensures whole { IfOk result (λ bytes. IfSome (R.remaining reader.old) (λ x. bytes.items ≡ x)) }
    ensures fits { IfOk result (λ bytes. vec_len bytes ≤ limit) }
    ensures too_long { IsErrOf result Fault.TooLong → IfSome (R.remaining reader.old) (λ x. limit < length x) }
    ensures faults { IfErr result IsInputFault }
{
    let mut bytes = Vec::new(alloc);
    match reader.take(limit + 1).read_to_end(&mut bytes) {
        Ok(_) if bytes.len() as u64 > limit => Err(Fault::TooLong),
        Ok(_) => Ok(bytes),
        Err(e) => Err(read_fault(&e)),
    }
}

/// The fault of a read that failed: `OutOfMemory` exactly where its error is of that kind, and else `Read`.
pub fn read_fault(error: &Error) -> Fault
    ensures is { result ≡ read_fault (error_kind error.now) }
    ensures either { (result ≡ Fault.Read) ⊎ (result ≡ Fault.OutOfMemory) }
{
    match error.kind() {
        ErrorKind::OutOfMemory => Fault::OutOfMemory,
        _ => Fault::Read,
    }
}

/// The fault of a write that failed: `OutOfMemory` exactly where its error is of that kind, and else `Write`.
pub fn write_fault(error: &Error) -> Fault
    ensures is { result ≡ write_fault (error_kind error.now) }
    ensures either { (result ≡ Fault.Write) ⊎ (result ≡ Fault.OutOfMemory) }
{
    match error.kind() {
        ErrorKind::OutOfMemory => Fault::OutOfMemory,
        _ => Fault::Write,
    }
}
