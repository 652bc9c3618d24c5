//! What is taken of the lines of an input.

ghost use Rattle.std.specs.Prelude.{◌≡◌, ◌⊎◌, ◌+◌, ◌++◌, Ok, true, false, ◌<◌, ◌≤◌, ◌^◌, cond, is_some, length, vec_len, IfOk, OnOk, IfSome, IfErr, IsErrOf};
ghost use Rattle.std.specs.Io.BufRead.{take_through, DropsThrough};
ghost use Rattle.std.specs.Io.KnownBytes.{Keeps};
ghost use Rattle.oct_ops.specs.Operations.{set_of, union};
ghost use Rattle.oct_delta.specs.Decoding.{read_delta};
ghost use Rattle.oct_delta.specs.Taken.{operations_of};
ghost use Rattle.census_fold.specs.Folded.{is_refused, refused, taken, taken_of_line};
ghost use Rattle.census_state.specs.Inputs.{IsInputFault};

use crate::hexadecimal::decode_text;
use crate::lines::text_of_line;
use census_state::{Fault, Holdings, read_fault};
use memchr::memchr;
use oct_delta::laws::texts_are_read;
use oct_record::TakeError;
use std::alloc::Allocator;
use std::io::{BufRead, ErrorKind};

/// What the lines of an input come to.
#[derive(Drop)]
pub struct Intake<A: Allocator + Copy> {
    /// What they said.
    pub held: Holdings<A>,
    /// How many filled lines it did not take.
    pub refused: u64,
}

/// Goes over the lines of an input, which may have so many bytes.
pub(crate) fn take_lines<A: Allocator + Copy, B: BufRead>(
    alloc: A,
    input: &mut B,
    limit: u64,
) -> Result<Intake<A>, Fault>
    ensures taken { IfOk result (λ intake. IfSome (B.remaining input.old) (λ x. intake.held ≡ taken x)) }
    ensures refused { IfOk result (λ intake. IfSome (B.remaining input.old) (λ x. intake.refused ≡ refused x)) }
    ensures fits { OnOk result (IfSome (B.remaining input.old) (λ x. length x ≤ limit)) }
    ensures too_long { IsErrOf result Fault.TooLong → IfSome (B.remaining input.old) (λ x. limit < length x) }
    ensures faults { IfErr result IsInputFault }
{
    let mut intake = Intake {
        held: Holdings::new(alloc),
        refused: 0,
    };
    let mut line = Vec::new(alloc);
    let mut bytes = Vec::new(alloc);
    let mut left = limit;
    loop {
        let count = next_line(input, &mut line)?;
        if count == 0 {
            return Ok(intake);
        }
        if count > left {
            return Err(Fault::TooLong);
        }
        left -= count;
        let text = text_of_line(&line);
        if !text.is_empty() {
            take_line(&mut intake, text, &mut bytes)?;
        }
    }
}

// Reads the next line with its end in the place of what the vector held, and says how many bytes it has: none where
// the input is at its end.
fn next_line<A: Allocator, B: BufRead>(input: &mut B, line: &mut Vec<u8, A>) -> Result<u64, Fault>
    ensures count { IfOk result (λ n. n ≡ vec_len line.new) }
    ensures line { OnOk result (IfSome (B.remaining input.old) (λ x. line.new.items ≡ take_through 10 x)) }
    ensures rest { OnOk result (DropsThrough (B.remaining input.old) (B.remaining input.new) 10) }
    ensures faults { IfErr result (λ e. (e ≡ Fault.Read) ⊎ (e ≡ Fault.OutOfMemory)) }
{
    line.clear();
    if take_buffered(input, line)? {
        return Ok(line.len() as u64);
    }
    match input.read_until(b'\n', line) {
        Ok(count) => Ok(count as u64),
        Err(e) => Err(read_fault(&e)),
    }
}

// Appends the next line with its end, if the whole of it is in the input's buffer, and says whether it is. Else nothing is
// read.
fn take_buffered<A: Allocator, B: BufRead>(
    input: &mut B,
    line: &mut Vec<u8, A>,
) -> Result<bool, Fault>
    ensures line { result ≡ Ok true → IfSome (B.remaining input.old) (λ x. line.new.items ≡ line.old.items ++ take_through 10 x) }
    ensures rest { result ≡ Ok true → DropsThrough (B.remaining input.old) (B.remaining input.new) 10 }
    ensures same { result ≡ Ok false → line.new.items ≡ line.old.items }
    ensures kept { result ≡ Ok false → Keeps (B.remaining input.old) (B.remaining input.new) }
    ensures faults { IfErr result (λ e. (e ≡ Fault.Read) ⊎ (e ≡ Fault.OutOfMemory)) }
{
    let available = match input.fill_buf() {
        Ok(available) => available,
        Err(e) if e.kind() == ErrorKind::Interrupted => return Ok(false),
        Err(e) => return Err(read_fault(&e)),
    };
    let Some(at) = memchr(b'\n', available) else {
        return Ok(false);
    };
    line.extend_from_slice(&available[..at + 1])?;
    input.consume(at + 1);
    Ok(true)
}

// Takes the operations of the line, or counts it where it spells none. What it spells stands in the vector after.
fn take_line<A: Allocator + Copy>(
    intake: &mut Intake<A>,
    line: &[u8],
    bytes: &mut Vec<u8, A>,
) -> Result<(), Fault>
    requires { intake.old.refused + 1 < 2 ^ 64 }
    ensures taken { OnOk result (intake.new.held ≡ union intake.old.held (set_of (taken_of_line line.now))) }
    ensures counted { OnOk result (intake.new.refused ≡ cond (is_refused line.now) (intake.old.refused + 1) intake.old.refused) }
    ensures kind { IfErr result (λ e. e ≡ Fault.OutOfMemory) }
{
    if !decode_text(line, bytes)? {
        intake.refused += 1;
        return Ok(());
    }
    if !take_bytes(&mut intake.held, bytes)? {
        intake.refused += 1;
    }
    Ok(())
}

// Takes the operations that the bytes spell, and says whether they are a delta.
fn take_bytes<A: Allocator + Copy>(held: &mut Holdings<A>, bytes: &[u8]) -> Result<bool, Fault>
    ensures taken { OnOk result (held.new ≡ union held.old (operations_of bytes.now)) }
    ensures spelled { IfOk result (λ is_delta. is_delta ≡ is_some (read_delta bytes.now)) }
    ensures kind { IfErr result (λ e. e ≡ Fault.OutOfMemory) }
{
    texts_are_read();
    match held.take(bytes) {
        Ok(_) => Ok(true),
        Err(TakeError::Version | TakeError::Refused) => Ok(false),
        Err(TakeError::OutOfMemory { done: _ }) => Err(Fault::OutOfMemory),
    }
}
