//! How a text is left with the page.

ghost use Rattle.std.specs.Prelude.{◌≡◌, ◌⊎◌, ◌≤◌, Ok, Err, IfErr, IfOk, string_bytes};
ghost use Rattle.census_state.specs.FaultTexts.{fault_text};
ghost use Rattle.page.specs.Telling.{IsLeft, IsTold};

use census_state::Fault;
use std::alloc::{AllocError, Allocator};

/// Leaves the answer: its text and 0, or the words of the fault and its number. Where there is no memory for the words, that is
/// the fault.
pub(crate) fn tell<A: Allocator + Copy>(
    alloc: A,
    answer: &Result<Vec<u8, A>, Fault>,
    out: &mut [u8],
    whole: &mut u64,
) -> u32
    ensures ok { IfOk answer.now (λ text. IsTold (Ok text.items) result out.old out.new whole.new) }
    ensures err { IfErr answer.now (λ e. IsTold (Err e) result out.old out.new whole.new ⊎ IsTold (Err Fault.OutOfMemory) result out.old out.new whole.new) }
{
    match answer {
        Ok(text) => leave(0, text, out, whole),
        Err(fault) => tell_fault(alloc, *fault, out, whole),
    }
}

/// Leaves the answer about a file, of which so many lines are left out; after a fault that is 0.
pub(crate) fn tell_lines<A: Allocator + Copy>(
    alloc: A,
    answer: &Result<Vec<u8, A>, Fault>,
    out: &mut [u8],
    whole: &mut u64,
    left_out: &mut u64,
) -> u32
    ensures ok { IfOk answer.now (λ text. IsTold (Ok text.items) result out.old out.new whole.new) }
    ensures err { IfErr answer.now (λ e. IsTold (Err e) result out.old out.new whole.new ⊎ IsTold (Err Fault.OutOfMemory) result out.old out.new whole.new) }
    ensures kept { result ≡ 0 → left_out.new ≡ left_out.old }
    ensures none { 1 ≤ result → left_out.new ≡ 0 }
{
    let number = tell(alloc, answer, out, whole);
    if number > 0 {
        *left_out = 0;
    }
    number
}

// Leaves the words of a fault and its number.
fn tell_fault<A: Allocator>(alloc: A, fault: Fault, out: &mut [u8], whole: &mut u64) -> u32
    ensures { IsTold (Err fault) result out.old out.new whole.new ⊎ IsTold (Err Fault.OutOfMemory) result out.old out.new whole.new }
{
    match words_of(alloc, fault) {
        Ok(words) => leave(u32::from(fault.status()), words.as_bytes(), out, whole),
        Err(AllocError) => tell_no_memory(out, whole),
    }
}

// The words of a fault.
fn words_of<A: Allocator>(alloc: A, fault: Fault) -> Result<String<A>, AllocError>
    ensures { IfOk result (λ words. string_bytes words ≡ fault_text fault) }
{
    format!(in alloc; "{fault}")
}

/// Leaves that memory is refused.
pub(crate) fn tell_no_memory(out: &mut [u8], whole: &mut u64) -> u32
    ensures { IsTold (Err Fault.OutOfMemory) result out.old out.new whole.new }
{
    leave(4, b"OutOfMemory", out, whole)
}

// Leaves a text, as much of it as fits, how many bytes it has, and a number.
fn leave(number: u32, text: &[u8], out: &mut [u8], whole: &mut u64) -> u32
    ensures { IsLeft number text.now result out.old out.new whole.new }
{
    *whole = text.len() as u64;
    let fits = text.len().min(out.len());
    out[..fits].copy_from_slice(&text[..fits]);
    number
}
