//! Whether the values of a b-file are right, but stand at other heaps.

ghost use Rattle.std.specs.Prelude.{◌≡◌, ◌≢◌, ◌+◌, ◌≤◌, Ok, Err, IfOk, IfErr, length, min};
ghost use Rattle.oct_code.specs.declared.limits.TheConstants.{LIMIT};
ghost use Rattle.census_judge.specs.Shifts.{are_values, find_shift, is_early, is_late, shift_of};

use census_state::{Fault, read_code};
use oct_bfile::read_bfile;
use oct_code::LIMIT;
use oct_mex::Values;
use std::alloc::Global;

/// By how many heaps all values of a file are shifted.
#[derive(Clone, Copy, PartialEq, Eq)]
pub enum Shift {
    /// Each value is that of the heap which is so many larger.
    Early { by: u32 },
    /// Each value is that of the heap which is so many smaller.
    Late { by: u32 },
}

// Beyond the file's heaps so many more are computed.
const FARTHEST: usize = 2;

/// By which shift of one heap or two all values of a b-file are nim-values of the game of a code, which are computed; none
/// where they are so by no such shift. The smaller shift goes first, and of two alike the one to larger heaps, which are
/// all below `LIMIT`.
///
/// The first fault is answered: `Code`, then `Bfile`. `OutOfMemory` may come after the file was found to be a b-file.
pub fn find_shift(alloc: Global, code: &[u8], file: &[u8]) -> Result<Option<Shift>, Fault>
    ensures ok { IfOk result (λ found. find_shift code.now file.now ≡ Ok found) }
    ensures err { IfErr result (λ e. e ≢ Fault.OutOfMemory → find_shift code.now file.now ≡ Err e) }
{
    let code = read_code(code)?;
    let file = read_bfile(alloc, file)?;
    let mut values = Values::new(alloc, code);
    let end = file.start as usize + file.values.len() + FARTHEST;
    values.extend_to(end.min(LIMIT))?;
    Ok(shift_of(&values, file.start, &file.values))
}

// The first shift by which these are the nim-values of the heaps from `start` on.
fn shift_of(values: &Values<Global>, start: u32, claimed: &[u32]) -> Option<Shift>
    requires known { min (start + length claimed.now + FARTHEST) LIMIT ≤ values.now.len }
    requires within { start + length claimed.now ≤ LIMIT }
    ensures { result ≡ shift_of values.now.code start claimed.now }
{
    if is_early(values, start, claimed, 1) {
        return Some(Shift::Early { by: 1 });
    }
    if is_late(values, start, claimed, 1) {
        return Some(Shift::Late { by: 1 });
    }
    if is_early(values, start, claimed, 2) {
        return Some(Shift::Early { by: 2 });
    }
    if is_late(values, start, claimed, 2) {
        return Some(Shift::Late { by: 2 });
    }
    None
}

// Whether each is the nim-value of the heap so many larger.
fn is_early(values: &Values<Global>, start: u32, claimed: &[u32], by: u32) -> bool
    requires known { min (start + length claimed.now + FARTHEST) LIMIT ≤ values.now.len }
    requires within { start + length claimed.now ≤ LIMIT }
    requires near { by ≤ FARTHEST }
    ensures { result ≡ is_early values.now.code start claimed.now by }
{
    start as usize + by as usize + claimed.len() <= LIMIT && are_values(values, start + by, claimed)
}

// Whether each is the nim-value of the heap so many smaller.
fn is_late(values: &Values<Global>, start: u32, claimed: &[u32], by: u32) -> bool
    requires known { min (start + length claimed.now + FARTHEST) LIMIT ≤ values.now.len }
    requires within { start + length claimed.now ≤ LIMIT }
    ensures { result ≡ is_late values.now.code start claimed.now by }
{
    by <= start && are_values(values, start - by, claimed)
}

// Whether these are the nim-values of the heaps from `heap` on.
fn are_values(values: &Values<Global>, heap: u32, claimed: &[u32]) -> bool
    requires known { heap + length claimed.now ≤ values.now.len }
    requires within { heap + length claimed.now ≤ LIMIT }
    ensures { result ≡ are_values values.now.code heap claimed.now }
{
    for (index, claimed) in claimed.iter().enumerate() {
        let Some(right) = values.get(heap as usize + index) else {
            unreachable!();
        };
        if *claimed != right {
            return false;
        }
    }
    true
}
