//! How the values of a b-file compare with the nim-values of a game.

ghost use Rattle.std.specs.Prelude.{◌≡◌, ◌+◌, ◌≤◌, ◌++◌, Ok, Err, IfErr, IfOk, OnOk, length};
ghost use Rattle.oct_code.specs.declared.limits.TheConstants.{LIMIT};
ghost use Rattle.census_judge.specs.Checking.{correction_text, more_text, right_text};
ghost use Rattle.page.specs.Answers.{IsChecked};
ghost use Rattle.page.specs.Checked.{checked_lines, IsSeen, line_of, wrong_lines};

use census_state::{Fault, INPUT_LIMIT, read_code};
use oct_bfile::read_bfile;
use oct_mex::Values;
use oct_text::{append_labelled, append_text};
use std::alloc::{AllocError, Allocator};

// How many wrong values are shown.
const SHOWN: usize = 100;

/// What became of the values of a b-file.
pub(crate) fn check<A: Allocator + Copy>(
    alloc: A,
    code: &[u8],
    file: &[u8],
) -> Result<Vec<u8, A>, Fault>
    ensures ok { IfOk result (λ text. IsChecked code.now file.now (Ok text.items)) }
    ensures err { IfErr result (λ e. IsChecked code.now file.now (Err e)) }
{
    if file.len() as u64 > INPUT_LIMIT {
        return Err(Fault::TooLong);
    }
    let code = read_code(code)?;
    let file = read_bfile(alloc, file)?;
    let mut values = Values::new(alloc, code);
    values.extend_to(file.start as usize + file.values.len())?;
    Ok(checked_text(&values, file.start, &file.values, alloc)?)
}

// The text of the values of the heaps from `start` on.
fn checked_text<A: Allocator + Copy>(
    values: &Values<A>,
    start: u32,
    claimed: &[u32],
    alloc: A,
) -> Result<Vec<u8, A>, AllocError>
    requires known { start + length claimed.now ≤ values.now.len }
    requires within { start + length claimed.now ≤ LIMIT }
    ensures { IfOk result (λ text. text.items ≡ checked_lines (length claimed.now) (wrong_lines values.now.code start claimed.now)) }
{
    let mut text = Vec::new(alloc);
    let wrong = append_wrong(&mut text, values, start, claimed)?;
    if wrong == 0 {
        append_right(&mut text, claimed.len())?;
    } else if wrong > SHOWN {
        append_more(&mut text, wrong - SHOWN)?;
    }
    Ok(text)
}

// Appends the lines of the first wrong values, and says how many there are in all.
fn append_wrong<A: Allocator + Copy>(
    text: &mut Vec<u8, A>,
    values: &Values<A>,
    start: u32,
    claimed: &[u32],
) -> Result<usize, AllocError>
    requires known { start + length claimed.now ≤ values.now.len }
    requires within { start + length claimed.now ≤ LIMIT }
    ensures { IfOk result (λ wrong. IsSeen (wrong_lines values.now.code start claimed.now) text.old.items text.new.items wrong) }
{
    let mut wrong = 0usize;
    for (index, claimed) in claimed.iter().enumerate() {
        let heap = start as usize + index;
        let Some(right) = values.get(heap) else {
            unreachable!();
        };
        if *claimed != right {
            if wrong < SHOWN {
                append_line(text, heap, *claimed, right)?;
            }
            wrong += 1;
        }
    }
    Ok(wrong)
}

// Appends the line of a wrong value.
fn append_line<A: Allocator>(
    text: &mut Vec<u8, A>,
    heap: usize,
    claimed: u32,
    right: u32,
) -> Result<(), AllocError>
    ensures { OnOk result (text.new.items ≡ text.old.items ++ line_of heap claimed right) }
{
    append_labelled(text, b"heap ", heap)?;
    append_labelled(text, b": ", claimed)?;
    append_correction(text, right)
}

// Appends what the value should be.
fn append_correction<A: Allocator>(text: &mut Vec<u8, A>, right: u32) -> Result<(), AllocError>
    ensures { OnOk result (text.new.items ≡ text.old.items ++ correction_text right) }
{
    append_labelled(text, b" in the file, ", right)?;
    append_text(text, b" is right\n")
}

// Appends that so many values are all right.
fn append_right<A: Allocator>(text: &mut Vec<u8, A>, count: usize) -> Result<(), AllocError>
    ensures { OnOk result (text.new.items ≡ text.old.items ++ right_text count) }
{
    append_labelled(text, b"", count)?;
    append_text(text, b" values, all right\n")
}

// Appends how many more wrong values there are than are shown.
fn append_more<A: Allocator>(text: &mut Vec<u8, A>, count: usize) -> Result<(), AllocError>
    ensures { OnOk result (text.new.items ≡ text.old.items ++ more_text count) }
{
    append_labelled(text, b"and ", count)?;
    append_text(text, b" more\n")
}
