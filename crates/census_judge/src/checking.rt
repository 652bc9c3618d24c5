//! How the values of a b-file compare with the nim-values of a game.

ghost use Rattle.std.specs.Prelude.{◌≡◌, ◌≢◌, ◌+◌, ◌-◌, ◌<◌, ◌≤◌, ◌++◌, Ok, Err, IfOk, IfErr, OnOk, length, take};
ghost use Rattle.std.specs.List.{flat_map};
ghost use Rattle.oct_code.specs.declared.limits.TheConstants.{LIMIT};
ghost use Rattle.census_judge.specs.Checking.{check, checked_text, correction_text, more_text, right_text, wrong_line, wrong_values};

use census_state::{Fault, read_code};
use oct_bfile::read_bfile;
use oct_mex::Values;
use oct_text::{append_labelled, append_text};
use std::alloc::{AllocError, Global};

/// What a file of values came to.
#[derive(Drop)]
pub struct Checked {
    /// How many of its values are wrong.
    pub wrong: usize,
    /// The text that says so.
    pub text: Vec<u8>,
}

/// A value of a file that is not the nim-value of its heap.
#[derive(Clone, Copy)]
pub(crate) struct Wrong {
    heap: u32,
    claimed: u32,
    right: u32,
}

// How many wrong values are shown.
const SHOWN: usize = 100;

/// Compares the values of a b-file with the nim-values of the game of a code, which are computed. The text has a line for each
/// wrong value, the first 100 of them, and says how many more there are; or that all are right. No state is read, and nothing is
/// issued.
///
/// The first fault is answered: `Code`, then `Bfile`. `OutOfMemory` may come after the file was found to be a b-file.
pub fn check(alloc: Global, code: &[u8], file: &[u8]) -> Result<Checked, Fault>
    ensures ok { IfOk result (λ done. check code.now file.now ≡ Ok (record { wrong = done.wrong; text = done.text.items })) }
    ensures err { IfErr result (λ e. e ≢ Fault.OutOfMemory → check code.now file.now ≡ Err e) }
{
    let code = read_code(code)?;
    let file = read_bfile(alloc, file)?;
    let mut values = Values::new(alloc, code);
    values.extend_to(file.start as usize + file.values.len())?;
    let wrong = wrong_values(alloc, &values, file.start, &file.values)?;
    let text = checked_text(alloc, file.values.len(), &wrong)?;
    Ok(Checked {
        wrong: wrong.len(),
        text,
    })
}

// Those of the values of the heaps from `start` on that are no nim-values.
fn wrong_values(
    alloc: Global,
    values: &Values<Global>,
    start: u32,
    claimed: &[u32],
) -> Result<Vec<Wrong>, AllocError>
    requires known { start + length claimed.now ≤ values.now.len }
    requires within { start + length claimed.now ≤ LIMIT }
    ensures { IfOk result (λ wrong. wrong.items ≡ wrong_values values.now.code start claimed.now) }
{
    let mut wrong = Vec::new(alloc);
    for (index, claimed) in claimed.iter().enumerate() {
        let heap = start + index as u32;
        let Some(right) = values.get(heap as usize) else {
            unreachable!();
        };
        if *claimed != right {
            wrong.push(Wrong {
                heap,
                claimed: *claimed,
                right,
            })?;
        }
    }
    Ok(wrong)
}

// The text of so many values, of which these are wrong.
fn checked_text(alloc: Global, count: usize, wrong: &[Wrong]) -> Result<Vec<u8>, AllocError>
    ensures { IfOk result (λ text. text.items ≡ checked_text count wrong.now) }
{
    if wrong.is_empty() {
        return all_right(alloc, count);
    }
    if wrong.len() > SHOWN {
        return first_wrong(alloc, wrong);
    }
    let mut text = Vec::new(alloc);
    append_wrong(&mut text, wrong)?;
    Ok(text)
}

// The text of so many values that are right.
fn all_right(alloc: Global, count: usize) -> Result<Vec<u8>, AllocError>
    ensures { IfOk result (λ text. text.items ≡ right_text count) }
{
    let mut text = Vec::new(alloc);
    append_labelled(&mut text, b"", count)?;
    append_text(&mut text, b" values, all right\n")?;
    Ok(text)
}

// The lines of the first wrong values, and how many more there are.
fn first_wrong(alloc: Global, wrong: &[Wrong]) -> Result<Vec<u8>, AllocError>
    requires { SHOWN < length wrong.now }
    ensures { IfOk result (λ text. text.items ≡ flat_map wrong_line (take SHOWN wrong.now) ++ more_text (length wrong.now - SHOWN)) }
{
    let mut text = Vec::new(alloc);
    append_wrong(&mut text, wrong.split_at(SHOWN).0)?;
    append_labelled(&mut text, b"and ", wrong.len() - SHOWN)?;
    append_text(&mut text, b" more\n")?;
    Ok(text)
}

// Appends the lines of wrong values.
fn append_wrong(text: &mut Vec<u8>, wrong: &[Wrong]) -> Result<(), AllocError>
    ensures { OnOk result (text.new.items ≡ text.old.items ++ flat_map wrong_line wrong.now) }
{
    for one in wrong {
        append_line(text, one)?;
    }
    Ok(())
}

// Appends the line of a wrong value.
fn append_line(text: &mut Vec<u8>, wrong: &Wrong) -> Result<(), AllocError>
    ensures { OnOk result (text.new.items ≡ text.old.items ++ wrong_line wrong.now) }
{
    append_labelled(text, b"heap ", wrong.heap)?;
    append_labelled(text, b": ", wrong.claimed)?;
    append_correction(text, wrong.right)
}

// Appends what the value should be.
fn append_correction(text: &mut Vec<u8>, right: u32) -> Result<(), AllocError>
    ensures { OnOk result (text.new.items ≡ text.old.items ++ correction_text right) }
{
    append_labelled(text, b" in the file, ", right)?;
    append_text(text, b" is right\n")
}
