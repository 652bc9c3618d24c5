//! b-files: texts that list the values of a sequence, a line to each.
#![tactic(auto, using(oct_ops::proofs::Growing::growing))]

ghost use Rattle.std.specs.Prelude.{◌≡◌, ◌≢◌, ◌+◌, ◌<◌, ◌≤◌, ◌++◌, Ok, Err, Some, None, length, IfErr, IfOk, IsErrOf, IsOk, OnErr, OnOk};
ghost use Rattle.oct_ops.specs.Growth.{Extends};
ghost use Rattle.oct_bfile.specs.Bfile.{bfile_of, bfile_text, row_fault, row_text, row_values};

use crate::bfile_error::BfileError;
use crate::bfile_line::{BfileLine, line_of};
use crate::splitting::next_line;
use itoa::write_digits;
use oct_code::LIMIT;
use oct_text::append_text;
use std::alloc::{AllocError, Allocator};

/// The values that a b-file lists.
#[derive(Drop)]
pub struct Bfile<A: Allocator> {
    /// The number of the first value.
    pub start: u32,
    /// The values, one or more: that of `start`, of `start + 1`, and so on.
    pub values: Vec<u32, A>,
}

/// Appends the b-file of values from number 0 on: for each a line with its number, a space and the value. The one error is
/// that memory is refused, and then `out` stays as it is.
pub fn write_bfile<A: Allocator>(values: &[u32], out: &mut Vec<u8, A>) -> Result<(), AllocError>
    ensures ok { OnOk result (out.new.items ≡ out.old.items ++ bfile_text values.now) }
    ensures err { OnErr result (out.new.items ≡ out.old.items) }
{
    let before = out.len();
    let written = append_rows(out, values);
    if written.is_err() {
        out.truncate(before);
    }
    written
}

// Appends the lines of the values.
fn append_rows<A: Allocator>(out: &mut Vec<u8, A>, values: &[u32]) -> Result<(), AllocError>
    ensures ok { OnOk result (out.new.items ≡ out.old.items ++ bfile_text values.now) }
    ensures grown { Extends out.old.items out.new.items }
{
    for (number, value) in values.iter().enumerate() {
        append_row(out, number, *value)?;
    }
    Ok(())
}

// How many bytes the line of a value takes at most: a number of 64 bits, a space, one of 32 bits, and a line feed.
const LINE: usize = 32;

// Appends the line of a value. It is written from its end, and appended at once.
fn append_row<A: Allocator>(
    out: &mut Vec<u8, A>,
    number: usize,
    value: u32,
) -> Result<(), AllocError>
    ensures ok { OnOk result (out.new.items ≡ out.old.items ++ row_text number value) }
    ensures grown { Extends out.old.items out.new.items }
{
    let mut line = [b'\n'; LINE];
    let value_start = write_digits(u64::from(value), &mut line, LINE - 1);
    line[value_start - 1] = b' ';
    let start = write_digits(number as u64, &mut line, value_start - 1);
    append_text(out, &line[start..])
}

/// The values that a text lists, as `specs/Bfile` says. Lines end by LF, CR LF or CR; spaces and tabs at either end of a line
/// are passed over. A line that has nothing else, or then begins with `#`, says nothing. Any other line has two whole numbers
/// below 2^32 in decimal digits, with spaces or tabs between: a number, which rises by one from such line to the next and
/// stays below `LIMIT`, and its value. A refusal names the first faulty line. The text is checked as a whole before memory is
/// asked for, so `OutOfMemory` comes only where it has no fault.
pub fn read_bfile<A: Allocator>(alloc: A, bytes: &[u8]) -> Result<Bfile<A>, BfileError>
    ensures ok { IfOk result (λ file. bfile_of bytes.now ≡ Ok (record { start = file.start; values = file.values.items })) }
    ensures some { IfOk result (λ file. 1 ≤ length file.values.items) }
    ensures within { IfOk result (λ file. file.start + length file.values.items ≤ LIMIT) }
    ensures err { IfErr result (λ e. e ≢ BfileError.OutOfMemory → bfile_of bytes.now ≡ Err e) }
    ensures memory { IsErrOf result BfileError.OutOfMemory → IsOk (bfile_of bytes.now) }
{
    let start = check_lines(bytes)?;
    let Ok(values) = row_values(alloc, bytes) else {
        return Err(BfileError::OutOfMemory);
    };
    Ok(Bfile { start, values })
}

// The number of the first row, or the first fault of the text.
fn check_lines(bytes: &[u8]) -> Result<u32, BfileError>
    ensures ok { IfOk result (λ start. bfile_of bytes.now ≡ Ok (record { start = start; values = row_values bytes.now })) }
    ensures some { OnOk result (1 ≤ length (row_values bytes.now)) }
    ensures within { IfOk result (λ start. start + length (row_values bytes.now) ≤ LIMIT) }
    ensures err { IfErr result (λ e. bfile_of bytes.now ≡ Err e) }
    ensures named { ¬ IsErrOf result BfileError.OutOfMemory }
{
    let mut start = None;
    let mut due = None;
    let mut line = 1;
    let mut rest = bytes;
    while let Some((text, behind)) = next_line(rest) {
        match line_of(text) {
            BfileLine::Skipped => {}
            BfileLine::Faulty => return Err(BfileError::Form { line }),
            BfileLine::Row { number, .. } => {
                check_row(line, due, number)?;
                start = start.or(Some(number));
                due = Some(number + 1);
            }
        }
        line += 1;
        rest = behind;
    }
    start.ok_or(BfileError::Empty)
}

// The values of the rows of a text.
fn row_values<A: Allocator>(alloc: A, bytes: &[u8]) -> Result<Vec<u32, A>, AllocError>
    ensures { IfOk result (λ values. values.items ≡ row_values bytes.now) }
{
    let mut values = Vec::new(alloc);
    let mut rest = bytes;
    while let Some((text, behind)) = next_line(rest) {
        if let BfileLine::Row { value, .. } = line_of(text) {
            values.push(value)?;
        }
        rest = behind;
    }
    Ok(values)
}

// Refuses the number of a row that is not the one that is due, if one is, or that is past the limit.
fn check_row(line: usize, due: Option<u32>, number: u32) -> Result<(), BfileError>
    ensures ok { OnOk result (row_fault line due number ≡ None) }
    ensures within { OnOk result (number < LIMIT) }
    ensures err { IfErr result (λ e. row_fault line due number ≡ Some e) }
    ensures named { ¬ IsErrOf result BfileError.OutOfMemory }
{
    if due.is_some_and(|due| due != number) {
        return Err(BfileError::Order { line });
    }
    if number as usize >= LIMIT {
        return Err(BfileError::PastLimit { line });
    }
    Ok(())
}
