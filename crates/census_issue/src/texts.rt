//! The lines of operations that were issued, and of the game that they are of.

ghost use Rattle.std.specs.Prelude.{◌≡◌, ◌++◌, IfOk, OnOk, Some};
ghost use Rattle.census_issue.specs.Claiming.{claimed_line, range_line};
ghost use Rattle.census_issue.specs.Extending.{extended_line};
ghost use Rattle.census_issue.specs.Finding.{found_line};
ghost use Rattle.census_issue.specs.Issuing.{issued_line};

use census_state::{append_period, append_vain_line};
use oct_code::Code;
use oct_ops::{Dot, Period};
use oct_text::{append_dot, append_labelled, append_labelled_dot, append_text};
use std::alloc::{AllocError, Global};

/// The line of an operation that was issued.
pub(crate) fn issued_line(alloc: Global, dot: Dot) -> Result<Vec<u8>, AllocError>
    ensures { IfOk result (λ line. line.items ≡ issued_line dot) }
{
    let mut line = Vec::new(alloc);
    append_labelled_dot(&mut line, b"issued ", dot)?;
    append_text(&mut line, b"\n")?;
    Ok(line)
}

/// The line of the operations that were issued, from the first to the last.
pub(crate) fn claimed_line(
    alloc: Global,
    first: Option<Dot>,
    last: Option<Dot>,
) -> Result<Vec<u8>, AllocError>
    ensures { IfOk result (λ line. line.items ≡ claimed_line first last) }
{
    match (first, last) {
        (Some(first), Some(last)) => range_line(alloc, first, last),
        _ => Ok(Vec::new(alloc)),
    }
}

// The same, where there are some.
fn range_line(alloc: Global, first: Dot, last: Dot) -> Result<Vec<u8>, AllocError>
    ensures { IfOk result (λ line. line.items ≡ range_line first last) }
{
    if first.number() == last.number() {
        return issued_line(alloc, first);
    }
    let mut line = Vec::from_slice(alloc, b"issued ")?;
    append_dot(&mut line, first)?;
    append_labelled_dot(&mut line, b" to ", last)?;
    line.extend_from_slice(b"\n")?;
    Ok(line)
}

/// The line of a game: how many of its values are known, and how many blocks were issued.
pub(crate) fn extended_line(
    alloc: Global,
    code: Code,
    known: u32,
    issued: u32,
) -> Result<Vec<u8>, AllocError>
    ensures { IfOk result (λ line. line.items ≡ extended_line code known issued) }
{
    let mut line = Vec::new(alloc);
    code.append_text(&mut line)?;
    append_labelled(&mut line, b" known ", known)?;
    append_labelled(&mut line, b" issued ", issued)?;
    append_text(&mut line, b"\n")?;
    Ok(line)
}

/// Appends the line of a game: which period is found, what proves it, and how many of its values are known.
pub(crate) fn append_found(
    text: &mut Vec<u8>,
    code: Code,
    found: &Option<Period>,
    known: u32,
) -> Result<(), AllocError>
    ensures { OnOk result (text.new.items ≡ text.old.items ++ found_line code found.now known) }
{
    match found {
        Some(found) => append_known_period(text, code, found, known),
        None => append_vain_line(text, code, u64::from(known)),
    }
}

// Appends the line of a game of which a period is found.
fn append_known_period(
    text: &mut Vec<u8>,
    code: Code,
    found: &Period,
    known: u32,
) -> Result<(), AllocError>
    ensures { OnOk result (text.new.items ≡ text.old.items ++ found_line code (Some found.now) known) }
{
    code.append_text(text)?;
    append_period(text, found)?;
    append_labelled(text, b" known ", known)?;
    append_text(text, b"\n")
}
