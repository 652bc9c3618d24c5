//! What is found of a game as one line of JSON.

ghost use Rattle.std.specs.Prelude.{◌≡◌, ◌++◌, OnOk, Some};
ghost use Rattle.census_issue.specs.FoundObjects.{code_member, found_object, known_member, period_members};

use census_state::needs;
use oct_code::Code;
use oct_ops::Period;
use oct_text::{append_labelled, append_text};
use std::alloc::AllocError;

/// Appends the object of a game: which period is found, what proves it, and how many of its values are known.
pub(crate) fn append_found_object(
    text: &mut Vec<u8>,
    code: Code,
    found: &Option<Period>,
    known: u32,
) -> Result<(), AllocError>
    ensures { OnOk result (text.new.items ≡ text.old.items ++ found_object code found.now known) }
{
    append_code_member(text, code)?;
    append_period_members(text, found)?;
    append_known_member(text, known)
}

// Appends the beginning of an object, up to the end of the code.
fn append_code_member(text: &mut Vec<u8>, code: Code) -> Result<(), AllocError>
    ensures { OnOk result (text.new.items ≡ text.old.items ++ code_member code) }
{
    append_text(text, b"{\"code\":\"")?;
    code.append_text(text)
}

// Appends how many values are known, and the end of the object.
fn append_known_member(text: &mut Vec<u8>, known: u32) -> Result<(), AllocError>
    ensures { OnOk result (text.new.items ≡ text.old.items ++ known_member known) }
{
    append_labelled(text, b",\"known\":", known)?;
    append_text(text, b"}\n")
}

// Appends the end of the code, and what is found.
fn append_period_members(text: &mut Vec<u8>, found: &Option<Period>) -> Result<(), AllocError>
    ensures { OnOk result (text.new.items ≡ text.old.items ++ period_members found.now) }
{
    match found {
        Some(found) => append_seen_members(text, found),
        None => append_text(text, b"\",\"period\":null"),
    }
}

// Appends the end of the code, and a period, its start, and how many values prove it.
fn append_seen_members(text: &mut Vec<u8>, found: &Period) -> Result<(), AllocError>
    ensures { OnOk result (text.new.items ≡ text.old.items ++ period_members (Some found.now)) }
{
    append_labelled(text, b"\",\"period\":", found.period())?;
    append_labelled(text, b",\"from\":", found.start())?;
    append_labelled(text, b",\"needs\":", needs(found))
}
