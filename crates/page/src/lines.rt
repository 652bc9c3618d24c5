//! A line of a text and a number.

ghost use Rattle.std.specs.Prelude.{◌≡◌, ◌++◌, OnOk};
ghost use Rattle.census_state.specs.Lines.{number_line};

use oct_text::{append_labelled, append_text};
use std::alloc::{AllocError, Allocator};

/// Appends the line of a text and a number.
pub(crate) fn append_line<A: Allocator>(
    text: &mut Vec<u8, A>,
    label: &[u8],
    number: u64,
) -> Result<(), AllocError>
    ensures { OnOk result (text.new.items ≡ text.old.items ++ number_line label.now number) }
{
    append_labelled(text, label, number)?;
    append_text(text, b"\n")
}
