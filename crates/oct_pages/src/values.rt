//! The lines of a game's values.
#![tactic(auto, using(oct_ops::proofs::Growing::growing))]

ghost use Rattle.std.specs.Prelude.{◌≡◌, ◌*◌, ◌<◌, ◌^◌, ◌++◌, ◌∷◌, [], OnOk, length};
ghost use Rattle.std.specs.List.{flat_map};
ghost use Rattle.oct_pages.specs.Catalogue.{value_text, values_per_line, values_text, values_line, values_lines};
ghost use Rattle.oct_ops.specs.Growth.{Extends};
ghost use Rattle.oct_pages.specs.Pager.{AreShown};

use crate::pager::Pager;
use oct_text::{append_labelled, append_text};
use std::alloc::{AllocError, Allocator};

// How many values stand in a line.
const VALUES_PER_LINE: usize = 16;

/// Appends what is shown of the lines of all values, which are those of the heaps from 0 on.
pub(crate) fn append_values<A: Allocator>(
    out: &mut Vec<u8, A>,
    pager: &mut Pager,
    values: &[u32],
) -> Result<(), AllocError>
    requires { length values.now < 2 ^ 32 }
    ensures ok { OnOk result (AreShown pager.old pager.new out.old.items out.new.items (values_lines values.now)) }
    ensures grown { Extends out.old.items out.new.items }
{
    for line in 0..values.len().div_ceil(VALUES_PER_LINE) {
        show_values(out, pager, values, line)?;
    }
    Ok(())
}

// Appends the line of this number, counted from 0, where it is shown.
fn show_values<A: Allocator>(
    out: &mut Vec<u8, A>,
    pager: &mut Pager,
    values: &[u32],
    line: usize,
) -> Result<(), AllocError>
    requires few { length values.now < 2 ^ 32 }
    requires within { values_per_line * line < length values.now }
    ensures ok { OnOk result (AreShown pager.old pager.new out.old.items out.new.items (values_line values.now line ∷ [])) }
    ensures grown { Extends out.old.items out.new.items }
{
    if !pager.pass() {
        return Ok(());
    }
    append_values_line(out, values, line)
}

// Appends the line of this number, counted from 0.
fn append_values_line<A: Allocator>(
    out: &mut Vec<u8, A>,
    values: &[u32],
    line: usize,
) -> Result<(), AllocError>
    requires few { length values.now < 2 ^ 32 }
    requires within { values_per_line * line < length values.now }
    ensures ok { OnOk result (out.new.items ≡ out.old.items ++ values_line values.now line) }
    ensures grown { Extends out.old.items out.new.items }
{
    let first = VALUES_PER_LINE * line;
    let rest = &values[first..];
    append_row(out, first as u32, &rest[..rest.len().min(VALUES_PER_LINE)])
}

// Appends the place of the first value, and then the values.
fn append_row<A: Allocator>(
    out: &mut Vec<u8, A>,
    first: u32,
    values: &[u32],
) -> Result<(), AllocError>
    ensures ok { OnOk result (out.new.items ≡ out.old.items ++ values_text first values.now) }
    ensures grown { Extends out.old.items out.new.items }
{
    append_labelled(out, b"values ", first)?;
    append_each_value(out, values)?;
    append_text(out, b"\n")
}

// Appends each value after a space.
fn append_each_value<A: Allocator>(out: &mut Vec<u8, A>, values: &[u32]) -> Result<(), AllocError>
    ensures ok { OnOk result (out.new.items ≡ out.old.items ++ flat_map value_text values.now) }
    ensures grown { Extends out.old.items out.new.items }
{
    for value in values {
        append_labelled(out, b" ", *value)?;
    }
    Ok(())
}
