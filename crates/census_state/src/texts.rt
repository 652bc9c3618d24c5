//! Lines that commands over a state print.

ghost use Rattle.std.specs.Prelude.{◌≡◌, IfOk};
ghost use Rattle.census_state.specs.Lines.{number_line, renumbered_line, union_line};

use oct_text::{append_labelled, append_text};
use std::alloc::{AllocError, Global};

/// The line of a text and a number.
pub fn number_line(alloc: Global, label: &[u8], number: u64) -> Result<Vec<u8>, AllocError>
    ensures { IfOk result (λ line. line.items ≡ number_line label.now number) }
{
    let mut line = Vec::new(alloc);
    append_labelled(&mut line, label, number)?;
    append_text(&mut line, b"\n")?;
    Ok(line)
}

/// The line of a union: how many operations are new, and how many there are.
pub fn union_line(alloc: Global, new: usize, all: usize) -> Result<Vec<u8>, AllocError>
    ensures { IfOk result (λ line. line.items ≡ union_line new all) }
{
    let mut line = Vec::new(alloc);
    append_labelled(&mut line, b"new ", new)?;
    append_labelled(&mut line, b" operations ", all)?;
    append_text(&mut line, b"\n")?;
    Ok(line)
}

/// The line of a state that goes on under another author: the old one, and the new one.
pub fn renumbered_line(alloc: Global, old: u32, new: u32) -> Result<Vec<u8>, AllocError>
    ensures { IfOk result (λ line. line.items ≡ renumbered_line old new) }
{
    let mut line = Vec::new(alloc);
    append_labelled(&mut line, b"author ", old)?;
    append_labelled(&mut line, b" renumbered ", new)?;
    append_text(&mut line, b"\n")?;
    Ok(line)
}
