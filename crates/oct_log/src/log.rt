//! The lines of a log.

ghost use Rattle.std.specs.Prelude.{◌≡◌, ◌++◌, IfOk, OnOk};
ghost use Rattle.oct_log.specs.Log.{log_text, name_words, named_line};
ghost use Rattle.oct_ops.specs.Operations.{listed};

use crate::said::append_said;
use crate::wanted::Wanted;
use oct_ops::Op;
use oct_record::Record;
use oct_sheet::{name_in, names_by_author, naming_notes};
use oct_text::{append_dot, append_labelled_text, append_text};
use std::alloc::{AllocError, Allocator};

/// The log of those operations of a record that are wanted, in the order of operations: by author, then by number, and several
/// contents of one number one after another. A line has the dot, the name of the author in parentheses where it has one, and
/// what the operation says. It takes what a pass over the operations takes, and a look-up of a name for each line.
pub fn write_log<A: Allocator + Copy, B: Allocator>(
    said: &Record<A>,
    wanted: &Wanted<B>,
) -> Result<Vec<u8, A>, AllocError>
    ensures { IfOk result (λ text. text.items ≡ log_text wanted.now (listed said.now.ops)) }
{
    let notes = naming_notes(said)?;
    let names = names_by_author(said.allocator(), &notes)?;
    let mut text = Vec::new(said.allocator());
    for op in said.store().iter() {
        if wanted.has(op) {
            append_line(&mut text, name_in(&names, op.dot().author()), op)?;
        }
    }
    Ok(text)
}

/// Appends the line of an operation, whose author has this name.
pub(crate) fn append_line<A: Allocator, B: Allocator>(
    out: &mut Vec<u8, A>,
    name: &[u8],
    op: &Op<B>,
) -> Result<(), AllocError>
    ensures { OnOk result (out.new.items ≡ out.old.items ++ named_line name.now op.now) }
{
    append_dot(out, op.dot())?;
    append_name(out, name)?;
    append_text(out, b" ")?;
    append_said(out, op.body())?;
    append_text(out, b"\n")
}

/// Appends the name of an author behind its number, if it has one.
pub(crate) fn append_name<A: Allocator>(out: &mut Vec<u8, A>, name: &[u8]) -> Result<(), AllocError>
    ensures { OnOk result (out.new.items ≡ out.old.items ++ name_words name.now) }
{
    if name.is_empty() {
        return Ok(());
    }
    append_labelled_text(out, b" (", name)?;
    append_text(out, b")")
}
