//! The lines of notes.
#![tactic(auto, using(oct_ops::proofs::Growing::growing))]

ghost use Rattle.std.specs.Prelude.{◌≡◌, ◌++◌, map, OnOk};
ghost use Rattle.oct_notes.specs.Notes.{live_notes};
ghost use Rattle.oct_ops.specs.Operations.{listed};
ghost use Rattle.oct_pages.specs.Catalogue.{note_line, note_text};
ghost use Rattle.oct_ops.specs.Growth.{Extends};
ghost use Rattle.oct_pages.specs.Pager.{AreShown};

use crate::line::{Line, show_each};
use crate::pager::Pager;
use oct_notes::Notes;
use oct_ops::{Body, Dot, Note, Op};
use oct_text::{append_labelled_dot, append_labelled_text, append_text};
use std::alloc::{AllocError, Allocator};

/// Appends what is shown of the lines of the live notes.
pub(crate) fn append_notes<A: Allocator + Copy>(
    out: &mut Vec<u8, A>,
    pager: &mut Pager,
    notes: &Notes<A>,
) -> Result<(), AllocError>
    ensures ok { OnOk result (AreShown pager.old pager.new out.old.items out.new.items (map note_line (live_notes (listed notes.now)))) }
    ensures grown { Extends out.old.items out.new.items }
{
    let live = notes.live_refs()?;
    show_each(out, pager, &live)
}

impl<B: Allocator> Line for &Op<B> {
    ghost spelled = { λ o. note_line o.now };

    fn append<A: Allocator>(&self, out: &mut Vec<u8, A>) -> Result<(), AllocError> {
        match self.body() {
            Body::Note(note) => append_note(out, self.dot(), note),
            _ => Ok(()),
        }
    }
}

// Appends the line of a note.
fn append_note<A: Allocator, B: Allocator>(
    out: &mut Vec<u8, A>,
    dot: Dot,
    note: &Note<B>,
) -> Result<(), AllocError>
    ensures ok { OnOk result (out.new.items ≡ out.old.items ++ note_text dot note.now) }
    ensures grown { Extends out.old.items out.new.items }
{
    append_labelled_text(out, b"note ", note.name())?;
    append_labelled_dot(out, b" ", dot)?;
    append_labelled_text(out, b" ", note.text())?;
    append_text(out, b"\n")
}
