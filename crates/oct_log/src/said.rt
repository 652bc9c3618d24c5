//! What an operation says, in words.

ghost use Rattle.std.specs.Prelude.{◌≡◌, ◌++◌, OnOk};
ghost use Rattle.oct_log.specs.Log.{block_words, dots_words, note_words, period_words, said_text};
ghost use Rattle.oct_ops.specs.Views.{content};

use oct_ops::{Block, Body, Dot, Note, Period};
use oct_text::{append_labelled, append_labelled_dot, append_labelled_text, append_text};
use std::alloc::{AllocError, Allocator};

/// Appends what an operation says: `block 0.77 at 1 count 199` of a block from heap 1 on, `period 0.77 71 12` of the claim of
/// the period 12 from heap 71 on, `note NAME TEXT` of a note, and `takes back` with the dots of a removal.
pub fn append_said<A: Allocator, B: Allocator>(
    out: &mut Vec<u8, A>,
    body: &Body<B>,
) -> Result<(), AllocError>
    ensures { OnOk result (out.new.items ≡ out.old.items ++ said_text (content body.now)) }
{
    match body {
        Body::Block(block) => append_block(out, block),
        Body::Period(claim) => append_period(out, claim),
        Body::Note(note) => append_note(out, note),
        Body::Removal(removal) => append_dots(out, removal.dots()),
    }
}

// Appends where a block begins, and how many values it claims.
fn append_block<A: Allocator, B: Allocator>(
    out: &mut Vec<u8, A>,
    block: &Block<B>,
) -> Result<(), AllocError>
    ensures { OnOk result (out.new.items ≡ out.old.items ++ block_words block.now) }
{
    append_text(out, b"block ")?;
    block.code().append_text(out)?;
    append_labelled(out, b" at ", block.start())?;
    append_labelled(out, b" count ", block.values().len())
}

// Appends a claim, as the command `period` takes it.
fn append_period<A: Allocator>(out: &mut Vec<u8, A>, claim: &Period) -> Result<(), AllocError>
    ensures { OnOk result (out.new.items ≡ out.old.items ++ period_words claim.now) }
{
    append_text(out, b"period ")?;
    claim.code().append_text(out)?;
    append_labelled(out, b" ", claim.start())?;
    append_labelled(out, b" ", claim.period())
}

// Appends the name and the text of a note.
fn append_note<A: Allocator, B: Allocator>(
    out: &mut Vec<u8, A>,
    note: &Note<B>,
) -> Result<(), AllocError>
    ensures { OnOk result (out.new.items ≡ out.old.items ++ note_words note.now) }
{
    append_labelled_text(out, b"note ", note.name())?;
    append_labelled_text(out, b" ", note.text())
}

// Appends the dots of the notes that are taken back.
fn append_dots<A: Allocator>(out: &mut Vec<u8, A>, dots: &[Dot]) -> Result<(), AllocError>
    ensures { OnOk result (out.new.items ≡ out.old.items ++ dots_words dots.now) }
{
    append_text(out, b"takes back")?;
    for dot in dots {
        append_labelled_dot(out, b" ", *dot)?;
    }
    Ok(())
}
