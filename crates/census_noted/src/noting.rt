//! The notes of periods in what was said.

ghost use Rattle.std.specs.Prelude.{◌≡◌, ◌≢◌, None, Some, IfOk, IfErr, OnErr, OnOk, false, map};
ghost use Rattle.std.specs.List.{list_any};
ghost use Rattle.oct_notes.specs.Notes.{name_of};
ghost use Rattle.oct_ops.specs.Faults.{note_fault};
ghost use Rattle.oct_ops.specs.Operation.{noted};
ghost use Rattle.oct_ops.specs.Operations.{insert};
ghost use Rattle.oct_ops.specs.Views.{content};
ghost use Rattle.oct_record.specs.Taking.{has_number};
ghost use Rattle.oct_said.specs.Noting.{text_of};
ghost use Rattle.census_noted.specs.Noting.{has_note, next_note, noted_dot, period_notes, says, with_note, IsNoteFault};

use oct_code::Code;
use oct_mex::SeenPeriod;
use oct_ops::{Body, Dot, Note, Op};
use oct_record::{IssueError, Record};
use oct_said::{PeriodNote, note_name, period_notes_among, period_text};
use std::alloc::{AllocError, Allocator};

/// The live notes whose names are those of notes of games' periods, by name and then in the order of operations.
pub fn period_notes<A: Allocator + Copy>(said: &Record<A>) -> Result<Vec<PeriodNote, A>, AllocError>
    ensures { IfOk result (λ notes. notes.items ≡ period_notes said.now.ops) }
{
    let live = said.notes().live_refs()?;
    period_notes_among(said.allocator(), &live)
}

/// Issues the note of a game's period under the author's next number, and answers its dot; where a live note says the same
/// already, nothing changes, and there is none. The error is `LastNumber` where there is no further number, or `OutOfMemory`; then
/// nothing changes.
pub fn note_period<A: Allocator + Copy>(
    said: &mut Record<A>,
    code: Code,
    seen: SeenPeriod,
) -> Result<Option<Dot>, IssueError>
    ensures dot { IfOk result (λ dot. dot ≡ noted_dot said.old code seen) }
    ensures ok { OnOk result (said.new ≡ with_note said.old code seen) }
    ensures err { OnErr result (said.new ≡ said.old) }
    ensures fault { IfErr result (IsNoteFault said.old code seen) }
{
    prove!(code.len() <= 16);
    prove!(seen.start <= usize::MAX);
    prove!(seen.period <= usize::MAX);
    let alloc = said.allocator();
    let Ok(name) = note_name(alloc, code) else {
        return Err(IssueError::OutOfMemory);
    };
    let Ok(text) = period_text(alloc, code, seen) else {
        return Err(IssueError::OutOfMemory);
    };
    match is_noted(said, &name, &text) {
        Ok(true) => Ok(None),
        Ok(false) => issue(said, valid_note(alloc, &name, &text)?),
        Err(AllocError) => Err(IssueError::OutOfMemory),
    }
}

// Issues a note.
fn issue<A: Allocator + Copy>(
    said: &mut Record<A>,
    note: Note<A>,
) -> Result<Option<Dot>, IssueError>
    ensures dot { IfOk result (λ dot. dot ≡ Some (next_note said.old note).dot) }
    ensures ok { OnOk result (said.new ≡ record said.old { ops = insert said.old.ops (next_note said.old note) }) }
    ensures err { OnErr result (said.new ≡ said.old) }
    ensures fault { IfErr result (λ e. e ≢ IssueError.OutOfMemory → has_number said.old.ops said.old.author ≡ false) }
{
    match said.issue(Body::Note(note)) {
        Ok(dot) => Ok(Some(dot)),
        Err((refused, _)) => Err(refused),
    }
}

// Whether a live note has this name and says this.
fn is_noted<A: Allocator + Copy>(
    said: &Record<A>,
    name: &[u8],
    text: &[u8],
) -> Result<bool, AllocError>
    ensures { IfOk result (λ noted. noted ≡ has_note name.now text.now said.now.ops) }
{
    let live = said.notes().live_refs()?;
    Ok(are_any(&live, name, text))
}

// Whether one of the notes has this name and says this.
fn are_any<A: Allocator>(live: &[&Op<A>], name: &[u8], text: &[u8]) -> bool
    ensures { result ≡ list_any (says name.now text.now) (map (λ op. op.now) live.now) }
{
    for op in live {
        if says(op, name, text) {
            return true;
        }
    }
    false
}

// Whether it is a note of this name that says this.
fn says<A: Allocator>(op: &Op<A>, name: &[u8], text: &[u8]) -> bool
    ensures { result ≡ says name.now text.now op.now }
{
    name_of(op.body()) == name && text_of(op.body()) == text
}

// The note of this name and this text, which have no fault.
fn valid_note<A: Allocator>(alloc: A, name: &[u8], text: &[u8]) -> Result<Note<A>, IssueError>
    requires { note_fault (noted name.now text.now) ≡ None }
    ensures ok { IfOk result (λ note. note ≡ noted name.now text.now) }
    ensures err { IfErr result (λ e. e ≡ IssueError.OutOfMemory) }
{
    match Note::new(alloc, name, text) {
        Ok(note) => Ok(note),
        Err(_) => Err(IssueError::OutOfMemory),
    }
}

// The name of a note; other bodies have none.
fn name_of<A: Allocator>(body: &Body<A>) -> &[u8]
    ensures { result.now ≡ name_of (content body.now) }
{
    match body {
        Body::Note(note) => note.name(),
        Body::Block(_) | Body::Period(_) | Body::Removal(_) => &[],
    }
}

// The text of a note; other bodies have none.
fn text_of<A: Allocator>(body: &Body<A>) -> &[u8]
    ensures { result.now ≡ text_of (content body.now) }
{
    match body {
        Body::Note(note) => note.text(),
        Body::Block(_) | Body::Period(_) | Body::Removal(_) => &[],
    }
}
