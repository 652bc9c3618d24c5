//! What a note says of a game's period.

ghost use Rattle.std.specs.Prelude.{◌≡◌, IfOk, map};
ghost use Rattle.std.specs.List.{filter_map};
ghost use Rattle.oct_notes.specs.Notes.{name_of};
ghost use Rattle.oct_ops.specs.Views.{content};
ghost use Rattle.oct_said.specs.Noting.{long_of, long_period_of, period_note_of, text_of};

use crate::lines::{is_long, said_by};
use crate::names::game_named;
use oct_code::Code;
use oct_mex::SeenPeriod;
use oct_ops::{Body, Dot, Op};
use std::alloc::{AllocError, Allocator};

/// A note of the name that the notes of a game's period have.
#[derive(Clone, Copy)]
pub struct PeriodNote {
    /// Who issued the note, and under which number.
    pub dot: Dot,
    /// The game.
    pub code: Code,
    /// The period that the note says, if it says one.
    pub said: Option<SeenPeriod>,
}

/// A period of a game that no period claim proves, as somebody says it.
#[derive(Clone, Copy)]
pub struct LongPeriod {
    /// Who says it.
    pub author: u32,
    /// The game.
    pub code: Code,
    /// The period, and the heap from which on it is said to hold.
    pub seen: SeenPeriod,
}

/// Those of the notes whose names are those of notes of games' periods, in their order.
pub fn period_notes_among<A: Allocator + Copy>(
    alloc: A,
    notes: &[&Op<A>],
) -> Result<Vec<PeriodNote, A>, AllocError>
    ensures { IfOk result (λ found. found.items ≡ filter_map period_note_of (map (λ op. op.now) notes.now)) }
{
    let mut found = Vec::new(alloc);
    for op in notes {
        if let Some(note) = period_note_of(alloc, op)? {
            found.push(note)?;
        }
    }
    Ok(found)
}

/// What a note says of a game's period, if it has such a name.
pub fn period_note_of<A: Allocator + Copy, B: Allocator>(
    alloc: A,
    op: &Op<B>,
) -> Result<Option<PeriodNote>, AllocError>
    ensures { IfOk result (λ note. note ≡ period_note_of op.now) }
{
    let Some(code) = game_named(alloc, name_of(op.body()))? else {
        return Ok(None);
    };
    Ok(Some(PeriodNote {
        dot: op.dot(),
        code,
        said: said_by(alloc, code, text_of(op.body()))?,
    }))
}

/// The long period that a note says of a game, if it says one.
pub fn long_period_of<A: Allocator + Copy, B: Allocator>(
    alloc: A,
    op: &Op<B>,
) -> Result<Option<LongPeriod>, AllocError>
    ensures { IfOk result (λ long. long ≡ long_period_of op.now) }
{
    let Some(note) = period_note_of(alloc, op)? else {
        return Ok(None);
    };
    Ok(long_of(&note))
}

// The long period that it says, if it says one.
fn long_of(note: &PeriodNote) -> Option<LongPeriod>
    ensures { result ≡ long_of note.now }
{
    match note.said {
        Some(seen) if is_long(note.code, seen) => Some(LongPeriod {
            author: note.dot.author(),
            code: note.code,
            seen,
        }),
        _ => None,
    }
}

/// The name of a note; other bodies have none.
pub(crate) fn name_of<A: Allocator>(body: &Body<A>) -> &[u8]
    ensures { result.now ≡ name_of (content body.now) }
{
    match body {
        Body::Note(note) => note.name(),
        Body::Block(_) | Body::Period(_) | Body::Removal(_) => &[],
    }
}

/// The text of a note; other bodies have none.
pub(crate) fn text_of<A: Allocator>(body: &Body<A>) -> &[u8]
    ensures { result.now ≡ text_of (content body.now) }
{
    match body {
        Body::Note(note) => note.text(),
        Body::Block(_) | Body::Period(_) | Body::Removal(_) => &[],
    }
}
