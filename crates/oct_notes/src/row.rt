//! Live notes, as they are sorted by name.

ghost use Rattle.std.specs.Prelude.{◌≡◌};
ghost use Rattle.oct_notes.specs.Leads.{lead_of};
ghost use Rattle.oct_notes.specs.Notes.{note_order};

use crate::name::{by_name, name_of};
use oct_ops::Op;
use std::alloc::Allocator;
use std::cmp::Ordering;
use std::marker::Model;

/// A live note, and how its name begins. Most names differ there, and then two rows compare with no look at their notes,
/// which lie anywhere in memory.
#[derive(Drop)]
pub(crate) struct Row<'a, A: Allocator> {
    lead: u64,
    note: &'a Op<A>,
}

impl<'a, A: Allocator> Model for Row<'a, A> {
    ghost use Rattle.oct_ops.specs.Body.{Operation};
    ghost use Rattle.oct_notes.specs.Leads.{Leads};

    ghost Value = { Operation };

    ghost view = { λ r. r.note.now };

    ghost invariant = { λ r. Leads r.lead r.note.now };
}

impl<'a, A: Allocator> Row<'a, A> {
    /// The row of the note.
    pub(crate) fn new(note: &'a Op<A>) -> Row<'a, A>
        ensures { result ≡ note.now }
    {
        let name = name_of(note.body());
        Row {
            lead: lead(name),
            note,
        }
    }

    /// The note.
    pub(crate) fn note(&self) -> &'a Op<A>
        ensures { result.now ≡ self.now }
    {
        self.note
    }

    /// By name, byte by byte, and then as operations.
    pub(crate) fn order(&self, other: &Row<'_, A>) -> Ordering
        ensures { result ≡ note_order self.now other.now }
    {
        match self.lead.cmp(&other.lead) {
            Ordering::Equal => by_name(self.note, other.note),
            leads => leads,
        }
    }
}

// The first eight bytes of a name as one number, the first of them highest, and zeros after the end of a shorter name.
// Where the numbers of two names differ, the names compare as they do.
fn lead(name: &[u8]) -> u64
    ensures { result ≡ lead_of name.now }
{
    let mut bytes = [0; 8];
    let len = name.len().min(bytes.len());
    bytes[..len].copy_from_slice(&name[..len]);
    u64::from_be_bytes(bytes)
}
