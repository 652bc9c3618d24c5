//! The names of notes.

ghost use Rattle.std.specs.Prelude.{◌≡◌};
ghost use Rattle.oct_ops.specs.Views.{content};
ghost use Rattle.oct_notes.specs.Notes as spec;

use oct_ops::{Body, Op};
use std::alloc::Allocator;
use std::cmp::Ordering;

/// The name of a note; other bodies have none.
pub(crate) fn name_of<A: Allocator>(body: &Body<A>) -> &[u8]
    ensures { result.now ≡ spec.name_of (content body.now) }
{
    match body {
        Body::Note(note) => note.name(),
        Body::Block(_) | Body::Period(_) | Body::Removal(_) => &[],
    }
}

/// Whether this is the name of the note.
pub(crate) fn is_named<A: Allocator>(op: &Op<A>, name: &[u8]) -> bool
    ensures { result ≡ spec.is_named name.now op.now }
{
    name_of(op.body()) == name
}

/// By name, byte by byte, and then as operations.
pub(crate) fn by_name<A: Allocator>(note: &Op<A>, other: &Op<A>) -> Ordering
    ensures { result ≡ spec.note_order note.now other.now }
{
    match name_of(note.body()).cmp(name_of(other.body())) {
        Ordering::Equal => note.cmp(other),
        names => names,
    }
}
