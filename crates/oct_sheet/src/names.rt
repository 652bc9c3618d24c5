//! The names of authors.

ghost use Rattle.std.specs.Prelude.{◌≡◌, IfOk, map};
ghost use Rattle.std.specs.Str.{IsAscii};
ghost use Rattle.oct_notes.specs.Notes.{name_of};
ghost use Rattle.oct_ops.specs.Operations.{listed};
ghost use Rattle.oct_ops.specs.Views.{content};
ghost use Rattle.oct_sheet.specs.Names.{author_name, called, is_naming, naming, text_of};
ghost use Rattle.oct_sheet.specs.Sheet.{names_of};

use crate::name_table::{name_in, names_by_author};
use oct_ops::{Body, Op};
use oct_record::Record;
use oct_store::Author;
use std::alloc::{AllocError, Allocator};
use std::collections::BTreeMap;
use std::marker::Model;

// The name of the notes that name authors.
const NAMING: &[u8] = b"author-name";

/// An author with its name, which is empty where it has none.
#[derive(Drop)]
pub struct Called<'a> {
    /// The author.
    pub author: Author,
    /// The name.
    pub name: &'a [u8],
}

impl<'a> Model for Called<'a> {
    ghost use Rattle.std.specs.Str.{IsAscii};
    ghost use Rattle.oct_sheet.specs.Names.{Called as CalledValue};

    ghost Value = { CalledValue };

    ghost view = { λ c. record { author = c.author; name = c.name.now } };

    ghost invariant = { λ c. IsAscii c.name.now };
}

/// The names of authors by some live notes, which are listed by name and then in the order of operations. Its value is those
/// of the notes that name authors.
#[derive(Drop)]
pub struct Names<'a, A: Allocator + Copy> {
    notes: Vec<&'a Op<A>, A>,
    table: BTreeMap<u32, &'a [u8], A>,
}

impl<'a, A: Allocator + Copy> Model for Names<'a, A> {
    ghost use Rattle.std.specs.Prelude.{List, map};
    ghost use Rattle.oct_ops.specs.Body.{Operation};
    ghost use Rattle.oct_sheet.specs.Names.{HasNames};

    ghost Value = { List Operation };

    ghost view = { λ n. map (λ op. op.now) n.notes.items };

    ghost invariant = { λ n. HasNames (λ text. text.now) n.table (map (λ op. op.now) n.notes.items) };
}

impl<'a, A: Allocator + Copy> Names<'a, A> {
    /// The names by the live notes of a record.
    pub fn of_record(said: &'a Record<A>) -> Result<Names<'a, A>, AllocError>
        ensures { IfOk result (λ names. names ≡ names_of (listed said.now.ops)) }
    {
        let notes = said.notes().live_refs()?;
        Names::among(said.allocator(), &notes)
    }

    /// The names by these notes.
    pub fn among(alloc: A, notes: &[&'a Op<A>]) -> Result<Names<'a, A>, AllocError>
        ensures { IfOk result (λ names. names ≡ naming (map (λ op. op.now) notes.now)) }
    {
        let notes = naming_among(alloc, notes)?;
        let table = names_by_author(alloc, &notes)?;
        Ok(Names { notes, table })
    }

    /// The name of an author: the text of the last note of the name `author-name` that it issued. It is empty where there is
    /// none.
    pub fn of_author(&self, author: u32) -> &'a [u8]
        ensures value { result.now ≡ author_name self.now author }
        ensures ascii { IsAscii result.now }
    {
        name_in(&self.table, author)
    }
}

/// The authors with their names, by the live notes.
pub fn with_names<'a, A: Allocator + Copy>(
    alloc: A,
    notes: &[&'a Op<A>],
    authors: &[Author],
) -> Result<Vec<Called<'a>, A>, AllocError>
    ensures { IfOk result (λ found. found.items ≡ map (called (map (λ op. op.now) notes.now)) authors.now) }
{
    let names = names_by_author(alloc, notes)?;
    let mut found = Vec::with_capacity(alloc, authors.len())?;
    for author in authors {
        found.push(Called {
            author: *author,
            name: name_in(&names, author.author),
        })?;
    }
    Ok(found)
}

/// The notes that name authors, among the live ones of a record.
pub fn naming_notes<A: Allocator + Copy>(said: &Record<A>) -> Result<Vec<&Op<A>, A>, AllocError>
    ensures { IfOk result (λ found. map (λ op. op.now) found.items ≡ names_of (listed said.now.ops)) }
{
    let notes = said.notes().live_refs()?;
    naming_among(said.allocator(), &notes)
}

/// Those of the notes that name authors.
pub fn naming_among<'a, A: Allocator + Copy>(
    alloc: A,
    notes: &[&'a Op<A>],
) -> Result<Vec<&'a Op<A>, A>, AllocError>
    ensures { IfOk result (λ found. map (λ op. op.now) found.items ≡ naming (map (λ op. op.now) notes.now)) }
{
    let mut found = Vec::new(alloc);
    for op in notes {
        if is_naming(op) {
            found.push(*op)?;
        }
    }
    Ok(found)
}

/// Whether the operation is a note that names its author.
pub(crate) fn is_naming<A: Allocator>(op: &Op<A>) -> bool
    ensures { result ≡ is_naming op.now }
{
    name_of(op.body()) == NAMING
}

// The name of a note; other bodies have none.
fn name_of<A: Allocator>(body: &Body<A>) -> &[u8]
    ensures { result.now ≡ name_of (content body.now) }
{
    match body {
        Body::Note(note) => note.name(),
        Body::Block(_) | Body::Period(_) | Body::Removal(_) => &[],
    }
}

/// The text of a note; other bodies have none.
pub(crate) fn text_of<A: Allocator>(body: &Body<A>) -> &[u8]
    ensures value { result.now ≡ text_of (content body.now) }
    ensures ascii { IsAscii result.now }
{
    match body {
        Body::Note(note) => note.text(),
        Body::Block(_) | Body::Period(_) | Body::Removal(_) => &[],
    }
}
