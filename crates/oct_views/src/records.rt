//! The tables of what belongs to no game: notes, forks and authors.
#![tactic(auto, using(oct_ops::proofs::Growing::growing))]

ghost use Rattle.std.specs.Prelude.{◌≡◌, ◌++◌, OnOk};
ghost use Rattle.oct_ops.specs.Growth.{Extends};
ghost use Rattle.oct_sheet.specs.Names.{name_in};
ghost use Rattle.oct_views.specs.Index.{called_row, noted_row};

use oct_ops::{Body, Dot, Note, Op};
use oct_sheet::{Called, name_in};
use oct_store::{Author, Fork};
use oct_tables::Rows;
use oct_text::Piece::{Beside, Dot as DotText, Escaped, Number, Text};
use oct_text::append_pieces;
use std::alloc::{AllocError, Allocator};
use std::collections::BTreeMap;

/// Rows of the table of notes, with the names of authors.
#[derive(Drop)]
pub(crate) struct NoteRows<'a, 'b, B: Allocator + Copy>(pub &'a BTreeMap<u32, &'b [u8], B>);

/// Rows of the table of forks, with the names of authors.
#[derive(Drop)]
pub(crate) struct ForkRows<'a, 'b, B: Allocator + Copy>(pub &'a BTreeMap<u32, &'b [u8], B>);

/// Rows of the table of authors.
#[derive(Clone, Copy)]
pub(crate) struct AuthorRows;

impl<'a, 'b, 'c, B: Allocator + Copy> Rows<&'c Op<B>> for NoteRows<'a, 'b, B> {
    ghost use Rattle.oct_sheet.specs.Names.{name_in};
    ghost use Rattle.oct_views.specs.Index.{note_row};

    ghost text = { λ way op. note_row (name_in (λ text. text.now) way.0.now) op.now };

    fn append_row<A: Allocator + Copy>(
        &self,
        out: &mut Vec<u8, A>,
        row: &&'c Op<B>,
    ) -> Result<(), AllocError> {
        match row.body() {
            Body::Note(note) => append_note(out, self.0, row.dot(), note),
            _ => Ok(()),
        }
    }
}

impl<'a, 'b, B: Allocator + Copy> Rows<Fork> for ForkRows<'a, 'b, B> {
    ghost use Rattle.oct_sheet.specs.Names.{name_in};
    ghost use Rattle.oct_views.specs.Index.{fork_row};

    ghost text = { λ way row. fork_row (name_in (λ text. text.now) way.0.now) row };

    fn append_row<A: Allocator + Copy>(
        &self,
        out: &mut Vec<u8, A>,
        row: &Fork,
    ) -> Result<(), AllocError> {
        append_pieces(
            out,
            &[
                Text(b"<tr><th scope=\"row\">"),
                DotText(row.dot),
                Beside(name_in(self.0, row.dot.author())),
                Text(b"</th><td>"),
                Number(row.contents as u64),
                Text(b"</td></tr>\n"),
            ],
        )
    }
}

impl<'a> Rows<Called<'a>> for AuthorRows {
    ghost use Rattle.oct_views.specs.Index.{author_row};

    ghost text = { λ _ row. author_row row };

    fn append_row<A: Allocator + Copy>(
        &self,
        out: &mut Vec<u8, A>,
        row: &Called<'a>,
    ) -> Result<(), AllocError> {
        append_called(out, row.author, row.name)
    }
}

// Appends the row of an author of this name.
fn append_called<A: Allocator>(
    out: &mut Vec<u8, A>,
    author: Author,
    name: &[u8],
) -> Result<(), AllocError>
    ensures ok { OnOk result (out.new.items ≡ out.old.items ++ called_row author name.now) }
    ensures grown { Extends out.old.items out.new.items }
{
    append_pieces(
        out,
        &[
            Text(b"<tr><th scope=\"row\">"),
            Number(author.author as u64),
            Text(b"</th><td class=\"text\">"),
            Escaped(name),
            Text(b"</td><td>"),
            Number(author.through as u64),
            Text(b"</td><td>"),
            Number(author.last as u64),
            Text(b"</td></tr>\n"),
        ],
    )
}

// Appends the row of a note.
fn append_note<'n, A: Allocator, B: Allocator + Copy>(
    out: &mut Vec<u8, A>,
    names: &'n BTreeMap<u32, &[u8], B>,
    dot: Dot,
    note: &'n Note<B>,
) -> Result<(), AllocError>
    ensures ok { OnOk result (out.new.items ≡ out.old.items ++ noted_row (name_in (λ text. text.now) names.now) dot note.now) }
    ensures grown { Extends out.old.items out.new.items }
{
    append_pieces(
        out,
        &[
            Text(b"<tr><th scope=\"row\">"),
            Escaped(note.name()),
            Text(b"</th><td>"),
            DotText(dot),
            Beside(name_of(names, dot.author())),
            Text(b"</td><td class=\"text\">"),
            Escaped(note.text()),
            Text(b"</td></tr>\n"),
        ],
    )
}

// The name of an author, for as long as the names are lent.
fn name_of<'n, B: Allocator + Copy>(names: &'n BTreeMap<u32, &[u8], B>, author: u32) -> &'n [u8]
    ensures { result.now ≡ name_in (λ text. text.now) names.now author }
{
    name_in(names, author)
}
