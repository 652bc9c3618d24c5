//! What a record holds, in a few lines.

ghost use Rattle.std.specs.Prelude.{◌≡◌, ◌++◌, IfOk, OnOk};
ghost use Rattle.oct_log.specs.Status.{author_line, authors_part, count_in, count_line, forks_line, games_line, notes_line, own_line, people_by, people_part, status_text};
ghost use Rattle.oct_ops.specs.Operations.{listed};
ghost use Rattle.oct_sheet.specs.Names.{name_in};

use crate::counts::{count_in, counts_by_author};
use crate::log::append_name;
use oct_pages::codes_of;
use oct_record::Record;
use oct_sheet::{name_in, names_by_author, naming_notes};
use oct_store::Author;
use oct_text::{append_labelled, append_text};
use std::alloc::{AllocError, Allocator};
use std::collections::BTreeMap;

/// The status of a record: whose it is, how many operations it has, and by whom; how many games, live notes, and dots with
/// several contents. It takes what a pass over the operations takes, and a look-up for each; no nim-value is computed.
pub fn write_status<A: Allocator + Copy>(said: &Record<A>) -> Result<Vec<u8, A>, AllocError>
    ensures { IfOk result (λ text. text.items ≡ status_text said.now.author (listed said.now.ops)) }
{
    let mut text = Vec::new(said.allocator());
    append_people(&mut text, said)?;
    append_games(&mut text, said)?;
    append_notes(&mut text, said)?;
    append_forks(&mut text, said)?;
    Ok(text)
}

// Appends whose the record is, how many operations there are, and by whom.
fn append_people<A: Allocator + Copy>(
    out: &mut Vec<u8, A>,
    said: &Record<A>,
) -> Result<(), AllocError>
    ensures { OnOk result (out.new.items ≡ out.old.items ++ people_part said.now.author (listed said.now.ops)) }
{
    let notes = naming_notes(said)?;
    let names = names_by_author(said.allocator(), &notes)?;
    let counts = counts_by_author(said.allocator(), said.store())?;
    append_by(out, &names, &counts, said)?;
    Ok(())
}

// Appends the same, where authors have these names and so many operations.
fn append_by<A: Allocator + Copy>(
    out: &mut Vec<u8, A>,
    names: &BTreeMap<u32, &[u8], A>,
    counts: &BTreeMap<u32, u64, A>,
    said: &Record<A>,
) -> Result<(), AllocError>
    ensures { OnOk result (out.new.items ≡ out.old.items ++ people_by (name_in (λ text. text.now) names.now) (count_in counts.now) said.now.author (listed said.now.ops)) }
{
    let authors = said.store().authors()?;
    append_own(out, name_in(names, said.author()), said.author())?;
    append_count(out, b"operations ", said.len())?;
    append_authors(out, names, counts, &authors)?;
    Ok(())
}

// Appends how many games have a block or a claim.
fn append_games<A: Allocator + Copy>(
    out: &mut Vec<u8, A>,
    said: &Record<A>,
) -> Result<(), AllocError>
    ensures { OnOk result (out.new.items ≡ out.old.items ++ games_line (listed said.now.ops)) }
{
    let codes = codes_of(said)?;
    append_count(out, b"games ", codes.len())
}

// Appends how many notes are live.
fn append_notes<A: Allocator + Copy>(
    out: &mut Vec<u8, A>,
    said: &Record<A>,
) -> Result<(), AllocError>
    ensures { OnOk result (out.new.items ≡ out.old.items ++ notes_line (listed said.now.ops)) }
{
    let live = said.notes().live_refs()?;
    append_count(out, b"notes ", live.len())?;
    Ok(())
}

// Appends how many dots have several contents.
fn append_forks<A: Allocator + Copy>(
    out: &mut Vec<u8, A>,
    said: &Record<A>,
) -> Result<(), AllocError>
    ensures { OnOk result (out.new.items ≡ out.old.items ++ forks_line (listed said.now.ops)) }
{
    let forks = said.store().forks()?;
    append_count(out, b"forks ", forks.len())
}

// Appends whose the record is.
fn append_own<A: Allocator>(
    out: &mut Vec<u8, A>,
    name: &[u8],
    author: u32,
) -> Result<(), AllocError>
    ensures { OnOk result (out.new.items ≡ out.old.items ++ own_line name.now author) }
{
    append_labelled(out, b"author ", author)?;
    append_name(out, name)?;
    append_text(out, b"\n")
}

// Appends a line of how many there are.
fn append_count<A: Allocator>(
    out: &mut Vec<u8, A>,
    label: &[u8],
    count: usize,
) -> Result<(), AllocError>
    ensures { OnOk result (out.new.items ≡ out.old.items ++ count_line label.now count) }
{
    append_labelled(out, label, count)?;
    append_text(out, b"\n")
}

// Appends a line for each author.
fn append_authors<A: Allocator + Copy>(
    out: &mut Vec<u8, A>,
    names: &BTreeMap<u32, &[u8], A>,
    counts: &BTreeMap<u32, u64, A>,
    authors: &[Author],
) -> Result<(), AllocError>
    ensures { OnOk result (out.new.items ≡ out.old.items ++ authors_part (name_in (λ text. text.now) names.now) (count_in counts.now) authors.now) }
{
    for row in authors {
        let author = row.author;
        append_author(
            out,
            name_in(names, author),
            author,
            count_in(counts, author),
        )?;
    }
    Ok(())
}

// Appends how many operations are by an author of this name.
fn append_author<A: Allocator>(
    out: &mut Vec<u8, A>,
    name: &[u8],
    author: u32,
    count: u64,
) -> Result<(), AllocError>
    ensures { OnOk result (out.new.items ≡ out.old.items ++ author_line name.now author count) }
{
    append_labelled(out, b"by ", author)?;
    append_name(out, name)?;
    append_labelled(out, b" ", count)?;
    append_text(out, b"\n")
}
