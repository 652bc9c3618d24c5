//! The names of authors, found by their numbers.

ghost use Rattle.std.specs.Prelude.{◌≡◌, ℕ, IfOk, OnOk, map};
ghost use Rattle.std.specs.Str.{IsAscii};
ghost use Rattle.oct_sheet.specs.Names.{author_name, name_in, renamed};

use crate::names::{is_naming, text_of};
use oct_ops::Op;
use std::alloc::{AllocError, Allocator};
use std::collections::BTreeMap;

/// The name of each author that has one by some live notes, which are listed by name and then in the order of operations.
/// `name_in` looks one up, with no pass over the notes.
pub fn names_by_author<'a, A: Allocator + Copy>(
    alloc: A,
    notes: &[&'a Op<A>],
) -> Result<BTreeMap<u32, &'a [u8], A>, AllocError>
    ensures names { IfOk result (λ table. (author : ℕ) → name_in (λ text. text.now) table author ≡ author_name (map (λ op. op.now) notes.now) author) }
    ensures ascii { IfOk result (λ table. (author : ℕ) → IsAscii (name_in (λ text. text.now) table author)) }
{
    let mut table = BTreeMap::new(alloc);
    for op in notes {
        put(&mut table, op)?;
    }
    Ok(table)
}

/// The name of an author in a table, which is empty where it has none.
pub fn name_in<'a, A: Allocator + Copy>(table: &BTreeMap<u32, &'a [u8], A>, author: u32) -> &'a [u8]
    ensures { result.now ≡ name_in (λ text. text.now) table.now author }
{
    match table.get(&author) {
        Some(name) => name,
        None => b"",
    }
}

// Puts in the name that the operation gives to its author, if it is a note that gives one.
fn put<'a, A: Allocator + Copy>(
    table: &mut BTreeMap<u32, &'a [u8], A>,
    op: &'a Op<A>,
) -> Result<(), AllocError>
    ensures ok { OnOk result ((author : ℕ) → name_in (λ text. text.now) table.new author ≡ renamed author (name_in (λ text. text.now) table.old author) op.now) }
    ensures ascii { ((author : ℕ) → IsAscii (name_in (λ text. text.now) table.old author)) → OnOk result ((author : ℕ) → IsAscii (name_in (λ text. text.now) table.new author)) }
{
    if !is_naming(op) {
        return Ok(());
    }
    match table.insert(op.dot().author(), text_of(op.body())) {
        Ok(_) => Ok(()),
        Err(_) => Err(AllocError),
    }
}
