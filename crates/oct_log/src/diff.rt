//! What one set of operations has and another has not.

ghost use Rattle.std.specs.Prelude.{◌≡◌, ◌++◌, IfOk, OnOk};
ghost use Rattle.oct_log.specs.Diff.{apart, diff_of_games, diff_text, game_part, rest_part, twice_line, twice_part};
ghost use Rattle.oct_log.specs.Twice.{sides_in};
ghost use Rattle.oct_ops.specs.Operations.{union};
ghost use Rattle.oct_sheet.specs.Names.{name_in};

use crate::log::append_line;
use crate::twice::{Sides, sides_by_dot, sides_in};
use oct_code::Code;
use oct_ops::{Dot, Op};
use oct_pages::codes_of;
use oct_record::Record;
use oct_sheet::{name_in, names_by_author, naming_notes};
use oct_store::Store;
use oct_text::append_labelled_text;
use std::alloc::{AllocError, Allocator};
use std::collections::BTreeMap;

/// The lines by which two sets of operations differ, whose union is that of the record: of each game that has some, in the order
/// of the codes, and then those of notes and removals. An operation that the first set has alone stands behind `-`, and one that
/// the second has alone behind `+`, as the log has it. Then the lines of those dots come once more, behind `used twice`, that
/// both sets use, each for something that the other has not. It takes what three passes over the union take, and two look-ups
/// of each operation in each.
pub fn write_diff<A: Allocator + Copy>(
    one: &Store<A>,
    other: &Store<A>,
    all: &Record<A>,
) -> Result<Vec<u8, A>, AllocError>
    requires { all.now.ops ≡ union one.now other.now }
    ensures { IfOk result (λ text. text.items ≡ diff_text one.now other.now) }
{
    let notes = naming_notes(all)?;
    let names = names_by_author(all.allocator(), &notes)?;
    let mut text = Vec::new(all.allocator());
    let codes = codes_of(all)?;
    for code in &codes {
        append_game(&mut text, one, other, &names, all, *code)?;
    }
    append_rest(&mut text, one, other, &names, all.store())?;
    append_twice(&mut text, one, other, &names, all.store())?;
    Ok(text)
}

/// The lines by which two sets of operations, whose union is that of the record, differ in these games, in the order in which they
/// are named: those that `write_diff` has of each. It takes what a pass over the games takes, and two look-ups of each operation.
pub fn write_diff_of<A: Allocator + Copy>(
    one: &Store<A>,
    other: &Store<A>,
    all: &Record<A>,
    codes: &[Code],
) -> Result<Vec<u8, A>, AllocError>
    requires { all.now.ops ≡ union one.now other.now }
    ensures { IfOk result (λ text. text.items ≡ diff_of_games one.now other.now codes.now) }
{
    let notes = naming_notes(all)?;
    let names = names_by_author(all.allocator(), &notes)?;
    let mut text = Vec::new(all.allocator());
    for code in codes {
        append_game(&mut text, one, other, &names, all, *code)?;
    }
    Ok(text)
}

// Appends the lines of a game.
fn append_game<A: Allocator + Copy>(
    out: &mut Vec<u8, A>,
    one: &Store<A>,
    other: &Store<A>,
    names: &BTreeMap<u32, &[u8], A>,
    all: &Record<A>,
    code: Code,
) -> Result<(), AllocError>
    ensures { OnOk result (out.new.items ≡ out.old.items ++ game_part one.now other.now (name_in (λ text. text.now) names.now) all.now.ops code) }
{
    let Some(held) = all.game(code) else {
        return Ok(());
    };
    for op in held.iter() {
        append_apart(out, b"", one, other, names, op)?;
    }
    Ok(())
}

// Appends the lines of notes and removals.
fn append_rest<A: Allocator + Copy>(
    out: &mut Vec<u8, A>,
    one: &Store<A>,
    other: &Store<A>,
    names: &BTreeMap<u32, &[u8], A>,
    all: &Store<A>,
) -> Result<(), AllocError>
    ensures { OnOk result (out.new.items ≡ out.old.items ++ rest_part one.now other.now (name_in (λ text. text.now) names.now) all.now) }
{
    for op in all.iter() {
        if op.body().code().is_none() {
            append_apart(out, b"", one, other, names, op)?;
        }
    }
    Ok(())
}

// Appends the lines of the dots that both sets use, each for something that the other has not.
fn append_twice<A: Allocator + Copy>(
    out: &mut Vec<u8, A>,
    one: &Store<A>,
    other: &Store<A>,
    names: &BTreeMap<u32, &[u8], A>,
    all: &Store<A>,
) -> Result<(), AllocError>
    ensures { OnOk result (out.new.items ≡ out.old.items ++ twice_part one.now other.now (name_in (λ text. text.now) names.now) all.now) }
{
    let sides = sides_by_dot(*out.allocator(), one, other, all)?;
    for op in all.iter() {
        append_if_twice(out, one, other, names, &sides, op)?;
    }
    Ok(())
}

// Appends the line of an operation, if its dot was used twice by these sides.
fn append_if_twice<A: Allocator + Copy>(
    out: &mut Vec<u8, A>,
    one: &Store<A>,
    other: &Store<A>,
    names: &BTreeMap<u32, &[u8], A>,
    sides: &BTreeMap<Dot, Sides, A>,
    op: &Op<A>,
) -> Result<(), AllocError>
    ensures { OnOk result (out.new.items ≡ out.old.items ++ twice_line one.now other.now (name_in (λ text. text.now) names.now) (sides_in sides.now) op.now) }
{
    if sides_in(sides, op.dot()).is_twice() {
        append_apart(out, b"used twice ", one, other, names, op)
    } else {
        Ok(())
    }
}

// Appends the line of an operation that one of both has, if the other has it not, behind these words.
fn append_apart<A: Allocator + Copy>(
    out: &mut Vec<u8, A>,
    lead: &[u8],
    one: &Store<A>,
    other: &Store<A>,
    names: &BTreeMap<u32, &[u8], A>,
    op: &Op<A>,
) -> Result<(), AllocError>
    ensures { OnOk result (out.new.items ≡ out.old.items ++ apart lead.now one.now other.now (name_in (λ text. text.now) names.now op.now.dot.author) op.now) }
{
    let sign: &[u8] = match (one.contains(op), other.contains(op)) {
        (true, true) => return Ok(()),
        (true, false) => b"- ",
        (false, _) => b"+ ",
    };
    append_labelled_text(out, lead, sign)?;
    append_line(out, name_in(names, op.dot().author()), op)
}
