//! A record as a JSON document, written piece by piece.
#![tactic(auto, using(oct_ops::proofs::Growing::growing))]

ghost use Rattle.std.specs.Prelude.{◌≡◌, ◌++◌, false, map, OnOk};
ghost use Rattle.std.specs.Io.KnownBytes.{Appends};
ghost use Rattle.serde_json.specs.Data.{array};
ghost use Rattle.serde_json.specs.View.{items_of, view};
ghost use Rattle.serde_json.specs.Written.{comma_if, compact_text, has_float};
ghost use Rattle.oct_ops.specs.Operations.{listed};
ghost use Rattle.oct_store.specs.Summary as summary;
ghost use Rattle.written.specs.Output.{AppendsFront};
ghost use Rattle.oct_json.specs.Json.{author_data, document, game_data, list};
ghost use Rattle.oct_sheet.specs.Sheet.{authors_of, game_sheet, sheet, sheet_among};

use crate::forms::{ToJson, append_comma, write_game_json};
use oct_code::Code;
use oct_join::OpSet;
use oct_overview::LeastPeriod;
use oct_pages::{GameProgress, GameSheet, game_after};
use oct_period::Leaders;
use oct_record::Record;
use oct_sheet::{Remarks, told_codes, with_names};
use oct_text::append_text;
use serde_json::Value;
use std::alloc::{AllocError, Global};
use std::io::{self, Write};
use written::spill;

/// Writes what views show of a part of what was said as one JSON document, without spaces, as `specs/Json` says, in pieces of some
/// 64 KiB. The authors and their names are those of the whole. Each author, fork, game and note is built and written before the
/// next, and `progress` is told of each game before it is built. The error is that of the writer, or of the kind `OutOfMemory`;
/// a part of the document may have been written then.
pub fn stream_json<W: Write, P: GameProgress>(
    alloc: Global,
    part: &Record<Global>,
    whole: &Record<Global>,
    progress: &mut P,
    out: &mut W,
) -> io::Result<()>
    ensures { OnOk result (Appends (W.contents out.old) (W.contents out.new) (compact_text (document (sheet_among (listed part.now.ops) (listed whole.now.ops))))) }
{
    let mut piece = Vec::new(alloc);
    stream_document(alloc, part, whole, progress, &mut piece, out)?;
    out.write_all(&piece)
}

// Puts the document behind what stands in the piece, and writes the piece where it is large.
fn stream_document<W: Write, P: GameProgress>(
    alloc: Global,
    part: &Record<Global>,
    whole: &Record<Global>,
    progress: &mut P,
    piece: &mut Vec<u8>,
    out: &mut W,
) -> io::Result<()>
    ensures { OnOk result (AppendsFront (W.contents out.old) (W.contents out.new) (piece.old.items ++ compact_text (document (sheet_among (listed part.now.ops) (listed whole.now.ops)))) piece.new.items) }
{
    stream_authors(alloc, b"{\"authors\":", whole, piece, out)?;
    let forks = part.store().forks()?;
    stream_array(alloc, b",\"census\":2,\"forks\":", &forks, piece, out)?;
    let remarks = Remarks::of_record(whole)?;
    stream_games(alloc, b",\"games\":", part, &remarks, progress, piece, out)?;
    let notes = part.notes().live_refs()?;
    stream_array(alloc, b",\"notes\":", &notes, piece, out)?;
    append_text(piece, b"}")?;
    Ok(())
}

// Puts a text there, and then the array of the authors with their names.
fn stream_authors<W: Write>(
    alloc: Global,
    before: &[u8],
    said: &Record<Global>,
    piece: &mut Vec<u8>,
    out: &mut W,
) -> io::Result<()>
    ensures { OnOk result (AppendsFront (W.contents out.old) (W.contents out.new) (piece.old.items ++ (before.now ++ compact_text (list author_data (authors_of (listed said.now.ops))))) piece.new.items) }
{
    let authors = said.store().authors()?;
    let notes = said.notes().live_refs()?;
    let called = with_names(alloc, &notes, &authors)?;
    stream_array(alloc, before, &called, piece, out)
}

// Puts a text there, and then the array of the items in their order.
fn stream_array<T: ToJson, W: Write>(
    alloc: Global,
    before: &[u8],
    items: &[T],
    piece: &mut Vec<u8>,
    out: &mut W,
) -> io::Result<()>
    requires { (x : T) → has_float (T.form x) ≡ false }
    ensures { OnOk result (AppendsFront (W.contents out.old) (W.contents out.new) (piece.old.items ++ (before.now ++ compact_text (array (items_of (map T.form items.now))))) piece.new.items) }
{
    append_text(piece, before)?;
    append_text(piece, b"[")?;
    let mut is_later = false;
    for item in items {
        let value = item.to_json(alloc)?;
        append_item(alloc, &value, is_later, piece)?;
        spill(piece, out)?;
        is_later = true;
    }
    append_text(piece, b"]")?;
    Ok(())
}

// Puts a text there, and then the array of the games.
fn stream_games<W: Write, P: GameProgress>(
    alloc: Global,
    before: &[u8],
    said: &Record<Global>,
    remarks: &Remarks<'_, Global>,
    progress: &mut P,
    piece: &mut Vec<u8>,
    out: &mut W,
) -> io::Result<()>
    ensures { OnOk result (AppendsFront (W.contents out.old) (W.contents out.new) (piece.old.items ++ (before.now ++ compact_text (list (game_data remarks.now) (sheet (listed said.now.ops)).games))) piece.new.items) }
{
    let codes = told_codes(said)?;
    stream_each(alloc, before, said, &codes, remarks, progress, piece, out)
}

// Puts a text there, and then the array of the games of these codes.
fn stream_each<W: Write, P: GameProgress>(
    alloc: Global,
    before: &[u8],
    said: &Record<Global>,
    codes: &[Code],
    remarks: &Remarks<'_, Global>,
    progress: &mut P,
    piece: &mut Vec<u8>,
    out: &mut W,
) -> io::Result<()>
    ensures { OnOk result (AppendsFront (W.contents out.old) (W.contents out.new) (piece.old.items ++ (before.now ++ compact_text (list (λ c. game_data remarks.now (game_sheet (listed said.now.ops) c)) codes.now))) piece.new.items) }
{
    append_text(piece, before)?;
    append_text(piece, b"[")?;
    let all = codes.len() as u64;
    let mut done = 0_u64;
    let mut leaders = Leaders::new(alloc);
    let mut is_later = false;
    for code in codes {
        progress.tell(*code, done, all);
        append_game(alloc, said, remarks, *code, &mut leaders, is_later, piece)?;
        spill(piece, out)?;
        done = done.saturating_add(1);
        is_later = true;
    }
    append_text(piece, b"]")?;
    Ok(())
}

// Appends a game as an item of an array.
fn append_game(
    alloc: Global,
    said: &Record<Global>,
    remarks: &Remarks<'_, Global>,
    code: Code,
    leaders: &mut Leaders<Global>,
    is_later: bool,
    out: &mut Vec<u8>,
) -> Result<(), AllocError>
    ensures { OnOk result (out.new.items ≡ out.old.items ++ (comma_if is_later ++ compact_text (game_data remarks.now (game_sheet (listed said.now.ops) code)))) }
{
    append_comma(out, is_later)?;
    match said.game(code) {
        Some(ops) => append_built(alloc, said, remarks, code, ops, leaders, out),
        None => append_built(alloc, said, remarks, code, &OpSet::new(alloc), leaders, out),
    }
}

// Appends a game with these operations, which is built for it.
fn append_built(
    alloc: Global,
    said: &Record<Global>,
    remarks: &Remarks<'_, Global>,
    code: Code,
    ops: &OpSet<Global>,
    leaders: &mut Leaders<Global>,
    out: &mut Vec<u8>,
) -> Result<(), AllocError>
    requires { ops.now ≡ summary.of_game said.now.ops code }
    ensures { OnOk result (out.new.items ≡ out.old.items ++ compact_text (game_data remarks.now (game_sheet (listed said.now.ops) code))) }
{
    let game = game_after(said, code, leaders)?;
    let sheet = GameSheet::of_game(alloc, &game, ops)?;
    let found = game.find_period();
    let least = LeastPeriod::of(&sheet, &found);
    write_game_json(alloc, &sheet, remarks, &least, out)
}

// Appends an item of an array, behind a comma where another one stands before it.
fn append_item(
    alloc: Global,
    value: &Value,
    is_later: bool,
    out: &mut Vec<u8>,
) -> Result<(), AllocError>
    requires { has_float (view value.now) ≡ false }
    ensures ok { OnOk result (out.new.items ≡ out.old.items ++ (comma_if is_later ++ compact_text (view value.now))) }
{
    append_comma(out, is_later)?;
    let text = value.to_string(alloc)?;
    append_text(out, text.as_bytes())
}
