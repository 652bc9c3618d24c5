//! The script of a record, table by table.
#![tactic(auto, using(oct_ops::proofs::Growing::growing))]

ghost use Rattle.std.specs.Prelude.{◌≡◌, ◌++◌, OnErr, OnOk};
ghost use Rattle.std.specs.List.{flat_map};
ghost use Rattle.oct_ops.specs.Growth.{Extends};
ghost use Rattle.oct_ops.specs.Operations.{listed};
ghost use Rattle.oct_pages.specs.Contents.{game_content};
ghost use Rattle.oct_pages.specs.Sheet.{game_sheet};
ghost use Rattle.oct_sheet.specs.Sheet.{sheet};
ghost use Rattle.oct_store.specs.Summary as summary;
ghost use Rattle.oct_overview.specs.Line.{period_of};
ghost use Rattle.oct_sql.specs.Script.{authors_part, game_rows, games_part, operation_row, said_part, script};

use crate::cell::append_values_row;
use crate::rows::{Authors, BlocksOf, ClaimsOf, Forks, Notes, Rows, append_game_row, append_op};
use crate::schema::{ENDING, OPENING};
use oct_code::Code;
use oct_join::OpSet;
use oct_overview::LeastPeriod;
use oct_pages::{GameSheet, game_after};
use oct_period::Leaders;
use oct_record::Record;
use oct_sheet::{told_codes, with_names};
use oct_text::append_text;
use std::alloc::{AllocError, Allocator};

/// Appends the script that makes a database of all that a record says, as `specs/Script` says. Each game is built in its turn, and
/// let go before the next. The one error is that memory is refused, and then `out` stays as it is.
pub fn write_sql<A: Allocator + Copy>(
    said: &Record<A>,
    out: &mut Vec<u8, A>,
) -> Result<(), AllocError>
    ensures ok { OnOk result (out.new.items ≡ out.old.items ++ script (listed said.now.ops)) }
    ensures err { OnErr result (out.new.items ≡ out.old.items) }
{
    let before = out.len();
    let written = append_script(out, said);
    if written.is_err() {
        out.truncate(before);
    }
    written
}

// Appends the script.
fn append_script<A: Allocator + Copy>(
    out: &mut Vec<u8, A>,
    said: &Record<A>,
) -> Result<(), AllocError>
    ensures ok { OnOk result (out.new.items ≡ out.old.items ++ script (listed said.now.ops)) }
    ensures grown { Extends out.old.items out.new.items }
{
    append_text(out, OPENING)?;
    append_authors(out, said)?;
    append_games(out, said)?;
    append_rest(out, said)?;
    append_text(out, ENDING)
}

// Appends the rows, one after another.
fn append_rows<A: Allocator + Copy, S: Rows<R>, R>(
    out: &mut Vec<u8, A>,
    table: &S,
    rows: &[R],
) -> Result<(), AllocError>
    ensures ok { OnOk result (out.new.items ≡ out.old.items ++ flat_map (S.text table.now) rows.now) }
    ensures grown { Extends out.old.items out.new.items }
{
    for row in rows {
        table.append(out, row)?;
    }
    Ok(())
}

// Appends the rows of the authors.
fn append_authors<A: Allocator + Copy>(
    out: &mut Vec<u8, A>,
    said: &Record<A>,
) -> Result<(), AllocError>
    ensures ok { OnOk result (out.new.items ≡ out.old.items ++ authors_part (sheet (listed said.now.ops))) }
    ensures grown { Extends out.old.items out.new.items }
{
    let notes = said.notes().live_refs()?;
    let authors = said.store().authors()?;
    let authors = with_names(said.allocator(), &notes, &authors)?;
    append_rows(out, &Authors, &authors)
}

// Appends the rows of the games.
fn append_games<A: Allocator + Copy>(
    out: &mut Vec<u8, A>,
    said: &Record<A>,
) -> Result<(), AllocError>
    ensures ok { OnOk result (out.new.items ≡ out.old.items ++ games_part (sheet (listed said.now.ops))) }
    ensures grown { Extends out.old.items out.new.items }
{
    let codes = told_codes(said)?;
    append_each(out, said, &codes)
}

// Appends the rows of the games of these codes.
fn append_each<A: Allocator + Copy>(
    out: &mut Vec<u8, A>,
    said: &Record<A>,
    codes: &[Code],
) -> Result<(), AllocError>
    ensures ok { OnOk result (out.new.items ≡ out.old.items ++ flat_map (λ c. game_rows (game_sheet (listed said.now.ops) c)) codes.now) }
    ensures grown { Extends out.old.items out.new.items }
{
    let mut leaders = Leaders::new(said.allocator());
    for code in codes {
        append_game(out, said, *code, &mut leaders)?;
    }
    Ok(())
}

// Appends the rows of a game.
fn append_game<A: Allocator + Copy>(
    out: &mut Vec<u8, A>,
    said: &Record<A>,
    code: Code,
    leaders: &mut Leaders<A>,
) -> Result<(), AllocError>
    ensures ok { OnOk result (out.new.items ≡ out.old.items ++ game_rows (game_sheet (listed said.now.ops) code)) }
    ensures grown { Extends out.old.items out.new.items }
{
    match said.game(code) {
        Some(ops) => append_built(out, said, code, ops, leaders),
        None => append_built(out, said, code, &OpSet::new(said.allocator()), leaders),
    }
}

// Appends the rows of a game with these operations, which is built for it.
fn append_built<A: Allocator + Copy>(
    out: &mut Vec<u8, A>,
    said: &Record<A>,
    code: Code,
    ops: &OpSet<A>,
    leaders: &mut Leaders<A>,
) -> Result<(), AllocError>
    requires { ops.now ≡ summary.of_game said.now.ops code }
    ensures ok { OnOk result (out.new.items ≡ out.old.items ++ game_rows (game_sheet (listed said.now.ops) code)) }
    ensures grown { Extends out.old.items out.new.items }
{
    let game = game_after(said, code, leaders)?;
    let sheet = GameSheet::of_game(said.allocator(), &game, ops)?;
    let found = game.find_period();
    let least = LeastPeriod::of(&sheet, &found);
    append_sheet(out, &sheet, &least)
}

// Appends the rows of a sheet with this least period.
fn append_sheet<A: Allocator + Copy, B: Allocator + Copy>(
    out: &mut Vec<u8, A>,
    game: &GameSheet<'_, B>,
    least: &Option<LeastPeriod>,
) -> Result<(), AllocError>
    requires { least.now ≡ period_of (game_content game.now) }
    ensures ok { OnOk result (out.new.items ≡ out.old.items ++ game_rows (game_content game.now)) }
    ensures grown { Extends out.old.items out.new.items }
{
    append_game_row(out, game.code, game.values.len(), least)?;
    append_values_row(out, game.code, game.values)?;
    append_rows(out, &BlocksOf(game.code), &game.blocks)?;
    append_rows(out, &ClaimsOf(game.code), &game.periods)
}

// Appends the rows of the operations, the live notes and the dots with several contents.
fn append_rest<A: Allocator + Copy>(
    out: &mut Vec<u8, A>,
    said: &Record<A>,
) -> Result<(), AllocError>
    ensures ok { OnOk result (out.new.items ≡ out.old.items ++ said_part (listed said.now.ops)) }
    ensures grown { Extends out.old.items out.new.items }
{
    let notes = said.notes().live_refs()?;
    let forks = said.store().forks()?;
    append_ops(out, said)?;
    append_rows(out, &Notes, &notes)?;
    append_rows(out, &Forks, &forks)
}

// Appends the rows of the operations.
fn append_ops<A: Allocator + Copy>(out: &mut Vec<u8, A>, said: &Record<A>) -> Result<(), AllocError>
    ensures ok { OnOk result (out.new.items ≡ out.old.items ++ flat_map operation_row (listed said.now.ops)) }
    ensures grown { Extends out.old.items out.new.items }
{
    for op in said.store().iter() {
        append_op(out, op)?;
    }
    Ok(())
}
