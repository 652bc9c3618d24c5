//! The lines of games.
#![tactic(auto, using(oct_ops::proofs::Growing::growing))]

ghost use Rattle.std.specs.Prelude.{◌≡◌, true, OnOk};
ghost use Rattle.std.specs.List.{list_all, flat_map};
ghost use Rattle.oct_ops.specs.Operations.{listed};
ghost use Rattle.oct_ops.specs.Sets.{contains};
ghost use Rattle.oct_store.specs.Summary as summary;
ghost use Rattle.oct_pages.specs.Catalogue.{blocks_of, games as games_of, game_lines};
ghost use Rattle.oct_pages.specs.Contents.{game_content};
ghost use Rattle.oct_pages.specs.GamesIn.{AreGamesIn};
ghost use Rattle.oct_ops.specs.Growth.{Extends};
ghost use Rattle.oct_pages.specs.Sheet.{sheet_by, sheet_lines};
ghost use Rattle.oct_pages.specs.Pager.{AreShown};

use crate::blocks::GameHead;
use crate::built::game_after;
use crate::game::GameSheet;
use crate::line::{show, show_each};
use crate::pager::Pager;
use crate::values::append_values;
use oct_code::Code;
use oct_join::OpSet;
use oct_period::{Game, Leaders};
use oct_record::Record;
use std::alloc::{AllocError, Allocator};
use std::collections::BTreeMap;

/// Appends what is shown of the lines of all games of what was said.
pub(crate) fn append_games<A: Allocator + Copy>(
    out: &mut Vec<u8, A>,
    pager: &mut Pager,
    said: &Record<A>,
    kept: &BTreeMap<Code, Game<A>, A>,
) -> Result<(), AllocError>
    requires { AreGamesIn said.now.ops kept.now }
    ensures ok { OnOk result (AreShown pager.old pager.new out.old.items out.new.items (flat_map (game_lines (listed said.now.ops)) (games_of (listed said.now.ops)))) }
    ensures grown { Extends out.old.items out.new.items }
{
    let games = said.games();
    prove!(games.len() <= usize::MAX);
    let mut leaders = Leaders::new(said.allocator());
    for (code, ops) in games.iter() {
        append_game(out, pager, said, kept, *code, ops, &mut leaders)?;
    }
    Ok(())
}

/// Appends what is shown of the lines of a game with these operations. Where it is not kept, it is built, and let go after them. Behind
/// a page that is full nothing is built.
pub(crate) fn append_game<A: Allocator + Copy>(
    out: &mut Vec<u8, A>,
    pager: &mut Pager,
    said: &Record<A>,
    kept: &BTreeMap<Code, Game<A>, A>,
    code: Code,
    ops: &OpSet<A>,
    leaders: &mut Leaders<A>,
) -> Result<(), AllocError>
    requires kept { AreGamesIn said.now.ops kept.now }
    requires its { ops.now ≡ summary.of_game said.now.ops code }
    ensures ok { OnOk result (AreShown pager.old pager.new out.old.items out.new.items (game_lines (listed said.now.ops) code)) }
    ensures grown { Extends out.old.items out.new.items }
{
    if pager.is_over() {
        return Ok(());
    }
    if let Some(game) = kept.get(&code) {
        return append_game_lines(said.allocator(), out, pager, game, ops);
    }
    let game = game_after(said, code, leaders)?;
    append_game_lines(said.allocator(), out, pager, &game, ops)
}

// Appends what is shown of the lines of a game, which holds the blocks of these operations.
fn append_game_lines<A: Allocator + Copy>(
    alloc: A,
    out: &mut Vec<u8, A>,
    pager: &mut Pager,
    game: &Game<A>,
    ops: &OpSet<A>,
) -> Result<(), AllocError>
    requires { list_all (contains game.now.blocks) (blocks_of game.now.code (listed ops.now)) ≡ true }
    ensures ok { OnOk result (AreShown pager.old pager.new out.old.items out.new.items (sheet_lines (sheet_by game.now (listed ops.now)))) }
    ensures grown { Extends out.old.items out.new.items }
{
    let sheet = GameSheet::of_game(alloc, game, ops)?;
    append_sheet(out, pager, &sheet)
}

// Appends what is shown of the lines of a game's sheet.
fn append_sheet<A: Allocator + Copy>(
    out: &mut Vec<u8, A>,
    pager: &mut Pager,
    sheet: &GameSheet<'_, A>,
) -> Result<(), AllocError>
    ensures ok { OnOk result (AreShown pager.old pager.new out.old.items out.new.items (sheet_lines (game_content sheet.now))) }
    ensures grown { Extends out.old.items out.new.items }
{
    let head = GameHead {
        code: &sheet.code,
        known: sheet.values.len(),
    };
    show(out, pager, &head)?;
    append_values(out, pager, sheet.values)?;
    show_each(out, pager, &sheet.blocks)?;
    show_each(out, pager, &sheet.periods)
}
