//! How a catalogue is made ready to be written.

ghost use Rattle.std.specs.Prelude.{◌≡◌, ◌∷◌, [], ◌++◌, map, OnOk, IfOk};
ghost use Rattle.std.specs.List.{concat, flat_map};
ghost use Rattle.oct_ops.specs.Operations.{listed};
ghost use Rattle.oct_ops.specs.Sets as sets;
ghost use Rattle.oct_period.specs.Claims.{first_proved as first_proved_of};
ghost use Rattle.oct_mex.specs.NimValues.{nim_values};
ghost use Rattle.oct_pages.specs.Catalogue.{blocks_of, catalogue, game_lines, game_text, games as games_of, values_lines};
ghost use Rattle.oct_pages.specs.GamesIn.{AreGamesIn, content_in};
ghost use Rattle.oct_pages.specs.HeldBlocks.{lines_by, some_lines};
ghost use Rattle.oct_pages.specs.Sheet.{period_row, period_row_text};
ghost use Rattle.oct_store.specs.Summary.{of_game};
ghost use Rattle.oct_verify.specs.Filing.{blocks_in};
ghost use Rattle.oct_verify.specs.Known.{known};

use crate::blocks::GameHead;
use crate::built::game_after;
use crate::catalogue::{append_rest, write_catalogue_of};
use crate::codes::codes_of;
use crate::games::append_game;
use crate::held_blocks::HeldBlocks;
use crate::line::{show, show_each};
use crate::pager::Pager;
use crate::ready::ReadyCatalogue;
use crate::statuses::{first_proved, period_rows};
use crate::values::append_values;
use oct_code::Code;
use oct_join::OpSet;
use oct_period::{Game, Leaders, PeriodClaim};
use oct_record::Record;
use oct_text::append_text;
use std::alloc::{AllocError, Allocator};
use std::collections::BTreeMap;

// So many bytes are put together before they are written.
const PIECE: usize = 65_536;

/// Makes the catalogue of what was said ready to be written. All memory is asked for here, and none to write it; the one error is
/// that it is refused. But for the last game, which stays until it is written, one game is in memory at a time.
pub fn ready_catalogue<A: Allocator + Copy>(
    said: &Record<A>,
) -> Result<ReadyCatalogue<'_, A>, AllocError>
    ensures { IfOk result (λ ready. ready ≡ catalogue (listed said.now.ops)) }
{
    let codes = codes_of(said)?;
    match codes.split_last() {
        Some((last, others)) => ready_with_games(said, others, *last),
        None => ready_as_text(said),
    }
}

// The same, as a text that is whole.
fn ready_as_text<A: Allocator + Copy>(said: &Record<A>) -> Result<ReadyCatalogue<'_, A>, AllocError>
    ensures { IfOk result (λ ready. ready ≡ catalogue (listed said.now.ops)) }
{
    let alloc = said.allocator();
    let mut front = Vec::new(alloc);
    write_catalogue_of(said, &mut front)?;
    Ok(ReadyCatalogue {
        front,
        blocks: None,
        rest: Vec::new(alloc),
    })
}

// The same, where these are the codes of the games.
fn ready_with_games<'a, A: Allocator + Copy>(
    said: &'a Record<A>,
    others: &[Code],
    last: Code,
) -> Result<ReadyCatalogue<'a, A>, AllocError>
    requires { games_of (listed said.now.ops) ≡ others.now ++ last ∷ [] }
    ensures { IfOk result (λ ready. ready ≡ catalogue (listed said.now.ops)) }
{
    let alloc = said.allocator();
    let mut front = Vec::new(alloc);
    append_text(&mut front, b"census 2\n")?;
    let game = append_others(&mut front, said, others, last)?;
    append_head(&mut front, &game)?;
    front.reserve(PIECE)?;
    let mut rest = Vec::new(alloc);
    let claim = append_claims(alloc, &mut rest, &game)?;
    append_rest(
        &mut rest,
        &mut Pager::All,
        said.store(),
        said.notes(),
        said.store(),
    )?;
    let blocks = held_blocks(said, last, game, claim);
    Ok(ReadyCatalogue {
        front,
        blocks,
        rest,
    })
}

// Appends the lines of the games of these codes, and builds the one of another code.
fn append_others<A: Allocator + Copy>(
    out: &mut Vec<u8, A>,
    said: &Record<A>,
    others: &[Code],
    last: Code,
) -> Result<Game<A>, AllocError>
    ensures lines { OnOk result (out.new.items ≡ out.old.items ++ concat (flat_map (game_lines (listed said.now.ops)) others.now)) }
    ensures game { IfOk result (λ game. game ≡ content_in said.now.ops last) }
{
    let none = BTreeMap::new(said.allocator());
    let mut leaders = Leaders::new(said.allocator());
    for code in others {
        append_coded(out, said, &none, *code, &mut leaders)?;
    }
    game_after(said, last, &mut leaders)
}

// Appends the lines of the game of a code.
fn append_coded<A: Allocator + Copy>(
    out: &mut Vec<u8, A>,
    said: &Record<A>,
    none: &BTreeMap<Code, Game<A>, A>,
    code: Code,
    leaders: &mut Leaders<A>,
) -> Result<(), AllocError>
    requires { AreGamesIn said.now.ops none.now }
    ensures { OnOk result (out.new.items ≡ out.old.items ++ concat (game_lines (listed said.now.ops) code)) }
{
    match said.game(code) {
        Some(ops) => append_game(out, &mut Pager::All, said, none, code, ops, leaders),
        None => {
            let ops = OpSet::new(said.allocator());
            append_game(out, &mut Pager::All, said, none, code, &ops, leaders)
        }
    }
}

// Appends the lines of a game before those of its blocks.
fn append_head<A: Allocator + Copy>(out: &mut Vec<u8, A>, game: &Game<A>) -> Result<(), AllocError>
    ensures { OnOk result (out.new.items ≡ out.old.items ++ concat (game_text game.now.code (known (blocks_in game.now.blocks)) ∷ values_lines (nim_values game.now.code (known (blocks_in game.now.blocks))))) }
{
    let values = game.ledger().known_values();
    let head = GameHead {
        code: &game.code(),
        known: values.len(),
    };
    show(out, &mut Pager::All, &head)?;
    append_values(out, &mut Pager::All, values)
}

// Appends the lines of a game's claims, and gives the first one that is proved.
fn append_claims<A: Allocator + Copy>(
    alloc: A,
    out: &mut Vec<u8, A>,
    game: &Game<A>,
) -> Result<Option<PeriodClaim>, AllocError>
    ensures lines { OnOk result (out.new.items ≡ out.old.items ++ concat (map period_row_text (map (period_row (blocks_in game.now.blocks)) (sets.listed game.now.claims)))) }
    ensures first { IfOk result (λ claim. claim ≡ first_proved_of (blocks_in game.now.blocks) (sets.listed game.now.claims)) }
{
    let periods = period_rows(alloc, game)?;
    show_each(out, &mut Pager::All, &periods)?;
    Ok(first_proved(&periods))
}

// The blocks of a game, with its first claim that is proved.
fn held_blocks<A: Allocator + Copy>(
    said: &Record<A>,
    code: Code,
    game: Game<A>,
    claim: Option<PeriodClaim>,
) -> Option<HeldBlocks<'_, A>>
    requires built { game ≡ content_in said.now.ops code }
    requires first { claim ≡ first_proved_of (blocks_in game.blocks) (sets.listed game.claims) }
    ensures { some_lines result ≡ lines_by game (blocks_of game.code (listed (of_game said.now.ops code))) }
{
    match said.game(code) {
        Some(ops) => Some(HeldBlocks { game, claim, ops }),
        None => None,
    }
}
