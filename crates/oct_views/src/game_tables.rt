//! What HTML shows of one game, below its picture.
#![tactic(auto, using(oct_ops::proofs::Growing::growing))]

ghost use Rattle.std.specs.Prelude.{◌≡◌, ◌++◌, OnOk};
ghost use Rattle.oct_ops.specs.Growth.{Extends};
ghost use Rattle.oct_pages.specs.Contents.{game_content};
ghost use Rattle.oct_views.specs.Game.{blocks_table, broken_table, broken_tables, game_tables, periods_table, refutations_table, refutations_tables, refuted_head, refuted_part, told, told_and_said, told_or_found, unclaimed};

use crate::blocks_tables::{append_block_rows, append_refuted_rows};
use crate::periods_table::{append_broken_rows, append_period_rows};
use crate::proved::append_found;
use crate::said::append_said_paragraphs;
use crate::standing::Standing;
use oct_code::Code;
use oct_mex::SeenPeriod;
use oct_ops::Period;
use oct_overview::claimed_in;
use oct_pages::{BlockRow, GameSheet, PeriodRow};
use oct_plot::append_sentence;
use oct_sheet::Remarks;
use oct_tables::{append_table, append_values_tables};
use oct_text::Piece::{Code as CodeText, Text};
use oct_text::{Shown, append_pieces};
use std::alloc::{AllocError, Allocator};

/// Appends what is proved of all heaps and what somebody says of them, the values, what is refuted, the blocks and the claims, with
/// what these remarks say of them. Where a search of this program proved a period, that is told in place of what the known values
/// prove.
pub(crate) fn append_game_tables<'n, A: Allocator + Copy, B: Allocator + Copy + 'n>(
    out: &mut Vec<u8, A>,
    found: Option<SeenPeriod>,
    remarks: &Remarks<'n, B>,
    how: Shown,
    game: &GameSheet<'_, B>,
) -> Result<(), AllocError>
    ensures ok { OnOk result (out.new.items ≡ out.old.items ++ game_tables found remarks.now how (game_content game.now)) }
    ensures grown { Extends out.old.items out.new.items }
{
    append_told_and_said(out, found, remarks, game)?;
    append_values_tables(out, how, game.values, &game.proved)?;
    append_refuted(out, remarks, game)?;
    append_blocks(out, remarks, &game.blocks)?;
    append_claims(out, remarks, game)
}

// Appends the table of all blocks.
fn append_blocks<'n, A: Allocator + Copy, B: Allocator + Copy + 'n>(
    out: &mut Vec<u8, A>,
    remarks: &Remarks<'n, B>,
    blocks: &[BlockRow],
) -> Result<(), AllocError>
    ensures ok { OnOk result (out.new.items ≡ out.old.items ++ blocks_table remarks.now blocks.now) }
    ensures grown { Extends out.old.items out.new.items }
{
    let mut rows = Vec::new(*out.allocator());
    append_block_rows(&mut rows, remarks, blocks)?;
    append_table(
        out,
        b"Blocks",
        &[b"block", b"first heap", b"values", b"status"],
        &rows,
    )
}

// Appends the table of all claims.
fn append_claims<'n, A: Allocator + Copy, B: Allocator + Copy + 'n>(
    out: &mut Vec<u8, A>,
    remarks: &Remarks<'n, B>,
    game: &GameSheet<'_, B>,
) -> Result<(), AllocError>
    ensures ok { OnOk result (out.new.items ≡ out.old.items ++ periods_table remarks.now (game_content game.now).values (game_content game.now).periods) }
    ensures grown { Extends out.old.items out.new.items }
{
    let mut rows = Vec::new(*out.allocator());
    append_period_rows(&mut rows, remarks, game.values, &game.periods)?;
    append_table(
        out,
        b"Period claims",
        &[b"claim", b"start", b"period", b"status"],
        &rows,
    )
}

// Appends what is proved of all heaps, and what somebody says of them.
fn append_told_and_said<'n, A: Allocator, B: Allocator + Copy + 'n>(
    out: &mut Vec<u8, A>,
    found: Option<SeenPeriod>,
    remarks: &Remarks<'n, B>,
    game: &GameSheet<'_, B>,
) -> Result<(), AllocError>
    ensures ok { OnOk result (out.new.items ≡ out.old.items ++ told_and_said found remarks.now (game_content game.now)) }
    ensures grown { Extends out.old.items out.new.items }
{
    append_told_or_found(out, found, game)?;
    append_said_paragraphs(out, remarks, game.code)
}

// Appends the period that a search proved, or else what the known values prove of all heaps.
fn append_told_or_found<A: Allocator, B: Allocator + Copy>(
    out: &mut Vec<u8, A>,
    found: Option<SeenPeriod>,
    game: &GameSheet<'_, B>,
) -> Result<(), AllocError>
    ensures ok { OnOk result (out.new.items ≡ out.old.items ++ told_or_found found (game_content game.now)) }
    ensures grown { Extends out.old.items out.new.items }
{
    match found {
        Some(seen) => append_found(out, seen),
        None => append_told(out, game),
    }
}

// Appends what the known values prove of all heaps.
fn append_told<A: Allocator, B: Allocator + Copy>(
    out: &mut Vec<u8, A>,
    game: &GameSheet<'_, B>,
) -> Result<(), AllocError>
    ensures ok { OnOk result (out.new.items ≡ out.old.items ++ told (game_content game.now).periods (game_content game.now).values (game_content game.now).proved) }
    ensures grown { Extends out.old.items out.new.items }
{
    append_pieces(out, &[Text(b"<p>")])?;
    append_sentence(out, game.values, &game.proved)?;
    append_pieces(out, &[Text(b"</p>\n")])?;
    append_unclaimed(out, &game.periods, &game.proved)
}

// Appends that no claim has just the period that is proved, where this is so.
fn append_unclaimed<A: Allocator>(
    out: &mut Vec<u8, A>,
    rows: &[PeriodRow],
    proved: &Option<Period>,
) -> Result<(), AllocError>
    ensures ok { OnOk result (out.new.items ≡ out.old.items ++ unclaimed rows.now proved.now) }
    ensures grown { Extends out.old.items out.new.items }
{
    match proved {
        Some(period) if !claimed_in(rows, period) => {
            append_pieces(out, &[Text(b"<p>No claim says so.</p>\n")])
        }
        _ => Ok(()),
    }
}

// Appends the tables of what is refuted, in a place that a table of games links to.
fn append_refuted<'n, A: Allocator + Copy, B: Allocator + Copy + 'n>(
    out: &mut Vec<u8, A>,
    remarks: &Remarks<'n, B>,
    game: &GameSheet<'_, B>,
) -> Result<(), AllocError>
    ensures ok { OnOk result (out.new.items ≡ out.old.items ++ refuted_part remarks.now (game_content game.now)) }
    ensures grown { Extends out.old.items out.new.items }
{
    append_refuted_head(out, &game.code)?;
    append_refutations(out, remarks, &game.blocks)?;
    append_broken(out, remarks, game)?;
    append_pieces(out, &[Text(b"</div>\n")])
}

// Appends the tables of refuted blocks: of those that stand, and of those that are withdrawn.
fn append_refutations<'n, A: Allocator + Copy, B: Allocator + Copy + 'n>(
    out: &mut Vec<u8, A>,
    remarks: &Remarks<'n, B>,
    blocks: &[BlockRow],
) -> Result<(), AllocError>
    ensures ok { OnOk result (out.new.items ≡ out.old.items ++ refutations_tables remarks.now blocks.now) }
    ensures grown { Extends out.old.items out.new.items }
{
    append_refutation_table(out, remarks, b"Refuted blocks", Standing::Stands, blocks)?;
    append_refutation_table(
        out,
        remarks,
        b"Refuted blocks, withdrawn",
        Standing::Withdrawn,
        blocks,
    )
}

// Appends one of them.
fn append_refutation_table<'n, A: Allocator + Copy, B: Allocator + Copy + 'n>(
    out: &mut Vec<u8, A>,
    remarks: &Remarks<'n, B>,
    caption: &[u8],
    which: Standing,
    blocks: &[BlockRow],
) -> Result<(), AllocError>
    ensures ok { OnOk result (out.new.items ≡ out.old.items ++ refutations_table remarks.now caption.now which blocks.now) }
    ensures grown { Extends out.old.items out.new.items }
{
    let mut rows = Vec::new(*out.allocator());
    append_refuted_rows(&mut rows, remarks, which, blocks)?;
    append_table(
        out,
        caption,
        &[b"block", b"heap", b"claimed value", b"true value"],
        &rows,
    )
}

// Appends the tables of refuted claims: of those that stand, and of those that are withdrawn.
fn append_broken<'n, A: Allocator + Copy, B: Allocator + Copy + 'n>(
    out: &mut Vec<u8, A>,
    remarks: &Remarks<'n, B>,
    game: &GameSheet<'_, B>,
) -> Result<(), AllocError>
    ensures ok { OnOk result (out.new.items ≡ out.old.items ++ broken_tables remarks.now (game_content game.now).values (game_content game.now).periods) }
    ensures grown { Extends out.old.items out.new.items }
{
    append_broken_table(
        out,
        remarks,
        b"Refuted period claims",
        Standing::Stands,
        game,
    )?;
    append_broken_table(
        out,
        remarks,
        b"Refuted period claims, withdrawn",
        Standing::Withdrawn,
        game,
    )
}

// Appends one of them.
fn append_broken_table<'n, A: Allocator + Copy, B: Allocator + Copy + 'n>(
    out: &mut Vec<u8, A>,
    remarks: &Remarks<'n, B>,
    caption: &[u8],
    which: Standing,
    game: &GameSheet<'_, B>,
) -> Result<(), AllocError>
    ensures ok { OnOk result (out.new.items ≡ out.old.items ++ broken_table remarks.now (game_content game.now).values caption.now which (game_content game.now).periods) }
    ensures grown { Extends out.old.items out.new.items }
{
    let mut rows = Vec::new(*out.allocator());
    append_broken_rows(&mut rows, remarks, game.values, which, &game.periods)?;
    append_table(
        out,
        caption,
        &[b"claim", b"start", b"period", b"status"],
        &rows,
    )
}

// Appends the beginning of that place.
fn append_refuted_head<A: Allocator>(out: &mut Vec<u8, A>, code: &Code) -> Result<(), AllocError>
    ensures ok { OnOk result (out.new.items ≡ out.old.items ++ refuted_head code.now) }
    ensures grown { Extends out.old.items out.new.items }
{
    append_pieces(
        out,
        &[Text(b"<div id=\"refuted-"), CodeText(*code), Text(b"\">\n")],
    )
}
