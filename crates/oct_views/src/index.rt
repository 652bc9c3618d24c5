//! The tables of all games.
#![tactic(auto, using(oct_ops::proofs::Growing::growing))]

ghost use Rattle.std.specs.Prelude.{◌≡◌, ◌++◌, IfOk, OnOk, count_by, is_some};
ghost use Rattle.std.specs.List.{flat_map, fold};
ghost use Rattle.oct_ops.specs.Growth.{Extends};
ghost use Rattle.oct_views.specs.Index.{counted_row, game_row, games_caption, games_count, games_part, games_table, known_after, link_text, one_or, periodic_row, periods_table, proved_and_known, refuted_caption, refuted_cells, refuted_count, refuted_table, row_begin, row_head, target, totals};
ghost use Rattle.written.specs.Output.{AppendsFront};

use crate::columns::{Column, append_cells, columns_of, heads};
use crate::said::append_said_in_row;
use crate::standing::Standing;
use crate::streamed::stream_table;
use oct_code::Code;
use oct_sheet::{GameTally, Periodic, Remarks, Summary, by_period};
use oct_tables::{Rows, append_table_end, append_table_head};
use oct_text::Piece::{Code as CodeText, Number, Text};
use oct_text::{append_pieces, append_text};
use std::alloc::{AllocError, Allocator};
use std::collections::BTreeSet;
use std::io::{self, Write};
use written::spill;

/// Where a link to a game leads.
#[derive(Clone, Copy)]
pub(crate) enum Links {
    /// To the section of the game in the same report.
    Here,
    /// To the HTML of the game, a file beside this one.
    Files,
}

/// What a link to a game leads to.
#[derive(Clone, Copy)]
pub(crate) enum Anchor {
    /// The game.
    Game,
    /// What is refuted of it.
    Refuted,
}

// Rows of the table of games of which something is refuted, and stands or is withdrawn.
#[derive(Clone, Copy)]
struct RefutedRows {
    links: Links,
    which: Standing,
}

/// Puts how many games there are, and the tables of them, with what these remarks say of the games, behind what stands in the
/// piece, and writes the piece where it is large. The error is that of the writer, or of the kind `OutOfMemory`.
pub(crate) fn stream_games<'n, A: Allocator + Copy, B: Allocator + Copy + 'n, W: Write>(
    links: Links,
    remarks: &Remarks<'n, B>,
    rows: &[Summary],
    piece: &mut Vec<u8, A>,
    out: &mut W,
) -> io::Result<()>
    ensures { OnOk result (AppendsFront (W.contents out.old) (W.contents out.new) (piece.old.items ++ games_part links remarks.now rows.now) piece.new.items) }
{
    append_totals(piece, rows)?;
    stream_refuted(links, Standing::Stands, rows, piece, out)?;
    stream_refuted(links, Standing::Withdrawn, rows, piece, out)?;
    stream_games_table(links, remarks, rows, piece, out)?;
    append_pieces(piece, &[Text(b"</div>\n<div id=\"periods\">\n")])?;
    stream_periods(links, rows, piece, out)
}

// Appends how many games there are, how many with a period, and how many values are known.
fn append_totals<A: Allocator>(out: &mut Vec<u8, A>, rows: &[Summary]) -> Result<(), AllocError>
    ensures ok { OnOk result (out.new.items ≡ out.old.items ++ totals rows.now) }
    ensures grown { Extends out.old.items out.new.items }
{
    append_games_count(out, rows.len() as u64)?;
    append_proved_and_known(out, with_period(rows), all_known(rows))
}

// Appends how many games there are.
fn append_games_count<A: Allocator>(out: &mut Vec<u8, A>, count: u64) -> Result<(), AllocError>
    ensures ok { OnOk result (out.new.items ≡ out.old.items ++ games_count count) }
    ensures grown { Extends out.old.items out.new.items }
{
    append_pieces(
        out,
        &[
            Text(b"<p>"),
            Number(count),
            Text(one_or(count, b" game, ", b" games, ")),
        ],
    )
}

// Appends how many games have a proved period, and how many values are known of all.
fn append_proved_and_known<A: Allocator>(
    out: &mut Vec<u8, A>,
    proved: usize,
    known: u64,
) -> Result<(), AllocError>
    ensures ok { OnOk result (out.new.items ≡ out.old.items ++ proved_and_known proved known) }
    ensures grown { Extends out.old.items out.new.items }
{
    append_pieces(
        out,
        &[
            Number(proved as u64),
            Text(b" with a proved period; "),
            Number(known),
            Text(one_or(known, b" value known.</p>\n", b" values known.</p>\n")),
        ],
    )
}

/// The word for one, or that for another number.
pub(crate) fn one_or<'a>(count: u64, one: &'a [u8], many: &'a [u8]) -> &'a [u8]
    ensures { result.now ≡ one_or count one.now many.now }
{
    if count == 1 { one } else { many }
}

// How many games have a proved period.
fn with_period(rows: &[Summary]) -> usize
    ensures { result ≡ count_by (λ row. is_some row.proved) rows.now }
{
    rows.iter().filter(|row| row.proved.is_some()).count()
}

// How many values are known of all games.
fn all_known(rows: &[Summary]) -> u64
    ensures { result ≡ fold known_after 0 rows.now }
{
    rows.iter().fold(0, |known, row| known_after(known, row))
}

// How many are known with those of one more game.
fn known_after(known: u64, row: &Summary) -> u64
    ensures { result ≡ known_after known row.now }
{
    known.saturating_add(row.known as u64)
}

// Puts the table of games of which something is refuted, and stands or is withdrawn.
fn stream_refuted<A: Allocator + Copy, W: Write>(
    links: Links,
    which: Standing,
    rows: &[Summary],
    piece: &mut Vec<u8, A>,
    out: &mut W,
) -> io::Result<()>
    ensures { OnOk result (AppendsFront (W.contents out.old) (W.contents out.new) (piece.old.items ++ refuted_table links which rows.now) piece.new.items) }
{
    stream_table(
        &RefutedRows { links, which },
        refuted_caption(which),
        &[b"code", b"blocks", b"period claims"],
        rows,
        piece,
        out,
    )
}

// The caption of that table.
fn refuted_caption(which: Standing) -> &'static [u8]
    ensures { result.now ≡ refuted_caption which }
{
    match which {
        Standing::Stands => b"Refuted",
        Standing::Withdrawn => b"Refuted, withdrawn",
    }
}

// How many are refuted, and stand or are withdrawn.
fn refuted_count(which: Standing, tally: GameTally) -> usize
    ensures { result ≡ refuted_count which tally }
{
    match which {
        Standing::Stands => tally.refuted,
        Standing::Withdrawn => tally.withdrawn,
    }
}

// Puts the table of all games, with the columns in which a game has something.
fn stream_games_table<'n, A: Allocator + Copy, B: Allocator + Copy + 'n, W: Write>(
    links: Links,
    remarks: &Remarks<'n, B>,
    rows: &[Summary],
    piece: &mut Vec<u8, A>,
    out: &mut W,
) -> io::Result<()>
    ensures { OnOk result (AppendsFront (W.contents out.old) (W.contents out.new) (piece.old.items ++ games_table links remarks.now rows.now) piece.new.items) }
{
    if rows.is_empty() {
        return Ok(());
    }
    let caption = games_caption(*piece.allocator(), rows.len())?;
    let columns = columns_of(*piece.allocator(), rows)?;
    let heads = heads(*piece.allocator(), &columns)?;
    append_table_head(piece, b"plain", &caption, &heads)?;
    stream_game_rows(links, remarks, &columns, rows, piece, out)?;
    append_table_end(piece)?;
    Ok(())
}

// The caption of a table of so many games.
fn games_caption<A: Allocator>(alloc: A, count: usize) -> Result<Vec<u8, A>, AllocError>
    ensures { IfOk result (λ caption. caption.items ≡ games_caption count) }
{
    let mut caption = Vec::new(alloc);
    append_pieces(
        &mut caption,
        &[Text(b"Games ("), Number(count as u64), Text(b")")],
    )?;
    Ok(caption)
}

// Puts the rows of all games there, with what is said of each.
fn stream_game_rows<'n, A: Allocator, B: Allocator + Copy + 'n, W: Write>(
    links: Links,
    remarks: &Remarks<'n, B>,
    columns: &[Column],
    rows: &[Summary],
    piece: &mut Vec<u8, A>,
    out: &mut W,
) -> io::Result<()>
    ensures { OnOk result (AppendsFront (W.contents out.old) (W.contents out.new) (piece.old.items ++ flat_map (game_row links remarks.now columns.now) rows.now) piece.new.items) }
{
    for row in rows {
        append_game_row(piece, links, remarks, columns, row)?;
        spill(piece, out)?;
    }
    Ok(())
}

// Appends the row of a game.
fn append_game_row<'n, A: Allocator, B: Allocator + Copy + 'n>(
    out: &mut Vec<u8, A>,
    links: Links,
    remarks: &Remarks<'n, B>,
    columns: &[Column],
    row: &Summary,
) -> Result<(), AllocError>
    ensures ok { OnOk result (out.new.items ≡ out.old.items ++ game_row links remarks.now columns.now row.now) }
    ensures grown { Extends out.old.items out.new.items }
{
    append_row_head(out, links, remarks, row)?;
    append_cells(out, columns, row)?;
    append_pieces(out, &[Text(b"</tr>\n")])
}

// Appends the beginning of the row of a game: its code, and what is said of it.
fn append_row_head<'n, A: Allocator, B: Allocator + Copy + 'n>(
    out: &mut Vec<u8, A>,
    links: Links,
    remarks: &Remarks<'n, B>,
    row: &Summary,
) -> Result<(), AllocError>
    ensures ok { OnOk result (out.new.items ≡ out.old.items ++ row_head links remarks.now row.now) }
    ensures grown { Extends out.old.items out.new.items }
{
    append_text(out, row_begin(row.is_refuted()))?;
    append_link(out, links, Anchor::Game, &row.code)?;
    append_said_in_row(out, remarks, row.code)?;
    append_pieces(out, &[Text(b"</th>")])
}

// How a row begins; that of a game of which something is refuted, and not withdrawn, is marked.
fn row_begin(is_refuted: bool) -> &'static [u8]
    ensures { result.now ≡ row_begin is_refuted }
{
    if is_refuted {
        b"<tr class=\"refuted\"><th scope=\"row\">"
    } else {
        b"<tr><th scope=\"row\">"
    }
}

// Puts the table of games by period.
fn stream_periods<A: Allocator + Copy, W: Write>(
    links: Links,
    rows: &[Summary],
    piece: &mut Vec<u8, A>,
    out: &mut W,
) -> io::Result<()>
    ensures { OnOk result (AppendsFront (W.contents out.old) (W.contents out.new) (piece.old.items ++ periods_table links rows.now) piece.new.items) }
{
    let found = by_period(*piece.allocator(), rows)?;
    if found.is_empty() {
        return Ok(());
    }
    append_table_head(
        piece,
        b"plain",
        b"Games by period",
        &[b"period", b"start", b"code"],
    )?;
    stream_periodic_rows(links, &found, piece, out)?;
    append_table_end(piece)?;
    Ok(())
}

// Puts the rows of games by period there.
fn stream_periodic_rows<A: Allocator + Copy, W: Write>(
    links: Links,
    found: &BTreeSet<Periodic, A>,
    piece: &mut Vec<u8, A>,
    out: &mut W,
) -> io::Result<()>
    ensures { OnOk result (AppendsFront (W.contents out.old) (W.contents out.new) (piece.old.items ++ flat_map (periodic_row links) found.now.keys) piece.new.items) }
{
    for row in found {
        append_periodic_row(piece, links, row)?;
        spill(piece, out)?;
    }
    Ok(())
}

// Appends the row of a game by its period.
fn append_periodic_row<A: Allocator>(
    out: &mut Vec<u8, A>,
    links: Links,
    row: &Periodic,
) -> Result<(), AllocError>
    ensures ok { OnOk result (out.new.items ≡ out.old.items ++ periodic_row links row.now) }
    ensures grown { Extends out.old.items out.new.items }
{
    append_pieces(
        out,
        &[
            Text(b"<tr><th scope=\"row\">"),
            Number(row.period as u64),
            Text(b"</th><td>"),
            Number(row.start as u64),
            Text(b"</td><td>"),
        ],
    )?;
    append_link(out, links, Anchor::Game, &row.code)?;
    append_pieces(out, &[Text(b"</td></tr>\n")])
}

impl Rows<Summary> for RefutedRows {
    ghost use Rattle.oct_views.specs.Index.{refuted_row};

    ghost text = { λ way row. refuted_row way.links way.which row };

    fn append_row<A: Allocator + Copy>(
        &self,
        out: &mut Vec<u8, A>,
        row: &Summary,
    ) -> Result<(), AllocError> {
        append_refuted_row(
            out,
            self.links,
            &row.code,
            refuted_count(self.which, row.blocks),
            refuted_count(self.which, row.claims),
        )
    }
}

// Appends the row of a game of which so many blocks and claims are refuted, or nothing where none is.
fn append_refuted_row<A: Allocator>(
    out: &mut Vec<u8, A>,
    links: Links,
    code: &Code,
    blocks: usize,
    claims: usize,
) -> Result<(), AllocError>
    ensures ok { OnOk result (out.new.items ≡ out.old.items ++ counted_row links code.now blocks claims) }
    ensures grown { Extends out.old.items out.new.items }
{
    if blocks == 0 && claims == 0 {
        append_pieces(out, &[])
    } else {
        append_refuted_cells(out, links, code, blocks, claims)
    }
}

// Appends the cells of a game, and of how many of its blocks and claims are refuted.
fn append_refuted_cells<A: Allocator>(
    out: &mut Vec<u8, A>,
    links: Links,
    code: &Code,
    blocks: usize,
    claims: usize,
) -> Result<(), AllocError>
    ensures ok { OnOk result (out.new.items ≡ out.old.items ++ refuted_cells links code.now blocks claims) }
    ensures grown { Extends out.old.items out.new.items }
{
    append_pieces(out, &[Text(b"<tr><th scope=\"row\">")])?;
    append_link(out, links, Anchor::Refuted, code)?;
    append_pieces(
        out,
        &[
            Text(b"</th><td>"),
            Number(blocks as u64),
            Text(b"</td><td>"),
            Number(claims as u64),
            Text(b"</td></tr>\n"),
        ],
    )
}

// Appends a link to an anchor of a game.
fn append_link<A: Allocator>(
    out: &mut Vec<u8, A>,
    links: Links,
    anchor: Anchor,
    code: &Code,
) -> Result<(), AllocError>
    ensures ok { OnOk result (out.new.items ≡ out.old.items ++ link_text links anchor code.now) }
    ensures grown { Extends out.old.items out.new.items }
{
    append_pieces(out, &[Text(b"<a href=\"")])?;
    append_target(out, links, anchor, code)?;
    append_pieces(out, &[Text(b"\">"), CodeText(*code), Text(b"</a>")])
}

// Appends where that anchor is.
fn append_target<A: Allocator>(
    out: &mut Vec<u8, A>,
    links: Links,
    anchor: Anchor,
    code: &Code,
) -> Result<(), AllocError>
    ensures ok { OnOk result (out.new.items ≡ out.old.items ++ target links anchor code.now) }
    ensures grown { Extends out.old.items out.new.items }
{
    match (links, anchor) {
        (Links::Here, Anchor::Game) => append_pieces(out, &[Text(b"#game-"), CodeText(*code)]),
        (Links::Here, Anchor::Refuted) => append_pieces(
            out,
            &[Text(b"#refuted-"), CodeText(*code)],
        ),
        (Links::Files, Anchor::Game) => append_pieces(out, &[CodeText(*code), Text(b".html")]),
        (Links::Files, Anchor::Refuted) => append_pieces(
            out,
            &[CodeText(*code), Text(b".html#refuted-"), CodeText(*code)],
        ),
    }
}
