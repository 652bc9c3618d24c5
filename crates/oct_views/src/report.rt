//! The report of a census, written piece by piece.
#![tactic(auto, using(oct_ops::proofs::Growing::growing))]

ghost use Rattle.std.specs.Prelude.{IfOk, ◌≡◌, ◌++◌, true, OnErr, OnOk, map, ◌∷◌, []};
ghost use Rattle.std.specs.Io.KnownBytes.{Appends};
ghost use Rattle.std.specs.List.{flat_map, list_all};
ghost use Rattle.oct_ops.specs.Operations.{listed};
ghost use Rattle.oct_ops.specs.Sets.{contains};
ghost use Rattle.oct_pages.specs.Catalogue.{blocks_of};
ghost use Rattle.oct_pages.specs.Contents.{game_content};
ghost use Rattle.oct_pages.specs.GamesIn.{AreGamesIn, content_in};
ghost use Rattle.oct_pages.specs.Sheet.{sheet_by};
ghost use Rattle.oct_ops.specs.Growth.{Extends};
ghost use Rattle.oct_store.specs.Summary as summary;
ghost use Rattle.oct_views.specs.Index.{games_part};
ghost use Rattle.oct_views.specs.Report.{figure, games_head, records_part, report, section, shown_section, shown_summary, style_inside};
ghost use Rattle.oct_views.specs.declared.index.Links.TheVariants.{Here};
ghost use Rattle.oct_sheet.specs.Sheet.{game_sheet, sheet, sheet_among};
ghost use Rattle.written.specs.Output.{AppendsFront};

use crate::common::{
    append_figure_end, append_head, append_html_end, stream_records, style_inside,
};
use crate::game_tables::append_game_tables;
use crate::index::{Links, stream_games};
use crate::kept::Kept;
use oct_code::Code;
use oct_join::OpSet;
use oct_overview::with_least;
use oct_pages::{GameProgress, GameSheet, Unwatched, game_after};
use oct_period::{Game, Leaders};
use oct_plot::append_plot;
use oct_record::Record;
use oct_sheet::{Remarks, Summary, told_codes};
use oct_tables::front_values;
use oct_text::Piece::{Code as CodeText, Text};
use oct_text::{Shown, append_pieces};
use std::alloc::{AllocError, Allocator};
use std::collections::BTreeMap;
use std::io::{self, Write};
use written::spill;

/// Appends a report, which shows all of a record, as `stream_report` writes it. The one error is that memory is refused, and then
/// `out` stays as it is.
pub fn write_report<A: Allocator + Copy>(
    said: &Record<A>,
    how: Shown,
    out: &mut Vec<u8, A>,
) -> Result<(), AllocError>
    ensures ok { OnOk result (out.new.items ≡ out.old.items ++ report how (sheet (listed said.now.ops))) }
    ensures err { OnErr result (out.new.items ≡ out.old.items) }
{
    let mut text = Vec::new(said.allocator());
    match stream_report(said, said, how, &mut Unwatched, &mut text) {
        Ok(()) => out.extend_from_slice(&text),
        Err(_) => Err(AllocError),
    }
}

/// Writes a report, which shows all of a part of what was said, as `specs/Report` spells it, in HTML, in pieces of some 64 KiB. It
/// is well-formed XML too, with no script and nothing from outside, which is tested. The tables of all games come first, then the
/// notes and the forks of the part and the authors of the whole; then each game with its plot, its values, as many as `how`
/// says, its blocks and its period claims. Authors are called as the whole calls them. The period of a game is the least one
/// that its known values prove, and where no claim says so, this is said. A table without rows is left out. The games are gone
/// through twice, and `progress` is told of each before it is built; one with more than 1,024 known values is kept for the
/// second time, as long as those that are kept have at most 2^24 together. The error is that of the writer, or of the kind
/// `OutOfMemory`; a part of the report may have been written then.
pub fn stream_report<A: Allocator + Copy, W: Write, P: GameProgress>(
    part: &Record<A>,
    whole: &Record<A>,
    how: Shown,
    progress: &mut P,
    out: &mut W,
) -> io::Result<()>
    ensures { OnOk result (Appends (W.contents out.old) (W.contents out.new) (report how (sheet_among (listed part.now.ops) (listed whole.now.ops)))) }
{
    let mut piece = Vec::new(part.allocator());
    stream_parts(part, whole, how, progress, &mut piece, out)?;
    out.write_all(&piece)
}

// Puts the report behind what stands in the piece, and writes the piece where it is large.
fn stream_parts<A: Allocator + Copy, W: Write, P: GameProgress>(
    part: &Record<A>,
    whole: &Record<A>,
    how: Shown,
    progress: &mut P,
    piece: &mut Vec<u8, A>,
    out: &mut W,
) -> io::Result<()>
    ensures { OnOk result (AppendsFront (W.contents out.old) (W.contents out.new) (piece.old.items ++ report how (sheet_among (listed part.now.ops) (listed whole.now.ops))) piece.new.items) }
{
    let remarks = Remarks::of_record(whole)?;
    let mut kept = Kept::new(part.allocator());
    stream_tables(part, &remarks, &mut kept, progress, piece, out)?;
    stream_records(part, whole, piece, out)?;
    stream_sections(part, &kept.games, &remarks, how, progress, piece, out)?;
    append_html_end(piece)?;
    Ok(())
}

// Puts the head and the tables of all games there, and keeps games for what comes behind.
fn stream_tables<'n, A: Allocator + Copy + 'n, W: Write, P: GameProgress>(
    said: &Record<A>,
    remarks: &Remarks<'n, A>,
    kept: &mut Kept<A>,
    progress: &mut P,
    piece: &mut Vec<u8, A>,
    out: &mut W,
) -> io::Result<()>
    requires { AreGamesIn said.now.ops kept.old.games }
    ensures kept { OnOk result (AreGamesIn said.now.ops kept.new.games) }
    ensures text { OnOk result (AppendsFront (W.contents out.old) (W.contents out.new) (piece.old.items ++ (games_head style_inside ++ games_part Here remarks.now (map (shown_summary remarks.now) (sheet (listed said.now.ops)).games))) piece.new.items) }
{
    let rows = summaries(said, remarks, kept, progress)?;
    let style = style_inside(said.allocator())?;
    append_head(piece, &style)?;
    stream_games(Links::Here, remarks, &rows, piece, out)
}

// The summaries of the games, of which some are kept.
fn summaries<'n, A: Allocator + Copy + 'n, P: GameProgress>(
    said: &Record<A>,
    remarks: &Remarks<'n, A>,
    kept: &mut Kept<A>,
    progress: &mut P,
) -> Result<Vec<Summary, A>, AllocError>
    requires { AreGamesIn said.now.ops kept.old.games }
    ensures kept { OnOk result (AreGamesIn said.now.ops kept.new.games) }
    ensures rows { IfOk result (λ rows. rows.items ≡ map (shown_summary remarks.now) (sheet (listed said.now.ops)).games) }
{
    let codes = told_codes(said)?;
    summaries_of(said, &codes, remarks, kept, progress)
}

// The summaries of the games of these codes, of which some are kept.
fn summaries_of<'n, A: Allocator + Copy + 'n, P: GameProgress>(
    said: &Record<A>,
    codes: &[Code],
    remarks: &Remarks<'n, A>,
    kept: &mut Kept<A>,
    progress: &mut P,
) -> Result<Vec<Summary, A>, AllocError>
    requires { AreGamesIn said.now.ops kept.old.games }
    ensures kept { OnOk result (AreGamesIn said.now.ops kept.new.games) }
    ensures rows { IfOk result (λ rows. rows.items ≡ map (λ c. shown_summary remarks.now (game_sheet (listed said.now.ops) c)) codes.now) }
{
    let mut rows = Vec::new(said.allocator());
    let all = codes.len() as u64;
    let mut done = 0_u64;
    let mut leaders = Leaders::new(said.allocator());
    for code in codes {
        progress.tell(*code, done, all);
        let game = game_after(said, *code, &mut leaders)?;
        add_row(&mut rows, said, remarks, *code, &game)?;
        kept.keep(game)?;
        done = done.saturating_add(1);
    }
    Ok(rows)
}

// Adds the summary of a game of this code.
fn add_row<'n, A: Allocator + Copy + 'n>(
    rows: &mut Vec<Summary, A>,
    said: &Record<A>,
    remarks: &Remarks<'n, A>,
    code: Code,
    game: &Game<A>,
) -> Result<(), AllocError>
    requires { game.now ≡ content_in said.now.ops code }
    ensures { OnOk result (rows.new.items ≡ rows.old.items ++ shown_summary remarks.now (game_sheet (listed said.now.ops) code) ∷ []) }
{
    match said.game(code) {
        Some(ops) => add_known(rows, said, remarks, code, game, ops),
        None => add_known(
            rows,
            said,
            remarks,
            code,
            game,
            &OpSet::new(said.allocator()),
        ),
    }
}

// Adds the summary of a game of this code, which has these operations.
fn add_known<'n, A: Allocator + Copy + 'n>(
    rows: &mut Vec<Summary, A>,
    said: &Record<A>,
    remarks: &Remarks<'n, A>,
    code: Code,
    game: &Game<A>,
    ops: &OpSet<A>,
) -> Result<(), AllocError>
    requires game { game.now ≡ content_in said.now.ops code }
    requires its { ops.now ≡ summary.of_game said.now.ops code }
    ensures { OnOk result (rows.new.items ≡ rows.old.items ++ shown_summary remarks.now (game_sheet (listed said.now.ops) code) ∷ []) }
{
    add_summary(rows, said, remarks, game, ops)
}

// Adds the summary of a game, which holds the blocks of these operations.
fn add_summary<'n, A: Allocator + Copy + 'n>(
    rows: &mut Vec<Summary, A>,
    said: &Record<A>,
    remarks: &Remarks<'n, A>,
    game: &Game<A>,
    ops: &OpSet<A>,
) -> Result<(), AllocError>
    requires { list_all (contains game.now.blocks) (blocks_of game.now.code (listed ops.now)) ≡ true }
    ensures { OnOk result (rows.new.items ≡ rows.old.items ++ shown_summary remarks.now (sheet_by game.now (listed ops.now)) ∷ []) }
{
    let sheet = GameSheet::of_game(said.allocator(), game, ops)?;
    let found = game.find_period();
    let shown = with_least(sheet, &found);
    Summary::add(rows, &shown, remarks)
}

// Puts the sections of the games there.
fn stream_sections<'n, A: Allocator + Copy + 'n, W: Write, P: GameProgress>(
    said: &Record<A>,
    kept: &BTreeMap<Code, Game<A>, A>,
    remarks: &Remarks<'n, A>,
    how: Shown,
    progress: &mut P,
    piece: &mut Vec<u8, A>,
    out: &mut W,
) -> io::Result<()>
    requires { AreGamesIn said.now.ops kept.now }
    ensures { OnOk result (AppendsFront (W.contents out.old) (W.contents out.new) (piece.old.items ++ flat_map (shown_section remarks.now how) (sheet (listed said.now.ops)).games) piece.new.items) }
{
    let codes = told_codes(said)?;
    stream_each(said, &codes, kept, remarks, how, progress, piece, out)
}

// Puts the sections of the games of these codes there.
fn stream_each<'n, A: Allocator + Copy + 'n, W: Write, P: GameProgress>(
    said: &Record<A>,
    codes: &[Code],
    kept: &BTreeMap<Code, Game<A>, A>,
    remarks: &Remarks<'n, A>,
    how: Shown,
    progress: &mut P,
    piece: &mut Vec<u8, A>,
    out: &mut W,
) -> io::Result<()>
    requires { AreGamesIn said.now.ops kept.now }
    ensures { OnOk result (AppendsFront (W.contents out.old) (W.contents out.new) (piece.old.items ++ flat_map (λ c. shown_section remarks.now how (game_sheet (listed said.now.ops) c)) codes.now) piece.new.items) }
{
    let all = codes.len() as u64;
    let mut done = 0_u64;
    let mut leaders = Leaders::new(said.allocator());
    for code in codes {
        progress.tell(*code, done, all);
        append_told(piece, remarks, how, said, kept, *code, &mut leaders)?;
        spill(piece, out)?;
        done = done.saturating_add(1);
    }
    Ok(())
}

// Appends the section of a game.
fn append_told<'n, A: Allocator + Copy + 'n>(
    out: &mut Vec<u8, A>,
    remarks: &Remarks<'n, A>,
    how: Shown,
    said: &Record<A>,
    kept: &BTreeMap<Code, Game<A>, A>,
    code: Code,
    leaders: &mut Leaders<A>,
) -> Result<(), AllocError>
    requires { AreGamesIn said.now.ops kept.now }
    ensures { OnOk result (out.new.items ≡ out.old.items ++ shown_section remarks.now how (game_sheet (listed said.now.ops) code)) }
{
    match said.game(code) {
        Some(ops) => append_game(out, remarks, how, said, kept, code, ops, leaders),
        None => append_game(
            out,
            remarks,
            how,
            said,
            kept,
            code,
            &OpSet::new(said.allocator()),
            leaders,
        ),
    }
}

// Appends the section of a game with these operations. Where it is not kept, it is built, and let go after it.
fn append_game<'n, A: Allocator + Copy + 'n>(
    out: &mut Vec<u8, A>,
    remarks: &Remarks<'n, A>,
    how: Shown,
    said: &Record<A>,
    kept: &BTreeMap<Code, Game<A>, A>,
    code: Code,
    ops: &OpSet<A>,
    leaders: &mut Leaders<A>,
) -> Result<(), AllocError>
    requires kept { AreGamesIn said.now.ops kept.now }
    requires its { ops.now ≡ summary.of_game said.now.ops code }
    ensures { OnOk result (out.new.items ≡ out.old.items ++ shown_section remarks.now how (game_sheet (listed said.now.ops) code)) }
{
    if let Some(game) = kept.get(&code) {
        return append_shown(said.allocator(), out, remarks, how, game, ops);
    }
    let game = game_after(said, code, leaders)?;
    append_shown(said.allocator(), out, remarks, how, &game, ops)
}

// Appends the section of a game, which holds the blocks of these operations.
fn append_shown<'n, A: Allocator + Copy + 'n>(
    alloc: A,
    out: &mut Vec<u8, A>,
    remarks: &Remarks<'n, A>,
    how: Shown,
    game: &Game<A>,
    ops: &OpSet<A>,
) -> Result<(), AllocError>
    requires { list_all (contains game.now.blocks) (blocks_of game.now.code (listed ops.now)) ≡ true }
    ensures { OnOk result (out.new.items ≡ out.old.items ++ shown_section remarks.now how (sheet_by game.now (listed ops.now))) }
{
    let sheet = GameSheet::of_game(alloc, game, ops)?;
    let found = game.find_period();
    let shown = with_least(sheet, &found);
    append_section(out, remarks, how, &shown)
}

// Appends the section of a game.
fn append_section<'n, A: Allocator + Copy, B: Allocator + Copy + 'n>(
    out: &mut Vec<u8, A>,
    remarks: &Remarks<'n, B>,
    how: Shown,
    game: &GameSheet<'_, B>,
) -> Result<(), AllocError>
    ensures ok { OnOk result (out.new.items ≡ out.old.items ++ section remarks.now how (game_content game.now)) }
    ensures grown { Extends out.old.items out.new.items }
{
    append_figure(out, how, game)?;
    append_game_tables(out, None, remarks, how, game)?;
    append_pieces(
        out,
        &[Text(b"<p><a href=\"#games\">All games</a></p>\n</section>\n")],
    )
}

// Appends the heads of the section, and the plot of the first values that are shown.
fn append_figure<A: Allocator + Copy, B: Allocator + Copy>(
    out: &mut Vec<u8, A>,
    how: Shown,
    game: &GameSheet<'_, B>,
) -> Result<(), AllocError>
    ensures ok { OnOk result (out.new.items ≡ out.old.items ++ figure how (game_content game.now)) }
    ensures grown { Extends out.old.items out.new.items }
{
    append_pieces(
        out,
        &[
            Text(b"<section id=\"game-"),
            CodeText(game.code),
            Text(b"\">\n<h2>"),
            CodeText(game.code),
            Text(b"</h2>\n<figure>\n"),
        ],
    )?;
    let shown = front_values(how, game.values, &game.proved);
    append_plot(out, b"", &game.code, shown, &game.proved)?;
    append_figure_end(out, &game.proved)
}
