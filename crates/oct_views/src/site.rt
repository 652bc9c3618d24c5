//! The files of a site: HTML for each game, an index of all games, and their style.
#![tactic(auto, using(oct_ops::proofs::Growing::growing))]

ghost use Rattle.std.specs.Prelude.{◌≡◌, ◌++◌, OnErr, OnOk, codes};
ghost use Rattle.std.specs.Io.KnownBytes.{Appends};
ghost use Rattle.oct_ops.specs.Operations.{listed};
ghost use Rattle.oct_pages.specs.Contents.{game_content};
ghost use Rattle.oct_ops.specs.Growth.{Extends};
ghost use Rattle.oct_views.specs.Report.{game_head, game_html, image, image_head, index_by, page_link, style_sheet};
ghost use Rattle.oct_sheet.specs.Sheet.{sheet};
ghost use Rattle.written.specs.Output.{AppendsFront};

use crate::common::{
    HEAD_BEGIN, STYLE_LINK, append_figure_end, append_head, append_html_end, stream_records,
};
use crate::game_tables::append_game_tables;
use crate::index::{Links, one_or, stream_games};
use crate::proved::stream_proved;
use crate::styles::HTML_STYLE;
use oct_code::Code;
use oct_ops::Period;
use oct_pages::GameSheet;
use oct_plot::{append_sentence, pictured, title_of};
use oct_proved::ProvedPeriods;
use oct_record::Record;
use oct_sheet::{Remarks, Summary};
use oct_text::Piece::{Code as CodeText, Number, Text};
use oct_text::{Shown, append_pieces};
use std::alloc::{AllocError, Allocator};
use std::io::{self, Write};

/// What stands beside the tables of a site.
#[derive(Clone, Copy)]
pub enum Beside {
    /// Nothing else.
    Nothing,
    /// The page that computes nim-values in the browser, as `compute.html`: each game has a link to it.
    Page,
}

/// Appends the HTML of a game, a file of a site beside `index.html`, `style.css`, and the game's picture, b-file and JSON,
/// which have the code for their names: what is proved of all heaps, its values in short, its blocks and its claims, with
/// what these remarks say: the names of authors, what is withdrawn, and long periods. Where the game is among those of which a
/// search of this program proved a period, that period is shown as proved by this program, in place of what its values prove. The
/// one error is that memory is refused, and then `out` stays as it is.
pub fn write_game_html<'n, A: Allocator + Copy, B: Allocator + Copy + 'n>(
    beside: Beside,
    proved: &ProvedPeriods<B>,
    remarks: &Remarks<'n, B>,
    game: &GameSheet<'_, B>,
    out: &mut Vec<u8, A>,
) -> Result<(), AllocError>
    ensures ok { OnOk result (out.new.items ≡ out.old.items ++ game_html beside proved.now remarks.now (game_content game.now)) }
    ensures err { OnErr result (out.new.items ≡ out.old.items) }
{
    let before = out.len();
    let written = append_game_html(out, beside, proved, remarks, game);
    if written.is_err() {
        out.truncate(before);
    }
    written
}

/// Appends the index of all games of these summaries, of the periods that searches of this program proved, and of the notes, forks
/// and authors of a record, with links to the HTML of the games. The one error is that memory is refused, and then `out` stays as it is.
pub fn write_index<A: Allocator + Copy>(
    said: &Record<A>,
    proved: &ProvedPeriods<A>,
    rows: &[Summary],
    out: &mut Vec<u8, A>,
) -> Result<(), AllocError>
    ensures ok { OnOk result (out.new.items ≡ out.old.items ++ index_by proved.now rows.now (sheet (listed said.now.ops))) }
    ensures err { OnErr result (out.new.items ≡ out.old.items) }
{
    let mut text = Vec::new(said.allocator());
    match stream_index(said, proved, rows, &mut text) {
        Ok(()) => out.extend_from_slice(&text),
        Err(_) => Err(AllocError),
    }
}

/// Appends the style sheet of a site. The one error is that memory is refused, and then `out` stays as it is.
pub fn write_style<A: Allocator>(out: &mut Vec<u8, A>) -> Result<(), AllocError>
    ensures ok { OnOk result (out.new.items ≡ out.old.items ++ style_sheet) }
    ensures err { OnErr result (out.new.items ≡ out.old.items) }
{
    let before = out.len();
    let written = append_pieces(out, &[Text(HTML_STYLE), Text(b"\n")]);
    if written.is_err() {
        out.truncate(before);
    }
    written
}

// Appends the HTML of a game.
fn append_game_html<'n, A: Allocator + Copy, B: Allocator + Copy + 'n>(
    out: &mut Vec<u8, A>,
    beside: Beside,
    proved: &ProvedPeriods<B>,
    remarks: &Remarks<'n, B>,
    game: &GameSheet<'_, B>,
) -> Result<(), AllocError>
    ensures ok { OnOk result (out.new.items ≡ out.old.items ++ game_html beside proved.now remarks.now (game_content game.now)) }
    ensures grown { Extends out.old.items out.new.items }
{
    append_game_head(out, &game.code, game.values.len())?;
    append_page_link(out, beside, &game.code)?;
    append_image(out, &game.code, game.values, &game.proved)?;
    append_game_tables(out, proved.of(game.code), remarks, Shown::Brief, game)?;
    append_html_end(out)
}

// Appends what stands before the picture.
fn append_game_head<A: Allocator>(
    out: &mut Vec<u8, A>,
    code: &Code,
    known: usize,
) -> Result<(), AllocError>
    ensures ok { OnOk result (out.new.items ≡ out.old.items ++ game_head code.now known) }
    ensures grown { Extends out.old.items out.new.items }
{
    append_pieces(
        out,
        &[
            Text(HEAD_BEGIN),
            CodeText(*code),
            Text(b": census of nim-sequences</title>\n"),
            Text(STYLE_LINK),
            Text(
                b"\n</head>\n<body>\n<nav><a href=\"index.html\">All games</a></nav>\n<main>\n<h1>",
            ),
            CodeText(*code),
            Text(b"</h1>\n<p>"),
            Number(known as u64),
            Text(one_or(
                known as u64,
                b" value known: as a <a href=\"",
                b" values known: all of them as a <a href=\"",
            )),
            CodeText(*code),
            Text(b".txt\">b-file</a> and as <a href=\""),
            CodeText(*code),
            Text(b".json\">JSON</a></p>\n"),
        ],
    )
}

// Appends the link to the page that computes, where it stands beside.
fn append_page_link<A: Allocator>(
    out: &mut Vec<u8, A>,
    beside: Beside,
    code: &Code,
) -> Result<(), AllocError>
    ensures ok { OnOk result (out.new.items ≡ out.old.items ++ page_link beside code.now) }
    ensures grown { Extends out.old.items out.new.items }
{
    match beside {
        Beside::Nothing => Ok(()),
        Beside::Page => append_pieces(
            out,
            &[
                Text(b"<p><a href=\"compute.html?code="),
                CodeText(*code),
                Text(b"\">Compute it here</a>, in this browser</p>\n"),
            ],
        ),
    }
}

// Appends the picture, which is a file of its own, and what it shows in words.
fn append_image<A: Allocator + Copy>(
    out: &mut Vec<u8, A>,
    code: &Code,
    values: &[u32],
    proved: &Option<Period>,
) -> Result<(), AllocError>
    ensures ok { OnOk result (out.new.items ≡ out.old.items ++ image code.now values.now proved.now) }
    ensures grown { Extends out.old.items out.new.items }
{
    let shown = pictured(values, proved);
    let title = title_of(*out.allocator(), code, shown.len(), proved)?;
    append_image_head(out, code, &title)?;
    append_sentence(out, values, proved)?;
    append_pieces(out, &[Text(b"\"/>\n")])?;
    append_figure_end(out, proved)
}

// Appends what stands before those words.
fn append_image_head<A: Allocator>(
    out: &mut Vec<u8, A>,
    code: &Code,
    title: &[u8],
) -> Result<(), AllocError>
    ensures ok { OnOk result (out.new.items ≡ out.old.items ++ image_head code.now title.now) }
    ensures grown { Extends out.old.items out.new.items }
{
    append_pieces(
        out,
        &[
            Text(b"<figure>\n<img width=\"840\" height=\"430\" src=\""),
            CodeText(*code),
            Text(b".svg\" alt=\""),
            Text(title),
            Text(b". "),
        ],
    )
}

// Writes the index of all games.
fn stream_index<A: Allocator + Copy, W: Write>(
    said: &Record<A>,
    proved: &ProvedPeriods<A>,
    rows: &[Summary],
    out: &mut W,
) -> io::Result<()>
    ensures { OnOk result (Appends (W.contents out.old) (W.contents out.new) (index_by proved.now rows.now (sheet (listed said.now.ops)))) }
{
    let mut piece = Vec::new(said.allocator());
    stream_index_parts(said, proved, rows, &mut piece, out)?;
    out.write_all(&piece)
}

// Puts the index behind what stands in the piece, and writes the piece where it is large.
fn stream_index_parts<A: Allocator + Copy, W: Write>(
    said: &Record<A>,
    proved: &ProvedPeriods<A>,
    rows: &[Summary],
    piece: &mut Vec<u8, A>,
    out: &mut W,
) -> io::Result<()>
    ensures { OnOk result (AppendsFront (W.contents out.old) (W.contents out.new) (piece.old.items ++ index_by proved.now rows.now (sheet (listed said.now.ops))) piece.new.items) }
{
    let remarks = Remarks::of_record(said)?;
    append_head(piece, STYLE_LINK)?;
    stream_games(Links::Files, &remarks, rows, piece, out)?;
    stream_proved(proved, piece, out)?;
    stream_records(said, said, piece, out)?;
    append_html_end(piece)?;
    Ok(())
}
