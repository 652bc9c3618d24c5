//! What a report and a site have in common: how HTML begins and ends, and the tables of what belongs to no game.
#![tactic(auto, using(oct_ops::proofs::Growing::growing))]

ghost use Rattle.std.specs.Prelude.{◌≡◌, ◌++◌, IfOk, OnOk};
ghost use Rattle.oct_ops.specs.Operations.{listed};
ghost use Rattle.oct_ops.specs.Growth.{Extends};
ghost use Rattle.oct_views.specs.Report.{figure_end, games_head, html_end, records_part, style_inside};
ghost use Rattle.oct_sheet.specs.Sheet.{sheet_among};
ghost use Rattle.written.specs.Output.{AppendsFront};

use crate::records::{AuthorRows, ForkRows, NoteRows};
use crate::streamed::stream_table;
use crate::styles::HTML_STYLE;
use oct_ops::Period;
use oct_plot::PLOT_STYLE;
use oct_record::Record;
use oct_sheet::{names_by_author, naming_among, with_names};
use oct_text::Piece::Text;
use oct_text::append_pieces;
use std::alloc::{AllocError, Allocator};
use std::io::{self, Write};

/// What stands before the title.
pub(crate) const HEAD_BEGIN: &[u8] =
    b"<!DOCTYPE html>\n<html xmlns=\"http://www.w3.org/1999/xhtml\" lang=\"en\">\n<head>\n<meta charset=\"utf-8\"/>\n<meta name=\"viewport\" content=\"width=device-width, initial-scale=1\"/>\n<title>";

/// A link to the style sheet of a site.
pub(crate) const STYLE_LINK: &[u8] = b"<link rel=\"stylesheet\" href=\"style.css\"/>";

/// Appends what stands below the picture of a game with this period.
pub(crate) fn append_figure_end<A: Allocator>(
    out: &mut Vec<u8, A>,
    proved: &Option<Period>,
) -> Result<(), AllocError>
    ensures ok { OnOk result (out.new.items ≡ out.old.items ++ figure_end proved.now) }
    ensures grown { Extends out.old.items out.new.items }
{
    let caption: &[u8] = match proved {
        Some(_) => {
            b"<figcaption>Each point is the nim-value of a heap. The first two runs of the period are shaded.</figcaption>\n</figure>\n"
        }
        None => { b"<figcaption>Each point is the nim-value of a heap.</figcaption>\n</figure>\n" }
    };
    append_pieces(out, &[Text(caption)])
}

/// Appends what stands before the tables of all games, with the style inside or with a link to that of a site.
pub(crate) fn append_head<A: Allocator>(
    out: &mut Vec<u8, A>,
    style: &[u8],
) -> Result<(), AllocError>
    ensures ok { OnOk result (out.new.items ≡ out.old.items ++ games_head style.now) }
    ensures grown { Extends out.old.items out.new.items }
{
    append_pieces(
        out,
        &[
            Text(HEAD_BEGIN),
            Text(b"Census of nim-sequences</title>\n"),
            Text(style),
            Text(
                b"\n</head>\n<body>\n<header>\n<h1>Census of nim-sequences</h1>\n</header>\n<nav><a href=\"#games\">Games</a> <a href=\"#periods\">Periods</a> <a href=\"#records\">Notes and authors</a></nav>\n<main>\n<div id=\"games\">\n",
            ),
        ],
    )
}

/// The style, where it stands inside.
pub(crate) fn style_inside<A: Allocator>(alloc: A) -> Result<Vec<u8, A>, AllocError>
    ensures { IfOk result (λ style. style.items ≡ style_inside) }
{
    let mut style = Vec::new(alloc);
    append_pieces(
        &mut style,
        &[
            Text(b"<style>"),
            Text(HTML_STYLE),
            Text(PLOT_STYLE),
            Text(b"</style>"),
        ],
    )?;
    Ok(style)
}

/// Puts the tables of the notes and forks of a part of what was said, and of the authors of the whole, behind what stands in the
/// piece, and writes the piece where it is large. The error is that of the writer, or of the kind `OutOfMemory`.
pub(crate) fn stream_records<A: Allocator + Copy, W: Write>(
    part: &Record<A>,
    whole: &Record<A>,
    piece: &mut Vec<u8, A>,
    out: &mut W,
) -> io::Result<()>
    ensures { OnOk result (AppendsFront (W.contents out.old) (W.contents out.new) (piece.old.items ++ records_part (sheet_among (listed part.now.ops) (listed whole.now.ops))) piece.new.items) }
{
    append_pieces(piece, &[Text(b"</div>\n<div id=\"records\">\n")])?;
    let saying = whole.notes().live_refs()?;
    let naming = naming_among(whole.allocator(), &saying)?;
    let names = names_by_author(whole.allocator(), &naming)?;
    let notes = part.notes().live_refs()?;
    stream_table(
        &NoteRows(&names),
        b"Notes",
        &[b"name", b"note", b"text"],
        &notes,
        piece,
        out,
    )?;
    let forks = part.store().forks()?;
    stream_table(
        &ForkRows(&names),
        b"Forks",
        &[b"dot", b"contents"],
        &forks,
        piece,
        out,
    )?;
    let authors = whole.store().authors()?;
    let authors = with_names(whole.allocator(), &saying, &authors)?;
    stream_table(
        &AuthorRows,
        b"Authors",
        &[b"author", b"name", b"through", b"last"],
        &authors,
        piece,
        out,
    )?;
    append_pieces(piece, &[Text(b"</div>\n")])?;
    Ok(())
}

/// Appends the end.
pub(crate) fn append_html_end<A: Allocator>(out: &mut Vec<u8, A>) -> Result<(), AllocError>
    ensures ok { OnOk result (out.new.items ≡ out.old.items ++ html_end) }
    ensures grown { Extends out.old.items out.new.items }
{
    append_pieces(out, &[Text(b"</main>\n</body>\n</html>\n")])
}
