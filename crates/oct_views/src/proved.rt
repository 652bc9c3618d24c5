//! The periods that searches of this program proved.
#![tactic(auto, using(oct_ops::proofs::Growing::growing))]

ghost use Rattle.std.specs.Prelude.{◌≡◌, ◌++◌, OnOk};
ghost use Rattle.oct_ops.specs.Growth.{Extends};
ghost use Rattle.oct_views.specs.Game.{found_paragraph};
ghost use Rattle.oct_views.specs.Index.{proved_table};
ghost use Rattle.written.specs.Output.{AppendsFront};

use crate::streamed::stream_table;
use oct_mex::SeenPeriod;
use oct_proved::{ProvedPeriod, ProvedPeriods};
use oct_tables::Rows;
use oct_text::Piece::{Code as CodeText, Number, Text};
use oct_text::append_pieces;
use std::alloc::{AllocError, Allocator};
use std::io::{self, Write};

// Rows of the table of these periods.
#[derive(Clone, Copy)]
struct ProvedRows;

impl Rows<ProvedPeriod> for ProvedRows {
    ghost use Rattle.oct_views.specs.Index.{proved_row};

    ghost text = { λ _ row. proved_row row };

    fn append_row<A: Allocator + Copy>(
        &self,
        out: &mut Vec<u8, A>,
        row: &ProvedPeriod,
    ) -> Result<(), AllocError> {
        append_pieces(
            out,
            &[
                Text(b"<tr><th scope=\"row\">"),
                Number(row.seen.period as u64),
                Text(b"</th><td>"),
                Number(row.seen.start as u64),
                Text(b"</td><td>"),
                CodeText(row.code),
                Text(b"</td></tr>\n"),
            ],
        )
    }
}

/// Puts the table of these periods behind what stands in the piece, or nothing where there are none, and writes the piece where it
/// is large. The error is that of the writer, or of the kind `OutOfMemory`.
pub(crate) fn stream_proved<A: Allocator + Copy, B: Allocator, W: Write>(
    proved: &ProvedPeriods<B>,
    piece: &mut Vec<u8, A>,
    out: &mut W,
) -> io::Result<()>
    ensures { OnOk result (AppendsFront (W.contents out.old) (W.contents out.new) (piece.old.items ++ proved_table proved.now) piece.new.items) }
{
    stream_table(
        &ProvedRows,
        b"Periods proved by this program",
        &[b"period", b"start", b"code"],
        proved.as_slice(),
        piece,
        out,
    )
}

/// Appends a paragraph with the period of a game.
pub(crate) fn append_found<A: Allocator>(
    out: &mut Vec<u8, A>,
    seen: SeenPeriod,
) -> Result<(), AllocError>
    ensures ok { OnOk result (out.new.items ≡ out.old.items ++ found_paragraph seen) }
    ensures grown { Extends out.old.items out.new.items }
{
    append_pieces(
        out,
        &[
            Text(b"<p>Proved by this program: from heap "),
            Number(seen.start as u64),
            Text(b" on the nim-values repeat with period "),
            Number(seen.period as u64),
            Text(b", for ever.</p>\n"),
        ],
    )
}
