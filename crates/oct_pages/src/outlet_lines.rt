//! The lines of blocks to a writer.

ghost use Rattle.std.specs.Prelude.{◌≡◌, ◌++◌, OnOk, OnErr};
ghost use Rattle.oct_pages.specs.Catalogue.{block_head_text, status_text};
ghost use Rattle.oct_pages.specs.Sheet.{block_row_text};
ghost use Rattle.written.specs.Output.{AppendsFront, AppendsPrefix};

use crate::outlet::Word::{Number, Text};
use crate::outlet::{put, put_words};
use crate::statuses::BlockRow;
use oct_verify::Status;
use std::alloc::Allocator;
use std::io::Write;
use written::Unwritten;

/// Puts the line of a block behind the piece, as `put` does.
pub(crate) fn put_block_row<W: Write, A: Allocator>(
    piece: &mut Vec<u8, A>,
    out: &mut W,
    row: &BlockRow,
) -> Result<(), Unwritten>
    ensures ok { OnOk result (AppendsFront (W.contents out.old) (W.contents out.new) (piece.old.items ++ block_row_text row.now) piece.new.items) }
    ensures err { OnErr result (AppendsPrefix (W.contents out.old) (W.contents out.new) (piece.old.items ++ block_row_text row.now)) }
{
    put_block_head(piece, out, row)?;
    put_status(piece, out, &row.status)?;
    put(piece, out, b"\n")
}

// Puts which block it is, where it begins and how many values it has.
fn put_block_head<W: Write, A: Allocator>(
    piece: &mut Vec<u8, A>,
    out: &mut W,
    row: &BlockRow,
) -> Result<(), Unwritten>
    ensures ok { OnOk result (AppendsFront (W.contents out.old) (W.contents out.new) (piece.old.items ++ block_head_text row.now.dot row.now.start row.now.count) piece.new.items) }
    ensures err { OnErr result (AppendsPrefix (W.contents out.old) (W.contents out.new) (piece.old.items ++ block_head_text row.now.dot row.now.start row.now.count)) }
{
    let words = [
        Text(b"block "),
        Number(row.dot.author()),
        Text(b"."),
        Number(row.dot.number()),
        Text(b" at "),
        Number(row.start),
        Text(b" count "),
        Number(row.count),
    ];
    put_words(piece, out, &words)
}

// Puts a space and the words of a status.
fn put_status<W: Write, A: Allocator>(
    piece: &mut Vec<u8, A>,
    out: &mut W,
    status: &Status,
) -> Result<(), Unwritten>
    ensures ok { OnOk result (AppendsFront (W.contents out.old) (W.contents out.new) (piece.old.items ++ status_text status.now) piece.new.items) }
    ensures err { OnErr result (AppendsPrefix (W.contents out.old) (W.contents out.new) (piece.old.items ++ status_text status.now)) }
{
    match status {
        Status::Proved => put(piece, out, b" proved"),
        Status::Pending => put(piece, out, b" pending"),
        Status::Refuted { at, claimed, truth } => {
            let words = [
                Text(b" refuted at "),
                Number(*at),
                Text(b" claimed "),
                Number(*claimed),
                Text(b" true "),
                Number(*truth),
            ];
            put_words(piece, out, &words)
        }
    }
}
