//! The tables of a game's blocks: of those that are refuted, and of all.
#![tactic(auto, using(oct_ops::proofs::Growing::growing))]

ghost use Rattle.std.specs.Prelude.{◌≡◌, ◌++◌, OnOk};
ghost use Rattle.std.specs.List.{flat_map};
ghost use Rattle.oct_ops.specs.Growth.{Extends};
ghost use Rattle.oct_views.specs.Game.{block_row, refutation_row, refuted_row, status_word};

use crate::standing::{Standing, withdrawn_word};
use oct_ops::Dot;
use oct_pages::BlockRow;
use oct_sheet::Remarks;
use oct_text::Piece::{Beside, Dot as DotText, Number, Text};
use oct_text::append_pieces;
use oct_verify::Status;
use std::alloc::{AllocError, Allocator};

/// Appends the rows of the refuted blocks that stand or are withdrawn, with the names of authors.
pub(crate) fn append_refuted_rows<'n, A: Allocator, B: Allocator + Copy + 'n>(
    out: &mut Vec<u8, A>,
    remarks: &Remarks<'n, B>,
    which: Standing,
    blocks: &[BlockRow],
) -> Result<(), AllocError>
    ensures ok { OnOk result (out.new.items ≡ out.old.items ++ flat_map (λ r. refuted_row remarks.now which r.dot r.status) blocks.now) }
    ensures grown { Extends out.old.items out.new.items }
{
    for row in blocks {
        append_refuted_row(out, remarks, which, row)?;
    }
    Ok(())
}

// Appends the row of a block among those that are refuted.
fn append_refuted_row<'n, A: Allocator, B: Allocator + Copy + 'n>(
    out: &mut Vec<u8, A>,
    remarks: &Remarks<'n, B>,
    which: Standing,
    row: &BlockRow,
) -> Result<(), AllocError>
    ensures ok { OnOk result (out.new.items ≡ out.old.items ++ refuted_row remarks.now which row.now.dot row.now.status) }
    ensures grown { Extends out.old.items out.new.items }
{
    match row.status {
        Status::Refuted { at, claimed, truth } if which.is_of(remarks, row.dot) => {
            append_refutation(out, remarks, row.dot, at, claimed, truth)
        }
        _ => Ok(()),
    }
}

/// Appends the rows of all blocks, with the names of authors.
pub(crate) fn append_block_rows<'n, A: Allocator, B: Allocator + Copy + 'n>(
    out: &mut Vec<u8, A>,
    remarks: &Remarks<'n, B>,
    blocks: &[BlockRow],
) -> Result<(), AllocError>
    ensures ok { OnOk result (out.new.items ≡ out.old.items ++ flat_map (block_row remarks.now) blocks.now) }
    ensures grown { Extends out.old.items out.new.items }
{
    for row in blocks {
        append_block_row(out, remarks, row)?;
    }
    Ok(())
}

// Appends the row of a block.
fn append_block_row<'n, A: Allocator, B: Allocator + Copy + 'n>(
    out: &mut Vec<u8, A>,
    remarks: &Remarks<'n, B>,
    row: &BlockRow,
) -> Result<(), AllocError>
    ensures ok { OnOk result (out.new.items ≡ out.old.items ++ block_row remarks.now row.now) }
    ensures grown { Extends out.old.items out.new.items }
{
    append_pieces(
        out,
        &[
            Text(b"<tr><th scope=\"row\">"),
            DotText(row.dot),
            Beside(remarks.name_of(row.dot.author())),
            Text(b"</th><td>"),
            Number(row.start as u64),
            Text(b"</td><td>"),
            Number(row.count as u64),
            Text(b"</td><td>"),
            Text(status_word(row.status)),
            Text(withdrawn_word(remarks.is_withdrawn(row.dot))),
            Text(b"</td></tr>\n"),
        ],
    )
}

// Appends the row of a refuted block.
fn append_refutation<'n, A: Allocator, B: Allocator + Copy + 'n>(
    out: &mut Vec<u8, A>,
    remarks: &Remarks<'n, B>,
    dot: Dot,
    heap: u32,
    claimed: u32,
    truth: u32,
) -> Result<(), AllocError>
    ensures ok { OnOk result (out.new.items ≡ out.old.items ++ refutation_row remarks.now dot heap claimed truth) }
    ensures grown { Extends out.old.items out.new.items }
{
    append_pieces(
        out,
        &[
            Text(b"<tr><th scope=\"row\">"),
            DotText(dot),
            Beside(remarks.name_of(dot.author())),
            Text(b"</th><td>"),
            Number(heap as u64),
            Text(b"</td><td>"),
            Number(claimed as u64),
            Text(b"</td><td>"),
            Number(truth as u64),
            Text(b"</td></tr>\n"),
        ],
    )
}

// The word for a status.
fn status_word(status: Status) -> &'static [u8]
    ensures { result.now ≡ status_word status }
{
    match status {
        Status::Proved => b"proved",
        Status::Refuted { .. } => b"refuted",
        Status::Pending => b"pending",
    }
}
