//! The tables of a game's period claims: of those that are refuted, and of all.
#![tactic(auto, using(oct_ops::proofs::Growing::growing))]

ghost use Rattle.std.specs.Prelude.{◌≡◌, ◌++◌, OnOk, slice_get};
ghost use Rattle.std.specs.List.{flat_map};
ghost use Rattle.oct_ops.specs.Growth.{Extends};
ghost use Rattle.oct_views.specs.Game.{both_values, broken_row, broken_words, period_cells, period_end, period_row, period_status};

use crate::standing::{Standing, withdrawn_word};
use oct_ops::{Dot, Period};
use oct_pages::PeriodRow;
use oct_period::PeriodStatus;
use oct_sheet::Remarks;
use oct_text::Piece::{Beside, Dot as DotText, Number, Text};
use oct_text::append_pieces;
use std::alloc::{AllocError, Allocator};

/// Appends the rows of the refuted claims that stand or are withdrawn, with the names of authors, by the known nim-values of the
/// game.
pub(crate) fn append_broken_rows<'n, A: Allocator, B: Allocator + Copy + 'n>(
    out: &mut Vec<u8, A>,
    remarks: &Remarks<'n, B>,
    values: &[u32],
    which: Standing,
    claims: &[PeriodRow],
) -> Result<(), AllocError>
    ensures ok { OnOk result (out.new.items ≡ out.old.items ++ flat_map (λ r. broken_row remarks.now values.now which r r.status) claims.now) }
    ensures grown { Extends out.old.items out.new.items }
{
    for row in claims {
        append_broken_row(out, remarks, values, which, row)?;
    }
    Ok(())
}

// Appends the row of a claim among those that are refuted.
fn append_broken_row<'n, A: Allocator, B: Allocator + Copy + 'n>(
    out: &mut Vec<u8, A>,
    remarks: &Remarks<'n, B>,
    values: &[u32],
    which: Standing,
    row: &PeriodRow,
) -> Result<(), AllocError>
    ensures ok { OnOk result (out.new.items ≡ out.old.items ++ broken_row remarks.now values.now which row.now row.now.status) }
    ensures grown { Extends out.old.items out.new.items }
{
    match row.status {
        PeriodStatus::Refuted { .. } if which.is_of(remarks, row.dot) => {
            append_period_row(out, remarks, values, row)
        }
        _ => Ok(()),
    }
}

/// Appends the rows of all claims, with the names of authors, by the known nim-values of the game.
pub(crate) fn append_period_rows<'n, A: Allocator, B: Allocator + Copy + 'n>(
    out: &mut Vec<u8, A>,
    remarks: &Remarks<'n, B>,
    values: &[u32],
    claims: &[PeriodRow],
) -> Result<(), AllocError>
    ensures ok { OnOk result (out.new.items ≡ out.old.items ++ flat_map (period_row remarks.now values.now) claims.now) }
    ensures grown { Extends out.old.items out.new.items }
{
    for row in claims {
        append_period_row(out, remarks, values, row)?;
    }
    Ok(())
}

// Appends the row of a claim.
fn append_period_row<'n, A: Allocator, B: Allocator + Copy + 'n>(
    out: &mut Vec<u8, A>,
    remarks: &Remarks<'n, B>,
    values: &[u32],
    row: &PeriodRow,
) -> Result<(), AllocError>
    ensures ok { OnOk result (out.new.items ≡ out.old.items ++ period_row remarks.now values.now row.now) }
    ensures grown { Extends out.old.items out.new.items }
{
    append_claim(out, remarks, row.dot, &row.period)?;
    append_status(out, values, row.period.period(), row.status)?;
    append_end(out, remarks.is_withdrawn(row.dot))
}

// Appends whether it is withdrawn, and the end of the row.
fn append_end<A: Allocator>(out: &mut Vec<u8, A>, is_withdrawn: bool) -> Result<(), AllocError>
    ensures ok { OnOk result (out.new.items ≡ out.old.items ++ period_end is_withdrawn) }
    ensures grown { Extends out.old.items out.new.items }
{
    append_pieces(
        out,
        &[Text(withdrawn_word(is_withdrawn)), Text(b"</td></tr>\n")],
    )
}

// Appends the cells of which claim it is, its start and its period.
fn append_claim<'n, A: Allocator, B: Allocator + Copy + 'n>(
    out: &mut Vec<u8, A>,
    remarks: &Remarks<'n, B>,
    dot: Dot,
    period: &Period,
) -> Result<(), AllocError>
    ensures ok { OnOk result (out.new.items ≡ out.old.items ++ period_cells remarks.now dot period.now) }
    ensures grown { Extends out.old.items out.new.items }
{
    append_pieces(
        out,
        &[
            Text(b"<tr><th scope=\"row\">"),
            DotText(dot),
            Beside(remarks.name_of(dot.author())),
            Text(b"</th><td>"),
            Number(period.start() as u64),
            Text(b"</td><td>"),
            Number(period.period() as u64),
            Text(b"</td><td>"),
        ],
    )
}

// Appends the words for the status of a claim of this period.
fn append_status<A: Allocator>(
    out: &mut Vec<u8, A>,
    values: &[u32],
    period: u32,
    status: PeriodStatus,
) -> Result<(), AllocError>
    ensures ok { OnOk result (out.new.items ≡ out.old.items ++ period_status values.now period status) }
    ensures grown { Extends out.old.items out.new.items }
{
    match status {
        PeriodStatus::Proved => append_pieces(out, &[Text(b"proved")]),
        PeriodStatus::Refuted { at } => append_broken(out, values, period, at),
        PeriodStatus::Pending { needs } => {
            append_pieces(out, &[Text(b"pending, needs "), Number(needs as u64)])
        }
    }
}

// Appends the heap at which a claim of this period breaks, and both values.
fn append_broken<A: Allocator>(
    out: &mut Vec<u8, A>,
    values: &[u32],
    period: u32,
    heap: u32,
) -> Result<(), AllocError>
    ensures ok { OnOk result (out.new.items ≡ out.old.items ++ broken_words values.now period heap) }
    ensures grown { Extends out.old.items out.new.items }
{
    append_pieces(out, &[Text(b"refuted at "), Number(heap as u64)])?;
    let later = heap as usize + period as usize;
    let value = value_at(values, heap as usize);
    let other = value_at(values, later);
    append_both_values(out, value, other, later)
}

// Appends the nim-values of that heap and of the one that is a period larger, which are known.
fn append_both_values<A: Allocator>(
    out: &mut Vec<u8, A>,
    value: Option<u32>,
    other: Option<u32>,
    later: usize,
) -> Result<(), AllocError>
    ensures ok { OnOk result (out.new.items ≡ out.old.items ++ both_values value other later) }
    ensures grown { Extends out.old.items out.new.items }
{
    match (value, other) {
        (Some(value), Some(other)) => append_pieces(
            out,
            &[
                Text(b": value "),
                Number(u64::from(value)),
                Text(b", at "),
                Number(later as u64),
                Text(b" value "),
                Number(u64::from(other)),
            ],
        ),
        _ => append_pieces(out, &[]),
    }
}

// The nim-value of a heap, if it is known.
fn value_at(values: &[u32], heap: usize) -> Option<u32>
    ensures { result ≡ slice_get values.now heap }
{
    values.get(heap).copied()
}
