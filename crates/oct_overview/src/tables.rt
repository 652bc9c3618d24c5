//! Games as the rows of a table, for a spreadsheet and for a paper.
#![tactic(auto, using(oct_ops::proofs::Growing::growing))]

ghost use Rattle.std.specs.Prelude.{◌≡◌, ◌++◌, OnOk};
ghost use Rattle.oct_ops.specs.Growth.{Extends};
ghost use Rattle.oct_overview.specs.Tables.{csv_period, csv_row, csv_tally, latex_period, latex_row, truth};

use crate::line::{GameLine, LeastPeriod};
use oct_sheet::GameTally;
use oct_text::Piece::{Code as CodeText, Number, Text};
use oct_text::{append_pieces, append_text};
use std::alloc::{AllocError, Allocator};

// ---- comma-separated values

/// Appends the row of a game, as `csv_row` spells it.
pub(crate) fn append_csv_row<A: Allocator>(
    out: &mut Vec<u8, A>,
    line: &GameLine,
) -> Result<(), AllocError>
    ensures ok { OnOk result (out.new.items ≡ out.old.items ++ csv_row line.now) }
    ensures grown { Extends out.old.items out.new.items }
{
    let summary = &line.summary;
    append_pieces(
        out,
        &[
            CodeText(summary.code),
            Text(b","),
            Number(summary.known as u64),
        ],
    )?;
    append_csv_period(out, &line.least)?;
    append_csv_tally(out, summary.blocks)?;
    append_csv_tally(out, summary.claims)?;
    append_text(out, b"\r\n")
}

// Appends the period, its start, and whether it is claimed; three empty fields where none is proved.
fn append_csv_period<A: Allocator>(
    out: &mut Vec<u8, A>,
    least: &Option<LeastPeriod>,
) -> Result<(), AllocError>
    ensures ok { OnOk result (out.new.items ≡ out.old.items ++ csv_period least.now) }
    ensures grown { Extends out.old.items out.new.items }
{
    match least {
        Some(least) => append_pieces(
            out,
            &[
                Text(b","),
                Number(u64::from(least.period.period())),
                Text(b","),
                Number(u64::from(least.period.start())),
                Text(b","),
                Text(truth(least.is_claimed)),
            ],
        ),
        None => append_pieces(out, &[Text(b",,,")]),
    }
}

// The word of a truth value.
fn truth(holds: bool) -> &'static [u8]
    ensures { result.now ≡ truth holds }
{
    if holds { b"true" } else { b"false" }
}

// Appends how many are proved, refuted and pending.
fn append_csv_tally<A: Allocator>(out: &mut Vec<u8, A>, tally: GameTally) -> Result<(), AllocError>
    ensures ok { OnOk result (out.new.items ≡ out.old.items ++ csv_tally tally) }
    ensures grown { Extends out.old.items out.new.items }
{
    append_pieces(
        out,
        &[
            Text(b","),
            Number(tally.proved as u64),
            Text(b","),
            Number(tally.refuted as u64),
            Text(b","),
            Number(tally.pending as u64),
        ],
    )
}

// ---- a table of LaTeX

/// Appends the row of a game, as `latex_row` spells it.
pub(crate) fn append_latex_row<A: Allocator>(
    out: &mut Vec<u8, A>,
    line: &GameLine,
) -> Result<(), AllocError>
    ensures ok { OnOk result (out.new.items ≡ out.old.items ++ latex_row line.now) }
    ensures grown { Extends out.old.items out.new.items }
{
    append_pieces(
        out,
        &[
            CodeText(line.summary.code),
            Text(b" & "),
            Number(line.summary.known as u64),
        ],
    )?;
    append_latex_period(out, &line.least)?;
    append_text(out, b" \\\\\n")
}

// Appends the period and its start; a dash for each where none is proved.
fn append_latex_period<A: Allocator>(
    out: &mut Vec<u8, A>,
    least: &Option<LeastPeriod>,
) -> Result<(), AllocError>
    ensures ok { OnOk result (out.new.items ≡ out.old.items ++ latex_period least.now) }
    ensures grown { Extends out.old.items out.new.items }
{
    match least {
        Some(least) => append_pieces(
            out,
            &[
                Text(b" & "),
                Number(u64::from(least.period.period())),
                Text(b" & "),
                Number(u64::from(least.period.start())),
            ],
        ),
        None => append_pieces(out, &[Text(b" & -- & --")]),
    }
}
