//! The columns of the table of games.
#![tactic(auto, using(oct_ops::proofs::Growing::growing))]

ghost use Rattle.std.specs.Prelude.{◌≡◌, ◌++◌, IfOk, OnOk, map};
ghost use Rattle.std.specs.List.{flat_map, list_any};
ghost use Rattle.oct_ops.specs.Growth.{Extends};
ghost use Rattle.oct_views.specs.Columns.{cell, columns_of, has_some, has_something, head, heads, number_cell, period_cell, refuted_cell, start_cell, withdrawn_count};

use oct_ops::Period;
use oct_sheet::{GameTally, Summary};
use oct_text::Piece::{Number, Text};
use oct_text::append_pieces;
use std::alloc::{AllocError, Allocator};

/// A column of the table of games, behind that of their codes.
#[derive(Clone, Copy)]
pub(crate) enum Column {
    /// How many values are known.
    Values,
    /// The period, where one is proved.
    Period,
    /// Its start.
    Start,
    /// How many blocks are proved.
    BlocksProved,
    /// How many are refuted, and how many more are withdrawn.
    BlocksRefuted,
    /// How many are pending.
    BlocksPending,
    /// How many period claims are proved.
    ClaimsProved,
    /// How many are refuted, and how many more are withdrawn.
    ClaimsRefuted,
    /// How many are pending.
    ClaimsPending,
}

// All columns, in their order.
const ALL: [Column; 9] = [
    Column::Values,
    Column::Period,
    Column::Start,
    Column::BlocksProved,
    Column::BlocksRefuted,
    Column::BlocksPending,
    Column::ClaimsProved,
    Column::ClaimsRefuted,
    Column::ClaimsPending,
];

/// The columns in which a row has something, in their order.
pub(crate) fn columns_of<A: Allocator>(
    alloc: A,
    rows: &[Summary],
) -> Result<Vec<Column, A>, AllocError>
    ensures { IfOk result (λ columns. columns.items ≡ columns_of rows.now) }
{
    ALL.iter()
        .copied()
        .filter(|column| column.has_some(rows))
        .collect(alloc)
}

/// The heads of the column of codes and of these.
pub(crate) fn heads<A: Allocator>(
    alloc: A,
    columns: &[Column],
) -> Result<Vec<&'static [u8], A>, AllocError>
    ensures { IfOk result (λ names. map (λ name. name.now) names.items ≡ heads columns.now) }
{
    let mut names: Vec<&'static [u8], A> = Vec::new(alloc);
    names.push(b"code")?;
    for column in columns {
        names.push(column.head())?;
    }
    Ok(names)
}

/// Appends the cells of a game in these columns.
pub(crate) fn append_cells<A: Allocator>(
    out: &mut Vec<u8, A>,
    columns: &[Column],
    row: &Summary,
) -> Result<(), AllocError>
    ensures ok { OnOk result (out.new.items ≡ out.old.items ++ flat_map (cell row.now) columns.now) }
    ensures grown { Extends out.old.items out.new.items }
{
    for column in columns {
        append_cell(out, *column, row)?;
    }
    Ok(())
}

impl Column {
    // Whether one of the rows has something in it.
    fn has_some(self, rows: &[Summary]) -> bool
        ensures { result ≡ has_some self rows.now }
    {
        rows.iter().any(|row| self.has_something(row))
    }

    // Whether the row of a game has something in it; the values and the proved blocks are always told.
    fn has_something(self, row: &Summary) -> bool
        ensures { result ≡ has_something self row.now }
    {
        match self {
            Column::Values | Column::BlocksProved => true,
            Column::Period | Column::Start => row.proved.is_some(),
            Column::BlocksRefuted => 0 < row.blocks.refuted || 0 < row.blocks.withdrawn,
            Column::BlocksPending => 0 < row.blocks.pending,
            Column::ClaimsProved => 0 < row.claims.proved,
            Column::ClaimsRefuted => 0 < row.claims.refuted || 0 < row.claims.withdrawn,
            Column::ClaimsPending => 0 < row.claims.pending,
        }
    }

    // What stands above it.
    fn head(self) -> &'static [u8]
        ensures { result.now ≡ head self }
    {
        match self {
            Column::Values => b"values",
            Column::Period => b"period",
            Column::Start => b"start",
            Column::BlocksProved => b"blocks proved",
            Column::BlocksRefuted => b"blocks refuted",
            Column::BlocksPending => b"blocks pending",
            Column::ClaimsProved => b"claims proved",
            Column::ClaimsRefuted => b"claims refuted",
            Column::ClaimsPending => b"claims pending",
        }
    }
}

// Appends the cell of a game in a column.
fn append_cell<A: Allocator>(
    out: &mut Vec<u8, A>,
    column: Column,
    row: &Summary,
) -> Result<(), AllocError>
    ensures ok { OnOk result (out.new.items ≡ out.old.items ++ cell row.now column) }
    ensures grown { Extends out.old.items out.new.items }
{
    match column {
        Column::Values => append_number(out, row.known),
        Column::Period => append_period(out, &row.proved),
        Column::Start => append_start(out, &row.proved),
        Column::BlocksProved => append_number(out, row.blocks.proved),
        Column::BlocksRefuted => append_refuted(out, row.blocks),
        Column::BlocksPending => append_number(out, row.blocks.pending),
        Column::ClaimsProved => append_number(out, row.claims.proved),
        Column::ClaimsRefuted => append_refuted(out, row.claims),
        Column::ClaimsPending => append_number(out, row.claims.pending),
    }
}

// Appends the cell of a number.
fn append_number<A: Allocator>(out: &mut Vec<u8, A>, number: usize) -> Result<(), AllocError>
    ensures ok { OnOk result (out.new.items ≡ out.old.items ++ number_cell number) }
    ensures grown { Extends out.old.items out.new.items }
{
    append_pieces(out, &[Text(b"<td>"), Number(number as u64), Text(b"</td>")])
}

// Appends the cell of a period, empty where none is proved.
fn append_period<A: Allocator>(
    out: &mut Vec<u8, A>,
    proved: &Option<Period>,
) -> Result<(), AllocError>
    ensures ok { OnOk result (out.new.items ≡ out.old.items ++ period_cell proved.now) }
    ensures grown { Extends out.old.items out.new.items }
{
    match proved {
        None => append_pieces(out, &[Text(b"<td></td>")]),
        Some(period) => append_number(out, period.period() as usize),
    }
}

// Appends the cell of the start of a period, empty where none is proved.
fn append_start<A: Allocator>(
    out: &mut Vec<u8, A>,
    proved: &Option<Period>,
) -> Result<(), AllocError>
    ensures ok { OnOk result (out.new.items ≡ out.old.items ++ start_cell proved.now) }
    ensures grown { Extends out.old.items out.new.items }
{
    match proved {
        None => append_pieces(out, &[Text(b"<td></td>")]),
        Some(period) => append_number(out, period.start() as usize),
    }
}

// Appends the cell of how many are refuted, and of how many more are withdrawn.
fn append_refuted<A: Allocator>(out: &mut Vec<u8, A>, tally: GameTally) -> Result<(), AllocError>
    ensures ok { OnOk result (out.new.items ≡ out.old.items ++ refuted_cell tally) }
    ensures grown { Extends out.old.items out.new.items }
{
    append_pieces(out, &[Text(b"<td>"), Number(tally.refuted as u64)])?;
    append_withdrawn_count(out, tally.withdrawn)?;
    append_pieces(out, &[Text(b"</td>")])
}

// Appends how many more are refuted and withdrawn, where some are.
fn append_withdrawn_count<A: Allocator>(
    out: &mut Vec<u8, A>,
    withdrawn: usize,
) -> Result<(), AllocError>
    ensures ok { OnOk result (out.new.items ≡ out.old.items ++ withdrawn_count withdrawn) }
    ensures grown { Extends out.old.items out.new.items }
{
    if withdrawn == 0 {
        append_pieces(out, &[])
    } else {
        append_pieces(
            out,
            &[
                Text(b" and "),
                Number(withdrawn as u64),
                Text(b" withdrawn"),
            ],
        )
    }
}
