//! The rows of a game with what notes say of them.

ghost use Rattle.std.specs.Prelude.{◌≡◌, IfOk, map};
ghost use Rattle.oct_json.specs.Json.{marked_block, marked_period, said_row};

use oct_pages::{BlockRow, PeriodRow};
use oct_said::LongPeriod;
use oct_sheet::Remarks;
use std::alloc::{AllocError, Global};
use std::marker::Model;

/// A block, and whether it is withdrawn.
#[derive(Clone, Copy)]
pub(crate) struct MarkedBlock {
    /// The block.
    pub row: BlockRow,
    /// Whether its author withdrew it.
    pub is_withdrawn: bool,
}

/// A period claim, and whether it is withdrawn.
#[derive(Clone, Copy)]
pub(crate) struct MarkedPeriod {
    /// The claim.
    pub row: PeriodRow,
    /// Whether its author withdrew it.
    pub is_withdrawn: bool,
}

/// A long period that somebody says, with the name of who says it.
#[derive(Drop)]
pub(crate) struct SaidPeriod<'a> {
    /// The period, and who says it.
    pub long: LongPeriod,
    /// The name, which is empty where there is none.
    pub name: &'a [u8],
}

impl<'a> Model for SaidPeriod<'a> {
    ghost use Rattle.std.specs.Str.{IsAscii};
    ghost use Rattle.oct_json.specs.Said.{SaidPeriod as SaidValue};

    ghost Value = { SaidValue };

    ghost view = { λ s. record { long = s.long; name = s.name.now } };

    ghost invariant = { λ s. IsAscii s.name.now };
}

/// The blocks, each with whether it is withdrawn.
pub(crate) fn marked_blocks(
    alloc: Global,
    rows: &[BlockRow],
    remarks: &Remarks<'_, Global>,
) -> Result<Vec<MarkedBlock>, AllocError>
    ensures { IfOk result (λ found. found.items ≡ map (marked_block remarks.now) rows.now) }
{
    let mut found = Vec::with_capacity(alloc, rows.len())?;
    for row in rows {
        found.push(MarkedBlock {
            row: *row,
            is_withdrawn: remarks.is_withdrawn(row.dot),
        })?;
    }
    Ok(found)
}

/// The claims, each with whether it is withdrawn.
pub(crate) fn marked_periods(
    alloc: Global,
    rows: &[PeriodRow],
    remarks: &Remarks<'_, Global>,
) -> Result<Vec<MarkedPeriod>, AllocError>
    ensures { IfOk result (λ found. found.items ≡ map (marked_period remarks.now) rows.now) }
{
    let mut found = Vec::with_capacity(alloc, rows.len())?;
    for row in rows {
        found.push(MarkedPeriod {
            row: *row,
            is_withdrawn: remarks.is_withdrawn(row.dot),
        })?;
    }
    Ok(found)
}

/// The long periods, each with the name of who says it.
pub(crate) fn said_rows<'a>(
    alloc: Global,
    said: &[LongPeriod],
    remarks: &Remarks<'a, Global>,
) -> Result<Vec<SaidPeriod<'a>>, AllocError>
    ensures { IfOk result (λ found. found.items ≡ map (said_row remarks.now) said.now) }
{
    let mut found = Vec::with_capacity(alloc, said.len())?;
    for long in said {
        found.push(SaidPeriod {
            long: *long,
            name: remarks.name_of(long.author),
        })?;
    }
    Ok(found)
}
