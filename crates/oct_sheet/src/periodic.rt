//! The games with a proved period, by period.

ghost use Rattle.std.specs.Prelude.{◌≡◌, IfOk};
ghost use Rattle.oct_sheet.specs.Summary.{by_period, periodic_of};

use crate::summary::Summary;
use oct_code::Code;
use std::alloc::{AllocError, Allocator};
use std::collections::BTreeSet;

/// A game with a proved period. The order is by period, then by start, then by code.
#[derive(Clone, Copy, PartialEq, Eq, PartialOrd, Ord)]
pub struct Periodic {
    /// The period.
    pub period: u32,
    /// The heap from which on the values repeat.
    pub start: u32,
    /// The code of the game.
    pub code: Code,
}

/// The games with a proved period.
pub fn by_period<A: Allocator + Copy>(
    alloc: A,
    rows: &[Summary],
) -> Result<BTreeSet<Periodic, A>, AllocError>
    ensures { IfOk result (λ found. found.keys ≡ by_period rows.now) }
{
    let mut found = BTreeSet::new(alloc);
    for place in (0..rows.len()).rev() {
        if let Some(periodic) = periodic_of(&rows[place]) {
            found.insert(periodic)?;
        }
    }
    Ok(found)
}

// The game by its period, where one is proved.
fn periodic_of(row: &Summary) -> Option<Periodic>
    ensures { result ≡ periodic_of row.now }
{
    match &row.proved {
        None => None,
        Some(period) => Some(Periodic {
            period: period.period(),
            start: period.start(),
            code: row.code,
        }),
    }
}
