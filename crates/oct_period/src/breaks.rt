//! What the known nim-values show of a period claim.

ghost use Rattle.std.specs.Prelude.{◌≡◌, ℕ, ◌+◌, ◌-◌, ◌≤◌, length};
ghost use Rattle.oct_mex.specs.NimValues.{nim_values};
ghost use Rattle.oct_mex.specs.Periods.{IsPeriodicFrom, IsFirstBreak};
ghost use Rattle.oct_period.specs.Periods.{first_break, period_status};
ghost use Rattle.oct_verify.specs.Filing.{blocks_in};

use crate::status::PeriodStatus;
use oct_code::LIMIT;
use oct_mex::first_difference;
use oct_ops::Period;
use oct_verify::Ledger;
use std::alloc::Allocator;

/// What the ledger's blocks show of a claim of its game. A proved claim holds for every heap from its start on (Guy and Smith
/// 1956), and a claim is refuted at the least of all heaps that break it. Takes no memory: the known nim-values are compared
/// once with those one period later.
pub fn period_status<A: Allocator + Copy>(ledger: &Ledger<A>, period: &Period) -> PeriodStatus
    requires { period.now.code ≡ ledger.now.code }
    ensures value { result ≡ period_status (blocks_in ledger.now.blocks) period.now }
    ensures proved { result ≡ PeriodStatus.Proved → IsPeriodicFrom period.now.code period.now.start period.now.period }
    ensures refuted { (at : ℕ) → result ≡ PeriodStatus.Refuted at → IsFirstBreak period.now.code period.now.start period.now.period at }
{
    let values = ledger.known_values();
    let needs = 2 * period.start() + 2 * period.period() + period.code().len() as u32;
    match first_break(values, period) {
        Some(at) => PeriodStatus::Refuted { at },
        None if needs as usize <= values.len() => PeriodStatus::Proved,
        None => PeriodStatus::Pending { needs },
    }
}

// The first heap whose nim-value does not come again one period later, where both are among the values.
fn first_break(values: &[u32], period: &Period) -> Option<u32>
    requires values { values.now ≡ nim_values period.now.code (length values.now) }
    requires within { length values.now ≤ LIMIT }
    ensures { result ≡ first_break period.now.code period.now.period (length values.now - (period.now.start + period.now.period)) period.now.start }
{
    let start = period.start() as usize;
    let later = start + period.period() as usize;
    if values.len() <= later {
        return None;
    }
    let count = values.len() - later;
    let index = first_difference(&values[start..start + count], &values[later..])?;
    Some((start + index) as u32)
}
