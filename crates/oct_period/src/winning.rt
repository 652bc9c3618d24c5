//! Who wins, by the nim-value of a position (Sprague 1935, Grundy 1939).

ghost use Rattle.std.specs.Prelude.{◌≡◌};
ghost use Rattle.oct_period.specs.Claims.{AreOfGame, periods_of};
ghost use Rattle.oct_period.specs.Outcomes.{outcome, outcome_by_value, IsOutcomeOf};
ghost use Rattle.oct_period.specs.Periods.{position_value};
ghost use Rattle.oct_verify.specs.Filing.{blocks_in};

use crate::claim::PeriodClaim;
use crate::unknown::Unknown;
use crate::values::position_value;
use crate::winner::Outcome;
use oct_verify::Ledger;
use std::alloc::Allocator;

/// Who wins a position in normal play: the player to move loses exactly where its nim-value is known and no move leads to a
/// position in which the next player loses. Where the nim-value of some heap is not known, the first such heap is named. The
/// claims are of the ledger's game. Takes no memory.
pub fn outcome<A: Allocator + Copy>(
    ledger: &Ledger<A>,
    claims: &[PeriodClaim],
    heaps: &[u64],
) -> Outcome
    requires { AreOfGame ledger.now.code claims.now }
    ensures value { result ≡ outcome ledger.now.code (blocks_in ledger.now.blocks) (periods_of claims.now) heaps.now }
    ensures play { IsOutcomeOf ledger.now.code heaps.now (position_value ledger.now.code (blocks_in ledger.now.blocks) (periods_of claims.now) heaps.now) result }
{
    outcome_of(position_value(ledger, claims, heaps))
}

/// Who wins a position of this nim-value, in normal play; where it is not known, the first heap is named whose nim-value is not
/// known.
pub fn outcome_of(value: Result<u32, Unknown>) -> Outcome
    ensures { result ≡ outcome_by_value value }
{
    match value {
        Ok(0) => Outcome::NextLoses,
        Ok(_) => Outcome::NextWins,
        Err(Unknown { index }) => Outcome::Unknown { index },
    }
}
