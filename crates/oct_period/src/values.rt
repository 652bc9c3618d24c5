//! The nim-values of heaps and positions of any size, by the known nim-values and a proved claim.

ghost use Rattle.std.specs.Prelude.{◌≡◌, ◌≤◌, IfOk, IfSome};
ghost use Rattle.std.specs.Bool.{OnTrue};
ghost use Rattle.std.specs.Option.{option_map};
ghost use Rattle.oct_mex.specs.NimValues.{nim_value, position_value as nim_sum};
ghost use Rattle.oct_period.specs.Claims.{Claim, AreOfGame, first_proved, periods_of};
ghost use Rattle.oct_period.specs.Periods.{is_proved, period_status, heap_value_by, heap_value, position_value_from, position_value, value_by};
ghost use Rattle.oct_period.specs.Proved.{IsProvedBy, IsProvedOf};
ghost use Rattle.oct_verify.specs.Filing.{blocks_in};
ghost use Rattle.oct_verify.specs.Known.{known};

use crate::breaks::period_status;
use crate::claim::PeriodClaim;
use crate::status::PeriodStatus;
use crate::unknown::Unknown;
use oct_ops::Period;
use oct_verify::Ledger;
use std::alloc::Allocator;

/// The nim-value of a heap of any size: by the ledger's blocks below the known length, and otherwise by the first of the
/// claims that is proved. None where neither gives it. The claims are of the ledger's game. Takes no memory.
pub fn heap_value<A: Allocator + Copy>(
    ledger: &Ledger<A>,
    claims: &[PeriodClaim],
    heap: u64,
) -> Option<u32>
    requires { AreOfGame ledger.now.code claims.now }
    ensures value { result ≡ heap_value ledger.now.code (blocks_in ledger.now.blocks) (periods_of claims.now) heap }
    ensures right { IfSome result (λ value. value ≡ nim_value ledger.now.code heap) }
{
    heap_value_by(ledger, first_proved(ledger, claims), heap)
}

/// The exclusive or of the nim-values of a position's heaps, or the first heap that has none. The claims are of the
/// ledger's game. Takes no memory.
pub fn position_value<A: Allocator + Copy>(
    ledger: &Ledger<A>,
    claims: &[PeriodClaim],
    heaps: &[u64],
) -> Result<u32, Unknown>
    requires { AreOfGame ledger.now.code claims.now }
    ensures value { result ≡ position_value ledger.now.code (blocks_in ledger.now.blocks) (periods_of claims.now) heaps.now }
    ensures right { IfOk result (λ value. value ≡ nim_sum ledger.now.code heaps.now) }
{
    position_value_by(ledger, &first_proved(ledger, claims), heaps)
}

/// Whether the claim, which is of the ledger's game, is proved.
pub(crate) fn is_proved<A: Allocator + Copy>(ledger: &Ledger<A>, claim: &PeriodClaim) -> bool
    requires { claim.now.1.code ≡ ledger.now.code }
    ensures value { result ≡ is_proved (period_status (blocks_in ledger.now.blocks) claim.now.1) }
    ensures proved { OnTrue result (IsProvedOf ledger.now.code (blocks_in ledger.now.blocks) claim.now.1) }
{
    period_status(ledger, &claim.period) == PeriodStatus::Proved
}

// The first claim that is proved.
fn first_proved<A: Allocator + Copy>(
    ledger: &Ledger<A>,
    claims: &[PeriodClaim],
) -> Option<PeriodClaim>
    requires { AreOfGame ledger.now.code claims.now }
    ensures value { result ≡ first_proved (blocks_in ledger.now.blocks) claims.now }
    ensures proved { IsProvedBy ledger.now.code (blocks_in ledger.now.blocks) result }
{
    for claim in claims {
        if is_proved(ledger, claim) {
            return Some(*claim);
        }
    }
    None
}

/// The nim-value of a heap past the known length by a proved claim: that of the heap in the first period.
pub(crate) fn value_by<A: Allocator + Copy>(ledger: &Ledger<A>, period: &Period, heap: u64) -> u32
    requires proved { IsProvedOf ledger.now.code (blocks_in ledger.now.blocks) period.now }
    requires past { known (blocks_in ledger.now.blocks) ≤ heap }
    ensures value { value_by ledger.now.code heap (Some period.now) ≡ Some result }
    ensures right { result ≡ nim_value ledger.now.code heap }
{
    let start = u64::from(period.start());
    let place = start + (heap - start) % u64::from(period.period());
    ledger.known_values()[place as usize]
}

/// The nim-value of a heap, where the blocks or the proved claim give it.
pub(crate) fn heap_value_by<A: Allocator + Copy>(
    ledger: &Ledger<A>,
    claim: Option<PeriodClaim>,
    heap: u64,
) -> Option<u32>
    requires { IsProvedBy ledger.now.code (blocks_in ledger.now.blocks) claim }
    ensures value { result ≡ heap_value_by ledger.now.code (blocks_in ledger.now.blocks) (option_map (λ (c : Claim). c.1) claim) heap }
    ensures right { IfSome result (λ value. value ≡ nim_value ledger.now.code heap) }
{
    if heap < u64::from(ledger.known()) {
        return ledger.value(heap as u32);
    }
    let claim = claim?;
    Some(value_by(ledger, &claim.period, heap))
}

/// The nim-value of a position, where the blocks or the proved claim give those of its heaps.
pub(crate) fn position_value_by<A: Allocator + Copy>(
    ledger: &Ledger<A>,
    claim: &Option<PeriodClaim>,
    heaps: &[u64],
) -> Result<u32, Unknown>
    requires { IsProvedBy ledger.now.code (blocks_in ledger.now.blocks) claim.now }
    ensures value { result ≡ position_value_from (heap_value_by ledger.now.code (blocks_in ledger.now.blocks) (option_map (λ (c : Claim). c.1) claim.now)) 0 heaps.now }
    ensures right { IfOk result (λ value. value ≡ nim_sum ledger.now.code heaps.now) }
{
    let mut total = 0;
    for (index, heap) in heaps.iter().enumerate() {
        let Some(value) = heap_value_by(ledger, *claim, *heap) else {
            return Err(Unknown { index });
        };
        total ^= value;
    }
    Ok(total)
}
