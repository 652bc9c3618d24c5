//! The verdict on a block past the known length, by a proved claim.

ghost use Rattle.std.specs.Prelude.{◌≡◌, ◌≤◌};
ghost use Rattle.oct_period.specs.Proved.{IsProvedOf};
ghost use Rattle.oct_verify.specs.Filing.{blocks_in};
ghost use Rattle.oct_verify.specs.Known.{known, verdict};

use crate::values::value_by;
use oct_ops::{Block, Period};
use oct_verify::{Ledger, Status};
use std::alloc::Allocator;

/// The verdict on a block that starts at or past the known length, by a proved claim of its game.
pub(crate) fn verdict_by<A: Allocator + Copy>(
    ledger: &Ledger<A>,
    period: &Period,
    block: &Block<A>,
) -> Status
    requires proved { IsProvedOf ledger.now.code (blocks_in ledger.now.blocks) period.now }
    requires game { block.now.code ≡ ledger.now.code }
    requires past { known (blocks_in ledger.now.blocks) ≤ block.now.start }
    ensures { result ≡ verdict block.now }
{
    let start = block.start();
    for (index, claimed) in block.values().iter().enumerate() {
        let at = start + index as u32;
        let truth = value_by(ledger, period, u64::from(at));
        if *claimed != truth {
            return Status::Refuted {
                at,
                claimed: *claimed,
                truth,
            };
        }
    }
    Status::Proved
}
