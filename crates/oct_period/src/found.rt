//! The period that is found among the known nim-values of a game.

ghost use Rattle.std.specs.Prelude.{◌≡◌, IfSome};
ghost use Rattle.oct_mex.specs.Periods.{IsPeriodicFrom};
ghost use Rattle.oct_period.specs.Found.{found_period, IsFoundPeriod};
ghost use Rattle.oct_verify.specs.Filing.{blocks_in};

use oct_ops::Period;
use oct_verify::Ledger;
use std::alloc::Allocator;

/// The claim of the least period that the ledger's blocks prove, from the least start on; none where they prove no claim of
/// the game. It holds for every heap, whether or not somebody has made it. Takes no memory.
pub fn find_period<A: Allocator + Copy>(ledger: &Ledger<A>) -> Option<Period>
    ensures value { result ≡ found_period ledger.now.code (blocks_in ledger.now.blocks) }
    ensures found { IsFoundPeriod ledger.now.code (blocks_in ledger.now.blocks) result }
    ensures holds { IfSome result (λ found. IsPeriodicFrom ledger.now.code found.start found.period) }
{
    let code = ledger.code();
    let seen = oct_mex::find_period(&code, ledger.known_values())?;
    match Period::new(code, seen.start as u32, seen.period as u32) {
        Ok(found) => Some(found),
        Err(_) => unreachable!(),
    }
}
