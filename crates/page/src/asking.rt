//! What is asked of the first nim-values of a game.

ghost use Rattle.std.specs.Prelude.{◌≡◌, ◌≤◌, Ok, Err, IfErr, IfOk, OnOk};
ghost use Rattle.page.specs.Asked.{asked, counted};

use census_state::{Fault, read_code};
use oct_code::Code;

/// The game that is asked about, by its first `count` nim-values, of which at most `most` are computed. The fault is `Number` where
/// there are none or more, and then that of the code.
pub(crate) fn asked(most: u64, count: u64, code: &[u8]) -> Result<Code, Fault>
    ensures ok { IfOk result (λ game. asked most count code.now ≡ Ok game) }
    ensures some { OnOk result (1 ≤ count) }
    ensures few { OnOk result (count ≤ most) }
    ensures err { IfErr result (λ e. asked most count code.now ≡ Err e) }
{
    check_count(most, count)?;
    Ok(read_code(code)?)
}

// Refuses a number of values that is 0 or above `most`.
fn check_count(most: u64, count: u64) -> Result<(), Fault>
    ensures ok { OnOk result (counted most count ≡ Ok count) }
    ensures some { OnOk result (1 ≤ count) }
    ensures few { OnOk result (count ≤ most) }
    ensures err { IfErr result (λ e. counted most count ≡ Err e) }
{
    if count == 0 || count > most {
        return Err(Fault::Number);
    }
    Ok(())
}
