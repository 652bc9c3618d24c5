//! What is said of a period that nim-values prove, or of nim-values that prove none.

ghost use Rattle.std.specs.Prelude.{◌≡◌, ◌++◌, OnOk};
ghost use Rattle.oct_period.specs.Periods.{needs};
ghost use Rattle.census_state.specs.PeriodTexts.{found_text, vain_line, vain_words};

use oct_code::Code;
use oct_ops::Period;
use oct_text::{append_labelled, append_text};
use std::alloc::AllocError;

/// Appends the line of a game of which so many nim-values prove no period.
pub fn append_vain_line(text: &mut Vec<u8>, code: Code, values: u64) -> Result<(), AllocError>
    ensures { OnOk result (text.new.items ≡ text.old.items ++ vain_line code values) }
{
    append_vain_words(text, code, values)?;
    append_text(text, b"\n")
}

/// Appends that so many nim-values of a game prove no period.
pub fn append_vain_words(text: &mut Vec<u8>, code: Code, values: u64) -> Result<(), AllocError>
    ensures { OnOk result (text.new.items ≡ text.old.items ++ vain_words code values) }
{
    code.append_text(text)?;
    append_labelled(text, b" no period in ", values)?;
    append_text(text, b" values")
}

/// Appends a period, its start, and how many values prove it.
pub fn append_period(text: &mut Vec<u8>, found: &Period) -> Result<(), AllocError>
    ensures { OnOk result (text.new.items ≡ text.old.items ++ found_text found.now) }
{
    append_labelled(text, b" period ", found.period())?;
    append_labelled(text, b" from ", found.start())?;
    append_labelled(text, b" needs ", needs(found))
}

/// How many nim-values prove the claim.
pub fn needs(claim: &Period) -> u64
    ensures { result ≡ needs claim.now }
{
    2 * u64::from(claim.start()) + 2 * u64::from(claim.period()) + claim.code().len() as u64
}
