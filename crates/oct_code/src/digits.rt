//! Which digits are a code.

ghost use Rattle.std.specs.Prelude.{◌≡◌};
ghost use Rattle.oct_code.specs.DigitFaults.{are_octal, ends_in_zero, digits_fault};

use crate::error::DigitsError;
use crate::limits::MAX_DIGITS;

// Whether each digit is at most 7.
fn are_octal(digits: &[u8]) -> bool
    ensures { result ≡ are_octal digits.now }
{
    digits.iter().all(|digit| *digit <= 7)
}

// Whether the last digit is 0.
fn ends_in_zero(digits: &[u8]) -> bool
    ensures { result ≡ ends_in_zero digits.now }
{
    digits.last().copied() == Some(0)
}

/// The first fault of digits that are no code.
pub(crate) fn check_digits(head: u8, digits: &[u8]) -> Result<(), DigitsError>
    ensures { result ≡ digits_fault head digits.now }
{
    if head != 0 && head != 4 {
        Err(DigitsError::Head)
    } else if digits.len() > MAX_DIGITS {
        Err(DigitsError::Long)
    } else if !are_octal(digits) {
        Err(DigitsError::Digit)
    } else if ends_in_zero(digits) {
        Err(DigitsError::Trailing)
    } else {
        Ok(())
    }
}
