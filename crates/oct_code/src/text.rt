//! Codes as text: a head, a point, digits.

ghost use Rattle.std.specs.Prelude.{◌≡◌, ◌≤◌, ◌+◌, ◌∷◌, ◌++◌, length, drop, replicate, IsTrue};
ghost use Rattle.oct_code.specs.CodeText.{digit_bytes};
ghost use Rattle.std.specs.List.{All};
ghost use Rattle.oct_code.specs.TextFaults.{around_point, parts_now, are_digit_bytes, trimmed, digits_of, parts_fault, result_err};

use crate::error::CodeError;
use crate::limits::MAX_DIGITS;

/// The head's byte, which is that of 0 where there is none, and the bytes after the point.
pub(crate) fn around_point(text: &[u8]) -> Option<(u8, &[u8])>
    ensures { parts_now result ≡ around_point text.now }
{
    match text {
        [b'.', bytes @ ..] => Some((b'0', bytes)),
        [head, b'.', bytes @ ..] => Some((*head, bytes)),
        _ => None,
    }
}

// Whether each byte is one of `0` to `7`.
fn are_digit_bytes(bytes: &[u8]) -> bool
    ensures { result ≡ are_digit_bytes bytes.now }
{
    bytes.iter().all(|byte| matches!(*byte, b'0'..=b'7'))
}

/// The bytes without the zeros at the end.
pub(crate) fn trimmed(bytes: &[u8]) -> &[u8]
    ensures { result.now ≡ trimmed bytes.now }
{
    let mut digits = bytes;
    while let Some((last, front)) = digits.split_last() {
        if *last != b'0' {
            return digits;
        }
        digits = front;
    }
    digits
}

/// The digits that the bytes spell, and then zeros.
pub(crate) fn digits_of(bytes: &[u8]) -> [u8; MAX_DIGITS]
    requires short { length bytes.now ≤ MAX_DIGITS }
    requires octal { IsTrue (are_digit_bytes bytes.now) }
    ensures { result ≡ digits_of bytes.now ++ drop (length bytes.now) (replicate MAX_DIGITS 0) }
{
    let mut digits = [0; MAX_DIGITS];
    for (place, byte) in bytes.iter().enumerate() {
        digits[place] = *byte - b'0';
    }
    digits
}

// The most bytes of a code's text.
const MAX_TEXT: usize = 18;

/// The head and the digits as text, and then zeros.
pub(crate) fn spell(head: u8, digits: &[u8]) -> [u8; MAX_TEXT]
    requires head { head ≤ 4 }
    requires short { length digits.now ≤ MAX_DIGITS }
    requires octal { All (λ d. d ≤ 7) digits.now }
    ensures { result ≡ (48 + head) ∷ 46 ∷ digit_bytes digits.now ++ drop (length digits.now) (replicate MAX_DIGITS 48) }
{
    let mut text = [b'0'; MAX_TEXT];
    text[0] = b'0' + head;
    text[1] = b'.';
    for (place, digit) in digits.iter().enumerate() {
        text[place + 2] = b'0' + *digit;
    }
    text
}

/// The first fault of a text's parts.
pub(crate) fn check_parts(head: u8, bytes: &[u8]) -> Result<(), CodeError>
    ensures { result_err result ≡ parts_fault head bytes.now }
{
    if bytes.is_empty() {
        Err(CodeError::Form)
    } else if head != b'0' && head != b'4' {
        Err(CodeError::Head)
    } else if !are_digit_bytes(bytes) {
        Err(CodeError::Digit)
    } else if trimmed(bytes).len() > MAX_DIGITS {
        Err(CodeError::Long)
    } else {
        Ok(())
    }
}
