//! Hexadecimal text.

ghost use Rattle.std.specs.Prelude.{◌≡◌, ◌+◌, ◌*◌, ◌<◌, ◌↔◌, Ok, Some, is_some, length, true, OnOk, IfOk};
ghost use Rattle.hex.specs.Hex.{hex_digit_value};
ghost use Rattle.census_fold.specs.Folded.{unhexed};

use std::alloc::{AllocError, Allocator};

/// Puts the bytes that a text spells in hexadecimal digits in the place of what the vector held, and says whether it spells
/// any: whether it has an even number of bytes, all of them digits, in either case.
pub(crate) fn decode_text<A: Allocator>(
    text: &[u8],
    bytes: &mut Vec<u8, A>,
) -> Result<bool, AllocError>
    ensures spelled { IfOk result (λ spelled. spelled ≡ is_some (unhexed text.now)) }
    ensures bytes { result ≡ Ok true → unhexed text.now ≡ Some bytes.new.items }
{
    bytes.clear();
    let count = text.len() / 2;
    if 2 * count != text.len() {
        return Ok(false);
    }
    bytes.reserve(count)?;
    'pairs: for i in 0..count {
        let (Some(high), Some(low)) = (digit(text[2 * i]), digit(text[2 * i + 1])) else {
            return Ok(false);
        };
        bytes.push_reserved(16 * high + low);
    }
    Ok(true)
}

// The value of a digit, in either case.
fn digit(c: u8) -> Option<u8>
    ensures { result ≡ hex_digit_value c }
{
    let value = VALUES[c as usize];
    if value == X { None } else { Some(value) }
}

// What stands for a byte that is no digit.
const X: u8 = 255;

// The value of each byte as a digit: no branch looks at the byte.
const VALUES: [u8; 256] = [
    X, X, X, X, X, X, X, X, X, X, X, X, X, X, X, X, X, X, X, X, X, X, X, X, X, X, X, X, X, X, X, X,
    X, X, X, X, X, X, X, X, X, X, X, X, X, X, X, X, 0, 1, 2, 3, 4, 5, 6, 7, 8, 9, X, X, X, X, X, X,
    X, 10, 11, 12, 13, 14, 15, X, X, X, X, X, X, X, X, X, X, X, X, X, X, X, X, X, X, X, X, X, X, X,
    X, X, X, 10, 11, 12, 13, 14, 15, X, X, X, X, X, X, X, X, X, X, X, X, X, X, X, X, X, X, X, X, X,
    X, X, X, X, X, X, X, X, X, X, X, X, X, X, X, X, X, X, X, X, X, X, X, X, X, X, X, X, X, X, X, X,
    X, X, X, X, X, X, X, X, X, X, X, X, X, X, X, X, X, X, X, X, X, X, X, X, X, X, X, X, X, X, X, X,
    X, X, X, X, X, X, X, X, X, X, X, X, X, X, X, X, X, X, X, X, X, X, X, X, X, X, X, X, X, X, X, X,
    X, X, X, X, X, X, X, X, X, X, X, X, X, X, X, X, X, X, X, X, X, X, X, X, X, X, X, X, X, X, X, X,
    X, X, X, X,
];
