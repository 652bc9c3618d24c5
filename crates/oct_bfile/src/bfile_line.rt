//! One line of a b-file.

ghost use Rattle.std.specs.Prelude.{◌≡◌};
ghost use Rattle.std.specs.Char.{is_ascii_digit};
ghost use Rattle.std.specs.List.{list_all};
ghost use Rattle.oct_bfile.specs.Bfile.{line_of, number_of};

use crate::splitting::next_word;

/// What a line of a b-file says.
#[derive(Clone, Copy)]
pub(crate) enum BfileLine {
    /// Nothing: it has no words, or is a comment.
    Skipped,
    /// The value that has this number.
    Row { number: u32, value: u32 },
    /// What no line may say.
    Faulty,
}

/// What the line says.
pub(crate) fn line_of(line: &[u8]) -> BfileLine
    ensures { result ≡ line_of line.now }
{
    let Some((first, rest)) = next_word(line) else {
        return BfileLine::Skipped;
    };
    if first[0] == b'#' {
        return BfileLine::Skipped;
    }
    let Some((second, rest)) = next_word(rest) else {
        return BfileLine::Faulty;
    };
    if next_word(rest).is_some() {
        return BfileLine::Faulty;
    }
    match (number_of(first), number_of(second)) {
        (Some(number), Some(value)) => BfileLine::Row { number, value },
        _ => BfileLine::Faulty,
    }
}

// The number below 2^32 that the word spells in decimal digits.
fn number_of(word: &[u8]) -> Option<u32>
    ensures { result ≡ number_of word.now }
{
    if !are_digits(word) {
        return None;
    }
    let text = str::from_utf8(word).ok()?;
    text.parse::<u32>().ok()
}

// Whether each byte is a decimal digit.
fn are_digits(word: &[u8]) -> bool
    ensures { result ≡ list_all is_ascii_digit word.now }
{
    word.iter().all(|byte| byte.is_ascii_digit())
}
