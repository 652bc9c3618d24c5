//! The texts that name periods.

ghost use Rattle.std.specs.Prelude.{◌≡◌, ◌++◌, IfOk, OnOk};
ghost use Rattle.oct_said.specs.Lines.{are_digits, is_long, number_of, period_text, said_by, seen_by, seen_in};
ghost use Rattle.oct_bfile.specs.Bfile.{words};

use oct_bfile::next_word;
use oct_code::{Code, LIMIT};
use oct_mex::SeenPeriod;
use oct_text::append_labelled;
use std::alloc::{AllocError, Allocator};

/// Whether no period claim of the game is ever proved that holds the period: twice its start, twice the period and the number of
/// the code's digits are together above `LIMIT`, 65,536, the values of a game that a census keeps.
pub fn is_long(code: Code, seen: SeenPeriod) -> bool
    ensures { result ≡ is_long code seen }
{
    seen.start > LIMIT
        || seen.period > LIMIT
        || 2 * seen.start + 2 * seen.period + code.len() > LIMIT
}

/// The period that a line of a search names, if it names one: its third word and its fifth are numbers below 2^64, the period and
/// its start.
pub fn seen_in(line: &[u8]) -> Option<SeenPeriod>
    ensures { result ≡ seen_in line.now }
{
    let (_, rest) = next_word(line)?;
    let (_, rest) = next_word(rest)?;
    let (period, rest) = next_word(rest)?;
    let (_, rest) = next_word(rest)?;
    let (start, _) = next_word(rest)?;
    Some(SeenPeriod {
        start: number_of(start)?,
        period: number_of(period)?,
    })
}

/// The period of the game that a text says, which is the text that a note of this period has.
pub(crate) fn said_by<A: Allocator>(
    alloc: A,
    code: Code,
    text: &[u8],
) -> Result<Option<SeenPeriod>, AllocError>
    ensures { IfOk result (λ said. said ≡ said_by code text.now) }
{
    let Some(seen) = seen_in(text) else {
        return Ok(None);
    };
    let spelled = period_text(alloc, code, seen)?;
    if spelled.as_slice() == text {
        Ok(Some(seen))
    } else {
        Ok(None)
    }
}

/// The text of a note of a period.
pub fn period_text<A: Allocator>(
    alloc: A,
    code: Code,
    seen: SeenPeriod,
) -> Result<Vec<u8, A>, AllocError>
    ensures { IfOk result (λ text. text.items ≡ period_text code seen) }
{
    let mut text = Vec::new(alloc);
    append_period(&mut text, code, seen)?;
    Ok(text)
}

/// Appends the code of a game, a period, and the heap from which on it holds.
pub fn append_period<A: Allocator>(
    text: &mut Vec<u8, A>,
    code: Code,
    seen: SeenPeriod,
) -> Result<(), AllocError>
    ensures { OnOk result (text.new.items ≡ text.old.items ++ period_text code seen) }
{
    code.append_text(text)?;
    append_labelled(text, b" period ", seen.period)?;
    append_labelled(text, b" from ", seen.start)
}

/// The number below 2^64 that the word spells in decimal digits.
pub(crate) fn number_of(word: &[u8]) -> Option<usize>
    ensures { result ≡ number_of word.now }
{
    if !are_digits(word) {
        return None;
    }
    let text = str::from_utf8(word).ok()?;
    text.parse::<usize>().ok()
}

// Whether each byte is a decimal digit.
fn are_digits(word: &[u8]) -> bool
    ensures { result ≡ are_digits word.now }
{
    word.iter().all(|byte| byte.is_ascii_digit())
}
