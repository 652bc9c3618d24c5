//! Lists of numbers as lists of their own types.

ghost use Rattle.std.specs.Prelude.{◌≡◌, ◌*◌, ◌<◌, ◌≤◌, IfErr, IfOk, length, map, vec_capacity};
ghost use Rattle.std.specs.List.{All};
ghost use Rattle.oct_mex.specs.Marks.{IsTableFor};
ghost use Rattle.oct_saved.specs.Reading.{IsCodeOf, RefusesIf};
ghost use Rattle.oct_code.specs.Code as octal;

use crate::error::ReadError;
use crate::word::Word;
use oct_code::Code;
use oct_window::MARKS;
use std::alloc::Allocator;

/// The words that numbers stand for, with room for twice as many.
pub(crate) fn words_of<T: Word, A: Allocator + Copy>(
    alloc: A,
    numbers: &[u64],
) -> Result<Vec<T, A>, ReadError>
    ensures items { IfOk result (λ words. map T.number words.items ≡ numbers.now) }
    ensures fit { IfOk result (λ words. All (λ n. n < T.bound) numbers.now) }
    ensures room { IfOk result (λ words. 2 * length numbers.now ≤ vec_capacity words) }
    ensures err { IfErr result (λ error. RefusesIf error (All (λ n. n < T.bound) numbers.now)) }
{
    let mut words = Vec::with_capacity(alloc, 2 * numbers.len())?;
    for number in numbers {
        let Some(word) = T::from_number(*number) else {
            return Err(ReadError::Refused);
        };
        words.push_reserved(word);
    }
    Ok(words)
}

/// The code of this head and of these digits.
pub(crate) fn code_of<A: Allocator + Copy>(
    alloc: A,
    head: u64,
    digits: &[u64],
) -> Result<Code, ReadError>
    ensures ok { IfOk result (IsCodeOf head digits.now) }
    ensures err { IfErr result (λ error. RefusesIf error ((c : octal.Code) × IsCodeOf head digits.now c)) }
{
    let Some(head) = u8::from_number(head) else {
        return Err(ReadError::Refused);
    };
    let digits: Vec<u8, A> = words_of(alloc, digits)?;
    match Code::from_digits(head, &digits) {
        Ok(code) => Ok(code),
        Err(_) => Err(ReadError::Refused),
    }
}

/// How many marks are used: the least power of two above each value.
pub(crate) fn used_for(values: &[u16]) -> usize
    ensures table { IsTableFor values.now result }
    ensures most { result ≤ MARKS }
{
    let mut greatest = 0;
    for value in values {
        greatest = greatest.max(*value);
    }
    (usize::from(greatest) + 1).next_power_of_two()
}
