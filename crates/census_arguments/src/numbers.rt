//! Numbers among the words of a command line.

use crate::found::word;
use census_failure::{Failure, shown};
use census_issue::check_count;
use census_search::SEARCH_LIMIT;
use census_state::{Fault, number};
use census_words::words::{self, Choice, Word};
use clap::ArgMatches;
use oct_code::LIMIT;
use oct_join::Clock;
use oct_ops::Dot;
use std::alloc::{AllocError, Global};
use std::time::Duration;

/// The numbers that a word may be.
#[derive(Clone, Copy)]
pub struct Range {
    pub least: u64,
    pub greatest: u64,
}

/// All numbers of 32 bits.
pub const FROM_0: Range = Range {
    least: 0,
    greatest: 4_294_967_295,
};

/// All of these but 0.
pub const FROM_1: Range = Range {
    least: 1,
    greatest: 4_294_967_295,
};

/// How many values a block has.
pub const BLOCK: Range = Range {
    least: 1,
    greatest: 1_024,
};

/// Heaps of a game from 1 on, and how many values of one may be known.
pub const HEAPS: Range = Range {
    least: 1,
    greatest: LIMIT as u64,
};

/// How many values of a game a search may compute.
pub const SEARCHED: Range = Range {
    least: 1,
    greatest: SEARCH_LIMIT,
};

/// How many sessions a hub may have at once.
pub const SESSIONS: Range = Range {
    least: 1,
    greatest: 1_024,
};

/// The heaps of a position.
pub const ANY_HEAP: Range = Range {
    least: 0,
    greatest: u64::MAX,
};

/// A word as a number of 32 bits, of which these are taken.
pub fn number_of(
    alloc: Global,
    found: &ArgMatches<'_>,
    which: Word,
    range: Range,
) -> Result<u32, Failure> {
    number_in(alloc, which.name, word(found, which)?, range)
}

/// A text as a number of 32 bits. The range is what is said of a text that is none; whether a number is within it, the
/// command itself says.
pub(crate) fn number_in(
    alloc: Global,
    name: &str,
    text: &str,
    range: Range,
) -> Result<u32, Failure> {
    match number(text, u64::from(u32::MAX)).map(u32::try_from) {
        Some(Ok(number)) => Ok(number),
        _ => Err(misfit(alloc, name, text, range)),
    }
}

// The failure of a word that is no number of its range.
fn misfit(alloc: Global, name: &str, text: &str, range: Range) -> Failure {
    Failure::from(Fault::Number).found(misfit_text(alloc, name, text, range))
}

fn misfit_text(alloc: Global, name: &str, text: &str, range: Range) -> Result<String, AllocError> {
    let Range { least, greatest } = range;
    let text = shown(alloc, text)?;
    format!(in alloc; "{name} must be {least} to {greatest}, and is {text}")
}

// The failure of an option that is no number of its range.
fn option_misfit(alloc: Global, choice: Choice, text: &str, range: Range) -> Failure {
    let name = choice.name;
    match format!(in alloc; "--{name}") {
        Ok(name) => misfit(alloc, &name, text, range),
        Err(_) => Failure::from(Fault::Number),
    }
}

/// The seconds of an option, at least one.
pub fn seconds(alloc: Global, found: &ArgMatches<'_>, choice: Choice) -> Result<Duration, Failure> {
    let seconds = option_of(alloc, found, choice, FROM_1)?;
    Ok(Duration::from_secs(u64::from(seconds)))
}

/// The number of an option, within the range.
pub fn option_of(
    alloc: Global,
    found: &ArgMatches<'_>,
    choice: Choice,
    range: Range,
) -> Result<u32, Failure> {
    let Some(text) = found.get_str(choice.name) else {
        return Err(Failure::from(Fault::Words));
    };
    match number(text, range.greatest).map(u32::try_from) {
        Some(Ok(number)) if u64::from(number) >= range.least => Ok(number),
        _ => Err(option_misfit(alloc, choice, text, range)),
    }
}

/// The number of an option, within the range, where the option stands.
pub fn option_if(
    alloc: Global,
    found: &ArgMatches<'_>,
    choice: Choice,
    range: Range,
) -> Result<Option<u64>, Failure> {
    let Some(text) = found.get_str(choice.name) else {
        return Ok(None);
    };
    match number(text, range.greatest) {
        Some(number) if number >= range.least => Ok(Some(number)),
        _ => Err(option_misfit(alloc, choice, text, range)),
    }
}

/// The permissions of a socket, in octal digits; those of a command that makes none are not looked at.
pub fn mode(alloc: Global, found: &ArgMatches<'_>) -> Result<u32, Failure> {
    let Some(text) = found.get_str(words::MODE.name) else {
        return Ok(0);
    };
    match octal(text) {
        Some(mode) => Ok(mode),
        None => Err(Failure::from(Fault::Number).found(mode_text(alloc, text))),
    }
}

// The number of three octal digits.
fn octal(text: &str) -> Option<u32> {
    let mut number: u32 = 0;
    for sign in text.chars() {
        number = number.checked_mul(8)?.checked_add(sign.to_digit(8)?)?;
    }
    if text.len() == 3 { Some(number) } else { None }
}

fn mode_text(alloc: Global, text: &str) -> Result<String, AllocError> {
    let text = shown(alloc, text)?;
    format!(in alloc; "--mode must be three octal digits, as 600 or 660, and is {text}")
}

/// How many values of a game are to be known.
pub fn heap_count(alloc: Global, found: &ArgMatches<'_>) -> Result<u32, Failure> {
    let text = word(found, words::HEAPS)?;
    let count = number_in(alloc, words::HEAPS.name, text, HEAPS)?;
    match check_count(count) {
        Ok(()) => Ok(count),
        Err(_) => Err(misfit(alloc, words::HEAPS.name, text, HEAPS)),
    }
}

/// How many values of a game are searched at most.
pub fn value_count(alloc: Global, found: &ArgMatches<'_>, range: Range) -> Result<u64, Failure> {
    let text = word(found, words::VALUES)?;
    match number(text, range.greatest) {
        Some(count) if count >= range.least => Ok(count),
        _ => Err(misfit(alloc, words::VALUES.name, text, range)),
    }
}

/// By how many values a game is searched, where that is asked for.
pub fn searched(alloc: Global, found: &ArgMatches<'_>) -> Result<Option<u64>, Failure> {
    let Some(text) = found.get_str(words::SEARCHED.name) else {
        return Ok(None);
    };
    match number(text, SEARCHED.greatest) {
        Some(count) if count >= SEARCHED.least => Ok(Some(count)),
        _ => Err(option_misfit(alloc, words::SEARCHED, text, SEARCHED)),
    }
}

/// The clock of the dots of an option: for each author the greatest number that is named.
pub fn clock_of(
    alloc: Global,
    found: &ArgMatches<'_>,
    choice: Choice,
) -> Result<Clock<Global>, Failure> {
    let mut clock = Clock::new(alloc);
    if let Some(words) = found.get_strs(choice.name) {
        for word in words {
            let Some(dot) = dot_in(word) else {
                return Err(Failure::from(Fault::Number).found(no_dot_text(alloc, choice, word)));
            };
            clock.raise(dot.author(), dot.number())?;
        }
    }
    Ok(clock)
}

// The dot of a text: an author, a point, and a number.
fn dot_in(text: &str) -> Option<Dot> {
    let (author, count) = text.split_once('.')?;
    let author = number(author, u64::from(u32::MAX))?;
    let count = number(count, u64::from(u32::MAX))?;
    Dot::new(u32::try_from(author).ok()?, u32::try_from(count).ok()?).ok()
}

fn no_dot_text(alloc: Global, choice: Choice, text: &str) -> Result<String, AllocError> {
    let name = choice.name;
    let text = shown(alloc, text)?;
    format!(in alloc; "--{name} must be an author, a point and a number, as 2.5, and is {text}")
}

/// The heaps that stand under a name.
pub fn heaps(alloc: Global, found: &ArgMatches<'_>, name: &str) -> Result<Vec<u64>, Failure> {
    let mut heaps = Vec::new(alloc);
    if let Some(words) = found.get_strs(name) {
        for word in words {
            let Some(heap) = number(word, u64::MAX) else {
                return Err(misfit(alloc, "HEAP", word, ANY_HEAP));
            };
            heaps.push(heap).or(Err(Fault::OutOfMemory))?;
        }
    }
    Ok(heaps)
}
