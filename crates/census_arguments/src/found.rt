//! What was found on a command line.

use census_diagnosis::of_code;
use census_failure::Failure;
use census_files::Out;
use census_state::Fault;
use census_words::words::{self, Word};
use clap::ArgMatches;
use oct_code::Code;
use oct_text::Form;
use std::alloc::Global;

/// A word of the command line.
pub fn word<'a>(found: &ArgMatches<'a>, word: Word) -> Result<&'a str, Failure> {
    match found.get_str(word.name) {
        Some(text) => Ok(text),
        None => Err(Failure::from(Fault::Words)),
    }
}

/// A word that names the file that a command writes.
pub fn out<'a>(found: &ArgMatches<'a>, which: Word) -> Result<Out<'a>, Failure> {
    Ok(Out {
        path: word(found, which)?,
        is_forced: found.get_flag(words::REPLACE.name),
    })
}

/// A copy of a word's bytes.
pub fn bytes(alloc: Global, found: &ArgMatches<'_>, which: Word) -> Result<Vec<u8>, Failure> {
    Ok(Vec::from_slice(alloc, word(found, which)?.as_bytes())?)
}

/// A word that stands once or more.
pub fn repeated<'a>(
    alloc: Global,
    found: &ArgMatches<'a>,
    which: Word,
) -> Result<Vec<&'a str>, Failure> {
    let Some(words) = found.get_strs(which.name) else {
        return Err(Failure::from(Fault::Words));
    };
    let mut all = Vec::new(alloc);
    for word in words {
        all.push(*word).or(Err(Fault::OutOfMemory))?;
    }
    Ok(all)
}

/// A word that stands any number of times.
pub fn repeated_or_none<'a>(
    alloc: Global,
    found: &ArgMatches<'a>,
    which: Word,
) -> Result<Vec<&'a str>, Failure> {
    if found.get_strs(which.name).is_none() {
        return Ok(Vec::new(alloc));
    }
    repeated(alloc, found, which)
}

/// Copies of the bytes of the words that stand under a name.
pub fn copies(alloc: Global, found: &ArgMatches<'_>, name: &str) -> Result<Vec<Vec<u8>>, Failure> {
    let mut copies = Vec::new(alloc);
    if let Some(words) = found.get_strs(name) {
        for word in words {
            let copy = Vec::from_slice(alloc, word.as_bytes())?;
            copies.push(copy).or(Err(Fault::OutOfMemory))?;
        }
    }
    Ok(copies)
}

/// The games of codes.
pub fn games(alloc: Global, codes: &[Vec<u8>]) -> Result<Vec<Code>, Failure> {
    let mut games = Vec::new(alloc);
    for code in codes {
        let game = game(alloc, code)?;
        games.push(game).or(Err(Fault::OutOfMemory))?;
    }
    Ok(games)
}

/// The game of a code.
pub fn game(alloc: Global, code: &[u8]) -> Result<Code, Failure> {
    match Code::parse(code) {
        Ok(game) => Ok(game),
        Err(cause) => Err(of_code(alloc, Fault::Code(cause), code)),
    }
}

/// Whether nothing is printed where all is done.
pub fn is_quiet(found: &ArgMatches<'_>) -> bool {
    found.get_flag(words::QUIET.name)
}

/// How lines are written.
pub fn form(found: &ArgMatches<'_>) -> Form {
    if found.get_flag(words::EACH_JSON.name) {
        Form::Json
    } else {
        Form::Lines
    }
}
