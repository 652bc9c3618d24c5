//! The codes that a command is given: words, lists that files have, and parts of both.

use crate::found::copies;
use census_codes::{CodesError, MAX_PARTS, Part, part_of, read_codes};
use census_diagnosis::{Given, of_code};
use census_failure::{Failure, INPUT_NAME, Reason, shown};
use census_files::{is_standard, read_file, read_standard};
use census_state::{Fault, number};
use census_words::words;
use clap::ArgMatches;
use oct_code::{Code, CodeError};
use std::alloc::{AllocError, Global};
use std::io::Read;
use std::rt::Files;

/// The codes that a command is given, as texts: the words that stand under this name, and then the codes of the list; of them
/// all the part that is asked for. The fault is `Words` where a part is asked for and neither words nor a list are named, then
/// `Number` where it is none, `File` or `Read` where the list can't be read, and `Code` where a word of it is no code.
pub fn listed<R, I>(
    rt: &R,
    found: &ArgMatches<'_>,
    name: &str,
    input: &mut I,
) -> Result<Vec<Vec<u8>>, Failure>
where
    R: Files + AllocGlobal,
    I: Read,
{
    let alloc = rt.alloc();
    if found.get_str(words::PART.name).is_some() && !is_any_named(found, name) {
        let text = String::from_str(alloc, "--part is of codes: words, or those of --codes FILE");
        return Err(Failure::from(Fault::Words).found(text));
    }
    let part = part(alloc, found)?;
    let mut codes = copies(alloc, found, name)?;
    if let Some(path) = found.get_str(words::LIST.name) {
        append_texts(alloc, &mut codes, &codes_in(rt, path, input)?)?;
    }
    match part {
        Some(part) => Ok(dealt_texts(alloc, &codes, part)?),
        None => Ok(codes),
    }
}

// Whether codes are named, by words of this name or by a list.
fn is_any_named(found: &ArgMatches<'_>, name: &str) -> bool {
    found.get_strs(name).is_some() || found.get_str(words::LIST.name).is_some()
}

/// Whether the codes are those of a list, or of a part: then there may be none.
pub fn is_listed(found: &ArgMatches<'_>) -> bool {
    found.get_str(words::LIST.name).is_some() || found.get_str(words::PART.name).is_some()
}

/// Appends the texts of codes.
pub fn append_texts(alloc: Global, texts: &mut Vec<Vec<u8>>, codes: &[Code]) -> Result<(), Fault> {
    for code in codes {
        let mut text = Vec::new(alloc);
        code.append_text(&mut text)?;
        texts.push(text).or(Err(Fault::OutOfMemory))?;
    }
    Ok(())
}

// Copies of the texts that are of the part.
fn dealt_texts(alloc: Global, texts: &[Vec<u8>], part: Part) -> Result<Vec<Vec<u8>>, Fault> {
    let mut lent: Vec<&[u8]> = Vec::new(alloc);
    for text in texts {
        lent.push(text.as_slice()).or(Err(Fault::OutOfMemory))?;
    }
    let mut dealt = Vec::new(alloc);
    for text in &part_of(alloc, &lent, part)? {
        let copy = Vec::from_slice(alloc, text)?;
        dealt.push(copy).or(Err(Fault::OutOfMemory))?;
    }
    Ok(dealt)
}

/// The part of a list that is asked for, where one is.
pub fn part(alloc: Global, found: &ArgMatches<'_>) -> Result<Option<Part>, Failure> {
    let Some(text) = found.get_str(words::PART.name) else {
        return Ok(None);
    };
    match part_in(text) {
        Some(part) => Ok(Some(part)),
        None => Err(Failure::from(Fault::Number).found(no_part_text(alloc, text))),
    }
}

// The part that the text names: its number, a slash, and how many there are.
fn part_in(text: &str) -> Option<Part> {
    let (which, all) = text.split_once('/')?;
    let which = number(which, u64::from(MAX_PARTS))?;
    let all = number(all, u64::from(MAX_PARTS))?;
    Part::new(u32::try_from(which).ok()?, u32::try_from(all).ok()?)
}

fn no_part_text(alloc: Global, text: &str) -> Result<String, AllocError> {
    let text = shown(alloc, text)?;
    format!(in alloc; "--part must be I/N, I from 1 to N and N at most {MAX_PARTS}, and is {text}")
}

/// The codes of a file. The word `-` is standard input.
pub fn codes_in<R, I>(rt: &R, path: &str, input: &mut I) -> Result<Vec<Code>, Failure>
where
    R: Files + AllocGlobal,
    I: Read,
{
    if is_standard(path) {
        let bytes = read_standard(rt.alloc(), input)?;
        return codes_of(rt.alloc(), Given::new(INPUT_NAME, &bytes));
    }
    let bytes = read_file(rt, path)?;
    codes_of(rt.alloc(), Given::new(path, &bytes))
}

// The codes of a file's bytes.
fn codes_of(alloc: Global, file: Given<'_>) -> Result<Vec<Code>, Failure> {
    match read_codes(alloc, file.bytes) {
        Ok(codes) => Ok(codes),
        Err(CodesError::NoCode { line, cause }) => Err(refused(alloc, line, cause, file)),
        Err(CodesError::OutOfMemory) => Err(Failure::from(Fault::OutOfMemory)),
    }
}

// The failure of a file with a word that is no code.
fn refused(alloc: Global, line: usize, cause: CodeError, file: Given<'_>) -> Failure {
    let failure = of_code(alloc, Fault::Code(cause), refused_word(file.bytes));
    let text = match &failure.reason {
        Reason::Found(why) => line_text(alloc, file.name, line, why),
        _ => return failure,
    };
    failure.found(text)
}

fn line_text(alloc: Global, name: &str, line: usize, why: &str) -> Result<String, AllocError> {
    let name = shown(alloc, name)?;
    format!(in alloc; "{name}, line {line}: {why}")
}

// The first word of a list that is no code.
fn refused_word(text: &[u8]) -> &[u8] {
    for line in text.split(|byte| *byte == b'\n' || *byte == b'\r') {
        let said = line.split(|byte| *byte == b'#').next().unwrap_or(line);
        for word in said.split(|byte| *byte == b' ' || *byte == b'\t') {
            if !word.is_empty() && Code::parse(word).is_err() {
                return word;
            }
        }
    }
    b""
}

/// The codes of a list that are of the part, where one is asked for.
pub fn dealt(alloc: Global, codes: Vec<Code>, part: Option<Part>) -> Result<Vec<Code>, AllocError> {
    match part {
        Some(part) => part_of(alloc, &codes, part),
        None => Ok(codes),
    }
}
