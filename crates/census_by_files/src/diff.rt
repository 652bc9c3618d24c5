//! `census diff`: what one file has and another has not.

use census_arguments::{is_listed, is_refused, listed, read_input, with_order, word};
use census_core::Fault;
use census_diagnosis::{Given, of_either, of_games};
use census_failure::Failure;
use census_files::is_standard;
use census_fold::{diff, diff_of_games};
use census_words::CommandRow;
use census_words::words::{self, Choice, Takes, Times, Word};
use clap::ArgMatches;
use std::alloc::Global;
use std::io::{Read, Write};
use std::rt::Files;
use written::write_out;

// The first of two files that are compared.
const ONE: Word = Word {
    name: "FILE",
    meaning: "A state or a delta, or -",
    times: Times::One,
};

// The second.
const OTHER: Word = Word {
    name: "OTHER",
    meaning: "Another one, or -",
    times: Times::One,
};

// The games in which alone two files are compared.
const IN_GAMES: Choice = Choice {
    name: "only",
    takes: Takes::Many("CODE"),
    meaning: "Compares the blocks and claims of this game alone; may stand several times",
    default: None,
};

/// Its row in the table.
pub const ROW: CommandRow = CommandRow {
    name: "diff",
    words: &[ONE, OTHER],
    options: &[IN_GAMES, words::LIST, words::PART],
    line: "What one file has, a state or a delta, and another has not",
    about: "Lists the operations that one of two files has, each a state or a delta, and the other has not",
    after: "\
A line for each such operation is that of census log behind a sign: - of what FILE has alone, and + of
what OTHER has alone. Blocks and periods come first, by games, and then notes and what is taken back.
A number of which each has something that the other has not was used twice: its lines come once more at
the end, behind `used twice`. Nothing is printed where both have the same operations, whoever their
authors are. Nothing is computed, and no file is changed.

With --only or --codes the lines are those of the blocks and periods of the games that are named alone,
in the order in which they are named, and with --part I/N those of every N-th of these games. The exit
status is then that of these games.

Exit status: 0 both have the same operations, 1 they have not, or refused: Load (a state), Merge (a
file is neither), Code; 2 command line, 3 file, 4 memory

Examples:
  census diff anna.state ben.state
  census diff anna.state - < ben.delta
  census diff anna.state ben.state --only 0.77",
};

// What is asked: how two files differ, in some games alone where these are named.
#[derive(Drop)]
struct Compared<'a> {
    one: &'a str,
    other: &'a str,
    games: Option<Vec<Vec<u8>>>,
}

/// Reads the words of the command, does it, and gives the exit status.
pub fn command<R, I, O>(
    rt: &R,
    found: &ArgMatches<'_>,
    input: &mut I,
    output: &mut O,
) -> Result<u8, Failure>
where
    R: Files + AllocGlobal,
    I: Read,
    O: Write,
{
    let asked = with_order(rt.alloc(), &ROW, task(rt, found, input))?;
    run(rt, &asked, input, output)
}

// What its words ask for.
fn task<'a, R, I>(rt: &R, found: &ArgMatches<'a>, input: &mut I) -> Result<Compared<'a>, Failure>
where
    R: Files + AllocGlobal,
    I: Read,
{
    let (one, other) = (word(found, ONE)?, word(found, OTHER)?);
    let list = found.get_str(words::LIST.name).unwrap_or("");
    if standard_inputs(one, other, list) > 1 {
        let text = String::from_str(rt.alloc(), "only one of the files can be -");
        return Err(Failure::from(Fault::Words).found(text));
    }
    let codes = listed(rt, found, IN_GAMES.name, input)?;
    let games = if codes.is_empty() && !is_listed(found) {
        None
    } else {
        Some(codes)
    };
    Ok(Compared { one, other, games })
}

// How many of the files are standard input.
fn standard_inputs(one: &str, other: &str, list: &str) -> usize {
    [one, other, list]
        .iter()
        .filter(|path| is_standard(path))
        .count()
}

// Prints what one file has and the other has not. The status is 0 where both have the same operations, of these games where
// some are named, and else 1.
fn run<R, I, O>(rt: &R, asked: &Compared<'_>, input: &mut I, output: &mut O) -> Result<u8, Failure>
where
    R: Files + AllocGlobal,
    I: Read,
    O: Write,
{
    // standard input is read before any file
    if is_standard(asked.other) {
        let (other, later) = read_input(rt, asked.other, input)?;
        let (one, bytes) = read_input(rt, asked.one, input)?;
        let (one, other) = (Given::new(one, &bytes), Given::new(other, &later));
        return told(rt.alloc(), one, other, &asked.games, output);
    }
    let (one, bytes) = read_input(rt, asked.one, input)?;
    let (other, later) = read_input(rt, asked.other, input)?;
    let (one, other) = (Given::new(one, &bytes), Given::new(other, &later));
    told(rt.alloc(), one, other, &asked.games, output)
}

// Prints how the files differ, in these games where some are named, and gives the status.
fn told<O: Write>(
    alloc: Global,
    one: Given<'_>,
    other: Given<'_>,
    games: &Option<Vec<Vec<u8>>>,
    output: &mut O,
) -> Result<u8, Failure> {
    let made = match games {
        Some(codes) => diff_of_games(alloc, one.bytes, other.bytes, codes),
        None => diff(alloc, one.bytes, other.bytes),
    };
    match made {
        Ok(text) => {
            write_out(output, &text)?;
            Ok(u8::from(!text.is_empty()))
        }
        Err(fault) => Err(refused(alloc, fault, one, other, games)),
    }
}

// The failure of a word that is no code, or of the first of both files that is neither a state nor a delta.
fn refused(
    alloc: Global,
    fault: Fault,
    one: Given<'_>,
    other: Given<'_>,
    games: &Option<Vec<Vec<u8>>>,
) -> Failure {
    if let (Fault::Code(_), Some(codes)) = (&fault, games) {
        return of_games(alloc, fault, codes, one);
    }
    if is_refused(one.bytes) {
        return of_either(alloc, fault, one);
    }
    of_either(alloc, fault, other)
}
