//! `census log`: who said what.

use census_arguments::{
    FROM_1, clock_of, game, of_files, option_of, read_files, repeated, with_order,
};
use census_core::{Wanted, log_together};
use census_failure::Failure;
use census_words::CommandRow;
use census_words::words::{self, Choice, Takes};
use clap::ArgMatches;
use oct_code::Code;
use std::alloc::Global;
use std::io::Write;
use std::rt::Files;
use written::write_out;

// The author whose operations alone are listed.
const BY: Choice = Choice {
    name: "author",
    takes: Takes::One("ID"),
    meaning: "Lists what this author said alone, 1 to 4294967295",
    default: None,
};

// The game whose blocks and claims alone are listed.
const OF: Choice = Choice {
    name: "game",
    takes: Takes::One("CODE"),
    meaning: "Lists the blocks and claims of this game alone",
    default: None,
};

// The dots up to which operations are known.
const SINCE: Choice = Choice {
    name: "since",
    takes: Takes::Many("DOT"),
    meaning: "Leaves out what its author said up to DOT, as 2.5; may stand several times",
    default: None,
};

/// Its row in the table.
pub const ROW: CommandRow = CommandRow {
    name: "log",
    words: &[words::FILES],
    options: &[BY, OF, SINCE],
    line: "Who said what, in states and deltas together",
    about: "Lists the operations of some files together, each a state or a delta: who said what",
    after: "\
A line for each operation has its author and its number among the author's, as 2.1, the author's name
where it has one, and what was said, true or not: a block of values, its first heap and how many it
has; a period, the heap from which on it is claimed to hold and its length; a note, its name and text;
or the notes that are taken back. They stand by author, then by number. No line has a day, since no
operation has one; a hub has the day in lines of its own. Nothing is computed, and no file is changed.
With --author and --game they are those of that author, and of that game: blocks and
periods. With --since DOT, where DOT is an author and a number, as 2.5, what that author said up to that
number is left out; of authors that are not named all is listed.

Exit status: 0 done, 1 refused: Code, Load (a state), Merge (a file is neither); 2 command line,
3 file, 4 memory

Examples:
  census log group.state
  census log anna.state ben.delta --author 2
  census log group.state --game 0.77
  census log group.state --since 1.199 --since 2.31",
};

// What is asked: of what was said in files, the operations that are wanted.
#[derive(Drop)]
struct Log<'a> {
    files: Vec<&'a str>,
    wanted: Wanted<Global>,
}

/// Reads the words of the command, does it, and gives the exit status.
pub fn command<R, O>(rt: &R, found: &ArgMatches<'_>, output: &mut O) -> Result<u8, Failure>
where
    R: Files + AllocGlobal,
    O: Write,
{
    let asked = with_order(rt.alloc(), &ROW, task(rt.alloc(), found))?;
    run(rt, &asked, output)?;
    Ok(0)
}

// What its words ask for.
fn task<'a>(alloc: Global, found: &ArgMatches<'a>) -> Result<Log<'a>, Failure> {
    Ok(Log {
        wanted: Wanted {
            author: author(alloc, found)?,
            game: game_found(alloc, found)?,
            since: clock_of(alloc, found, SINCE)?,
        },
        files: repeated(alloc, found, words::FILES)?,
    })
}

// The author that is named, if one is.
fn author(alloc: Global, found: &ArgMatches<'_>) -> Result<Option<u32>, Failure> {
    match found.get_str(BY.name) {
        Some(_) => Ok(Some(option_of(alloc, found, BY, FROM_1)?)),
        None => Ok(None),
    }
}

// The game that is named, if one is.
fn game_found(alloc: Global, found: &ArgMatches<'_>) -> Result<Option<Code>, Failure> {
    match found.get_str(OF.name) {
        Some(word) => Ok(Some(game(alloc, word.as_bytes())?)),
        None => Ok(None),
    }
}

// Prints the log of what files hold together.
fn run<R, O>(rt: &R, asked: &Log<'_>, output: &mut O) -> Result<(), Failure>
where
    R: Files + AllocGlobal,
    O: Write,
{
    let files = read_files(rt, &asked.files)?;
    match log_together(rt.alloc(), &files, &asked.wanted) {
        Ok(text) => Ok(write_out(output, &text)?),
        Err(fault) => Err(of_files(rt.alloc(), fault, &asked.files, &files)),
    }
}
