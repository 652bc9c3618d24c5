//! `census recheck`: the long periods that notes say, searched again.

use crate::watched;
use census_arguments::{copies, games, with_order, word};
use census_core::{Fault, Progress};
use census_failure::{Audience, Failure};
use census_files::read_state;
use census_noted::{Rechecked, recheck};
use census_progress::ProgressLine;
use census_requests::{System, notes_of};
use census_words::CommandRow;
use census_words::words::{self, Times, Word};
use clap::ArgMatches;
use oct_code::Code;
use oct_said::PeriodNote;
use std::alloc::Global;
use std::io::Write;
use written::write_out;

// The codes of games whose notes are rechecked; there may be none.
const NOTED: Word = Word {
    name: "CODE",
    meaning: "Octal codes such as 0.16; the games of all such notes where there is none",
    times: Times::Any,
};

/// Its row in the table.
pub const ROW: CommandRow = CommandRow {
    name: "recheck",
    words: &[words::STATE, NOTED],
    options: &[],
    line: "Searches again for the long periods that notes say",
    about: "Searches again for the period of each game of which a note says one",
    after: "\
A period that takes more than 65,536 values to prove is never proved as a period claim: a note says it.
Its name is period-CODE, with a hyphen for the point of the code, and its text what census search prints,
as far as the start: a note period-0-16 says `0.16 period 149459 from 105351`. census search --note
issues such notes. For each live note of such a name, by whomever, in the order of the notes, the game
is searched again by as many values as its line needs: 2E + 2P + k, k the number of digits of the code.
A line says of it `is so`, and then it holds for all heaps; or which period was found, and not that
one; or that there is no period in so many values. A note that says no period is named, and so is one
that needs more than 4294967296 values, which is not searched. Where codes are named, the notes of
these games alone are read. The state stays as it is. On a terminal a line on standard error says how
far a search is, how fast it goes on, and how long it may take.

Exit status: 0 each note is so, 1 one is not, or refused: Load (the state), Code, PastValue (a value is
above 65535); 2 command line, 3 file, 4 memory

Example:
  census recheck anna.state 0.16",
};

/// What is asked: which notes of a state are rechecked, those of some games or of all.
#[derive(Drop)]
pub(crate) struct Recheck<'a> {
    state: &'a str,
    codes: Vec<Code>,
}

/// Reads the words of the command, does it, and gives the exit status.
pub fn command<R, O, E>(
    rt: &R,
    found: &ArgMatches<'_>,
    output: &mut O,
    errors: &mut E,
    audience: Audience,
) -> Result<u8, Failure>
where
    R: System,
    O: Write,
    E: Write,
{
    let asked = with_order(rt.alloc(), &ROW, task(rt.alloc(), found))?;
    watched::recheck(rt, &asked, output, errors, audience)
}

// What its words ask for.
fn task<'a>(alloc: Global, found: &ArgMatches<'a>) -> Result<Recheck<'a>, Failure> {
    Ok(Recheck {
        state: word(found, words::STATE)?,
        codes: games(alloc, &copies(alloc, found, NOTED.name)?)?,
    })
}

/// Rechecks the notes, and prints the line of each before it goes on to the next. The status is 0 where each is so, and else 1.
pub(crate) fn run<R, O, E>(
    rt: &R,
    asked: &Recheck<'_>,
    output: &mut O,
    progress: &mut ProgressLine<'_, R, E>,
) -> Result<u8, Failure>
where
    R: System,
    O: Write,
    E: Write,
{
    let alloc = rt.alloc();
    let bytes = read_state(rt, asked.state)?;
    let notes = notes_of(alloc, asked.state, &bytes)?;
    let mut status = 0;
    for note in &notes {
        if asked.codes.is_empty() || asked.codes.contains(&note.code) {
            let done = rechecked(alloc, note, progress);
            progress.clear();
            let done = done?;
            write_out(output, &done.line)?;
            if !done.is_so {
                status = 1;
            }
        }
    }
    Ok(status)
}

// What a search says of a note.
fn rechecked<P: Progress>(
    alloc: Global,
    note: &PeriodNote,
    progress: &mut P,
) -> Result<Rechecked<Global>, Fault> {
    Ok(recheck(alloc, note, progress)?)
}
