//! `census games`: a line for each game, or for each refutation, or a table.

use crate::watched;
use census_arguments::{FROM_1, is_listed, listed, option_of, with_order, word};
use census_core::{Condition, Fault, Form, Listing, list_games};
use census_diagnosis::{Given, of_games};
use census_failure::{Failure, shown};
use census_files::read_state;
use census_progress::ProgressLine;
use census_requests::{Readers, System};
use census_table::{Look, When, width_of};
use census_words::CommandRow;
use census_words::words::{self, Choice, Takes, Times, Word};
use clap::ArgMatches;
use std::alloc::{AllocError, Global};
use std::io::{Read, Write};
use std::rt::Files;
use std::time::Clock;
use written::write_out;

// The codes of games; there may be none.
const GAMES: Word = Word {
    name: "CODE",
    meaning: "Octal codes such as 0.77; all games where there is none, and no --codes",
    times: Times::Any,
};

// Whether refutations are listed.
const REFUTED: Choice = Choice {
    name: "refuted",
    takes: Takes::Nothing,
    meaning: "Lists the refuted blocks and claims",
    default: None,
};

// The length of the period of the games that alone are told of.
const OF_PERIOD: Choice = Choice {
    name: "period",
    takes: Takes::One("P"),
    meaning: "Leaves out the games whose least proved period is not P, 1 to 4294967295",
    default: None,
};

// Whether the games alone are told of of which no period is proved.
const NO_PERIOD: Choice = Choice {
    name: "no-period",
    takes: Takes::Nothing,
    meaning: "Leaves out the games of which a period is proved",
    default: None,
};

// Whether the games alone are told of whose period nobody claimed.
const UNCLAIMED: Choice = Choice {
    name: "unclaimed",
    takes: Takes::Nothing,
    meaning: "Leaves out the games whose least proved period is claimed, and those that have none",
    default: None,
};

// How many heaps are not known of the games that alone are told of.
const KNOWN_BELOW: Choice = Choice {
    name: "known-below",
    takes: Takes::One("N"),
    meaning: "Leaves out the games of which N heaps or more are known, 1 to 4294967295",
    default: None,
};

// Whether games are told of as comma-separated values.
const AS_CSV: Choice = Choice {
    name: "csv",
    takes: Takes::Nothing,
    meaning: "Prints comma-separated values for a spreadsheet, behind a line of the columns",
    default: None,
};

// Whether games are told of as a table of LaTeX.
const AS_LATEX: Choice = Choice {
    name: "latex",
    takes: Takes::Nothing,
    meaning: "Prints codes, known heaps, periods and starts as a table of LaTeX",
    default: None,
};

// When what is told of games has colours.
const COLOR: Choice = Choice {
    name: "color",
    takes: Takes::One("WHEN"),
    meaning: "Shows refuted counts red and periods green: always, never, or auto, on a terminal alone",
    default: Some("auto"),
};

// How wide lines in columns may be.
const WIDTH: Choice = Choice {
    name: "width",
    takes: Takes::One("N"),
    meaning: "Cuts lines in columns that are wider than N, 1 to 4294967295; on a terminal else $COLUMNS",
    default: None,
};

/// Its row in the table.
pub const ROW: CommandRow = CommandRow {
    name: "games",
    words: &[words::STATE, GAMES],
    options: &[
        words::LIST,
        words::PART,
        OF_PERIOD,
        NO_PERIOD,
        UNCLAIMED,
        KNOWN_BELOW,
        REFUTED,
        words::EACH_JSON,
        AS_CSV,
        AS_LATEX,
        COLOR,
        WIDTH,
    ],
    line: "A line for each game, or for each refuted claim",
    about: "Says of each game how much is known, which period is proved, and what became of its claims",
    after: "\
A line for each game has how many heaps are known, the least period that they prove and the least heap
from which on it is so proved, and how many blocks and period claims are proved, refuted and pending.
A period that no claim says with this start is `unclaimed`: census period or survey claims it. The games
are those that have a block or a claim, and those of which a note says a long period. Where games are
named, these have a line, in the order in which they are named, be anything known of them or
not: the words CODE, and then those of --codes FILE, or of all these the part --part I/N.

What is refuted and withdrawn by who said it is counted apart, as `withdrawn`. A line more for each
period of more than 65,536 values that a note says of a game begins with the code and `said:`; it is not
proved.

--period P, --no-period, --unclaimed and --known-below N leave games out, and together they leave out
what one of them does. --no-period goes with neither --period nor --unclaimed.

With --refuted there is a line for each refuted block and claim in place of these: the block's first
wrong heap, what it claims there and the true value; or the first heap whose value does not come
again, and both values. With --json each line is an object of JSON. With --csv or --latex, which go
with no other of these three, the lines are a table for a spreadsheet or for a paper.

On a terminal the lines stand in columns. One that is wider than --width N, or than the variable COLUMNS
of the environment says, is cut there and ends with `..`, but never before the end of the period. Where
standard output is no terminal nothing is cut, unless both --color always and --width are said.

Exit status: 0 done, 1 refused: Load (the state), Code; 2 command line, 3 file, 4 memory

Examples:
  census games anna.state
  census games anna.state --unclaimed
  census games anna.state --no-period --known-below 65536
  census games anna.state --csv > games.csv
  census games anna.state --refuted",
};

/// What is asked: what is listed of games of a state, and of which.
#[derive(Drop)]
pub(crate) struct Asked<'a> {
    state: &'a str,
    codes: Vec<Vec<u8>>,
    which: Vec<Condition>,
    listing: Listing,
    colored: When,
    width: Option<usize>,
}

/// Reads the words of the command, does it, and gives the exit status.
pub fn command<R, I, O, E>(
    rt: &R,
    found: &ArgMatches<'_>,
    input: &mut I,
    output: &mut O,
    errors: &mut E,
    readers: Readers,
) -> Result<u8, Failure>
where
    R: System,
    I: Read,
    O: Write,
    E: Write,
{
    let asked = with_order(rt.alloc(), &ROW, task(rt, found, input))?;
    watched::games(rt, &asked, output, errors, readers)?;
    Ok(0)
}

// What its words ask for.
fn task<'a, R, I>(rt: &R, found: &ArgMatches<'a>, input: &mut I) -> Result<Asked<'a>, Failure>
where
    R: Files + AllocGlobal,
    I: Read,
{
    let listing = listing(rt.alloc(), found)?;
    let mut which = conditions(rt.alloc(), found)?;
    let codes = listed(rt, found, GAMES.name, input)?;
    // No code stands for all games. A list of none is of no game, and no game has fewer than 0 known heaps.
    if codes.is_empty() && is_listed(found) {
        add(&mut which, Condition::KnownBelow(0))?;
    }
    Ok(Asked {
        state: word(found, words::STATE)?,
        codes,
        which,
        listing,
        colored: colored(rt.alloc(), found)?,
        width: width(rt.alloc(), found)?,
    })
}

// How wide lines in columns may be, where that is said.
fn width(alloc: Global, found: &ArgMatches<'_>) -> Result<Option<usize>, Failure> {
    match number_of(alloc, found, WIDTH)? {
        Some(width) => Ok(Some(width as usize)),
        None => Ok(None),
    }
}

// When colours are shown.
fn colored(alloc: Global, found: &ArgMatches<'_>) -> Result<When, Failure> {
    match found.get_str(COLOR.name) {
        Some("always") => Ok(When::Always),
        Some("never") => Ok(When::Never),
        Some("auto") | None => Ok(When::Auto),
        Some(other) => Err(Failure::from(Fault::Words).found(color_text(alloc, other))),
    }
}

fn color_text(alloc: Global, word: &str) -> Result<String, AllocError> {
    let word = shown(alloc, word)?;
    format!(in alloc; "--color must be always, never or auto, and is {word}")
}

// What is listed.
fn listing(alloc: Global, found: &ArgMatches<'_>) -> Result<Listing, Failure> {
    let is_refuted = found.get_flag(REFUTED.name);
    let is_json = found.get_flag(words::EACH_JSON.name);
    let is_csv = found.get_flag(AS_CSV.name);
    let is_latex = found.get_flag(AS_LATEX.name);
    match (is_refuted, is_json, is_csv, is_latex) {
        (false, false, false, false) => Ok(Listing::Games(Form::Lines)),
        (false, true, false, false) => Ok(Listing::Games(Form::Json)),
        (true, false, false, false) => Ok(Listing::Refuted(Form::Lines)),
        (true, true, false, false) => Ok(Listing::Refuted(Form::Json)),
        (false, false, true, false) => Ok(Listing::Csv),
        (false, false, false, true) => Ok(Listing::Latex),
        _ => Err(apart(
            alloc,
            "--csv and --latex go with neither --json, --refuted nor one another",
        )),
    }
}

// What has to hold of the games.
fn conditions(alloc: Global, found: &ArgMatches<'_>) -> Result<Vec<Condition>, Failure> {
    let mut which = Vec::new(alloc);
    if let Some(period) = number_of(alloc, found, OF_PERIOD)? {
        add(&mut which, Condition::OfPeriod(period))?;
    }
    if found.get_flag(UNCLAIMED.name) {
        add(&mut which, Condition::Unclaimed)?;
    }
    if found.get_flag(NO_PERIOD.name) {
        if !which.is_empty() {
            return Err(apart(
                alloc,
                "--no-period goes with neither --period nor --unclaimed",
            ));
        }
        add(&mut which, Condition::NoPeriod)?;
    }
    if let Some(count) = number_of(alloc, found, KNOWN_BELOW)? {
        add(&mut which, Condition::KnownBelow(u64::from(count)))?;
    }
    Ok(which)
}

// The number of an option, from 1 on, where it stands.
fn number_of(
    alloc: Global,
    found: &ArgMatches<'_>,
    choice: Choice,
) -> Result<Option<u32>, Failure> {
    if found.get_str(choice.name).is_none() {
        return Ok(None);
    }
    Ok(Some(option_of(alloc, found, choice, FROM_1)?))
}

fn add(which: &mut Vec<Condition>, condition: Condition) -> Result<(), Failure> {
    which.push(condition).or(Err(Fault::OutOfMemory))?;
    Ok(())
}

// The failure of options that do not go together.
fn apart(alloc: Global, text: &'static str) -> Failure {
    Failure::from(Fault::Words).found(String::from_str(alloc, text))
}

/// Prints what is asked of a state file: the lines of games in columns, where they are read on a terminal or have colours.
pub(crate) fn run<R, O, E>(
    rt: &R,
    asked: &Asked<'_>,
    readers: Readers,
    output: &mut O,
    progress: &mut ProgressLine<'_, R, E>,
) -> Result<(), Failure>
where
    R: Files + AllocGlobal + Clock,
    O: Write,
    E: Write,
{
    let alloc = rt.alloc();
    let bytes = read_state(rt, asked.state)?;
    let Asked {
        codes,
        which,
        listing,
        ..
    } = asked;
    let listed = list_games(alloc, &bytes, codes, which, *listing, progress);
    progress.clear();
    match listed {
        Ok(reply) => {
            let width = width_of(asked.width, readers.audience.is_printing, readers.columns);
            let text = look_of(asked, readers).show(alloc, reply.text, width)?;
            Ok(write_out(output, &text)?)
        }
        Err(fault) => {
            let state = Given::new(asked.state, &bytes);
            Err(of_games(alloc, fault, codes, state))
        }
    }
}

// How the lines are shown: those of games alone have columns.
fn look_of(asked: &Asked<'_>, readers: Readers) -> Look {
    match asked.listing {
        Listing::Games(Form::Lines) => Look::of(
            asked.colored,
            readers.audience.is_printing,
            readers.is_plain,
        ),
        _ => Look::Bare,
    }
}
