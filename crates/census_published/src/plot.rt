//! `census plot`: the picture of the known values of a game.

use crate::watched;
use census_arguments::{ANY_HEAP, bytes, option_if, with_order, word};
use census_core::{Fault, Request, plot_heaps};
use census_diagnosis::{Given, of_code, of_games};
use census_failure::{Advice, Audience, Failure, shown_bytes};
use census_files::read_state;
use census_requests::System;
use census_requests::ask::{self, Ask, asking};
use census_words::CommandRow;
use census_words::words::{self, Choice, Takes};
use clap::ArgMatches;
use std::alloc::{AllocError, Global};
use std::io::Write;
use written::write_out;

// The first heap of a picture.
const FIRST_HEAP: Choice = Choice {
    name: "from",
    takes: Takes::One("HEAP"),
    meaning: "Begins with this heap, whose value has to be known, and not with heap 0",
    default: None,
};

// The last heap of a picture.
const LAST_HEAP: Choice = Choice {
    name: "to",
    takes: Takes::One("HEAP"),
    meaning: "Ends with this heap, or with the last known one, and not with the second run of the period",
    default: None,
};

/// Its row in the table.
pub const ROW: CommandRow = CommandRow {
    name: "plot",
    words: &[words::STATE, words::CODE],
    options: &[FIRST_HEAP, LAST_HEAP],
    line: "The known values as a picture, SVG",
    about: "Prints a picture of the known values of a game, as SVG",
    after: "\
A point for each heap; where a period is proved, its start and its first two runs are marked, and the
picture ends with the second, since the values go on so for ever. The picture has no script, and names
nothing outside it.

With --from or --to it has the heaps from the one to the other, both among them, and no others: without
--to all up to the last known one. --from must be a heap whose value is known, and --to none before it;
else the fault is Number.

Exit status: 0 done, 1 refused: Load (the state), Code; 2 command line, 3 file, 4 memory

Examples:
  census plot anna.state 0.77 > kayles.svg
  census plot anna.state 0.77 --from 0 --to 999 > far.svg",
};

/// The picture that is asked for.
#[derive(Drop)]
pub(crate) enum Picture<'a> {
    /// That of what is known of a game.
    Game(Ask<'a>),
    /// That of some heaps of a game.
    Heaps(Drawn<'a>),
}

/// Some heaps of a game, of which a picture is asked for.
#[derive(Drop)]
pub(crate) struct Drawn<'a> {
    state: &'a str,
    code: Vec<u8>,
    from: u64,
    to: u64,
}

/// Reads the words of the command, does it, and gives the exit status.
pub fn command<R, O, E>(
    rt: &R,
    found: &ArgMatches<'_>,
    output: &mut O,
    errors: &mut E,
    audience: Audience,
) -> Result<u8, Failure>
where
    R: System,
    O: Write,
    E: Write,
{
    let asked = with_order(rt.alloc(), &ROW, task(rt.alloc(), found))?;
    watched::plot(rt, &asked, output, errors, audience)?;
    Ok(0)
}

// What its words ask for.
fn task<'a>(alloc: Global, found: &ArgMatches<'a>) -> Result<Picture<'a>, Failure> {
    let from = option_if(alloc, found, FIRST_HEAP, ANY_HEAP)?;
    let to = option_if(alloc, found, LAST_HEAP, ANY_HEAP)?;
    let code = bytes(alloc, found, words::CODE)?;
    if from.is_none() && to.is_none() {
        let request = Request::Plot { code };
        return Ok(Picture::Game(asking(found, None, request)?));
    }
    let (from, to) = (from.unwrap_or(0), to.unwrap_or(u64::MAX));
    if to < from {
        return Err(of_order(alloc, from, to));
    }
    Ok(Picture::Heaps(Drawn {
        state: word(found, words::STATE)?,
        code,
        from,
        to,
    }))
}

/// Prints the picture.
pub(crate) fn run<R, O, E>(
    rt: &R,
    asked: &Picture<'_>,
    output: &mut O,
    advice: &mut Advice<'_, E>,
) -> Result<(), Failure>
where
    R: System,
    O: Write,
    E: Write,
{
    match asked {
        Picture::Game(asked) => ask::run(rt, asked, output, advice),
        Picture::Heaps(asked) => draw(rt, asked, output),
    }
}

// Prints the picture of the heaps.
fn draw<R, O>(rt: &R, asked: &Drawn<'_>, output: &mut O) -> Result<(), Failure>
where
    R: System,
    O: Write,
{
    let bytes = read_state(rt, asked.state)?;
    match plot_heaps(rt.alloc(), &bytes, &asked.code, asked.from, asked.to) {
        Ok(text) => Ok(write_out(output, &text)?),
        Err(fault) => Err(of_drawn(rt.alloc(), fault, asked, &bytes)),
    }
}

// The failure of a picture of some heaps.
fn of_drawn(alloc: Global, fault: Fault, asked: &Drawn<'_>, state: &[u8]) -> Failure {
    match fault {
        Fault::Number => of_heap(alloc, &asked.code, asked.from),
        Fault::Code(_) => of_code(alloc, fault, &asked.code),
        _ => of_games(alloc, fault, &[], Given::new(asked.state, state)),
    }
}

// The failure of a first heap whose value is not known.
fn of_heap(alloc: Global, code: &[u8], heap: u64) -> Failure {
    Failure::from(Fault::Number).found(heap_text(alloc, code, heap))
}

fn heap_text(alloc: Global, code: &[u8], heap: u64) -> Result<String, AllocError> {
    let code = shown_bytes(alloc, code)?;
    format!(in alloc; "--from must be a known heap of {code}, and {heap} is not known")
}

// The failure of a last heap that stands before the first.
fn of_order(alloc: Global, from: u64, to: u64) -> Failure {
    let text = format!(in alloc; "--to must be {from} or more, and is {to}");
    Failure::from(Fault::Number).found(text)
}
