//! `census check`: a b-file beside the values of a game.

use crate::watched;
use census_arguments::{read_input, with_order, word};
use census_core::{Fault, Shift, check, find_shift};
use census_diagnosis::{Given, of_bfile, of_code};
use census_failure::{Advice, Audience, Failure};
use census_requests::System;
use census_words::{CommandRow, words};
use clap::ArgMatches;
use std::alloc::{AllocError, Global};
use std::io::{Read, Write};
use std::rt::Files;
use written::write_out;

/// Its row in the table.
pub const ROW: CommandRow = CommandRow {
    name: "check",
    words: &[words::CODE, words::BFILE],
    options: &[],
    line: "Compares the values of a b-file with the nim-values of a game",
    about: "Compares the values of a b-file with the nim-values of a game, which it computes; nothing is issued",
    after: "\
Prints a line for each wrong value, the first 100 of them, and how many more there are; or that all
are right. On a terminal and with --explain a line says where all are right but stand one heap or two
from where they should. Lines of the file end by LF, CR LF or CR, and empty lines and those that begin
with # are passed over.

Exit status: 0 all are right, 1 some are wrong, or refused: Code, Bfile (Form, Order or PastLimit and
the first faulty line, or Empty); 2 command line, 3 file, 4 memory

Example:
  census check 0.77 b002186.txt",
};

/// What is asked: how the values of a b-file compare with those of a game.
#[derive(Clone, Copy)]
pub(crate) struct Check<'a> {
    code: &'a str,
    file: &'a str,
}

/// Reads the words of the command, does it, and gives the exit status.
pub fn command<R, I, O, E>(
    rt: &R,
    found: &ArgMatches<'_>,
    input: &mut I,
    output: &mut O,
    errors: &mut E,
    audience: Audience,
) -> Result<u8, Failure>
where
    R: System,
    I: Read,
    O: Write,
    E: Write,
{
    let asked = with_order(rt.alloc(), &ROW, task(found))?;
    watched::check(rt, &asked, input, output, errors, audience)
}

// What its words ask for.
fn task<'a>(found: &ArgMatches<'a>) -> Result<Check<'a>, Failure> {
    Ok(Check {
        code: word(found, words::CODE)?,
        file: word(found, words::BFILE)?,
    })
}

/// Compares the values of a file with those of a game. The status is 0 where all are right, and else 1.
pub(crate) fn run<R, I, O, E>(
    rt: &R,
    asked: &Check<'_>,
    input: &mut I,
    output: &mut O,
    advice: &mut Advice<'_, E>,
) -> Result<u8, Failure>
where
    R: Files + AllocGlobal,
    I: Read,
    O: Write,
    E: Write,
{
    let code = asked.code.as_bytes();
    let (name, bytes) = read_input(rt, asked.file, input)?;
    let checked = match check(rt.alloc(), code, &bytes) {
        Ok(checked) => checked,
        Err(Fault::Bfile(cause)) => {
            return Err(of_bfile(rt.alloc(), cause, Given::new(name, &bytes)));
        }
        Err(fault) => return Err(of_code(rt.alloc(), fault, code)),
    };
    write_out(output, &checked.text)?;
    if checked.wrong > 0 && advice.is_wanted() {
        say_shift(rt.alloc(), code, &bytes, advice);
    }
    Ok(u8::from(checked.wrong > 0))
}

// Says where all values are right, but stand one heap or two from where they should.
fn say_shift<E: Write>(alloc: Global, code: &[u8], file: &[u8], advice: &mut Advice<'_, E>) {
    if let Ok(Some(shift)) = find_shift(alloc, code, file) {
        if let Ok(text) = shift_text(alloc, shift) {
            advice.say(&text);
        }
    }
}

fn shift_text(alloc: Global, shift: Shift) -> Result<String, AllocError> {
    match shift {
        Shift::Early { by } => format!(in alloc;
            "all are right {by} further on: the file has under each n the value of heap n + {by}"
        ),
        Shift::Late { by } => format!(in alloc;
            "all are right {by} further back: the file has under each n the value of heap n - {by}"
        ),
    }
}
