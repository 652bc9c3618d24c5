//! `census left`: which games of a list lack values.

use census_arguments::{
    codes_in, dealt, heap_count, of_files, part, read_files, repeated_or_none, with_order,
};
use census_codes::{Part, code_lines};
use census_core::{Fault, left_in};
use census_failure::Failure;
use census_words::CommandRow;
use census_words::words::{self, Times, Word};
use clap::ArgMatches;
use std::alloc::Global;
use std::io::{Read, Write};
use std::rt::Files;
use written::write_out;

// The files that may hold values.
const HELD: Word = Word {
    name: "FILE",
    meaning: "States and deltas; nothing is known where there is none",
    times: Times::Any,
};

/// Its row in the table.
pub const ROW: CommandRow = CommandRow {
    name: "left",
    words: &[words::HEAPS, HELD],
    options: &[words::LIST, words::PART],
    line: "Which games of a list lack one of the first COUNT values",
    about: "Names the games of a list of which some files together lack one of the first COUNT values",
    after: "\
--codes FILE is needed: the list. Its lines, which end by LF, CR LF or CR, have one or more codes with
spaces or tabs between, or none; what stands behind a # is passed over. With --part I/N the list is its
I-th code, its I+N-th, and so on.

A line for each code of the list names it, in the order of the list, unless each of the heaps 1 to
COUNT - 1 lies in a block of one of the files, whoever said it, and be it true or not; heap 0 needs no
block. Where nothing is left, nothing is printed. No value is computed, and no file is changed. Without
a FILE nothing is known.

Exit status: 0 done, 1 refused: Code (a word of the list), Load (a state), Merge (a FILE is neither);
2 command line, 3 file or output, 4 memory

Examples:
  census left 4096 --codes codes.txt all.delta
  census left 4096 --codes codes.txt --part 3/64 part3.state | xargs -r census survey part3.state 4096",
};

// What is asked: which games of a list, or of a part of it, lack one of so many values in files.
#[derive(Drop)]
struct Left<'a> {
    count: u32,
    list: &'a str,
    part: Option<Part>,
    files: Vec<&'a str>,
}

/// Reads the words of the command, does it, and gives the exit status.
pub fn command<R, I, O>(
    rt: &R,
    found: &ArgMatches<'_>,
    input: &mut I,
    output: &mut O,
) -> Result<u8, Failure>
where
    R: Files + AllocGlobal,
    I: Read,
    O: Write,
{
    let asked = with_order(rt.alloc(), &ROW, task(rt.alloc(), found))?;
    run(rt, &asked, input, output)?;
    Ok(0)
}

// What its words ask for.
fn task<'a>(alloc: Global, found: &ArgMatches<'a>) -> Result<Left<'a>, Failure> {
    let Some(list) = found.get_str(words::LIST.name) else {
        let text = String::from_str(alloc, "--codes FILE is missing");
        return Err(Failure::from(Fault::Words).found(text));
    };
    Ok(Left {
        count: heap_count(alloc, found)?,
        list,
        part: part(alloc, found)?,
        files: repeated_or_none(alloc, found, HELD)?,
    })
}

// Prints the codes of the games that lack values.
fn run<R, I, O>(rt: &R, asked: &Left<'_>, input: &mut I, output: &mut O) -> Result<(), Failure>
where
    R: Files + AllocGlobal,
    I: Read,
    O: Write,
{
    let codes = codes_in(rt, asked.list, input)?;
    let codes = dealt(rt.alloc(), codes, asked.part)?;
    let files = read_files(rt, &asked.files)?;
    match left_in(rt.alloc(), &files, &codes, asked.count) {
        Ok(lacking) => Ok(write_out(output, &code_lines(rt.alloc(), &lacking)?)?),
        Err(fault) => Err(of_files(rt.alloc(), fault, &asked.files, &files)),
    }
}
