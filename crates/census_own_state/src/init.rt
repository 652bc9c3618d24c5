//! `census init`: a new state.

use census_arguments::{author, with_order, word};
use census_core::{Fault, Reply, Request, perform};
use census_failure::Failure;
use census_files::{StateFile, exists};
use census_words::{CommandRow, words};
use clap::ArgMatches;
use std::fs::File;
use std::io::Write;
use std::random::RandomSource;
use std::rt::Files;
use written::write_out;

/// Its row in the table.
pub const ROW: CommandRow = CommandRow {
    name: "init",
    words: &[words::STATE, words::ID],
    options: &[],
    line: "Makes one, for the author ID",
    about: "Makes a state file, and prints its author",
    after: "\
With --draw the author is a number that the system draws, 1 to 4294967295, each as likely as another.
With --for TEXT it is the number that the first eight digits of the SHA-256 of TEXT spell, as
`printf %s TEXT | sha256sum` has them, or 1 where they are 0: one TEXT has one number, at each time
and on each machine, so that what was lost is issued again as it was. Never use one TEXT for two
states that issue different things. Of N texts two have one number by a chance of about
N * N / 2^33: of 1,000 texts by one in 8,600.

Exit status: 0 done, 1 Zero (the author is 0), 2 command line, 3 Exists, or the file can't be
written, 4 memory

Examples:
  census init anna.state 1
  census init ben.state --draw
  census init part3.state --for '4096 3/64 codes.txt'",
};

// What is asked: a new state file of this author.
#[derive(Clone, Copy)]
struct NewState<'a> {
    state: &'a str,
    id: u32,
}

/// Reads the words of the command, does it, and gives the exit status.
pub fn command<R, O>(rt: &R, found: &ArgMatches<'_>, output: &mut O) -> Result<u8, Failure>
where
    R: Files<File = File> + AllocGlobal + RandomSource,
    O: Write,
{
    let asked = with_order(rt.alloc(), &ROW, task(rt, found))?;
    run(rt, &asked, output)?;
    Ok(0)
}

// What its words ask for.
fn task<'a, R: AllocGlobal + RandomSource>(
    rt: &R,
    found: &ArgMatches<'a>,
) -> Result<NewState<'a>, Failure> {
    Ok(NewState {
        state: word(found, words::STATE)?,
        id: author(rt, found)?,
    })
}

// Makes a state file, where nothing stands in its place.
fn run<R, O>(rt: &R, asked: &NewState<'_>, output: &mut O) -> Result<(), Failure>
where
    R: Files<File = File> + AllocGlobal,
    O: Write,
{
    let NewState { state, id } = *asked;
    if exists(rt, state)? {
        return Err(Failure::of(rt.alloc(), Fault::Exists, state));
    }
    let reply = match perform(rt.alloc(), &Request::Init { id }, b"", b"") {
        Ok(reply) => reply,
        Err(fault) => return Err(Failure::from(fault)),
    };
    make(rt, state, &reply)?;
    Ok(write_out(output, &reply.text)?)
}

// Writes the new state, unless another command has made one meanwhile.
fn make<R: Files<File = File> + AllocGlobal>(
    rt: &R,
    state: &str,
    reply: &Reply,
) -> Result<(), Failure> {
    let file = StateFile::wait(rt, state)?;
    let made = make_held(rt, &file, state, reply);
    file.release(rt);
    made
}

// The same, while no other command changes the state.
fn make_held<R: Files<File = File> + AllocGlobal>(
    rt: &R,
    file: &StateFile,
    state: &str,
    reply: &Reply,
) -> Result<(), Failure> {
    if exists(rt, state)? {
        return Err(Failure::of(rt.alloc(), Fault::Exists, state));
    }
    match &reply.state {
        Some(text) => file.replace(rt, text),
        None => Ok(()),
    }
}
