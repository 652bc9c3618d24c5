//! `census sqlite`: all that is known, as a database.

use crate::watched;
use census_arguments::{out, with_order, word};
use census_core::{Fault, sql_script};
use census_diagnosis::{Given, of_games};
use census_failure::{Advice, Audience, Failure, shown};
use census_files::{
    Out, Replaced, StateFile, exists, is_same_file, is_standard, open_file, read_state,
};
use census_requests::System;
use census_words::CommandRow;
use census_words::words::{self, Times, Word};
use clap::ArgMatches;
use std::alloc::{AllocError, Global};
use std::fs::File;
use std::io::{Read, Write};
use std::rt::Files;
use std::time::Clock;
use written::write_out;

// The script that is written.
const SCRIPT: Word = Word {
    name: "FILE",
    meaning: "The file of the script that is written; standard output where it is left out, or is -",
    times: Times::OneOrNone,
};

/// Its row in the table.
pub const ROW: CommandRow = CommandRow {
    name: "sqlite",
    words: &[words::STATE, SCRIPT],
    options: &[words::REPLACE],
    line: "All that is known, as a database for SQLite",
    about: "Prints a script in SQL, of which sqlite3 makes a database of all that is known",
    after: "\
The database has the tables authors, operations, games, game_values, blocks, claims, notes and forks,
and the lines of census log as the view log; docs/DATABASE.md says what stands in each, and asks some
questions. The script makes these tables anew in one transaction: where they were there, what they had
goes, and other tables stay. It needs SQLite 3.38 or later, or an earlier one with its JSON functions.

With FILE the script is written there, whole, and nothing is printed. FILE is the script and no database.
The state itself is not written over: that is the fault Same. Nor is a file that has bytes and is no such
script, as a database is, or the name of another file with .lock or .new behind it: that is the fault
Occupied, unless --replace is said.

Exit status: 0 done, 1 refused: Load (the state); 2 command line, 3 file, 4 memory

Examples:
  census sqlite anna.state | sqlite3 anna.db
  census sqlite anna.state anna.sql
  sqlite3 anna.db < anna.sql
  sqlite3 anna.db 'SELECT code, start FROM games WHERE period = 12'",
};

/// What is asked: the script that makes a database of a state file, and the file that it is written to, where one is named.
#[derive(Clone, Copy)]
pub(crate) struct Script<'a> {
    state: &'a str,
    out: Option<Out<'a>>,
}

/// Reads the words of the command, does it, and gives the exit status.
pub fn command<R, O, E>(
    rt: &R,
    found: &ArgMatches<'_>,
    output: &mut O,
    errors: &mut E,
    audience: Audience,
) -> Result<u8, Failure>
where
    R: System,
    O: Write,
    E: Write,
{
    let asked = with_order(rt.alloc(), &ROW, task(found))?;
    watched::sqlite(rt, &asked, output, errors, audience)?;
    Ok(0)
}

// What its words ask for.
fn task<'a>(found: &ArgMatches<'a>) -> Result<Script<'a>, Failure> {
    Ok(Script {
        state: word(found, words::STATE)?,
        out: script_out(found)?,
    })
}

// Where the script is written; none where it is printed.
fn script_out<'a>(found: &ArgMatches<'a>) -> Result<Option<Out<'a>>, Failure> {
    match found.get_str(SCRIPT.name) {
        Some(path) if !is_standard(path) => Ok(Some(out(found, SCRIPT)?)),
        _ => Ok(None),
    }
}

/// Prints the script of a state file, or writes it to a file.
pub(crate) fn run<R, O, E>(
    rt: &R,
    asked: &Script<'_>,
    output: &mut O,
    advice: &mut Advice<'_, E>,
) -> Result<(), Failure>
where
    R: System,
    O: Write,
    E: Write,
{
    let state = asked.state;
    let bytes = read_state(rt, state)?;
    let script = match sql_script(rt.alloc(), &bytes) {
        Ok(reply) => reply.text,
        Err(fault) => return Err(of_games(rt.alloc(), fault, &[], Given::new(state, &bytes))),
    };
    let Some(out) = asked.out else {
        return Ok(write_out(output, &script)?);
    };
    if is_same_file(rt, state, out.path)? {
        return Err(Failure::of(rt.alloc(), Fault::Same, out.path));
    }
    write_script(rt, out, &script, advice)
}

// Writes the script, whole, as a state is written, or into the stream that stands there.
fn write_script<R, E>(
    rt: &R,
    out: Out<'_>,
    script: &[u8],
    advice: &mut Advice<'_, E>,
) -> Result<(), Failure>
where
    R: Files<File = File> + AllocGlobal + Clock,
    E: Write,
{
    if out.is_stream(rt) {
        return out.write_stream(rt, script);
    }
    let file = StateFile::wait_telling(rt, out.path, advice)?;
    let done = write_held(rt, &file, out, script, advice);
    file.release(rt);
    done
}

// The same, while no other command changes the file.
fn write_held<R, E>(
    rt: &R,
    file: &StateFile,
    out: Out<'_>,
    script: &[u8],
    advice: &mut Advice<'_, E>,
) -> Result<(), Failure>
where
    R: Files<File = File> + AllocGlobal,
    E: Write,
{
    if !out.is_forced {
        check_script(rt, file.path(), script)?;
    }
    out.write_held(rt, file, Replaced::OneOf(&[out.path]), script, advice)
}

// Refuses a file that has bytes and is no script. The fault is `Occupied`, and `File` where it can't be read.
fn check_script<R>(rt: &R, path: &str, script: &[u8]) -> Result<(), Failure>
where
    R: Files<File = File> + AllocGlobal,
{
    if !exists(rt, path)? || begins_as(rt, path, script)? {
        return Ok(());
    }
    let alloc = rt.alloc();
    Err(Failure::of(alloc, Fault::Occupied, path).found(occupied_text(alloc, path)))
}

fn occupied_text(alloc: Global, path: &str) -> Result<String, AllocError> {
    let path = shown(alloc, path)?;
    format!(in alloc; "{path} holds something that is no such script, and stays as it is")
}

// Whether a file begins with the first line of the script, or has no byte.
fn begins_as<R>(rt: &R, path: &str, script: &[u8]) -> Result<bool, Failure>
where
    R: Files<File = File> + AllocGlobal,
{
    let mut file = open_file(rt, path)?;
    for (place, byte) in script.iter().enumerate() {
        let mut there = [0];
        match file.read(&mut there) {
            Ok(1) if there[0] == *byte => {}
            Ok(0) => return Ok(place == 0),
            _ => return Ok(false),
        }
        if *byte == b'\n' {
            break;
        }
    }
    Ok(true)
}
