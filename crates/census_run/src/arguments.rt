//! The program over the words that it was called with.

use crate::program::{report, run_watched};
use census_commands::Readers;
use census_core::Fault;
use census_failure::{Audience, Failure};
use std::alloc::Global;
use std::env::{self, Env};
use std::fs::File;
use std::io::{ErrorKind, IsTerminal, Read, Write};
use std::net::{Net, TcpListener, TcpStream};
use std::random::RandomSource;
use std::rt::Files;
use std::time::Clock;

// The variable of the environment that is `1` where advice is wanted.
const EXPLAIN: &str = "CENSUS_EXPLAIN";

// The variable that is set and not empty where no colours are wanted, as https://no-color.org has it.
const NO_COLOR: &str = "NO_COLOR";

// The variable that says how many columns a terminal has, where a shell hands it on.
const COLUMNS: &str = "COLUMNS";

/// Does the command line that the program was called with, as `run` does its words, and says on a terminal how far it
/// is. Advice is given there, and where the variable `CENSUS_EXPLAIN` of the environment is `1`. Colours are shown on a terminal
/// alone, and not where the variable `NO_COLOR` is set and not empty, and lines in columns are there as wide as the variable `COLUMNS`
/// says. The fault is `Words` where a word is not UTF-8.
pub fn run_called<R, I, O, E>(rt: &R, input: &mut I, output: &mut O, errors: &mut E) -> u8
where
    R: Env
        + Files<File = File>
        + AllocGlobal
        + Net<Stream = TcpStream, Listener = TcpListener>
        + Clock
        + RandomSource
        + Clone
        + Drop,
    I: Read,
    O: Write + IsTerminal,
    E: Write + IsTerminal,
{
    let audience = Audience {
        is_watching: errors.is_terminal(),
        is_printing: output.is_terminal(),
        is_asking: is_asked(rt),
    };
    let readers = Readers {
        audience,
        is_plain: is_plain(rt),
        columns: columns(rt),
    };
    match words_of(rt) {
        Ok(words) => run_watched(rt, &words, input, output, errors, readers),
        Err(failure) => report(rt.alloc(), errors, audience, &failure),
    }
}

// Whether the environment asks for advice.
fn is_asked<R: Env + AllocGlobal>(rt: &R) -> bool {
    match env::var(rt, EXPLAIN) {
        Ok(value) => value.as_str() == "1",
        Err(_) => false,
    }
}

// Whether the environment asks for no colours.
fn is_plain<R: Env + AllocGlobal>(rt: &R) -> bool {
    match env::var(rt, NO_COLOR) {
        Ok(value) => !value.is_empty(),
        Err(_) => false,
    }
}

// How wide the environment says a terminal is; nothing where it says no number, or 0.
fn columns<R: Env + AllocGlobal>(rt: &R) -> Option<usize> {
    let said = env::var(rt, COLUMNS).ok()?;
    match said.as_str().parse::<usize>() {
        Ok(0) | Err(_) => None,
        Ok(columns) => Some(columns),
    }
}

// The words, without the program's name.
fn words_of<R: Env + AllocGlobal>(rt: &R) -> Result<Vec<String>, Failure> {
    let alloc: Global = rt.alloc();
    match env::args(rt) {
        Ok(all) => Ok(all.skip(1).collect::<Vec<String>>(alloc)?),
        Err(e) if e.kind() == ErrorKind::OutOfMemory => Err(Failure::from(Fault::OutOfMemory)),
        Err(_) => {
            let text = "a word of the command line is no text in UTF-8";
            Err(Failure::from(Fault::Words).found(String::from_str(alloc, text)))
        }
    }
}
