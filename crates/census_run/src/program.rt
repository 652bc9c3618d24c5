//! The program over any three streams.

use census_commands::{Call, Readers, chapters, is_unwatched};
use census_core::Fault;
use census_failure::{Advice, Audience, Failure, INPUT_NAME, OUTPUT_NAME, escaped_lines};
use census_files::Noted;
use census_requests::System;
use census_words::words::EXPLAIN;
use census_words::{command, first_screen};
use clap::ArgMatches;
use clap::error::ErrorKind;
use std::alloc::Global;
use std::convert::AsStr;
use std::fs::File;
use std::io::{self, Read, Write};
use std::net::{Net, TcpListener, TcpStream};
use std::random::RandomSource;
use std::rt::Files;
use std::time::Clock;
use written::write_out;

/// Does the command line of these words, among which the program's name is not: reads the first stream, writes its
/// output and help to the second, and the count of refused lines, its faults or the text of a refused command line to
/// the third. Answers the exit status: 0 done, 1 refused, 2 command line, 3 file, stream or network, 4 memory.
pub fn run<R, S, I, O, E>(rt: &R, words: &[S], input: &mut I, output: &mut O, errors: &mut E) -> u8
where
    R: Files<File = File>
        + AllocGlobal
        + Net<Stream = TcpStream, Listener = TcpListener>
        + Clock
        + RandomSource
        + Clone
        + Drop,
    S: AsStr,
    I: Read,
    O: Write,
    E: Write,
{
    let audience = Audience {
        is_watching: false,
        is_printing: false,
        is_asking: false,
    };
    let readers = Readers {
        audience,
        is_plain: true,
        columns: None,
    };
    run_watched(rt, words, input, output, errors, readers)
}

/// Does the same, and where somebody watches the third stream, it says there how far it is; there, and where it is
/// asked for, it gives advice.
pub(crate) fn run_watched<R, S, I, O, E>(
    rt: &R,
    words: &[S],
    input: &mut I,
    output: &mut O,
    errors: &mut E,
    readers: Readers,
) -> u8
where
    R: System + RandomSource,
    S: AsStr,
    I: Read,
    O: Write,
    E: Write,
{
    let alloc = rt.alloc();
    let Ok(screen) = first_screen(alloc, &chapters()) else {
        return refuse(errors, Fault::OutOfMemory);
    };
    let Ok(command) = command(alloc, &chapters(), &screen) else {
        return refuse(errors, Fault::OutOfMemory);
    };
    match command.try_get_matches_from(words) {
        Ok(matches) => {
            let audience = Audience {
                is_asking: readers.audience.is_asking || is_explained(&matches),
                ..readers.audience
            };
            let readers = Readers {
                audience,
                ..readers
            };
            answered(rt, &matches, input, output, errors, readers)
        }
        Err(error) => show(alloc, &error, output, errors),
    }
}

// Does what the matches of a command line ask for, tells its readers of a failure, and gives the exit status.
fn answered<R, I, O, E>(
    rt: &R,
    matches: &ArgMatches<'_>,
    input: &mut I,
    output: &mut O,
    errors: &mut E,
    readers: Readers,
) -> u8
where
    R: System + RandomSource,
    I: Read,
    O: Write,
    E: Write,
{
    let (mut input, mut output) = (Noted::new(input), Noted::new(output));
    match attempted(rt, matches, &mut input, &mut output, errors, readers) {
        Ok(status) => status,
        Err(failure) => {
            let alloc = rt.alloc();
            let failure = of_streams(alloc, failure, input.error(), output.error());
            report(alloc, errors, readers.audience, &failure)
        }
    }
}

// Whether faults are explained also where nobody watches: that is asked for, or the command is `hub`.
fn is_explained(matches: &ArgMatches<'_>) -> bool {
    let is_unwatched = match matches.subcommand() {
        Some((name, _)) => is_unwatched(name),
        None => false,
    };
    is_unwatched || matches.get_flag(EXPLAIN.name)
}

// The failure, with what the system said where a stream failed.
fn of_streams(
    alloc: Global,
    failure: Failure,
    input: Option<io::Error>,
    output: Option<io::Error>,
) -> Failure {
    let (name, error) = match failure.fault {
        Fault::Read => (INPUT_NAME, input),
        Fault::Write => (OUTPUT_NAME, output),
        _ => return failure,
    };
    match error {
        Some(error) => Failure::of(alloc, failure.fault, name).because(error),
        None => failure,
    }
}

/// Writes the line of a fault, explains it where somebody wants that, and gives its status.
pub(crate) fn report<E: Write>(
    alloc: Global,
    errors: &mut E,
    audience: Audience,
    failure: &Failure,
) -> u8 {
    let status = refuse(errors, failure.fault);
    Advice::new(errors, audience).explain(alloc, failure);
    status
}

// Writes the fault's line, and gives its status.
fn refuse<E: Write>(errors: &mut E, fault: Fault) -> u8 {
    let _ = writeln!(errors, "census: {fault}");
    fault.status()
}

// Shows help, or why the words were refused.
fn show<O: Write, E: Write>(
    alloc: Global,
    error: &clap::Error,
    output: &mut O,
    errors: &mut E,
) -> u8 {
    if error.kind() == ErrorKind::OutOfMemory {
        return refuse(errors, Fault::OutOfMemory);
    }
    let Ok(text) = error.to_string(alloc) else {
        return refuse(errors, Fault::OutOfMemory);
    };
    if error.use_stderr() {
        let Ok(text) = escaped_lines(alloc, &text) else {
            return refuse(errors, Fault::OutOfMemory);
        };
        let _ = write_out(errors, text.as_bytes());
        return 2;
    }
    match write_out(output, text.as_bytes()) {
        Ok(()) => 0,
        Err(unwritten) => refuse(errors, Fault::from(unwritten)),
    }
}

// Does what the matches of a command line ask for, and gives the exit status.
fn attempted<'a, R, I, O, E>(
    rt: &'a R,
    matches: &'a ArgMatches<'_>,
    input: &'a mut I,
    output: &'a mut O,
    errors: &'a mut E,
    readers: Readers,
) -> Result<u8, Failure>
where
    R: System + RandomSource,
    I: Read,
    O: Write,
    E: Write,
{
    match matches.subcommand() {
        Some((name, found)) => Call {
            rt,
            name,
            found,
            input,
            output,
            errors,
            readers,
        }
        .run(),
        None => Err(Failure::from(Fault::Words)),
    }
}
