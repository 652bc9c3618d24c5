//! Commands that show what a state file says, written as it is made.

use census_arguments::{is_listed, listed, word};
use census_core::{Fault, View, stream_only, stream_view};
use census_diagnosis::{Given, of_games};
use census_failure::Failure;
use census_files::read_state;
use census_progress::ProgressLine;
use census_words::words;
use clap::ArgMatches;
use std::alloc::Global;
use std::io::{Read, Write};
use std::rt::Files;
use std::time::Clock;

/// What is shown of a state file.
#[derive(Drop)]
pub struct Viewed<'a> {
    state: &'a str,
    /// The codes of the games that are shown, where it is not all.
    only: Option<Vec<Vec<u8>>>,
    view: View,
}

/// What a command shows of a state in this view: all of it, or some games, where some are named, be it by a list.
pub fn viewing<'a, R, I>(
    rt: &R,
    found: &ArgMatches<'a>,
    view: View,
    input: &mut I,
) -> Result<Viewed<'a>, Failure>
where
    R: Files + AllocGlobal,
    I: Read,
{
    let codes = listed(rt, found, words::ONLY.name, input)?;
    let only = if codes.is_empty() && !is_listed(found) {
        None
    } else {
        Some(codes)
    };
    Ok(Viewed {
        state: word(found, words::STATE)?,
        only,
        view,
    })
}

/// Writes what is shown of a state file to the output.
pub(crate) fn run<R, O, E>(
    rt: &R,
    viewed: &Viewed<'_>,
    output: &mut O,
    progress: &mut ProgressLine<'_, R, E>,
) -> Result<(), Failure>
where
    R: Files + AllocGlobal + Clock,
    O: Write,
    E: Write,
{
    let bytes = read_state(rt, viewed.state)?;
    let done = write(rt.alloc(), viewed, &bytes, output, progress);
    progress.clear();
    match done {
        Ok(()) => flushed(output),
        Err(fault) => Err(of_view(rt.alloc(), fault, viewed, &bytes)),
    }
}

// Writes what is shown of the bytes of a state.
fn write<R, O, E>(
    alloc: Global,
    viewed: &Viewed<'_>,
    bytes: &[u8],
    output: &mut O,
    progress: &mut ProgressLine<'_, R, E>,
) -> Result<(), Fault>
where
    R: AllocGlobal + Clock,
    O: Write,
    E: Write,
{
    match &viewed.only {
        None => stream_view(alloc, bytes, viewed.view, progress, output),
        Some(codes) => stream_only(alloc, bytes, codes, viewed.view, progress, output),
    }
}

/// Hands on what the output still holds.
pub fn flushed<O: Write>(output: &mut O) -> Result<(), Failure> {
    match output.flush() {
        Ok(()) => Ok(()),
        Err(_) => Err(Failure::from(Fault::Write)),
    }
}

// The failure of what was asked of the state, or of the output.
fn of_view(alloc: Global, fault: Fault, viewed: &Viewed<'_>, bytes: &[u8]) -> Failure {
    let state = Given::new(viewed.state, bytes);
    match (fault, &viewed.only) {
        (Fault::Load(_), _) => of_games(alloc, fault, &[], state),
        (Fault::Code(_), Some(codes)) => of_games(alloc, fault, codes, state),
        _ => Failure::from(fault),
    }
}
