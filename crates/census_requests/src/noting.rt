//! Notes of periods that no period claim proves, in a state file.

use crate::system::System;
use census_core::Fault;
use census_diagnosis::{Given, of_games};
use census_failure::Failure;
use census_files::{StateFile, read_state};
use census_noted::note_period;
use census_progress::ProgressLine;
use oct_code::Code;
use oct_mex::SeenPeriod;
use oct_ops::Dot;
use oct_record::Record;
use oct_said::{is_long, seen_in};
use oct_text::{append_labelled_dot, append_text};
use std::alloc::{AllocError, Global};
use std::io::Write;
use std::rt::Files;
use written::write_out;

/// Refuses what is no state, before anything is searched for.
pub fn check_state<R: Files + AllocGlobal>(rt: &R, path: &str) -> Result<(), Failure> {
    let bytes = read_state(rt, path)?;
    match Record::load(rt.alloc(), &bytes) {
        Ok(_) => Ok(()),
        Err(fault) => Err(refused(rt.alloc(), Fault::from(fault), path, &bytes)),
    }
}

/// Issues in the state the note of the period that the lines of a game's search name, where no period claim proves it and no live
/// note says the same, and prints its author and number.
pub fn note_found<R, O, E>(
    rt: &R,
    path: &str,
    code: Code,
    lines: &[u8],
    output: &mut O,
    progress: &mut ProgressLine<'_, R, E>,
) -> Result<(), Failure>
where
    R: System,
    O: Write,
    E: Write,
{
    let Some(seen) = seen_in(lines) else {
        return Ok(());
    };
    if !is_long(code, seen) {
        return Ok(());
    }
    let file = StateFile::wait_telling(rt, path, progress.advice())?;
    let done = note_held(rt, &file, path, code, seen, progress);
    file.release(rt);
    if let Some(dot) = done? {
        write_out(output, &issued_line(rt.alloc(), dot)?)?;
    }
    Ok(())
}

// The same, while no other command changes the state. Gives the author and number, where a note is issued.
fn note_held<R, E>(
    rt: &R,
    file: &StateFile,
    path: &str,
    code: Code,
    seen: SeenPeriod,
    progress: &mut ProgressLine<'_, R, E>,
) -> Result<Option<Dot>, Failure>
where
    R: System,
    E: Write,
{
    let bytes = read_state(rt, path)?;
    match with_note(rt.alloc(), &bytes, code, seen) {
        Ok(Some(noted)) => {
            file.replace_telling(rt, &noted.state, progress.advice())?;
            Ok(Some(noted.dot))
        }
        Ok(None) => Ok(None),
        Err(fault) => Err(refused(rt.alloc(), fault, path, &bytes)),
    }
}

// A note that is issued, and the state with it.
#[derive(Drop)]
struct IssuedNote {
    dot: Dot,
    state: Vec<u8>,
}

// The note in a state; none where a live note says the same.
fn with_note(
    alloc: Global,
    state: &[u8],
    code: Code,
    seen: SeenPeriod,
) -> Result<Option<IssuedNote>, Fault> {
    let mut said = Record::load(alloc, state)?;
    let Some(dot) = note_period(&mut said, code, seen)? else {
        return Ok(None);
    };
    let mut state = Vec::new(alloc);
    said.save(&mut state)?;
    Ok(Some(IssuedNote { dot, state }))
}

fn issued_line(alloc: Global, dot: Dot) -> Result<Vec<u8>, AllocError> {
    let mut line = Vec::new(alloc);
    append_labelled_dot(&mut line, b"issued ", dot)?;
    append_text(&mut line, b"\n")?;
    Ok(line)
}

// The failure of a state in which nothing is noted.
fn refused(alloc: Global, fault: Fault, path: &str, state: &[u8]) -> Failure {
    of_games(alloc, fault, &Vec::new(alloc), Given::new(path, state))
}
