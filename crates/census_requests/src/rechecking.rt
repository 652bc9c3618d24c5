//! The long periods that notes of a state file say, and those of them that a search finds again.

use census_core::{Fault, Progress, ProvedPeriods};
use census_diagnosis::{Given, of_games};
use census_failure::Failure;
use census_noted::{Rechecked, period_notes, recheck_into};
use census_progress::ProgressLine;
use oct_record::Record;
use oct_said::{PeriodNote, is_long};
use std::alloc::Global;
use std::io::Write;
use std::time::Clock;
use written::write_out;

/// The notes of periods in the bytes of a state file of this name.
pub fn notes_of(alloc: Global, name: &str, bytes: &[u8]) -> Result<Vec<PeriodNote>, Failure> {
    match notes_in(alloc, bytes) {
        Ok(notes) => Ok(notes),
        Err(fault) => {
            let state = Given::new(name, bytes);
            Err(of_games(alloc, fault, &Vec::new(alloc), state))
        }
    }
}

// The notes of periods in a state.
fn notes_in(alloc: Global, state: &[u8]) -> Result<Vec<PeriodNote>, Fault> {
    Ok(period_notes(&Record::load(alloc, state)?)?)
}

/// Searches again for each long period that a note of the state says, adds those that are so to what is proved, and writes the line
/// of each that is not so on standard error. The status is 1 where one is not so, and else 0.
pub fn recheck_long<R, E>(
    rt: &R,
    name: &str,
    bytes: &[u8],
    proved: &mut ProvedPeriods<Global>,
    progress: &mut ProgressLine<'_, R, E>,
) -> Result<u8, Failure>
where
    R: AllocGlobal + Clock,
    E: Write,
{
    let alloc = rt.alloc();
    let notes = notes_of(alloc, name, bytes)?;
    let mut status = 0;
    for note in &notes {
        if says_long(note) {
            let done = rechecked(alloc, proved, note, progress);
            progress.clear();
            let done = done?;
            if !done.is_so {
                let _ = write_out(progress.advice().errors(), &done.line);
                status = 1;
            }
        }
    }
    Ok(status)
}

// Whether the note says a period that no claim proves.
fn says_long(note: &PeriodNote) -> bool {
    match note.said {
        Some(seen) => is_long(note.code, seen),
        None => false,
    }
}

// What a search says of a note, whose period is added where it is so.
fn rechecked<P: Progress>(
    alloc: Global,
    proved: &mut ProvedPeriods<Global>,
    note: &PeriodNote,
    progress: &mut P,
) -> Result<Rechecked<Global>, Fault> {
    Ok(recheck_into(alloc, proved, note, progress)?)
}
