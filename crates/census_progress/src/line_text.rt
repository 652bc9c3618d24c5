//! The text of the line that says how far a command is.

ghost use Rattle.std.specs.Prelude.{◌≡◌, ◌++◌, IfOk, OnOk};
ghost use Rattle.census_progress.specs.Lines.{left_text, line_text, rate_text, time_text, work_text, values_text};

use oct_code::Code;
use oct_text::{append_labelled, append_text};
use std::alloc::{AllocError, Global};

// For how many milliseconds something has to go on before it is said how long it may take.
const SOON: u64 = 1_000;

// How many seconds these have.
const MINUTE: u128 = 60;

const HOUR: u128 = 3_600;

const DAY: u128 = 86_400;

/// What a command works on: how many are done, of how many in all.
#[derive(Clone, Copy)]
pub(crate) enum Work {
    /// Nim-values of a game.
    Values {
        code: Code,
        known: u64,
        wanted: u64,
    },
    /// The same in the turn of a game, which is that of this number, from 1 on, of how many.
    Turn {
        code: Code,
        known: u64,
        wanted: u64,
        number: u64,
        all: u64,
    },
    /// Games, of which this one is next.
    Games {
        code: Code,
        done: u64,
        all: u64,
    },
    /// Files, of which that of this number, from 1 on, is next.
    Files {
        number: u64,
        all: u64,
    },
}

/// How fast it goes on.
#[derive(Clone, Copy)]
pub(crate) struct Pace {
    /// How many were done
    pub(crate) done: u64,
    /// in so many milliseconds,
    pub(crate) passed: u64,
    /// and how many are left.
    pub(crate) rest: u64,
}

/// The line in place of the one that stands there.
pub(crate) fn line_of(alloc: Global, work: &Work, pace: Pace) -> Result<Vec<u8>, AllocError>
    ensures { IfOk result (λ line. line.items ≡ line_text work.now pace) }
{
    let mut line = Vec::from_slice(alloc, b"\r")?;
    append_work(&mut line, work, pace)?;
    append_left(&mut line, pace)?;
    append_text(&mut line, b"\x1b[K")?;
    Ok(line)
}

// Appends what is worked on.
fn append_work(line: &mut Vec<u8>, work: &Work, pace: Pace) -> Result<(), AllocError>
    ensures { OnOk result (line.new.items ≡ line.old.items ++ work_text work.now pace) }
{
    match work {
        Work::Values {
            code,
            known,
            wanted,
        } => {
            append_values(line, *code, *known, *wanted)?;
            append_rate(line, pace)
        }
        Work::Turn {
            code,
            known,
            wanted,
            number,
            all,
        } => {
            append_values(line, *code, *known, *wanted)?;
            append_labelled(line, b", game ", *number)?;
            append_labelled(line, b" of ", *all)
        }
        Work::Games { code, done, all } => {
            append_text(line, b"games ")?;
            code.append_text(line)?;
            append_labelled(line, b", ", *done)?;
            append_labelled(line, b" of ", *all)
        }
        Work::Files { number, all } => {
            append_labelled(line, b"file ", *number)?;
            append_labelled(line, b" of ", *all)
        }
    }
}

// Appends how many values of a game are known, of how many that are wanted.
fn append_values(line: &mut Vec<u8>, code: Code, known: u64, wanted: u64) -> Result<(), AllocError>
    ensures { OnOk result (line.new.items ≡ line.old.items ++ values_text code known wanted) }
{
    code.append_text(line)?;
    append_labelled(line, b" ", known)?;
    append_labelled(line, b" of ", wanted)
}

// Appends how many are done a second, where some are.
fn append_rate(line: &mut Vec<u8>, pace: Pace) -> Result<(), AllocError>
    ensures { OnOk result (line.new.items ≡ line.old.items ++ rate_text pace) }
{
    if pace.done == 0 || pace.passed == 0 {
        return append_text(line, b"");
    }
    let rate = u128::from(pace.done) * 1_000 / u128::from(pace.passed);
    append_labelled(line, b", ", rate)?;
    append_text(line, b" a second")
}

// Appends how long the rest takes at this pace, once it went on for a second and some are done.
fn append_left(line: &mut Vec<u8>, pace: Pace) -> Result<(), AllocError>
    ensures { OnOk result (line.new.items ≡ line.old.items ++ left_text pace) }
{
    if pace.done == 0 || pace.passed < SOON {
        return append_text(line, b"");
    }
    let work = u128::from(pace.rest) * u128::from(pace.passed);
    append_time(line, work.div_ceil(u128::from(pace.done) * 1_000))
}

// Appends that so many seconds are left; where that is more than two minutes, hours or days, in these, rounded up.
fn append_time(line: &mut Vec<u8>, seconds: u128) -> Result<(), AllocError>
    ensures { OnOk result (line.new.items ≡ line.old.items ++ time_text seconds) }
{
    if seconds <= 2 * MINUTE {
        append_labelled(line, b", ", seconds)?;
        append_text(line, b" s left")
    } else if seconds <= 2 * HOUR {
        append_labelled(line, b", ", seconds.div_ceil(MINUTE))?;
        append_text(line, b" min left")
    } else if seconds <= 2 * DAY {
        append_labelled(line, b", ", seconds.div_ceil(HOUR))?;
        append_text(line, b" h left")
    } else {
        append_labelled(line, b", ", seconds.div_ceil(DAY))?;
        append_text(line, b" d left")
    }
}
