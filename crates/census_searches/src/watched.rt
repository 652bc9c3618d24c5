//! What is done beside a line that says how far it is, or beside advice, on the stream of errors.
//!
//! Each function makes that for its readers and does one task.

use crate::check::{self, Check};
use crate::position::{self, Position};
use crate::recheck::{self, Recheck};
use crate::search::{self, Search};
use census_failure::{Advice, Audience, Failure};
use census_progress::ProgressLine;
use census_requests::System;
use std::io::{Read, Write};

/// The period of each game, or the first values of one.
pub(crate) fn search<R, O, E>(
    rt: &R,
    asked: &Search<'_>,
    output: &mut O,
    errors: &mut E,
    audience: Audience,
) -> Result<(), Failure>
where
    R: System,
    O: Write,
    E: Write,
{
    let mut progress = ProgressLine::new(rt, errors, audience);
    search::run(rt, asked, output, &mut progress)
}

/// The long periods that notes say, searched again: the exit status.
pub(crate) fn recheck<R, O, E>(
    rt: &R,
    asked: &Recheck<'_>,
    output: &mut O,
    errors: &mut E,
    audience: Audience,
) -> Result<u8, Failure>
where
    R: System,
    O: Write,
    E: Write,
{
    let mut progress = ProgressLine::new(rt, errors, audience);
    recheck::run(rt, asked, output, &mut progress)
}

/// What is asked of a position.
pub(crate) fn position<R, O, E>(
    rt: &R,
    asked: &Position<'_>,
    output: &mut O,
    errors: &mut E,
    audience: Audience,
) -> Result<(), Failure>
where
    R: System,
    O: Write,
    E: Write,
{
    let mut progress = ProgressLine::new(rt, errors, audience);
    position::run(rt, asked, output, &mut progress)
}

/// How the values of a b-file compare with those of a game: the exit status.
pub(crate) fn check<R, I, O, E>(
    rt: &R,
    asked: &Check<'_>,
    input: &mut I,
    output: &mut O,
    errors: &mut E,
    audience: Audience,
) -> Result<u8, Failure>
where
    R: System,
    I: Read,
    O: Write,
    E: Write,
{
    let mut advice = Advice::new(errors, audience);
    check::run(rt, asked, input, output, &mut advice)
}
