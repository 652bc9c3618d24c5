//! What is done beside a line that says how far it is, or beside advice, on the stream of errors.
//!
//! Each function makes that for its readers and does one task.

use crate::games::{self, Asked};
use crate::plot::{self, Picture};
use crate::site::{self, Site};
use crate::sqlite::{self, Script};
use census_failure::{Advice, Audience, Failure};
use census_progress::ProgressLine;
use census_requests::{Readers, System};
use std::io::Write;

/// What is listed of games of a state file.
pub(crate) fn games<R, O, E>(
    rt: &R,
    asked: &Asked<'_>,
    output: &mut O,
    errors: &mut E,
    readers: Readers,
) -> Result<(), Failure>
where
    R: System,
    O: Write,
    E: Write,
{
    let mut progress = ProgressLine::new(rt, errors, readers.audience.beside_output());
    games::run(rt, asked, readers, output, &mut progress)
}

/// The picture of a game of a state file.
pub(crate) fn plot<R, O, E>(
    rt: &R,
    asked: &Picture<'_>,
    output: &mut O,
    errors: &mut E,
    audience: Audience,
) -> Result<(), Failure>
where
    R: System,
    O: Write,
    E: Write,
{
    let mut advice = Advice::new(errors, audience);
    plot::run(rt, asked, output, &mut advice)
}

/// The script that makes a database of a state file.
pub(crate) fn sqlite<R, O, E>(
    rt: &R,
    asked: &Script<'_>,
    output: &mut O,
    errors: &mut E,
    audience: Audience,
) -> Result<(), Failure>
where
    R: System,
    O: Write,
    E: Write,
{
    let mut advice = Advice::new(errors, audience);
    sqlite::run(rt, asked, output, &mut advice)
}

/// The site of a state file, in a folder: the exit status.
pub(crate) fn site<R, E>(
    rt: &R,
    asked: &Site<'_>,
    errors: &mut E,
    audience: Audience,
) -> Result<u8, Failure>
where
    R: System,
    E: Write,
{
    let mut progress = ProgressLine::new(rt, errors, audience);
    site::run(rt, asked, &mut progress)
}
