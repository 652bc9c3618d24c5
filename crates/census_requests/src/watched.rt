//! What is done of a request to a state beside a line that says how far it is, or beside advice, on the stream of errors.
//!
//! Each function makes that for its readers and does one kind of request. The crates of the commands have such functions of their own.

use crate::ask::{self, Ask};
use crate::change::{self, Change};
use crate::system::System;
use crate::viewing::{self, Viewed};
use census_failure::{Advice, Audience, Failure};
use census_progress::ProgressLine;
use std::io::{Read, Write};

/// A command that changes a state file.
pub fn change<R, I, O, E>(
    rt: &R,
    asked: &Change<'_>,
    input: &mut I,
    output: &mut O,
    errors: &mut E,
    audience: Audience,
) -> Result<(), Failure>
where
    R: System,
    I: Read,
    O: Write,
    E: Write,
{
    let mut progress = ProgressLine::new(rt, errors, audience);
    change::run(rt, asked, input, output, &mut progress)
}

/// A command that reads a state file.
pub fn ask<R, O, E>(
    rt: &R,
    asked: &Ask<'_>,
    output: &mut O,
    errors: &mut E,
    audience: Audience,
) -> Result<(), Failure>
where
    R: System,
    O: Write,
    E: Write,
{
    let mut advice = Advice::new(errors, audience);
    ask::run(rt, asked, output, &mut advice)
}

/// What a state file says, in a view.
pub fn view<R, O, E>(
    rt: &R,
    viewed: &Viewed<'_>,
    output: &mut O,
    errors: &mut E,
    audience: Audience,
) -> Result<(), Failure>
where
    R: System,
    O: Write,
    E: Write,
{
    let mut progress = ProgressLine::new(rt, errors, audience.beside_output());
    viewing::run(rt, viewed, output, &mut progress)
}
