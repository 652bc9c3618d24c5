//! What is done beside advice, on the stream of errors.
//!
//! Each function makes that for its readers and does one task.

use crate::serve::{self, Served};
use crate::sync::{self, Synced};
use census_failure::{Advice, Audience, Failure};
use census_requests::System;
use std::io::{Read, Write};

/// One session with a replica that connects.
pub(crate) fn serve<R, I, O, E>(
    rt: &R,
    asked: &Served<'_>,
    input: &mut I,
    output: &mut O,
    errors: &mut E,
    audience: Audience,
) -> Result<(), Failure>
where
    R: System,
    I: Read,
    O: Write,
    E: Write,
{
    let mut advice = Advice::new(errors, audience);
    serve::run(rt, asked, input, output, &mut advice)
}

/// One session with a replica that serves.
pub(crate) fn sync<R, I, O, E>(
    rt: &R,
    asked: &Synced<'_>,
    input: &mut I,
    output: &mut O,
    errors: &mut E,
    audience: Audience,
) -> Result<(), Failure>
where
    R: System,
    I: Read,
    O: Write,
    E: Write,
{
    let mut advice = Advice::new(errors, audience);
    sync::run(rt, asked, input, output, &mut advice)
}
