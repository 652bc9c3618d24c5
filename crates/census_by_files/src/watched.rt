//! What is done beside a line that says how far it is, on the stream of errors.
//!
//! Each function makes that for its readers and does one task.

use crate::digest::{self, Digest};
use crate::read;
use crate::union::{self, Union};
use census_failure::{Audience, Failure};
use census_progress::ProgressLine;
use census_requests::System;
use std::io::{Read, Write};

/// The catalogue of what files hold together.
pub(crate) fn read<R, O, E>(
    rt: &R,
    paths: &[&str],
    output: &mut O,
    errors: &mut E,
    audience: Audience,
) -> Result<(), Failure>
where
    R: System,
    O: Write,
    E: Write,
{
    let mut progress = ProgressLine::new(rt, errors, audience.beside_output());
    read::run(rt, paths, output, &mut progress)
}

/// The digest of each file.
pub(crate) fn digest<R, O, E>(
    rt: &R,
    asked: &Digest<'_>,
    output: &mut O,
    errors: &mut E,
    audience: Audience,
) -> Result<(), Failure>
where
    R: System,
    O: Write,
    E: Write,
{
    let mut progress = ProgressLine::new(rt, errors, audience.beside_output());
    digest::run(rt, asked, output, &mut progress)
}

/// The union of delta files as one.
pub(crate) fn union<R, I, O, E>(
    rt: &R,
    asked: &Union<'_>,
    input: &mut I,
    output: &mut O,
    errors: &mut E,
    audience: Audience,
) -> Result<(), Failure>
where
    R: System,
    I: Read,
    O: Write,
    E: Write,
{
    let mut progress = ProgressLine::new(rt, errors, audience);
    union::run(rt, asked, input, output, &mut progress)
}
