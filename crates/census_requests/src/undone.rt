//! Requests for many games, without those that are done.

use census_arguments::append_texts;
use census_core::{Fault, Form, Request, own_left};
use std::alloc::{AllocError, Global};

/// A request for the games that are left, and the line that says how many are not.
#[derive(Drop)]
pub(crate) struct Undone {
    pub(crate) request: Request,
    pub(crate) line: Vec<u8>,
}

/// The request without the games of which the state's author said as many values as are wanted; none where it is no request for
/// values of many games. The first fault is `Load`; then `Code`.
pub(crate) fn without_done(
    alloc: Global,
    request: &Request,
    state: &[u8],
) -> Result<Option<Undone>, Fault> {
    match request {
        Request::Extend { count, codes } => {
            let count = *count;
            let (codes, line) = left_of(alloc, state, codes, count, Form::Lines)?;
            let request = Request::Extend { count, codes };
            Ok(Some(Undone { request, line }))
        }
        Request::Survey { count, codes, form } => {
            let (count, form) = (*count, *form);
            let (codes, line) = left_of(alloc, state, codes, count, form)?;
            let request = Request::Survey { count, codes, form };
            Ok(Some(Undone { request, line }))
        }
        _ => Ok(None),
    }
}

// The codes that are left, and the line that says how many are not.
fn left_of(
    alloc: Global,
    state: &[u8],
    codes: &[Vec<u8>],
    count: u32,
    form: Form,
) -> Result<(Vec<Vec<u8>>, Vec<u8>), Fault> {
    let left = own_left(alloc, state, codes, count)?;
    let mut texts = Vec::new(alloc);
    append_texts(alloc, &mut texts, &left)?;
    let line = left_out_line(alloc, codes.len().saturating_sub(left.len()), form)?;
    Ok((texts, line))
}

// The line that says how many games are left out.
fn left_out_line(alloc: Global, count: usize, form: Form) -> Result<Vec<u8>, AllocError> {
    let line = match form {
        Form::Lines => format!(in alloc; "left out {count}\n")?,
        Form::Json => format!(in alloc; "{{\"left_out\":{count}}}\n")?,
    };
    Ok(line.into_bytes())
}
