//! Commands that ask a state, which stays as it is.

use crate::printing::print_file;
use crate::system::System;
use crate::unknown::unknown_text;
use census_arguments::{out, word};
use census_core::{Fault, Request, number, perform};
use census_diagnosis::{Given, of_request};
use census_failure::{Advice, Failure};
use census_files::{Out, is_same_file, is_standard, read_state};
use census_words::words::{self, Word};
use clap::ArgMatches;
use std::alloc::Global;
use std::io::Write;
use written::write_out;

/// What a state file is asked, and the file that is written beside it.
#[derive(Drop)]
pub struct Ask<'a> {
    state: &'a str,
    written: Option<Out<'a>>,
    request: Request,
}

/// What a command asks that makes this request of a state, and writes the file of this word.
pub fn asking<'a>(
    found: &ArgMatches<'a>,
    written: Option<Word>,
    request: Request,
) -> Result<Ask<'a>, Failure> {
    let written = match written {
        Some(written) => Some(out(found, written)?),
        None => None,
    };
    Ok(Ask {
        state: word(found, words::STATE)?,
        written,
        request,
    })
}

/// Asks a state file, and writes the file of the reply and then its text. The state file is not written over.
pub fn run<R, O, E>(
    rt: &R,
    ask: &Ask<'_>,
    output: &mut O,
    advice: &mut Advice<'_, E>,
) -> Result<(), Failure>
where
    R: System,
    O: Write,
    E: Write,
{
    let Ask {
        state,
        written,
        request,
    } = ask;
    let bytes = read_state(rt, state)?;
    let reply = match perform(rt.alloc(), request, &bytes, b"") {
        Ok(reply) => reply,
        Err(fault) => {
            let (state, none) = (Given::new(state, &bytes), Given::new("", b""));
            return Err(of_request(rt.alloc(), fault, request, state, none));
        }
    };
    if let (Some(bytes), Some(out)) = (&reply.file, written) {
        if is_standard(out.path) {
            return print_file(rt.alloc(), &reply, output);
        }
        if is_same_file(rt, state, out.path)? {
            return Err(Failure::of(rt.alloc(), Fault::Same, out.path));
        }
        out.write_delta(rt, bytes, advice)?;
    }
    write_out(output, &reply.text)?;
    explain_unknown(rt.alloc(), state, &bytes, request, &reply.text, advice);
    Ok(())
}

// Says of a position which heap is not known, and what to do.
fn explain_unknown<E: Write>(
    alloc: Global,
    state: &str,
    bytes: &[u8],
    request: &Request,
    text: &[u8],
    advice: &mut Advice<'_, E>,
) {
    if !advice.is_wanted() {
        return;
    }
    let (code, heaps) = match request {
        Request::Value { code, heaps, .. } => (code, heaps),
        Request::Move { code, heaps, .. } => (code, heaps),
        _ => return,
    };
    if let Some(place) = unknown_place(text) {
        if let Some(heap) = heaps.get(place) {
            if let Some(text) = unknown_text(alloc, state, bytes, code, *heap) {
                advice.say(text.as_str());
            }
        }
    }
}

// The place of a heap whose value is not known, where the text names one.
fn unknown_place(text: &[u8]) -> Option<usize> {
    let digits = text.strip_prefix(b"unknown at ")?.trim_ascii_end();
    let place = number(str::from_utf8(digits).ok()?, u64::MAX)?;
    usize::try_from(place).ok()
}
