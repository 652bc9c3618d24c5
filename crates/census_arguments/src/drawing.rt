//! Numbers of authors, which nobody need choose: they are drawn, or those of texts.

use crate::numbers::{FROM_1, number_in};
use census_failure::Failure;
use census_fold::author_for;
use census_state::Fault;
use census_words::words;
use clap::ArgMatches;
use std::alloc::Global;
use std::random::RandomSource;

// How often 0 may be drawn, one time after the other.
const TRIES: u32 = 100;

/// The number of an author: that of a text where one is given for it, and drawn where it is left out.
pub fn author<R: AllocGlobal + RandomSource>(
    rt: &R,
    found: &ArgMatches<'_>,
) -> Result<u32, Failure> {
    if let Some(text) = found.get_str(words::FOR.name) {
        return Ok(author_for(text.as_bytes()));
    }
    match found.get_str(words::ID.name) {
        Some(text) => number_in(rt.alloc(), words::ID.name, text, FROM_1),
        None => draw_number(rt),
    }
}

// A number of an author, 1 to 4,294,967,295, from the randomness of the system. The fault is `File` where it gives none.
fn draw_number<R: AllocGlobal + RandomSource>(rt: &R) -> Result<u32, Failure> {
    for _ in 0..TRIES {
        let mut bytes = [0; 4];
        if rt.fill_bytes(&mut bytes).is_err() {
            return Err(undrawn(rt.alloc()));
        }
        let number = u32::from_be_bytes(bytes);
        if number != 0 {
            return Ok(number);
        }
    }
    Err(undrawn(rt.alloc()))
}

// The failure of a number that the system does not draw.
fn undrawn(alloc: Global) -> Failure {
    let found = String::from_str(alloc, "the system draws no number");
    let advice = String::from_str(
        alloc,
        "choose one that nobody else has: census init STATE ID",
    );
    Failure::from(Fault::File).found(found).advise(advice)
}
