//! Codes as words.

ghost use Rattle.std.specs.Prelude.{◌≡◌, ◌≢◌, Ok, Err, IfOk, IfErr, map};
ghost use Rattle.census_state.specs.Codes.{codes_of, read_code};

use crate::fault::Fault;
use oct_code::{Code, CodeError};
use std::alloc::Global;

/// The code that a word spells, or the word's first fault.
pub fn read_code(word: &[u8]) -> Result<Code, CodeError>
    ensures { result ≡ read_code word.now }
{
    Code::parse(word)
}

/// The codes that words spell, or the fault of the first that spells none.
pub fn read_codes(alloc: Global, words: &[Vec<u8>]) -> Result<Vec<Code>, Fault>
    ensures ok { IfOk result (λ codes. codes_of (map (λ word. word.items) words.now) ≡ Ok codes.items) }
    ensures err { IfErr result (λ e. e ≢ Fault.OutOfMemory → codes_of (map (λ word. word.items) words.now) ≡ Err e) }
{
    let mut codes = Vec::new(alloc);
    for word in words {
        codes.push(read_code(word)?).or(Err(Fault::OutOfMemory))?;
    }
    Ok(codes)
}
