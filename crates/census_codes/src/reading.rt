//! The codes of a text.

ghost use Rattle.std.specs.Prelude.{◌≡◌, ◌≢◌, Ok, Err, IfErr, IfOk, OnOk};
ghost use Rattle.oct_bfile.specs.Bfile.{words};
ghost use Rattle.census_codes.specs.Codes.{code_of, codes_of, words_onto};

use crate::comment::uncommented;
use crate::error::CodesError;
use oct_bfile::{next_line, next_word};
use oct_code::Code;
use std::alloc::Allocator;

/// The codes of a text, in their order. Lines end by LF, CR LF or CR. A `#` begins a comment, up to the end of its line; what
/// stands before it are codes, with spaces and tabs between, or none. A refusal names the first word that is no code, by its
/// line, counted from 1, and says why it is none. `OutOfMemory` may come before that.
pub fn read_codes<A: Allocator>(alloc: A, text: &[u8]) -> Result<Vec<Code, A>, CodesError>
    ensures ok { IfOk result (λ codes. codes_of text.now ≡ Ok codes.items) }
    ensures err { IfErr result (λ e. e ≢ CodesError.OutOfMemory → codes_of text.now ≡ Err e) }
{
    let mut codes = Vec::new(alloc);
    let mut line = 1;
    let mut rest = text;
    while let Some((first, behind)) = next_line(rest) {
        read_line(&mut codes, line, uncommented(first))?;
        line += 1;
        rest = behind;
    }
    Ok(codes)
}

// Appends the codes of a line.
fn read_line<A: Allocator>(
    codes: &mut Vec<Code, A>,
    line: usize,
    text: &[u8],
) -> Result<(), CodesError>
    ensures ok { OnOk result (words_onto line codes.old.items (words text.now) ≡ Ok codes.new.items) }
    ensures err { IfErr result (λ e. e ≢ CodesError.OutOfMemory → words_onto line codes.old.items (words text.now) ≡ Err e) }
{
    let mut rest = text;
    while let Some((word, behind)) = next_word(rest) {
        let code = read_code(line, word)?;
        if codes.push(code).is_err() {
            return Err(CodesError::OutOfMemory);
        }
        rest = behind;
    }
    Ok(())
}

// The code of a word of a line.
fn read_code(line: usize, word: &[u8]) -> Result<Code, CodesError>
    ensures ok { IfOk result (λ code. code_of line word.now ≡ Ok code) }
    ensures err { IfErr result (λ e. code_of line word.now ≡ Err e) }
{
    match Code::parse(word) {
        Ok(code) => Ok(code),
        Err(cause) => Err(CodesError::NoCode { line, cause }),
    }
}
