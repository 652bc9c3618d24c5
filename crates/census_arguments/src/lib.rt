//! What the words of a command line say: texts, numbers, codes, and the files that they name.
//!
//! `clap` finds the words, as `census_words` has the rows of the commands. Here each is read as what a command takes, or refused
//! by the one fault that names it and says what it should be. What a command does with them, nothing here knows.
//!
//! - `found` reads words as they stand: `word` one, `repeated` several, `bytes` and `copies` those that go into a request, `out` the
//!   file that is written, `game` a code; `form` says how lines are written, and `is_quiet` whether any are.
//! - `numbers` reads numbers of a `Range`: `number_of` a word, `option_of` an option, `seconds` a time, `heaps` many, `mode` three
//!   octal digits, and `clock_of` dots.
//! - `lists` has the codes that a command is given: `listed` gives words, the codes of a file, and a part of both.
//! - `drawing` gives the number of an `author`, which is drawn where none is named.
//! - `files` reads the files that are named: `read_input` one, which may be standard input, and `read_files` several of
//!   operations, of which `of_files` says which one is none.
//! - `order` says, where a word is refused, in which order the words stand: `with_order`.
#![tactic(auto)]

mod drawing;
mod files;
mod found;
mod lists;
mod numbers;
mod order;

pub use drawing::author;
pub use files::{is_refused, of_files, read_files, read_input};
pub use found::{
    bytes, copies, form, game, games, is_quiet, out, repeated, repeated_or_none, word,
};
pub use lists::{append_texts, codes_in, dealt, is_listed, listed, part};
pub use numbers::{
    ANY_HEAP, BLOCK, FROM_0, FROM_1, HEAPS, Range, SEARCHED, SESSIONS, clock_of, heap_count, heaps,
    mode, number_of, option_if, option_of, searched, seconds, value_count,
};
pub use order::with_order;
