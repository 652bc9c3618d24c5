//! The first screen of the help, made from the table of the commands.

use crate::table::{Chapter, CommandRow};
use crate::words::{Times, Word};
use std::alloc::{AllocError, Global};

/// What the program is.
pub(crate) const TITLE: &str =
    "One table of nim-sequences of octal games that a group of researchers can trust";

/// A first session.
pub(crate) const EXAMPLE: &str = "  census init anna.state 1
  census compute anna.state 0.77 168     # Kayles
  census period anna.state 0.77 71 12
  census value anna.state 0.77 1000000000
";

// What stands before the commands.
const FRONT: &str = "

Usage: census COMMAND ..

An operation is a block of values, a claim of a period, a note, or that notes are taken back, issued
under its author's next number: 2.1 is the first of author 2. A state is the file of one author with
the operations issued there or taken in; a delta is a file of operations, to be sent to others.

";

// What stands after them, before the example and after it.
const OPTIONS: &str = "
Options:
      --explain  Say more on standard error, as on a terminal
  -h, --help     Print help; `census COMMAND --help` says more of a command
  -V, --version  Print version

Example:
";

const EXIT: &str = "
Exit status: 0 done, 1 refused, 2 command line, 3 file, stream or network, 4 memory
";

// How wide a command and its words may be, with the space behind them.
const WIDTH: usize = 27;

/// The help of a program with these commands, on one screen.
pub fn first_screen(alloc: Global, chapters: &[Chapter]) -> Result<String, AllocError> {
    let mut screen = format!(in alloc; "{TITLE}{FRONT}")?;
    for chapter in chapters {
        screen.push_str(chapter.title)?;
        screen.push_str(":\n")?;
        for row in chapter.rows {
            append_line(alloc, &mut screen, row)?;
        }
    }
    screen.push_str(OPTIONS)?;
    screen.push_str(EXAMPLE)?;
    screen.push_str(EXIT)?;
    Ok(screen)
}

// The line of a command.
fn append_line(alloc: Global, screen: &mut String, row: &CommandRow) -> Result<(), AllocError> {
    let called = called(alloc, row)?;
    screen.push_str("  ")?;
    screen.push_str(&called)?;
    for _ in called.len()..WIDTH {
        screen.push_str(" ")?;
    }
    screen.push_str(row.line)?;
    screen.push_str("\n")
}

// The command and its words.
fn called(alloc: Global, row: &CommandRow) -> Result<String, AllocError> {
    let words = words_text(alloc, row.words)?;
    let name = row.name;
    format!(in alloc; "{name}{words}")
}

/// Words as they stand on a command line, a space before each. Two dots follow one that may stand several times, and one that may
/// be left out stands in brackets.
pub fn words_text(alloc: Global, words: &[Word]) -> Result<String, AllocError> {
    let mut text = String::new(alloc);
    for word in words {
        let (front, back) = match word.times {
            Times::One | Times::OneOr(..) => (" ", ""),
            Times::OneOrNone => (" [", "]"),
            Times::OneOrMore | Times::OneOrMoreUnless(_) | Times::Any => (" ", ".."),
        };
        text.push_str(front)?;
        text.push_str(word.name)?;
        text.push_str(back)?;
    }
    Ok(text)
}
