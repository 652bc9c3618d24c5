//! The table of the commands: a row for each, from which the command line, its help and the manual are made.

use crate::words::{Choice, Word};

/// The row of a command: what it is called, what it takes, and what is said of it.
#[derive(Clone, Copy)]
pub struct CommandRow {
    /// What it is called on the command line.
    pub name: &'static str,
    /// Its words, in the order in which they stand.
    pub words: &'static [Word],
    /// Its options.
    pub options: &'static [Choice],
    /// Its line on the first screen of the help.
    pub line: &'static str,
    /// The first line of its own help.
    pub about: &'static str,
    /// What its own help says after its words.
    pub after: &'static str,
}

/// Some commands, under the title that they have in the help.
#[derive(Clone, Copy)]
pub struct Chapter {
    /// The title.
    pub title: &'static str,
    /// Their rows, in the order in which the help has them.
    pub rows: &'static [CommandRow],
}
