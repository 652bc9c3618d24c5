//! Words beside the lines that a command always writes to standard error.

use crate::explained::explanation;
use crate::failure::Failure;
use oct_ops::Dot;
use std::alloc::{AllocError, Global};
use std::io::Write;
use written::write_out;

/// How many dots that are used twice are named at once.
const NAMED: usize = 3;

/// Who reads standard error.
#[derive(Clone, Copy)]
pub struct Audience {
    /// Whether it is a terminal.
    pub is_watching: bool,
    /// Whether standard output is a terminal, so that a line on the other stream may stand in what is printed.
    pub is_printing: bool,
    /// Whether advice was asked for, by `--explain` or by the environment.
    pub is_asking: bool,
}

impl Audience {
    /// Those who watch how far a command is that prints as it goes on: nobody where it prints on a terminal.
    pub fn beside_output(self) -> Audience {
        Audience {
            is_watching: self.is_watching && !self.is_printing,
            ..self
        }
    }
}

/// Warnings and explanations. They are written to standard error where it is a terminal or where they were asked for,
/// and nowhere else, so that whoever reads that stream by a program finds there what always stood there.
#[derive(Drop)]
pub struct Advice<'a, E> {
    errors: &'a mut E,
    is_wanted: bool,
    is_asked: bool,
}

impl<'a, E: Write> Advice<'a, E> {
    /// The advice to these readers of the stream.
    pub fn new(errors: &'a mut E, audience: Audience) -> Advice<'a, E> {
        Advice {
            errors,
            is_wanted: audience.is_watching || audience.is_asking,
            is_asked: audience.is_asking,
        }
    }

    /// Whether what is said is written.
    pub fn is_wanted(&self) -> bool {
        self.is_wanted
    }

    /// Whether it was asked for, and does not only stand on a terminal.
    pub fn is_asked(&self) -> bool {
        self.is_asked
    }

    /// The stream, for the lines that are always written.
    pub fn errors(&mut self) -> &mut E {
        self.errors
    }

    /// Writes the text as a line, behind `warning: `.
    pub fn warn(&mut self, text: &str) {
        if self.is_wanted {
            let _ = writeln!(self.errors, "warning: {text}");
        }
    }

    /// Warns that the number of a state's author is used twice, where an operation came by that number which the state
    /// never held.
    pub fn warn_of_number(&mut self, alloc: Global, foreign: Option<Dot>) {
        if let Some(dot) = foreign {
            if let Ok(text) = foreign_text(alloc, dot) {
                self.warn(text.as_str());
            }
        }
    }

    /// Warns of the first few of the dots that are used twice since a table took something in. Those by its own author are left
    /// out: `warn_of_number` says more of them.
    pub fn warn_of_forks(&mut self, alloc: Global, own: u32, forks: &[Dot]) {
        let others = forks.iter().filter(|dot| dot.author() != own);
        for dot in others.take(NAMED) {
            if let Ok(text) = fork_text(alloc, *dot) {
                self.warn(text.as_str());
            }
        }
    }

    /// Says what was wrong, and what to do.
    pub fn explain(&mut self, alloc: Global, failure: &Failure) {
        if self.is_wanted {
            if let Ok(text) = explanation(alloc, failure) {
                let _ = write_out(self.errors, text.as_bytes());
            }
        }
    }

    /// Writes the text as a line.
    pub fn tell(&mut self, text: &str) {
        if self.is_wanted {
            let _ = writeln!(self.errors, "{text}");
        }
    }

    /// Writes the text as an indented line.
    pub fn say(&mut self, text: &str) {
        if self.is_wanted {
            let _ = writeln!(self.errors, "  {text}");
        }
    }
}

// What is said of a dot that is used twice.
fn fork_text(alloc: Global, dot: Dot) -> Result<String, AllocError> {
    let (author, number) = (dot.author(), dot.number());
    format!(in alloc;
        "fork {author}.{number}: two operations have this number, as a state makes them that was copied or put \
                       back; whoever is {author} goes on under a new one with census renumber"
    )
}

/// What is said of an operation that is by the number of a state and that the state never held.
pub fn foreign_text(alloc: Global, dot: Dot) -> Result<String, AllocError> {
    let (author, number) = (dot.author(), dot.number());
    format!(in alloc;
        "{author}.{number} is by your number and not from this state: the number is used twice, or this \
                       state is an old copy; go on under a new one with census renumber"
    )
}
