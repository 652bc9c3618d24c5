//! The program `census` over any three streams, with the files, the network and the clock that it was lent.
//!
//! A command line has the name of one of the commands, which `census_commands` has, and its words, and that command is done with them.
//!
//! - `program` does a command line: `run` that of any words, and `run_called` (`arguments`) that of the words that the program was
//!   called with. It writes the line of a fault, and what explains it where somebody wants that.
//!
//! The words of faults are `census_failure`, and what is made from the rows of the commands `census_words`.
#![tactic(auto)]

mod arguments;
mod program;

pub use arguments::run_called;
pub use program::run;
