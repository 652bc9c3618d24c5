//! Why a text is no b-file.

use std::error::Error;
use std::fmt;

/// Why a text is no b-file. The first faulty line of the text is named, counted from 1; where a line has several faults,
/// the first case in the order here is answered.
/// Its text is its name, and behind it the number of the line.
#[derive(Clone, Copy, Debug, PartialEq, Eq, Drop)]
pub enum BfileError {
    /// The line is no pair of whole numbers below 2^32.
    Form { line: usize },
    /// The line's number is not the one before it plus one.
    Order { line: usize },
    /// The line's number is `LIMIT` or more.
    PastLimit { line: usize },
    /// No line has numbers.
    Empty,
    /// A request for memory was refused.
    OutOfMemory,
}

impl fmt::Display for BfileError {
    ghost use Rattle.std.specs.Prelude.{Some};
    ghost use Rattle.oct_bfile.specs.Bfile.{fault_text};

    ghost output = { λ fault. Some (fault_text fault) };

    fn fmt<W: fmt::Write>(&self, f: &mut fmt::Formatter<W>) -> fmt::Result {
        match *self {
            BfileError::Form { line } => write!(f, "Form {line}"),
            BfileError::Order { line } => write!(f, "Order {line}"),
            BfileError::PastLimit { line } => write!(f, "PastLimit {line}"),
            BfileError::Empty => write!(f, "Empty"),
            BfileError::OutOfMemory => write!(f, "OutOfMemory"),
        }
    }
}

impl Error for BfileError {}
