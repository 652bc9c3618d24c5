//! Who made an operation, and which of its author's operations it is.

ghost use Rattle.std.specs.Prelude.{◌≡◌, IfOk, OnErr, OnOk, true, false};
ghost use Rattle.oct_ops.specs.Faults.{is_dot};
ghost use Rattle.oct_ops.specs.Operation.{dot_of};
ghost use Rattle.oct_ops.specs.Valid.{IsDot};

use crate::error::DotError;
use std::marker::Model;

/// The author of an operation, and its number among the author's (Shapiro et al. 2011). Dots are ordered by author, then
/// by number.
#[derive(Clone, Copy, PartialEq, Eq, PartialOrd, Ord)]
pub struct Dot {
    author: u32,
    number: u32,
}

impl Model for Dot {
    ghost use Rattle.oct_ops.specs.Operation.{Dot as DotValue, dot_of};
    ghost use Rattle.oct_ops.specs.Valid.{IsDot};

    ghost Value = { DotValue };

    ghost view = { λ d. dot_of d.author d.number };

    ghost invariant = { λ d. IsDot (dot_of d.author d.number) };

    ghost inverse = { λ d. record { author = d.author; number = d.number } };
}

impl Dot {
    /// The dot of an author and a number, which are both at least 1; otherwise the answer is `Zero`.
    pub fn new(author: u32, number: u32) -> Result<Dot, DotError>
        ensures ok { IfOk result (λ dot. dot ≡ dot_of author number) }
        ensures accepted { OnOk result (is_dot (dot_of author number) ≡ true) }
        ensures refused { OnErr result (is_dot (dot_of author number) ≡ false) }
    {
        if author == 0 || number == 0 {
            return Err(DotError::Zero);
        }
        Ok(Dot { author, number })
    }

    /// Who made the operation, at least 1.
    pub fn author(&self) -> u32
        ensures value { result ≡ self.now.author }
        ensures valid { IsDot self.now }
    {
        self.author
    }

    /// Which of the author's operations it is, at least 1.
    pub fn number(&self) -> u32
        ensures value { result ≡ self.now.number }
        ensures valid { IsDot self.now }
    {
        self.number
    }
}
