//! Claims that a game's values repeat.

ghost use Rattle.std.specs.Prelude.{◌≡◌, IfOk, IfErr, OnOk};
ghost use Rattle.oct_ops.specs.Faults.{period_fault};
ghost use Rattle.oct_ops.specs.Operation.{repeating};
ghost use Rattle.oct_ops.specs.Valid.{IsPeriod};

use crate::error::PeriodError;
use oct_code::{Code, LIMIT};
use std::marker::Model;

/// The claim that from the heap `start` on each nim-value of the game comes again `period` heaps later.
#[derive(Clone, Copy, PartialEq, Eq, PartialOrd, Ord)]
pub struct Period {
    code: Code,
    start: u32,
    period: u32,
}

impl Model for Period {
    ghost use Rattle.oct_ops.specs.Operation.{Period as PeriodValue, repeating};
    ghost use Rattle.oct_ops.specs.Valid.{IsPeriod};

    ghost Value = { PeriodValue };

    ghost view = { λ p. repeating p.code p.start p.period };

    ghost invariant = { λ p. IsPeriod (repeating p.code p.start p.period) };

    ghost inverse = { λ p. record { code = p.code; start = p.start; period = p.period } };
}

impl Period {
    /// The claim that from the heap `start` on each nim-value comes again `period` heaps later. A refusal names the first
    /// fault, in the order of `PeriodError`.
    pub fn new(code: Code, start: u32, period: u32) -> Result<Period, PeriodError>
        ensures ok { IfOk result (λ claim. claim ≡ repeating code start period) }
        ensures accepted { OnOk result (period_fault (repeating code start period) ≡ None) }
        ensures fault { IfErr result (λ fault. period_fault (repeating code start period) ≡ Some fault) }
    {
        if start == 0 || period == 0 {
            return Err(PeriodError::Zero);
        }
        if start as usize > LIMIT || period as usize > LIMIT {
            return Err(PeriodError::PastLimit);
        }
        prove!(code.len() <= 16);
        Ok(Period {
            code,
            start,
            period,
        })
    }

    /// The game.
    pub fn code(&self) -> Code
        ensures value { result ≡ self.now.code }
        ensures valid { IsPeriod self.now }
    {
        self.code
    }

    /// The first heap of the claim, 1 to `LIMIT`.
    pub fn start(&self) -> u32
        ensures value { result ≡ self.now.start }
        ensures valid { IsPeriod self.now }
    {
        self.start
    }

    /// After how many heaps the values come again, 1 to `LIMIT`.
    pub fn period(&self) -> u32
        ensures value { result ≡ self.now.period }
        ensures valid { IsPeriod self.now }
    {
        self.period
    }
}
