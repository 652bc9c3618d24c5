//! Lists from the front of the numbers, without memory.

ghost use Rattle.std.specs.Prelude.{◌≡◌, ◌==◌, ◌++◌, IfErr, IfOk, length};
ghost use Rattle.oct_saved.specs.Numbers.{listing};
ghost use Rattle.oct_saved.specs.Reading.{BeginsWithList, RefusesIf};

use crate::error::ReadError;
use std::marker::Model;

/// The numbers that are still to be read.
#[derive(Drop)]
pub(crate) struct Input<'a> {
    numbers: &'a [u64],
}

impl<'a> Model for Input<'a> {
    ghost use Rattle.std.specs.Prelude.{ℕ, List};

    ghost Value = { List ℕ };

    ghost view = { λ i. i.numbers.now };
}

impl<'a> Input<'a> {
    /// All the numbers.
    pub(crate) fn new(numbers: &'a [u64]) -> Input<'a>
        ensures { result ≡ numbers.now }
    {
        Input { numbers }
    }

    /// Whether none is left.
    pub(crate) fn is_empty(&self) -> bool
        ensures { result ≡ (length self.now == 0) }
    {
        self.numbers.is_empty()
    }

    /// A list, whose length stands before it.
    pub(crate) fn list(&mut self) -> Result<&'a [u64], ReadError>
        ensures ok { IfOk result (λ list. self.old ≡ listing list.now ++ self.new) }
        ensures err { IfErr result (λ error. RefusesIf error (BeginsWithList self.old)) }
    {
        let [count, rest @ ..] = self.numbers else {
            return Err(ReadError::Refused);
        };
        if *count > rest.len() as u64 {
            return Err(ReadError::Refused);
        }
        let (list, rest) = rest.split_at(*count as usize);
        self.numbers = rest;
        Ok(list)
    }
}
