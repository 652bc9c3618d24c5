//! How many of something are done, and how fast.

ghost use Rattle.std.specs.Prelude.{◌≡◌, ◌-◌};
ghost use Rattle.census_progress.specs.Counts.{count_of, is_same, leads_to, next_turn, pace_to, turns_of};

use crate::line_text::{Pace, Work};
use oct_code::Code;

/// How many are done, of how many.
#[derive(Clone, Copy)]
pub(crate) struct Count {
    /// The game of the nim-values that are counted; none where games or files are.
    pub(crate) code: Option<Code>,
    /// How many are done.
    pub(crate) done: u64,
    /// How many there are in all.
    pub(crate) all: u64,
}

impl Count {
    /// What is counted of this work. Games that have their turns are counted, and not the nim-values of one.
    pub(crate) fn of(work: &Work) -> Count
        ensures { result ≡ count_of work.now }
    {
        match work {
            Work::Values {
                code,
                known,
                wanted,
            } => Count {
                code: Some(*code),
                done: *known,
                all: *wanted,
            },
            Work::Turn { number, all, .. } => Count::without_last(*number, *all),
            Work::Games { done, all, .. } => Count {
                code: None,
                done: *done,
                all: *all,
            },
            Work::Files { number, all } => Count::without_last(*number, *all),
        }
    }

    // That of games or files, of which that of this number is not done.
    fn without_last(number: u64, all: u64) -> Count
        ensures { result ≡ record { code = None; done = number - 1; all = all } }
    {
        Count {
            code: None,
            done: number.saturating_sub(1),
            all,
        }
    }

    /// Whether a later count goes on from this one: of the same, and of no fewer.
    pub(crate) fn leads_to(&self, later: &Count) -> bool
        ensures { result ≡ leads_to self.now later.now }
    {
        is_same(self.code, later.code) && self.all == later.all && self.done <= later.done
    }

    /// How fast it went on from this count to a later one, in so many milliseconds.
    pub(crate) fn pace_to(&self, later: &Count, passed: u64) -> Pace
        ensures { result ≡ pace_to self.now later.now passed }
    {
        Pace {
            done: later.done.saturating_sub(self.done),
            passed,
            rest: later.all.saturating_sub(later.done),
        }
    }
}

// Whether the nim-values of one game are counted, or both times no nim-values.
fn is_same(first: Option<Code>, later: Option<Code>) -> bool
    ensures { result ≡ is_same first later }
{
    match (first, later) {
        (None, None) => true,
        (Some(first), Some(later)) => first == later,
        _ => false,
    }
}

/// Which of the games has its turn, where they have their turns one after another.
#[derive(Clone, Copy)]
pub(crate) struct Turns {
    /// Its number, from 1 on.
    pub(crate) number: u64,
    /// How many games there are.
    pub(crate) all: u64,
}

impl Turns {
    /// The first of so many turns; none where there is one game at most, of which it need not be said which one it is.
    pub(crate) fn of(games: usize) -> Option<Turns>
        ensures { result ≡ turns_of games }
    {
        if games <= 1 {
            return None;
        }
        Some(Turns {
            number: 1,
            all: games as u64,
        })
    }

    /// The next one; the last one stays.
    pub(crate) fn next(self) -> Turns
        ensures { result ≡ next_turn self }
    {
        if self.number >= self.all {
            return self;
        }
        Turns {
            number: self.number + 1,
            all: self.all,
        }
    }
}
