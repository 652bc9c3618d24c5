//! The least periods of some games.

ghost use Rattle.std.specs.Prelude.{◌≡◌, ◌∷◌, [], IfSome, OnErr, OnOk};
ghost use Rattle.oct_window.specs.Repeats.{IsLeastPeriod};
ghost use Rattle.oct_proved.specs.Periods.{AreProved, period_in, with_period};

use oct_code::Code;
use oct_mex::SeenPeriod;
use std::alloc::{AllocError, Allocator};
use std::marker::Model;

/// A game with its least period.
#[derive(Clone, Copy)]
pub struct ProvedPeriod {
    /// The game.
    pub code: Code,
    /// The period, and the heap from which on it holds.
    pub seen: SeenPeriod,
}

/// Games with their least periods, in the order in which they came. Each of these periods holds for every heap from its start on,
/// and no shorter one does.
#[derive(Drop)]
pub struct ProvedPeriods<A: Allocator> {
    periods: Vec<ProvedPeriod, A>,
}

impl<A: Allocator> Model for ProvedPeriods<A> {
    ghost use Rattle.std.specs.Prelude.{List};
    ghost use Rattle.oct_proved.specs.Periods.{AreProved};
    ghost use Rattle.oct_proved.specs.declared.periods.ProvedPeriod.{ProvedPeriod as ProvedValue};

    ghost Value = { List ProvedValue };

    ghost view = { λ p. p.periods.items };

    ghost invariant = { λ p. AreProved p.periods.items };
}

impl<A: Allocator> ProvedPeriods<A> {
    /// No game. Takes no memory.
    pub fn new(alloc: A) -> ProvedPeriods<A>
        ensures { result ≡ [] }
    {
        ProvedPeriods {
            periods: Vec::new(alloc),
        }
    }

    /// Adds the least period of a game behind the others. Where the game is among them already, nothing changes: a game has one
    /// least period. The one error is that memory is refused, and then nothing changes.
    pub fn add(&mut self, code: Code, seen: SeenPeriod) -> Result<(), AllocError>
        requires { IsLeastPeriod code seen }
        ensures ok { OnOk result (self.new ≡ with_period self.old code seen) }
        ensures err { OnErr result (self.new ≡ self.old) }
    {
        if self.of(code).is_none() {
            self.periods.push(ProvedPeriod { code, seen })?;
        }
        Ok(())
    }

    /// The least period of a game, if it is among these.
    pub fn of(&self, code: Code) -> Option<SeenPeriod>
        ensures value { result ≡ period_in self.now code }
        ensures proved { IfSome result (IsLeastPeriod code) }
    {
        for proved in &self.periods {
            if proved.code == code {
                return Some(proved.seen);
            }
        }
        None
    }

    /// The games with their least periods.
    pub fn as_slice(&self) -> &[ProvedPeriod]
        ensures value { result.now ≡ self.now }
        ensures proved { AreProved result.now }
    {
        &self.periods
    }
}
