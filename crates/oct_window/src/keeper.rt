//! Who keeps a search, so that it can be taken up again.

use crate::place::Place;
use oct_code::Code;
use oct_progress::Progress;
use std::alloc::Allocator;

/// A place of a search was not kept.
#[derive(Clone, Copy, Debug, PartialEq, Eq, Drop)]
pub struct Unkept;

/// Who is told how far a search is, and keeps the places that it comes to, so that it can be taken up again.
pub trait Keeper<A: Allocator> {
    ghost use Rattle.std.specs.Prelude.{◌≡◌, Bool, true, IsTrue, OnErr, OnOk};
    ghost use Rattle.oct_window.specs.Places.{IsKept};

    // Whether a place may not be kept.
    ghost may_refuse: { Bool };

    // Whether a place was not kept.
    ghost has_refused: { Self → Bool };

    /// So many nim-values of the game are known, of how many that are wanted.
    fn tell(&mut self, code: Code, known: u64, wanted: u64)
        ensures { has_refused self.new ≡ has_refused self.old };

    /// Takes a place that the search has come to, or its last one.
    fn keep(&mut self, place: &Place<A>, is_last: bool) -> Result<(), Unkept>
        requires { IsKept place.now }
        ensures ok { OnOk result (has_refused self.new ≡ has_refused self.old) }
        ensures err { OnErr result (has_refused self.new ≡ true) }
        ensures may { OnErr result (IsTrue may_refuse) };
}

/// Keeps no place, and passes on how far the search is.
#[derive(Drop)]
pub struct Forgetful<'a, P>(pub &'a mut P);

impl<A: Allocator, P: Progress> Keeper<A> for Forgetful<'_, P> {
    ghost use Rattle.std.specs.Prelude.{false};

    ghost may_refuse = { false };

    ghost has_refused = { λ _. false };

    fn tell(&mut self, code: Code, known: u64, wanted: u64) {
        self.0.tell(code, known, wanted);
    }

    fn keep(&mut self, _place: &Place<A>, _is_last: bool) -> Result<(), Unkept> {
        Ok(())
    }
}
