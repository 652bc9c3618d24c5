//! Games that are kept where they are dear, and built again where they are not.
#![tactic(auto)]

ghost use Rattle.std.specs.Prelude.{◌≡◌, OnOk, Some, None};
ghost use Rattle.std.specs.BTreeMap as tree;
ghost use Rattle.oct_code.specs.Code.{code_cmp};
ghost use Rattle.oct_ops.specs.Operations.{Operations};
ghost use Rattle.oct_pages.specs.GamesIn.{AreGamesIn, content_in};

use oct_code::Code;
use oct_period::Game;
use std::alloc::{AllocError, Allocator};
use std::collections::BTreeMap;

// A game with so many known values, or with fewer, is built again.
const FEW: usize = 1_024;

// The games that are kept have at most so many known values together.
const ROOM: usize = 16_777_216;

/// Games that are kept until they are shown.
#[derive(Drop)]
pub(crate) struct Kept<A: Allocator + Copy> {
    /// The games, by their codes.
    pub games: BTreeMap<Code, Game<A>, A>,
    /// How many known values more may be kept.
    room: usize,
}

impl<A: Allocator + Copy> Kept<A> {
    /// None is kept.
    pub fn new(alloc: A) -> Kept<A>
        ensures { (ops : Operations) → AreGamesIn ops result.games }
    {
        Kept {
            games: BTreeMap::new(alloc),
            room: ROOM,
        }
    }

    /// Keeps the game where it has many known values and there is room for them; else it is let go.
    pub fn keep(&mut self, game: Game<A>) -> Result<(), AllocError>
        ensures { (ops : Operations) → game ≡ content_in ops game.code → AreGamesIn ops self.old.games → OnOk result (AreGamesIn ops self.new.games) }
    {
        let known = game.ledger().known_values().len();
        if known <= FEW || known > self.room {
            return Ok(());
        }
        let code = game.code();
        let Ok(_) = self.games.insert(code, game) else {
            return Err(AllocError);
        };
        self.room -= known;
        Ok(())
    }
}
