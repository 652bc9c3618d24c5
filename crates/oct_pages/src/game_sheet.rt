//! A game's sheet is read off what is known of the game and off its operations, each once.

ghost use Rattle.std.specs.Prelude.{◌≡◌, true, IfOk};
ghost use Rattle.std.specs.List.{list_all};
ghost use Rattle.oct_ops.specs.Operations.{listed};
ghost use Rattle.oct_ops.specs.Sets.{contains};
ghost use Rattle.oct_pages.specs.Catalogue.{blocks_of};
ghost use Rattle.oct_pages.specs.Contents.{game_content};
ghost use Rattle.oct_pages.specs.Sheet.{sheet_by};

use crate::game::GameSheet;
use crate::statuses::{block_rows, first_proved, period_rows};
use oct_join::OpSet;
use oct_period::Game;
use std::alloc::{AllocError, Allocator};

impl<'a, A: Allocator + Copy> GameSheet<'a, A> {
    /// The sheet of a game with these operations, which are its blocks and claims. The one error is that memory is
    /// refused.
    pub fn of_game(
        alloc: A,
        game: &'a Game<A>,
        ops: &OpSet<A>,
    ) -> Result<GameSheet<'a, A>, AllocError>
        requires { list_all (contains game.now.blocks) (blocks_of game.now.code (listed ops.now)) ≡ true }
        ensures { IfOk result (λ sheet. game_content sheet ≡ sheet_by game.now (listed ops.now)) }
    {
        let periods = period_rows(alloc, game)?;
        let claim = first_proved(&periods);
        let blocks = block_rows(alloc, game, &claim, ops)?;
        Ok(GameSheet {
            code: game.code(),
            values: game.ledger().known_values(),
            blocks,
            periods,
            proved: claim.map(|claim| claim.period),
        })
    }
}
