//! Games that are built from what was said.

ghost use Rattle.std.specs.Prelude.{◌≡◌, ◌≤◌, true, IfOk};
ghost use Rattle.std.specs.List.{list_all};
ghost use Rattle.oct_ops.specs.Games.{of_code};
ghost use Rattle.oct_ops.specs.Operations.{listed};
ghost use Rattle.oct_pages.specs.GamesIn.{content_in, new_game};

use oct_code::{Code, LIMIT};
use oct_join::OpSet;
use oct_ops::Body;
use oct_period::{Game, Leaders};
use oct_record::Record;
use std::alloc::{AllocError, Allocator};

/// The game of a code with its blocks and claims among what was said, built from them in their order; a game without
/// any where there is none. The one error is that memory is refused.
pub fn game_of<A: Allocator + Copy>(said: &Record<A>, code: Code) -> Result<Game<A>, AllocError>
    ensures { IfOk result (λ game. game ≡ content_in said.now.ops code) }
{
    let game = Game::new(said.allocator(), code);
    match said.game(code) {
        Some(ops) => build(game, code, ops),
        None => Ok(game),
    }
}

/// The same game. Nim-values up to the last of its blocks are taken over from earlier games, as long as they are its own, and
/// its values are kept for later ones, where there is memory for them.
pub fn game_after<A: Allocator + Copy>(
    said: &Record<A>,
    code: Code,
    leaders: &mut Leaders<A>,
) -> Result<Game<A>, AllocError>
    ensures { IfOk result (λ game. game ≡ content_in said.now.ops code) }
{
    let mut game = Game::new(said.allocator(), code);
    let Some(ops) = said.game(code) else {
        return Ok(game);
    };
    game.follow(leaders, last_end(ops))?;
    let game = build(game, code, ops)?;
    game.lead(leaders);
    Ok(game)
}

// The greatest end of the blocks among operations, or 0.
fn last_end<A: Allocator + Copy>(ops: &OpSet<A>) -> u32
    ensures { result ≤ LIMIT }
{
    let mut last = 0;
    for op in ops.iter_shared() {
        if let Body::Block(block) = op.body() {
            last = block.end().max(last);
        }
    }
    last
}

// The game of operations that are all of it, from one without any.
fn build<A: Allocator + Copy>(
    game: Game<A>,
    code: Code,
    ops: &OpSet<A>,
) -> Result<Game<A>, AllocError>
    requires new { game ≡ new_game code }
    requires all { list_all (of_code code) (listed ops.now) ≡ true }
    ensures { IfOk result (λ game. game ≡ content_in ops.now code) }
{
    let mut game = game;
    for op in ops.iter_shared() {
        game.share(op)?;
    }
    Ok(game)
}
