//! A game of which the first nim-values are known, and the period that they prove.

ghost use Rattle.std.specs.Prelude.{◌≡◌, ◌+◌, ◌-◌, ◌<◌, ◌≤◌, min, IfOk, OnOk};
ghost use Rattle.oct_code.specs.declared.limits.TheConstants.{LIMIT};
ghost use Rattle.oct_ops.specs.declared.limits.TheConstants.{MAX_ITEMS};
ghost use Rattle.oct_ops.specs.Sets as sets;
ghost use Rattle.oct_verify.specs.Filing.{blocks_in};
ghost use Rattle.oct_verify.specs.Known.{known};
ghost use Rattle.oct_period.specs.Claims.{claims_in};
ghost use Rattle.oct_period.specs.Found.{found_period};
ghost use Rattle.census_search.specs.FirstGames.{EndsAtKnown, IsFirstGame, IsKnownTo, listed_if};

use oct_code::{Code, LIMIT};
use oct_ops::{Block, Dot, MAX_ITEMS};
use oct_period::Game;
use std::alloc::{AllocError, Allocator};

// Who says the blocks and the claim: nobody is asked, and no text names it.
const AUTHOR: u32 = 1;

/// A game of which the first `count` nim-values are known, and the period that they prove is claimed. Each value is computed once.
/// The one error is that memory is refused.
pub fn first_game<A: Allocator + Copy>(
    alloc: A,
    code: Code,
    count: u32,
) -> Result<Game<A>, AllocError>
    requires some { 1 ≤ count }
    requires few { count ≤ LIMIT }
    ensures { IfOk result (IsFirstGame code count) }
{
    let mut game = known_game(alloc, code, count)?;
    claim_period(&mut game)?;
    Ok(game)
}

/// The game of these values, without a claim. The one error is that memory is refused.
pub fn known_game<A: Allocator + Copy>(
    alloc: A,
    code: Code,
    count: u32,
) -> Result<Game<A>, AllocError>
    requires some { 1 ≤ count }
    requires few { count ≤ LIMIT }
    ensures known { IfOk result (IsKnownTo code count) }
    ensures claims { IfOk result (λ game. game.claims ≡ sets.empty) }
{
    let mut game = Game::new(alloc, code);
    'blocks: while game.ledger().known() < count {
        add_block(&mut game, count)?;
    }
    Ok(game)
}

// Puts in a block of the next values, of `count` together as many as a block has.
fn add_block<A: Allocator + Copy>(game: &mut Game<A>, count: u32) -> Result<(), AllocError>
    requires more { known (blocks_in game.old.blocks) < count }
    requires few { count ≤ LIMIT }
    requires end { EndsAtKnown (blocks_in game.old.blocks) }
    ensures ok { OnOk result (IsKnownTo game.old.code (min count (known (blocks_in game.old.blocks) + MAX_ITEMS)) game.new) }
    ensures claims { game.new.claims ≡ game.old.claims }
{
    let start = game.ledger().known();
    let values = game.compute_next((count - start).min(MAX_ITEMS as u32))?;
    let Ok(block) = Block::new(game.code(), start, values) else {
        unreachable!();
    };
    let Ok(dot) = Dot::new(AUTHOR, start) else {
        unreachable!();
    };
    match game.add_block(dot, block) {
        Ok(()) => Ok(()),
        Err((refusal, _)) => Err(refusal),
    }
}

// Claims the period that the values of a game prove, if they prove one.
fn claim_period<A: Allocator + Copy>(game: &mut Game<A>) -> Result<(), AllocError>
    requires { game.old.claims ≡ sets.empty }
    ensures code { game.new.code ≡ game.old.code }
    ensures blocks { game.new.blocks ≡ game.old.blocks }
    ensures claims { OnOk result (claims_in game.new.claims ≡ listed_if (found_period game.old.code (blocks_in game.old.blocks))) }
{
    let Some(period) = game.find_period() else {
        return Ok(());
    };
    let Ok(dot) = Dot::new(AUTHOR, 1) else {
        unreachable!();
    };
    match game.add_period(dot, period) {
        Ok(()) => Ok(()),
        Err((refusal, _)) => Err(refusal),
    }
}
