//! How values of games are made known.

ghost use Rattle.std.specs.Prelude.{◌≡◌, ◌≢◌, ◌+◌, ◌≤◌, Ok, Err, IfOk, IfErr, OnOk};
ghost use Rattle.oct_code.specs.declared.limits.TheConstants.{LIMIT};
ghost use Rattle.oct_ops.specs.declared.limits.TheConstants.{MAX_ITEMS};
ghost use Rattle.oct_pages.specs.GamesIn.{content_in};
ghost use Rattle.census_issue.specs.Extending.{extended, extended_to, known_in, wanted, with_values};

use crate::opened::issue_in;
use census_state::Fault;
use oct_code::{Code, LIMIT};
use oct_ops::{Block, Body, MAX_ITEMS};
use oct_period::Game;
use oct_record::Record;
use oct_window::Progress;
use std::alloc::Global;

// The most blocks that are issued of a game: together they have as many values as a game has places.
const MOST_BLOCKS: u32 = 64;

/// Refuses, as `Number`, a number of values that no game has: 0, and more than `LIMIT`.
pub fn check_count(count: u32) -> Result<(), Fault>
    ensures ok { OnOk result (wanted count ≡ Ok count) }
    ensures fits { OnOk result (count ≤ LIMIT) }
    ensures err { IfErr result (λ e. wanted count ≡ Err e) }
{
    if count == 0 || count as usize > LIMIT {
        return Err(Fault::Number);
    }
    Ok(())
}

/// Issues blocks of the next values of a game until so many are known, and says how many blocks they are. The game is that of
/// what was said, before and after; each of its values is computed once.
pub(crate) fn extend_game<P: Progress>(
    said: &mut Record<Global>,
    game: &mut Game<Global>,
    code: Code,
    count: u32,
    progress: &mut P,
) -> Result<u32, Fault>
    requires count { count ≤ LIMIT }
    requires game { game.old ≡ content_in said.old.ops code }
    ensures ok { IfOk result (λ issued. extended code count said.old ≡ Ok (extended_to said.new issued)) }
    ensures game { OnOk result (game.new ≡ content_in said.new.ops code) }
    ensures err { IfErr result (λ e. e ≢ Fault.OutOfMemory → extended code count said.old ≡ Err e) }
{
    for issued in 0..MOST_BLOCKS {
        let known = game.ledger().known();
        if count <= known {
            return Ok(issued);
        }
        progress.tell(code, u64::from(known), u64::from(count));
        issue_values(said, game, code, (count - known).min(MAX_ITEMS as u32))?;
    }
    Ok(MOST_BLOCKS)
}

// Issues the block of so many next values of a game.
fn issue_values(
    said: &mut Record<Global>,
    game: &mut Game<Global>,
    code: Code,
    count: u32,
) -> Result<(), Fault>
    requires some { 1 ≤ count }
    requires few { count ≤ MAX_ITEMS }
    requires room { known_in said.old.ops code + count ≤ LIMIT }
    requires game { game.old ≡ content_in said.old.ops code }
    ensures ok { OnOk result (with_values said.old code count ≡ Ok said.new) }
    ensures game { OnOk result (game.new ≡ content_in said.new.ops code) }
    ensures err { IfErr result (λ e. e ≢ Fault.OutOfMemory → with_values said.old code count ≡ Err e) }
{
    let start = game.ledger().known();
    let values = game.compute_next(count)?;
    let Ok(block) = Block::new(code, start, values) else {
        unreachable!();
    };
    issue_in(said, game, code, Body::Block(block))
}
