//! A winning move of a position, by a state or else by a search.

ghost use Rattle.std.specs.Prelude.{◌≡◌, ◌≢◌, Err, IfErr, IfOk};
ghost use Rattle.census_core.specs.Moved.{IsMoveFound, IsMoveTold};
ghost use Rattle.census_core.specs.Reaching.{IsReachFault};
ghost use Rattle.census_search.specs.Searching.{IsSearchFault, searchable};
ghost use Rattle.census_tell.specs.Moving.{move_of};

use census_search::{check_searchable, reach_move};
use census_state::{Fault, load, read_code};
use census_tell::move_text;
use oct_pages::game_of;
use oct_period::{Game, Move, Unknown};
use oct_text::Form;
use oct_window::Progress;
use std::alloc::Global;

/// A winning move of a position, or that there is none, or the first heap whose nim-value is not known: by what a state says of the
/// game, as `Move` of `Request` has it, and where a heap is not known by that, by a search of the game as `search` makes it, by
/// `count` nim-values at most.
///
/// The first fault is `Number`, where no search computes so many values; then `Load` and `Code`; then that of the search.
/// `OutOfMemory` may come before any of them but `Number`.
pub fn move_by_search<P: Progress>(
    alloc: Global,
    state: &[u8],
    code: &[u8],
    heaps: &[u64],
    count: u64,
    form: Form,
    progress: &mut P,
) -> Result<Vec<u8>, Fault>
    ensures ok { IfOk result (λ text. IsMoveFound form state.now code.now heaps.now count text.items) }
    ensures err { IfErr result (λ e. e ≢ Fault.OutOfMemory → IsReachFault state.now code.now count e) }
    ensures number { IfErr (searchable count) (λ e. result ≡ Err e) }
{
    check_searchable(count)?;
    let held = load(alloc, state)?;
    let code = read_code(code)?;
    let game = game_of(&held, code)?;
    let answer = move_by(alloc, &game, heaps, count, progress)?;
    Ok(move_text(alloc, answer, heaps, form)?)
}

// The first winning move of a position by what is known of a game, or else by a search of it.
fn move_by<P: Progress>(
    alloc: Global,
    game: &Game<Global>,
    heaps: &[u64],
    count: u64,
    progress: &mut P,
) -> Result<Result<Option<Move>, Unknown>, Fault>
    ensures ok { IfOk result (IsMoveTold game.now.code count heaps.now (move_of game.now heaps.now)) }
    ensures err { IfErr result (IsSearchFault game.now.code count) }
{
    match game.winning_move(heaps) {
        Ok(found) => Ok(Ok(found)),
        Err(_) => reach_move(alloc, game.code(), count, heaps, progress),
    }
}
