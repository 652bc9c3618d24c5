//! The nim-value of a position, and a winning move, by a search.

ghost use Rattle.std.specs.Prelude.{◌≡◌, Err, IfErr, IfOk};
ghost use Rattle.oct_mex.specs.NimValues.{position_value as nim_sum};
ghost use Rattle.oct_period.specs.Moving.{IsWinningAnswer};
ghost use Rattle.census_search.specs.Positions.{IsMoveReached, IsReached};
ghost use Rattle.census_search.specs.Searching.{IsSearchFault, searchable};

use crate::searching::check_searchable;
use census_state::Fault;
use oct_code::Code;
use oct_reach::{Move, Unknown, position_value, winning_move};
use oct_search::Search;
use oct_window::Progress;
use std::alloc::Global;

/// Computes nim-values of a game until they prove a period, or `count` of them are known, and gives the nim-value of a position of
/// heaps of any size: the exclusive or of theirs. Where no period is found, a heap that is not below `count` has none, and the first
/// such heap is named. The faults are those of `search`.
pub fn reach<P: Progress>(
    alloc: Global,
    code: Code,
    count: u64,
    heaps: &[u64],
    progress: &mut P,
) -> Result<Result<u32, Unknown>, Fault>
    ensures ok { IfOk result (IsReached code count heaps.now) }
    ensures right { IfOk result (λ told. IfOk told (λ value. value ≡ nim_sum code heaps.now)) }
    ensures err { IfErr result (IsSearchFault code count) }
    ensures number { IfErr (searchable count) (λ e. result ≡ Err e) }
{
    check_searchable(count)?;
    let mut game = Search::new(alloc, code);
    let found = game.search(count as usize, progress)?;
    Ok(position_value(&game, found, heaps))
}

/// Computes nim-values as `reach` does, and names the first winning move of a position of heaps of any size, as
/// `oct_period::Game::winning_move` does; none exactly where the nim-value of the position is 0. Where no period is found, a heap
/// that is not below `count` has no nim-value, and the first such heap is named. The faults are those of `search`.
pub fn reach_move<P: Progress>(
    alloc: Global,
    code: Code,
    count: u64,
    heaps: &[u64],
    progress: &mut P,
) -> Result<Result<Option<Move>, Unknown>, Fault>
    ensures ok { IfOk result (IsMoveReached code count heaps.now) }
    ensures play { IfOk result (λ told. IfOk told (IsWinningAnswer code heaps.now)) }
    ensures err { IfErr result (IsSearchFault code count) }
    ensures number { IfErr (searchable count) (λ e. result ≡ Err e) }
{
    check_searchable(count)?;
    let mut game = Search::new(alloc, code);
    let found = game.search(count as usize, progress)?;
    Ok(winning_move(&game, found, heaps))
}
