//! The search for a winning move.
//!
//! Under a period that holds the nim-values of heaps that lie a period beyond its start are those of heaps a period before. So a
//! heap is split into each smaller heap of the first period alone, however large it is.

ghost use Rattle.std.specs.Prelude.{◌≡◌, ◌+◌, ◌/◌, ◌≤◌, ◌&&◌, min, nat_le, IfOk};
ghost use Rattle.std.specs.List.{All, find};
ghost use Rattle.oct_code.specs.Code as octal;
ghost use Rattle.oct_mex.specs.Moves.{leavings, splits};
ghost use Rattle.oct_mex.specs.NimValues.{position_value as nim_sum};
ghost use Rattle.oct_period.specs.Moving.{first_winning_move, has_value, moves_at, moves_removing, winning_move_by, AreNear, IsWinningAnswer};
ghost use Rattle.oct_period.specs.Periods.{position_value_from};
ghost use Rattle.oct_search.specs.Found.{IsFound};
ghost use Rattle.oct_reach.specs.Reaching.{value_told, IsTold};

use crate::values::{position_value, told_value};
use oct_code::Code;
use oct_mex::SeenPeriod;
use oct_period::{Move, Unknown};
use oct_search::Search;
use std::alloc::Allocator;

/// A move after which the next player loses: the first one, by the place of its heap, by the number of beans that it removes, and
/// by the smaller heap that it leaves, as `oct_period::Game::winning_move` names it. None exactly where the nim-value of the
/// position is 0, so that the player to move loses. Where no period is found, the first heap is named that is not computed.
/// `found` is what the search has found. Under a period no heap is split so that both parts lie past the first one, so heaps of
/// any size are searched alike. Takes no memory.
pub fn winning_move<A: Allocator + Copy>(
    game: &Search<A>,
    found: Option<SeenPeriod>,
    heaps: &[u64],
) -> Result<Option<Move>, Unknown>
    requires { IsFound game.now.code game.now.len found }
    ensures value { result ≡ winning_move_by game.now.code heaps.now (position_value_from (value_told game.now.code found game.now.len) 0 heaps.now) }
    ensures play { IfOk result (IsWinningAnswer game.now.code heaps.now) }
{
    match position_value(game, found, heaps) {
        Ok(0) => Ok(None),
        Ok(total) => Ok(first_move(game, found, heaps, total)),
        Err(unknown) => Err(unknown),
    }
}

// The first winning move in a position of this nim-value.
fn first_move<A: Allocator + Copy>(
    game: &Search<A>,
    found: Option<SeenPeriod>,
    heaps: &[u64],
    total: u32,
) -> Option<Move>
    requires found { IsFound game.now.code game.now.len found }
    requires told { All (IsTold found game.now.len) heaps.now }
    requires total { total ≡ nim_sum game.now.code heaps.now }
    ensures { result ≡ first_winning_move game.now.code heaps.now }
{
    for (index, heap) in heaps.iter().enumerate() {
        let wanted = total ^ told_value(game, found, *heap);
        let answer = move_at(game, found, index, *heap, wanted);
        if answer.is_some() {
            return answer;
        }
    }
    None
}

// The first move in a heap at a place that leaves two heaps of this value.
fn move_at<A: Allocator + Copy>(
    game: &Search<A>,
    found: Option<SeenPeriod>,
    index: usize,
    heap: u64,
    wanted: u32,
) -> Option<Move>
    requires found { IsFound game.now.code game.now.len found }
    requires told { IsTold found game.now.len heap }
    ensures { result ≡ find (λ m. has_value game.now.code wanted m.left) (moves_at game.now.code index heap) }
{
    for removed in 0..game.code().len() + 1 {
        let answer = move_removing(game, found, index, heap, removed, wanted);
        if answer.is_some() {
            return answer;
        }
    }
    None
}

// The first such move that removes so many beans.
fn move_removing<A: Allocator + Copy>(
    game: &Search<A>,
    found: Option<SeenPeriod>,
    index: usize,
    heap: u64,
    removed: usize,
    wanted: u32,
) -> Option<Move>
    requires found { IsFound game.now.code game.now.len found }
    requires told { IsTold found game.now.len heap }
    ensures { result ≡ find (λ m. has_value game.now.code wanted m.left) (moves_removing game.now.code index heap removed) }
{
    let beans = removed as u64;
    if heap < beans {
        return None;
    }
    let left = leaving_of(game, found, removed, heap - beans, wanted)?;
    Some(Move {
        index,
        removed: beans,
        left,
    })
}

// The first two heaps of this value that may be left where so many beans are removed and so many are left.
fn leaving_of<A: Allocator + Copy>(
    game: &Search<A>,
    found: Option<SeenPeriod>,
    removed: usize,
    rest: u64,
    wanted: u32,
) -> Option<(u64, u64)>
    requires found { IsFound game.now.code game.now.len found }
    requires told { IsTold found game.now.len rest }
    ensures { result ≡ find (has_value game.now.code wanted) (leavings game.now.code removed rest) }
{
    let code = game.code();
    let may_leave_one = leaves_at_most_one(&code, removed, rest);
    let is_one = has_value(game, found, (0, rest), wanted);
    if may_leave_one && is_one {
        return Some((0, rest));
    }
    if code.allows(removed, 2) {
        return split_of(game, found, rest, wanted);
    }
    None
}

// Whether so many beans may be removed so that these are left in one heap, or none is left.
fn leaves_at_most_one(code: &Code, removed: usize, rest: u64) -> bool
    ensures { result ≡ (nat_le 1 removed && octal.allows code.now removed (min rest 1)) }
{
    removed > 0 && code.allows(removed, u32::from(rest > 0))
}

// The first two nonempty heaps of this value that have so many beans.
fn split_of<A: Allocator + Copy>(
    game: &Search<A>,
    found: Option<SeenPeriod>,
    rest: u64,
    wanted: u32,
) -> Option<(u64, u64)>
    requires found { IsFound game.now.code game.now.len found }
    requires told { IsTold found game.now.len rest }
    ensures { result ≡ find (has_value game.now.code wanted) (splits rest) }
{
    for a in 1..splits_end(game, found, rest) {
        let split = (a, rest - a);
        if has_value(game, found, split, wanted) {
            return Some(split);
        }
    }
    None
}

// An end below which the smaller heap of some split of each value lies.
fn splits_end<A: Allocator + Copy>(game: &Search<A>, found: Option<SeenPeriod>, rest: u64) -> u64
    requires { IsFound game.now.code game.now.len found }
    ensures within { result ≤ rest / 2 + 1 }
    ensures near { AreNear game.now.code rest result }
{
    let end = rest / 2 + 1;
    match found {
        Some(seen) => {
            // Of these `len` says that there are not too many for the sum.
            let _ = game.len();
            end.min((seen.start + seen.period) as u64)
        }
        None => end,
    }
}

// Whether two heaps have this exclusive or of their nim-values.
fn has_value<A: Allocator + Copy>(
    game: &Search<A>,
    found: Option<SeenPeriod>,
    left: (u64, u64),
    wanted: u32,
) -> bool
    requires found { IsFound game.now.code game.now.len found }
    requires first { IsTold found game.now.len left.0 }
    requires second { IsTold found game.now.len left.1 }
    ensures { result ≡ has_value game.now.code wanted left }
{
    told_value(game, found, left.0) ^ told_value(game, found, left.1) == wanted
}
