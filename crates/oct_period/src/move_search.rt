//! The search for a winning move.
//!
//! Under a proved claim the nim-values of heaps that lie a period beyond its start are those of heaps a period before. So a
//! heap is split into each smaller heap of the first period alone, however large it is.

ghost use Rattle.std.specs.Prelude.{◌≡◌, ◌+◌, ◌/◌, ◌≤◌, ◌&&◌, min, nat_le, IfOk};
ghost use Rattle.std.specs.List.{All, find};
ghost use Rattle.std.specs.Option.{option_map};
ghost use Rattle.oct_code.specs.Code as octal;
ghost use Rattle.oct_mex.specs.Moves.{leavings, splits};
ghost use Rattle.oct_mex.specs.NimValues.{nim_value, position_value as nim_sum};
ghost use Rattle.oct_period.specs.Claims.{Claim};
ghost use Rattle.oct_period.specs.Moving.{first_winning_move, has_value, moves_at, moves_removing, winning_move_by, AreNear, IsReached, IsWinningAnswer};
ghost use Rattle.oct_period.specs.Periods.{heap_value_by, position_value_from};
ghost use Rattle.oct_period.specs.Proved.{IsProvedBy};
ghost use Rattle.oct_verify.specs.Filing.{blocks_in};

use crate::claim::PeriodClaim;
use crate::moving::Move;
use crate::unknown::Unknown;
use crate::values::{heap_value_by, position_value_by};
use oct_code::Code;
use oct_verify::Ledger;
use std::alloc::Allocator;

/// The first winning move in a position, where the blocks or the proved claim give the nim-values of its heaps.
pub(crate) fn winning_move_by<A: Allocator + Copy>(
    ledger: &Ledger<A>,
    claim: &Option<PeriodClaim>,
    heaps: &[u64],
) -> Result<Option<Move>, Unknown>
    requires { IsProvedBy ledger.now.code (blocks_in ledger.now.blocks) claim.now }
    ensures value { result ≡ winning_move_by ledger.now.code heaps.now (position_value_from (heap_value_by ledger.now.code (blocks_in ledger.now.blocks) (option_map (λ (c : Claim). c.1) claim.now)) 0 heaps.now) }
    ensures play { IfOk result (IsWinningAnswer ledger.now.code heaps.now) }
{
    match position_value_by(ledger, claim, heaps) {
        Ok(0) => Ok(None),
        Ok(total) => Ok(first_move(ledger, claim, heaps, total)),
        Err(unknown) => Err(unknown),
    }
}

// The first winning move in a position of this nim-value.
fn first_move<A: Allocator + Copy>(
    ledger: &Ledger<A>,
    claim: &Option<PeriodClaim>,
    heaps: &[u64],
    total: u32,
) -> Option<Move>
    requires proved { IsProvedBy ledger.now.code (blocks_in ledger.now.blocks) claim.now }
    requires reached { All (IsReached (blocks_in ledger.now.blocks) claim.now) heaps.now }
    requires total { total ≡ nim_sum ledger.now.code heaps.now }
    ensures { result ≡ first_winning_move ledger.now.code heaps.now }
{
    for (index, heap) in heaps.iter().enumerate() {
        let wanted = total ^ reached_value(ledger, claim, *heap);
        let found = move_at(ledger, claim, index, *heap, wanted);
        if found.is_some() {
            return found;
        }
    }
    None
}

// The first move in a heap at a place that leaves two heaps of this value.
fn move_at<A: Allocator + Copy>(
    ledger: &Ledger<A>,
    claim: &Option<PeriodClaim>,
    index: usize,
    heap: u64,
    wanted: u32,
) -> Option<Move>
    requires proved { IsProvedBy ledger.now.code (blocks_in ledger.now.blocks) claim.now }
    requires reached { IsReached (blocks_in ledger.now.blocks) claim.now heap }
    ensures { result ≡ find (λ m. has_value ledger.now.code wanted m.left) (moves_at ledger.now.code index heap) }
{
    for removed in 0..ledger.code().len() + 1 {
        let found = move_removing(ledger, claim, index, heap, removed, wanted);
        if found.is_some() {
            return found;
        }
    }
    None
}

// The first such move that removes so many beans.
fn move_removing<A: Allocator + Copy>(
    ledger: &Ledger<A>,
    claim: &Option<PeriodClaim>,
    index: usize,
    heap: u64,
    removed: usize,
    wanted: u32,
) -> Option<Move>
    requires proved { IsProvedBy ledger.now.code (blocks_in ledger.now.blocks) claim.now }
    requires reached { IsReached (blocks_in ledger.now.blocks) claim.now heap }
    ensures { result ≡ find (λ m. has_value ledger.now.code wanted m.left) (moves_removing ledger.now.code index heap removed) }
{
    let beans = removed as u64;
    if heap < beans {
        return None;
    }
    let left = leaving_of(ledger, claim, removed, heap - beans, wanted)?;
    Some(Move {
        index,
        removed: beans,
        left,
    })
}

// The first two heaps of this value that may be left where so many beans are removed and so many are left.
fn leaving_of<A: Allocator + Copy>(
    ledger: &Ledger<A>,
    claim: &Option<PeriodClaim>,
    removed: usize,
    rest: u64,
    wanted: u32,
) -> Option<(u64, u64)>
    requires proved { IsProvedBy ledger.now.code (blocks_in ledger.now.blocks) claim.now }
    requires reached { IsReached (blocks_in ledger.now.blocks) claim.now rest }
    ensures { result ≡ find (has_value ledger.now.code wanted) (leavings ledger.now.code removed rest) }
{
    let code = ledger.code();
    let may_leave_one = leaves_at_most_one(&code, removed, rest);
    let is_one = has_value(ledger, claim, (0, rest), wanted);
    if may_leave_one && is_one {
        return Some((0, rest));
    }
    if code.allows(removed, 2) {
        return split_of(ledger, claim, rest, wanted);
    }
    None
}

// Whether so many beans may be removed so that these are left in one heap, or none is left.
fn leaves_at_most_one(code: &Code, removed: usize, rest: u64) -> bool
    ensures { result ≡ (nat_le 1 removed && octal.allows code.now removed (min rest 1)) }
{
    removed > 0 && code.allows(removed, u32::from(rest > 0))
}

// The first two nonempty heaps of this value that have so many beans.
fn split_of<A: Allocator + Copy>(
    ledger: &Ledger<A>,
    claim: &Option<PeriodClaim>,
    rest: u64,
    wanted: u32,
) -> Option<(u64, u64)>
    requires proved { IsProvedBy ledger.now.code (blocks_in ledger.now.blocks) claim.now }
    requires reached { IsReached (blocks_in ledger.now.blocks) claim.now rest }
    ensures { result ≡ find (has_value ledger.now.code wanted) (splits rest) }
{
    for a in 1..splits_end(ledger, claim, rest) {
        let split = (a, rest - a);
        if has_value(ledger, claim, split, wanted) {
            return Some(split);
        }
    }
    None
}

// An end below which the smaller heap of some split of each value lies.
fn splits_end<A: Allocator + Copy>(
    ledger: &Ledger<A>,
    claim: &Option<PeriodClaim>,
    rest: u64,
) -> u64
    requires { IsProvedBy ledger.now.code (blocks_in ledger.now.blocks) claim.now }
    ensures within { result ≤ rest / 2 + 1 }
    ensures near { AreNear ledger.now.code rest result }
{
    let end = rest / 2 + 1;
    match claim {
        Some(claim) => {
            let period = &claim.period;
            end.min(u64::from(period.start()) + u64::from(period.period()))
        }
        None => end,
    }
}

// Whether two heaps have this exclusive or of their nim-values.
fn has_value<A: Allocator + Copy>(
    ledger: &Ledger<A>,
    claim: &Option<PeriodClaim>,
    left: (u64, u64),
    wanted: u32,
) -> bool
    requires proved { IsProvedBy ledger.now.code (blocks_in ledger.now.blocks) claim.now }
    requires first { IsReached (blocks_in ledger.now.blocks) claim.now left.0 }
    requires second { IsReached (blocks_in ledger.now.blocks) claim.now left.1 }
    ensures { result ≡ has_value ledger.now.code wanted left }
{
    reached_value(ledger, claim, left.0) ^ reached_value(ledger, claim, left.1) == wanted
}

// The nim-value of a heap that the blocks or the proved claim give.
fn reached_value<A: Allocator + Copy>(
    ledger: &Ledger<A>,
    claim: &Option<PeriodClaim>,
    heap: u64,
) -> u32
    requires proved { IsProvedBy ledger.now.code (blocks_in ledger.now.blocks) claim.now }
    requires reached { IsReached (blocks_in ledger.now.blocks) claim.now heap }
    ensures { result ≡ nim_value ledger.now.code heap }
{
    match heap_value_by(ledger, *claim, heap) {
        Some(value) => value,
        None => unreachable!(),
    }
}
