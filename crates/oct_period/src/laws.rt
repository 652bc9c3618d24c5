//! What holds of all claims of a game, whatever its blocks. A caller gets each law from the contract of its function.

ghost use Rattle.oct_period.specs.FarLaws.{StatusByBlocks, NearStatusByBlocks, SettledBlocksStay};
ghost use Rattle.oct_period.specs.Laws.{ProvedHolds, RefutedIsFirstBreak, SettledClaimsStay, HeapValuesAreRight, PositionValuesAreRight, NextPlayerWins, WinsAboveZero, OutcomeByValue};
ghost use Rattle.oct_period.specs.MoveLaws.{MovesInAreTheMoves, MovesLeaveThePositionsAfter, NoneWinsAtZero, NoneWinsBefore};

/// A proved claim holds for every heap from its start on, and a refuted one is refuted at the least of all heaps that
/// break it.
pub fn statuses_are_right()
    ensures proved { ProvedHolds }
    ensures refuted { RefutedIsFirstBreak }
{}

/// A claim that is proved or refuted stays so with more blocks, at the same heap.
pub fn settled_claims_stay()
    ensures { SettledClaimsStay }
{}

/// A block has the status that the blocks alone give it where there is no claim, and where it starts at or below the known
/// length.
pub fn near_blocks_need_no_claim()
    ensures none { StatusByBlocks }
    ensures near { NearStatusByBlocks }
{}

/// A block that is proved or refuted stays so with more blocks and claims, at the same place and with the same values.
pub fn settled_blocks_stay()
    ensures { SettledBlocksStay }
{}

/// The value that is given of a heap is its nim-value, and that of a position the exclusive or of the nim-values of its
/// heaps, whichever proved claims gave them.
pub fn values_are_right()
    ensures heap { HeapValuesAreRight }
    ensures position { PositionValuesAreRight }
{}

/// The player to move wins exactly where the nim-value of the position is not 0 (Sprague 1935, Grundy 1939), so an outcome
/// is told by the value that is given of the position.
pub fn winners_are_told_by_values()
    ensures moves { NextPlayerWins }
    ensures value { WinsAboveZero }
    ensures outcome { OutcomeByValue }
{}

/// The list of the moves in a position has exactly the moves of the game in it, and they leave the positions after it. There is
/// no first winning move exactly where the nim-value of the position is 0, and no winning move comes before it: by the place
/// of the heap, then by the number of beans removed, then by the smaller heap left.
pub fn winning_moves_are_found()
    ensures moves { MovesInAreTheMoves }
    ensures after { MovesLeaveThePositionsAfter }
    ensures none { NoneWinsAtZero }
    ensures first { NoneWinsBefore }
{}
