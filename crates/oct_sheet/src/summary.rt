//! What a table of games says of each.

ghost use Rattle.std.specs.Prelude.{◌≡◌, ◌++◌, ◌∷◌, [], count_by, OnErr, OnOk};
ghost use Rattle.oct_pages.specs.Contents.{game_content};
ghost use Rattle.oct_sheet.specs.Summary.{block_is_withdrawn, block_pending, block_proved, block_refuted, block_stands_refuted, block_tally, blocks_with, claim_is_withdrawn, claim_pending, claim_proved, claim_refuted, claim_stands_refuted, claim_tally, claims_with, has_withdrawn, is_refuted, summary_of};

use crate::remarks::Remarks;
use oct_code::Code;
use oct_ops::Period;
use oct_pages::{BlockRow, GameSheet, PeriodRow};
use oct_period::PeriodStatus;
use oct_verify::Status;
use std::alloc::{AllocError, Allocator};

/// A game in a few numbers.
#[derive(Clone, Copy)]
pub struct Summary {
    /// The code of the game.
    pub code: Code,
    /// How many nim-values are known.
    pub known: usize,
    /// The first claim, in the order of the operations, that is proved.
    pub proved: Option<Period>,
    /// The blocks.
    pub blocks: GameTally,
    /// The period claims.
    pub claims: GameTally,
}

/// How many there are of each status.
#[derive(Clone, Copy)]
pub struct Tally {
    /// Those that are proved.
    pub proved: usize,
    /// Those that are refuted.
    pub refuted: usize,
    /// Those that are pending.
    pub pending: usize,
}

/// How many blocks, or how many period claims, of a game have each status.
#[derive(Clone, Copy)]
pub struct GameTally {
    /// Those that are proved.
    pub proved: usize,
    /// Those that are refuted, and not withdrawn.
    pub refuted: usize,
    /// Those that are refuted, and withdrawn by who said them.
    pub withdrawn: usize,
    /// Those that are pending.
    pub pending: usize,
}

impl Summary {
    /// The summary of a game, of which some is withdrawn by these remarks.
    pub fn of<A: Allocator + Copy, B: Allocator + Copy>(
        game: &GameSheet<'_, A>,
        remarks: &Remarks<'_, B>,
    ) -> Summary
        ensures { result ≡ summary_of remarks.now (game_content game.now) }
    {
        Summary {
            code: game.code,
            known: game.values.len(),
            proved: game.proved,
            blocks: block_tally(&game.blocks, remarks),
            claims: claim_tally(&game.periods, remarks),
        }
    }

    /// Adds the summary of a game to others. The one error is that memory is refused, and then `rows` stays as it is.
    pub fn add<A: Allocator + Copy, B: Allocator + Copy>(
        rows: &mut Vec<Summary, A>,
        game: &GameSheet<'_, B>,
        remarks: &Remarks<'_, B>,
    ) -> Result<(), AllocError>
        ensures ok { OnOk result (rows.new.items ≡ rows.old.items ++ summary_of remarks.now (game_content game.now) ∷ []) }
        ensures err { OnErr result (rows.new.items ≡ rows.old.items) }
    {
        rows.push(Summary::of(game, remarks))?;
        Ok(())
    }

    /// Whether a block or a claim is refuted, and not withdrawn.
    pub fn is_refuted(&self) -> bool
        ensures { result ≡ is_refuted self.now }
    {
        0 < self.blocks.refuted || 0 < self.claims.refuted
    }

    /// Whether a block or a claim is refuted, and withdrawn.
    pub fn has_withdrawn(&self) -> bool
        ensures { result ≡ has_withdrawn self.now }
    {
        0 < self.blocks.withdrawn || 0 < self.claims.withdrawn
    }
}

// How many blocks have each status.
fn block_tally<A: Allocator + Copy>(blocks: &[BlockRow], remarks: &Remarks<'_, A>) -> GameTally
    ensures { result ≡ block_tally remarks.now blocks.now }
{
    GameTally {
        proved: proved_blocks(blocks),
        refuted: refuted_blocks(blocks, remarks),
        withdrawn: withdrawn_blocks(blocks, remarks),
        pending: pending_blocks(blocks),
    }
}

// How many claims have each status.
fn claim_tally<A: Allocator + Copy>(claims: &[PeriodRow], remarks: &Remarks<'_, A>) -> GameTally
    ensures { result ≡ claim_tally remarks.now claims.now }
{
    GameTally {
        proved: proved_claims(claims),
        refuted: refuted_claims(claims, remarks),
        withdrawn: withdrawn_claims(claims, remarks),
        pending: pending_claims(claims),
    }
}

// How many blocks are proved.
fn proved_blocks(rows: &[BlockRow]) -> usize
    ensures { result ≡ blocks_with block_proved rows.now }
{
    rows.iter().filter(|row| block_proved(row.status)).count()
}

// Whether a block of this status is proved.
fn block_proved(status: Status) -> bool
    ensures { result ≡ block_proved status }
{
    match status {
        Status::Proved => true,
        Status::Refuted { .. } | Status::Pending => false,
    }
}

// How many blocks are refuted, and not withdrawn.
fn refuted_blocks<A: Allocator + Copy>(rows: &[BlockRow], remarks: &Remarks<'_, A>) -> usize
    ensures { result ≡ count_by (block_stands_refuted remarks.now) rows.now }
{
    rows.iter()
        .filter(|row| block_refuted(row.status) && !remarks.is_withdrawn(row.dot))
        .count()
}

// How many blocks are refuted, and withdrawn.
fn withdrawn_blocks<A: Allocator + Copy>(rows: &[BlockRow], remarks: &Remarks<'_, A>) -> usize
    ensures { result ≡ count_by (block_is_withdrawn remarks.now) rows.now }
{
    rows.iter()
        .filter(|row| block_refuted(row.status) && remarks.is_withdrawn(row.dot))
        .count()
}

// Whether a block of this status is refuted.
fn block_refuted(status: Status) -> bool
    ensures { result ≡ block_refuted status }
{
    match status {
        Status::Refuted { .. } => true,
        Status::Proved | Status::Pending => false,
    }
}

// How many blocks are pending.
fn pending_blocks(rows: &[BlockRow]) -> usize
    ensures { result ≡ blocks_with block_pending rows.now }
{
    rows.iter().filter(|row| block_pending(row.status)).count()
}

// Whether a block of this status is pending.
fn block_pending(status: Status) -> bool
    ensures { result ≡ block_pending status }
{
    match status {
        Status::Pending => true,
        Status::Proved | Status::Refuted { .. } => false,
    }
}

// How many claims are proved.
fn proved_claims(rows: &[PeriodRow]) -> usize
    ensures { result ≡ claims_with claim_proved rows.now }
{
    rows.iter().filter(|row| claim_proved(row.status)).count()
}

// Whether a claim of this status is proved.
fn claim_proved(status: PeriodStatus) -> bool
    ensures { result ≡ claim_proved status }
{
    match status {
        PeriodStatus::Proved => true,
        PeriodStatus::Refuted { .. } | PeriodStatus::Pending { .. } => false,
    }
}

// How many claims are refuted, and not withdrawn.
fn refuted_claims<A: Allocator + Copy>(rows: &[PeriodRow], remarks: &Remarks<'_, A>) -> usize
    ensures { result ≡ count_by (claim_stands_refuted remarks.now) rows.now }
{
    rows.iter()
        .filter(|row| claim_refuted(row.status) && !remarks.is_withdrawn(row.dot))
        .count()
}

// How many claims are refuted, and withdrawn.
fn withdrawn_claims<A: Allocator + Copy>(rows: &[PeriodRow], remarks: &Remarks<'_, A>) -> usize
    ensures { result ≡ count_by (claim_is_withdrawn remarks.now) rows.now }
{
    rows.iter()
        .filter(|row| claim_refuted(row.status) && remarks.is_withdrawn(row.dot))
        .count()
}

// Whether a claim of this status is refuted.
fn claim_refuted(status: PeriodStatus) -> bool
    ensures { result ≡ claim_refuted status }
{
    match status {
        PeriodStatus::Refuted { .. } => true,
        PeriodStatus::Proved | PeriodStatus::Pending { .. } => false,
    }
}

// How many claims are pending.
fn pending_claims(rows: &[PeriodRow]) -> usize
    ensures { result ≡ claims_with claim_pending rows.now }
{
    rows.iter().filter(|row| claim_pending(row.status)).count()
}

// Whether a claim of this status is pending.
fn claim_pending(status: PeriodStatus) -> bool
    ensures { result ≡ claim_pending status }
{
    match status {
        PeriodStatus::Pending { .. } => true,
        PeriodStatus::Proved | PeriodStatus::Refuted { .. } => false,
    }
}
