//! The blocks and the claims of a game with their statuses, in the order of the operations.

ghost use Rattle.std.specs.Prelude.{◌≡◌, true, map, IfOk, option_map};
ghost use Rattle.std.specs.List.{find, list_all};
ghost use Rattle.std.specs.Option.{option_copied};
ghost use Rattle.oct_ops.specs.Operations.{listed};
ghost use Rattle.oct_ops.specs.Sets.{contains};
ghost use Rattle.oct_ops.specs.Sets as sets;
ghost use Rattle.oct_ops.specs.Views.{content};
ghost use Rattle.oct_period.specs.Claims.{claims_in, first_proved as first_proved_of};
ghost use Rattle.oct_period.specs.Periods.{is_proved};
ghost use Rattle.oct_pages.specs.Catalogue.{block_of_game, blocks_of};
ghost use Rattle.oct_verify.specs.Filing.{blocks_in};
ghost use Rattle.oct_pages.specs.Sheet.{block_row, claim_of, period_row};

use oct_code::Code;
use oct_join::OpSet;
use oct_ops::{Block, Body, Dot, Period};
use oct_period::{Game, PeriodClaim, PeriodStatus, period_status};
use oct_verify::Status;
use std::alloc::{AllocError, Allocator};

/// A block of a game.
#[derive(Clone, Copy)]
pub struct BlockRow {
    /// Who claimed it, and which of the author's operations it is.
    pub dot: Dot,
    /// The heap size of the first value.
    pub start: u32,
    /// How many values there are.
    pub count: u32,
    /// What is known of it.
    pub status: Status,
}

/// A period claim of a game.
#[derive(Clone, Copy)]
pub struct PeriodRow {
    /// Who made it, and which of the author's operations it is.
    pub dot: Dot,
    /// What is claimed.
    pub period: Period,
    /// What is known of it.
    pub status: PeriodStatus,
}

/// The game's blocks among the operations, in their order. `claim` is the game's first proved claim.
pub(crate) fn block_rows<A: Allocator + Copy>(
    alloc: A,
    game: &Game<A>,
    claim: &Option<PeriodClaim>,
    ops: &OpSet<A>,
) -> Result<Vec<BlockRow, A>, AllocError>
    requires held { list_all (contains game.now.blocks) (blocks_of game.now.code (listed ops.now)) ≡ true }
    requires first { claim.now ≡ first_proved_of (blocks_in game.now.blocks) (sets.listed game.now.claims) }
    ensures { IfOk result (λ rows. rows.items ≡ map (block_row (blocks_in game.now.blocks) (claims_in game.now.claims)) (blocks_of game.now.code (listed ops.now))) }
{
    let code = game.code();
    let mut rows = Vec::new(alloc);
    for op in ops.iter() {
        if let Some(block) = block_of_game(op.body(), &code) {
            let dot = op.dot();
            let start = block.start();
            let status = game.block_status_by(*claim, &dot, block);
            rows.push(BlockRow {
                dot,
                start,
                count: block.end() - start,
                status,
            })?;
        }
    }
    Ok(rows)
}

/// The game's claims, each compared once with the known nim-values.
pub(crate) fn period_rows<A: Allocator + Copy>(
    alloc: A,
    game: &Game<A>,
) -> Result<Vec<PeriodRow, A>, AllocError>
    ensures { IfOk result (λ rows. rows.items ≡ map (period_row (blocks_in game.now.blocks)) (sets.listed game.now.claims)) }
{
    let mut rows = Vec::new(alloc);
    for claim in game.claims() {
        let status = period_status(game.ledger(), &claim.period);
        rows.push(PeriodRow {
            dot: claim.dot,
            period: claim.period,
            status,
        })?;
    }
    Ok(rows)
}

/// The first claim of the rows that is proved.
pub(crate) fn first_proved(rows: &[PeriodRow]) -> Option<PeriodClaim>
    ensures { result ≡ option_map claim_of (find (λ row. is_proved row.status) rows.now) }
{
    for row in rows {
        if is_proved(row.status) {
            return Some(PeriodClaim {
                dot: row.dot,
                period: row.period,
            });
        }
    }
    None
}

// Whether the status is that of a claim that is proved.
fn is_proved(status: PeriodStatus) -> bool
    ensures { result ≡ is_proved status }
{
    status == PeriodStatus::Proved
}

/// The block, where the body is one of the game.
pub(crate) fn block_of_game<'a, A: Allocator>(
    body: &'a Body<A>,
    code: &Code,
) -> Option<&'a Block<A>>
    ensures { option_copied result ≡ block_of_game code.now (content body.now) }
{
    match body {
        Body::Block(block) if block.code() == *code => Some(block),
        _ => None,
    }
}
