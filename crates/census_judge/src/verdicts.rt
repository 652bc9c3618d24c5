//! What became of the blocks and claims that are new to a state.

ghost use Rattle.std.specs.Prelude.{◌≡◌, ◌++◌, ◌<◌, ◌∷◌, [], not, true, IfOk, OnOk};
ghost use Rattle.std.specs.List.{flat_map, list_all, list_any};
ghost use Rattle.oct_mex.specs.NimValues.{nim_value};
ghost use Rattle.oct_ops.specs.Games.{of_code};
ghost use Rattle.oct_ops.specs.Operations.{contains, listed};
ghost use Rattle.oct_ops.specs.Sets as sets;
ghost use Rattle.oct_pages.specs.Catalogue.{blocks_of};
ghost use Rattle.oct_period.specs.Claims.{first_proved};
ghost use Rattle.oct_period.specs.Periods as periods;
ghost use Rattle.oct_store.specs.Summary as summary;
ghost use Rattle.oct_verify.specs.Filing.{blocks_in};
ghost use Rattle.oct_verify.specs.Known.{known};
ghost use Rattle.census_judge.specs.Verdicts.{block_verdict, broken, claim_verdict, count_with, exchanged, judged, judged_in, judged_op, says_pending, says_proved, says_refuted, tally_of, verdict_of};

use oct_code::Code;
use oct_join::OpSet;
use oct_ops::{Body, Dot, Op, Period};
use oct_pages::{codes_of, game_after};
use oct_period::{Game, Leaders, PeriodClaim, PeriodStatus, period_status};
use oct_record::Record;
use oct_sheet::Tally;
use oct_verify::Status;
use std::alloc::{AllocError, Global};

/// What became of a block or a period claim.
#[derive(Clone, Copy)]
pub enum Verdict {
    /// It holds: each value of the block is the heap's nim-value, or the claim holds for every heap from its start on.
    Proved,
    /// The block is wrong, first at the heap `at`: it claims one value, and the nim-value is another.
    WrongBlock {
        at: u32,
        claimed: u32,
        truth: u32,
    },
    /// The claim that the nim-values repeat by `period` from the heap `start` on is wrong, first at the heap `at`: its
    /// nim-value is `value`, and that of the heap one period larger is `repeated`. `is_exchanged` says whether the claim
    /// with start and period exchanged is proved.
    WrongClaim {
        start: u32,
        period: u32,
        at: u32,
        value: u32,
        repeated: u32,
        is_exchanged: bool,
    },
    /// The block starts beyond the known nim-values, and no claim of its game is proved.
    PendingBlock,
    /// No known nim-value speaks against the claim, and those of the heaps below `needs` would decide it.
    PendingClaim {
        needs: u32,
    },
}

/// A block or a period claim, and what became of it.
#[derive(Clone, Copy)]
pub struct JudgedClaim {
    /// Its game.
    pub code: Code,
    /// Who made it, and which of the author's operations it is.
    pub dot: Dot,
    /// What became of it.
    pub verdict: Verdict,
}

/// What became of the blocks and period claims that `later` holds and `before` does not, by all that `later` holds: game
/// by game, and in each in the order of the operations. A game with none of them is not built, and of the others one at a
/// time. The one error is that memory is refused.
pub fn judge(
    alloc: Global,
    before: &Record<Global>,
    later: &Record<Global>,
) -> Result<Vec<JudgedClaim>, AllocError>
    ensures { IfOk result (λ all. all.items ≡ judged before.now.ops later.now.ops) }
{
    let codes = codes_of(later)?;
    judge_each(alloc, before, later, &codes)
}

// The new ones of these games.
fn judge_each(
    alloc: Global,
    before: &Record<Global>,
    later: &Record<Global>,
    codes: &[Code],
) -> Result<Vec<JudgedClaim>, AllocError>
    ensures { IfOk result (λ all. all.items ≡ flat_map (judged_in before.now.ops later.now.ops) codes.now) }
{
    let mut all = Vec::new(alloc);
    let mut leaders = Leaders::new(alloc);
    for code in codes {
        judge_game(&mut all, before, later, *code, &mut leaders)?;
    }
    Ok(all)
}

/// How many of these are proved, refuted and pending.
pub fn tally(all: &[JudgedClaim]) -> Tally
    ensures { result ≡ tally_of all.now }
{
    Tally {
        proved: proved_count(all),
        refuted: refuted_count(all),
        pending: pending_count(all),
    }
}

// How many are proved.
fn proved_count(all: &[JudgedClaim]) -> usize
    ensures { result ≡ count_with says_proved all.now }
{
    all.iter().filter(|one| says_proved(one.verdict)).count()
}

/// Whether the verdict is that it is proved.
pub(crate) fn says_proved(verdict: Verdict) -> bool
    ensures { result ≡ says_proved verdict }
{
    match verdict {
        Verdict::Proved => true,
        Verdict::WrongBlock { .. }
        | Verdict::WrongClaim { .. }
        | Verdict::PendingBlock
        | Verdict::PendingClaim { .. } => false,
    }
}

// How many are refuted.
fn refuted_count(all: &[JudgedClaim]) -> usize
    ensures { result ≡ count_with says_refuted all.now }
{
    all.iter().filter(|one| says_refuted(one.verdict)).count()
}

/// Whether the verdict is that it is refuted.
pub(crate) fn says_refuted(verdict: Verdict) -> bool
    ensures { result ≡ says_refuted verdict }
{
    match verdict {
        Verdict::WrongBlock { .. } | Verdict::WrongClaim { .. } => true,
        Verdict::Proved | Verdict::PendingBlock | Verdict::PendingClaim { .. } => false,
    }
}

// How many are pending.
fn pending_count(all: &[JudgedClaim]) -> usize
    ensures { result ≡ count_with says_pending all.now }
{
    all.iter().filter(|one| says_pending(one.verdict)).count()
}

/// Whether nothing decides it yet.
pub(crate) fn says_pending(verdict: Verdict) -> bool
    ensures { result ≡ says_pending verdict }
{
    match verdict {
        Verdict::PendingBlock | Verdict::PendingClaim { .. } => true,
        Verdict::Proved | Verdict::WrongBlock { .. } | Verdict::WrongClaim { .. } => false,
    }
}

// Appends the new ones of a game.
fn judge_game(
    all: &mut Vec<JudgedClaim>,
    before: &Record<Global>,
    later: &Record<Global>,
    code: Code,
    leaders: &mut Leaders<Global>,
) -> Result<(), AllocError>
    ensures { OnOk result (all.new.items ≡ all.old.items ++ judged_in before.now.ops later.now.ops code) }
{
    match later.game(code) {
        Some(ops) => judge_held(all, before, later, code, ops, leaders),
        None => Ok(()),
    }
}

// Appends the new ones of a game with these operations, which is built where there are some.
fn judge_held(
    all: &mut Vec<JudgedClaim>,
    before: &Record<Global>,
    later: &Record<Global>,
    code: Code,
    ops: &OpSet<Global>,
    leaders: &mut Leaders<Global>,
) -> Result<(), AllocError>
    requires { ops.now ≡ summary.of_game later.now.ops code }
    ensures { OnOk result (all.new.items ≡ all.old.items ++ judged_in before.now.ops later.now.ops code) }
{
    if !has_new(before, ops) {
        return Ok(());
    }
    let game = game_after(later, code, leaders)?;
    judge_ops(all, before, &game, ops)
}

/// Whether one of the operations was not there before.
pub(crate) fn has_new(before: &Record<Global>, ops: &OpSet<Global>) -> bool
    ensures { result ≡ list_any (λ o. not (contains before.now.ops o)) (listed ops.now) }
{
    for op in ops.iter() {
        if !before.store().contains(op) {
            return true;
        }
    }
    false
}

// Appends the new ones among the operations of a game.
fn judge_ops(
    all: &mut Vec<JudgedClaim>,
    before: &Record<Global>,
    game: &Game<Global>,
    ops: &OpSet<Global>,
) -> Result<(), AllocError>
    requires held { list_all (sets.contains game.now.blocks) (blocks_of game.now.code (listed ops.now)) ≡ true }
    requires each { list_all (of_code game.now.code) (listed ops.now) ≡ true }
    ensures { OnOk result (all.new.items ≡ all.old.items ++ flat_map (judged_op before.now.ops game.now) (listed ops.now)) }
{
    let first = game.proved_claim();
    for op in ops.iter() {
        judge_op(all, before, game, &first, op)?;
    }
    Ok(())
}

// Appends an operation of a game, where it is new and a block or a claim.
fn judge_op(
    all: &mut Vec<JudgedClaim>,
    before: &Record<Global>,
    game: &Game<Global>,
    first: &Option<PeriodClaim>,
    op: &Op<Global>,
) -> Result<(), AllocError>
    requires here { list_all (sets.contains game.now.blocks) (blocks_of game.now.code (op.now ∷ [])) ≡ true }
    requires of_game { of_code game.now.code op.now ≡ true }
    requires first { first.now ≡ first_proved (blocks_in game.now.blocks) (sets.listed game.now.claims) }
    ensures { OnOk result (all.new.items ≡ all.old.items ++ judged_op before.now.ops game.now op.now) }
{
    if before.store().contains(op) {
        return Ok(());
    }
    if let Some(verdict) = verdict_of(game, first, op) {
        all.push(JudgedClaim {
            code: game.code(),
            dot: op.dot(),
            verdict,
        })?;
    }
    Ok(())
}

/// The verdict on an operation of a game; none where it is neither a block nor a claim.
pub(crate) fn verdict_of(
    game: &Game<Global>,
    first: &Option<PeriodClaim>,
    op: &Op<Global>,
) -> Option<Verdict>
    requires here { list_all (sets.contains game.now.blocks) (blocks_of game.now.code (op.now ∷ [])) ≡ true }
    requires of_game { of_code game.now.code op.now ≡ true }
    requires first { first.now ≡ first_proved (blocks_in game.now.blocks) (sets.listed game.now.claims) }
    ensures { result ≡ verdict_of game.now op.now.body }
{
    match op.body() {
        Body::Block(block) => Some(block_verdict(game.block_status_by(*first, &op.dot(), block))),
        Body::Period(claim) => Some(claim_verdict(game, claim)),
        Body::Note(_) | Body::Removal(_) => None,
    }
}

// The verdict on a block of this status.
fn block_verdict(status: Status) -> Verdict
    ensures { result ≡ block_verdict status }
{
    match status {
        Status::Proved => Verdict::Proved,
        Status::Refuted { at, claimed, truth } => Verdict::WrongBlock { at, claimed, truth },
        Status::Pending => Verdict::PendingBlock,
    }
}

/// The verdict on a claim of the game.
pub(crate) fn claim_verdict(game: &Game<Global>, claim: &Period) -> Verdict
    requires { claim.now.code ≡ game.now.code }
    ensures { result ≡ claim_verdict (blocks_in game.now.blocks) claim.now }
{
    match period_status(game.ledger(), claim) {
        PeriodStatus::Proved => Verdict::Proved,
        PeriodStatus::Refuted { at } => broken(game, claim, at),
        PeriodStatus::Pending { needs } => Verdict::PendingClaim { needs },
    }
}

// The verdict on a claim that breaks at this heap first.
fn broken(game: &Game<Global>, claim: &Period, at: u32) -> Verdict
    requires game { claim.now.code ≡ game.now.code }
    requires broken { periods.period_status (blocks_in game.now.blocks) claim.now ≡ PeriodStatus.Refuted at }
    ensures { result ≡ broken (blocks_in game.now.blocks) claim.now at }
{
    let period = claim.period();
    let heap = at as usize;
    Verdict::WrongClaim {
        start: claim.start(),
        period,
        at,
        value: value_at(game, heap),
        repeated: value_at(game, heap + period as usize),
        is_exchanged: is_exchanged(game, claim),
    }
}

// The nim-value of a heap, which is known.
fn value_at(game: &Game<Global>, heap: usize) -> u32
    requires { heap < known (blocks_in game.now.blocks) }
    ensures { result ≡ nim_value game.now.code heap }
{
    game.ledger().known_values()[heap]
}

// Whether the claim with start and period exchanged is proved.
fn is_exchanged(game: &Game<Global>, claim: &Period) -> bool
    requires { claim.now.code ≡ game.now.code }
    ensures { result ≡ periods.is_proved (periods.period_status (blocks_in game.now.blocks) (exchanged claim.now)) }
{
    match Period::new(claim.code(), claim.period(), claim.start()) {
        Ok(other) => period_status(game.ledger(), &other) == PeriodStatus::Proved,
        Err(_) => unreachable!(),
    }
}
