//! What was pending in a state and is decided by what is new.

ghost use Rattle.std.specs.Prelude.{◌≡◌, ◌++◌, ◌∷◌, ◌&&◌, [], not, true, count_by, IfOk, OnOk, if◌then◌else◌};
ghost use Rattle.std.specs.List.{flat_map, list_all, list_any};
ghost use Rattle.oct_ops.specs.Games.{of_code};
ghost use Rattle.oct_ops.specs.Operations.{listed};
ghost use Rattle.oct_ops.specs.Sets as sets;
ghost use Rattle.oct_pages.specs.Catalogue.{blocks_of};
ghost use Rattle.oct_period.specs.Claims.{claims_in, first_proved};
ghost use Rattle.oct_period.specs.FarBlocks.{block_status};
ghost use Rattle.oct_store.specs.Summary as summary;
ghost use Rattle.oct_verify.specs.Filing.{blocks_in};
ghost use Rattle.census_judge.specs.Verdicts.{block_verdict, says_pending, says_proved, says_refuted, verdict_of};
ghost use Rattle.census_judge.specs.Decisions.{decided, decided_by, decided_in, decided_op, decisions_of, is_of, is_open, was_pending};

use crate::verdicts::{
    JudgedClaim, claim_verdict, has_new, says_pending, says_proved, says_refuted, verdict_of,
};
use oct_code::Code;
use oct_join::OpSet;
use oct_ops::{Block, Body, Op};
use oct_pages::{codes_of, game_after};
use oct_period::{Game, Leaders, PeriodClaim};
use oct_record::Record;
use std::alloc::{AllocError, Global};

/// What became of the blocks and period claims that both hold, that were pending by all that `before` holds, and that are
/// decided by all that `later` holds: game by game, and in each in the order of the operations. A game of which `later` holds
/// nothing new is not built, since nothing is decided there, and of the others one at a time. The one error is that memory
/// is refused.
pub fn decided(
    alloc: Global,
    before: &Record<Global>,
    later: &Record<Global>,
) -> Result<Vec<JudgedClaim>, AllocError>
    ensures { IfOk result (λ all. all.items ≡ decided before.now.ops later.now.ops) }
{
    let codes = codes_of(later)?;
    decide_each(alloc, before, later, &codes)
}

// Those of these games.
fn decide_each(
    alloc: Global,
    before: &Record<Global>,
    later: &Record<Global>,
    codes: &[Code],
) -> Result<Vec<JudgedClaim>, AllocError>
    ensures { IfOk result (λ all. all.items ≡ flat_map (decided_in before.now.ops later.now.ops) codes.now) }
{
    let mut all = Vec::new(alloc);
    let mut leaders = Leaders::new(alloc);
    for code in codes {
        decide_game(&mut all, before, later, *code, &mut leaders)?;
    }
    Ok(all)
}

// Appends those of a game.
fn decide_game(
    all: &mut Vec<JudgedClaim>,
    before: &Record<Global>,
    later: &Record<Global>,
    code: Code,
    leaders: &mut Leaders<Global>,
) -> Result<(), AllocError>
    ensures { OnOk result (all.new.items ≡ all.old.items ++ decided_in before.now.ops later.now.ops code) }
{
    match later.game(code) {
        Some(ops) => decide_held(all, before, later, code, ops, leaders),
        None => Ok(()),
    }
}

// Appends those of a game that has these operations now, which is built as it was where some of them are new, and as it is
// where one of the others was pending.
fn decide_held(
    all: &mut Vec<JudgedClaim>,
    before: &Record<Global>,
    later: &Record<Global>,
    code: Code,
    ops: &OpSet<Global>,
    leaders: &mut Leaders<Global>,
) -> Result<(), AllocError>
    requires { ops.now ≡ summary.of_game later.now.ops code }
    ensures { OnOk result (all.new.items ≡ all.old.items ++ decided_in before.now.ops later.now.ops code) }
{
    if !has_new(before, ops) {
        return Ok(());
    }
    let old = game_after(before, code, leaders)?;
    if !had_pending(before, &old, ops) {
        return Ok(());
    }
    let game = game_after(later, code, leaders)?;
    decide_ops(all, before, &old, &game, ops)
}

// Whether one of the operations of a game was there, and pending.
fn had_pending(before: &Record<Global>, old: &Game<Global>, ops: &OpSet<Global>) -> bool
    requires { list_all (of_code old.now.code) (listed ops.now) ≡ true }
    ensures { result ≡ list_any (was_pending before.now.ops old.now) (listed ops.now) }
{
    let first = old.proved_claim();
    for op in ops.iter() {
        if was_pending(before, old, &first, op) {
            return true;
        }
    }
    false
}

// Whether an operation of a game was there, and pending by the game as it was.
fn was_pending(
    before: &Record<Global>,
    old: &Game<Global>,
    first: &Option<PeriodClaim>,
    op: &Op<Global>,
) -> bool
    requires of_game { of_code old.now.code op.now ≡ true }
    requires first { first.now ≡ first_proved (blocks_in old.now.blocks) (sets.listed old.now.claims) }
    ensures { result ≡ was_pending before.now.ops old.now op.now }
{
    before.store().contains(op) && is_open(old, first, op)
}

// Whether nothing in a game decides the block or the claim that an operation of it says.
fn is_open(game: &Game<Global>, first: &Option<PeriodClaim>, op: &Op<Global>) -> bool
    requires of_game { of_code game.now.code op.now ≡ true }
    requires first { first.now ≡ first_proved (blocks_in game.now.blocks) (sets.listed game.now.claims) }
    ensures { result ≡ is_open (verdict_of game.now op.now.body) }
{
    match op.body() {
        Body::Block(block) => is_open_block(game, first, block),
        Body::Period(claim) => says_pending(claim_verdict(game, claim)),
        Body::Note(_) | Body::Removal(_) => false,
    }
}

// Whether nothing in a game decides a block: it starts beyond the known nim-values, and no claim is proved.
fn is_open_block(game: &Game<Global>, first: &Option<PeriodClaim>, block: &Block<Global>) -> bool
    requires { first.now ≡ first_proved (blocks_in game.now.blocks) (sets.listed game.now.claims) }
    ensures { result ≡ says_pending (block_verdict (block_status (blocks_in game.now.blocks) (claims_in game.now.claims) block.now)) }
{
    if block.start() <= game.ledger().known() {
        return false;
    }
    first.is_none()
}

// Appends those of the operations of a game, as it was and as it is.
fn decide_ops(
    all: &mut Vec<JudgedClaim>,
    before: &Record<Global>,
    old: &Game<Global>,
    game: &Game<Global>,
    ops: &OpSet<Global>,
) -> Result<(), AllocError>
    requires old { old.now.code ≡ game.now.code }
    requires held { list_all (sets.contains game.now.blocks) (blocks_of game.now.code (listed ops.now)) ≡ true }
    requires each { list_all (of_code game.now.code) (listed ops.now) ≡ true }
    ensures { OnOk result (all.new.items ≡ all.old.items ++ flat_map (decided_op before.now.ops old.now game.now) (listed ops.now)) }
{
    let old_first = old.proved_claim();
    let first = game.proved_claim();
    for op in ops.iter() {
        let was_pending = was_pending(before, old, &old_first, op);
        decide_op(all, was_pending, game, &first, op)?;
    }
    Ok(())
}

// Appends an operation of a game that was pending, where something decides it now.
fn decide_op(
    all: &mut Vec<JudgedClaim>,
    was_pending: bool,
    game: &Game<Global>,
    first: &Option<PeriodClaim>,
    op: &Op<Global>,
) -> Result<(), AllocError>
    requires here { list_all (sets.contains game.now.blocks) (blocks_of game.now.code (op.now ∷ [])) ≡ true }
    requires of_game { of_code game.now.code op.now ≡ true }
    requires first { first.now ≡ first_proved (blocks_in game.now.blocks) (sets.listed game.now.claims) }
    ensures { OnOk result (all.new.items ≡ all.old.items ++ (if was_pending then decided_by game.now.code op.now.dot (verdict_of game.now op.now.body) else [])) }
{
    if !was_pending {
        return Ok(());
    }
    if let Some(verdict) = verdict_of(game, first, op) {
        if !says_pending(verdict) {
            all.push(JudgedClaim {
                code: game.code(),
                dot: op.dot(),
                verdict,
            })?;
        }
    }
    Ok(())
}

/// How many of those that are decided an author said, and how many others did.
#[derive(Clone, Copy)]
pub struct Decisions {
    /// How many of the author's are proved.
    pub own_proved: usize,
    /// How many of the author's are refuted.
    pub own_refuted: usize,
    /// How many of others' are proved.
    pub others_proved: usize,
    /// How many of others' are refuted.
    pub others_refuted: usize,
}

/// How many of these are proved and refuted, those of the author apart.
pub fn count_decided(author: u32, all: &[JudgedClaim]) -> Decisions
    ensures { result ≡ decisions_of author all.now }
{
    Decisions {
        own_proved: own_proved(author, all),
        own_refuted: own_refuted(author, all),
        others_proved: others_proved(author, all),
        others_refuted: others_refuted(author, all),
    }
}

// How many of the author's are proved.
fn own_proved(author: u32, all: &[JudgedClaim]) -> usize
    ensures { result ≡ count_by (λ j. is_of author j && says_proved j.verdict) all.now }
{
    all.iter()
        .filter(|one| is_of(author, one) && says_proved(one.verdict))
        .count()
}

// How many of the author's are refuted.
fn own_refuted(author: u32, all: &[JudgedClaim]) -> usize
    ensures { result ≡ count_by (λ j. is_of author j && says_refuted j.verdict) all.now }
{
    all.iter()
        .filter(|one| is_of(author, one) && says_refuted(one.verdict))
        .count()
}

// How many of others' are proved.
fn others_proved(author: u32, all: &[JudgedClaim]) -> usize
    ensures { result ≡ count_by (λ j. not (is_of author j) && says_proved j.verdict) all.now }
{
    all.iter()
        .filter(|one| !is_of(author, one) && says_proved(one.verdict))
        .count()
}

// How many of others' are refuted.
fn others_refuted(author: u32, all: &[JudgedClaim]) -> usize
    ensures { result ≡ count_by (λ j. not (is_of author j) && says_refuted j.verdict) all.now }
{
    all.iter()
        .filter(|one| !is_of(author, one) && says_refuted(one.verdict))
        .count()
}

// Whether the author said it.
fn is_of(author: u32, one: &JudgedClaim) -> bool
    ensures { result ≡ is_of author one.now }
{
    one.dot.author() == author
}
