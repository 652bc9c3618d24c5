//! What is known of a game.

ghost use Rattle.std.specs.Prelude.{◌≡◌, ◌+◌, ◌≤◌, ◌⊎◌, length, true, false, Some, IfErr, IfOk, IfSome, OnErr, OnOk};
ghost use Rattle.oct_code.specs.declared.limits.TheConstants.{LIMIT};
ghost use Rattle.oct_mex.specs.Following.{IsKept};
ghost use Rattle.oct_mex.specs.NimValues.{nim_value, position_value as nim_sum};
ghost use Rattle.oct_mex.specs.Periods.{IsPeriodicFrom};
ghost use Rattle.oct_ops.specs.Games.{game_of};
ghost use Rattle.oct_ops.specs.Sets as sets;
ghost use Rattle.oct_period.specs.Claims.{AreOfGame, claims_in, first_proved, is_claimed};
ghost use Rattle.oct_period.specs.FarBlocks.{block_status};
ghost use Rattle.oct_period.specs.Found.{found_period, IsFoundPeriod};
ghost use Rattle.oct_period.specs.GameContent.{has_body, ledger_of, with_body};
ghost use Rattle.oct_period.specs.Moving.{winning_move, IsWinningAnswer};
ghost use Rattle.oct_period.specs.Outcomes.{outcome, IsOutcomeOf};
ghost use Rattle.oct_period.specs.Periods.{heap_value, position_value};
ghost use Rattle.oct_period.specs.Proved.{IsProvedBy};
ghost use Rattle.oct_verify.specs.Filing.{blocks_in};
ghost use Rattle.oct_verify.specs.Known.{known};
ghost use Rattle.oct_verify.specs.Next.{next_values};

use crate::claim::PeriodClaim;
use crate::far::verdict_by;
use crate::found::find_period;
use crate::move_search::winning_move_by;
use crate::moving::Move;
use crate::unknown::Unknown;
use crate::values::{heap_value_by, is_proved, position_value_by};
use crate::winner::Outcome;
use crate::winning::outcome_of;
use oct_code::Code;
use oct_mex::Leaders;
use oct_ops::{Block, Body, Dot, Op, Period};
use oct_verify::{Ledger, Status};
use std::alloc::{AllocError, Allocator};
use std::collections::{BTreeSet, btree_set};
use std::marker::Model;
use std::rc::Rc;

/// The blocks and the period claims of one game, each under its dot, with what is known from them. Only `add_block`,
/// `add_period` and `share` ask for memory.
#[derive(Drop)]
pub struct Game<A: Allocator + Copy> {
    ledger: Ledger<A>,
    claims: BTreeSet<PeriodClaim, A>,
}

impl<A: Allocator + Copy> Model for Game<A> {
    ghost use Rattle.oct_period.specs.GameContent.{GameContent, game_content_code};

    ghost Value = { GameContent };

    ghost coded = { game_content_code };

    ghost use Rattle.oct_period.specs.GameKept.{content_of, IsGame};

    ghost view = { content_of };

    ghost invariant = { IsGame };
}

impl<A: Allocator + Copy> Game<A> {
    /// A game without blocks and claims. Takes no memory.
    pub fn new(alloc: A, code: Code) -> Game<A>
        ensures { result ≡ record { code = code; blocks = sets.empty; claims = sets.empty } }
    {
        Game {
            ledger: Ledger::new(alloc, code),
            claims: BTreeSet::new(alloc),
        }
    }

    /// The code of the game.
    pub fn code(&self) -> Code
        ensures { result ≡ self.now.code }
    {
        self.ledger.code()
    }

    /// Puts in a block of the game under its dot. A pair that is there changes nothing, and asks for no memory. Where memory is
    /// refused, nothing changes, and the block is handed back.
    pub fn add_block(&mut self, dot: Dot, block: Block<A>) -> Result<(), (AllocError, Block<A>)>
        requires { block.code ≡ self.old.code }
        ensures ok { OnOk result (self.new ≡ record self.old { blocks = sets.insert self.old.blocks (dot, block) }) }
        ensures err { OnErr result (self.new ≡ self.old) }
        ensures absent { OnErr result (sets.contains self.old.blocks (dot, block) ≡ false) }
        ensures returned { IfErr result (λ refused. refused.1 ≡ block) }
    {
        self.ledger.add(dot, block)
    }

    /// Puts in a claim of the game under its dot. A pair that is there changes nothing, and asks for no memory. Where memory is
    /// refused, nothing changes, and the claim is handed back.
    pub fn add_period(&mut self, dot: Dot, period: Period) -> Result<(), (AllocError, Period)>
        requires { period.code ≡ self.old.code }
        ensures ok { OnOk result (self.new ≡ record self.old { claims = sets.insert self.old.claims (dot, period) }) }
        ensures err { OnErr result (self.new ≡ self.old) }
        ensures absent { OnErr result (sets.contains self.old.claims (dot, period) ≡ false) }
        ensures returned { IfErr result (λ refused. refused.1 ≡ period) }
    {
        match self.claims.insert(PeriodClaim { dot, period }) {
            Ok(_) => Ok(()),
            Err(_) => Err((AllocError, period)),
        }
    }

    /// Puts in the block or the claim of an operation of the game, which is shared, as `add_block` and `add_period` do. One
    /// that is there changes nothing, and asks for no memory. Where memory is refused, nothing changes.
    pub fn share(&mut self, op: &Rc<Op<A>, A>) -> Result<(), AllocError>
        requires { game_of op.now.value ≡ Some self.old.code }
        ensures ok { OnOk result (self.new ≡ with_body self.old op.now.value.dot op.now.value.body) }
        ensures err { OnErr result (self.new ≡ self.old) }
        ensures absent { OnErr result (has_body self.old op.now.value.dot op.now.value.body ≡ false) }
    {
        match op.body() {
            Body::Block(_) => self.ledger.share(op),
            Body::Period(period) => match self.add_period(op.dot(), *period) {
                Ok(()) => Ok(()),
                Err((refusal, _)) => Err(refusal),
            },
            Body::Note(_) | Body::Removal(_) => unreachable!(),
        }
    }

    /// The blocks of the game.
    pub fn ledger(&self) -> &Ledger<A>
        ensures { result.now ≡ ledger_of self.now }
    {
        &self.ledger
    }

    /// The nim-values of the next `count` heaps, from the known length on. What was computed is kept, so that a block of them is
    /// compared without computing them again; it makes nothing known.
    pub fn compute_next(&mut self, count: u32) -> Result<Vec<u32, A>, AllocError>
        requires { known (blocks_in self.old.blocks) + count ≤ LIMIT }
        ensures values { IfOk result (λ next. next.items ≡ next_values self.old.code (blocks_in self.old.blocks) count) }
        ensures len { IfOk result (λ next. length next.items ≡ count) }
        ensures same { self.new ≡ self.old }
    {
        self.ledger.compute_next(count)
    }

    /// Keeps the nim-values that are computed here, known or not, among those that other games may take over. Where memory is
    /// refused, they are not kept.
    pub fn lead(&self, leaders: &mut Leaders<A>)
        ensures { (leaders.new ≡ leaders.old) ⊎ IsKept self.now.code leaders.old leaders.new }
    {
        self.ledger.lead(leaders);
    }

    /// Takes over the nim-values of other games, as long as they are those of this one, at most below the heap `count`, so that
    /// a block of them is compared without computing them. It makes nothing known. The one error is that memory is refused.
    pub fn follow(&mut self, leaders: &Leaders<A>, count: u32) -> Result<(), AllocError>
        requires { count ≤ LIMIT }
        ensures { self.new ≡ self.old }
    {
        self.ledger.follow(leaders, count)
    }

    /// The claims in the order of the operations.
    pub fn claims(&self) -> btree_set::Iter<'_, PeriodClaim>
        ensures value { result ≡ sets.listed self.now.claims }
        ensures game { AreOfGame self.now.code (sets.listed self.now.claims) }
    {
        self.claims.iter()
    }

    /// The first claim, in the order of the operations, that is proved. This is one pass over the claims.
    pub fn proved_claim(&self) -> Option<PeriodClaim>
        ensures value { result ≡ first_proved (blocks_in self.now.blocks) (sets.listed self.now.claims) }
        ensures proved { IsProvedBy self.now.code (blocks_in self.now.blocks) result }
    {
        for claim in self.claims() {
            if is_proved(&self.ledger, claim) {
                return Some(*claim);
            }
        }
        None
    }

    /// Whether some claim here is this one, under whichever dot.
    pub fn claims_period(&self, period: &Period) -> bool
        ensures { result ≡ is_claimed (claims_in self.now.claims) period.now }
    {
        for claim in self.claims() {
            if claim.period == *period {
                return true;
            }
        }
        false
    }

    /// The claim of the least period that the blocks prove, from the least start on, whether or not it is here; none where they
    /// prove no claim of the game. It holds for every heap.
    pub fn find_period(&self) -> Option<Period>
        ensures value { result ≡ found_period self.now.code (blocks_in self.now.blocks) }
        ensures found { IsFoundPeriod self.now.code (blocks_in self.now.blocks) result }
        ensures holds { IfSome result (λ found. IsPeriodicFrom self.now.code found.start found.period) }
    {
        find_period(&self.ledger)
    }

    /// The nim-value of a heap of any size: by the blocks below the known length, and otherwise by a proved claim, which is looked
    /// for only then.
    pub fn heap_value(&self, heap: u64) -> Option<u32>
        ensures value { result ≡ heap_value self.now.code (blocks_in self.now.blocks) (claims_in self.now.claims) heap }
        ensures right { IfSome result (λ value. value ≡ nim_value self.now.code heap) }
    {
        if let Some(value) = heap_value_by(&self.ledger, None, heap) {
            return Some(value);
        }
        heap_value_by(&self.ledger, self.proved_claim(), heap)
    }

    /// The exclusive or of the nim-values of a position's heaps, or the first heap that has none. A proved claim is looked for
    /// only where a heap is at or past the known length.
    pub fn position_value(&self, heaps: &[u64]) -> Result<u32, Unknown>
        ensures value { result ≡ position_value self.now.code (blocks_in self.now.blocks) (claims_in self.now.claims) heaps.now }
        ensures right { IfOk result (λ value. value ≡ nim_sum self.now.code heaps.now) }
    {
        if let Ok(value) = position_value_by(&self.ledger, &None, heaps) {
            return Ok(value);
        }
        position_value_by(&self.ledger, &self.proved_claim(), heaps)
    }

    /// Who wins a position in normal play: the player to move loses exactly where its nim-value is known and no move leads to
    /// a position in which the next player loses. Where the nim-value of some heap is not known, the first such heap is named.
    pub fn outcome(&self, heaps: &[u64]) -> Outcome
        ensures value { result ≡ outcome self.now.code (blocks_in self.now.blocks) (claims_in self.now.claims) heaps.now }
        ensures play { IsOutcomeOf self.now.code heaps.now (position_value self.now.code (blocks_in self.now.blocks) (claims_in self.now.claims) heaps.now) result }
    {
        outcome_of(self.position_value(heaps))
    }

    /// A move after which the next player loses: the first one, by the place of its heap, by the number of beans that it
    /// removes, and by the smaller heap that it leaves. None exactly where the nim-value of the position is 0, so that the
    /// player to move loses. Where the nim-value of some heap is not known, the first such heap is named. Under a proved claim
    /// no heap is split so that both parts lie past the first period, so heaps of any size are searched alike.
    pub fn winning_move(&self, heaps: &[u64]) -> Result<Option<Move>, Unknown>
        ensures value { result ≡ winning_move self.now.code (blocks_in self.now.blocks) (claims_in self.now.claims) heaps.now }
        ensures play { IfOk result (IsWinningAnswer self.now.code heaps.now) }
    {
        winning_move_by(&self.ledger, &self.proved_claim(), heaps)
    }

    /// The status of a block that is here under this dot: pending if it starts past the known length and no claim is proved,
    /// else proved, or refuted at its least wrong place. What is compared here is not counted by the ledger.
    pub fn block_status(&self, dot: &Dot, block: &Block<A>) -> Status
        requires { sets.contains self.now.blocks (dot.now, block.now) ≡ true }
        ensures { result ≡ block_status (blocks_in self.now.blocks) (claims_in self.now.claims) block.now }
    {
        self.block_status_by(self.proved_claim(), dot, block)
    }

    /// The status of a block that is here under this dot, where `claim` is the answer of `proved_claim`, so that it is looked
    /// for once for many blocks.
    pub fn block_status_by(&self, claim: Option<PeriodClaim>, dot: &Dot, block: &Block<A>) -> Status
        requires here { sets.contains self.now.blocks (dot.now, block.now) ≡ true }
        requires first { claim ≡ first_proved (blocks_in self.now.blocks) (sets.listed self.now.claims) }
        ensures { result ≡ block_status (blocks_in self.now.blocks) (claims_in self.now.claims) block.now }
    {
        if block.start() <= self.ledger.known() {
            return self.ledger.status(dot, block);
        }
        match claim {
            Some(claim) => verdict_by(&self.ledger, &claim.period, block),
            None => Status::Pending,
        }
    }
}
