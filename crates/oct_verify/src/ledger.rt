//! The ledger of a game.

ghost use Rattle.std.specs.Prelude.{◌≡◌, ◌+◌, ◌<◌, ◌≤◌, ◌⊎◌, true, false, Some, None, nat_le, nat_lt, if◌then◌else◌, count_by, length, OnOk, OnErr, IfOk, IfErr};
ghost use Rattle.std.specs.Option.{IsSome};
ghost use Rattle.oct_mex.specs.Following.{IsKept};
ghost use Rattle.oct_mex.specs.NimValues.{nim_value, nim_values};
ghost use Rattle.oct_ops.specs.Games.{game_of};
ghost use Rattle.oct_ops.specs.Sets as sets;
ghost use Rattle.oct_verify.specs.Filing.{AreBlocksOf, Filing, block_of, blocks_in, has_block_of, with_block_of};
ghost use Rattle.oct_verify.specs.Known.{known, status, IsKnownLength};
ghost use Rattle.oct_verify.specs.Next.{next_values};

use crate::shelf::Shelf;
use crate::status::Status;
use oct_code::{Code, LIMIT};
use oct_mex::Leaders;
use oct_ops::{Block, Dot, Op};
use std::alloc::{AllocError, Allocator};
use std::marker::Model;
use std::rc::Rc;

// Fewer values are computed sooner than those of many other games are looked at.
const FEWEST: usize = 1_024;

/// A finite set of blocks of one game, each under its dot, with what is known from them. Only `add` and `share`
/// ask for memory to keep.
#[derive(Drop)]
pub struct Ledger<A: Allocator + Copy> {
    shelf: Shelf<A>,
}

impl<A: Allocator + Copy> Model for Ledger<A> {
    ghost use Rattle.oct_verify.specs.Filing.{GameBlocks, game_blocks_code};
    ghost use Rattle.oct_verify.specs.Shelf.{shelved, IsKept};

    ghost Value = { GameBlocks };

    ghost coded = { game_blocks_code };

    ghost view = { λ a. record { code = a.shelf.comparer.values.code; blocks = shelved a.shelf } };

    ghost invariant = { λ a. IsKept a.shelf };
}

impl<A: Allocator + Copy> Ledger<A> {
    /// The ledger of a game without blocks. Takes no memory.
    pub fn new(alloc: A, code: Code) -> Ledger<A>
        ensures { result ≡ record { code = code; blocks = sets.empty } }
    {
        Ledger {
            shelf: Shelf::new(alloc, code),
        }
    }

    /// The code of the game, which each block here has.
    pub fn code(&self) -> Code
        ensures value { result ≡ self.now.code }
        ensures game { AreBlocksOf self.now.code (sets.listed self.now.blocks) }
    {
        self.shelf.comparer.values.code()
    }

    /// Puts in a block of the game under its dot, and settles blocks that waited until none of them starts at or below the known
    /// length. A pair that is there changes nothing, and asks for no memory. All memory is asked for first: where it is
    /// refused, nothing changes, and the block is handed back.
    pub fn add(&mut self, dot: Dot, block: Block<A>) -> Result<(), (AllocError, Block<A>)>
        requires { block.code ≡ self.old.code }
        ensures ok { OnOk result (self.new ≡ record self.old { blocks = sets.insert self.old.blocks (dot, block) }) }
        ensures err { OnErr result (self.new ≡ self.old) }
        ensures absent { OnErr result (sets.contains self.old.blocks (dot, block) ≡ false) }
        ensures returned { IfErr result (λ refused. refused.1 ≡ block) }
    {
        self.shelf.insert(dot, block)
    }

    /// Puts in the block of an operation of the game, which is shared, as `add` does. One that is there changes nothing, and
    /// asks for no memory. Where memory is refused, nothing changes.
    pub fn share(&mut self, op: &Rc<Op<A>, A>) -> Result<(), AllocError>
        requires block { IsSome (block_of op.now.value.body) }
        requires game { game_of op.now.value ≡ Some self.old.code }
        ensures ok { OnOk result (self.new ≡ with_block_of self.old op.now.value) }
        ensures err { OnErr result (self.new ≡ self.old) }
        ensures absent { OnErr result (has_block_of self.old op.now.value ≡ false) }
    {
        self.shelf.share(op)
    }

    /// The known length: the greatest number, from 1 on, such that each heap from 1 on below it lies in some true block.
    pub fn known(&self) -> u32
        ensures value { result ≡ known (blocks_in self.now.blocks) }
        ensures greatest { IsKnownLength (blocks_in self.now.blocks) result }
        ensures within { result ≤ LIMIT }
    {
        self.shelf.known
    }

    /// The status of a block that is here under this dot. It is looked up, and nothing is compared.
    pub fn status(&self, dot: &Dot, block: &Block<A>) -> Status
        requires { sets.contains self.now.blocks (dot.now, block.now) ≡ true }
        ensures { result ≡ status (blocks_in self.now.blocks) block.now }
    {
        match self.shelf.place(dot, block) {
            Ok(place) => self.shelf.entries.item_at(place).status(),
            Err(_) => unreachable!(),
        }
    }

    /// How many times a block was compared with the nim-values: once for each pair whose block starts at or below the
    /// known length.
    pub fn checks(&self) -> u64
        ensures { result ≡ count_by (λ (f : Filing). nat_le f.1.start (known (blocks_in self.now.blocks))) (sets.listed self.now.blocks) }
    {
        self.shelf.comparer.checks
    }

    /// The nim-values of the heaps below the known length.
    pub fn known_values(&self) -> &[u32]
        ensures values { result.now ≡ nim_values self.now.code (known (blocks_in self.now.blocks)) }
        ensures len { length result.now ≡ known (blocks_in self.now.blocks) }
        ensures within { length result.now ≤ LIMIT }
    {
        let known = self.shelf.known as usize;
        let held = self.shelf.comparer.values.as_slice();
        if held.len() < known {
            &[0]
        } else {
            &held[..known]
        }
    }

    /// The nim-value of a heap below the known length.
    pub fn value(&self, heap: u32) -> Option<u32>
        ensures { result ≡ (if nat_lt heap (known (blocks_in self.now.blocks)) then Some (nim_value self.now.code heap) else None) }
    {
        self.known_values().get(heap as usize).copied()
    }

    /// The nim-values of the next `count` heaps, from the known length on, at most up to the limit. They are computed beside
    /// the ledger, and make nothing known.
    pub fn next_values(&self, count: u32) -> Result<Vec<u32, A>, AllocError>
        requires { known (blocks_in self.now.blocks) + count ≤ LIMIT }
        ensures values { IfOk result (λ next. next.items ≡ next_values self.now.code (blocks_in self.now.blocks) count) }
        ensures len { IfOk result (λ next. length next.items ≡ count) }
    {
        let start = self.known() as usize;
        let end = start + count as usize;
        let alloc = self.shelf.alloc;
        let mut values = self.shelf.comparer.values.copy(alloc)?;
        values.extend_to(end)?;
        Vec::from_slice(alloc, &values.as_slice()[start..end])
    }

    /// The same values. What was computed is kept, so that a block of them is compared without computing them again; it makes
    /// nothing known.
    pub fn compute_next(&mut self, count: u32) -> Result<Vec<u32, A>, AllocError>
        requires { known (blocks_in self.old.blocks) + count ≤ LIMIT }
        ensures values { IfOk result (λ next. next.items ≡ next_values self.old.code (blocks_in self.old.blocks) count) }
        ensures len { IfOk result (λ next. length next.items ≡ count) }
        ensures same { self.new ≡ self.old }
    {
        let start = self.known() as usize;
        let end = start + count as usize;
        self.shelf.comparer.values.extend_to(end)?;
        Vec::from_slice(
            self.shelf.alloc,
            &self.shelf.comparer.values.as_slice()[start..end],
        )
    }

    /// Keeps the nim-values that are computed here, known or not, among those that other games may take over. Fewer than 1,024
    /// are not kept, nor where memory is refused.
    pub fn lead(&self, leaders: &mut Leaders<A>)
        ensures { (leaders.new ≡ leaders.old) ⊎ IsKept self.now.code leaders.old leaders.new }
    {
        let values = &self.shelf.comparer.values;
        if FEWEST <= values.as_slice().len() {
            leaders.keep(self.shelf.alloc, values);
        }
    }

    /// Takes over the nim-values of other games, as long as they are those of this one, at most below the heap `count`, so that
    /// a block of them is compared without computing them. It makes nothing known. Where `count` is below 1,024 nothing is done.
    /// The one error is that memory is refused.
    pub fn follow(&mut self, leaders: &Leaders<A>, count: u32) -> Result<(), AllocError>
        requires { count ≤ LIMIT }
        ensures { self.new ≡ self.old }
    {
        let count = count as usize;
        if FEWEST <= count {
            self.shelf.comparer.values.room_to(count)?;
            self.shelf.comparer.values.follow(leaders, count);
        }
        Ok(())
    }
}
