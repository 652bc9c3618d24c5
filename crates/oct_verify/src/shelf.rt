//! The blocks of a ledger in the order of their first places, with their statuses.

ghost use Rattle.std.specs.Prelude.{◌≡◌, ◌+◌, ◌<◌, ◌≤◌, ◌^◌, true, false, Some, [], length, OnOk, OnErr, IfOk, IfErr, MatchResult, MatchOption};
ghost use Rattle.std.specs.Option.{IsSome};
ghost use Rattle.oct_ops.specs.Games.{game_of};
ghost use Rattle.oct_ops.specs.Sets as sets;
ghost use Rattle.chunked.specs.Chunked.{chunked, index_of, IsInside, IsNear};
ghost use Rattle.oct_verify.specs.Filed.{filing_in};
ghost use Rattle.oct_verify.specs.Filing.{block_of};
ghost use Rattle.oct_verify.specs.Kept.{filing_of, grown, IsGap, IsPlaceOf};
ghost use Rattle.oct_verify.specs.declared.status.Status.TheVariants.{Pending};
ghost use Rattle.oct_verify.specs.Shelf.{shelved, IsHalfway, IsKept, IsNextReached, HasRoomFor};

use crate::comparer::Comparer;
use crate::entry::{Entry, IsSettled, Judged, Sought, block_within, into_block};
use crate::status::Status;
use chunked::{Chunks, Place};
use oct_code::Code;
use oct_ops::{Block, Body, Dot, Op};
use std::alloc::{AllocError, Allocator};
use std::rc::Rc;

/// The entries rise. As many as were compared are settled, and the others wait.
#[derive(Drop)]
pub(crate) struct Shelf<A: Allocator + Copy> {
    pub(crate) comparer: Comparer<A>,
    pub(crate) entries: Chunks<Entry<A>, A>,
    pub(crate) known: u32,
    pub(crate) alloc: A,
}

// The known length after a block that starts at or below it was judged.
fn grown(known: u32, status: Status, end: u32) -> u32
    ensures { result ≡ grown status known end }
{
    match status {
        Status::Proved => known.max(end),
        Status::Refuted { .. } | Status::Pending => known,
    }
}

impl<A: Allocator + Copy> Shelf<A> {
    /// No block. Takes no memory.
    pub(crate) fn new(alloc: A, code: Code) -> Shelf<A>
        ensures code { result.comparer.values.code ≡ code }
        ensures kept { IsKept result }
        ensures empty { chunked result.entries ≡ [] }
    {
        Shelf {
            comparer: Comparer::new(alloc, code),
            entries: Chunks::new(alloc),
            known: 1,
            alloc,
        }
    }

    /// Where the entry of this block is, or where it would go.
    pub(crate) fn place(&self, dot: &Dot, block: &Block<A>) -> Result<Place, Place>
        requires { IsHalfway self.now }
        ensures { MatchResult result
            (λ p. IsInside self.now.entries p × IsPlaceOf (chunked self.now.entries) (dot.now, block.now) (index_of self.now.entries p))
            (λ p. IsNear self.now.entries p × IsGap (chunked self.now.entries) (dot.now, block.now) (index_of self.now.entries p)) }
    {
        self.entries.search(&Sought { dot, block })
    }

    // The first entry that waits, if it starts at or below the known length.
    fn next_reached(&self) -> Option<Place>
        requires { IsHalfway self.now }
        ensures { MatchOption result (IsKept self.now) (IsNextReached self.now) }
    {
        let place = self.entries.get(self.entries.partition_point(&IsSettled))?;
        if self.entries.item_at(place).block().start() <= self.known {
            Some(place)
        } else {
            None
        }
    }

    // Settles the first entry that waits.
    fn settle(&mut self, place: Place)
        requires halfway { IsHalfway self.old }
        requires reached { IsNextReached self.old place }
        ensures halfway { IsHalfway self.new }
        ensures code { self.new.comparer.values.code ≡ self.old.comparer.values.code }
        ensures filings { shelved self.new ≡ shelved self.old }
        ensures settled { self.new.comparer.checks ≡ self.old.comparer.checks + 1 }
        ensures len { length (chunked self.new.entries) ≡ length (chunked self.old.entries) }
    {
        let block = self.entries.item_at(place).block();
        let status = self.comparer.compare(block);
        self.known = grown(self.known, status, block.end());
        self.entries.change_at(place, &Judged { status });
    }

    // Settles entries until none that waits starts at or below the known length.
    fn settle_waiting(&mut self)
        requires { IsHalfway self.old }
        ensures kept { IsKept self.new }
        ensures code { self.new.comparer.values.code ≡ self.old.comparer.values.code }
        ensures filings { shelved self.new ≡ shelved self.old }
    {
        while let Some(place) = self.next_reached() {
            self.settle(place);
        }
    }

    // The place for a block that is not here yet, with room for it and its values.
    fn make_room(&mut self, dot: &Dot, block: &Block<A>) -> Result<Option<Place>, AllocError>
        requires kept { IsKept self.old }
        requires game { block.now.code ≡ self.old.comparer.values.code }
        ensures kept { IsKept self.new }
        ensures code { self.new.comparer.values.code ≡ self.old.comparer.values.code }
        ensures filings { shelved self.new ≡ shelved self.old }
        ensures ok { IfOk result (λ found. MatchOption found (sets.contains (shelved self.new) (dot.now, block.now) ≡ true) (HasRoomFor self.new (dot.now, block.now))) }
        ensures absent { OnErr result (sets.contains (shelved self.old) (dot.now, block.now) ≡ false) }
    {
        let Err(place) = self.place(dot, block) else {
            return Ok(None);
        };
        self.comparer.values.room_to(block.end() as usize)?;
        Ok(Some(self.entries.room_at(place)?))
    }

    // Judges a block that starts at or below the known length, and puts it in.
    fn insert_reached(&mut self, place: Place, mut entry: Entry<A>)
        requires kept { IsKept self.old }
        requires reached { entry.block.start ≤ self.old.known }
        requires room { HasRoomFor self.old (filing_of entry) place }
        ensures halfway { IsHalfway self.new }
        ensures code { self.new.comparer.values.code ≡ self.old.comparer.values.code }
        ensures filings { shelved self.new ≡ sets.insert (shelved self.old) (filing_of entry) }
    {
        let block = entry.block();
        let status = self.comparer.compare(block);
        self.known = grown(self.known, status, block.end());
        entry.set_status(status);
        self.entries.insert(place, entry);
    }

    // Puts in a block that starts beyond the known length.
    fn insert_parked(&mut self, place: Place, entry: Entry<A>)
        requires kept { IsKept self.old }
        requires beyond { self.old.known < entry.block.start }
        requires pending { entry.status ≡ Pending }
        requires room { HasRoomFor self.old (filing_of entry) place }
        ensures halfway { IsHalfway self.new }
        ensures code { self.new.comparer.values.code ≡ self.old.comparer.values.code }
        ensures filings { shelved self.new ≡ sets.insert (shelved self.old) (filing_of entry) }
    {
        self.entries.insert(place, entry);
    }

    // Puts a block in at a place with room, and settles those that waited.
    fn insert_at(&mut self, place: Place, entry: Entry<A>)
        requires kept { IsKept self.old }
        requires pending { entry.status ≡ Pending }
        requires room { HasRoomFor self.old (filing_of entry) place }
        ensures kept { IsKept self.new }
        ensures code { self.new.comparer.values.code ≡ self.old.comparer.values.code }
        ensures filings { shelved self.new ≡ sets.insert (shelved self.old) (filing_of entry) }
    {
        if entry.block().start() <= self.known {
            self.insert_reached(place, entry);
        } else {
            self.insert_parked(place, entry);
        }
        self.settle_waiting();
    }

    /// Puts a block in. A refusal hands it back, which is not there, and leaves what is there as it was.
    pub(crate) fn insert(&mut self, dot: Dot, block: Block<A>) -> Result<(), (AllocError, Block<A>)>
        requires kept { IsKept self.old }
        requires game { block.code ≡ self.old.comparer.values.code }
        ensures kept { IsKept self.new }
        ensures code { self.new.comparer.values.code ≡ self.old.comparer.values.code }
        ensures ok { OnOk result (shelved self.new ≡ sets.insert (shelved self.old) (dot, block)) }
        ensures err { OnErr result (shelved self.new ≡ shelved self.old) }
        ensures absent { OnErr result (sets.contains (shelved self.old) (dot, block) ≡ false) }
        ensures returned { IfErr result (λ refusal. refusal.1 ≡ block) }
    {
        let place = match self.make_room(&dot, &block) {
            Err(refusal) => return Err((refusal, block)),
            Ok(None) => return Ok(()),
            Ok(Some(place)) => place,
        };
        match Rc::new(self.alloc, Op::new(dot, Body::Block(block))) {
            Ok(op) => self.insert_at(place, Entry::new(op)),
            Err(refused) => return Err((AllocError, into_block(refused.value))),
        }
        Ok(())
    }

    /// Puts in the block of an operation, which is shared. Where memory is refused, the block is not there, and what is there
    /// stays as it was.
    pub(crate) fn share(&mut self, op: &Rc<Op<A>, A>) -> Result<(), AllocError>
        requires kept { IsKept self.old }
        requires block { IsSome (block_of op.now.value.body) }
        requires game { game_of op.now.value ≡ Some self.old.comparer.values.code }
        ensures kept { IsKept self.new }
        ensures code { self.new.comparer.values.code ≡ self.old.comparer.values.code }
        ensures ok { OnOk result (shelved self.new ≡ sets.insert (shelved self.old) (filing_in op.now.value)) }
        ensures err { OnErr result (shelved self.new ≡ shelved self.old) }
        ensures absent { OnErr result (sets.contains (shelved self.old) (filing_in op.now.value) ≡ false) }
    {
        let Some(place) = self.make_room(&op.dot(), block_within(op))? else {
            return Ok(());
        };
        self.insert_at(place, Entry::new(op.clone()?));
        Ok(())
    }
}
