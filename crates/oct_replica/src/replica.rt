//! A replica of a census.

ghost use Rattle.std.specs.Prelude.{◌≡◌, ◌↔◌, ◌+◌, ◌≤◌, ◌<◌, ◌^◌, ◌++◌, not, length, true, false, None, List, IsTrue, IsSome, IsNone, IfSome, IfOk, IfErr, OnOk, OnErr, IsErrOf};
ghost use Rattle.std.specs.Option.{is_some, option_copied, unwrap_or};
ghost use Rattle.oct_code.specs.declared.limits.TheConstants.{LIMIT};
ghost use Rattle.oct_mex.specs.NimValues.{position_value as nim_sum};
ghost use Rattle.oct_mex.specs.Periods.{IsPeriodicFrom};
ghost use Rattle.oct_ops.specs.Body.{Operation};
ghost use Rattle.oct_ops.specs.Operation.{dot_of, removing};
ghost use Rattle.oct_ops.specs.Operations.{empty, insert, contains, listed, set_of, union, IsRising, IsSubset};
ghost use Rattle.oct_ops.specs.Valid.{IsU32};
ghost use Rattle.oct_ops.specs.Views.{content};
ghost use Rattle.oct_join.specs.Order.{IsBetween};
ghost use Rattle.oct_delta.specs.Decoding.{format_at, read_delta};
ghost use Rattle.oct_delta.specs.Delta.{encoded, IsDeltaText};
ghost use Rattle.oct_delta.specs.State.{IsState};
ghost use Rattle.oct_delta.specs.Taken.{operations_of};
ghost use Rattle.oct_store.specs.Summary as summary;
ghost use Rattle.oct_notes.specs.Notes.{live_dots};
ghost use Rattle.oct_verify.specs.Filing.{blocks_in};
ghost use Rattle.oct_verify.specs.Known.{known, is_true};
ghost use Rattle.oct_period.specs.Claims.{claims_in, is_claimed};
ghost use Rattle.oct_period.specs.Found.{found_period, IsFoundPeriod};
ghost use Rattle.oct_period.specs.Moving.{winning_move, IsWinningAnswer};
ghost use Rattle.oct_period.specs.Outcomes.{outcome, IsOutcomeOf};
ghost use Rattle.oct_period.specs.Periods.{position_value};
ghost use Rattle.oct_pages.specs.Catalogue.{catalogue, has_page, page as page_text};
ghost use Rattle.oct_replica.specs.Beside.{content_in, game_in};
ghost use Rattle.oct_period.specs.Computing.{compute_fault, next_block as block_after};
ghost use Rattle.oct_replica.specs.Queries.{queried};
ghost use Rattle.oct_record.specs.Removals.{removal_fault, RefusesRemoval};
ghost use Rattle.oct_record.specs.Valid.{AreValid};
ghost use Rattle.oct_record.specs.States.{state_text, RefusesState};
ghost use Rattle.oct_record.specs.Taking.{count_new, issue_error, with_all, IsCutBy, LeavesAt};
ghost use Rattle.oct_record.specs.Taking.{has_number, next_op};

use crate::error::QueryError;
use crate::games::file;
use oct_code::Code;
use oct_delta::EncodeError;
use oct_join::Clock;
use oct_ops::{Block, Body, Dot, Op, OpList, Period, Removal};
use oct_pages::{write_catalogue_with, write_page_with};
use oct_period::{ComputeError, Game, Move, Outcome, Unknown, next_block};
use oct_record::taking::{issue, join, take, take_each, take_list};
use oct_record::{
    AuthorError, Holder, IssueError, LoadError, Record, RemovalError, TakeError, parse_state,
};
use oct_verify::Ledger;
use std::alloc::{AllocError, Allocator};
use std::collections::BTreeMap;
use std::marker::Model;
use std::rc::Rc;

/// A record, and what follows from it: each of its games, up to date, so that no answer has to read the whole set or to
/// compare a block again. In memory of `A`.
#[derive(Drop)]
pub struct Replica<A: Allocator + Copy> {
    said: Record<A>,
    games: BTreeMap<Code, Game<A>, A>,
}

impl<A: Allocator + Copy> Model for Replica<A> {
    ghost use Rattle.oct_record.specs.Content.{RecordContent, record_code};

    ghost Value = { RecordContent };

    ghost coded = { record_code };

    ghost use Rattle.oct_replica.specs.Kept.{content_of, IsReplica};

    ghost view = { content_of };

    ghost invariant = { IsReplica };
}

impl<A: Allocator + Copy> Replica<A> {
    /// The replica of this author without operations, which will grow in memory of `alloc`. The answer is `Zero` exactly
    /// where the author is 0. Takes no memory.
    pub fn new(alloc: A, author: u32) -> Result<Replica<A>, AuthorError>
        ensures ok { IfOk result (λ replica. replica ≡ record { author = author; ops = empty }) }
        ensures accepted { OnOk result (1 ≤ author) }
        ensures refused { OnErr result (author ≡ 0) }
    {
        let said = Record::new(alloc, author)?;
        Ok(Replica {
            said,
            games: BTreeMap::new(alloc),
        })
    }

    /// The author of what the replica issues, at least 1.
    pub fn author(&self) -> u32
        ensures value { result ≡ self.now.author }
        ensures valid { (1 ≤ self.now.author) × IsU32 self.now.author }
    {
        self.said.author()
    }

    /// How many operations there are.
    pub fn len(&self) -> usize
        ensures { result ≡ length (listed self.now.ops) }
    {
        self.said.len()
    }

    /// Whether there is no operation.
    pub fn is_empty(&self) -> bool
        ensures { IsTrue result ↔ (length (listed self.now.ops) ≡ 0) }
    {
        self.len() == 0
    }

    /// Takes in the operations that the bytes spell, and says how many of them are new. The answer is `Version` exactly
    /// where the first four bytes are no tag of a delta, and `Refused` exactly for any other bytes that are no delta; then
    /// nothing changes. Where memory is refused, the answer says how many operations, from the first on, are in, held
    /// before or not; no other was added, and one more was due.
    pub fn take(&mut self, bytes: &[u8]) -> Result<u32, TakeError>
        ensures ok { OnOk result (self.new ≡ with_all self.old (operations_of bytes.now)) }
        ensures new { IfOk result (λ new. new ≡ count_new self.old.ops (listed (operations_of bytes.now))) }
        ensures text { OnOk result (IsSome (read_delta bytes.now)) }
        ensures version { IsErrOf result TakeError.Version ↔ (format_at bytes.now ≡ None) }
        ensures refused { IsErrOf result TakeError.Refused ↔ (IsSome (format_at bytes.now) × ((ops : List Operation) → ¬ IsDeltaText bytes.now ops)) }
        ensures err { IfErr result (LeavesAt self.old self.new (listed (operations_of bytes.now))) }
    {
        take(self, bytes)
    }

    /// Takes in the operations of a list, and says how many of them are new. Where memory is refused, the answer says how
    /// many operations, from the first on, are in, held before or not; no other was added, and one more was due.
    pub fn take_list(&mut self, list: OpList<A>) -> Result<u32, TakeError>
        requires { length list < 2 ^ 32 }
        ensures ok { OnOk result (self.new ≡ with_all self.old (set_of list)) }
        ensures new { IfOk result (λ new. new ≡ count_new self.old.ops list) }
        ensures err { IfErr result (IsCutBy self.old self.new list) }
    {
        take_list(self, list)
    }

    /// Takes in the operations of another replica; the author stays. Memory can be refused only where the other has an operation
    /// that is not here. After a refusal the set is one between the old set and
    /// the union.
    pub fn join(&mut self, other: &Replica<A>) -> Result<(), AllocError>
        ensures ok { OnOk result (self.new.ops ≡ union self.old.ops other.now.ops) }
        ensures author { self.new.author ≡ self.old.author }
        ensures between { IsBetween IsSubset self.old.ops self.new.ops (union self.old.ops other.now.ops) }
        ensures absent { OnErr result (¬ IsSubset other.now.ops self.old.ops) }
    {
        join(self, &other.said)
    }

    /// Issues an operation of this body under the author's next number, the one after its greatest, and answers its dot.
    /// The first refusal is `LastNumber`, exactly where the greatest number is 4,294,967,295. After a refusal nothing
    /// changes, and the body comes back.
    pub fn issue(&mut self, body: Body<A>) -> Result<Dot, (IssueError, Body<A>)>
        ensures dot { IfOk result (λ dot. dot ≡ (next_op self.old.ops self.old.author (content body)).dot) }
        ensures ok { OnOk result (self.new ≡ record self.old { ops = insert self.old.ops (next_op self.old.ops self.old.author (content body)) }) }
        ensures room { OnOk result (has_number self.old.ops self.old.author ≡ true) }
        ensures error { IfErr result (λ refused. refused.0 ≡ issue_error (has_number self.old.ops self.old.author)) }
        ensures err { OnErr result (self.new ≡ self.old) }
        ensures returned { IfErr result (λ refused. content refused.1 ≡ content body) }
    {
        issue(self, body)
    }

    /// For each author the number through which all of its operations are here, from the first on. This is one pass over
    /// the set.
    pub fn clock(&self) -> Result<Clock<A>, AllocError>
        ensures ok { IfOk result (λ clock. clock ≡ summary.clock_of (listed self.now.ops)) }
        ensures valid { AreValid self.now.ops }
    {
        self.said.clock()
    }

    /// Copies of the operations that the clock does not cover, in order. This is one pass over the set.
    pub fn beyond(&self, clock: &Clock<A>) -> Result<OpList<A>, AllocError>
        ensures { IfOk result (λ list. list ≡ listed (summary.beyond self.now.ops clock.now)) }
    {
        self.said.beyond(clock)
    }

    /// Appends the delta of the operations that the clock does not cover. `TooMany` says that there are more than
    /// 4,294,967,295 of them. After a refusal `out` is as it was.
    pub fn delta(&self, clock: &Clock<A>, out: &mut Vec<u8, A>) -> Result<(), EncodeError>
        ensures ok { OnOk result (out.new.items ≡ out.old.items ++ encoded (listed (summary.beyond self.now.ops clock.now))) }
        ensures few { OnOk result (length (listed (summary.beyond self.now.ops clock.now)) < 2 ^ 32) }
        ensures too_many { IsErrOf result EncodeError.TooMany → 2 ^ 32 ≤ length (listed (summary.beyond self.now.ops clock.now)) }
        ensures err { OnErr result (out.new.items ≡ out.old.items) }
    {
        self.said.delta(clock, out)
    }

    /// The game as the replica keeps it, with exactly its blocks and claims here; none where there is no block and no claim
    /// of it. Takes no memory.
    pub fn game(&self, code: Code) -> Option<&Game<A>>
        ensures { option_copied result ≡ game_in self.now.ops code }
    {
        self.games.get(&code)
    }

    /// The known length of a game, 1 to `LIMIT`: the nim-values of the heaps below it are known. Takes no memory.
    pub fn known(&self, code: Code) -> u32
        ensures value { result ≡ known (blocks_in (content_in self.now.ops code).blocks) }
        ensures within { result ≤ LIMIT }
    {
        match self.game(code) {
            Some(game) => game.ledger().known(),
            None => {
                let ledger = Ledger::new(self.said.allocator(), code);
                ledger.known()
            }
        }
    }

    /// The claim of the least period that the known nim-values of a game prove, from the least start on, whether or not it
    /// is here; none where they prove no claim. It holds for every heap. Takes no memory.
    pub fn find_period(&self, code: Code) -> Option<Period>
        ensures value { result ≡ found_period code (blocks_in (content_in self.now.ops code).blocks) }
        ensures found { IsFoundPeriod code (blocks_in (content_in self.now.ops code).blocks) result }
        ensures holds { IfSome result (λ found. IsPeriodicFrom code found.start found.period) }
    {
        match self.game(code) {
            Some(game) => game.find_period(),
            None => {
                let game = Game::new(self.said.allocator(), code);
                game.find_period()
            }
        }
    }

    /// Whether some operation here is this claim, of whichever author. Takes no memory.
    pub fn claims_period(&self, period: &Period) -> bool
        ensures { result ≡ is_claimed (claims_in (content_in self.now.ops period.now.code).claims) period.now }
    {
        match self.game(period.code()) {
            Some(game) => game.claims_period(period),
            None => false,
        }
    }

    /// The exclusive or of the nim-values of a position's heaps. The one refusal is `Unknown`, with the first heap whose nim-value
    /// is not known. Takes no memory.
    pub fn value(&self, code: Code, heaps: &[u64]) -> Result<u32, QueryError>
        ensures value { result ≡ queried (position_value code (blocks_in (content_in self.now.ops code).blocks) (claims_in (content_in self.now.ops code).claims) heaps.now) }
        ensures right { IfOk result (λ value. value ≡ nim_sum code heaps.now) }
    {
        match self.position_value(code, heaps) {
            Ok(value) => Ok(value),
            Err(Unknown { index }) => Err(QueryError::Unknown { index }),
        }
    }

    /// Who wins a position in normal play, where the nim-value of each heap is known; else the first heap is named whose
    /// nim-value is not known. Takes no memory.
    pub fn outcome(&self, code: Code, heaps: &[u64]) -> Outcome
        ensures value { result ≡ outcome code (blocks_in (content_in self.now.ops code).blocks) (claims_in (content_in self.now.ops code).claims) heaps.now }
        ensures play { IsOutcomeOf code heaps.now (position_value code (blocks_in (content_in self.now.ops code).blocks) (claims_in (content_in self.now.ops code).claims) heaps.now) result }
    {
        match self.game(code) {
            Some(game) => game.outcome(heaps),
            None => {
                let game = Game::new(self.said.allocator(), code);
                game.outcome(heaps)
            }
        }
    }

    /// A move after which the next player loses, in normal play: the first one, by the place of its heap, by the number of
    /// beans that it removes, and by the smaller heap that it leaves. None exactly where the nim-value of the position is 0,
    /// so that the player to move loses. Where the nim-value of some heap is not known, the first such heap is named. Takes
    /// no memory.
    pub fn winning_move(&self, code: Code, heaps: &[u64]) -> Result<Option<Move>, Unknown>
        ensures value { result ≡ winning_move code (blocks_in (content_in self.now.ops code).blocks) (claims_in (content_in self.now.ops code).claims) heaps.now }
        ensures play { IfOk result (IsWinningAnswer code heaps.now) }
    {
        match self.game(code) {
            Some(game) => game.winning_move(heaps),
            None => {
                let game = Game::new(self.said.allocator(), code);
                game.winning_move(heaps)
            }
        }
    }

    /// The block of the next nim-values of a game: from the known length on, `count` of them or as many as the limit leaves.
    /// It is true, and where nothing is held of the game it starts at 1. The replica does not change. The first refusal is
    /// `Zero`, exactly where `count` is 0; then `TooMany`, exactly where it is over 1,024; then `AtLimit`, exactly where the
    /// known length is `LIMIT`.
    pub fn compute(&self, code: Code, count: u32) -> Result<Block<A>, ComputeError>
        ensures ok { IfOk result (λ block. block ≡ block_after code (blocks_in (content_in self.now.ops code).blocks) count) }
        ensures right { IfOk result (λ block. is_true block ≡ true) }
        ensures accepted { OnOk result (compute_fault (known (blocks_in (content_in self.now.ops code).blocks)) count ≡ None) }
        ensures error { IfErr result (λ error. error ≡ unwrap_or (compute_fault (known (blocks_in (content_in self.now.ops code).blocks)) count) ComputeError.OutOfMemory) }
    {
        match self.game(code) {
            Some(game) => next_block(game.ledger(), count),
            None => {
                let ledger = Ledger::new(self.said.allocator(), code);
                next_block(&ledger, count)
            }
        }
    }

    /// The removal of the live notes of a name: it names the dot of each, rising and once. The replica does not change. The
    /// first refusal is `NoNote`, where no live note has the name; then `TooMany`, where there are more than 1,024 dots.
    /// Memory may be refused before the dots are counted.
    pub fn removal(&self, name: &[u8]) -> Result<Removal<A>, RemovalError>
        ensures ok { IfOk result (λ removal. removal ≡ removing (live_dots (listed self.now.ops) name.now)) }
        ensures accepted { OnOk result (removal_fault (live_dots (listed self.now.ops) name.now) ≡ None) }
        ensures error { IfErr result (RefusesRemoval (live_dots (listed self.now.ops) name.now)) }
    {
        self.said.removal(name)
    }

    /// Appends the catalogue of the operations to `out`. Where memory is refused, `out` stays as it is.
    pub fn catalogue(&self, out: &mut Vec<u8, A>) -> Result<(), AllocError>
        ensures ok { OnOk result (out.new.items ≡ out.old.items ++ catalogue (listed self.now.ops)) }
        ensures err { OnErr result (out.new.items ≡ out.old.items) }
    {
        write_catalogue_with(&self.said, &self.games, out)
    }

    /// Appends one page of that catalogue, its lines from `64 * number` on, at most 64 of them, and says whether there is
    /// such a page. Without one, and where memory is refused, `out` stays as it is.
    pub fn page(&self, number: u32, out: &mut Vec<u8, A>) -> Result<bool, AllocError>
        ensures found { IfOk result (λ found. found ≡ has_page (listed self.now.ops) number) }
        ensures ok { OnOk result (out.new.items ≡ out.old.items ++ page_text (listed self.now.ops) number) }
        ensures none { IfOk result (λ found. found ≡ false → out.new.items ≡ out.old.items) }
        ensures err { OnErr result (out.new.items ≡ out.old.items) }
    {
        write_page_with(&self.said, &self.games, number, out)
    }

    /// Appends the text of the replica to `out`: `OGS1`, the author, and the delta of all operations. The answer is
    /// `TooMany` exactly where there are more than 4,294,967,295 of them. After a refusal `out` is as it was.
    pub fn save(&self, out: &mut Vec<u8, A>) -> Result<(), EncodeError>
        ensures ok { OnOk result (out.new.items ≡ out.old.items ++ state_text self.now.author (listed self.now.ops)) }
        ensures too_many { IsErrOf result EncodeError.TooMany ↔ (2 ^ 32 ≤ length (listed self.now.ops)) }
        ensures err { OnErr result (out.new.items ≡ out.old.items) }
    {
        self.said.save(out)
    }

    /// The replica whose text the bytes are. The answer is `Version` exactly where the first four bytes are not `OGS1` or
    /// are missing, and `Refused` exactly for any other bytes that are no text of a replica.
    pub fn load(alloc: A, bytes: &[u8]) -> Result<Replica<A>, LoadError>
        ensures ok { IfOk result (λ replica. IsState bytes.now replica.author replica.ops) }
        ensures err { IfErr result (RefusesState bytes.now) }
    {
        let (author, ops) = parse_state(bytes)?;
        let Ok(mut replica) = Replica::new(alloc, author) else {
            unreachable!();
        };
        match take_each(&mut replica, ops) {
            Ok(_) => Ok(replica),
            Err(_) => Err(LoadError::OutOfMemory),
        }
    }

    /// What was said, without what follows from it. Takes no memory.
    pub fn into_record(self) -> Record<A>
        ensures { result ≡ self }
    {
        let Replica { said, .. } = self;
        said
    }

    // The exclusive or of the nim-values of a position's heaps, or the first heap whose nim-value is not known.
    fn position_value(&self, code: Code, heaps: &[u64]) -> Result<u32, Unknown>
        ensures value { result ≡ position_value code (blocks_in (content_in self.now.ops code).blocks) (claims_in (content_in self.now.ops code).claims) heaps.now }
        ensures right { IfOk result (λ value. value ≡ nim_sum code heaps.now) }
    {
        match self.game(code) {
            Some(game) => game.position_value(heaps),
            None => {
                let game = Game::new(self.said.allocator(), code);
                game.position_value(heaps)
            }
        }
    }

    // Puts in an operation that others hold too, and says whether it is new. The record and the operation's game share it. Memory
    // can be refused only where it is new; then nothing changes.
    fn put(&mut self, op: &Rc<Op<A>, A>) -> Result<bool, AllocError>
        ensures added { IfOk result (λ added. added ≡ not (contains self.old.ops op.now.value)) }
        ensures ok { OnOk result (self.new ≡ record self.old { ops = insert self.old.ops op.now.value }) }
        ensures err { OnErr result (self.new ≡ self.old) }
        ensures absent { OnErr result (contains self.old.ops op.now.value ≡ false) }
    {
        if !self.said.share(op)? {
            return Ok(false);
        }
        if let Err(refused) = file(&mut self.games, self.said.allocator(), op) {
            self.said.remove(op.as_ref());
            return Err(refused);
        }
        Ok(true)
    }
}

impl<A: Allocator + Copy> Holder<A> for Replica<A> {
    ghost content = { λ replica. replica };

    fn said(&self) -> &Record<A>
        ensures { result.now ≡ self.now }
    {
        &self.said
    }

    fn share(&mut self, op: &Rc<Op<A>, A>) -> Result<bool, AllocError> {
        self.put(op)
    }
}
