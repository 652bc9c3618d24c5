//! A record of what was said.

ghost use Rattle.std.specs.Prelude.{◌≡◌, ◌≢◌, ◌↔◌, ◌+◌, ◌≤◌, ◌<◌, ◌^◌, ◌++◌, not, length, true, false, None, List, IsTrue, IsSome, IfSome, IfOk, IfErr, OnOk, OnErr, IsErrOf};
ghost use Rattle.std.specs.BTreeMap as tree;
ghost use Rattle.std.specs.Option.{is_some, option_copied, option_map, unwrap_or};
ghost use Rattle.oct_code.specs.Code as octal;
ghost use Rattle.oct_ops.specs.Body.{Operation};
ghost use Rattle.oct_ops.specs.Operation.{dot_of, removing};
ghost use Rattle.oct_ops.specs.Operations.{empty, insert, remove, contains, listed, set_of, union, IsSubset};
ghost use Rattle.oct_ops.specs.Valid.{IsU32};
ghost use Rattle.oct_ops.specs.Views.{content};
ghost use Rattle.oct_join.specs.Order.{IsBetween};
ghost use Rattle.oct_delta.specs.Decoding.{format_at, read_delta};
ghost use Rattle.oct_delta.specs.Delta.{encoded, IsDeltaText};
ghost use Rattle.oct_delta.specs.State.{IsState};
ghost use Rattle.oct_delta.specs.Taken.{operations_of};
ghost use Rattle.oct_store.specs.Summary as summary;
ghost use Rattle.oct_notes.specs.Notes.{live_dots, notes_of};
ghost use Rattle.oct_record.specs.Content.{RecordContent};
ghost use Rattle.oct_record.specs.Index.{index_of};
ghost use Rattle.oct_record.specs.Numbers.{foreign_of, holds_any};
ghost use Rattle.oct_record.specs.Removals.{removal_fault, RefusesRemoval};
ghost use Rattle.oct_record.specs.States.{state_text, RefusesState};
ghost use Rattle.oct_record.specs.Taking.{count_new, has_number, issue_error, next_op, with_all, IsCutBy, LeavesAt};
ghost use Rattle.oct_record.specs.Valid.{AreValid};

use crate::error::{AuthorError, IssueError, LoadError, RemovalError, RenumberError, TakeError};
use crate::holder::Holder;
use crate::index::{file, unfile};
use crate::state::{parse_state, put_state};
use crate::taking::{issue, join, take, take_each, take_list};
use crate::valid::are_valid;
use oct_code::Code;
use oct_delta::{EncodeError, encode};
use oct_join::{Clock, OpSet};
use oct_notes::Notes;
use oct_ops::{Body, Dot, Op, OpList, Removal};
use oct_store::Store;
use std::alloc::{AllocError, Allocator};
use std::collections::BTreeMap;
use std::marker::Model;
use std::mem;
use std::rc::Rc;

/// An author and a set of operations, in memory of `A`. Beside the set it keeps which operations are of each game, and the
/// notes, so that neither is looked for among the others. It computes no nim-value.
#[derive(Drop)]
pub struct Record<A: Allocator + Copy> {
    author: u32,
    store: Store<A>,
    games: BTreeMap<Code, OpSet<A>, A>,
    notes: Notes<A>,
    alloc: A,
}

impl<A: Allocator + Copy> Model for Record<A> {
    ghost use Rattle.oct_record.specs.Content.{RecordContent, record_code};

    ghost Value = { RecordContent };

    ghost coded = { record_code };

    ghost use Rattle.oct_record.specs.Kept.{content_of, IsRecord};

    ghost view = { content_of };

    ghost invariant = { IsRecord };
}

impl<A: Allocator + Copy> Record<A> {
    /// The record of this author without operations, which will grow in memory of `alloc`. The answer is `Zero` exactly
    /// where the author is 0. Takes no memory.
    pub fn new(alloc: A, author: u32) -> Result<Record<A>, AuthorError>
        ensures ok { IfOk result (λ said. said ≡ record { author = author; ops = empty }) }
        ensures accepted { OnOk result (1 ≤ author) }
        ensures refused { OnErr result (author ≡ 0) }
    {
        if author == 0 {
            return Err(AuthorError::Zero);
        }
        Ok(Record {
            author,
            store: Store::new(alloc),
            games: BTreeMap::new(alloc),
            notes: Notes::new(alloc),
            alloc,
        })
    }

    /// The author of what is issued here, at least 1.
    pub fn author(&self) -> u32
        ensures value { result ≡ self.now.author }
        ensures valid { (1 ≤ self.now.author) × IsU32 self.now.author }
    {
        self.author
    }

    /// Goes on under another author, and answers the old one: the operations stay, and what is issued from now on is by the new
    /// one. The first refusal is `Zero`, exactly where the author is 0; then `Held`, exactly where an operation by the author is
    /// here. After a refusal nothing changes. Takes no memory.
    pub fn renumber(&mut self, author: u32) -> Result<u32, RenumberError>
        ensures ok { OnOk result (self.new ≡ record self.old { author = author }) }
        ensures was { IfOk result (λ was. was ≡ self.old.author) }
        ensures zero { IsErrOf result RenumberError.Zero ↔ (author ≡ 0) }
        ensures held { IsErrOf result RenumberError.Held ↔ ((author ≢ 0) × (holds_any self.old.ops author ≡ true)) }
        ensures err { OnErr result (self.new ≡ self.old) }
    {
        match author {
            0 => Err(RenumberError::Zero),
            _ if self.store.last(author) != 0 => Err(RenumberError::Held),
            _ => Ok(mem::replace(&mut self.author, author)),
        }
    }

    /// The memory that it grows in.
    pub fn allocator(&self) -> A {
        self.alloc
    }

    /// How many operations there are.
    pub fn len(&self) -> usize
        ensures { result ≡ length (listed self.now.ops) }
    {
        self.store.len()
    }

    /// Whether there is no operation.
    pub fn is_empty(&self) -> bool
        ensures { IsTrue result ↔ (length (listed self.now.ops) ≡ 0) }
    {
        self.len() == 0
    }

    /// The operations.
    pub fn store(&self) -> &Store<A>
        ensures { result.now ≡ self.now.ops }
    {
        &self.store
    }

    /// The operations that are notes and removals of notes.
    pub fn notes(&self) -> &Notes<A>
        ensures { result.now ≡ notes_of self.now.ops }
    {
        &self.notes
    }

    /// The blocks and claims of a game, found without a pass over the other operations; none where there are none. Takes no
    /// memory.
    pub fn game(&self, code: Code) -> Option<&OpSet<A>>
        ensures { unwrap_or (option_copied result) empty ≡ summary.of_game self.now.ops code }
    {
        self.games.get(&code)
    }

    /// The blocks and claims of each game that has some, by the codes. Takes no memory.
    pub fn games(&self) -> &BTreeMap<Code, OpSet<A>, A>
        ensures { (q : octal.Code) → tree.get octal.code_cmp result.now q ≡ index_of self.now.ops q }
    {
        &self.games
    }

    /// Takes in the operations that the bytes spell, and says how many of them are new. The answer is `Version` exactly
    /// where the first four bytes are no tag of a delta, and `Refused` exactly for any other bytes that are no delta; then
    /// nothing changes. Where memory is refused, the answer says how many operations, from the first on, are in, held
    /// before or not; no other was added, and one more was due.
    pub fn take(&mut self, bytes: &[u8]) -> Result<u32, TakeError>
        ensures ok { OnOk result (self.new ≡ with_all self.old (operations_of bytes.now)) }
        ensures new { IfOk result (λ new. new ≡ count_new self.old.ops (listed (operations_of bytes.now))) }
        ensures text { OnOk result (IsSome (read_delta bytes.now)) }
        ensures version { IsErrOf result TakeError.Version ↔ (format_at bytes.now ≡ None) }
        ensures refused { IsErrOf result TakeError.Refused ↔ (IsSome (format_at bytes.now) × ((ops : List Operation) → ¬ IsDeltaText bytes.now ops)) }
        ensures err { IfErr result (LeavesAt self.old self.new (listed (operations_of bytes.now))) }
    {
        take(self, bytes)
    }

    /// Takes in the operations of a list, and says how many of them are new. Where memory is refused, the answer says how
    /// many operations, from the first on, are in, held before or not; no other was added, and one more was due.
    pub fn take_list(&mut self, list: OpList<A>) -> Result<u32, TakeError>
        requires { length list < 2 ^ 32 }
        ensures ok { OnOk result (self.new ≡ with_all self.old (set_of list)) }
        ensures new { IfOk result (λ new. new ≡ count_new self.old.ops list) }
        ensures err { IfErr result (IsCutBy self.old self.new list) }
    {
        take_list(self, list)
    }

    /// Takes in the operations of another record; the author stays. Memory can be refused only where the other has an operation
    /// that is not here. After a refusal the set is one between the old set and
    /// the union.
    pub fn join(&mut self, other: &Record<A>) -> Result<(), AllocError>
        ensures ok { OnOk result (self.new.ops ≡ union self.old.ops other.now.ops) }
        ensures author { self.new.author ≡ self.old.author }
        ensures between { IsBetween IsSubset self.old.ops self.new.ops (union self.old.ops other.now.ops) }
        ensures absent { OnErr result (¬ IsSubset other.now.ops self.old.ops) }
    {
        join(self, other)
    }

    /// Issues an operation of this body under the author's next number, the one after its greatest, and answers its dot.
    /// The first refusal is `LastNumber`, exactly where the greatest number is 4,294,967,295. After a refusal nothing
    /// changes, and the body comes back.
    pub fn issue(&mut self, body: Body<A>) -> Result<Dot, (IssueError, Body<A>)>
        ensures dot { IfOk result (λ dot. dot ≡ (next_op self.old.ops self.old.author (content body)).dot) }
        ensures ok { OnOk result (self.new ≡ record self.old { ops = insert self.old.ops (next_op self.old.ops self.old.author (content body)) }) }
        ensures room { OnOk result (has_number self.old.ops self.old.author ≡ true) }
        ensures error { IfErr result (λ refused. refused.0 ≡ issue_error (has_number self.old.ops self.old.author)) }
        ensures err { OnErr result (self.new ≡ self.old) }
        ensures returned { IfErr result (λ refused. content refused.1 ≡ content body) }
    {
        issue(self, body)
    }

    /// Puts in an operation that others hold too, and says whether it is new. Memory can be refused only for one that is not
    /// there; then nothing changes.
    pub fn share(&mut self, op: &Rc<Op<A>, A>) -> Result<bool, AllocError>
        ensures added { IfOk result (λ added. added ≡ not (contains self.old.ops op.now.value)) }
        ensures ok { OnOk result (self.new ≡ record self.old { ops = insert self.old.ops op.now.value }) }
        ensures err { OnErr result (self.new ≡ self.old) }
        ensures absent { OnErr result (contains self.old.ops op.now.value ≡ false) }
    {
        if !self.store.share(op)? {
            return Ok(false);
        }
        if let Err(refused) = file(&mut self.games, &mut self.notes, self.alloc, op) {
            self.store.remove(op.as_ref());
            return Err(refused);
        }
        Ok(true)
    }

    /// Takes the operation out, and says whether it was there.
    pub fn remove(&mut self, op: &Op<A>) -> bool
        ensures was { result ≡ contains self.old.ops op.now }
        ensures gone { self.new ≡ record self.old { ops = remove self.old.ops op.now } }
    {
        unfile(&mut self.games, &mut self.notes, op);
        self.store.remove(op)
    }

    /// For each author the number through which all of its operations are here, from the first on. This is one pass over
    /// the set.
    pub fn clock(&self) -> Result<Clock<A>, AllocError>
        ensures ok { IfOk result (λ clock. clock ≡ summary.clock_of (listed self.now.ops)) }
        ensures valid { AreValid self.now.ops }
    {
        prove!(are_valid(&self.store));
        self.store.clock()
    }

    /// Copies of the operations that the clock does not cover, in order. This is one pass over the set.
    pub fn beyond(&self, clock: &Clock<A>) -> Result<OpList<A>, AllocError>
        ensures { IfOk result (λ list. list ≡ listed (summary.beyond self.now.ops clock.now)) }
    {
        self.store.beyond(clock)
    }

    /// Appends the delta of the operations that the clock does not cover. `TooMany` says that there are more than
    /// 4,294,967,295 of them. After a refusal `out` is as it was.
    pub fn delta(&self, clock: &Clock<A>, out: &mut Vec<u8, A>) -> Result<(), EncodeError>
        ensures ok { OnOk result (out.new.items ≡ out.old.items ++ encoded (listed (summary.beyond self.now.ops clock.now))) }
        ensures few { OnOk result (length (listed (summary.beyond self.now.ops clock.now)) < 2 ^ 32) }
        ensures too_many { IsErrOf result EncodeError.TooMany → 2 ^ 32 ≤ length (listed (summary.beyond self.now.ops clock.now)) }
        ensures err { OnErr result (out.new.items ≡ out.old.items) }
    {
        let list = self.beyond(clock)?;
        encode(&list, out)
    }

    /// The removal of the live notes of a name: it names the dot of each, rising and once. The first refusal is `NoNote`,
    /// where no live note has the name; then `TooMany`, where there are more than 1,024 dots. Memory may be refused before
    /// the dots are counted.
    pub fn removal(&self, name: &[u8]) -> Result<Removal<A>, RemovalError>
        ensures ok { IfOk result (λ removal. removal ≡ removing (live_dots (listed self.now.ops) name.now)) }
        ensures accepted { OnOk result (removal_fault (live_dots (listed self.now.ops) name.now) ≡ None) }
        ensures error { IfErr result (RefusesRemoval (live_dots (listed self.now.ops) name.now)) }
    {
        let Ok(dots) = self.notes.live_dots(name) else {
            return Err(RemovalError::OutOfMemory);
        };
        match Removal::new(dots) {
            Ok(removal) => Ok(removal),
            Err((oct_ops::RemovalError::Empty, _)) => Err(RemovalError::NoNote),
            Err((oct_ops::RemovalError::TooMany, _)) => Err(RemovalError::TooMany),
            Err((oct_ops::RemovalError::NotRising, _)) => unreachable!(),
        }
    }

    /// Appends the text of the record to `out`: `OGS1`, the author, and the delta of all operations. The answer is
    /// `TooMany` exactly where there are more than 4,294,967,295 of them. After a refusal `out` is as it was.
    #[tactic(auto, using(oct_ops::proofs::Growing::cutting))]
    pub fn save(&self, out: &mut Vec<u8, A>) -> Result<(), EncodeError>
        ensures ok { OnOk result (out.new.items ≡ out.old.items ++ state_text self.now.author (listed self.now.ops)) }
        ensures too_many { IsErrOf result EncodeError.TooMany ↔ (2 ^ 32 ≤ length (listed self.now.ops)) }
        ensures err { OnErr result (out.new.items ≡ out.old.items) }
    {
        if self.store.len() > u32::MAX as usize {
            return Err(EncodeError::TooMany);
        }
        let length = out.len();
        if put_state(out, self.author, self.store.iter()).is_err() {
            out.truncate(length);
            return Err(EncodeError::OutOfMemory);
        }
        Ok(())
    }

    /// The record whose text the bytes are. The answer is `Version` exactly where the first four bytes are not `OGS1` or
    /// are missing, and `Refused` exactly for any other bytes that are no text of a state.
    pub fn load(alloc: A, bytes: &[u8]) -> Result<Record<A>, LoadError>
        ensures ok { IfOk result (λ said. IsState bytes.now said.author said.ops) }
        ensures err { IfErr result (RefusesState bytes.now) }
    {
        let (author, ops) = parse_state(bytes)?;
        let Ok(mut said) = Record::new(alloc, author) else {
            unreachable!();
        };
        match take_each(&mut said, ops) {
            Ok(_) => Ok(said),
            Err(_) => Err(LoadError::OutOfMemory),
        }
    }

    /// The dot of the least operation by the author of this record that `later` holds and this one does not; none where there
    /// is none. Where `later` is what this record became without issuing anything, someone else issues under its author, or it
    /// is an old copy. This is one pass over `later`. Takes no memory.
    pub fn first_foreign(&self, later: &Record<A>) -> Option<Dot>
        ensures { result ≡ option_map (λ o. o.dot) (foreign_of self.now.ops later.now.ops self.now.author) }
    {
        for op in later.store.iter() {
            let dot = op.dot();
            if dot.author() == self.author && !self.store.contains(op) {
                return Some(dot);
            }
        }
        None
    }

    /// The dot of what the author issues next, under the number after its greatest; none after the last number.
    pub fn next_dot(&self) -> Option<Dot>
        ensures dot { IfSome result (λ dot. dot ≡ dot_of self.now.author (summary.last (listed self.now.ops) self.now.author + 1)) }
        ensures room { is_some result ≡ has_number self.now.ops self.now.author }
    {
        let last = self.store.last(self.author);
        if last == u32::MAX {
            return None;
        }
        Some(own_dot(self.author, last + 1))
    }
}

impl<A: Allocator + Copy> Holder<A> for Record<A> {
    ghost content = { λ said. said };

    fn said(&self) -> &Record<A>
        ensures { result.now ≡ self.now }
    {
        self
    }

    fn share(&mut self, op: &Rc<Op<A>, A>) -> Result<bool, AllocError> {
        Record::share(self, op)
    }
}

// The dot of a number of an author.
fn own_dot(author: u32, number: u32) -> Dot
    requires { (1 ≤ author) × (1 ≤ number) }
    ensures { result ≡ dot_of author number }
{
    match Dot::new(author, number) {
        Ok(dot) => dot,
        Err(_) => unreachable!(),
    }
}
