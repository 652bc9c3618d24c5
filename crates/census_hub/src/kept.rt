//! What a hub keeps of its state between sessions.

use crate::shares::Share;
use crate::tally::Tally;
use census_endpoint::{Saved, Standing, record_of, save_grown, save_held};
use census_failure::Failure;
use census_files::StateFile;
use census_fold::{check_authors, record_digest};
use census_state::{Fault, unchanged};
use oct_answer::Snapshot;
use oct_ops::Dot;
use oct_record::Record;
use std::alloc::Global;
use std::fs::File;
use std::rc::Rc;
use std::rt::Files;

/// What a state file says, as it was last read or written.
#[derive(Drop)]
pub(crate) struct Kept {
    /// The record that it says. Nothing is in it that is not saved.
    said: Record<Global>,
    /// What it holds, as those are sent it whose clocks came since it changed.
    snapshot: Option<Rc<Snapshot<Global>, Global>>,
    /// By whom its operations are, and which dots are used twice in it.
    tally: Tally,
    /// Its digest, where somebody asked for it since it changed.
    digest: Option<Vec<u8>>,
    /// How often what it says was changed or read again.
    revision: u64,
    standing: Standing,
}

/// What stands in a state after a session of a hub.
#[derive(Drop)]
pub(crate) struct Settled {
    pub(crate) saved: Saved,
    /// How many operations of each author are new to the file.
    pub(crate) news: Vec<Share>,
    /// The dots that are used twice since.
    pub(crate) forks: Vec<Dot>,
    /// The revision of what the file had before.
    pub(crate) before: u64,
}

impl Settled {
    /// An operation by the state's own number that its file never held; none where there is none.
    pub(crate) fn foreign(&self) -> Option<Dot> {
        self.saved.foreign
    }
}

impl Kept {
    /// Reads a state. No nim-value is computed. The fault is `File`, `TooLong`, `Load` or `OutOfMemory`.
    pub(crate) fn read<R>(rt: &R, state: &str) -> Result<Kept, Failure>
    where
        R: Files<File = File> + AllocGlobal,
    {
        let mut standing = Standing::at(rt, state)?;
        let bytes = standing.read(rt.alloc(), state)?;
        let said = record_of(rt.alloc(), state, &bytes)?;
        Ok(Kept {
            tally: Tally::of(rt.alloc(), &said)?,
            digest: None,
            revision: 0,
            snapshot: None,
            said,
            standing,
        })
    }

    /// What it holds now, to be sent. All who are sent the same share it.
    pub(crate) fn snapshot(
        &mut self,
        alloc: Global,
    ) -> Result<Rc<Snapshot<Global>, Global>, Failure> {
        if let Some(snapshot) = &self.snapshot {
            return Ok(snapshot.clone()?);
        }
        let Ok(snapshot) = Rc::new(alloc, Snapshot::of(alloc, &self.said)?) else {
            return Err(Failure::from(Fault::OutOfMemory));
        };
        self.snapshot = Some(snapshot.clone()?);
        Ok(snapshot)
    }

    /// A record without operations, for what a session brings.
    pub(crate) fn empty(&self, alloc: Global) -> Record<Global> {
        match Record::new(alloc, self.said.author()) {
            Ok(said) => said,
            Err(_) => unreachable!(),
        }
    }

    /// Reads the state again where its file is not the one that was read, or was changed since. The fault is that of
    /// `read`, after which all is as it was.
    pub(crate) fn renew<R>(&mut self, rt: &R, state: &str) -> Result<(), Failure>
    where
        R: Files<File = File> + AllocGlobal,
    {
        if !self.standing.stands(rt, state) {
            let revision = self.revision.saturating_add(1);
            *self = Kept::read(rt, state)?;
            self.revision = revision;
        }
        Ok(())
    }

    /// Whether the session brought an operation that the state has not.
    pub(crate) fn lacks(&self, brought: &Record<Global>) -> bool {
        let there = self.said.store();
        brought.store().iter().any(|op| !there.contains(op))
    }

    /// Saves the union of what the file holds by now and of what a session brought, where the file has not all of it, and where
    /// that brings it to no more authors than these. After a fault what is kept is what the file says.
    pub(crate) fn settle<R>(
        &mut self,
        rt: &R,
        state: &str,
        brought: &Record<Global>,
        authors: u32,
    ) -> Result<Settled, Failure>
    where
        R: Files<File = File> + AllocGlobal,
    {
        self.renew(rt, state)?;
        if !self.lacks(brought) {
            return self.settled_already(rt.alloc());
        }
        let file = StateFile::wait(rt, state)?;
        let settled = self.save(rt, &file, state, brought, authors);
        file.release(rt);
        settled
    }

    // What stands in the state where nothing is new to it.
    fn settled_already(&self, alloc: Global) -> Result<Settled, Failure> {
        Ok(Settled {
            saved: Saved {
                text: unchanged(alloc, &self.said)?,
                foreign: None,
            },
            news: Vec::new(alloc),
            forks: Vec::new(alloc),
            before: self.revision,
        })
    }

    /// Which revision is saved. It is another one wherever another set is.
    pub(crate) fn revision(&self) -> u64 {
        self.revision
    }

    /// The digest of what is saved, in hexadecimal digits. It is computed once for each revision, by a pass over all operations.
    pub(crate) fn digest(&mut self, alloc: Global) -> Result<&[u8], Failure> {
        if self.digest.is_none() {
            self.digest = Some(record_digest(alloc, &self.said)?);
        }
        match &self.digest {
            Some(digest) => Ok(digest),
            None => unreachable!(),
        }
    }

    /// How many authors are left out of the clock of what is saved.
    pub(crate) fn cut(&self) -> usize {
        self.tally.cut()
    }

    // The same, while no other command changes the file, which is read first where it is not known.
    fn save<R>(
        &mut self,
        rt: &R,
        file: &StateFile,
        state: &str,
        brought: &Record<Global>,
        authors: u32,
    ) -> Result<Settled, Failure>
    where
        R: Files<File = File> + AllocGlobal,
    {
        self.renew(rt, state)?;
        let fresh = self.fresh(rt.alloc(), brought)?;
        let before = self.said.len();
        self.snapshot = None;
        let settled = match self.said.join(&fresh) {
            Ok(()) => self.write(rt, file, state, before, authors),
            Err(refused) => Err(Failure::from(refused)),
        };
        if settled.is_ok() {
            self.look(rt, state);
        } else {
            self.take_back(&fresh);
        }
        settled
    }

    // What the session brought that the state has not.
    fn fresh(&self, alloc: Global, brought: &Record<Global>) -> Result<Record<Global>, Failure> {
        let mut fresh = self.empty(alloc);
        for op in brought.store().iter_shared() {
            if !self.said.store().contains(op.as_ref()) {
                let _ = fresh.share(op)?;
            }
        }
        Ok(fresh)
    }

    // Takes what could not be saved out of the record again.
    fn take_back(&mut self, fresh: &Record<Global>) {
        for op in fresh.store().iter() {
            let _ = self.said.remove(op);
        }
    }

    // Writes all, and knows then how many operations are by whom. So many were there before, and so many authors there may be.
    fn write<R>(
        &mut self,
        rt: &R,
        file: &StateFile,
        state: &str,
        before: usize,
        authors: u32,
    ) -> Result<Settled, Failure>
    where
        R: Files<File = File> + AllocGlobal,
    {
        check_authors(&self.said, self.tally.authors(), authors)?;
        let alloc = rt.alloc();
        let tally = Tally::of(alloc, &self.said)?;
        let news = tally.news(alloc, &self.tally)?;
        let forks = tally.new_forks(alloc, &self.tally)?;
        let saved = self.write_grown(rt, file, state, before, &tally)?;
        Ok(Settled {
            saved,
            news,
            forks,
            before: self.renewed(tally),
        })
    }

    // Takes this for what is known of what is saved now, and gives the revision of what was saved before.
    fn renewed(&mut self, tally: Tally) -> u64 {
        self.tally = tally;
        self.digest = None;
        let before = self.revision;
        self.revision = before.saturating_add(1);
        before
    }

    // Writes all where the file holds what was there before, and nothing else. It is not read again, unless an operation came by
    // the state's own number, which is looked for there.
    fn write_grown<R>(
        &self,
        rt: &R,
        file: &StateFile,
        state: &str,
        before: usize,
        tally: &Tally,
    ) -> Result<Saved, Failure>
    where
        R: Files<File = File> + AllocGlobal,
    {
        let author = self.said.author();
        if tally.count_of(author) != self.tally.count_of(author) {
            return save_held(rt, file, state, &self.said);
        }
        save_grown(rt, file, state, before, &self.said)
    }

    // Takes the file that stands at the path for the one that says what is kept. Where it can't be seen, it is read again
    // when it is needed.
    fn look<R>(&mut self, rt: &R, state: &str)
    where
        R: Files<File = File> + AllocGlobal,
    {
        if let Ok(standing) = Standing::at(rt, state) {
            self.standing = standing;
        }
    }
}
