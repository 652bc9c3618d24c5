//! What a line says of a record: by whom its operations are, and which dots are used twice.

use crate::shares::{Share, count_of, news, shares};
use census_fold::{authors_cut, new_forks};
use oct_ops::Dot;
use oct_record::Record;
use oct_store::Fork;
use std::alloc::{AllocError, Global};

/// What a pass over the operations of a record tells.
#[derive(Drop)]
pub(crate) struct Tally {
    /// How many of its operations are by each author.
    shares: Vec<Share>,
    /// The dots that are used twice in it.
    forks: Vec<Fork>,
    /// How many authors are left out of its clock.
    cut: usize,
}

impl Tally {
    /// The tally of a record.
    pub(crate) fn of(alloc: Global, said: &Record<Global>) -> Result<Tally, AllocError> {
        Ok(Tally {
            cut: authors_cut(said)?,
            shares: shares(alloc, said)?,
            forks: said.store().forks()?,
        })
    }

    /// Of how many authors there are operations.
    pub(crate) fn authors(&self) -> usize {
        self.shares.len()
    }

    /// How many operations are by the author.
    pub(crate) fn count_of(&self, author: u32) -> usize {
        count_of(&self.shares, author)
    }

    /// How many authors are left out of the clock.
    pub(crate) fn cut(&self) -> usize {
        self.cut
    }

    /// What is more than there was, of each author of whom there is more.
    pub(crate) fn news(&self, alloc: Global, before: &Tally) -> Result<Vec<Share>, AllocError> {
        news(alloc, &before.shares, &self.shares)
    }

    /// The dots that are used twice since.
    pub(crate) fn new_forks(&self, alloc: Global, before: &Tally) -> Result<Vec<Dot>, AllocError> {
        new_forks(alloc, &before.forks, &self.forks)
    }
}
