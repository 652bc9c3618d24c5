//! How many operations of a record are by each author.

use oct_record::Record;
use std::alloc::{AllocError, Global};

/// An author, and how many operations of a record are by it.
#[derive(Clone, Copy)]
pub(crate) struct Share {
    pub(crate) author: u32,
    pub(crate) count: usize,
}

/// The share of each author of whom there is an operation, in the order of their numbers.
pub(crate) fn shares(alloc: Global, said: &Record<Global>) -> Result<Vec<Share>, AllocError> {
    let mut found: Vec<Share> = Vec::new(alloc);
    for op in said.store().iter() {
        let author = op.dot().author();
        match found.last_mut() {
            Some(last) if last.author == author => last.count = last.count.saturating_add(1),
            _ => found.push(Share { author, count: 1 })?,
        }
    }
    Ok(found)
}

/// How many operations are by the author.
pub(crate) fn count_of(shares: &[Share], author: u32) -> usize {
    match shares.binary_search_by_key(&author, |share| share.author) {
        Ok(at) => shares.get(at).map_or(0, |share| share.count),
        Err(_) => 0,
    }
}

/// What is more now than before, of each author of whom there is more.
pub(crate) fn news(
    alloc: Global,
    before: &[Share],
    now: &[Share],
) -> Result<Vec<Share>, AllocError> {
    let mut more = Vec::new(alloc);
    for share in now {
        let count = share.count.saturating_sub(count_of(before, share.author));
        if count > 0 {
            more.push(Share {
                author: share.author,
                count,
            })?;
        }
    }
    Ok(more)
}
