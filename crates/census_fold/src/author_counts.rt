//! How many authors a set has, and when they are too many.

ghost use Rattle.std.specs.Prelude.{◌≡◌, ◌≢◌, None, Some, IfOk, IfErr, OnOk};
ghost use Rattle.census_fold.specs.AuthorCounts.{author_count, authors_cut, authors_fault};

use census_state::Fault;
use oct_record::Record;
use std::alloc::{AllocError, Global};

/// The most authors of a clock that a session sends.
const CLOCK_AUTHORS: usize = 65_536;

/// How many authors have an operation in a record. This is one pass over the set.
pub fn author_count(held: &Record<Global>) -> Result<usize, AllocError>
    ensures { IfOk result (λ count. count ≡ author_count held.now.ops) }
{
    Ok(held.store().authors()?.len())
}

/// Refuses a record that had operations by so many authors before, where these are more by now, and more than `most`. The fault
/// is `Authors`, before which memory may be refused.
pub fn check_authors(held: &Record<Global>, before: usize, most: u32) -> Result<(), Fault>
    ensures ok { OnOk result (authors_fault before most held.now.ops ≡ None) }
    ensures err { IfErr result (λ e. e ≢ Fault.OutOfMemory → authors_fault before most held.now.ops ≡ Some e) }
{
    let count = author_count(held)?;
    if count > before && count > most as usize {
        return Err(Fault::Authors {
            count: count as u64,
            most: u64::from(most),
        });
    }
    Ok(())
}

/// How many authors of a record's clock a session leaves out: those behind the first 65,536. So the other side is sent, each time
/// anew, what these said. This is one pass over the set.
pub fn authors_cut(held: &Record<Global>) -> Result<usize, AllocError>
    ensures { IfOk result (λ cut. cut ≡ authors_cut held.now.ops) }
{
    let clock = held.clock()?;
    Ok(clock.entries().len().saturating_sub(CLOCK_AUTHORS))
}
