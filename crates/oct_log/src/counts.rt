//! How many operations authors have.

ghost use Rattle.std.specs.Prelude.{◌≡◌, ◌+◌, ◌<◌, ◌^◌, ℕ, IfOk, OnOk};
ghost use Rattle.oct_log.specs.Status.{count_in, counted, said_by};
ghost use Rattle.oct_ops.specs.Operations.{listed};

use oct_store::Store;
use std::alloc::{AllocError, Allocator};
use std::collections::BTreeMap;

/// How many operations each author has. `count_in` looks an author up.
pub(crate) fn counts_by_author<A: Allocator + Copy>(
    alloc: A,
    said: &Store<A>,
) -> Result<BTreeMap<u32, u64, A>, AllocError>
    ensures { IfOk result (λ table. (author : ℕ) → count_in table author ≡ said_by (listed said.now) author) }
{
    prove!(said.len() <= usize::MAX);
    let mut table = BTreeMap::new(alloc);
    for op in said.iter() {
        count(&mut table, op.dot().author())?;
    }
    Ok(table)
}

/// How many operations an author has by a table: 0 where it is not there.
pub(crate) fn count_in<A: Allocator + Copy>(table: &BTreeMap<u32, u64, A>, author: u32) -> u64
    ensures { result ≡ count_in table.now author }
{
    match table.get(&author) {
        Some(count) => *count,
        None => 0,
    }
}

// Counts one more operation of an author.
fn count<A: Allocator + Copy>(
    table: &mut BTreeMap<u32, u64, A>,
    author: u32,
) -> Result<(), AllocError>
    requires { count_in table.old author + 1 < 2 ^ 64 }
    ensures { OnOk result ((other : ℕ) → count_in table.new other ≡ counted other author + count_in table.old other) }
{
    let more = count_in(table, author) + 1;
    match table.insert(author, more) {
        Ok(_) => Ok(()),
        Err(_) => Err(AllocError),
    }
}
