//! Numbers that two sets of operations use, each for something that the other has not.

ghost use Rattle.std.specs.Prelude.{◌≡◌, IfOk, OnOk};
ghost use Rattle.oct_log.specs.Twice.{is_twice, seen, sides_in, sides_of};
ghost use Rattle.oct_ops.specs.Operation.{Dot as DotValue};
ghost use Rattle.oct_ops.specs.Operations.{listed};

use oct_ops::Dot;
use oct_store::Store;
use std::alloc::{AllocError, Allocator};
use std::collections::BTreeMap;

/// Which of two sets has an operation of a dot that the other has not.
#[derive(Clone, Copy)]
pub(crate) struct Sides {
    pub(crate) one: bool,
    pub(crate) other: bool,
}

impl Sides {
    /// Whether both have: then the dot was used twice.
    pub(crate) fn is_twice(self) -> bool
        ensures { result ≡ is_twice self }
    {
        self.one && self.other
    }
}

/// For each dot which of two sets has an operation that the other has not, among all operations of both. `sides_in` looks a
/// dot up.
pub(crate) fn sides_by_dot<A: Allocator + Copy>(
    alloc: A,
    one: &Store<A>,
    other: &Store<A>,
    all: &Store<A>,
) -> Result<BTreeMap<Dot, Sides, A>, AllocError>
    ensures { IfOk result (λ table. (d : DotValue) → sides_in table d ≡ sides_of one.now other.now (listed all.now) d) }
{
    let mut table = BTreeMap::new(alloc);
    for op in all.iter() {
        see(&mut table, one.contains(op), other.contains(op), op.dot())?;
    }
    Ok(table)
}

/// Which of both sets has an operation of a dot that the other has not, by a table.
pub(crate) fn sides_in<A: Allocator + Copy>(table: &BTreeMap<Dot, Sides, A>, dot: Dot) -> Sides
    ensures { result ≡ sides_in table.now dot }
{
    match table.get(&dot) {
        Some(sides) => *sides,
        None => Sides {
            one: false,
            other: false,
        },
    }
}

// Takes note of an operation of this dot, which is in one set, in the other, or in both.
fn see<A: Allocator + Copy>(
    table: &mut BTreeMap<Dot, Sides, A>,
    in_one: bool,
    in_other: bool,
    dot: Dot,
) -> Result<(), AllocError>
    ensures { OnOk result ((d : DotValue) → sides_in table.new d ≡ seen d (sides_in table.old d) in_one in_other dot) }
{
    if in_one && in_other {
        return Ok(());
    }
    let before = sides_in(table, dot);
    let now = Sides {
        one: before.one || in_one,
        other: before.other || in_other,
    };
    match table.insert(dot, now) {
        Ok(_) => Ok(()),
        Err(_) => Err(AllocError),
    }
}
