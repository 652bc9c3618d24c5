//! Operations that are taken in by whoever holds some, and that are issued.

ghost use Rattle.std.specs.Prelude.{◌≡◌, ◌↔◌, ◌≤◌, ◌<◌, ◌+◌, ◌^◌, not, length, true, false, None, List, ℕ, take as front_of, IsSome, IfSome, IfOk, IfErr, OnOk, OnErr, IsErrOf};
ghost use Rattle.std.specs.Option.{is_some};
ghost use Rattle.oct_ops.specs.Body.{Operation};
ghost use Rattle.oct_ops.specs.Operation.{dot_of};
ghost use Rattle.oct_ops.specs.Operations.{insert, contains, listed, set_of, union, IsRising, IsSubset};
ghost use Rattle.oct_ops.specs.Views.{content as content_of};
ghost use Rattle.oct_join.specs.Order.{IsBetween};
ghost use Rattle.oct_delta.specs.Decoding.{format_at, read_delta};
ghost use Rattle.oct_delta.specs.Delta.{IsDeltaText};
ghost use Rattle.oct_delta.specs.Taken.{operations_of};
ghost use Rattle.oct_store.specs.Summary as summary;
ghost use Rattle.oct_record.specs.Taking.{count_new, has_number, issue_error, next_op, with_all, IsCutBy, LeavesAt};

use crate::error::{IssueError, TakeError};
use crate::holder::Holder;
use crate::record::Record;
use oct_delta::{DeltaFault, TextOps, read_ops};
use oct_ops::{Body, Dot, Op, OpList};
use oct_store::Store;
use std::alloc::{AllocError, Allocator};
use std::mem;
use std::rc::Rc;

/// Takes in the operations that the bytes spell, and says how many of them are new. The answer is `Version` exactly
/// where the first four bytes are no tag of a delta, and `Refused` exactly for any other bytes that are no delta; then
/// nothing changes. Where memory is refused, the answer says how many operations, from the first on, are in, held
/// before or not; no other was added, and one more was due.
pub fn take<A: Allocator + Copy, H: Holder<A>>(
    holder: &mut H,
    bytes: &[u8],
) -> Result<u32, TakeError>
    ensures ok { OnOk result (H.content holder.new ≡ with_all (H.content holder.old) (operations_of bytes.now)) }
    ensures new { IfOk result (λ new. new ≡ count_new (H.content holder.old).ops (listed (operations_of bytes.now))) }
    ensures text { OnOk result (IsSome (read_delta bytes.now)) }
    ensures version { IsErrOf result TakeError.Version ↔ (format_at bytes.now ≡ None) }
    ensures refused { IsErrOf result TakeError.Refused ↔ (IsSome (format_at bytes.now) × ((ops : List Operation) → ¬ IsDeltaText bytes.now ops)) }
    ensures err { IfErr result (LeavesAt (H.content holder.old) (H.content holder.new) (listed (operations_of bytes.now))) }
{
    match read_ops(bytes) {
        Ok(ops) => take_each(holder, ops),
        Err(DeltaFault::Version) => Err(TakeError::Version),
        Err(DeltaFault::Refused) => Err(TakeError::Refused),
    }
}

/// Takes in the operations of a list, and says how many of them are new. Where memory is refused, the answer says how
/// many operations, from the first on, are in, held before or not; no other was added, and one more was due.
pub fn take_list<A: Allocator + Copy, H: Holder<A>>(
    holder: &mut H,
    list: OpList<A>,
) -> Result<u32, TakeError>
    requires { length list < 2 ^ 32 }
    ensures ok { OnOk result (H.content holder.new ≡ with_all (H.content holder.old) (set_of list)) }
    ensures new { IfOk result (λ new. new ≡ count_new (H.content holder.old).ops list) }
    ensures err { IfErr result (IsCutBy (H.content holder.old) (H.content holder.new) list) }
{
    let alloc = holder.said().allocator();
    let mut done = 0;
    let mut new = 0;
    for op in list.into_vec() {
        let Ok(is_new) = insert(holder, alloc, op) else {
            return Err(TakeError::OutOfMemory { done });
        };
        if is_new {
            new += 1;
        }
        done += 1;
    }
    Ok(new)
}

/// Moves the operations in; the author stays. After a refusal the first so many are in, and no other.
pub fn take_ops<A: Allocator + Copy, H: Holder<A>>(
    holder: &mut H,
    ops: &mut Vec<Op<A>, A>,
) -> Result<(), AllocError>
    requires rises { IsRising ops.old.items }
    requires few { length ops.old.items < 2 ^ 32 }
    ensures ok { OnOk result ((H.content holder.new).ops ≡ union (H.content holder.old).ops (set_of ops.old.items)) }
    ensures err { OnErr result ((count : ℕ) × ((H.content holder.new).ops ≡ union (H.content holder.old).ops (set_of (front_of count ops.old.items)))) }
    ensures author { (H.content holder.new).author ≡ (H.content holder.old).author }
{
    let empty = Vec::new(*ops.allocator());
    let list = OpList::of_rising(mem::replace(ops, empty));
    match take_list(holder, list) {
        Ok(_) => Ok(()),
        Err(_) => Err(AllocError),
    }
}

/// Takes in the operations of a text, each as it is made, and says how many of them are new. Where memory is refused, the
/// answer says how many operations, from the first on, are in, held before or not; no other was added, and one more was due.
pub fn take_each<A: Allocator + Copy, H: Holder<A>>(
    holder: &mut H,
    mut ops: TextOps<'_>,
) -> Result<u32, TakeError>
    requires few { length ops < 2 ^ 32 }
    requires rising { IsRising ops }
    ensures ok { OnOk result (H.content holder.new ≡ with_all (H.content holder.old) (set_of ops.entry)) }
    ensures new { IfOk result (λ new. new ≡ count_new (H.content holder.old).ops ops.entry) }
    ensures err { IfErr result (IsCutBy (H.content holder.old) (H.content holder.new) ops.entry) }
{
    let alloc = holder.said().allocator();
    let mut done = 0;
    let mut new = 0;
    loop {
        let Ok(next) = ops.next(alloc) else {
            return Err(TakeError::OutOfMemory { done });
        };
        let Some(op) = next else {
            return Ok(new);
        };
        let Ok(is_new) = insert(holder, alloc, op) else {
            return Err(TakeError::OutOfMemory { done });
        };
        if is_new {
            new += 1;
        }
        done += 1;
    }
}

/// Takes in the operations of another record; the author stays. After a refusal the set is one between the old set and the
/// union. Memory can be refused only where the other has an operation that is not here.
pub fn join<A: Allocator + Copy, H: Holder<A>>(
    holder: &mut H,
    other: &Record<A>,
) -> Result<(), AllocError>
    ensures ok { OnOk result ((H.content holder.new).ops ≡ union (H.content holder.old).ops other.now.ops) }
    ensures author { (H.content holder.new).author ≡ (H.content holder.old).author }
    ensures between { IsBetween IsSubset (H.content holder.old).ops (H.content holder.new).ops (union (H.content holder.old).ops other.now.ops) }
    ensures absent { OnErr result (¬ IsSubset other.now.ops (H.content holder.old).ops) }
{
    share_all(holder, other.store())
}

/// Takes in the operations of a store, which both hold then; the author stays. After a refusal the set is one between the old
/// set and the union. Memory can be refused only where the store has an operation that is not here.
pub fn share_all<A: Allocator + Copy, H: Holder<A>>(
    holder: &mut H,
    store: &Store<A>,
) -> Result<(), AllocError>
    ensures ok { OnOk result ((H.content holder.new).ops ≡ union (H.content holder.old).ops store.now) }
    ensures author { (H.content holder.new).author ≡ (H.content holder.old).author }
    ensures between { IsBetween IsSubset (H.content holder.old).ops (H.content holder.new).ops (union (H.content holder.old).ops store.now) }
    ensures absent { OnErr result (¬ IsSubset store.now (H.content holder.old).ops) }
{
    for op in store.iter_shared() {
        holder.share(op)?;
    }
    Ok(())
}

/// Issues an operation of this body under the author's next number, the one after its greatest, and answers its dot.
/// The first refusal is `LastNumber`, exactly where the greatest number is 4,294,967,295. After a refusal nothing
/// changes, and the body comes back.
pub fn issue<A: Allocator + Copy, H: Holder<A>>(
    holder: &mut H,
    body: Body<A>,
) -> Result<Dot, (IssueError, Body<A>)>
    ensures dot { IfOk result (λ dot. dot ≡ (next_op (H.content holder.old).ops (H.content holder.old).author (content_of body)).dot) }
    ensures ok { OnOk result (H.content holder.new ≡ record (H.content holder.old) { ops = insert (H.content holder.old).ops (next_op (H.content holder.old).ops (H.content holder.old).author (content_of body)) }) }
    ensures room { OnOk result (has_number (H.content holder.old).ops (H.content holder.old).author ≡ true) }
    ensures error { IfErr result (λ refused. refused.0 ≡ issue_error (has_number (H.content holder.old).ops (H.content holder.old).author)) }
    ensures err { OnErr result (H.content holder.new ≡ H.content holder.old) }
    ensures returned { IfErr result (λ refused. content_of refused.1 ≡ content_of body) }
{
    let Some(dot) = holder.said().next_dot() else {
        return Err((IssueError::LastNumber, body));
    };
    let op = Op::new(dot, body);
    match add(holder, &op) {
        Ok(_) => Ok(dot),
        Err(_) => Err((IssueError::OutOfMemory, op.into_body())),
    }
}

// Puts in a copy of the operation, and says whether it is new. Memory can be refused only where it is; then nothing changes.
fn add<A: Allocator + Copy, H: Holder<A>>(holder: &mut H, op: &Op<A>) -> Result<bool, AllocError>
    ensures added { IfOk result (λ added. added ≡ not (contains (H.content holder.old).ops op.now)) }
    ensures ok { OnOk result (H.content holder.new ≡ record (H.content holder.old) { ops = insert (H.content holder.old).ops op.now }) }
    ensures err { OnErr result (H.content holder.new ≡ H.content holder.old) }
    ensures absent { OnErr result (contains (H.content holder.old).ops op.now ≡ false) }
{
    let said = holder.said();
    if said.store().contains(op) {
        return Ok(false);
    }
    let alloc = said.allocator();
    let copy = op.copy(alloc)?;
    insert(holder, alloc, copy)
}

// Puts the operation in, and says whether it is new. Where memory is refused, nothing changes.
fn insert<A: Allocator + Copy, H: Holder<A>>(
    holder: &mut H,
    alloc: A,
    op: Op<A>,
) -> Result<bool, AllocError>
    ensures added { IfOk result (λ added. added ≡ not (contains (H.content holder.old).ops op)) }
    ensures ok { OnOk result (H.content holder.new ≡ record (H.content holder.old) { ops = insert (H.content holder.old).ops op }) }
    ensures err { OnErr result (H.content holder.new ≡ H.content holder.old) }
{
    let Ok(shared) = Rc::new(alloc, op) else {
        return Err(AllocError);
    };
    holder.share(&shared)
}
