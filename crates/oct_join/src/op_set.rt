//! A finite set of operations.

ghost use Rattle.std.specs.Prelude.{◌≡◌, ◌↔◌, ◌⊎◌, ◌≤◌, nat_le, not, false, true, length, IsTrue, IfOk, IfErr, OnOk, OnErr};
ghost use Rattle.std.specs.List.{All, Any};
ghost use Rattle.oct_join.specs.SetBounds.{subset_order, union_bound};
ghost use Rattle.oct_ops.specs.Operations.{empty, insert, remove, contains, listed, union, IsSubset};
ghost use Rattle.oct_ops.specs.Order.{op_cmp};
ghost use Rattle.oct_ops.specs.OrderLaws.{op_cmp_total, op_cmp_exact};

use crate::join::Join;
use crate::ops::Ops;
use crate::shared::Shared;
use crate::shared_ops::SharedOps;
use chunked::{Chunks, Place, Probe, Test};
use oct_ops::Op;
use std::alloc::{AllocError, Allocator};
use std::cmp::Ordering;
use std::marker::Model;
use std::rc::Rc;

/// A finite set of operations, in memory of `A`. Operations are the same only if dot and body are. An operation is never
/// changed, so that sets and ledgers may share it.
///
///     let mut ops = OpSet::new(alloc);
///     ops.insert(operation)?;               // true: it is new
///     ops.add(&copy)?;                      // nothing changes, since it is there already
///     ops.join(&other)?;                    // the union; a refusal leaves a set between the old one and the union
///     ops.iter()                            // all, in the operation order
///     ops.last(1)                           // the greatest number of author 1
///
/// A look-up, an insertion and a removal compare a number of operations that grows with the logarithm of the set's size, and
/// an insertion at the end two. An insertion moves the references of one chunk at most, and at times the list of the chunks.
#[derive(Drop)]
pub struct OpSet<A: Allocator + Copy> {
    ops: Chunks<Shared<A>, A>,
    alloc: A,
}

impl<A: Allocator + Copy> Model for OpSet<A> {
    ghost use Rattle.std.specs.Prelude.{◌≡◌, true};
    ghost use Rattle.chunked.specs.Chunked.{chunked, IsChunked};
    ghost use Rattle.oct_join.specs.Shared.{contents};
    ghost use Rattle.oct_ops.specs.Operations.{Operations, operations_code, set_of};
    ghost use Rattle.oct_ops.specs.Order.{op_cmp};
    ghost use Rattle.oct_ops.specs.Sets.{rises};

    ghost Value = { Operations };

    ghost coded = { operations_code };

    ghost view = { λ s. set_of (contents (chunked s.ops)) };

    ghost invariant = { λ s. IsChunked s.ops × (rises op_cmp (contents (chunked s.ops)) ≡ true) };
}

/// How an operation that is shared compares with one that is searched.
#[derive(Clone, Copy)]
struct Sought<'a, A: Allocator> {
    op: &'a Op<A>,
}

impl<A: Allocator> Probe<Shared<A>> for Sought<'_, A> {
    ghost order = { λ s shared. op_cmp shared s.op.now };

    fn compare(&self, shared: &Shared<A>) -> Ordering {
        shared.compare(self.op)
    }
}

/// That the author of an operation is at most this one.
#[derive(Clone, Copy)]
struct UpTo {
    author: u32,
}

impl<A: Allocator> Test<Shared<A>> for UpTo {
    ghost passes = { λ t shared. nat_le shared.dot.author t.author };

    fn passes(&self, shared: &Shared<A>) -> bool {
        shared.dot().author() <= self.author
    }
}

impl<A: Allocator + Copy> OpSet<A> {
    /// The empty set, which will grow in memory of `alloc`.
    pub fn new(alloc: A) -> OpSet<A>
        ensures { result ≡ empty }
    {
        OpSet {
            ops: Chunks::new(alloc),
            alloc,
        }
    }

    /// How many operations there are.
    pub fn len(&self) -> usize
        ensures { result ≡ length (listed self.now) }
    {
        self.ops.len()
    }

    /// Whether there is no operation.
    pub fn is_empty(&self) -> bool
        ensures { IsTrue result ↔ (length (listed self.now) ≡ 0) }
    {
        self.len() == 0
    }

    /// Whether the operation is there, with this dot and this body.
    pub fn contains(&self, op: &Op<A>) -> bool
        ensures { result ≡ contains self.now op.now }
    {
        self.ops.search(&Sought { op }).is_ok()
    }

    /// Puts the operation in, and says whether it is new. Memory can be refused only for one that is not there; then the
    /// set stays as it is, and the operation comes back.
    pub fn insert(&mut self, op: Op<A>) -> Result<bool, (AllocError, Op<A>)>
        ensures added { IfOk result (λ added. added ≡ not (contains self.old op)) }
        ensures ok { OnOk result (self.new ≡ insert self.old op) }
        ensures err { OnErr result (self.new ≡ self.old) }
        ensures absent { OnErr result (contains self.old op ≡ false) }
        ensures returned { IfErr result (λ refused. refused.1 ≡ op) }
    {
        let Err(place) = self.ops.search(&Sought { op: &op }) else {
            return Ok(false);
        };
        let place = match self.ops.room_at(place) {
            Ok(place) => place,
            Err(refused) => return Err((refused, op)),
        };
        match Rc::new(self.alloc, op) {
            Ok(shared) => {
                let entry = Shared::new(shared);
                self.ops.insert(place, entry);
            }
            Err(refused) => return Err((AllocError, refused.value)),
        }
        Ok(true)
    }

    /// Puts in an operation that is shared, and says whether it is new. Memory can be refused only for one that is not there;
    /// then the set stays as it is.
    pub fn share(&mut self, op: &Rc<Op<A>, A>) -> Result<bool, AllocError>
        ensures added { IfOk result (λ added. added ≡ not (contains self.old op.now.value)) }
        ensures ok { OnOk result (self.new ≡ insert self.old op.now.value) }
        ensures err { OnErr result (self.new ≡ self.old) }
        ensures absent { OnErr result (contains self.old op.now.value ≡ false) }
    {
        let Err(place) = self.ops.search(&Sought { op: op.as_ref() }) else {
            return Ok(false);
        };
        let place = self.ops.room_at(place)?;
        let shared = op.clone()?;
        let entry = Shared::new(shared);
        self.ops.insert(place, entry);
        Ok(true)
    }

    /// Puts in a copy of the operation, unless it is there. Memory can be refused only for one that is not there; then the
    /// set stays as it is.
    pub fn add(&mut self, op: &Op<A>) -> Result<(), AllocError>
        ensures ok { OnOk result (self.new ≡ insert self.old op.now) }
        ensures err { OnErr result (self.new ≡ self.old) }
        ensures absent { OnErr result (contains self.old op.now ≡ false) }
    {
        if self.contains(op) {
            return Ok(());
        }
        let copy = op.copy(self.alloc)?;
        match self.insert(copy) {
            Ok(_) => Ok(()),
            Err((refused, _)) => Err(refused),
        }
    }

    /// Takes the operation out, and says whether it was there.
    pub fn remove(&mut self, op: &Op<A>) -> bool
        ensures was { result ≡ contains self.old op.now }
        ensures gone { self.new ≡ remove self.old op.now }
    {
        match self.ops.search(&Sought { op }) {
            Ok(place) => {
                self.ops.remove(place);
                true
            }
            Err(_) => false,
        }
    }

    /// The author's greatest number, or 0 where it has no operation here.
    pub fn last(&self, author: u32) -> u32
        ensures above { All (λ o. o.dot.author ≡ author → o.dot.number ≤ result) (listed self.now) }
        ensures is { (result ≡ 0) ⊎ Any (λ o. (o.dot.author ≡ author) × (o.dot.number ≡ result)) (listed self.now) }
    {
        let place = self.ops.partition_point(&UpTo { author });
        let Some(last) = self.ops.before(place) else {
            return 0;
        };
        let dot = self.ops.item_at(last).dot();
        if dot.author() == author {
            dot.number()
        } else {
            0
        }
    }

    /// The operations in their order.
    pub fn iter(&self) -> Ops<'_, A>
        ensures { result ≡ listed self.now }
    {
        Ops::new(self.ops.iter())
    }

    /// What refers to the operations, in their order, to be shared with others.
    pub fn iter_shared(&self) -> SharedOps<'_, A>
        ensures { result ≡ listed self.now }
    {
        let shared = self.ops.iter();
        SharedOps::new(shared)
    }
}

impl<A: Allocator + Copy> Join for OpSet<A> {
    ghost below = { IsSubset };

    ghost bound = { union };

    fn join(&mut self, other: &OpSet<A>) -> Result<(), AllocError> {
        for op in other.ops.iter() {
            self.share(op.reference())?;
        }
        Ok(())
    }

    ghost order = { subset_order op_cmp_total op_cmp_exact };

    ghost least = { union_bound op_cmp_total op_cmp_exact };
}
