//! A finite set of operations.

ghost use Rattle.std.specs.Prelude.{◌≡◌, ◌↔◌, ◌++◌, not, false, length, true, IsTrue, IfOk, IfErr, OnOk, OnErr};
ghost use Rattle.oct_ops.specs.Operations.{empty, insert, remove, contains, listed, union, IsSubset};
ghost use Rattle.oct_ops.specs.OrderLaws.{op_cmp_total, op_cmp_exact};
ghost use Rattle.oct_join.specs.SetBounds.{subset_order, union_bound};
ghost use Rattle.oct_store.specs.Rows.{author_rows, fork_rows, fork_or_none};
ghost use Rattle.oct_store.specs.Summary as summary;

use crate::author::Author;
use crate::fork::Fork;
use oct_code::Code;
use oct_join::{Clock, Join, OpSet, Ops, SharedOps};
use oct_ops::{Op, OpList};
use std::alloc::{AllocError, Allocator};
use std::marker::Model;
use std::rc::Rc;

/// A finite set of operations, in memory of `A`. Operations are the same only if dot and body are.
///
///     let mut store = Store::new(alloc);
///     store.insert(operation)?;             // true: it is new
///     store.insert(copy)?;                  // false: it is there already
///     store.join(&other)?;                  // the union; a refusal leaves a set between the old one and the union
///     store.list()?                         // copies of all, in the operation order
///
/// A look-up, an insertion and a removal take what they take in an `OpSet`. What is read off the whole set is read in one
/// pass over it, in the order of the operations.
#[derive(Drop)]
pub struct Store<A: Allocator + Copy> {
    ops: OpSet<A>,
    alloc: A,
}

impl<A: Allocator + Copy> Model for Store<A> {
    ghost use Rattle.oct_ops.specs.Operations.{Operations, operations_code};

    ghost Value = { Operations };

    ghost coded = { operations_code };

    ghost view = { λ s. s.ops };
}

impl<A: Allocator + Copy> Store<A> {
    /// The empty set, which will grow in memory of `alloc`.
    pub fn new(alloc: A) -> Store<A>
        ensures { result ≡ empty }
    {
        Store {
            ops: OpSet::new(alloc),
            alloc,
        }
    }

    /// How many operations there are.
    pub fn len(&self) -> usize
        ensures { result ≡ length (listed self.now) }
    {
        self.ops.len()
    }

    /// Whether there is no operation.
    pub fn is_empty(&self) -> bool
        ensures { IsTrue result ↔ (length (listed self.now) ≡ 0) }
    {
        self.ops.is_empty()
    }

    /// Whether the operation is there, with this dot and this body.
    pub fn contains(&self, op: &Op<A>) -> bool
        ensures { result ≡ contains self.now op.now }
    {
        self.ops.contains(op)
    }

    /// Puts the operation in, and says whether it is new. Memory can be refused only for one that is not there; then the
    /// set stays as it is, and the operation comes back.
    pub fn insert(&mut self, op: Op<A>) -> Result<bool, (AllocError, Op<A>)>
        ensures added { IfOk result (λ added. added ≡ not (contains self.old op)) }
        ensures ok { OnOk result (self.new ≡ insert self.old op) }
        ensures err { OnErr result (self.new ≡ self.old) }
        ensures absent { OnErr result (contains self.old op ≡ false) }
        ensures returned { IfErr result (λ refused. refused.1 ≡ op) }
    {
        self.ops.insert(op)
    }

    /// Puts in an operation that is shared, and says whether it is new. Memory can be refused only for one that is not there;
    /// then the set stays as it is.
    pub fn share(&mut self, op: &Rc<Op<A>, A>) -> Result<bool, AllocError>
        ensures added { IfOk result (λ added. added ≡ not (contains self.old op.now.value)) }
        ensures ok { OnOk result (self.new ≡ insert self.old op.now.value) }
        ensures err { OnErr result (self.new ≡ self.old) }
        ensures absent { OnErr result (contains self.old op.now.value ≡ false) }
    {
        self.ops.share(op)
    }

    /// Takes the operation out, and says whether it was there.
    pub fn remove(&mut self, op: &Op<A>) -> bool
        ensures was { result ≡ contains self.old op.now }
        ensures gone { self.new ≡ remove self.old op.now }
    {
        self.ops.remove(op)
    }

    /// The operations in their order.
    pub fn iter(&self) -> Ops<'_, A>
        ensures { result ≡ listed self.now }
    {
        self.ops.iter()
    }

    /// What refers to the operations, in their order, to be shared with others.
    pub fn iter_shared(&self) -> SharedOps<'_, A>
        ensures { result ≡ listed self.now }
    {
        self.ops.iter_shared()
    }

    /// Copies of all operations, in order.
    pub fn list(&self) -> Result<OpList<A>, AllocError>
        ensures { IfOk result (λ list. list ≡ listed self.now) }
    {
        let mut list = Vec::with_capacity(self.alloc, self.len())?;
        for op in self.iter() {
            list.push(op.copy(self.alloc)?)?;
        }
        Ok(OpList::of_rising(list))
    }

    /// The author's greatest number, or 0 where it has no operation here. It takes what a look-up takes.
    pub fn last(&self, author: u32) -> u32
        ensures { result ≡ summary.last (listed self.now) author }
    {
        self.ops.last(author)
    }

    /// For each author the number through which all of its operations are here, from the first on. An author whose first
    /// operation is missing is no part of the clock.
    pub fn clock(&self) -> Result<Clock<A>, AllocError>
        ensures { IfOk result (λ clock. clock ≡ summary.clock_of (listed self.now)) }
    {
        let mut clock = Clock::new(self.alloc);
        for op in self.iter() {
            let dot = op.dot();
            if clock.through(dot.author()) == dot.number() - 1 {
                clock.raise(dot.author(), dot.number())?;
            }
        }
        Ok(clock)
    }

    /// Each author that has an operation here, rising.
    pub fn authors(&self) -> Result<Vec<Author, A>, AllocError>
        ensures { IfOk result (λ authors. authors.items ≡ author_rows (listed self.now)) }
    {
        let mut authors = Vec::new(self.alloc);
        let mut current: Option<Author> = None;
        for op in self.iter() {
            let dot = op.dot();
            current = Some(match current {
                Some(author) if author.author == dot.author() => author.with(dot.number()),
                Some(author) => {
                    authors.push(author)?;
                    Author::unseen(dot.author()).with(dot.number())
                }
                None => Author::unseen(dot.author()).with(dot.number()),
            });
        }
        if let Some(author) = current {
            authors.push(author)?;
        }
        Ok(authors)
    }

    /// Each dot that has two contents or more here, rising.
    pub fn forks(&self) -> Result<Vec<Fork, A>, AllocError>
        ensures { IfOk result (λ forks. forks.items ≡ fork_rows (listed self.now)) }
    {
        prove!(self.len() <= usize::MAX);
        let mut forks = Vec::new(self.alloc);
        let mut current: Option<Fork> = None;
        for op in self.iter() {
            current = Some(match current {
                Some(fork) if fork.dot == op.dot() => fork.with_content(),
                Some(fork) => {
                    push_fork(&mut forks, fork)?;
                    Fork::uncounted(op.dot()).with_content()
                }
                None => Fork::uncounted(op.dot()).with_content(),
            });
        }
        if let Some(fork) = current {
            push_fork(&mut forks, fork)?;
        }
        Ok(forks)
    }

    /// Copies of the operations that the clock does not cover, in order: those whose number is greater than the clock
    /// gives for their author.
    pub fn beyond(&self, clock: &Clock<A>) -> Result<OpList<A>, AllocError>
        ensures { IfOk result (λ list. list ≡ listed (summary.beyond self.now clock.now)) }
    {
        let mut list = Vec::new(self.alloc);
        for op in self.iter() {
            if !clock.covers(&op.dot()) {
                list.push(op.copy(self.alloc)?)?;
            }
        }
        Ok(OpList::of_rising(list))
    }

    /// Copies of the blocks and claims of the game, in order.
    pub fn of_game(&self, code: Code) -> Result<OpList<A>, AllocError>
        ensures { IfOk result (λ list. list ≡ listed (summary.of_game self.now code)) }
    {
        let mut list = Vec::new(self.alloc);
        for op in self.iter() {
            if op.body().code() == Some(code) {
                list.push(op.copy(self.alloc)?)?;
            }
        }
        Ok(OpList::of_rising(list))
    }
}

// Adds a dot whose contents are counted, if it is a fork.
fn push_fork<A: Allocator>(forks: &mut Vec<Fork, A>, fork: Fork) -> Result<(), AllocError>
    ensures { OnOk result (forks.new.items ≡ forks.old.items ++ fork_or_none fork) }
{
    if fork.contents >= 2 {
        forks.push(fork)?;
    }
    Ok(())
}

impl<A: Allocator + Copy> Join for Store<A> {
    ghost below = { IsSubset };

    ghost bound = { union };

    fn join(&mut self, other: &Store<A>) -> Result<(), AllocError> {
        self.ops.join(&other.ops)
    }

    ghost order = { subset_order op_cmp_total op_cmp_exact };

    ghost least = { union_bound op_cmp_total op_cmp_exact };
}
