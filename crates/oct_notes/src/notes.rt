//! A set of notes and their removals.

ghost use Rattle.std.specs.Prelude.{◌≡◌, ◌↔◌, length, map, false, IsTrue, IfOk, IfErr, OnOk, OnErr};
ghost use Rattle.std.specs.List.{filter};
ghost use Rattle.oct_ops.specs.Operations.{empty, insert, remove, contains, listed, union, IsSubset};
ghost use Rattle.oct_ops.specs.OrderLaws.{op_cmp_total, op_cmp_exact};
ghost use Rattle.oct_join.specs.SetBounds.{subset_order, union_bound};
ghost use Rattle.oct_notes.specs.Notes as spec;

use crate::name::is_named;
use crate::removed::Removed;
use crate::row::Row;
use oct_join::{Join, OpSet, Ops};
use oct_ops::{Body, Dot, Op};
use std::alloc::{AllocError, Allocator};
use std::marker::Model;
use std::rc::Rc;

/// A finite set of notes and removals, in memory of `A`: an observed-remove set (Shapiro et al. 2011). Operations are the
/// same only if dot and body are.
///
///     let mut notes = Notes::new(alloc);
///     notes.add(&note)?;                    // nothing changes where it is there already
///     notes.join(&other)?;                  // the union; a refusal leaves a set between the old one and the union
///     notes.live_refs()?                    // the live notes, by name; `live` copies them
///     notes.take_back(&note);               // as if it had not been added
///
/// `insert`, `add`, `share` and `take_back` take what they take in an `OpSet`. `live_refs`,
/// `live` and `live_dots` read the whole set once; beside that they sort the dots that are removed, and look up the dot of
/// each note.
#[derive(Drop)]
pub struct Notes<A: Allocator + Copy> {
    ops: OpSet<A>,
    alloc: A,
}

impl<A: Allocator + Copy> Model for Notes<A> {
    ghost use Rattle.oct_ops.specs.Operations.{Operations, operations_code};
    ghost use Rattle.oct_notes.specs.Notes.{AreNotes};

    ghost Value = { Operations };

    ghost coded = { operations_code };

    ghost view = { λ n. n.ops };

    ghost invariant = { λ n. AreNotes n.ops };
}

impl<A: Allocator + Copy> Notes<A> {
    /// The empty set, which will grow in memory of `alloc`.
    pub fn new(alloc: A) -> Notes<A>
        ensures { result ≡ empty }
    {
        Notes {
            ops: OpSet::new(alloc),
            alloc,
        }
    }

    /// How many notes and removals there are.
    pub fn len(&self) -> usize
        ensures { result ≡ length (listed self.now) }
    {
        self.ops.len()
    }

    /// Whether there is no note and no removal.
    pub fn is_empty(&self) -> bool
        ensures { IsTrue result ↔ (length (listed self.now) ≡ 0) }
    {
        self.ops.is_empty()
    }

    /// Whether the operation is there, with this dot and this body.
    pub fn contains(&self, op: &Op<A>) -> bool
        ensures value { result ≡ contains self.now op.now }

        // Only notes and removals are.
        ensures kind { IsTrue result → IsTrue (spec.concerns_notes op.now.body) }
    {
        self.ops.contains(op)
    }

    /// Puts in the operation, which has to be a note or a removal. Memory can be refused only where it is not there; then
    /// the set stays as it is, and the operation comes back.
    pub fn insert(&mut self, op: Op<A>) -> Result<(), (AllocError, Op<A>)>
        requires { IsTrue (spec.concerns_notes op.body) }
        ensures ok { OnOk result (self.new ≡ insert self.old op) }
        ensures err { OnErr result (self.new ≡ self.old) }
        ensures absent { OnErr result (contains self.old op ≡ false) }
        ensures returned { IfErr result (λ refused. refused.1 ≡ op) }
    {
        match self.ops.insert(op) {
            Ok(_) => Ok(()),
            Err(refused) => Err(refused),
        }
    }

    /// Puts in a copy of the operation, which has to be a note or a removal. Memory can be refused only where it is not
    /// there; then the set stays as it is.
    pub fn add(&mut self, op: &Op<A>) -> Result<(), AllocError>
        requires { IsTrue (spec.concerns_notes op.now.body) }
        ensures ok { OnOk result (self.new ≡ insert self.old op.now) }
        ensures err { OnErr result (self.new ≡ self.old) }
        ensures absent { OnErr result (contains self.old op.now ≡ false) }
    {
        self.ops.add(op)
    }

    /// Puts in an operation that is shared, which has to be a note or a removal. Memory can be refused only where it is not
    /// there; then the set stays as it is.
    pub fn share(&mut self, op: &Rc<Op<A>, A>) -> Result<(), AllocError>
        requires { IsTrue (spec.concerns_notes op.now.value.body) }
        ensures ok { OnOk result (self.new ≡ insert self.old op.now.value) }
        ensures err { OnErr result (self.new ≡ self.old) }
        ensures absent { OnErr result (contains self.old op.now.value ≡ false) }
    {
        match self.ops.share(op) {
            Ok(_) => Ok(()),
            Err(refused) => Err(refused),
        }
    }

    /// Takes the operation out again, if it is there.
    pub fn take_back(&mut self, op: &Op<A>)
        ensures { self.new ≡ remove self.old op.now }
    {
        self.ops.remove(op);
    }

    /// The live notes, those whose dot no removal here names: by name in byte order, where a name comes before those that
    /// it begins, and then in the order of operations.
    pub fn live_refs(&self) -> Result<Vec<&Op<A>, A>, AllocError>
        ensures { IfOk result (λ live. map (λ op. op.now) live.items ≡ spec.live_notes (listed self.now)) }
    {
        let mut rows = self.rows()?;
        rows.sort_unstable_by(|row, other| row.order(other));
        let mut live = Vec::with_capacity(self.alloc, rows.len())?;
        for row in &rows {
            live.push(row.note())?;
        }
        Ok(live)
    }

    /// Copies of the live notes, in the same order.
    pub fn live(&self) -> Result<Vec<Op<A>, A>, AllocError>
        ensures { IfOk result (λ live. live.items ≡ spec.live_notes (listed self.now)) }
    {
        let refs = self.live_refs()?;
        let mut live = Vec::with_capacity(self.alloc, refs.len())?;
        for op in &refs {
            live.push(op.copy(self.alloc)?)?;
        }
        Ok(live)
    }

    /// The dots of the live notes of the name, rising, each once. A removal of these dots leaves no live note of the name
    /// here.
    pub fn live_dots(&self, name: &[u8]) -> Result<Vec<Dot, A>, AllocError>
        ensures { IfOk result (λ dots. dots.items ≡ spec.live_dots (listed self.now) name.now) }
    {
        let removed = self.removed()?;
        let mut dots = Vec::new(self.alloc);
        for op in self.iter() {
            if is_named(op, name) && removed.leaves(op) {
                dots.push(op.dot())?;
            }
        }
        dots.dedup();
        Ok(dots)
    }

    // The operations in their order.
    fn iter(&self) -> Ops<'_, A>
        ensures { result ≡ listed self.now }
    {
        self.ops.iter()
    }

    // The live notes, in the order of operations.
    fn rows(&self) -> Result<Vec<Row<'_, A>, A>, AllocError>
        ensures { IfOk result (λ rows. rows.items ≡ filter (spec.is_live (listed self.now)) (listed self.now)) }
    {
        let removed = self.removed()?;
        let mut rows = Vec::new(self.alloc);
        for op in self.iter() {
            if !removed.leaves(op) {
                continue;
            }
            rows.push(Row::new(op))?;
        }
        Ok(rows)
    }

    // The dots that the removals name.
    fn removed(&self) -> Result<Removed<A>, AllocError>
        ensures { IfOk result (spec.AreRemoved (listed self.now)) }
    {
        let mut dots = Vec::new(self.alloc);
        for op in self.iter() {
            if let Body::Removal(removal) = op.body() {
                dots.extend_from_slice(removal.dots())?;
            }
        }
        Ok(Removed::new(dots))
    }
}

impl<A: Allocator + Copy> Join for Notes<A> {
    ghost below = { IsSubset };

    ghost bound = { union };

    fn join(&mut self, other: &Notes<A>) -> Result<(), AllocError> {
        self.ops.join(&other.ops)
    }

    ghost order = { subset_order op_cmp_total op_cmp_exact };

    ghost least = { union_bound op_cmp_total op_cmp_exact };
}
