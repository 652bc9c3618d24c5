//! The rare heaps of a game.
//!
//! A mask parts the heaps: one is rare if an even number of the bits of its nim-value are in the mask, and otherwise
//! common; where all moves that leave two heaps remove beans of one parity, the parity of the heap may count as a
//! further bit. Two common heaps then never have an exclusive or that is common at the heap that they came from. In
//! most games there is a mask under which few heaps are rare (Berlekamp, in Winning Ways, chapter 4; Gangolli and
//! Plambeck 1989; Flammenkamp 2002).
//!
//! So a value that is common and stands for no option with a rare heap stands for none of two heaps at all, and the
//! options with a rare heap mostly settle the mex. This is exact under each mask: that a mask is good is nowhere
//! proved, and shows in the time alone.

ghost use Rattle.std.specs.Prelude.{◌≡◌, ◌+◌, ◌-◌, ◌^◌, ◌<◌, ◌≤◌, [], IfOk, IsTrue, length, map, vec_len, vec_capacity};
ghost use Rattle.oct_mex.specs.Rare.{IsFit, Lists};

use crate::cell::Cell;
use crate::mask::{Mask, NO_MASK, best_mask, is_rare};
use oct_code::Code;
use std::alloc::{AllocError, Allocator};

// The rare heaps are listed while they are at most one in so many, and some more.
const SHARE: usize = 8;

const SPARE: usize = 64;

// Fewer values have no mask.
const FIRST_LOOK: usize = 256;

// While fewer heaps are rare, one in so many, no other mask is sought: to count all values takes longer than it could spare.
const FEW: usize = 4_096;

/// A mask, and the rare heaps from 1 on in a list, with their nim-values in another. With no bits in the mask none is
/// listed.
#[derive(Drop)]
pub struct Rare<T, A: Allocator> {
    pub mask: Mask,
    pub heaps: Vec<u32, A>,
    pub values: Vec<T, A>,
    // How many values there are when a mask is sought next.
    due: usize,
}

impl<T: Cell, A: Allocator + Copy> Rare<T, A> {
    /// No bits in the mask. Takes no memory.
    pub fn new(alloc: A) -> Rare<T, A>
        ensures mask { result.mask ≡ NO_MASK }
        ensures heaps { result.heaps.items ≡ [] }
        ensures values { result.values.items ≡ [] }
    {
        Rare {
            mask: NO_MASK,
            heaps: Vec::new(alloc),
            values: Vec::new(alloc),
            due: FIRST_LOOK,
        }
    }

    /// Makes room for the lists as `count` values have them at most.
    pub(crate) fn room_to(&mut self, count: usize) -> Result<(), AllocError>
        requires { count ≤ 2 ^ 32 }
        ensures mask { self.new.mask ≡ self.old.mask }
        ensures heaps { self.new.heaps.items ≡ self.old.heaps.items }
        ensures values { self.new.values.items ≡ self.old.values.items }
    {
        let most = count / SHARE + SPARE;
        self.heaps
            .reserve_exact(most.saturating_sub(self.heaps.len()))?;
        self.values
            .reserve_exact(most.saturating_sub(self.values.len()))
    }

    /// The same mask and lists, in memory of `alloc`.
    pub(crate) fn copy(&self, alloc: A, count: usize) -> Result<Rare<T, A>, AllocError>
        requires { count ≤ 2 ^ 32 }
        ensures mask { IfOk result (λ copy. copy.mask ≡ self.now.mask) }
        ensures heaps { IfOk result (λ copy. copy.heaps.items ≡ self.now.heaps.items) }
        ensures values { IfOk result (λ copy. copy.values.items ≡ self.now.values.items) }
    {
        let mut copy = Rare {
            mask: self.mask,
            heaps: Vec::from_slice(alloc, &self.heaps)?,
            values: Vec::from_slice(alloc, &self.values)?,
            due: self.due,
        };
        copy.room_to(count)?;
        Ok(copy)
    }

    /// Follows a list of values by its last one. Takes no memory: where there is no room for a list, or it has too many
    /// heaps, no mask serves until the next one is sought. Where that is the same, the lists stay.
    pub(crate) fn follow(&mut self, code: &Code, values: &[T])
        requires some { 0 < length values.now }
        requires limited { length values.now ≤ 2 ^ 32 }
        requires fit { IsFit code.now self.old.mask }
        requires listed { Lists self.old.mask (map T.number values.now) (length values.now - 1) self.old.heaps.items (map T.number self.old.values.items) }
        ensures fit { IsFit code.now self.new.mask }
        ensures listed { Lists self.new.mask (map T.number values.now) (length values.now) self.new.heaps.items (map T.number self.new.values.items) }
    {
        if values.len() < self.due || self.has_few(values.len()) {
            self.note(values.len() - 1, values);
            return;
        }
        self.due = values.len() + values.len() / 4;
        let best = best_mask(code, values);
        if best == self.mask {
            self.note(values.len() - 1, values);
        } else {
            self.mask = best;
            self.list(values);
        }
    }

    // Whether so few of this many heaps are rare that no other mask is sought.
    fn has_few(&self, count: usize) -> bool {
        self.mask.bits > 0 && self.heaps.len() < count / FEW
    }

    /// Gives the mask and the lists up: no mask serves, and none is sought any more.
    pub(crate) fn give_up(&mut self)
        ensures bits { self.new.mask.bits ≡ 0 }
        ensures parity { self.new.mask.parity ≡ self.old.mask.parity }
        ensures turn { self.new.mask.turn ≡ self.old.mask.turn }
        ensures heaps { self.new.heaps.items ≡ [] }
        ensures values { self.new.values.items ≡ [] }
    {
        self.due = usize::MAX;
        self.clear();
    }

    // No mask serves until the next one is sought.
    fn clear(&mut self)
        ensures bits { self.new.mask.bits ≡ 0 }
        ensures parity { self.new.mask.parity ≡ self.old.mask.parity }
        ensures turn { self.new.mask.turn ≡ self.old.mask.turn }
        ensures heaps { self.new.heaps.items ≡ [] }
        ensures values { self.new.values.items ≡ [] }
    {
        self.mask.bits = 0;
        self.heaps.clear();
        self.values.clear();
    }

    // Lists the rare heaps anew.
    fn list(&mut self, values: &[T])
        requires limited { length values.now ≤ 2 ^ 32 }
        ensures parity { self.new.mask.parity ≡ self.old.mask.parity }
        ensures turn { self.new.mask.turn ≡ self.old.mask.turn }
        ensures listed { Lists self.new.mask (map T.number values.now) (length values.now) self.new.heaps.items (map T.number self.new.values.items) }
    {
        self.heaps.clear();
        self.values.clear();
        for heap in 0..values.len() {
            self.note(heap, values);
        }
    }

    // Lists a heap if it is rare. If there are too many, no mask serves.
    fn note(&mut self, heap: usize, values: &[T])
        requires held { heap < length values.now }
        requires limited { length values.now ≤ 2 ^ 32 }
        requires listed { Lists self.old.mask (map T.number values.now) heap self.old.heaps.items (map T.number self.old.values.items) }
        ensures parity { self.new.mask.parity ≡ self.old.mask.parity }
        ensures turn { self.new.mask.turn ≡ self.old.mask.turn }
        ensures listed { Lists self.new.mask (map T.number values.now) (heap + 1) self.new.heaps.items (map T.number self.new.values.items) }
    {
        if 0 < heap && 0 < self.mask.bits && is_rare(self.mask, heap, values[heap].number()) {
            if self.has_room(values.len()) {
                self.heaps.push_reserved(heap as u32);
                self.values.push_reserved(values[heap]);
            } else {
                self.clear();
            }
        }
    }

    // Whether a further heap may be listed, of so many values.
    fn has_room(&self, count: usize) -> bool
        ensures { IsTrue result → (vec_len self.now.heaps < vec_capacity self.now.heaps) × (vec_len self.now.values < vec_capacity self.now.values) }
    {
        let len = self.heaps.len();
        len < count / SHARE + SPARE
            && len < self.heaps.capacity()
            && self.values.len() < self.values.capacity()
    }
}
