//! The nim-values of a game once more, in cells of 16 bits: twice as many are compared at a time as in 32 bits.

ghost use Rattle.std.specs.Prelude.{◌≡◌, ◌^◌, ◌≤◌, ◌⊎◌, [], OnOk, length, slice_index, take, vec_capacity, vec_len};

use std::alloc::{AllocError, Allocator};

// Fewer values are soon compared in any cell.
const FEWEST: usize = 1_024;

/// The first values of a list, at most those before the first one that has more than 16 bits.
#[derive(Drop)]
pub(crate) struct Narrow<A: Allocator> {
    pub(crate) values: Vec<u16, A>,
}

impl<A: Allocator> Narrow<A> {
    /// No value. Takes no memory.
    pub(crate) fn new(alloc: A) -> Narrow<A>
        ensures items { result.values.items ≡ [] }
        ensures len { vec_len result.values ≡ 0 }
    {
        Narrow {
            values: Vec::new(alloc),
        }
    }

    /// Makes room for `count` values, or none where these are few.
    pub(crate) fn make_room(&mut self, count: usize) -> Result<(), AllocError>
        ensures items { self.new.values.items ≡ self.old.values.items }
        ensures len { vec_len self.new.values ≡ vec_len self.old.values }
        ensures room { OnOk result (FEWEST ≤ count → count ≤ vec_capacity self.new.values) }
    {
        if count < FEWEST {
            return Ok(());
        }
        self.values
            .reserve_exact(count.saturating_sub(self.values.len()))
    }

    /// Takes over the next values of a list, as far as they have at most 16 bits and there is room. Takes no memory.
    pub(crate) fn follow(&mut self, values: &[u32])
        requires within { vec_len self.old.values ≤ length values.now }
        requires begins { self.old.values.items ≡ take (vec_len self.old.values) values.now }
        ensures within { vec_len self.new.values ≤ length values.now }
        ensures begins { self.new.values.items ≡ take (vec_len self.new.values) values.now }
        ensures far { (vec_len self.new.values ≡ length values.now) ⊎ ((vec_capacity self.old.values ≤ vec_len self.new.values) ⊎ (2 ^ 16 ≤ slice_index values.now (vec_len self.new.values))) }
    {
        for heap in self.values.len()..values.len() {
            let Ok(value) = u16::try_from(values[heap]) else {
                return;
            };
            if self.values.len() == self.values.capacity() {
                return;
            }
            self.values.push_reserved(value);
        }
    }
}
