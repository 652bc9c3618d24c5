//! The nim-values of a game in a list that grows at its end.

ghost use Rattle.std.specs.Prelude.{◌≡◌, ◌+◌, ◌*◌, ◌^◌, ◌⊎◌, ◌<◌, ◌≤◌, if◌then◌else◌, IfOk, IsTrue, OnOk, [], false, length, map, max, vec_len, vec_capacity};
ghost use Rattle.std.specs.List.{All};
ghost use Rattle.oct_code.specs.Code as octal;
ghost use Rattle.oct_mex.specs.NimValues.{nim_value};
ghost use Rattle.oct_mex.specs.Periods.{GoesOn};
ghost use Rattle.oct_mex.specs.Row.{IsRow};
ghost use Rattle.oct_mex.specs.Totals.{IsTable};

use crate::cell::Cell;
use crate::next::{next_by_marks, next_value};
use crate::rare::Rare;
use crate::totals::Table;
use oct_code::Code;
use std::alloc::{AllocError, Allocator};

/// The nim-values of the heaps 0, 1, .. of a game, each in a cell, and what finds the next one soon.
#[derive(Drop)]
pub struct Row<T, A: Allocator> {
    pub values: Vec<T, A>,
    /// The part of a table of marks that is used: a power of two above each value.
    pub used: usize,
    pub rare: Rare<T, A>,
}

impl<T: Cell, A: Allocator + Copy> Row<T, A> {
    /// No value of a game. Takes no memory.
    pub fn new(alloc: A) -> Row<T, A>
        ensures row { (c : octal.Code) → IsRow T.number c result }
        ensures len { vec_len result.values ≡ 0 }
        ensures used { result.used ≡ 1 }
    {
        Row {
            values: Vec::new(alloc),
            used: 1,
            rare: Rare::new(alloc),
        }
    }

    /// Makes room for `count` values. Without memory nothing changes but the room.
    pub fn room_to(&mut self, count: usize) -> Result<(), AllocError>
        requires { count ≤ 2 ^ 32 }
        ensures row { (c : octal.Code) → IsRow T.number c self.old → IsRow T.number c self.new }
        ensures items { self.new.values.items ≡ self.old.values.items }
        ensures len { vec_len self.new.values ≡ vec_len self.old.values }
        ensures used { self.new.used ≡ self.old.used }
        ensures more { vec_capacity self.old.values ≤ vec_capacity self.new.values }
        ensures room { OnOk result (count ≤ vec_capacity self.new.values) }
    {
        self.values
            .reserve_exact(count.saturating_sub(self.values.len()))?;
        self.rare.room_to(count)
    }

    /// The same values, in memory of `alloc`, with room for `count`.
    pub(crate) fn copy(&self, alloc: A, count: usize) -> Result<Row<T, A>, AllocError>
        requires { count ≤ 2 ^ 32 }
        ensures row { IfOk result (λ copy. (c : octal.Code) → IsRow T.number c self.now → IsRow T.number c copy) }
        ensures items { IfOk result (λ copy. copy.values.items ≡ self.now.values.items) }
        ensures len { IfOk result (λ copy. vec_len copy.values ≡ vec_len self.now.values) }
        ensures used { IfOk result (λ copy. copy.used ≡ self.now.used) }
        ensures room { IfOk result (λ copy. count ≤ vec_capacity copy.values) }
    {
        let mut values = Vec::with_capacity(alloc, count.max(self.values.len()))?;
        values.extend_from_slice(&self.values)?;
        Ok(Row {
            values,
            used: self.used,
            rare: self.rare.copy(alloc, count)?,
        })
    }

    /// Adds the next value, for which there is room, and says whether its cell holds it: else nothing changes. Takes
    /// no memory.
    pub fn push_next(&mut self, code: &Code, marks: &mut [bool]) -> bool
        requires row { IsRow T.number code.now self.old }
        requires limited { vec_len self.old.values < 2 ^ 32 }
        requires room { vec_len self.old.values < vec_capacity self.old.values }
        requires marks { self.old.used ≤ length marks.old }
        ensures row { IsRow T.number code.now self.new }
        ensures len { vec_len self.new.values ≡ (if result then vec_len self.old.values + 1 else vec_len self.old.values) }
        ensures used { (self.new.used ≡ self.old.used) ⊎ ((self.new.used ≡ 2 * self.old.used) × (nim_value code.now (vec_len self.old.values) ≡ self.old.used)) }
        ensures past { result ≡ false → T.bound ≤ nim_value code.now (vec_len self.old.values) }
        ensures room { vec_capacity self.new.values ≡ vec_capacity self.old.values }
        ensures marks { length marks.new ≡ length marks.old }
    {
        let value = next_by_marks(
            code,
            &self.values,
            &self.values,
            self.rare.mask,
            &self.rare.heaps,
            &self.rare.values,
            &mut marks[..self.used],
        );
        self.push_value(code, value)
    }

    /// The same by the tables of the totals, which stay right for the values and the mask that there were, and by the same values in
    /// narrower cells, if there are as many.
    pub(crate) fn push_next_by<N: Cell>(
        &mut self,
        code: &Code,
        narrow: &[N],
        tables: &mut [Table<A>],
        marks: &mut [bool],
    ) -> bool
        requires row { IsRow T.number code.now self.old }
        requires limited { vec_len self.old.values < 2 ^ 32 }
        requires room { vec_len self.old.values < vec_capacity self.old.values }
        requires marks { self.old.used ≤ length marks.old }
        requires same { length narrow.now ≡ vec_len self.old.values → map N.number narrow.now ≡ map T.number self.old.values.items }
        requires tables { All (IsTable self.old.rare.mask (map T.number self.old.values.items)) tables.old }
        ensures row { IsRow T.number code.now self.new }
        ensures len { vec_len self.new.values ≡ (if result then vec_len self.old.values + 1 else vec_len self.old.values) }
        ensures used { (self.new.used ≡ self.old.used) ⊎ ((self.new.used ≡ 2 * self.old.used) × (nim_value code.now (vec_len self.old.values) ≡ self.old.used)) }
        ensures past { result ≡ false → T.bound ≤ nim_value code.now (vec_len self.old.values) }
        ensures room { vec_capacity self.new.values ≡ vec_capacity self.old.values }
        ensures marks { length marks.new ≡ length marks.old }
        ensures count { length tables.new ≡ length tables.old }
        ensures tables { All (IsTable self.old.rare.mask (map T.number self.old.values.items)) tables.new }
    {
        let value = next_value(
            code,
            &self.values,
            narrow,
            self.rare.mask,
            &self.rare.heaps,
            &self.rare.values,
            tables,
            &mut marks[..self.used],
        );
        self.push_value(code, value)
    }

    /// Adds the next value, if a cell holds it.
    pub(crate) fn push_value(&mut self, code: &Code, value: usize) -> bool
        requires row { IsRow T.number code.now self.old }
        requires limited { vec_len self.old.values < 2 ^ 32 }
        requires room { vec_len self.old.values < vec_capacity self.old.values }
        requires value { value ≡ nim_value code.now (vec_len self.old.values) }
        requires within { value ≤ self.old.used }
        ensures row { IsRow T.number code.now self.new }
        ensures len { vec_len self.new.values ≡ (if result then vec_len self.old.values + 1 else vec_len self.old.values) }
        ensures used { (self.new.used ≡ self.old.used) ⊎ ((self.new.used ≡ 2 * self.old.used) × (nim_value code.now (vec_len self.old.values) ≡ self.old.used)) }
        ensures past { result ≡ false → T.bound ≤ nim_value code.now (vec_len self.old.values) }
        ensures room { vec_capacity self.new.values ≡ vec_capacity self.old.values }
    {
        let Some(cell) = T::from_number(value) else {
            return false;
        };
        self.values.push_reserved(cell);
        self.rare.follow(code, &self.values);
        if value == self.used {
            self.used *= 2;
        }
        true
    }

    /// Adds the value of the heap one period before, for which there is room. Takes no memory.
    pub fn push_again(&mut self, code: &Code, period: usize)
        requires row { IsRow T.number code.now self.old }
        requires limited { vec_len self.old.values < 2 ^ 32 }
        requires room { vec_len self.old.values < vec_capacity self.old.values }
        requires some { 1 ≤ period }
        requires on { GoesOn code.now (vec_len self.old.values) period }
        ensures row { IsRow T.number code.now self.new }
        ensures len { vec_len self.new.values ≡ vec_len self.old.values + 1 }
        ensures used { self.new.used ≡ self.old.used }
        ensures room { vec_capacity self.new.values ≡ vec_capacity self.old.values }
    {
        let cell = self.values[self.values.len() - period];
        self.values.push_reserved(cell);
        self.rare.follow(code, &self.values);
    }

    /// Gives the rare heaps up, where the further values are copied: no mask serves, and none is sought any more.
    pub fn give_up_rare(&mut self)
        ensures row { (c : octal.Code) → IsRow T.number c self.old → IsRow T.number c self.new }
        ensures values { self.new.values ≡ self.old.values }
        ensures used { self.new.used ≡ self.old.used }
        ensures mask { self.new.rare.mask.bits ≡ 0 }
        ensures heaps { self.new.rare.heaps.items ≡ [] }
        ensures beside { self.new.rare.values.items ≡ [] }
    {
        self.rare.give_up();
    }
}
