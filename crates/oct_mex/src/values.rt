//! The first nim-values of a game.

ghost use Rattle.std.specs.Prelude.{◌≡◌, ◌+◌, ◌*◌, ◌^◌, ◌<◌, ◌≤◌, ◌⊎◌, ◌↔◌, false, max, length, IfOk, IfSome, IsTrue, MatchOption, OnErr, OnOk, SomeIff};
ghost use Rattle.std.specs.List.{All};
ghost use Rattle.oct_code.specs.Code as octal;
ghost use Rattle.oct_mex.specs.Following.{Follows};
ghost use Rattle.oct_mex.specs.NimValues.{nim_values, nim_value};
ghost use Rattle.oct_mex.specs.Periods.{IsPeriodicFrom, NoneIsShown, NoneIsShownBefore};

use crate::following::{Leader, is_led};
use crate::leaders::Leaders;
use crate::marks::table_len;
use crate::mask::{Mask, NO_MASK};
use crate::narrow::Narrow;
use crate::period::{SeenPeriod, find_period};
use crate::row::Row;
use crate::totals::{Table, follow_mask, room_for_tables};
use oct_code::{Code, LIMIT};
use std::alloc::{AllocError, Allocator};
use std::marker::Model;

// Fewer values are not searched for a period.
const FIRST_LOOK: usize = 64;

/// The nim-values of the heaps 0, 1, .. of a game, as far as they are computed, and room for more of them.
#[derive(Drop)]
pub struct Values<A: Allocator + Copy> {
    code: Code,
    row: Row<u32, A>,
    // The same values, as far as there are many, fit it and are not copied.
    narrow: Narrow<A>,
    marks: Vec<bool, A>,
    room: usize,
    // A period with which the values go on, or 0 while none is seen.
    period: usize,
    // What is known of the pairs of heaps under a mask, while no period is seen.
    tables: Vec<Table<A>, A>,
    mask: Mask,
}

impl<A: Allocator + Copy> Model for Values<A> {
    ghost use Rattle.oct_mex.specs.Held.{Held};
    ghost use Rattle.oct_mex.specs.Fields.{held_of, IsStored};

    ghost Value = { Held };

    ghost view = { held_of };

    ghost invariant = { IsStored };
}

impl<A: Allocator + Copy> Values<A> {
    /// No value of the game of a code. Takes no memory.
    pub fn new(alloc: A, code: Code) -> Values<A>
        ensures { result ≡ record { code = code; len = 0; room = 0 } }
    {
        let _ = code.len();
        Values {
            code,
            row: Row::new(alloc),
            narrow: Narrow::new(alloc),
            marks: Vec::new(alloc),
            room: 0,
            period: 0,
            tables: Vec::new(alloc),
            mask: NO_MASK,
        }
    }

    /// The code of the game.
    pub fn code(&self) -> Code
        ensures { result ≡ self.now.code }
    {
        self.code
    }

    /// The nim-values of the heaps 0, 1, .., as far as they are computed.
    pub fn as_slice(&self) -> &[u32]
        ensures values { result.now ≡ nim_values self.now.code self.now.len }
        ensures len { length result.now ≡ self.now.len }
        ensures small { All (λ v. v < 2 ^ 20) result.now }
    {
        self.row.values.as_slice()
    }

    /// The nim-value of a heap, if it is computed.
    pub fn get(&self, heap: usize) -> Option<u32>
        ensures value { SomeIff result (heap < self.now.len) (nim_value self.now.code heap) }
        ensures small { IfSome result (λ v. v < 2 ^ 20) }
    {
        self.row.values.get(heap).copied()
    }

    /// For how many nim-values there is room, at most `LIMIT`.
    pub fn room(&self) -> usize
        ensures room { result ≡ self.now.room }
        ensures limited { result ≤ LIMIT }
    {
        self.room
    }

    /// Makes room for the nim-values of `count` heaps, at most `LIMIT`. Without memory nothing changes; within the room that
    /// is there none is taken.
    pub fn room_to(&mut self, count: usize) -> Result<(), AllocError>
        requires { count ≤ LIMIT }
        ensures ok { OnOk result (self.new ≡ record self.old { room = max count self.old.room }) }
        ensures err { OnErr result (self.new ≡ self.old) }
        ensures short { OnErr result (self.old.room < count) }
    {
        if self.room < count {
            self.row.room_to(count)?;
            self.narrow.make_room(count)?;
            self.marks.resize(table_len(&self.code, count), false)?;
            room_for_tables(*self.marks.allocator(), &self.code, &mut self.tables, count)?;
            self.room = count;
        }
        Ok(())
    }

    /// Computes the nim-values of `count` heaps, for which there is room. Takes no memory.
    pub fn extend_within(&mut self, count: usize)
        requires { count ≤ self.old.room }
        ensures { self.new ≡ record self.old { len = max count self.old.len } }
    {
        for _ in self.row.values.len()..count {
            self.look_for_period();
            self.push_next();
        }
    }

    // Looks for a period, at lengths that grow by a third or a half, until one is seen.
    fn look_for_period(&mut self)
        ensures { self.new ≡ self.old }
    {
        if self.period == 0 && is_looked_at(self.row.values.len()) {
            if let Some(seen) = find_period(&self.code, &self.row.values) {
                self.period = seen.period;
            }
        }
    }

    // Adds the next value: the one a period before, or else the mex.
    fn push_next(&mut self)
        requires { self.old.len < self.old.room }
        ensures { self.new ≡ record self.old { len = self.old.len + 1 } }
    {
        if self.period > 0 {
            self.row.push_again(&self.code, self.period);
        } else {
            follow_mask(&mut self.tables, self.mask, self.row.rare.mask);
            self.mask = self.row.rare.mask;
            self.narrow.follow(&self.row.values);
            let _ = self.row.push_next_by(
                &self.code,
                &self.narrow.values,
                &mut self.tables,
                &mut self.marks,
            );
        }
    }

    /// Computes the nim-values of `count` heaps, at most `LIMIT`. Without memory nothing changes; within the room that is
    /// there none is taken.
    pub fn extend_to(&mut self, count: usize) -> Result<(), AllocError>
        requires { count ≤ LIMIT }
        ensures ok { OnOk result (self.new ≡ record { code = self.old.code; len = max count self.old.len; room = max count self.old.room }) }
        ensures err { OnErr result (self.new ≡ self.old) }
        ensures short { OnErr result (self.old.room < count) }
    {
        self.room_to(count)?;
        self.extend_within(count);
        Ok(())
    }

    /// The values, as far as each has at most 16 bits, for other games to go on with, in memory of `alloc`.
    pub(crate) fn lead(&self, alloc: A) -> Result<Leader<A>, AllocError>
        ensures code { IfOk result (λ leader. leader.code ≡ self.now.code) }
        ensures few { IfOk result (λ leader. leader.len ≤ self.now.len) }
        ensures all { IfOk result (λ leader. (leader.len ≡ self.now.len) ⊎ (2 ^ 16 ≤ nim_value self.now.code leader.len)) }
    {
        Leader::new(alloc, self.code, &self.row.values)
    }

    /// Whether another game may lead this one: its values are at least as many and begin with those of this one, and the
    /// same digits of both codes allow two heaps to be left.
    pub(crate) fn is_led_by(&self, leader: &Leader<A>) -> bool
        ensures { IsTrue result ↔ ((self.now.len ≤ leader.now.len) × Follows self.now.code leader.now.code self.now.len) }
    {
        leader.leads(&self.code, &self.row.values)
    }

    /// Takes over the values of other games that may lead this one, as long as they are its own, at most until it has those
    /// of `count` heaps, for which there is room. Takes no memory.
    pub fn follow(&mut self, leaders: &Leaders<A>, count: usize)
        requires { count ≤ self.old.room }
        ensures same { self.new ≡ record self.old { len = self.new.len } }
        ensures more { self.old.len ≤ self.new.len }
        ensures within { self.new.len ≤ max count self.old.len }
    {
        for leader in leaders.as_slice() {
            if self.is_led_by(leader) {
                self.push_all_led(leader, count);
            }
        }
    }

    // Takes over the values of a leader, as long as they are this game's own, until there are so many or they show a period.
    fn push_all_led(&mut self, leader: &Leader<A>, count: usize)
        requires room { count ≤ self.old.room }
        requires follows { Follows self.old.code leader.now.code self.old.len }
        ensures same { self.new ≡ record self.old { len = self.new.len } }
        ensures more { self.old.len ≤ self.new.len }
        ensures within { self.new.len ≤ max count self.old.len }
    {
        for _ in self.row.values.len()..count.min(leader.len()) {
            self.look_for_period();
            if self.period > 0 || !self.push_led(leader) {
                return;
            }
        }
    }

    // Adds the next value of a leader, if it is this game's, too.
    fn push_led(&mut self, leader: &Leader<A>) -> bool
        requires room { self.old.len < self.old.room }
        requires held { self.old.len < leader.now.len }
        requires follows { Follows self.old.code leader.now.code self.old.len }
        ensures pushed { IsTrue result → self.new ≡ record self.old { len = self.old.len + 1 } }
        ensures follows { IsTrue result → Follows self.old.code leader.now.code (self.old.len + 1) }
        ensures kept { result ≡ false → self.new ≡ self.old }
    {
        let value = leader.value(self.row.values.len());
        if self.row.used < value || !is_led(&self.code, &leader.code(), &self.row.values, value) {
            return false;
        }
        self.row.push_value(&self.code, value)
    }

    /// The least period that the values show so far that it holds for ever: twice the heap from which on it is seen, twice the
    /// period and the number of digits are at most as many as the values. That heap is the least that serves, from 1 on. `None`
    /// where they show no period.
    pub fn find_period(&self) -> Option<SeenPeriod>
        ensures start { IfSome result (λ seen. 1 ≤ seen.start) }
        ensures period { IfSome result (λ seen. 1 ≤ seen.period) }
        ensures shown { IfSome result (λ seen. 2 * seen.start + 2 * seen.period + octal.len self.now.code ≤ self.now.len) }
        ensures earliest { IfSome result (λ seen. NoneIsShownBefore self.now.code self.now.len seen.start seen.period) }
        ensures least { MatchOption result (NoneIsShown self.now.code self.now.len self.now.len) (λ seen. NoneIsShown self.now.code self.now.len seen.period) }
        ensures holds { IfSome result (λ seen. IsPeriodicFrom self.now.code seen.start seen.period) }
    {
        find_period(&self.code, &self.row.values)
    }

    /// The same values with the same room, in memory of `alloc`. From there on each of the two grows on its own.
    pub fn copy(&self, alloc: A) -> Result<Values<A>, AllocError>
        ensures { IfOk result (λ copy. copy ≡ self.now) }
    {
        let mut tables = Vec::new(alloc);
        room_for_tables(alloc, &self.code, &mut tables, self.room)?;
        let mut narrow = Narrow::new(alloc);
        narrow.make_room(self.room)?;
        Ok(Values {
            code: self.code,
            row: self.row.copy(alloc, self.room)?,
            narrow,
            marks: Vec::from_slice(alloc, &self.marks)?,
            room: self.room,
            period: self.period,
            tables,
            mask: self.mask,
        })
    }
}

// Whether a period is looked for at a length: a power of two, or half as much again.
fn is_looked_at(len: usize) -> bool {
    len >= FIRST_LOOK && (len.is_power_of_two() || len % 3 == 0 && (len / 3).is_power_of_two())
}
