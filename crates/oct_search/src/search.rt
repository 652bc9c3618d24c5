//! A search for the period of a game.

ghost use Rattle.std.specs.Prelude.{◌≡◌, ◌+◌, ◌^◌, ◌<◌, ◌≤◌, max, IfErr, IfOk, IfSome, OnErr, OnOk, SomeIff};
ghost use Rattle.oct_mex.specs.NimValues.{nim_value};
ghost use Rattle.oct_mex.specs.Periods.{IsPeriodicFrom};
ghost use Rattle.oct_search.specs.Found.{IsFound};
ghost use Rattle.oct_search.specs.declared.error.SearchError.TheVariants.{PastValue};

use crate::cells::Cells;
use crate::certificate::{Outlook, need_of};
use crate::error::SearchError;
use crate::finder::Finder;
use crate::seldom::Seldom;
use oct_code::Code;
use oct_mex::SeenPeriod;
use oct_progress::Progress;
use std::alloc::{AllocError, Allocator};
use std::marker::Model;

/// The most nim-values that are computed: those of the heaps 0 to `MOST - 1`.
pub const MOST: usize = 4_294_967_296;

// Fewer values are not searched for a period.
const FIRST_LOOK: usize = 64;

// Fewer are not tried for one with which they go on.
const FIRST_TRY: usize = 4_096;

// One is tried for again where there are more by one in so many.
const TRY: usize = 32;

// So many are computed before it is told again how many are known.
const PART: usize = 65_536;

/// The nim-values of the heaps 0, 1, .. of a game, as far as they are computed.
#[derive(Drop)]
pub struct Search<A: Allocator + Copy> {
    code: Code,
    cells: Cells<A>,
    finder: Finder<A>,
    alloc: A,
    // What the values said when it was last tried, with a period with which they go on, once one is known.
    outlook: Outlook,
    // How many values there are when one is tried next.
    due: usize,
    seldom: Seldom<A>,
}

impl<A: Allocator + Copy> Model for Search<A> {
    ghost use Rattle.oct_search.specs.Known.{Known};
    ghost use Rattle.oct_search.specs.Fields.{known_of, IsStored};

    ghost Value = { Known };

    ghost view = { known_of };

    ghost invariant = { IsStored };
}

impl<A: Allocator + Copy> Search<A> {
    /// No value of the game of a code. Takes no memory.
    pub fn new(alloc: A, code: Code) -> Search<A>
        ensures { result ≡ record { code = code; len = 0 } }
    {
        Search {
            code,
            cells: Cells::new(alloc),
            finder: Finder::new(alloc),
            alloc,
            outlook: Outlook {
                come_again: true,
                certain: None,
            },
            due: FIRST_TRY,
            seldom: Seldom::new(alloc),
        }
    }

    /// The code of the game.
    pub fn code(&self) -> Code
        ensures { result ≡ self.now.code }
    {
        self.code
    }

    /// How many nim-values are computed, at most `MOST`.
    pub fn len(&self) -> usize
        ensures len { result ≡ self.now.len }
        ensures limited { result ≤ MOST }
    {
        self.cells.len()
    }

    /// The nim-value of a heap, if it is computed.
    pub fn value(&self, heap: usize) -> Option<u16>
        ensures { SomeIff result (heap < self.now.len) (nim_value self.now.code heap) }
    {
        if heap < self.len() {
            Some(self.known(heap))
        } else {
            None
        }
    }

    /// The nim-value of a heap that is computed.
    pub fn known(&self, heap: usize) -> u16
        requires { heap < self.now.len }
        ensures { result ≡ nim_value self.now.code heap }
    {
        self.cells.value(heap)
    }

    /// The nim-value of a heap of any size, by a period that holds and is computed to its end.
    pub fn value_by(&self, seen: SeenPeriod, heap: u64) -> u16
        requires some { 1 ≤ seen.period }
        requires within { seen.start + seen.period ≤ self.now.len }
        requires holds { IsPeriodicFrom self.now.code seen.start seen.period }
        ensures { result ≡ nim_value self.now.code heap }
    {
        let heap = heap as usize;
        if heap < seen.start {
            self.known(heap)
        } else {
            self.known(seen.start + (heap - seen.start) % seen.period)
        }
    }

    /// Computes the nim-values of `count` heaps, or copies them once they are known to go on with a period. Where memory is
    /// refused, or the next nim-value is above 65,535, those before it stand.
    pub fn extend(&mut self, count: usize) -> Result<(), SearchError>
        requires { count ≤ MOST }
        ensures code { self.new.code ≡ self.old.code }
        ensures more { self.old.len ≤ self.new.len }
        ensures ok { OnOk result (self.new.len ≡ max count self.old.len) }
        ensures short { OnErr result (self.new.len < count) }
        ensures past { IfErr result (λ fault. fault ≡ PastValue → 2 ^ 16 ≤ nim_value self.new.code self.new.len) }
    {
        while self.len() < count {
            self.look_ahead()?;
            self.push_some(count)?;
        }
        Ok(())
    }

    /// The same up to the heap `end`, and tells from time to time how many nim-values are known, of the `count` that are wanted.
    pub fn extend_told<P: Progress>(
        &mut self,
        end: usize,
        count: usize,
        progress: &mut P,
    ) -> Result<(), SearchError>
        requires few { end ≤ count }
        requires limited { count ≤ MOST }
        ensures code { self.new.code ≡ self.old.code }
        ensures more { self.old.len ≤ self.new.len }
        ensures ok { OnOk result (self.new.len ≡ max end self.old.len) }
        ensures short { OnErr result (self.new.len < end) }
        ensures past { IfErr result (λ fault. fault ≡ PastValue → 2 ^ 16 ≤ nim_value self.new.code self.new.len) }
    {
        while self.len() < end {
            progress.tell(self.code, self.len() as u64, count as u64);
            self.extend(end.min(self.len() + PART))?;
        }
        Ok(())
    }

    // Tries for a period with which the values go on, at lengths that grow by one in `TRY`, until one is known.
    fn look_ahead(&mut self) -> Result<(), AllocError>
        ensures { self.new ≡ self.old }
    {
        let len = self.len();
        if self.outlook.certain.is_none() && len >= self.due {
            self.due = len + len / TRY;
            self.outlook = self.cells.look_ahead(
                self.alloc,
                &self.code,
                &mut self.seldom,
                &mut self.finder.marks,
            )?;
        }
        Ok(())
    }

    // Adds some of the next values, at most those of the heaps below `end`: those a period before, or else those that sets tell, and
    // behind them the mex. At a refusal those that were added stay.
    fn push_some(&mut self, end: usize) -> Result<(), SearchError>
        requires some { self.old.len < end }
        requires limited { end ≤ MOST }
        ensures code { self.new.code ≡ self.old.code }
        ensures more { self.old.len ≤ self.new.len }
        ensures most { self.new.len ≤ end }
        ensures ok { OnOk result (self.old.len < self.new.len) }
        ensures short { OnErr result (self.new.len < end) }
        ensures past { IfErr result (λ fault. fault ≡ PastValue → 2 ^ 16 ≤ nim_value self.new.code self.new.len) }
    {
        if let Some(seen) = self.outlook.certain {
            self.finder.sets = None;
            self.cells.push_all_again(&self.code, seen.period, end)?;
            return Ok(());
        }
        let settled = end.min(self.due);
        self.cells
            .push_settled(&self.code, &mut self.finder, settled);
        if self.cells.len() < end {
            self.cells
                .push_next(self.alloc, &self.code, &mut self.finder)?;
        }
        Ok(())
    }

    /// The least period that the values show so far that it holds for ever: twice the heap from which on it is seen, twice
    /// the period and the number of digits are at most as many as the values. That heap is the least that serves, from 1 on.
    /// `None` where they show no period.
    pub fn find_period(&self) -> Option<SeenPeriod>
        ensures { IsFound self.now.code self.now.len result }
    {
        self.cells.find_period(&self.code)
    }

    // How many values there should be when a period is looked for next, more than there are now: as many as show the one
    // with which they are known to go on; or else a quarter more, or as many as the period takes that they let expect,
    // where that is not much more. It may be more than `MOST`.
    fn next_look(&mut self) -> Result<usize, AllocError>
        ensures same { self.new ≡ self.old }
        ensures more { IfOk result (λ next. self.old.len < next) }
    {
        self.look_ahead()?;
        let len = self.len();
        let next = FIRST_LOOK.max(len + len / 4);
        if let Some(seen) = self.outlook.certain {
            return Ok(self.look_by(seen, next, MOST + 1));
        }
        // Where the last values did not come again when it was last tried, more of them do not now.
        if !self.outlook.come_again {
            return Ok(next);
        }
        match self.cells.expected_period() {
            Some(seen) => Ok(self.look_by(seen, next, next + len / 2)),
            None => Ok(next),
        }
    }

    // As many values as show a period, where there are fewer and it is below `end`, and else `next`.
    fn look_by(&self, seen: SeenPeriod, next: usize, end: usize) -> usize
        requires within { seen.start + seen.period ≤ self.now.len }
        requires more { self.now.len < next }
        ensures { self.now.len < result }
    {
        let len = self.len();
        let need = need_of(&self.code, seen);
        if len < need && need < end { need } else { next }
    }

    /// Computes nim-values until they show a period, as `find_period` says, or those of `count` heaps are known, and tells from time
    /// to time how many are known. A period is looked for at lengths that grow by a quarter, where the values let expect one at the
    /// length that shows it, and at the end. A refusal is as that of `extend`.
    pub fn search<P: Progress>(
        &mut self,
        count: usize,
        progress: &mut P,
    ) -> Result<Option<SeenPeriod>, SearchError>
        requires { count ≤ MOST }
        ensures code { self.new.code ≡ self.old.code }
        ensures more { self.old.len ≤ self.new.len }
        ensures most { self.new.len ≤ max count self.old.len }
        ensures found { IfOk result (λ found. IsFound self.new.code self.new.len found) }
        ensures all { IfOk result (λ found. found ≡ None → self.new.len ≡ max count self.old.len) }
        ensures short { OnErr result (self.new.len < count) }
        ensures past { IfErr result (λ fault. fault ≡ PastValue → 2 ^ 16 ≤ nim_value self.new.code self.new.len) }
    {
        let mut found = self.find_period();
        while found.is_none() && self.len() < count {
            let next = self.next_look()?;
            self.extend_told(count.min(next), count, progress)?;
            found = self.find_period();
        }
        Ok(found)
    }
}
