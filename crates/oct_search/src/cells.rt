//! The nim-values of a game in cells of 8 bits until one exceeds 255, and then of 16.

ghost use Rattle.std.specs.Prelude.{◌≡◌, ◌+◌, ◌^◌, ◌<◌, ◌≤◌, if◌then◌else◌, false, max, vec_capacity, vec_len, IfErr, IfOk, IfSome, OnErr, OnOk};
ghost use Rattle.oct_code.specs.Code as octal;
ghost use Rattle.oct_mex.specs.NimValues.{nim_value};
ghost use Rattle.oct_mex.specs.Periods.{GoesOn};
ghost use Rattle.oct_mex.specs.Row.{IsRow};
ghost use Rattle.oct_search.specs.BySets.{AreSetsOf};
ghost use Rattle.oct_search.specs.Cells.{IsKnown, bound_of, len_of};
ghost use Rattle.oct_search.specs.Certain.{IsCertain};
ghost use Rattle.oct_search.specs.Found.{IsFound};
ghost use Rattle.oct_search.specs.declared.error.SearchError.TheVariants.{PastValue};

use crate::by_sets::push_unlisted;
use crate::certificate::{Outlook, look_ahead};
use crate::error::SearchError;
use crate::finder::{Finder, lengthen, make_room, room_behind};
use crate::search::MOST;
use crate::seldom::Seldom;
use oct_code::Code;
use oct_mex::{Cell, Rare, Row, SeenPeriod, expected_period, find_shown};
use std::alloc::{AllocError, Allocator};

// So many of the last values, one in so many and some more, let expect a period.
const SHARE: usize = 8;

const SPARE: usize = 64;

/// The nim-values of the heaps 0, 1, .. of a game.
#[derive(Drop)]
pub(crate) enum Cells<A: Allocator> {
    Narrow(Row<u8, A>),
    Wide(Row<u16, A>),
}

impl<A: Allocator + Copy> Cells<A> {
    /// No value. Takes no memory.
    pub(crate) fn new(alloc: A) -> Cells<A>
        ensures known { (c : octal.Code) → IsKnown c result }
        ensures len { len_of result ≡ 0 }
    {
        Cells::Narrow(Row::new(alloc))
    }

    /// How many values there are.
    pub(crate) fn len(&self) -> usize
        ensures { result ≡ len_of self.now }
    {
        match self {
            Cells::Narrow(row) => row.values.len(),
            Cells::Wide(row) => row.values.len(),
        }
    }

    /// The value of a heap.
    pub(crate) fn value(&self, heap: usize) -> u16
        requires { heap < len_of self.now }
        ensures { (c : octal.Code) → IsKnown c self.now → result ≡ nim_value c heap }
    {
        match self {
            Cells::Narrow(row) => u16::from(row.values[heap]),
            Cells::Wide(row) => row.values[heap],
        }
    }

    /// The least period that the values show, if they show one.
    pub(crate) fn find_period(&self, code: &Code) -> Option<SeenPeriod>
        requires { IsKnown code.now self.now }
        ensures { IsFound code.now (len_of self.now) result }
    {
        match self {
            Cells::Narrow(row) => find_shown(code, &row.values),
            Cells::Wide(row) => find_shown(code, &row.values),
        }
    }

    /// The least period that an eighth of the values, the last ones, let expect, seen from some heap on, if they let expect one.
    pub(crate) fn expected_period(&self) -> Option<SeenPeriod>
        requires { len_of self.now ≤ MOST }
        ensures { IfSome result (λ seen. seen.start + seen.period ≤ len_of self.now) }
    {
        let tail = self.len() / SHARE + SPARE;
        match self {
            Cells::Narrow(row) => expected_period(&row.values, tail),
            Cells::Wide(row) => expected_period(&row.values, tail),
        }
    }

    /// What the last values say of the next ones. It may need memory for marks.
    pub(crate) fn look_ahead(
        &self,
        alloc: A,
        code: &Code,
        seldom: &mut Seldom<A>,
        marks: &mut Vec<bool, A>,
    ) -> Result<Outlook, AllocError>
        requires { IsKnown code.now self.now }
        ensures { IfOk result (λ outlook. IfSome outlook.certain (IsCertain code.now (len_of self.now))) }
    {
        match self {
            Cells::Narrow(row) => {
                lengthen(marks, row.used)?;
                Ok(look_ahead(alloc, row, code, seldom, marks))
            }
            Cells::Wide(row) => {
                lengthen(marks, row.used)?;
                Ok(look_ahead(alloc, row, code, seldom, marks))
            }
        }
    }

    /// Adds the values of the heaps below `end`, each that of the heap one period before. Without memory those that were added stay.
    pub(crate) fn push_all_again(
        &mut self,
        code: &Code,
        period: usize,
        end: usize,
    ) -> Result<(), AllocError>
        requires known { IsKnown code.now self.old }
        requires limited { end ≤ MOST }
        requires some { 1 ≤ period }
        requires on { GoesOn code.now (len_of self.old) period }
        ensures known { IsKnown code.now self.new }
        ensures more { len_of self.old ≤ len_of self.new }
        ensures most { len_of self.new ≤ max end (len_of self.old) }
        ensures ok { OnOk result (len_of self.new ≡ max end (len_of self.old)) }
        ensures err { OnErr result (len_of self.new < end) }
    {
        match self {
            Cells::Narrow(row) => push_all_again_in(row, code, period, end),
            Cells::Wide(row) => push_all_again_in(row, code, period, end),
        }
    }

    /// Adds the next values up to the heap `end`, as far as there is room for them and sets tell them. Takes no memory.
    pub(crate) fn push_settled(&mut self, code: &Code, finder: &mut Finder<A>, end: usize)
        requires known { IsKnown code.now self.old }
        requires limited { end ≤ MOST }
        requires sets { IfSome finder.old.sets (AreSetsOf code.now (len_of self.old)) }
        ensures known { IsKnown code.now self.new }
        ensures more { len_of self.old ≤ len_of self.new }
        ensures most { len_of self.new ≤ max end (len_of self.old) }
        ensures sets { IfSome finder.new.sets (AreSetsOf code.now (len_of self.new)) }
    {
        match self {
            Cells::Narrow(row) => finder.push_settled(row, code, end),
            Cells::Wide(row) => finder.push_settled(row, code, end),
        }
    }

    /// Adds the next value, by marks. Without memory, or where it is above 65,535, the values stay.
    pub(crate) fn push_next(
        &mut self,
        alloc: A,
        code: &Code,
        finder: &mut Finder<A>,
    ) -> Result<(), SearchError>
        requires known { IsKnown code.now self.old }
        requires limited { len_of self.old < MOST }
        requires sets { IfSome finder.old.sets (AreSetsOf code.now (len_of self.old)) }
        ensures known { IsKnown code.now self.new }
        ensures sets { IfSome finder.new.sets (AreSetsOf code.now (len_of self.new)) }
        ensures ok { OnOk result (len_of self.new ≡ len_of self.old + 1) }
        ensures err { OnErr result (len_of self.new ≡ len_of self.old) }
        ensures past { IfErr result (λ fault. fault ≡ PastValue → 2 ^ 16 ≤ nim_value code.now (len_of self.old)) }
    {
        if self.push_fitting(alloc, code, finder)? {
            return Ok(());
        }
        if let Cells::Narrow(row) = self {
            let wide = widened(alloc, row)?;
            *self = Cells::Wide(wide);
            if self.push_fitting(alloc, code, finder)? {
                return Ok(());
            }
        }
        Err(SearchError::PastValue)
    }

    // Adds the next value, and says whether its cell holds it: else the values stay.
    fn push_fitting(
        &mut self,
        alloc: A,
        code: &Code,
        finder: &mut Finder<A>,
    ) -> Result<bool, AllocError>
        requires known { IsKnown code.now self.old }
        requires limited { len_of self.old < MOST }
        requires sets { IfSome finder.old.sets (AreSetsOf code.now (len_of self.old)) }
        ensures known { IsKnown code.now self.new }
        ensures sets { IfSome finder.new.sets (AreSetsOf code.now (len_of self.new)) }
        ensures len { IfOk result (λ fits. len_of self.new ≡ (if fits then len_of self.old + 1 else len_of self.old)) }
        ensures err { OnErr result (len_of self.new ≡ len_of self.old) }
        ensures past { IfOk result (λ fits. fits ≡ false → bound_of self.old ≤ nim_value code.now (len_of self.old)) }
        ensures bound { bound_of self.new ≡ bound_of self.old }
    {
        match self {
            Cells::Narrow(row) => finder.push_next(alloc, row, code),
            Cells::Wide(row) => finder.push_next(alloc, row, code),
        }
    }
}

// Adds the values of the heaps below `end`, each that of the heap one period before. Without memory those that were added stay.
fn push_all_again_in<T: Cell, A: Allocator + Copy>(
    row: &mut Row<T, A>,
    code: &Code,
    period: usize,
    end: usize,
) -> Result<(), AllocError>
    requires row { IsRow T.number code.now row.old }
    requires limited { end ≤ MOST }
    requires some { 1 ≤ period }
    requires on { GoesOn code.now (vec_len row.old.values) period }
    ensures row { IsRow T.number code.now row.new }
    ensures more { vec_len row.old.values ≤ vec_len row.new.values }
    ensures most { vec_len row.new.values ≤ max end (vec_len row.old.values) }
    ensures ok { OnOk result (vec_len row.new.values ≡ max end (vec_len row.old.values)) }
    ensures err { OnErr result (vec_len row.new.values < end) }
{
    while row.values.len() < end {
        make_room(row)?;
        let room = end.min(row.values.capacity());
        push_again_to(row, code, period, room);
    }
    Ok(())
}

// Adds the values of the heaps below `end`, for which there is room, each that of the heap one period before. Takes no memory.
fn push_again_to<T: Cell, A: Allocator + Copy>(
    row: &mut Row<T, A>,
    code: &Code,
    period: usize,
    end: usize,
)
    requires row { IsRow T.number code.now row.old }
    requires limited { end ≤ MOST }
    requires room { end ≤ vec_capacity row.old.values }
    requires more { vec_len row.old.values ≤ end }
    requires some { 1 ≤ period }
    requires on { GoesOn code.now (vec_len row.old.values) period }
    ensures row { IsRow T.number code.now row.new }
    ensures len { vec_len row.new.values ≡ end }
{
    row.give_up_rare();
    let mut period = period;
    while row.values.len() < end {
        let count = period.min(end - row.values.len());
        push_copied(row, code, period, count);
        // One period later it goes on by two of them: few parts are copied of a short one.
        if count == period {
            period *= 2;
        }
    }
}

// Adds so many values, for which there is room, each that of the heap one period before: none of these is new. No heap is listed under
// a mask. Takes no memory.
fn push_copied<T: Cell, A: Allocator + Copy>(
    row: &mut Row<T, A>,
    code: &Code,
    period: usize,
    count: usize,
)
    requires row { IsRow T.number code.now row.old }
    requires some { 1 ≤ period }
    requires few { count ≤ period }
    requires limited { vec_len row.old.values + count ≤ MOST }
    requires room { vec_len row.old.values + count ≤ vec_capacity row.old.values }
    requires on { GoesOn code.now (vec_len row.old.values) period }
    requires none { row.old.rare.mask.bits ≡ 0 }
    ensures row { IsRow T.number code.now row.new }
    ensures len { vec_len row.new.values ≡ vec_len row.old.values + count }
    ensures room { vec_capacity row.old.values ≤ vec_capacity row.new.values }
    ensures rare { row.new.rare ≡ row.old.rare }
{
    let len = row.values.len();
    let from = len - period;
    let first = row.values[from];
    // There is room for them.
    let _ = row.values.resize(len + count, first);
    let (known, next) = row.values.split_at_mut(len);
    next.copy_from_slice(&known[from..from + count]);
}

// The same values in wider cells.
fn widened<A: Allocator + Copy>(alloc: A, row: &Row<u8, A>) -> Result<Row<u16, A>, AllocError>
    requires { vec_len row.now.values < MOST }
    ensures row { IfOk result (λ wide. (c : octal.Code) → IsRow (λ x. x) c row.now → IsRow (λ x. x) c wide) }
    ensures len { IfOk result (λ wide. vec_len wide.values ≡ vec_len row.now.values) }
{
    let len = row.values.len();
    let room = room_behind(len);
    let mut values = Vec::with_capacity(alloc, room)?;
    for value in row.values.as_slice() {
        values.push_reserved(u16::from(*value));
    }
    let mut wide = Row {
        values,
        used: row.used,
        rare: Rare::new(alloc),
    };
    wide.room_to(room)?;
    Ok(wide)
}
