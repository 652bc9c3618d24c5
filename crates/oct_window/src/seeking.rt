//! The search for the period of a game in windows of its nim-values.
//!
//! First values are listed, and where they show no period, a window goes on behind them. It is watched until its values come
//! again; then the least heap from which on they do so is found by a comparison from the beginning. Where a window does
//! not tell the next value, more first values are listed, and another one begins behind them.
//!
//! Behind the first values the search goes from place to place, and each is handed to a keeper.

ghost use Rattle.std.specs.Prelude.{◌≡◌, ◌*◌, ◌<◌, ◌≤◌, length, max, min, vec_len, IfErr, IfOk, OnOk};
ghost use Rattle.oct_mex.specs.Row.{IsRow};
ghost use Rattle.oct_window.specs.Places.{IsKept, IsPlaced, IsRightPlace, IsWithin, farthest};
ghost use Rattle.oct_window.specs.Seeking.{IsAsFarAs, IsLeft, IsSeekError, IsSought, IsTold, IsTried, told_values};
ghost use Rattle.oct_window.specs.declared.seeking.SeekError.TheVariants as errors;

use crate::first::extend;
use crate::keeper::{Keeper, Unkept};
use crate::laws::shown_periods_are_least;
use crate::place::{Place, Stage, Stepped};
use crate::sought::Sought;
use crate::trail::Trail;
use crate::watch::Watch;
use crate::window::{FARTHEST, MARKS, Window};
use oct_code::Code;
use oct_mex::{Row, find_shown};
use std::alloc::{AllocError, Allocator};

/// The most first values that are listed.
pub const MOST_LISTED: usize = 4_294_967_296;

// So many are listed before the first window begins.
const FIRST: usize = 65_536;

// So many values are computed before it is told again how far the search is.
const PART: usize = 65_536;

/// Why a search ends with nothing sought.
#[derive(Clone, Copy, Debug, PartialEq, Eq, Drop)]
pub enum SeekError {
    /// Memory is refused.
    OutOfMemory,
    /// A nim-value is above 65,535.
    PastValue,
    /// A place was not kept.
    Unkept,
}

impl From<AllocError> for SeekError {
    ghost from_gives = { λ _ e. e ≡ errors.OutOfMemory };

    fn from(_e: AllocError) -> SeekError {
        SeekError::OutOfMemory
    }
}

impl From<Unkept> for SeekError {
    ghost from_gives = { λ _ e. e ≡ errors.Unkept };

    fn from(_e: Unkept) -> SeekError {
        SeekError::Unkept
    }
}

/// What the first values of a game, and a window behind them, come to.
#[derive(Clone, Copy)]
pub(crate) enum Tried {
    Done(Sought),
    /// A window does not tell the value of this heap.
    Lost(usize),
}

/// Seeks the period of a game by its first `count` nim-values, at most `FARTHEST`, of which few are kept. The keeper is given each
/// place that the search comes to.
pub fn seek<A: Allocator + Copy, K: Keeper<A>>(
    alloc: A,
    code: &Code,
    count: usize,
    keeper: &mut K,
) -> Result<Sought, SeekError>
    requires { count ≤ FARTHEST }
    ensures ok { IfOk result (IsSought code.now count) }
    ensures err { IfErr result (IsSeekError K.may_refuse code.now count) }
    // Where the keeper did not keep a place, the search ends by that.
    ensures heeded { OnOk result (K.has_refused keeper.new ≡ K.has_refused keeper.old) }
{
    let mut row = Row::new(alloc);
    let mut marks = no_marks(alloc)?;
    seek_behind(alloc, code, &mut row, FIRST, count, &mut marks, keeper)
}

/// Takes a search up again at a place, and seeks the period by the first `count` values, at most `FARTHEST`, or by as many as
/// were computed, where these are more. What the place has is believed; the first values are listed anew. No fewer values are
/// told than the place knows, or 2^32 where a window is lost.
pub fn resume<A: Allocator + Copy, K: Keeper<A>>(
    alloc: A,
    place: Place<A>,
    count: usize,
    keeper: &mut K,
) -> Result<Sought, SeekError>
    requires kept { IsKept place }
    requires limited { count ≤ FARTHEST }
    ensures ok { IsRightPlace place → IfOk result (IsSought place.code (max count (farthest place.stage))) }
    ensures told { IfOk result (IsTold (max count (farthest place.stage))) }
    ensures far { IfOk result (IsAsFarAs (farthest place.stage)) }
    ensures err { IfErr result (IsSeekError K.may_refuse place.code (max count (farthest place.stage))) }
    ensures heeded { OnOk result (K.has_refused keeper.new ≡ K.has_refused keeper.old) }
{
    let Place { code, listed, .. } = place;
    let known = place.farthest();
    let count = count.max(known);
    let mut row = Row::new(alloc);
    let mut marks = no_marks(alloc)?;
    list_told(&mut row, &code, &mut marks, listed, known, count, keeper)?;
    match follow(alloc, place, &row, count, &mut marks, keeper)? {
        Tried::Done(sought) => Ok(sought),
        Tried::Lost(heap) => {
            let first = more_than(listed, heap);
            seek_behind(alloc, &code, &mut row, first, count, &mut marks, keeper)
        }
    }
}

// A table in which no value is marked.
fn no_marks<A: Allocator>(alloc: A) -> Result<Vec<bool, A>, AllocError>
    ensures { IfOk result (λ marks. vec_len marks ≡ MARKS) }
{
    let mut marks = Vec::new(alloc);
    marks.resize(MARKS, false)?;
    Ok(marks)
}

// How many first values are listed next, where the window behind so many does not tell the value of a heap.
fn more_than(listed: usize, heap: usize) -> usize
    requires listed { listed ≤ MOST_LISTED }
    requires heap { heap ≤ FARTHEST }
    ensures { result ≡ min MOST_LISTED (max FIRST (2 * max listed heap)) }
{
    MOST_LISTED.min(FIRST.max(2 * listed.max(heap)))
}

// Seeks the period by so many first values and a window behind them, and by more of them where that is lost.
fn seek_behind<A: Allocator + Copy, K: Keeper<A>>(
    alloc: A,
    code: &Code,
    row: &mut Row<u16, A>,
    first: usize,
    count: usize,
    marks: &mut Vec<bool, A>,
    keeper: &mut K,
) -> Result<Sought, SeekError>
    requires row { IsRow (λ x. x) code.now row.old }
    requires few { vec_len row.old.values ≤ count }
    requires some { 1 ≤ first }
    requires most { first ≤ MOST_LISTED }
    requires limited { count ≤ FARTHEST }
    requires marks { MARKS ≤ vec_len marks.old }
    ensures ok { IfOk result (IsSought code.now count) }
    ensures told { IfOk result (IsTold count) }
    ensures far { IfOk result (λ sought. min count first ≤ told_values sought) }
    ensures err { IfErr result (IsSeekError K.may_refuse code.now count) }
    ensures heeded { OnOk result (K.has_refused keeper.new ≡ K.has_refused keeper.old) }
{
    let mut size = first;
    loop {
        list_told(row, code, marks, count.min(size), 0, count, keeper)?;
        match try_behind(alloc, code, row, count, marks, keeper)? {
            Tried::Done(sought) => return Ok(sought),
            Tried::Lost(heap) => size = more_than(size, heap),
        }
    }
}

// Lists the values of the heaps below `end`, and tells how many of `count` are known: no fewer than were known before.
fn list_told<A: Allocator + Copy, K: Keeper<A>>(
    row: &mut Row<u16, A>,
    code: &Code,
    marks: &mut Vec<bool, A>,
    end: usize,
    known: usize,
    count: usize,
    keeper: &mut K,
) -> Result<(), SeekError>
    requires row { IsRow (λ x. x) code.now row.old }
    requires limited { end ≤ MOST_LISTED }
    requires few { end ≤ count }
    ensures row { IsRow (λ x. x) code.now row.new }
    ensures len { OnOk result (vec_len row.new.values ≡ max end (vec_len row.old.values)) }
    ensures err { IfErr result (IsSeekError K.may_refuse code.now count) }
    ensures heeded { OnOk result (K.has_refused keeper.new ≡ K.has_refused keeper.old) }
    ensures marks { vec_len marks.old ≤ vec_len marks.new }
{
    row.room_to(end)?;
    while row.values.len() < end {
        let known = known.max(row.values.len());
        keeper.tell(*code, known as u64, count as u64);
        let next = end.min(row.values.len() + PART);
        if !extend(row, code, marks, next)? {
            return Err(SeekError::PastValue);
        }
    }
    Ok(())
}

// Looks for the period in the first values, and then in a window behind them.
fn try_behind<A: Allocator + Copy, K: Keeper<A>>(
    alloc: A,
    code: &Code,
    row: &Row<u16, A>,
    count: usize,
    marks: &mut [bool],
    keeper: &mut K,
) -> Result<Tried, SeekError>
    requires row { IsRow (λ x. x) code.now row.now }
    requires few { vec_len row.now.values ≤ count }
    requires limited { count ≤ FARTHEST }
    requires marks { MARKS ≤ length marks.old }
    ensures left { IfOk result (IsLeft (vec_len row.now.values) (vec_len row.now.values) count) }
    ensures tried { IfOk result (IsTried code.now (vec_len row.now.values) count) }
    ensures err { IfErr result (IsSeekError K.may_refuse code.now count) }
    ensures heeded { OnOk result (K.has_refused keeper.new ≡ K.has_refused keeper.old) }
    ensures marks { length marks.new ≡ length marks.old }
{
    let listed = row.values.len();
    if let Some(seen) = find_shown(code, &row.values) {
        shown_periods_are_least();
        return Ok(Tried::Done(Sought::Least(seen, listed)));
    }
    if listed == count || listed == MOST_LISTED {
        return Ok(Tried::Done(Sought::Unshown(listed)));
    }
    let Some(window) = Window::of(alloc, *code, row)? else {
        return Ok(Tried::Lost(listed));
    };
    let place = Place {
        code: *code,
        listed,
        stage: Stage::Watching(Watch::new(alloc, window)?),
    };
    follow(alloc, place, row, count, marks, keeper)
}

// Goes on from a place until the search is over, or a window does not tell the next value.
fn follow<A: Allocator + Copy, K: Keeper<A>>(
    alloc: A,
    place: Place<A>,
    row: &Row<u16, A>,
    count: usize,
    marks: &mut [bool],
    keeper: &mut K,
) -> Result<Tried, SeekError>
    requires row { IsRow (λ x. x) place.code row.now }
    requires listed { vec_len row.now.values ≡ place.listed }
    requires placed { IsPlaced place }
    requires within { IsWithin count place }
    requires limited { count ≤ FARTHEST }
    requires marks { MARKS ≤ length marks.old }
    ensures left { IfOk result (IsLeft (vec_len row.now.values) (farthest place.stage) count) }
    ensures tried { IsRightPlace place → IfOk result (IsTried place.code (vec_len row.now.values) count) }
    ensures err { IfErr result (IsSeekError K.may_refuse place.code count) }
    ensures heeded { OnOk result (K.has_refused keeper.new ≡ K.has_refused keeper.old) }
    ensures marks { length marks.new ≡ length marks.old }
{
    let mut place = place;
    let mut trail = Trail::new(alloc);
    loop {
        tell(&place, count, keeper);
        match place.step(alloc, row, count, &mut trail, marks)? {
            Stepped::Lost(heap) => return Ok(Tried::Lost(heap)),
            Stepped::Over(sought, last) => {
                keeper.keep(&last, true)?;
                return Ok(Tried::Done(sought));
            }
            Stepped::On(next) => {
                keeper.keep(&next, false)?;
                place = next;
            }
        }
    }
}

// Tells how far the search is.
fn tell<A: Allocator + Copy, K: Keeper<A>>(place: &Place<A>, count: usize, keeper: &mut K)
    requires placed { IsPlaced place.now }
    requires limited { farthest place.now.stage ≤ FARTHEST }
    ensures { K.has_refused keeper.new ≡ K.has_refused keeper.old }
{
    let (known, wanted) = match &place.stage {
        Stage::Watching(watch) => (watch.window.count, count),
        Stage::Comparing(seen) => {
            let comparison = &seen.comparison;
            (comparison.ahead(), seen.start + comparison.period)
        }
    };
    keeper.tell(place.code, known as u64, wanted as u64);
}
