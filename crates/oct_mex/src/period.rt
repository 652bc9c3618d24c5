//! Periods that the nim-values show.

ghost use Rattle.std.specs.Prelude.{◌≡◌, ◌↔◌, ◌≢◌, ◌+◌, ◌-◌, ◌*◌, ◌^◌, ◌<◌, ◌≤◌, ◌⊎◌, IfErr, IfOk, IfSome, IsTrue, MatchOption, ℕ, false, length, map, slice_index};
ghost use Rattle.oct_code.specs.Code as octal;
ghost use Rattle.oct_mex.specs.NimValues.{nim_values};
ghost use Rattle.oct_mex.specs.Periods.{IsPeriodicFrom, IsShown, IsBreak, ComesAgain, NoneIsShown, NoneIsShownBefore, NoneReturns};

use crate::cell::{Cell, LANES};
use oct_code::{Code, LIMIT};

// So many values are compared before the walk may end.
const BLOCK: usize = 256;

// Of so many of the last values the greatest one is taken for a seldom one.
const SAMPLE: usize = 4_096;

/// A period of the nim-values of a game: from the heap `start` on, each comes again `period` heaps later, for ever.
#[derive(Clone, Copy)]
pub struct SeenPeriod {
    pub start: usize,
    pub period: usize,
}

/// The least period that the first nim-values of a game show so far that it holds for ever (Guy and Smith 1956), and the
/// least heap from which on it is so shown, at least 1; none where they show no period. Takes no memory.
pub fn find_period(code: &Code, values: &[u32]) -> Option<SeenPeriod>
    requires values { values.now ≡ nim_values code.now (length values.now) }
    requires limited { length values.now ≤ LIMIT }
    ensures start { IfSome result (λ seen. 1 ≤ seen.start) }
    ensures period { IfSome result (λ seen. 1 ≤ seen.period) }
    ensures shown { IfSome result (λ seen. 2 * seen.start + 2 * seen.period + octal.len code.now ≤ length values.now) }
    ensures earliest { IfSome result (λ seen. NoneIsShownBefore code.now (length values.now) seen.start seen.period) }
    ensures least { MatchOption result (NoneIsShown code.now (length values.now) (length values.now)) (λ seen. NoneIsShown code.now (length values.now) seen.period) }
    ensures holds { IfSome result (λ seen. IsPeriodicFrom code.now seen.start seen.period) }
{
    find_shown(code, values)
}

/// The same of values in cells.
pub fn find_shown<T: Cell>(code: &Code, values: &[T]) -> Option<SeenPeriod>
    requires values { map T.number values.now ≡ nim_values code.now (length values.now) }
    requires limited { length values.now ≤ 2 ^ 32 }
    ensures shown { IfSome result (λ seen. IsShown code.now (length values.now) seen.start seen.period) }
    ensures earliest { IfSome result (λ seen. NoneIsShownBefore code.now (length values.now) seen.start seen.period) }
    ensures least { MatchOption result (NoneIsShown code.now (length values.now) (length values.now)) (λ seen. NoneIsShown code.now (length values.now) seen.period) }
    ensures holds { IfSome result (λ seen. IsPeriodicFrom code.now seen.start seen.period) }
{
    let from = values.len().saturating_sub(code.len()) / 2;
    let Some(period) = least_return(values, from) else {
        return None;
    };
    let start = first_start(values, from - period, period);
    Some(SeenPeriod { start, period })
}

/// The least period that so many of the last values let expect, and the least heap, from 1 on, from which on all values come
/// again by it; none where they let expect none. It need not hold: this says when to look again, and what to look at.
pub fn expected_period<T: Cell>(values: &[T], tail: usize) -> Option<SeenPeriod>
    requires some { 1 ≤ tail }
    requires limited { length values.now ≤ 2 ^ 32 }
    ensures first { IfSome result (λ seen. 1 ≤ seen.start) }
    ensures some { IfSome result (λ seen. 1 ≤ seen.period) }
    ensures within { IfSome result (λ seen. seen.start + seen.period ≤ length values.now) }
    ensures again { IfSome result (λ seen. ComesAgain (map T.number values.now) seen.start seen.period) }
{
    let from = values.len().saturating_sub(tail);
    let Some(period) = least_return(values, from) else {
        return None;
    };
    Some(SeenPeriod {
        start: first_start(values, from - period, period),
        period,
    })
}

/// A period that so many of the last values let expect, if they come again by it, and the least heap, from 1 on, from which on all
/// values come again by it. Else the error is a place of one of them that does not, or the end of the values where there is none so
/// far before them.
pub fn expected_by<T: Cell>(values: &[T], tail: usize, period: usize) -> Result<SeenPeriod, usize>
    requires some { 1 ≤ tail }
    requires limited { length values.now ≤ 2 ^ 32 }
    ensures first { IfOk result (λ seen. 1 ≤ seen.start) }
    ensures some { IfOk result (λ seen. 1 ≤ seen.period) }
    ensures period { IfOk result (λ seen. seen.period ≡ period) }
    ensures within { IfOk result (λ seen. seen.start + seen.period ≤ length values.now) }
    ensures again { IfOk result (λ seen. ComesAgain (map T.number values.now) seen.start seen.period) }
    ensures least { IfOk result (λ seen. 1 < seen.start → slice_index (map T.number values.now) (seen.start - 1 + period) ≢ slice_index (map T.number values.now) (seen.start - 1)) }
    ensures differs { IfErr result (λ place. place < length values.now → slice_index (map T.number values.now) place ≢ slice_index (map T.number values.now) (place - period)) }
    ensures last { IfErr result (λ place. place < length values.now → length values.now - tail ≤ place) }
    ensures far { IfErr result (λ place. length values.now ≤ place → (place ≡ length values.now) × ((period ≡ 0) ⊎ (length values.now - tail ≤ period))) }
{
    let from = values.len().saturating_sub(tail);
    if period == 0 || from <= period {
        return Err(values.len());
    }
    match first_break(values, from - period, period) {
        Some(heap) => Err(heap + period),
        None => {
            let start = first_start(values, from - period, period);
            Ok(SeenPeriod { start, period })
        }
    }
}

// The least period below `from` by which the values from `from` on come again: each is the value one period before.
//
// Most periods fail at the place of a seldom value or where another one was seen to fail, so these two are compared first.
fn least_return<T: Cell>(values: &[T], from: usize) -> Option<usize>
    requires behind { 0 < from → from < length values.now }
    requires limited { length values.now ≤ 2 ^ 32 }
    ensures some { IfSome result (λ period. 1 ≤ period) }
    ensures less { IfSome result (λ period. period < from) }
    ensures again { IfSome result (λ period. ComesAgain (map T.number values.now) (from - period) period) }
    ensures least { MatchOption result (NoneReturns (map T.number values.now) from from) (λ period. NoneReturns (map T.number values.now) from period) }
{
    if from == 0 {
        return None;
    }
    let place = seldom_place(values, from);
    let mut later = place;
    let mut period = next_return(values, place, 1, from);
    while period < from {
        if !differs(values, later - period, period) {
            match first_break(values, from - period, period) {
                None => return Some(period),
                Some(heap) => later = heap + period,
            }
        }
        period = next_return(values, place, period + 1, from);
    }
    None
}

// A place, from `from` on, of a value that is mostly seldom: the greatest one of the last values.
fn seldom_place<T: Cell>(values: &[T], from: usize) -> usize
    requires { from < length values.now }
    ensures behind { from ≤ result }
    ensures within { result < length values.now }
{
    let first = from.max(values.len().saturating_sub(SAMPLE));
    let mut greatest = first;
    for place in first..values.len() {
        if values[greatest].number() < values[place].number() {
            greatest = place;
        }
    }
    greatest
}

// The least period, from this one on, by which the value at a place comes again there, or `end`. Many places are compared at a time.
fn next_return<T: Cell>(values: &[T], place: usize, period: usize, end: usize) -> usize
    requires held { place < length values.now }
    requires within { end ≤ place }
    requires ordered { period ≤ end }
    ensures behind { period ≤ result }
    ensures within { result ≤ end }
    ensures returns { result < end → slice_index (map T.number values.now) place ≡ slice_index (map T.number values.now) (place - result) }
    ensures none { (p : ℕ) → period ≤ p → p < result → slice_index (map T.number values.now) place ≢ slice_index (map T.number values.now) (place - p) }
{
    let value = values[place];
    let mut next = period;
    while LANES <= end - next && !T::has_value(values, place + 1 - next - LANES, value) {
        next += LANES;
    }
    while next < end && values[place - next].number() != value.number() {
        next += 1;
    }
    next
}

// The first heap from `start` on whose value does not come again one period later.
fn first_break<T: Cell>(values: &[T], start: usize, period: usize) -> Option<usize>
    requires within { start + period ≤ length values.now }
    ensures { MatchOption result (ComesAgain (map T.number values.now) start period) (IsBreak (map T.number values.now) start period) }
{
    let end = values.len() - period;
    let mut from = start;
    while BLOCK <= end - from && !differs_within(values, from, from + BLOCK, period) {
        from += BLOCK;
    }
    for heap in from..end {
        if differs(values, heap, period) {
            return Some(heap);
        }
    }
    None
}

// Whether the value of a heap of a range does not come again one period later. All are compared with no way out, so
// that many are compared at a time.
fn differs_within<T: Cell>(values: &[T], from: usize, end: usize, period: usize) -> bool
    requires ordered { from ≤ end }
    requires within { end + period ≤ length values.now }
    ensures { result ≡ false → (n : ℕ) → from ≤ n → n < end → slice_index (map T.number values.now) (n + period) ≡ slice_index (map T.number values.now) n }
{
    let mut differs = false;
    for heap in from..end {
        differs |= values[heap + period].number() != values[heap].number();
    }
    differs
}

// Whether the value of a heap does not come again one period later.
fn differs<T: Cell>(values: &[T], heap: usize, period: usize) -> bool
    requires { heap + period < length values.now }
    ensures { IsTrue result ↔ (slice_index (map T.number values.now) (heap + period) ≢ slice_index (map T.number values.now) heap) }
{
    values[heap + period].number() != values[heap].number()
}

// The first heap, from 1 on, from which on each value up to the heap `last` comes again one period later.
fn first_start<T: Cell>(values: &[T], last: usize, period: usize) -> usize
    requires some { 1 ≤ last }
    requires within { last + period ≤ length values.now }
    requires again { ComesAgain (map T.number values.now) last period }
    ensures some { 1 ≤ result }
    ensures within { result ≤ last }
    ensures again { ComesAgain (map T.number values.now) result period }
    ensures first { 1 < result → slice_index (map T.number values.now) (result - 1 + period) ≢ slice_index (map T.number values.now) (result - 1) }
{
    let mut start = last;
    while start > 1 && !differs(values, start - 1, period) {
        start -= 1;
    }
    start
}
