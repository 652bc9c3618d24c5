//! Where a seldom value stands, so that a period that the last values let expect is looked for at few places.

ghost use Rattle.std.specs.Prelude.{◌≡◌, ◌+◌, ◌^◌, ◌<◌, ◌≤◌, IfSome, length, map, vec_len};
ghost use Rattle.oct_mex.specs.Periods.{ComesAgain};

use oct_mex::{Cell, LANES, SeenPeriod, expected_by, expected_period};
use std::alloc::{AllocError, Allocator};

// Of so many of the last values the greatest one is taken for a seldom one.
const SAMPLE: usize = 4_096;

// So many gaps before the last place are compared with those before another one.
const GAPS: usize = 4;

// A value is not seldom that stands at more places than one in so many.
const SELDOM: usize = 64;

/// The places of a value among the first values of a game, in order, as far as these are looked at.
#[derive(Drop)]
pub(crate) struct Seldom<A: Allocator> {
    value: usize,
    places: Vec<u32, A>,
    // How far before each place the next one before it is, and 0 where there is none.
    gaps: Vec<u32, A>,
    // So many values are looked at.
    end: usize,
}

impl<A: Allocator + Copy> Seldom<A> {
    /// Nothing is looked at. Takes no memory.
    pub(crate) fn new(alloc: A) -> Seldom<A> {
        Seldom {
            value: 0,
            places: Vec::new(alloc),
            gaps: Vec::new(alloc),
            end: 0,
        }
    }

    /// What `oct_mex::expected_period` gives. Only the values that are new are looked at: a value that stands among so many of the last
    /// ones comes again at a place where it stood. Where no value is seldom, or memory for its places is refused, all are compared.
    pub(crate) fn expected_period<T: Cell>(
        &mut self,
        values: &[T],
        tail: usize,
    ) -> Option<SeenPeriod>
        requires some { 1 ≤ tail }
        requires limited { length values.now ≤ 2 ^ 32 }
        ensures first { IfSome result (λ seen. 1 ≤ seen.start) }
        ensures some { IfSome result (λ seen. 1 ≤ seen.period) }
        ensures within { IfSome result (λ seen. seen.start + seen.period ≤ length values.now) }
        ensures again { IfSome result (λ seen. ComesAgain (map T.number values.now) seen.start seen.period) }
    {
        match self.look_at(values, tail) {
            Ok(true) => self.least(values, tail),
            _ => {
                self.begin_anew(0);
                expected_period(values, tail)
            }
        }
    }

    // Looks at the values that are new, and anew at all of them where the value is not among so many of the last ones. Says whether
    // it is seldom.
    fn look_at<T: Cell>(&mut self, values: &[T], tail: usize) -> Result<bool, AllocError>
        requires limited { length values.now ≤ 2 ^ 32 }
    {
        self.go_on(values)?;
        let is_among = match self.places.last() {
            Some(place) => *place as usize >= values.len().saturating_sub(tail),
            None => false,
        };
        if !is_among {
            self.begin_anew(greatest_of(values, SAMPLE.min(tail)));
            self.go_on(values)?;
        }
        Ok(self.end == values.len() && !self.places.is_empty())
    }

    // Forgets all, to look for this value.
    fn begin_anew(&mut self, value: usize) {
        self.value = value;
        self.places.clear();
        self.gaps.clear();
        self.end = 0;
    }

    // Looks at the values that are new, while the value is seldom.
    fn go_on<T: Cell>(&mut self, values: &[T]) -> Result<(), AllocError>
        requires limited { length values.now ≤ 2 ^ 32 }
    {
        let Some(value) = T::from_number(self.value) else {
            return Ok(());
        };
        let most = values.len() / SELDOM;
        let mut end = self.end;
        while end < values.len() && self.places.len() <= most {
            let next = values.len().min(end + LANES);
            if next < end + LANES || T::has_value(values, end, value) {
                self.add_places(values, end, next)?;
            }
            end = next;
        }
        self.end = end;
        Ok(())
    }

    // Adds the places of the value from `from` on and before `end`.
    fn add_places<T: Cell>(
        &mut self,
        values: &[T],
        from: usize,
        end: usize,
    ) -> Result<(), AllocError>
        requires limited { length values.now ≤ 2 ^ 32 }
        requires within { end ≤ length values.now }
    {
        for place in from..end {
            if values[place].number() == self.value {
                let gap = match self.places.last() {
                    Some(before) => (place as u32).wrapping_sub(*before),
                    None => 0,
                };
                self.gaps.push(gap)?;
                self.places.push(place as u32)?;
            }
        }
        Ok(())
    }

    // The least period that is expected: one of the distances from the last place to those before it.
    fn least<T: Cell>(&self, values: &[T], tail: usize) -> Option<SeenPeriod>
        requires some { 1 ≤ tail }
        requires limited { length values.now ≤ 2 ^ 32 }
        ensures first { IfSome result (λ seen. 1 ≤ seen.start) }
        ensures some { IfSome result (λ seen. 1 ≤ seen.period) }
        ensures within { IfSome result (λ seen. seen.start + seen.period ≤ length values.now) }
        ensures again { IfSome result (λ seen. ComesAgain (map T.number values.now) seen.start seen.period) }
    {
        let last = *self.places.last()? as usize;
        let gaps = self.last_gaps(values.len().saturating_sub(tail));
        // Where another period was seen to fail, most fail.
        let mut later = last;
        let mut end = self.places.len() - 1;
        while let Some(at) = self.place_before(end, gaps) {
            let period = last.saturating_sub(self.places[at] as usize);
            if self.has_gaps(at, gaps) && is_same(values, later, period) {
                match expected_by(values, tail, period) {
                    Ok(seen) => return Some(seen),
                    Err(place) => later = place,
                }
            }
            end = at;
        }
        None
    }

    // The last gaps, a few, of which none reaches before `from`. By a period the place that comes again has the same gaps before it, so
    // that few places are left, and no value needs to be read for the others.
    fn last_gaps(&self, from: usize) -> &[u32] {
        let len = self.gaps.len().min(self.places.len());
        let mut first = len;
        while 2 <= first && len - first < GAPS && from <= self.places[first - 2] as usize {
            first -= 1;
        }
        &self.gaps[first..len]
    }

    // The last of so many places that has the last of these gaps before it, if there is one.
    fn place_before(&self, end: usize, gaps: &[u32]) -> Option<usize>
        requires { end ≤ vec_len self.now.places }
        ensures { IfSome result (λ at. at < end) }
    {
        match gaps.last() {
            Some(gap) => last_of(&self.gaps, end, *gap),
            None => end.checked_sub(1),
        }
    }

    // Whether a place has these gaps before it.
    fn has_gaps(&self, at: usize, gaps: &[u32]) -> bool {
        at < self.gaps.len() && self.gaps[..at + 1].ends_with(gaps)
    }
}

// The last place of a number among so many, `LANES` at a time.
fn last_of(numbers: &[u32], count: usize, number: u32) -> Option<usize>
    ensures { IfSome result (λ place. place < count) }
{
    let mut end = count.min(numbers.len());
    while LANES <= end && !u32::has_value(numbers, end - LANES, number) {
        end -= LANES;
    }
    for place in (0..end).rev() {
        if numbers[place] == number {
            return Some(place);
        }
    }
    None
}

// Whether a value is that which stands so many places before it.
fn is_same<T: Cell>(values: &[T], place: usize, period: usize) -> bool {
    place < values.len()
        && period <= place
        && values[place].number() == values[place - period].number()
}

// The greatest of so many of the last values.
fn greatest_of<T: Cell>(values: &[T], count: usize) -> usize {
    let mut greatest = 0;
    for place in values.len().saturating_sub(count)..values.len() {
        greatest = greatest.max(values[place].number());
    }
    greatest
}
