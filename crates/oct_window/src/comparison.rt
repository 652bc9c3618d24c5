//! The least heap from which on a period holds.

ghost use Rattle.std.specs.Prelude.{◌≡◌, ◌≢◌, ℕ, ◌+◌, ◌-◌, ◌<◌, ◌≤◌, true, false, IfSome, MatchOption, length, max, slice_index, vec_len};
ghost use Rattle.oct_code.specs.Code as octal;
ghost use Rattle.oct_mex.specs.Row.{IsRow};
ghost use Rattle.oct_window.specs.BySets.{AreRight, AreSetsOf};
ghost use Rattle.oct_window.specs.Comparisons.{IsCompared, IsInStep, IsPaired, IsRight};
ghost use Rattle.oct_mex.specs.Periods.{IsPeriodicWithin};
ghost use Rattle.oct_mex.specs.Windows.{window as width};
ghost use Rattle.oct_window.specs.Windows.{IsBegun, IsSameGame, IsShaped};

use crate::reader::Reader;
use crate::window::{FARTHEST, MARKS, Window};
use oct_mex::Row;
use oct_sets::Sets;
use std::alloc::Allocator;

/// Finds the least heap, from 1 on, from which on a period holds. Two readers of the nim-values go on from heap 0, the
/// second one a period ahead of the first. Behind the last heap at which they differ the period holds.
#[derive(Drop)]
pub struct Comparison<A: Allocator> {
    /// The heaps before its own are compared.
    pub first: Reader<A>,
    /// It reads the values a period later.
    pub second: Reader<A>,
    pub period: usize,
    /// The least heap, from 1 on, from which on the period holds, as far as the heaps are compared.
    pub start: usize,
}

impl<A: Allocator + Copy> Comparison<A> {
    /// Nothing is compared. Both windows begin behind the same row.
    pub fn new(first: Window<A>, second: Window<A>, period: usize) -> Comparison<A>
        requires first { IsShaped first }
        requires second { IsShaped second }
        requires same { second.count ≡ first.count }
        ensures paired { IsPaired first.count result }
        ensures heap { result.first.heap ≡ 0 }
        ensures ahead { result.second.heap ≡ 0 }
        ensures period { result.period ≡ period }
        ensures compared { (c : octal.Code) (values : ℕ) → IsBegun c values first → IsBegun c values second → IsCompared c result }
    {
        Comparison {
            first: Reader::new(first),
            second: Reader::new(second),
            period,
            start: 1,
        }
    }

    /// Behind the last values of two windows, those of the second one a period later; none where these are the same.
    pub(crate) fn behind(
        first: Reader<A>,
        second: Reader<A>,
        period: usize,
    ) -> Option<Comparison<A>>
        requires first { IsShaped first.window }
        requires second { IsShaped second.window }
        requires same { IsSameGame first.window second.window }
        requires far { width first.window.code first.window.reach < first.heap }
        ensures first { IfSome result (λ made. made.first ≡ first) }
        ensures second { IfSome result (λ made. made.second ≡ second) }
        ensures period { IfSome result (λ made. made.period ≡ period) }
        ensures paired { (values : ℕ) → IsInStep values first → IsInStep values second → IfSome result (IsPaired values) }
        ensures compared { (c : octal.Code) → IsRight c first → IsRight c second → first.window.count ≡ first.heap → second.window.count ≡ first.heap + period → MatchOption result (IsPeriodicWithin c (first.heap - width c first.window.reach) period first.heap) (IsCompared c) }
    {
        let last = first.window.last_values();
        let Some(at) = last_difference(last, second.window.last_values()) else {
            return None;
        };
        let start = first.heap - first.window.reach - first.window.code.len() + at + 1;
        Some(Comparison {
            first,
            second,
            period,
            start,
        })
    }

    /// How many heaps are compared.
    pub fn heap(&self) -> usize
        ensures { result ≡ self.now.first.heap }
    {
        self.first.heap
    }

    /// The heap that the second reader reads next.
    pub fn ahead(&self) -> usize
        ensures { result ≡ self.now.second.heap }
    {
        self.second.heap
    }

    /// The least heap, from 1 on, from which on the period holds, as far as the heaps are compared.
    pub fn start(&self) -> usize
        ensures { result ≡ self.now.start }
    {
        self.start
    }

    /// Moves the second reader on to the heap `end`, and says whether its window tells the values before it: else the reader
    /// stays at the first that it does not tell. Heaps can be compared once it is at the period. Memory is taken for sets, as far as
    /// there is some, and given back.
    pub fn go_ahead(&mut self, alloc: A, row: &Row<u16, A>, end: usize, marks: &mut [bool]) -> bool
        requires paired { IsPaired (vec_len row.now.values) self.old }
        requires limited { end ≤ FARTHEST }
        requires marks { MARKS ≤ length marks.old }
        ensures paired { IsPaired (vec_len row.now.values) self.new }
        ensures by_row { end ≤ vec_len row.now.values → result ≡ true }
        ensures ahead { result ≡ true → self.new.second.heap ≡ max end self.old.second.heap }
        ensures short { result ≡ false → self.new.second.heap < end }
        ensures more { self.old.second.heap ≤ self.new.second.heap }
        ensures same { self.new ≡ record self.old { second = self.new.second } }
        ensures marks { length marks.new ≡ length marks.old }
        ensures compared { (c : octal.Code) → IsCompared c self.old → IsCompared c self.new }
    {
        self.second.go_to(alloc, row, end, marks)
    }

    /// Compares on until each heap below `end` is compared, and says whether the windows tell the values that this takes:
    /// else it stays at the first heap for which they do not, and cannot go on. Memory is taken for sets, as far as there is some,
    /// and given back.
    pub fn compare(&mut self, alloc: A, row: &Row<u16, A>, end: usize, marks: &mut [bool]) -> bool
        requires paired { IsPaired (vec_len row.now.values) self.old }
        requires ahead { self.old.second.heap ≡ self.old.first.heap + self.old.period }
        requires limited { end + self.old.period ≤ FARTHEST }
        requires marks { MARKS ≤ length marks.old }
        ensures paired { IsPaired (vec_len row.now.values) self.new }
        ensures by_row { end + self.old.period ≤ vec_len row.now.values → result ≡ true }
        ensures ahead { result ≡ true → self.new.second.heap ≡ self.new.first.heap + self.new.period }
        ensures heap { result ≡ true → self.new.first.heap ≡ max end self.old.first.heap }
        ensures short { result ≡ false → self.new.first.heap < end }
        ensures more { self.old.first.heap ≤ self.new.first.heap }
        ensures period { self.new.period ≡ self.old.period }
        ensures marks { length marks.new ≡ length marks.old }
        ensures compared { (c : octal.Code) → IsRow (λ x. x) c row.now → IsCompared c self.old → IsCompared c self.new }
    {
        let mut sets = self.first.window.sets(alloc);
        let mut later = self.second.window.sets(alloc);
        for _ in self.first.heap..end {
            if !self.compare_next(row, &mut sets, &mut later, marks) {
                return false;
            }
        }
        true
    }

    // Compares the next heap, if the windows tell its value and the one a period later, by the sets of each where there are some.
    fn compare_next(
        &mut self,
        row: &Row<u16, A>,
        sets: &mut Option<Sets<A>>,
        later: &mut Option<Sets<A>>,
        marks: &mut [bool],
    ) -> bool
        requires paired { IsPaired (vec_len row.now.values) self.old }
        requires of { IfSome sets.old (AreSetsOf self.old.first.window) }
        requires of_later { IfSome later.old (AreSetsOf self.old.second.window) }
        requires ahead { self.old.second.heap ≡ self.old.first.heap + self.old.period }
        requires limited { self.old.second.heap < FARTHEST }
        requires marks { MARKS ≤ length marks.old }
        ensures paired { IsPaired (vec_len row.now.values) self.new }
        ensures of { IfSome sets.new (AreSetsOf self.new.first.window) }
        ensures of_later { IfSome later.new (AreSetsOf self.new.second.window) }
        ensures by_row { self.old.second.heap < vec_len row.now.values → result ≡ true }
        ensures ahead { result ≡ true → self.new.second.heap ≡ self.new.first.heap + self.new.period }
        ensures heap { result ≡ true → self.new.first.heap ≡ self.old.first.heap + 1 }
        ensures short { result ≡ false → self.new.first.heap ≡ self.old.first.heap }
        ensures period { self.new.period ≡ self.old.period }
        ensures marks { length marks.new ≡ length marks.old }
        ensures compared { (c : octal.Code) → IsRow (λ x. x) c row.now → IsCompared c self.old → IfSome sets.old (AreRight self.old.first.window) → IfSome later.old (AreRight self.old.second.window) → IsCompared c self.new }
        ensures right { (c : octal.Code) → IsCompared c self.old → IfSome sets.old (AreRight self.old.first.window) → IfSome sets.new (AreRight self.new.first.window) }
        ensures right_later { (c : octal.Code) → IsCompared c self.old → IfSome later.old (AreRight self.old.second.window) → IfSome later.new (AreRight self.new.second.window) }
    {
        let Some(again) = self.second.next(row, later, marks) else {
            return false;
        };
        let Some(value) = self.first.next(row, sets, marks) else {
            return false;
        };
        if value != again {
            self.start = self.first.heap;
        }
        true
    }
}

// The last place at which two lists of one length differ, if they do.
fn last_difference(left: &[u16], right: &[u16]) -> Option<usize>
    requires { length left.now ≡ length right.now }
    ensures same { MatchOption result ((i : ℕ) → i < length left.now → slice_index left.now i ≡ slice_index right.now i) (λ at. (i : ℕ) → at < i → i < length left.now → slice_index left.now i ≡ slice_index right.now i) }
    ensures differ { IfSome result (λ at. slice_index left.now at ≢ slice_index right.now at) }
    ensures within { IfSome result (λ at. at < length left.now) }
{
    let mut at = left.len();
    while at > 0 {
        at -= 1;
        if left[at] != right[at] {
            return Some(at);
        }
    }
    None
}
