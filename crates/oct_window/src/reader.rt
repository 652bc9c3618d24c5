//! The nim-values of a game, one after another.

ghost use Rattle.std.specs.Prelude.{◌≡◌, ℕ, ◌+◌, ◌<◌, ◌≤◌, true, false, IfSome, IsSome, MatchOption, length, max, vec_len};
ghost use Rattle.oct_code.specs.Code as octal;
ghost use Rattle.oct_mex.specs.NimValues.{nim_value};
ghost use Rattle.oct_mex.specs.Row.{IsRow};
ghost use Rattle.oct_window.specs.BySets.{AreRight, AreSetsOf};
ghost use Rattle.oct_window.specs.Comparisons.{IsInStep, IsRight};
ghost use Rattle.oct_window.specs.Windows.{IsKnown, IsSameGame, IsShaped};

use crate::window::{FARTHEST, MARKS, Window};
use oct_mex::Row;
use oct_sets::Sets;
use std::alloc::Allocator;

/// Reads the nim-values from heap 0 on: those of a row, and then those that a window tells.
#[derive(Drop)]
pub struct Reader<A: Allocator> {
    /// It begins behind the row.
    pub window: Window<A>,
    /// The next heap.
    pub heap: usize,
}

impl<A: Allocator + Copy> Reader<A> {
    /// At heap 0, with a window that begins behind the row.
    pub(crate) fn new(window: Window<A>) -> Reader<A>
        requires { IsShaped window }
        ensures step { IsInStep window.count result }
        ensures heap { result.heap ≡ 0 }
        ensures right { (c : octal.Code) → IsKnown window → window.code ≡ c → IsRight c result }
    {
        Reader { window, heap: 0 }
    }

    /// At the heap whose value the window tells next.
    pub(crate) fn behind(window: Window<A>) -> Reader<A>
        requires { IsShaped window }
        ensures step { (values : ℕ) → values ≤ window.count → IsInStep values result }
        ensures heap { result.heap ≡ window.count }
        ensures window { result.window ≡ window }
    {
        let heap = window.count;
        Reader { window, heap }
    }

    /// The value of the next heap, if the row has it or the window tells it, by sets where there are some: else the reader stays
    /// there. Takes no memory.
    pub(crate) fn next(
        &mut self,
        row: &Row<u16, A>,
        sets: &mut Option<Sets<A>>,
        marks: &mut [bool],
    ) -> Option<u16>
        requires step { IsInStep (vec_len row.now.values) self.old }
        requires of { IfSome sets.old (AreSetsOf self.old.window) }
        requires limited { self.old.heap < FARTHEST }
        requires marks { MARKS ≤ length marks.old }
        ensures step { IsInStep (vec_len row.now.values) self.new }
        ensures same { IsSameGame self.old.window self.new.window }
        ensures of { IfSome sets.new (AreSetsOf self.new.window) }
        ensures by_row { self.old.heap < vec_len row.now.values → IsSome result }
        ensures heap { MatchOption result (self.new.heap ≡ self.old.heap) (λ value. self.new.heap ≡ self.old.heap + 1) }
        ensures marks { length marks.new ≡ length marks.old }
        ensures right { (c : octal.Code) → IsRight c self.old → IfSome sets.old (AreRight self.old.window) → IsRight c self.new }
        ensures sets { (c : octal.Code) → IsRight c self.old → IfSome sets.old (AreRight self.old.window) → IfSome sets.new (AreRight self.new.window) }
        ensures value { (c : octal.Code) → IsRow (λ x. x) c row.now → IsRight c self.old → IfSome sets.old (AreRight self.old.window) → IfSome result (λ value. value ≡ nim_value c self.old.heap) }
    {
        if self.heap < row.values.len() {
            let value = row.values[self.heap];
            self.heap += 1;
            return Some(value);
        }
        if !self.window.push_by(sets, marks) {
            return None;
        }
        self.heap += 1;
        Some(self.window.last())
    }

    /// Reads on to the heap `end`, and says whether the values before it are known: else it stays at the first that is not.
    /// By sets, as far as there is memory for them, which is given back.
    pub(crate) fn go_to(
        &mut self,
        alloc: A,
        row: &Row<u16, A>,
        end: usize,
        marks: &mut [bool],
    ) -> bool
        requires step { IsInStep (vec_len row.now.values) self.old }
        requires limited { end ≤ FARTHEST }
        requires marks { MARKS ≤ length marks.old }
        ensures step { IsInStep (vec_len row.now.values) self.new }
        ensures same { IsSameGame self.old.window self.new.window }
        ensures by_row { end ≤ vec_len row.now.values → result ≡ true }
        ensures heap { result ≡ true → self.new.heap ≡ max end self.old.heap }
        ensures short { result ≡ false → self.new.heap < end }
        ensures more { self.old.heap ≤ self.new.heap }
        ensures marks { length marks.new ≡ length marks.old }
        ensures right { (c : octal.Code) → IsRight c self.old → IsRight c self.new }
    {
        let mut sets = self.window.sets(alloc);
        for _ in self.heap..end {
            if self.next(row, &mut sets, marks).is_none() {
                return false;
            }
        }
        true
    }
}
