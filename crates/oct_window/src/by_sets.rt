//! The next value of a window by sets of the values of options, where they tell it.

ghost use Rattle.std.specs.Prelude.{◌≡◌, ℕ, ◌+◌, ◌<◌, ◌≤◌, true, false, if◌then◌else◌, length, vec_len, IfSome};
ghost use Rattle.oct_mex.specs.NimValues.{nim_value};
ghost use Rattle.oct_mex.specs.Windows.{IsSettled};
ghost use Rattle.oct_sets.specs.Sets.{limit_of};
ghost use Rattle.oct_window.specs.BySets.{AreRight, AreSetsOf, IsBehind};
ghost use Rattle.oct_window.specs.Windows.{IsKnown, IsSameGame, IsShaped};

use crate::window::{FARTHEST, MARKS, Window};
use oct_sets::{SMALL, Sets};
use std::alloc::Allocator;

impl<A: Allocator + Copy> Window<A> {
    /// The sets by which the window goes on faster, where each of its values is below 64. Where memory is refused there are none,
    /// and it goes on by marks.
    pub(crate) fn sets(&self, alloc: A) -> Option<Sets<A>>
        requires { IsShaped self.now }
        ensures of { IfSome result (AreSetsOf self.now) }
        ensures right { IsKnown self.now → IfSome result (AreRight self.now) }
    {
        let width = self.reach + self.code.len();
        if self.used > SMALL || self.count <= self.reach + width || self.count > FARTHEST {
            return None;
        }
        Sets::new(
            alloc,
            &self.code,
            &self.held[..self.reach + 1],
            &self.rare.heaps,
            &self.held[self.held.len() - width..],
            self.count,
            self.used,
        )
        .ok()
    }

    /// Adds the next value, by sets where there are some that tell it, else by a table of marks, and says whether the window
    /// tells it: else nothing changes. The sets go on with it, or are given up at a value that is too great for them. Takes no memory.
    #[inline(always)]
    pub(crate) fn push_by(&mut self, sets: &mut Option<Sets<A>>, marks: &mut [bool]) -> bool
        requires shaped { IsShaped self.old }
        requires of { IfSome sets.old (AreSetsOf self.old) }
        requires limited { self.old.count < FARTHEST }
        requires marks { MARKS ≤ length marks.old }
        ensures shaped { IsShaped self.new }
        ensures of { IfSome sets.new (AreSetsOf self.new) }
        ensures same { IsSameGame self.old self.new }
        ensures count { self.new.count ≡ (if result then self.old.count + 1 else self.old.count) }
        ensures marks { length marks.new ≡ length marks.old }
        ensures lost { result ≡ false → self.new ≡ self.old }
        ensures known { IsKnown self.old → IfSome sets.old (AreRight self.old) → IsKnown self.new }
        ensures right { IsKnown self.old → IfSome sets.old (AreRight self.old) → IfSome sets.new (AreRight self.new) }
        ensures settled { IsKnown self.old → IfSome sets.old (AreRight self.old) → result ≡ true → IsSettled self.old.code self.old.rare.mask self.old.reach self.old.count }
    {
        let is_next = match self.next_by(sets) {
            Some(cell) => {
                self.make_room();
                self.push(cell);
                true
            }
            None => self.push_next(marks),
        };
        if is_next {
            self.follow(sets);
        }
        is_next
    }

    // The next value, if the sets tell it.
    #[inline(always)]
    fn next_by(&self, sets: &Option<Sets<A>>) -> Option<u16>
        requires shaped { IsShaped self.now }
        requires of { IfSome sets.now (AreSetsOf self.now) }
        requires limited { self.now.count < FARTHEST }
        ensures within { IfSome result (λ cell. cell ≤ self.now.used) }
        ensures value { IsKnown self.now → IfSome sets.now (AreRight self.now) → IfSome result (λ cell. cell ≡ nim_value self.now.code self.now.count) }
        ensures settled { IsKnown self.now → IfSome sets.now (AreRight self.now) → IfSome result (λ cell. IsSettled self.now.code self.now.rare.mask self.now.reach self.now.count) }
    {
        let Some(sets) = sets else {
            return None;
        };
        let last = &self.held[self.held.len() - self.reach - self.code.len()..];
        let value = sets.settle(self.rare.mask, last)?;
        if value <= self.used {
            Some(value as u16)
        } else {
            None
        }
    }

    // Goes on with the sets to the next heap, by the last value of the window.
    #[inline(always)]
    fn follow(&self, sets: &mut Option<Sets<A>>)
        requires shaped { IsShaped self.now }
        requires limited { self.now.count ≤ FARTHEST }
        requires of { IfSome sets.old (IsBehind self.now) }
        ensures of { IfSome sets.new (AreSetsOf self.now) }
        ensures right { IsKnown self.now → IfSome sets.old (AreRight self.now) → IfSome sets.new (AreRight self.now) }
    {
        if self.used > limit_of(sets) {
            *sets = None;
        } else if let Some(sets) = sets {
            sets.push(&self.held[self.held.len() - self.reach - self.code.len()..]);
        }
    }
}

// Where there are sets, each value has to be below this number.
#[inline(always)]
fn limit_of<A: Allocator + Copy>(sets: &Option<Sets<A>>) -> usize
    ensures { IfSome sets.now (λ s. result ≡ limit_of s) }
{
    match sets {
        Some(sets) => sets.limit(),
        None => SMALL,
    }
}
