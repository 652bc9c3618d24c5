//! A window that is watched until its values come again.

ghost use Rattle.std.specs.Prelude.{◌≡◌, ◌+◌, ◌*◌, ◌<◌, ◌≤◌, ℕ, length, max, IfOk, IfSome, OnErr, OnOk};
ghost use Rattle.oct_window.specs.BySets.{AreRight, AreSetsOf};
ghost use Rattle.oct_window.specs.Trails.{AreSettled, IsRightTrail, IsTrailOf};
ghost use Rattle.oct_window.specs.Watched.{count_after, IsMarkAt, IsStepped, IsWatchable, IsWatched, mark_after, seen_of};
ghost use Rattle.oct_window.specs.declared.watch.Step.TheVariants.{Again, On};
ghost use Rattle.oct_mex.specs.Windows.{window as width};
ghost use Rattle.oct_window.specs.Windows.{IsKnown, IsSameGame, IsShaped};

use crate::trail::Trail;
use crate::window::{FARTHEST, MARKS, Window};
use oct_mex::SeenPeriod;
use oct_sets::Sets;
use std::alloc::{AllocError, Allocator};

/// A window, and the values that it had as last ones before the heap `at`. They are marked anew where it has gone as far
/// again (Brent 1980), so that each period is seen.
#[derive(Drop)]
pub struct Watch<A: Allocator> {
    pub window: Window<A>,
    pub mark: Vec<u16, A>,
    pub at: usize,
}

/// What a step of a watch gives.
#[derive(Clone, Copy)]
pub enum Step {
    /// One value more.
    On,
    /// One value more, with which the values that were marked come again.
    Again,
    /// The window does not tell the next value.
    Lost,
}

impl<A: Allocator + Copy> Watch<A> {
    /// Watches a window from where it is. Memory is taken for the values that are marked.
    pub fn new(alloc: A, window: Window<A>) -> Result<Watch<A>, AllocError>
        requires shaped { IsShaped window }
        requires behind { window.reach + width window.code window.reach < window.count }
        ensures watchable { IfOk result IsWatchable }
        ensures watched { IsKnown window → IfOk result IsWatched }
        ensures window { IfOk result (λ watch. watch.window ≡ window) }
        ensures at { IfOk result (λ watch. watch.at ≡ window.count) }
        ensures marked { (first : ℕ) → first ≡ window.count → IfOk result (λ watch. IsMarkAt first watch.at watch.window.count) }
    {
        let mark = window.copy_last(alloc)?;
        let at = window.count;
        Ok(Watch { window, mark, at })
    }

    /// The period with which the marked values have come again, and the heap from which on they show it.
    pub fn seen(&self) -> SeenPeriod
        requires { IsWatchable self.now }
        ensures { result ≡ seen_of self.now }
    {
        SeenPeriod {
            start: self.at - (self.window.reach + self.window.code.len()),
            period: self.window.count - self.at,
        }
    }

    /// Adds the next value, by a table of marks, and says whether the marked values come again with it: then `seen` holds for
    /// every heap, and no shorter period does from any heap on. Memory is taken where they are marked anew, and where it is
    /// refused nothing changes.
    pub fn step(&mut self, alloc: A, marks: &mut [bool]) -> Result<Step, AllocError>
        requires watchable { IsWatchable self.old }
        requires limited { self.old.window.count < FARTHEST }
        requires marks { MARKS ≤ length marks.old }
        ensures watchable { IsWatchable self.new }
        ensures same { IsSameGame self.old.window self.new.window }
        ensures count { self.old.window.count ≤ self.new.window.count }
        ensures next { IfOk result (λ step. self.new.window.count ≡ count_after step self.old.window.count) }
        ensures mark { OnOk result (self.new.at ≡ mark_after self.old.at self.old.window.count) }
        ensures behind { IfOk result (λ step. step ≡ On → self.new.at < self.new.window.count) }
        ensures marks { length marks.new ≡ length marks.old }
        ensures err { OnErr result (self.new ≡ self.old) }
        ensures stepped { IsWatched self.old → IfOk result (IsStepped self.new) }
    {
        self.step_by(alloc, &mut None, &mut 0, marks)
    }

    // A step by sets, where there are some, or else by a table of marks. Of the marked values that at the place `look` is compared first.
    #[inline(always)]
    fn step_by(
        &mut self,
        alloc: A,
        sets: &mut Option<Sets<A>>,
        look: &mut usize,
        marks: &mut [bool],
    ) -> Result<Step, AllocError>
        requires watchable { IsWatchable self.old }
        requires of { IfSome sets.old (AreSetsOf self.old.window) }
        requires limited { self.old.window.count < FARTHEST }
        requires marks { MARKS ≤ length marks.old }
        ensures watchable { IsWatchable self.new }
        ensures of { IfSome sets.new (AreSetsOf self.new.window) }
        ensures same { IsSameGame self.old.window self.new.window }
        ensures count { self.old.window.count ≤ self.new.window.count }
        ensures next { IfOk result (λ step. self.new.window.count ≡ count_after step self.old.window.count) }
        ensures mark { OnOk result (self.new.at ≡ mark_after self.old.at self.old.window.count) }
        ensures behind { IfOk result (λ step. step ≡ On → self.new.at < self.new.window.count) }
        ensures marks { length marks.new ≡ length marks.old }
        ensures err { OnErr result (self.new ≡ self.old) }
        ensures right { IsWatched self.old → IfSome sets.old (AreRight self.old.window) → IfSome sets.new (AreRight self.new.window) }
        ensures stepped { IsWatched self.old → IfSome sets.old (AreRight self.old.window) → IfOk result (IsStepped self.new) }
        ensures passed { IsWatched self.old → IfSome sets.old (AreRight self.old.window) → AreSettled self.old.window.count self.new.window }
    {
        self.mark_if_due(alloc)?;
        Ok(self.push_next(sets, look, marks))
    }

    /// Steps on until the window is at the heap `end`, the marked values come again, or the window is lost: by sets, as far as
    /// there is memory for them, which is given back. Where it is refused for values that are marked anew, some steps may have
    /// been made.
    pub fn go_to(&mut self, alloc: A, end: usize, marks: &mut [bool]) -> Result<Step, AllocError>
        requires watchable { IsWatchable self.old }
        requires limited { end ≤ FARTHEST }
        requires marks { MARKS ≤ length marks.old }
        ensures watchable { IsWatchable self.new }
        ensures same { IsSameGame self.old.window self.new.window }
        ensures most { self.new.window.count ≤ max end self.old.window.count }
        ensures more { self.old.window.count ≤ self.new.window.count }
        ensures still { end ≤ self.old.window.count → self.new ≡ self.old }
        ensures again { IfOk result (λ step. step ≡ Again → self.old.window.count < self.new.window.count) }
        ensures reached { IfOk result (λ step. step ≡ On → self.new.window.count ≡ max end self.old.window.count) }
        ensures behind { IfOk result (λ step. step ≡ On → self.old.window.count < end → self.new.at < self.new.window.count) }
        ensures marked { (first : ℕ) → IsMarkAt first self.old.at self.old.window.count → IfOk result (λ step. step ≡ On → IsMarkAt first self.new.at self.new.window.count) }
        ensures marks { length marks.new ≡ length marks.old }
        ensures stepped { IsWatched self.old → IfOk result (IsStepped self.new) }
        ensures passed { IsWatched self.old → AreSettled self.old.window.count self.new.window }
    {
        let mut sets = self.window.sets(alloc);
        let mut look = 0;
        while self.window.count < end {
            let step = self.step_by(alloc, &mut sets, &mut look, marks)?;
            if !matches!(step, Step::On) {
                return Ok(step);
            }
        }
        Ok(Step::On)
    }

    /// Leaves a copy of its window on a trail, where one is due and there is memory for it.
    pub(crate) fn leave(&mut self, alloc: A, trail: &mut Trail<A>)
        requires { IsWatchable self.old }
        ensures watchable { IsWatchable self.new }
        ensures same { IsSameGame self.old.window self.new.window }
        ensures count { self.new.window.count ≡ self.old.window.count }
        ensures mark { self.new.at ≡ self.old.at }
        ensures watched { IsWatched self.old → IsWatched self.new }
        ensures of { (listed : ℕ) → listed ≤ self.old.window.count → IsTrailOf listed self.old.window trail.old → IsTrailOf listed self.new.window trail.new }
        ensures right { IsWatched self.old → IsRightTrail self.old.window trail.old → IsRightTrail self.new.window trail.new }
    {
        trail.pass(alloc, &mut self.window);
    }

    // Marks the last values anew where the window has gone as far again.
    #[inline(always)]
    fn mark_if_due(&mut self, alloc: A) -> Result<(), AllocError>
        requires { IsWatchable self.old }
        ensures watchable { IsWatchable self.new }
        ensures window { self.new.window ≡ self.old.window }
        ensures mark { OnOk result (self.new.at ≡ mark_after self.old.at self.old.window.count) }
        ensures fresh { OnOk result (self.new.window.count < 2 * self.new.at) }
        ensures err { OnErr result (self.new ≡ self.old) }
        ensures watched { IsWatched self.old → IsWatched self.new }
    {
        if self.window.count / 2 >= self.at {
            self.mark = self.window.copy_last(alloc)?;
            self.at = self.window.count;
        }
        Ok(())
    }

    // Adds the next value, and says whether the marked values come again with it.
    #[inline(always)]
    fn push_next(
        &mut self,
        sets: &mut Option<Sets<A>>,
        look: &mut usize,
        marks: &mut [bool],
    ) -> Step
        requires watchable { IsWatchable self.old }
        requires of { IfSome sets.old (AreSetsOf self.old.window) }
        requires fresh { self.old.window.count < 2 * self.old.at }
        requires limited { self.old.window.count < FARTHEST }
        requires marks { MARKS ≤ length marks.old }
        ensures watchable { IsWatchable self.new }
        ensures of { IfSome sets.new (AreSetsOf self.new.window) }
        ensures same { IsSameGame self.old.window self.new.window }
        ensures next { self.new.window.count ≡ count_after result self.old.window.count }
        ensures mark { self.new.at ≡ self.old.at }
        ensures behind { result ≡ On → self.new.at < self.new.window.count }
        ensures marks { length marks.new ≡ length marks.old }
        ensures right { IsWatched self.old → IfSome sets.old (AreRight self.old.window) → IfSome sets.new (AreRight self.new.window) }
        ensures stepped { IsWatched self.old → IfSome sets.old (AreRight self.old.window) → IsStepped self.new result }
        ensures passed { IsWatched self.old → IfSome sets.old (AreRight self.old.window) → AreSettled self.old.window.count self.new.window }
    {
        if !self.window.push_by(sets, marks) {
            return Step::Lost;
        }
        if self.window.ends_with(&self.mark, look) {
            Step::Again
        } else {
            Step::On
        }
    }
}
