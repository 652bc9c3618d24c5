//! The windows that a search has passed. By them the least heap of a period is found without going over all values again.

ghost use Rattle.std.specs.Prelude.{◌≡◌, ℕ, ◌+◌, ◌-◌, ◌<◌, ◌≤◌, IfSome, length, vec_len};
ghost use Rattle.std.specs.List.{HoldsAt};
ghost use Rattle.oct_mex.specs.Windows.{window as width};
ghost use Rattle.oct_window.specs.Comparisons.{IsCompared};
ghost use Rattle.oct_window.specs.Repeats.{IsRepeat};
ghost use Rattle.oct_window.specs.Trails.{IsBetween, IsLater, IsRightlyLater, IsRightTrail, IsTrailOf};
ghost use Rattle.oct_window.specs.Watched.{IsWatchable, seen_of};
ghost use Rattle.oct_window.specs.Windows.{IsKnown, IsSameGame, IsShaped};
ghost use Rattle.oct_window.specs.declared.window.Window as windows;

use crate::comparison::Comparison;
use crate::reader::Reader;
use crate::watch::Watch;
use crate::window::{FARTHEST, MARKS, Window};
use oct_mex::Row;
use std::alloc::{AllocError, Allocator};

// A window is kept where a search has gone on by one part in so many.
const SHARE: usize = 32;

// So many values are kept at most, in all windows.
const MOST: usize = 33_554_432;

// A window that is kept has room for so many more values.
const SPARE: usize = 2;

/// Windows of a search at heaps that it has passed, each further on than those before it.
#[derive(Drop)]
pub struct Trail<A: Allocator> {
    windows: Vec<Window<A>, A>,
    // The next window is kept at this heap or behind it.
    due: usize,
}

/// From where on a period holds, as far as a trail says.
#[derive(Drop)]
pub(crate) struct Narrowed<A: Allocator> {
    /// It holds from this heap on.
    pub start: usize,
    /// A comparison that goes on behind a window of the trail, in which the period does not hold.
    pub comparison: Option<Comparison<A>>,
}

// What the values of a window are a period later.
#[derive(Drop)]
enum Later<A: Allocator> {
    // The same, so that the period holds from this heap on.
    Same(usize),
    // Others, and a comparison goes on behind them.
    Others(Comparison<A>),
    // It is not known: memory is refused, or a window does not tell a value.
    Unknown,
}

impl<A: Allocator + Copy> Trail<A> {
    /// No window. Takes no memory.
    pub fn new(alloc: A) -> Trail<A>
        ensures of { (listed : ℕ) (now : windows.Window A) → IsTrailOf listed now result }
        ensures right { (now : windows.Window A) → IsRightTrail now result }
    {
        Trail {
            windows: Vec::new(alloc),
            due: 0,
        }
    }

    /// Keeps a copy of a window that the search has come to, where one is due and there is memory for it. The window forgets
    /// what it does not need.
    pub(crate) fn pass(&mut self, alloc: A, window: &mut Window<A>)
        requires shaped { IsShaped window.old }
        requires far { window.old.reach + width window.old.code window.old.reach < window.old.count }
        ensures shaped { IsShaped window.new }
        ensures same { IsSameGame window.old window.new }
        ensures count { window.new.count ≡ window.old.count }
        ensures known { IsKnown window.old → IsKnown window.new }
        ensures of { (listed : ℕ) → listed ≤ window.old.count → IsTrailOf listed window.old self.old → IsTrailOf listed window.new self.new }
        ensures right { IsKnown window.old → IsRightTrail window.old self.old → IsRightTrail window.new self.new }
    {
        window.forget();
        if window.count >= self.due && window.held.len() <= MOST / (self.windows.len() + 1) {
            let _ = self.keep(alloc, window);
            self.due = usize::saturating_add(window.count, window.count / SHARE);
        }
    }

    // Keeps a copy of a window.
    fn keep(&mut self, alloc: A, window: &Window<A>) -> Result<(), AllocError>
        requires shaped { IsShaped window.now }
        requires far { window.now.reach + width window.now.code window.now.reach < window.now.count }
        ensures of { (listed : ℕ) → listed ≤ window.now.count → IsTrailOf listed window.now self.old → IsTrailOf listed window.now self.new }
        ensures right { IsKnown window.now → IsRightTrail window.now self.old → IsRightTrail window.now self.new }
    {
        self.windows.reserve(1)?;
        self.windows.push_reserved(window.copy(alloc, SPARE)?);
        Ok(())
    }

    /// By halving, looks for the last window of the trail whose values are others a period later.
    pub(crate) fn narrow(
        &self,
        alloc: A,
        watch: &Watch<A>,
        row: &Row<u16, A>,
        marks: &mut [bool],
    ) -> Narrowed<A>
        requires watchable { IsWatchable watch.now }
        requires of { IsTrailOf (vec_len row.now.values) watch.now.window self.now }
        requires limited { watch.now.window.count ≤ FARTHEST }
        requires marks { MARKS ≤ length marks.old }
        ensures some { 1 ≤ result.start }
        ensures below { result.start ≤ (seen_of watch.now).start }
        ensures between { IfSome result.comparison (IsBetween (vec_len row.now.values) (seen_of watch.now)) }
        ensures holds { IsRepeat watch.now.window.code (seen_of watch.now) → IsRightTrail watch.now.window self.now → IsRepeat watch.now.window.code (record { start = result.start; period = (seen_of watch.now).period }) }
        ensures compared { IsRepeat watch.now.window.code (seen_of watch.now) → IsRightTrail watch.now.window self.now → IfSome result.comparison (IsCompared watch.now.window.code) }
        ensures marks { length marks.new ≡ length marks.old }
    {
        let mut narrowed = Narrowed {
            start: watch.seen().start,
            comparison: None,
        };
        let mut low = 0;
        let mut high = self.windows.len();
        while low < high {
            let middle = low + (high - low) / 2;
            match self.later(alloc, middle, watch, row, marks) {
                Later::Same(start) => {
                    narrowed.start = start;
                    high = middle;
                }
                Later::Others(comparison) => {
                    narrowed.comparison = Some(comparison);
                    low = middle + 1;
                }
                Later::Unknown => return narrowed,
            }
        }
        narrowed
    }

    // What the values of a window are a period later.
    fn later(
        &self,
        alloc: A,
        index: usize,
        watch: &Watch<A>,
        row: &Row<u16, A>,
        marks: &mut [bool],
    ) -> Later<A>
        requires held { index < vec_len self.now.windows }
        requires watchable { IsWatchable watch.now }
        requires of { IsTrailOf (vec_len row.now.values) watch.now.window self.now }
        requires limited { watch.now.window.count ≤ FARTHEST }
        requires marks { MARKS ≤ length marks.old }
        ensures later { IsLater (vec_len row.now.values) (seen_of watch.now) result }
        ensures right { IsRepeat watch.now.window.code (seen_of watch.now) → IsRightTrail watch.now.window self.now → IsRightlyLater watch.now.window.code (seen_of watch.now) result }
        ensures marks { length marks.new ≡ length marks.old }
    {
        let seen = watch.seen();
        let window = &self.windows[index];
        if window.count > seen.start {
            return Later::Same(seen.start);
        }
        let end = window.count + seen.period;
        let nearest = &self.windows[self.last_before(index, end)];
        let Ok(first) = window.copy(alloc, window.held.len()) else {
            return Later::Unknown;
        };
        let Ok(second) = nearest.copy(alloc, nearest.held.len()) else {
            return Later::Unknown;
        };
        let mut second = Reader::behind(second);
        if !second.go_to(alloc, row, end, marks) {
            return Later::Unknown;
        }
        match Comparison::behind(Reader::behind(first), second, seen.period) {
            Some(comparison) => Later::Others(comparison),
            None => Later::Same(window.count - window.reach - window.code.len()),
        }
    }

    // The last of the windows from one on that are no further on than a heap, up to the first that is.
    fn last_before(&self, from: usize, heap: usize) -> usize
        requires held { from < vec_len self.now.windows }
        ensures held { result < vec_len self.now.windows }
        ensures before { HoldsAt (λ w. w.count ≤ heap) self.now.windows.items from → HoldsAt (λ w. w.count ≤ heap) self.now.windows.items result }
    {
        let mut last = from;
        while last + 1 < self.windows.len() && self.windows[last + 1].count <= heap {
            last += 1;
        }
        last
    }
}
