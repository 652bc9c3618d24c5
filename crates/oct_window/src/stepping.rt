//! One step of a search in windows.

ghost use Rattle.std.specs.Prelude.{◌≡◌, ◌<◌, ◌≤◌, true, length, vec_len, IfOk, IfSome};
ghost use Rattle.oct_code.specs.Code as octal;
ghost use Rattle.oct_mex.specs.Row.{IsRow};
ghost use Rattle.oct_window.specs.Comparisons.{IsCompared};
ghost use Rattle.oct_window.specs.Places.{IsComparing, IsPlaced, IsRightPlace, IsRightStep, IsRightTrailAt, IsRightTrailBehind, IsSeen, IsStep, IsTrailAt, IsTrailBehind, IsWatchedIn, IsWatching, IsWithin, left};
ghost use Rattle.oct_window.specs.Repeats.{IsRepeat};
ghost use Rattle.oct_window.specs.Trails.{IsRightTrail, IsTrailOf};
ghost use Rattle.oct_window.specs.declared.place.Stage.TheVariants.{Comparing, Watching};
ghost use Rattle.oct_window.specs.Watched.{IsWatchable, seen_of};

use crate::comparison::Comparison;
use crate::laws::least_starts_are_least;
use crate::place::{Place, Seen, Stage, Stepped};
use crate::seeking::MOST_LISTED;
use crate::sought::Sought;
use crate::trail::{Narrowed, Trail};
use crate::watch::{Step, Watch};
use crate::window::{FARTHEST, MARKS, Window};
use oct_code::Code;
use oct_mex::{Row, SeenPeriod};
use std::alloc::{AllocError, Allocator};

// So many values are computed at most in a step.
const PART: usize = 1_048_576;

// And at most one for so many that were computed before, so that few are compared behind the window that is kept after a step.
const SHARE: usize = 8;

impl<A: Allocator + Copy> Place<A> {
    /// Goes on by some values, at most to the heap `count`, by the first values, the windows that the search has passed, and a
    /// table of marks. Memory is taken where values are marked anew, and where they have come again.
    pub fn step(
        self,
        alloc: A,
        row: &Row<u16, A>,
        count: usize,
        trail: &mut Trail<A>,
        marks: &mut [bool],
    ) -> Result<Stepped<A>, AllocError>
        requires row { IsRow (λ x. x) self.code row.now }
        requires listed { vec_len row.now.values ≡ self.listed }
        requires placed { IsPlaced self }
        requires within { IsWithin count self }
        requires limited { count ≤ FARTHEST }
        requires trail { IsTrailAt self trail.old }
        requires marks { MARKS ≤ length marks.old }
        ensures step { IfOk result (IsStep count self) }
        ensures right { IsRightPlace self → IsRightTrailAt self trail.old → IfOk result (IsRightStep self.code count) }
        ensures trail { IfOk result (λ stepped. IsTrailBehind stepped trail.new) }
        ensures right_trail { IsRightPlace self → IsRightTrailAt self trail.old → IfOk result (λ stepped. IsRightTrailBehind stepped trail.new) }
        ensures marks { length marks.new ≡ length marks.old }
    {
        let Place { code, stage, .. } = self;
        match stage {
            Stage::Watching(mut watch) => {
                watch.leave(alloc, trail);
                watch_on(alloc, code, watch, row, count, trail, marks)
            }
            Stage::Comparing(seen) => Ok(compare_on(alloc, code, seen, row, count, marks)),
        }
    }
}

// Watches on.
fn watch_on<A: Allocator + Copy>(
    alloc: A,
    code: Code,
    watch: Watch<A>,
    row: &Row<u16, A>,
    count: usize,
    trail: &Trail<A>,
    marks: &mut [bool],
) -> Result<Stepped<A>, AllocError>
    requires row { IsRow (λ x. x) code row.now }
    requires few { vec_len row.now.values < MOST_LISTED }
    requires trail { IsTrailOf (vec_len row.now.values) watch.window trail.now }
    requires watching { IsWatching (vec_len row.now.values) watch }
    requires listed { vec_len row.now.values < count }
    requires marked { watch.at < count }
    requires within { watch.window.count ≤ count }
    requires limited { count ≤ FARTHEST }
    requires marks { MARKS ≤ length marks.old }
    ensures step { IfOk result (IsStep count (record { code = code; listed = vec_len row.now.values; stage = Watching watch })) }
    ensures right { IsWatchedIn code (vec_len row.now.values) watch → IsRightTrail watch.window trail.now → IfOk result (IsRightStep code count) }
    ensures trail { IfOk result (λ stepped. IsTrailBehind stepped trail.now) }
    ensures right_trail { IsWatchedIn code (vec_len row.now.values) watch → IsRightTrail watch.window trail.now → IfOk result (λ stepped. IsRightTrailBehind stepped trail.now) }
    ensures marks { length marks.new ≡ length marks.old }
{
    let mut watch = watch;
    let end = count.min(watch.window.count + PART.min(watch.window.count / SHARE + 1));
    let step = watch.go_to(alloc, end, marks)?;
    match step {
        Step::Lost => Ok(Stepped::Lost(watch.window.count)),
        Step::Again => match compare_behind(alloc, code, &watch, row, trail, marks)? {
            Some(seen) => Ok(Stepped::On(place_of(code, row, Stage::Comparing(seen)))),
            None => Ok(Stepped::Lost(watch.window.count)),
        },
        Step::On => {
            let place = place_of(code, row, Stage::Watching(watch));
            if end < count {
                Ok(Stepped::On(place))
            } else {
                Ok(Stepped::Over(Sought::Unseen(count, row.values.len()), place))
            }
        }
    }
}

// Begins to look for the least heap from which on a period holds that a watch has seen, if windows do so.
fn compare_behind<A: Allocator + Copy>(
    alloc: A,
    code: Code,
    watch: &Watch<A>,
    row: &Row<u16, A>,
    trail: &Trail<A>,
    marks: &mut [bool],
) -> Result<Option<Seen<A>>, AllocError>
    requires row { IsRow (λ x. x) code row.now }
    requires watchable { IsWatchable watch.now }
    requires behind { vec_len row.now.values < watch.now.window.count }
    requires limited { watch.now.window.count ≤ FARTHEST }
    requires trail { IsTrailOf (vec_len row.now.values) watch.now.window trail.now }
    requires marks { MARKS ≤ length marks.old }
    ensures comparing { IfOk result (λ found. IfSome found (IsComparing (vec_len row.now.values))) }
    ensures values { IfOk result (λ found. IfSome found (λ seen. seen.values ≡ watch.now.window.count)) }
    ensures seen { watch.now.window.code ≡ code → IsRepeat code (seen_of watch.now) → IsRightTrail watch.now.window trail.now → IfOk result (λ found. IfSome found (IsSeen code)) }
    ensures marks { length marks.new ≡ length marks.old }
{
    let values = watch.window.count;
    let Narrowed { start, comparison } = trail.narrow(alloc, watch, row, marks);
    if let Some(comparison) = comparison {
        return Ok(Some(Seen {
            start: start.max(comparison.heap()),
            values,
            comparison,
        }));
    }
    let Some(first) = Window::of(alloc, code, row)? else {
        return Ok(None);
    };
    let Some(second) = Window::of(alloc, code, row)? else {
        return Ok(None);
    };
    Ok(Some(Seen {
        start,
        values,
        comparison: Comparison::new(first, second, watch.seen().period),
    }))
}

// Compares on.
fn compare_on<A: Allocator + Copy>(
    alloc: A,
    code: Code,
    seen: Seen<A>,
    row: &Row<u16, A>,
    count: usize,
    marks: &mut [bool],
) -> Stepped<A>
    requires row { IsRow (λ x. x) code row.now }
    requires few { vec_len row.now.values < MOST_LISTED }
    requires comparing { IsComparing (vec_len row.now.values) seen }
    requires within { seen.values ≤ count }
    requires limited { count ≤ FARTHEST }
    requires marks { MARKS ≤ length marks.old }
    ensures step { IsStep count (record { code = code; listed = vec_len row.now.values; stage = Comparing seen }) result }
    ensures right { IsSeen code seen → IsRightStep code count result }
    ensures marks { length marks.new ≡ length marks.old }
{
    let mut seen = seen;
    if !seen.go_on(alloc, row, marks) {
        return Stepped::Lost(seen.values);
    }
    if seen.comparison.heap() < seen.start {
        return Stepped::On(place_of(code, row, Stage::Comparing(seen)));
    }
    least_starts_are_least();
    let least = SeenPeriod {
        start: seen.comparison.start(),
        period: seen.comparison.period,
    };
    let sought = Sought::Least(least, seen.values);
    Stepped::Over(sought, place_of(code, row, Stage::Comparing(seen)))
}

// The place of a search behind these first values.
fn place_of<A: Allocator + Copy>(code: Code, row: &Row<u16, A>, stage: Stage<A>) -> Place<A>
    ensures { result ≡ record { code = code; listed = vec_len row.now.values; stage = stage } }
{
    Place {
        code,
        listed: row.values.len(),
        stage,
    }
}

impl<A: Allocator + Copy> Seen<A> {
    // Reads the values of some heaps, and says whether the windows tell them: those that are a period ahead, and then those
    // of heaps that are compared.
    fn go_on(&mut self, alloc: A, row: &Row<u16, A>, marks: &mut [bool]) -> bool
        requires comparing { IsComparing (vec_len row.now.values) self.old }
        requires limited { self.old.values ≤ FARTHEST }
        requires marks { MARKS ≤ length marks.old }
        ensures comparing { result ≡ true → IsComparing (vec_len row.now.values) self.new }
        ensures start { self.new.start ≡ self.old.start }
        ensures values { self.new.values ≡ self.old.values }
        ensures period { self.new.comparison.period ≡ self.old.comparison.period }
        ensures less { result ≡ true → self.new.comparison.first.heap < self.new.start → left 0 (Comparing self.new) < left 0 (Comparing self.old) }
        ensures marks { length marks.new ≡ length marks.old }
        ensures compared { (c : octal.Code) → IsRow (λ x. x) c row.now → IsCompared c self.old.comparison → IsCompared c self.new.comparison }
    {
        let comparison = &mut self.comparison;
        if comparison.ahead() < comparison.period {
            let end = comparison.period.min(comparison.ahead() + PART);
            comparison.go_ahead(alloc, row, end, marks)
        } else {
            let end = self.start.min(comparison.heap() + PART);
            comparison.compare(alloc, row, end, marks)
        }
    }
}
