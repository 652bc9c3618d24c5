//! Whether a search can be taken up again from a place.

ghost use Rattle.std.specs.Prelude.{◌↔◌, ◌^◌, ◌<◌, IsTrue};
ghost use Rattle.oct_window.specs.Places.{IsKept};
ghost use Rattle.oct_window.specs.Windows.{IsShaped};
ghost use Rattle.oct_saved.specs.Kept.{IsKeptSeen, IsKeptWatch};
ghost use Rattle.oct_saved.specs.Reading.{IsShapedStage};

use oct_window::{FARTHEST, MOST_LISTED, Place, Seen, Stage, Watch};
use std::alloc::Allocator;

/// Whether a search can be taken up again from a place whose windows fit together.
pub(crate) fn is_kept<A: Allocator + Copy>(place: &Place<A>) -> bool
    requires { IsShapedStage place.now.stage }
    ensures { IsTrue result ↔ IsKept place.now }
{
    match &place.stage {
        Stage::Watching(watch) => is_kept_watch(place.listed, watch),
        Stage::Comparing(seen) => is_kept_seen(place.listed, seen),
    }
}

// Whether a watch can go on behind so many first values.
fn is_kept_watch<A: Allocator + Copy>(listed: usize, watch: &Watch<A>) -> bool
    requires { IsShaped watch.now.window }
    ensures { IsTrue result ↔ IsKeptWatch listed watch.now }
{
    let window = &watch.window;
    let width = window.reach + window.code.len();
    listed < MOST_LISTED
        && listed < window.count
        && window.count <= FARTHEST
        && watch.at < window.count
        && window.count <= 2 * watch.at
        && watch.mark.len() == width
        && window.reach + width < watch.at
}

// Whether a comparison can go on behind so many first values.
fn is_kept_seen<A: Allocator + Copy>(listed: usize, seen: &Seen<A>) -> bool
    requires first { IsShaped seen.now.comparison.first.window }
    requires second { IsShaped seen.now.comparison.second.window }
    ensures { IsTrue result ↔ IsKeptSeen listed seen.now }
{
    let (first, second) = (&seen.comparison.first, &seen.comparison.second);
    let period = seen.comparison.period;
    listed < MOST_LISTED
        && listed < seen.values
        && seen.values <= FARTHEST
        && 1 <= seen.start
        && seen.start <= seen.values
        && period <= seen.values - seen.start
        && first.heap <= seen.start
        && (first.heap == 0 && second.heap <= period || second.heap == first.heap + period)
        && first.window.count == first.heap.max(listed)
        && second.window.count == second.heap.max(listed)
        && 1 <= seen.comparison.start
        && seen.comparison.start <= first.heap.max(1)
}
