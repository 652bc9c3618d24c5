//! The heaps of a block.

ghost use Rattle.std.specs.Prelude.{◌≡◌, ◌<◌, ◌≤◌, ℕ, true, false};
ghost use Rattle.std.specs.List.{list_any};
ghost use Rattle.std.specs.List.Sorted.{IsNonDecreasingBy};
ghost use Rattle.oct_left.specs.Spans.{has_heap};

/// The heaps from `start` on, below `end`.
#[derive(Clone, Copy)]
pub(crate) struct Span {
    pub(crate) start: u32,
    pub(crate) end: u32,
}

/// The first heap from 1 on that none of the spans has, which are sorted by their starts.
pub(crate) fn first_missing(spans: &[Span]) -> u32
    requires sorted { IsNonDecreasingBy (λ span. span.start) spans.now }
    ensures some { 1 ≤ result }
    ensures below { (heap : ℕ) → 1 ≤ heap → heap < result → list_any (has_heap heap) spans.now ≡ true }
    ensures missing { list_any (has_heap result) spans.now ≡ false }
{
    let mut missing = 1;
    for span in spans {
        if missing < span.start {
            return missing;
        }
        missing = missing.max(span.end);
    }
    missing
}
