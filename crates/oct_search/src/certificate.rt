//! A period that one run of it proves.
//!
//! By themselves the values show a period only once there are twice as many as the heaps before it and in it. Where no heap
//! above a reach is rare, fewer are enough: if the heaps up to the reach settle the value of each heap of the last period,
//! and a window of values before these heaps comes again one period later, then the same moves settle each further heap as
//! the one a period before, and the values go on with the period for ever. The reach is as large as the values allow.

ghost use Rattle.std.specs.Prelude.{◌≡◌, ℕ, ◌+◌, ◌*◌, ◌%◌, ◌^◌, ◌<◌, ◌≤◌, IfSome, IsTrue, length, map, true, vec_len};
ghost use Rattle.std.specs.List.{Contains};
ghost use Rattle.oct_code.specs.Code as octal;
ghost use Rattle.oct_mex.specs.Periods.{ComesAgain, GoesOn};
ghost use Rattle.oct_mex.specs.Row.{IsRow};
ghost use Rattle.oct_mex.specs.Windows.{IsSettled, window};
ghost use Rattle.oct_search.specs.BySets.{ServeFor};
ghost use Rattle.oct_search.specs.Certain.{IsCertain};

use crate::by_sets::BySets;
use crate::seldom::Seldom;
use oct_code::Code;
use oct_mex::{Cell, Mask, Row, SeenPeriod, settled_value};
use std::alloc::Allocator;

// So many of the last values, one in so many and some more, let expect a period that is tried.
const SHARE: usize = 64;

const SPARE: usize = 64;

/// What the last values say of the next ones.
#[derive(Clone, Copy)]
pub(crate) struct Outlook {
    /// Whether they come again by some period, so that one may be expected.
    pub come_again: bool,
    /// That period, the least one, if the values are known to go on with it.
    pub certain: Option<SeenPeriod>,
}

/// What the last values say of the next ones. They are known to go on with the least period that they let expect where they show it
/// by themselves, or one run of settled heaps does. These are looked at only where they are fewer than the values that it spares.
pub(crate) fn look_ahead<T: Cell, A: Allocator + Copy>(
    alloc: A,
    row: &Row<T, A>,
    code: &Code,
    seldom: &mut Seldom<A>,
    marks: &mut [bool],
) -> Outlook
    requires row { IsRow T.number code.now row.now }
    requires marks { row.now.used ≤ length marks.old }
    ensures { IfSome result.certain (IsCertain code.now (vec_len row.now.values)) }
{
    let tail = row.values.len() / SHARE + SPARE;
    let Some(seen) = seldom.expected_period(&row.values, tail) else {
        return Outlook {
            come_again: false,
            certain: None,
        };
    };
    let spared = need_of(code, seen).saturating_sub(row.values.len());
    let certain = if spared == 0 || seen.period < spared && goes_on(alloc, row, code, seen, marks) {
        Some(seen)
    } else {
        None
    };
    Outlook {
        come_again: true,
        certain,
    }
}

/// How many values show a period by themselves (Guy and Smith 1956).
pub(crate) fn need_of(code: &Code, seen: SeenPeriod) -> usize
    requires { seen.start + seen.period ≤ 2 ^ 32 }
    ensures { result ≡ 2 * seen.start + 2 * seen.period + octal.len code.now }
{
    2 * seen.start + 2 * seen.period + code.len()
}

// Whether one run of settled heaps proves a period that is seen from some heap on. The window before it lies within the
// values that come again.
fn goes_on<T: Cell, A: Allocator + Copy>(
    alloc: A,
    row: &Row<T, A>,
    code: &Code,
    seen: SeenPeriod,
    marks: &mut [bool],
) -> bool
    requires row { IsRow T.number code.now row.now }
    requires marks { row.now.used ≤ length marks.old }
    requires some { 1 ≤ seen.period }
    requires within { seen.start + seen.period ≤ vec_len row.now.values }
    requires again { ComesAgain (map T.number row.now.values.items) seen.start seen.period }
    ensures goes_on { IsTrue result → GoesOn code.now (vec_len row.now.values) seen.period }
    ensures size { length marks.new ≡ length marks.old }
{
    let start = row.values.len() - seen.period;
    let digits = code.len();
    let back = seen.start + digits;
    if !serves(row.rare.mask, seen.period) || start <= back {
        return false;
    }
    let reach = (start - back).min((start - digits - 1) / 2);
    greatest(&row.rare.heaps) <= reach
        && are_settled(alloc, row, code, start, reach, &mut marks[..row.used])
}

/// The greatest heap of a list, or 0.
pub(crate) fn greatest(heaps: &[u32]) -> usize
    ensures within { result < 2 ^ 32 }
    ensures most { (h : ℕ) → Contains heaps.now h → h ≤ result }
{
    let mut greatest = 0;
    for heap in heaps {
        greatest = greatest.max(*heap as usize);
    }
    greatest
}

// Whether a mask tells heaps apart, and heaps one period later in the same way.
fn serves(mask: Mask, period: usize) -> bool
    ensures some { IsTrue result → 0 < mask.bits }
    ensures even { IsTrue result → mask.parity ≡ true → period % 2 ≡ 0 }
{
    mask.bits > 0 && (!mask.parity || period % 2 == 0)
}

// Whether the heaps up to `reach`, none above it being rare, settle the value of each heap from `start` on: by sets, as far as these
// tell it, or else by marks.
fn are_settled<T: Cell, A: Allocator + Copy>(
    alloc: A,
    row: &Row<T, A>,
    code: &Code,
    start: usize,
    reach: usize,
    marks: &mut [bool],
) -> bool
    requires row { IsRow T.number code.now row.now }
    requires some { 0 < row.now.rare.mask.bits }
    requires few { (h : ℕ) → Contains row.now.rare.heaps.items h → h ≤ reach }
    requires room { reach + window code.now reach < start }
    requires within { start ≤ vec_len row.now.values }
    requires limited { reach < 2 ^ 32 }
    requires marks { length marks.old ≡ row.now.used }
    ensures settled { IsTrue result → (n : ℕ) → start ≤ n → n < vec_len row.now.values → IsSettled code.now row.now.rare.mask reach n }
    ensures size { length marks.new ≡ length marks.old }
{
    let mut sets = BySets::behind(alloc, row, code, start);
    for heap in start..row.values.len() {
        if !is_told(&sets, row, code, heap, reach)
            && settled_value(code, &row.values[..heap], &row.rare, heap, reach, marks).is_none()
        {
            return false;
        }
        if let Some(sets) = &mut sets {
            sets.go_on(row, code, heap);
        }
    }
    true
}

// Whether sets that reach no farther than `reach` tell the value of a heap.
fn is_told<T: Cell, A: Allocator + Copy>(
    sets: &Option<BySets<A>>,
    row: &Row<T, A>,
    code: &Code,
    heap: usize,
    reach: usize,
) -> bool
    requires row { IsRow T.number code.now row.now }
    requires within { heap ≤ vec_len row.now.values }
    requires serve { IfSome sets.now (ServeFor code.now row.now heap) }
    ensures { IsTrue result → IsSettled code.now row.now.rare.mask reach heap }
{
    match sets {
        Some(sets) => sets.sets.reach() <= reach && sets.tell(row, code, heap),
        None => false,
    }
}
