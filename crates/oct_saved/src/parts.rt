//! The parts of a place, from the numbers.

ghost use Rattle.std.specs.Prelude.{◌≡◌, ◌<◌, ◌≤◌, ◌^◌, IfErr, IfOk, length};
ghost use Rattle.std.specs.List.{All};
ghost use Rattle.oct_mex.specs.Rare.{AreBeside};
ghost use Rattle.oct_saved.specs.Numbers.{place_numbers, seen_lists, stage_lists, watch_lists, window_lists};
ghost use Rattle.oct_saved.specs.Reading.{Begins, IsFront, IsPlaceShaped, IsReaderOf, IsSeenOf, IsStageOf, IsWatchOf, IsWindowBy, IsWindowOf, RefusesIf};
ghost use Rattle.oct_window.specs.declared.place.Place as places;
ghost use Rattle.oct_window.specs.declared.place.Seen as seens;
ghost use Rattle.oct_window.specs.declared.place.Stage as stages;
ghost use Rattle.oct_window.specs.declared.reader.Reader as readers;
ghost use Rattle.oct_window.specs.declared.watch.Watch as watches;
ghost use Rattle.oct_window.specs.declared.window.Window as windows;

use crate::error::ReadError;
use crate::input::Input;
use crate::lists::{code_of, used_for, words_of};
use crate::scalars::Scalars;
use oct_code::Code;
use oct_mex::{Mask, Rare};
use oct_window::{Comparison, Place, Reader, Seen, Stage, Watch, Window};
use std::alloc::Allocator;

impl Input<'_> {
    /// A place whose windows fit together, and are of its code's game.
    pub(crate) fn place<A: Allocator + Copy>(&mut self, alloc: A) -> Result<Place<A>, ReadError>
        ensures ok { IfOk result (IsFront place_numbers IsPlaceShaped self.old self.new) }
        ensures err { IfErr result (λ error. RefusesIf error (Begins {X = places.Place A} place_numbers IsPlaceShaped self.old)) }
    {
        let [kind, head, listed, scalars @ ..] = self.list()? else {
            return Err(ReadError::Refused);
        };
        let code = code_of(alloc, *head, self.list()?)?;
        let stage = self.stage(alloc, code, *kind, scalars)?;
        Ok(Place {
            code,
            listed: *listed as usize,
            stage,
        })
    }

    // What goes on behind the first values.
    fn stage<A: Allocator + Copy>(
        &mut self,
        alloc: A,
        code: Code,
        kind: u64,
        scalars: &[u64],
    ) -> Result<Stage<A>, ReadError>
        ensures ok { IfOk result (IsFront stage_lists (IsStageOf code kind scalars.now) self.old self.new) }
        ensures err { IfErr result (λ error. RefusesIf error (Begins {X = stages.Stage A} stage_lists (IsStageOf code kind scalars.now) self.old)) }
    {
        match kind {
            0 => Ok(Stage::Watching(self.watch(alloc, code, scalars)?)),
            1 => Ok(Stage::Comparing(self.seen(alloc, code, scalars)?)),
            _ => Err(ReadError::Refused),
        }
    }

    // A window that is watched.
    fn watch<A: Allocator + Copy>(
        &mut self,
        alloc: A,
        code: Code,
        scalars: &[u64],
    ) -> Result<Watch<A>, ReadError>
        ensures ok { IfOk result (IsFront watch_lists (IsWatchOf code scalars.now) self.old self.new) }
        ensures err { IfErr result (λ error. RefusesIf error (Begins {X = watches.Watch A} watch_lists (IsWatchOf code scalars.now) self.old)) }
    {
        let [at, scalars @ ..] = scalars else {
            return Err(ReadError::Refused);
        };
        let window = self.window(alloc, code, scalars)?;
        let mark = words_of(alloc, self.list()?)?;
        Ok(Watch {
            window,
            mark,
            at: *at as usize,
        })
    }

    // A period that a watch has seen.
    fn seen<A: Allocator + Copy>(
        &mut self,
        alloc: A,
        code: Code,
        scalars: &[u64],
    ) -> Result<Seen<A>, ReadError>
        ensures ok { IfOk result (IsFront seen_lists (IsSeenOf code scalars.now) self.old self.new) }
        ensures err { IfErr result (λ error. RefusesIf error (Begins {X = seens.Seen A} seen_lists (IsSeenOf code scalars.now) self.old)) }
    {
        let [start, values, period, least, scalars @ ..] = scalars else {
            return Err(ReadError::Refused);
        };
        if scalars.len() < READER {
            return Err(ReadError::Refused);
        }
        let (first, second) = scalars.split_at(READER);
        let comparison = Comparison {
            first: self.reader(alloc, code, first)?,
            second: self.reader(alloc, code, second)?,
            period: *period as usize,
            start: *least as usize,
        };
        Ok(Seen {
            start: *start as usize,
            values: *values as usize,
            comparison,
        })
    }

    // A reader of nim-values.
    fn reader<A: Allocator + Copy>(
        &mut self,
        alloc: A,
        code: Code,
        scalars: &[u64],
    ) -> Result<Reader<A>, ReadError>
        ensures ok { IfOk result (IsFront (λ reader. window_lists reader.window) (IsReaderOf code scalars.now) self.old self.new) }
        ensures err { IfErr result (λ error. RefusesIf error (Begins {X = readers.Reader A} (λ reader. window_lists reader.window) (IsReaderOf code scalars.now) self.old)) }
    {
        let [heap, scalars @ ..] = scalars else {
            return Err(ReadError::Refused);
        };
        Ok(Reader {
            window: self.window(alloc, code, scalars)?,
            heap: *heap as usize,
        })
    }

    // A window.
    fn window<A: Allocator + Copy>(
        &mut self,
        alloc: A,
        code: Code,
        scalars: &[u64],
    ) -> Result<Window<A>, ReadError>
        ensures ok { IfOk result (IsFront window_lists (IsWindowOf code scalars.now) self.old self.new) }
        ensures err { IfErr result (λ error. RefusesIf error (Begins {X = windows.Window A} window_lists (IsWindowOf code scalars.now) self.old)) }
    {
        let Some(scalars) = Scalars::of(scalars) else {
            return Err(ReadError::Refused);
        };
        let heaps = self.list()?;
        let held = self.list()?;
        window_of(alloc, code, scalars, heaps, held)
    }
}

// So many scalars are written of a reader.
const READER: usize = 6;

// The window of these scalars, rare heaps and values.
fn window_of<A: Allocator + Copy>(
    alloc: A,
    code: Code,
    scalars: Scalars,
    heaps: &[u64],
    held: &[u64],
) -> Result<Window<A>, ReadError>
    ensures ok { IfOk result (IsWindowBy code scalars heaps.now held.now) }
    ensures err { IfErr result (λ error. RefusesIf error ((w : windows.Window A) × IsWindowBy code scalars heaps.now held.now w)) }
{
    let reach = scalars.reach;
    if scalars.mask.bits == 0
        || reach == 0
        || reach > u32::MAX as usize
        || held.len() <= 2 * reach + code.len()
    {
        return Err(ReadError::Refused);
    }
    let held: Vec<u16, A> = words_of(alloc, held)?;
    let rare = rare_of(alloc, scalars.mask, heaps, &held, reach)?;
    let used = used_for(&held);
    Ok(Window {
        code,
        rare,
        reach,
        held,
        count: scalars.count,
        used,
    })
}

// The rare heaps, none of which is above the reach, with their values.
fn rare_of<A: Allocator + Copy>(
    alloc: A,
    mask: Mask,
    heaps: &[u64],
    held: &[u16],
    reach: usize,
) -> Result<Rare<u16, A>, ReadError>
    requires held { reach < length held.now }
    requires small { reach < 2 ^ 32 }
    ensures mask { IfOk result (λ rare. rare.mask ≡ mask) }
    ensures heaps { IfOk result (λ rare. rare.heaps.items ≡ heaps.now) }
    ensures beside { IfOk result (λ rare. AreBeside held.now heaps.now rare.values.items) }
    ensures few { IfOk result (λ rare. All (λ h. h ≤ reach) heaps.now) }
    ensures err { IfErr result (λ error. RefusesIf error (All (λ h. h ≤ reach) heaps.now)) }
{
    let mut rare = Rare::new(alloc);
    rare.mask = mask;
    rare.heaps = Vec::with_capacity(alloc, heaps.len())?;
    rare.values = Vec::with_capacity(alloc, heaps.len())?;
    for heap in heaps {
        if *heap > reach as u64 {
            return Err(ReadError::Refused);
        }
        rare.heaps.push_reserved(*heap as u32);
        rare.values.push_reserved(held[*heap as usize]);
    }
    Ok(rare)
}
