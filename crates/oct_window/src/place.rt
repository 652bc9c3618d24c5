//! How far a search in windows is.

use crate::comparison::Comparison;
use crate::sought::Sought;
use crate::watch::Watch;
use oct_code::Code;
use std::alloc::Allocator;

/// How far a search for the period of a game is: all that it takes to go on from there, but for the first values.
#[derive(Drop)]
pub struct Place<A: Allocator> {
    pub code: Code,
    /// So many first values are listed.
    pub listed: usize,
    pub stage: Stage<A>,
}

/// What goes on behind the first values.
#[derive(Drop)]
pub enum Stage<A: Allocator> {
    /// A window is watched until its values come again.
    Watching(Watch<A>),
    /// They have come again, and the least heap from which on they do so is looked for.
    Comparing(Seen<A>),
}

/// A period that a watch has seen.
#[derive(Drop)]
pub struct Seen<A: Allocator> {
    /// The period holds from this heap on, and maybe from an earlier one.
    pub start: usize,
    /// How many values showed it.
    pub values: usize,
    /// It compares the heaps before the start with those a period later.
    pub comparison: Comparison<A>,
}

impl<A: Allocator> Place<A> {
    ghost use Rattle.std.specs.Prelude.{◌≡◌};
    ghost use Rattle.oct_window.specs.Places.{farthest};

    /// How many values were computed: the heap that is next.
    pub fn farthest(&self) -> usize
        ensures { result ≡ farthest self.now.stage }
    {
        match &self.stage {
            Stage::Watching(watch) => watch.window.count,
            Stage::Comparing(seen) => seen.values,
        }
    }
}

/// What a step of a search gives.
#[derive(Drop)]
pub enum Stepped<A: Allocator> {
    /// The search goes on from here.
    On(Place<A>),
    /// The search is over, and this is its last place.
    Over(Sought, Place<A>),
    /// A window does not tell the value of this heap: more first values are needed.
    Lost(usize),
}
