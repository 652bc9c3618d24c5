//! Clocks: for each author a number, as a replicated value.

ghost use lib.Dec.{T};
ghost use Rattle.std.specs.Prelude.{◌≡◌, ◌≤◌, OnOk, OnErr, IfOk, IfErr};
ghost use Rattle.std.specs.Ordering.{nat_cmp};
ghost use Rattle.std.specs.FinMap as map;
ghost use Rattle.oct_join.specs.Clock as clock;
ghost use Rattle.oct_join.specs.ClockLaws.{below_order, joined_bound};
ghost use Rattle.oct_join.specs.Entries.{AreOfClock, IsAt, IsGapFor};

use crate::join::Join;
use oct_ops::Dot;
use std::alloc::{AllocError, Allocator};
use std::marker::Model;

/// For each author a number of at least 1, up to which all of the author's operations are known. An author that is
/// absent counts as 0.
///
///     let mut clock = Clock::new(alloc);
///     clock.raise(5, 2)?;
///     clock.through(5)                          // 2
///     clock.covers(&Dot::new(5, 3)?)            // false: the third operation of author 5 is not known
///
/// Clocks are ordered by author: one is below another where each of its numbers is at most the other's. So the least
/// upper bound of two clocks has each author of either, with the greater number.
#[derive(Drop)]
pub struct Clock<A: Allocator> {
    entries: Vec<(u32, u32), A>,
}

impl<A: Allocator> Model for Clock<A> {
    ghost use Rattle.std.specs.FinMap as map;
    ghost use Rattle.oct_join.specs.Clock.{Clock as ClockValue, clock_code};
    ghost use Rattle.oct_join.specs.Entries.{AreOfClock};

    ghost Value = { ClockValue };

    ghost coded = { clock_code };

    ghost view = { λ c. map.from_sorted c.entries.items };

    ghost invariant = { λ c. AreOfClock c.entries.items };
}

impl<A: Allocator> Clock<A> {
    /// The clock without authors, which will grow in memory of `alloc`.
    #[tactic(auto, using(crate::proofs::Merging::from_nothing))]
    pub fn new(alloc: A) -> Clock<A>
        ensures { result ≡ clock.empty }
    {
        Clock {
            entries: Vec::new(alloc),
        }
    }

    /// The authors, rising, each with its number. Both are 1 to 4,294,967,295.
    pub fn entries(&self) -> &[(u32, u32)]
        ensures all { result.now ≡ clock.entries self.now }
        ensures valid { AreOfClock result.now }
    {
        &self.entries
    }

    /// The author's number, or 0 where the author is absent.
    pub fn through(&self, author: u32) -> u32
        ensures { result ≡ clock.through self.now author }
    {
        match search(&self.entries, author) {
            Ok(at) => self.entries[at].1,
            Err(_) => 0,
        }
    }

    /// Whether the dot's operation is one of those that are known: its number is at most the author's here.
    pub fn covers(&self, dot: &Dot) -> bool
        ensures { result ≡ clock.covers self.now dot.now }
    {
        dot.number() <= self.through(dot.author())
    }

    /// Makes the author's number at least `number`: the greater one stays, and 0 changes nothing. Memory can be refused only
    /// for an author that is absent, raised to 1 or more; then the clock stays as it is.
    pub fn raise(&mut self, author: u32, number: u32) -> Result<(), AllocError>
        requires { 1 ≤ author }
        ensures ok { OnOk result (self.new ≡ clock.raised self.old author number) }
        ensures err { OnErr result (self.new ≡ self.old) }
        ensures absent { OnErr result ((1 ≤ number) × (clock.through self.old author ≡ 0)) }
    {
        if number == 0 {
            return Ok(());
        }
        match search(&self.entries, author) {
            Ok(at) => {
                let greater = self.entries[at].1.max(number);
                self.entries[at] = (author, greater);
            }
            Err(at) => self.entries.insert(at, (author, number))?,
        }
        Ok(())
    }
}

// Where the author stands, or would stand.
fn search(entries: &[(u32, u32)], author: u32) -> Result<usize, usize>
    requires { T (map.is_sorted nat_cmp entries.now) }
    ensures found { IfOk result (IsAt entries.now author) }
    ensures absent { IfErr result (IsGapFor entries.now author) }
{
    entries.binary_search_by_key(&author, |&(other, _)| other)
}

impl<A: Allocator> Join for Clock<A> {
    ghost below = { clock.IsBelow };

    ghost bound = { clock.joined };

    fn join(&mut self, other: &Clock<A>) -> Result<(), AllocError> {
        for &(author, number) in other.entries() {
            self.raise(author, number)?;
        }
        Ok(())
    }

    ghost order = { below_order };

    ghost least = { joined_bound };
}
