//! What finds the next value of a row.

ghost use Rattle.std.specs.Prelude.{◌≡◌, ◌+◌, ◌-◌, ◌^◌, ◌<◌, ◌≤◌, ℕ, if◌then◌else◌, false, max, None, vec_capacity, vec_len, IfOk, IfSome, OnErr, OnOk};
ghost use Rattle.oct_code.specs.Code as octal;
ghost use Rattle.oct_mex.specs.NimValues.{nim_value};
ghost use Rattle.oct_mex.specs.Row.{IsRow};
ghost use Rattle.oct_search.specs.BySets.{AreSetsOf};

use crate::by_sets::BySets;
use crate::search::MOST;
use oct_code::Code;
use oct_mex::{Cell, Row};
use std::alloc::{AllocError, Allocator};

// The room for values grows by one in so many, and some more.
const SHARE: usize = 16;

const SPARE: usize = 1_024;

// Sets are made anew where there are more values by one in so many.
const ANEW: usize = 4;

/// What finds the next value of a row: sets of the values of options, where they tell it, and else a table of marks.
#[derive(Drop)]
pub(crate) struct Finder<A: Allocator> {
    pub marks: Vec<bool, A>,
    pub sets: Option<BySets<A>>,
    /// How many values there are when sets are made next.
    pub due: usize,
}

impl<A: Allocator + Copy> Finder<A> {
    /// No marks and no sets. Takes no memory.
    pub(crate) fn new(alloc: A) -> Finder<A>
        ensures { result.sets ≡ None }
    {
        Finder {
            marks: Vec::new(alloc),
            sets: None,
            due: 0,
        }
    }

    /// Adds the next values of a row up to the heap `end`, as far as there is room for them and sets tell them. Takes no memory.
    pub(crate) fn push_settled<T: Cell>(&mut self, row: &mut Row<T, A>, code: &Code, end: usize)
        requires row { IsRow T.number code.now row.old }
        requires limited { end ≤ MOST }
        requires sets { IfSome self.old.sets (AreSetsOf code.now (vec_len row.old.values)) }
        ensures row { IsRow T.number code.now row.new }
        ensures more { vec_len row.old.values ≤ vec_len row.new.values }
        ensures most { vec_len row.new.values ≤ max end (vec_len row.old.values) }
        ensures sets { IfSome self.new.sets (AreSetsOf code.now (vec_len row.new.values)) }
    {
        let end = end.min(self.due).min(row.values.capacity());
        if let Some(sets) = &mut self.sets {
            sets.push_settled(row, code, end);
        }
    }

    /// Adds the next value of a row by marks, and says whether its cell holds it: else the values stay. Makes sets where it is time,
    /// if there is memory for them.
    pub(crate) fn push_next<T: Cell>(
        &mut self,
        alloc: A,
        row: &mut Row<T, A>,
        code: &Code,
    ) -> Result<bool, AllocError>
        requires row { IsRow T.number code.now row.old }
        requires limited { vec_len row.old.values < MOST }
        requires sets { IfSome self.old.sets (AreSetsOf code.now (vec_len row.old.values)) }
        ensures row { IsRow T.number code.now row.new }
        ensures len { IfOk result (λ fits. vec_len row.new.values ≡ (if fits then vec_len row.old.values + 1 else vec_len row.old.values)) }
        ensures err { OnErr result (vec_len row.new.values ≡ vec_len row.old.values) }
        ensures past { IfOk result (λ fits. fits ≡ false → T.bound ≤ nim_value code.now (vec_len row.old.values)) }
        ensures sets { IfSome self.new.sets (AreSetsOf code.now (vec_len row.new.values)) }
    {
        self.make_room(row)?;
        self.make_sets(alloc, row, code);
        lengthen(&mut self.marks, row.used)?;
        if !row.push_next(code, &mut self.marks) {
            return Ok(false);
        }
        follow(&mut self.sets, row, code);
        Ok(true)
    }

    // Makes room for one more value, in place of the sets where there is no other. Without memory nothing else changes.
    fn make_room<T: Cell>(&mut self, row: &mut Row<T, A>) -> Result<(), AllocError>
        requires { vec_len row.old.values < MOST }
        ensures row { (c : octal.Code) → IsRow T.number c row.old → IsRow T.number c row.new }
        ensures len { vec_len row.new.values ≡ vec_len row.old.values }
        ensures room { OnOk result (vec_len row.new.values < vec_capacity row.new.values) }
        ensures sets { (c : octal.Code) (n : ℕ) → IfSome self.old.sets (AreSetsOf c n) → IfSome self.new.sets (AreSetsOf c n) }
    {
        if make_room(row).is_ok() {
            return Ok(());
        }
        self.sets = None;
        make_room(row)
    }

    // Makes sets anew where it is time.
    // Where it goes on value by value, no place is to be made for the sets that this makes now and then.
    #[inline(never)]
    fn make_sets<T: Cell>(&mut self, alloc: A, row: &Row<T, A>, code: &Code)
        requires row { IsRow T.number code.now row.now }
        requires sets { IfSome self.old.sets (AreSetsOf code.now (vec_len row.now.values)) }
        ensures sets { IfSome self.new.sets (AreSetsOf code.now (vec_len row.now.values)) }
    {
        let len = row.values.len();
        if len >= self.due {
            self.due = len + len / ANEW + 1;
            self.sets = BySets::behind(alloc, row, code, len);
        }
    }
}

// Goes on with sets behind the last value, or gives them up where they do not serve any more.
fn follow<T: Cell, A: Allocator + Copy>(sets: &mut Option<BySets<A>>, row: &Row<T, A>, code: &Code)
    requires row { IsRow T.number code.now row.now }
    requires some { 0 < vec_len row.now.values }
    requires sets { IfSome sets.old (AreSetsOf code.now (vec_len row.now.values - 1)) }
    ensures sets { IfSome sets.new (AreSetsOf code.now (vec_len row.now.values)) }
{
    let serve = match sets {
        Some(sets) => sets.follow(row, code),
        None => false,
    };
    if !serve {
        *sets = None;
    }
}

/// Makes room for one more value. Without memory nothing changes but the room.
pub(crate) fn make_room<T: Cell, A: Allocator + Copy>(row: &mut Row<T, A>) -> Result<(), AllocError>
    requires { vec_len row.old.values < MOST }
    ensures row { (c : octal.Code) → IsRow T.number c row.old → IsRow T.number c row.new }
    ensures len { vec_len row.new.values ≡ vec_len row.old.values }
    ensures room { OnOk result (vec_len row.new.values < vec_capacity row.new.values) }
{
    let len = row.values.len();
    if len == row.values.capacity() {
        row.room_to(room_behind(len))?;
    }
    Ok(())
}

/// For how many values there is to be room, where there are so many and no more fit.
pub(crate) fn room_behind(len: usize) -> usize
    requires { len < MOST }
    ensures more { len < result }
    ensures most { result ≤ MOST }
{
    MOST.min(len + len / SHARE + SPARE)
}

/// Makes a table of marks at least so long.
pub(crate) fn lengthen<A: Allocator>(marks: &mut Vec<bool, A>, len: usize) -> Result<(), AllocError>
    ensures { OnOk result (len ≤ vec_len marks.new) }
{
    if marks.len() < len {
        marks.resize(len, false)?;
    }
    Ok(())
}
