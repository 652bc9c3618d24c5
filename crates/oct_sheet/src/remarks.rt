//! What notes say that views show.

ghost use Rattle.std.specs.Prelude.{◌≡◌, IfOk, map};
ghost use Rattle.std.specs.Str.{IsAscii};
ghost use Rattle.oct_ops.specs.Operations.{listed};
ghost use Rattle.oct_said.specs.Dots.{is_withdrawn};
ghost use Rattle.oct_said.specs.Noting.{said_of};
ghost use Rattle.oct_sheet.specs.Names.{author_name};
ghost use Rattle.oct_sheet.specs.Sheet.{remarks_of};

use crate::name_table::{name_in, names_by_author};
use oct_code::Code;
use oct_ops::{Dot, Op};
use oct_record::Record;
use oct_said::{LongPeriod, Withdrawn, said_by_game, said_in};
use std::alloc::{AllocError, Allocator};
use std::collections::BTreeMap;
use std::marker::Model;

/// What views show of live notes, which are listed by name and then in the order of operations: the names of authors, what is
/// withdrawn, and the long periods of games. Each is looked up in a table, with no pass over the notes. Its value is these notes.
#[derive(Drop)]
pub struct Remarks<'a, A: Allocator + Copy> {
    notes: Vec<&'a Op<A>, A>,
    names: BTreeMap<u32, &'a [u8], A>,
    withdrawn: Withdrawn<A>,
    said: BTreeMap<Code, Vec<LongPeriod, A>, A>,
}

impl<'a, A: Allocator + Copy> Model for Remarks<'a, A> {
    ghost use Rattle.std.specs.Prelude.{List, map};
    ghost use Rattle.oct_ops.specs.Body.{Operation};
    ghost use Rattle.oct_sheet.specs.Remarks.{HasRemarks};

    ghost Value = { List Operation };

    ghost view = { λ r. map (λ op. op.now) r.notes.items };

    ghost invariant = { λ r. HasRemarks (λ text. text.now) (λ periods. periods.items) r.names r.withdrawn r.said (map (λ op. op.now) r.notes.items) };
}

impl<'a, A: Allocator + Copy> Remarks<'a, A> {
    /// Those by the live notes of a record.
    pub fn of_record(said: &'a Record<A>) -> Result<Remarks<'a, A>, AllocError>
        ensures { IfOk result (λ remarks. remarks ≡ remarks_of (listed said.now.ops)) }
    {
        let notes = said.notes().live_refs()?;
        Remarks::among(said.allocator(), notes)
    }

    /// Those by these notes.
    pub fn among(alloc: A, notes: Vec<&'a Op<A>, A>) -> Result<Remarks<'a, A>, AllocError>
        ensures { IfOk result (λ remarks. remarks ≡ map (λ op. op.now) notes.entry.items) }
    {
        let names = names_by_author(alloc, &notes)?;
        let withdrawn = Withdrawn::among(alloc, &notes)?;
        let said = said_by_game(alloc, &notes)?;
        Ok(Remarks {
            notes,
            names,
            withdrawn,
            said,
        })
    }

    /// The name of an author: the text of the last note of the name `author-name` that it issued. It is empty where there is
    /// none.
    pub fn name_of(&self, author: u32) -> &'a [u8]
        ensures value { result.now ≡ author_name self.now author }
        ensures ascii { IsAscii result.now }
    {
        name_in(&self.names, author)
    }

    /// Whether who issued what has this dot withdrew it, as `oct_said::withdrawn_by` says.
    pub fn is_withdrawn(&self, dot: Dot) -> bool
        ensures { result ≡ is_withdrawn self.now dot }
    {
        self.withdrawn.has(&dot)
    }

    /// The long periods that notes say of a game, in the order of the notes.
    pub fn said_of(&self, code: Code) -> &[LongPeriod]
        ensures { result.now ≡ said_of self.now code }
    {
        said_in(&self.said, code)
    }
}
