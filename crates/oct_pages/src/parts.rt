//! The catalogue of a set of operations beside which its games and its notes are kept.

ghost use Rattle.std.specs.Prelude.{◌≡◌, ◌++◌, false, OnOk, OnErr, IfOk};
ghost use Rattle.oct_notes.specs.Notes.{notes_of};
ghost use Rattle.oct_ops.specs.Operations.{listed};
ghost use Rattle.oct_pages.specs.Catalogue.{catalogue, has_page, page as page_text};
ghost use Rattle.oct_pages.specs.GamesIn.{AreGamesIn};

use crate::catalogue::{write_catalogue_with, write_page_with};
use oct_code::Code;
use oct_notes::Notes;
use oct_period::Game;
use oct_record::Record;
use oct_record::taking::share_all;
use oct_store::Store;
use std::alloc::{AllocError, Allocator};
use std::collections::BTreeMap;

/// A set of operations, and what is kept beside it.
#[derive(Clone, Copy)]
pub struct Parts<'a, A: Allocator + Copy> {
    /// The operations.
    pub store: &'a Store<A>,
    /// The games that have a block or a claim in the store, by their codes, each with exactly its blocks and claims.
    pub games: &'a BTreeMap<Code, Game<A>, A>,
    /// Exactly the notes and removals of the store.
    pub notes: &'a Notes<A>,
}

/// Appends the catalogue of the operations to `out`, as `specs/Catalogue` spells it. The operations are filed by game for
/// it, in memory of `alloc`. The one error is that memory is refused, and then `out` stays as it is.
pub fn write_catalogue<A: Allocator + Copy>(
    alloc: A,
    parts: &Parts<'_, A>,
    out: &mut Vec<u8, A>,
) -> Result<(), AllocError>
    requires games { AreGamesIn parts.now.store.now parts.now.games.now }
    requires notes { parts.now.notes.now ≡ notes_of parts.now.store.now }
    ensures ok { OnOk result (out.new.items ≡ out.old.items ++ catalogue (listed parts.now.store.now)) }
    ensures err { OnErr result (out.new.items ≡ out.old.items) }
{
    let said = record_of(alloc, parts.store)?;
    write_catalogue_with(&said, parts.games, out)
}

/// Appends one page of that catalogue, its lines from `64 * page` on, at most 64 of them, and says whether there is
/// such a page. Without one, and where memory is refused, `out` stays as it is.
pub fn write_page<A: Allocator + Copy>(
    alloc: A,
    parts: &Parts<'_, A>,
    page: u32,
    out: &mut Vec<u8, A>,
) -> Result<bool, AllocError>
    requires games { AreGamesIn parts.now.store.now parts.now.games.now }
    requires notes { parts.now.notes.now ≡ notes_of parts.now.store.now }
    ensures found { IfOk result (λ found. found ≡ has_page (listed parts.now.store.now) page) }
    ensures ok { OnOk result (out.new.items ≡ out.old.items ++ page_text (listed parts.now.store.now) page) }
    ensures none { IfOk result (λ found. found ≡ false → out.new.items ≡ out.old.items) }
    ensures err { OnErr result (out.new.items ≡ out.old.items) }
{
    let said = record_of(alloc, parts.store)?;
    write_page_with(&said, parts.games, page, out)
}

// The operations of a store, filed by game. They are shared, and nothing is issued of them.
fn record_of<A: Allocator + Copy>(alloc: A, store: &Store<A>) -> Result<Record<A>, AllocError>
    ensures { IfOk result (λ said. said.ops ≡ store.now) }
{
    let Ok(mut said) = Record::new(alloc, 1) else {
        unreachable!();
    };
    share_all(&mut said, store)?;
    Ok(said)
}
