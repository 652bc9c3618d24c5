//! The whole catalogue, and its pages.
#![tactic(auto, using(oct_ops::proofs::Growing::growing))]

ghost use Rattle.std.specs.Prelude.{◌≡◌, ◌++◌, false, OnOk, OnErr, IfOk};
ghost use Rattle.oct_notes.specs.Notes.{notes_of};
ghost use Rattle.oct_ops.specs.Operations.{listed};
ghost use Rattle.oct_pages.specs.Catalogue.{catalogue, catalogue_among, has_page, lines_among, page as page_text};
ghost use Rattle.oct_pages.specs.GamesIn.{AreGamesIn};
ghost use Rattle.oct_ops.specs.Growth.{Extends};
ghost use Rattle.oct_pages.specs.Rest.{lines_after_games};
ghost use Rattle.oct_pages.specs.Pager.{AreShown};

use crate::authors::{append_authors, append_forks};
use crate::games::append_games;
use crate::line::{Line, show};
use crate::notes::append_notes;
use crate::pager::Pager;
use oct_code::Code;
use oct_notes::Notes;
use oct_period::Game;
use oct_record::Record;
use oct_store::Store;
use oct_text::append_text;
use std::alloc::{AllocError, Allocator};
use std::collections::BTreeMap;

/// Appends the catalogue of what was said to `out`, as `specs/Catalogue` spells it. The games that are kept have exactly their blocks
/// and claims; any other is built when its lines are due, and let go after them. The one error is that memory is refused, and
/// then `out` stays as it is.
pub fn write_catalogue_with<A: Allocator + Copy>(
    said: &Record<A>,
    kept: &BTreeMap<Code, Game<A>, A>,
    out: &mut Vec<u8, A>,
) -> Result<(), AllocError>
    requires { AreGamesIn said.now.ops kept.now }
    ensures ok { OnOk result (out.new.items ≡ out.old.items ++ catalogue (listed said.now.ops)) }
    ensures err { OnErr result (out.new.items ≡ out.old.items) }
{
    append_shown(said, said.store(), kept, &mut Pager::All, out)
}

/// Appends one page of that catalogue, its lines from `64 * page` on, at most 64 of them, and says whether there is
/// such a page. Without one, and where memory is refused, `out` stays as it is.
pub fn write_page_with<A: Allocator + Copy>(
    said: &Record<A>,
    kept: &BTreeMap<Code, Game<A>, A>,
    page: u32,
    out: &mut Vec<u8, A>,
) -> Result<bool, AllocError>
    requires { AreGamesIn said.now.ops kept.now }
    ensures found { IfOk result (λ found. found ≡ has_page (listed said.now.ops) page) }
    ensures ok { OnOk result (out.new.items ≡ out.old.items ++ page_text (listed said.now.ops) page) }
    ensures none { IfOk result (λ found. found ≡ false → out.new.items ≡ out.old.items) }
    ensures err { OnErr result (out.new.items ≡ out.old.items) }
{
    let mut pager = Pager::page(page);
    append_shown(said, said.store(), kept, &mut pager, out)?;
    Ok(pager.is_reached())
}

/// Appends the catalogue of what was said to `out`, with one game in memory at a time. The one error is that memory is
/// refused, and then `out` stays as it is.
pub fn write_catalogue_of<A: Allocator + Copy>(
    said: &Record<A>,
    out: &mut Vec<u8, A>,
) -> Result<(), AllocError>
    ensures ok { OnOk result (out.new.items ≡ out.old.items ++ catalogue (listed said.now.ops)) }
    ensures err { OnErr result (out.new.items ≡ out.old.items) }
{
    write_catalogue_with(said, &BTreeMap::new(said.allocator()), out)
}

/// Appends the catalogue of a part of what was said, in which the authors are those of the whole; one game is in memory at a time. The
/// one error is that memory is refused, and then `out` stays as it is.
pub fn write_catalogue_among<A: Allocator + Copy>(
    part: &Record<A>,
    whole: &Record<A>,
    out: &mut Vec<u8, A>,
) -> Result<(), AllocError>
    ensures ok { OnOk result (out.new.items ≡ out.old.items ++ catalogue_among (listed part.now.ops) (listed whole.now.ops)) }
    ensures err { OnErr result (out.new.items ≡ out.old.items) }
{
    let kept = BTreeMap::new(part.allocator());
    append_shown(part, whole.store(), &kept, &mut Pager::All, out)
}

/// Appends one page of that catalogue, its lines from `64 * page` on, at most 64 of them, and says whether there is
/// such a page; one game is in memory at a time. Without such a page, and where memory is refused, `out` stays as it is.
pub fn write_page_of<A: Allocator + Copy>(
    said: &Record<A>,
    page: u32,
    out: &mut Vec<u8, A>,
) -> Result<bool, AllocError>
    ensures found { IfOk result (λ found. found ≡ has_page (listed said.now.ops) page) }
    ensures ok { OnOk result (out.new.items ≡ out.old.items ++ page_text (listed said.now.ops) page) }
    ensures none { IfOk result (λ found. found ≡ false → out.new.items ≡ out.old.items) }
    ensures err { OnErr result (out.new.items ≡ out.old.items) }
{
    write_page_with(said, &BTreeMap::new(said.allocator()), page, out)
}

// Appends what is shown of all lines, the authors being those of the whole. Where memory is refused, `out` stays as it is.
fn append_shown<A: Allocator + Copy>(
    said: &Record<A>,
    whole: &Store<A>,
    kept: &BTreeMap<Code, Game<A>, A>,
    pager: &mut Pager,
    out: &mut Vec<u8, A>,
) -> Result<(), AllocError>
    requires { AreGamesIn said.now.ops kept.now }
    ensures ok { OnOk result (AreShown pager.old pager.new out.old.items out.new.items (lines_among (listed said.now.ops) (listed whole.now))) }
    ensures err { OnErr result (out.new.items ≡ out.old.items) }
{
    let before = out.len();
    let written = append_lines(out, pager, said, whole, kept);
    if written.is_err() {
        out.truncate(before);
    }
    written
}

// Appends what is shown of all lines.
fn append_lines<A: Allocator + Copy>(
    out: &mut Vec<u8, A>,
    pager: &mut Pager,
    said: &Record<A>,
    whole: &Store<A>,
    kept: &BTreeMap<Code, Game<A>, A>,
) -> Result<(), AllocError>
    requires { AreGamesIn said.now.ops kept.now }
    ensures ok { OnOk result (AreShown pager.old pager.new out.old.items out.new.items (lines_among (listed said.now.ops) (listed whole.now))) }
    ensures grown { Extends out.old.items out.new.items }
{
    show(out, pager, &Fixed(b"census 2\n"))?;
    append_games(out, pager, said, kept)?;
    append_rest(out, pager, said.store(), said.notes(), whole)
}

/// Appends what is shown of the lines after the games, the authors being those of the whole.
pub(crate) fn append_rest<A: Allocator + Copy>(
    out: &mut Vec<u8, A>,
    pager: &mut Pager,
    store: &Store<A>,
    notes: &Notes<A>,
    whole: &Store<A>,
) -> Result<(), AllocError>
    requires { notes.now ≡ notes_of store.now }
    ensures ok { OnOk result (AreShown pager.old pager.new out.old.items out.new.items (lines_after_games (listed store.now) (listed whole.now))) }
    ensures grown { Extends out.old.items out.new.items }
{
    append_notes(out, pager, notes)?;
    append_forks(out, pager, store)?;
    append_authors(out, pager, whole)?;
    show(out, pager, &Fixed(b"end\n"))
}

// A line that is always the same.
#[derive(Drop)]
struct Fixed<'a>(&'a [u8]);

impl Line for Fixed<'_> {
    ghost spelled = { λ l. l.0.now };

    fn append<A: Allocator>(&self, out: &mut Vec<u8, A>) -> Result<(), AllocError> {
        append_text(out, self.0)
    }
}
