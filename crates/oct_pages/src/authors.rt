//! The lines of authors and forks.
#![tactic(auto, using(oct_ops::proofs::Growing::growing))]

ghost use Rattle.std.specs.Prelude.{map, OnOk};
ghost use Rattle.oct_ops.specs.Operations.{listed};
ghost use Rattle.oct_pages.specs.Catalogue.{author_line, author_text, fork_line, fork_text};
ghost use Rattle.oct_ops.specs.Growth.{Extends};
ghost use Rattle.oct_pages.specs.Pager.{AreShown};
ghost use Rattle.oct_store.specs.Summary as summary;

use crate::line::{Line, show_each};
use crate::pager::Pager;
use oct_store::{Author, Fork, Store};
use oct_text::{append_labelled, append_labelled_dot, append_text};
use std::alloc::{AllocError, Allocator};

/// Appends what is shown of the lines of all authors.
pub(crate) fn append_authors<A: Allocator + Copy>(
    out: &mut Vec<u8, A>,
    pager: &mut Pager,
    store: &Store<A>,
) -> Result<(), AllocError>
    ensures ok { OnOk result (AreShown pager.old pager.new out.old.items out.new.items (map (author_line (listed store.now)) (summary.authors (listed store.now)))) }
    ensures grown { Extends out.old.items out.new.items }
{
    let authors = store.authors()?;
    show_each(out, pager, &authors)
}

/// Appends what is shown of the lines of all forks.
pub(crate) fn append_forks<A: Allocator + Copy>(
    out: &mut Vec<u8, A>,
    pager: &mut Pager,
    store: &Store<A>,
) -> Result<(), AllocError>
    ensures ok { OnOk result (AreShown pager.old pager.new out.old.items out.new.items (map (fork_line (listed store.now)) (summary.forks (listed store.now)))) }
    ensures grown { Extends out.old.items out.new.items }
{
    let forks = store.forks()?;
    show_each(out, pager, &forks)
}

impl Line for Author {
    ghost spelled = { λ a. author_text a.author a.through a.last };

    fn append<A: Allocator>(&self, out: &mut Vec<u8, A>) -> Result<(), AllocError> {
        append_labelled(out, b"author ", self.author)?;
        append_labelled(out, b" through ", self.through)?;
        append_labelled(out, b" last ", self.last)?;
        append_text(out, b"\n")
    }
}

impl Line for Fork {
    ghost spelled = { λ f. fork_text f.dot f.contents };

    fn append<A: Allocator>(&self, out: &mut Vec<u8, A>) -> Result<(), AllocError> {
        append_labelled_dot(out, b"fork ", self.dot)?;
        append_labelled(out, b" contents ", self.contents)?;
        append_text(out, b"\n")
    }
}
