//! Lines of a catalogue, and which of them are shown.
#![tactic(auto, using(oct_ops::proofs::Growing::growing))]

ghost use Rattle.std.specs.Prelude.{◌≡◌, ◌++◌, ◌∷◌, [], map, OnOk};
ghost use Rattle.oct_pages.specs.Catalogue.{Text};
ghost use Rattle.oct_ops.specs.Growth.{Extends};
ghost use Rattle.oct_pages.specs.Pager.{AreShown};

use crate::pager::Pager;
use std::alloc::{AllocError, Allocator};

/// What a catalogue has a line of.
pub(crate) trait Line {
    ghost spelled: { Self → Text };

    /// Appends the line.
    fn append<A: Allocator>(&self, out: &mut Vec<u8, A>) -> Result<(), AllocError>
        ensures ok { OnOk result (out.new.items ≡ out.old.items ++ spelled self.now) }
        ensures grown { Extends out.old.items out.new.items };
}

/// Appends the line, where it is shown.
pub(crate) fn show<L: Line, A: Allocator>(
    out: &mut Vec<u8, A>,
    pager: &mut Pager,
    line: &L,
) -> Result<(), AllocError>
    ensures ok { OnOk result (AreShown pager.old pager.new out.old.items out.new.items (L.spelled line.now ∷ [])) }
    ensures grown { Extends out.old.items out.new.items }
{
    if !pager.pass() {
        return Ok(());
    }
    line.append(out)
}

/// Appends what is shown of the lines.
pub(crate) fn show_each<L: Line, A: Allocator>(
    out: &mut Vec<u8, A>,
    pager: &mut Pager,
    lines: &[L],
) -> Result<(), AllocError>
    ensures ok { OnOk result (AreShown pager.old pager.new out.old.items out.new.items (map L.spelled lines.now)) }
    ensures grown { Extends out.old.items out.new.items }
{
    for line in lines {
        show(out, pager, line)?;
    }
    Ok(())
}
