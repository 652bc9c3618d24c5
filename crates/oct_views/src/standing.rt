//! What a table of refuted ones has: those that stand, or those that are withdrawn.

ghost use Rattle.std.specs.Prelude.{◌≡◌};
ghost use Rattle.oct_views.specs.Game.{has_standing, withdrawn_word};

use oct_ops::Dot;
use oct_sheet::Remarks;
use std::alloc::Allocator;

/// Which of the refuted blocks or claims a table has.
#[derive(Clone, Copy)]
pub(crate) enum Standing {
    /// Those that are not withdrawn.
    Stands,
    /// Those that are.
    Withdrawn,
}

impl Standing {
    /// Whether what has this dot is one of them.
    pub fn is_of<'n, A: Allocator + Copy + 'n>(self, remarks: &Remarks<'n, A>, dot: Dot) -> bool
        ensures { result ≡ has_standing remarks.now self dot }
    {
        match self {
            Standing::Stands => !remarks.is_withdrawn(dot),
            Standing::Withdrawn => remarks.is_withdrawn(dot),
        }
    }
}

/// What stands behind a status.
pub(crate) fn withdrawn_word(is_withdrawn: bool) -> &'static [u8]
    ensures { result.now ≡ withdrawn_word is_withdrawn }
{
    if is_withdrawn { b", withdrawn" } else { b"" }
}
