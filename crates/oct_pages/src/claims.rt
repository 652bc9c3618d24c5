//! The lines of a game's period claims.
#![tactic(auto, using(oct_ops::proofs::Growing::growing))]

ghost use Rattle.std.specs.Prelude.{◌≡◌, ◌++◌, OnOk};
ghost use Rattle.oct_pages.specs.Catalogue.{period_status_text, period_head_text};
ghost use Rattle.oct_ops.specs.Growth.{Extends};

use crate::line::Line;
use crate::statuses::PeriodRow;
use oct_ops::{Dot, Period};
use oct_period::PeriodStatus;
use oct_text::{append_labelled, append_labelled_dot, append_text};
use std::alloc::{AllocError, Allocator};

impl Line for PeriodRow {
    ghost use Rattle.oct_pages.specs.Sheet.{period_row_text};

    ghost spelled = { period_row_text };

    fn append<A: Allocator>(&self, out: &mut Vec<u8, A>) -> Result<(), AllocError> {
        append_period_head(out, self.dot, &self.period)?;
        append_period_status(out, &self.status)?;
        append_text(out, b"\n")
    }
}

// Appends which claim it is, and from where on it says that the values repeat.
fn append_period_head<A: Allocator>(
    out: &mut Vec<u8, A>,
    dot: Dot,
    period: &Period,
) -> Result<(), AllocError>
    ensures ok { OnOk result (out.new.items ≡ out.old.items ++ period_head_text dot period.now) }
    ensures grown { Extends out.old.items out.new.items }
{
    append_labelled_dot(out, b"period ", dot)?;
    append_labelled(out, b" from ", period.start())?;
    append_labelled(out, b" by ", period.period())
}

// Appends a space and the words of a status.
fn append_period_status<A: Allocator>(
    out: &mut Vec<u8, A>,
    status: &PeriodStatus,
) -> Result<(), AllocError>
    ensures ok { OnOk result (out.new.items ≡ out.old.items ++ period_status_text status.now) }
    ensures grown { Extends out.old.items out.new.items }
{
    match status {
        PeriodStatus::Proved => append_text(out, b" proved"),
        PeriodStatus::Refuted { at } => append_labelled(out, b" refuted at ", *at),
        PeriodStatus::Pending { needs } => append_labelled(out, b" pending needs ", *needs),
    }
}
