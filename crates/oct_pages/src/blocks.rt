//! The lines of a game and its blocks.
#![tactic(auto, using(oct_ops::proofs::Growing::growing))]

ghost use Rattle.std.specs.Prelude.{◌≡◌, ◌++◌, OnOk};
ghost use Rattle.oct_pages.specs.Catalogue.{game_text, block_head_text, refutation_text, status_text};
ghost use Rattle.oct_ops.specs.Growth.{Extends};

use crate::line::Line;
use crate::statuses::BlockRow;
use oct_code::Code;
use oct_text::{append_labelled, append_labelled_dot, append_text};
use oct_verify::Status;
use std::alloc::{AllocError, Allocator};

/// What the first line of a game says.
#[derive(Drop)]
pub(crate) struct GameHead<'a> {
    pub(crate) code: &'a Code,
    pub(crate) known: usize,
}

impl Line for GameHead<'_> {
    ghost spelled = { λ h. game_text h.code.now h.known };

    fn append<A: Allocator>(&self, out: &mut Vec<u8, A>) -> Result<(), AllocError> {
        append_text(out, b"game ")?;
        self.code.append_text(out)?;
        append_labelled(out, b" known ", self.known)?;
        append_text(out, b"\n")
    }
}

// Appends a space and the words of a status.
fn append_block_status<A: Allocator>(
    out: &mut Vec<u8, A>,
    status: &Status,
) -> Result<(), AllocError>
    ensures ok { OnOk result (out.new.items ≡ out.old.items ++ status_text status.now) }
    ensures grown { Extends out.old.items out.new.items }
{
    match status {
        Status::Proved => append_text(out, b" proved"),
        Status::Pending => append_text(out, b" pending"),
        Status::Refuted { at, claimed, truth } => append_refutation(out, *at, *claimed, *truth),
    }
}

// Appends the words of a refutation.
fn append_refutation<A: Allocator>(
    out: &mut Vec<u8, A>,
    at: u32,
    claimed: u32,
    truth: u32,
) -> Result<(), AllocError>
    ensures ok { OnOk result (out.new.items ≡ out.old.items ++ refutation_text at claimed truth) }
    ensures grown { Extends out.old.items out.new.items }
{
    append_labelled(out, b" refuted at ", at)?;
    append_labelled(out, b" claimed ", claimed)?;
    append_labelled(out, b" true ", truth)
}

impl Line for BlockRow {
    ghost use Rattle.oct_pages.specs.Sheet.{block_row_text};

    ghost spelled = { block_row_text };

    fn append<A: Allocator>(&self, out: &mut Vec<u8, A>) -> Result<(), AllocError> {
        append_block_head(out, self)?;
        append_block_status(out, &self.status)?;
        append_text(out, b"\n")
    }
}

// Appends which block it is, where it begins and how many values it has.
fn append_block_head<A: Allocator>(out: &mut Vec<u8, A>, row: &BlockRow) -> Result<(), AllocError>
    ensures ok { OnOk result (out.new.items ≡ out.old.items ++ block_head_text row.now.dot row.now.start row.now.count) }
    ensures grown { Extends out.old.items out.new.items }
{
    append_labelled_dot(out, b"block ", row.dot)?;
    append_labelled(out, b" at ", row.start)?;
    append_labelled(out, b" count ", row.count)
}
