//! What became of all blocks and claims of a state.

ghost use Rattle.std.specs.Prelude.{◌≡◌, ◌≢◌, ◌++◌, Ok, Err, IfOk, IfErr, OnOk};
ghost use Rattle.census_judge.specs.Outcomes.{count_line, of_them_line, outcome, refuted_line, tally_lines};

use crate::decisions::count_decided;
use crate::verdicts::{judge, tally};
use census_state::{Fault, Holdings, load};
use oct_sheet::Tally;
use oct_text::{append_labelled, append_text};
use std::alloc::{AllocError, Global};

/// How many of the blocks and period claims of a state are proved, refuted and pending, a line for each, and how many of those that
/// are refuted its author said. One game at a time is built. The one fault is `Load`. `OutOfMemory` may come before that.
pub fn outcome(alloc: Global, state: &[u8]) -> Result<Vec<u8>, Fault>
    ensures ok { IfOk result (λ text. outcome state.now ≡ Ok text.items) }
    ensures err { IfErr result (λ e. e ≢ Fault.OutOfMemory → outcome state.now ≡ Err e) }
{
    let held = load(alloc, state)?;
    let nothing = Holdings::new(alloc);
    let all = judge(alloc, nothing.as_record(), &held)?;
    let mut text = Vec::new(alloc);
    let own = count_decided(held.author(), &all).own_refuted;
    append_tally(&mut text, own, tally(&all))?;
    Ok(text)
}

// Appends how many there are of each, and how many of those that are refuted are one's own.
fn append_tally(out: &mut Vec<u8>, own: usize, counts: Tally) -> Result<(), AllocError>
    ensures { OnOk result (out.new.items ≡ out.old.items ++ tally_lines own counts) }
{
    append_count(out, b"proved ", counts.proved)?;
    append_refuted(out, own, counts.refuted)?;
    append_count(out, b"pending ", counts.pending)
}

// Appends a line of how many are refuted, and where some are, of how many of these are one's own.
fn append_refuted(out: &mut Vec<u8>, own: usize, count: usize) -> Result<(), AllocError>
    ensures { OnOk result (out.new.items ≡ out.old.items ++ refuted_line own count) }
{
    if count == 0 {
        append_count(out, b"refuted ", count)
    } else {
        append_of_them(out, own, count)
    }
}

// Appends the line of some that are refuted.
fn append_of_them(out: &mut Vec<u8>, own: usize, count: usize) -> Result<(), AllocError>
    ensures { OnOk result (out.new.items ≡ out.old.items ++ of_them_line own count) }
{
    append_labelled(out, b"refuted ", count)?;
    append_labelled(out, b", of them ", own)?;
    append_text(out, b" of yours\n")
}

// Appends a line of how many there are.
fn append_count(out: &mut Vec<u8>, label: &[u8], count: usize) -> Result<(), AllocError>
    ensures { OnOk result (out.new.items ≡ out.old.items ++ count_line label.now count) }
{
    append_labelled(out, label, count)?;
    append_text(out, b"\n")
}
