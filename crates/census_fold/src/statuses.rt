//! What a state file holds, in a few lines.

ghost use Rattle.std.specs.Prelude.{◌≡◌, ◌≢◌, ◌++◌, Ok, Err, IfOk, IfErr, OnOk};
ghost use Rattle.census_fold.specs.Statuses.{file_lines, status};

use crate::digests::record_digest;
use census_state::{Fault, load};
use oct_log::write_status;
use oct_text::{append_labelled, append_labelled_text, append_text};
use std::alloc::{AllocError, Global};

/// The status of a state: whose it is, how many operations it has and by whom, how many games, notes and dots with several
/// contents; the digest of its operations, and how many bytes it has. No nim-value is computed. The first fault is `Load`, then
/// `TooMany`. `OutOfMemory` may come before that.
pub fn status(alloc: Global, state: &[u8]) -> Result<Vec<u8>, Fault>
    ensures ok { IfOk result (λ text. status state.now ≡ Ok text.items) }
    ensures err { IfErr result (λ e. e ≢ Fault.OutOfMemory → status state.now ≡ Err e) }
{
    let held = load(alloc, state)?;
    let digits = record_digest(alloc, &held)?;
    let mut text = write_status(&held)?;
    append_file(&mut text, &digits, state.len())?;
    Ok(text)
}

// Appends the digest, and how many bytes there are.
fn append_file(out: &mut Vec<u8>, digits: &[u8], size: usize) -> Result<(), AllocError>
    ensures { OnOk result (out.new.items ≡ out.old.items ++ file_lines digits.now size) }
{
    append_labelled_text(out, b"digest ", digits)?;
    append_labelled(out, b"\nbytes ", size)?;
    append_text(out, b"\n")
}
