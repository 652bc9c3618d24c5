//! The games that views tell of.

ghost use Rattle.std.specs.Prelude.{◌≡◌, IfOk, map};
ghost use Rattle.oct_code.specs.Code.{code_cmp};
ghost use Rattle.oct_ops.specs.Arranged.{arranged};
ghost use Rattle.oct_ops.specs.Operations.{listed};
ghost use Rattle.oct_sheet.specs.Sheet.{noted_games, told_games};

use oct_code::Code;
use oct_ops::Op;
use oct_pages::codes_of;
use oct_record::Record;
use oct_said::long_period_of;
use std::alloc::{AllocError, Allocator};
use std::collections::BTreeSet;

/// The codes of the games that views tell of, in their order: of those that have a block or a claim, and of those of which a live
/// note says a long period. The one error is that memory is refused.
pub fn told_codes<A: Allocator + Copy>(said: &Record<A>) -> Result<Vec<Code, A>, AllocError>
    ensures { IfOk result (λ codes. codes.items ≡ told_games (listed said.now.ops)) }
{
    let alloc = said.allocator();
    let notes = said.notes().live_refs()?;
    let noted = noted_among(alloc, &notes)?;
    let mut codes = codes_of(said)?;
    codes.extend_from_slice(&noted)?;
    in_order(alloc, &codes)
}

// The codes of the games of which the notes say long periods, in the order of the notes.
fn noted_among<A: Allocator + Copy>(alloc: A, notes: &[&Op<A>]) -> Result<Vec<Code, A>, AllocError>
    ensures { IfOk result (λ codes. codes.items ≡ noted_games (map (λ op. op.now) notes.now)) }
{
    let mut codes = Vec::new(alloc);
    for op in notes {
        if let Some(long) = long_period_of(alloc, op)? {
            codes.push(long.code)?;
        }
    }
    Ok(codes)
}

// The codes in their order, each once.
fn in_order<A: Allocator + Copy>(alloc: A, codes: &[Code]) -> Result<Vec<Code, A>, AllocError>
    ensures { IfOk result (λ found. found.items ≡ arranged code_cmp codes.now) }
{
    let set = set_of(alloc, codes)?;
    let mut found = Vec::with_capacity(alloc, set.len())?;
    for code in &set {
        found.push(*code)?;
    }
    Ok(found)
}

// The set of the codes.
fn set_of<A: Allocator + Copy>(alloc: A, codes: &[Code]) -> Result<BTreeSet<Code, A>, AllocError>
    ensures { IfOk result (λ found. found.keys ≡ arranged code_cmp codes.now) }
{
    let mut found = BTreeSet::new(alloc);
    for place in (0..codes.len()).rev() {
        found.insert(codes[place])?;
    }
    Ok(found)
}
