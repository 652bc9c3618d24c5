//! The command that claims the values of a b-file.

ghost use Rattle.std.specs.Prelude.{◌≡◌, ◌≢◌, ◌+◌, ◌*◌, ◌<◌, ◌≤◌, Ok, Err, IfOk, IfErr, OnOk, drop, length, take};
ghost use Rattle.oct_code.specs.declared.limits.TheConstants.{LIMIT};
ghost use Rattle.oct_ops.specs.Body as kind;
ghost use Rattle.oct_ops.specs.Operation.{claimed};
ghost use Rattle.oct_ops.specs.declared.limits.TheConstants.{MAX_ITEMS};
ghost use Rattle.census_issue.specs.Claiming.{claim, claimed_by, next_dot};
ghost use Rattle.census_issue.specs.Issuing.{with_body};
ghost use Rattle.census_state.specs.Replies.{answer_of};

use crate::texts::claimed_line;
use census_state::{Fault, Reply, load, read_code, save};
use oct_bfile::{Bfile, read_bfile};
use oct_code::{Code, LIMIT};
use oct_ops::{Block, Body, Dot, MAX_ITEMS};
use oct_record::Record;
use std::alloc::Global;

/// Issues the values of a b-file as blocks of a game.
pub fn claim(alloc: Global, state: &[u8], code: &[u8], file: &[u8]) -> Result<Reply, Fault>
    ensures ok { IfOk result (λ reply. claim state.now code.now file.now ≡ Ok (answer_of reply)) }
    ensures err { IfErr result (λ e. e ≢ Fault.OutOfMemory → claim state.now code.now file.now ≡ Err e) }
{
    let mut said = load(alloc, state)?;
    let code = read_code(code)?;
    let file = read_bfile(alloc, file)?;
    let dots = claim_values(alloc, &mut said, code, &file)?;
    let text = claimed_line(alloc, dots.first, dots.last)?;
    save(alloc, &said, state.len(), text)
}

// The first and the last dot of what was issued.
#[derive(Clone, Copy)]
struct DotRange {
    first: Option<Dot>,
    last: Option<Dot>,
}

// Issues blocks of 1,024 of the values, and a last one of those that are left.
fn claim_values(
    alloc: Global,
    said: &mut Record<Global>,
    code: Code,
    file: &Bfile<Global>,
) -> Result<DotRange, Fault>
    requires { file.now.start + length file.now.values.items ≤ LIMIT }
    ensures ok { IfOk result (λ dots. claimed_by said.old code (record { start = file.now.start; values = file.now.values.items }) ≡ Ok (record { replica = said.new; first = dots.first; last = dots.last })) }
    ensures err { IfErr result (λ e. e ≢ Fault.OutOfMemory → claimed_by said.old code (record { start = file.now.start; values = file.now.values.items }) ≡ Err e) }
{
    let values = file.values.as_slice();
    let mut first = None;
    let mut last = None;
    for place in 0..(values.len() + (MAX_ITEMS - 1)) / MAX_ITEMS {
        let start = file.start + (MAX_ITEMS * place) as u32;
        let dot = issue_block(alloc, said, code, start, chunk_at(values, place))?;
        first = first.or(Some(dot));
        last = Some(dot);
    }
    Ok(DotRange { first, last })
}

// The values of the block of this place.
fn chunk_at(values: &[u32], place: usize) -> &[u32]
    requires { MAX_ITEMS * place < length values.now }
    ensures value { result.now ≡ take MAX_ITEMS (drop (MAX_ITEMS * place) values.now) }
    ensures some { 1 ≤ length result.now }
    ensures few { length result.now ≤ MAX_ITEMS }
    ensures within { MAX_ITEMS * place + length result.now ≤ length values.now }
{
    let left = &values[MAX_ITEMS * place..];
    &left[..left.len().min(MAX_ITEMS)]
}

// Issues the block of these values.
fn issue_block(
    alloc: Global,
    said: &mut Record<Global>,
    code: Code,
    start: u32,
    values: &[u32],
) -> Result<Dot, Fault>
    requires some { 1 ≤ length values.now }
    requires few { length values.now ≤ MAX_ITEMS }
    requires within { start + length values.now ≤ LIMIT }
    ensures ok { OnOk result (with_body said.old (kind.Block (claimed code start values.now)) ≡ Ok said.new) }
    ensures dot { IfOk result (λ dot. dot ≡ next_dot said.old (claimed code start values.now)) }
    ensures err { IfErr result (λ e. e ≢ Fault.OutOfMemory → with_body said.old (kind.Block (claimed code start values.now)) ≡ Err e) }
{
    let values = Vec::from_slice(alloc, values)?;
    let Ok(block) = Block::new(code, start, values) else {
        unreachable!();
    };
    match said.issue(Body::Block(block)) {
        Ok(dot) => Ok(dot),
        Err((refused, _)) => Err(Fault::from(refused)),
    }
}
