//! The long periods that notes say of games, found by the games.

ghost use Rattle.std.specs.Prelude.{◌≡◌, ◌++◌, Some, IfOk, OnOk, map};
ghost use Rattle.oct_code.specs.Code as octal;
ghost use Rattle.oct_said.specs.Noting.{long_period_of, said_of};
ghost use Rattle.oct_said.specs.Said.{said_here, said_in};

use crate::noting::{LongPeriod, long_period_of};
use oct_code::Code;
use oct_ops::Op;
use std::alloc::{AllocError, Allocator};
use std::collections::BTreeMap;

/// The long periods that the notes say of each game. `said_in` looks a game up.
pub fn said_by_game<A: Allocator + Copy>(
    alloc: A,
    notes: &[&Op<A>],
) -> Result<BTreeMap<Code, Vec<LongPeriod, A>, A>, AllocError>
    ensures { IfOk result (λ table. (c : octal.Code) → said_in (λ periods. periods.items) table c ≡ said_of (map (λ op. op.now) notes.now) c) }
{
    let mut table = BTreeMap::new(alloc);
    for op in notes {
        put(&mut table, alloc, op)?;
    }
    Ok(table)
}

/// The long periods of a game in a table.
pub fn said_in<A: Allocator + Copy>(
    table: &BTreeMap<Code, Vec<LongPeriod, A>, A>,
    code: Code,
) -> &[LongPeriod]
    ensures { result.now ≡ said_in (λ periods. periods.items) table.now code }
{
    match table.get(&code) {
        Some(periods) => periods,
        None => &[],
    }
}

// Puts in the long period that the operation says, if it is a note that says one.
fn put<A: Allocator + Copy>(
    table: &mut BTreeMap<Code, Vec<LongPeriod, A>, A>,
    alloc: A,
    op: &Op<A>,
) -> Result<(), AllocError>
    ensures { OnOk result ((c : octal.Code) → said_in (λ periods. periods.items) table.new c ≡ said_in (λ periods. periods.items) table.old c ++ said_here c (long_period_of op.now)) }
{
    match long_period_of(alloc, op)? {
        Some(long) => put_long(table, alloc, long),
        None => Ok(()),
    }
}

// Puts in a long period, behind those of its game.
fn put_long<A: Allocator + Copy>(
    table: &mut BTreeMap<Code, Vec<LongPeriod, A>, A>,
    alloc: A,
    long: LongPeriod,
) -> Result<(), AllocError>
    ensures { OnOk result ((c : octal.Code) → said_in (λ periods. periods.items) table.new c ≡ said_in (λ periods. periods.items) table.old c ++ said_here c (Some long)) }
{
    if let Some(held) = table.get_mut(&long.code) {
        held.push(long)?;
        return Ok(());
    }
    let mut held = Vec::new(alloc);
    held.push(long)?;
    match table.insert(long.code, held) {
        Ok(_) => Ok(()),
        Err(_) => Err(AllocError),
    }
}
