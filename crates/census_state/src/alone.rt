//! What is said of some games alone.

ghost use Rattle.std.specs.Prelude.{◌≡◌, IfOk, OnOk};
ghost use Rattle.oct_ops.specs.Operations.{union};
ghost use Rattle.oct_store.specs.Summary as summary;
ghost use Rattle.census_state.specs.Alone.{only_of};

use crate::holdings::Holdings;
use oct_code::Code;
use oct_join::OpSet;
use oct_record::Record;
use std::alloc::{AllocError, Global};

/// The blocks and claims of these games alone, which both then share. The one error is that memory is refused.
pub fn games_alone(
    alloc: Global,
    held: &Record<Global>,
    named: &[Code],
) -> Result<Holdings<Global>, AllocError>
    ensures { IfOk result (λ part. part ≡ only_of named.now held.now.ops) }
{
    let mut part = Holdings::new(alloc);
    for code in named {
        take_game(&mut part, held, *code)?;
    }
    Ok(part)
}

// Takes in the blocks and claims of a game, which both then share.
fn take_game(
    part: &mut Holdings<Global>,
    held: &Record<Global>,
    code: Code,
) -> Result<(), AllocError>
    ensures { OnOk result (part.new ≡ union part.old (summary.of_game held.now.ops code)) }
{
    match held.game(code) {
        Some(ops) => share_all(part, ops),
        None => Ok(()),
    }
}

// Takes in all of a set, which both then share.
fn share_all(part: &mut Holdings<Global>, ops: &OpSet<Global>) -> Result<(), AllocError>
    ensures { OnOk result (part.new ≡ union part.old ops.now) }
{
    for op in ops.iter_shared() {
        part.share(op)?;
    }
    Ok(())
}
