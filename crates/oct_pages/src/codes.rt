//! The codes of games.

ghost use Rattle.std.specs.Prelude.{◌≡◌, IfOk};
ghost use Rattle.oct_ops.specs.Operations.{listed};
ghost use Rattle.oct_pages.specs.Catalogue.{games};

use oct_code::Code;
use oct_record::Record;
use std::alloc::{AllocError, Allocator};

/// The codes of the games that have a block or a claim among what was said, in their order. The one error is that memory is
/// refused.
pub fn codes_of<A: Allocator + Copy>(said: &Record<A>) -> Result<Vec<Code, A>, AllocError>
    ensures { IfOk result (λ codes. codes.items ≡ games (listed said.now.ops)) }
{
    let games = said.games();
    let mut codes = Vec::with_capacity(said.allocator(), games.len())?;
    for (code, _) in games.iter() {
        codes.push(*code)?;
    }
    Ok(codes)
}
