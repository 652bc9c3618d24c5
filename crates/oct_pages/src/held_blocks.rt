//! A game whose blocks are still to be shown.

ghost use Rattle.std.specs.Prelude.{◌≡◌, true};
ghost use Rattle.std.specs.List.{list_all};
ghost use Rattle.oct_ops.specs.Operations.{listed};
ghost use Rattle.oct_ops.specs.Sets.{contains};
ghost use Rattle.oct_ops.specs.Sets as sets;
ghost use Rattle.oct_period.specs.Claims.{first_proved};
ghost use Rattle.oct_pages.specs.Catalogue.{blocks_of};
ghost use Rattle.oct_verify.specs.Filing.{blocks_in};

use oct_join::OpSet;
use oct_period::{Game, PeriodClaim};
use std::alloc::Allocator;

/// A game, its first claim that is proved, and its operations, of whose blocks no row is made yet.
#[derive(Drop)]
pub(crate) struct HeldBlocks<'a, A: Allocator + Copy> {
    pub(crate) game: Game<A>,
    pub(crate) claim: Option<PeriodClaim>,
    pub(crate) ops: &'a OpSet<A>,
    ghost held: { list_all (contains game.blocks) (blocks_of game.code (listed ops.now)) ≡ true },
    ghost first: { claim ≡ first_proved (blocks_in game.blocks) (sets.listed game.claims) },
}
