//! Which operations are asked for.

ghost use Rattle.std.specs.Prelude.{◌≡◌};
ghost use Rattle.oct_log.specs.Log.{is_by, is_of, is_wanted};

use oct_code::Code;
use oct_join::Clock;
use oct_ops::Op;
use std::alloc::Allocator;

/// The operations that are asked for: those of an author, of a game, and those that a clock does not cover. Where neither is
/// named and the clock is empty they are all.
#[derive(Drop)]
pub struct Wanted<A: Allocator> {
    /// The author.
    pub author: Option<u32>,
    /// The game, of which blocks and claims are.
    pub game: Option<Code>,
    /// The operations up to these numbers of their authors are known, and not asked for.
    pub since: Clock<A>,
}

impl<A: Allocator> Wanted<A> {
    /// Whether the operation is asked for.
    pub fn has<B: Allocator>(&self, op: &Op<B>) -> bool
        ensures { result ≡ is_wanted self.now op.now }
    {
        is_by(self.author, op) && is_of(self.game, op) && !self.since.covers(&op.dot())
    }
}

// Whether the operation is by the author, where one is named.
fn is_by<A: Allocator>(author: Option<u32>, op: &Op<A>) -> bool
    ensures { result ≡ is_by author op.now }
{
    match author {
        Some(author) => op.dot().author() == author,
        None => true,
    }
}

// Whether the operation is a block or a claim of the game, where one is named.
fn is_of<A: Allocator>(game: Option<Code>, op: &Op<A>) -> bool
    ensures { result ≡ is_of game op.now }
{
    match game {
        Some(_) => op.body().code() == game,
        None => true,
    }
}
