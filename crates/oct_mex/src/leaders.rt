//! Games that others may go on with.

ghost use Rattle.std.specs.Prelude.{◌≡◌, ◌≤◌, ◌⊎◌, [], length};
ghost use Rattle.oct_mex.specs.Following.{IsKept};

use crate::following::Leader;
use crate::values::Values;
use std::alloc::Allocator;
use std::marker::Model;

/// No more games are kept, so that their values, of 16 bits and of at most `LIMIT` heaps each, take at most 64 MiB.
pub const MOST_LEADERS: usize = 512;

/// The first nim-values of some games, for other games to go on with.
#[derive(Drop)]
pub struct Leaders<A: Allocator + Copy> {
    leaders: Vec<Leader<A>, A>,
}

impl<A: Allocator + Copy> Model for Leaders<A> {
    ghost use Rattle.std.specs.Prelude.{◌≤◌, List, vec_len};
    ghost use Rattle.oct_mex.specs.Following.{Leading};
    ghost use Rattle.oct_mex.specs.declared.leaders.TheConstants.{MOST_LEADERS};

    ghost Value = { List Leading };

    ghost view = { λ l. l.leaders.items };

    ghost invariant = { λ l. vec_len l.leaders ≤ MOST_LEADERS };
}

impl<A: Allocator + Copy> Leaders<A> {
    /// None. Takes no memory.
    pub fn new(alloc: A) -> Leaders<A>
        ensures { result ≡ [] }
    {
        Leaders {
            leaders: Vec::new(alloc),
        }
    }

    /// Each of them.
    pub(crate) fn as_slice(&self) -> &[Leader<A>]
        ensures { result.now ≡ self.now }
    {
        self.leaders.as_slice()
    }

    /// Keeps the values of a game too, in memory of `alloc`, as far as each has at most 16 bits, unless one of the games
    /// may lead it. Where there are `MOST_LEADERS` games, or memory is refused, nothing changes.
    pub fn keep(&mut self, alloc: A, values: &Values<A>)
        ensures kept { (self.new ≡ self.old) ⊎ IsKept values.now.code self.old self.new }
        ensures most { length self.new ≤ MOST_LEADERS }
    {
        if self.leaders.len() < MOST_LEADERS && !self.lead(values) {
            if let Ok(leader) = values.lead(alloc) {
                let _ = self.leaders.push(leader);
            }
        }
    }

    // Whether one of them may lead a game.
    fn lead(&self, values: &Values<A>) -> bool {
        for leader in &self.leaders {
            if values.is_led_by(leader) {
                return true;
            }
        }
        false
    }
}
