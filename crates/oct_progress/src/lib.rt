//! How far a computation is.
//!
//!     search.search(1_000_000, &mut Nobody)?        // tells nobody how many nim-values are known
#![tactic(auto)]

use oct_code::Code;

/// Who is told how far a computation is.
pub trait Progress {
    /// So many nim-values of the game are known, of how many that are wanted.
    fn tell(&mut self, code: Code, known: u64, wanted: u64);
}

/// Is not interested in how far a computation is.
#[derive(Drop)]
pub struct Nobody;

impl Progress for Nobody {
    fn tell(&mut self, _code: Code, _known: u64, _wanted: u64) {}
}
