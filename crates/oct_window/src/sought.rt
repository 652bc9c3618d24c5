//! What is known of the period of a game when it has been sought.

use oct_mex::SeenPeriod;

/// What the nim-values of a game show, of which so many were computed.
#[derive(Clone, Copy)]
pub enum Sought {
    /// The least period of the game, and the least heap from which on it holds.
    Least(SeenPeriod, usize),
    /// They prove no period by themselves.
    Unshown(usize),
    /// The window of them that was marked did not come again, behind so many first ones that are listed.
    Unseen(usize, usize),
}
