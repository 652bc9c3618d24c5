//! Who wins a position.

/// Who wins a position in normal play, where the player who cannot move loses.
#[derive(Clone, Copy, PartialEq, Eq)]
pub enum Outcome {
    /// The player to move loses, whatever the moves.
    NextLoses,
    /// The player to move can win.
    NextWins,
    /// The nim-value of the heap at the place `index`, counted from 0, is not known.
    Unknown { index: usize },
}
