//! Why a file is not taken up as a saved search.

/// Why a file is not taken up as the saved search of a game.
#[derive(Clone, Copy, Debug, PartialEq, Eq, Drop)]
pub enum SavedError {
    /// It does not begin as a saved search does.
    Version,
    /// It begins so, and is none.
    Refused,
    /// It is the search of another game.
    Game,
}
