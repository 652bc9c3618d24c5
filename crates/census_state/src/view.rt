//! How all that is known is shown.

use oct_text::Shown;

/// A view of all that is known.
#[derive(Clone, Copy)]
pub enum View {
    /// The catalogue.
    Catalogue,
    /// A JSON document.
    Json,
    /// A page, with as many values of each game.
    Report(Shown),
}
