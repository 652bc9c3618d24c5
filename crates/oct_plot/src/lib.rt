//! Pictures of the nim-values of a game.
//!
//!     write_plot(&code, game.ledger().known_values(), &proved, &mut picture)?;
//!
//! - `write_plot` draws the known nim-values of a game, as an SVG picture, and `write_plot_between` those of a part of its
//!   heaps. `append_plot` draws values in a text that goes on, and `pictured` are those that `write_plot` has.
//! - `title_of` says which game it is, and `append_sentence` what is proved of all its heaps.
//! - `laws` says that a plot shows exactly what is known.
#![tactic(auto)]

mod axes;
pub mod laws;
mod plot;
mod points;
mod sentence;
mod style;

pub use plot::{append_plot, pictured, title_of, write_plot, write_plot_between};
pub use sentence::append_sentence;
pub use style::PLOT_STYLE;
