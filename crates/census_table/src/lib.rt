//! The lines of games as they stand on a terminal: in columns, and with sparing colours.
//!
//!     let look = Look::of(When::Auto, is_terminal, is_plain);
//!     let text = look.show(alloc, lines, width_of(None, is_terminal, Some(80)))?;
//!
//! A column begins with one of a few words, and is as wide as the widest of what it shows. A period that is proved is green, and a
//! count of refuted blocks or claims is red where it is not 0. `specs/Table` spells the text. A line that is not that of a game, as
//! one of what a note says, has no columns. A line that is wider than the terminal is cut, and two points stand there; the code, how
//! much is known and the period are never cut. `specs/Fitting` says where.
#![tactic(auto)]

mod fitting;
pub mod laws;
mod line_place;
mod look;
mod table;

pub use fitting::width_of;
pub use look::{Look, When};
