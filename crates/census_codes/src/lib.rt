//! Lists of codes, as files have them, and parts of a list.
//!
//!     let codes = read_codes(alloc, b"0.77 0.07   # Kayles and Dawson's Kayles\n")?;
//!     let part = Part::new(2, 3)?;
//!     let mine = part_of(alloc, &codes, part)?;     // the 2nd, the 5th, the 8th, ..
//!
//! - `read_codes` reads the codes of a text.
//! - `code_lines` writes codes, one a line.
//! - `part_of` takes every so-manieth of a list.
#![tactic(auto)]

mod comment;
mod error;
mod part;
mod reading;
mod writing;

pub use error::CodesError;
pub use part::{MAX_PARTS, Part, part_of};
pub use reading::read_codes;
pub use writing::code_lines;
