//! Texts that people and scripts read: of which parts they are made, and which ones there are to choose from.
//!
//! A text is appended to a vector, part after part:
//!
//!     append_number(&mut text, 7u32)?;
//!     append_pieces(&mut text, &[Text(b" games of "), Dot(dot)])?;
//!
//! Each of these calls says by `Extends`, of `oct_ops`, that the vector keeps what it had, also where memory is refused.
//!
//! - `append_text`, `append_number`, `append_dot` and the rest of `words` append a word of a line.
//! - `append_pieces` appends pieces, one after another. A `Piece` is a word, or a text of others, which is escaped.
//! - `Form`, `Told` and `Shown` say in which form a text is wanted, what it tells, and how many values it shows.
//! - `laws` says that a text of others ends no part of HTML.
#![tactic(auto)]

mod escape;
mod form;
pub mod laws;
mod pieces;
mod shown;
mod told;
mod words;

pub use form::Form;
pub use pieces::{Piece, append_pieces};
pub use shown::Shown;
pub use told::Told;
pub use words::{
    append_dot, append_labelled, append_labelled_dot, append_labelled_text, append_number,
    append_text,
};
