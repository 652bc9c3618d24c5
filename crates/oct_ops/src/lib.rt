//! Operations of a census, and their one total order.
//!
//! An operation is a dot, which says who made it and which of the author's operations it is, and a body: a block of
//! claimed nim-values, a period claim, a note, or a removal of notes. Each constructor checks the ranges of its parts,
//! so a value that exists is valid:
//!
//!     let dot = Dot::new(1, 1)?;
//!     let block = Block::new(kayles, 0, values)?;
//!     let operation = Op::new(dot, Body::Block(block));
//!
//! Contracts see operations as pure data: records and one `data Body` in `specs/`, and finite sets of them.
#![tactic(auto)]

mod block;
mod dot;
mod error;
mod items;
pub mod kinds;
pub mod laws;
mod limits;
mod note;
mod op;
mod op_list;
mod period;
mod removal;
mod rising;

pub use block::Block;
pub use dot::Dot;
pub use error::{BlockError, DotError, ListError, NoteError, PeriodError, RemovalError};
pub use limits::{MAX_ITEMS, MAX_NAME, MAX_TEXT};
pub use note::{Note, is_name, is_text};
pub use oct_code::OutOfMemory;
pub use op::{Body, Op};
pub use op_list::OpList;
pub use period::Period;
pub use removal::Removal;
pub use rising::rises;
