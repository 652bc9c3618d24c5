//! Records of a census: what was said, and by whom it goes on. A record is an author and a set of operations, which is saved,
//! sent, taken in and joined. It computes no nim-value: what follows from the operations is built by whoever asks for it.
//!
//!     let mut said = Record::new(alloc, 7)?;
//!     said.take(bytes)?;                    // takes in a delta, and says how many operations were new
//!     said.issue(body)                      // the dot of the author's next operation
//!     said.removal(b"kayles")?              // the removal of the notes of a name, to be issued
//!     said.join(&other)?;                   // the union
//!     said.game(kayles)                     // the blocks and claims of a game
//!     said.games()                          // those of each game
//!     said.save(&mut out)?;                 // `OGS1`, the author, and the delta of all operations
//!     Record::load(alloc, &out)?            // the record again
//!     said.first_foreign(&later)            // an operation by its author that it never held, in what is later
//!     said.renumber(4711)?;                 // what is issued from now on is by another author
//!
//! Beside the set a record keeps the operations of each game, and the notes; the three agree at the end of every call, also of
//! a refused one. Whoever keeps more beside it is a `Holder`, and takes operations in by the functions of `taking`.
#![tactic(auto)]

mod error;
mod holder;
mod index;
mod record;
mod state;
pub mod taking;
mod valid;

pub use error::{AuthorError, IssueError, LoadError, RemovalError, RenumberError, TakeError};
pub use holder::Holder;
pub use record::Record;
pub use state::parse_state;
