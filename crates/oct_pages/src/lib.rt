//! The catalogue of a set of operations: the text that a census shows.
//!
//! The text is read off the set alone, so replicas with the same operations print the same bytes. For the first values
//! of Kayles, claimed from heap 0 on, it is:
//!
//!     census 2
//!     game 0.77 known 5
//!     values 0 0 1 2 3 1
//!     block 1.1 at 0 count 5 proved
//!     author 1 through 1 last 1
//!     end
//!
//! Each game comes with its known nim-values, its blocks and its period claims, each with its status. Then come the
//! live notes by name, the dots that came with several contents, and the authors. A page is 64 lines of it.
//!
//! - `write_catalogue` appends the text of a set of operations and what is kept beside it, its `Parts`; `write_page` one page of it.
//! - `write_catalogue_with` and `write_page_with` do so of a record of what was said, for whoever keeps games; one that is not kept
//!   is built when its lines are due, and let go after them.
//! - `write_catalogue_of` and `write_page_of` do so where no game is kept. `game_of` builds one, and
//!   `codes_of` gives the codes of all.
//! - `ready_catalogue` asks for all memory that it takes to write the catalogue, and gives a `ReadyCatalogue`, which asks for none:
//!   what is written of it is not cut off by want of memory, and its longest part need not be in memory.
//! - `stream_catalogue` writes it to a writer as it is made; it and `write_catalogue_among` show a part of what was said, with the
//!   authors of the whole.
//! - `GameSheet` is what the lines of a game tell, and what other views show of it: its known nim-values, its blocks and its
//!   claims with their statuses. It is read off a game once.
//! - `append_text`, `append_number`, `append_dot` and the other words of `oct_text` append a part of a line.
//!
//! `specs/Catalogue` is this text, line by line.
#![tactic(auto)]

mod authors;
mod blocks;
mod built;
mod catalogue;
mod claims;
mod codes;
mod game;
mod game_sheet;
mod games;
mod held_blocks;
mod held_lines;
mod line;
mod making_ready;
mod notes;
mod outlet;
mod outlet_lines;
mod pager;
mod parts;
mod ready;
mod statuses;
mod stream;
mod values;

pub use built::{game_after, game_of};
pub use catalogue::{
    write_catalogue_among, write_catalogue_of, write_catalogue_with, write_page_of, write_page_with,
};
pub use codes::codes_of;
pub use game::GameSheet;
pub use making_ready::ready_catalogue;
pub use oct_code::OutOfMemory;
pub use oct_text::{
    append_dot, append_labelled, append_labelled_dot, append_labelled_text, append_number,
    append_text,
};
pub use parts::{Parts, write_catalogue, write_page};
pub use ready::ReadyCatalogue;
pub use statuses::{BlockRow, PeriodRow};
pub use stream::{GameProgress, Unwatched, stream_catalogue};
