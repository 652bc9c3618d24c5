//! How far a search in windows is, in a file.
//!
//! A search for a period can take weeks. So that it can be stopped, and taken up again by another run of the program, its
//! `oct_window::Place` is written as a text, and read from it:
//!
//!     let text = write_place(alloc, &place)?;       // OGW1, the checksum, and then the numbers of the place
//!     let same = read_place(alloc, &text)?;         // the place again
//!     read_place(alloc, &text[1..])                 // Version
//!     read_place(alloc, &text[..100])               // Refused
//!
//! The text begins with the tag `OGW1` and the SHA-256 of all that follows. Numbers of 64 bits follow, big-endian, in lists,
//! each behind its length:
//!
//! - of a window that is watched: the scalars 0, head, `listed`, `at` and those of the window, which are its reach, its count
//!   and the bits, the parity (0 or 1) and the turn of its mask; the digits of the code; the rare heaps, the values that the
//!   window holds, and those that are marked;
//! - of a comparison: the scalars 1, head, `listed`, `start`, `values`, the period, the least start so far, and of both
//!   readers the heap and the scalars of its window; the digits; the rare heaps and the values of the first window, and
//!   then those of the second.
//!
//! What follows from these is not written: the values of the rare heaps, and how many marks are used. A text is refused
//! unless it is exactly that of a place from which a search can go on.
//!
//! - `write_place` writes a place.
//! - `read_place` reads one.
//! - `laws` says what holds of all texts: a place with the text of a right one is right.
#![tactic(auto)]

mod error;
mod input;
mod kept;
pub mod laws;
mod lists;
mod output;
mod parts;
mod reading;
mod scalars;
mod word;
mod writing;

pub use error::ReadError;
pub use reading::read_place;
pub use writing::write_place;
