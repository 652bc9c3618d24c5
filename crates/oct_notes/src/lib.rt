//! Notes and their removals, as an observed-remove set (Shapiro, Preguica, Baquero and Zawirski, 2011).
//!
//! A removal names the dots of the notes that it removes, and not their name. So it hides what its author had seen and
//! nothing else: a note of the same name that was added elsewhere stays, and a removal that comes before its note still
//! holds once the note is there:
//!
//!     let mut notes = Notes::new(alloc);
//!     notes.add(&early)?;               // note 1.1, kayles, "early"
//!     notes.add(&later)?;               // note 1.2, kayles, "later"
//!     notes.add(&removal)?;             // removal 2.1, of 1.1
//!     notes.live()?                     // note 1.2 alone
//!     notes.live_dots(b"kayles")?       // 1.2: what a removal of the name has to name
//!
//! - `Notes` is the set, which grows by `add` and, as a `Join`, by union.
//! - `laws` says what the live notes of a set are, whatever the set.
#![tactic(auto)]

pub mod laws;
mod name;
mod notes;
mod removed;
mod row;

pub use notes::Notes;
pub use oct_code::OutOfMemory;
