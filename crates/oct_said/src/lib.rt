//! What notes say of games and of operations, for whoever reads them.
//!
//! A *long* period takes more than 65,536 values to prove, and a census keeps no more of a game: so no period claim that holds it
//! is ever proved. The note of a game's period has the name `period-` and the game's code with a hyphen in place of the point, and says what `census search` prints of the period:
//!
//!     period-0-16    0.16 period 149459 from 105351
//!
//! An author *withdraws* a block or a period claim of its own by a note of the name `withdrawn` that says the dot:
//!
//!     withdrawn      2.2
//!
//! - `seen_in` gives the period that a line of a search names, and `is_long` says whether no claim of it is ever proved.
//! - `period_note_of` gives what a note says of a game's period, and `long_period_of` the long period that it says.
//! - `note_name` and `period_text` spell the note of a period.
//! - `withdrawn_by` gives the dot that a note withdraws.
//! - `Withdrawn` has the dots that notes withdraw, and `said_by_game` the long periods that they say of games, so that each is
//!   found with no pass over the notes.
//! - `laws` says that each name and each text is read back.
#![tactic(auto)]

mod dots;
pub mod laws;
mod lines;
mod names;
mod noting;
mod said;
mod withdrawn;

pub use dots::withdrawn_by;
pub use lines::{append_period, is_long, period_text, seen_in};
pub use names::note_name;
pub use noting::{LongPeriod, PeriodNote, long_period_of, period_note_of, period_notes_among};
pub use said::{said_by_game, said_in};
pub use withdrawn::Withdrawn;
