//! What lines and files hold: their operations, in one set, and what is written of it.
//!
//! - `fold_lines` reads lines of deltas, and writes the catalogue of what they say; `fold_intake` also gives what they came to.
//! - `read_together` gives the catalogue of what several files hold, and `log_together` their log; `diff` says how two differ.
//! - `left_in` gives the games of a list of which several files lack one of the first values, and `own_left`
//!   those of which the author of a state said not all of them.
//! - `unite` makes one delta of several files, `delta` one of a state, and `delta_of_games` one of some of its games.
//! - `digest` names the set of operations of a file by 64 digits, and `record_digest` that of a record.
//! - `status` says in a few lines what a state file holds.
//! - `closing_frame` is what a side that serves says behind a session: the digest of the set that the other should hold then;
//!   `closing_digits` reads it, and `is_apart` compares. `new_forks` gives the dots that were used twice since. A `Refusal` is
//!   what such a side says where it ends a session early.
//! - `check_authors` refuses a set that comes to have too many authors, as `author_count` counts them; `authors_cut` says how many
//!   a session leaves out of its clock.
//! - `author_for` gives the number of the author that a text has.
//! - `laws` says that the catalogue and the digest depend on the set alone.
#![tactic(auto)]

mod author_counts;
mod authors;
mod closing;
mod deltas;
mod digests;
mod fold;
mod hexadecimal;
mod lacking;
pub mod laws;
mod lines;
mod reading;
mod statuses;
mod taken;
mod unions;

pub use author_counts::{author_count, authors_cut, check_authors};
pub use authors::author_for;
pub use closing::{
    CLOSING_LENGTH, REFUSAL_LENGTH, Refusal, closing_digits, closing_frame, is_apart, new_forks,
    read_refusal, refusal_frame,
};
pub use deltas::{delta, delta_of_games};
pub use digests::{digest, record_digest};
pub use fold::{fold_intake, fold_lines};
pub use lacking::{left_in, own_left};
pub use reading::{diff, diff_of_games, log_together, read_together};
pub use statuses::status;
pub use taken::Intake;
pub use unions::unite;
