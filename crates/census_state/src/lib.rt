//! What a state file is: how it is read, made, changed and written, and what a command over it asks for and gives.
//!
//! - `load` reads what a state file says, and `save` is the reply that writes it. `init` makes a state, `renumber` has it go on
//!   under another author, and `merge` takes the operations of a delta into it.
//! - `rejoin` gives what a state file is to hold after a session. Where the file need not be read, `rejoined_text` and
//!   `unchanged` give what is said then, and `write_state` writes the state, piece by piece; `is_too_long` says whether it may.
//! - `Holdings` are operations under no author, as those of files and of parts of a state; `games_alone` gives those of some games.
//! - A `Request` is one command over the bytes of its files, and a `Reply` what it gives.
//! - `Fault` says why a run ended early. Its text is what the program prints; `status` is the exit status.
//! - `read_whole` reads all of a stream, `number` a word of the command line, and `read_code` one that spells a code.
//! - `laws` says what holds of every state file, and which operations are of some games.
#![tactic(auto)]

mod alone;
mod codes;
mod fault;
mod fault_text;
mod holdings;
mod import_error;
mod input;
pub mod laws;
mod period_texts;
mod reply;
mod request;
mod saved_error;
mod states;
mod texts;
mod view;
mod words;
mod written_states;

pub use alone::games_alone;
pub use codes::{read_code, read_codes};
pub use fault::Fault;
pub use holdings::Holdings;
pub use import_error::ImportError;
pub use input::{INPUT_LIMIT, read_fault, read_whole, write_fault};
pub use period_texts::{append_period, append_vain_line, append_vain_words, needs};
pub use reply::Reply;
pub use request::Request;
pub use saved_error::SavedError;
pub use states::{Rejoined, init, load, merge, rejoin, rejoined_text, renumber, save, unchanged};
pub use texts::{number_line, renumbered_line, union_line};
pub use view::View;
pub use words::number;
pub use written_states::{is_too_long, write_state};
