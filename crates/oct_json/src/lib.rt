//! A census as JSON, for scripts.
//!
//!     stream_json(alloc, &said, &said, &mut progress, &mut out)?; // all that the record says
//!
//! - `stream_json` writes one document of all of a record, or of a part of it. Each game is built and written before the next.
//! - `write_game_json` writes that of one game.
//!
//! `specs/Json` says which value a sheet is; `serde_json` says how a value is spelled.
#![tactic(auto)]

mod document;
mod forms;
mod json_rows;
mod marked;

pub use document::stream_json;
pub use forms::write_game_json;
