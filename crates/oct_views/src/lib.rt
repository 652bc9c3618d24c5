//! Views of a census in HTML: what researchers publish of it.
//!
//! A view is read off the operations alone, as the catalogue is, so records with the same operations write the same
//! bytes:
//!
//!     write_report(&said, how, &mut text)?; // all that the record says
//!     write_index(&said, &proved, &rows, &mut text)?; // the front of a site
//!
//! - A *report* is one text, which shows all of a record, or of a part of it. `stream_report` writes it piece by piece, builds the
//!   games one after another, and keeps only those that are dear; `write_report` appends it to a text.
//! - A *site* is a folder with a file for each game. `write_game_html` writes that file, `write_index` an index of all games,
//!   and `write_style` how they look. Both show as proved by this program the periods that `oct_proved` holds, and no others.
//! - `laws` says that a style loads nothing.
//!
//! What there is to show is a sheet (`oct_sheet`), and its tables and pictures are those of `oct_tables` and `oct_plot`.
#![tactic(auto)]

mod blocks_tables;
mod columns;
mod common;
mod game_tables;
mod index;
mod kept;
pub mod laws;
mod periods_table;
mod proved;
mod records;
mod report;
mod said;
mod site;
mod standing;
mod streamed;
mod styles;

pub use report::{stream_report, write_report};
pub use site::{Beside, write_game_html, write_index, write_style};
