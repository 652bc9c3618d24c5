//! What is asked of a state and shown of it. Nothing here changes a state.
//!
//! - `answer` answers a `Question` about one game, `plot_heaps` draws some of its heaps, and `page` shows one page of the
//!   catalogue. `position_text` says which nim-value a position has, and who wins it, and `move_text` names a winning move.
//! - `show` gives a view of all that is known, and `show_only` one of some games; `stream_view` and `stream_only` write them as they
//!   are made, and tell a `GameProgress` how far they are. `games` tells of games, a line for each, and
//!   `list_games` does so of those for which each `Condition` holds, in the form of a `Listing`.
//! - `sql_script` gives the script that makes a database of all that is known.
//! - `write_site` puts the files of a site into a `Folder`, one game in memory at a time.
#![tactic(auto)]

mod asking;
mod database;
mod json_lines;
mod moving;
mod overview;
mod plotting;
mod site;
mod viewing;

pub use asking::{Question, answer, page, position_text};
pub use database::sql_script;
pub use moving::move_text;
pub use oct_overview::{Condition, Listing};
pub use oct_pages::{GameProgress, Unwatched};
pub use oct_proved::ProvedPeriods;
pub use oct_views::Beside;
pub use overview::{games, list_games, show_only, stream_only};
pub use plotting::plot_heaps;
pub use site::{Folder, write_site};
pub use viewing::{show, stream_view};
