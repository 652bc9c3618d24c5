//! What the program does between its input and its output.
//!
//! - `fold_lines` reads lines of deltas, and writes the catalogue of what they say; `fold_intake` also gives what they came to.
//! - `perform` does a `Request`, from the bytes of the state file and of another file to the `Reply` that is to be written;
//!   `perform_kept` tells a `Progress` how far it is, and hands a `TurnKeeper` what is done on the way.
//! - `search` says which period the nim-values of a game prove, computed until they prove one, and the nim-values of any heaps;
//!   `first_values` computes as many as are asked for, and `write_values` writes them as a b-file. `search_in_windows` keeps few
//!   of them, and gives a `Keeper` each `Place` that it comes to; `write_place` writes one, `read_search` reads it, and
//!   `resume_in_windows` goes on from there.
//! - `value_by_search` says which nim-value a position has, by a state or else by a search, and `move_by_search` names a winning
//!   move of one. `plot_heaps` draws some heaps of a game of a state.
//! - `check` compares a b-file with computed values, and `find_shift` says whether they are right at other heaps.
//! - `stream_view` writes all that a state says, in a view, as it is made, and `stream_only` what it says of some games; a
//!   `GameProgress` is told how far they are.
//! - `unite` makes one delta of several files, `read_together` writes the catalogue of what several files hold, and
//!   `log_together` gives their log: a line for each operation that is `Wanted`. `left_in` gives the games of a list of which
//!   several files lack one of the first values, and `own_left` those of which the author of a state said not all of them.
//! - `digest` names the set of operations of a file by 64 digits, and `author_for` gives the number of the author that a text has.
//! - `status` says in a few lines what a state file holds, and `outcome` how many of its blocks and claims are proved, refuted
//!   and pending.
//! - `sql_script` gives the script in SQL that makes a database of all that a state says.
//! - `list_games` tells of those games of a state for which each `Condition` holds, in the form of a `Listing`.
//! - `new_forks` gives the dots that are used twice since.
//! - `write_site` puts the files of a site into a `Folder`, one game in memory at a time.
//! - `rejoin` gives what a state file is to hold after a session, and where the file need not be read, `rejoined_text` and
//!   `unchanged` give what is said then, and `write_state` writes the state.
//! - `judge` says what became of the blocks and claims that are new to a state, `decided` of those that were pending before and
//!   are decided now, and `tally` and `count_decided` how many there are of each.
//! - `import_block` reads the block of a JSON value, and `number` a word of the command line.
//! - `read_whole` reads all of a stream.
//! - `Fault` says why a run ended early, and `laws` what holds of every state file.
#![tactic(auto)]

mod command;
pub mod laws;
mod moving;
mod reaching;

pub use census_fold::{
    Intake, author_for, digest, fold_intake, fold_lines, left_in, log_together, new_forks,
    own_left, read_together, record_digest, status, unite,
};
pub use census_issue::{NoKeeper, TurnKeeper, check_count, import_block};
pub use census_judge::{
    Checked, Decisions, JudgedClaim, Shift, Verdict, check, count_decided, decided, find_shift,
    judge, outcome, tally,
};
pub use census_search::{
    SEARCH_LIMIT, WINDOW_LIMIT, first_values, read_search, resume_in_windows, search,
    search_in_windows, write_values,
};
pub use census_state::{
    Fault, INPUT_LIMIT, ImportError, Rejoined, Reply, Request, SavedError, View, number,
    read_whole, rejoin, rejoined_text, unchanged, write_state,
};
pub use census_tell::{
    Beside, Condition, Folder, GameProgress, Listing, ProvedPeriods, Unwatched, list_games,
    plot_heaps, sql_script, stream_only, stream_view, write_site,
};
pub use command::{perform, perform_kept};
pub use moving::move_by_search;
pub use oct_log::Wanted;
pub use oct_saved::write_place;
pub use oct_text::{Form, Told};
pub use oct_window::{Forgetful, Keeper, Place, Progress, Unkept};
pub use reaching::value_by_search;
