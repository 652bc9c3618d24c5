//! The search for the period of an octal game in windows of its nim-values, as far as time goes.
//!
//! Where no heap above some size is rare under a mask, the next nim-value mostly follows from the values of the heaps up to
//! this size and from a window of the last ones, as many as this size and the digits of the code (`oct_mex::settled_value`).
//! So nothing else has to be kept: a `Window` goes on in the memory that it begins with, however far.
//!
//!     let mut keeper = Forgetful(&mut progress);
//!     seek(alloc, &code, 1_000_000, &mut keeper)?        // 0.16: Least(period 149,459 from heap 105,351, by 411,603 values)
//!
//! - `seek` lists first values, and watches a window behind them until its values come again.
//! - How far it is is a `Place`, from which `Place::step` goes on by some values. A `Keeper` is given each place that the
//!   search comes to, and `resume` takes the search up again at one.
//! - A `Watch` marks the last values of a `Window`, anew only where it has gone as far again. Where they come again, all that
//!   follow do (`oct_mex::laws::settled_runs_hold`), and no shorter period holds.
//! - A `Trail` has windows that a search has passed. By them it is known where about the period begins.
//! - A `Comparison` of two windows, one a period ahead of the other, finds the least heap from which on the period holds.
//! - `Progress` is told how far a search is.
//! - `laws` says what holds of periods.
//!
//! The clauses part what fits together in memory (`IsShaped`, ..), which is asked for and kept, from what is so of the game
//! (`IsKnown`, ..), which stands in them as a premise.
#![tactic(auto)]

mod by_sets;
mod comparison;
mod ends;
mod first;
mod keeper;
pub mod laws;
mod place;
mod reader;
mod seeking;
mod sought;
mod stepping;
mod trail;
mod watch;
mod window;

pub use comparison::Comparison;
pub use first::extend;
pub use keeper::{Forgetful, Keeper, Unkept};
pub use oct_progress::{Nobody, Progress};
pub use place::{Place, Seen, Stage, Stepped};
pub use reader::Reader;
pub use seeking::{MOST_LISTED, SeekError, resume, seek};
pub use sought::Sought;
pub use trail::Trail;
pub use watch::{Step, Watch};
pub use window::{FARTHEST, MARKS, Window};
