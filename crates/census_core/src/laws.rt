//! What holds of every file of a state and of every input, and the limit as a number.

pub use census_fold::laws::{digests_are_of_sets, lines_fold_to_their_union};
pub use census_issue::laws::extended_is_known;
pub use census_state::laws::{states_are_read, the_limit_is_this};
