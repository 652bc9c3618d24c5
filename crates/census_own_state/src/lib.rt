//! The commands of a state file of one's own: how it is made, and what its author says.
//!
//! Each command stands in one file: its row, from which its help is made, what its words ask for, and what it does with that,
//! where it is no request to the state. Its function `command` reads the words and does it.
//!
//! - `init` makes a state, `renumber` has it go on under another number, and `status` says what it holds.
//! - `import`, `claim`, `compute` and `extend` issue values, `period` and `survey` periods, and `note` and `unnote` notes.
//!
//! A request that changes a state is done by `census_requests`.
#![tactic(auto)]

pub mod claim;
pub mod compute;
pub mod extend;
pub mod import;
pub mod init;
pub mod note;
pub mod period;
pub mod renumber;
pub mod status;
pub mod survey;
pub mod unnote;
