//! What becomes of what came in a session that ended early.

use census_failure::Failure;
use census_state::Fault;
use std::alloc::{AllocError, Global};

/// Whether a session ended by what its peer did. What came before is saved then.
pub fn is_of_peer(failure: &Failure) -> bool {
    matches!(failure.fault, Fault::Sync(_) | Fault::TooLong)
}

/// The failure of a session, with the advice of one of which nothing could be saved, and why.
pub fn unsaved(alloc: Global, failure: Failure, why: &Failure) -> Failure {
    failure.advise(unsaved_text(alloc, why.fault))
}

fn unsaved_text(alloc: Global, why: Fault) -> Result<String, AllocError> {
    format!(in alloc;
        "what came could not be saved either ({why}); see that the state can be written, and run the command again"
    )
}
