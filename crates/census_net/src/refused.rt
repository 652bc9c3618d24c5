//! What is said of a session that the other side refused.

use census_fold::Refusal;
use std::alloc::{AllocError, Global};

/// What was wrong.
pub(crate) fn refused_text(alloc: Global, why: Refusal) -> Result<String, AllocError> {
    match why {
        Refusal::Most => format!(in alloc;
            "the other side takes fewer bytes of one session than this one would send, as its --most says"
        ),
        Refusal::Authors(most) => format!(in alloc;
            "the other side takes operations by at most {most} authors, as its --authors says, and this one has further ones"
        ),
    }
}

/// What to do.
pub(crate) fn remedy_text(alloc: Global, why: Refusal) -> Result<String, AllocError> {
    match why {
        Refusal::Most => format!(in alloc;
            "ask whoever keeps it for a greater --most, or hand over a file to merge: census delta STATE OUT"
        ),
        Refusal::Authors(_) => format!(in alloc;
            "nothing of this session is kept there; ask whoever keeps it for a greater --authors"
        ),
    }
}
