//! How much one peer may bring.

use census_failure::Failure;
use census_state::Fault;
use std::alloc::{AllocError, Global};

/// How much one peer may bring.
#[derive(Clone, Copy)]
pub struct Allowance {
    /// The most bytes that it may send.
    pub most: u64,
    /// The most authors of whom a set may have operations, once the peer has brought one that is new there.
    pub authors: u32,
}

impl Allowance {
    /// The failure of a peer that sent more bytes.
    pub fn exceeded(self, alloc: Global) -> Failure {
        Failure::from(Fault::TooLong)
            .found(most_text(alloc, self.most))
            .advise(more_text(alloc))
    }
}

// What is said of a peer that sends too much.
fn most_text(alloc: Global, most: u64) -> Result<String, AllocError> {
    format!(in alloc;
        "the other side sent over {most} bytes, the most that --most lets one session send"
    )
}

fn more_text(alloc: Global) -> Result<String, AllocError> {
    format!(in alloc;
        "what came before is saved; where the other side has that much to say, give a greater --most here"
    )
}
