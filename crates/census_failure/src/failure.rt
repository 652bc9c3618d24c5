//! Why a command ended early, and what is known of it.

use crate::showing::shown;
use census_state::Fault;
use oct_code::CodeError;
use oct_record::LoadError;
use oct_sync::SyncError;
use std::alloc::{AllocError, Global};
use std::io::{self, ErrorKind};
use written::Unwritten;

/// Why a command ended early: the fault, whose line is always written, and what is known of it beyond its name, for
/// whoever wants it explained.
#[derive(Drop)]
pub struct Failure {
    /// The fault.
    pub fault: Fault,
    /// The file, word or address that it is about, as it is shown; none where none is known.
    pub(crate) subject: Option<String>,
    /// What was wrong with it.
    pub reason: Reason,
    /// What to do; none where that is what the table of the faults says.
    pub(crate) advice: Option<String>,
}

/// What was wrong with the subject.
#[derive(Drop)]
pub enum Reason {
    /// What the table of the faults says.
    Meant,
    /// What the system said.
    System(io::Error),
    /// What was found, as a line of its own.
    Found(String),
}

impl Failure {
    /// The fault of a file, word or address.
    pub fn of(alloc: Global, fault: Fault, subject: &str) -> Failure {
        Failure::about(fault, shown(alloc, subject))
    }

    /// The fault of this subject, which is text of the program's own. Where memory is refused there is none.
    pub fn about(fault: Fault, subject: Result<String, AllocError>) -> Failure {
        Failure {
            fault,
            subject: subject.ok(),
            reason: Reason::Meant,
            advice: None,
        }
    }

    /// The same, with what the system said.
    pub fn because(mut self, error: io::Error) -> Failure {
        self.reason = Reason::System(error);
        self
    }

    /// The same, with what was found. Where memory is refused, the table's words stand for it.
    pub fn found(mut self, text: Result<String, AllocError>) -> Failure {
        if let Ok(text) = text {
            self.reason = Reason::Found(text);
        }
        self
    }

    /// The same, with what to do. Where memory is refused, the table's words stand for it.
    pub fn advise(mut self, text: Result<String, AllocError>) -> Failure {
        if let Ok(text) = text {
            self.advice = Some(text);
        }
        self
    }

    /// Whether the system said that the file is not there.
    pub fn is_missing(&self) -> bool {
        match &self.reason {
            Reason::System(error) => error.kind() == ErrorKind::NotFound,
            _ => false,
        }
    }
}

impl From<Fault> for Failure {
    fn from(fault: Fault) -> Failure {
        Failure {
            fault,
            subject: None,
            reason: Reason::Meant,
            advice: None,
        }
    }
}

impl From<AllocError> for Failure {
    fn from(refused: AllocError) -> Failure {
        Failure::from(Fault::from(refused))
    }
}

impl From<Unwritten> for Failure {
    fn from(failed: Unwritten) -> Failure {
        Failure::from(Fault::from(failed))
    }
}

impl From<SyncError> for Failure {
    fn from(cause: SyncError) -> Failure {
        Failure::from(Fault::from(cause))
    }
}

impl From<LoadError> for Failure {
    fn from(cause: LoadError) -> Failure {
        Failure::from(Fault::from(cause))
    }
}

impl From<CodeError> for Failure {
    fn from(cause: CodeError) -> Failure {
        Failure::from(Fault::from(cause))
    }
}
