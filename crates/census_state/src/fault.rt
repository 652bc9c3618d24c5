//! Why a command ended early.

use crate::import_error::ImportError;
use crate::saved_error::SavedError;
use oct_bfile::BfileError;
use oct_code::CodeError;
use oct_delta::EncodeError;
use oct_ops::{NoteError, PeriodError};
use oct_period::ComputeError;
use oct_record::{IssueError, LoadError, RemovalError, RenumberError, TakeError};
use oct_saved::ReadError;
use oct_search::SearchError;
use oct_sync::SyncError;
use oct_window::SeekError;
use std::alloc::AllocError;
use written::Unwritten;

/// Why a command ended early. Its text is its name, and behind it the name of the cause, where there is one. A cause is
/// never want of memory: that is `OutOfMemory`.
#[derive(Clone, Copy, Debug, PartialEq, Eq, Drop)]
pub enum Fault {
    /// A word is no number of its range.
    Number,
    /// The words are those of no command, or one is not UTF-8.
    Words,
    /// There is something in the place of a new state file.
    Exists,
    /// A file can't be read, written, locked or renamed.
    File,
    /// The file that is to be written is the state file.
    Same,
    /// What stands in the place of a file that is to be written is not what the command replaces.
    Occupied,
    /// An input or a file has more than `INPUT_LIMIT` bytes.
    TooLong,
    /// The state file holds no state.
    Load(LoadError),
    /// The author of a state is to be 0.
    Zero,
    /// The state holds operations by this author.
    Held,
    /// The state file became another author's during a session.
    Author,
    /// After a session the other side holds other operations.
    Apart,
    /// With what a session brought a set would have operations by so many authors, and it may have so many.
    Authors { count: u64, most: u64 },
    /// The file is no JSON text.
    Json,
    /// The JSON value is no block.
    Import(ImportError),
    /// The file is no b-file. The line is counted from 1.
    Bfile(BfileError),
    /// The file is no saved search of the game.
    Saved(SavedError),
    /// The word is no code.
    Code(CodeError),
    /// No block is computed.
    Compute(ComputeError),
    /// The numbers are no period claim.
    Period(PeriodError),
    /// The words are no note.
    Note(NoteError),
    /// No notes are removed.
    Removal(RemovalError),
    /// The file is no delta.
    Merge(TakeError),
    /// A file of a union is no delta. Its place is counted from 1.
    Union { place: u64, cause: TakeError },
    /// The catalogue has no such page.
    NoPage,
    /// The address can't be bound, accepted on or connected to.
    Net,
    /// The session ended early.
    Sync(SyncError),
    /// No operation is issued.
    Issue(IssueError),
    /// There are more operations than a delta counts.
    TooMany,
    /// A nim-value of a search is above 65,535.
    PastValue,
    /// Standard input failed.
    Read,
    /// Standard output failed, or took no byte.
    Write,
    /// A request for memory was refused.
    OutOfMemory,
}

impl Fault {
    ghost use Rattle.std.specs.Prelude.{◌≡◌};
    ghost use Rattle.census_state.specs.Statuses.{status_of};

    /// The exit status of the program: 1 where something was refused, 2 for the command line, 3 for files, streams and the
    /// network, 4 for memory.
    pub fn status(self) -> u8
        ensures { result ≡ status_of self }
    {
        match self {
            Fault::Number | Fault::Words => 2,
            Fault::Exists
            | Fault::File
            | Fault::Same
            | Fault::Occupied
            | Fault::TooLong
            | Fault::Net
            | Fault::Read
            | Fault::Write
            | Fault::Sync(SyncError::Cut | SyncError::Read | SyncError::Write | SyncError::Turns) =>
                3,
            Fault::OutOfMemory => 4,
            _ => 1,
        }
    }
}

impl From<LoadError> for Fault {
    ghost use Rattle.std.specs.Prelude.{◌≡◌};
    ghost use Rattle.census_state.specs.Refusals.{load_fault};

    ghost from_gives = { λ cause fault. fault ≡ load_fault cause };

    fn from(cause: LoadError) -> Fault {
        match cause {
            LoadError::OutOfMemory => Fault::OutOfMemory,
            _ => Fault::Load(cause),
        }
    }
}

impl From<ImportError> for Fault {
    ghost use Rattle.std.specs.Prelude.{◌≡◌};
    ghost use Rattle.census_state.specs.Refusals.{import_fault};

    ghost from_gives = { λ cause fault. fault ≡ import_fault cause };

    fn from(cause: ImportError) -> Fault {
        match cause {
            ImportError::OutOfMemory => Fault::OutOfMemory,
            _ => Fault::Import(cause),
        }
    }
}

impl From<BfileError> for Fault {
    ghost use Rattle.std.specs.Prelude.{◌≡◌};
    ghost use Rattle.census_state.specs.Refusals.{bfile_fault};

    ghost from_gives = { λ cause fault. fault ≡ bfile_fault cause };

    fn from(cause: BfileError) -> Fault {
        match cause {
            BfileError::OutOfMemory => Fault::OutOfMemory,
            _ => Fault::Bfile(cause),
        }
    }
}

impl From<ComputeError> for Fault {
    ghost use Rattle.std.specs.Prelude.{◌≡◌};
    ghost use Rattle.census_state.specs.Refusals.{compute_fault};

    ghost from_gives = { λ cause fault. fault ≡ compute_fault cause };

    fn from(cause: ComputeError) -> Fault {
        match cause {
            ComputeError::OutOfMemory => Fault::OutOfMemory,
            _ => Fault::Compute(cause),
        }
    }
}

impl From<NoteError> for Fault {
    ghost use Rattle.std.specs.Prelude.{◌≡◌};
    ghost use Rattle.census_state.specs.Refusals.{note_fault};

    ghost from_gives = { λ cause fault. fault ≡ note_fault cause };

    fn from(cause: NoteError) -> Fault {
        match cause {
            NoteError::OutOfMemory => Fault::OutOfMemory,
            _ => Fault::Note(cause),
        }
    }
}

impl From<RemovalError> for Fault {
    ghost use Rattle.std.specs.Prelude.{◌≡◌};
    ghost use Rattle.census_state.specs.Refusals.{removal_fault};

    ghost from_gives = { λ cause fault. fault ≡ removal_fault cause };

    fn from(cause: RemovalError) -> Fault {
        match cause {
            RemovalError::OutOfMemory => Fault::OutOfMemory,
            _ => Fault::Removal(cause),
        }
    }
}

impl From<TakeError> for Fault {
    ghost use Rattle.std.specs.Prelude.{◌≡◌};
    ghost use Rattle.census_state.specs.Refusals.{take_fault};

    ghost from_gives = { λ cause fault. fault ≡ take_fault cause };

    fn from(cause: TakeError) -> Fault {
        match cause {
            TakeError::OutOfMemory { .. } => Fault::OutOfMemory,
            _ => Fault::Merge(cause),
        }
    }
}

impl From<IssueError> for Fault {
    ghost use Rattle.std.specs.Prelude.{◌≡◌};
    ghost use Rattle.census_state.specs.Refusals.{issue_fault};

    ghost from_gives = { λ cause fault. fault ≡ issue_fault cause };

    fn from(cause: IssueError) -> Fault {
        match cause {
            IssueError::OutOfMemory => Fault::OutOfMemory,
            _ => Fault::Issue(cause),
        }
    }
}

impl From<SyncError> for Fault {
    ghost use Rattle.std.specs.Prelude.{◌≡◌};
    ghost use Rattle.census_state.specs.Refusals.{sync_fault};

    ghost from_gives = { λ cause fault. fault ≡ sync_fault cause };

    fn from(cause: SyncError) -> Fault {
        match cause {
            SyncError::OutOfMemory => Fault::OutOfMemory,
            _ => Fault::Sync(cause),
        }
    }
}

impl From<EncodeError> for Fault {
    ghost use Rattle.std.specs.Prelude.{◌≡◌};
    ghost use Rattle.census_state.specs.Refusals.{encode_fault};

    ghost from_gives = { λ cause fault. fault ≡ encode_fault cause };

    fn from(cause: EncodeError) -> Fault {
        match cause {
            EncodeError::TooMany => Fault::TooMany,
            EncodeError::OutOfMemory => Fault::OutOfMemory,
        }
    }
}

impl From<SearchError> for Fault {
    ghost use Rattle.std.specs.Prelude.{◌≡◌};
    ghost use Rattle.census_state.specs.Refusals.{search_fault};

    ghost from_gives = { λ cause fault. fault ≡ search_fault cause };

    fn from(cause: SearchError) -> Fault {
        match cause {
            SearchError::PastValue => Fault::PastValue,
            SearchError::OutOfMemory => Fault::OutOfMemory,
        }
    }
}

impl From<SeekError> for Fault {
    ghost use Rattle.std.specs.Prelude.{◌≡◌};
    ghost use Rattle.census_state.specs.Refusals.{seek_fault};

    ghost from_gives = { λ cause fault. fault ≡ seek_fault cause };

    fn from(cause: SeekError) -> Fault {
        match cause {
            SeekError::PastValue => Fault::PastValue,
            SeekError::OutOfMemory => Fault::OutOfMemory,
            SeekError::Unkept => Fault::File,
        }
    }
}

impl From<ReadError> for Fault {
    ghost use Rattle.std.specs.Prelude.{◌≡◌};
    ghost use Rattle.census_state.specs.Refusals.{saved_fault};

    ghost from_gives = { λ cause fault. fault ≡ saved_fault cause };

    fn from(cause: ReadError) -> Fault {
        match cause {
            ReadError::Version => Fault::Saved(SavedError::Version),
            ReadError::Refused => Fault::Saved(SavedError::Refused),
            ReadError::OutOfMemory => Fault::OutOfMemory,
        }
    }
}

impl From<RenumberError> for Fault {
    ghost use Rattle.std.specs.Prelude.{◌≡◌};
    ghost use Rattle.census_state.specs.Refusals.{renumber_fault};

    ghost from_gives = { λ cause fault. fault ≡ renumber_fault cause };

    fn from(cause: RenumberError) -> Fault {
        match cause {
            RenumberError::Zero => Fault::Zero,
            RenumberError::Held => Fault::Held,
        }
    }
}

impl From<CodeError> for Fault {
    ghost use Rattle.std.specs.Prelude.{◌≡◌};
    ghost use Rattle.census_state.specs.declared.fault.Fault.TheVariants as faults;

    ghost from_gives = { λ cause fault. fault ≡ faults.Code cause };

    fn from(cause: CodeError) -> Fault {
        Fault::Code(cause)
    }
}

impl From<PeriodError> for Fault {
    ghost use Rattle.std.specs.Prelude.{◌≡◌};
    ghost use Rattle.census_state.specs.declared.fault.Fault.TheVariants as faults;

    ghost from_gives = { λ cause fault. fault ≡ faults.Period cause };

    fn from(cause: PeriodError) -> Fault {
        Fault::Period(cause)
    }
}

impl From<AllocError> for Fault {
    ghost use Rattle.std.specs.Prelude.{◌≡◌};
    ghost use Rattle.census_state.specs.declared.fault.Fault.TheVariants as faults;

    ghost from_gives = { λ _ fault. fault ≡ faults.OutOfMemory };

    fn from(_refused: AllocError) -> Fault {
        Fault::OutOfMemory
    }
}

impl From<Unwritten> for Fault {
    ghost use Rattle.std.specs.Prelude.{◌≡◌};
    ghost use Rattle.census_state.specs.declared.fault.Fault.TheVariants as faults;

    ghost from_gives = { λ _ fault. fault ≡ faults.Write };

    fn from(_failed: Unwritten) -> Fault {
        Fault::Write
    }
}
