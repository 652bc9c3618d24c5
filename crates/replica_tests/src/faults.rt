//! Faults, by their texts and exit statuses.

use crate::answers::check_equal;
use census_core::{Fault, ImportError, SavedError};
use oct_code::CodeError;
use oct_ops::{NoteError, PeriodError};
use oct_replica::{ComputeError, IssueError, LoadError, RemovalError, TakeError};
use oct_sync::SyncError;

/// A fault, its text and its status.
#[derive(Clone, Copy)]
struct Named {
    fault: Fault,
    text: &'static str,
    status: u8,
}

const FAULTS: &[Named] = &[
    Named {
        fault: Fault::Code(CodeError::Digit),
        text: "Code Digit",
        status: 1,
    },
    Named {
        fault: Fault::Load(LoadError::Version),
        text: "Load Version",
        status: 1,
    },
    Named {
        fault: Fault::Import(ImportError::Shape),
        text: "Import Shape",
        status: 1,
    },
    Named {
        fault: Fault::Saved(SavedError::Refused),
        text: "Saved Refused",
        status: 1,
    },
    Named {
        fault: Fault::Compute(ComputeError::AtLimit),
        text: "Compute AtLimit",
        status: 1,
    },
    Named {
        fault: Fault::Period(PeriodError::Zero),
        text: "Period Zero",
        status: 1,
    },
    Named {
        fault: Fault::Note(NoteError::Name),
        text: "Note Name",
        status: 1,
    },
    Named {
        fault: Fault::Removal(RemovalError::NoNote),
        text: "Removal NoNote",
        status: 1,
    },
    Named {
        fault: Fault::Merge(TakeError::Refused),
        text: "Merge Refused",
        status: 1,
    },
    Named {
        fault: Fault::Issue(IssueError::LastNumber),
        text: "Issue LastNumber",
        status: 1,
    },
    Named {
        fault: Fault::Sync(SyncError::Order),
        text: "Sync Order",
        status: 1,
    },
    Named {
        fault: Fault::Sync(SyncError::Cut),
        text: "Sync Cut",
        status: 3,
    },
    Named {
        fault: Fault::NoPage,
        text: "NoPage",
        status: 1,
    },
    Named {
        fault: Fault::PastValue,
        text: "PastValue",
        status: 1,
    },
    Named {
        fault: Fault::Number,
        text: "Number",
        status: 2,
    },
    Named {
        fault: Fault::Exists,
        text: "Exists",
        status: 3,
    },
    Named {
        fault: Fault::OutOfMemory,
        text: "OutOfMemory",
        status: 4,
    },
];

#[test]
fn faults_are_named(rt: HostRuntime) {
    for &Named {
        fault,
        text,
        status,
    } in FAULTS {
        let shown = format!(in rt.alloc(); "{fault}").ok();
        let shown = shown.expect(&rt, text);
        check_equal(&rt, shown.as_str(), text, "the text");
        check_equal(
            &rt,
            fault.status(),
            status,
            format_args!("the status of {text}"),
        );
    }
}
