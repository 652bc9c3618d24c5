//! The texts of faults.

ghost use Rattle.std.specs.Prelude.{◌≡◌, ◌++◌, Some, codes};
ghost use Rattle.std.specs.Fmt.{DisplaysOnOk};
ghost use Rattle.census_state.specs.FaultTexts.{bfile_text, cause_text, code_name, compute_name, fault_name, fault_text, import_name, issue_name, load_name, note_name, period_name, removal_name, saved_name, sync_name, take_name};

use crate::fault::Fault;
use crate::import_error::ImportError;
use crate::saved_error::SavedError;
use oct_bfile::BfileError;
use oct_code::CodeError;
use oct_ops::{NoteError, PeriodError};
use oct_period::ComputeError;
use oct_record::{IssueError, LoadError, RemovalError, TakeError};
use oct_sync::SyncError;
use std::error::Error;
use std::fmt::{self, Display, Formatter};

impl Display for Fault {
    ghost output = { λ fault. Some (fault_text fault) };

    fn fmt<W: fmt::Write>(&self, f: &mut Formatter<W>) -> fmt::Result {
        f.write_str(fault_name(*self))?;
        write_cause(*self, f)
    }
}

impl Error for Fault {}

// What stands before the cause.
fn fault_name(fault: Fault) -> &'static str
    ensures { result.now ≡ fault_name fault }
{
    match fault {
        Fault::Number => "Number",
        Fault::Words => "Words",
        Fault::Exists => "Exists",
        Fault::File => "File",
        Fault::Same => "Same",
        Fault::Occupied => "Occupied",
        Fault::TooLong => "TooLong",
        Fault::Load(_) => "Load",
        Fault::Zero => "Zero",
        Fault::Held => "Held",
        Fault::Author => "Author",
        Fault::Apart => "Apart",
        Fault::Authors { .. } => "Authors",
        Fault::Json => "Json",
        Fault::Import(_) => "Import",
        Fault::Bfile(_) => "Bfile",
        Fault::Saved(_) => "Saved",
        Fault::Code(_) => "Code",
        Fault::Compute(_) => "Compute",
        Fault::Period(_) => "Period",
        Fault::Note(_) => "Note",
        Fault::Removal(_) => "Removal",
        Fault::Merge(_) => "Merge",
        Fault::Union { .. } => "Union",
        Fault::NoPage => "NoPage",
        Fault::Net => "Net",
        Fault::Sync(_) => "Sync",
        Fault::Issue(_) => "Issue",
        Fault::TooMany => "TooMany",
        Fault::PastValue => "PastValue",
        Fault::Read => "Read",
        Fault::Write => "Write",
        Fault::OutOfMemory => "OutOfMemory",
    }
}

// Writes the cause, where there is one.
fn write_cause<W: fmt::Write>(fault: Fault, f: &mut Formatter<W>) -> fmt::Result
    ensures { DisplaysOnOk W.write_str_gives f.old result (Some (cause_text fault)) f.new }
{
    match fault {
        Fault::Load(cause) => write_name(load_name(cause), f),
        Fault::Authors { count, most } => write!(f, " {count} {most}"),
        Fault::Import(cause) => write_name(import_name(cause), f),
        Fault::Bfile(cause) => write_bfile(cause, f),
        Fault::Saved(cause) => write_name(saved_name(cause), f),
        Fault::Code(cause) => write_name(code_name(cause), f),
        Fault::Compute(cause) => write_name(compute_name(cause), f),
        Fault::Period(cause) => write_name(period_name(cause), f),
        Fault::Note(cause) => write_name(note_name(cause), f),
        Fault::Removal(cause) => write_name(removal_name(cause), f),
        Fault::Merge(cause) => write_name(take_name(cause), f),
        Fault::Union { place, cause } => {
            write!(f, " {place}")?;
            write_name(take_name(cause), f)
        }
        Fault::Sync(cause) => write_name(sync_name(cause), f),
        Fault::Issue(cause) => write_name(issue_name(cause), f),
        _ => Ok(()),
    }
}

// Writes a name behind a blank.
fn write_name<W: fmt::Write>(name: &str, f: &mut Formatter<W>) -> fmt::Result
    ensures { DisplaysOnOk W.write_str_gives f.old result (Some (codes " " ++ name.now)) f.new }
{
    f.write_str(" ")?;
    f.write_str(name)
}

// Writes why a text is no b-file, behind a blank.
fn write_bfile<W: fmt::Write>(cause: BfileError, f: &mut Formatter<W>) -> fmt::Result
    ensures { DisplaysOnOk W.write_str_gives f.old result (Some (codes " " ++ bfile_text cause)) f.new }
{
    match cause {
        BfileError::Form { line } => write!(f, " Form {line}"),
        BfileError::Order { line } => write!(f, " Order {line}"),
        BfileError::PastLimit { line } => write!(f, " PastLimit {line}"),
        BfileError::Empty => f.write_str(" Empty"),
        BfileError::OutOfMemory => f.write_str(" OutOfMemory"),
    }
}

fn load_name(cause: LoadError) -> &'static str
    ensures { result.now ≡ load_name cause }
{
    match cause {
        LoadError::Version => "Version",
        LoadError::Refused => "Refused",
        LoadError::OutOfMemory => "OutOfMemory",
    }
}

fn import_name(cause: ImportError) -> &'static str
    ensures { result.now ≡ import_name cause }
{
    match cause {
        ImportError::Shape => "Shape",
        ImportError::Code => "Code",
        ImportError::Start => "Start",
        ImportError::Values => "Values",
        ImportError::Empty => "Empty",
        ImportError::TooMany => "TooMany",
        ImportError::PastLimit => "PastLimit",
        ImportError::OutOfMemory => "OutOfMemory",
    }
}

fn saved_name(cause: SavedError) -> &'static str
    ensures { result.now ≡ saved_name cause }
{
    match cause {
        SavedError::Version => "Version",
        SavedError::Refused => "Refused",
        SavedError::Game => "Game",
    }
}

fn code_name(cause: CodeError) -> &'static str
    ensures { result.now ≡ code_name cause }
{
    match cause {
        CodeError::Form => "Form",
        CodeError::Head => "Head",
        CodeError::Digit => "Digit",
        CodeError::Long => "Long",
    }
}

fn compute_name(cause: ComputeError) -> &'static str
    ensures { result.now ≡ compute_name cause }
{
    match cause {
        ComputeError::Zero => "Zero",
        ComputeError::TooMany => "TooMany",
        ComputeError::AtLimit => "AtLimit",
        ComputeError::OutOfMemory => "OutOfMemory",
    }
}

fn period_name(cause: PeriodError) -> &'static str
    ensures { result.now ≡ period_name cause }
{
    match cause {
        PeriodError::Zero => "Zero",
        PeriodError::PastLimit => "PastLimit",
    }
}

fn note_name(cause: NoteError) -> &'static str
    ensures { result.now ≡ note_name cause }
{
    match cause {
        NoteError::Name => "Name",
        NoteError::Text => "Text",
        NoteError::OutOfMemory => "OutOfMemory",
    }
}

fn removal_name(cause: RemovalError) -> &'static str
    ensures { result.now ≡ removal_name cause }
{
    match cause {
        RemovalError::NoNote => "NoNote",
        RemovalError::TooMany => "TooMany",
        RemovalError::OutOfMemory => "OutOfMemory",
    }
}

fn take_name(cause: TakeError) -> &'static str
    ensures { result.now ≡ take_name cause }
{
    match cause {
        TakeError::Version => "Version",
        TakeError::Refused => "Refused",
        TakeError::OutOfMemory { .. } => "OutOfMemory",
    }
}

fn sync_name(cause: SyncError) -> &'static str
    ensures { result.now ≡ sync_name cause }
{
    match cause {
        SyncError::Frame => "Frame",
        SyncError::Order => "Order",
        SyncError::Clock => "Clock",
        SyncError::Delta => "Delta",
        SyncError::OutOfMemory => "OutOfMemory",
        SyncError::Failed => "Failed",
        SyncError::Cut => "Cut",
        SyncError::Read => "Read",
        SyncError::Write => "Write",
        SyncError::Turns => "Turns",
    }
}

fn issue_name(cause: IssueError) -> &'static str
    ensures { result.now ≡ issue_name cause }
{
    match cause {
        IssueError::LastNumber => "LastNumber",
        IssueError::OutOfMemory => "OutOfMemory",
    }
}
