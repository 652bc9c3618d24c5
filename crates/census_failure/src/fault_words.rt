//! What each fault and each cause means, and what to do after it: the one table from which a fault is explained on a
//! terminal, by `census explain` and in the manual.

use census_state::{Fault, ImportError, SavedError};
use oct_bfile::BfileError;
use oct_code::CodeError;
use oct_ops::{NoteError, PeriodError};
use oct_period::ComputeError;
use oct_record::{IssueError, LoadError, RemovalError, TakeError};
use oct_sync::SyncError;

/// What is said of a fault.
#[derive(Clone, Copy)]
pub struct FaultWords {
    /// What it is about, where no file, word or address is named.
    pub subject: &'static str,
    /// What was wrong, to be read behind that.
    pub meaning: &'static str,
    /// What to do.
    pub remedy: &'static str,
}

// What is said of a fault, as one value.
const fn words(subject: &'static str, meaning: &'static str, remedy: &'static str) -> FaultWords {
    FaultWords {
        subject,
        meaning,
        remedy,
    }
}

/// A fault of each name and cause, in the order of their exit statuses and then as the documents have them.
pub fn faults() -> [&'static [Fault]; 5] {
    [
        FILES_REFUSED,
        WORDS_REFUSED,
        OTHERS_REFUSED,
        COMMAND_LINES,
        PLACES,
    ]
}

// Refused files, with status 1.
const FILES_REFUSED: &[Fault] = &[
    Fault::Load(LoadError::Version),
    Fault::Load(LoadError::Refused),
    Fault::Merge(TakeError::Version),
    Fault::Merge(TakeError::Refused),
    Fault::Union {
        place: 1,
        cause: TakeError::Version,
    },
    Fault::Union {
        place: 1,
        cause: TakeError::Refused,
    },
    Fault::Json,
    Fault::Import(ImportError::Shape),
    Fault::Import(ImportError::Code),
    Fault::Import(ImportError::Start),
    Fault::Import(ImportError::Values),
    Fault::Import(ImportError::Empty),
    Fault::Import(ImportError::TooMany),
    Fault::Import(ImportError::PastLimit),
    Fault::Bfile(BfileError::Form { line: 1 }),
    Fault::Bfile(BfileError::Order { line: 1 }),
    Fault::Bfile(BfileError::PastLimit { line: 1 }),
    Fault::Bfile(BfileError::Empty),
    Fault::Saved(SavedError::Version),
    Fault::Saved(SavedError::Refused),
    Fault::Saved(SavedError::Game),
];

// Refused words, with status 1.
const WORDS_REFUSED: &[Fault] = &[
    Fault::Code(CodeError::Form),
    Fault::Code(CodeError::Head),
    Fault::Code(CodeError::Digit),
    Fault::Code(CodeError::Long),
    Fault::Zero,
    Fault::Held,
    Fault::Compute(ComputeError::Zero),
    Fault::Compute(ComputeError::TooMany),
    Fault::Compute(ComputeError::AtLimit),
    Fault::Period(PeriodError::Zero),
    Fault::Period(PeriodError::PastLimit),
    Fault::Note(NoteError::Name),
    Fault::Note(NoteError::Text),
    Fault::Removal(RemovalError::NoNote),
    Fault::Removal(RemovalError::TooMany),
    Fault::NoPage,
];

// What else is refused, with status 1.
const OTHERS_REFUSED: &[Fault] = &[
    Fault::Author,
    Fault::Apart,
    Fault::Authors { count: 1, most: 1 },
    Fault::Issue(IssueError::LastNumber),
    Fault::TooMany,
    Fault::PastValue,
    Fault::Sync(SyncError::Frame),
    Fault::Sync(SyncError::Order),
    Fault::Sync(SyncError::Clock),
    Fault::Sync(SyncError::Delta),
    Fault::Sync(SyncError::Failed),
];

// Command lines, with status 2.
const COMMAND_LINES: &[Fault] = &[Fault::Number, Fault::Words];

// Files, streams and the network, with status 3, and memory, with status 4.
const PLACES: &[Fault] = &[
    Fault::Exists,
    Fault::File,
    Fault::Same,
    Fault::Occupied,
    Fault::TooLong,
    Fault::Net,
    Fault::Sync(SyncError::Cut),
    Fault::Sync(SyncError::Read),
    Fault::Sync(SyncError::Write),
    Fault::Sync(SyncError::Turns),
    Fault::Read,
    Fault::Write,
    Fault::OutOfMemory,
];

/// What is said of the fault.
pub fn words_of(fault: Fault) -> FaultWords {
    match fault {
        Fault::Load(cause) => of_load(cause),
        Fault::Merge(cause) => of_take(cause),
        Fault::Union { cause, .. } => of_union(cause),
        Fault::Json => JSON,
        Fault::Import(cause) => of_import(cause),
        Fault::Bfile(cause) => of_bfile(cause),
        Fault::Saved(cause) => of_saved(cause),
        Fault::Code(cause) => of_code(cause),
        Fault::Zero => ZERO,
        Fault::Held => HELD,
        Fault::Compute(cause) => of_compute(cause),
        Fault::Period(cause) => of_period(cause),
        Fault::Note(cause) => of_note(cause),
        Fault::Removal(cause) => of_removal(cause),
        Fault::NoPage => NO_PAGE,
        Fault::Author => AUTHOR,
        Fault::Apart => APART,
        Fault::Authors { .. } => AUTHORS,
        Fault::Issue(cause) => of_issue(cause),
        Fault::TooMany => TOO_MANY,
        Fault::PastValue => PAST_VALUE,
        Fault::Sync(cause) => of_sync(cause),
        Fault::Number => NUMBER,
        Fault::Words => WORDS,
        Fault::Exists => EXISTS,
        Fault::File => FILE,
        Fault::Same => SAME,
        Fault::Occupied => OCCUPIED,
        Fault::TooLong => TOO_LONG,
        Fault::Net => NET,
        Fault::Read => READ,
        Fault::Write => WRITE,
        Fault::OutOfMemory => MEMORY,
    }
}

const JSON: FaultWords = FaultWords {
    subject: "the file",
    meaning: "is no JSON text",
    remedy: "the form is {\"code\":\"0.77\",\"start\":0,\"values\":[0,1,2,3,1]}",
};

const ZERO: FaultWords = FaultWords {
    subject: "0",
    meaning: "is no author's number",
    remedy: "give a number from 1 to 4294967295, or have one drawn: census init --draw STATE, census renumber STATE",
};

const HELD: FaultWords = FaultWords {
    subject: "the state",
    meaning: "holds operations by this number",
    remedy: "leave the number out, and one is drawn: census renumber STATE",
};

const NO_PAGE: FaultWords = FaultWords {
    subject: "the number",
    meaning: "is that of no page of the catalogue",
    remedy: "the first one is 0: census page STATE 0; census show STATE prints all",
};

const AUTHOR: FaultWords = FaultWords {
    subject: "the state file",
    meaning: "became another author's during the session, and nothing was written",
    remedy: "run the command again",
};

const APART: FaultWords = FaultWords {
    subject: "the other side",
    meaning: "holds other operations after the session: a number was used twice",
    remedy: "exchange all: census sync --all STATE HOST:PORT; whoever has the number goes on by census renumber STATE",
};

const AUTHORS: FaultWords = FaultWords {
    subject: "the session",
    meaning: "would have brought the table above the authors that --authors lets it have; nothing of it is kept",
    remedy: "see who the new authors are; where all are members, start again with a greater --authors",
};

const TOO_MANY: FaultWords = FaultWords {
    subject: "the file",
    meaning: "would hold over 4294967295 operations",
    remedy: "keep fewer in one file: some games, or some authors",
};

const PAST_VALUE: FaultWords = FaultWords {
    subject: "the game",
    meaning: "has a nim-value above 65535",
    remedy: "ask for fewer values: census search COUNT CODE",
};

const NUMBER: FaultWords = FaultWords {
    subject: "a word",
    meaning: "is no number of its range",
    remedy: "census COMMAND --help says what each word is",
};

const WORDS: FaultWords = FaultWords {
    subject: "a word",
    meaning: "is missing, is no text in UTF-8, or does not go with another",
    remedy: "census COMMAND --help has the words of a command",
};

const EXISTS: FaultWords = FaultWords {
    subject: "the new state file",
    meaning: "stands there already, and stays as it is",
    remedy: "go on with that file, or name another one",
};

const FILE: FaultWords = FaultWords {
    subject: "a file",
    meaning: "can't be read, written, locked or renamed",
    remedy: "see what stands there, and who may use it: ls -ld FILE",
};

const SAME: FaultWords = FaultWords {
    subject: "the file that is to be written",
    meaning: "is the state file, which is not written over",
    remedy: "name another file",
};

const OCCUPIED: FaultWords = FaultWords {
    subject: "the file that is to be written",
    meaning: "holds something else, and stays as it is",
    remedy: "name another file; or say --replace, and it is written over",
};

const TOO_LONG: FaultWords = FaultWords {
    subject: "a file or an input",
    meaning: "has over 1073741824 bytes",
    remedy: "give fewer operations, values or lines at once",
};

const NET: FaultWords = FaultWords {
    subject: "the address",
    meaning: "can't be listened at or connected to",
    remedy: "an address is HOST:PORT, as 127.0.0.1:4000; for sync a hub or serve has to run there",
};

const READ: FaultWords = FaultWords {
    subject: "standard input",
    meaning: "failed",
    remedy: "give the input by a file or a pipe",
};

const WRITE: FaultWords = FaultWords {
    subject: "standard output",
    meaning: "failed, or took no byte",
    remedy: "see where the output goes: a full disk, or a program that has ended",
};

const MEMORY: FaultWords = FaultWords {
    subject: "the system",
    meaning: "gave no more memory",
    remedy: "give the program more, or work on fewer games at once",
};

fn of_load(cause: LoadError) -> FaultWords {
    match cause {
        LoadError::Version => words(
            "the state file",
            "does not begin as a state does",
            "census init --draw STATE makes a state, and census merge STATE DELTA takes a delta in",
        ),
        LoadError::Refused => words(
            "the state file",
            "begins as a state, and is damaged",
            "put a whole copy back, and go on under a new number: census renumber STATE",
        ),
        LoadError::OutOfMemory => MEMORY,
    }
}

fn of_take(cause: TakeError) -> FaultWords {
    match cause {
        TakeError::Version => words(
            "the delta file",
            "does not begin as a delta does",
            "census delta STATE DELTA writes a delta",
        ),
        TakeError::Refused => words(
            "the delta file",
            "begins as a delta, and is damaged",
            "have it written and sent again: census delta STATE DELTA",
        ),
        TakeError::OutOfMemory { .. } => MEMORY,
    }
}

fn of_union(cause: TakeError) -> FaultWords {
    match cause {
        TakeError::Version => words(
            "the file of this place",
            "does not begin as a delta does; places are counted from 1",
            "census delta STATE DELTA writes a delta",
        ),
        TakeError::Refused => words(
            "the file of this place",
            "begins as a delta, and is damaged; places are counted from 1",
            "have it written and sent again; the other files are as they were",
        ),
        TakeError::OutOfMemory { .. } => MEMORY,
    }
}

fn of_import(cause: ImportError) -> FaultWords {
    match cause {
        ImportError::Shape => words(
            "the JSON file",
            "is no object with exactly the keys code, start and values",
            "the form is {\"code\":\"0.77\",\"start\":0,\"values\":[0,1,2,3,1]}",
        ),
        ImportError::Code => words(
            "the JSON file",
            "has a code that is no text of an octal code",
            "write it as \"0.77\": 0 or 4, a point, and digits 0 to 7",
        ),
        ImportError::Start => words(
            "the JSON file",
            "has a start that is no whole number below 4294967296",
            "start is the heap of the first value, as 0",
        ),
        ImportError::Values => words(
            "the JSON file",
            "has values that are no list of whole numbers below 4294967296",
            "write it as [0,1,2,3,1], from heap start on",
        ),
        ImportError::Empty => words(
            "the JSON file",
            "has no value",
            "give at least one, from heap start on",
        ),
        ImportError::TooMany => words(
            "the JSON file",
            "has over 1024 values",
            "cut it into several files; or claim a b-file, of any length: census claim STATE CODE FILE",
        ),
        ImportError::PastLimit => words(
            "the JSON file",
            "has values beyond heap 65535",
            "a state keeps the heaps 0 to 65535; start and the number of values come to 65536 at most",
        ),
        ImportError::OutOfMemory => MEMORY,
    }
}

fn of_bfile(cause: BfileError) -> FaultWords {
    match cause {
        BfileError::Form { .. } => words(
            "the b-file",
            "has, at this line, no number and value below 4294967296",
            "a line is as `0 0`; empty ones, and those that begin with #, are passed over",
        ),
        BfileError::Order { .. } => words(
            "the b-file",
            "has, at this line, a number that is not the one before plus one",
            "the numbers rise by one from line to line, and none is left out",
        ),
        BfileError::PastLimit { .. } => words(
            "the b-file",
            "has, at this line, a number above 65535",
            "a state keeps the heaps 0 to 65535: head -n 65536 cuts a file that begins with 0",
        ),
        BfileError::Empty => words(
            "the b-file",
            "has no line with a number and a value",
            "a line is as `0 0`, a heap and its value",
        ),
        BfileError::OutOfMemory => MEMORY,
    }
}

fn of_saved(cause: SavedError) -> FaultWords {
    match cause {
        SavedError::Version => words(
            "the file",
            "is no saved search",
            "name another file for --save; where there is none, the search begins anew",
        ),
        SavedError::Refused => words(
            "the saved search",
            "is damaged",
            "take a copy of it that is whole, or name another file, and the search begins anew",
        ),
        SavedError::Game => words(
            "the saved search",
            "is of another game",
            "give the CODE of its game, or name another file for --save",
        ),
    }
}

fn of_code(cause: CodeError) -> FaultWords {
    match cause {
        CodeError::Form => words(
            "the code",
            "has no point, more than one sign before it, or nothing after it",
            "a code is 0 or 4, a point, and digits 0 to 7, as 0.77",
        ),
        CodeError::Head => words(
            "the code",
            "has neither 0 nor 4 before its point",
            "a code is 0 or 4, a point, and digits 0 to 7, as 0.77",
        ),
        CodeError::Digit => words(
            "the code",
            "has a sign after its point that is none of the digits 0 to 7",
            "a code is 0 or 4, a point, and digits 0 to 7, as 0.77",
        ),
        CodeError::Long => words(
            "the code",
            "has over 16 digits, those zeros that end it left out",
            "no game of a longer code is kept",
        ),
    }
}

fn of_compute(cause: ComputeError) -> FaultWords {
    match cause {
        ComputeError::Zero => words(
            "COUNT",
            "is 0, and no value would be computed",
            "give COUNT from 1 to 1024",
        ),
        ComputeError::TooMany => words(
            "COUNT",
            "is over 1024, the most values that one operation holds",
            "census extend STATE COUNT CODE has no such limit: it makes the first COUNT values known",
        ),
        ComputeError::AtLimit => words(
            "COUNT",
            "is in vain: all values up to heap 65535 are known",
            "census search COUNT CODE goes on beyond it, and keeps nothing",
        ),
        ComputeError::OutOfMemory => MEMORY,
    }
}

fn of_period(cause: PeriodError) -> FaultWords {
    match cause {
        PeriodError::Zero => words(
            "E or P",
            "is 0",
            "E, from which heap on the values repeat, and P, the period, are 1 to 65536",
        ),
        PeriodError::PastLimit => words(
            "E or P",
            "is above 65536",
            "census search COUNT CODE proves longer periods, and keeps nothing",
        ),
    }
}

fn of_note(cause: NoteError) -> FaultWords {
    match cause {
        NoteError::Name => words(
            "the note",
            "has a name that is no 1 to 32 bytes of a-z, 0-9 and -",
            "a name is as kayles or dawson-7",
        ),
        NoteError::Text => words(
            "the note",
            "has a text with over 200 bytes, or with one that is no printable ASCII",
            "a text is up to 200 letters, digits, signs and blanks of an English keyboard",
        ),
        NoteError::OutOfMemory => MEMORY,
    }
}

fn of_removal(cause: RemovalError) -> FaultWords {
    match cause {
        RemovalError::NoNote => words(
            "the name",
            "is that of no note in the state",
            "census show STATE lists the notes",
        ),
        RemovalError::TooMany => words(
            "the name",
            "is that of over 1024 notes",
            "nothing can take so many back at once",
        ),
        RemovalError::OutOfMemory => MEMORY,
    }
}

fn of_issue(cause: IssueError) -> FaultWords {
    match cause {
        IssueError::LastNumber => words(
            "the author",
            "has used the last number, 4294967295",
            "go on under a new one: census renumber STATE",
        ),
        IssueError::OutOfMemory => MEMORY,
    }
}

fn of_sync(cause: SyncError) -> FaultWords {
    match cause {
        SyncError::Frame => words(
            "the other side",
            "sends something that is no frame of a session",
            "see that one side is census sync, and the other census serve or census hub",
        ),
        SyncError::Order => words(
            "the other side",
            "sends a frame that is not due",
            "see that one side is census sync, and the other census serve or census hub",
        ),
        SyncError::Clock => words(
            "the other side",
            "sends a damaged clock",
            "what came before it is saved; see that census runs there",
        ),
        SyncError::Delta => words(
            "the other side",
            "sends damaged operations",
            "what came before them is saved; see that census runs there",
        ),
        SyncError::OutOfMemory => MEMORY,
        SyncError::Failed => words(
            "the other side",
            "had failed before",
            "what came before is saved; run the command again",
        ),
        SyncError::Cut => words(
            "the other side",
            "closed the connection before the session was done",
            "what came is saved; run the command again, and see what the other side says",
        ),
        SyncError::Read => words(
            "the session",
            "ended early, as nothing more could be read of the other side",
            "what came is saved; run the command again, with a longer --patience where the other side is slow",
        ),
        SyncError::Write => words(
            "the session",
            "ended early, as nothing more could be written to the other side",
            "what came is saved; run the command again",
        ),
        SyncError::Turns => words(
            "the other side",
            "sent so little at a time that over 1000000 reads were needed",
            "what came is saved; run the command again",
        ),
    }
}
