//! Commands, each on the state that another one left.

use crate::answers::{bytes, check, check_equal, held};
use census_core::{Fault, ImportError, Reply, Request, digest, number, perform};
use oct_bfile::BfileError;
use oct_code::CodeError;
use oct_ops::PeriodError;
use oct_replica::{ComputeError, LoadError, RemovalError, TakeError};
use oct_text::{Form, Shown};
use std::process::Abort;
use worked::{
    COMPUTED, CUT_STATE, EARLY, EMPTY_STATE, FIRST, FIRST_STATE, FORKED_SHOWN, LAST, LATER, ONE,
    REMOVAL, SECOND_PAGE, TWO, long_claimed, many_blocks, many_notes,
};

/// What is asked of a state, with the file that a command reads or should write, where a delta is a hexadecimal text. A claim
/// has the period 1, and a note the name a.
#[derive(Clone, Copy)]
enum Ask<'a> {
    Init(u32),
    Renumber(u32),
    Import(&'a [u8]),
    Claim(&'a str, &'a [u8]),
    Compute(&'a str, u32),
    Period(&'a str, u32),
    Note(&'a str),
    Unnote(&'a str),
    Merge(&'a str),
    Delta(&'a str),
    Value(&'a str, &'a [u64]),
    Page(u32),
    Show,
    Bfile(&'a str),
    Plot(&'a str),
    Json,
    Report,
}

impl Ask<'_> {
    fn name(self) -> &'static str {
        match self {
            Ask::Init(_) => "init",
            Ask::Renumber(_) => "renumber",
            Ask::Import(_) => "import",
            Ask::Claim(..) => "claim",
            Ask::Compute(..) => "compute",
            Ask::Period(..) => "period",
            Ask::Note(_) => "note",
            Ask::Unnote(_) => "unnote",
            Ask::Merge(_) => "merge",
            Ask::Delta(_) => "delta",
            Ask::Value(..) => "value",
            Ask::Page(_) => "page",
            Ask::Show => "show",
            Ask::Bfile(_) => "bfile",
            Ask::Plot(_) => "plot",
            Ask::Json => "json",
            Ask::Report => "report",
        }
    }
}

/// A command, and the text that it prints or the fault that refuses it.
type Step<'a> = (Ask<'a>, Result<&'a str, Fault>);

/// A state, the commands that are given on it one after the other, and the state in the end, where it is told.
#[derive(Clone, Copy)]
struct Script<'a> {
    start: &'a str,
    steps: &'a [Step<'a>],
    end: Option<&'a str>,
}

/// FIRST but for its last byte.
const CUT_FIRST: &str = "\
4f474431 00000001
00000001 00000001 01 00020707 00000000 0005 00000000 00000001 00000002 00000003 000000";

/// The state of author 7 with EARLY, LATER and REMOVAL, and with the removal 7.1 of the note 1.2 alone.
const REMOVED_STATE: &str = "\
4f475331 00000007 4f474431 00000004
00000001 00000001 03 06 6b61796c6573 05 6561726c79
00000001 00000002 03 06 6b61796c6573 05 6c61746572
00000002 00000001 04 0001 00000001 00000001
00000007 00000001 04 0001 00000001 00000002";

/// A block of Dawson's Kayles.
const DAWSON: &[u8] = br#"{"code":"0.07","start":0,"values":[0,0,1,1,2,0,3]}"#;

const IMPORTED: &str = "\
census 2
game 0.07 known 7
values 0 0 0 1 1 2 0 3
block 7.1 at 0 count 7 proved
author 7 through 1 last 1
end
";

const REMOVED: &str = "\
census 2
author 1 through 2 last 2
author 2 through 1 last 1
author 7 through 1 last 1
end
";

// The command, with its words in memory.
fn request_of(rt: &(impl Abort + AllocGlobal), ask: Ask) -> Request {
    match ask {
        Ask::Init(id) => Request::Init { id },
        Ask::Renumber(id) => Request::Renumber { id },
        Ask::Import(_) => Request::Import,
        Ask::Note(text) => Request::Note {
            name: held(rt, b"a"),
            text: held(rt, text.as_bytes()),
        },
        Ask::Unnote(name) => Request::Unnote {
            name: held(rt, name.as_bytes()),
        },
        Ask::Merge(_) => Request::Merge,
        Ask::Delta(_) => Request::Delta,
        Ask::Page(number) => Request::Page { number },
        Ask::Show => Request::Show,
        Ask::Json => Request::Json,
        Ask::Report => Request::Report {
            shown: Shown::Brief,
        },
        _ => request_of_game(rt, ask),
    }
}

// The same of a command on one game.
fn request_of_game(rt: &(impl Abort + AllocGlobal), ask: Ask) -> Request {
    match ask {
        Ask::Claim(code, _) => Request::Claim {
            code: held(rt, code.as_bytes()),
        },
        Ask::Compute(code, count) => Request::Compute {
            code: held(rt, code.as_bytes()),
            count,
        },
        Ask::Period(code, start) => Request::Period {
            code: held(rt, code.as_bytes()),
            e: start,
            p: 1,
        },
        Ask::Value(code, heaps) => {
            let heaps = Vec::from_slice(rt.alloc(), heaps).ok();
            Request::Value {
                code: held(rt, code.as_bytes()),
                heaps: heaps.expect(rt, "memory"),
                form: Form::Lines,
            }
        }
        Ask::Bfile(code) => Request::Bfile {
            code: held(rt, code.as_bytes()),
        },
        Ask::Plot(code) => Request::Plot {
            code: held(rt, code.as_bytes()),
        },
        _ => panic!(rt; "{} is on no game", ask.name()),
    }
}

// The reply is the answer, with the file that is wanted. Where it has a state, that becomes the state.
fn is_reply(
    rt: &(impl Abort + AllocGlobal),
    reply: Reply,
    state: &mut Vec<u8>,
    wanted: Option<&[u8]>,
    answer: Result<&str, Fault>,
    ask: Ask,
) {
    let Reply {
        state: new,
        file,
        text: told,
    } = reply;
    if let Some(new) = new {
        *state = new;
    }
    check(
        rt,
        file.as_deref() == wanted,
        format_args!("{} gives the file {file:?}", ask.name()),
    );
    let told = str::from_utf8(&told).ok().expect(rt, "a text");
    check_equal(rt, Ok(told), answer, ask.name());
}

// The files of a command: the bytes that it reads, and those that it should write.
fn files_of(rt: &(impl Abort + AllocGlobal), ask: Ask) -> (Vec<u8>, Option<Vec<u8>>) {
    match ask {
        Ask::Import(file) | Ask::Claim(_, file) => (held(rt, file), None),
        Ask::Merge(text) => (bytes(rt, text), None),
        Ask::Delta(text) => (bytes(rt, ""), Some(bytes(rt, text))),
        _ => (bytes(rt, ""), None),
    }
}

// The command is answered so. Where it writes a state, that becomes the state.
fn answers(
    rt: &(impl Abort + AllocGlobal),
    state: &mut Vec<u8>,
    ask: Ask,
    answer: Result<&str, Fault>,
) {
    let request = request_of(rt, ask);
    let (read, wanted) = files_of(rt, ask);
    match perform(rt.alloc(), &request, state, &read) {
        Ok(reply) => is_reply(rt, reply, state, wanted.as_deref(), answer, ask),
        Err(fault) => check_equal(rt, Err(fault), answer, ask.name()),
    }
}

// Each command is answered so.
fn answer_all(rt: &(impl Abort + AllocGlobal), state: &mut Vec<u8>, steps: &[Step]) {
    for &(ask, answer) in steps {
        answers(rt, state, ask, answer);
    }
}

// The commands of the script are answered so, and leave the state that is told.
fn follows(rt: &(impl Abort + AllocGlobal), script: Script) {
    let Script { start, steps, end } = script;
    let mut state = bytes(rt, start);
    answer_all(rt, &mut state, steps);
    if let Some(end) = end {
        check_equal(
            rt,
            state.as_slice(),
            bytes(rt, end).as_slice(),
            format_args!("the state of {end} after {} steps", steps.len()),
        );
    }
}

// A delta is merged into the state of author 7, and the commands are answered so then.
fn follow_delta(rt: &(impl Abort + AllocGlobal), delta: &[u8], merged: &str, steps: &[Step]) {
    let mut state = bytes(rt, EMPTY_STATE);
    let reply = perform(rt.alloc(), &Request::Merge, &state, delta);
    let reply = reply.expect(rt, merged);
    is_reply(rt, reply, &mut state, None, Ok(merged), Ask::Merge(".."));
    answer_all(rt, &mut state, steps);
}

const STATES: &[Script<'static>] = &[
    // A state of author 7 is made, and none of author 0; what is no state is refused.
    Script {
        start: "",
        steps: &[(Ask::Init(7), Ok("author 7\n"))],
        end: Some(EMPTY_STATE),
    },
    Script {
        start: "",
        steps: &[(Ask::Init(0), Err(Fault::Zero))],
        end: None,
    },
    Script {
        start: "",
        steps: &[(Ask::Show, Err(Fault::Load(LoadError::Version)))],
        end: None,
    },
    Script {
        start: FIRST,
        steps: &[(Ask::Show, Err(Fault::Load(LoadError::Version)))],
        end: None,
    },
    Script {
        start: CUT_STATE,
        steps: &[(Ask::Show, Err(Fault::Load(LoadError::Refused)))],
        end: None,
    },
    // A state goes on under a number of which it holds nothing, and under no other.
    Script {
        start: FIRST_STATE,
        steps: &[
            (Ask::Renumber(0), Err(Fault::Zero)),
            (Ask::Renumber(1), Err(Fault::Held)),
            (Ask::Renumber(8), Ok("author 7 renumbered 8\n")),
            (Ask::Note("one"), Ok("issued 8.1\n")),
            (Ask::Renumber(8), Err(Fault::Held)),
            (Ask::Renumber(7), Ok("author 8 renumbered 7\n")),
        ],
        end: None,
    },
    Script {
        start: CUT_STATE,
        steps: &[
            (Ask::Renumber(0), Err(Fault::Zero)),
            (Ask::Renumber(8), Err(Fault::Load(LoadError::Refused))),
        ],
        end: Some(CUT_STATE),
    },
    // FIRST is merged once, and what is no delta is refused.
    Script {
        start: EMPTY_STATE,
        steps: &[(Ask::Merge(FIRST), Ok("new 1\n"))],
        end: Some(FIRST_STATE),
    },
    Script {
        start: FIRST_STATE,
        steps: &[
            (Ask::Merge(FIRST), Ok("new 0\n")),
            (Ask::Delta(FIRST), Ok("operations 1\n")),
            (
                Ask::Merge(EMPTY_STATE),
                Err(Fault::Merge(TakeError::Version)),
            ),
            (Ask::Merge(CUT_FIRST), Err(Fault::Merge(TakeError::Refused))),
        ],
        end: Some(FIRST_STATE),
    },
    // Positions of Kayles have the values that FIRST tells.
    Script {
        start: FIRST_STATE,
        steps: &[
            (
                Ask::Value("0.77", &[1, 2, 3]),
                Ok("value 0\nnext player loses\n"),
            ),
            (
                Ask::Value("0.77", &[1, 2]),
                Ok("value 3\nnext player wins\n"),
            ),
            (Ask::Value("0.77", &[5]), Ok("unknown at 0\n")),
            (Ask::Value("0.77", &[]), Ok("value 0\nnext player loses\n")),
        ],
        end: None,
    },
];

const ISSUES: &[Script<'static>] = &[
    // A file that is no block is refused, and a block is imported.
    Script {
        start: EMPTY_STATE,
        steps: REFUSED_FILES,
        end: Some(EMPTY_STATE),
    },
    Script {
        start: EMPTY_STATE,
        steps: &[
            (Ask::Import(DAWSON), Ok("issued 7.1\n")),
            (Ask::Show, Ok(IMPORTED)),
        ],
        end: None,
    },
    // Values are computed, neither none nor too many.
    Script {
        start: EMPTY_STATE,
        steps: &[
            (
                Ask::Compute("0.137", 0),
                Err(Fault::Compute(ComputeError::Zero)),
            ),
            (
                Ask::Compute("0.137", 1_025),
                Err(Fault::Compute(ComputeError::TooMany)),
            ),
            (Ask::Compute("0.137", 5), Ok("issued 7.1\n")),
            (Ask::Show, Ok(COMPUTED)),
        ],
        end: None,
    },
    // One claim is issued, and others are refused.
    Script {
        start: EMPTY_STATE,
        steps: &[
            (Ask::Period(".3", 4_097), Ok("issued 7.1\n")),
            (
                Ask::Period("0.3", 65_537),
                Err(Fault::Period(PeriodError::PastLimit)),
            ),
            (Ask::Period("0.3", 0), Err(Fault::Period(PeriodError::Zero))),
            (Ask::Period("0.8", 0), Err(Fault::Code(CodeError::Digit))),
        ],
        end: None,
    },
];

/// A b-file of Kayles, with a comment, blanks and each end of a line.
const KAYLES: &[u8] = b"# Kayles\r\n\r 1\t1 \n2 2\r3   3\n4 1";

const CLAIMED_JSON: &str =
    "{\"authors\":[{\"author\":7,\"last\":1,\"through\":1}],\"census\":2,\"forks\":[],\"games\":[{\"blocks\":[{\"author\":7,\"count\":4,\"number\":1,\"start\":1,\"status\":\"proved\"}],\"code\":\"0.77\",\"known\":5,\"least_period\":null,\"periods\":[],\"values\":[0,1,2,3,1]}],\"notes\":[]}\n";

const VIEWS: &[Script<'static>] = &[
    // A b-file is claimed, and shown in other forms; so is a game of which nothing is claimed.
    Script {
        start: EMPTY_STATE,
        steps: &[
            (Ask::Claim("0.77", KAYLES), Ok("issued 7.1\n")),
            (Ask::Bfile("0.77"), Ok("0 0\n1 1\n2 2\n3 3\n4 1\n")),
            (Ask::Bfile("0.6"), Ok("0 0\n")),
            (Ask::Json, Ok(CLAIMED_JSON)),
            (Ask::Bfile("0.8"), Err(Fault::Code(CodeError::Digit))),
            (Ask::Plot("0.8"), Err(Fault::Code(CodeError::Digit))),
        ],
        end: None,
    },
    // What is no b-file is refused by its line, after the state and the code.
    Script {
        start: EMPTY_STATE,
        steps: &[
            (Ask::Claim("0.8", b"1"), Err(Fault::Code(CodeError::Digit))),
            (
                Ask::Claim("0.77", b"0 0\r\n1 1 1\n"),
                Err(Fault::Bfile(BfileError::Form { line: 2 })),
            ),
            (
                Ask::Claim("0.77", b"0 +1"),
                Err(Fault::Bfile(BfileError::Form { line: 1 })),
            ),
            (
                Ask::Claim("0.77", b"0 4294967296"),
                Err(Fault::Bfile(BfileError::Form { line: 1 })),
            ),
            (
                Ask::Claim("0.77", b"# a\n\n0 0\n0 0\n"),
                Err(Fault::Bfile(BfileError::Order { line: 4 })),
            ),
            (
                Ask::Claim("0.77", b"65535 1\r65536 1\r"),
                Err(Fault::Bfile(BfileError::PastLimit { line: 2 })),
            ),
            (
                Ask::Claim("0.77", b" \n# 0 0"),
                Err(Fault::Bfile(BfileError::Empty)),
            ),
        ],
        end: Some(EMPTY_STATE),
    },
    Script {
        start: CUT_STATE,
        steps: &[
            (Ask::Json, Err(Fault::Load(LoadError::Refused))),
            (Ask::Report, Err(Fault::Load(LoadError::Refused))),
            (Ask::Claim("0.8", b""), Err(Fault::Load(LoadError::Refused))),
        ],
        end: None,
    },
];

const NOTES: &[Script<'static>] = &[
    // The live note is removed.
    Script {
        start: EMPTY_STATE,
        steps: &[
            (Ask::Merge(EARLY), Ok("new 1\n")),
            (Ask::Merge(LATER), Ok("new 1\n")),
            (Ask::Merge(REMOVAL), Ok("new 1\n")),
            (
                Ask::Unnote("dawson"),
                Err(Fault::Removal(RemovalError::NoNote)),
            ),
            (Ask::Unnote("kayles"), Ok("issued 7.1\n")),
            (Ask::Show, Ok(REMOVED)),
        ],
        end: Some(REMOVED_STATE),
    },
    // Two notes from the same state make a fork where author 1 merges them, in both orders.
    Script {
        start: EMPTY_STATE,
        steps: &[
            (Ask::Note("one"), Ok("issued 7.1\n")),
            (Ask::Delta(ONE), Ok("operations 1\n")),
        ],
        end: None,
    },
    Script {
        start: EMPTY_STATE,
        steps: &[
            (Ask::Note("two"), Ok("issued 7.1\n")),
            (Ask::Delta(TWO), Ok("operations 1\n")),
        ],
        end: None,
    },
    Script {
        start: "",
        steps: &[
            (Ask::Init(1), Ok("author 1\n")),
            (Ask::Merge(ONE), Ok("new 1\n")),
            (Ask::Merge(TWO), Ok("new 1\n")),
            (Ask::Show, Ok(FORKED_SHOWN)),
        ],
        end: None,
    },
    Script {
        start: "",
        steps: &[
            (Ask::Init(1), Ok("author 1\n")),
            (Ask::Merge(TWO), Ok("new 1\n")),
            (Ask::Merge(ONE), Ok("new 1\n")),
            (Ask::Show, Ok(FORKED_SHOWN)),
        ],
        end: None,
    },
];

const REFUSED_FILES: &[Step<'static>] = &[
    (
        Ask::Import(br#"{"code":"0.07","values":[0]}"#),
        Err(Fault::Import(ImportError::Shape)),
    ),
    (
        Ask::Import(br#"{"code":7,"start":0,"values":[]}"#),
        Err(Fault::Import(ImportError::Code)),
    ),
    (
        Ask::Import(br#"{"code":".7","start":-1,"values":[]}"#),
        Err(Fault::Import(ImportError::Start)),
    ),
    (
        Ask::Import(br#"{"code":".7","start":0,"values":[]}"#),
        Err(Fault::Import(ImportError::Empty)),
    ),
    (Ask::Import(b"{"), Err(Fault::Json)),
    (Ask::Import(b"\"\xff\""), Err(Fault::Json)),
    (Ask::Import(b""), Err(Fault::Json)),
];

#[test]
fn commands_follow_each_other(rt: HostRuntime) {
    for scripts in [STATES, ISSUES, NOTES, VIEWS] {
        for &script in scripts {
            follows(&rt, script);
        }
    }
}

/// What `sha256sum` prints of FIRST.
const FIRST_DIGEST: &str = "7176004b6d2783c37b83e3f13ea0292d58b30b808636d686af833df5298103c6";

// Files, and the digest or the fault of each.
const DIGESTS: &[(&str, Result<&str, Fault>)] = &[
    (FIRST, Ok(FIRST_DIGEST)),
    (FIRST_STATE, Ok(FIRST_DIGEST)),
    (CUT_STATE, Err(Fault::Load(LoadError::Refused))),
    (CUT_FIRST, Err(Fault::Merge(TakeError::Refused))),
    ("", Err(Fault::Merge(TakeError::Version))),
];

#[test]
fn digests_are_of_operations(rt: HostRuntime) {
    for &(file, wanted) in DIGESTS {
        match digest(rt.alloc(), &bytes(&rt, file)) {
            Ok(digits) => {
                let digits = str::from_utf8(&digits).ok().expect(&rt, file);
                check_equal(&rt, Ok(digits), wanted, file);
            }
            Err(fault) => check_equal(&rt, Err(fault), wanted, file),
        }
    }
}

// The text that the request prints of the state begins so.
fn begins(rt: &(impl Abort + AllocGlobal), state: &[u8], request: &Request, front: &str) {
    let reply = perform(rt.alloc(), request, state, b"").expect(rt, front);
    let text = str::from_utf8(&reply.text).ok().expect(rt, front);
    check(
        rt,
        text.starts_with(front),
        format_args!("{text} in place of {front}"),
    );
}

#[test]
fn pictures_and_pages_are_printed(rt: HostRuntime) {
    let code = held(&rt, b"0.77");
    let state = bytes(&rt, FIRST_STATE);
    begins(&rt, &state, &Request::Plot { code }, "<svg ");
    let shown = Shown::All;
    begins(&rt, &state, &Request::Report { shown }, "<!DOCTYPE html>");
}

// What is shown of the second page of many blocks; of none after it, and after the one of many notes.
const BLOCK_PAGE: &str = "\
block 3.62 at 0 count 1 proved
block 3.63 at 0 count 1 proved
block 3.64 at 0 count 1 proved
block 3.65 at 0 count 1 proved
block 3.66 at 0 count 1 proved
block 3.67 at 0 count 1 proved
block 3.68 at 0 count 1 proved
block 3.69 at 0 count 1 proved
block 3.70 at 0 count 1 proved
author 3 through 70 last 70
end
";

const NOTE_PAGES: &[Step<'static>] = &[
    (Ask::Page(1), Ok(SECOND_PAGE)),
    (Ask::Page(2), Err(Fault::NoPage)),
];

const BLOCK_PAGES: &[Step<'static>] = &[
    (Ask::Page(1), Ok(BLOCK_PAGE)),
    (Ask::Page(2), Err(Fault::NoPage)),
];

#[test]
fn pages_are_shown(rt: HostRuntime) {
    let notes = many_notes(rt.alloc()).expect(&rt, "memory");
    follow_delta(&rt, &notes, "new 70\n", NOTE_PAGES);
    let blocks = many_blocks(rt.alloc()).expect(&rt, "memory");
    follow_delta(&rt, &blocks, "new 70\n", BLOCK_PAGES);
}

// The claim gives values once its last value is there, and not before.
const CLAIMED: &[Step<'static>] = &[
    (
        Ask::Value("0.77", &[5, 1_000_000_000]),
        Ok("unknown at 1\n"),
    ),
    (Ask::Merge(LAST), Ok("new 1\n")),
    (
        Ask::Value("0.77", &[1_000_000_000]),
        Ok("value 1\nnext player wins\n"),
    ),
    (
        Ask::Value("0.77", &[5, 6]),
        Ok("value 7\nnext player wins\n"),
    ),
    (Ask::Value("0.77", &[]), Ok("value 0\nnext player loses\n")),
    (Ask::Value("0.77", &[0]), Ok("value 0\nnext player loses\n")),
    (Ask::Value("0.07", &[1]), Ok("unknown at 0\n")),
];

#[test]
fn claims_give_values(rt: HostRuntime) {
    let claimed = long_claimed(rt.alloc()).expect(&rt, "memory");
    follow_delta(&rt, &claimed, "new 3\n", CLAIMED);
}

#[test]
fn words_are_numbers(rt: HostRuntime) {
    let most = 4_294_967_295;
    check_equal(&rt, number("007", most), Some(7), "007");
    for word in ["", "+1", "4294967296", "1 ", "0x1"] {
        check_equal(&rt, number(word, most), None, format_args!("{word:?}"));
    }
}
