//! What a session leaves of the state that a file has.

use crate::answers::{bytes, check, check_equal, is_text};
use census_core::{Fault, Reply, rejoin, rejoined_text, write_state};
use oct_ops::Dot;
use oct_record::Record;
use oct_replica::LoadError;
use std::process::Abort;
use worked::{CUT_STATE, EMPTY_STATE, FIRST_STATE};

/// The state of author 8 without operations.
const OTHER_STATE: &str = "4f475331 00000008 4f474431 00000000";

/// A state file, the state that a session holds, and what it leaves.
#[derive(Clone, Copy)]
struct Union<'a> {
    file: &'a str,
    held: &'a str,
    left: Result<Left<'a>, Fault>,
}

/// What is printed after a session, and the state that is saved.
#[derive(Clone, Copy)]
struct Left<'a> {
    text: &'a str,
    state: &'a str,
}

const UNIONS: &[Union<'static>] = &[
    Union {
        file: EMPTY_STATE,
        held: FIRST_STATE,
        left: Ok(Left {
            text: "new 1 operations 1\n",
            state: FIRST_STATE,
        }),
    },
    Union {
        file: FIRST_STATE,
        held: EMPTY_STATE,
        left: Ok(Left {
            text: "new 0 operations 1\n",
            state: FIRST_STATE,
        }),
    },
    Union {
        file: FIRST_STATE,
        held: OTHER_STATE,
        left: Err(Fault::Author),
    },
    Union {
        file: CUT_STATE,
        held: OTHER_STATE,
        left: Err(Fault::Load(LoadError::Refused)),
    },
    Union {
        file: "",
        held: EMPTY_STATE,
        left: Err(Fault::Load(LoadError::Version)),
    },
];

// The reply is this state and this text.
fn is_union(rt: &(impl Abort + AllocGlobal), reply: &Reply, text: &str, state: &str) {
    is_text(rt, &reply.text, text, "the text");
    let wanted = bytes(rt, state);
    check(
        rt,
        reply.state.as_deref() == Some(&wanted[..]),
        format_args!("not {state}: {:?}", reply.state),
    );
}

// A session leaves what is told.
fn leaves(rt: &(impl Abort + AllocGlobal), union: Union) {
    let Union { file, held, left } = union;
    let loaded = Record::load(rt.alloc(), &bytes(rt, held));
    let loaded = loaded.ok().expect(rt, held);
    match rejoin(rt.alloc(), &bytes(rt, file), &loaded) {
        Ok(rejoined) => {
            let Left { text, state } = left.expect(rt, file);
            is_union(rt, &rejoined.reply, text, state);
        }
        Err(fault) => check_equal(rt, Some(fault), left.err(), file),
    }
}

#[test]
fn sessions_leave_the_union(rt: HostRuntime) {
    for &union in UNIONS {
        leaves(&rt, union);
    }
}

/// The state of author 7 with ONE.
const ONE_STATE: &str = "\
4f475331 00000007 4f474431 00000001
00000007 00000001 03 01 61 03 6f6e65";

/// The text of a state file, what is held, and the number of the least operation by the author, 7, that is held and that the
/// file has not.
#[derive(Clone, Copy)]
struct Twice {
    file: &'static str,
    held: &'static str,
    foreign: Option<u32>,
}

const TWICE: &[Twice] = &[
    Twice {
        file: EMPTY_STATE,
        held: ONE_STATE,
        foreign: Some(1),
    },
    Twice {
        file: ONE_STATE,
        held: EMPTY_STATE,
        foreign: None,
    },
    Twice {
        file: ONE_STATE,
        held: ONE_STATE,
        foreign: None,
    },
    Twice {
        file: EMPTY_STATE,
        held: FIRST_STATE,
        foreign: None,
    },
];

#[test]
fn a_number_that_two_use_is_seen(rt: HostRuntime) {
    for &Twice {
        file,
        held,
        foreign,
    } in TWICE {
        let loaded = Record::load(rt.alloc(), &bytes(&rt, held));
        let loaded = loaded.ok().expect(&rt, held);
        let rejoined = rejoin(rt.alloc(), &bytes(&rt, file), &loaded);
        let found = rejoined.ok().expect(&rt, file).foreign;
        let found = found.map(|dot: Dot| (dot.author(), dot.number()));
        let wanted = foreign.map(|number| (7, number));
        check_equal(&rt, found, wanted, format_args!("{file} with {held}"));
    }
}

#[test]
fn what_grew_is_written_as_it_is_held(rt: HostRuntime) {
    let loaded = Record::load(rt.alloc(), &bytes(&rt, ONE_STATE));
    let loaded = loaded.ok().expect(&rt, ONE_STATE);
    let text = rejoined_text(rt.alloc(), 0, &loaded);
    is_text(
        &rt,
        &text.ok().expect(&rt, ONE_STATE),
        "new 1 operations 1\n",
        "the text",
    );
    let mut state = Vec::new(rt.alloc());
    let written = write_state(&loaded, &mut state);
    written.ok().expect(&rt, ONE_STATE);
    check(
        &rt,
        state == bytes(&rt, ONE_STATE),
        format_args!("not {ONE_STATE}: {state:?}"),
    );
}
