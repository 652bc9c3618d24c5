//! Who is told how far a command is.

use crate::answers::{bytes, check, held};
use census_core::{Form, NoKeeper, Progress, Request, perform_kept, search};
use oct_code::Code;
use std::alloc::AllocGlobal;
use std::process::Abort;
use worked::EMPTY_STATE;

/// The code of a game, how many of its values are known, and how many are wanted.
#[derive(Clone, Copy)]
struct Tale {
    code: &'static str,
    known: u64,
    wanted: u64,
}

/// What is told of two games of which 1,030 values are wanted, where those of heap 0 are known: once before each block.
const TOLD: &[Tale] = &[
    Tale {
        code: "0.137",
        known: 1,
        wanted: 1_030,
    },
    Tale {
        code: "0.137",
        known: 1_025,
        wanted: 1_030,
    },
    Tale {
        code: "0.77",
        known: 1,
        wanted: 1_030,
    },
    Tale {
        code: "0.77",
        known: 1_025,
        wanted: 1_030,
    },
];

/// Expects to be told this, and notes whether something else came.
#[derive(Clone, Copy)]
struct Listener {
    expected: &'static [Tale],
    is_right: bool,
}

impl Progress for Listener {
    fn tell(&mut self, code: Code, known: u64, wanted: u64) {
        match self.expected {
            [tale, rest @ ..] if is_told(*tale, code, known, wanted) => self.expected = rest,
            _ => self.is_right = false,
        }
    }
}

// This is what is told.
fn is_told(tale: Tale, code: Code, known: u64, wanted: u64) -> bool {
    let is_of = Code::parse(tale.code.as_bytes()) == Ok(code);
    is_of && tale.known == known && tale.wanted == wanted
}

// The request for the values of both games.
fn both_extended(rt: &(impl Abort + AllocGlobal)) -> Request {
    let both = [held(rt, b"0.137"), held(rt, b"0.77")];
    let codes = Vec::from_array(rt.alloc(), both).ok();
    Request::Extend {
        count: 1_030,
        codes: codes.expect(rt, "memory"),
    }
}

#[test]
fn each_block_is_told_before(rt: HostRuntime) {
    let request = both_extended(&rt);
    let state = bytes(&rt, EMPTY_STATE);
    let mut listener = Listener {
        expected: TOLD,
        is_right: true,
    };
    let reply = perform_kept(
        rt.alloc(),
        &request,
        &state,
        b"",
        &mut listener,
        &mut NoKeeper,
    );
    check(&rt, reply.is_ok(), "refused");
    check(&rt, listener.is_right, "something else is told");
    check(&rt, listener.expected.is_empty(), "less is told");
}

#[test]
fn a_search_is_told(rt: HostRuntime) {
    let code = Code::parse(b"0.77").ok().expect(&rt, "a code");
    let mut listener = Listener {
        expected: &[Tale {
            code: "0.77",
            known: 0,
            wanted: 5,
        }],
        is_right: true,
    };
    let line = search(rt.alloc(), code, 5, &[], Form::Lines, &mut listener);
    check(&rt, line.is_ok(), "refused");
    check(&rt, listener.is_right, "something else is told");
    check(&rt, listener.expected.is_empty(), "less is told");
}
