//! Sessions over bytes in memory; `deltas` has those to which a delta of several operations comes, `driven` those over a
//! reader and a writer.

mod deltas;
mod driven;

use crate::answers::{bytes, check, check_equal};
use crate::frames::{Frame, frame_bytes};
use crate::replica::{new_replica, shows};
use metered::Metered;
use oct_replica::Replica;
use oct_sync::{MAX_READS, Progress, Role, Session, SyncError, converse, drive};
use std::alloc::{Allocator, Global};
use std::process::Abort;
use worked::{
    BOTH, BOTH_SHOWN, FIRST, FORKED_SHOWN, NEXT, NEXT_SHOWN, NONE_SHOWN, NOTHING, NOTHING_NEW, ONE,
    ONE_AND_TWO, TWO,
};

/// One side of an exchange: what it holds at first, what comes to it, what it sends, how many bytes of that before its last
/// answer, and its catalogue in the end.
#[derive(Drop)]
struct Side {
    name: &'static str,
    role: Role,
    author: u32,
    holds: Vec<u8>,
    comes: Vec<u8>,
    sends: Vec<u8>,
    first: usize,
    shows: &'static str,
}

impl Side {
    // The client with Kayles from heap 5 on, by author 2.
    fn client(rt: &(impl Abort + AllocGlobal)) -> Side {
        Side {
            name: "the client",
            role: Role::Client,
            author: 2,
            holds: bytes(rt, NEXT),
            comes: frame_bytes(
                rt,
                &[
                    Frame::Clock(&[(1, 1)]),
                    Frame::Delta(FIRST),
                    Frame::End,
                    Frame::End,
                ],
            ),
            sends: frame_bytes(
                rt,
                &[Frame::Clock(&[(2, 1)]), Frame::Delta(NEXT), Frame::End],
            ),
            first: 17,
            shows: BOTH_SHOWN,
        }
    }

    // The same client, which sends all.
    fn client_of_all(rt: &(impl Abort + AllocGlobal)) -> Side {
        let mut side = Side::client(rt);
        side.name = "the client that sends all";
        side.role = Role::ClientOfAll;
        side.sends = frame_bytes(rt, &[Frame::Clock(&[]), Frame::Delta(BOTH), Frame::End]);
        side.first = 9;
        side
    }

    // The same client, which gives: to the server it is no other, and it takes nothing in.
    fn giver(rt: &(impl Abort + AllocGlobal)) -> Side {
        let mut side = Side::client(rt);
        side.name = "the giver";
        side.role = Role::Giver;
        side.shows = NEXT_SHOWN;
        side
    }

    // The server with Kayles from heap 0 on, by author 1, to which comes what the client sends.
    fn server(rt: &(impl Abort + AllocGlobal)) -> Side {
        let client = Side::client(rt);
        Side {
            name: "the server",
            role: Role::Server,
            author: 1,
            holds: bytes(rt, FIRST),
            comes: client.sends,
            sends: client.comes,
            first: 74,
            shows: BOTH_SHOWN,
        }
    }

    fn of(rt: &(impl Abort + AllocGlobal), role: Role) -> Side {
        match role {
            Role::Client => Side::client(rt),
            Role::ClientOfAll => Side::client_of_all(rt),
            Role::Giver => Side::giver(rt),
            Role::Server => Side::server(rt),
        }
    }

    // This side with other operations, another exchange and another catalogue.
    fn with(
        mut self,
        name: &'static str,
        holds: Vec<u8>,
        frames: [Vec<u8>; 2],
        shows: &'static str,
    ) -> Side {
        let [comes, sends] = frames;
        self.name = name;
        self.holds = holds;
        self.comes = comes;
        self.sends = sends;
        self.shows = shows;
        self
    }
}

// What a client and a server send where neither holds an operation.
const OF_EMPTY_CLIENT: &[Frame<'static>] = &[Frame::Clock(&[]), Frame::End];

const OF_EMPTY_SERVER: &[Frame<'static>] = &[Frame::Clock(&[]), Frame::End, Frame::End];

// A side of that exchange.
fn empty_side(rt: &(impl Abort + AllocGlobal), role: Role) -> Side {
    let of_client = frame_bytes(rt, OF_EMPTY_CLIENT);
    let of_server = frame_bytes(rt, OF_EMPTY_SERVER);
    let (name, frames) = match role {
        Role::Client => ("the empty client", [of_server, of_client]),
        Role::ClientOfAll => ("the empty client of all", [of_server, of_client]),
        Role::Giver => ("the empty giver", [of_server, of_client]),
        Role::Server => ("the empty server", [of_client, of_server]),
    };
    Side::of(rt, role).with(name, bytes(rt, NOTHING), frames, NONE_SHOWN)
}

// A client that gets an empty delta of the new format.
fn given_none(rt: &(impl Abort + AllocGlobal)) -> Side {
    let comes = [
        Frame::Clock(&[]),
        Frame::Delta(NOTHING_NEW),
        Frame::End,
        Frame::End,
    ];
    let sends = [Frame::Clock(&[(2, 1)]), Frame::Delta(NEXT), Frame::End];
    let frames = [frame_bytes(rt, &comes), frame_bytes(rt, &sends)];
    Side::client(rt).with(
        "a client that gets none",
        bytes(rt, NEXT),
        frames,
        NEXT_SHOWN,
    )
}

// A giver to which comes what the clock before it does not cover. It sends none of it back.
fn given_uncovered(rt: &(impl Abort + AllocGlobal)) -> Side {
    let comes = [
        Frame::Clock(&[]),
        Frame::Delta(FIRST),
        Frame::End,
        Frame::End,
    ];
    let sends = [Frame::Clock(&[(2, 1)]), Frame::Delta(NEXT), Frame::End];
    let frames = [frame_bytes(rt, &comes), frame_bytes(rt, &sends)];
    Side::giver(rt).with(
        "a giver that gets what no clock covers",
        bytes(rt, NEXT),
        frames,
        NEXT_SHOWN,
    )
}

// Blocks of Kayles at the old limit and past it, and each of them alone.
const AT_LIMIT: &str = "\
4f474432 00000002
00000001 00000001 01 00020707 00000fff 0001 00000000
00000001 00000002 01 00020707 00001000 0001 00000000";

const OLD_LIMIT: &str = "\
4f474431 00000001
00000001 00000001 01 00020707 00000fff 0001 00000000";

const PAST_OLD_LIMIT: &str = "\
4f474432 00000001
00000001 00000002 01 00020707 00001000 0001 00000000";

const AT_LIMIT_SHOWN: &str =
    "census 2\ngame 0.77 known 1\nvalues 0 0\nblock 1.1 at 4095 count 1 pending\nblock 1.2 at 4096 count 1 pending\nauthor 1 through 2 last 2\nend\n";

// A server that sends both, in two frames.
fn at_limit(rt: &(impl Abort + AllocGlobal)) -> Side {
    let sends = [
        Frame::Clock(&[(1, 2)]),
        Frame::Delta(OLD_LIMIT),
        Frame::Delta(PAST_OLD_LIMIT),
        Frame::End,
        Frame::End,
    ];
    let frames = [frame_bytes(rt, OF_EMPTY_CLIENT), frame_bytes(rt, &sends)];
    Side::server(rt).with(
        "a server at the limit",
        bytes(rt, AT_LIMIT),
        frames,
        AT_LIMIT_SHOWN,
    )
}

// A client of author 7, whose note has the dot of another one that the server has, so that neither is sent.
fn forked(rt: &(impl Abort + AllocGlobal)) -> Side {
    let comes = [Frame::Clock(&[(7, 1)]), Frame::End, Frame::End];
    let sends = [Frame::Clock(&[(7, 1)]), Frame::End];
    let frames = [frame_bytes(rt, &comes), frame_bytes(rt, &sends)];
    let shows = "census 2\nnote a 7.1 one\nauthor 7 through 1 last 1\nend\n";
    let mut side = Side::client(rt).with("a client with a fork", bytes(rt, ONE), frames, shows);
    side.author = 7;
    side
}

// The two sides of that fork where the client sends all: each has its note and gets the other one.
fn joined(rt: &(impl Abort + AllocGlobal)) -> [Side; 2] {
    let of_client = [Frame::Clock(&[]), Frame::Delta(ONE_AND_TWO), Frame::End];
    let of_server = [
        Frame::Clock(&[(7, 1)]),
        Frame::Delta(TWO),
        Frame::End,
        Frame::End,
    ];
    let client = Side::client_of_all(rt).with(
        "a client that sends all of a fork",
        bytes(rt, ONE),
        [frame_bytes(rt, &of_server), frame_bytes(rt, &of_client)],
        FORKED_SHOWN,
    );
    let server = Side::server(rt).with(
        "a server to which all of a fork comes",
        bytes(rt, TWO),
        [frame_bytes(rt, &of_client), frame_bytes(rt, &of_server)],
        FORKED_SHOWN,
    );
    [client, server]
}

// A session of the role, whose first bytes are in `out`; none where memory is refused.
fn session_of<A: Allocator + Copy>(
    alloc: A,
    role: Role,
    replica: &Replica<A>,
    out: &mut Vec<u8, A>,
) -> Option<Session<A>> {
    match role {
        Role::Client => Session::client(alloc, replica, out).ok(),
        Role::ClientOfAll => Session::client_of_all(alloc, out).ok(),
        Role::Giver => Session::giver(alloc, replica, out).ok(),
        Role::Server => Some(Session::server(alloc)),
    }
}

// The name of what a session answers.
fn answer_name(answer: Result<Progress, SyncError>) -> Result<&'static str, SyncError> {
    match answer {
        Ok(Progress::More) => Ok("more"),
        Ok(Progress::Done) => Ok("done"),
        Err(fault) => Err(fault),
    }
}

// Feeds the bytes in pieces of so many, and gives the answer to the last, or the first fault.
fn feed_pieces<A: Allocator + Copy>(
    session: &mut Session<A>,
    replica: &mut Replica<A>,
    bytes: &[u8],
    size: usize,
    out: &mut Vec<u8, A>,
) -> Result<Progress, SyncError> {
    let mut answer = Ok(Progress::More);
    for piece in bytes.chunks(size.max(1)) {
        if answer.is_ok() {
            answer = session.feed(replica, piece, out);
        }
    }
    answer
}

// What comes to a session: the bytes, in pieces of so many, where so many requests for memory are granted.
#[derive(Clone, Copy)]
struct Input<'a> {
    bytes: &'a [u8],
    size: usize,
    grants: u64,
}

/// What became of a session: the answer to the last piece and to an empty one after it, and how many bytes it sent.
#[derive(Clone, Copy)]
struct Outcome {
    answer: Result<&'static str, SyncError>,
    after: Result<&'static str, SyncError>,
    sent: usize,
}

// What becomes of the session of a replica of the side; none where memory is refused before it stands. All that it sends is
// what the side sends.
fn outcome_of<A: Allocator + Copy>(
    rt: &(impl Abort + AllocGlobal),
    heap: &Metered<Global>,
    alloc: A,
    replica: &mut Replica<A>,
    side: &Side,
    input: Input,
) -> Option<Outcome> {
    let taken = replica.take(&side.holds);
    check(rt, taken.is_ok(), format_args!("{}: {taken:?}", side.name));
    let mut out = Vec::new(alloc);
    heap.arm(input.grants);
    let session = session_of(alloc, side.role, replica, &mut out);
    let Some(mut session) = session else {
        heap.arm(u64::MAX);
        return None;
    };
    let answer = feed_pieces(&mut session, replica, input.bytes, input.size, &mut out);
    heap.arm(u64::MAX);
    let after = session.feed(replica, &[], &mut out);
    let front = &side.sends[..out.len().min(side.sends.len())];
    check_equal(
        rt,
        out.as_slice(),
        front,
        format_args!("{} sends", side.name),
    );
    Some(Outcome {
        answer: answer_name(answer),
        after: answer_name(after),
        sent: out.len(),
    })
}

// The side is done where what comes to it comes in pieces of that size: it sent all and shows what it should.
fn is_done<A: Allocator + Copy>(
    rt: &(impl Abort + AllocGlobal),
    heap: &Metered<Global>,
    alloc: A,
    side: &Side,
    size: usize,
) {
    let mut replica = new_replica(rt, alloc, side.author);
    let input = Input {
        bytes: &side.comes,
        size,
        grants: u64::MAX,
    };
    let outcome = outcome_of(rt, heap, alloc, &mut replica, side, input);
    let outcome = outcome.expect(rt, side.name);
    check_equal(
        rt,
        outcome.after,
        Ok("done"),
        format_args!("{} in pieces of {size}", side.name),
    );
    check_equal(
        rt,
        outcome.sent,
        side.sends.len(),
        format_args!("{} in pieces of {size}", side.name),
    );
    shows(rt, alloc, &replica, side.shows, side.name);
}

#[test]
fn sides_exchange_what_they_lack(rt: HostRuntime) {
    let heap = Metered::new(rt.alloc());
    for role in [Role::Client, Role::ClientOfAll, Role::Giver, Role::Server] {
        for side in [Side::of(&rt, role), empty_side(&rt, role)] {
            for size in 1..=79usize {
                is_done(&rt, &heap, &heap, &side, size);
            }
        }
    }
    for side in [
        given_none(&rt),
        given_uncovered(&rt),
        at_limit(&rt),
        forked(&rt),
    ] {
        is_done(&rt, &heap, &heap, &side, usize::MAX);
    }
    for side in joined(&rt) {
        is_done(&rt, &heap, &heap, &side, usize::MAX);
    }
}

/// Frames that their receiver refuses, as hexadecimal text, and with which fault.
#[derive(Clone, Copy)]
struct Faulty {
    role: Role,
    text: &'static str,
    fault: SyncError,
}

const FAULTY: &[Faulty] = &[
    Faulty {
        role: Role::Server,
        text: "00000000",
        fault: SyncError::Frame,
    },
    Faulty {
        role: Role::Server,
        text: "00100001 01",
        fault: SyncError::Frame,
    },
    Faulty {
        role: Role::Server,
        text: "00000002 04",
        fault: SyncError::Frame,
    },
    Faulty {
        role: Role::Server,
        text: "00000002 03",
        fault: SyncError::Frame,
    },
    Faulty {
        role: Role::Server,
        text: "00000001 03",
        fault: SyncError::Order,
    },
    // A second clock, and a byte past the end.
    Faulty {
        role: Role::Client,
        text: "00000005 01 00000000 00000005 01",
        fault: SyncError::Order,
    },
    Faulty {
        role: Role::Client,
        text: "00000005 01 00000000 00000001 03 00000001 03 00",
        fault: SyncError::Order,
    },
    // The clock of author 0, and a delta of a third format.
    Faulty {
        role: Role::Server,
        text: "0000000d 01 00000001 00000000 00000001",
        fault: SyncError::Clock,
    },
    Faulty {
        role: Role::Client,
        text: "00000005 01 00000000 00000009 02 4f474433 00000000",
        fault: SyncError::Delta,
    },
    // A giver reads what it drops.
    Faulty {
        role: Role::Giver,
        text: "00000005 01 00000000 00000009 02 4f474433 00000000",
        fault: SyncError::Delta,
    },
];

// The side refuses the bytes so, and what comes then as `Failed`.
fn refuses<A: Allocator + Copy>(
    rt: &(impl Abort + AllocGlobal),
    heap: &Metered<Global>,
    alloc: A,
    side: &Side,
    text: &str,
    fault: SyncError,
) {
    let mut replica = new_replica(rt, alloc, side.author);
    let frames = bytes(rt, text);
    let input = Input {
        bytes: &frames,
        size: usize::MAX,
        grants: u64::MAX,
    };
    let outcome = outcome_of(rt, heap, alloc, &mut replica, side, input);
    let outcome = outcome.expect(rt, text);
    check_equal(
        rt,
        outcome.answer,
        Err(fault),
        format_args!("{text} at {}", side.name),
    );
    check_equal(
        rt,
        outcome.after,
        Err(SyncError::Failed),
        format_args!("after {text}"),
    );
}

#[test]
fn faulty_frames_are_refused(rt: HostRuntime) {
    let heap = Metered::new(rt.alloc());
    for &Faulty { role, text, fault } in FAULTY {
        refuses(&rt, &heap, &heap, &Side::of(&rt, role), text, fault);
    }
}

// How many operations a side of the role holds in the end: its own, and what comes where it takes it in.
fn held_by(role: Role) -> usize {
    match role {
        Role::Giver => 1,
        Role::Client | Role::ClientOfAll | Role::Server => 2,
    }
}

// Where memory was refused, the side sent all of some answers and nothing of the next, and holds what it held or what came
// too.
fn is_short_of_memory(
    rt: &(impl Abort + AllocGlobal),
    side: &Side,
    outcome: &Outcome,
    held: usize,
) {
    check_equal(rt, outcome.answer, Err(SyncError::OutOfMemory), side.name);
    check_equal(rt, outcome.after, Err(SyncError::Failed), side.name);
    let ends = [0, side.first, side.sends.len()];
    check(
        rt,
        ends.contains(&outcome.sent),
        format_args!("{} sent {} bytes", side.name, outcome.sent),
    );
    check(
        rt,
        held <= held_by(side.role),
        format_args!("{} holds {held} operations", side.name),
    );
}

// The side leaves what it promises where each request for memory is refused in turn, and is done in the end.
fn keeps_its_promise<A: Allocator + Copy>(
    rt: &(impl Abort + AllocGlobal),
    heap: &Metered<Global>,
    alloc: A,
    side: &Side,
) {
    for grants in 0..100u64 {
        heap.arm(u64::MAX);
        let mut replica = new_replica(rt, alloc, side.author);
        let input = Input {
            bytes: &side.comes,
            size: usize::MAX,
            grants,
        };
        if let Some(outcome) = outcome_of(rt, heap, alloc, &mut replica, side, input) {
            if outcome.after == Ok("done") {
                check_equal(rt, outcome.sent, side.sends.len(), side.name);
                shows(rt, alloc, &replica, side.shows, side.name);
                return;
            }
            is_short_of_memory(rt, side, &outcome, replica.len());
        }
    }
    panic!(rt; "{} is refused at a hundred requests", side.name);
}

#[test]
fn each_request_for_memory_may_be_refused(rt: HostRuntime) {
    let heap = Metered::new(rt.alloc());
    for role in [Role::Client, Role::ClientOfAll, Role::Giver, Role::Server] {
        keeps_its_promise(&rt, &heap, &heap, &Side::of(&rt, role));
    }
}

// A server stands, and says how many bytes it wants, without a request for memory.
fn stands_freely<A: Allocator + Copy>(
    rt: &(impl Abort + AllocGlobal),
    heap: &Metered<Global>,
    alloc: A,
) {
    heap.arm(1_000);
    let session = Session::server(alloc);
    check_equal(rt, session.wanted(), 5, "bytes that are wanted");
    check_equal(rt, heap.left(), 1_000, "requests that are left");
}

#[test]
fn answers_take_no_memory(rt: HostRuntime) {
    let heap = Metered::new(rt.alloc());
    stands_freely(&rt, &heap, &heap);
}
