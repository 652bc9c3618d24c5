//! Deltas of several operations, of which the first ones stay where memory ends.

use super::*;
use crate::answers::{check, check_equal, put};

// What a replica shows that holds all the notes that come, and the first so many of them.
const ALL_SHOWN: &str =
    "census 2\nnote a 2.1 one\nnote b 2.2 two\nnote c 2.3 six\nauthor 2 through 3 last 3\nend\n";

const FIRST_SHOWN: [&str; 4] = [
    "census 2\nend\n",
    "census 2\nnote a 2.1 one\nauthor 2 through 1 last 1\nend\n",
    "census 2\nnote a 2.1 one\nnote b 2.2 two\nauthor 2 through 2 last 2\nend\n",
    ALL_SHOWN,
];

const NOTES: &str = "\
4f474431 00000003
00000002 00000001 03 01 61 03 6f6e65
00000002 00000002 03 01 62 03 74776f
00000002 00000003 03 01 63 03 736978";

// A side that holds nothing, to which these three notes come in one delta.
fn noted_side(rt: &(impl Abort + AllocGlobal), role: Role) -> Side {
    let notes = [Frame::Clock(&[(2, 3)]), Frame::Delta(NOTES), Frame::End];
    let mut side = empty_side(rt, role);
    side.comes = frame_bytes(rt, &notes);
    side.shows = ALL_SHOWN;
    match role {
        Role::Client | Role::ClientOfAll | Role::Giver => {
            put(rt, &mut side.comes, "00000001 03");
            side.first = 9;
        }
        Role::Server => side.first = 14,
    }
    side
}

// Whether the frames before the one at which memory ended keep their effect and their answers: the server's clock was
// answered where notes are held, and the client's clock is sent; and all notes are held where the last answer is sent.
fn is_kept(side: &Side, sent: usize, held: usize) -> bool {
    let is_answered = sent == side.first && held <= 3;
    let is_silent = side.role == Role::Server && sent == 0 && held == 0;
    let is_whole = sent == side.sends.len() && held == 3;
    is_answered || is_silent || is_whole
}

// What the session of a replica answers to which all comes in one piece, where so many requests for memory are granted. The
// frames are kept that it promises to keep.
fn answers<A: Allocator + Copy>(
    rt: &(impl Abort + AllocGlobal),
    heap: &Metered<Global>,
    alloc: A,
    replica: &mut Replica<A>,
    side: &Side,
    grants: u64,
) -> Result<&'static str, SyncError> {
    let mut out = Vec::new(alloc);
    let session = session_of(alloc, side.role, replica, &mut out);
    let mut session = session.expect(rt, side.name);
    heap.arm(grants);
    let answer = session.feed(replica, &side.comes, &mut out);
    heap.arm(u64::MAX);
    let front = &side.sends[..out.len().min(side.sends.len())];
    check_equal(
        rt,
        out.as_slice(),
        front,
        format_args!("{} with {grants} requests", side.name),
    );
    let (sent, held) = (out.len(), replica.len());
    check(
        rt,
        is_kept(side, sent, held),
        format_args!(
            "{} sent {sent} bytes and holds {held} with {grants} requests",
            side.name
        ),
    );
    shows(rt, alloc, replica, FIRST_SHOWN[held.min(3)], side.name);
    answer_name(answer)
}

// The side keeps what it promises where each request for memory is refused in turn, holds one note and two of them on the
// way, and is done in the end.
fn keeps_the_first<A: Allocator + Copy>(
    rt: &(impl Abort + AllocGlobal),
    heap: &Metered<Global>,
    alloc: A,
    side: &Side,
) {
    let mut parts = [false; 4];
    for grants in 0..200u64 {
        let mut replica = new_replica(rt, alloc, side.author);
        let answer = answers(rt, heap, alloc, &mut replica, side, grants);
        parts[replica.len().min(3)] = true;
        if answer != Err(SyncError::OutOfMemory) {
            check_equal(
                rt,
                answer,
                Ok("done"),
                format_args!("{} with {grants} requests", side.name),
            );
            check_equal(
                rt,
                parts,
                [true; 4],
                format_args!("{} held so many notes", side.name),
            );
            return;
        }
    }
    panic!(rt; "{} is refused at 200 requests", side.name);
}

#[test]
fn first_operations_and_earlier_answers_stay(rt: HostRuntime) {
    let heap = Metered::new(rt.alloc());
    for role in [Role::Client, Role::Server] {
        keeps_the_first(&rt, &heap, &heap, &noted_side(&rt, role));
    }
}
