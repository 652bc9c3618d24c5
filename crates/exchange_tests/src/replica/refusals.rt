//! Calls whose requests for memory are refused one after the other: what each refusal leaves, and the answer in the end.

use super::*;
use crate::answers::{check, check_equal};
use worked::{COMPUTED, SECOND_PAGE, note_of_3};

// The catalogue of Kayles up to heap 167, with its claims.
const PERIODIC: &str = "\
census 2
game 0.77 known 168
values 0 0 1 2 3 1 4 3 2 1 4 2 6 4 1 2 7
values 16 1 4 3 2 1 4 6 7 4 1 2 8 5 4 7 2
values 32 1 8 6 7 4 1 2 3 1 4 7 2 1 8 2 7
values 48 4 1 2 8 1 4 7 2 1 4 2 7 4 1 2 8
values 64 1 4 7 2 1 8 6 7 4 1 2 8 1 4 7 2
values 80 1 8 2 7 4 1 2 8 1 4 7 2 1 8 2 7
values 96 4 1 2 8 1 4 7 2 1 8 2 7 4 1 2 8
values 112 1 4 7 2 1 8 2 7 4 1 2 8 1 4 7 2
values 128 1 8 2 7 4 1 2 8 1 4 7 2 1 8 2 7
values 144 4 1 2 8 1 4 7 2 1 8 2 7 4 1 2 8
values 160 1 4 7 2 1 8 2 7
block 1.1 at 0 count 167 proved
block 1.4 at 167 count 1 proved
period 1.2 from 71 by 12 proved
period 1.3 from 70 by 12 refuted at 70
author 1 through 4 last 4
end
";

// That of UNTOLD with one more note, and that of EARLY, LATER and REMOVAL with one more removal.
const ISSUED: &str =
    "census 2\nnote a 5.1 \nnote a 5.3 \nnote a 5.4 \nauthor 5 through 1 last 4\nend\n";

const REMOVED: &str =
    "census 2\nauthor 1 through 2 last 2\nauthor 2 through 1 last 1\nauthor 3 through 1 last 1\nend\n";

/// A call that adds operations: those of a delta, those of another replica, or one of its own.
#[derive(Clone, Copy)]
enum Change<'a> {
    Take(&'a [u8]),
    TakeList(&'a [u8]),
    Join,
    Issue,
    Compute,
    Remove,
}

impl Change<'_> {
    fn name(self) -> &'static str {
        match self {
            Change::Take(_) => "take",
            Change::TakeList(_) => "take_list",
            Change::Join => "join",
            Change::Issue => "issue",
            Change::Compute => "compute",
            Change::Remove => "removal",
        }
    }
}

// Makes the change. After a refusal this is how many operations are in.
fn make<A: Allocator + Copy>(
    rt: &(impl Abort + AllocGlobal),
    alloc: A,
    replica: &mut Replica<A>,
    change: Change,
    other: &Replica<A>,
) -> Result<(), usize> {
    match change {
        Change::Take(delta) => taken(rt, replica.take(delta)),
        Change::TakeList(delta) => match decode(alloc, delta) {
            Ok(list) => {
                assert!(rt; list.len() <= 2);
                taken(rt, replica.take_list(list))
            }
            Err(_) => Err(0),
        },
        Change::Join => {
            let held = replica.len();
            match replica.join(other) {
                Ok(()) => Ok(()),
                Err(_) => Err(replica.len().saturating_sub(held)),
            }
        }
        Change::Issue | Change::Compute | Change::Remove => {
            if issue(rt, alloc, replica, change) {
                Ok(())
            } else {
                Err(0)
            }
        }
    }
}

fn taken(rt: &(impl Abort + AllocGlobal), answer: Result<u32, TakeError>) -> Result<(), usize> {
    match answer {
        Ok(_) => Ok(()),
        Err(TakeError::OutOfMemory { done }) => Err(done as usize),
        Err(fault) => panic!(rt; "refused as {fault:?}"),
    }
}

// The body of the next five values of 0.137, or of the removal of the notes with the name kayles.
fn body_of<A: Allocator + Copy>(
    rt: &(impl Abort + AllocGlobal),
    replica: &Replica<A>,
    computes: bool,
) -> Option<Body<A>> {
    if computes {
        match replica.compute(code_of(rt, "0.137"), 5) {
            Ok(block) => Some(Body::Block(block)),
            Err(_) => None,
        }
    } else {
        match replica.removal(b"kayles") {
            Ok(removal) => Some(Body::Removal(removal)),
            Err(_) => None,
        }
    }
}

// Issues such a body, or a note, and says whether it did.
fn issue<A: Allocator + Copy>(
    rt: &(impl Abort + AllocGlobal),
    alloc: A,
    replica: &mut Replica<A>,
    change: Change,
) -> bool {
    let computes = match change {
        Change::Compute => true,
        Change::Remove => false,
        _ => return issued(alloc, replica).is_ok(),
    };
    match body_of(rt, replica, computes) {
        Some(body) => plain(replica.issue(body)).is_ok(),
        None => false,
    }
}

// The change is refused at each request in turn, each time with what it says left, and is made in the end. `heap` counts the
// requests of `alloc`, here and below.
fn changes<A: Allocator + Copy>(
    rt: &(impl Abort + AllocGlobal),
    heap: &Metered<Global>,
    alloc: A,
    replica: &mut Replica<A>,
    change: Change,
    other: &Replica<A>,
) {
    let held = replica.len();
    for grants in 0..200u64 {
        heap.arm(grants);
        let made = make(rt, alloc, replica, change, other);
        heap.arm(u64::MAX);
        match made {
            Ok(()) => {
                check(
                    rt,
                    grants > 0,
                    format_args!("{} took no memory", change.name()),
                );
                return;
            }
            Err(done) => {
                let count = held.saturating_add(done);
                check_equal(
                    rt,
                    replica.len(),
                    count,
                    format_args!("{} with {grants} requests", change.name()),
                );
            }
        }
    }
    panic!(rt; "{} is refused at 200 requests", change.name());
}

/// A call that writes.
#[derive(Clone, Copy)]
enum Writing {
    Catalogue,
    Page(u32),
    Delta,
    Save,
    Load,
}

impl Writing {
    fn name(self) -> &'static str {
        match self {
            Writing::Catalogue => "catalogue",
            Writing::Page(_) => "page",
            Writing::Delta => "delta",
            Writing::Save => "save",
            Writing::Load => "load",
        }
    }
}

// Appends what the call writes, and says whether it did: of a delta what is beyond the replica's own clock, and of a state
// that is loaded the state that is saved again.
fn write<A: Allocator + Copy>(
    alloc: A,
    replica: &Replica<A>,
    writing: Writing,
    state: &[u8],
    out: &mut Vec<u8, A>,
) -> bool {
    match writing {
        Writing::Catalogue => replica.catalogue(out).is_ok(),
        Writing::Page(number) => replica.page(number, out) == Ok(true),
        Writing::Delta => match replica.clock() {
            Ok(clock) => replica.delta(&clock, out).is_ok(),
            Err(_) => false,
        },
        Writing::Save => replica.save(out).is_ok(),
        Writing::Load => match Replica::load(alloc, state) {
            Ok(loaded) => {
                let is_saved = loaded.save(out).is_ok();
                drop(loaded);
                is_saved
            }
            Err(_) => false,
        },
    }
}

// The call is refused at each request in turn, each time with nothing written, and writes this in the end.
fn writes<A: Allocator + Copy>(
    rt: &(impl Abort + AllocGlobal),
    heap: &Metered<Global>,
    alloc: A,
    replica: &Replica<A>,
    writing: Writing,
    wanted: &[u8],
) {
    for grants in 0..200u64 {
        heap.arm(grants);
        let mut out = Vec::new(alloc);
        let is_written = write(alloc, replica, writing, wanted, &mut out);
        heap.arm(u64::MAX);
        if is_written {
            check(
                rt,
                grants > 0,
                format_args!("{} took no memory", writing.name()),
            );
            check_equal(
                rt,
                out.as_slice(),
                wanted,
                format_args!("{} with {grants} requests", writing.name()),
            );
            return;
        }
        check(
            rt,
            out.is_empty(),
            format_args!("{} with {grants} requests wrote {out:?}", writing.name()),
        );
    }
    panic!(rt; "{} is refused at 200 requests", writing.name());
}

/// A change of a case, where a delta is a hexadecimal text.
#[derive(Clone, Copy)]
enum Step<'a> {
    Take(&'a str),
    TakeList(&'a str),
    Make(Change<'a>),
}

/// The author of a replica, what it holds, the changes that it makes, and what it then prints.
#[derive(Clone, Copy)]
struct Case<'a> {
    author: u32,
    held: &'a [&'a str],
    made: &'a [Step<'a>],
    shown: &'a str,
}

const CASES: &[Case<'static>] = &[
    Case {
        author: 1,
        held: &[],
        made: &[Step::Take(FIRST), Step::Take(NEXT)],
        shown: BOTH_SHOWN,
    },
    Case {
        author: 1,
        held: &[],
        made: &[Step::Take(NEXT), Step::Take(FIRST)],
        shown: BOTH_SHOWN,
    },
    Case {
        author: 1,
        held: &[],
        made: &[Step::TakeList(NEXT), Step::TakeList(FIRST)],
        shown: BOTH_SHOWN,
    },
    Case {
        author: 1,
        held: &[],
        made: &[Step::Take(FIRST), Step::Take(SECOND), Step::Take(THIRD)],
        shown: THREE_SHOWN,
    },
    Case {
        author: 1,
        held: &[],
        made: &[Step::Take(TURNS)],
        shown: TURNS_SHOWN,
    },
    Case {
        author: 1,
        held: &[],
        made: &[Step::Take(REMOVAL), Step::Take(EARLY), Step::Take(LATER)],
        shown: LATER_SHOWN,
    },
    Case {
        author: 1,
        held: &[],
        made: &[Step::Take(UNTOLD)],
        shown: UNTOLD_SHOWN,
    },
    Case {
        author: 1,
        held: &[],
        made: &[Step::Make(Change::Join)],
        shown: BOTH_SHOWN,
    },
    Case {
        author: 1,
        held: &[FIRST],
        made: &[Step::Make(Change::Join)],
        shown: BOTH_SHOWN,
    },
    Case {
        author: 7,
        held: &[],
        made: &[Step::Make(Change::Compute)],
        shown: COMPUTED,
    },
    Case {
        author: 5,
        held: &[UNTOLD],
        made: &[Step::Make(Change::Issue)],
        shown: ISSUED,
    },
    Case {
        author: 3,
        held: &[EARLY, LATER, REMOVAL],
        made: &[Step::Make(Change::Remove)],
        shown: REMOVED,
    },
];

// The step is made in spite of refusals.
fn steps<A: Allocator + Copy>(
    rt: &(impl Abort + AllocGlobal),
    heap: &Metered<Global>,
    alloc: A,
    replica: &mut Replica<A>,
    step: Step,
    other: &Replica<A>,
) {
    match step {
        Step::Take(text) => {
            let delta = bytes(rt, text);
            changes(rt, heap, alloc, replica, Change::Take(&delta), other);
        }
        Step::TakeList(text) => {
            let delta = bytes(rt, text);
            changes(rt, heap, alloc, replica, Change::TakeList(&delta), other);
        }
        Step::Make(change) => changes(rt, heap, alloc, replica, change, other),
    }
}

// The replica then prints the text, whole and as its first page.
fn prints_after_refusals<A: Allocator + Copy>(
    rt: &(impl Abort + AllocGlobal),
    heap: &Metered<Global>,
    alloc: A,
    replica: &Replica<A>,
    wanted: &str,
) {
    for writing in [Writing::Catalogue, Writing::Page(0)] {
        writes(rt, heap, alloc, replica, writing, wanted.as_bytes());
    }
}

// A replica takes what it holds, makes each of the changes in spite of refusals, beside one that took FIRST and NEXT, and
// then prints the text.
fn makes<A: Allocator + Copy>(
    rt: &(impl Abort + AllocGlobal),
    heap: &Metered<Global>,
    alloc: A,
    case: Case,
) {
    let Case {
        author,
        held,
        made,
        shown,
    } = case;
    let mut other = new_replica(rt, alloc, 1);
    takes(rt, &mut other, &[FIRST, NEXT], 1);
    let mut replica = new_replica(rt, alloc, author);
    for text in held {
        let taken = replica.take(&bytes(rt, text));
        check(rt, taken.is_ok(), format_args!("{text}: {taken:?}"));
    }
    for step in made {
        steps(rt, heap, alloc, &mut replica, *step, &other);
    }
    prints_after_refusals(rt, heap, alloc, &replica, shown);
}

// That is so of the long block of Kayles with its claims.
fn makes_long<A: Allocator + Copy>(
    rt: &(impl Abort + AllocGlobal),
    heap: &Metered<Global>,
    alloc: A,
) {
    let other = new_replica(rt, alloc, 1);
    let mut replica = new_replica(rt, alloc, 1);
    let long = long_block(rt.alloc()).expect(rt, "memory");
    changes(rt, heap, alloc, &mut replica, Change::Take(&long), &other);
    for text in [RIGHT_CLAIM, EARLY_CLAIM, LAST] {
        steps(rt, heap, alloc, &mut replica, Step::Take(text), &other);
    }
    prints_after_refusals(rt, heap, alloc, &replica, PERIODIC);
}

#[test]
fn refused_changes_are_made_again(rt: HostRuntime) {
    let heap = Metered::new(rt.alloc());
    makes_long(&rt, &heap, &heap);
    for &case in CASES {
        makes(&rt, &heap, &heap, case);
    }
}

// What is written of a replica of author 7 with UNTOLD.
const WRITTEN: &[(Writing, &str)] = &[
    (Writing::Save, UNTOLD_STATE),
    (Writing::Load, UNTOLD_STATE),
    (Writing::Delta, THIRD_UNTOLD),
];

// The state without operations is written, and then, with UNTOLD, the state and the delta, and the state is loaded.
fn writes_states<A: Allocator + Copy>(
    rt: &(impl Abort + AllocGlobal),
    heap: &Metered<Global>,
    alloc: A,
) {
    let mut replica = new_replica(rt, alloc, 7);
    let empty = bytes(rt, EMPTY_STATE);
    writes(rt, heap, alloc, &replica, Writing::Save, &empty);
    takes(rt, &mut replica, &[UNTOLD], 2);
    for &(writing, wanted) in WRITTEN {
        let wanted = bytes(rt, wanted);
        writes(rt, heap, alloc, &replica, writing, &wanted);
    }
}

// The text has 73 lines, of which the second page is the end, and is written after refusals, whole and by pages.
fn writes_text<A: Allocator + Copy>(
    rt: &(impl Abort + AllocGlobal),
    heap: &Metered<Global>,
    alloc: A,
    replica: &Replica<A>,
    text: &[u8],
) {
    let mut lines = 0u32;
    for byte in text {
        lines = lines.saturating_add(u32::from(*byte == b'\n'));
    }
    check_equal(rt, lines, 73, "lines");
    let front = text.strip_suffix(SECOND_PAGE.as_bytes());
    let front = front.expect(rt, "another second page");
    writes(rt, heap, alloc, replica, Writing::Catalogue, text);
    writes(rt, heap, alloc, replica, Writing::Page(0), front);
    writes(
        rt,
        heap,
        alloc,
        replica,
        Writing::Page(1),
        SECOND_PAGE.as_bytes(),
    );
}

// That is so of the replica's catalogue, and there is no third page.
fn writes_pages<A: Allocator + Copy>(
    rt: &(impl Abort + AllocGlobal),
    heap: &Metered<Global>,
    alloc: A,
    replica: &Replica<A>,
) {
    let mut text = Vec::new(alloc);
    check(rt, replica.catalogue(&mut text).is_ok(), "no catalogue");
    writes_text(rt, heap, alloc, replica, &text);
    check_equal(rt, replica.page(2, &mut text), Ok(false), "a third page");
}

// A replica takes 70 notes of author 3, each in spite of refusals, and writes its pages.
fn writes_notes<A: Allocator + Copy>(
    rt: &(impl Abort + AllocGlobal),
    heap: &Metered<Global>,
    alloc: A,
) {
    let other = new_replica(rt, alloc, 1);
    let mut replica = new_replica(rt, alloc, 1);
    for number in 1..71u32 {
        let note = note_of_3(rt.alloc(), number).expect(rt, "memory");
        changes(rt, heap, alloc, &mut replica, Change::Take(&note), &other);
    }
    check_equal(rt, replica.len(), 70, "notes");
    writes_pages(rt, heap, alloc, &replica);
}

#[test]
fn refused_texts_are_written_again(rt: HostRuntime) {
    let heap = Metered::new(rt.alloc());
    writes_states(&rt, &heap, &heap);
    writes_notes(&rt, &heap, &heap);
}

// The replica answers as it should, where it holds the first block of Kayles.
fn answers<A: Allocator + Copy>(
    rt: &(impl Abort + AllocGlobal),
    replica: &Replica<A>,
    code: Code,
    other: Code,
) {
    check_equal(rt, value_of(replica, code, &[1, 2]), Ok(3), "0.77 at 1, 2");
    check_equal(rt, value_of(replica, other, &[1]), Err(0), "0.07 at 1");
    let outcome = outcome_of(replica, code, &[1, 2, 3]);
    check_equal(rt, outcome, "next loses", "0.77 at 1, 2, 3");
    check_equal(
        rt,
        outcome_of(replica, other, &[]),
        "next loses",
        "0.07 at none",
    );
    check_equal(
        rt,
        counts(replica, code),
        (5, 1),
        "the known length and the comparisons",
    );
    check(rt, replica.game(other).is_none(), "a game 0.07");
    check_equal(
        rt,
        (replica.author(), replica.len()),
        (7, 1),
        "author and operations",
    );
    check(rt, !replica.is_empty(), "it is empty");
}

const LAST_NUMBER: &str = "\
4f474431 00000001
00000007 ffffffff 03 01 61 00";

// The last number of its author is behind it, and it refuses each proper prefix of the delta.
fn refuses<A: Allocator + Copy>(
    rt: &(impl Abort + AllocGlobal),
    replica: &mut Replica<A>,
    note: Note<A>,
    delta: &[u8],
) {
    match plain(replica.issue(Body::Note(note))) {
        Ok(_) => panic!(rt; "a note after the last number"),
        Err(fault) => check_equal(rt, fault, IssueError::LastNumber, "the fault"),
    }
    for end in 0..delta.len() {
        let taken = replica.take(&delta[..end]);
        check(
            rt,
            taken.is_err(),
            format_args!("the first {end} bytes of {delta:?}"),
        );
    }
}

// The answers and the refusals of a replica of author 7 take no memory.
fn answers_freely<A: Allocator + Copy>(
    rt: &(impl Abort + AllocGlobal),
    heap: &Metered<Global>,
    alloc: A,
) {
    let (code, other) = (code_of(rt, "0.77"), code_of(rt, "0.07"));
    let (first, last) = (bytes(rt, FIRST), bytes(rt, LAST_NUMBER));
    let note = Note::new(alloc, b"a", b"").ok().expect(rt, "a note");
    let mut replica = new_replica(rt, alloc, 7);
    check_equal(rt, replica.take(&first), Ok(1), FIRST);
    heap.arm(1_000);
    answers(rt, &replica, code, other);
    check_equal(rt, heap.left(), 1_000, "requests left by the answers");
    check_equal(rt, replica.take(&last), Ok(1), LAST_NUMBER);
    heap.arm(1_000);
    refuses(rt, &mut replica, note, &first);
    check_equal(rt, heap.left(), 1_000, "requests left by the refusals");
}

// Replicas are made and refused in the same way.
fn is_made_freely<A: Allocator + Copy>(
    rt: &(impl Abort + AllocGlobal),
    heap: &Metered<Global>,
    alloc: A,
) {
    heap.arm(1_000);
    let replica = new_replica(rt, alloc, 1);
    check(rt, replica.is_empty(), "a new replica");
    check(rt, no_author_is_zero(alloc), "a replica of author 0");
    check_equal(rt, heap.left(), 1_000, "requests left by new replicas");
}

#[test]
fn answers_take_no_memory(rt: HostRuntime) {
    let heap = Metered::new(rt.alloc());
    answers_freely(&rt, &heap, &heap);
    is_made_freely(&rt, &heap, &heap);
}
