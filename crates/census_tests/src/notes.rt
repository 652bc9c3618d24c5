//! Notes and removals: which notes are live, in whatever order they come, without memory and after each refusal of memory.

use crate::answers::{check, check_equal, dot};
use metered::Metered;
use oct_join::Join;
use oct_notes::Notes;
use oct_ops::{Body, Dot, Note, Op, Removal};
use std::alloc::{Allocator, Global};
use std::process::Abort;

/// A note.
#[derive(Clone, Copy)]
struct NoteRow {
    author: u32,
    number: u32,
    name: &'static [u8],
    text: &'static [u8],
}

// The note of a letter. A word stands for the operations of its letters; a capital is the removal of its note's dot, and `-`
// takes the removal A back.
fn row(letter: u8) -> NoteRow {
    match letter {
        b'a' | b'A' | b'-' => NoteRow {
            author: 1,
            number: 1,
            name: b"a",
            text: b"",
        },
        b'b' => NoteRow {
            author: 1,
            number: 1,
            name: b"a",
            text: b"again",
        },
        b'c' => NoteRow {
            author: 1,
            number: 1,
            name: b"b",
            text: b"",
        },
        b'd' => NoteRow {
            author: 1,
            number: 2,
            name: b"a",
            text: b"text",
        },
        b'e' | b'E' => NoteRow {
            author: 1,
            number: 1,
            name: b"kayles",
            text: b"early",
        },
        b'l' => NoteRow {
            author: 1,
            number: 2,
            name: b"kayles",
            text: b"later",
        },
        b'p' | b'P' => NoteRow {
            author: 1,
            number: 3,
            name: b"a",
            text: b"",
        },
        b'q' => NoteRow {
            author: 2,
            number: 1,
            name: b"a",
            text: b"",
        },
        b'r' => NoteRow {
            author: 1,
            number: 2,
            name: b"aa",
            text: b"",
        },
        b's' => NoteRow {
            author: 3,
            number: 1,
            name: b"aa",
            text: b"y",
        },
        b't' => NoteRow {
            author: 3,
            number: 1,
            name: b"aa",
            text: b"xx",
        },
        b'u' => NoteRow {
            author: 3,
            number: 1,
            name: b"b",
            text: b"",
        },
        b'v' => NoteRow {
            author: 5,
            number: 1,
            name: b"a",
            text: b"",
        },
        b'w' => NoteRow {
            author: 5,
            number: 3,
            name: b"a",
            text: b"",
        },
        _ => NoteRow {
            author: 3,
            number: 1,
            name: b"a",
            text: b"",
        },
    }
}

// The operation of a letter: its note, or the removal of that note's dot by author 9.
fn operation<A: Allocator + Copy>(rt: &impl Abort, alloc: A, letter: u8) -> Op<A> {
    let NoteRow {
        author,
        number,
        name,
        text,
    } = row(letter);
    let of_note = dot(rt, author, number);
    if letter.is_ascii_lowercase() {
        let note = Note::new(alloc, name, text).expect(rt, "a note");
        Op::new(of_note, Body::Note(note))
    } else {
        let dots = Vec::from_slice(alloc, &[of_note]).expect(rt, "a dot");
        let removal = Removal::new(dots).ok().expect(rt, "a removal");
        Op::new(dot(rt, 9, 1), Body::Removal(removal))
    }
}

// Whether the operation is a note or a removal and could be taken in.
fn is_added<A: Allocator + Copy>(notes: &mut Notes<A>, op: &Op<A>) -> bool {
    match op.body() {
        Body::Note(_) | Body::Removal(_) => notes.add(op).is_ok(),
        Body::Block(_) | Body::Period(_) => false,
    }
}

// Adds an operation, at first with so many requests granted, and says whether these were too few. A refusal changes nothing.
fn add<A: Allocator + Copy>(
    rt: &impl Abort,
    heap: &Metered<Global>,
    notes: &mut Notes<A>,
    op: &Op<A>,
    name: char,
    grants: u64,
) -> bool {
    let before = notes.len();
    heap.arm(grants);
    let is_in = is_added(notes, op);
    check_equal(rt, notes.contains(op), is_in, ("is there", name, grants));
    if !is_in {
        check_equal(rt, notes.len(), before, ("is not there", name, grants));
    }
    heap.arm(u64::MAX);
    check(rt, is_added(notes, op), ("is refused with memory", name));
    !is_in
}

// An operation that is there is found and taken back, and none of this takes memory.
fn goes<A: Allocator + Copy>(
    rt: &impl Abort,
    heap: &Metered<Global>,
    notes: &mut Notes<A>,
    op: &Op<A>,
    name: char,
) {
    let before = notes.len();
    heap.arm(1_000);
    check(
        rt,
        is_added(notes, op),
        ("is refused where it is there", name),
    );
    check(rt, notes.contains(op), ("is not found", name));
    check(rt, !notes.is_empty(), ("nothing is there with", name));
    notes.take_back(op);
    check(
        rt,
        !notes.contains(op),
        ("is found after it was taken back", name),
    );
    check_equal(
        rt,
        notes.len().saturating_add(1),
        before,
        ("one less is there without", name),
    );
    check_equal(
        rt,
        notes.is_empty(),
        before == 1,
        ("nothing is left without", name),
    );
    check_equal(rt, heap.left(), 1_000, "requests that are left");
}

// Adds the operation of a letter, takes it back, and adds it again, with so many requests granted; or takes it back for good.
// Says whether the requests were too few.
fn add_letter<A: Allocator + Copy>(
    rt: &impl Abort,
    heap: &Metered<Global>,
    alloc: A,
    notes: &mut Notes<A>,
    letter: u8,
    grants: u64,
) -> bool {
    heap.arm(u64::MAX);
    let op = operation(rt, alloc, letter);
    if letter == b'-' {
        notes.take_back(&op);
        return false;
    }
    let name = char::from(letter);
    let refused = add(rt, heap, notes, &op, name, grants);
    goes(rt, heap, notes, &op, name);
    add(rt, heap, notes, &op, name, grants);
    refused
}

// Adds the operations of a word, one after the other.
fn add_word<A: Allocator + Copy>(
    rt: &impl Abort,
    heap: &Metered<Global>,
    alloc: A,
    notes: &mut Notes<A>,
    word: &str,
    grants: u64,
) -> bool {
    let mut refused = false;
    for letter in word.as_bytes() {
        refused |= add_letter(rt, heap, alloc, notes, *letter, grants);
    }
    refused
}

// This is the dot of the note of the letter.
fn is_dot(rt: &impl Abort, dot: Dot, letter: u8, word: &str) {
    let NoteRow { author, number, .. } = row(letter);
    check_equal(
        rt,
        (dot.author(), dot.number()),
        (author, number),
        ("a dot of", word),
    );
}

// These are the notes of the word, in its order.
fn are_notes<A: Allocator>(rt: &impl Abort, ops: &[Op<A>], word: &str) {
    check_equal(rt, ops.len(), word.len(), ("live notes of", word));
    for (op, letter) in ops.iter().zip(word.as_bytes()) {
        is_dot(rt, op.dot(), *letter, word);
        let NoteRow { name, text, .. } = row(*letter);
        match op.body() {
            Body::Note(note) => {
                check_equal(rt, note.name(), name, ("a name of", word));
                check_equal(rt, note.text(), text, ("a text of", word));
            }
            _ => panic!(rt; "no note among those of {word}"),
        }
    }
}

// These are the dots of the notes of the word, in its order.
fn are_dots(rt: &impl Abort, dots: &[Dot], word: &str) {
    check_equal(rt, dots.len(), word.len(), ("dots of", word));
    for (dot, letter) in dots.iter().zip(word.as_bytes()) {
        is_dot(rt, *dot, *letter, word);
    }
}

// These are the live notes, and these the dots of those with the name of the first letter, where each request for memory is
// refused in turn. No note has the name dawson.
fn reads<A: Allocator + Copy>(
    rt: &impl Abort,
    heap: &Metered<Global>,
    notes: &Notes<A>,
    case: &Case,
) {
    let Case {
        came,
        live,
        named,
        ..
    } = *case;
    let name = match came.as_bytes() {
        [letter, ..] => row(*letter).name,
        [] => b"dawson",
    };
    for grants in 0..64u64 {
        heap.arm(grants);
        let ops = notes.live();
        heap.arm(grants);
        let dots = notes.live_dots(name);
        if let (Ok(ops), Ok(dots)) = (ops, dots) {
            are_notes(rt, &ops, live);
            are_dots(rt, &dots, named);
            heap.arm(u64::MAX);
            let none = notes.live_dots(b"dawson").ok().expect(rt, "memory");
            check_equal(rt, none.len(), 0, "dots with no note's name");
            return;
        }
    }
    panic!(rt; "the live notes {live} are refused at 64 requests");
}

// Joins two sets that have nothing in common, at first with so many requests granted, and says whether these were too few. A
// refusal leaves a set between.
fn join<A: Allocator + Copy>(
    rt: &impl Abort,
    heap: &Metered<Global>,
    one: &mut Notes<A>,
    other: &Notes<A>,
    grants: u64,
) -> bool {
    let held = one.len();
    let all = held.saturating_add(other.len());
    heap.arm(grants);
    let refused = one.join(other).is_err();
    let count = one.len();
    check(
        rt,
        held <= count && count <= all,
        ("is not between", count, held, all),
    );
    check_equal(
        rt,
        count < all,
        refused,
        ("all are there", count, all, grants),
    );
    heap.arm(u64::MAX);
    check(
        rt,
        one.join(other).is_ok(),
        "the join is refused with memory",
    );
    check_equal(rt, one.len(), all, "after the join");
    refused
}

/// Words: of a set that is held, of another one that came and is joined to it, of the notes that are live then, in their
/// order, and of the dots of those that are named as the first note that came.
#[derive(Clone, Copy)]
struct Case {
    held: &'static str,
    came: &'static str,
    live: &'static str,
    named: &'static str,
}

// Makes the two sets of a case and joins them, each time with so many requests granted at first. Says whether these were too
// few. New sets take no memory.
fn unite<A: Allocator + Copy>(
    rt: &impl Abort,
    heap: &Metered<Global>,
    alloc: A,
    case: &Case,
    grants: u64,
) -> bool {
    heap.arm(1_000);
    let mut one = Notes::new(alloc);
    let mut other = Notes::new(alloc);
    check_equal(rt, heap.left(), 1_000, "requests that are left");
    let mut refused = add_word(rt, heap, alloc, &mut one, case.held, grants);
    refused |= add_word(rt, heap, alloc, &mut other, case.came, grants);
    refused |= join(rt, heap, &mut one, &other, grants);
    reads(rt, heap, &one, case);
    refused
}

// A case comes out right where each request for memory is refused in turn.
fn survives(rt: &impl Abort, heap: &Metered<Global>, case: &Case) {
    for grants in 0..64u64 {
        if !unite(rt, heap, heap, case, grants) {
            check(rt, grants > 0, ("took no memory", case.came));
            return;
        }
    }
    panic!(rt; "{} is refused at 64 requests", case.came);
}

const CASES: &[Case] = &[
    // The later note alone is live, in whatever order it, the early one and the early one's removal come.
    Case {
        held: "e",
        came: "lE",
        live: "l",
        named: "l",
    },
    Case {
        held: "e",
        came: "El",
        live: "l",
        named: "l",
    },
    Case {
        held: "l",
        came: "eE",
        live: "l",
        named: "l",
    },
    Case {
        held: "l",
        came: "Ee",
        live: "l",
        named: "l",
    },
    Case {
        held: "E",
        came: "el",
        live: "l",
        named: "l",
    },
    Case {
        held: "E",
        came: "le",
        live: "l",
        named: "l",
    },
    // The live notes are by name, byte by byte, and then as operations: by dot, and a shorter text first.
    Case {
        held: "",
        came: "pqrstcu",
        live: "pqrstcu",
        named: "pq",
    },
    Case {
        held: "uctsr",
        came: "qp",
        live: "pqrstcu",
        named: "pq",
    },
    Case {
        held: "x",
        came: "cd",
        live: "dxc",
        named: "c",
    },
    Case {
        held: "",
        came: "vw",
        live: "vw",
        named: "vw",
    },
    // The contents of one dot live and go together, a removal hides neither another dot nor what its author has not seen,
    // and a note comes back when its removal is taken back.
    Case {
        held: "",
        came: "abc",
        live: "abc",
        named: "a",
    },
    Case {
        held: "",
        came: "abcA",
        live: "",
        named: "",
    },
    Case {
        held: "",
        came: "dcP",
        live: "dc",
        named: "d",
    },
    Case {
        held: "aA",
        came: "q",
        live: "q",
        named: "q",
    },
    Case {
        held: "",
        came: "aA",
        live: "",
        named: "",
    },
    Case {
        held: "",
        came: "aA-",
        live: "a",
        named: "a",
    },
];

#[test]
fn unremoved_notes_live_by_name_in_every_order(rt: HostRuntime) {
    let heap = Metered::new(rt.alloc());
    for case in CASES {
        survives(&rt, &heap, case);
    }
}
