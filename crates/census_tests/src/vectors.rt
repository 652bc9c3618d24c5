//! Worked deltas, written field by field, and two long ones.

use crate::answers::check;
use std::alloc::AllocGlobal;
use std::process::Abort;

/// An operation of a delta: its author, its number, and what it says.
#[derive(Clone, Copy)]
pub(crate) enum Item<'a> {
    /// The code, the first heap and the nim-values of a block.
    Block(u32, u32, Digits<'a>, u32, &'a [u32]),
    /// The code, the start and the period of a claim.
    Claim(u32, u32, Digits<'a>, u32, u32),
    /// The name and the text of a note.
    Note(u32, u32, &'a [u8], &'a [u8]),
    /// The dots of a removal, each an author and a number.
    Removal(u32, u32, &'a [(u32, u32)]),
}

/// An octal code: the digit before the point, and those after it.
pub(crate) type Digits<'a> = (u8, &'a [u8]);

/// A delta: its tag and its operations.
#[derive(Clone, Copy)]
pub(crate) struct Delta<'a> {
    pub(crate) tag: &'a [u8],
    pub(crate) items: &'a [Item<'a>],
}

impl Delta<'_> {
    /// Its bytes.
    pub(crate) fn bytes(&self, rt: &(impl Abort + AllocGlobal)) -> Vec<u8> {
        let mut out = Vec::new(rt.alloc());
        put(rt, &mut out, self.tag);
        let count = u32::try_from(self.items.len()).ok();
        put_number(rt, &mut out, count.expect(rt, "a count of operations"));
        for item in self.items {
            put_item(rt, &mut out, item);
        }
        out
    }
}

fn put(rt: &impl Abort, out: &mut Vec<u8>, bytes: &[u8]) {
    check(rt, out.extend_from_slice(bytes).is_ok(), "memory");
}

fn put_number(rt: &impl Abort, out: &mut Vec<u8>, number: u32) {
    put(rt, out, &number.to_be_bytes());
}

// A count of two bytes.
fn put_count(rt: &impl Abort, out: &mut Vec<u8>, count: usize) {
    let count = u16::try_from(count).ok().expect(rt, "a count");
    put(rt, out, &count.to_be_bytes());
}

// A text after its length, which is one byte.
fn put_text(rt: &impl Abort, out: &mut Vec<u8>, text: &[u8]) {
    let length = u8::try_from(text.len()).ok().expect(rt, "a length");
    put(rt, out, &[length]);
    put(rt, out, text);
}

// The author, the number and the kind of an operation.
fn put_head(rt: &impl Abort, out: &mut Vec<u8>, author: u32, number: u32, kind: u8) {
    put_number(rt, out, author);
    put_number(rt, out, number);
    put(rt, out, &[kind]);
}

fn put_code(rt: &impl Abort, out: &mut Vec<u8>, code: Digits) {
    put(rt, out, &[code.0]);
    put_text(rt, out, code.1);
}

// Nim-values after their count.
fn put_values(rt: &impl Abort, out: &mut Vec<u8>, values: &[u32]) {
    put_count(rt, out, values.len());
    for value in values {
        put_number(rt, out, *value);
    }
}

// Dots after their count.
fn put_dots(rt: &impl Abort, out: &mut Vec<u8>, dots: &[(u32, u32)]) {
    put_count(rt, out, dots.len());
    for &(author, number) in dots {
        put_number(rt, out, author);
        put_number(rt, out, number);
    }
}

fn put_item(rt: &impl Abort, out: &mut Vec<u8>, item: &Item) {
    match *item {
        Item::Block(author, number, code, start, values) => {
            put_head(rt, out, author, number, 1);
            put_code(rt, out, code);
            put_number(rt, out, start);
            put_values(rt, out, values);
        }
        Item::Claim(author, number, code, start, period) => {
            put_head(rt, out, author, number, 2);
            put_code(rt, out, code);
            put_number(rt, out, start);
            put_number(rt, out, period);
        }
        Item::Note(author, number, name, text) => {
            put_head(rt, out, author, number, 3);
            put_text(rt, out, name);
            put_text(rt, out, text);
        }
        Item::Removal(author, number, dots) => {
            put_head(rt, out, author, number, 4);
            put_dots(rt, out, dots);
        }
    }
}

/// The tags of the old format and of the new one.
pub(crate) const OLD: &[u8] = b"OGD1";

pub(crate) const NEW: &[u8] = b"OGD2";

/// The codes 0.77 of Kayles, and 0.3.
pub(crate) const KAYLES: Digits<'static> = (0, &[7, 7]);

pub(crate) const THREE: Digits<'static> = (0, &[3]);

/// The first block of Kayles.
pub(crate) const BLOCK: Item<'static> = Item::Block(1, 1, KAYLES, 0, &[0, 1, 2, 3, 1]);

pub(crate) const FIRST: Delta<'static> = Delta {
    tag: OLD,
    items: &[BLOCK],
};

/// The block that goes on from it, by author 2.
pub(crate) const NEXT: Delta<'static> = Delta {
    tag: OLD,
    items: &[Item::Block(2, 1, KAYLES, 5, &[4, 3, 2])],
};

/// Another block under the dot of the first one.
pub(crate) const FORKED: Delta<'static> = Delta {
    tag: OLD,
    items: &[Item::Block(1, 1, KAYLES, 1, &[1, 2, 3, 1])],
};

/// A block and a period claim of 0.3.
pub(crate) const TURNS: Item<'static> = Item::Block(1, 1, THREE, 0, &[0, 1, 0, 1, 0, 1, 0]);

pub(crate) const CLAIM: Item<'static> = Item::Claim(1, 2, THREE, 1, 2);

pub(crate) const CLAIMED: Delta<'static> = Delta {
    tag: OLD,
    items: &[TURNS, CLAIM],
};

/// The last heap that the old format can name.
pub(crate) const OLD_LIMIT: Delta<'static> = Delta {
    tag: OLD,
    items: &[Item::Block(1, 1, KAYLES, 4_095, &[0])],
};

/// A note.
pub(crate) const EARLY: Delta<'static> = Delta {
    tag: OLD,
    items: &[Item::Note(1, 1, b"kayles", b"early")],
};

/// A second note under its name.
pub(crate) const LATER: Delta<'static> = Delta {
    tag: OLD,
    items: &[Item::Note(1, 2, b"kayles", b"later")],
};

/// The removal of the first note, by author 2.
pub(crate) const REMOVED: Delta<'static> = Delta {
    tag: OLD,
    items: &[Item::Removal(2, 1, &[(1, 1)])],
};

/// Two notes of author 5 without text.
pub(crate) const UNTOLD: Delta<'static> = Delta {
    tag: OLD,
    items: &[Item::Note(5, 1, b"a", b""), Item::Note(5, 3, b"a", b"")],
};

/// The last heap of the new format.
pub(crate) const LIMIT: Delta<'static> = Delta {
    tag: NEW,
    items: &[Item::Block(1, 1, KAYLES, 65_535, &[0])],
};

/// A block of Kayles with 167 nim-values.
pub(crate) const LONG: Delta<'static> = Delta {
    tag: OLD,
    items: &[Item::Block(1, 1, KAYLES, 0, &KAYLES_VALUES)],
};

/// Some of them, of each kind, with their names.
pub(crate) const SOME: &[(&str, Delta<'static>)] = &[
    ("first", FIRST),
    ("next", NEXT),
    ("claimed", CLAIMED),
    ("early", EARLY),
    ("later", LATER),
    ("removed", REMOVED),
    ("untold", UNTOLD),
];

/// The others, but for the long ones.
pub(crate) const OTHERS: &[(&str, Delta<'static>)] = &[
    ("forked", FORKED),
    ("old limit", OLD_LIMIT),
    ("limit", LIMIT),
];

/// The nim-values of the heaps 0 to 166 of Kayles, which repeat from heap 71 on with period 12.
pub(crate) const KAYLES_VALUES: [u32; 167] = [
    0, 1, 2, 3, 1, 4, 3, 2, 1, 4, 2, 6, //
    4, 1, 2, 7, 1, 4, 3, 2, 1, 4, 6, 7, //
    4, 1, 2, 8, 5, 4, 7, 2, 1, 8, 6, 7, //
    4, 1, 2, 3, 1, 4, 7, 2, 1, 8, 2, 7, //
    4, 1, 2, 8, 1, 4, 7, 2, 1, 4, 2, 7, //
    4, 1, 2, 8, 1, 4, 7, 2, 1, 8, 6, 7, //
    4, 1, 2, 8, 1, 4, 7, 2, 1, 8, 2, 7, //
    4, 1, 2, 8, 1, 4, 7, 2, 1, 8, 2, 7, //
    4, 1, 2, 8, 1, 4, 7, 2, 1, 8, 2, 7, //
    4, 1, 2, 8, 1, 4, 7, 2, 1, 8, 2, 7, //
    4, 1, 2, 8, 1, 4, 7, 2, 1, 8, 2, 7, //
    4, 1, 2, 8, 1, 4, 7, 2, 1, 8, 2, 7, //
    4, 1, 2, 8, 1, 4, 7, 2, 1, 8, 2, 7, //
    4, 1, 2, 8, 1, 4, 7, 2, 1, 8, 2,
];

/// The notes 3.1 to 3.70 without text.
pub(crate) fn many_notes(rt: &(impl Abort + AllocGlobal)) -> Vec<u8> {
    let mut items = [Item::Note(3, 1, b"n", b""); 70];
    for (item, number) in items.iter_mut().zip(1..71u32) {
        *item = Item::Note(3, number, b"n", b"");
    }
    let notes = Delta {
        tag: OLD,
        items: &items,
    };
    notes.bytes(rt)
}
