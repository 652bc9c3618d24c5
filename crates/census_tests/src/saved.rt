//! Texts of places, and what is none.

use crate::answers::{check, check_equal};
use oct_code::Code;
use oct_mex::{Mask, Rare, Row};
use oct_saved::{ReadError, read_place, write_place};
use oct_window::{Comparison, MARKS, Place, Reader, Seen, Stage, Step, Watch, Window, extend};
use std::alloc::{AllocGlobal, Global};
use std::process::Abort;

// The values 0 1 0 1 of a game, of which heap 1 is rare.
fn small_window(rt: &(impl Abort + AllocGlobal), count: usize) -> Window<Global> {
    let mut rare = Rare::new(rt.alloc());
    rare.mask = Mask {
        bits: 1,
        parity: false,
        turn: 1,
    };
    rare.heaps = vec![in rt.alloc(); 1].ok().expect(rt, "memory");
    rare.values = vec![in rt.alloc(); 1].ok().expect(rt, "memory");
    Window {
        code: Code::parse(b"0.3").ok().expect(rt, "a code"),
        rare,
        reach: 1,
        held: vec![in rt.alloc(); 0, 1, 0, 1].ok().expect(rt, "memory"),
        count,
        used: 2,
    }
}

// That window, watched.
fn small_watch(rt: &(impl Abort + AllocGlobal)) -> Place<Global> {
    let window = small_window(rt, 5);
    Place {
        code: window.code,
        listed: 2,
        stage: Stage::Watching(Watch {
            window,
            mark: vec![in rt.alloc(); 0, 1].ok().expect(rt, "memory"),
            at: 4,
        }),
    }
}

// Two of them, one a period of 2 ahead of the other.
fn small_comparison(rt: &(impl Abort + AllocGlobal)) -> Place<Global> {
    let first = small_window(rt, 4);
    Place {
        code: first.code,
        listed: 4,
        stage: Stage::Comparing(Seen {
            start: 5,
            values: 9,
            comparison: Comparison {
                first: Reader {
                    window: first,
                    heap: 3,
                },
                second: Reader {
                    window: small_window(rt, 5),
                    heap: 5,
                },
                period: 2,
                start: 1,
            },
        }),
    }
}

// What is read of a text, or why it is refused.
fn is_refused(rt: &(impl Abort + AllocGlobal), text: &[u8], wanted: ReadError) -> bool {
    match read_place(rt.alloc(), text) {
        Ok(_) => false,
        Err(error) => error == wanted,
    }
}

// A place that is read of the text is written as this text again.
fn comes_again(rt: &(impl Abort + AllocGlobal), text: &[u8]) {
    let place = read_place(rt.alloc(), text).ok().expect(rt, "a place");
    let again = write_place(rt.alloc(), &place).ok().expect(rt, "memory");
    check(rt, again.as_slice() == text, "another text");
}

// The checksum was computed by Python's `hashlib`.
#[test]
fn a_small_place_has_this_text(rt: HostRuntime) {
    let text = write_place(rt.alloc(), &small_watch(&rt))
        .ok()
        .expect(&rt, "memory");
    assert!(&rt; text.len() == 212, "bytes");
    check(
        &rt,
        text.starts_with(b"OGW1\x9b\x12\x92\x8b"),
        "the tag and the checksum",
    );
    let numbers: [u64; 22] = [
        9, 0, 0, 2, 4, 1, 5, 1, 0, 1, 1, 3, 1, 1, 4, 0, 1, 0, 1, 2, 0, 1,
    ];
    for (chunk, number) in text[36..].chunks_exact(8).zip(numbers) {
        check(
            &rt,
            chunk == number.to_be_bytes().as_slice(),
            ("the number", number),
        );
    }
    comes_again(&rt, &text);
}

#[test]
fn a_comparison_is_read(rt: HostRuntime) {
    let text = write_place(rt.alloc(), &small_comparison(&rt))
        .ok()
        .expect(&rt, "memory");
    check_equal(&rt, text.get(43).copied(), Some(19), "scalars");
    comes_again(&rt, &text);
}

#[test]
fn what_is_spoiled_is_refused(rt: HostRuntime) {
    let mut text = write_place(rt.alloc(), &small_watch(&rt))
        .ok()
        .expect(&rt, "memory");
    for at in 0..text.len() {
        let wanted = if at < 4 {
            ReadError::Version
        } else {
            ReadError::Refused
        };
        check(&rt, is_refused(&rt, &text[..at], wanted), ("cut at", at));
        text[at] ^= 1;
        check(&rt, is_refused(&rt, &text, wanted), ("another byte at", at));
        text[at] ^= 1;
    }
    check(&rt, text.push(0).is_ok(), "memory");
    check(
        &rt,
        is_refused(&rt, &text, ReadError::Refused),
        "a byte more",
    );
}

// A search of Kayles has seen no period by 160 values, and the text of its place is read.
#[test]
fn a_search_is_taken_up_again(rt: HostRuntime) {
    let alloc = rt.alloc();
    let code = Code::parse(b"0.77").ok().expect(&rt, "a code");
    let mut marks = Vec::new(alloc);
    assert!(&rt; marks.resize(MARKS, false).is_ok(), "memory");
    let mut row = Row::new(alloc);
    check(
        &rt,
        matches!(extend(&mut row, &code, &mut marks, 1_000), Ok(true)),
        "values",
    );
    let Ok(Some(window)) = Window::of(alloc, code, &row) else {
        panic!(&rt; "no window");
    };
    let Ok(mut watch) = Watch::new(alloc, window) else {
        panic!(&rt; "memory");
    };
    let step = watch.go_to(alloc, 1_005, &mut marks);
    check(&rt, matches!(step, Ok(Step::On)), "five values more");
    let place = Place {
        code,
        listed: 1_000,
        stage: Stage::Watching(watch),
    };
    let text = write_place(alloc, &place).ok().expect(&rt, "memory");
    comes_again(&rt, &text);
}
