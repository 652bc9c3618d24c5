//! Codes that are read from text or made from digits, written and compared.

use crate::answers::{check, check_equal, code};
use metered::Metered;
use oct_code::{Code, CodeError, DigitsError};
use std::alloc::{Allocator, Global};
use std::process::Abort;

// The code of the text is written after the bytes that are there where each request for memory is refused in turn, and
// nothing is written before.
fn is_appended<A: Allocator>(
    rt: &impl Abort,
    heap: &Metered<Global>,
    out: &mut Vec<u8, A>,
    text: &str,
    after: &str,
) {
    let code = code(rt, text);
    let count = out.len();
    for grants in 0..10u64 {
        heap.arm(grants);
        if code.append_text(out).is_ok() {
            check(rt, grants > 0, ("took no memory", text));
            check_equal(rt, out.as_slice(), after.as_bytes(), text);
            return;
        }
        check_equal(rt, out.len(), count, ("was refused", text));
    }
    panic!(rt; "{text} is refused at ten requests");
}

fn is_written<A: Allocator>(
    rt: &impl Abort,
    heap: &Metered<Global>,
    alloc: A,
    text: &str,
    before: &str,
    after: &str,
) {
    heap.arm(u64::MAX);
    let mut out = Vec::from_slice(alloc, before.as_bytes()).expect(rt, text);
    is_appended(rt, heap, &mut out, text, after);
}

/// A text, what is there already, and what it is once the code of the text is written.
#[derive(Clone, Copy)]
struct Written {
    text: &'static str,
    before: &'static str,
    after: &'static str,
}

const WRITTEN: &[Written] = &[
    Written {
        text: "0.77",
        before: "",
        after: "0.77",
    },
    Written {
        text: "0.77",
        before: "x",
        after: "x0.77",
    },
    Written {
        text: ".770",
        before: "",
        after: "0.77",
    },
    Written {
        text: ".0",
        before: "",
        after: "0.0",
    },
    Written {
        text: "4.000",
        before: "",
        after: "4.0",
    },
    Written {
        text: "0.77777777777777770",
        before: "",
        after: "0.7777777777777777",
    },
];

// Texts that are no code, and their faults.
const REFUSED: &[(&str, CodeError)] = &[
    ("0.8", CodeError::Digit),
    ("0.7.7", CodeError::Digit),
    ("3.1", CodeError::Head),
    ("x.8", CodeError::Head),
    ("0.", CodeError::Form),
    ("77", CodeError::Form),
    ("00.7", CodeError::Form),
    ("", CodeError::Form),
    ("0.77777777777777777", CodeError::Long),
];

#[test]
fn texts_are_refused_or_read_and_written(rt: HostRuntime) {
    let heap = Metered::new(rt.alloc());
    for &Written {
        text,
        before,
        after,
    } in WRITTEN {
        is_written(&rt, &heap, &heap, text, before, after);
    }
    for &(text, fault) in REFUSED {
        check_equal(&rt, Code::parse(text.as_bytes()).err(), Some(fault), text);
    }
}

/// Digits that are no code, and their fault.
#[derive(Clone, Copy)]
struct RefusedDigits {
    head: u8,
    digits: &'static [u8],
    fault: DigitsError,
}

const REFUSED_DIGITS: &[RefusedDigits] = &[
    RefusedDigits {
        head: 0,
        digits: &[7, 0],
        fault: DigitsError::Trailing,
    },
    RefusedDigits {
        head: 0,
        digits: &[8],
        fault: DigitsError::Digit,
    },
    RefusedDigits {
        head: 0,
        digits: &[8; 17],
        fault: DigitsError::Long,
    },
    RefusedDigits {
        head: 1,
        digits: &[8; 17],
        fault: DigitsError::Head,
    },
];

#[test]
fn digits_are_read_or_refused(rt: HostRuntime) {
    let code = Code::from_digits(0, &[1, 3, 7])
        .ok()
        .expect(&rt, "the code 0.137");
    check_equal(&rt, (code.head(), code.len()), (0, 3), "head and length");
    check_equal(&rt, code.digits(), [1, 3, 7].as_slice(), "digits");
    check_equal(
        &rt,
        (code.digit(0), code.digit(2), code.digit(4)),
        (0, 3, 0),
        "the digits 0, 2 and 4",
    );
    let allowed = (code.allows(2, 1), code.allows(2, 2), code.allows(3, 2));
    check_equal(&rt, allowed, (true, false, true), "what is allowed");
    for &RefusedDigits {
        head,
        digits,
        fault,
    } in REFUSED_DIGITS {
        let refused = Code::from_digits(head, digits).err();
        check(&rt, refused == Some(fault), (head, digits));
    }
}

// Codes, each of which is below the next one, and not the other way round.
const RISING: &[&str] = &["0.0", "0.3", "0.7", "0.07", "0.77", "0.137", "4.0", "4.3"];

#[test]
fn codes_are_ordered(rt: HostRuntime) {
    for at in 1..RISING.len() {
        let (text, next) = (RISING[at - 1], RISING[at]);
        let (low, high) = (code(&rt, text), code(&rt, next));
        check(&rt, low < high && high > low && low != high, (text, next));
    }
}
