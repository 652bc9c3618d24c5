//! What is asked of an answer. A test whose every question is a call of `check` or `check_equal` has one path for its proof, where
//! each `assert!` would be another one.

use std::alloc::AllocGlobal;
use std::fmt::{Debug, Display};
use std::process::Abort;

/// The fact holds, of what is named.
pub(crate) fn check(rt: &impl Abort, holds: bool, name: impl Display + Drop) {
    assert!(rt; holds, "{name}");
}

/// The answer is the wanted one, of what is named.
pub(crate) fn check_equal<T: PartialEq + Debug + Drop>(
    rt: &impl Abort,
    answer: T,
    wanted: T,
    name: impl Display + Drop,
) {
    assert_eq!(rt; answer, wanted, "{name}");
}

/// The bytes of a hexadecimal text.
pub(crate) fn bytes(rt: &(impl Abort + AllocGlobal), text: &str) -> Vec<u8> {
    worked::bytes(rt.alloc(), text).expect(rt, text)
}

/// Appends the bytes of a hexadecimal text.
pub(crate) fn put(rt: &(impl Abort + AllocGlobal), out: &mut Vec<u8>, text: &str) {
    check(rt, worked::put(rt.alloc(), out, text).is_some(), text);
}

/// Appends a number of four bytes.
pub(crate) fn put_number(rt: &impl Abort, out: &mut Vec<u8>, number: u32) {
    check(rt, worked::put_number(out, number).is_some(), number);
}

/// The answer without what comes back with a fault.
pub(crate) fn plain<T, E, R: Drop>(answer: Result<T, (E, R)>) -> Result<T, E> {
    match answer {
        Ok(value) => Ok(value),
        Err((fault, _)) => Err(fault),
    }
}

/// The bytes are this text, of what is named.
pub(crate) fn is_text(rt: &impl Abort, bytes: &[u8], wanted: &str, name: &str) {
    let text = str::from_utf8(bytes).ok().expect(rt, name);
    check_equal(rt, text, wanted, name);
}
