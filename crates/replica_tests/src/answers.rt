//! What is asked of an answer. A test whose every question is a call of `check` or `check_equal` has one path for its proof, where
//! each `assert!` would be another one.

use std::alloc::AllocGlobal;
use std::fmt::{Debug, Display};
use std::process::Abort;

/// The fact holds, of what is named.
pub(crate) fn check(rt: &impl Abort, holds: bool, name: impl Display + Drop) {
    assert!(rt; holds, "{name}");
}

/// The answer is the wanted one, of what is named.
pub(crate) fn check_equal<T: PartialEq + Debug + Drop>(
    rt: &impl Abort,
    answer: T,
    wanted: T,
    name: impl Display + Drop,
) {
    assert_eq!(rt; answer, wanted, "{name}");
}

/// The bytes in memory.
pub(crate) fn held(rt: &(impl Abort + AllocGlobal), bytes: &[u8]) -> Vec<u8> {
    Vec::from_slice(rt.alloc(), bytes).ok().expect(rt, "memory")
}

/// The bytes of a hexadecimal text.
pub(crate) fn bytes(rt: &(impl Abort + AllocGlobal), text: &str) -> Vec<u8> {
    worked::bytes(rt.alloc(), text).expect(rt, text)
}

/// The bytes are this text, of what is named.
pub(crate) fn is_text(rt: &impl Abort, bytes: &[u8], wanted: &str, name: &str) {
    let text = str::from_utf8(bytes).ok().expect(rt, name);
    check_equal(rt, text, wanted, name);
}
