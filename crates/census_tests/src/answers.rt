//! What is asked of an answer, and fixtures. A test whose every question is a call of `check` or `check_equal` has one path for
//! its proof, where each `assert!` would be another one.

use oct_code::Code;
use oct_delta::{DeltaError, OpList, decode};
use oct_ops::Dot;
use std::alloc::Allocator;
use std::fmt::Debug;
use std::process::Abort;

/// The fact holds, of what is named.
pub(crate) fn check(rt: &impl Abort, holds: bool, name: impl Debug + Drop) {
    assert!(rt; holds, "{name:?}");
}

/// The answer is the wanted one, of what is named.
pub(crate) fn check_equal<T: PartialEq + Debug + Drop>(
    rt: &impl Abort,
    answer: T,
    wanted: T,
    name: impl Debug + Drop,
) {
    assert_eq!(rt; answer, wanted, "{name:?}");
}

/// Whether the value is the other one.
pub(crate) fn is_equal<T: PartialEq + Drop>(value: T, other: &T) -> bool {
    value == *other
}

/// The dot of an author and a number.
pub(crate) fn dot(rt: &impl Abort, author: u32, number: u32) -> Dot {
    Dot::new(author, number).ok().expect(rt, "a dot")
}

/// The code of the text.
pub(crate) fn code(rt: &impl Abort, text: &str) -> Code {
    Code::parse(text.as_bytes()).expect(rt, text)
}

/// The operations of the bytes.
pub(crate) fn read<A: Allocator + Copy>(rt: &impl Abort, alloc: A, bytes: &[u8]) -> OpList<A> {
    match decode(alloc, bytes) {
        Ok(list) => list,
        Err(fault) => panic!(rt; "{bytes:?} are refused: {}", fault_name(fault)),
    }
}

/// The name of a fault of a delta.
pub(crate) fn fault_name(fault: DeltaError) -> &'static str {
    match fault {
        DeltaError::Version => "version",
        DeltaError::Refused => "refused",
        DeltaError::OutOfMemory => "out of memory",
        DeltaError::Failed => "failed",
    }
}
