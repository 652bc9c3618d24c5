//! The allocator that refuses requests.

use crate::answers::{check, check_equal};
use metered::Metered;
use std::alloc::{Allocator, Global};
use std::process::Abort;

// The heap counts the requests of a list that grows, and refuses them. The list asks for memory by `alloc`.
fn counts<A: Allocator>(rt: &impl Abort, heap: &Metered<Global>, alloc: A) {
    check_equal(rt, heap.left(), u64::MAX, "at first");
    let mut numbers = Vec::new(alloc);
    heap.arm(0);
    check(
        rt,
        numbers.push(1u64).is_err(),
        "a request without a grant is granted",
    );
    check_equal(rt, numbers.len(), 0, "a number was pushed");
    heap.arm(2);
    check(
        rt,
        numbers.push(1).is_ok(),
        "a request with a grant is refused",
    );
    check_equal(rt, heap.left(), 1, "after one request");
    check_equal(rt, numbers.as_slice(), [1].as_slice(), "the numbers");
}

#[test]
fn requests_are_counted_and_refused(rt: HostRuntime) {
    let heap = Metered::new(rt.alloc());
    counts(&rt, &heap, &heap);
}
