//! What a reader has of a text that comes in pieces.

use crate::format::Edition;
use oct_ops::Op;
use std::alloc::Allocator;

/// The operations that came whole, so many as are to come, and the bytes after them.
#[derive(Drop)]
pub(crate) struct Arrived<A: Allocator> {
    pub(crate) edition: Edition,
    pub(crate) count: u32,
    pub(crate) ops: Vec<Op<A>, A>,
    pub(crate) rest: Vec<u8, A>,
}

/// How far a reader is.
#[derive(Drop)]
pub(crate) enum ReaderState<A: Allocator> {
    /// Fewer than eight bytes have come.
    Begun(Vec<u8, A>),
    /// The tag and the count have come.
    Reading(Arrived<A>),
    /// A call was refused.
    Failed,
}
