//! What a session keeps between two pieces.

use oct_delta::Reader;
use oct_join::Clock;
use std::alloc::Allocator;

/// Which frames are due.
#[derive(Drop)]
pub(crate) enum Due<A: Allocator> {
    /// A clock.
    Clock,
    /// Deltas and an end, where the other side has this clock.
    Deltas(Clock<A>),
    /// An end.
    End,
    /// None: the session is done.
    Nothing,
}

/// A delta frame of which a byte is missing.
#[derive(Drop)]
pub(crate) struct Delta<A: Allocator + Copy> {
    /// The five bytes before the payload.
    pub(crate) head: Vec<u8, A>,
    /// How many bytes of the payload are missing.
    pub(crate) missing: usize,
    /// What the payload was fed to. It keeps a refusal to itself until the payload is whole.
    pub(crate) reader: Reader<A>,
}

/// What came of a frame.
#[derive(Drop)]
pub(crate) enum Incoming<A: Allocator + Copy> {
    /// Its first bytes, fewer than five, or all that came of a clock frame.
    Kept(Vec<u8, A>),
    /// The head of a delta frame, and a part of its payload.
    Delta(Delta<A>),
}

/// Which frames are due, and what came of the next one.
#[derive(Drop)]
pub(crate) struct SessionState<A: Allocator + Copy> {
    pub(crate) due: Due<A>,
    pub(crate) incoming: Incoming<A>,
}
