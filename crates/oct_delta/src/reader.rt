//! A delta that comes in pieces.

ghost use Rattle.std.specs.Prelude.{◌≡◌, ◌↔◌, ◌≤◌, ◌++◌, List, Some, None, [], length, drop, IsErrOf, IfSome, IfOk, OnOk, OnErr};
ghost use Rattle.oct_ops.specs.Body.{Operation};
ghost use Rattle.oct_delta.specs.Delta.{IsDeltaText};
ghost use Rattle.oct_delta.specs.Formats.{format};
ghost use Rattle.oct_delta.specs.Decoding.{format_at};
ghost use Rattle.oct_delta.specs.Streaming.{AreWhole};
ghost use Rattle.oct_delta.specs.ReaderState.{Tells, BeginsList, IsReaderState, HasTag, IsHopeless, IsForeign, begun_bytes, fed, together};

use crate::error::DeltaError;
use crate::fault::ReadError;
use crate::format::split_tag;
use crate::input::Input;
use crate::state::{Arrived, ReaderState};
use oct_ops::{Op, OpList};
use std::alloc::{AllocError, Allocator};
use std::marker::Model;
use std::mem;

// The bytes from a place on.
fn keep_from<A: Allocator + Copy>(
    alloc: A,
    bytes: Vec<u8, A>,
    start: usize,
) -> Result<Vec<u8, A>, AllocError>
    requires { start ≤ length bytes.items }
    ensures { IfOk result (λ kept. kept.items ≡ drop start bytes.items) }
{
    if start == 0 {
        return Ok(bytes);
    }
    Vec::from_slice(alloc, &bytes[start..])
}

// Takes the operations that are whole from the front of the rest.
fn read_on<A: Allocator + Copy>(alloc: A, arrived: Arrived<A>) -> Result<ReaderState<A>, DeltaError>
    requires { BeginsList (format arrived.edition).limit arrived.count arrived.ops.items }
    ensures { Tells result (begun_bytes arrived.edition arrived.count arrived.ops.items arrived.rest.items) }
{
    let Arrived {
        edition,
        count,
        mut ops,
        rest,
    } = arrived;
    let mut input = Input::new(&rest);
    match input.whole_ops(alloc, edition.limit(), count, &mut ops) {
        Ok(()) => {}
        Err(ReadError::Memory) => return Err(DeltaError::OutOfMemory),
        Err(ReadError::Fault(_)) => return Err(DeltaError::Refused),
    }
    if ops.len() == count as usize && !input.is_empty() {
        return Err(DeltaError::Refused);
    }
    let taken = rest.len() - input.rest().len();
    let rest = keep_from(alloc, rest, taken)?;
    Ok(ReaderState::Reading(Arrived {
        edition,
        count,
        ops,
        rest,
    }))
}

// Reads the tag and the count where they are there.
fn begin<A: Allocator + Copy>(alloc: A, bytes: Vec<u8, A>) -> Result<ReaderState<A>, DeltaError>
    ensures { Tells result bytes.items }
{
    if bytes.len() < 4 {
        return Ok(ReaderState::Begun(bytes));
    }
    let Some((edition, list)) = split_tag(&bytes) else {
        return Err(DeltaError::Version);
    };
    let mut input = Input::new(list);
    let Ok(count) = input.u32() else {
        return Ok(ReaderState::Begun(bytes));
    };
    let rest = Vec::from_slice(alloc, input.rest())?;
    let ops = Vec::new(alloc);
    read_on(
        alloc,
        Arrived {
            edition,
            count,
            ops,
            rest,
        },
    )
}

// The state after a piece.
fn advance<A: Allocator + Copy>(
    alloc: A,
    state: ReaderState<A>,
    piece: &[u8],
) -> Result<ReaderState<A>, DeltaError>
    requires { IsReaderState state }
    ensures failed { IsErrOf result DeltaError.Failed ↔ (fed state ≡ None) }
    ensures tells { IfSome (fed state) (λ bytes. Tells result (bytes ++ piece.now)) }
{
    match state {
        ReaderState::Begun(mut bytes) => {
            bytes.extend_from_slice(piece)?;
            begin(alloc, bytes)
        }
        ReaderState::Reading(mut arrived) => {
            arrived.rest.extend_from_slice(piece)?;
            read_on(alloc, arrived)
        }
        ReaderState::Failed => Err(DeltaError::Failed),
    }
}

// What is whole when no piece comes any more.
fn end<A: Allocator + Copy>(state: ReaderState<A>) -> Result<OpList<A>, DeltaError>
    requires { IsReaderState state }
    ensures ok { IfOk result (λ ops. IfSome (fed state) (λ bytes. IsDeltaText bytes ops)) }
    ensures version { IsErrOf result DeltaError.Version → IfSome (fed state) (λ bytes. format_at bytes ≡ None) }
    ensures refused { IsErrOf result DeltaError.Refused → IfSome (fed state) (λ bytes. HasTag bytes × ((ops : List Operation) → ¬ IsDeltaText bytes ops)) }
    ensures failed { IsErrOf result DeltaError.Failed ↔ (fed state ≡ None) }
    ensures memory { ¬ IsErrOf result DeltaError.OutOfMemory }
{
    match state {
        ReaderState::Begun(bytes) => {
            if bytes.len() < 4 {
                return Err(DeltaError::Version);
            }
            Err(DeltaError::Refused)
        }
        ReaderState::Reading(arrived) => {
            let Arrived { count, ops, .. } = arrived;
            if ops.len() < count as usize {
                return Err(DeltaError::Refused);
            }
            Ok(OpList::of_rising(ops))
        }
        ReaderState::Failed => Err(DeltaError::Failed),
    }
}

/// Reads a delta that comes in pieces. A caller sees the bytes that were fed, and nothing after a refusal. The reader
/// keeps the operations that came whole and fewer than `MAX_OP_SIZE` bytes of the next. However the bytes are cut, a run of `feed`
/// and `finish` ends as `decode` of all of them would, want of memory aside.
#[derive(Drop)]
pub struct Reader<A: Allocator + Copy> {
    alloc: A,
    state: ReaderState<A>,
}

impl<A: Allocator + Copy> Model for Reader<A> {
    ghost use Rattle.std.specs.Prelude.{ℕ, List, Option};

    ghost Value = { Option (List ℕ) };

    ghost use Rattle.oct_delta.specs.ReaderState.{fed, IsReaderState};

    ghost view = { λ r. fed r.state };

    ghost invariant = { λ r. IsReaderState r.state };
}

impl<A: Allocator + Copy> Reader<A> {
    /// A reader to which nothing was fed.
    pub fn new(alloc: A) -> Reader<A>
        ensures { result ≡ Some [] }
    {
        Reader {
            alloc,
            state: ReaderState::Begun(Vec::new(alloc)),
        }
    }

    /// Takes the next piece. The answer is `Version` once the first four bytes are there and are no tag, and `Refused`
    /// only where no delta begins with the bytes; it comes before `MAX_OP_SIZE` bytes have followed the whole operations. After
    /// a refusal every call answers `Failed`.
    pub fn feed(&mut self, piece: &[u8]) -> Result<(), DeltaError>
        ensures ok { OnOk result (IfSome self.old (λ bytes. self.new ≡ Some (bytes ++ piece.now))) }
        ensures tag { OnOk result (IfSome self.new (λ bytes. ¬ IsForeign bytes)) }
        // The first four bytes are there, and are no tag.
        ensures version { IsErrOf result DeltaError.Version → IfSome self.old (λ bytes. IsForeign (bytes ++ piece.now)) }
        // The first four bytes are a tag, and no delta begins with the bytes.
        ensures refused { IsErrOf result DeltaError.Refused → IfSome self.old (λ bytes. HasTag (bytes ++ piece.now) × IsHopeless (bytes ++ piece.now)) }
        ensures failed { IsErrOf result DeltaError.Failed ↔ (self.old ≡ None) }
        ensures err { OnErr result (self.new ≡ None) }
    {
        let state = mem::replace(&mut self.state, ReaderState::Failed);
        self.state = advance(self.alloc, state, piece)?;
        Ok(())
    }

    /// The operations that are whole in the bytes that were fed. Fewer bytes than `MAX_OP_SIZE` follow them.
    pub fn items(&self) -> &[Op<A>]
        ensures whole { IfSome self.now (λ bytes. AreWhole bytes result.now) }
        ensures none { self.now ≡ None → result.now ≡ [] }
    {
        match &self.state {
            ReaderState::Reading(arrived) => &arrived.ops,
            _ => &[],
        }
    }

    /// What `decode` answers of the bytes that were fed.
    pub fn finish(self) -> Result<OpList<A>, DeltaError>
        ensures ok { IfOk result (λ ops. IfSome self (λ bytes. IsDeltaText bytes ops)) }
        ensures version { IsErrOf result DeltaError.Version → IfSome self (λ bytes. format_at bytes ≡ None) }
        ensures refused { IsErrOf result DeltaError.Refused → IfSome self (λ bytes. HasTag bytes × ((ops : List Operation) → ¬ IsDeltaText bytes ops)) }
        ensures failed { IsErrOf result DeltaError.Failed ↔ (self ≡ None) }
        ensures memory { ¬ IsErrOf result DeltaError.OutOfMemory }
    {
        let Reader { state, .. } = self;
        end(state)
    }
}

/// Reads a delta that was cut into these pieces, by feeding a `Reader` each in turn. However it is cut, the answer is that
/// of `decode` for all of the bytes, want of memory aside: the list that they spell, or `Version`, or `Refused`.
pub fn decode_pieces<A: Allocator + Copy>(
    alloc: A,
    pieces: &[&[u8]],
) -> Result<OpList<A>, DeltaError>
    ensures ok { IfOk result (λ ops. IsDeltaText (together pieces.now) ops) }
    ensures version { IsErrOf result DeltaError.Version → format_at (together pieces.now) ≡ None }
    ensures refused { IsErrOf result DeltaError.Refused → HasTag (together pieces.now) × ((ops : List Operation) → ¬ IsDeltaText (together pieces.now) ops) }
    ensures failed { ¬ IsErrOf result DeltaError.Failed }
{
    let mut reader = Reader::new(alloc);
    for piece in pieces {
        match reader.feed(*piece) {
            Ok(()) => {}
            Err(refused) => return Err(refused),
        }
    }
    reader.finish()
}
