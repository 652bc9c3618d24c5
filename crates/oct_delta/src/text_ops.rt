//! The operations of a delta's text, one by one.

ghost use Rattle.std.specs.Prelude.{◌≡◌, ◌≢◌, ◌↔◌, ◌≤◌, List, [], ◌∷◌, Some, None, IfOk, IsErrOf, IsSome, MatchOption, OnErr};
ghost use Rattle.oct_ops.specs.Body.{Operation};
ghost use Rattle.oct_delta.specs.Delta.{IsDeltaText, IsList};
ghost use Rattle.oct_delta.specs.Decoding.{format_at, read_delta};

use crate::checking::check_list;
use crate::error::DeltaFault;
use crate::fault::ReadError;
use crate::format::split_tag;
use crate::input::Input;
use oct_code::LIMIT;
use oct_ops::Op;
use std::alloc::{AllocError, Allocator};
use std::marker::Model;

/// The operations of a delta's text, which was found right as a whole. Each is made when it is asked for, so that no list of
/// them takes memory beside where they go. It is seen as the list of those that are left.
///
///     let mut ops = read_ops(bytes)?;       // Version or Refused, as `decode` answers
///     while let Some(op) = ops.next(alloc)? {
///         set.insert(op)?;
///     }
#[derive(Drop)]
pub struct TextOps<'a> {
    input: Input<'a>,
    limit: usize,
    left: u32,
}

impl<'a> Model for TextOps<'a> {
    ghost use Rattle.std.specs.Prelude.{List};
    ghost use Rattle.oct_ops.specs.Body.{Operation};
    ghost use Rattle.oct_delta.specs.OneByOne.{ops_left, IsTextOps};

    ghost Value = { List Operation };

    ghost view = { λ t. ops_left t.limit t.left t.input };

    ghost invariant = { λ t. IsTextOps t.limit t.left t.input };
}

impl<'a> TextOps<'a> {
    // The operations that a list's text spells.
    fn new(limit: usize, list: &'a [u8]) -> TextOps<'a>
        requires low { limit ≤ LIMIT }
        requires list { (ops : List Operation) × IsList limit list.now ops }
        ensures { IsList limit list.now result }
    {
        let mut input = Input::new(list);
        match input.u32() {
            Ok(left) => TextOps { input, limit, left },
            Err(_) => unreachable!(),
        }
    }

    // How many operations are left.
    fn count(&self) -> u32 {
        self.left
    }

    /// The next operation, in memory of `alloc`, and none after the last. Memory can be refused only where an operation is
    /// left; then the same call may be made again.
    pub fn next<A: Allocator + Copy>(&mut self, alloc: A) -> Result<Option<Op<A>>, AllocError>
        ensures ok { IfOk result (λ next. MatchOption next ((self.old ≡ []) × (self.new ≡ [])) (λ op. self.old ≡ op ∷ self.new)) }
        ensures err { OnErr result (self.new ≡ self.old) }
        ensures due { OnErr result (self.old ≢ []) }
    {
        if self.left == 0 {
            return Ok(None);
        }
        let mut ahead = Input::new(self.input.rest());
        match ahead.op(alloc, self.limit) {
            Ok(op) => {
                self.input = ahead;
                self.left -= 1;
                Ok(Some(op))
            }
            Err(ReadError::Memory) => Err(AllocError),
            Err(ReadError::Fault(_)) => unreachable!(),
        }
    }
}

/// The operations that the bytes spell, in either format, to be made one by one. The bytes are checked as a whole, and nothing
/// grows. The answer is `Version` exactly where the first four bytes are no tag, and `Refused` for any other bytes that are no
/// delta.
pub fn read_ops(bytes: &[u8]) -> Result<TextOps<'_>, DeltaFault>
    ensures ok { IfOk result (λ ops. IsDeltaText bytes.now ops) }
    ensures read { IfOk result (λ ops. read_delta bytes.now ≡ Some ops) }
    ensures version { IsErrOf result DeltaFault.Version ↔ (format_at bytes.now ≡ None) }
    // The first four bytes are a tag, and the bytes are the text of no list.
    ensures refused { IsErrOf result DeltaFault.Refused ↔ (IsSome (format_at bytes.now) × ((ops : List Operation) → ¬ IsDeltaText bytes.now ops)) }
    ensures unread { IsErrOf result DeltaFault.Refused → read_delta bytes.now ≡ None }
{
    let Some((edition, list)) = split_tag(bytes) else {
        return Err(DeltaFault::Version);
    };
    let limit = edition.limit();
    if check_list(limit, list).is_err() {
        return Err(DeltaFault::Refused);
    }
    Ok(TextOps::new(limit, list))
}

/// The operations that are left, in memory. Only memory can be missing.
pub(crate) fn made<A: Allocator + Copy>(
    alloc: A,
    mut left: TextOps<'_>,
) -> Result<Vec<Op<A>, A>, AllocError>
    ensures { IfOk result (λ ops. ops.items ≡ left.entry) }
{
    let mut ops = Vec::with_capacity(alloc, left.count() as usize)?;
    while let Some(op) = left.next(alloc)? {
        ops.push(op)?;
    }
    Ok(ops)
}
