//! Operations as they come whole.

ghost use Rattle.std.specs.Prelude.{◌≡◌, ◌≤◌, ◌-◌, length};
ghost use Rattle.oct_ops.specs.Order.{op_cmp};
ghost use Rattle.oct_delta.specs.Reading.{GivesIfRoom, follows, next_op_at, with_front};
ghost use Rattle.oct_delta.specs.Streaming.{last_of, GivesNext, whole_at};

use crate::fault::{ReadError, TextFault};
use crate::input::Input;
use oct_code::LIMIT;
use oct_ops::Op;
use std::alloc::Allocator;

// Whether the operation is above the last of these.
fn follows<A: Allocator>(ops: &[Op<A>], op: &Op<A>) -> bool
    ensures { result ≡ follows op_cmp (last_of ops.now) op.now }
{
    match ops.last() {
        None => true,
        Some(last) => last.cmp(op).is_lt(),
    }
}

impl<'a> Input<'a> {
    /// The next operation if it is whole. If it is not, nothing is read, and no memory taken.
    #[tactic(auto, unfolding(crate::specs::Reading::next_at))]
    fn next_op<A: Allocator + Copy>(
        &mut self,
        alloc: A,
        limit: usize,
        ops: &[Op<A>],
    ) -> Result<Option<Op<A>>, ReadError>
        requires { limit ≤ LIMIT }
        ensures { GivesNext result self.old self.new (next_op_at limit (last_of ops.now) self.old) }
    {
        let mut ahead = Input::new(self.rest());
        match ahead.skip_op(limit) {
            Ok(()) => {}
            Err(TextFault::Short) => return Ok(None),
            Err(TextFault::Malformed) => return Err(ReadError::Fault(TextFault::Malformed)),
        }
        match self.op(alloc, limit) {
            Ok(op) => {
                if !follows(ops, &op) {
                    return Err(ReadError::Fault(TextFault::Malformed));
                }
                Ok(Some(op))
            }
            Err(ReadError::Memory) => Err(ReadError::Memory),
            Err(ReadError::Fault(_)) => Err(ReadError::Fault(TextFault::Malformed)),
        }
    }

    /// Appends the operations that are whole, until there are so many.
    pub(crate) fn whole_ops<A: Allocator + Copy>(
        &mut self,
        alloc: A,
        limit: usize,
        count: u32,
        ops: &mut Vec<Op<A>, A>,
    ) -> Result<(), ReadError>
        requires low { limit ≤ LIMIT }
        requires room { length ops.old.items ≤ count }
        ensures { GivesIfRoom (λ _. (ops.new.items, self.new)) result (with_front ops.old.items (whole_at limit (last_of ops.old.items) (count - length ops.old.items) self.old)) }
    {
        for _ in ops.len()..count as usize {
            match self.next_op(alloc, limit, ops)? {
                Some(op) => ops.push(op)?,
                None => return Ok(()),
            }
        }
        Ok(())
    }
}
