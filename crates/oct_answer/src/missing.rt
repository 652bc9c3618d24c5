//! What a client is still to be sent.

ghost use Rattle.std.specs.Prelude.{◌≡◌, ◌≢◌, ◌↔◌, ◌+◌, ◌<◌, ◌≤◌, ◌++◌, [], length, IsTrue, IfOk, OnOk, OnErr};
ghost use Rattle.oct_answer.specs.Left.{left, IsNext};
ghost use Rattle.oct_sync.specs.Session.{missing_frames};

use crate::frames::{may_follow, put_end, put_pack};
use crate::snapshot::Snapshot;
use oct_delta::op_size;
use oct_join::Clock;
use oct_ops::Op;
use std::alloc::{AllocError, Allocator};
use std::marker::Model;
use std::rc::Rc;

/// What a client is still to be sent of a snapshot, the operations that its clock does not cover and an end. It is seen as the
/// bytes of these frames. Beside the clock it is a place in the snapshot.
#[derive(Drop)]
pub struct Missing<A: Allocator + Copy> {
    snapshot: Rc<Snapshot<A>, A>,
    clock: Clock<A>,
    /// How many operations of the snapshot were gone over.
    at: usize,
    /// Whether the end was sent.
    is_over: bool,
    alloc: A,
}

/// The operations of the next frame.
#[derive(Drop)]
struct Next<A: Allocator> {
    ops: Vec<Op<A>, A>,
    /// How many bytes their texts have.
    size: usize,
    /// How many operations of the snapshot are gone over with them.
    end: usize,
}

impl<A: Allocator + Copy> Model for Missing<A> {
    ghost use Rattle.oct_delta.specs.Text.{Bytes};
    ghost use Rattle.oct_answer.specs.Left.{left};

    ghost Value = { Bytes };

    ghost view = { λ m. left m.snapshot.value m.clock m.at m.is_over };
}

impl<A: Allocator + Copy> Missing<A> {
    /// What a client with this clock is sent.
    pub fn new(alloc: A, snapshot: Rc<Snapshot<A>, A>, clock: Clock<A>) -> Missing<A>
        ensures { result ≡ missing_frames snapshot.value clock }
    {
        Missing {
            snapshot,
            clock,
            at: 0,
            is_over: false,
            alloc,
        }
    }

    /// Whether all was sent.
    pub fn is_over(&self) -> bool
        ensures { IsTrue result ↔ (self.now ≡ []) }
    {
        self.is_over
    }

    /// Appends the next frame to `out`, a delta's or the end's, which has at most 1,048,580 bytes; none where all was sent. After
    /// a refusal nothing has changed.
    pub fn put_next(&mut self, out: &mut Vec<u8, A>) -> Result<(), AllocError>
        ensures ok { OnOk result (out.new.items ++ self.new ≡ out.old.items ++ self.old) }
        ensures some { OnOk result (self.old ≢ [] → length out.old.items < length out.new.items) }
        ensures few { OnOk result (length out.new.items ≤ length out.old.items + 1_048_580) }
        ensures err { OnErr result (out.new.items ≡ out.old.items) }
        ensures same { OnErr result (self.new ≡ self.old) }
    {
        if self.is_over {
            return Ok(());
        }
        let next = next_frame(self.alloc, &self.snapshot, &self.clock, self.at)?;
        if next.ops.is_empty() {
            put_end(out)?;
            self.is_over = true;
            return Ok(());
        }
        put_pack(out, next.ops, next.size)?;
        self.at = next.end;
        Ok(())
    }
}

// The operations of the next frame to one whose clock is this, behind the first so many of the snapshot; none where the end is
// next.
fn next_frame<A: Allocator + Copy>(
    alloc: A,
    held: &Snapshot<A>,
    clock: &Clock<A>,
    at: usize,
) -> Result<Next<A>, AllocError>
    ensures { IfOk result (λ next. IsNext held.now clock.now at next.ops.items next.size next.end) }
{
    let rest = held.from(at);
    let mut ops = Vec::new(alloc);
    let mut size = 0;
    for (count, shared) in rest.iter().enumerate() {
        let op = shared.op();
        if clock.covers(&op.dot()) {
            continue;
        }
        if !may_follow(&ops, size, op) {
            let end = at + count;
            return Ok(Next { ops, size, end });
        }
        size += op_size(op);
        let copy = op.copy(alloc)?;
        ops.push(copy)?;
    }
    let end = at + rest.len();
    Ok(Next { ops, size, end })
}
