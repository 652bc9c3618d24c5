//! Whether blocks have each of the first heaps of a game.

ghost use Rattle.std.specs.Prelude.{◌≡◌, ℕ, false, IfNone, IfOk, IfSome};
ghost use Rattle.std.specs.List.{list_any};
ghost use Rattle.oct_ops.specs.Operations.{listed};
ghost use Rattle.oct_left.specs.Covered.{is_covered, is_covered_by, tells};
ghost use Rattle.oct_left.specs.Spans.{has_heap};

use crate::span::{Span, first_missing};
use oct_code::Code;
use oct_join::OpSet;
use oct_ops::{Body, Op};
use oct_record::Record;
use std::alloc::{AllocError, Allocator};

/// Whether each of the heaps 1 to `count - 1` of the game lies in a block of what was said, whoever said it, and be it true or
/// not; the empty heap needs none. Where `count` is 0 or 1, that is so. It looks at the blocks of the game alone, sorts them by
/// their first heaps, and computes no nim-value. The one error is that memory is refused.
pub fn is_covered<A: Allocator + Copy>(
    said: &Record<A>,
    code: Code,
    count: u32,
) -> Result<bool, AllocError>
    ensures { IfOk result (λ covered. covered ≡ is_covered said.now.ops code count) }
{
    match said.game(code) {
        Some(ops) => are_covered(said.allocator(), ops, count),
        None => Ok(count <= 1),
    }
}

// Whether each of the first heaps lies in one of these blocks.
fn are_covered<A: Allocator + Copy>(
    alloc: A,
    ops: &OpSet<A>,
    count: u32,
) -> Result<bool, AllocError>
    ensures { IfOk result (λ covered. covered ≡ is_covered_by (listed ops.now) count) }
{
    let mut spans = spans(alloc, ops)?;
    spans.sort_unstable_by_key(|span| span.start);
    Ok(count <= first_missing(&spans))
}

// The heaps of each block.
fn spans<A: Allocator + Copy>(alloc: A, ops: &OpSet<A>) -> Result<Vec<Span, A>, AllocError>
    ensures { IfOk result (λ spans. (heap : ℕ) → list_any (has_heap heap) spans.items ≡ list_any (tells heap) (listed ops.now)) }
{
    let mut spans = Vec::new(alloc);
    for op in ops.iter() {
        let Some(span) = span_of(op) else {
            continue;
        };
        spans.push(span)?;
    }
    Ok(spans)
}

// The heaps of an operation that is a block.
fn span_of<A: Allocator>(op: &Op<A>) -> Option<Span>
    ensures block { IfSome result (λ span. (heap : ℕ) → has_heap heap span ≡ tells heap op.now) }
    ensures other { IfNone result ((heap : ℕ) → tells heap op.now ≡ false) }
{
    match op.body() {
        Body::Block(block) => Some(Span {
            start: block.start(),
            end: block.end(),
        }),
        Body::Period(_) | Body::Note(_) | Body::Removal(_) => None,
    }
}
