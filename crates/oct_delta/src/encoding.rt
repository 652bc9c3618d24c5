//! Deltas as bytes.
#![tactic(auto, using(oct_ops::proofs::Growing::growing))]

ghost use Rattle.std.specs.Prelude.{◌≡◌, ◌↔◌, ◌≤◌, ◌<◌, ◌^◌, ◌∷◌, ◌++◌, [], length, OnOk, OnErr, IsErrOf};
ghost use Rattle.std.specs.List.{list_all};
ghost use Rattle.oct_ops.specs.Limits.{keeps_old_limits};
ghost use Rattle.oct_ops.specs.Views.{content};
ghost use Rattle.oct_delta.specs.Text.{code_bytes, dot_bytes, block_bytes, note_bytes, period_bytes, removal_bytes, body_bytes, op_bytes, u16, u32};
ghost use Rattle.oct_delta.specs.Delta.{format_of, delta_bytes, encoded};
ghost use Rattle.oct_delta.specs.Formats.{format};
ghost use Rattle.oct_ops.specs.Growth.{Extends};

use crate::error::EncodeError;
use crate::format::Edition;
use crate::output::{Put, put_byte, put_bytes, put_each, put_u16, put_u32};
use oct_code::Code;
use oct_ops::{Block, Body, Dot, Note, Op, OpList, Period, Removal};
use std::alloc::{AllocError, Allocator};

impl Put for Dot {
    ghost spelled = { dot_bytes };

    fn put<A: Allocator>(&self, out: &mut Vec<u8, A>) -> Result<(), AllocError> {
        put_u32(out, self.author())?;
        put_u32(out, self.number())
    }
}

// Appends a code: head, number of digits, digits.
fn put_code<A: Allocator>(out: &mut Vec<u8, A>, code: Code) -> Result<(), AllocError>
    ensures ok { OnOk result (out.new.items ≡ out.old.items ++ code_bytes code) }
    ensures kept { Extends out.old.items out.new.items }
{
    put_byte(out, code.head())?;
    put_byte(out, code.len() as u8)?;
    put_bytes(out, code.digits())
}

// Appends a block.
fn put_block<A: Allocator, B: Allocator>(
    out: &mut Vec<u8, A>,
    block: &Block<B>,
) -> Result<(), AllocError>
    ensures ok { OnOk result (out.new.items ≡ out.old.items ++ block_bytes block.now) }
    ensures kept { Extends out.old.items out.new.items }
{
    let values = block.values();
    put_code(out, block.code())?;
    put_u32(out, block.start())?;
    put_u16(out, values.len() as u16)?;
    put_each(out, values)
}

// Appends a period claim.
fn put_period<A: Allocator>(out: &mut Vec<u8, A>, period: &Period) -> Result<(), AllocError>
    ensures ok { OnOk result (out.new.items ≡ out.old.items ++ period_bytes period.now) }
    ensures kept { Extends out.old.items out.new.items }
{
    put_code(out, period.code())?;
    put_u32(out, period.start())?;
    put_u32(out, period.period())
}

// Appends a note.
fn put_note<A: Allocator, B: Allocator>(
    out: &mut Vec<u8, A>,
    note: &Note<B>,
) -> Result<(), AllocError>
    ensures ok { OnOk result (out.new.items ≡ out.old.items ++ note_bytes note.now) }
    ensures kept { Extends out.old.items out.new.items }
{
    let name = note.name();
    let text = note.text();
    put_byte(out, name.len() as u8)?;
    put_bytes(out, name)?;
    put_byte(out, text.len() as u8)?;
    put_bytes(out, text)
}

// Appends a removal.
fn put_removal<A: Allocator, B: Allocator>(
    out: &mut Vec<u8, A>,
    removal: &Removal<B>,
) -> Result<(), AllocError>
    ensures ok { OnOk result (out.new.items ≡ out.old.items ++ removal_bytes removal.now) }
    ensures kept { Extends out.old.items out.new.items }
{
    let dots = removal.dots();
    put_u16(out, dots.len() as u16)?;
    put_each(out, dots)
}

// Appends a body, without its kind.
fn put_body<A: Allocator, B: Allocator>(
    out: &mut Vec<u8, A>,
    body: &Body<B>,
) -> Result<(), AllocError>
    ensures ok { OnOk result (out.new.items ≡ out.old.items ++ body_bytes (content body.now)) }
    ensures kept { Extends out.old.items out.new.items }
{
    match body {
        Body::Block(block) => put_block(out, block),
        Body::Period(period) => put_period(out, period),
        Body::Note(note) => put_note(out, note),
        Body::Removal(removal) => put_removal(out, removal),
    }
}

impl<B: Allocator> Put for Op<B> {
    ghost spelled = { op_bytes };

    fn put<A: Allocator>(&self, out: &mut Vec<u8, A>) -> Result<(), AllocError> {
        self.dot().put(out)?;
        put_byte(out, self.body().kind())?;
        put_body(out, self.body())
    }
}

// Whether each operation keeps the limits of the first edition.
fn keep_old_limits<A: Allocator>(ops: &[Op<A>]) -> bool
    ensures { result ≡ list_all keeps_old_limits ops.now }
{
    ops.iter().all(|op| op.keeps_old_limits())
}

// The edition of the text: the first where it can spell all operations.
fn edition_of<A: Allocator>(ops: &[Op<A>]) -> Edition
    ensures { format result ≡ format_of ops.now }
{
    if keep_old_limits(ops) {
        Edition::First
    } else {
        Edition::Second
    }
}

// Appends a tag, a count and the operations.
fn put_delta<A: Allocator>(out: &mut Vec<u8, A>, ops: &[Op<A>]) -> Result<(), AllocError>
    requires { length ops.now < 2 ^ 32 }
    ensures ok { OnOk result (out.new.items ≡ out.old.items ++ encoded ops.now) }
    ensures kept { Extends out.old.items out.new.items }
{
    put_bytes(out, &edition_of(ops).tag())?;
    put_u32(out, ops.len() as u32)?;
    put_each(out, ops)
}

/// Appends the one text of a list that is written to `out`: in the old format where all operations keep its
/// limits, else in the new one. After a refusal `out` is as it was. The answer is `TooMany` exactly where the length
/// of the list is no `u32`.
pub fn encode<A: Allocator>(list: &OpList<A>, out: &mut Vec<u8, A>) -> Result<(), EncodeError>
    ensures ok { OnOk result (out.new.items ≡ out.old.items ++ encoded list.now) }
    ensures too_many { IsErrOf result EncodeError.TooMany ↔ (2 ^ 32 ≤ length list.now) }
    ensures err { OnErr result (out.new.items ≡ out.old.items) }
{
    if list.len() > u32::MAX as usize {
        return Err(EncodeError::TooMany);
    }
    let length = out.len();
    if put_delta(out, list.as_slice()).is_err() {
        out.truncate(length);
        return Err(EncodeError::OutOfMemory);
    }
    Ok(())
}

// How many bytes the text of a block has.
fn block_size<A: Allocator>(block: &Block<A>) -> usize
    ensures size { result ≡ length (block_bytes block.now) }
    ensures small { result ≤ 4120 }
{
    8 + block.code().len() + 4 * block.values().len()
}

// How many bytes the text of a period claim has.
fn period_size(period: &Period) -> usize
    ensures size { result ≡ length (period_bytes period.now) }
    ensures small { result ≤ 26 }
{
    10 + period.code().len()
}

// How many bytes the text of a note has.
fn note_size<A: Allocator>(note: &Note<A>) -> usize
    ensures size { result ≡ length (note_bytes note.now) }
    ensures small { result ≤ 234 }
{
    2 + note.name().len() + note.text().len()
}

// How many bytes the text of a removal has.
fn removal_size<A: Allocator>(removal: &Removal<A>) -> usize
    ensures size { result ≡ length (removal_bytes removal.now) }
    ensures small { result ≤ 8194 }
{
    2 + 8 * removal.dots().len()
}

/// The most bytes of an operation's text, which a removal of `MAX_ITEMS` dots has.
pub const MAX_OP_SIZE: usize = 8_203;

/// How many bytes the text of an operation has.
pub fn op_size<A: Allocator>(op: &Op<A>) -> usize
    ensures size { result ≡ length (op_bytes op.now) }
    ensures small { result ≤ MAX_OP_SIZE }
{
    let body = match op.body() {
        Body::Block(block) => block_size(block),
        Body::Period(period) => period_size(period),
        Body::Note(note) => note_size(note),
        Body::Removal(removal) => removal_size(removal),
    };
    9 + body
}
