//! Passing over operations, each as it should be, without memory.

ghost use Rattle.std.specs.Prelude.{◌≡◌, ◌≤◌, List, None, IfOk, OnOk, OnErr};
ghost use Rattle.std.specs.Ordering.{is_lt, nat_cmp};
ghost use Rattle.std.specs.Cmp.Lexicographic.{slice_cmp};
ghost use Rattle.oct_ops.specs.Body.{Operation};
ghost use Rattle.oct_delta.specs.Delta.{IsList};
ghost use Rattle.oct_delta.specs.Text.{op_bytes};
ghost use Rattle.oct_delta.specs.Passing.{Passed};
ghost use Rattle.oct_delta.specs.Reading.{Gives, skipped, numbers_at, dots_at, removal_at, block_at, op_at, body_at, ops_at};

use crate::fault::TextFault;
use crate::input::Input;
use oct_code::LIMIT;
use oct_ops::kinds;

// Whether a text comes after the one before, byte by byte.
fn is_greater(text: &[u8], previous: &[u8]) -> bool
    ensures { result ≡ is_lt (slice_cmp nat_cmp previous.now text.now) }
{
    previous.cmp(text).is_lt()
}

impl<'a> Input<'a> {
    // Passes over so many numbers of 32 bits.
    fn skip_numbers(&mut self, count: u16) -> Result<(), TextFault>
        ensures { Gives (λ _. self.new) result (skipped (numbers_at count self.old)) }
    {
        self.bytes(4 * count as usize)?;
        Ok(())
    }

    // Passes over a block within the limit.
    #[tactic(auto, unfolding(crate::specs::Reading::block_at))]
    fn skip_block(&mut self, limit: usize) -> Result<(), TextFault>
        requires { limit ≤ LIMIT }
        ensures { Gives (λ _. self.new) result (skipped (block_at limit self.old)) }
    {
        let front = self.front(limit)?;
        self.skip_numbers(front.count)
    }

    // Passes over so many dots, each above the one before.
    fn skip_dots(&mut self, count: u16) -> Result<(), TextFault>
        ensures { Gives (λ _. self.new) result (skipped (dots_at count self.old)) }
    {
        let mut before = None;
        for _ in 0..count {
            before = Some(self.next_dot(before)?);
        }
        Ok(())
    }

    // Passes over a removal.
    #[tactic(auto, unfolding(crate::specs::Reading::removal_at))]
    fn skip_removal(&mut self) -> Result<(), TextFault>
        ensures { Gives (λ _. self.new) result (skipped (removal_at self.old)) }
    {
        let count = self.dot_count()?;
        self.skip_dots(count)
    }

    // Passes over a body of the kind.
    #[tactic(auto, unfolding(crate::specs::Reading::body_at))]
    fn skip_body(&mut self, limit: usize, kind: u8) -> Result<(), TextFault>
        requires { limit ≤ LIMIT }
        ensures { Gives (λ _. self.new) result (skipped (body_at limit kind self.old)) }
    {
        match kind {
            kinds::BLOCK => self.skip_block(limit),
            kinds::PERIOD => {
                self.period(limit)?;
                Ok(())
            }
            kinds::NOTE => {
                self.words()?;
                Ok(())
            }
            kinds::REMOVAL => self.skip_removal(),
            _ => Err(TextFault::Malformed),
        }
    }

    /// Passes over an operation.
    #[tactic(auto, unfolding(crate::specs::Reading::op_at))]
    pub(crate) fn skip_op(&mut self, limit: usize) -> Result<(), TextFault>
        requires { limit ≤ LIMIT }
        ensures { Gives (λ _. self.new) result (skipped (op_at limit self.old)) }
    {
        self.dot()?;
        let kind = self.byte()?;
        self.skip_body(limit, kind)
    }

    /// Passes over an operation, and gives its text.
    pub(crate) fn op_text(&mut self, limit: usize) -> Result<&'a [u8], TextFault>
        requires { limit ≤ LIMIT }
        ensures value { Gives (λ _. self.new) result (skipped (op_at limit self.old)) }
        ensures text { IfOk result (λ text. (o : Operation) × Passed limit self.old self.new o × (text.now ≡ op_bytes o)) }
    {
        let before = self.rest();
        self.skip_op(limit)?;
        Ok(&before[..before.len() - self.rest().len()])
    }

    /// Passes over so many operations, each of them above the one before.
    pub(crate) fn skip_ops(&mut self, limit: usize, count: u32) -> Result<(), TextFault>
        requires { limit ≤ LIMIT }
        ensures { Gives (λ _. self.new) result (skipped (ops_at limit count self.old)) }
    {
        let mut previous: &[u8] = &[];
        for _ in 0..count {
            let text = self.op_text(limit)?;
            if !is_greater(text, previous) {
                return Err(TextFault::Malformed);
            }
            previous = text;
        }
        Ok(())
    }
}

/// Whether the bytes are the text of a rising list of operations, without memory.
pub(crate) fn check_list(limit: usize, bytes: &[u8]) -> Result<(), TextFault>
    requires { limit ≤ LIMIT }
    ensures ok { OnOk result ((ops : List Operation) × IsList limit bytes.now ops) }
    ensures err { OnErr result ((ops : List Operation) → IsList limit bytes.now ops → ⊥) }
{
    let mut input = Input::new(bytes);
    let count = input.u32()?;
    input.skip_ops(limit, count)?;
    if !input.is_empty() {
        return Err(TextFault::Malformed);
    }
    Ok(())
}
