//! Fields from the front of the bytes, without memory.

ghost use Rattle.std.specs.Prelude.{◌≡◌, ◌==◌, ◌≤◌, length, IfOk, IsTrue};
ghost use Rattle.std.specs.Int.{w16, w32};
ghost use Rattle.oct_ops.specs.DotOrder.{dot_cmp};
ghost use Rattle.oct_delta.specs.Bytes.{IsBytes};
ghost use Rattle.oct_delta.specs.Reading.{Gives, byte_at, number_at, bytes_at, code_at, dot_at, front_at, is_range, note_at, period_at, follows, next_at, dot_count_at};

use crate::fault::TextFault;
use byteorder::{BigEndian, ByteOrder};
use oct_code::{Code, LIMIT};
use oct_ops::{Dot, MAX_ITEMS, Period, is_name, is_text};
use std::marker::Model;

/// The bytes that are still to be read.
#[derive(Drop)]
pub(crate) struct Input<'a> {
    bytes: &'a [u8],
}

impl<'a> Model for Input<'a> {
    ghost use Rattle.std.specs.Prelude.{ℕ, List};
    ghost use Rattle.oct_delta.specs.Bytes.{IsBytes};

    ghost Value = { List ℕ };

    ghost view = { λ i. i.bytes.now };

    ghost invariant = { λ i. IsBytes i.bytes.now };
}

/// The name and the text of a note.
#[derive(Clone, Copy)]
pub(crate) struct Words<'a> {
    pub(crate) name: &'a [u8],
    pub(crate) text: &'a [u8],
}

/// What stands before the values of a block.
#[derive(Drop)]
pub(crate) struct Front {
    pub(crate) code: Code,
    pub(crate) start: u32,
    pub(crate) count: u16,
}

impl<'a> Input<'a> {
    /// All the bytes.
    pub(crate) fn new(bytes: &'a [u8]) -> Input<'a>
        ensures value { result ≡ bytes.now }
        ensures bytes { IsBytes result }
    {
        Input { bytes }
    }

    /// The bytes that are still to be read.
    pub(crate) fn rest(&self) -> &'a [u8]
        ensures rest { result.now ≡ self.now }
        ensures bytes { IsBytes result.now }
    {
        self.bytes
    }

    /// Whether none is left.
    pub(crate) fn is_empty(&self) -> bool
        ensures { result ≡ (length self.now == 0) }
    {
        self.bytes.is_empty()
    }

    /// A byte.
    pub(crate) fn byte(&mut self) -> Result<u8, TextFault>
        ensures { Gives (λ x. (x, self.new)) result (byte_at self.old) }
    {
        match self.bytes {
            [] => Err(TextFault::Short),
            [byte, rest @ ..] => {
                self.bytes = rest;
                Ok(*byte)
            }
        }
    }

    /// So many bytes.
    pub(crate) fn bytes(&mut self, count: usize) -> Result<&'a [u8], TextFault>
        ensures { Gives (λ x. (x.now, self.new)) result (bytes_at count self.old) }
    {
        if self.bytes.len() < count {
            return Err(TextFault::Short);
        }
        let (front, rest) = self.bytes.split_at(count);
        self.bytes = rest;
        Ok(front)
    }

    /// A number of 16 bits, big-endian.
    #[tactic(auto, using(crate::proofs::Numbers::big_u16))]
    pub(crate) fn u16(&mut self) -> Result<u16, TextFault>
        ensures { Gives (λ x. (x, self.new)) result (number_at w16 self.old) }
    {
        let front = self.bytes(2)?;
        Ok(BigEndian::read_u16(front))
    }

    /// A number of 32 bits, big-endian.
    #[tactic(auto, using(crate::proofs::Numbers::big_u32))]
    pub(crate) fn u32(&mut self) -> Result<u32, TextFault>
        ensures { Gives (λ x. (x, self.new)) result (number_at w32 self.old) }
    {
        let front = self.bytes(4)?;
        Ok(BigEndian::read_u32(front))
    }

    /// A code: head, number of digits, digits.
    #[tactic(auto, unfolding(crate::specs::Reading::code_at))]
    pub(crate) fn code(&mut self) -> Result<Code, TextFault>
        ensures { Gives (λ x. (x, self.new)) result (code_at self.old) }
    {
        let head = self.byte()?;
        let count = self.byte()?;
        let digits = self.bytes(count as usize)?;
        match Code::from_digits(head, digits) {
            Ok(code) => Ok(code),
            Err(_) => Err(TextFault::Malformed),
        }
    }

    /// A dot.
    #[tactic(auto, unfolding(crate::specs::Reading::dot_at))]
    pub(crate) fn dot(&mut self) -> Result<Dot, TextFault>
        ensures { Gives (λ x. (x, self.new)) result (dot_at self.old) }
    {
        let author = self.u32()?;
        let number = self.u32()?;
        match Dot::new(author, number) {
            Ok(dot) => Ok(dot),
            Err(_) => Err(TextFault::Malformed),
        }
    }

    /// What stands before the values of a block, whose places are below the limit.
    #[tactic(auto, unfolding(crate::specs::Reading::front_at))]
    pub(crate) fn front(&mut self, limit: usize) -> Result<Front, TextFault>
        requires { limit ≤ LIMIT }
        ensures value { Gives (λ x. (x, self.new)) result (front_at limit self.old) }
        ensures range { IfOk result (λ x. IsTrue (is_range limit x.start x.count)) }
    {
        let code = self.code()?;
        let start = self.u32()?;
        let count = self.u16()?;
        if !is_range(limit, start, count) {
            return Err(TextFault::Malformed);
        }
        Ok(Front { code, start, count })
    }

    /// A period claim, whose start and period are at most the limit.
    #[tactic(auto, unfolding(crate::specs::Reading::period_at))]
    pub(crate) fn period(&mut self, limit: usize) -> Result<Period, TextFault>
        ensures { Gives (λ x. (x, self.new)) result (period_at limit self.old) }
    {
        let code = self.code()?;
        let start = self.u32()?;
        let period = self.u32()?;
        match Period::new(code, start, period) {
            Ok(claim) if start as usize <= limit && period as usize <= limit => Ok(claim),
            _ => Err(TextFault::Malformed),
        }
    }

    /// The name and the text of a note.
    #[tactic(auto, unfolding(crate::specs::Reading::note_at))]
    pub(crate) fn words(&mut self) -> Result<Words<'a>, TextFault>
        ensures { Gives (λ x. (record { name = x.name.now; text = x.text.now }, self.new)) result (note_at self.old) }
    {
        let name_length = self.byte()?;
        let name = self.bytes(name_length as usize)?;
        let text_length = self.byte()?;
        let text = self.bytes(text_length as usize)?;
        if !is_name(name) || !is_text(text) {
            return Err(TextFault::Malformed);
        }
        Ok(Words { name, text })
    }

    /// A dot above the one before.
    #[tactic(auto, unfolding(crate::specs::Reading::next_at))]
    pub(crate) fn next_dot(&mut self, before: Option<Dot>) -> Result<Dot, TextFault>
        ensures { Gives (λ x. (x, self.new)) result (next_at dot_cmp dot_at before self.old) }
    {
        let dot = self.dot()?;
        if !dot_follows(before, dot) {
            return Err(TextFault::Malformed);
        }
        Ok(dot)
    }

    /// How many dots a removal has: 1 to `MAX_ITEMS`.
    #[tactic(auto, unfolding(crate::specs::Reading::dot_count_at))]
    pub(crate) fn dot_count(&mut self) -> Result<u16, TextFault>
        ensures { Gives (λ x. (x, self.new)) result (dot_count_at self.old) }
    {
        let count = self.u16()?;
        if count == 0 || count as usize > MAX_ITEMS {
            return Err(TextFault::Malformed);
        }
        Ok(count)
    }
}

// Whether a block may have so many values from the start on.
fn is_range(limit: usize, start: u32, count: u16) -> bool
    ensures { result ≡ is_range limit start count }
{
    count >= 1 && count as usize <= MAX_ITEMS && start as usize + count as usize <= limit
}

// Whether the dot is above the one before.
fn dot_follows(before: Option<Dot>, dot: Dot) -> bool
    ensures { result ≡ follows dot_cmp before dot }
{
    match before {
        None => true,
        Some(before) => before.cmp(&dot).is_lt(),
    }
}
