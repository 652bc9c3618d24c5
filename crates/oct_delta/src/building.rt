//! Operations from the front of the bytes, in memory.

ghost use Rattle.std.specs.Prelude.{◌≡◌, ◌≤◌, length, IfOk};
ghost use Rattle.oct_ops.specs.Views.{content};
ghost use Rattle.oct_delta.specs.Reading.{GivesIfRoom, numbers_at, dots_at, removal_at, block_at, note_at, op_at, body_at};

use crate::fault::{ReadError, TextFault};
use crate::input::Input;
use oct_code::LIMIT;
use oct_ops::{Block, Body, Dot, Note, NoteError, Op, Removal, kinds};
use std::alloc::Allocator;

impl Input<'_> {
    // So many numbers of 32 bits.
    fn numbers<A: Allocator>(&mut self, alloc: A, count: u16) -> Result<Vec<u32, A>, ReadError>
        ensures value { GivesIfRoom (λ x. (x.items, self.new)) result (numbers_at count self.old) }
        ensures len { IfOk result (λ x. length x.items ≡ count) }
    {
        let mut numbers = Vec::with_capacity(alloc, count as usize)?;
        for _ in 0..count {
            let number = self.u32()?;
            numbers.push_reserved(number);
        }
        Ok(numbers)
    }

    // A block within the limit.
    #[tactic(auto, unfolding(crate::specs::Reading::block_at))]
    fn block<A: Allocator>(&mut self, alloc: A, limit: usize) -> Result<Block<A>, ReadError>
        requires { limit ≤ LIMIT }
        ensures { GivesIfRoom (λ x. (x, self.new)) result (block_at limit self.old) }
    {
        let front = self.front(limit)?;
        let values = self.numbers(alloc, front.count)?;
        match Block::new(front.code, front.start, values) {
            Ok(block) => Ok(block),
            Err(_) => Err(ReadError::Fault(TextFault::Malformed)),
        }
    }

    // A note.
    #[tactic(auto, unfolding(crate::specs::Reading::note_at))]
    fn note<A: Allocator + Copy>(&mut self, alloc: A) -> Result<Note<A>, ReadError>
        ensures { GivesIfRoom (λ x. (x, self.new)) result (note_at self.old) }
    {
        let words = self.words()?;
        match Note::new(alloc, words.name, words.text) {
            Ok(note) => Ok(note),
            Err(NoteError::OutOfMemory) => Err(ReadError::Memory),
            Err(NoteError::Name) => Err(ReadError::Fault(TextFault::Malformed)),
            Err(NoteError::Text) => Err(ReadError::Fault(TextFault::Malformed)),
        }
    }

    // So many dots, each above the one before.
    fn dots<A: Allocator>(&mut self, alloc: A, count: u16) -> Result<Vec<Dot, A>, ReadError>
        ensures { GivesIfRoom (λ x. (x.items, self.new)) result (dots_at count self.old) }
    {
        let mut dots = Vec::with_capacity(alloc, count as usize)?;
        let mut before = None;
        for _ in 0..count {
            let dot = self.next_dot(before)?;
            dots.push_reserved(dot);
            before = Some(dot);
        }
        Ok(dots)
    }

    // A removal.
    #[tactic(auto, unfolding(crate::specs::Reading::removal_at))]
    fn removal<A: Allocator>(&mut self, alloc: A) -> Result<Removal<A>, ReadError>
        ensures { GivesIfRoom (λ x. (x, self.new)) result (removal_at self.old) }
    {
        let count = self.dot_count()?;
        let dots = self.dots(alloc, count)?;
        match Removal::new(dots) {
            Ok(removal) => Ok(removal),
            Err(_) => Err(ReadError::Fault(TextFault::Malformed)),
        }
    }

    // A body of the kind.
    #[tactic(auto, unfolding(crate::specs::Reading::body_at))]
    fn body<A: Allocator + Copy>(
        &mut self,
        alloc: A,
        limit: usize,
        kind: u8,
    ) -> Result<Body<A>, ReadError>
        requires { limit ≤ LIMIT }
        ensures { GivesIfRoom (λ x. (content x, self.new)) result (body_at limit kind self.old) }
    {
        match kind {
            kinds::BLOCK => Ok(Body::Block(self.block(alloc, limit)?)),
            kinds::PERIOD => Ok(Body::Period(self.period(limit)?)),
            kinds::NOTE => Ok(Body::Note(self.note(alloc)?)),
            kinds::REMOVAL => Ok(Body::Removal(self.removal(alloc)?)),
            _ => Err(ReadError::Fault(TextFault::Malformed)),
        }
    }

    /// An operation.
    #[tactic(auto, unfolding(crate::specs::Reading::op_at))]
    pub(crate) fn op<A: Allocator + Copy>(
        &mut self,
        alloc: A,
        limit: usize,
    ) -> Result<Op<A>, ReadError>
        requires { limit ≤ LIMIT }
        ensures { GivesIfRoom (λ x. (x, self.new)) result (op_at limit self.old) }
    {
        let dot = self.dot()?;
        let kind = self.byte()?;
        let body = self.body(alloc, limit, kind)?;
        Ok(Op::new(dot, body))
    }
}
