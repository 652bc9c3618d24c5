//! Notes.

ghost use Rattle.std.specs.Prelude.{◌≡◌, ◌++◌, IfOk, IfErr, OnOk};
ghost use Rattle.oct_ops.specs.Faults.{are_name_bytes, are_text_bytes, is_name, is_text, note_fault, IsFaultOrMemory};
ghost use Rattle.oct_ops.specs.Operation.{noted};
ghost use Rattle.oct_ops.specs.Valid.{IsNote};

use crate::error::NoteError;
use crate::items::compare;
use crate::limits::{MAX_NAME, MAX_TEXT};
use std::alloc::{AllocError, Allocator};
use std::cmp::Ordering;
use std::marker::Model;

/// A text under a name. Notes are ordered by name, then by text, a shorter one first.
#[derive(Drop)]
pub struct Note<A: Allocator> {
    name_len: u8,
    // The name, and then the text.
    bytes: Vec<u8, A>,
}

impl<A: Allocator> Model for Note<A> {
    ghost use Rattle.oct_ops.specs.Operation.{Note as NoteValue};
    ghost use Rattle.oct_ops.specs.NoteBytes.{note_of, IsStored};

    ghost Value = { NoteValue };

    ghost view = { λ n. note_of n.name_len n.bytes.items };

    ghost invariant = { λ n. IsStored n.name_len n.bytes.items };
}

// Whether each byte may stand in a name.
fn are_name_bytes(bytes: &[u8]) -> bool
    ensures { result ≡ are_name_bytes bytes.now }
{
    bytes
        .iter()
        .all(|byte| matches!(*byte, b'a'..=b'z' | b'0'..=b'9' | b'-'))
}

// Whether each byte may stand in a text.
fn are_text_bytes(bytes: &[u8]) -> bool
    ensures { result ≡ are_text_bytes bytes.now }
{
    bytes.iter().all(|byte| matches!(*byte, b' '..=b'~'))
}

/// Whether the bytes are the name of a note: 1 to `MAX_NAME` of `a-z`, `0-9` and `-`.
pub fn is_name(name: &[u8]) -> bool
    ensures { result ≡ is_name name.now }
{
    !name.is_empty() && name.len() <= MAX_NAME && are_name_bytes(name)
}

/// Whether the bytes are the text of a note: at most `MAX_TEXT`, from the space to the tilde.
pub fn is_text(text: &[u8]) -> bool
    ensures { result ≡ is_text text.now }
{
    text.len() <= MAX_TEXT && are_text_bytes(text)
}

// The bytes of a name, and then those of a text, in memory of `alloc` that is asked for once.
fn joined<A: Allocator>(alloc: A, name: &[u8], text: &[u8]) -> Result<Vec<u8, A>, AllocError>
    ensures { IfOk result (λ bytes. bytes.items ≡ name.now ++ text.now) }
{
    let mut bytes = Vec::with_capacity(alloc, name.len() + text.len())?;
    bytes.extend_from_slice(name)?;
    bytes.extend_from_slice(text)?;
    Ok(bytes)
}

impl<A: Allocator> Note<A> {
    /// A note of this name and text, in memory of `alloc`. A refusal names the first fault, in the order of `NoteError`;
    /// memory is asked for only where there is none.
    pub fn new(alloc: A, name: &[u8], text: &[u8]) -> Result<Note<A>, NoteError>
        ensures ok { IfOk result (λ note. note ≡ noted name.now text.now) }
        ensures accepted { OnOk result (note_fault (noted name.now text.now) ≡ None) }
        ensures fault { IfErr result (IsFaultOrMemory (note_fault (noted name.now text.now))) }
    {
        if !is_name(name) {
            return Err(NoteError::Name);
        }
        if !is_text(text) {
            return Err(NoteError::Text);
        }
        match joined(alloc, name, text) {
            Ok(bytes) => Ok(Note {
                name_len: name.len() as u8,
                bytes,
            }),
            Err(AllocError) => Err(NoteError::OutOfMemory),
        }
    }

    /// The name: 1 to `MAX_NAME` bytes of `a-z`, `0-9` and `-`.
    pub fn name(&self) -> &[u8]
        ensures value { result.now ≡ self.now.name }
        ensures valid { IsNote self.now }
    {
        &self.bytes[..usize::from(self.name_len)]
    }

    /// The text: at most `MAX_TEXT` bytes, from the space to the tilde.
    pub fn text(&self) -> &[u8]
        ensures value { result.now ≡ self.now.text }
        ensures valid { IsNote self.now }
    {
        &self.bytes[usize::from(self.name_len)..]
    }

    /// A note that is equal to this one, in memory of `alloc`.
    pub fn copy(&self, alloc: A) -> Result<Note<A>, AllocError>
        ensures { IfOk result (λ copy. copy ≡ self.now) }
    {
        Ok(Note {
            name_len: self.name_len,
            bytes: Vec::from_slice(alloc, &self.bytes)?,
        })
    }
}

impl<A: Allocator> PartialEq for Note<A> {
    ghost use Rattle.std.specs.Ordering.{eq_by_cmp};
    ghost use Rattle.oct_ops.specs.Order.{note_cmp};
    ghost use Rattle.oct_ops.specs.OrderLaws.{note_eq_partial};

    ghost eq = { eq_by_cmp note_cmp };

    ghost laws = { note_eq_partial };

    fn eq(&self, other: &Note<A>) -> bool {
        self.cmp(other).is_eq()
    }
}

impl<A: Allocator> Eq for Note<A> {
    ghost use Rattle.oct_ops.specs.OrderLaws.{note_eq_equiv};

    ghost laws = { note_eq_equiv };
}

impl<A: Allocator> Ord for Note<A> {
    ghost use Rattle.std.specs.Prelude.{refl};
    ghost use Rattle.oct_ops.specs.Order.{note_cmp};
    ghost use Rattle.oct_ops.specs.OrderLaws.{note_cmp_total};

    ghost cmp = { note_cmp };

    ghost total = { note_cmp_total };

    ghost matches_partial_cmp = { λ a b. refl };

    ghost matches_eq = { λ a b. refl };

    fn cmp(&self, other: &Note<A>) -> Ordering {
        match compare(self.name(), other.name()) {
            Ordering::Equal => compare(self.text(), other.text()),
            names => names,
        }
    }
}

impl<A: Allocator> PartialOrd for Note<A> {
    ghost use Rattle.std.specs.Ordering.{as_partial_cmp};
    ghost use Rattle.oct_ops.specs.Order.{note_cmp};
    ghost use Rattle.oct_ops.specs.OrderLaws.{note_partial_order};

    ghost partial_cmp = { as_partial_cmp note_cmp };

    ghost laws = { note_partial_order };

    fn partial_cmp(&self, other: &Note<A>) -> Option<Ordering> {
        Some(self.cmp(other))
    }
}
