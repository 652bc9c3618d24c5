//! What is wrong with the words of a note.

use census_failure::{Failure, shown_bytes};
use census_state::Fault;
use oct_ops::NoteError;
use std::alloc::{AllocError, Global};

/// The failure of the words of a note.
pub(crate) fn of_note(alloc: Global, fault: Fault, name: &[u8], text: &[u8]) -> Failure {
    match fault {
        Fault::Note(NoteError::Name) => Failure::from(fault).found(name_text(alloc, name)),
        Fault::Note(NoteError::Text) => Failure::from(fault).found(note_text(alloc, text)),
        _ => Failure::from(fault),
    }
}

// What is wrong with the name of a note.
fn name_text(alloc: Global, name: &[u8]) -> Result<String, AllocError> {
    match name.iter().find(|byte| !is_of_name(**byte)) {
        Some(byte) => {
            let (name, byte) = (shown_bytes(alloc, name)?, shown_bytes(alloc, &[*byte])?);
            format!(in alloc; "the name `{name}` has a `{byte}`, which is none of a-z, 0-9 and -")
        }
        None => format!(in alloc; "the name has {} bytes, and not 1 to 32", name.len()),
    }
}

// Whether a name may have the byte.
fn is_of_name(byte: u8) -> bool {
    byte.is_ascii_lowercase() || byte.is_ascii_digit() || byte == b'-'
}

// What is wrong with the text of a note.
fn note_text(alloc: Global, text: &[u8]) -> Result<String, AllocError> {
    let front = text.iter().take_while(|byte| is_of_text(**byte)).count();
    match text.get(front) {
        Some(byte) => {
            let (byte, place) = (shown_bytes(alloc, &[*byte])?, front.saturating_add(1));
            format!(in alloc;
                "byte {place} of the text is {byte}, which is no printable ASCII (32 to 126)"
            )
        }
        None => format!(in alloc; "the text has {} bytes, and not at most 200", text.len()),
    }
}

// Whether a text may have the byte.
fn is_of_text(byte: u8) -> bool {
    (32..=126).contains(&byte)
}
