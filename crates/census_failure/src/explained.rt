//! What is said of a fault behind its line, and by `census explain`.

use crate::failure::{Failure, Reason};
use crate::fault_words::{FaultWords, faults, words_of};
use crate::showing::system_text;
use census_state::Fault;
use std::alloc::{AllocError, Global};
use std::io::ErrorKind;

// The most bytes of what is said of one fault.
const MOST: usize = 300;

/// The lines that stand behind that of a fault: what was wrong, and what to do. There are none where nobody reads the
/// output any more, since then nobody did anything wrong.
pub fn explanation(alloc: Global, failure: &Failure) -> Result<String, AllocError> {
    if is_unread(failure) {
        return Ok(String::new(alloc));
    }
    let mut text = String::new(alloc);
    text.push_str("  ")?;
    append_reason(alloc, &mut text, failure)?;
    text.push_str("\n  ")?;
    match &failure.advice {
        Some(advice) => text.push_str(advice)?,
        None => text.push_str(remedy_of(failure))?,
    }
    text.push_str("\n")?;
    shortened(alloc, text)
}

// What to do after a failure that says nothing of that itself.
fn remedy_of(failure: &Failure) -> &'static str {
    match &failure.reason {
        Reason::System(error) if is_full(error.kind()) => {
            "make room on the disk, and run the command again"
        }
        _ => words_of(failure.fault).remedy,
    }
}

// Whether the disk, or what one may use of it, is full.
fn is_full(kind: ErrorKind) -> bool {
    matches!(kind, ErrorKind::StorageFull | ErrorKind::QuotaExceeded)
}

// Whether the reader of the output has closed it.
fn is_unread(failure: &Failure) -> bool {
    match (&failure.fault, &failure.reason) {
        (Fault::Write, Reason::System(error)) => error.kind() == ErrorKind::BrokenPipe,
        _ => false,
    }
}

// Appends what was wrong.
fn append_reason(alloc: Global, text: &mut String, failure: &Failure) -> Result<(), AllocError> {
    if let Reason::Found(found) = &failure.reason {
        return text.push_str(found);
    }
    let words = words_of(failure.fault);
    match &failure.subject {
        Some(subject) => text.push_str(subject)?,
        None => text.push_str(words.subject)?,
    }
    match &failure.reason {
        Reason::System(error) => {
            text.push_str(": ")?;
            text.push_str(&system_text(alloc, *error)?)
        }
        _ => {
            text.push_str(" ")?;
            text.push_str(words.meaning)
        }
    }
}

// The text, cut where it is too long.
fn shortened(alloc: Global, text: String) -> Result<String, AllocError> {
    if text.len() <= MOST {
        return Ok(text);
    }
    let mut short = String::new(alloc);
    for sign in text.chars() {
        if short.len() > MOST - 7 {
            break;
        }
        short.push(sign)?;
    }
    short.push_str("..\n")?;
    Ok(short)
}

/// What each fault means that is called so, in all or by its first word, and what to do; of every one where there is no
/// word. It is none where no fault is called so.
pub fn faults_text(alloc: Global, words: &[&str]) -> Result<Option<String>, AllocError> {
    let asked = joined(alloc, words)?;
    let mut text = String::new(alloc);
    for group in &faults() {
        for fault in *group {
            let name = name_of(alloc, *fault)?;
            if is_called(&name, &asked) {
                append_entry(alloc, &mut text, *fault, &name)?;
            }
        }
    }
    if text.is_empty() {
        return Ok(None);
    }
    Ok(Some(text))
}

// The words with blanks between, without those that are numbers.
fn joined(alloc: Global, words: &[&str]) -> Result<String, AllocError> {
    let mut text = String::new(alloc);
    for word in words {
        append_word(&mut text, word)?;
    }
    Ok(text)
}

// Appends the word behind a blank, unless it is a number.
fn append_word(text: &mut String, word: &str) -> Result<(), AllocError> {
    if word.bytes().all(|byte| byte.is_ascii_digit()) {
        return Ok(());
    }
    if !text.is_empty() {
        text.push_str(" ")?;
    }
    text.push_str(word)
}

/// What a fault is called with its cause, without a line or a place.
pub fn name_of(alloc: Global, fault: Fault) -> Result<String, AllocError> {
    let line = format!(in alloc; "{fault}")?;
    let mut name = String::new(alloc);
    for word in line.as_str().split_whitespace() {
        append_word(&mut name, word)?;
    }
    Ok(name)
}

/// The names of all faults without their causes, each once, with blanks between.
pub fn fault_names(alloc: Global) -> Result<String, AllocError> {
    let mut names = String::new(alloc);
    for group in &faults() {
        for fault in *group {
            let name = name_of(alloc, *fault)?;
            let first = name.split_whitespace().next().unwrap_or("");
            if !names.split_whitespace().any(|word| word == first) {
                append_word(&mut names, first)?;
            }
        }
    }
    Ok(names)
}

// Whether the name is what is asked for, or begins with it as with a word.
fn is_called(name: &str, asked: &str) -> bool {
    match name.strip_prefix(asked) {
        Some(rest) => asked.is_empty() || rest.is_empty() || rest.starts_with(' '),
        None => false,
    }
}

// Appends what is said of a fault.
fn append_entry(
    alloc: Global,
    text: &mut String,
    fault: Fault,
    name: &str,
) -> Result<(), AllocError> {
    let status = fault.status();
    let FaultWords {
        subject,
        meaning,
        remedy,
    } = words_of(fault);
    let entry = format!(in alloc; "{name}, status {status}\n  {subject} {meaning}\n  {remedy}\n")?;
    text.push_str(&entry)
}
