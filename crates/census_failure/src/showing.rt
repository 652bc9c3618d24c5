//! Words of others, as they are shown.

use std::alloc::{AllocError, Global};
use std::io::{self, ErrorKind};

// How many bytes of a word are shown, after which two dots stand for the rest.
const MOST: usize = 60;

/// A word of the command line or of a file, cut short where it is long. Control characters, and others that show
/// nothing, are escaped.
pub fn shown(alloc: Global, word: &str) -> Result<String, AllocError> {
    let mut text = String::new(alloc);
    for sign in word.chars() {
        if text.len() >= MOST {
            text.push_str("..")?;
            break;
        }
        append_sign(&mut text, sign)?;
    }
    Ok(text)
}

// Appends the sign, or its escape.
fn append_sign(text: &mut String, sign: char) -> Result<(), AllocError> {
    if sign == '\'' || sign == '"' {
        return text.push(sign);
    }
    for part in sign.escape_debug() {
        text.push(part)?;
    }
    Ok(())
}

/// The same of bytes, of which those that are no ASCII are escaped.
pub fn shown_bytes(alloc: Global, bytes: &[u8]) -> Result<String, AllocError> {
    let mut text = String::new(alloc);
    for byte in bytes {
        if text.len() >= MOST {
            text.push_str("..")?;
            break;
        }
        append_byte(&mut text, *byte)?;
    }
    Ok(text)
}

// Appends the byte as a sign, or its escape.
fn append_byte(text: &mut String, byte: u8) -> Result<(), AllocError> {
    if byte == b'\'' || byte == b'"' {
        return text.push(char::from(byte));
    }
    for part in byte.escape_ascii() {
        text.push(char::from(part))?;
    }
    Ok(())
}

/// A word, whole, in which control characters, and others that show nothing, are escaped.
pub fn escaped(alloc: Global, word: &str) -> Result<String, AllocError> {
    let mut text = String::new(alloc);
    for sign in word.chars() {
        append_visibly(&mut text, sign)?;
    }
    Ok(text)
}

/// The same of a text of several lines, whose ends stay.
pub fn escaped_lines(alloc: Global, lines: &str) -> Result<String, AllocError> {
    let mut text = String::new(alloc);
    for sign in lines.chars() {
        match sign {
            '\n' => text.push(sign)?,
            _ => append_visibly(&mut text, sign)?,
        }
    }
    Ok(text)
}

// Appends the sign, or its escape where it would show nothing.
fn append_visibly(text: &mut String, sign: char) -> Result<(), AllocError> {
    if is_hidden(sign) {
        return append_sign(text, sign);
    }
    text.push(sign)
}

// Whether the sign would show nothing, or do something to a screen.
fn is_hidden(sign: char) -> bool {
    match sign {
        '\'' | '"' | '\\' => false,
        _ => sign.escape_debug().next() == Some('\\'),
    }
}

/// A word as it stands in a command that is to be copied, whole: in quotes where a shell would read it otherwise. Signs that
/// show nothing are spelled as `$'..'` has them in bash, zsh and ksh.
pub fn quoted(alloc: Global, word: &str) -> Result<String, AllocError> {
    if word.chars().any(is_hidden) {
        return spelled(alloc, word);
    }
    if !word.is_empty() && word.bytes().all(is_plain) {
        return String::from_str(alloc, word);
    }
    let mut text = String::from_str(alloc, "'")?;
    for sign in word.chars() {
        match sign {
            '\'' => text.push_str("'\\''")?,
            _ => text.push(sign)?,
        }
    }
    text.push('\'')?;
    Ok(text)
}

// The word as `$'..'`.
fn spelled(alloc: Global, word: &str) -> Result<String, AllocError> {
    let mut text = String::from_str(alloc, "$'")?;
    for sign in word.chars() {
        append_spelled(alloc, &mut text, sign)?;
    }
    text.push('\'')?;
    Ok(text)
}

// Appends the sign as `$'..'` has it.
fn append_spelled(alloc: Global, text: &mut String, sign: char) -> Result<(), AllocError> {
    match sign {
        '\'' => text.push_str("\\'"),
        '\\' => text.push_str("\\\\"),
        _ if is_hidden(sign) => { text.push_str(&format!(in alloc; "\\U{:08x}", u32::from(sign))?) }
        _ => text.push(sign),
    }
}

// Whether a shell reads the byte as it stands.
fn is_plain(byte: u8) -> bool {
    byte.is_ascii_alphanumeric() || byte >= 128 || b"./_-+,:@%=".contains(&byte)
}

/// What the system said, in short words where it is one of the usual errors.
pub(crate) fn system_text(alloc: Global, error: io::Error) -> Result<String, AllocError> {
    match usual_text(error.kind()) {
        Some(text) => String::from_str(alloc, text),
        None => format!(in alloc; "{error}"),
    }
}

// The words of the usual errors.
fn usual_text(kind: ErrorKind) -> Option<&'static str> {
    match kind {
        ErrorKind::NotFound => Some("no such file"),
        ErrorKind::PermissionDenied => Some("permission denied"),
        ErrorKind::IsADirectory => Some("it is a folder"),
        ErrorKind::NotADirectory => Some("a part of the path is no folder"),
        ErrorKind::ReadOnlyFilesystem => Some("the file system can only be read"),
        ErrorKind::StorageFull => Some("no space left on the disk"),
        ErrorKind::QuotaExceeded => Some("the quota of the disk is used up"),
        ErrorKind::FileTooLarge => Some("it would be larger than a file may be"),
        ErrorKind::FilesystemLoop => Some("too many links in a row"),
        ErrorKind::InvalidFilename => Some("the name is too long"),
        ErrorKind::ConnectionRefused => Some("connection refused"),
        ErrorKind::ConnectionReset => Some("the other side broke the connection off"),
        ErrorKind::ConnectionAborted => Some("the connection was broken off"),
        ErrorKind::HostUnreachable => Some("the host can't be reached"),
        ErrorKind::NetworkUnreachable | ErrorKind::NetworkDown => Some(
            "the network can't be reached",
        ),
        ErrorKind::AddrInUse => Some("another program listens there"),
        ErrorKind::AddrNotAvailable => Some("it is no address of this machine"),
        ErrorKind::TimedOut => Some("no answer in time"),
        ErrorKind::WouldBlock => Some("the other side was silent for too long"),
        ErrorKind::BrokenPipe => Some("nobody reads it any more"),
        _ => None,
    }
}
