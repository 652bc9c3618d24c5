//! The line of a session of a hub that was done.

use crate::kept::{Kept, Settled};
use crate::shares::Share;
use census_failure::Failure;
use census_transport::{Moment, PeerAddress};
use oct_ops::Dot;
use std::alloc::{AllocError, Global};

/// How many digits of a digest are shown.
const DIGITS: usize = 8;

/// How long a line may be before further authors are only counted. With that it has 4,000 bytes at most.
const LONGEST: usize = 3_900;

/// The line of a session that was done: when and whose it was, how many operations are new and how many there are, the first
/// digits of their digest, by whom the new ones are, and which dots are used twice since, as far as a line may be long; and how
/// many authors are left out of its clock. The fault is `TooMany`, where there is no digest of so many, and `OutOfMemory`.
pub(crate) fn line_of(
    alloc: Global,
    moment: Moment,
    peer: PeerAddress,
    settled: &Settled,
    kept: &mut Kept,
) -> Result<Vec<u8>, Failure> {
    let mut line = Vec::new(alloc);
    append_text(&mut line, format!(in alloc; "{moment} peer {peer} "))?;
    append_settled(alloc, &mut line, settled, kept)?;
    Ok(line)
}

// Appends what stands in the state after the session, and the end of the line.
fn append_settled(
    alloc: Global,
    line: &mut Vec<u8>,
    settled: &Settled,
    kept: &mut Kept,
) -> Result<(), Failure> {
    line.extend_from_slice(settled.saved.text.trim_ascii_end())?;
    line.extend_from_slice(b" digest ")?;
    let digits = kept.digest(alloc)?;
    line.extend_from_slice(digits.get(..DIGITS).unwrap_or(digits))?;
    append_news(alloc, line, &settled.news)?;
    append_forks(alloc, line, &settled.forks)?;
    append_cut(alloc, line, kept.cut())?;
    Ok(line.extend_from_slice(b"\n")?)
}

// Appends by whom the new operations are, as far as a line may be long.
fn append_news(alloc: Global, line: &mut Vec<u8>, news: &[Share]) -> Result<(), AllocError> {
    for (at, share) in news.iter().enumerate() {
        let mark = if at == 0 { ';' } else { ',' };
        if line.len() > LONGEST {
            let rest = news.len().saturating_sub(at);
            return append_text(line, format!(in alloc; "{mark} and {rest} authors"));
        }
        let text = format!(in alloc; "{mark} {} by {}", share.count, share.author);
        append_text(line, text)?;
    }
    Ok(())
}

// Appends the dots that are used twice, as far as a line may be long.
fn append_forks(alloc: Global, line: &mut Vec<u8>, forks: &[Dot]) -> Result<(), AllocError> {
    for (at, dot) in forks.iter().enumerate() {
        let mark = if at == 0 { "; fork" } else { "," };
        if line.len() > LONGEST {
            let rest = forks.len().saturating_sub(at);
            return append_text(line, format!(in alloc; "{mark} and {rest} forks"));
        }
        let text = format!(in alloc; "{mark} {}.{}", dot.author(), dot.number());
        append_text(line, text)?;
    }
    Ok(())
}

// Appends how many authors a clock leaves out, where it does.
fn append_cut(alloc: Global, line: &mut Vec<u8>, cut: usize) -> Result<(), AllocError> {
    if cut == 0 {
        return Ok(());
    }
    append_text(line, format!(in alloc; "; clock cut by {cut} authors"))
}

/// Appends a text for which there was memory.
pub(crate) fn append_text(
    line: &mut Vec<u8>,
    text: Result<String, AllocError>,
) -> Result<(), AllocError> {
    line.extend_from_slice(text?.as_bytes())
}
