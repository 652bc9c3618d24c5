//! The page of the manual, made from the table of the commands, as roff.

use crate::entry::Entry;
use crate::help::{EXAMPLE, TITLE, words_text};
use crate::manual_texts::{DESCRIPTION, FAULTS, FILES, SEE_ALSO};
use crate::table::{Chapter, CommandRow};
use crate::words::{self, Choice, Takes, Word};
use std::alloc::{AllocError, Global};

// What stands before the title, and between it and the description.
const FRONT: &str = ".TH CENSUS 1\n.SH NAME\ncensus \\- ";

const SYNOPSIS: &str = ".SH SYNOPSIS\n.B census\n.I COMMAND\n\\&..\n";

/// The page of the manual: what the help says of each of these commands, and what it has no room for. Its list of faults has
/// these entries, in their order.
pub fn manual_page(
    alloc: Global,
    chapters: &[Chapter],
    faults: &[Entry],
) -> Result<String, AllocError> {
    let mut page = String::new(alloc);
    append_front(&mut page)?;
    for chapter in chapters {
        append_chapter(alloc, &mut page, chapter)?;
    }
    page.push_str(FILES)?;
    append_faults(alloc, &mut page, faults)?;
    append_back(&mut page)?;
    Ok(page)
}

// What stands before the commands.
fn append_front(page: &mut String) -> Result<(), AllocError> {
    page.push_str(FRONT)?;
    page.push_str(TITLE)?;
    page.push_str("\n")?;
    page.push_str(SYNOPSIS)?;
    page.push_str(DESCRIPTION)?;
    page.push_str(".SH COMMANDS\n")
}

// The commands of a chapter, under its title.
fn append_chapter(alloc: Global, page: &mut String, chapter: &Chapter) -> Result<(), AllocError> {
    page.push_str(".SS ")?;
    page.push_str(chapter.title)?;
    page.push_str("\n")?;
    for row in chapter.rows {
        append_command(alloc, page, row)?;
    }
    Ok(())
}

// What each fault means, and what to do.
fn append_faults(alloc: Global, page: &mut String, faults: &[Entry]) -> Result<(), AllocError> {
    page.push_str(FAULTS)?;
    for fault in faults {
        append_fault(alloc, page, fault)?;
    }
    Ok(())
}

// What a fault means, and what to do.
fn append_fault(alloc: Global, page: &mut String, fault: &Entry) -> Result<(), AllocError> {
    let (name, status) = (&fault.name, fault.status);
    let head = format!(in alloc; ".TP\n.BR \"{name}\" \" (status {status})\"\n")?;
    page.push_str(&head)?;
    let (meaning, remedy) = (&fault.meaning, fault.remedy);
    let text = format!(in alloc; "{meaning}.\nTo do: {remedy}.\n")?;
    append_text(page, &text)
}

// What stands at the end.
fn append_back(page: &mut String) -> Result<(), AllocError> {
    page.push_str(".SH EXAMPLE\n.nf\n")?;
    append_text(page, EXAMPLE)?;
    page.push_str(".fi\n")?;
    page.push_str(SEE_ALSO)
}

// What is said of a command.
fn append_command(alloc: Global, page: &mut String, row: &CommandRow) -> Result<(), AllocError> {
    let name = row.name;
    let about = row.about;
    let words = words_text(alloc, row.words)?;
    let head = format!(in alloc; ".TP\n.BI {name} \"{words}\"\n{about}.\n")?;
    page.push_str(&head)?;
    for word in row.words {
        append_word(alloc, page, word)?;
    }
    for option in row.options {
        append_option(alloc, page, option)?;
    }
    page.push_str(".sp\n")?;
    append_text(page, row.after)
}

// What a word means. A state is the same in all commands, and stands among the files.
fn append_word(alloc: Global, page: &mut String, word: &Word) -> Result<(), AllocError> {
    let Word { name, meaning, .. } = *word;
    if name == words::STATE.name {
        return Ok(());
    }
    let line = format!(in alloc; ".br\n.IR {name} :\n{meaning}.\n")?;
    page.push_str(&line)?;
    for option in word.times.instead() {
        append_option(alloc, page, option)?;
    }
    Ok(())
}

// What an option means.
fn append_option(alloc: Global, page: &mut String, option: &Choice) -> Result<(), AllocError> {
    let Choice {
        name,
        takes,
        meaning,
        default,
    } = *option;
    let line = match takes {
        Takes::Nothing => format!(in alloc; ".br\n.BR \\-\\-{name} :\n{meaning}")?,
        Takes::One(value) | Takes::Many(value) => {
            format!(in alloc; ".br\n.BI \\-\\-{name} \" {value}\" :\n{meaning}")?
        }
    };
    page.push_str(&line)?;
    if let Some(default) = default {
        let line = format!(in alloc; "; {default} where it is left out")?;
        page.push_str(&line)?;
    }
    page.push_str(".\n")
}

// Lines of the help. Those that begin with a space stand as they are, to be copied; the others are filled.
fn append_text(page: &mut String, text: &str) -> Result<(), AllocError> {
    for line in text.lines() {
        if line.is_empty() {
            page.push_str(".sp")?;
        } else if line.starts_with(' ') {
            append_exact(page, line)?;
        } else {
            append_filled(page, line)?;
        }
        page.push_str("\n")?;
    }
    Ok(())
}

// A line that is filled, and is no request.
fn append_filled(page: &mut String, line: &str) -> Result<(), AllocError> {
    if line.starts_with('.') || line.starts_with('\'') {
        page.push_str("\\&")?;
    }
    page.push_str(line)
}

// A line whose signs are those of a terminal.
fn append_exact(page: &mut String, line: &str) -> Result<(), AllocError> {
    for sign in line.chars() {
        match sign {
            '-' => page.push_str("\\-")?,
            '\'' => page.push_str("\\(aq")?,
            _ => page.push(sign)?,
        }
    }
    Ok(())
}
