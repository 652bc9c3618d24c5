//! Texts of others, as HTML and a string of JSON show them.
#![tactic(auto, using(oct_ops::proofs::Growing::growing))]

ghost use Rattle.std.specs.Prelude.{◌≡◌, ◌++◌, OnOk};
ghost use Rattle.oct_ops.specs.Growth.{Extends};
ghost use Rattle.oct_text.specs.Escape.{escaped, escaped_byte, name_beside, name_part, quoted, quoted_byte};

use crate::words::append_text;
use std::alloc::{AllocError, Allocator};

/// Appends a text of others, with an entity for each byte that could begin or end a part of HTML.
pub(crate) fn append_escaped<A: Allocator>(
    out: &mut Vec<u8, A>,
    text: &[u8],
) -> Result<(), AllocError>
    ensures ok { OnOk result (out.new.items ≡ out.old.items ++ escaped text.now) }
    ensures grown { Extends out.old.items out.new.items }
{
    for byte in text {
        append_byte(out, *byte)?;
    }
    Ok(())
}

// Appends a byte, or the entity for it.
fn append_byte<A: Allocator>(out: &mut Vec<u8, A>, byte: u8) -> Result<(), AllocError>
    ensures ok { OnOk result (out.new.items ≡ out.old.items ++ escaped_byte byte) }
    ensures grown { Extends out.old.items out.new.items }
{
    match byte {
        b'&' => append_text(out, b"&amp;"),
        b'<' => append_text(out, b"&lt;"),
        b'>' => append_text(out, b"&gt;"),
        b'"' => append_text(out, b"&quot;"),
        b'\'' => append_text(out, b"&#39;"),
        _ => append_text(out, &[byte]),
    }
}

/// Appends the name of an author behind its number, where there is one.
pub(crate) fn append_beside<A: Allocator>(
    out: &mut Vec<u8, A>,
    name: &[u8],
) -> Result<(), AllocError>
    ensures ok { OnOk result (out.new.items ≡ out.old.items ++ name_beside name.now) }
    ensures grown { Extends out.old.items out.new.items }
{
    if name.len() == 0 {
        append_text(out, b"")
    } else {
        append_name(out, name)
    }
}

// Appends a name behind a number.
fn append_name<A: Allocator>(out: &mut Vec<u8, A>, name: &[u8]) -> Result<(), AllocError>
    ensures ok { OnOk result (out.new.items ≡ out.old.items ++ name_part name.now) }
    ensures grown { Extends out.old.items out.new.items }
{
    append_text(out, b" <span class=\"name\">")?;
    append_escaped(out, name)?;
    append_text(out, b"</span>")
}

/// Appends a printable text inside a string of JSON.
pub(crate) fn append_quoted<A: Allocator>(
    out: &mut Vec<u8, A>,
    text: &[u8],
) -> Result<(), AllocError>
    ensures ok { OnOk result (out.new.items ≡ out.old.items ++ quoted text.now) }
    ensures grown { Extends out.old.items out.new.items }
{
    for byte in text {
        append_quoted_byte(out, *byte)?;
    }
    Ok(())
}

// Appends a byte, after a backslash where it would end the string or begin an escape.
fn append_quoted_byte<A: Allocator>(out: &mut Vec<u8, A>, byte: u8) -> Result<(), AllocError>
    ensures ok { OnOk result (out.new.items ≡ out.old.items ++ quoted_byte byte) }
    ensures grown { Extends out.old.items out.new.items }
{
    match byte {
        b'"' => append_text(out, b"\\\""),
        b'\\' => append_text(out, b"\\\\"),
        _ => append_text(out, &[byte]),
    }
}
