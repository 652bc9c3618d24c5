//! Words to a writer, by way of a piece that never grows.

ghost use Rattle.std.specs.Prelude.{◌≡◌, ◌++◌, ◌≤◌, ◌-◌, length, vec_len, OnOk, OnErr};
ghost use Rattle.std.specs.Vec.{vec_capacity};
ghost use Rattle.std.specs.List.{flat_map};
ghost use Rattle.oct_pages.specs.Outlet.{word_text};
ghost use Rattle.written.specs.Output.{AppendsFront, AppendsPrefix};

use std::alloc::Allocator;
use std::io::Write;
use written::{Unwritten, write_out};

/// A word of a line.
#[derive(Clone, Copy)]
pub(crate) enum Word<'a> {
    /// These bytes.
    Text(&'a [u8]),
    /// A number in decimal digits.
    Number(u32),
}

/// Puts a text behind a piece of what is still to be written. Where the piece has no room for it, both are written. No memory is
/// asked for. After a failure a prefix of both was written.
pub(crate) fn put<W: Write, A: Allocator>(
    piece: &mut Vec<u8, A>,
    out: &mut W,
    text: &[u8],
) -> Result<(), Unwritten>
    ensures ok { OnOk result (AppendsFront (W.contents out.old) (W.contents out.new) (piece.old.items ++ text.now) piece.new.items) }
    ensures err { OnErr result (AppendsPrefix (W.contents out.old) (W.contents out.new) (piece.old.items ++ text.now)) }
{
    if text.len() <= piece.capacity() - piece.len() {
        put_reserved(piece, text);
        return Ok(());
    }
    write_out(out, piece)?;
    piece.clear();
    write_out(out, text)
}

// Puts a text behind a piece that has room for it.
fn put_reserved<A: Allocator>(piece: &mut Vec<u8, A>, text: &[u8])
    requires { length text.now ≤ vec_capacity piece.old - vec_len piece.old }
    ensures { piece.new.items ≡ piece.old.items ++ text.now }
{
    if piece.extend_from_slice(text).is_err() {
        unreachable!()
    }
}

// Puts a word.
fn put_word<W: Write, A: Allocator>(
    piece: &mut Vec<u8, A>,
    out: &mut W,
    word: &Word<'_>,
) -> Result<(), Unwritten>
    ensures ok { OnOk result (AppendsFront (W.contents out.old) (W.contents out.new) (piece.old.items ++ word_text word.now) piece.new.items) }
    ensures err { OnErr result (AppendsPrefix (W.contents out.old) (W.contents out.new) (piece.old.items ++ word_text word.now)) }
{
    match word {
        Word::Text(text) => put(piece, out, text),
        Word::Number(number) => put(piece, out, itoa::Buffer::new().format(*number).as_bytes()),
    }
}

/// Puts words, one after another, as `put` does.
pub(crate) fn put_words<W: Write, A: Allocator>(
    piece: &mut Vec<u8, A>,
    out: &mut W,
    words: &[Word<'_>],
) -> Result<(), Unwritten>
    ensures ok { OnOk result (AppendsFront (W.contents out.old) (W.contents out.new) (piece.old.items ++ flat_map word_text words.now) piece.new.items) }
    ensures err { OnErr result (AppendsPrefix (W.contents out.old) (W.contents out.new) (piece.old.items ++ flat_map word_text words.now)) }
{
    for word in words {
        put_word(piece, out, word)?;
    }
    Ok(())
}
