//! Texts that are put together from pieces.
#![tactic(auto, using(oct_ops::proofs::Growing::growing))]

ghost use Rattle.std.specs.Prelude.{◌≡◌, ◌++◌, OnOk};
ghost use Rattle.std.specs.List.{flat_map};
ghost use Rattle.oct_ops.specs.Growth.{Extends};
ghost use Rattle.oct_text.specs.Pieces.{piece_text};

use crate::escape::{append_beside, append_escaped, append_quoted};
use crate::words::{append_dot, append_number, append_text};
use oct_code::Code;
use oct_ops::Dot;
use std::alloc::{AllocError, Allocator};

/// A piece of a text.
#[derive(Clone, Copy)]
pub enum Piece<'a> {
    /// These bytes.
    Text(&'a [u8]),
    /// A number in decimal digits.
    Number(u64),
    /// A dot as author, point, number.
    Dot(Dot),
    /// The text of a code.
    Code(Code),
    /// A text of others, escaped.
    Escaped(&'a [u8]),
    /// The name of an author behind its number, or nothing where it is empty.
    Beside(&'a [u8]),
    /// A printable text inside a string of JSON.
    Quoted(&'a [u8]),
}

/// Appends the pieces, one after another.
pub fn append_pieces<A: Allocator>(
    out: &mut Vec<u8, A>,
    pieces: &[Piece<'_>],
) -> Result<(), AllocError>
    ensures ok { OnOk result (out.new.items ≡ out.old.items ++ flat_map piece_text pieces.now) }
    ensures grown { Extends out.old.items out.new.items }
{
    for piece in pieces {
        append_piece(out, piece)?;
    }
    Ok(())
}

// Appends one piece.
fn append_piece<A: Allocator>(out: &mut Vec<u8, A>, piece: &Piece<'_>) -> Result<(), AllocError>
    ensures ok { OnOk result (out.new.items ≡ out.old.items ++ piece_text piece.now) }
    ensures grown { Extends out.old.items out.new.items }
{
    match piece {
        Piece::Text(text) => append_text(out, text),
        Piece::Number(number) => append_number(out, *number),
        Piece::Dot(dot) => append_dot(out, *dot),
        Piece::Code(code) => code.append_text(out),
        Piece::Escaped(text) => append_escaped(out, text),
        Piece::Beside(name) => append_beside(out, name),
        Piece::Quoted(text) => append_quoted(out, text),
    }
}
