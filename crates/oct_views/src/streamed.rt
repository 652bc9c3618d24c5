//! Tables that are written as they are made.
#![tactic(auto, using(oct_ops::proofs::Growing::growing))]

ghost use Rattle.std.specs.Prelude.{◌≡◌, ◌++◌, ◌≤◌, IfOk, OnOk, drop, length, map, take};
ghost use Rattle.std.specs.List.{flat_map};
ghost use Rattle.oct_tables.specs.Tables.{table};
ghost use Rattle.written.specs.Output.{AppendsFront};

use oct_tables::{Rows, append_table_end, append_table_head};
use std::alloc::{AllocError, Allocator};
use std::io::{self, Write};
use written::spill;

/// Puts a table of the rows under these heads of columns behind what stands in the piece, or nothing where the rows have no text,
/// and writes the piece where it is large. The error is that of the writer, or of the kind `OutOfMemory`.
pub(crate) fn stream_table<S: Rows<R>, R, A: Allocator + Copy, W: Write>(
    way: &S,
    caption: &[u8],
    columns: &[&[u8]],
    rows: &[R],
    piece: &mut Vec<u8, A>,
    out: &mut W,
) -> io::Result<()>
    ensures { OnOk result (AppendsFront (W.contents out.old) (W.contents out.new) (piece.old.items ++ table caption.now (map (λ name. name.now) columns.now) (flat_map (S.text way.now) rows.now)) piece.new.items) }
{
    let before = piece.len();
    append_table_head(piece, b"plain", caption, columns)?;
    let first = piece.len();
    let begun = append_first(piece, way, rows)?;
    if piece.len() == first {
        piece.truncate(before);
        return Ok(());
    }
    stream_rows(way, rows_from(rows, begun), piece, out)?;
    append_table_end(piece)?;
    Ok(())
}

// Appends the rows up to the first one that has a text, and says how many these are.
fn append_first<S: Rows<R>, R, A: Allocator + Copy>(
    out: &mut Vec<u8, A>,
    way: &S,
    rows: &[R],
) -> Result<usize, AllocError>
    ensures ok { IfOk result (λ begun. out.new.items ≡ out.old.items ++ flat_map (S.text way.now) (take begun rows.now)) }
    ensures within { IfOk result (λ begun. begun ≤ length rows.now) }
    ensures all { IfOk result (λ begun. length out.new.items ≡ length out.old.items → begun ≡ length rows.now) }
{
    let before = out.len();
    for (place, row) in rows.iter().enumerate() {
        way.append_row(out, row)?;
        if before < out.len() {
            return Ok(place + 1);
        }
    }
    Ok(rows.len())
}

// The rows from a place on.
fn rows_from<R>(rows: &[R], place: usize) -> &[R]
    requires { place ≤ length rows.now }
    ensures { result.now ≡ drop place rows.now }
{
    &rows[place..]
}

// Puts rows there, and writes the piece where it is large.
fn stream_rows<S: Rows<R>, R, A: Allocator + Copy, W: Write>(
    way: &S,
    rows: &[R],
    piece: &mut Vec<u8, A>,
    out: &mut W,
) -> io::Result<()>
    ensures { OnOk result (AppendsFront (W.contents out.old) (W.contents out.new) (piece.old.items ++ flat_map (S.text way.now) rows.now) piece.new.items) }
{
    for row in rows {
        way.append_row(piece, row)?;
        spill(piece, out)?;
    }
    Ok(())
}
