//! The nim-values of a search as a b-file.

ghost use Rattle.std.specs.Prelude.{◌≡◌, ◌++◌, ◌⊎◌, IfErr, OnErr, OnOk};
ghost use Rattle.std.specs.Io.KnownBytes.{Appends};
ghost use Rattle.oct_mex.specs.NimValues.{nim_values};
ghost use Rattle.written.specs.Output.{AppendsPrefix};
ghost use Rattle.oct_bfile.specs.Bfile.{bfile_text, row_text};

use census_state::Fault;
use oct_search::Search;
use oct_text::{append_labelled, append_number, append_text};
use std::alloc::{AllocError, Global};
use std::io::Write;
use written::write_out;

// Lines are gathered until they have so many bytes, and then written.
const PIECE: usize = 65_536;

/// Writes the nim-values of a search as a b-file: for each heap from 0 on a line with its beans, a space and the value. They
/// are written piece by piece, so that beside the values there is memory for a piece alone. After `Write`, where the
/// writer failed, or `OutOfMemory`, a prefix of the lines was written.
pub fn write_values<W: Write>(
    alloc: Global,
    game: &Search<Global>,
    writer: &mut W,
) -> Result<(), Fault>
    ensures ok { OnOk result (Appends (W.contents writer.old) (W.contents writer.new) (bfile_text (nim_values game.now.code game.now.len))) }
    ensures err { OnErr result (AppendsPrefix (W.contents writer.old) (W.contents writer.new) (bfile_text (nim_values game.now.code game.now.len))) }
    ensures faults { IfErr result (λ e. (e ≡ Fault.Write) ⊎ (e ≡ Fault.OutOfMemory)) }
{
    let mut piece = Vec::new(alloc);
    for heap in 0..game.len() {
        append_row(&mut piece, heap, game.known(heap))?;
        if piece.len() >= PIECE {
            write_out(writer, &piece)?;
            piece.clear();
        }
    }
    Ok(write_out(writer, &piece)?)
}

// Appends the line of a heap and its nim-value.
fn append_row(piece: &mut Vec<u8>, heap: usize, value: u16) -> Result<(), AllocError>
    ensures { OnOk result (piece.new.items ≡ piece.old.items ++ row_text heap value) }
{
    append_number(piece, heap)?;
    append_labelled(piece, b" ", value)?;
    append_text(piece, b"\n")
}
