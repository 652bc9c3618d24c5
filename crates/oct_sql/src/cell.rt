//! The statements that add rows to tables.
#![tactic(auto, using(oct_ops::proofs::Growing::growing))]

ghost use Rattle.std.specs.Prelude.{◌≡◌, ◌++◌, OnOk, map};
ghost use Rattle.std.specs.Fmt.{decimal};
ghost use Rattle.std.specs.List.{join_with_byte};
ghost use Rattle.oct_ops.specs.Growth.{Extends};
ghost use Rattle.oct_sql.specs.Cells.{cell_text, code_literal, comma_if, doubled, doubled_byte, literal, row, values_row};

use oct_code::Code;
use oct_text::{append_number, append_text};
use std::alloc::{AllocError, Allocator};

/// What stands in a column of a row.
#[derive(Clone, Copy)]
pub(crate) enum Cell<'a> {
    /// Nothing.
    Null,
    /// A number.
    Number(u64),
    /// A text of any bytes.
    Text(&'a [u8]),
    /// The text of a code.
    Code(Code),
}

/// Appends the statement that adds the row of these cells to a table.
pub(crate) fn append_row<A: Allocator>(
    out: &mut Vec<u8, A>,
    table: &[u8],
    cells: &[Cell<'_>],
) -> Result<(), AllocError>
    ensures ok { OnOk result (out.new.items ≡ out.old.items ++ row table.now (map cell_text cells.now)) }
    ensures grown { Extends out.old.items out.new.items }
{
    append_text(out, b"INSERT INTO ")?;
    append_text(out, table)?;
    append_text(out, b" VALUES(")?;
    append_cells(out, cells)?;
    append_text(out, b");\n")
}

// Appends the cells, with a comma between each two.
fn append_cells<A: Allocator>(out: &mut Vec<u8, A>, cells: &[Cell<'_>]) -> Result<(), AllocError>
    ensures ok { OnOk result (out.new.items ≡ out.old.items ++ join_with_byte 44 (map cell_text cells.now)) }
    ensures grown { Extends out.old.items out.new.items }
{
    let mut is_later = false;
    for cell in cells {
        append_next_cell(out, cell, is_later)?;
        is_later = true;
    }
    Ok(())
}

// Appends a cell, behind a comma where another one stands before it.
fn append_next_cell<A: Allocator>(
    out: &mut Vec<u8, A>,
    cell: &Cell<'_>,
    is_later: bool,
) -> Result<(), AllocError>
    ensures ok { OnOk result (out.new.items ≡ out.old.items ++ (comma_if is_later ++ cell_text cell.now)) }
    ensures grown { Extends out.old.items out.new.items }
{
    if is_later {
        append_text(out, b",")?;
    }
    append_cell(out, cell)
}

// Appends a cell.
fn append_cell<A: Allocator>(out: &mut Vec<u8, A>, cell: &Cell<'_>) -> Result<(), AllocError>
    ensures ok { OnOk result (out.new.items ≡ out.old.items ++ cell_text cell.now) }
    ensures grown { Extends out.old.items out.new.items }
{
    match cell {
        Cell::Null => append_text(out, b"NULL"),
        Cell::Number(number) => append_number(out, *number),
        Cell::Text(text) => append_literal(out, text),
        Cell::Code(code) => append_code(out, *code),
    }
}

// Appends a text between quotes.
fn append_literal<A: Allocator>(out: &mut Vec<u8, A>, text: &[u8]) -> Result<(), AllocError>
    ensures ok { OnOk result (out.new.items ≡ out.old.items ++ literal text.now) }
    ensures grown { Extends out.old.items out.new.items }
{
    append_text(out, b"'")?;
    append_doubled(out, text)?;
    append_text(out, b"'")
}

// Appends a text with each quote doubled.
fn append_doubled<A: Allocator>(out: &mut Vec<u8, A>, text: &[u8]) -> Result<(), AllocError>
    ensures ok { OnOk result (out.new.items ≡ out.old.items ++ doubled text.now) }
    ensures grown { Extends out.old.items out.new.items }
{
    for byte in text {
        append_byte(out, *byte)?;
    }
    Ok(())
}

// Appends a byte, twice where it is a quote.
fn append_byte<A: Allocator>(out: &mut Vec<u8, A>, byte: u8) -> Result<(), AllocError>
    ensures ok { OnOk result (out.new.items ≡ out.old.items ++ doubled_byte byte) }
    ensures grown { Extends out.old.items out.new.items }
{
    match byte {
        b'\'' => append_text(out, b"''"),
        _ => append_text(out, &[byte]),
    }
}

// Appends the text of a code between quotes.
fn append_code<A: Allocator>(out: &mut Vec<u8, A>, code: Code) -> Result<(), AllocError>
    ensures ok { OnOk result (out.new.items ≡ out.old.items ++ code_literal code) }
    ensures grown { Extends out.old.items out.new.items }
{
    append_text(out, b"'")?;
    code.append_text(out)?;
    append_text(out, b"'")
}

/// Appends the statement that adds the nim-values of a game, of heap 0 on, a row for each.
pub(crate) fn append_values_row<A: Allocator>(
    out: &mut Vec<u8, A>,
    code: Code,
    values: &[u32],
) -> Result<(), AllocError>
    ensures ok { OnOk result (out.new.items ≡ out.old.items ++ values_row code values.now) }
    ensures grown { Extends out.old.items out.new.items }
{
    append_text(out, b"INSERT INTO game_values SELECT ")?;
    append_code(out, code)?;
    append_text(out, b",key,value FROM json_each('[")?;
    append_values(out, values)?;
    append_text(out, b"]');\n")
}

// Appends the values, with a comma between each two.
fn append_values<A: Allocator>(out: &mut Vec<u8, A>, values: &[u32]) -> Result<(), AllocError>
    ensures ok { OnOk result (out.new.items ≡ out.old.items ++ join_with_byte 44 (map decimal values.now)) }
    ensures grown { Extends out.old.items out.new.items }
{
    let mut is_later = false;
    for value in values {
        append_next_value(out, *value, is_later)?;
        is_later = true;
    }
    Ok(())
}

// Appends a value, behind a comma where another one stands before it.
fn append_next_value<A: Allocator>(
    out: &mut Vec<u8, A>,
    value: u32,
    is_later: bool,
) -> Result<(), AllocError>
    ensures ok { OnOk result (out.new.items ≡ out.old.items ++ (comma_if is_later ++ decimal value)) }
    ensures grown { Extends out.old.items out.new.items }
{
    if is_later {
        append_text(out, b",")?;
    }
    append_number(out, value)
}
