//! Tables in HTML.
#![tactic(auto, using(oct_ops::proofs::Growing::growing))]

ghost use Rattle.std.specs.Prelude.{◌≡◌, ◌++◌, ℕ, List, OnOk, map};
ghost use Rattle.std.specs.List.{flat_map};
ghost use Rattle.oct_ops.specs.Growth.{Extends};
ghost use Rattle.oct_tables.specs.Tables.{column, table, table_end, table_head};

use oct_text::Piece::Text;
use oct_text::{append_pieces, append_text};
use std::alloc::{AllocError, Allocator};

/// A way to write rows of the type `R`.
pub trait Rows<R> {
    ghost text: { Self → R → List ℕ };

    /// Appends a row.
    fn append_row<A: Allocator + Copy>(
        &self,
        out: &mut Vec<u8, A>,
        row: &R,
    ) -> Result<(), AllocError>
        ensures ok { OnOk result (out.new.items ≡ out.old.items ++ text self.now row.now) }
        ensures grown { Extends out.old.items out.new.items };
}

/// Appends the rows, one after another.
pub(crate) fn append_rows<S: Rows<R>, R, A: Allocator + Copy>(
    out: &mut Vec<u8, A>,
    way: &S,
    rows: &[R],
) -> Result<(), AllocError>
    ensures ok { OnOk result (out.new.items ≡ out.old.items ++ flat_map (S.text way.now) rows.now) }
    ensures grown { Extends out.old.items out.new.items }
{
    for row in rows {
        way.append_row(out, row)?;
    }
    Ok(())
}

/// Appends a table of these rows under these heads of columns, or nothing where there is no row.
pub fn append_table<A: Allocator>(
    out: &mut Vec<u8, A>,
    caption: &[u8],
    columns: &[&[u8]],
    rows: &[u8],
) -> Result<(), AllocError>
    ensures ok { OnOk result (out.new.items ≡ out.old.items ++ table caption.now (map (λ name. name.now) columns.now) rows.now) }
    ensures grown { Extends out.old.items out.new.items }
{
    if rows.is_empty() {
        return Ok(());
    }
    append_table_head(out, b"plain", caption, columns)?;
    append_text(out, rows)?;
    append_table_end(out)
}

/// Appends what stands before the rows of a table of this kind.
pub fn append_table_head<'a, A: Allocator>(
    out: &mut Vec<u8, A>,
    kind: &'a [u8],
    caption: &'a [u8],
    columns: &[&[u8]],
) -> Result<(), AllocError>
    ensures ok { OnOk result (out.new.items ≡ out.old.items ++ table_head kind.now caption.now (map (λ name. name.now) columns.now)) }
    ensures grown { Extends out.old.items out.new.items }
{
    append_pieces(
        out,
        &[
            Text(b"<div class=\"scroll\" role=\"region\" tabindex=\"0\" aria-label=\""),
            Text(caption),
            Text(b"\">\n<table class=\""),
            Text(kind),
            Text(b"\">\n<caption>"),
            Text(caption),
            Text(b"</caption>\n<thead><tr>"),
        ],
    )?;
    append_columns(out, columns)?;
    append_pieces(out, &[Text(b"</tr></thead>\n<tbody>\n")])
}

/// Appends the end of a table.
pub fn append_table_end<A: Allocator>(out: &mut Vec<u8, A>) -> Result<(), AllocError>
    ensures ok { OnOk result (out.new.items ≡ out.old.items ++ table_end) }
    ensures grown { Extends out.old.items out.new.items }
{
    append_pieces(out, &[Text(b"</tbody>\n</table>\n</div>\n")])
}

// Appends the heads of the columns.
fn append_columns<A: Allocator>(out: &mut Vec<u8, A>, columns: &[&[u8]]) -> Result<(), AllocError>
    ensures ok { OnOk result (out.new.items ≡ out.old.items ++ flat_map column (map (λ name. name.now) columns.now)) }
    ensures grown { Extends out.old.items out.new.items }
{
    for name in columns {
        append_column(out, name)?;
    }
    Ok(())
}

// Appends the head of a column.
fn append_column<A: Allocator>(out: &mut Vec<u8, A>, name: &[u8]) -> Result<(), AllocError>
    ensures ok { OnOk result (out.new.items ≡ out.old.items ++ column name.now) }
    ensures grown { Extends out.old.items out.new.items }
{
    append_pieces(
        out,
        &[Text(b"<th scope=\"col\">"), Text(name), Text(b"</th>")],
    )
}
