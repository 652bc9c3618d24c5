//! The long periods that somebody says of a game.
#![tactic(auto, using(oct_ops::proofs::Growing::growing))]

ghost use Rattle.std.specs.Prelude.{◌≡◌, ◌++◌, OnOk};
ghost use Rattle.std.specs.List.{flat_map};
ghost use Rattle.oct_ops.specs.Growth.{Extends};
ghost use Rattle.oct_views.specs.Game.{in_parentheses, period_said, said_between, said_in_row, said_paragraphs, said_words};

use oct_code::Code;
use oct_said::LongPeriod;
use oct_sheet::Remarks;
use oct_text::Piece::{Escaped, Number, Text};
use oct_text::append_pieces;
use std::alloc::{AllocError, Allocator};

/// Appends a paragraph for each long period that somebody says of a game.
pub(crate) fn append_said_paragraphs<'n, A: Allocator, B: Allocator + Copy + 'n>(
    out: &mut Vec<u8, A>,
    remarks: &Remarks<'n, B>,
    code: Code,
) -> Result<(), AllocError>
    ensures ok { OnOk result (out.new.items ≡ out.old.items ++ said_paragraphs remarks.now code) }
    ensures grown { Extends out.old.items out.new.items }
{
    append_each(out, remarks, b"<p>", b"</p>\n", remarks.said_of(code))
}

/// Appends what the row of a game says of them.
pub(crate) fn append_said_in_row<'n, A: Allocator, B: Allocator + Copy + 'n>(
    out: &mut Vec<u8, A>,
    remarks: &Remarks<'n, B>,
    code: Code,
) -> Result<(), AllocError>
    ensures ok { OnOk result (out.new.items ≡ out.old.items ++ said_in_row remarks.now code) }
    ensures grown { Extends out.old.items out.new.items }
{
    append_each(out, remarks, b"<br/>", b"", remarks.said_of(code))
}

// Appends each of these long periods, between these texts.
fn append_each<'n, A: Allocator, B: Allocator + Copy + 'n>(
    out: &mut Vec<u8, A>,
    remarks: &Remarks<'n, B>,
    before: &[u8],
    behind: &[u8],
    said: &[LongPeriod],
) -> Result<(), AllocError>
    ensures ok { OnOk result (out.new.items ≡ out.old.items ++ flat_map (said_between before.now behind.now remarks.now) said.now) }
    ensures grown { Extends out.old.items out.new.items }
{
    for long in said {
        append_between(out, remarks, before, behind, long)?;
    }
    Ok(())
}

// Appends a long period between these texts.
fn append_between<'n, A: Allocator, B: Allocator + Copy + 'n>(
    out: &mut Vec<u8, A>,
    remarks: &Remarks<'n, B>,
    before: &[u8],
    behind: &[u8],
    long: &LongPeriod,
) -> Result<(), AllocError>
    ensures ok { OnOk result (out.new.items ≡ out.old.items ++ said_between before.now behind.now remarks.now long.now) }
    ensures grown { Extends out.old.items out.new.items }
{
    append_pieces(out, &[Text(before)])?;
    append_words(out, remarks, long)?;
    append_pieces(out, &[Text(behind)])
}

// Appends a long period, and who says it.
fn append_words<'n, A: Allocator, B: Allocator + Copy + 'n>(
    out: &mut Vec<u8, A>,
    remarks: &Remarks<'n, B>,
    long: &LongPeriod,
) -> Result<(), AllocError>
    ensures ok { OnOk result (out.new.items ≡ out.old.items ++ said_words remarks.now long.now) }
    ensures grown { Extends out.old.items out.new.items }
{
    append_period_said(out, long)?;
    append_in_parentheses(out, remarks.name_of(long.author))
}

// Appends the period, from which heap on it is said to hold, and who says so.
fn append_period_said<A: Allocator>(
    out: &mut Vec<u8, A>,
    long: &LongPeriod,
) -> Result<(), AllocError>
    ensures ok { OnOk result (out.new.items ≡ out.old.items ++ period_said long.now) }
    ensures grown { Extends out.old.items out.new.items }
{
    append_pieces(
        out,
        &[
            Text(b"said: period "),
            Number(long.seen.period as u64),
            Text(b" from "),
            Number(long.seen.start as u64),
            Text(b", by "),
            Number(long.author as u64),
        ],
    )
}

// Appends a name in parentheses, where there is one.
fn append_in_parentheses<A: Allocator>(out: &mut Vec<u8, A>, name: &[u8]) -> Result<(), AllocError>
    ensures ok { OnOk result (out.new.items ≡ out.old.items ++ in_parentheses name.now) }
    ensures grown { Extends out.old.items out.new.items }
{
    if name.len() == 0 {
        append_pieces(out, &[])
    } else {
        append_pieces(out, &[Text(b" ("), Escaped(name), Text(b")")])
    }
}
