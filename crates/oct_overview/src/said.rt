//! What is told of the long periods that somebody says of a game, and how authors are called.
#![tactic(auto, using(oct_ops::proofs::Growing::growing))]

ghost use Rattle.std.specs.Prelude.{◌≡◌, ◌++◌, OnOk};
ghost use Rattle.std.specs.List.{flat_map};
ghost use Rattle.oct_ops.specs.Growth.{Extends};
ghost use Rattle.oct_overview.specs.Said.{called_words, in_parentheses, later_object, name_words, object_front, period_said, said_by, said_line, said_member, said_object, said_words, word};

use oct_code::Code;
use oct_said::LongPeriod;
use oct_sheet::Remarks;
use oct_text::Piece::{Code as CodeText, Number, Quoted, Text};
use oct_text::{Form, append_pieces, append_text};
use std::alloc::{AllocError, Allocator};

/// The text of this form.
pub(crate) fn word(form: Form, line: &'static [u8], object: &'static [u8]) -> &'static [u8]
    ensures { result.now ≡ word form line.now object.now }
{
    match form {
        Form::Lines => line,
        Form::Json => object,
    }
}

/// Appends the text of this form.
pub(crate) fn append_word<A: Allocator>(
    out: &mut Vec<u8, A>,
    form: Form,
    line: &'static [u8],
    object: &'static [u8],
) -> Result<(), AllocError>
    ensures ok { OnOk result (out.new.items ≡ out.old.items ++ word form line.now object.now) }
    ensures grown { Extends out.old.items out.new.items }
{
    append_text(out, word(form, line, object))
}

/// Appends the name of an author, where there is one.
pub(crate) fn append_name<A: Allocator>(
    out: &mut Vec<u8, A>,
    name: &[u8],
    form: Form,
) -> Result<(), AllocError>
    ensures ok { OnOk result (out.new.items ≡ out.old.items ++ name_words form name.now) }
    ensures grown { Extends out.old.items out.new.items }
{
    if name.len() == 0 {
        append_pieces(out, &[])
    } else {
        append_called(out, name, form)
    }
}

// Appends a name.
fn append_called<A: Allocator>(
    out: &mut Vec<u8, A>,
    name: &[u8],
    form: Form,
) -> Result<(), AllocError>
    ensures ok { OnOk result (out.new.items ≡ out.old.items ++ called_words form name.now) }
    ensures grown { Extends out.old.items out.new.items }
{
    match form {
        Form::Lines => append_pieces(out, &[Text(b" author "), Text(name)]),
        Form::Json => append_pieces(out, &[Text(b",\"name\":\""), Quoted(name), Text(b"\"")]),
    }
}

/// Appends the end of the line or of the object of a game, and the long periods that somebody says of it.
pub(crate) fn append_said<A: Allocator, B: Allocator + Copy>(
    out: &mut Vec<u8, A>,
    code: Code,
    remarks: &Remarks<'_, B>,
    form: Form,
) -> Result<(), AllocError>
    ensures ok { OnOk result (out.new.items ≡ out.old.items ++ said_words form remarks.now code) }
    ensures grown { Extends out.old.items out.new.items }
{
    append_said_by(out, code, remarks.said_of(code), remarks, form)
}

// Appends the end of the line or of the object, and these long periods.
fn append_said_by<A: Allocator, B: Allocator + Copy>(
    out: &mut Vec<u8, A>,
    code: Code,
    said: &[LongPeriod],
    remarks: &Remarks<'_, B>,
    form: Form,
) -> Result<(), AllocError>
    ensures ok { OnOk result (out.new.items ≡ out.old.items ++ said_by form remarks.now code said.now) }
    ensures grown { Extends out.old.items out.new.items }
{
    match form {
        Form::Lines => {
            append_text(out, b"\n")?;
            append_lines(out, code, said, remarks)
        }
        Form::Json => {
            append_text(out, b"}")?;
            append_member(out, said, remarks)?;
            append_text(out, b"}\n")
        }
    }
}

// ---- a line for each

// Appends a line for each of these long periods of the game.
fn append_lines<A: Allocator, B: Allocator + Copy>(
    out: &mut Vec<u8, A>,
    code: Code,
    said: &[LongPeriod],
    remarks: &Remarks<'_, B>,
) -> Result<(), AllocError>
    ensures ok { OnOk result (out.new.items ≡ out.old.items ++ flat_map (said_line remarks.now code) said.now) }
    ensures grown { Extends out.old.items out.new.items }
{
    for long in said {
        append_said_line(out, code, long, remarks)?;
    }
    Ok(())
}

// Appends the line of a long period, and of who says it.
fn append_said_line<A: Allocator, B: Allocator + Copy>(
    out: &mut Vec<u8, A>,
    code: Code,
    long: &LongPeriod,
    remarks: &Remarks<'_, B>,
) -> Result<(), AllocError>
    ensures ok { OnOk result (out.new.items ≡ out.old.items ++ said_line remarks.now code long.now) }
    ensures grown { Extends out.old.items out.new.items }
{
    append_period_said(out, code, long)?;
    append_in_parentheses(out, remarks.name_of(long.author))?;
    append_text(out, b"\n")
}

// Appends the game, the period, from which heap on it is said to hold, and who says so.
fn append_period_said<A: Allocator>(
    out: &mut Vec<u8, A>,
    code: Code,
    long: &LongPeriod,
) -> Result<(), AllocError>
    ensures ok { OnOk result (out.new.items ≡ out.old.items ++ period_said code long.now) }
    ensures grown { Extends out.old.items out.new.items }
{
    append_pieces(
        out,
        &[
            CodeText(code),
            Text(b" said: period "),
            Number(long.seen.period as u64),
            Text(b" from "),
            Number(long.seen.start as u64),
            Text(b", by "),
            Number(u64::from(long.author)),
        ],
    )
}

// Appends a name in parentheses, where there is one.
fn append_in_parentheses<A: Allocator>(out: &mut Vec<u8, A>, name: &[u8]) -> Result<(), AllocError>
    ensures ok { OnOk result (out.new.items ≡ out.old.items ++ in_parentheses name.now) }
    ensures grown { Extends out.old.items out.new.items }
{
    if name.len() == 0 {
        append_pieces(out, &[])
    } else {
        append_pieces(out, &[Text(b" ("), Text(name), Text(b")")])
    }
}

// ---- an array of objects

// Appends the member that has these long periods, where there are some.
fn append_member<A: Allocator, B: Allocator + Copy>(
    out: &mut Vec<u8, A>,
    said: &[LongPeriod],
    remarks: &Remarks<'_, B>,
) -> Result<(), AllocError>
    ensures ok { OnOk result (out.new.items ≡ out.old.items ++ said_member remarks.now said.now) }
    ensures grown { Extends out.old.items out.new.items }
{
    let Some((first, rest)) = said.split_first() else {
        return append_pieces(out, &[]);
    };
    append_text(out, b",\"said\":[")?;
    append_object(out, first, remarks)?;
    append_later(out, rest, remarks)?;
    append_text(out, b"]")
}

// Appends the objects of those behind the first.
fn append_later<A: Allocator, B: Allocator + Copy>(
    out: &mut Vec<u8, A>,
    rest: &[LongPeriod],
    remarks: &Remarks<'_, B>,
) -> Result<(), AllocError>
    ensures ok { OnOk result (out.new.items ≡ out.old.items ++ flat_map (later_object remarks.now) rest.now) }
    ensures grown { Extends out.old.items out.new.items }
{
    for long in rest {
        append_later_object(out, long, remarks)?;
    }
    Ok(())
}

// Appends the object of one behind another.
fn append_later_object<A: Allocator, B: Allocator + Copy>(
    out: &mut Vec<u8, A>,
    long: &LongPeriod,
    remarks: &Remarks<'_, B>,
) -> Result<(), AllocError>
    ensures ok { OnOk result (out.new.items ≡ out.old.items ++ later_object remarks.now long.now) }
    ensures grown { Extends out.old.items out.new.items }
{
    append_text(out, b",")?;
    append_object(out, long, remarks)
}

// Appends the object of a long period, and of who says it.
fn append_object<A: Allocator, B: Allocator + Copy>(
    out: &mut Vec<u8, A>,
    long: &LongPeriod,
    remarks: &Remarks<'_, B>,
) -> Result<(), AllocError>
    ensures ok { OnOk result (out.new.items ≡ out.old.items ++ said_object remarks.now long.now) }
    ensures grown { Extends out.old.items out.new.items }
{
    append_object_front(out, long)?;
    append_name(out, remarks.name_of(long.author), Form::Json)?;
    append_text(out, b"}")
}

// Appends what stands before the name.
fn append_object_front<A: Allocator>(
    out: &mut Vec<u8, A>,
    long: &LongPeriod,
) -> Result<(), AllocError>
    ensures ok { OnOk result (out.new.items ≡ out.old.items ++ object_front long.now) }
    ensures grown { Extends out.old.items out.new.items }
{
    append_pieces(
        out,
        &[
            Text(b"{\"period\":"),
            Number(long.seen.period as u64),
            Text(b",\"from\":"),
            Number(long.seen.start as u64),
            Text(b",\"author\":"),
            Number(u64::from(long.author)),
        ],
    )
}
