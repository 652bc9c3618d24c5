//! What is proved of all heaps of a game, in words.
#![tactic(auto, using(oct_ops::proofs::Growing::growing))]

ghost use Rattle.std.specs.Prelude.{◌≡◌, ◌++◌, OnOk, take, drop};
ghost use Rattle.std.specs.List.{flat_map};
ghost use Rattle.oct_ops.specs.Growth.{Extends};
ghost use Rattle.oct_plot.specs.Sentence.{goes_on, period_words, sentence, short_words, word_of};

use oct_ops::Period;
use oct_text::Piece::{Number, Text};
use oct_text::append_pieces;
use std::alloc::{AllocError, Allocator};

// The longest period whose values are told.
const SHORT: u32 = 40;

/// Appends what is proved: the period, where it begins, and its values where it is short.
pub fn append_sentence<A: Allocator>(
    out: &mut Vec<u8, A>,
    values: &[u32],
    proved: &Option<Period>,
) -> Result<(), AllocError>
    ensures ok { OnOk result (out.new.items ≡ out.old.items ++ sentence values.now proved.now) }
    ensures grown { Extends out.old.items out.new.items }
{
    match proved {
        None => append_pieces(out, &[Text(b"No period is proved.")]),
        Some(period) => append_proved(out, values, period),
    }
}

// Appends that the values repeat.
fn append_proved<A: Allocator>(
    out: &mut Vec<u8, A>,
    values: &[u32],
    period: &Period,
) -> Result<(), AllocError>
    ensures ok { OnOk result (out.new.items ≡ out.old.items ++ sentence values.now (Some period.now)) }
    ensures grown { Extends out.old.items out.new.items }
{
    append_goes_on(out, period)?;
    append_period_words(out, values, period)?;
    append_pieces(out, &[Text(b".")])
}

// Appends from where on they do, and by which period.
fn append_goes_on<A: Allocator>(out: &mut Vec<u8, A>, period: &Period) -> Result<(), AllocError>
    ensures ok { OnOk result (out.new.items ≡ out.old.items ++ goes_on period.now) }
    ensures grown { Extends out.old.items out.new.items }
{
    append_pieces(
        out,
        &[
            Text(b"From heap "),
            Number(period.start() as u64),
            Text(b" on the nim-values repeat with period "),
            Number(period.period() as u64),
            Text(b", for ever"),
        ],
    )
}

// Appends the values of the first period, where it is short.
fn append_period_words<A: Allocator>(
    out: &mut Vec<u8, A>,
    values: &[u32],
    period: &Period,
) -> Result<(), AllocError>
    ensures ok { OnOk result (out.new.items ≡ out.old.items ++ period_words values.now period.now) }
    ensures grown { Extends out.old.items out.new.items }
{
    if period.period() <= SHORT {
        append_short_words(out, values, period)
    } else {
        append_pieces(out, &[])
    }
}

// Appends the values of the first period.
fn append_short_words<A: Allocator>(
    out: &mut Vec<u8, A>,
    values: &[u32],
    period: &Period,
) -> Result<(), AllocError>
    ensures ok { OnOk result (out.new.items ≡ out.old.items ++ short_words values.now period.now) }
    ensures grown { Extends out.old.items out.new.items }
{
    append_pieces(out, &[Text(b":")])?;
    append_words(
        out,
        part(values, period.start() as usize, period.period() as usize),
    )
}

// The values from a heap on, at most so many.
fn part(values: &[u32], start: usize, count: usize) -> &[u32]
    ensures { result.now ≡ take count (drop start values.now) }
{
    let rest = &values[start.min(values.len())..];
    &rest[..count.min(rest.len())]
}

// Appends the values, each after a space.
fn append_words<A: Allocator>(out: &mut Vec<u8, A>, values: &[u32]) -> Result<(), AllocError>
    ensures ok { OnOk result (out.new.items ≡ out.old.items ++ flat_map word_of values.now) }
    ensures grown { Extends out.old.items out.new.items }
{
    for value in values {
        append_word(out, *value)?;
    }
    Ok(())
}

// Appends a value after a space.
fn append_word<A: Allocator>(out: &mut Vec<u8, A>, value: u32) -> Result<(), AllocError>
    ensures ok { OnOk result (out.new.items ≡ out.old.items ++ word_of value) }
    ensures grown { Extends out.old.items out.new.items }
{
    append_pieces(out, &[Text(b" "), Number(value as u64)])
}
