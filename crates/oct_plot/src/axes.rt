//! The axes of a plot.
#![tactic(auto, using(oct_ops::proofs::Growing::growing))]

ghost use Rattle.std.specs.Prelude.{◌≡◌, ◌++◌, ◌*◌, ◌<◌, ◌^◌, OnOk, find, nat_le};
ghost use Rattle.oct_ops.specs.Growth.{Extends};
ghost use Rattle.oct_plot.specs.Axes.{axes, marked, step_of, tick, tick_count, ticks};
ghost use Rattle.oct_plot.specs.Points.{IsFrame};

use crate::points::{Frame, scaled};
use oct_text::Piece::{Number, Text};
use oct_text::append_pieces;
use std::alloc::{AllocError, Allocator};

/// How wide and how high the axes are drawn.
pub(crate) const WIDTH: u64 = 700;

pub(crate) const HEIGHT: u64 = 320;

// How far ticks may be apart: 1, 2 or 5 times a power of ten.
const STEPS: [u32; 28] = [
    1,
    2,
    5,
    10,
    20,
    50,
    100,
    200,
    500,
    1_000,
    2_000,
    5_000,
    10_000,
    20_000,
    50_000,
    100_000,
    200_000,
    500_000,
    1_000_000,
    2_000_000,
    5_000_000,
    10_000_000,
    20_000_000,
    50_000_000,
    100_000_000,
    200_000_000,
    500_000_000,
    1_000_000_000,
];

/// One of the two axes.
#[derive(Clone, Copy)]
pub(crate) enum Axis {
    /// Heaps, from left to right.
    Heaps,
    /// Nim-values, from below to above.
    Values,
}

/// Appends both axes with their names and their ticks.
pub(crate) fn append_axes<A: Allocator>(
    out: &mut Vec<u8, A>,
    frame: Frame,
) -> Result<(), AllocError>
    requires { IsFrame frame }
    ensures ok { OnOk result (out.new.items ≡ out.old.items ++ axes frame) }
    ensures grown { Extends out.old.items out.new.items }
{
    append_pieces(out, &[Text(b"<path d=\"M0 0H700M0 0V-320\"/>\n")])?;
    append_ticks(out, Axis::Heaps, frame.first, frame.heaps)?;
    append_ticks(out, Axis::Values, 0, frame.values)?;
    append_pieces(out, &[Text(b"<text x=\"350\" y=\"52\">heap</text>\n")])?;
    append_pieces(
        out,
        &[Text(b"<text x=\"160\" y=\"-72\" transform=\"rotate(-90)\">nim-value</text>\n")],
    )
}

// Appends the ticks of an axis that begins at the first number and spans so much.
fn append_ticks<A: Allocator>(
    out: &mut Vec<u8, A>,
    axis: Axis,
    first: u64,
    span: u64,
) -> Result<(), AllocError>
    requires some { 0 < span }
    requires low { first < 2 ^ 32 }
    requires short { span < 2 ^ 32 }
    ensures ok { OnOk result (out.new.items ≡ out.old.items ++ ticks axis first span) }
    ensures grown { Extends out.old.items out.new.items }
{
    let step = step_of(span);
    let front = first.div_ceil(step);
    for place in 0..tick_count(first, span, step) {
        append_tick(out, axis, first, span, (front + place) * step)?;
    }
    Ok(())
}

// How many multiples of the step lie on the axis.
fn tick_count(first: u64, span: u64, step: u64) -> u64
    requires some { 0 < step }
    requires low { first < 2 ^ 32 }
    requires short { span < 2 ^ 32 }
    ensures { result ≡ tick_count first span step }
{
    ((first + span) / step + 1).saturating_sub(first.div_ceil(step))
}

// How far the ticks of an axis are apart that spans so much: the least step with at most nine ticks.
fn step_of(span: u64) -> u64
    requires { 0 < span }
    ensures value { result ≡ step_of span }
    ensures some { 0 < result }
{
    match first_step(&STEPS, span) {
        Some(step) => u64::from(step),
        None => span,
    }
}

// The first of the steps for which an axis that spans so much has at most nine ticks.
fn first_step(steps: &[u32], span: u64) -> Option<u32>
    ensures { result ≡ find (λ step. nat_le span (8 * step)) steps.now }
{
    steps
        .iter()
        .copied()
        .find(|step| span <= 8 * u64::from(*step))
}

// Appends the tick of a number, with the number beside it.
fn append_tick<A: Allocator>(
    out: &mut Vec<u8, A>,
    axis: Axis,
    first: u64,
    span: u64,
    number: u64,
) -> Result<(), AllocError>
    requires some { 0 < span }
    requires short { number < 2 ^ 33 }
    ensures ok { OnOk result (out.new.items ≡ out.old.items ++ tick axis first span number) }
    ensures grown { Extends out.old.items out.new.items }
{
    match axis {
        Axis::Heaps => append_marked(
            out,
            b"<path d=\"M",
            b" 0v6\"/><text x=\"",
            b"\" y=\"26\">",
            scaled(number.saturating_sub(first), span, WIDTH),
            number,
        ),
        Axis::Values => append_marked(
            out,
            b"<path d=\"M0 -",
            b"h-6\"/><text class=\"value\" x=\"-12\" y=\"-",
            b"\" dy=\"6\">",
            scaled(number.saturating_sub(first), span, HEIGHT),
            number,
        ),
    }
}

// Appends a line at a place of an axis, and a number beside it, in the texts that stand around them.
fn append_marked<A: Allocator>(
    out: &mut Vec<u8, A>,
    front: &'static [u8],
    middle: &'static [u8],
    back: &'static [u8],
    place: u64,
    number: u64,
) -> Result<(), AllocError>
    ensures ok { OnOk result (out.new.items ≡ out.old.items ++ marked front.now middle.now back.now place number) }
    ensures grown { Extends out.old.items out.new.items }
{
    append_pieces(
        out,
        &[
            Text(front),
            Number(place),
            Text(middle),
            Number(place),
            Text(back),
            Number(number),
            Text(b"</text>\n"),
        ],
    )
}
