//! The plot of a game's known nim-values.
#![tactic(auto, using(oct_ops::proofs::Growing::growing))]

ghost use Rattle.std.specs.Prelude.{◌≡◌, ◌+◌, ◌++◌, ◌<◌, ◌≤◌, ◌^◌, IfOk, None, OnErr, OnOk, length};
ghost use Rattle.oct_ops.specs.Growth.{Extends};
ghost use Rattle.oct_plot.specs.Points.{IsFrame, points_of};
ghost use Rattle.oct_plot.specs.Sentence.{sentence};
ghost use Rattle.oct_plot.specs.Plot.{between, between_with, head, is_seen, period_text, pictured, plot, plot_between, plot_from, plot_with, points_head, points_kind, points_text, proved_text, right_of, row_begin, run_text, runs_text, shade, start_line, start_text, title, title_from, way_from, way_text, ways_text};

use crate::axes::{HEIGHT, WIDTH, append_axes};
use crate::points::{Frame, Point, points_of, scaled};
use crate::sentence::append_sentence;
use crate::style::PLOT_STYLE;
use oct_code::Code;
use oct_ops::Period;
use oct_text::Piece::{Code as CodeText, Number, Text};
use oct_text::append_pieces;
use std::alloc::{AllocError, Allocator};

// Points are larger where there are fewer values.
const FEW: usize = 500;

/// Appends a plot of a game's known nim-values, those of the heaps from 0 on: a picture in SVG with one point for each
/// place, as `specs/Plot` spells it. Where a period is proved, it ends with the second run, its start is marked, and the
/// heaps of its first two runs are shaded. The one error is that memory is refused, and then `out` stays as it is.
pub fn write_plot<A: Allocator + Copy>(
    code: &Code,
    values: &[u32],
    proved: &Option<Period>,
    out: &mut Vec<u8, A>,
) -> Result<(), AllocError>
    requires { length values.now < 2 ^ 32 }
    ensures ok { OnOk result (out.new.items ≡ out.old.items ++ plot code.now values.now proved.now) }
    ensures err { OnErr result (out.new.items ≡ out.old.items) }
{
    let before = out.len();
    let written = append_pictured(out, PLOT_STYLE, code, values, proved);
    if written.is_err() {
        out.truncate(before);
    }
    written
}

// Appends the plot of the values that the picture of a game has, with a style.
fn append_pictured<A: Allocator + Copy>(
    out: &mut Vec<u8, A>,
    style: &[u8],
    code: &Code,
    values: &[u32],
    proved: &Option<Period>,
) -> Result<(), AllocError>
    requires { length values.now < 2 ^ 32 }
    ensures ok { OnOk result (out.new.items ≡ out.old.items ++ plot_with style.now code.now (pictured values.now proved.now) proved.now) }
    ensures grown { Extends out.old.items out.new.items }
{
    append_plot(out, style, code, pictured(values, proved), proved)
}

/// The values that the picture of a game has where nobody asks for others: those up to the end of the second run, where a
/// period is proved, and else all.
pub fn pictured<'a>(values: &'a [u32], proved: &Option<Period>) -> &'a [u32]
    ensures { result.now ≡ pictured values.now proved.now }
{
    match proved {
        None => values,
        Some(period) => {
            let end = period.start() as usize + 2 * period.period() as usize;
            &values[..end.min(values.len())]
        }
    }
}

/// Appends the plot of the heaps `from` to `to`, both among them, of a game with these known nim-values. The picture is that
/// of `write_plot` but for the heaps: the ticks stand at multiples of their step, and of the two runs of the period it has
/// what lies between these heaps. The one error is that memory is refused, and then `out` stays as it is.
pub fn write_plot_between<A: Allocator + Copy>(
    code: &Code,
    values: &[u32],
    from: usize,
    to: usize,
    proved: &Option<Period>,
    out: &mut Vec<u8, A>,
) -> Result<(), AllocError>
    requires order { from ≤ to }
    requires known { to < length values.now }
    requires few { length values.now < 2 ^ 32 }
    ensures ok { OnOk result (out.new.items ≡ out.old.items ++ plot_between code.now values.now from to proved.now) }
    ensures err { OnErr result (out.new.items ≡ out.old.items) }
{
    let before = out.len();
    let written = append_between(out, PLOT_STYLE, code, values, from, to, proved);
    if written.is_err() {
        out.truncate(before);
    }
    written
}

// Appends the plot of the heaps, with a style.
fn append_between<A: Allocator + Copy>(
    out: &mut Vec<u8, A>,
    style: &[u8],
    code: &Code,
    values: &[u32],
    from: usize,
    to: usize,
    proved: &Option<Period>,
) -> Result<(), AllocError>
    requires order { from ≤ to }
    requires known { to < length values.now }
    requires few { length values.now < 2 ^ 32 }
    ensures ok { OnOk result (out.new.items ≡ out.old.items ++ between_with style.now code.now values.now from to proved.now) }
    ensures grown { Extends out.old.items out.new.items }
{
    let told = told_of(*out.allocator(), values, proved)?;
    append_from(
        out,
        style,
        &told,
        code,
        from,
        between(values, from, to),
        proved,
    )
}

// The values of the heaps from one to another, both among them.
fn between(values: &[u32], from: usize, to: usize) -> &[u32]
    requires order { from ≤ to }
    requires known { to < length values.now }
    ensures value { result.now ≡ between from to values.now }
    ensures short { from + length result.now ≤ length values.now }
{
    &values[from..to + 1]
}

/// Appends the plot of the heaps from 0 on, with a style.
pub fn append_plot<A: Allocator + Copy>(
    out: &mut Vec<u8, A>,
    style: &[u8],
    code: &Code,
    values: &[u32],
    proved: &Option<Period>,
) -> Result<(), AllocError>
    requires { length values.now < 2 ^ 32 }
    ensures ok { OnOk result (out.new.items ≡ out.old.items ++ plot_with style.now code.now values.now proved.now) }
    ensures grown { Extends out.old.items out.new.items }
{
    let told = told_of(*out.allocator(), values, proved)?;
    append_from(out, style, &told, code, 0, values, proved)
}

// Appends the plot of the values from the first heap on, with a style and what is proved in words.
fn append_from<A: Allocator + Copy>(
    out: &mut Vec<u8, A>,
    style: &[u8],
    told: &[u8],
    code: &Code,
    first: usize,
    values: &[u32],
    proved: &Option<Period>,
) -> Result<(), AllocError>
    requires { first + length values.now < 2 ^ 32 }
    ensures ok { OnOk result (out.new.items ≡ out.old.items ++ plot_from style.now told.now code.now first values.now proved.now) }
    ensures grown { Extends out.old.items out.new.items }
{
    let frame = Frame::of(first, values);
    let title = title_from(*out.allocator(), code, first, values.len(), proved)?;
    append_head(out, code, &title, told, style)?;
    append_period(out, frame, proved)?;
    append_axes(out, frame)?;
    append_points(out, code, first, values)?;
    append_pieces(out, &[Text(b"</g></svg>\n")])
}

// Appends what stands before the drawing: the frame, the title, what is proved, and the style.
fn append_head<'a, A: Allocator>(
    out: &mut Vec<u8, A>,
    code: &Code,
    title: &'a [u8],
    told: &'a [u8],
    style: &'a [u8],
) -> Result<(), AllocError>
    ensures ok { OnOk result (out.new.items ≡ out.old.items ++ head code.now title.now told.now style.now) }
    ensures grown { Extends out.old.items out.new.items }
{
    append_pieces(
        out,
        &[
            Text(
                b"<svg xmlns=\"http://www.w3.org/2000/svg\" class=\"plot\" viewBox=\"0 0 840 430\" role=\"img\" aria-labelledby=\"plot-",
            ),
            CodeText(*code),
            Text(b"\" aria-describedby=\"told-"),
            CodeText(*code),
            Text(b"\"><title id=\"plot-"),
            CodeText(*code),
            Text(b"\">"),
            Text(title),
            Text(b"</title>\n<desc id=\"told-"),
            CodeText(*code),
            Text(b"\">"),
            Text(told),
            Text(b"</desc>\n<style>"),
            Text(style),
            Text(
                b"</style>\n<g transform=\"translate(100 362)\">\n<text class=\"title\" x=\"0\" y=\"-340\">",
            ),
            Text(title),
            Text(b"</text>\n"),
        ],
    )
}

// What is proved of all heaps.
fn told_of<A: Allocator>(
    alloc: A,
    values: &[u32],
    proved: &Option<Period>,
) -> Result<Vec<u8, A>, AllocError>
    ensures { IfOk result (λ text. text.items ≡ sentence values.now proved.now) }
{
    let mut text = Vec::new(alloc);
    append_sentence(&mut text, values, proved)?;
    Ok(text)
}

/// Which game it is, and the heaps from 0 on, so many, whose values are shown.
pub fn title_of<A: Allocator>(
    alloc: A,
    code: &Code,
    count: usize,
    proved: &Option<Period>,
) -> Result<Vec<u8, A>, AllocError>
    ensures { IfOk result (λ text. text.items ≡ title code.now count proved.now) }
{
    title_from(alloc, code, 0, count, proved)
}

// Which game it is, and the heaps from the first one on, so many.
fn title_from<A: Allocator>(
    alloc: A,
    code: &Code,
    first: usize,
    count: usize,
    proved: &Option<Period>,
) -> Result<Vec<u8, A>, AllocError>
    requires { first + count < 2 ^ 64 }
    ensures { IfOk result (λ text. text.items ≡ title_from code.now first count proved.now) }
{
    let mut text = Vec::new(alloc);
    append_pieces(
        &mut text,
        &[
            CodeText(*code),
            Text(b": nim-values of heaps "),
            Number(first as u64),
            Text(b" to "),
            Number(first as u64 + (count as u64).saturating_sub(1)),
        ],
    )?;
    append_proved(&mut text, b", period ", proved)?;
    Ok(text)
}

// Appends the period and its start, where one is proved, after a text that leads to them.
fn append_proved<A: Allocator>(
    out: &mut Vec<u8, A>,
    lead: &[u8],
    proved: &Option<Period>,
) -> Result<(), AllocError>
    ensures ok { OnOk result (out.new.items ≡ out.old.items ++ proved_text lead.now proved.now) }
    ensures grown { Extends out.old.items out.new.items }
{
    let Some(period) = proved else {
        return Ok(());
    };
    append_pieces(
        out,
        &[
            Text(lead),
            Number(period.period() as u64),
            Text(b" from "),
            Number(period.start() as u64),
        ],
    )
}

// Appends the first two runs of the period, cut to the axis, and the line at its start.
fn append_period<A: Allocator>(
    out: &mut Vec<u8, A>,
    frame: Frame,
    proved: &Option<Period>,
) -> Result<(), AllocError>
    requires { IsFrame frame }
    ensures ok { OnOk result (out.new.items ≡ out.old.items ++ period_text frame proved.now) }
    ensures grown { Extends out.old.items out.new.items }
{
    match proved {
        None => append_pieces(out, &[]),
        Some(period) => append_runs(out, frame, period),
    }
}

// Appends the first two runs of a period.
fn append_runs<A: Allocator>(
    out: &mut Vec<u8, A>,
    frame: Frame,
    period: &Period,
) -> Result<(), AllocError>
    requires { IsFrame frame }
    ensures ok { OnOk result (out.new.items ≡ out.old.items ++ runs_text frame period.now) }
    ensures grown { Extends out.old.items out.new.items }
{
    let start = u64::from(period.start());
    let length = u64::from(period.period());
    append_run(out, frame, b"period", start, start + length)?;
    append_run(out, frame, b"again", start + length, start + 2 * length)?;
    append_start(out, frame, start)
}

// How far to the right a heap stands, at least as far as the first one that is shown and at most as far as the last.
fn right_of(frame: Frame, heap: u64) -> u64
    requires { IsFrame frame }
    ensures { result ≡ right_of frame heap }
{
    scaled(
        heap.saturating_sub(frame.first).min(frame.heaps),
        frame.heaps,
        WIDTH,
    )
}

// Appends a run from a heap up to another, shaded, where a part of it is seen.
fn append_run<A: Allocator>(
    out: &mut Vec<u8, A>,
    frame: Frame,
    run: &[u8],
    from: u64,
    to: u64,
) -> Result<(), AllocError>
    requires frame { IsFrame frame }
    requires order { from ≤ to }
    ensures ok { OnOk result (out.new.items ≡ out.old.items ++ run_text frame run.now from to) }
    ensures grown { Extends out.old.items out.new.items }
{
    if is_seen(frame, from, to) {
        append_shade(out, run, right_of(frame, from), right_of(frame, to))
    } else {
        append_pieces(out, &[])
    }
}

// Whether a part of the heap axis lies between the two heaps.
fn is_seen(frame: Frame, from: u64, to: u64) -> bool
    requires { IsFrame frame }
    ensures { result ≡ is_seen frame from to }
{
    frame.first < to && from < frame.first + frame.heaps
}

// Appends the line at the heap where the period begins, where it stands on the axis.
fn append_start<A: Allocator>(
    out: &mut Vec<u8, A>,
    frame: Frame,
    heap: u64,
) -> Result<(), AllocError>
    requires { IsFrame frame }
    ensures ok { OnOk result (out.new.items ≡ out.old.items ++ start_text frame heap) }
    ensures grown { Extends out.old.items out.new.items }
{
    if frame.first <= heap && heap <= frame.first + frame.heaps {
        append_line(out, right_of(frame, heap))
    } else {
        append_pieces(out, &[])
    }
}

// Appends a line so far to the right.
fn append_line<A: Allocator>(out: &mut Vec<u8, A>, right: u64) -> Result<(), AllocError>
    ensures ok { OnOk result (out.new.items ≡ out.old.items ++ start_line right) }
    ensures grown { Extends out.old.items out.new.items }
{
    append_pieces(
        out,
        &[
            Text(b"<path class=\"start\" d=\"M"),
            Number(right),
            Text(b" 0V-320\"/>\n"),
        ],
    )
}

// Appends a shade from a place to another.
fn append_shade<A: Allocator>(
    out: &mut Vec<u8, A>,
    run: &[u8],
    from: u64,
    to: u64,
) -> Result<(), AllocError>
    requires { from ≤ to }
    ensures ok { OnOk result (out.new.items ≡ out.old.items ++ shade run.now from to) }
    ensures grown { Extends out.old.items out.new.items }
{
    append_pieces(
        out,
        &[
            Text(b"<rect class=\""),
            Text(run),
            Text(b"\" x=\""),
            Number(from),
            Text(b"\" y=\"-320\" width=\""),
            Number(to - from),
            Text(b"\" height=\"320\"/>\n"),
        ],
    )
}

// Appends the points of the values: a dot, and a path that has one at each of its points.
fn append_points<A: Allocator + Copy>(
    out: &mut Vec<u8, A>,
    code: &Code,
    first: usize,
    values: &[u32],
) -> Result<(), AllocError>
    requires { first + length values.now < 2 ^ 32 }
    ensures ok { OnOk result (out.new.items ≡ out.old.items ++ points_text code.now (points_kind (length values.now)) (points_of first values.now)) }
    ensures grown { Extends out.old.items out.new.items }
{
    let points = points_of(*out.allocator(), first, values)?;
    append_points_head(out, code, points_kind(values.len()))?;
    append_ways(out, &points)?;
    append_pieces(out, &[Text(b"\"/>\n")])
}

// Appends the dot, and the head of the path.
fn append_points_head<A: Allocator>(
    out: &mut Vec<u8, A>,
    code: &Code,
    kind: &[u8],
) -> Result<(), AllocError>
    ensures ok { OnOk result (out.new.items ≡ out.old.items ++ points_head code.now kind.now) }
    ensures grown { Extends out.old.items out.new.items }
{
    append_pieces(
        out,
        &[
            Text(b"<marker id=\"dot-"),
            CodeText(*code),
            Text(
                b"\" class=\"dot\" overflow=\"visible\"><circle r=\".5\"/></marker>\n<path class=\"",
            ),
            Text(kind),
            Text(b"\" style=\"marker:url(#dot-"),
            CodeText(*code),
            Text(b")\" transform=\"scale(.5 -.5)\" d=\""),
        ],
    )
}

// Appends the way through the points, in their order.
fn append_ways<A: Allocator>(out: &mut Vec<u8, A>, points: &[Point]) -> Result<(), AllocError>
    ensures ok { OnOk result (out.new.items ≡ out.old.items ++ ways_text None points.now) }
    ensures grown { Extends out.old.items out.new.items }
{
    let mut before = None;
    for point in points {
        append_way(out, before, *point)?;
        before = Some(*point);
    }
    Ok(())
}

// Appends the way to a point from the one before it.
fn append_way<A: Allocator>(
    out: &mut Vec<u8, A>,
    before: Option<Point>,
    point: Point,
) -> Result<(), AllocError>
    ensures ok { OnOk result (out.new.items ≡ out.old.items ++ way_text before point) }
    ensures grown { Extends out.old.items out.new.items }
{
    match before {
        None => append_row_begin(out, point),
        Some(last) => append_way_from(out, last, point),
    }
}

// Appends the way to a point from another, which in a row is as far as the columns are apart.
fn append_way_from<A: Allocator>(
    out: &mut Vec<u8, A>,
    last: Point,
    point: Point,
) -> Result<(), AllocError>
    ensures ok { OnOk result (out.new.items ≡ out.old.items ++ way_from last point) }
    ensures grown { Extends out.old.items out.new.items }
{
    if last.row == point.row {
        append_pieces(
            out,
            &[Text(b"h"), Number(point.column.saturating_sub(last.column))],
        )
    } else {
        append_row_begin(out, point)
    }
}

// Appends the way to the first point of a row.
fn append_row_begin<A: Allocator>(out: &mut Vec<u8, A>, point: Point) -> Result<(), AllocError>
    ensures ok { OnOk result (out.new.items ≡ out.old.items ++ row_begin point) }
    ensures grown { Extends out.old.items out.new.items }
{
    append_pieces(
        out,
        &[
            Text(b"M"),
            Number(point.column),
            Text(b" "),
            Number(point.row),
        ],
    )
}

// The kind of the points, by how many values are shown.
fn points_kind(known: usize) -> &'static [u8]
    ensures { result.now ≡ points_kind known }
{
    if known < FEW {
        b"points few"
    } else {
        b"points"
    }
}
