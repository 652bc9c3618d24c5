//! The lines in columns.

ghost use Rattle.std.specs.Prelude.{◌≡◌, ◌-◌, ◌++◌, [], IfOk, OnOk, replicate, slice_index};
ghost use Rattle.census_table.specs.Table.{aligned, color_of, dressed, end_of, front, measured, noted};
ghost use Rattle.census_table.specs.LinePlaces.{start};

use crate::line_place::{LinePlace, says_period, says_refuted};
use std::alloc::{AllocError, Global};

const RED: &[u8] = b"\x1b[31m";

const GREEN: &[u8] = b"\x1b[32m";

const PLAIN: &[u8] = b"\x1b[0m";

/// The lines, of which each that is of a game has its columns where the others have them, and colours, where they are wanted.
pub(crate) fn aligned(alloc: Global, lines: &[u8], is_colored: bool) -> Result<Vec<u8>, AllocError>
    ensures { IfOk result (λ text. text.items ≡ aligned is_colored lines.now) }
{
    let widths = measured(alloc, lines)?;
    dressed(alloc, lines, &widths, is_colored)
}

// How many bytes the widest of each column has, but for the last of each line.
fn measured(alloc: Global, lines: &[u8]) -> Result<Vec<usize>, AllocError>
    ensures { IfOk result (λ widths. widths.items ≡ measured [] (start lines.now) lines.now) }
{
    let mut widths = Vec::new(alloc);
    let mut place = LinePlace::start(lines);
    for i in 0..lines.len() {
        let rest = &lines[i..];
        if place.begins(rest) {
            note_width(&mut widths, place.column, place.width)?;
        }
        place = place.behind(rest, false);
    }
    Ok(widths)
}

// Makes a column at least so wide.
fn note_width(widths: &mut Vec<usize>, column: usize, width: usize) -> Result<(), AllocError>
    ensures { OnOk result (widths.new.items ≡ noted widths.old.items column width) }
{
    if column < widths.len() {
        widths[column] = widths[column].max(width);
        return Ok(());
    }
    widths.extend_from_slice(&[width])
}

// The lines in columns that are so wide.
fn dressed(
    alloc: Global,
    lines: &[u8],
    widths: &[usize],
    is_colored: bool,
) -> Result<Vec<u8>, AllocError>
    ensures { IfOk result (λ text. text.items ≡ dressed is_colored widths.now (start lines.now) lines.now) }
{
    let mut text = Vec::new(alloc);
    let mut place = LinePlace::start(lines);
    for i in 0..lines.len() {
        let rest = &lines[i..];
        append_front(&mut text, &place, rest, widths, is_colored)?;
        text.extend_from_slice(&[lines[i]])?;
        place = place.behind(rest, is_colored);
    }
    Ok(text)
}

// Appends what stands before the first of these bytes: where it begins a column, the end of a colour, spaces, and a colour.
fn append_front(
    text: &mut Vec<u8>,
    place: &LinePlace,
    rest: &[u8],
    widths: &[usize],
    is_colored: bool,
) -> Result<(), AllocError>
    ensures { OnOk result (text.new.items ≡ text.old.items ++ front is_colored widths.now place.now rest.now) }
{
    if place.begins(rest) {
        append_end(text, place)?;
        append_spaces(text, spaces_in(widths, place))?;
        return append_color(text, rest, is_colored);
    }
    if place.stops(rest) {
        return text.extend_from_slice(PLAIN);
    }
    text.extend_from_slice(b"")
}

// Appends the end of a colour, where the bytes before are colored.
fn append_end(text: &mut Vec<u8>, place: &LinePlace) -> Result<(), AllocError>
    ensures { OnOk result (text.new.items ≡ text.old.items ++ end_of place.now) }
{
    text.extend_from_slice(if place.is_colored { PLAIN } else { b"" })
}

// How many spaces fill the column up.
fn spaces_in(widths: &[usize], place: &LinePlace) -> usize
    ensures { result ≡ slice_index widths.now place.now.column - place.now.width }
{
    if place.column < widths.len() {
        widths[place.column].saturating_sub(place.width)
    } else {
        0
    }
}

// Appends so many spaces.
fn append_spaces(text: &mut Vec<u8>, count: usize) -> Result<(), AllocError>
    ensures { OnOk result (text.new.items ≡ text.old.items ++ replicate count 32) }
{
    for _ in 0..count {
        text.extend_from_slice(b" ")?;
    }
    Ok(())
}

// Appends the colour of the column that these bytes begin, where colours are wanted.
fn append_color(text: &mut Vec<u8>, rest: &[u8], is_colored: bool) -> Result<(), AllocError>
    ensures { OnOk result (text.new.items ≡ text.old.items ++ color_of is_colored rest.now) }
{
    if is_colored && says_refuted(rest) {
        return text.extend_from_slice(RED);
    }
    if is_colored && says_period(rest) {
        return text.extend_from_slice(GREEN);
    }
    text.extend_from_slice(b"")
}
