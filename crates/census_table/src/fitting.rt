//! Lines that fit a terminal.

ghost use Rattle.std.specs.Prelude.{◌≡◌, ◌<◌, ◌≤◌, ◌++◌, false, IfOk, OnOk, length};
ghost use Rattle.census_table.specs.Fitting.{begin, ends, fitted, fitted_to, hides, hides_on, is_free, limit, past, piece, room, seen, width_of};

use std::alloc::{AllocError, Global};

/// What is counted of a line.
#[derive(Clone, Copy)]
pub(crate) enum Part {
    /// All of it.
    Line,
    /// What is never cut.
    Front,
}

/// Where in a text a byte stands that is to fit.
#[derive(Clone, Copy)]
pub(crate) struct Spot {
    /// How many bytes of the line are still shown.
    pub(crate) left: usize,
    /// Whether the byte before belongs to a colour, and is not its last one.
    pub(crate) is_hidden: bool,
    /// Whether the line is cut already.
    pub(crate) is_cut: bool,
}

/// How wide lines may be: as wide as is asked for, and on a terminal else as wide as the environment says.
pub fn width_of(asked: Option<usize>, is_terminal: bool, columns: Option<usize>) -> Option<usize>
    ensures { result ≡ width_of asked is_terminal columns }
{
    match asked {
        Some(width) => Some(width),
        None if is_terminal => columns,
        None => None,
    }
}

/// The text, of which each line has this width at most, where there is one.
pub(crate) fn fitted_to(
    alloc: Global,
    text: Vec<u8>,
    width: Option<usize>,
) -> Result<Vec<u8>, AllocError>
    ensures { IfOk result (λ shown. shown.items ≡ fitted_to width text.items) }
{
    match width {
        Some(width) => fitted(alloc, &text, width),
        None => Ok(text),
    }
}

// The text, of which each line is cut that is wider, behind its front.
fn fitted(alloc: Global, text: &[u8], width: usize) -> Result<Vec<u8>, AllocError>
    ensures { IfOk result (λ shown. shown.items ≡ fitted width text.now) }
{
    let mut shown = Vec::new(alloc);
    let mut spot = Spot::begin(text, width);
    for i in 0..text.len() {
        append_piece(&mut shown, &spot, text[i])?;
        spot = spot.past(&text[i..], width);
    }
    Ok(shown)
}

// Appends what stands for a byte: itself, two points for the first that is cut, or nothing.
fn append_piece(shown: &mut Vec<u8>, spot: &Spot, byte: u8) -> Result<(), AllocError>
    ensures { OnOk result (shown.new.items ≡ shown.old.items ++ piece spot.now byte) }
{
    if byte == b'\n' || hides(spot.is_hidden, byte) || spot.left > 0 {
        return shown.extend_from_slice(&[byte]);
    }
    shown.extend_from_slice(if spot.is_cut { b"" } else { b".." })
}

impl Spot {
    // The beginning of the first of these lines.
    fn begin(lines: &[u8], width: usize) -> Spot
        ensures { result ≡ begin width lines.now }
    {
        Spot {
            left: limit(lines, width),
            is_hidden: false,
            is_cut: false,
        }
    }

    #[tactic(auto, using(crate::proofs::Fits::past_at))]
    // The place behind the first of these bytes, which stands here.
    fn past(&self, rest: &[u8], width: usize) -> Spot
        requires { 0 < length rest.now }
        ensures { result ≡ past width self.now rest.now }
    {
        if rest[0] == b'\n' {
            return Spot::begin(&rest[1..], width);
        }
        let mut next = *self;
        if hides(self.is_hidden, rest[0]) {
            next.is_hidden = hides_on(self.is_hidden, rest[0]);
        } else if self.left > 0 {
            next.left = self.left - 1;
        } else {
            next.is_cut = true;
        }
        next
    }
}

// How many bytes of the first of these lines are shown.
fn limit(lines: &[u8], width: usize) -> usize
    ensures { result ≡ limit width lines.now }
{
    let all = seen(lines, Part::Line);
    let room = width.max(seen(lines, Part::Front).saturating_add(2));
    if all <= room { all } else { room - 2 }
}

// How many bytes of the first of these lines, or of its front, are seen.
fn seen(lines: &[u8], part: Part) -> usize
    ensures is { result ≡ seen part false lines.now }
    ensures few { result ≤ length lines.now }
{
    let mut count = 0;
    let mut is_hidden = false;
    for i in 0..lines.len() {
        if ends(&lines[i..], part) {
            return count;
        }
        if !hides(is_hidden, lines[i]) {
            count += 1;
        }
        is_hidden = hides_on(is_hidden, lines[i]);
    }
    count
}

// Whether the line, or its front, has its end there.
fn ends(rest: &[u8], part: Part) -> bool
    ensures { result ≡ ends part rest.now }
{
    match part {
        Part::Line => rest.starts_with(b"\n"),
        Part::Front => rest.starts_with(b"\n") || is_free(rest),
    }
}

// Whether these bytes begin with what may be cut.
fn is_free(rest: &[u8]) -> bool
    ensures { result ≡ is_free rest.now }
{
    rest.starts_with(b" blocks ") || rest.starts_with(b", by ")
}

// Whether the byte belongs to a colour, as the one before it does or does not.
fn hides(is_hidden: bool, byte: u8) -> bool
    ensures { result ≡ hides is_hidden byte }
{
    is_hidden || byte == 27
}

// Whether it belongs to a colour, and is not its last one.
fn hides_on(is_hidden: bool, byte: u8) -> bool
    ensures { result ≡ hides_on is_hidden byte }
{
    hides(is_hidden, byte) && byte != b'm'
}
