//! The tables of a game's known nim-values.
#![tactic(auto, using(oct_ops::proofs::Growing::growing))]

ghost use Rattle.std.specs.Prelude.{◌≡◌, ◌++◌, ◌+◌, ◌<◌, ◌≤◌, ◌^◌, OnOk, drop, find, fold, length, max, ◌%◌, ◌==◌};
ghost use Rattle.std.specs.List.{enumerate_from, flat_map};
ghost use Rattle.oct_code.specs.declared.limits.TheConstants.{LIMIT};
ghost use Rattle.oct_ops.specs.Growth.{Extends};
ghost use Rattle.oct_tables.specs.Values.{after_shade, back_layout, back_len, back_table, before_value, begins_row, blank_for, cell_head, front_layout, front_len, front_table, front_values, is_shaded, padded, row_before, row_end, row_head, value_text, values_in, values_rows, values_table, values_tables, width_of};

use crate::tables::{Rows, append_rows, append_table_end, append_table_head};
use oct_ops::Period;
use oct_text::Piece::{Number, Text};
use oct_text::{Shown, append_pieces, append_text};
use std::alloc::{AllocError, Allocator};

// So many values are all shown, and else so many first ones and so many last ones.
const FEW: usize = 1_100;

const FIRST: usize = 1_000;

const LAST: usize = 100;

// How many values stand in a row where no period is proved.
const ROW: u64 = 20;

// How many values may stand in a row, the greatest number first.
const WIDTHS: [u64; 21] = [
    40, 39, 38, 37, 36, 35, 34, 33, 32, 31, 30, 29, 28, 27, 26, 25, 24, 23, 22, 21, 20,
];

// The powers of ten by which values get blanks before them.
const POWERS: [u32; 9] = [
    10,
    100,
    1_000,
    10_000,
    100_000,
    1_000_000,
    10_000_000,
    100_000_000,
    1_000_000_000,
];

// The blanks before a value.
#[derive(Clone, Copy)]
struct Blanks {
    // The greatest value of the table.
    greatest: u32,
    // The value.
    value: u32,
}

// The rows of a table of values.
#[derive(Clone, Copy)]
struct Layout {
    // The heap of the first value.
    first: u64,
    // The heap from which on rows are counted anew.
    start: u64,
    // How many values stand in a row.
    width: u64,
    // How many heaps from `start` on are shaded.
    shaded: u64,
}

/// Appends the tables of the known nim-values, which are those of the heaps from 0 on.
pub fn append_values_tables<A: Allocator + Copy>(
    out: &mut Vec<u8, A>,
    how: Shown,
    values: &[u32],
    proved: &Option<Period>,
) -> Result<(), AllocError>
    requires { length values.now ≤ LIMIT }
    ensures ok { OnOk result (out.new.items ≡ out.old.items ++ values_tables how values.now proved.now) }
    ensures grown { Extends out.old.items out.new.items }
{
    append_front(out, how, values, proved)?;
    append_back(out, how, values, proved)
}

// Appends the table of the first ones.
fn append_front<A: Allocator + Copy>(
    out: &mut Vec<u8, A>,
    how: Shown,
    values: &[u32],
    proved: &Option<Period>,
) -> Result<(), AllocError>
    requires { length values.now ≤ LIMIT }
    ensures ok { OnOk result (out.new.items ≡ out.old.items ++ front_table how values.now proved.now) }
    ensures grown { Extends out.old.items out.new.items }
{
    append_values_table(
        out,
        front_layout(proved),
        b"Nim-values: each row from the heap at its head on",
        front_values(how, values, proved),
    )
}

/// The first values of a game that are shown, those of the heaps from 0 on.
pub fn front_values<'a>(how: Shown, values: &'a [u32], proved: &Option<Period>) -> &'a [u32]
    ensures value { result.now ≡ front_values how values.now proved.now }
    ensures within { length result.now ≤ length values.now }
{
    &values[..front_len(how, values.len(), proved).min(values.len())]
}

// Appends the table of the last ones, where some before them are left out.
fn append_back<A: Allocator + Copy>(
    out: &mut Vec<u8, A>,
    how: Shown,
    values: &[u32],
    proved: &Option<Period>,
) -> Result<(), AllocError>
    requires { length values.now ≤ LIMIT }
    ensures ok { OnOk result (out.new.items ≡ out.old.items ++ back_table how values.now proved.now) }
    ensures grown { Extends out.old.items out.new.items }
{
    let first = values.len() - back_len(how, values.len(), proved);
    append_values_table(
        out,
        back_layout(first as u64),
        b"The last 100 known nim-values",
        values_from(values, first),
    )
}

// The values from a heap on.
fn values_from(values: &[u32], first: usize) -> &[u32]
    requires { first ≤ length values.now }
    ensures value { result.now ≡ drop first values.now }
    ensures within { length result.now ≤ length values.now }
{
    &values[first..]
}

// How many values are shown from heap 0 on, or more than are known.
fn front_len(how: Shown, known: usize, proved: &Option<Period>) -> usize
    ensures { result ≡ front_len how known proved.now }
{
    match (how, proved) {
        (Shown::All, _) => known,
        (Shown::Brief, Some(period)) => period.start() as usize + 2 * period.period() as usize,
        (Shown::Brief, None) => { if known <= FEW { known } else { FIRST } }
    }
}

// How many values are shown at the end.
fn back_len(how: Shown, known: usize, proved: &Option<Period>) -> usize
    ensures value { result ≡ back_len how known proved.now }
    ensures within { result ≤ known }
{
    match (how, proved) {
        (Shown::All, _) | (Shown::Brief, Some(_)) => 0,
        (Shown::Brief, None) => { if known <= FEW { 0 } else { LAST } }
    }
}

// The rows of values from heap 0 on.
fn front_layout(proved: &Option<Period>) -> Layout
    ensures value { result ≡ front_layout proved.now }
    ensures some { 0 < result.width }
    ensures first { result.first ≡ 0 }
{
    match proved {
        None => back_layout(0),
        Some(period) => Layout {
            first: 0,
            start: u64::from(period.start()),
            width: width_of(u64::from(period.period())),
            shaded: u64::from(period.period()),
        },
    }
}

// The rows of values from a heap on.
fn back_layout(first: u64) -> Layout
    ensures value { result ≡ back_layout first }
    ensures some { 0 < result.width }
{
    Layout {
        first,
        start: first,
        width: ROW,
        shaded: 0,
    }
}

// How many values of such a period stand in a row.
fn width_of(period: u64) -> u64
    requires some { 0 < period }
    ensures value { result ≡ width_of period }
    ensures some { 0 < result }
{
    if period <= 40 {
        return period * ROW.div_ceil(period);
    }
    divisor_of(&WIDTHS, period).unwrap_or(ROW)
}

// The first of the widths that divides the period.
fn divisor_of(widths: &[u64], period: u64) -> Option<u64>
    ensures { result ≡ find (λ width. (period % max width 1) == 0) widths.now }
{
    widths
        .iter()
        .copied()
        .find(|width| period % (*width).max(1) == 0)
}

// Appends a table of the values, where there are any.
fn append_values_table<A: Allocator + Copy>(
    out: &mut Vec<u8, A>,
    layout: Layout,
    caption: &[u8],
    values: &[u32],
) -> Result<(), AllocError>
    requires some { 0 < layout.width }
    requires short { layout.first + length values.now < 2 ^ 64 }
    ensures ok { OnOk result (out.new.items ≡ out.old.items ++ values_table layout caption.now values.now) }
    ensures grown { Extends out.old.items out.new.items }
{
    if values.is_empty() {
        return Ok(());
    }
    append_some(out, layout, caption, values)
}

// Appends the table of these values.
fn append_some<A: Allocator + Copy>(
    out: &mut Vec<u8, A>,
    layout: Layout,
    caption: &[u8],
    values: &[u32],
) -> Result<(), AllocError>
    requires some { 0 < layout.width }
    requires short { layout.first + length values.now < 2 ^ 64 }
    ensures ok { OnOk result (out.new.items ≡ out.old.items ++ values_in layout caption.now values.now) }
    ensures grown { Extends out.old.items out.new.items }
{
    append_table_head(out, b"values", caption, &[b"heap", b"nim-values"])?;
    append_values_rows(out, layout, greatest(values), values)?;
    append_table_end(out)
}

// The greatest of the values.
fn greatest(values: &[u32]) -> u32
    ensures { result ≡ fold max 0 values.now }
{
    values.iter().copied().fold(0, u32::max)
}

// Appends the rows, of values that are at most so great.
fn append_values_rows<A: Allocator + Copy>(
    out: &mut Vec<u8, A>,
    layout: Layout,
    greatest: u32,
    values: &[u32],
) -> Result<(), AllocError>
    requires some { 0 < layout.width }
    requires short { layout.first + length values.now < 2 ^ 64 }
    ensures ok { OnOk result (out.new.items ≡ out.old.items ++ values_rows layout greatest values.now) }
    ensures grown { Extends out.old.items out.new.items }
{
    append_values(out, layout, greatest, values)?;
    append_text(out, row_end(layout, layout.first + values.len() as u64))
}

// Appends the values, each row after the first with the end of the row before.
fn append_values<A: Allocator + Copy>(
    out: &mut Vec<u8, A>,
    layout: Layout,
    greatest: u32,
    values: &[u32],
) -> Result<(), AllocError>
    requires some { 0 < layout.width }
    requires short { layout.first + length values.now < 2 ^ 64 }
    ensures ok { OnOk result (out.new.items ≡ out.old.items ++ flat_map (value_text layout greatest) (enumerate_from layout.first values.now)) }
    ensures grown { Extends out.old.items out.new.items }
{
    for (place, value) in values.iter().enumerate() {
        append_value(out, layout, greatest, layout.first + place as u64, *value)?;
    }
    Ok(())
}

// Appends the value of a heap, with what stands before it.
fn append_value<A: Allocator + Copy>(
    out: &mut Vec<u8, A>,
    layout: Layout,
    greatest: u32,
    heap: u64,
    value: u32,
) -> Result<(), AllocError>
    requires { 0 < layout.width }
    ensures ok { OnOk result (out.new.items ≡ out.old.items ++ value_text layout greatest (heap, value)) }
    ensures grown { Extends out.old.items out.new.items }
{
    append_before(out, layout, heap)?;
    append_padded(out, greatest, value)
}

// Appends a value after blanks, so that it takes one place more than the greatest value has digits.
fn append_padded<A: Allocator + Copy>(
    out: &mut Vec<u8, A>,
    greatest: u32,
    value: u32,
) -> Result<(), AllocError>
    ensures ok { OnOk result (out.new.items ≡ out.old.items ++ padded greatest value) }
    ensures grown { Extends out.old.items out.new.items }
{
    append_rows(out, &Blanks { greatest, value }, &POWERS)?;
    append_pieces(out, &[Text(b" "), Number(value as u64)])
}

impl Rows<u32> for Blanks {
    ghost use Rattle.oct_tables.specs.Values.{blank_for};

    ghost text = { λ of power. blank_for of.greatest of.value power };

    fn append_row<A: Allocator + Copy>(
        &self,
        out: &mut Vec<u8, A>,
        row: &u32,
    ) -> Result<(), AllocError> {
        append_text(out, blank_for(self.greatest, self.value, *row))
    }
}

// One blank where the value has fewer digits than the power of ten, and the greatest value has not.
fn blank_for(greatest: u32, value: u32, power: u32) -> &'static [u8]
    ensures { result.now ≡ blank_for greatest value power }
{
    if value < power && power <= greatest {
        b" "
    } else {
        b""
    }
}

// Appends what stands before the value of a heap.
fn append_before<A: Allocator>(
    out: &mut Vec<u8, A>,
    layout: Layout,
    heap: u64,
) -> Result<(), AllocError>
    requires { 0 < layout.width }
    ensures ok { OnOk result (out.new.items ≡ out.old.items ++ before_value layout heap) }
    ensures grown { Extends out.old.items out.new.items }
{
    if begins_row(layout, heap) {
        append_row_head(out, layout, heap)
    } else {
        append_text(out, after_shade(layout, heap))
    }
}

// Whether a row begins at the heap.
fn begins_row(layout: Layout, heap: u64) -> bool
    requires { 0 < layout.width }
    ensures { result ≡ begins_row layout heap }
{
    let place = if heap < layout.start {
        heap
    } else {
        heap - layout.start
    };
    place % layout.width == 0
}

// Appends the end of the row before, and the head of the row that begins at the heap.
fn append_row_head<A: Allocator>(
    out: &mut Vec<u8, A>,
    layout: Layout,
    heap: u64,
) -> Result<(), AllocError>
    ensures ok { OnOk result (out.new.items ≡ out.old.items ++ row_head layout heap) }
    ensures grown { Extends out.old.items out.new.items }
{
    append_pieces(
        out,
        &[
            Text(row_before(layout, heap)),
            Text(b"<tr><th scope=\"row\">"),
            Number(heap),
            Text(cell_head(layout, heap)),
        ],
    )
}

// The end of the row before the one that begins at the heap.
fn row_before(layout: Layout, heap: u64) -> &'static [u8]
    ensures { result.now ≡ row_before layout heap }
{
    if heap == layout.first {
        b""
    } else {
        row_end(layout, heap)
    }
}

// The end of the row whose last value is that of the heap before.
fn row_end(layout: Layout, heap: u64) -> &'static [u8]
    ensures { result.now ≡ row_end layout heap }
{
    if is_shaded(layout, heap.saturating_sub(1)) {
        b"</mark></td></tr>\n"
    } else {
        b"</td></tr>\n"
    }
}

// The head of the cell of a row that begins at the heap.
fn cell_head(layout: Layout, heap: u64) -> &'static [u8]
    ensures { result.now ≡ cell_head layout heap }
{
    if is_shaded(layout, heap) {
        b"</th><td><mark>"
    } else {
        b"</th><td>"
    }
}

// The end of the shade, where it ends inside a row.
fn after_shade(layout: Layout, heap: u64) -> &'static [u8]
    ensures { result.now ≡ after_shade layout heap }
{
    if is_shaded(layout, heap.saturating_sub(1)) && !is_shaded(layout, heap) {
        b"</mark>"
    } else {
        b""
    }
}

// Whether the heap is of the first period.
fn is_shaded(layout: Layout, heap: u64) -> bool
    ensures { result ≡ is_shaded layout heap }
{
    layout.start <= heap && heap - layout.start < layout.shaded
}
