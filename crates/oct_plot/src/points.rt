//! Where the nim-values of heaps fall on a plot.

ghost use Rattle.std.specs.Prelude.{◌≡◌, ◌<◌, ◌+◌, ◌*◌, ◌^◌, ◌++◌, [], IfOk, OnOk, length, map, replicate, reverse};
ghost use Rattle.oct_plot.specs.Points.{IsFrame, frame_of, point_at, points_of, scaled};
ghost use Rattle.oct_plot.specs.Rows.{row_point, row_points, turned_rows, with_column, with_point};

use std::alloc::{AllocError, Allocator};

// How many points a plot has from left to right, and from below to above.
const COLUMNS: u64 = 1400;

const ROWS: u64 = 640;

/// What the axes of a plot span: heaps from one to another, and nim-values from 0 on.
#[derive(Clone, Copy)]
pub(crate) struct Frame {
    /// The first heap.
    pub first: u64,
    /// How far the last heap is beyond the first, at least 1.
    pub heaps: u64,
    /// The greatest nim-value, at least 1.
    pub values: u64,
}

/// A point of a plot, by its row from below and its column from the left.
#[derive(Clone, Copy, PartialEq, Eq, PartialOrd, Ord)]
pub(crate) struct Point {
    /// The row, 0 to 640.
    pub row: u64,
    /// The column, 0 to 1,400.
    pub column: u64,
}

impl Frame {
    /// The frame of these values, which are those of the heaps from the first one on.
    pub(crate) fn of(first: usize, values: &[u32]) -> Frame
        requires { first + length values.now < 2 ^ 32 }
        ensures value { result ≡ frame_of first values.now }
        ensures valid { IsFrame result }
    {
        let greatest = values.iter().copied().fold(0, u32::max);
        Frame {
            first: first as u64,
            heaps: (values.len() as u64).saturating_sub(1).max(1),
            values: u64::from(greatest).max(1),
        }
    }
}

/// What becomes of a length where the whole gets this size, rounded down.
pub(crate) fn scaled(length: u64, whole: u64, size: u64) -> u64
    requires some { 0 < whole }
    requires short { length * size < 2 ^ 64 }
    ensures { result ≡ scaled length whole size }
{
    length * size / whole
}

// Where a heap with its value falls.
fn point_at(frame: Frame, heap: u64, value: u32) -> Point
    requires frame { IsFrame frame }
    requires short { heap < 2 ^ 32 }
    ensures { result ≡ point_at frame (heap, value) }
{
    Point {
        row: scaled(u64::from(value), frame.values, ROWS),
        column: scaled(heap.saturating_sub(frame.first), frame.heaps, COLUMNS),
    }
}

/// The points of the values, which are those of the heaps from the first one on, row by row from below to above, and in a row
/// from left to right. The one error is that memory is refused.
pub(crate) fn points_of<A: Allocator + Copy>(
    alloc: A,
    first: usize,
    values: &[u32],
) -> Result<Vec<Point, A>, AllocError>
    requires { first + length values.now < 2 ^ 32 }
    ensures { IfOk result (λ found. found.items ≡ points_of first values.now) }
{
    let rows = rows_of(alloc, first, values)?;
    listed(alloc, &rows)
}

// The columns of the points of each row. From the last heap to the first the columns never rise, so that each row has its own
// from right to left.
fn rows_of<A: Allocator + Copy>(
    alloc: A,
    first: usize,
    values: &[u32],
) -> Result<Vec<Vec<u64, A>, A>, AllocError>
    requires { first + length values.now < 2 ^ 32 }
    ensures { IfOk result (λ rows. row_points 0 (turned_rows rows.items) ≡ points_of first values.now) }
{
    let frame = Frame::of(first, values);
    let mut rows = empty_rows(alloc)?;
    for place in (0..values.len()).rev() {
        let point = point_at(frame, (first + place) as u64, values[place]);
        add_point(&mut rows, point)?;
    }
    Ok(rows)
}

// Rows with no points, from the first to the last.
fn empty_rows<A: Allocator + Copy>(alloc: A) -> Result<Vec<Vec<u64, A>, A>, AllocError>
    ensures { IfOk result (λ rows. turned_rows rows.items ≡ replicate 641 []) }
{
    let mut rows = Vec::new(alloc);
    for _ in 0..ROWS + 1 {
        rows.push(Vec::new(alloc))?;
    }
    Ok(rows)
}

// Adds a point to its row, of which no point is further to the left.
fn add_point<A: Allocator + Copy>(
    rows: &mut Vec<Vec<u64, A>, A>,
    point: Point,
) -> Result<(), AllocError>
    requires { point.row < length rows.old.items }
    ensures { OnOk result (turned_rows rows.new.items ≡ with_point point (turned_rows rows.old.items)) }
{
    add_column(&mut rows[point.row as usize], point.column)
}

// Adds a column to those of a row, unless the last one is the same.
fn add_column<A: Allocator>(columns: &mut Vec<u64, A>, column: u64) -> Result<(), AllocError>
    ensures { OnOk result (reverse columns.new.items ≡ with_column column (reverse columns.old.items)) }
{
    match columns.last() {
        Some(last) if *last == column => {}
        _ => columns.push(column)?,
    }
    Ok(())
}

// The points of the rows, one after another.
fn listed<A: Allocator + Copy>(alloc: A, rows: &[Vec<u64, A>]) -> Result<Vec<Point, A>, AllocError>
    ensures { IfOk result (λ found. found.items ≡ row_points 0 (turned_rows rows.now)) }
{
    let mut found = Vec::new(alloc);
    for (row, columns) in rows.iter().enumerate() {
        append_row(&mut found, row as u64, columns)?;
    }
    Ok(found)
}

// Appends the points of a row that has these columns from right to left.
fn append_row<A: Allocator>(
    found: &mut Vec<Point, A>,
    row: u64,
    columns: &[u64],
) -> Result<(), AllocError>
    ensures { OnOk result (found.new.items ≡ found.old.items ++ map (row_point row) (reverse columns.now)) }
{
    for place in (0..columns.len()).rev() {
        found.push(Point {
            row,
            column: columns[place],
        })?;
    }
    Ok(())
}
