//! The first values of a game, behind which a window begins.

ghost use Rattle.std.specs.Prelude.{◌≡◌, ◌+◌, ◌^◌, ◌<◌, ◌≤◌, if◌then◌else◌, false, true, max, vec_len, vec_capacity, IfOk, OnErr};
ghost use Rattle.oct_mex.specs.NimValues.{nim_value};
ghost use Rattle.oct_mex.specs.Row.{IsRow};

use oct_code::Code;
use oct_mex::Row;
use std::alloc::{AllocError, Allocator};

/// Computes the values of `count` heaps, and says whether all of them are below 65,536: else those before the first that
/// is not stand. Where memory is refused, some may have been added.
pub fn extend<A: Allocator + Copy>(
    row: &mut Row<u16, A>,
    code: &Code,
    marks: &mut Vec<bool, A>,
    count: usize,
) -> Result<bool, AllocError>
    requires row { IsRow (λ x. x) code.now row.old }
    requires limited { count ≤ 2 ^ 32 }
    ensures row { IsRow (λ x. x) code.now row.new }
    ensures len { IfOk result (λ all. all ≡ true → vec_len row.new.values ≡ max count (vec_len row.old.values)) }
    ensures past { IfOk result (λ all. all ≡ false → 2 ^ 16 ≤ nim_value code.now (vec_len row.new.values)) }
    ensures short { IfOk result (λ all. all ≡ false → vec_len row.new.values < count) }
    ensures more { vec_len row.old.values ≤ vec_len row.new.values }
    ensures most { vec_len row.new.values ≤ max count (vec_len row.old.values) }
    ensures marks { vec_len marks.old ≤ vec_len marks.new }
{
    row.room_to(count)?;
    for _ in row.values.len()..count {
        if !push_next(row, code, marks)? {
            return Ok(false);
        }
    }
    Ok(true)
}

// Adds the next value, for which there is room, and says whether it is below 65,536: else the values stay.
fn push_next<A: Allocator + Copy>(
    row: &mut Row<u16, A>,
    code: &Code,
    marks: &mut Vec<bool, A>,
) -> Result<bool, AllocError>
    requires row { IsRow (λ x. x) code.now row.old }
    requires limited { vec_len row.old.values < 2 ^ 32 }
    requires room { vec_len row.old.values < vec_capacity row.old.values }
    ensures row { IsRow (λ x. x) code.now row.new }
    ensures room { vec_capacity row.new.values ≡ vec_capacity row.old.values }
    ensures len { IfOk result (λ fits. vec_len row.new.values ≡ (if fits then vec_len row.old.values + 1 else vec_len row.old.values)) }
    ensures err { OnErr result (vec_len row.new.values ≡ vec_len row.old.values) }
    ensures past { IfOk result (λ fits. fits ≡ false → 2 ^ 16 ≤ nim_value code.now (vec_len row.old.values)) }
    ensures marks { vec_len marks.old ≤ vec_len marks.new }
{
    if marks.len() < row.used {
        marks.resize(row.used, false)?;
    }
    Ok(row.push_next(code, marks))
}
