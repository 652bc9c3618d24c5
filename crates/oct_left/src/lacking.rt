//! The games of a list that lack blocks.

ghost use Rattle.std.specs.Prelude.{◌≡◌, IfOk};
ghost use Rattle.oct_left.specs.Covered.{left};

use crate::covered::is_covered;
use oct_code::Code;
use oct_record::Record;
use std::alloc::{AllocError, Allocator};

/// The codes of the list of which not each of the heaps 1 to `count - 1` lies in a block of what was said, in the order of the
/// list, and each as often as it stands there. The one error is that memory is refused.
pub fn left<A: Allocator + Copy>(
    said: &Record<A>,
    codes: &[Code],
    count: u32,
) -> Result<Vec<Code, A>, AllocError>
    ensures { IfOk result (λ lacking. lacking.items ≡ left said.now.ops count codes.now) }
{
    let mut lacking = Vec::new(said.allocator());
    for code in codes {
        if is_covered(said, *code, count)? {
            continue;
        }
        lacking.push(*code)?;
    }
    Ok(lacking)
}
