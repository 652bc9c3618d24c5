//! Codes as lines.

ghost use Rattle.std.specs.Prelude.{◌≡◌, ◌++◌, IfOk, OnOk};
ghost use Rattle.census_codes.specs.Codes.{code_line, code_lines};

use oct_code::Code;
use std::alloc::{AllocError, Allocator};

/// The text of codes, one a line, in their order. The one error is that memory is refused.
pub fn code_lines<A: Allocator>(alloc: A, codes: &[Code]) -> Result<Vec<u8, A>, AllocError>
    ensures { IfOk result (λ text. text.items ≡ code_lines codes.now) }
{
    let mut text = Vec::new(alloc);
    for code in codes {
        append_line(&mut text, *code)?;
    }
    Ok(text)
}

// Appends the line of a code.
fn append_line<A: Allocator>(text: &mut Vec<u8, A>, code: Code) -> Result<(), AllocError>
    ensures { OnOk result (text.new.items ≡ text.old.items ++ code_line code) }
{
    code.append_text(text)?;
    text.push(b'\n')?;
    Ok(())
}
