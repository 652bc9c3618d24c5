//! Words of a line.
#![tactic(auto, using(oct_ops::proofs::Growing::growing))]

ghost use Rattle.std.specs.Prelude.{◌≡◌, ◌++◌, OnOk};
ghost use Rattle.oct_text.specs.Words.{dot_text};
ghost use Rattle.oct_ops.specs.Growth.{Extends};

use itoa::Integer;
use oct_ops::Dot;
use std::alloc::{AllocError, Allocator};

/// Appends a text.
pub fn append_text<A: Allocator>(out: &mut Vec<u8, A>, text: &[u8]) -> Result<(), AllocError>
    ensures ok { OnOk result (out.new.items ≡ out.old.items ++ text.now) }
    ensures grown { Extends out.old.items out.new.items }
{
    out.extend_from_slice(text)
}

/// Appends a text, and after it another.
pub fn append_labelled_text<A: Allocator>(
    out: &mut Vec<u8, A>,
    label: &[u8],
    text: &[u8],
) -> Result<(), AllocError>
    ensures ok { OnOk result (out.new.items ≡ out.old.items ++ (label.now ++ text.now)) }
    ensures grown { Extends out.old.items out.new.items }
{
    append_text(out, label)?;
    append_text(out, text)
}

/// Appends a number in decimal digits.
pub fn append_number<A: Allocator, N: Integer>(
    out: &mut Vec<u8, A>,
    number: N,
) -> Result<(), AllocError>
    ensures ok { OnOk result (out.new.items ≡ out.old.items ++ N.text number) }
    ensures grown { Extends out.old.items out.new.items }
{
    append_text(out, itoa::Buffer::new().format(number).as_bytes())
}

/// Appends a text, and after it a number.
pub fn append_labelled<A: Allocator, N: Integer>(
    out: &mut Vec<u8, A>,
    label: &[u8],
    number: N,
) -> Result<(), AllocError>
    ensures ok { OnOk result (out.new.items ≡ out.old.items ++ (label.now ++ N.text number)) }
    ensures grown { Extends out.old.items out.new.items }
{
    append_text(out, label)?;
    append_number(out, number)
}

/// Appends a dot as author, point, number.
pub fn append_dot<A: Allocator>(out: &mut Vec<u8, A>, dot: Dot) -> Result<(), AllocError>
    ensures ok { OnOk result (out.new.items ≡ out.old.items ++ dot_text dot) }
    ensures grown { Extends out.old.items out.new.items }
{
    append_number(out, dot.author())?;
    append_labelled(out, b".", dot.number())
}

/// Appends a text, and after it a dot.
pub fn append_labelled_dot<A: Allocator>(
    out: &mut Vec<u8, A>,
    label: &[u8],
    dot: Dot,
) -> Result<(), AllocError>
    ensures ok { OnOk result (out.new.items ≡ out.old.items ++ (label.now ++ dot_text dot)) }
    ensures grown { Extends out.old.items out.new.items }
{
    append_text(out, label)?;
    append_dot(out, dot)
}
