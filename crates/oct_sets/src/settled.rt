//! The next nim-value by the set of the values of near options.

ghost use Rattle.std.specs.Prelude.{◌≡◌, ◌+◌, ◌^◌, ◌≤◌, ◌<◌, ℕ, List, false, IfSome};
ghost use Rattle.oct_code.specs.Code as octal;
ghost use Rattle.oct_mex.specs.NimValues.{nim_value};
ghost use Rattle.oct_mex.specs.Rare.{is_rare};
ghost use Rattle.oct_mex.specs.Windows.{Settles};
ghost use Rattle.oct_sets.specs.Plans.{IsNearSet};

use bitsets::Word;
use oct_mex::Mask;

/// The least number that is not in the set of the values of near options of a heap, if it is one of a word, and a value
/// like it is common there.
#[inline(always)]
pub(crate) fn settled_by<W: Word>(mask: Mask, heap: usize, set: W) -> Option<usize>
    requires { heap ≤ 2 ^ 60 }
    ensures small { IfSome result (λ value. value < 2 ^ W.digits) }
    ensures common { IfSome result (λ value. is_rare mask heap value ≡ false) }
    ensures settles { (c : octal.Code) (heaps : List ℕ) (reach : ℕ) → IsNearSet (2 ^ W.digits) c heap heaps reach (W.number set) → IfSome result (Settles c (nim_value c) heap heaps reach (2 ^ W.digits)) }
{
    let value = set.least();
    if value < W::width() && !is_rare(mask, heap, value) {
        Some(value)
    } else {
        None
    }
}

// Whether a heap of a nim-value is rare.
#[inline(always)]
fn is_rare(mask: Mask, heap: usize, value: usize) -> bool
    requires { heap ≤ 2 ^ 60 }
    ensures { result ≡ is_rare mask heap value }
{
    let ones = (mask.bits as usize & value).count_ones() as usize;
    let beans = if mask.parity {
        heap + usize::from(mask.turn)
    } else {
        0
    };
    (ones + beans) % 2 == 0
}
