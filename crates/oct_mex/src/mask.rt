//! A mask that parts the heaps into rare and common ones, and the best one for some nim-values.

ghost use Rattle.std.specs.Prelude.{◌≡◌, ℕ, ◌+◌, ◌*◌, ◌%◌, ◌^◌, ◌<◌, ◌≤◌, ◌↔◌, false, IsTrue, length};
ghost use Rattle.oct_code.specs.Code as octal;
ghost use Rattle.oct_mex.specs.Rare.{is_rare, IsFit};

use crate::cell::Cell;
use oct_code::Code;

/// What parts the heaps: a heap is rare if an even number of the bits of its nim-value are in the mask; or, where the
/// parity counts, of these bits and of its beans together with `turn`.
#[derive(Clone, Copy, PartialEq, Eq)]
pub struct Mask {
    pub bits: u32,
    pub parity: bool,
    /// The parity of the beans that are removed where two heaps are left, if they all have one.
    pub turn: u8,
}

/// The mask with no bits, under which no heap is told from another.
pub const NO_MASK: Mask = Mask {
    bits: 0,
    parity: false,
    turn: 0,
};

// Masks below this number are tried. It is a power of two, so that they see the last bits of a value.
const TRIED: usize = 1_024;

/// Whether a heap of a nim-value is rare.
pub(crate) fn is_rare(mask: Mask, heap: usize, value: usize) -> bool
    requires { heap ≤ 2 ^ 32 }
    ensures { result ≡ is_rare mask heap value }
{
    let ones = (mask.bits as usize & value).count_ones() as usize;
    let beans = if mask.parity {
        heap + usize::from(mask.turn)
    } else {
        0
    };
    (ones + beans) % 2 == 0
}

/// Whether no option of a heap that leaves two common heaps has a value.
pub(crate) fn is_settled(mask: Mask, heap: usize, value: usize) -> bool
    requires { heap ≤ 2 ^ 32 }
    ensures { IsTrue result ↔ ((0 < mask.bits) × (is_rare mask heap value ≡ false)) }
{
    mask.bits > 0 && !is_rare(mask, heap, value)
}

/// The mask, of those that are tried, with or without the parity, under which the fewest of the values are rare.
pub(crate) fn best_mask<T: Cell>(code: &Code, values: &[T]) -> Mask
    requires { length values.now ≤ 2 ^ 32 }
    ensures { IsFit code.now result }
{
    let turn = u8::from(!all_split_by(code, 0));
    let by_parity = all_split_by(code, turn);
    let mut counts = [0; 2 * TRIED];
    for heap in 0..values.len() {
        let class = (heap + usize::from(turn)) % 2;
        let at = class * TRIED + values[heap].number() % TRIED;
        counts[at] = i64::wrapping_add(counts[at], 1);
    }
    transform(&mut counts);
    let end = if by_parity { 2 * TRIED } else { TRIED };
    let best = least_place(&counts, end);
    Mask {
        bits: (best % TRIED) as u32,
        parity: by_parity && best >= TRIED,
        turn,
    }
}

// Whether each removal that may leave two heaps has the parity of `turn`.
fn all_split_by(code: &Code, turn: u8) -> bool
    ensures { IsTrue result → (r : ℕ) → r ≤ octal.len code.now → IsTrue (octal.allows code.now r 2) → r % 2 ≡ turn % 2 }
{
    for removed in 0..code.len() + 1 {
        if code.allows(removed, 2) && removed % 2 != usize::from(turn % 2) {
            return false;
        }
    }
    true
}

// The Walsh-Hadamard transform in place: at each place the sum of all numbers, those taken away whose place has an odd
// number of bits in common with it.
fn transform(numbers: &mut [i64])
    requires { length numbers.old ≤ 2 ^ 17 }
{
    let mut half = 1;
    while half < numbers.len() {
        for at in 0..numbers.len() - half {
            if at & half == 0 {
                let (low, high) = (numbers[at], numbers[at + half]);
                numbers[at] = low.wrapping_add(high);
                numbers[at + half] = low.wrapping_sub(high);
            }
        }
        half *= 2;
    }
}

// The place below `end` of the least number, of those that are no multiples of `TRIED`, or 0.
fn least_place(numbers: &[i64], end: usize) -> usize
    requires end { end ≤ length numbers.now }
    requires small { length numbers.now ≤ 2 ^ 17 }
{
    let mut least = 0;
    for at in 1..end {
        if at % TRIED != 0 && (least == 0 || numbers[at] < numbers[least]) {
            least = at;
        }
    }
    least
}
