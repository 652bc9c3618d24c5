//! The scalars of a window.

ghost use Rattle.std.specs.Prelude.{◌≡◌, ◌∷◌, [], IfSome, IsNone};
ghost use Rattle.oct_mex.specs.declared.mask.Mask as masks;
ghost use Rattle.oct_saved.specs.Numbers.{mask_numbers};
ghost use Rattle.oct_saved.specs.Saved.{FitsMask};

use crate::word::Word;
use oct_mex::Mask;

/// What is written of a window but its lists.
#[derive(Clone, Copy)]
pub(crate) struct Scalars {
    pub(crate) reach: usize,
    pub(crate) count: usize,
    pub(crate) mask: Mask,
}

impl Scalars {
    ghost use Rattle.oct_saved.specs.Reading.{AreScalars};
    ghost use Rattle.oct_saved.specs.declared.scalars.Scalars as declared;

    /// The scalars that these numbers are.
    pub(crate) fn of(numbers: &[u64]) -> Option<Scalars>
        ensures some { IfSome result (AreScalars numbers.now) }
        ensures none { IsNone result → (scalars : declared.Scalars) → AreScalars numbers.now scalars → ⊥ }
    {
        let [reach, count, bits, parity, turn] = numbers else {
            return None;
        };
        let mask = mask_of(*bits, *parity, *turn)?;
        Some(Scalars {
            reach: *reach as usize,
            count: *count as usize,
            mask,
        })
    }
}

// The mask that these numbers are.
fn mask_of(bits: u64, parity: u64, turn: u64) -> Option<Mask>
    ensures fits { IfSome result FitsMask }
    ensures some { IfSome result (λ mask. mask_numbers mask ≡ bits ∷ parity ∷ turn ∷ []) }
    ensures none { IsNone result → (mask : masks.Mask) → FitsMask mask → mask_numbers mask ≡ bits ∷ parity ∷ turn ∷ [] → ⊥ }
{
    if parity > 1 {
        return None;
    }
    Some(Mask {
        bits: u32::from_number(bits)?,
        parity: parity == 1,
        turn: u8::from_number(turn)?,
    })
}
