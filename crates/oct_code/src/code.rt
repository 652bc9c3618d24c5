//! The code of an octal game.

ghost use Rattle.std.specs.Prelude.{◌≡◌, ◌≤◌, ◌++◌, IfOk, IfErr, OnOk, OnErr};
ghost use Rattle.oct_code.specs.Code as octal;
ghost use Rattle.oct_code.specs.CodeText.{IsCodeText, code_text};
ghost use Rattle.oct_code.specs.TextFaults.{text_fault};
ghost use Rattle.oct_code.specs.DigitFaults.{checked_code};

use crate::digits::check_digits;
use crate::error::{CodeError, DigitsError};
use crate::limits::MAX_DIGITS;
use crate::text::{around_point, check_parts, digits_of, spell, trimmed};
use std::alloc::{AllocError, Allocator};
use std::cmp::Ordering;
use std::marker::Model;

/// The code `d0.d1d2..dk` of an octal game: a head 0 or 4, and at most `MAX_DIGITS` octal digits, of which the last is
/// not 0. Codes are ordered by head, then by `k`, then by their digits.
#[derive(Clone, Copy)]
pub struct Code {
    head: u8,
    len: u8,
    digits: [u8; MAX_DIGITS],
}

impl Model for Code {
    ghost use Rattle.oct_code.specs.Code.{Code as Digits};
    ghost use Rattle.oct_code.specs.Fields.{code_of, fields_of, IsStored, fields_of-code_of};

    ghost Value = { Digits };

    ghost view = { code_of };

    ghost invariant = { IsStored };

    ghost inverse = { fields_of };

    ghost inverse_ok = { fields_of-code_of };
}

impl Code {
    /// The code that the text spells, or the text's first fault, in the order of `CodeError`: an optional head `0` or
    /// `4` (0 where it is absent), a point, and one digit `0` to `7` or more, of which the zeros at the end are dropped.
    pub fn parse(text: &[u8]) -> Result<Code, CodeError>
        ensures ok { IfOk result (IsCodeText text.now) }
        ensures accepted { OnOk result (text_fault text.now ≡ None) }
        ensures fault { IfErr result (λ fault. text_fault text.now ≡ Some fault) }
        ensures refused { OnErr result ((code : octal.Code) → IsCodeText text.now code → ⊥) }
    {
        let Some((head, bytes)) = around_point(text) else {
            return Err(CodeError::Form);
        };
        check_parts(head, bytes)?;
        let digits = trimmed(bytes);
        Ok(Code {
            head: head - b'0',
            len: digits.len() as u8,
            digits: digits_of(digits),
        })
    }

    /// Writes the code's text at the end of `out`: head, point, digits, and `0.0` or `4.0` where there is no digit.
    /// Where memory is refused, `out` stays as it is.
    pub fn append_text<A: Allocator>(&self, out: &mut Vec<u8, A>) -> Result<(), AllocError>
        ensures ok { OnOk result (out.new.items ≡ out.old.items ++ code_text self.now) }
        ensures err { OnErr result (out.new.items ≡ out.old.items) }
    {
        let text = spell(self.head(), self.digits());
        out.extend_from_slice(&text[..2 + self.len().max(1)])
    }

    /// The code of this head and of these digits after the point, or their first fault, in the order of `DigitsError`.
    pub fn from_digits(head: u8, digits: &[u8]) -> Result<Code, DigitsError>
        ensures { result ≡ checked_code head digits.now }
    {
        check_digits(head, digits)?;
        let mut array = [0; MAX_DIGITS];
        array[..digits.len()].copy_from_slice(digits);
        Ok(Code {
            head,
            len: digits.len() as u8,
            digits: array,
        })
    }

    /// How many digits stand after the point, the code's `k`: 0 to `MAX_DIGITS`.
    pub fn len(&self) -> usize
        ensures value { result ≡ octal.len self.now }
        ensures valid { octal.IsCode self.now }
    {
        usize::from(self.len)
    }

    /// The digit `d_r`, 0 to 7, which is 0 beyond `k`. `d_0` is the head.
    pub fn digit(&self, r: usize) -> u8
        ensures { result ≡ octal.digit self.now r }
    {
        match r.checked_sub(1) {
            None => self.head,
            Some(place) => self.digits().get(place).copied().unwrap_or(0),
        }
    }

    /// Whether `r` beans may be removed from a heap so that this many nonempty heaps are left of it: whether 1, 2 or 4
    /// is present in `d_r` for 0, 1 or 2 heaps.
    pub fn allows(&self, r: usize, heaps: u32) -> bool
        requires { heaps ≤ 2 }
        ensures { result ≡ octal.allows self.now r heaps }
    {
        self.digit(r) >> heaps & 1 == 1
    }

    /// The digits `d_1` to `d_k` after the point.
    pub fn digits(&self) -> &[u8]
        ensures value { result.now ≡ self.now.digits }
        ensures valid { octal.IsCode self.now }
    {
        &self.digits[..self.len()]
    }

    /// The head `d_0`, which is 0 or 4. With 4 a heap may be split in two without removing a bean.
    pub fn head(&self) -> u8
        ensures value { result ≡ self.now.head }
        ensures valid { octal.IsCode self.now }
    {
        self.head
    }
}

impl PartialEq for Code {
    ghost use Rattle.oct_code.specs.CodeOrder.{code_eq_partial};
    ghost use Rattle.oct_code.specs.Code as octal;

    ghost eq = { octal.code_eq };

    ghost laws = { code_eq_partial };

    fn eq(&self, other: &Code) -> bool {
        self.cmp(other).is_eq()
    }
}

impl Eq for Code {
    ghost use Rattle.oct_code.specs.CodeOrder.{code_eq_equiv};

    ghost laws = { code_eq_equiv };
}

impl Ord for Code {
    ghost use Rattle.oct_code.specs.CodeOrder.{code_cmp_total};
    ghost use Rattle.std.specs.Prelude.{refl};
    ghost use Rattle.oct_code.specs.Code as octal;

    ghost cmp = { octal.code_cmp };

    ghost total = { code_cmp_total };

    ghost matches_partial_cmp = { λ c d. refl };

    ghost matches_eq = { λ c d. refl };

    fn cmp(&self, other: &Code) -> Ordering {
        match self.head.cmp(&other.head).then(self.len.cmp(&other.len)) {
            // Beyond `k` both have zeros.
            Ordering::Equal => self.digits.cmp(&other.digits),
            unequal => unequal,
        }
    }
}

impl PartialOrd for Code {
    ghost use Rattle.oct_code.specs.CodeOrder.{code_partial_order};
    ghost use Rattle.std.specs.Ordering.{as_partial_cmp};
    ghost use Rattle.oct_code.specs.Code as octal;

    ghost partial_cmp = { as_partial_cmp octal.code_cmp };

    ghost laws = { code_partial_order };

    fn partial_cmp(&self, other: &Code) -> Option<Ordering> {
        Some(self.cmp(other))
    }
}
