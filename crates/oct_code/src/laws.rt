//! What holds of every code and its texts, and the limits as numbers.

ghost use Rattle.std.specs.Prelude.{◌≡◌};
ghost use Rattle.oct_code.specs.declared.limits.TheConstants.{LIMIT, MAX_DIGITS, OLD_LIMIT};
ghost use Rattle.oct_code.specs.Laws.{FaultlessAreCodes, WrittenIsRead, TextHasOneCode};

/// The digits that `Code::from_digits` accepts are exactly those of a code.
pub fn faultless_digits_are_codes()
    ensures { FaultlessAreCodes }
{}

/// The text that `append_text` writes is read as the code that was written.
pub fn written_codes_are_read()
    ensures { WrittenIsRead }
{}

/// No text is that of two codes.
pub fn a_text_has_one_code()
    ensures { TextHasOneCode }
{}

/// The limits as numbers: the most digits of a code, the places of a game, and those of the first edition.
pub fn the_limits_are_these()
    ensures digits { MAX_DIGITS ≡ 16 }
    ensures places { LIMIT ≡ 65536 }
    ensures old_places { OLD_LIMIT ≡ 4096 }
{}
