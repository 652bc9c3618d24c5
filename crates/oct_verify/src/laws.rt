//! What holds of all sets of blocks. A caller gets each law from the contract of its function.

ghost use Rattle.oct_verify.specs.Laws.{KnownLengthIsGreatest, KnownLengthIsOne, KnownLengthGrows, SettledStays, ProvedIsRight, RefutedIsLeastWrong};

/// The known length is the greatest one up to which true blocks have all places, and the only such.
pub fn known_length_is_the_greatest()
    ensures is_one { KnownLengthIsGreatest }
    ensures is_only { KnownLengthIsOne }
{}

/// With more blocks the known length is no smaller.
pub fn known_length_grows()
    ensures { KnownLengthGrows }
{}

/// A block that is proved or refuted stays so with more blocks, at the same place and with the same values.
pub fn settled_stays()
    ensures { SettledStays }
{}

/// Exactly the right blocks are proved, and a block is refuted at its least wrong place.
pub fn verdicts_are_right()
    ensures proved { ProvedIsRight }
    ensures refuted { RefutedIsLeastWrong }
{}
