//! What holds of every game that is extended.

ghost use Rattle.census_issue.specs.Extending.{ExtendedIsKnown};

/// After the turn of a game in `extend`, as many of its nim-values are known as were asked for: the blocks that may be issued
/// are always enough.
pub fn extended_is_known()
    ensures { ExtendedIsKnown }
{}
