//! What holds of what two sets differ by.

ghost use Rattle.oct_log.specs.DiffLaws.{EmptyOfTheSame, TheSameIsEmpty};

/// There is no line exactly where both sets have the same operations.
pub fn a_diff_is_empty_where_the_sets_are_the_same()
    ensures same { EmptyOfTheSame }
    ensures empty { TheSameIsEmpty }
{}
