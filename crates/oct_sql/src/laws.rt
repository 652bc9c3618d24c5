//! What holds of texts of others.

ghost use Rattle.oct_sql.specs.Literals.{LiteralsReadBack};

/// A text of others stands in a literal that SQL reads as that text, whatever bytes it has, and as nothing else: what stands
/// behind the literal, if it begins with no quote, is read on from there.
pub fn literals_read_back()
    ensures { LiteralsReadBack }
{}
