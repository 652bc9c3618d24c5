//! What holds of what notes say.

ghost use Rattle.oct_said.specs.Laws.{DotsAreRead, LinesAreRead, NamesAreRead, ReadDotsAreWritten, ReadNamesAreWritten, ReadTextsAreWritten, TextsAreRead};

/// The name of a game's notes is read as that game's, and a name that is read as a game's is that of its notes.
pub fn names_are_read()
    ensures read { NamesAreRead }
    ensures written { ReadNamesAreWritten }
{}

/// The text of a note is read as the period that it was written for, and a text that is read as a period's is that of its note. The
/// line of a search, which goes on behind that text, is read in the same way.
pub fn texts_are_read()
    ensures read { TextsAreRead }
    ensures written { ReadTextsAreWritten }
    ensures lines { LinesAreRead }
{}

/// The text of a dot is read as this dot by its author, and a text that is read as a dot is that of a dot of the author who said it.
pub fn dots_are_read()
    ensures read { DotsAreRead }
    ensures written { ReadDotsAreWritten }
{}
