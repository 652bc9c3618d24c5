//! What the live notes of a set are, whatever the set.

ghost use Rattle.oct_notes.specs.Laws.{LiveNotesAreUnremoved, LiveNotesRise, NothingIsRemoved};

/// A note is live exactly where it is in the set and no removal of the set names its dot.
pub fn live_notes_are_unremoved()
    ensures { LiveNotesAreUnremoved }
{}

/// The live notes are shown by name, byte by byte, then as operations, and each once.
pub fn live_notes_rise()
    ensures { LiveNotesRise }
{}

/// A removal that names the dot of no note of the set leaves all live notes live.
pub fn removals_of_nothing_change_nothing()
    ensures { NothingIsRemoved }
{}
