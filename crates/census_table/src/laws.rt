//! What holds of lines that fit a terminal.

ghost use Rattle.census_table.specs.FittingLaws.{FittingLinesStay, FrontsStay};

/// Lines that are at most as wide as the terminal stay as they are.
pub fn fitting_lines_stay()
    ensures { FittingLinesStay }
{}

/// Of each line the code, how much is known and the period are shown, however narrow the terminal is.
pub fn fronts_stay()
    ensures { FrontsStay }
{}
