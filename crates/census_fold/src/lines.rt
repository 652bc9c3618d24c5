//! The lines of an input.

ghost use Rattle.std.specs.Prelude.{◌≡◌};
ghost use Rattle.std.specs.Str.Lines.{strip_carriage_return};
ghost use Rattle.census_fold.specs.Folded.{text_of_line};

/// What a line says: all but its LF, and one CR before that.
pub(crate) fn text_of_line(line: &[u8]) -> &[u8]
    ensures { result.now ≡ text_of_line line.now }
{
    match line {
        [front @ .., b'\n'] => without_return(front),
        _ => line,
    }
}

// The line without the one CR at its end, if it has one.
fn without_return(line: &[u8]) -> &[u8]
    ensures { result.now ≡ strip_carriage_return line.now }
{
    match line {
        [front @ .., b'\r'] => front,
        _ => line,
    }
}
