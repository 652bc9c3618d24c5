//! What is told of games, and of which.

ghost use Rattle.std.specs.Prelude.{◌≡◌};
ghost use Rattle.oct_overview.specs.Line.{listing_of};

use oct_text::{Form, Told};

/// What is told of games, and how.
#[derive(Clone, Copy, Debug, PartialEq, Eq, Drop)]
pub enum Listing {
    /// A line for each game, in this form: how many heaps are known, the least period that they prove, and how many blocks and
    /// claims are proved, refuted and pending.
    Games(Form),
    /// A line for each refuted block and claim, in this form.
    Refuted(Form),
    /// The lines of the games as comma-separated values, behind a line of the columns. Each line ends with a carriage return and
    /// a line feed, as RFC 4180 has it.
    Csv,
    /// Codes, known heaps, periods and starts as a table of LaTeX.
    Latex,
}

impl Listing {
    /// What is told in lines of this form.
    pub fn of(what: Told, form: Form) -> Listing
        ensures { result ≡ listing_of what form }
    {
        match what {
            Told::Counts => Listing::Games(form),
            Told::Refutations => Listing::Refuted(form),
        }
    }
}

/// What has to hold of a game that is told of. The period of a game is the least one that its known nim-values prove, claimed or
/// not.
#[derive(Clone, Copy, Debug, PartialEq, Eq, Drop)]
pub enum Condition {
    /// The period is of this length.
    OfPeriod(u32),
    /// No period is proved.
    NoPeriod,
    /// A period is proved, and no claim of the game says it with the same start.
    Unclaimed,
    /// The nim-values of fewer heaps than so many are known.
    KnownBelow(u64),
}
