//! Where in the line of a game a byte stands.

ghost use Rattle.std.specs.Prelude.{◌≡◌, ◌+◌, ◌^◌, ◌<◌, ◌≤◌, length};
ghost use Rattle.census_table.specs.LinePlaces.{begins, begins_column, behind, is_game, says_period, says_refuted, start, stops};

/// Where a byte stands, or the end.
#[derive(Clone, Copy)]
pub(crate) struct LinePlace {
    /// Whether the line is that of a game, which has columns.
    pub(crate) is_game: bool,
    /// How many columns of it are before.
    pub(crate) column: usize,
    /// How many bytes of the column are before.
    pub(crate) width: usize,
    /// Whether the bytes are colored.
    pub(crate) is_colored: bool,
}

impl LinePlace {
    /// The beginning of the first of these lines.
    pub(crate) fn start(lines: &[u8]) -> LinePlace
        ensures { result ≡ start lines.now }
    {
        LinePlace {
            is_game: is_game(lines),
            column: 0,
            width: 0,
            is_colored: false,
        }
    }

    /// Whether the first of these bytes, which stand here, begins a column.
    pub(crate) fn begins(&self, rest: &[u8]) -> bool
        ensures { result ≡ begins self.now rest.now }
    {
        self.is_game && begins_column(rest)
    }

    /// Whether it ends what is colored, and no column.
    pub(crate) fn stops(&self, rest: &[u8]) -> bool
        ensures { result ≡ stops self.now rest.now }
    {
        self.is_colored
            && (rest.starts_with(b"\n")
                || rest.starts_with(b" unclaimed")
                || rest.starts_with(b" withdrawn "))
    }

    #[tactic(auto, using(crate::proofs::Steps::behind_at))]
    /// The place behind it. Colours begin only where they are wanted.
    pub(crate) fn behind(&self, rest: &[u8], is_colored: bool) -> LinePlace
        requires some { 0 < length rest.now }
        requires column { self.now.column < 2 ^ 63 }
        requires width { self.now.width < 2 ^ 63 }
        ensures is { result ≡ behind is_colored self.now rest.now }
        ensures column { result.column ≤ self.now.column + 1 }
        ensures width { result.width ≤ self.now.width + 1 }
    {
        if rest[0] == b'\n' {
            return LinePlace::start(&rest[1..]);
        }
        if self.begins(rest) {
            return LinePlace {
                is_game: self.is_game,
                column: self.column + 1,
                width: 1,
                is_colored: is_colored && (says_period(rest) || says_refuted(rest)),
            };
        }
        LinePlace {
            is_game: self.is_game,
            column: self.column,
            width: self.width + 1,
            is_colored: self.is_colored && !self.stops(rest),
        }
    }
}

#[tactic(auto, using(crate::proofs::Steps::game_at))]
// Whether the first of these lines says of a game how much is known, behind its code.
fn is_game(lines: &[u8]) -> bool
    ensures { result ≡ is_game lines.now }
{
    for i in 0..lines.len() {
        if lines[i] == b' ' {
            return lines[i..].starts_with(b" known ");
        }
    }
    false
}

// Whether these bytes begin a column.
fn begins_column(rest: &[u8]) -> bool
    ensures { result ≡ begins_column rest.now }
{
    rest.starts_with(b" known ")
        || says_period(rest)
        || rest.starts_with(b" no ")
        || rest.starts_with(b" blocks ")
        || rest.starts_with(b" refuted ")
        || rest.starts_with(b" pending ")
        || rest.starts_with(b" claims ")
}

/// Whether these bytes begin with a period that is proved.
pub(crate) fn says_period(rest: &[u8]) -> bool
    ensures { result ≡ says_period rest.now }
{
    rest.starts_with(b" period ") && !rest.starts_with(b" period blocks ")
}

/// Whether they begin with a count of what is refuted, which is not 0.
pub(crate) fn says_refuted(rest: &[u8]) -> bool
    ensures { result ≡ says_refuted rest.now }
{
    rest.starts_with(b" refuted ") && !rest.starts_with(b" refuted 0 ")
}
