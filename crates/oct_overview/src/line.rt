//! What a line says of a game, and whether the game is told of.

ghost use Rattle.std.specs.Prelude.{◌≡◌};
ghost use Rattle.oct_pages.specs.Contents.{game_content};
ghost use Rattle.oct_overview.specs.Line.{claimed_in, has_period, holds, is_selected, is_unclaimed, least_in, line_of, period_of, with_least};

use crate::listing::Condition;
use oct_ops::Period;
use oct_pages::{GameSheet, PeriodRow};
use oct_sheet::{Remarks, Summary};
use std::alloc::Allocator;

/// The least period that the known nim-values of a game prove, from the least start on.
#[derive(Clone, Copy)]
pub struct LeastPeriod {
    /// The period and its start.
    pub period: Period,
    /// Whether a claim of the game says just this.
    pub is_claimed: bool,
}

impl LeastPeriod {
    /// That of a game, of which this period was found, as `Game::find_period` does; none where no period is proved.
    pub fn of<A: Allocator + Copy>(
        sheet: &GameSheet<'_, A>,
        found: &Option<Period>,
    ) -> Option<LeastPeriod>
        requires { found.now ≡ least_in (game_content sheet.now) }
        ensures { result ≡ period_of (game_content sheet.now) }
    {
        match found {
            Some(period) => Some(LeastPeriod {
                period: *period,
                is_claimed: claimed_in(&sheet.periods, period),
            }),
            None => None,
        }
    }
}

/// What a line says of a game.
#[derive(Clone, Copy)]
pub struct GameLine {
    /// The game in a few numbers.
    pub summary: Summary,
    /// Its least period; none where no period is proved.
    pub least: Option<LeastPeriod>,
}

impl GameLine {
    /// The line of a game, of which this period was found, with what is withdrawn by these remarks.
    pub(crate) fn of<A: Allocator + Copy, B: Allocator + Copy>(
        sheet: &GameSheet<'_, A>,
        remarks: &Remarks<'_, B>,
        found: &Option<Period>,
    ) -> GameLine
        requires { found.now ≡ least_in (game_content sheet.now) }
        ensures { result ≡ line_of remarks.now (game_content sheet.now) }
    {
        GameLine {
            summary: Summary::of(sheet, remarks),
            least: LeastPeriod::of(sheet, found),
        }
    }

    /// Whether each of the conditions holds of the game.
    pub(crate) fn is_selected(&self, which: &[Condition]) -> bool
        ensures { result ≡ is_selected which.now self.now }
    {
        which.iter().all(|condition| self.meets(*condition))
    }

    // Whether the condition holds of the game.
    fn meets(&self, condition: Condition) -> bool
        ensures { result ≡ holds condition self.now }
    {
        match condition {
            Condition::OfPeriod(period) => has_period(&self.least, period),
            Condition::NoPeriod => self.least.is_none(),
            Condition::Unclaimed => is_unclaimed(&self.least),
            Condition::KnownBelow(count) => (self.summary.known as u64) < count,
        }
    }
}

/// A game as pages show it: its period is the one that was found of it, as `Game::find_period` does, and not that of the first
/// claim which is proved.
pub fn with_least<'a, A: Allocator + Copy>(
    sheet: GameSheet<'a, A>,
    found: &Option<Period>,
) -> GameSheet<'a, A>
    requires { found.now ≡ least_in (game_content sheet) }
    ensures { game_content result ≡ with_least (game_content sheet.entry) }
{
    let mut shown = sheet;
    shown.proved = *found;
    shown
}

/// Whether one of the rows claims this period from the same start on.
pub fn claimed_in(rows: &[PeriodRow], period: &Period) -> bool
    ensures { result ≡ claimed_in rows.now period.now }
{
    rows.iter().any(|row| row.period == *period)
}

// Whether there is a period, of this length.
fn has_period(least: &Option<LeastPeriod>, period: u32) -> bool
    ensures { result ≡ has_period period least.now }
{
    match least {
        Some(least) => least.period.period() == period,
        None => false,
    }
}

// Whether there is a period that nobody claimed.
fn is_unclaimed(least: &Option<LeastPeriod>) -> bool
    ensures { result ≡ is_unclaimed least.now }
{
    match least {
        Some(least) => !least.is_claimed,
        None => false,
    }
}
