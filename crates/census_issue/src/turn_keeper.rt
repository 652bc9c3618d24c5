//! Who keeps what is done between the turns of games.

use oct_record::Record;
use oct_window::Unkept;
use std::alloc::Global;

/// Who keeps what is done when a game had its turn, so that a stop before the last game does not lose it. It is handed who is
/// told how far the command is.
pub trait TurnKeeper<P> {
    ghost use Rattle.std.specs.Prelude.{Bool, IsTrue, OnErr, OnOk};
    ghost use Rattle.census_issue.specs.Turns.{Turn};

    /// What becomes of the keeper by what is done so far.
    ghost keeps: { Self → Turn → Self → Type 0 };
    /// Whether it may not be kept.
    ghost may_refuse: { Bool };

    /// Takes what was said, and the lines of all games so far.
    fn keep(&mut self, said: &Record<Global>, lines: &[u8], progress: &mut P) -> Result<(), Unkept>
        ensures kept { OnOk result (keeps self.old (record { replica = said.now; text = lines.now }) self.new) }
        ensures refused { OnErr result (IsTrue may_refuse) };
}

/// Keeps nothing before the last game had its turn.
#[derive(Drop)]
pub struct NoKeeper;

impl<P> TurnKeeper<P> for NoKeeper {
    ghost use Rattle.std.specs.Prelude.{◌≡◌, false};

    ghost keeps = { λ old done new. new ≡ old };

    ghost may_refuse = { false };

    fn keep(
        &mut self,
        _said: &Record<Global>,
        _lines: &[u8],
        _progress: &mut P,
    ) -> Result<(), Unkept> {
        Ok(())
    }
}
