//! Commands that give several games their turns, and save what is done on the way.

ghost use Rattle.std.specs.Prelude.{◌≡◌, OnOk, length};

use crate::pause::Pause;
use crate::progress_line::ProgressLine;
use census_failure::Failure;
use census_files::StateFile;
use census_issue::TurnKeeper;
use census_state::save;
use oct_record::Record;
use oct_window::Unkept;
use std::alloc::Global;
use std::fs::File;
use std::io::Write;
use std::rt::Files;
use std::time::Clock;
use written::write_out;

// For how many seconds the games that are done may be kept in memory alone.
const UNSAVED: u64 = 15;

// A game that took so many seconds is saved at its end.
const LONG: u64 = 5;

/// Saves a state at the end of a game that took five seconds, or where fifteen have passed since the last time, and prints the
/// lines of games once the state that has them is saved. So a stop loses, beside the game that is not done, at most what fifteen
/// seconds did, and the same command goes on from there.
#[derive(Drop)]
pub struct TurnSaver<'a, R, O> {
    rt: &'a R,
    file: &'a StateFile,
    output: &'a mut O,
    /// How many bytes the state had when it was read.
    read: usize,
    /// Since the state was last saved.
    pause: Pause,
    /// Since the last game was done.
    turn: Pause,
    /// How many bytes of the lines are printed.
    printed: usize,
    /// Why the state was not saved, or the lines not printed.
    failure: Option<Failure>,
}

impl<'a, R, O> TurnSaver<'a, R, O>
where
    R: Files<File = File> + AllocGlobal + Clock,
    O: Write,
{
    /// That of a command that begins now, over the state of this file, of which so many bytes were read.
    pub fn new(
        rt: &'a R,
        file: &'a StateFile,
        read: usize,
        output: &'a mut O,
    ) -> TurnSaver<'a, R, O>
        ensures { result.printed ≡ 0 }
    {
        let mut pause = Pause::over(UNSAVED);
        pause.begin(rt);
        let mut turn = Pause::over(LONG);
        turn.begin(rt);
        TurnSaver {
            rt,
            file,
            output,
            read,
            pause,
            turn,
            printed: 0,
            failure: None,
        }
    }

    /// How many bytes of the lines are printed.
    pub fn printed(&self) -> usize
        ensures { result ≡ self.now.printed }
    {
        self.printed
    }

    /// Why the state was not saved, or the lines not printed; none where they were.
    pub fn into_failure(self) -> Option<Failure> {
        self.failure
    }

    // Saves the state, and prints the lines that are not printed yet.
    fn save<E: Write>(
        &mut self,
        said: &Record<Global>,
        lines: &[u8],
        progress: &mut ProgressLine<'_, R, E>,
    ) -> Result<(), Failure>
        ensures { OnOk result (self.new.printed ≡ length lines.now) }
    {
        let reply = save(self.rt.alloc(), said, self.read, Vec::new(self.rt.alloc()))?;
        if let Some(text) = &reply.state {
            self.file.replace_telling(self.rt, text, progress.advice())?;
        }
        progress.clear();
        write_out(self.output, lines.get(self.printed..).unwrap_or(b""))?;
        self.printed = lines.len();
        self.pause.begin(self.rt);
        Ok(())
    }
}

impl<'b, R, O, E> TurnKeeper<ProgressLine<'b, R, E>> for TurnSaver<'_, R, O>
where
    R: Files<File = File> + AllocGlobal + Clock,
    O: Write,
    E: Write,
{
    ghost use Rattle.std.specs.Prelude.{◌≡◌, ◌≢◌, length, true};

    // Where some of the lines are printed, all are.
    ghost keeps = { λ old done new. new.printed ≢ old.printed → new.printed ≡ length done.text };

    ghost may_refuse = { true };

    fn keep(
        &mut self,
        said: &Record<Global>,
        lines: &[u8],
        progress: &mut ProgressLine<'b, R, E>,
    ) -> Result<(), Unkept> {
        progress.end_turn();
        let is_due = self.turn.is_due(self.rt) || self.pause.is_due(self.rt);
        self.turn.begin(self.rt);
        if !is_due {
            return Ok(());
        }
        match self.save(said, lines, progress) {
            Ok(()) => Ok(()),
            Err(failure) => {
                self.failure = Some(failure);
                Err(Unkept)
            }
        }
    }
}
