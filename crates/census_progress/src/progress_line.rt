//! The line that says how far a command is.

ghost use Rattle.std.specs.Prelude.{◌≡◌};
ghost use Rattle.census_progress.specs.Counts.{next_turns, turns_of};

use crate::count::{Count, Turns};
use crate::line_text::{Pace, Work, line_of};
use census_failure::{Advice, Audience};
use oct_code::Code;
use oct_pages::GameProgress;
use oct_window::Progress;
use std::io::Write;
use std::time::{Clock, Duration, Instant};
use written::write_out;

// For how many milliseconds a line stands at least.
const PAUSE: u64 = 100;

// For how many a command goes through games or files before there is a line.
const FIRST: u64 = 1_000;

/// A line on a terminal, which says how far a command is and is written anew at most ten times a second.
#[derive(Drop)]
pub struct ProgressLine<'a, R, E> {
    rt: &'a R,
    advice: Advice<'a, E>,
    /// When the line was last written, or the command began; none where nobody watches.
    last: Option<Instant>,
    is_shown: bool,
    /// The first count of what is told of now.
    first: Option<First>,
    /// Which game has its turn, where it is told of one of several.
    turns: Option<Turns>,
}

/// A count, and when it was told.
#[derive(Clone, Copy)]
struct First {
    count: Count,
    told: Instant,
}

impl<'a, R: AllocGlobal + Clock, E: Write> ProgressLine<'a, R, E> {
    /// The line of a command that begins now. It is not written where nobody watches.
    pub fn new(rt: &'a R, errors: &'a mut E, audience: Audience) -> ProgressLine<'a, R, E> {
        let last = if audience.is_watching {
            Instant::now(rt).ok()
        } else {
            None
        };
        ProgressLine {
            rt,
            advice: Advice::new(errors, audience),
            last,
            is_shown: false,
            first: None,
            turns: None,
        }
    }

    /// So many games have their turns from now on, one after another. The line says which of them has it, where there are two or
    /// more, and how long all of them may take, in place of how long one takes.
    pub fn give_turns(&mut self, games: usize)
        ensures { self.new.turns ≡ turns_of games }
    {
        self.turns = Turns::of(games);
    }

    /// The game had its turn, and the next one has it.
    pub fn end_turn(&mut self)
        ensures { self.new.turns ≡ next_turns self.old.turns }
    {
        if let Some(turns) = self.turns {
            self.turns = Some(turns.next());
        }
    }

    /// The file of this number, from 1 on, is next, of so many in all. It is said after a second.
    pub fn tell_file(&mut self, number: usize, all: usize) {
        let work = Work::Files {
            number: number as u64,
            all: all as u64,
        };
        self.write(work, self.first_pause());
    }

    /// Takes the line away.
    pub fn clear(&mut self) {
        if self.is_shown {
            self.is_shown = false;
            let _ = write_out(self.advice.errors(), b"\r\x1b[K");
        }
    }

    /// What is said beside the line, which is taken away before.
    pub fn advice(&mut self) -> &mut Advice<'a, E> {
        self.clear();
        &mut self.advice
    }

    // Writes the line of the work, where the last one, or the command, has stood for so many milliseconds.
    fn write(&mut self, work: Work, pause: u64) {
        let Some(last) = self.last else {
            return;
        };
        let pace = self.pace(Count::of(&work));
        if self.has_passed(last, pause) {
            if let Ok(line) = line_of(self.rt.alloc(), &work, pace) {
                self.last = Instant::now(self.rt).ok();
                self.is_shown = true;
                let _ = write_out(self.advice.errors(), &line);
            }
        }
    }

    // How fast it went on to this count since it was first told of what it counts.
    fn pace(&mut self, count: Count) -> Pace {
        if let Some(first) = self.first {
            if first.count.leads_to(&count) {
                return first
                    .count
                    .pace_to(&count, self.milliseconds_since(first.told));
            }
        }
        self.first = match Instant::now(self.rt) {
            Ok(told) => Some(First { count, told }),
            Err(_) => None,
        };
        count.pace_to(&count, 0)
    }

    // How many milliseconds passed since then, and 0 where there is no clock.
    fn milliseconds_since(&self, then: Instant) -> u64 {
        match then.elapsed(self.rt) {
            Ok(passed) => u64::try_from(passed.as_millis()).unwrap_or(u64::MAX),
            Err(_) => 0,
        }
    }

    // For how many milliseconds a command that goes through games or files goes on without a line, or without a further one.
    fn first_pause(&self) -> u64 {
        if self.is_shown { PAUSE } else { FIRST }
    }

    // Whether so many milliseconds have passed since then.
    fn has_passed(&self, then: Instant, pause: u64) -> bool {
        match then.elapsed(self.rt) {
            Ok(passed) => passed >= Duration::from_millis(pause),
            Err(_) => false,
        }
    }
}

impl<'a, R: AllocGlobal + Clock, E: Write> GameProgress for ProgressLine<'a, R, E> {
    fn tell(&mut self, code: Code, done: u64, all: u64) {
        self.write(Work::Games { code, done, all }, self.first_pause());
    }
}

impl<'a, R: AllocGlobal + Clock, E: Write> Progress for ProgressLine<'a, R, E> {
    fn tell(&mut self, code: Code, known: u64, wanted: u64) {
        let work = match self.turns {
            None => Work::Values {
                code,
                known,
                wanted,
            },
            Some(turns) => Work::Turn {
                code,
                known,
                wanted,
                number: turns.number,
                all: turns.all,
            },
        };
        self.write(work, PAUSE);
    }
}
