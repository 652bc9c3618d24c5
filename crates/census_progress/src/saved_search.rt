//! A search that is saved in a file, and goes on from there.

ghost use Rattle.std.specs.Prelude.{◌≡◌, IfOk, IfSome, OnOk};
ghost use Rattle.oct_window.specs.Places.{IsKept};

use crate::pause::Pause;
use crate::progress_line::ProgressLine;
use census_diagnosis::{Given, of_saved};
use census_failure::{Failure, shown};
use census_files::{FileStamp, StateFile, check_apart, exists, read_file};
use census_search::{read_search, resume_in_windows, search_in_windows};
use census_state::Fault;
use oct_code::Code;
use oct_saved::write_place;
use oct_text::Form;
use oct_window::{Keeper, Place, Progress, Unkept};
use std::alloc::{AllocError, Global};
use std::fs::File;
use std::io::Write;
use std::rt::Files;
use std::time::Clock;

// How many seconds pass at least between two saves, but for the last one.
const PAUSE: u64 = 15;

/// A search in windows for the period of a game.
#[derive(Clone, Copy)]
pub struct WindowSearch {
    /// The game.
    pub code: Code,
    /// How many values are searched at most.
    pub count: u64,
    /// How what is found is written.
    pub form: Form,
}

/// Searches for the period of a game in windows, and keeps in a file how far the search is; where it holds a search, that goes
/// on. No other command changes the file meanwhile. Gives what is to be printed.
///
/// The first fault is `File` where the file can't be locked; `Occupied` where its name is that of another file's lock or new
/// text; `File` or `TooLong` where it can't be read; `Saved` where it holds no search of the game; then those of the search,
/// among them `Occupied` where another file was put in its place meanwhile, or somebody's file stands in the place of its lock
/// or new text, and `File` and `TooLong` where it can't be written.
pub fn search_saved<R, E>(
    rt: &R,
    sought: WindowSearch,
    path: &str,
    progress: &mut ProgressLine<'_, R, E>,
) -> Result<Vec<u8>, Failure>
where
    R: Files<File = File> + AllocGlobal + Clock,
    E: Write,
{
    let file = StateFile::wait_telling(rt, path, progress.advice())?;
    let searched = search_held(rt, sought, &file, progress);
    file.release(rt);
    searched
}

// The same, while no other command changes the file.
fn search_held<'a, R, E>(
    rt: &'a R,
    sought: WindowSearch,
    file: &'a StateFile,
    progress: &'a mut ProgressLine<'_, R, E>,
) -> Result<Vec<u8>, Failure>
where
    R: Files<File = File> + AllocGlobal + Clock,
    E: Write,
{
    let alloc = rt.alloc();
    file.check_held(alloc)?;
    check_apart(rt, file.path())?;
    let stamp = file.stamp(rt)?;
    let place = saved_place(rt, sought.code, file.path())?;
    if let Some(place) = &place {
        tell_start(alloc, place, file.path(), progress);
    }
    let mut saver = Saver {
        rt,
        file,
        progress,
        stamp,
        pause: Pause::over(PAUSE),
        failure: None,
    };
    match search_from(alloc, sought, place, &mut saver) {
        Ok(text) => Ok(text),
        Err(fault) => Err(saver.failure_of(fault)),
    }
}

// Searches from a place on, or from the beginning.
fn search_from<K: Keeper<Global>>(
    alloc: Global,
    sought: WindowSearch,
    place: Option<Place<Global>>,
    keeper: &mut K,
) -> Result<Vec<u8>, Fault>
    requires { IfSome place IsKept }
    ensures { OnOk result (K.has_refused keeper.new ≡ K.has_refused keeper.old) }
{
    let WindowSearch { code, count, form } = sought;
    match place {
        Some(place) => resume_in_windows(alloc, place, count, form, keeper),
        None => search_in_windows(alloc, code, count, form, keeper),
    }
}

// The place of the search that the file holds; none where there is no file, or one without bytes.
fn saved_place<R: Files + AllocGlobal>(
    rt: &R,
    code: Code,
    path: &str,
) -> Result<Option<Place<Global>>, Failure>
    ensures { IfOk result (λ found. IfSome found IsKept) }
{
    if !exists(rt, path)? {
        return Ok(None);
    }
    let bytes = read_file(rt, path)?;
    if bytes.is_empty() {
        return Ok(None);
    }
    match read_search(rt.alloc(), code, &bytes) {
        Ok(place) => Ok(Some(place)),
        Err(Fault::Saved(cause)) => Err(of_saved(rt.alloc(), cause, Given::new(path, &bytes))),
        Err(fault) => Err(Failure::from(fault)),
    }
}

// Says where the search goes on.
fn tell_start<R: AllocGlobal + Clock, E: Write>(
    alloc: Global,
    place: &Place<Global>,
    path: &str,
    progress: &mut ProgressLine<'_, R, E>,
) {
    if let Ok(text) = start_text(alloc, place, path) {
        progress.advice().tell(text.as_str());
    }
}

fn start_text(alloc: Global, place: &Place<Global>, path: &str) -> Result<String, AllocError> {
    let values = place.farthest();
    let path = shown(alloc, path)?;
    format!(in alloc; "the search in {path} goes on behind {values} values")
}

// The failure of a file that is not the one which was read or written.
fn foreign(alloc: Global, path: &str) -> Failure {
    Failure::of(alloc, Fault::Occupied, path)
        .found(foreign_text(alloc, path))
        .advise(apart_text(alloc))
}

fn foreign_text(alloc: Global, path: &str) -> Result<String, AllocError> {
    let path = shown(alloc, path)?;
    format!(in alloc; "another file was put in the place of {path} meanwhile, and stays as it is")
}

fn apart_text(alloc: Global) -> Result<String, AllocError> {
    format!(in alloc; "save the search in a file of its own")
}

// Saves the places of a search.
#[derive(Drop)]
struct Saver<'a, R, P> {
    rt: &'a R,
    file: &'a StateFile,
    progress: &'a mut P,
    /// The file as it was read or last written; none where there was none.
    stamp: Option<FileStamp>,
    pause: Pause,
    /// Why a place was not saved.
    failure: Option<Failure>,
}

impl<R: Files<File = File> + AllocGlobal + Clock, P: Progress> Saver<'_, R, P> {
    // The failure of the search.
    fn failure_of(self, fault: Fault) -> Failure {
        match (fault, self.failure) {
            (Fault::File, Some(failure)) => failure,
            (fault, _) => Failure::from(fault),
        }
    }

    // Saves a place, unless another file was put there meanwhile.
    fn save(&mut self, place: &Place<Global>) -> Result<(), Failure>
        ensures { self.new.failure ≡ self.old.failure }
    {
        let text = write_place(self.rt.alloc(), place)?;
        let there = self.file.stamp(self.rt)?;
        if there.is_some() && there != self.stamp {
            return Err(foreign(self.rt.alloc(), self.file.path()));
        }
        self.file.replace(self.rt, &text)?;
        self.stamp = self.file.stamp(self.rt)?;
        self.check_own(&text)?;
        self.pause.begin(self.rt);
        Ok(())
    }

    // Refuses another file that was put there since this text was: what was seen after that may have been the other one.
    fn check_own(&self, text: &[u8]) -> Result<(), Failure> {
        let Ok(there) = read_file(self.rt, self.file.path()) else {
            return Ok(());
        };
        if there.as_slice() == text {
            Ok(())
        } else {
            Err(foreign(self.rt.alloc(), self.file.path()))
        }
    }
}

impl<R: Files<File = File> + AllocGlobal + Clock, P: Progress> Keeper<Global> for Saver<'_, R, P> {
    ghost use Rattle.std.specs.Prelude.{true};
    ghost use Rattle.std.specs.Option.{is_some};

    ghost may_refuse = { true };

    ghost has_refused = { λ s. is_some s.failure };

    fn tell(&mut self, code: Code, known: u64, wanted: u64) {
        self.progress.tell(code, known, wanted);
    }

    fn keep(&mut self, place: &Place<Global>, is_last: bool) -> Result<(), Unkept> {
        if !is_last && !self.pause.is_due(self.rt) {
            return Ok(());
        }
        match self.save(place) {
            Ok(()) => Ok(()),
            Err(failure) => {
                self.failure = Some(failure);
                Err(Unkept)
            }
        }
    }
}
