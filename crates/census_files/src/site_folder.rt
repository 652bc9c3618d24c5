//! The folder of a site.

use crate::files::{beside, unless_missing};
use crate::hindrance::{Hindrance, unlocked, unreplaced};
use crate::lock::{Lock, Telling};
use crate::new_text::NewText;
use crate::page_folder::is_of_page;
use census_failure::{Advice, Failure};
use census_state::Fault;
use oct_code::Code;
use std::alloc::{AllocError, Global};
use std::collections::BTreeSet;
use std::fs::{self, File};
use std::io::{self, Write};
use std::rt::Files;
use std::time::Clock;

// The file by which a folder is known as a site, and what else belongs to no game.
pub(crate) const MARKER: &str = "census-site";

const COMMON: [&str; 3] = [MARKER, "index.html", "style.css"];

// The lock of the folder.
const LOCK: &str = "census-site.lock";

// The ends of the names of a game's files.
const ENDS: [&str; 4] = [".svg", ".txt", ".json", ".html"];

// What everyone may do with a file of a site, as far as the umask leaves it.
const SHARED: u32 = 0o666;

/// A folder that takes the files of a site, from one command at a time.
#[derive(Drop)]
pub struct SiteFolder<'a, R> {
    rt: &'a R,
    path: &'a str,
    lock_path: String,
    /// The lock of the folder, which is held from `lock` on.
    lock: Option<Lock>,
    /// The names of the files that it has taken.
    names: BTreeSet<String>,
    /// Why a file was not taken.
    failure: Option<Failure>,
}

impl<'a, R> SiteFolder<'a, R>
where
    R: Files<File = File> + AllocGlobal + Clock + Clone + Drop,
{
    /// The folder at the path, where nothing would be lost. It is not made yet, nor locked. The fault is `Occupied` where
    /// something stands there that is no folder, or a folder that has anything but a site; `File` where that can't be
    /// seen; and `OutOfMemory`.
    pub fn open(rt: &'a R, path: &'a str) -> Result<SiteFolder<'a, R>, Failure> {
        check_free(rt, path)?;
        let alloc = rt.alloc();
        Ok(SiteFolder {
            rt,
            path,
            lock_path: format!(in alloc; "{path}/{LOCK}")?,
            lock: None,
            names: BTreeSet::new(alloc),
            failure: None,
        })
    }

    /// Whether it is locked, so that it takes files.
    pub fn is_locked(&self) -> bool {
        self.lock.is_some()
    }

    /// Makes the folder, where there is none, waits for its lock, and looks again whether anything would be lost. The fault is
    /// `File`, `Occupied`, and `OutOfMemory`; `close` knows more of it.
    pub fn lock<E: Write>(&mut self, advice: &mut Advice<'_, E>) -> Result<(), Fault> {
        let locked = self.locked(advice);
        self.noted(locked)
    }

    /// Writes a file of this name with these bytes beside, and gives it its name, whole, where the folder is locked. The fault
    /// is `File`, after which the file is as it was, and `OutOfMemory`; `close` knows more of it.
    pub fn put(&mut self, name: &[u8], bytes: &[u8]) -> Result<(), Fault> {
        let taken = self.taken(name, bytes);
        self.noted(taken)
    }

    // Keeps what is known of a fault, for `close`.
    fn noted(&mut self, done: Result<(), Failure>) -> Result<(), Fault> {
        match done {
            Ok(()) => Ok(()),
            Err(failure) => {
                let fault = failure.fault;
                self.failure = Some(failure);
                Err(fault)
            }
        }
    }

    // Writes the file, and gives what is known of a fault.
    fn taken(&mut self, name: &[u8], bytes: &[u8]) -> Result<(), Failure> {
        let alloc = self.rt.alloc();
        let Ok(name) = str::from_utf8(name) else {
            return Err(Failure::of(alloc, Fault::File, self.path));
        };
        let path = self.path_of(name)?;
        let new_path = beside(alloc, path.as_str(), ".new")?;
        if let Err(why) = self.renew(path.as_str(), new_path.as_str(), bytes) {
            return Err(unreplaced(alloc, &path, &self.lock_path, &new_path, why));
        }
        let name = String::from_str(alloc, name)?;
        let _ = self.names.insert(name).or(Err(Fault::OutOfMemory))?;
        Ok(())
    }

    // Makes the folder, where there is none, and waits for its lock.
    fn locked<E: Write>(&mut self, advice: &mut Advice<'_, E>) -> Result<(), Failure> {
        let (rt, path) = (self.rt, self.path);
        if let Err(error) = fs::create_dir_all(rt, path) {
            return Err(Failure::of(rt.alloc(), Fault::File, path).because(error));
        }
        let mut waiting = Telling::new(rt, path, advice);
        match Lock::take(rt, self.lock_path.as_str(), None, &mut waiting) {
            Ok(lock) => self.lock = Some(lock),
            Err(why) => return Err(unlocked(rt.alloc(), path, &self.lock_path, why)),
        }
        check_free(rt, path)
    }

    // Writes the bytes to a new file, and gives it the path. What a stop left in its place is removed.
    fn renew(&self, path: &str, new_path: &str, bytes: &[u8]) -> Result<(), Hindrance> {
        let Some(lock) = &self.lock else {
            return Err(Hindrance::Lost);
        };
        lock.check(self.rt, self.lock_path.as_str())?;
        let _ = fs::remove_file(self.rt, new_path);
        let mut new = NewText::make(self.rt, new_path, SHARED)?;
        let done = match new.file().write_all(bytes) {
            Ok(()) => new.take_name(self.rt, path, lock, self.lock_path.as_str()),
            Err(error) => Err(Hindrance::System(error)),
        };
        if done.is_err() {
            new.remove(self.rt);
        }
        done
    }

    /// Ends the site. Where all files were put, what a site has had there and this one has not is removed, as the pages of
    /// games that are gone. Then others may write the folder. The fault is the one that ended the site before, with what is
    /// known of it; `File` where the folder can't be read; and `OutOfMemory`.
    pub fn close(mut self, put: Result<(), Fault>) -> Result<(), Failure> {
        let done = match put {
            Ok(()) => self.remove_others(),
            Err(fault) => Err(self.failure_of(fault)),
        };
        if let Some(lock) = self.lock {
            lock.release(self.rt, self.lock_path.as_str());
        }
        done
    }

    // The failure of this fault, with what is known of it.
    fn failure_of(&mut self, fault: Fault) -> Failure {
        match self.failure.take() {
            Some(failure) => failure,
            None => Failure::of(self.rt.alloc(), fault, self.path),
        }
    }

    // Removes what a site has had there and this one has not.
    fn remove_others(&self) -> Result<(), Failure> {
        for name in &names_in(self.rt, self.path)? {
            let name = name.as_str();
            if name != LOCK && is_of_site(name) && !self.names.contains(name) {
                let path = self.path_of(name)?;
                let _ = fs::remove_file(self.rt, path.as_str());
            }
        }
        Ok(())
    }

    // The path of a file of the folder.
    fn path_of(&self, name: &str) -> Result<String, AllocError> {
        let folder = self.path;
        format!(in self.rt.alloc(); "{folder}/{name}")
    }
}

// Refuses a path where something would be lost: what is no folder, and a folder with files in it that are not of a site.
fn check_free<R>(rt: &R, path: &str) -> Result<(), Failure>
where
    R: Files<File = File> + AllocGlobal + Clone + Drop,
{
    match unless_missing(fs::metadata(rt, path)) {
        Ok(None) => Ok(()),
        Ok(Some(there)) if there.is_dir() && is_free(&names_in(rt, path)?) => Ok(()),
        Ok(Some(_)) => Err(occupied(rt.alloc(), path)),
        Err(error) => Err(Failure::of(rt.alloc(), Fault::File, path).because(error)),
    }
}

// The failure of a folder that has something else.
fn occupied(alloc: Global, path: &str) -> Failure {
    Failure::of(alloc, Fault::Occupied, path).advise(String::from_str(
        alloc,
        "name a folder that is empty, has a site and nothing else, or is not there",
    ))
}

// Whether the names are those of an empty folder, or of a site or of one that a stop left at its beginning.
fn is_free(names: &[String]) -> bool {
    let is_marked = names
        .iter()
        .any(|name| name.as_str() == MARKER || name.as_str() == LOCK);
    names.is_empty() || is_marked && names.iter().all(|name| is_of_site(name.as_str()))
}

// The names in a folder.
fn names_in<R>(rt: &R, path: &str) -> Result<Vec<String>, Failure>
where
    R: Files<File = File> + AllocGlobal + Clone + Drop,
{
    let alloc = rt.alloc();
    let mut names = Vec::new(alloc);
    let entries = match fs::read_dir(rt, path) {
        Ok(entries) => entries,
        Err(error) => return Err(Failure::of(alloc, Fault::File, path).because(error)),
    };
    for entry in entries {
        match entry {
            Ok(entry) => {
                let name = String::from_str(alloc, entry.file_name())?;
                names.push(name).or(Err(Fault::OutOfMemory))?;
            }
            Err(error) => return Err(Failure::of(alloc, Fault::File, path).because(error)),
        }
    }
    Ok(names)
}

// Whether a site has files of this name: one of three names, one of the page that computes, or a code with one of four ends. A
// file that is being written has `.new` behind its name. The lock is one too.
fn is_of_site(name: &str) -> bool {
    if name == LOCK {
        return true;
    }
    let name = name.strip_suffix(".new").unwrap_or(name);
    COMMON.iter().any(|common| *common == name)
        || is_of_page(name)
        || ENDS.iter().any(|end| is_of_game(name, end))
}

// Whether the name is a code with this end.
fn is_of_game(name: &str, end: &str) -> bool {
    match name.strip_suffix(end) {
        Some(code) => Code::parse(code.as_bytes()).is_ok(),
        None => false,
    }
}
