//! The file of a state, or of a delta, as one command at a time may change it.

use crate::file_stamp::FileStamp;
use crate::files::{beside, check_length, real_path, standing};
use crate::hindrance::{Hindrance, unlocked, unreplaced, unwritten};
use crate::lock::{Lock, Silent, Telling, Waiting, is_locked};
use crate::new_text::{NewText, remove_left};
use census_failure::{Advice, Failure, shown};
use census_state::Fault;
use std::alloc::{AllocError, Global};
use std::fs::{File, Metadata};
use std::io::{self, ErrorKind, Write};
use std::os::unix::fs::{MetadataExt, PermissionsExt, fchown};
use std::path::Path;
use std::rt::Files;
use std::time::Clock;

// What everyone may do with a new file, as far as the umask leaves it.
const SHARED: u32 = 0o666;
// And with one that takes the place of another, until it has the permissions of that one.
const PRIVATE: u32 = 0o600;
// Without this permission the owner keeps a file from being changed.
const OWNER_WRITES: u32 = 0o200;

/// What a new file is to hold.
pub trait Text {
    /// Writes it to the file, which has nothing as yet.
    fn write_to(&self, file: &mut File) -> io::Result<()>;
}

impl Text for &[u8] {
    fn write_to(&self, file: &mut File) -> io::Result<()> {
        file.write_all(self)
    }
}

/// The file of a state, which no other command changes until `release`: it holds the exclusive lock of the system on
/// the file of that name with `.lock` behind it. The system opens the lock where the process ends.
#[derive(Drop)]
pub struct StateFile {
    path: String,
    lock_path: String,
    new_path: String,
    lock: Option<Lock>,
    /// Why there is no lock, where that is known.
    hindrance: Option<Hindrance>,
}

impl StateFile {
    /// Waits until no other command changes the state, and holds its lock from then on. A link is followed: the state
    /// is the file it leads to, and the lock lies beside that. Where that file is not known, or there can be no lock,
    /// `replace` refuses. The fault is `OutOfMemory`.
    pub fn wait<R>(rt: &R, state: &str) -> Result<StateFile, Failure>
    where
        R: Files<File = File> + AllocGlobal,
    {
        Ok(StateFile::held(rt, state, &mut Silent)?)
    }

    /// The same, and says so where it waits for more than two seconds.
    pub fn wait_telling<R, E>(
        rt: &R,
        state: &str,
        advice: &mut Advice<'_, E>,
    ) -> Result<StateFile, Failure>
    where
        R: Files<File = File> + AllocGlobal + Clock,
        E: Write,
    {
        Ok(StateFile::held(rt, state, &mut Telling::new(rt, state, advice))?)
    }

    // The state, once its lock is held.
    fn held<R, W>(rt: &R, state: &str, waiting: &mut W) -> Result<StateFile, AllocError>
    where
        R: Files<File = File> + AllocGlobal,
        W: Waiting,
    {
        let alloc = rt.alloc();
        let Some(path) = real_path(rt, state)? else {
            return Ok(StateFile {
                path: format!(in alloc; "{state}")?,
                lock_path: String::new(alloc),
                new_path: String::new(alloc),
                lock: None,
                hindrance: None,
            });
        };
        let lock_path = beside(alloc, path.as_str(), ".lock")?;
        let new_path = beside(alloc, path.as_str(), ".new")?;
        let taken = match standing(rt, path.as_str()) {
            Ok(there) => Lock::take(rt, lock_path.as_str(), there.as_ref(), waiting),
            Err(error) => Err(Hindrance::System(error)),
        };
        let (lock, hindrance) = match taken {
            Ok(lock) => {
                remove_left(rt, new_path.as_str(), &lock);
                (Some(lock), None)
            }
            Err(hindrance) => (None, Some(hindrance)),
        };
        Ok(StateFile {
            path,
            lock_path,
            new_path,
            lock,
            hindrance,
        })
    }

    /// Whether another command holds the lock of the state just now; none where that can't be seen. The fault is `OutOfMemory`.
    pub fn is_locked<R>(rt: &R, state: &str) -> Result<Option<bool>, Failure>
    where
        R: Files<File = File> + AllocGlobal,
    {
        let Some(path) = real_path(rt, state)? else {
            return Ok(None);
        };
        let lock_path = beside(rt.alloc(), path.as_str(), ".lock")?;
        Ok(is_locked(rt, lock_path.as_str()))
    }

    /// Where the state stands, without links.
    pub fn path(&self) -> &str {
        self.path.as_str()
    }

    /// The stamp of the file that stands there now; none where nothing does. The fault is `File`.
    pub fn stamp<R: Files + AllocGlobal>(&self, rt: &R) -> Result<Option<FileStamp>, Failure> {
        match standing(rt, self.path.as_str()) {
            Ok(there) => Ok(there.map(|there| FileStamp::of(&there))),
            Err(error) => Err(unwritten(rt.alloc(), self.path.as_str(), error)),
        }
    }

    /// Lets other commands change the state again, and removes the lock's file, which is still held then.
    pub fn release<R: Files<File = File>>(self, rt: &R) {
        if let Some(lock) = self.lock {
            lock.release(rt, self.lock_path.as_str());
        }
    }

    /// Replaces the state by these bytes, whole: they are written to a new file of the name with `.new` behind it, and
    /// flushed to the disk; then that file takes the state's name, and its permissions, where the lock is still there. A
    /// stop at any moment leaves the old state or the new one. The fault is `TooLong` before anything is written;
    /// `Occupied` where somebody's file stands in the place of the lock or of the new file; `File`, also where what
    /// stands in the place of the state is no file or its owner may not write it, and where the lock was removed
    /// meanwhile; and `OutOfMemory`.
    pub fn replace<R>(&self, rt: &R, bytes: &[u8]) -> Result<(), Failure>
    where
        R: Files<File = File> + AllocGlobal,
    {
        check_length(rt.alloc(), bytes, self.path.as_str())?;
        self.replace_by(rt, &bytes)
    }

    /// Replaces the state likewise by a text that is written as it is made, and is not longer than a file may be.
    pub fn replace_by<R, T>(&self, rt: &R, text: &T) -> Result<(), Failure>
    where
        R: Files<File = File> + AllocGlobal,
        T: Text,
    {
        let Some(lock) = &self.lock else {
            return Err(self.not_held(rt.alloc()));
        };
        match self.renew(rt, lock, text) {
            Ok(()) => Ok(()),
            Err(hindrance) => Err(unreplaced(
                rt.alloc(),
                self.path.as_str(),
                self.lock_path.as_str(),
                self.new_path.as_str(),
                hindrance,
            )),
        }
    }

    // The same under the lock. Where it is hindered, the new file is removed.
    fn renew<R, T>(&self, rt: &R, lock: &Lock, text: &T) -> Result<(), Hindrance>
    where
        R: Files<File = File>,
        T: Text,
    {
        let old = standing(rt, self.path.as_str())?;
        check_replaceable(old.as_ref())?;
        lock.check(rt, self.lock_path.as_str())?;
        let mode = if old.is_some() { PRIVATE } else { SHARED };
        let mut new = NewText::make(rt, self.new_path.as_str(), mode)?;
        let done = match fill(lock, new.file(), old.as_ref(), text) {
            Ok(()) => new.take_name(rt, self.path.as_str(), lock, self.lock_path.as_str()),
            Err(error) => Err(Hindrance::System(error)),
        };
        match done {
            Ok(()) => flush_folder(rt, self.path.as_str()),
            Err(_) => new.remove(rt),
        }
        done
    }

    /// Refuses a state whose lock is not held. The fault is `File`, or `Occupied` where somebody's file stands in its place.
    pub fn check_held(&self, alloc: Global) -> Result<(), Failure> {
        if self.lock.is_none() {
            return Err(self.not_held(alloc));
        }
        Ok(())
    }

    // The failure of a state that is not locked.
    fn not_held(&self, alloc: Global) -> Failure {
        match self.hindrance {
            Some(why) => unlocked(alloc, self.path.as_str(), self.lock_path.as_str(), why),
            None => unfollowed(alloc, self.path.as_str()),
        }
    }

    /// The same, and warns where the file had another name, under which the old bytes stay.
    pub fn replace_telling<R, E>(
        &self,
        rt: &R,
        bytes: &[u8],
        advice: &mut Advice<'_, E>,
    ) -> Result<(), Failure>
    where
        R: Files<File = File> + AllocGlobal,
        E: Write,
    {
        let has_other_name = has_other_name(rt, self.path.as_str());
        self.replace(rt, bytes)?;
        if has_other_name {
            warn_of_other_name(rt, self.path.as_str(), advice);
        }
        Ok(())
    }
}

// The failure of a file that is behind a link.
fn unfollowed(alloc: Global, path: &str) -> Failure {
    Failure::of(alloc, Fault::File, path).found(link_text(alloc, path))
}

fn link_text(alloc: Global, path: &str) -> Result<String, AllocError> {
    let path = shown(alloc, path)?;
    format!(in alloc; "{path}: it is not known to which file this leads")
}

// Whether the file has a further name, by a hard link.
fn has_other_name<R: Files>(rt: &R, path: &str) -> bool {
    match standing(rt, path) {
        Ok(Some(there)) => there.is_file() && there.nlink() > 1,
        _ => false,
    }
}

fn warn_of_other_name<R: AllocGlobal, E: Write>(rt: &R, path: &str, advice: &mut Advice<'_, E>) {
    let alloc = rt.alloc();
    if let Ok(text) = format!(in alloc;
        "{path} has another name, which stays as it was: use one of the two only"
    ) {
        advice.warn(text.as_str());
    }
}

// Has the lock name the new file, gives that the permissions of the old one, and writes it.
fn fill<T: Text>(lock: &Lock, new: &mut File, old: Option<&Metadata>, text: &T) -> io::Result<()> {
    lock.name(new)?;
    if let Some(old) = old {
        resemble(new, old)?;
    }
    text.write_to(new)?;
    new.sync_all()
}

// Refuses what is no file, and a file that its owner may not write.
fn check_replaceable(old: Option<&Metadata>) -> io::Result<()> {
    match old {
        Some(old) if !old.is_file() || old.permissions().mode() & OWNER_WRITES == 0 => {
            Err(io::Error::from(ErrorKind::PermissionDenied))
        }
        _ => Ok(()),
    }
}

// Gives the file the permissions of the one whose place it takes, and its owner where the system lets it.
fn resemble(file: &File, old: &Metadata) -> io::Result<()> {
    let _ = fchown(file, Some(old.uid()), Some(old.gid()));
    file.set_permissions(old.permissions())
}

// Flushes the folder of the path to the disk, where the system can.
fn flush_folder<R: Files<File = File>>(rt: &R, path: &str) {
    let folder = match Path::new(path).parent().and_then(|folder| folder.to_str()) {
        Some("") | None => ".",
        Some(folder) => folder,
    };
    if let Ok(folder) = File::open(rt, folder) {
        let _ = folder.sync_all();
    }
}
