//! The lock that one command at a time holds.

use crate::files::{are_same, standing};
use crate::hindrance::Hindrance;
use census_failure::Advice;
use std::fs::{self, File, Metadata, OpenOptions, Permissions, TryLockError};
use std::io::{self, ErrorKind, Write};
use std::os::unix::fs::{FileExt, MetadataExt, OpenOptionsExt, PermissionsExt, fchown};
use std::rt::Files;
use std::thread;
use std::time::{Clock, Duration};

// How often a lock is tried whose file is gone once it is had, or whose wait a signal interrupts.
const TRIES: u32 = 1_000_000;

// How often a lock that another command holds is looked at before that is said, and how many milliseconds lie between:
// two seconds in all.
const LOOKS: u32 = 100;

const PAUSE: u64 = 20;

// How a lock begins that names a new file, and how many bytes it has: these, and the numbers of the device and of the file.
const TAG: [u8; 4] = *b"OGL1";

const NAMING: usize = 20;

// What everyone may do with the lock of a new file, as far as the umask leaves it.
const SHARED: u32 = 0o666;
// And what its owner may always do with a lock.
const PRIVATE: u32 = 0o600;

/// How a command waits for a lock that another one holds.
pub(crate) trait Waiting {
    /// Waits for the lock of the file, and holds it from then on.
    fn wait(&mut self, file: &File) -> io::Result<()>;
}

/// Waits, and says nothing.
#[derive(Drop)]
pub(crate) struct Silent;

impl Waiting for Silent {
    fn wait(&mut self, file: &File) -> io::Result<()> {
        file.lock()
    }
}

/// Waits, and says so after two seconds, where advice is wanted.
#[derive(Drop)]
pub(crate) struct Telling<'a, 'b, R, E> {
    rt: &'a R,
    /// What the other command changes.
    name: &'a str,
    advice: &'a mut Advice<'b, E>,
    /// How often the lock is still looked at before it is waited for.
    looks: u32,
}

impl<'a, 'b, R: AllocGlobal + Clock, E: Write> Telling<'a, 'b, R, E> {
    /// One that waits for the lock of the file of this name.
    pub(crate) fn new(
        rt: &'a R,
        name: &'a str,
        advice: &'a mut Advice<'b, E>,
    ) -> Telling<'a, 'b, R, E> {
        let looks = if advice.is_wanted() { LOOKS } else { 0 };
        Telling {
            rt,
            name,
            advice,
            looks,
        }
    }

    // Lets some time pass after a look, and says after the last one that the lock is waited for.
    fn pass(&mut self) {
        thread::sleep(self.rt, Duration::from_millis(PAUSE));
        self.looks = self.looks.saturating_sub(1);
        if self.looks == 0 {
            self.tell();
        }
    }

    fn tell(&mut self) {
        let name = self.name;
        let alloc = self.rt.alloc();
        if let Ok(text) = format!(in alloc; "waiting for another command that changes {name}") {
            self.advice.say(text.as_str());
        }
    }
}

impl<R: AllocGlobal + Clock, E: Write> Waiting for Telling<'_, '_, R, E> {
    fn wait(&mut self, file: &File) -> io::Result<()> {
        for _ in 0..self.looks {
            match file.try_lock() {
                Ok(()) => return Ok(()),
                Err(TryLockError::Error(e)) => return Err(e),
                Err(TryLockError::WouldBlock) => self.pass(),
            }
        }
        file.lock()
    }
}

/// A lock that is held, as long as its file is open.
#[derive(Drop)]
pub(crate) struct Lock {
    file: File,
    /// Whether it may be written.
    is_writable: bool,
    /// What it said when it was taken, where a stop left it: which new file its command had made.
    left: Option<[u8; NAMING]>,
}

impl Lock {
    // One whose file is open, and not known to be left by a stop.
    fn of(file: File, is_writable: bool) -> Lock {
        Lock {
            file,
            is_writable,
            left: None,
        }
    }

    /// Opens the lock file, makes it where there is none, and waits for its lock. Whoever may change the file that is locked,
    /// of which these are the metadata, may write the lock too, as far as the system lets it. Where another command
    /// removed the lock file meanwhile, its lock holds nobody back, and the next file is tried. One that a stop left is
    /// taken; where it may not be written, or has another name, it is removed, and a new one is made.
    ///
    /// The hindrance is `Occupied` where the file says something else than a lock does; whatever is no file, also a link,
    /// is an error of the system.
    pub(crate) fn take<R: Files<File = File>, W: Waiting>(
        rt: &R,
        path: &str,
        locked: Option<&Metadata>,
        waiting: &mut W,
    ) -> Result<Lock, Hindrance> {
        let mut left = None;
        for _ in 0..TRIES {
            if let Some(mut lock) = opened(rt, path, locked)? {
                match waiting.wait(&lock.file) {
                    Ok(()) if is_at(rt, &lock.file, path) => {
                        left = lock.content()?.or(left);
                        lock.left = left;
                        if lock.is_good()? || fs::remove_file(rt, path).is_err() {
                            return Ok(lock);
                        }
                    }
                    Err(e) if e.kind() != ErrorKind::Interrupted => {
                        return Err(Hindrance::System(e));
                    }
                    _ => {}
                }
            }
        }
        Err(Hindrance::System(io::Error::from(ErrorKind::Interrupted)))
    }

    // What the lock file says. The hindrance is `Occupied` where that is something else than a lock says.
    fn content(&self) -> Result<Option<[u8; NAMING]>, Hindrance> {
        let there = self.file.metadata()?;
        if !there.is_file() {
            return Err(Hindrance::System(io::Error::from(ErrorKind::InvalidInput)));
        }
        if there.len() == 0 {
            return Ok(None);
        }
        let mut content = [0; NAMING];
        if there.len() != NAMING as u64 {
            return Err(Hindrance::Occupied);
        }
        self.file.read_exact_at(&mut content, 0)?;
        if !content.starts_with(&TAG) {
            return Err(Hindrance::Occupied);
        }
        Ok(Some(content))
    }

    // Whether the lock file may be written, and has one name.
    fn is_good(&self) -> io::Result<bool> {
        Ok(self.is_writable && self.file.metadata()?.nlink() == 1)
    }

    /// Whether a stop left it.
    pub(crate) fn is_left(&self) -> bool {
        self.left.is_some()
    }

    /// Whether a stop left it, and it names the file of these metadata.
    pub(crate) fn is_naming(&self, there: &Metadata) -> bool {
        match &self.left {
            Some(left) => *left == naming(there),
            None => false,
        }
    }

    /// Has the lock say nothing any more of what a stop left.
    pub(crate) fn forget(&self) {
        if self.is_left() && self.is_writable {
            let _ = self.file.set_len(0);
        }
    }

    /// Has the lock say that this is its new file, so that whoever finds both after a stop knows it.
    pub(crate) fn name(&self, file: &File) -> io::Result<()> {
        if !self.is_writable {
            return Ok(());
        }
        self.file.write_all_at(&naming(&file.metadata()?), 0)?;
        self.file.sync_data()
    }

    /// Looks whether the lock file is still there: where it is not, the lock holds nobody back. The hindrance is `Lost`.
    pub(crate) fn check<R: Files>(&self, rt: &R, path: &str) -> Result<(), Hindrance> {
        if is_at(rt, &self.file, path) {
            Ok(())
        } else {
            Err(Hindrance::Lost)
        }
    }

    /// Lets other commands take the lock, and removes its file before, unless another stands there by now.
    pub(crate) fn release<R: Files>(self, rt: &R, path: &str) {
        if is_at(rt, &self.file, path) {
            let _ = fs::remove_file(rt, path);
        }
    }
}

/// Whether the lock is held whose file stands at the path; none where that can't be seen. It is taken for a moment where it
/// is free, and nothing is made or changed.
pub(crate) fn is_locked<R: Files<File = File>>(rt: &R, path: &str) -> Option<bool> {
    match standing(rt, path) {
        Ok(None) => return Some(false),
        Ok(Some(there)) if there.is_file() => {}
        _ => return None,
    }
    let file = fs::open(rt, path).ok()?;
    match file.try_lock() {
        Ok(()) => Some(false),
        Err(TryLockError::WouldBlock) => Some(true),
        Err(TryLockError::Error(_)) => None,
    }
}

// What a lock says whose new file has these metadata.
fn naming(there: &Metadata) -> [u8; NAMING] {
    let mut said = [0; NAMING];
    said[..4].copy_from_slice(&TAG);
    said[4..12].copy_from_slice(&there.dev().to_be_bytes());
    said[12..].copy_from_slice(&there.ino().to_be_bytes());
    said
}

// The lock file, made where there is none. It is none where another command removed it meanwhile.
fn opened<R: Files<File = File>>(
    rt: &R,
    path: &str,
    locked: Option<&Metadata>,
) -> io::Result<Option<Lock>> {
    let mode = locked.map_or(SHARED, |there| there.permissions().mode() & 0o777 | PRIVATE);
    match OpenOptions::new()
        .read(true)
        .write(true)
        .create_new(true)
        .mode(mode)
        .open(rt, path)
    {
        Err(e) if e.kind() == ErrorKind::AlreadyExists => opened_there(rt, path),
        made => {
            let file = made?;
            if let Some(there) = locked {
                share(&file, there, mode);
            }
            Ok(Some(Lock::of(file, true)))
        }
    }
}

// Lets whoever may write a file write its lock too, as far as the system lets it.
fn share(lock: &File, there: &Metadata, mode: u32) {
    if fchown(lock, Some(there.uid()), Some(there.gid())).is_err() {
        let _ = fchown(lock, None, Some(there.gid()));
    }
    let _ = lock.set_permissions(Permissions::from_mode(mode));
}

// The lock file that stands there: to be read alone, where it may not be written.
fn opened_there<R: Files<File = File>>(rt: &R, path: &str) -> io::Result<Option<Lock>> {
    match standing(rt, path)? {
        Some(there) if there.is_file() => {}
        Some(_) => return Err(io::Error::from(ErrorKind::InvalidInput)),
        None => return Ok(None),
    }
    match OpenOptions::new().read(true).write(true).open(rt, path) {
        Err(e) if e.kind() == ErrorKind::NotFound => Ok(None),
        Err(e) if e.kind() == ErrorKind::PermissionDenied => match fs::open(rt, path) {
            Err(e) if e.kind() == ErrorKind::NotFound => Ok(None),
            there => Ok(Some(Lock::of(there?, false))),
        },
        there => Ok(Some(Lock::of(there?, true))),
    }
}

/// Whether the file is the one that stands at the path.
pub(crate) fn is_at<R: Files>(rt: &R, file: &File, path: &str) -> bool {
    match (file.metadata(), standing(rt, path)) {
        (Ok(held), Ok(Some(there))) => are_same(&held, &there),
        _ => false,
    }
}
