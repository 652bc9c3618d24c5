//! A new file beside another, whose name it takes once it is whole.

use crate::files::standing;
use crate::hindrance::Hindrance;
use crate::lock::{Lock, is_at};
use std::fs::{self, File, Metadata, OpenOptions};
use std::io;
use std::os::unix::fs::{FileExt, MetadataExt, OpenOptionsExt};
use std::rt::Files;

// How the texts begin that a command writes beside a file.
const TAGS: [&[u8]; 4] = [b"OGS1", b"OGD1", b"OGD2", b"OGW1"];

/// A new file that nobody else writes.
#[derive(Drop)]
pub(crate) struct NewText<'a> {
    path: &'a str,
    file: File,
}

impl<'a> NewText<'a> {
    /// Makes the file, with these permissions. A link, a pipe, a file without bytes, or one that has another name, is
    /// removed before where it is in the way, and never written to. The hindrance is `Occupied` where any other file, or a
    /// folder, stands there, which stays as it is.
    pub(crate) fn make<R>(rt: &R, path: &'a str, mode: u32) -> Result<NewText<'a>, Hindrance>
    where
        R: Files<File = File>,
    {
        match standing(rt, path)? {
            Some(there) if is_somebodys(&there) => return Err(Hindrance::Occupied),
            Some(_) => fs::remove_file(rt, path)?,
            None => {}
        }
        let file = OpenOptions::new()
            .write(true)
            .create_new(true)
            .mode(mode)
            .open(rt, path)?;
        Ok(NewText { path, file })
    }

    /// The file.
    pub(crate) fn file(&mut self) -> &mut File {
        &mut self.file
    }

    /// Gives the file the name of another, which goes, while the lock is held. The hindrance is `Lost` where the lock or
    /// the file is not where it was.
    pub(crate) fn take_name<R: Files>(
        &self,
        rt: &R,
        path: &str,
        lock: &Lock,
        lock_path: &str,
    ) -> Result<(), Hindrance> {
        lock.check(rt, lock_path)?;
        if !is_at(rt, &self.file, self.path) {
            return Err(Hindrance::Lost);
        }
        Ok(fs::rename(rt, self.path, path)?)
    }

    /// Removes the file, unless another stands there by now.
    pub(crate) fn remove<R: Files>(self, rt: &R) {
        if is_at(rt, &self.file, self.path) {
            let _ = fs::remove_file(rt, self.path);
        }
    }
}

// Whether something would be lost with what stands there.
fn is_somebodys(there: &Metadata) -> bool {
    there.is_dir() || there.is_file() && there.nlink() == 1 && there.len() > 0
}

/// Removes the new file that a stop left: the one that the lock names which it left too, where that begins as a text of
/// this program does. The lock says nothing of it any more.
pub(crate) fn remove_left<R: Files<File = File>>(rt: &R, path: &str, lock: &Lock) {
    if lock.is_left() {
        if let Ok(true) = is_left(rt, path, lock) {
            let _ = fs::remove_file(rt, path);
        }
        lock.forget();
    }
}

// Whether the lock names the file that stands there, and it begins as a text of this program.
fn is_left<R: Files<File = File>>(rt: &R, path: &str, lock: &Lock) -> io::Result<bool> {
    match standing(rt, path)? {
        Some(there) if there.is_file() => {}
        _ => return Ok(false),
    }
    let file = fs::open(rt, path)?;
    let mut head = [0; 4];
    let count = file.read_at(&mut head, 0)?;
    let begun = head.get(..count).unwrap_or(&[]);
    Ok(lock.is_naming(&file.metadata()?) && TAGS.iter().any(|tag| tag.starts_with(begun)))
}
