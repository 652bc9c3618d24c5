//! What a state file says before a session, and is to hold after it.

use census_diagnosis::{Given, of_state};
use census_failure::Failure;
use census_files::{FileStamp, StateFile, Text, open_file, read_open, read_state, stateless};
use census_state::{Fault, Reply, is_too_long, rejoin, rejoined_text, unchanged, write_state};
use oct_ops::{Dot, Op};
use oct_record::Record;
use std::alloc::Global;
use std::fs::{self, File};
use std::io::{self, ErrorKind};
use std::rt::Files;

// How many operations a state has at most.
const MOST_OPERATIONS: usize = u32::MAX as usize;

/// What stands in a state after a session.
#[derive(Drop)]
pub struct Saved {
    /// How many operations are new to the file, and how many there are.
    pub text: Vec<u8>,
    /// An operation by the state's own number that its file never held; none where there is none.
    pub foreign: Option<Dot>,
}

/// A state file as it was when it was last read or written. While it is open, no other has its inode.
#[derive(Drop)]
pub struct Standing {
    file: File,
    stamp: FileStamp,
}

impl Standing {
    /// The file that stands at the path. The fault is `File`.
    pub fn at<R>(rt: &R, state: &str) -> Result<Standing, Failure>
    where
        R: Files<File = File> + AllocGlobal,
    {
        let file = match open_file(rt, state) {
            Ok(file) => file,
            Err(failure) => return Err(stateless(rt.alloc(), failure, state)),
        };
        match file.metadata() {
            Ok(there) => Ok(Standing {
                file,
                stamp: FileStamp::of(&there),
            }),
            Err(error) => Err(Failure::of(rt.alloc(), Fault::File, state).because(error)),
        }
    }

    /// All its bytes. What is written into it meanwhile is seen afterwards. The fault is `File`, `TooLong` or `OutOfMemory`.
    pub fn read(&mut self, alloc: Global, state: &str) -> Result<Vec<u8>, Failure> {
        read_open(alloc, &mut self.file, state)
    }

    /// Whether it stands at the path still, and was not changed since. Nothing of it is read.
    pub fn stands<R: Files>(&self, rt: &R, state: &str) -> bool {
        match fs::metadata(rt, state) {
            Ok(there) => FileStamp::of(&there) == self.stamp,
            Err(_) => false,
        }
    }
}

/// What a state says, and what a session brings to it.
#[derive(Drop)]
pub struct Loaded {
    said: Record<Global>,
    /// The file from which it was read.
    standing: Standing,
    /// How many operations that has, and how many of them by its own author.
    count: usize,
    own: usize,
}

impl Loaded {
    /// What a state file says, and its bytes. No nim-value is computed. The fault is `File`, `TooLong`, `Load` or `OutOfMemory`.
    pub fn read<R>(rt: &R, state: &str) -> Result<(Loaded, Vec<u8>), Failure>
    where
        R: Files<File = File> + AllocGlobal,
    {
        let mut standing = Standing::at(rt, state)?;
        let bytes = standing.read(rt.alloc(), state)?;
        let said = record_of(rt.alloc(), state, &bytes)?;
        let loaded = Loaded {
            count: said.len(),
            own: own_count(&said),
            said,
            standing,
        };
        Ok((loaded, bytes))
    }

    /// What the state says, and what the session brought.
    pub fn said(&self) -> &Record<Global> {
        &self.said
    }

    /// The same, for a session that takes what comes.
    pub fn said_mut(&mut self) -> &mut Record<Global> {
        &mut self.said
    }

    /// Saves the union of what the state file holds now and what is held, while no other command changes the file. Where it
    /// stands as it was read, it is not read again, and not written where the session brought nothing.
    pub fn save<R>(&self, rt: &R, state: &str) -> Result<Saved, Failure>
    where
        R: Files<File = File> + AllocGlobal,
    {
        if self.said.len() == self.count && self.standing.stands(rt, state) {
            return Ok(Saved {
                text: unchanged(rt.alloc(), &self.said)?,
                foreign: None,
            });
        }
        let file = StateFile::wait(rt, state)?;
        let saved = self.save_held(rt, &file, state);
        file.release(rt);
        saved
    }

    // The same, while no other command changes the file. It is read again where an operation came by the state's own number, which
    // is looked for there.
    fn save_held<R>(&self, rt: &R, file: &StateFile, state: &str) -> Result<Saved, Failure>
    where
        R: Files<File = File> + AllocGlobal,
    {
        if own_count(&self.said) == self.own && self.standing.stands(rt, state) {
            return save_grown(rt, file, state, self.count, &self.said);
        }
        save_held(rt, file, state, &self.said)
    }
}

// How many operations are by the state's own author.
fn own_count(said: &Record<Global>) -> usize {
    let author = said.author();
    let is_own = |op: &&Op<Global>| op.dot().author() == author;
    said.store().iter().filter(is_own).count()
}

/// What the state of this name says. The fault is `Load`, and `OutOfMemory`.
pub fn record_of(alloc: Global, name: &str, bytes: &[u8]) -> Result<Record<Global>, Failure> {
    match Record::load(alloc, bytes) {
        Ok(said) => Ok(said),
        Err(cause) => Err(of_state(alloc, cause, Given { name, bytes })),
    }
}

/// Saves the union of what the state file holds now and what is held, while no other command changes the file.
pub fn save_held<R>(
    rt: &R,
    file: &StateFile,
    state: &str,
    said: &Record<Global>,
) -> Result<Saved, Failure>
where
    R: Files<File = File> + AllocGlobal,
{
    let bytes = read_state(rt, state)?;
    let rejoined = match rejoin(rt.alloc(), &bytes, said) {
        Ok(rejoined) => rejoined,
        Err(fault) => return Err(unjoined(rt.alloc(), fault, state, &bytes)),
    };
    Ok(Saved {
        foreign: rejoined.foreign,
        text: written(rt, file, rejoined.reply)?,
    })
}

/// Saves what is held, where the file holds nothing else, and so many operations of it. It is written as it is put together, so
/// that no memory is taken for its text. The fault is `TooMany`, `TooLong`, or that of the file.
pub fn save_grown<R>(
    rt: &R,
    file: &StateFile,
    state: &str,
    before: usize,
    said: &Record<Global>,
) -> Result<Saved, Failure>
where
    R: Files<File = File> + AllocGlobal,
{
    if before > said.len() {
        return Err(Failure::of(rt.alloc(), Fault::File, state));
    }
    if said.len() > MOST_OPERATIONS {
        return Err(Failure::from(Fault::TooMany));
    }
    if is_too_long(said) {
        return Err(Failure::of(rt.alloc(), Fault::TooLong, state));
    }
    let text = rejoined_text(rt.alloc(), before, said)?;
    file.replace_by(rt, &StateText { said })?;
    Ok(Saved {
        text,
        foreign: None,
    })
}

// The text of the state of what was said.
#[derive(Clone, Copy)]
struct StateText<'a> {
    said: &'a Record<Global>,
}

impl Text for StateText<'_> {
    fn write_to(&self, file: &mut File) -> io::Result<()> {
        if self.said.len() > MOST_OPERATIONS {
            return Err(io::Error::from(ErrorKind::InvalidInput));
        }
        write_state(self.said, file)
    }
}

// Writes the state of the reply, and gives its text.
fn written<R>(rt: &R, file: &StateFile, reply: Reply) -> Result<Vec<u8>, Failure>
where
    R: Files<File = File> + AllocGlobal,
{
    if let Some(text) = &reply.state {
        file.replace(rt, text)?;
    }
    Ok(reply.text)
}

// The failure of a state to which a session is not added.
fn unjoined(alloc: Global, fault: Fault, name: &str, bytes: &[u8]) -> Failure {
    match fault {
        Fault::Load(cause) => of_state(alloc, cause, Given { name, bytes }),
        _ => Failure::of(alloc, fault, name),
    }
}
