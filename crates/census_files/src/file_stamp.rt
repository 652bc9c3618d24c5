//! By what a file is known again.

use std::fs::Metadata;
use std::os::unix::fs::MetadataExt;

/// Which file it was, and when it was last changed.
#[derive(Clone, Copy, PartialEq, Eq, Drop)]
pub struct FileStamp {
    device: u64,
    inode: u64,
    size: u64,
    seconds: i64,
    nanoseconds: i64,
}

impl FileStamp {
    /// The file of these metadata.
    pub fn of(there: &Metadata) -> FileStamp {
        FileStamp {
            device: there.dev(),
            inode: there.ino(),
            size: there.size(),
            seconds: there.ctime(),
            nanoseconds: there.ctime_nsec(),
        }
    }
}
