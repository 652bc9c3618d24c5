//! Files and streams, as commands may read and change them.
//!
//! Several commands may run at once over one state file, and any of them may be stopped at any moment. No operation is lost
//! by that, since one command at a time changes a file, and a file is replaced whole:
//!
//! - `StateFile` is a file that is held by its `lock`, and replaced by a `new_text` that takes its name, in which a `Text` is
//!   written; what stands in the place of either is a `hindrance` where it is somebody's. By a `FileStamp` a file is known
//!   again, where nothing changed it.
//! - `Out` is where a delta is written: it says what may be written over, and writes in place of a `StateFile` or into a pipe.
//! - `SiteFolder` is a folder that takes the files of a site, and nothing but a site; `read_page` reads the folder of the page
//!   that may stand beside its tables.
//! - `files` reads, and says which file a path leads to: `read_file`, `read_state`, `read_delta`, and their parts.
//! - `streams` has the streams that the program was started with; `Noted` remembers why one failed.
//!
//! What fails is a `Failure`, which names the file.
#![tactic(auto)]

mod file_stamp;
mod files;
mod hindrance;
mod lock;
mod new_text;
mod out_file;
mod page_folder;
mod site_folder;
mod state_file;
mod streams;

pub use file_stamp::FileStamp;
pub use files::{
    check_length, exists, is_same_file, open_file, read_delta, read_file, read_open, read_state,
    stateless,
};
pub use out_file::{Out, Replaced, check_apart};
pub use page_folder::{PageFile, read_page};
pub use site_folder::SiteFolder;
pub use state_file::{StateFile, Text};
pub use streams::{Noted, is_standard, read_standard};
