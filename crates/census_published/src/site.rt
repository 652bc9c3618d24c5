//! `census site`: all that is known, as a folder of pages.

use crate::watched;
use census_arguments::{with_order, word};
use census_core::{Beside, Fault, Folder, GameProgress, ProvedPeriods, write_site};
use census_diagnosis::{Given, of_state};
use census_failure::{Audience, Failure};
use census_files::{PageFile, SiteFolder, read_page, read_state};
use census_progress::ProgressLine;
use census_requests::{System, recheck_long};
use census_words::CommandRow;
use census_words::words::{self, Choice, Takes, Times, Word};
use clap::ArgMatches;
use oct_code::Code;
use std::alloc::Global;
use std::fs::File;
use std::io::Write;
use std::rt::Files;
use std::time::Clock;

// The folder of a site.
const DIR: Word = Word {
    name: "DIR",
    meaning: "The folder of the site, which is made, or a site that is replaced",
    times: Times::One,
};

// The page that is put beside a site.
const WEB: Choice = Choice {
    name: "web",
    takes: Takes::One("FOLDER"),
    meaning: "Puts the page that computes in the browser, which this folder has, beside the tables",
    default: None,
};

// Whether a site has the long periods that notes say searched again.
const RECHECK: Choice = Choice {
    name: "recheck",
    takes: Takes::Nothing,
    meaning: "Searches again for the long periods that notes say, and shows those that are so as proved",
    default: None,
};

/// Its row in the table.
pub const ROW: CommandRow = CommandRow {
    name: "site",
    words: &[words::STATE, DIR],
    options: &[WEB, RECHECK],
    line: "All that is known, as a folder of pages for a web server",
    about: "Makes all that is known a site: a folder of pages that any web server shows as it is",
    after: "\
index.html has the tables of all games, the notes, forks and authors. Each game has CODE.html, with its
picture CODE.svg, all its known values as the b-file CODE.txt, and CODE.json. DIR is made, or where a
site stands there each file of it is replaced whole, and those of games that are gone are removed. A
folder that has anything else is not written to: that is the fault Occupied. The same operations make
the same bytes.

With --web the page that computes in the browser stands beside the tables, as compute.html with three
files more, and each game has a link to it; FOLDER is that of the page, `web` where census comes from.
Another site without --web has neither.

With --recheck each period that a live note says and that takes more than 65,536 values is searched for
again before the site is written, as census recheck does it. Where it is so, the page of the game says
that this program proved it, in place of what the known values prove, and so does a table of the index.
Where it is not so, it stays as what somebody says, its line is told on standard error, and the site is
written all the same.

Exit status: 0 done, 1 with --recheck a note that is not so, or refused: Load (the file is no state),
PastValue (with --recheck a value is above 65535); 2 command line, 3 file, 4 memory

Examples:
  census site anna.state public
  census site anna.state public --web web
  census site anna.state public --recheck",
};

/// What is asked: the site of a state file, in a folder, with the page that another folder has, where one is named.
#[derive(Drop)]
pub(crate) struct Site<'a> {
    state: &'a str,
    folder: &'a str,
    page: Option<&'a str>,
    /// Whether the long periods that notes say are searched for again.
    rechecks: bool,
}

/// Reads the words of the command, does it, and gives the exit status.
pub fn command<R, E>(
    rt: &R,
    found: &ArgMatches<'_>,
    errors: &mut E,
    audience: Audience,
) -> Result<u8, Failure>
where
    R: System,
    E: Write,
{
    let asked = with_order(rt.alloc(), &ROW, task(found))?;
    watched::site(rt, &asked, errors, audience)
}

// What its words ask for.
fn task<'a>(found: &ArgMatches<'a>) -> Result<Site<'a>, Failure> {
    Ok(Site {
        state: word(found, words::STATE)?,
        folder: word(found, DIR)?,
        page: found.get_str(WEB.name),
        rechecks: found.get_flag(RECHECK.name),
    })
}

/// Makes the site of a state file in a folder, which is made where there is none, or replaces the site that stands there:
/// each file is written beside and takes its name whole, and those of games that are gone are removed. One command at a
/// time writes the folder. Where the folder of the page that computes is named, its files are put beside the tables. The
/// fault is that of the state, `File` and `TooLong` of a file of that page, and `Occupied` where something stands there that
/// is no folder, or a folder that has anything but a site; after these nothing is changed. It is `File` where the folder
/// can't be written, with each file of it old or new.
///
/// Where that is asked for, the long periods that notes say are searched for before, and those that are so are shown as proved. The
/// status is 1 where one of them is not so, and else 0.
pub(crate) fn run<R, E>(
    rt: &R,
    asked: &Site<'_>,
    progress: &mut ProgressLine<'_, R, E>,
) -> Result<u8, Failure>
where
    R: Files<File = File> + AllocGlobal + Clock + Clone + Drop,
    E: Write,
{
    let bytes = read_state(rt, asked.state)?;
    let page = match asked.page {
        Some(folder) => read_page(rt, folder)?,
        None => Vec::new(rt.alloc()),
    };
    let mut proved = ProvedPeriods::new(rt.alloc());
    let mut status = 0;
    if asked.rechecks {
        status = recheck_long(rt, asked.state, &bytes, &mut proved, progress)?;
    }
    let Err(failure) = filled(rt, &bytes, &page, &proved, asked.folder, progress) else {
        return Ok(status);
    };
    match failure.fault {
        Fault::Load(cause) => Err(of_state(rt.alloc(), cause, Given::new(asked.state, &bytes))),
        _ => Err(failure),
    }
}

// Makes the site of these bytes of a state in the folder.
fn filled<'a, R, E>(
    rt: &'a R,
    bytes: &[u8],
    page: &[PageFile],
    proved: &ProvedPeriods<Global>,
    path: &'a str,
    progress: &'a mut ProgressLine<'_, R, E>,
) -> Result<(), Failure>
where
    R: Files<File = File> + AllocGlobal + Clock + Clone + Drop,
    E: Write,
{
    let mut site = WatchedFolder {
        folder: SiteFolder::open(rt, path)?,
        progress,
    };
    let put = match write_site(rt.alloc(), bytes, beside(page), proved, &mut site) {
        Ok(()) => put_page(page, &mut site.folder),
        Err(fault) => Err(fault),
    };
    site.progress.clear();
    site.folder.close(put)
}

// What stands beside the tables, where these are the files of the page.
fn beside(page: &[PageFile]) -> Beside {
    if page.is_empty() {
        Beside::Nothing
    } else {
        Beside::Page
    }
}

// Puts the files of the page there.
fn put_page<R>(page: &[PageFile], folder: &mut SiteFolder<'_, R>) -> Result<(), Fault>
where
    R: Files<File = File> + AllocGlobal + Clock + Clone + Drop,
{
    for file in page {
        folder.put(file.name.as_bytes(), &file.bytes)?;
    }
    Ok(())
}

// A folder that no other command writes into from its first file on, with the line that says which game is next.
#[derive(Drop)]
struct WatchedFolder<'a, 'b, R, E> {
    folder: SiteFolder<'a, R>,
    progress: &'a mut ProgressLine<'b, R, E>,
}

impl<'a, 'b, R, E> Folder for WatchedFolder<'a, 'b, R, E>
where
    R: Files<File = File> + AllocGlobal + Clock + Clone + Drop,
    E: Write,
{
    ghost puts = { λ old name bytes new. Unit {0} };

    ghost refuses = { λ fault. Unit {0} };

    fn put(&mut self, name: &[u8], bytes: &[u8]) -> Result<(), Fault> {
        if !self.folder.is_locked() {
            self.folder.lock(self.progress.advice())?;
        }
        self.folder.put(name, bytes)
    }

    fn tell(&mut self, code: Code, done: u64, all: u64) {
        GameProgress::tell(self.progress, code, done, all)
    }
}
