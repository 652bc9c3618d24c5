//! The folder of the page that computes nim-values in a browser.

use crate::files::{no_file, read_file, standing};
use crate::site_folder::MARKER;
use census_failure::{Failure, shown};
use census_state::Fault;
use std::alloc::{AllocError, Global};
use std::rt::Files;

/// A file of that page.
#[derive(Drop)]
pub struct PageFile {
    /// What it is called beside the tables of a site.
    pub name: &'static str,
    /// What it holds.
    pub bytes: Vec<u8>,
}

// The page in its own folder, and beside the tables of a site, which have an index of their own.
const OWN: &str = "index.html";

const BESIDE: &str = "compute.html";

// What the page names, as it is called in both folders.
const OTHERS: [&str; 3] = ["page.css", "module.js", "page.js"];

/// The files of the page that this folder has, the page itself last. The fault is `File` where one is missing, can't be read
/// or is a link, and where the folder is a site; `TooLong` where one has more than `INPUT_LIMIT` bytes; and `OutOfMemory`.
pub fn read_page<R>(rt: &R, folder: &str) -> Result<Vec<PageFile>, Failure>
where
    R: Files + AllocGlobal,
{
    check_no_site(rt, folder)?;
    let mut files = Vec::new(rt.alloc());
    for name in &OTHERS {
        add(rt, folder, name, name, &mut files)?;
    }
    add(rt, folder, OWN, BESIDE, &mut files)?;
    Ok(files)
}

/// Whether the page has a file of this name beside the tables of a site.
pub(crate) fn is_of_page(name: &str) -> bool {
    name == BESIDE || OTHERS.iter().any(|other| *other == name)
}

// Refuses a site: what is its index would be taken for the page.
fn check_no_site<R: Files + AllocGlobal>(rt: &R, folder: &str) -> Result<(), Failure> {
    let alloc = rt.alloc();
    let marker = format!(in alloc; "{folder}/{MARKER}")?;
    match standing(rt, marker.as_str()) {
        Ok(None) => Ok(()),
        Ok(Some(_)) => Err(no_page(
            alloc,
            Failure::of(alloc, Fault::File, folder).found(site_text(alloc, folder)),
        )),
        Err(error) => Err(no_page(
            alloc,
            Failure::of(alloc, Fault::File, folder).because(error),
        )),
    }
}

// Adds a file of the folder, under the name that it has beside the tables.
fn add<R: Files + AllocGlobal>(
    rt: &R,
    folder: &str,
    own: &str,
    name: &'static str,
    files: &mut Vec<PageFile>,
) -> Result<(), Failure> {
    let alloc = rt.alloc();
    let path = format!(in alloc; "{folder}/{own}")?;
    match read_plain(rt, path.as_str()) {
        Ok(bytes) => {
            let file = PageFile { name, bytes };
            files.push(file).or(Err(Fault::OutOfMemory))?;
            Ok(())
        }
        Err(failure) if failure.is_missing() => Err(no_page(alloc, failure)),
        Err(failure) => Err(failure),
    }
}

// All the bytes of a file that is no link: what a link leads to is not put where everybody may read it.
fn read_plain<R: Files + AllocGlobal>(rt: &R, path: &str) -> Result<Vec<u8>, Failure> {
    match standing(rt, path) {
        Ok(Some(there)) if there.is_symlink() => Err(no_file(rt.alloc(), path, &there)),
        _ => read_file(rt, path),
    }
}

// The failure of a folder that is not that of the page.
fn no_page(alloc: Global, failure: Failure) -> Failure {
    failure.advise(String::from_str(
        alloc,
        "name the folder of the page: it is `web` where census comes from",
    ))
}

fn site_text(alloc: Global, folder: &str) -> Result<String, AllocError> {
    let folder = shown(alloc, folder)?;
    format!(in alloc; "{folder}: it is a site, and not the folder of the page")
}
