//! The commands of the program, from all crates of commands: what each is called, and where its row stands in the help.
//!
//! What is said of a command beside its file stands here: its chapter, and its line in `Call`. The `use` lines say in which
//! crate a command stands.

use crate::{completion, explain, manual};
use census_by_files::{delta, diff, digest, fold, left, log, merge, read, union};
use census_core::Fault;
use census_failure::Failure;
use census_own_state::{
    claim, compute, extend, import, init, note, period, renumber, status, survey, unnote,
};
use census_published::{bfile, find, games, json, page, plot, report, show, site, sqlite};
use census_requests::{Readers, System};
use census_searches::{check, recheck, search, value, winning_move};
use census_sessions::{hub, serve, sync};
use census_words::{Chapter, CommandRow};
use clap::ArgMatches;
use std::io::{Read, Write};
use std::random::RandomSource;

/// Whether the command of this name is one that nobody watches, as a hub: its faults are explained all the same.
pub fn is_unwatched(name: &str) -> bool {
    name == hub::ROW.name
}

/// All commands, in the order in which the help has them. Each chapter has a function that gives its rows, so that whoever goes over
/// all of them need not be checked with each of their texts; so has it one in `Call` that does its commands.
pub fn chapters() -> [Chapter; 8] {
    [
        of_files(),
        without_state(),
        states(),
        many_games(),
        what_is_known(),
        published(),
        by_files(),
        by_sessions(),
    ]
}

const OF_FILES: &[CommandRow] = &[fold::ROW, read::ROW, log::ROW, diff::ROW, left::ROW];

fn of_files() -> Chapter {
    Chapter {
        title: "Without a state, of files",
        rows: OF_FILES,
    }
}

const ALONE: &[CommandRow] = &[
    search::ROW,
    check::ROW,
    explain::ROW,
    completion::ROW,
    manual::ROW,
];

fn without_state() -> Chapter {
    Chapter {
        title: "Without a state",
        rows: ALONE,
    }
}

const OWN: &[CommandRow] = &[
    init::ROW,
    renumber::ROW,
    import::ROW,
    claim::ROW,
    compute::ROW,
    period::ROW,
    note::ROW,
    unnote::ROW,
    status::ROW,
];

fn states() -> Chapter {
    Chapter {
        title: "A state file of one's own",
        rows: OWN,
    }
}

const MANY: &[CommandRow] = &[extend::ROW, survey::ROW];

fn many_games() -> Chapter {
    Chapter {
        title: "Many games of a state file",
        rows: MANY,
    }
}

const KNOWN: &[CommandRow] = &[
    show::ROW,
    games::ROW,
    page::ROW,
    find::ROW,
    value::ROW,
    winning_move::ROW,
    recheck::ROW,
];

fn what_is_known() -> Chapter {
    Chapter {
        title: "What is known",
        rows: KNOWN,
    }
}

const PUBLISHED: &[CommandRow] = &[
    bfile::ROW,
    plot::ROW,
    json::ROW,
    sqlite::ROW,
    report::ROW,
    site::ROW,
];

fn published() -> Chapter {
    Chapter {
        title: "What is known, to publish",
        rows: PUBLISHED,
    }
}

const FILES: &[CommandRow] = &[delta::ROW, merge::ROW, union::ROW, digest::ROW];

fn by_files() -> Chapter {
    Chapter {
        title: "With others, by files",
        rows: FILES,
    }
}

const SESSIONS: &[CommandRow] = &[serve::ROW, sync::ROW, hub::ROW];

fn by_sessions() -> Chapter {
    Chapter {
        title: "With others, by sessions",
        rows: SESSIONS,
    }
}

/// A command that is called: by which name and with which words, what it reads and writes, and who reads that.
#[derive(Drop)]
pub struct Call<'a, 'w, R, I, O, E> {
    pub rt: &'a R,
    pub name: &'a str,
    pub found: &'a ArgMatches<'w>,
    pub input: &'a mut I,
    pub output: &'a mut O,
    pub errors: &'a mut E,
    pub readers: Readers,
}

impl<R, I, O, E> Call<'_, '_, R, I, O, E>
where
    R: System + RandomSource,
    I: Read,
    O: Write,
    E: Write,
{
    /// Does it, and gives the exit status: 0, or 1 where a file was checked and is not right.
    ///
    /// All its words are read before anything is done. The fault of these is `Number` where a word is no number of its range,
    /// `Code` where a word of a search or of a list is no code, `Words` where one is missing or does not go with another, or no
    /// command has this name, `File` or `Read` where a list can't be read, `File` where a number is to be drawn and the system
    /// draws none, and `OutOfMemory`.
    pub fn run(&mut self) -> Result<u8, Failure> {
        self.run_of_files()
    }

    // One of the first chapter, or of a later one.
    fn run_of_files(&mut self) -> Result<u8, Failure> {
        let (rt, found, audience) = (self.rt, self.found, self.readers.audience);
        match self.name {
            "fold" => fold::command(rt, self.input, self.output, self.errors),
            "read" => read::command(rt, found, self.output, self.errors, audience),
            "log" => log::command(rt, found, self.output),
            "diff" => diff::command(rt, found, self.input, self.output),
            "left" => left::command(rt, found, self.input, self.output),
            _ => self.run_without_state(),
        }
    }

    // One of this chapter, or of a later one.
    fn run_without_state(&mut self) -> Result<u8, Failure> {
        let (rt, found, audience) = (self.rt, self.found, self.readers.audience);
        match self.name {
            "search" => search::command(rt, found, self.input, self.output, self.errors, audience),
            "check" => check::command(rt, found, self.input, self.output, self.errors, audience),
            "explain" => explain::command(rt, found, self.output),
            "completion" => completion::command(rt, found, self.output),
            "manual" => manual::command(rt, self.output),
            _ => self.run_own_state(),
        }
    }

    // One of this chapter, or of a later one.
    fn run_own_state(&mut self) -> Result<u8, Failure> {
        let (rt, found, audience) = (self.rt, self.found, self.readers.audience);
        match self.name {
            "init" => init::command(rt, found, self.output),
            "renumber" => renumber::command(
                rt,
                found,
                self.input,
                self.output,
                self.errors,
                audience,
            ),
            "import" => import::command(rt, found, self.input, self.output, self.errors, audience),
            "claim" => claim::command(rt, found, self.input, self.output, self.errors, audience),
            "compute" => compute::command(
                rt,
                found,
                self.input,
                self.output,
                self.errors,
                audience,
            ),
            "period" => period::command(rt, found, self.input, self.output, self.errors, audience),
            "note" => note::command(rt, found, self.input, self.output, self.errors, audience),
            "unnote" => unnote::command(rt, found, self.input, self.output, self.errors, audience),
            "status" => status::command(rt, found, self.output),
            _ => self.run_many_games(),
        }
    }

    // One of this chapter, or of a later one.
    fn run_many_games(&mut self) -> Result<u8, Failure> {
        let (rt, found, audience) = (self.rt, self.found, self.readers.audience);
        match self.name {
            "extend" => extend::command(rt, found, self.input, self.output, self.errors, audience),
            "survey" => survey::command(rt, found, self.input, self.output, self.errors, audience),
            _ => self.run_what_is_known(),
        }
    }

    // One of this chapter, or of a later one.
    fn run_what_is_known(&mut self) -> Result<u8, Failure> {
        let (rt, found, audience) = (self.rt, self.found, self.readers.audience);
        match self.name {
            "show" => show::command(rt, found, self.input, self.output, self.errors, audience),
            "games" => games::command(
                rt,
                found,
                self.input,
                self.output,
                self.errors,
                self.readers,
            ),
            "page" => page::command(rt, found, self.output, self.errors, audience),
            "find" => find::command(rt, found, self.input, self.output, self.errors, audience),
            "value" => value::command(rt, found, self.output, self.errors, audience),
            "move" => winning_move::command(rt, found, self.output, self.errors, audience),
            "recheck" => recheck::command(rt, found, self.output, self.errors, audience),
            _ => self.run_published(),
        }
    }

    // One of this chapter, or of a later one.
    fn run_published(&mut self) -> Result<u8, Failure> {
        let (rt, found, audience) = (self.rt, self.found, self.readers.audience);
        match self.name {
            "bfile" => bfile::command(rt, found, self.output, self.errors, audience),
            "plot" => plot::command(rt, found, self.output, self.errors, audience),
            "json" => json::command(rt, found, self.input, self.output, self.errors, audience),
            "sqlite" => sqlite::command(rt, found, self.output, self.errors, audience),
            "report" => report::command(rt, found, self.input, self.output, self.errors, audience),
            "site" => site::command(rt, found, self.errors, audience),
            _ => self.run_by_files(),
        }
    }

    // One of this chapter, or of a later one.
    fn run_by_files(&mut self) -> Result<u8, Failure> {
        let (rt, found, audience) = (self.rt, self.found, self.readers.audience);
        match self.name {
            "delta" => delta::command(rt, found, self.input, self.output, self.errors, audience),
            "merge" => merge::command(rt, found, self.input, self.output, self.errors, audience),
            "union" => union::command(rt, found, self.input, self.output, self.errors, audience),
            "digest" => digest::command(rt, found, self.output, self.errors, audience),
            _ => self.run_by_sessions(),
        }
    }

    // One of the last chapter.
    fn run_by_sessions(&mut self) -> Result<u8, Failure> {
        let (rt, found, audience) = (self.rt, self.found, self.readers.audience);
        match self.name {
            "serve" => serve::command(rt, found, self.input, self.output, self.errors, audience),
            "sync" => sync::command(rt, found, self.input, self.output, self.errors, audience),
            "hub" => hub::command(rt, found, self.output, self.errors),
            _ => Err(Failure::from(Fault::Words)),
        }
    }
}
