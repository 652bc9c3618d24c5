//! `census hub`: many sessions at once.

use crate::endpoint::endpoint;
use census_arguments::{FROM_0, SESSIONS, option_of, seconds, with_order};
use census_failure::Failure;
use census_hub::{Limits, hub};
use census_net::Endpoint;
use census_requests::System;
use census_words::CommandRow;
use census_words::words::{self, Choice, Takes};
use clap::ArgMatches;
use std::alloc::Global;
use std::io::Write;

// How long a session of a hub may last.
const LONGEST: Choice = Choice {
    name: "longest",
    takes: Takes::One("SECONDS"),
    meaning: "How long one session may last, 1 to 4294967295 seconds",
    default: Some("600"),
};

// After how many connections a hub ends.
const PEERS: Choice = Choice {
    name: "peers",
    takes: Takes::One("N"),
    meaning: "Ends after so many connections, 0 to 4294967295; without it, not by itself",
    default: None,
};

/// Its row in the table.
pub const ROW: CommandRow = CommandRow {
    name: "hub",
    words: &[words::STATE, words::ADDR],
    options: &[
        words::PATIENCE,
        LONGEST,
        PEERS,
        words::SESSIONS,
        words::MOST,
        words::AUTHORS,
        words::MODE,
    ],
    line: "Serves many `sync` at once, for a whole group",
    about: "Serves connections to an address, many at once and each with its `sync`, until it is ended",
    after: of_sessions!(
        "\
It prints `listening on ADDR:PORT`, with the port that the system gave where 0 was asked for, and
after each session `TIME peer ADDR:PORT new N operations M digest D; I by A, ..`: so many operations
are new, so many there are, the first eight digits of their digest, and how many of the new ones are
by which author. A session that ends early has its fault on standard error, and the hub goes on.
A number that is used twice since has its dot at the end of the line, as `; fork 15.3`. A `sync` is
told that it is done once all that the hub has by then is saved. One that brings a new author where
there would be more than --authors says is refused (Authors), and the table stays as it was; where
the table has more than a clock can say, the line ends `; clock cut by N authors`. With --unix PATH
it listens at a socket of this machine, which it makes and removes again: for ssh -L, containers,
and the users that --mode lets in (600: you alone; 660: your group too). Its peers are `local` then.
",
        "
Exit status: 0 so many peers were served, 1 Load (the file is no state), 2 command line, 3 file,
stream or network, 4 memory

Examples:
  census hub group.state 127.0.0.1:4000
  census hub group.state --unix group.sock --mode 660"
    ),
};

// What is asked: where a state has a session with each of the replicas that connect, within which limits.
#[derive(Clone, Copy)]
struct Hub<'a> {
    endpoint: Endpoint<'a>,
    limits: Limits,
}

/// Reads the words of the command, does it, and gives the exit status.
pub fn command<R, O, E>(
    rt: &R,
    found: &ArgMatches<'_>,
    output: &mut O,
    errors: &mut E,
) -> Result<u8, Failure>
where
    R: System,
    O: Write,
    E: Write,
{
    let asked = with_order(rt.alloc(), &ROW, task(rt.alloc(), found))?;
    run(rt, &asked, output, errors)?;
    Ok(0)
}

// What its words ask for.
fn task<'a>(alloc: Global, found: &ArgMatches<'a>) -> Result<Hub<'a>, Failure> {
    let longest = seconds(alloc, found, LONGEST)?;
    Ok(Hub {
        endpoint: endpoint(alloc, found, Some(longest))?,
        limits: limits(alloc, found)?,
    })
}

// How many peers a hub takes.
fn limits(alloc: Global, found: &ArgMatches<'_>) -> Result<Limits, Failure> {
    Ok(Limits {
        peers: peers(alloc, found)?,
        sessions: option_of(alloc, found, words::SESSIONS, SESSIONS)? as usize,
    })
}

// After how many peers a hub ends.
fn peers(alloc: Global, found: &ArgMatches<'_>) -> Result<u64, Failure> {
    if found.get_str(PEERS.name).is_none() {
        return Ok(u64::MAX);
    }
    Ok(u64::from(option_of(alloc, found, PEERS, FROM_0)?))
}

// Has the sessions, until so many peers were served.
fn run<R, O, E>(rt: &R, asked: &Hub<'_>, output: &mut O, errors: &mut E) -> Result<(), Failure>
where
    R: System,
    O: Write,
    E: Write,
{
    hub(rt, asked.endpoint, asked.limits, output, errors)
}
