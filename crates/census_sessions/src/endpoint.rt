//! Where a state meets its peers, as words say it.

use census_arguments::{FROM_1, mode, option_of, seconds, word};
use census_failure::Failure;
use census_net::{Allowance, Endpoint, Location, Patience};
use census_words::words;
use clap::ArgMatches;
use std::alloc::Global;
use std::time::Duration;

/// Where a state has one session.
#[derive(Clone, Copy)]
pub(crate) enum Meeting<'a> {
    /// At an address, or at a socket.
    At(Endpoint<'a>),
    /// Over standard input and output.
    Streams {
        state: &'a str,
        allowance: Allowance,
    },
}

impl<'a> Meeting<'a> {
    /// The path of the state file.
    pub(crate) fn state(self) -> &'a str {
        match self {
            Meeting::At(endpoint) => endpoint.state,
            Meeting::Streams { state, .. } => state,
        }
    }
}

/// Where a state has one session, as the words say.
pub(crate) fn meeting_of<'a>(
    alloc: Global,
    found: &ArgMatches<'a>,
) -> Result<Meeting<'a>, Failure> {
    if found.get_flag(words::STDIO.name) {
        return Ok(Meeting::Streams {
            state: word(found, words::STATE)?,
            allowance: allowance(alloc, found)?,
        });
    }
    Ok(Meeting::At(endpoint(alloc, found, None)?))
}

/// Where a state meets its peers; a session lasts no longer than this, where it is said.
pub(crate) fn endpoint<'a>(
    alloc: Global,
    found: &ArgMatches<'a>,
    session: Option<Duration>,
) -> Result<Endpoint<'a>, Failure> {
    Ok(Endpoint {
        state: word(found, words::STATE)?,
        location: location(alloc, found)?,
        patience: Patience {
            silence: seconds(alloc, found, words::PATIENCE)?,
            session,
        },
        allowance: allowance(alloc, found)?,
    })
}

// How much one peer may bring, as the words say. The options of a hub have the names of those of one session.
fn allowance(alloc: Global, found: &ArgMatches<'_>) -> Result<Allowance, Failure> {
    Ok(Allowance {
        most: u64::from(option_of(alloc, found, words::MOST, FROM_1)?),
        authors: option_of(alloc, found, words::AUTHORS, FROM_1)?,
    })
}

// The socket that is named, or else the address.
fn location<'a>(alloc: Global, found: &ArgMatches<'a>) -> Result<Location<'a>, Failure> {
    match found.get_str(words::UNIX.name) {
        Some(path) => Ok(Location::Socket {
            path,
            mode: mode(alloc, found)?,
        }),
        None => Ok(Location::Address(word(found, words::ADDR)?)),
    }
}
