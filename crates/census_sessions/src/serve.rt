//! `census serve`: one session with whoever connects.

use crate::endpoint::{Meeting, meeting_of};
use crate::watched;
use census_arguments::{is_quiet, with_order};
use census_failure::{Advice, Audience, Failure};
use census_net::{serve, serve_over};
use census_requests::{System, print_unless, tell_done};
use census_words::{CommandRow, words};
use clap::ArgMatches;
use std::alloc::Global;
use std::fs::File;
use std::io::{Read, Write};
use std::net::{Net, TcpListener, TcpStream};
use std::rt::Files;
use std::time::Clock;

/// Its row in the table.
pub const ROW: CommandRow = CommandRow {
    name: "serve",
    words: &[words::STATE, words::PEER],
    options: &[
        words::PATIENCE,
        words::MOST_OF_ONE,
        words::AUTHORS_OF_ONE,
        words::MODE,
        words::QUIET,
    ],
    line: "Waits for one `sync`, and exchanges all that is new",
    about: "Waits for one connection to an address, and exchanges all that is new with its `sync`",
    after: of_sessions!(
        "",
        "
With --stdio the session goes over standard input and output, and `done` is written to standard
error; nothing is listened to, and --patience counts for nothing. So a line of authorized_keys with
command=\"census serve --stdio group.state\",restrict lets whoever has that key sync, and nothing else.

Exit status: 0 done, 1 refused: Load (the state), Sync (the other side's bytes), Authors, Author,
TooMany; 2 command line, 3 file or network, 4 memory

Examples:
  census serve anna.state 127.0.0.1:4000
  census serve --stdio anna.state"
    ),
};

/// What is asked: where a state has one session with a replica that connects.
#[derive(Clone, Copy)]
pub(crate) struct Served<'a> {
    meeting: Meeting<'a>,
    is_quiet: bool,
}

/// Reads the words of the command, does it, and gives the exit status.
pub fn command<R, I, O, E>(
    rt: &R,
    found: &ArgMatches<'_>,
    input: &mut I,
    output: &mut O,
    errors: &mut E,
    audience: Audience,
) -> Result<u8, Failure>
where
    R: System,
    I: Read,
    O: Write,
    E: Write,
{
    let asked = with_order(rt.alloc(), &ROW, task(rt.alloc(), found))?;
    watched::serve(rt, &asked, input, output, errors, audience)?;
    Ok(0)
}

// What its words ask for.
fn task<'a>(alloc: Global, found: &ArgMatches<'a>) -> Result<Served<'a>, Failure> {
    Ok(Served {
        meeting: meeting_of(alloc, found)?,
        is_quiet: is_quiet(found),
    })
}

/// Has the session, and says that it is done.
pub(crate) fn run<R, I, O, E>(
    rt: &R,
    asked: &Served<'_>,
    input: &mut I,
    output: &mut O,
    advice: &mut Advice<'_, E>,
) -> Result<(), Failure>
where
    R: Files<File = File> + AllocGlobal + Net<Stream = TcpStream, Listener = TcpListener> + Clock,
    I: Read,
    O: Write,
    E: Write,
{
    match asked.meeting {
        Meeting::At(endpoint) => {
            serve(rt, endpoint, advice)?;
            print_unless(asked.is_quiet, b"done\n", output)
        }
        Meeting::Streams { state, allowance } => {
            serve_over(rt, state, allowance, input, output, advice)?;
            tell_done(asked.is_quiet, advice.errors());
            Ok(())
        }
    }
}
