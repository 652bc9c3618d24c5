//! `census sync`: one session with whoever serves, and what became of what it brought.

use crate::endpoint::{Meeting, meeting_of};
use crate::watched;
use census_arguments::{is_quiet, with_order};
use census_core::Fault;
use census_failure::{Advice, Audience, Failure};
use census_net::{Agreement, Loaded, sync, sync_over};
use census_progress::{is_told, say_of_records};
use census_requests::change::warn_of_forks;
use census_requests::{System, print_unless, tell_done};
use census_words::CommandRow;
use census_words::words::{self, Choice, Takes};
use clap::ArgMatches;
use oct_record::Record;
use oct_sync::Role;
use std::alloc::Global;
use std::fs::File;
use std::io::{Read, Write};
use std::net::{Net, TcpListener, TcpStream};
use std::rt::Files;
use std::time::Clock;

// Whether a session exchanges all operations.
const ALL: Choice = Choice {
    name: "all",
    takes: Takes::Nothing,
    meaning: "Exchanges all operations, and not only what each side is seen to lack",
    default: None,
};

// Whether a session takes nothing in.
const GIVE: Choice = Choice {
    name: "give",
    takes: Takes::Nothing,
    meaning: "Sends what the other side lacks, and takes nothing in",
    default: None,
};

/// Its row in the table.
pub const ROW: CommandRow = CommandRow {
    name: "sync",
    words: &[words::STATE, words::PEER],
    options: &[
        ALL,
        GIVE,
        words::PATIENCE,
        words::MOST_OF_ONE,
        words::AUTHORS_OF_ONE,
        words::QUIET,
    ],
    line: "Exchanges all that is new with a `serve` or a `hub`",
    about: "Connects to an address, and exchanges all that is new with the `serve` or `hub` there",
    after: of_sessions!(
        "\
Each side says how far it has each author's numbers, and is sent what is beyond. So where one number
was used by two, each side may have it, with what only it knows, and is sent nothing. The other side
says what both should hold now, by a digest, where it is a `serve` or `hub` of census 2.2 or later;
where this is not what is held here, the fault is `Apart`, after `done`. `sync --all` takes and sends
everything, whatever either side says it has. It brings both to one set, and forks then show on both.
`sync --give` sends what the other side lacks, and takes nothing: many parts of a table are so given
to one hub, and stay parts.

",
        "
With --stdio the session goes over standard input and output, and `done` is written to standard
error; --patience counts for nothing then. So ssh gives encryption, keys, and who may come in.

Exit status: 0 done, 1 refused: Load (the state), Sync (the other side's bytes), Authors, Author,
TooMany, Apart (a number was used twice); 2 command line, 3 file or network, 4 memory

Examples, the last over ssh:
  census sync ben.state 127.0.0.1:4000
  census sync ben.state --unix group.sock
  mkfifo p; census sync --stdio ben.state < p | ssh hub.example.org census serve --stdio a.state > p"
    ),
};

/// What is asked: where a state has one session with a replica that serves, and as which kind of client.
#[derive(Clone, Copy)]
pub(crate) struct Synced<'a> {
    meeting: Meeting<'a>,
    role: Role,
    is_quiet: bool,
}

/// Reads the words of the command, does it, and gives the exit status.
pub fn command<R, I, O, E>(
    rt: &R,
    found: &ArgMatches<'_>,
    input: &mut I,
    output: &mut O,
    errors: &mut E,
    audience: Audience,
) -> Result<u8, Failure>
where
    R: System,
    I: Read,
    O: Write,
    E: Write,
{
    let asked = with_order(rt.alloc(), &ROW, task(rt.alloc(), found))?;
    watched::sync(rt, &asked, input, output, errors, audience)?;
    Ok(0)
}

// What its words ask for.
fn task<'a>(alloc: Global, found: &ArgMatches<'a>) -> Result<Synced<'a>, Failure> {
    Ok(Synced {
        meeting: meeting_of(alloc, found)?,
        role: role(found)?,
        is_quiet: is_quiet(found),
    })
}

// Which client the session has. To exchange all and to take nothing do not go together: that is `Words`.
fn role(found: &ArgMatches<'_>) -> Result<Role, Failure> {
    match (found.get_flag(ALL.name), found.get_flag(GIVE.name)) {
        (true, true) => Err(Failure::from(Fault::Words)),
        (true, false) => Ok(Role::ClientOfAll),
        (false, true) => Ok(Role::Giver),
        (false, false) => Ok(Role::Client),
    }
}

/// Has the session, says that it is done, and then what became of what it brought. The fault is that of the state, as it is
/// read first; then that of `sync`, and `Write`; then `Apart` where the other side says that it holds other operations.
pub(crate) fn run<R, I, O, E>(
    rt: &R,
    asked: &Synced<'_>,
    input: &mut I,
    output: &mut O,
    advice: &mut Advice<'_, E>,
) -> Result<(), Failure>
where
    R: Files<File = File> + AllocGlobal + Net<Stream = TcpStream, Listener = TcpListener> + Clock,
    I: Read,
    O: Write,
    E: Write,
{
    let Synced {
        meeting,
        role,
        is_quiet,
    } = *asked;
    let state = meeting.state();
    let mut brought = Brought::begin(rt, state, is_quiet, advice)?;
    let agreement = match meeting {
        Meeting::At(endpoint) => {
            let agreement = sync(rt, endpoint, role, &mut brought.later, advice)?;
            print_unless(is_quiet, b"done\n", output)?;
            agreement
        }
        Meeting::Streams { allowance, .. } => {
            let later = &mut brought.later;
            let agreement = sync_over(rt, state, allowance, role, later, input, output, advice)?;
            tell_done(is_quiet, advice.errors());
            agreement
        }
    };
    brought.tell(rt.alloc(), state, advice);
    match agreement {
        Agreement::Together => Ok(()),
        Agreement::Apart => Err(Failure::from(Fault::Apart)),
    }
}

// What was held before a session and after it.
#[derive(Drop)]
struct Brought {
    // None where nobody wants to know.
    before: Option<Record<Global>>,
    later: Loaded,
}

impl Brought {
    // What a state file says, before the session. It is kept where it is said afterwards what the session brought.
    fn begin<R, E>(
        rt: &R,
        state: &str,
        is_quiet: bool,
        advice: &Advice<'_, E>,
    ) -> Result<Brought, Failure>
    where
        R: Files<File = File> + AllocGlobal,
        E: Write,
    {
        let (later, bytes) = Loaded::read(rt, state)?;
        let before = if !is_quiet && is_told(&bytes, advice) {
            Record::load(rt.alloc(), &bytes).ok()
        } else {
            None
        };
        Ok(Brought { before, later })
    }

    // Says what became of what the session brought, where that is wanted.
    fn tell<E: Write>(&self, alloc: Global, state: &str, advice: &mut Advice<'_, E>) {
        if let Some(before) = &self.before {
            let later = self.later.said();
            warn_of_forks(alloc, before, later, advice);
            say_of_records(alloc, state, before, later, advice);
        }
    }
}
