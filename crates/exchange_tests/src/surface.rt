//! The public calls of replicas, pages and sessions, each under its name and with its arguments in their order, and each
//! refusal by its name: what is renamed, or takes its arguments otherwise, no longer compiles. What the calls do is tested
//! beside this.

use crate::answers::{bytes, check, check_equal};
use crate::replica::new_replica;
use oct_code::Code;
use oct_delta::{EncodeError, decode};
use oct_join::Clock;
use oct_ops::{Block, Body, Dot, Note, OpList, Removal};
use oct_pages::{Parts, write_catalogue, write_page};
use oct_period::{Game, Outcome};
use oct_record::Record;
use oct_replica::{
    AuthorError, ComputeError, IssueError, LoadError, OutOfMemory, QueryError, RemovalError,
    Replica, TakeError,
};
use oct_sync::{Progress, Role, Session, SyncError, drive};
use std::alloc::Global;
use std::collections::BTreeMap;
use std::process::Abort;
use worked::FIRST;

// The names of the refusals of a replica.
fn author_refusal(error: AuthorError) -> &'static str {
    match error {
        AuthorError::Zero => "Zero",
    }
}

fn issue_refusal(error: IssueError) -> &'static str {
    match error {
        IssueError::LastNumber => "LastNumber",
        IssueError::OutOfMemory => "OutOfMemory",
    }
}

fn take_refusal(error: TakeError) -> &'static str {
    match error {
        TakeError::Version => "Version",
        TakeError::Refused => "Refused",
        TakeError::OutOfMemory { done: _ } => "OutOfMemory",
    }
}

fn query_refusal(error: QueryError) -> &'static str {
    match error {
        QueryError::Unknown { index: _ } => "Unknown",
    }
}

fn compute_refusal(error: ComputeError) -> &'static str {
    match error {
        ComputeError::Zero => "Zero",
        ComputeError::TooMany => "TooMany",
        ComputeError::AtLimit => "AtLimit",
        ComputeError::OutOfMemory => "OutOfMemory",
    }
}

fn removal_refusal(error: RemovalError) -> &'static str {
    match error {
        RemovalError::NoNote => "NoNote",
        RemovalError::TooMany => "TooMany",
        RemovalError::OutOfMemory => "OutOfMemory",
    }
}

fn load_refusal(error: LoadError) -> &'static str {
    match error {
        LoadError::Version => "Version",
        LoadError::Refused => "Refused",
        LoadError::OutOfMemory => "OutOfMemory",
    }
}

fn encode_refusal(error: EncodeError) -> &'static str {
    match error {
        EncodeError::TooMany => "TooMany",
        EncodeError::OutOfMemory => "OutOfMemory",
    }
}

#[test]
fn pages(rt: HostRuntime) {
    let alloc = rt.alloc();
    let said: Record<Global> = Record::new(alloc, 1).ok().expect(&rt, "an author");
    let games: BTreeMap<Code, Game<Global>> = BTreeMap::new(alloc);
    let parts = Parts {
        store: said.store(),
        games: &games,
        notes: said.notes(),
    };
    let mut out = Vec::new(alloc);
    let written: Result<(), OutOfMemory> = write_catalogue(alloc, &parts, &mut out);
    check(&rt, written.is_ok(), "no catalogue");
    check_equal(
        &rt,
        out.as_slice(),
        b"census 2\nend\n".as_slice(),
        "the catalogue",
    );
    let found: Result<bool, OutOfMemory> = write_page(alloc, &parts, 1, &mut out);
    check_equal(&rt, found.ok(), Some(false), "a second page");
}

// What a replica takes and issues.
fn takes_and_issues(rt: &(impl Abort + AllocGlobal), replica: &mut Replica<Global>, delta: &[u8]) {
    let alloc = rt.alloc();
    let taken: Result<u32, TakeError> = replica.take(delta);
    check_equal(
        rt,
        taken.map_err(take_refusal),
        Ok(1),
        "operations that are taken",
    );
    let list = decode(alloc, delta).ok().expect(rt, "a list");
    assert!(rt; list.len() == 1);
    let again: Result<u32, TakeError> = replica.take_list(list);
    check_equal(
        rt,
        again.map_err(take_refusal),
        Ok(0),
        "operations that are taken again",
    );
    issues(rt, replica);
    let joined: Result<(), OutOfMemory> = replica.join(&new_replica(rt, alloc, 1));
    check(rt, joined.is_ok(), "the replica is not joined");
    check_equal(
        rt,
        (replica.author(), replica.len()),
        (7, 2),
        "author and operations",
    );
}

// Issues a note.
fn issues(rt: &(impl Abort + AllocGlobal), replica: &mut Replica<Global>) {
    let note = Note::new(rt.alloc(), b"a", b"").ok().expect(rt, "a note");
    let issued: Result<Dot, (IssueError, Body<Global>)> = replica.issue(Body::Note(note));
    let author = match issued {
        Ok(dot) => Ok(dot.author()),
        Err((error, _)) => Err(issue_refusal(error)),
    };
    check_equal(rt, author, Ok(7), "the author of the dot");
}

// What a replica says of a game.
fn tells_of_a_game(rt: &impl Abort, replica: &Replica<Global>, code: Code) {
    let game: Option<&Game<Global>> = replica.game(code);
    let value: Result<u32, QueryError> = replica.value(code, &[9]);
    let outcome: Outcome = replica.outcome(code, &[]);
    check(rt, game.is_some(), "the game");
    check(rt, outcome == Outcome::NextLoses, "the outcome");
    check_equal(
        rt,
        value.map_err(query_refusal),
        Err("Unknown"),
        "the value",
    );
    let block: Result<Block<Global>, ComputeError> = replica.compute(code, 0);
    check_equal(
        rt,
        block.err().map(compute_refusal),
        Some("Zero"),
        "a block",
    );
    let removal: Result<Removal<Global>, RemovalError> = replica.removal(b"b");
    check_equal(
        rt,
        removal.err().map(removal_refusal),
        Some("NoNote"),
        "a removal",
    );
}

// What a replica writes for a reader.
fn prints(rt: &(impl Abort + AllocGlobal), replica: &Replica<Global>) {
    let mut out = Vec::new(rt.alloc());
    let catalogue: Result<(), OutOfMemory> = replica.catalogue(&mut out);
    check(rt, catalogue.is_ok(), "no catalogue");
    let page: Result<bool, OutOfMemory> = replica.page(0, &mut out);
    check_equal(rt, page.ok(), Some(true), "the page");
}

// What a replica writes for another one.
fn sends(rt: &(impl Abort + AllocGlobal), replica: &Replica<Global>) {
    let clock: Result<Clock<Global>, OutOfMemory> = replica.clock();
    let clock = clock.ok().expect(rt, "a clock");
    let beyond: Result<OpList<Global>, OutOfMemory> = replica.beyond(&clock);
    let beyond = beyond.ok().expect(rt, "a list");
    check_equal(rt, beyond.len(), 0, "operations beyond the clock");
    let mut out = Vec::new(rt.alloc());
    let delta: Result<(), EncodeError> = replica.delta(&clock, &mut out);
    check_equal(rt, delta.map_err(encode_refusal), Ok(()), "the delta");
}

// What a replica writes for itself.
fn saves(rt: &(impl Abort + AllocGlobal), replica: &Replica<Global>) {
    let mut state = Vec::new(rt.alloc());
    let saved: Result<(), EncodeError> = replica.save(&mut state);
    check_equal(rt, saved.map_err(encode_refusal), Ok(()), "the state");
    let loaded: Result<Replica<Global>, LoadError> = Replica::load(rt.alloc(), &state);
    check_equal(
        rt,
        loaded.err().map(load_refusal),
        None,
        "the replica that is loaded",
    );
}

#[test]
fn replicas(rt: HostRuntime) {
    let alloc = rt.alloc();
    let none: Result<Replica<Global>, AuthorError> = Replica::new(alloc, 0);
    check_equal(
        &rt,
        none.err().map(author_refusal),
        Some("Zero"),
        "a replica of author 0",
    );
    let mut replica = new_replica(&rt, alloc, 7);
    takes_and_issues(&rt, &mut replica, &bytes(&rt, FIRST));
    tells_of_a_game(&rt, &replica, Code::parse(b"0.77").expect(&rt, "Kayles"));
    prints(&rt, &replica);
    sends(&rt, &replica);
    saves(&rt, &replica);
}

// The name of what a session answers.
fn progress_name(progress: Progress) -> &'static str {
    match progress {
        Progress::More => "More",
        Progress::Done => "Done",
    }
}

fn sync_refusal(error: SyncError) -> &'static str {
    match error {
        SyncError::Frame => "Frame",
        SyncError::Order => "Order",
        SyncError::Clock => "Clock",
        SyncError::Delta => "Delta",
        SyncError::OutOfMemory => "OutOfMemory",
        SyncError::Failed => "Failed",
        SyncError::Cut => "Cut",
        SyncError::Read => "Read",
        SyncError::Write => "Write",
        SyncError::Turns => "Turns",
    }
}

// A session of each role.
#[test]
fn sessions(rt: HostRuntime) {
    let alloc = rt.alloc();
    let mut replica = new_replica(&rt, alloc, 1);
    let mut out = Vec::new(alloc);
    let client: Result<Session<Global>, OutOfMemory> = Session::client(alloc, &replica, &mut out);
    let client = client.ok().expect(&rt, "a session");
    check_equal(&rt, client.wanted(), 5, "bytes that are wanted");
    let mut greeting = Vec::new(alloc);
    let giver: Result<Session<Global>, OutOfMemory> = Session::giver(
        alloc,
        &replica,
        &mut greeting,
    );
    check(&rt, giver.is_ok(), "the session of a giver");
    let mut server: Session<Global> = Session::server(alloc);
    let mut answers = Vec::new(alloc);
    let fed: Result<Progress, SyncError> = server.feed(&mut replica, &out, &mut answers);
    check_equal(
        &rt,
        fed.map(progress_name),
        Ok("More"),
        "the answer of the server",
    );
}

// A session of the role ends where nothing comes.
fn is_cut(rt: &(impl Abort + AllocGlobal), role: Role) {
    let mut replica = new_replica(rt, rt.alloc(), 1);
    let mut answers = Vec::new(rt.alloc());
    let driven: Result<(), SyncError> = drive(
        rt.alloc(),
        role,
        &mut replica,
        &mut &b""[..],
        &mut answers,
    );
    check_equal(rt, driven.map_err(sync_refusal), Err("Cut"), "the drive");
}

#[test]
fn drives(rt: HostRuntime) {
    is_cut(&rt, Role::Server);
    is_cut(&rt, Role::Client);
}
