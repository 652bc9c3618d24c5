//! Commands that change a state.

use crate::printing::print_unless;
use crate::system::System;
use crate::undone::{Undone, without_done};
use census_arguments::{is_quiet, word};
use census_core::{Fault, Reply, Request, new_forks, perform_kept};
use census_diagnosis::{Given, of_games, of_request};
use census_failure::{Advice, Failure, INPUT_NAME, quoted, shown_bytes};
use census_files::{StateFile, is_standard, read_delta, read_file, read_standard, read_state};
use census_progress::{Changed, ProgressLine, TurnSaver, say_what_became};
use census_words::words::{self, Word};
use clap::ArgMatches;
use oct_record::Record;
use std::alloc::{AllocError, Global};
use std::io::{Read, Write};
use std::rt::Files;
use written::write_out;

/// What is to be done to a state file, and the file that is read beside it.
#[derive(Drop)]
pub struct Change<'a> {
    state: &'a str,
    read: Option<&'a str>,
    request: Request,
    is_quiet: bool,
    /// Whether games that the state's author said already are left out.
    skips_done: bool,
}

/// What a command changes that makes this request to a state, and reads the file of this word beside it.
pub fn changing<'a>(
    found: &ArgMatches<'a>,
    read: Option<Word>,
    request: Request,
) -> Result<Change<'a>, Failure> {
    let read = match read {
        Some(read) => Some(word(found, read)?),
        None => None,
    };
    Ok(Change {
        state: word(found, words::STATE)?,
        read,
        request,
        is_quiet: is_quiet(found),
        skips_done: found.get_flag(words::SKIP_DONE.name),
    })
}

/// Changes the state, prints what the reply says, and says what became of what is new.
pub(crate) fn run<R, I, O, E>(
    rt: &R,
    change: &Change<'_>,
    input: &mut I,
    output: &mut O,
    progress: &mut ProgressLine<'_, R, E>,
) -> Result<(), Failure>
where
    R: System,
    I: Read,
    O: Write,
    E: Write,
{
    let beside = SecondInput::of(rt.alloc(), change.read, input)?;
    let done = perform_locked(rt, change, beside, output, progress);
    progress.clear();
    let done = done?;
    print_unless(change.is_quiet, done.unprinted(), output)?;
    if !change.is_quiet && is_judged(&change.request) {
        let refuted = done.tell(rt.alloc(), change.state, progress.advice());
        if refuted > 0 {
            say_check(rt.alloc(), change, progress.advice());
        }
    }
    Ok(())
}

// A state as it was, and the reply of the command that changed it.
#[derive(Drop)]
struct Performed {
    before: Vec<u8>,
    reply: Reply,
    // How many bytes of its text are printed already.
    printed: usize,
}

impl Performed {
    // What is to be printed now, when other commands may change the state again.
    fn unprinted(&self) -> &[u8] {
        self.reply.text.get(self.printed..).unwrap_or(b"")
    }

    // Says what became of what is new in the state, and gives how much of it is refuted.
    fn tell<E: Write>(&self, alloc: Global, state: &str, advice: &mut Advice<'_, E>) -> usize {
        match &self.reply.state {
            Some(later) => {
                let changed = Changed {
                    state,
                    before: &self.before,
                    later,
                };
                say_what_became(alloc, changed, advice)
            }
            None => 0,
        }
    }
}

// Says of a b-file that was claimed, and of which something is refuted, what lists each wrong value.
fn say_check<E: Write>(alloc: Global, change: &Change<'_>, advice: &mut Advice<'_, E>) {
    if let (Request::Claim { code }, Some(path)) = (&change.request, change.read) {
        if !is_standard(path) {
            if let Ok(text) = check_text(alloc, code, path) {
                advice.say(&text);
            }
        }
    }
}

fn check_text(alloc: Global, code: &[u8], path: &str) -> Result<String, AllocError> {
    let code = shown_bytes(alloc, code)?;
    let path = quoted(alloc, path)?;
    format!(in alloc; "census check {code} {path} lists each wrong value")
}

// Whether it is said what became of what the command says or takes in.
fn is_judged(request: &Request) -> bool {
    match request {
        Request::Compute { .. }
        | Request::Import
        | Request::Claim { .. }
        | Request::Period { .. }
        | Request::Extend { .. }
        | Request::Survey { .. }
        | Request::Merge => true,
        _ => false,
    }
}

// What a command reads beside the state.
#[derive(Drop)]
enum SecondInput<'a> {
    Nothing,
    File(&'a str),
    // What standard input gave. It is read before the state is locked, so that nobody waits for it.
    Stream(Vec<u8>),
}

impl<'a> SecondInput<'a> {
    // What stands for this word, where there is one.
    fn of<I: Read>(
        alloc: Global,
        read: Option<&'a str>,
        input: &mut I,
    ) -> Result<SecondInput<'a>, Failure> {
        match read {
            None => Ok(SecondInput::Nothing),
            Some(path) if is_standard(path) => Ok(SecondInput::Stream(read_standard(
                alloc, input,
            )?)),
            Some(path) => Ok(SecondInput::File(path)),
        }
    }

    // Its name and its bytes.
    fn read<R: Files + AllocGlobal>(
        self,
        rt: &R,
        request: &Request,
    ) -> Result<(&'a str, Vec<u8>), Failure> {
        match (self, request) {
            (SecondInput::Nothing, _) => Ok(("", Vec::new(rt.alloc()))),
            (SecondInput::File(path), Request::Merge) => Ok((path, read_delta(rt, path)?)),
            (SecondInput::File(path), _) => Ok((path, read_file(rt, path)?)),
            (SecondInput::Stream(bytes), _) => Ok((INPUT_NAME, bytes)),
        }
    }
}

// Changes a state file, and holds its lock from before it is read until it is replaced.
fn perform_locked<R, O, E>(
    rt: &R,
    change: &Change<'_>,
    beside: SecondInput<'_>,
    output: &mut O,
    progress: &mut ProgressLine<'_, R, E>,
) -> Result<Performed, Failure>
where
    R: System,
    O: Write,
    E: Write,
{
    let file = StateFile::wait_telling(rt, change.state, progress.advice())?;
    let done = perform_held(rt, &file, change, beside, output, progress);
    file.release(rt);
    done
}

// The same, while no other command changes the state.
fn perform_held<R, O, E>(
    rt: &R,
    file: &StateFile,
    change: &Change<'_>,
    beside: SecondInput<'_>,
    output: &mut O,
    progress: &mut ProgressLine<'_, R, E>,
) -> Result<Performed, Failure>
where
    R: System,
    O: Write,
    E: Write,
{
    let bytes = read_state(rt, change.state)?;
    let (name, read) = beside.read(rt, &change.request)?;
    let undone = undone_of(rt.alloc(), change, &bytes, output)?;
    let request = undone.as_ref().unwrap_or(&change.request);
    progress.give_turns(turns_in(request));
    let (state, given) = (Given::new(change.state, &bytes), Given::new(name, &read));
    let (reply, printed) = replied(rt, file, request, state, given, output, progress)?;
    replace(rt, file, request, &bytes, &reply, progress)?;
    Ok(Performed {
        before: bytes,
        reply,
        printed,
    })
}

// What a request makes of a state and of what is read beside it, and how many bytes of its text are printed already.
fn replied<R, O, E>(
    rt: &R,
    file: &StateFile,
    request: &Request,
    state: Given<'_>,
    read: Given<'_>,
    output: &mut O,
    progress: &mut ProgressLine<'_, R, E>,
) -> Result<(Reply, usize), Failure>
where
    R: System,
    O: Write,
    E: Write,
{
    let mut saver = TurnSaver::new(rt, file, state.bytes.len(), output);
    match perform_kept(
        rt.alloc(),
        request,
        state.bytes,
        read.bytes,
        progress,
        &mut saver,
    ) {
        Ok(reply) => Ok((reply, saver.printed())),
        Err(fault) => Err(match saver.into_failure() {
            Some(failure) => failure,
            None => of_change(rt.alloc(), fault, request, state, read),
        }),
    }
}

// Replaces a state by what a reply says, and warns of what a delta brought.
fn replace<R, E>(
    rt: &R,
    file: &StateFile,
    request: &Request,
    before: &[u8],
    reply: &Reply,
    progress: &mut ProgressLine<'_, R, E>,
) -> Result<(), Failure>
where
    R: System,
    E: Write,
{
    let Some(text) = &reply.state else {
        return Ok(());
    };
    file.replace_telling(rt, text, progress.advice())?;
    if let Request::Merge = request {
        warn_of_taken(rt.alloc(), before, text, progress.advice());
    }
    Ok(())
}

// How many games have their turns where the request is done.
fn turns_in(request: &Request) -> usize {
    match request {
        Request::Extend { codes, .. } | Request::Survey { codes, .. } => codes.len(),
        _ => 0,
    }
}

// The request without the games that are done, where they are left out; it is said how many they are.
fn undone_of<O: Write>(
    alloc: Global,
    change: &Change<'_>,
    state: &[u8],
    output: &mut O,
) -> Result<Option<Request>, Failure> {
    if !change.skips_done {
        return Ok(None);
    }
    match without_done(alloc, &change.request, state) {
        Ok(Some(Undone { request, line })) => {
            write_out(output, &line)?;
            Ok(Some(request))
        }
        Ok(None) => Ok(None),
        Err(fault) => {
            let (state, none) = (Given::new(change.state, state), Given::new("", b""));
            Err(of_change(alloc, fault, &change.request, state, none))
        }
    }
}

// The failure of a request to change a state.
fn of_change(
    alloc: Global,
    fault: Fault,
    request: &Request,
    state: Given<'_>,
    read: Given<'_>,
) -> Failure {
    match request {
        Request::Extend { codes, .. } | Request::Survey { codes, .. } => {
            of_games(alloc, fault, codes, state)
        }
        _ => of_request(alloc, fault, request, state, read),
    }
}

// Warns where a delta brought an operation by the state's own number that the state never held, and of dots that are used twice
// since.
fn warn_of_taken<E: Write>(alloc: Global, before: &[u8], later: &[u8], advice: &mut Advice<'_, E>) {
    if advice.is_wanted() {
        if let (Ok(was), Ok(now)) = (Record::load(alloc, before), Record::load(alloc, later)) {
            advice.warn_of_number(alloc, was.first_foreign(&now));
            warn_of_forks(alloc, &was, &now, advice);
        }
    }
}

/// Warns of the dots that are used twice now and were not so before.
pub fn warn_of_forks<E: Write>(
    alloc: Global,
    before: &Record<Global>,
    later: &Record<Global>,
    advice: &mut Advice<'_, E>,
) {
    if let (Ok(old), Ok(now)) = (before.store().forks(), later.store().forks()) {
        if let Ok(forks) = new_forks(alloc, &old, &now) {
            advice.warn_of_forks(alloc, later.author(), &forks);
        }
    }
}
