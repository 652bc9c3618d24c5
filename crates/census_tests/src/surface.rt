//! The public calls of these libraries, each under its name and with its arguments in their order, and each refusal by its name:
//! what is renamed, or takes its arguments otherwise, no longer compiles. What the calls do is tested beside this.

ghost use Rattle.std.specs.Prelude.{◌≡◌};

use crate::answers::{check, check_equal, code, dot};
use crate::ledgers::block;
use oct_code::{Code, CodeError, DigitsError, LIMIT, OLD_LIMIT, OutOfMemory};
use oct_delta::{
    ClockError, DeltaError, EncodeError, OpList, Reader, decode, decode_clock, encode,
    encode_clock, op_size,
};
use oct_join::{Clock, Join, gather};
use oct_mex::{Values, first_difference};
use oct_notes::Notes;
use oct_ops::{
    Block, BlockError, Body, Dot, DotError, ListError, Note, NoteError, Op, Period, PeriodError,
    Removal, RemovalError,
};
use oct_period::{
    Game, Outcome, PeriodClaim, PeriodStatus, Unknown, heap_value, outcome, period_status,
    position_value,
};
use oct_store::{Author, Fork, Store};
use oct_verify::{Ledger, Status};
use std::alloc::{Allocator, Global};
use std::process::Abort;

// The names of the refusals of a code.
fn code_refusal(error: CodeError) -> &'static str {
    match error {
        CodeError::Form => "Form",
        CodeError::Head => "Head",
        CodeError::Digit => "Digit",
        CodeError::Long => "Long",
    }
}

fn digits_refusal(error: DigitsError) -> &'static str {
    match error {
        DigitsError::Head => "Head",
        DigitsError::Long => "Long",
        DigitsError::Digit => "Digit",
        DigitsError::Trailing => "Trailing",
    }
}

#[test]
fn codes(rt: HostRuntime) {
    let code: Code = Code::parse(b".77").expect(&rt, "0.77");
    let mut text = Vec::new(rt.alloc());
    let appended: Result<(), OutOfMemory> = code.append_text(&mut text);
    check(&rt, appended.is_ok(), "the text is not appended");
    check_equal(&rt, text.as_slice(), b"0.77".as_slice(), "the text");
    let facts: (usize, u8, bool) = (code.len(), code.digit(1), code.allows(1, 2));
    check_equal(&rt, facts, (2, 7, true), "facts of a code");
    check_equal(
        &rt,
        Code::parse(b"77").err().map(code_refusal),
        Some("Form"),
        "a text",
    );
    let trailing: Result<Code, DigitsError> = Code::from_digits(0, &[7, 0]);
    check_equal(
        &rt,
        trailing.err().map(digits_refusal),
        Some("Trailing"),
        "digits",
    );
    check_equal(&rt, (LIMIT, OLD_LIMIT), (65_536, 4_096), "the limits");
}

#[test]
fn values(rt: HostRuntime) {
    let kayles = code(&rt, "0.77");
    let mut values: Values<Global> = Values::new(rt.alloc(), kayles);
    let room: Result<(), OutOfMemory> = values.room_to(2);
    assert!(rt; room.is_ok());
    check(&rt, values.room() >= 2, "room for two");
    values.extend_within(2);
    let extended: Result<(), OutOfMemory> = values.extend_to(4);
    check(&rt, extended.is_ok(), "no values");
    let list: &[u32] = values.as_slice();
    let first: Option<usize> = first_difference(&[0, 1, 2], &[0, 1, 3]);
    check_equal(&rt, first, Some(2), "the first difference");
    check(
        &rt,
        list.starts_with(&[0, 1, 2, 3]) && values.code() == kayles,
        "the values and their code",
    );
    check_equal(&rt, values.get(3), Some(3), "the value of heap 3");
}

// The names of the refusals of what operations are made of.
fn dot_refusal(error: DotError) -> &'static str {
    match error {
        DotError::Zero => "Zero",
    }
}

fn block_refusal(error: BlockError) -> &'static str {
    match error {
        BlockError::Empty => "Empty",
        BlockError::TooMany => "TooMany",
        BlockError::PastLimit => "PastLimit",
    }
}

fn period_refusal(error: PeriodError) -> &'static str {
    match error {
        PeriodError::Zero => "Zero",
        PeriodError::PastLimit => "PastLimit",
    }
}

fn note_refusal(error: NoteError) -> &'static str {
    match error {
        NoteError::Name => "Name",
        NoteError::Text => "Text",
        NoteError::OutOfMemory => "OutOfMemory",
    }
}

fn removal_refusal(error: RemovalError) -> &'static str {
    match error {
        RemovalError::Empty => "Empty",
        RemovalError::TooMany => "TooMany",
        RemovalError::NotRising => "NotRising",
    }
}

fn list_refusal(error: ListError) -> &'static str {
    match error {
        ListError::NotRising => "NotRising",
    }
}

// The name of a body's kind.
fn kind_name<A: Allocator>(body: &Body<A>) -> &'static str {
    match body {
        Body::Block(_) => "Block",
        Body::Period(_) => "Period",
        Body::Note(_) => "Note",
        Body::Removal(_) => "Removal",
    }
}

// A note is an operation, which is copied.
fn is_copied(rt: &impl Abort, alloc: Global) {
    let note: Result<Note<Global>, NoteError> = Note::new(alloc, b"kayles", b"");
    let op = Op::new(dot(rt, 1, 1), Body::Note(note.expect(rt, "a note")));
    let copy: Result<Op<Global>, OutOfMemory> = op.copy(alloc);
    let copy = copy.ok().expect(rt, "a copy");
    check_equal(
        rt,
        (copy == op, op.keeps_old_limits()),
        (true, true),
        "a copy",
    );
    check_equal(
        rt,
        (op.dot().number(), kind_name(op.body())),
        (1, "Note"),
        "number and kind",
    );
}

#[test]
fn operations(rt: HostRuntime) {
    let kayles = code(&rt, "0.77");
    let alloc = rt.alloc();
    check_equal(
        &rt,
        Dot::new(0, 1).err().map(dot_refusal),
        Some("Zero"),
        "a dot",
    );
    let empty = Vec::new(alloc);
    match Block::new(kayles, 0, empty) {
        Ok(_) => panic!(rt; "a block of no value"),
        Err((error, _)) => check_equal(&rt, block_refusal(error), "Empty", "the fault of a block"),
    }
    check_equal(
        &rt,
        Period::new(kayles, 0, 1).err().map(period_refusal),
        Some("Zero"),
        "a claim",
    );
    check_equal(
        &rt,
        Note::new(alloc, b"", b"").err().map(note_refusal),
        Some("Name"),
        "a note",
    );
    let empty = Vec::new(alloc);
    match Removal::new(empty) {
        Ok(_) => panic!(rt; "a removal of nothing"),
        Err((error, _)) => check_equal(
            &rt,
            removal_refusal(error),
            "Empty",
            "the fault of a removal",
        ),
    }
    is_copied(&rt, alloc);
}

#[test]
fn clocks(rt: HostRuntime) {
    let alloc = rt.alloc();
    let mut clock: Clock<Global> = Clock::new(alloc);
    let raised: Result<(), OutOfMemory> = clock.raise(2, 1);
    check(&rt, raised.is_ok(), "2.1 is not raised");
    let entries: &[(u32, u32)] = clock.entries();
    check_equal(
        &rt,
        (entries, clock.through(2)),
        (&[(2, 1)][..], 1),
        "the entries of a clock",
    );
    check(&rt, clock.covers(&dot(&rt, 2, 1)), "2.1 is covered");
    let mut other = Clock::new(alloc);
    let joined: Result<(), OutOfMemory> = other.join(&clock);
    check(&rt, joined.is_ok(), "the clock is not joined");
    let gathered: Result<(), OutOfMemory> = gather(&mut clock, &[other]);
    check(&rt, gathered.is_ok(), "the clock is not gathered");
}

// The names of the refusals of a codec.
fn delta_refusal(error: DeltaError) -> &'static str {
    match error {
        DeltaError::Version => "Version",
        DeltaError::Refused => "Refused",
        DeltaError::OutOfMemory => "OutOfMemory",
        DeltaError::Failed => "Failed",
    }
}

fn encode_refusal(error: EncodeError) -> &'static str {
    match error {
        EncodeError::TooMany => "TooMany",
        EncodeError::OutOfMemory => "OutOfMemory",
    }
}

fn clock_refusal(error: ClockError) -> &'static str {
    match error {
        ClockError::Refused => "Refused",
        ClockError::OutOfMemory => "OutOfMemory",
    }
}

#[test]
fn deltas(rt: HostRuntime) {
    let alloc = rt.alloc();
    let Ok(list) = OpList::from_rising(Vec::new(alloc)) else {
        panic!(rt; "{}", list_refusal(ListError::NotRising));
    };
    let mut text = Vec::new(alloc);
    let encoded: Result<(), EncodeError> = encode(&list, &mut text);
    check_equal(
        &rt,
        encoded.err().map(encode_refusal),
        None,
        "the fault of encode",
    );
    let decoded: Result<OpList<Global>, DeltaError> = decode(alloc, &text);
    check_equal(
        &rt,
        decoded.err().map(delta_refusal),
        None,
        "the fault of decode",
    );
    check_equal(
        &rt,
        decode(alloc, b"OGD").err().map(delta_refusal),
        Some("Version"),
        "the fault of three bytes",
    );
    check_equal(
        &rt,
        (list.len(), list.as_slice().len()),
        (0, 0),
        "lengths of nothing",
    );
    check_equal(&rt, list.into_vec().len(), 0, "the length of a vector");
}

#[test]
fn readers(rt: HostRuntime) {
    let mut reader: Reader<Global> = Reader::new(rt.alloc());
    let fed: Result<(), DeltaError> = reader.feed(b"OGD1");
    check_equal(
        &rt,
        fed.err().map(delta_refusal),
        None,
        "the fault of a tag",
    );
    let whole: &[Op<Global>] = reader.items();
    check_equal(&rt, whole.len(), 0, "whole operations");
    let finished: Result<OpList<Global>, DeltaError> = reader.finish();
    check_equal(
        &rt,
        finished.err().map(delta_refusal),
        Some("Refused"),
        "the fault of the end",
    );
}

#[test]
fn clock_texts(rt: HostRuntime) {
    let alloc = rt.alloc();
    let mut text = Vec::new(alloc);
    let encoded: Result<(), OutOfMemory> = encode_clock(&Clock::new(alloc), &mut text);
    check(&rt, encoded.is_ok(), "the clock is not written");
    let decoded: Result<Clock<Global>, ClockError> = decode_clock(alloc, &text);
    check_equal(
        &rt,
        decoded.err().map(clock_refusal),
        None,
        "the fault of a clock",
    );
    check_equal(
        &rt,
        decode_clock(alloc, b"").err().map(clock_refusal),
        Some("Refused"),
        "the fault of no byte",
    );
}

// The note of an author.
fn note<A: Allocator>(rt: &impl Abort, alloc: A, author: u32) -> Option<Op<A>> {
    let note = Note::new(alloc, b"a", b"").ok()?;
    Some(Op::new(dot(rt, author, 1), Body::Note(note)))
}

// How many operations there are.
fn count_of(rt: &impl Abort, list: Result<OpList<Global>, OutOfMemory>) -> usize {
    list.ok().expect(rt, "memory").len()
}

// What a store tells in lists.
fn listed_by_store(rt: &impl Abort, store: &Store<Global>, code: Code) {
    let clock: Result<Clock<Global>, OutOfMemory> = store.clock();
    let clock = clock.ok().expect(rt, "a clock");
    check_equal(rt, count_of(rt, store.list()), 1, "operations");
    check_equal(
        rt,
        count_of(rt, store.beyond(&clock)),
        0,
        "beyond the clock",
    );
    check_equal(rt, count_of(rt, store.of_game(code)), 0, "of the game");
}

// What a store tells of its authors.
fn told_by_store(rt: &impl Abort, store: &Store<Global>) {
    let authors: Result<Vec<Author>, OutOfMemory> = store.authors();
    for author in authors.ok().expect(rt, "authors") {
        let told = (author.author, author.through, author.last);
        check_equal(rt, told, (1, 1, 1), "an author");
    }
    let forks: Result<Vec<Fork>, OutOfMemory> = store.forks();
    for fork in forks.ok().expect(rt, "forks") {
        let told = (fork.dot.number(), fork.contents);
        check_equal(rt, told, (0, 0), "no fork");
    }
}

#[test]
fn stores(rt: HostRuntime) {
    let alloc = rt.alloc();
    let mut store: Store<Global> = Store::new(alloc);
    let op = note(&rt, alloc, 1).expect(&rt, "a note");
    let size: usize = op_size(&op);
    let same = op.copy(alloc).ok().expect(&rt, "a copy");
    let inserted: Result<bool, (OutOfMemory, Op<Global>)> = store.insert(op);
    check(&rt, inserted.is_ok(), "the note is not inserted");
    check_equal(
        &rt,
        (size > 0, store.contains(&same)),
        (true, true),
        "the note",
    );
    check_equal(
        &rt,
        (store.len(), store.last(1)),
        (1, 1),
        "length and last number",
    );
    listed_by_store(&rt, &store, code(&rt, "0.77"));
    told_by_store(&rt, &store);
    let mut other = Store::new(alloc);
    let joined: Result<(), OutOfMemory> = other.join(&store);
    check(&rt, joined.is_ok(), "the store is not joined");
    check(&rt, store.remove(&same), "the note is removed");
}

// The notes and the dots of those that live.
fn told_by_notes(rt: &impl Abort, notes: &Notes<Global>) {
    let live: Result<Vec<Op<Global>>, OutOfMemory> = notes.live();
    check_equal(rt, live.ok().expect(rt, "notes").len(), 1, "live notes");
    let dots: Result<Vec<Dot>, OutOfMemory> = notes.live_dots(b"a");
    check_equal(rt, dots.ok().expect(rt, "dots").len(), 1, "live dots");
}

// Adds a note, and takes it back.
#[test]
fn notes(rt: HostRuntime) {
    let alloc = rt.alloc();
    let mut notes: Notes<Global> = Notes::new(alloc);
    let note = Note::new(alloc, b"a", b"").ok().expect(&rt, "a note");
    let op = Op::new(dot(&rt, 1, 1), Body::Note(note));
    let added: Result<(), OutOfMemory> = notes.add(&op);
    check(&rt, added.is_ok(), "the note is not added");
    told_by_notes(&rt, &notes);
    let mut other = Notes::new(alloc);
    let joined: Result<(), OutOfMemory> = other.join(&notes);
    check(&rt, joined.is_ok(), "the notes are not joined");
    notes.take_back(&op);
}

// The names of what is known of a block, of a claim and of a position.
fn status_name(status: Status) -> &'static str {
    match status {
        Status::Proved => "Proved",
        Status::Refuted {
            at: _,
            claimed: _,
            truth: _,
        } => "Refuted",
        Status::Pending => "Pending",
    }
}

fn period_status_name(status: PeriodStatus) -> &'static str {
    match status {
        PeriodStatus::Proved => "Proved",
        PeriodStatus::Refuted { at: _ } => "Refuted",
        PeriodStatus::Pending { needs: _ } => "Pending",
    }
}

fn outcome_name(outcome: Outcome) -> &'static str {
    match outcome {
        Outcome::NextLoses => "NextLoses",
        Outcome::NextWins => "NextWins",
        Outcome::Unknown { index: _ } => "Unknown",
    }
}

// Adds a block to a ledger.
#[tactic(auto, using(oct_verify::proofs::Filings::filed_itself))]
fn ledger_is_called(
    rt: &impl Abort,
    ledger: &mut Ledger<Global>,
    dot: Dot,
    block: Block<Global>,
    same: &Block<Global>,
)
    requires code { block.code ≡ ledger.old.code }
    requires same { same.now ≡ block }
{
    let added: Result<(), (OutOfMemory, Block<Global>)> = ledger.add(dot, block);
    if added.is_ok() {
        let status: Status = ledger.status(&dot, same);
        check_equal(rt, status_name(status), "Proved", "the status of a block");
    }
    let told: (u32, u64, Option<u32>) = (ledger.known(), ledger.checks(), ledger.value(1));
    let values: &[u32] = ledger.known_values();
    check_equal(
        rt,
        (told, values.len()),
        ((2, 1, Some(1)), 2),
        "what a ledger tells",
    );
}

#[test]
fn ledgers(rt: HostRuntime) {
    let alloc = rt.alloc();
    let kayles = code(&rt, "0.77");
    let mut ledger: Ledger<Global> = Ledger::new(alloc, kayles);
    let block = block(alloc, kayles, 0, &[0, 1]).expect(&rt, "a block");
    let same = block.copy(alloc).ok().expect(&rt, "a copy");
    ledger_is_called(&rt, &mut ledger, dot(&rt, 1, 1), block, &same);
}

// What is told by a ledger and no claim.
fn told_by_ledger(rt: &impl Abort, ledger: &Ledger<Global>, period: &Period)
    requires { period.now.code ≡ ledger.now.code }
{
    let claims: &[PeriodClaim] = &[];
    let status: PeriodStatus = period_status(ledger, period);
    check_equal(
        rt,
        period_status_name(status),
        "Pending",
        "the status of a claim",
    );
    let value: Option<u32> = heap_value(ledger, claims, 9);
    check_equal(rt, value, None, "the value of heap 9");
    match position_value(ledger, claims, &[0, 9]) {
        Ok(_) => panic!(rt; "a position of unknown value"),
        Err(Unknown { index }) => check_equal(rt, index, 1, "the place of heap 9"),
    }
    let outcome: Outcome = outcome(ledger, claims, &[0, 9]);
    check_equal(rt, outcome_name(outcome), "Unknown", "the outcome");
}

// Adds a block and a claim to a game.
#[tactic(auto, using(oct_verify::proofs::Filings::filed_itself))]
fn game_is_called(
    rt: &impl Abort,
    game: &mut Game<Global>,
    dot: Dot,
    block: Block<Global>,
    same: &Block<Global>,
)
    requires code { block.code ≡ game.old.code }
    requires same { same.now ≡ block }
{
    let added: Result<(), (OutOfMemory, Block<Global>)> = game.add_block(dot, block);
    if added.is_ok() {
        let status: Status = game.block_status(&dot, same);
        check_equal(rt, status_name(status), "Proved", "the status of a block");
    }
    let period = Period::new(game.code(), 1, 2).expect(rt, "a claim");
    let added: Result<(), (OutOfMemory, Period)> = game.add_period(dot, period);
    check(rt, added.is_ok(), "the claim is refused");
    for claim in game.claims() {
        check(
            rt,
            claim.dot == dot && claim.period == period,
            "the claim of the game",
        );
    }
    told_by_ledger(rt, game.ledger(), &period);
}

#[test]
fn games(rt: HostRuntime) {
    let alloc = rt.alloc();
    let kayles = code(&rt, "0.77");
    let mut game: Game<Global> = Game::new(alloc, kayles);
    let block = block(alloc, kayles, 0, &[0, 1]).expect(&rt, "a block");
    let same = block.copy(alloc).ok().expect(&rt, "a copy");
    game_is_called(&rt, &mut game, dot(&rt, 1, 1), block, &same);
}
