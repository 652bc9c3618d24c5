//! Records: the operations of each game, the notes, an operation that is taken out again, and what became of those that
//! are new.

use crate::answers::{bytes, check, check_equal};
use census_core::{Verdict, judge, tally};
use oct_code::Code;
use oct_record::{Record, RenumberError};
use std::alloc::Global;
use std::process::Abort;
use worked::{EARLY, FIRST, LAST, NEXT, ONE, TURNS};

// A record that took in each of the deltas.
fn record_of(rt: &(impl Abort + AllocGlobal), deltas: &[&str]) -> Record<Global> {
    let mut said = Record::new(rt.alloc(), 7).ok().expect(rt, "a record");
    for delta in deltas {
        let new = said.take(&bytes(rt, delta));
        check(
            rt,
            matches!(new, Ok(1..)),
            format_args!("{delta} brings nothing: {new:?}"),
        );
    }
    said
}

// So many blocks and claims are of the game of this code.
fn has_of_game(rt: &impl Abort, said: &Record<Global>, code: &str, wanted: usize) {
    let parsed = Code::parse(code.as_bytes()).ok().expect(rt, code);
    let held = match said.game(parsed) {
        Some(held) => held.len(),
        None => 0,
    };
    check_equal(rt, held, wanted, format_args!("of {code}"));
}

#[test]
fn a_record_tells_its_games_and_notes_apart(rt: HostRuntime) {
    let said = record_of(&rt, &[FIRST, NEXT, EARLY, TURNS]);
    check_equal(&rt, said.len(), 5, "operations in all");
    check_equal(&rt, said.store().len(), 5, "operations lent");
    has_of_game(&rt, &said, "0.77", 2);
    has_of_game(&rt, &said, "0.3", 2);
    has_of_game(&rt, &said, "0.07", 0);
    check_equal(&rt, said.notes().len(), 1, "notes");
}

#[test]
fn what_is_taken_out_is_of_no_game(rt: HostRuntime) {
    let mut said = record_of(&rt, &[FIRST]);
    let first = said.store().iter().next().expect(&rt, "an operation");
    let first = first.copy(rt.alloc()).ok().expect(&rt, "a copy");
    check(&rt, said.remove(&first), "it was there");
    check(&rt, !said.remove(&first), "it is there no more");
    check(&rt, said.is_empty(), "nothing is left");
    has_of_game(&rt, &said, "0.77", 0);
}

#[test]
fn a_record_goes_on_under_another_number(rt: HostRuntime) {
    let mut said = record_of(&rt, &[FIRST]);
    check_equal(
        &rt,
        said.renumber(0),
        Err(RenumberError::Zero),
        "to author 0",
    );
    check_equal(
        &rt,
        said.renumber(1),
        Err(RenumberError::Held),
        "to author 1",
    );
    check_equal(&rt, said.author(), 7, "the author");
    check_equal(&rt, said.renumber(8), Ok(7), "to author 8");
    check_equal(&rt, said.author(), 8, "the author");
    check_equal(&rt, said.len(), 1, "operations");
}

#[test]
fn an_operation_that_one_never_held_is_found(rt: HostRuntime) {
    let said = record_of(&rt, &[FIRST]);
    let later = record_of(&rt, &[FIRST, NEXT, ONE]);
    let found = said.first_foreign(&later);
    check_equal(
        &rt,
        found.map(|dot| (dot.author(), dot.number())),
        Some((7, 1)),
        "the operation that is found",
    );
    check(
        &rt,
        later.first_foreign(&said).is_none(),
        "all of the other are held",
    );
}

#[test]
fn what_is_new_is_judged(rt: HostRuntime) {
    let before = record_of(&rt, &[FIRST]);
    let later = record_of(&rt, &[FIRST, NEXT, EARLY, LAST, TURNS]);
    let all = judge(rt.alloc(), &before, &later);
    let all = all.ok().expect(&rt, "verdicts");
    let counts = tally(&all);
    check_equal(&rt, counts.proved, 3, "proved");
    check_equal(&rt, counts.refuted, 0, "refuted");
    check_equal(&rt, counts.pending, 1, "pending");
    for one in &all {
        let is_last = one.dot.author() == 1 && one.dot.number() == 4;
        let is_pending = matches!(one.verdict, Verdict::PendingBlock);
        check_equal(&rt, is_pending, is_last, "past the known values");
    }
}
