//! What became of what a command said or took in, as a line on standard error.

use census_failure::{Advice, quoted};
use census_judge::{JudgedClaim, Verdict, count_decided, decided, judge, tally};
use oct_code::LIMIT;
use oct_join::OpSet;
use oct_ops::Body;
use oct_record::Record;
use std::alloc::{AllocError, Global};
use std::io::Write;

// What is done unasked, on a terminal, takes about a second at most. The state, which is read twice, has at most so many
// bytes,
const MOST_BYTES: usize = 33_554_432;
// and the games of which something is new take at most so many steps, as `steps_in` counts them. To compute the 65,536
// values of a game, which is twice as many, takes at most two seconds.
const MOST_STEPS: u64 = 2_147_483_648;

/// The file of a state, and its bytes before and after a command.
#[derive(Clone, Copy)]
pub struct Changed<'a> {
    /// Its name on the command line.
    pub state: &'a str,
    /// Its bytes before.
    pub before: &'a [u8],
    /// Its bytes after.
    pub later: &'a [u8],
}

/// Whether it may be said what becomes of what is new in a state of these bytes: that is wanted, and either asked for or
/// done in a second.
pub fn is_told<E: Write>(bytes: &[u8], advice: &Advice<'_, E>) -> bool {
    advice.is_wanted() && (advice.is_asked() || bytes.len() <= MOST_BYTES)
}

/// Says what became of the blocks and claims that are new in a state, and which of those that were pending before are
/// decided now, where that is wanted. It is left out where it would take long, unless it was asked for, and where memory is
/// refused. Gives how many of the new ones are refuted, and 0 where nothing is said.
pub fn say_what_became<E: Write>(
    alloc: Global,
    changed: Changed<'_>,
    advice: &mut Advice<'_, E>,
) -> usize {
    if !is_told(changed.later, advice) {
        return 0;
    }
    let before = Record::load(alloc, changed.before);
    let later = Record::load(alloc, changed.later);
    match (before, later) {
        (Ok(before), Ok(later)) => say_of_records(alloc, changed.state, &before, &later, advice),
        _ => 0,
    }
}

/// The same of what was held before and is held later.
pub fn say_of_records<E: Write>(
    alloc: Global,
    state: &str,
    before: &Record<Global>,
    later: &Record<Global>,
    advice: &mut Advice<'_, E>,
) -> usize {
    if !advice.is_wanted() || !advice.is_asked() && steps_in(before, later) > MOST_STEPS {
        return 0;
    }
    let (Ok(new), Ok(decided)) = (judge(alloc, before, later), decided(alloc, before, later)) else {
        return 0;
    };
    let news = News {
        state,
        author: later.author(),
        new: &new,
        decided: &decided,
    };
    let _ = say_new(alloc, &news, advice);
    let _ = say_decided(alloc, &news, advice);
    tally(&new).refuted
}

// How many steps it takes at most to build and to judge the games of which something is new, as they were and as they are.
fn steps_in(before: &Record<Global>, later: &Record<Global>) -> u64 {
    let mut steps: u64 = 0;
    for (code, ops) in later.games().iter() {
        if ops.iter().any(|op| !before.store().contains(op)) {
            let was = before.game(*code).map_or(0, steps_of);
            steps = steps.saturating_add(steps_of(ops)).saturating_add(was);
        }
    }
    steps
}

// How many steps it takes at most to build the game of these operations and to judge them. For each heap below the end of
// its last block these are as many as there are such heaps, for its options, and one for each operation, which is compared
// there.
fn steps_of(ops: &OpSet<Global>) -> u64 {
    let heaps = heaps_in(ops);
    heaps.saturating_mul(heaps.saturating_add(ops.len() as u64))
}

// How many heaps lie below the end of the last of these blocks.
fn heaps_in(ops: &OpSet<Global>) -> u64 {
    let mut heaps = 0;
    for op in ops.iter() {
        if let Body::Block(block) = op.body() {
            heaps = u64::from(block.end()).max(heaps);
        }
    }
    heaps.min(LIMIT as u64)
}

// What a command brought to the state of an author.
#[derive(Drop)]
struct News<'a> {
    state: &'a str,
    author: u32,
    /// The blocks and claims that are new.
    new: &'a [JudgedClaim],
    /// Those that were there, and pending, and are decided now.
    decided: &'a [JudgedClaim],
}

// Says what became of one that is new, or how many there are of each.
fn say_new<E: Write>(
    alloc: Global,
    news: &News<'_>,
    advice: &mut Advice<'_, E>,
) -> Result<(), AllocError> {
    match news.new {
        [] => {}
        [one] => {
            advice.tell(&verdict_text(alloc, one)?);
            warn_of_exchange(alloc, one, advice)?;
        }
        all => advice.tell(&count_text(alloc, news.state, all)?),
    }
    Ok(())
}

// Says what decides one that was pending, or how many there are of each.
fn say_decided<E: Write>(
    alloc: Global,
    news: &News<'_>,
    advice: &mut Advice<'_, E>,
) -> Result<(), AllocError> {
    match news.decided {
        [] => {}
        [one] => {
            let verdict = verdict_text(alloc, one)?;
            advice.tell(&format!(in alloc; "decided now: {verdict}")?);
            warn_of_exchange(alloc, one, advice)?;
        }
        all => advice.tell(&decided_text(alloc, news, all)?),
    }
    Ok(())
}

// How many are new, and how many of these are proved, refuted and pending.
fn count_text(alloc: Global, state: &str, all: &[JudgedClaim]) -> Result<String, AllocError> {
    let new = all.len();
    let counts = tally(all);
    let (proved, refuted, pending) = (counts.proved, counts.refuted, counts.pending);
    let mut text = format!(in alloc;
        "{new} new: {proved} proved, {refuted} refuted, {pending} pending"
    )?;
    push_list(alloc, &mut text, state, refuted)?;
    Ok(text)
}

// How many that were pending are proved and refuted now, the author's own apart.
fn decided_text(alloc: Global, news: &News<'_>, all: &[JudgedClaim]) -> Result<String, AllocError> {
    let found = count_decided(news.author, all);
    let mut counts = String::new(alloc);
    push_count(alloc, &mut counts, found.own_proved, "of yours proved")?;
    push_count(alloc, &mut counts, found.own_refuted, "of yours refuted")?;
    push_count(alloc, &mut counts, found.others_proved, "of others proved")?;
    push_count(
        alloc,
        &mut counts,
        found.others_refuted,
        "of others refuted",
    )?;
    let mut text = format!(in alloc; "decided now: {counts}")?;
    let refuted = found.own_refuted.saturating_add(found.others_refuted);
    push_list(alloc, &mut text, news.state, refuted)?;
    Ok(text)
}

// Appends how many there are of a kind, where there are some.
fn push_count(
    alloc: Global,
    counts: &mut String,
    count: usize,
    kind: &str,
) -> Result<(), AllocError> {
    if count == 0 {
        return Ok(());
    }
    let comma = if counts.is_empty() { "" } else { ", " };
    counts.push_str(&format!(in alloc; "{comma}{count} {kind}")?)
}

// Appends what lists so many refuted ones, where there are some.
fn push_list(
    alloc: Global,
    text: &mut String,
    state: &str,
    refuted: usize,
) -> Result<(), AllocError> {
    if refuted == 0 {
        return Ok(());
    }
    let state = quoted(alloc, state)?;
    text.push_str(&format!(in alloc; "; census games {state} --refuted lists them")?)
}

// What became of a block or a claim.
fn verdict_text(alloc: Global, one: &JudgedClaim) -> Result<String, AllocError> {
    let (author, number) = (one.dot.author(), one.dot.number());
    match one.verdict {
        Verdict::Proved => format!(in alloc; "{author}.{number}: proved"),
        Verdict::WrongBlock { at, claimed, truth } => format!(in alloc;
            "{author}.{number}: refuted at {at}, claimed {claimed}, true {truth}"
        ),
        Verdict::WrongClaim {
            period,
            at,
            value,
            repeated,
            ..
        } => {
            let later = u64::from(at) + u64::from(period);
            format!(in alloc;
                "{author}.{number}: refuted at {at}, which has the value {value}, and {later} the value {repeated}"
            )
        }
        Verdict::PendingBlock => format!(in alloc;
            "{author}.{number}: pending, since it starts beyond the known values"
        ),
        Verdict::PendingClaim { needs } => format!(in alloc;
            "{author}.{number}: pending, until the first {needs} values are known"
        ),
    }
}

// Warns of a refuted claim, where the one with start and period exchanged is proved.
fn warn_of_exchange<E: Write>(
    alloc: Global,
    one: &JudgedClaim,
    advice: &mut Advice<'_, E>,
) -> Result<(), AllocError> {
    if let Some(text) = exchange_text(alloc, one)? {
        advice.warn(&text);
    }
    Ok(())
}

// What is said of a refuted claim, where the one with start and period exchanged is proved.
fn exchange_text(alloc: Global, one: &JudgedClaim) -> Result<Option<String>, AllocError> {
    let (author, number) = (one.dot.author(), one.dot.number());
    match one.verdict {
        Verdict::WrongClaim {
            start,
            period,
            is_exchanged: true,
            ..
        } => Ok(Some(format!(in alloc;
            "{author}.{number} says from {start} by {period}; from {period} by {start} is proved: were the two \
             exchanged?"
        )?)),
        _ => Ok(None),
    }
}
