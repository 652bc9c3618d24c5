//! Games with period claims: what is said of blocks, claims and positions in every order, without memory and after each
//! refusal of memory.

mod cases;

ghost use Rattle.std.specs.Prelude.{◌≡◌};

use crate::answers::{check, check_equal, code, dot};
use crate::ledgers::{block, told};
use cases::{Answer, Case, Item, LONGER, TURNS};
use metered::Metered;
use oct_ops::{Block, Dot, Period};
use oct_period::Outcome::{NextLoses, NextWins};
use oct_period::{
    Game, Leaders, Outcome, PeriodClaim, PeriodStatus, Unknown, heap_value, outcome, period_status,
    position_value,
};
use oct_verify::{Ledger, Status};
use std::alloc::{Allocator, Global};
use std::process::Abort;

// The places of four items, one after the other.
const IN_ORDER: [usize; 4] = [0, 1, 2, 3];

// The status of a block, which is added if it is not there; none where memory is refused. The block and its copy take two
// requests.
#[tactic(auto, using(oct_verify::proofs::Filings::filed_itself))]
fn status_of<A: Allocator + Copy>(
    alloc: A,
    game: &mut Game<A>,
    dot: Dot,
    block: Block<A>,
) -> Option<Status>
    requires { block.code ≡ game.old.code }
{
    let again = block.copy(alloc).ok()?;
    match game.add_block(dot, block) {
        Ok(()) => Some(game.block_status(&dot, &again)),
        Err(_) => None,
    }
}

// The status of a claim, which is added if it is not there; none where memory is refused.
fn claim_status<A: Allocator + Copy>(
    rt: &impl Abort,
    game: &mut Game<A>,
    dot: Dot,
    start: u32,
    length: u32,
) -> Option<PeriodStatus> {
    let period = Period::new(game.code(), start, length).expect(rt, "a claim");
    match game.add_period(dot, period) {
        Ok(()) => Some(period_status(game.ledger(), &period)),
        Err(_) => None,
    }
}

// A status of a claim in words, with its heap.
fn claim_told(status: PeriodStatus) -> (&'static str, u32) {
    match status {
        PeriodStatus::Proved => ("proved", 0),
        PeriodStatus::Pending { needs } => ("pending", needs),
        PeriodStatus::Refuted { at } => ("refuted", at),
    }
}

// Adds an item of author 1 if it is not there, and says whether that was done, which it is not where memory is refused.
fn is_added<A: Allocator + Copy>(
    rt: &impl Abort,
    alloc: A,
    game: &mut Game<A>,
    item: &Item,
) -> bool {
    match *item {
        Item::Block(number, start, values, _) => match block(alloc, game.code(), start, values) {
            Some(block) => status_of(alloc, game, dot(rt, 1, number), block).is_some(),
            None => false,
        },
        Item::Claim(number, start, length, _) => {
            claim_status(rt, game, dot(rt, 1, number), start, length).is_some()
        }
    }
}

// What is said of an item that is there is right, and takes no memory but the two requests for a block and its copy.
fn is_said<A: Allocator + Copy>(
    rt: &impl Abort,
    heap: &Metered<Global>,
    alloc: A,
    game: &mut Game<A>,
    item: &Item,
) {
    heap.arm(1_000);
    match *item {
        Item::Block(number, start, values, said) => {
            let block = block(alloc, game.code(), start, values).expect(rt, "a block");
            let status = status_of(alloc, game, dot(rt, 1, number), block);
            check_equal(rt, told(status), told(Some(said)), ("block", number, start));
            check_equal(rt, heap.left(), 998, ("requests left by block", number));
        }
        Item::Claim(number, start, length, said) => {
            let status = claim_status(rt, game, dot(rt, 1, number), start, length);
            let wanted = Some(claim_told(said));
            check_equal(rt, status.map(claim_told), wanted, ("claim", number, start));
            check_equal(rt, heap.left(), 1_000, ("requests left by claim", number));
        }
    }
}

// The known length, the comparisons and the number of claims.
fn counts<A: Allocator + Copy>(game: &Game<A>) -> (u32, u64, usize) {
    let ledger = game.ledger();
    (ledger.known(), ledger.checks(), game.claims().count())
}

// The number, the start and the period of a claim, and of an item that is one.
fn spelled(claim: &PeriodClaim) -> (u32, u32, u32) {
    let period = &claim.period;
    (claim.dot.number(), period.start(), period.period())
}

fn claim_of(item: &Item) -> Option<(u32, u32, u32)> {
    match *item {
        Item::Claim(number, start, length, _) => Some((number, start, length)),
        Item::Block(..) => None,
    }
}

// Whether the item is there; a block is where it has a status.
fn is_there<A: Allocator + Copy>(game: &Game<A>, item: &Item) -> bool {
    let wanted = claim_of(item);
    let mut found = wanted.is_none();
    for claim in game.claims() {
        found |= Some(spelled(claim)) == wanted;
    }
    found
}

// The number of orders in which so many items can come, which are at most four.
fn count_orders(items: usize) -> usize {
    match items {
        0 | 1 => 1,
        2 => 2,
        3 => 6,
        _ => 24,
    }
}

// The places of so many items in one of their orders: each number below that of the orders gives another one. The places
// of no item stay behind.
fn order_of(number: usize, items: usize) -> [usize; 4] {
    let mut places = IN_ORDER;
    let mut rest = number;
    for front in 2..5usize {
        if front <= items {
            places.swap(rest % front, front - 1);
            rest /= front;
        }
    }
    places
}

// Adds the items in the order of the places, with so many requests granted for each by the heap, in which `alloc` asks for
// memory, and once more where it is in, as it may come twice. Says whether the requests were too few, which changes nothing.
fn fill<A: Allocator + Copy>(
    rt: &impl Abort,
    heap: &Metered<Global>,
    alloc: A,
    game: &mut Game<A>,
    case: &Case,
    order: &[usize; 4],
    grants: u64,
) -> bool {
    let mut refused = false;
    for place in order {
        if let Some(item) = case.items.get(*place) {
            let before = counts(game);
            heap.arm(grants);
            if is_added(rt, alloc, game, item) {
                check(rt, is_there(game, item), ("an item is not there", order));
                let held = counts(game);
                heap.arm(grants);
                check(
                    rt,
                    is_added(rt, alloc, game, item),
                    ("an item is refused again", order),
                );
                check_equal(rt, counts(game), held, ("an item twice", order));
            } else {
                check_equal(
                    rt,
                    counts(game),
                    before,
                    ("order and requests", order, grants),
                );
                refused = true;
            }
        }
    }
    refused
}

// The claims of the game are those of the items, in their order, and it finds the first that is proved.
fn lists<A: Allocator + Copy>(rt: &impl Abort, game: &Game<A>, items: &[Item]) {
    let mut claims = game.claims();
    let mut proved = None;
    for item in items {
        if let Item::Claim(_, _, _, said) = item {
            check_equal(rt, claims.next().map(spelled), claim_of(item), "a claim");
            if *said == PeriodStatus::Proved && proved.is_none() {
                proved = claim_of(item);
            }
        }
    }
    check_equal(
        rt,
        claims.next().map(spelled),
        None,
        "a claim past the last",
    );
    check_equal(
        rt,
        game.proved_claim().map(|claim| spelled(&claim)),
        proved,
        "the proved claim",
    );
}

// This is the answer: the value of the first heap, where there is one alone, that of the position, and who wins it.
fn is_answer(
    rt: &impl Abort,
    answer: &Answer,
    first: Option<u32>,
    value: Result<u32, Unknown>,
    who: Outcome,
) {
    let (heaps, wanted) = *answer;
    let winner = match wanted {
        Ok(0) => NextLoses,
        Ok(_) => NextWins,
        Err(Unknown { index }) => Outcome::Unknown { index },
    };
    if heaps.len() == 1 {
        check_equal(rt, first, wanted.ok(), ("the heap", heaps));
    }
    check_equal(rt, place(value), place(wanted), ("the position", heaps));
    check(rt, who == winner, ("who wins", heaps));
}

// A value, or the place of the heap that is not known.
fn place(value: Result<u32, Unknown>) -> Result<u32, usize> {
    match value {
        Ok(value) => Ok(value),
        Err(Unknown { index }) => Err(index),
    }
}

// The game gives the answer.
fn answers<A: Allocator + Copy>(rt: &impl Abort, game: &Game<A>, answer: &Answer) {
    let heaps = answer.0;
    let first = game.heap_value(heaps.first().copied().unwrap_or(0));
    let value = game.position_value(heaps);
    is_answer(rt, answer, first, value, game.outcome(heaps));
}

// The ledger gives the answer by the claim from 2 by 1 and that of the case.
fn answers_by<A: Allocator + Copy>(
    rt: &impl Abort,
    ledger: &Ledger<A>,
    case: &Case,
    answer: &Answer,
) {
    let code = ledger.code();
    let dot = dot(rt, 1, 1);
    let wrong = Period::new(code, 2, 1).expect(rt, "a claim");
    let period = Period::new(code, case.start, case.period).expect(rt, "a claim");
    let claims = [
        PeriodClaim { dot, period: wrong },
        PeriodClaim { dot, period },
    ];
    let heaps = answer.0;
    let first = heap_value(ledger, &claims, heaps.first().copied().unwrap_or(0));
    let value = position_value(ledger, &claims, heaps);
    is_answer(rt, answer, first, value, outcome(ledger, &claims, heaps));
}

// A game to which all items are added says what it should, and takes no memory to say it.
fn is_settled<A: Allocator + Copy>(
    rt: &impl Abort,
    heap: &Metered<Global>,
    alloc: A,
    game: &mut Game<A>,
    case: &Case,
) {
    let refused = fill(rt, heap, alloc, game, case, &IN_ORDER, u64::MAX);
    check(rt, !refused, "an item is refused with memory");
    for item in case.items {
        is_said(rt, heap, alloc, game, item);
    }
    heap.arm(1_000);
    let ledger = game.ledger();
    check_equal(
        rt,
        (ledger.known(), ledger.checks()),
        (case.known, case.checks),
        "the known length and the comparisons",
    );
    for answer in case.answers {
        answers(rt, game, answer);
        answers_by(rt, game.ledger(), case, answer);
    }
    lists(rt, game, case.items);
    check_equal(rt, heap.left(), 1_000, "requests that are left");
}

// Fills a new game in this order, each time with so many requests granted, and then with memory. Says whether the requests
// were too few.
fn is_refused<A: Allocator + Copy>(
    rt: &impl Abort,
    heap: &Metered<Global>,
    alloc: A,
    case: &Case,
    order: &[usize; 4],
    grants: u64,
) -> bool {
    let code = code(rt, case.code);
    heap.arm(1_000);
    let mut game = Game::new(alloc, code);
    check(rt, game.code() == code, "another code");
    check_equal(rt, heap.left(), 1_000, "requests left by a new game");
    let refused = fill(rt, heap, alloc, &mut game, case, order, grants);
    is_settled(rt, heap, alloc, &mut game, case);
    refused
}

// A case comes out right in this order where each request for memory is refused in turn.
fn survives(rt: &impl Abort, heap: &Metered<Global>, case: &Case, order: &[usize; 4]) {
    for grants in 0..64u64 {
        if !is_refused(rt, heap, heap, case, order, grants) {
            return;
        }
    }
    panic!(rt; "order {order:?} is refused at 64 requests");
}

// The same of each case in each order of its items.
fn are_settled(rt: &impl Abort, heap: &Metered<Global>, cases: &[Case]) {
    for case in cases {
        let count = case.items.len();
        for number in 0..count_orders(count) {
            survives(rt, heap, case, &order_of(number, count));
        }
    }
}

#[test]
fn a_proved_period_settles_far_blocks(rt: HostRuntime) {
    let heap = Metered::new(rt.alloc());
    are_settled(&rt, &heap, TURNS);
}

#[test]
fn kayles_repeats_from_heap_71_on(rt: HostRuntime) {
    let heap = Metered::new(rt.alloc());
    are_settled(&rt, &heap, LONGER);
}

// The values that follow what is known, 1,024 of them.
fn next<A: Allocator + Copy>(rt: &impl Abort, game: &mut Game<A>) -> Vec<u32, A> {
    assert!(rt; game.ledger().known() == 1, "more is known");
    game.compute_next(1_024).ok().expect(rt, "memory")
}

// The next values of a game are those of the game that it follows, which has the same code.
#[test]
fn games_lead_and_follow(rt: HostRuntime) {
    let mut kayles = Game::new(rt.alloc(), code(&rt, "0.77"));
    let due = next(&rt, &mut kayles);
    let mut leaders = Leaders::new(rt.alloc());
    kayles.lead(&mut leaders);
    let mut game = Game::new(rt.alloc(), code(&rt, "0.77"));
    game.follow(&leaders, 1_025).ok().expect(&rt, "memory");
    check_equal(&rt, next(&rt, &mut game), due, "the next values");
}
