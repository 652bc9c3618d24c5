//! Periods of the literature, far beyond the limit of the games.

use crate::cells::Cells;
use crate::finder::Finder;
use crate::search::Search;
use crate::seldom::Seldom;
use oct_code::Code;
use oct_mex::{SeenPeriod, Values};
use oct_progress::Nobody;
use std::process::Abort;

// The search of a game finds this period, by so many values.
fn finds(rt: &(impl Abort + AllocGlobal), code: &str, count: u32, wanted: SeenPeriod) {
    let parsed = Code::parse(code.as_bytes()).ok().expect(rt, code);
    let mut search = Search::new(rt.alloc(), parsed);
    let seen = search
        .search(count as usize, &mut Nobody)
        .ok()
        .expect(rt, "memory");
    let seen = seen.expect(rt, code);
    assert_eq!(rt; seen.period, wanted.period, "the period of {code}");
    assert_eq!(rt;
        seen.start,
        wanted.start,
        "the heap from which {code} repeats"
    );
    assert!(rt;
        search.len() <= count as usize,
        "{code} takes more values than were asked for"
    );
    let heap = seen.start + 1_000 * seen.period;
    let far = search.value_by(seen, heap as u64);
    assert_eq!(rt;
        search.value(seen.start),
        Some(far),
        "of {code} at heap {heap}"
    );
}

#[test]
fn periods_of_the_literature_are_found(rt: HostRuntime) {
    let kayles = SeenPeriod {
        start: 71,
        period: 12,
    };
    finds(&rt, "0.77", 1_000, kayles);
    let dawson = SeenPeriod {
        start: 52,
        period: 34,
    };
    finds(&rt, "0.137", 1_000, dawson);
    let sixteen = SeenPeriod {
        start: 105_351,
        period: 149_459,
    };
    finds(&rt, "0.16", 1_000_000, sixteen);
}

#[test]
fn what_is_not_searched_far_enough_shows_no_period(rt: HostRuntime) {
    let kayles = Code::parse(b"0.77").ok().expect(&rt, "a code");
    let mut search = Search::new(rt.alloc(), kayles);
    assert!(&rt;
        matches!(search.search(100, &mut Nobody), Ok(None)),
        "a period by 100 values"
    );
    assert!(&rt; search.extend(167).is_ok(), "memory");
    assert_eq!(&rt; search.len(), 167, "values");
    assert_eq!(&rt; search.value(167), None, "one value more");
    assert!(&rt;
        search.find_period().is_none(),
        "a period by one value too few"
    );
    assert!(&rt; search.extend(168).is_ok(), "memory");
    assert!(&rt; search.find_period().is_some(), "no period");
}

// By the rule of the games, in a program of another language: the first value above 255 is 256.
#[test]
fn values_above_255_are_held(rt: HostRuntime) {
    let all_sevens = Code::parse(b"4.7777777777777777")
        .ok()
        .expect(&rt, "a code");
    let mut search = Search::new(rt.alloc(), all_sevens);
    assert!(&rt; search.extend(1_500).is_ok(), "memory");
    assert_eq!(&rt; search.len(), 1_500, "values");
    assert_eq!(&rt; search.value(235), Some(256), "of heap 235");
    assert_eq!(&rt; search.value(1_499), Some(128), "of heap 1,499");
    assert_eq!(&rt; search.known(235), 256, "of heap 235");
}

// What a list has that goes on by sets from 16,384 values on is what a table has that knows none.
#[test]
fn values_by_sets_are_those_by_marks(rt: HostRuntime) {
    for text in ["0.104", "0.16"] {
        let code = Code::parse(text.as_bytes()).ok().expect(&rt, text);
        let mut cells = Cells::new(rt.alloc());
        let mut finder = Finder::new(rt.alloc());
        while cells.len() < 65_536 {
            cells.push_settled(&code, &mut finder, 65_535);
            let pushed = cells.push_next(rt.alloc(), &code, &mut finder);
            assert!(&rt; pushed.is_ok(), "memory");
        }
        assert!(&rt; finder.sets.is_some(), "{text} goes on with no sets");
        let mut values = Values::new(rt.alloc(), code);
        assert!(&rt; values.extend_to(65_536).is_ok(), "memory");
        for heap in 0..cells.len() {
            let value = Some(u32::from(cells.value(heap)));
            assert_eq!(&rt; value, values.get(heap), "of {text} at heap {heap}");
        }
    }
}

// The period 349 from heap 3,479 on takes 7,659 values to show itself.
#[test]
fn one_settled_period_is_enough(rt: HostRuntime) {
    let code = Code::parse(b"0.156").ok().expect(&rt, "a code");
    let mut cells = Cells::new(rt.alloc());
    let mut finder = Finder::new(rt.alloc());
    for _ in 0..5_120usize {
        let pushed = cells.push_next(rt.alloc(), &code, &mut finder);
        assert!(&rt; pushed.is_ok(), "memory");
    }
    let mut seldom = Seldom::new(rt.alloc());
    let outlook = cells.look_ahead(rt.alloc(), &code, &mut seldom, &mut finder.marks);
    let outlook = outlook.ok().expect(&rt, "memory");
    let found = outlook.certain.expect(&rt, "a period");
    assert_eq!(&rt; found.period, 349, "the period");
    assert_eq!(&rt; found.start, 3_479, "the heap from which it is seen");
}
