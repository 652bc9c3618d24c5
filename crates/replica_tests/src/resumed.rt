//! A search in windows that is taken up again.

use crate::answers::{check, check_equal};
use census_core::{
    Fault, Form, Keeper, Place, Unkept, read_search, resume_in_windows, search_in_windows,
    write_place,
};
use oct_code::Code;
use std::alloc::{AllocGlobal, Global};
use std::process::Abort;

/// Keeps the text of each place, and notes how many were called the last one.
#[derive(Drop)]
struct Album {
    alloc: Global,
    texts: Vec<Vec<u8>>,
    lasts: u32,
    is_full: bool,
}

impl Album {
    ghost use Rattle.std.specs.Prelude.{◌≡◌};

    // Adds the text of a place, where there is memory for it.
    fn add(&mut self, place: &Place<Global>) -> bool
        ensures { self.new.is_full ≡ self.old.is_full }
    {
        match write_place(self.alloc, place) {
            Ok(text) => self.texts.push(text).is_ok(),
            Err(_) => false,
        }
    }
}

impl Keeper<Global> for Album {
    ghost use Rattle.std.specs.Prelude.{true};

    ghost may_refuse = { true };

    ghost has_refused = { λ s. s.is_full };

    fn tell(&mut self, _code: Code, _known: u64, _wanted: u64) {}

    fn keep(&mut self, place: &Place<Global>, is_last: bool) -> Result<(), Unkept> {
        self.lasts = self.lasts.saturating_add(u32::from(is_last));
        if self.add(place) {
            return Ok(());
        }
        self.is_full = true;
        Err(Unkept)
    }
}

/// Refuses the first place, and no other.
#[derive(Drop)]
struct Refusing {
    has_refused: bool,
}

impl Keeper<Global> for Refusing {
    ghost use Rattle.std.specs.Prelude.{true};

    ghost may_refuse = { true };

    ghost has_refused = { λ s. s.has_refused };

    fn tell(&mut self, _code: Code, _known: u64, _wanted: u64) {}

    fn keep(&mut self, _place: &Place<Global>, _is_last: bool) -> Result<(), Unkept> {
        if self.has_refused {
            return Ok(());
        }
        self.has_refused = true;
        Err(Unkept)
    }
}

// The period of published tables, by the values at which the window marked at 262,144 comes again.
const FOUND: &str = "0.16 period 149459 from 105351 needs 509622 values 411603";

const RESUMED: &str =
    "0.16 period 149459 from 105351 needs 509622 values 411603 from a saved search";

// A step goes on by an eighth. From 65,536 on it comes to 15 places before these values come again; then to one where they have;
// and then to the last one, where the least heap is found.
const PLACES: usize = 17;

// A search by fewer values ends at a place at which no period is seen.
const FEWER: u64 = 300_000;

const FEWER_PLACES: usize = 13;

const UNSEEN: &str = "0.16 no period seen in 300000 values";

// The line is the one that is due, with a line feed.
fn is_line(rt: &impl Abort, line: Result<Vec<u8>, Fault>, due: &str) {
    let line = line.ok().expect(rt, due);
    check_equal(
        rt,
        line.strip_suffix(b"\n"),
        Some(due.as_bytes()),
        "the line",
    );
}

// The search goes on from the place of the text, and that is written as this text.
fn goes_on(rt: &(impl Abort + AllocGlobal), code: Code, text: &[u8]) {
    let alloc = rt.alloc();
    let Ok(place) = read_search(alloc, code, text) else {
        return check(rt, false, "a place is read");
    };
    let same = write_place(alloc, &place).ok().expect(rt, "memory");
    check_equal(rt, same.as_slice(), text, "the place");
    let mut keeper = album_of_none(alloc);
    let line = resume_in_windows(alloc, place, 1_000_000, Form::Lines, &mut keeper);
    is_line(rt, line, RESUMED);
}

#[test]
fn a_search_goes_on_from_each_place(rt: HostRuntime) {
    let code = Code::parse(b"0.16").ok().expect(&rt, "a code");
    let mut album = album_of_none(rt.alloc());
    let line = search_in_windows(rt.alloc(), code, 1_000_000, Form::Lines, &mut album);
    is_line(&rt, line, FOUND);
    let kept = (album.texts.len(), album.lasts);
    check_equal(&rt, kept, (PLACES, 1), "places and last places");
    for text in &album.texts {
        goes_on(&rt, code, text);
    }
}

#[test]
fn a_search_goes_on_where_none_is_seen(rt: HostRuntime) {
    let code = Code::parse(b"0.16").ok().expect(&rt, "a code");
    let mut album = album_of_none(rt.alloc());
    let line = search_in_windows(rt.alloc(), code, FEWER, Form::Lines, &mut album);
    is_line(&rt, line, UNSEEN);
    check_equal(&rt, album.texts.len(), FEWER_PLACES, "places");
    for text in &album.texts {
        goes_on(&rt, code, text);
    }
}

// One that keeps nothing yet.
fn album_of_none(alloc: Global) -> Album {
    Album {
        alloc,
        texts: Vec::new(alloc),
        lasts: 0,
        is_full: false,
    }
}

#[test]
fn a_place_that_is_not_kept_ends_a_search(rt: HostRuntime) {
    let code = Code::parse(b"0.16").ok().expect(&rt, "a code");
    let mut keeper = Refusing { has_refused: false };
    let line = search_in_windows(rt.alloc(), code, 1_000_000, Form::Lines, &mut keeper);
    check_equal(&rt, line.err(), Some(Fault::File), "the fault");
}
