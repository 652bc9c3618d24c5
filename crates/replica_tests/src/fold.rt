//! Lines of deltas in hexadecimal, folded into one catalogue.

use crate::answers::{check, check_equal, is_text};
use census_core::{Fault, fold_lines};
use std::io;
use std::io::{ErrorKind, Read, Write};
use std::process::Abort;
use worked::{
    BOTH_SHOWN, EARLY, FIRST, LATER, LATER_SHOWN, NEXT, NEXT_SHOWN, NONE_SHOWN, NOTHING,
    NOTHING_NEW, REMOVAL, SECOND, THIRD, THREE_SHOWN, TURNS, TURNS_SHOWN, UNTOLD, UNTOLD_SHOWN,
    put_digits,
};

// FIRST in capitals with a carriage return.
const CAPITALS: &str = "\
4F474431 00000001
00000001 00000001 01 00020707 00000000 0005 00000000 00000001 00000002 00000003 00000001\r";

// Kayles 1.1 at 1 count 4.
const OTHER: &str = "\
4f474431 00000001
00000001 00000001 01 00020707 00000001 0004 00000001 00000002 00000003 00000001";

// Kayles 1.1 at 1 count 6, of which the last two values are wrong.
const WRONG: &str = "\
4f474431 00000001
00000001 00000001 01 00020707 00000001 0006 00000001 00000002 00000003 00000001 00000005 00000000";

// Kayles 1.1 at 4095 count 1.
const LAST: &str = "\
4f474431 00000001
00000001 00000001 01 00020707 00000fff 0001 00000000";

// The game 4.0, 1.1 at 0 count 7.
const SPLITS: &str = "\
4f474431 00000001
00000001 00000001 01 0400 00000000 0007 00000000 00000000 00000001 00000000 00000001 00000000 00000001";

// The claim 1.2 of the game 4.0 from 1 by 2.
const SPLITS_ON: &str = "\
4f474431 00000001
00000001 00000002 02 0400 00000001 00000002";

// The game 0.3, 1.1 at 0 count 6 with the claim 1.2 from 1 by 2.
const SIX_TURNS: &str = "\
4f474431 00000002
00000001 00000001 01 000103 00000000 0006 00000000 00000001 00000000 00000001 00000000 00000001
00000001 00000002 02 000103 00000001 00000002";

// A far block of 0.3, 1.3 at 1000 count 2.
const FAR: &str = "\
4f474431 00000001
00000001 00000003 01 000103 000003e8 0002 00000000 00000001";

// A wrong one, 1.4 at 1000 count 2.
const WRONG_FAR: &str = "\
4f474431 00000001
00000001 00000004 01 000103 000003e8 0002 00000000 00000000";

// A front of a delta.
const CUT: &str = "4f474431 00000001 0000";

// What is shown of FIRST.
const FIRST_SHOWN: &str =
    "census 2\ngame 0.77 known 5\nvalues 0 0 1 2 3 1\nblock 1.1 at 0 count 5 proved\nauthor 1 through 1 last 1\nend\n";

// What is shown of FIRST and OTHER.
const FORK_SHOWN: &str =
    "census 2\ngame 0.77 known 5\nvalues 0 0 1 2 3 1\nblock 1.1 at 0 count 5 proved\nblock 1.1 at 1 count 4 proved\nfork 1.1 contents 2\nauthor 1 through 1 last 1\nend\n";

/// Lines, their catalogue, and how many of them are refused. Blanks of a line are left out.
#[derive(Clone, Copy)]
struct Case {
    lines: &'static [&'static str],
    shown: &'static str,
    refused: u64,
}

const CASES: &[Case] = &[
    Case {
        lines: &[],
        shown: NONE_SHOWN,
        refused: 0,
    },
    Case {
        lines: &[NOTHING],
        shown: NONE_SHOWN,
        refused: 0,
    },
    Case {
        lines: &[NOTHING_NEW],
        shown: NONE_SHOWN,
        refused: 0,
    },
    Case {
        lines: &[FIRST],
        shown: FIRST_SHOWN,
        refused: 0,
    },
    Case {
        lines: &[FIRST, FIRST],
        shown: FIRST_SHOWN,
        refused: 0,
    },
    Case {
        lines: &["zz", CAPITALS, "", CUT],
        shown: FIRST_SHOWN,
        refused: 2,
    },
    Case {
        lines: &[FIRST, NEXT],
        shown: BOTH_SHOWN,
        refused: 0,
    },
    Case {
        lines: &[NEXT, FIRST],
        shown: BOTH_SHOWN,
        refused: 0,
    },
    Case {
        lines: &[NEXT],
        shown: NEXT_SHOWN,
        refused: 0,
    },
    Case {
        lines: &[OTHER],
        shown: "census 2\ngame 0.77 known 5\nvalues 0 0 1 2 3 1\nblock 1.1 at 1 count 4 proved\nauthor 1 through 1 last 1\nend\n",
        refused: 0,
    },
    Case {
        lines: &[FIRST, FIRST, SECOND, SECOND, THIRD, THIRD],
        shown: THREE_SHOWN,
        refused: 0,
    },
    Case {
        lines: &[WRONG],
        shown: "census 2\ngame 0.77 known 1\nvalues 0 0\nblock 1.1 at 1 count 6 refuted at 5 claimed 5 true 4\nauthor 1 through 1 last 1\nend\n",
        refused: 0,
    },
    Case {
        lines: &[LAST],
        shown: "census 2\ngame 0.77 known 1\nvalues 0 0\nblock 1.1 at 4095 count 1 pending\nauthor 1 through 1 last 1\nend\n",
        refused: 0,
    },
    Case {
        lines: &[FIRST, OTHER],
        shown: FORK_SHOWN,
        refused: 0,
    },
    Case {
        lines: &[OTHER, FIRST],
        shown: FORK_SHOWN,
        refused: 0,
    },
    Case {
        lines: &[SPLITS],
        shown: "census 2\ngame 4.0 known 7\nvalues 0 0 0 1 0 1 0 1\nblock 1.1 at 0 count 7 proved\nauthor 1 through 1 last 1\nend\n",
        refused: 0,
    },
    Case {
        lines: &[SPLITS, SPLITS_ON],
        shown: "census 2\ngame 4.0 known 7\nvalues 0 0 0 1 0 1 0 1\nblock 1.1 at 0 count 7 proved\nperiod 1.2 from 1 by 2 proved\nauthor 1 through 2 last 2\nend\n",
        refused: 0,
    },
    Case {
        lines: &[TURNS],
        shown: TURNS_SHOWN,
        refused: 0,
    },
    Case {
        lines: &[SIX_TURNS],
        shown: "census 2\ngame 0.3 known 6\nvalues 0 0 1 0 1 0 1\nblock 1.1 at 0 count 6 proved\nperiod 1.2 from 1 by 2 pending needs 7\nauthor 1 through 2 last 2\nend\n",
        refused: 0,
    },
    Case {
        lines: &[UNTOLD],
        shown: UNTOLD_SHOWN,
        refused: 0,
    },
];

// Three lines, and their catalogue in every order.
const IN_EVERY_ORDER: &[([&str; 3], &str)] = &[
    (
        [TURNS, FAR, WRONG_FAR],
        "census 2\ngame 0.3 known 7\nvalues 0 0 1 0 1 0 1 0\nblock 1.1 at 0 count 7 proved\nblock 1.3 at 1000 count 2 proved\nblock 1.4 at 1000 count 2 refuted at 1001 claimed 0 true 1\nperiod 1.2 from 1 by 2 proved\nauthor 1 through 4 last 4\nend\n",
    ),
    (
        [SIX_TURNS, FAR, WRONG_FAR],
        "census 2\ngame 0.3 known 6\nvalues 0 0 1 0 1 0 1\nblock 1.1 at 0 count 6 proved\nblock 1.3 at 1000 count 2 pending\nblock 1.4 at 1000 count 2 pending\nperiod 1.2 from 1 by 2 pending needs 7\nauthor 1 through 4 last 4\nend\n",
    ),
    ([EARLY, LATER, REMOVAL], LATER_SHOWN),
];

// The lines, each with a line feed.
fn input_of(rt: &(impl Abort + AllocGlobal), lines: &[&str]) -> Vec<u8> {
    let mut input = Vec::new(rt.alloc());
    for line in lines {
        let is_put = put_digits(&mut input, line).is_ok() && input.push(b'\n').is_ok();
        check(rt, is_put, line);
    }
    input
}

// The lines give this catalogue and so many refusals.
fn folds(rt: &(impl Abort + AllocGlobal), lines: &[&str], shown: &str, refused: u64) {
    let input = input_of(rt, lines);
    let mut out = Vec::new(rt.alloc());
    let folded = fold_lines(rt.alloc(), &mut input.as_slice(), &mut out);
    check_equal(
        rt,
        folded,
        Ok(refused),
        format_args!("refused of {lines:?}"),
    );
    is_text(rt, &out, shown, "the catalogue");
}

// Three lines give this catalogue in each of their six orders.
fn folds_orders(rt: &(impl Abort + AllocGlobal), lines: [&str; 3], shown: &str) {
    let [mut one, mut two, mut three] = lines;
    for _ in 0..3 {
        folds(rt, &[one, two, three], shown, 0);
        folds(rt, &[one, three, two], shown, 0);
        (one, two, three) = (two, three, one);
    }
}

#[test]
fn lines_are_folded(rt: HostRuntime) {
    for &Case {
        lines,
        shown,
        refused,
    } in CASES {
        folds(&rt, lines, shown, refused);
    }
    for &(lines, shown) in IN_EVERY_ORDER {
        folds_orders(&rt, lines, shown);
    }
}

// The reader of a kind and the writer with room for so many bytes give this to the fold of FIRST without a line feed, and so
// many bytes of its catalogue are written.
fn folds_over(
    rt: &(impl Abort + AllocGlobal),
    kind: Kind,
    room: usize,
    answer: Result<u64, Fault>,
    written: usize,
) {
    let mut line = Vec::new(rt.alloc());
    check(rt, put_digits(&mut line, FIRST).is_ok(), FIRST);
    let mut source = Source { bytes: &line, kind };
    let mut sink = Sink {
        expected: FIRST_SHOWN.as_bytes(),
        room,
        is_flushed: true,
    };
    let folded = fold_lines(rt.alloc(), &mut source, &mut sink);
    check_equal(
        rt,
        folded,
        answer,
        format_args!("{} with room for {room} bytes", kind.name()),
    );
    let count = FIRST_SHOWN.len().saturating_sub(sink.expected.len());
    check_equal(
        rt,
        count,
        written,
        format_args!("bytes after {} with room for {room} bytes", kind.name()),
    );
    check(
        rt,
        sink.is_flushed || folded.is_err(),
        format_args!("bytes left in the writer with room for {room} bytes"),
    );
}

/// How a reader ends: well, by a failure at once, or never, since it gives lines without end.
#[derive(Clone, Copy)]
enum Kind {
    Whole,
    Failing,
    Endless,
}

impl Kind {
    fn name(self) -> &'static str {
        match self {
            Kind::Whole => "a whole reader",
            Kind::Failing => "a failing reader",
            Kind::Endless => "an endless reader",
        }
    }
}

/// Gives its bytes, or fails at once, or gives lines without end, each of what stands in the room for it, up to its last byte.
#[derive(Clone, Copy)]
struct Source<'a> {
    bytes: &'a [u8],
    kind: Kind,
}

impl Read for Source<'_> {
    fn read(&mut self, buf: &mut [u8]) -> io::Result<usize> {
        match self.kind {
            Kind::Whole => self.bytes.read(buf),
            Kind::Failing => Err(io::Error::from(ErrorKind::BrokenPipe)),
            Kind::Endless => {
                if let [.., last] = &mut *buf {
                    *last = b'\n';
                }
                Ok(buf.len())
            }
        }
    }
}

/// Takes the bytes that it expects one at a time, as long as there is room, and then none. It notes whether all that it took
/// was flushed.
#[derive(Clone, Copy)]
struct Sink {
    expected: &'static [u8],
    room: usize,
    is_flushed: bool,
}

impl Write for Sink {
    fn write(&mut self, buf: &[u8]) -> io::Result<usize> {
        if self.room == 0 || buf.is_empty() || self.expected.first() != buf.first() {
            return Ok(0);
        }
        self.room -= 1;
        self.expected = &self.expected[1..];
        self.is_flushed = false;
        Ok(1)
    }

    fn flush(&mut self) -> io::Result<()> {
        self.is_flushed = true;
        Ok(())
    }
}

#[test]
fn devices_may_end_or_fail(rt: HostRuntime) {
    let all = usize::MAX;
    folds_over(&rt, Kind::Whole, all, Ok(0), FIRST_SHOWN.len());
    folds_over(&rt, Kind::Failing, all, Err(Fault::Read), 0);
    folds_over(&rt, Kind::Endless, all, Err(Fault::TooLong), 0);
    folds_over(&rt, Kind::Whole, 3, Err(Fault::Write), 3);
}
