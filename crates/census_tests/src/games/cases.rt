//! Games with period claims, and what follows from them.

use crate::vectors::KAYLES_VALUES;
use oct_period::{PeriodStatus, Unknown};
use oct_verify::Status;
use oct_verify::Status::{Pending, Proved, Refuted};

/// A block or a claim of author 1, and what is said of it where all of its case are there.
#[derive(Clone, Copy)]
pub(crate) enum Item {
    /// Its number, its first heap and its values.
    Block(u32, u32, &'static [u32], Status),
    /// Its number, its start and its period.
    Claim(u32, u32, u32, PeriodStatus),
}

/// A position and its value, by which the player to move wins it if it is not 0, or the place of the heap that is not known.
pub(crate) type Answer = (&'static [u64], Result<u32, Unknown>);

/// A game with its blocks and claims, and what follows from them: the known length, the comparisons that were made, and
/// answers, which are also those of a list of the wrong claim from 2 by 1 and the claim of this start and period.
#[derive(Clone, Copy)]
pub(crate) struct Case {
    pub(crate) code: &'static str,
    pub(crate) items: &'static [Item],
    pub(crate) known: u32,
    pub(crate) checks: u64,
    pub(crate) start: u32,
    pub(crate) period: u32,
    pub(crate) answers: &'static [Answer],
}

// Seven nim-values of 0.3, and the claim that they prove.
const SEVEN: Item = Item::Block(1, 0, &[0, 1, 0, 1, 0, 1, 0], Proved);

const BY_TWO: Item = Item::Claim(2, 1, 2, PeriodStatus::Proved);

// Blocks far from the first, which a proved claim settles, and claims that are wrong or prove nothing yet.
pub(crate) const TURNS: &[Case] = &[
    Case {
        code: "0.3",
        items: &[
            SEVEN,
            BY_TWO,
            Item::Block(3, 1_000, &[0, 1], Proved),
            Item::Block(
                4,
                1_000,
                &[0, 0],
                Refuted {
                    at: 1_001,
                    claimed: 0,
                    truth: 1,
                },
            ),
        ],
        known: 7,
        checks: 1,
        start: 1,
        period: 2,
        answers: &[(&[1_000_000_001], Ok(1)), (&[7, 1_000_000_001], Ok(0))],
    },
    Case {
        code: "0.3",
        items: &[
            Item::Block(1, 0, &[0, 1, 0, 1, 0, 1], Proved),
            Item::Claim(2, 1, 2, PeriodStatus::Pending { needs: 7 }),
            Item::Block(3, 1_000, &[0, 1], Pending),
            Item::Block(4, 1_000, &[0, 0], Pending),
        ],
        known: 6,
        checks: 1,
        start: 1,
        period: 2,
        answers: &[(&[5, 6], Err(Unknown { index: 1 }))],
    },
    Case {
        code: "0.3",
        items: &[
            SEVEN,
            BY_TWO,
            Item::Claim(2, 2, 1, PeriodStatus::Refuted { at: 2 }),
        ],
        known: 7,
        checks: 1,
        start: 1,
        period: 2,
        answers: &[(&[1, 1_000_000_001], Ok(0))],
    },
    Case {
        code: "0.3",
        items: &[SEVEN, Item::Claim(2, 2, 1, PeriodStatus::Refuted { at: 2 })],
        known: 7,
        checks: 1,
        start: 2,
        period: 1,
        answers: &[(&[6, 7], Err(Unknown { index: 1 }))],
    },
    Case {
        code: "4.0",
        items: &[
            Item::Block(1, 0, &[0, 0, 1, 0, 1, 0, 1], Proved),
            Item::Claim(2, 1, 2, PeriodStatus::Proved),
        ],
        known: 7,
        checks: 1,
        start: 1,
        period: 2,
        answers: &[],
    },
];

// Kayles with few values, with one too few to prove its claim, and with all; and a game of which nothing is known.
pub(crate) const LONGER: &[Case] = &[
    Case {
        code: "0.77",
        items: &[Item::Block(1, 0, &[0, 1, 2, 3, 1], Proved)],
        known: 5,
        checks: 1,
        start: 71,
        period: 12,
        answers: &[
            (&[1, 2, 3], Ok(0)),
            (&[1, 2], Ok(3)),
            (&[5], Err(Unknown { index: 0 })),
            (&[], Ok(0)),
        ],
    },
    Case {
        code: "0.77",
        items: &[
            Item::Block(1, 0, &KAYLES_VALUES, Proved),
            Item::Claim(2, 71, 12, PeriodStatus::Pending { needs: 168 }),
            Item::Claim(3, 70, 12, PeriodStatus::Refuted { at: 70 }),
        ],
        known: 167,
        checks: 1,
        start: 71,
        period: 12,
        answers: &[
            (&[5, 1_000_000_000], Err(Unknown { index: 1 })),
            (&[167], Err(Unknown { index: 0 })),
        ],
    },
    Case {
        code: "0.77",
        items: &[
            Item::Block(1, 0, &KAYLES_VALUES, Proved),
            Item::Claim(2, 71, 12, PeriodStatus::Proved),
            Item::Claim(3, 70, 12, PeriodStatus::Refuted { at: 70 }),
            Item::Block(4, 167, &[7], Proved),
        ],
        known: 168,
        checks: 2,
        start: 71,
        period: 12,
        answers: &[
            (&[1_000_000_000], Ok(1)),
            // 2^64 - 1 is 75 and a multiple of 12
            (&[u64::MAX], Ok(8)),
            (&[5, 6], Ok(7)),
            (&[], Ok(0)),
            (&[0], Ok(0)),
        ],
    },
    Case {
        code: "0.07",
        items: &[],
        known: 1,
        checks: 0,
        start: 1,
        period: 1,
        answers: &[(&[1], Err(Unknown { index: 0 }))],
    },
];
