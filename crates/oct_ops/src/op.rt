//! Operations, and their order.

ghost use Rattle.std.specs.Prelude.{◌≡◌, true, IfOk};
ghost use Rattle.oct_ops.specs.Games.{game_of_body};
ghost use Rattle.oct_ops.specs.Limits.{keeps_old_limits};
ghost use Rattle.oct_ops.specs.Order as order;
ghost use Rattle.oct_ops.specs.Valid.{IsBody, IsDot, IsOp};
ghost use Rattle.oct_ops.specs.Views.{content};

use crate::block::Block;
use crate::dot::Dot;
use crate::kinds;
use crate::note::Note;
use crate::period::Period;
use crate::removal::Removal;
use oct_code::{Code, OLD_LIMIT};
use std::alloc::{AllocError, Allocator};
use std::cmp::Ordering;
use std::marker::Model;

/// What an operation says. Bodies are ordered by kind, in the order here, and then by their fields.
#[derive(Drop)]
pub enum Body<A: Allocator> {
    /// Claimed values of a game.
    Block(Block<A>),
    /// The claim that a game's values repeat.
    Period(Period),
    /// A text under a name.
    Note(Note<A>),
    /// The removal of notes.
    Removal(Removal<A>),
}

/// A body under its dot. Operations are ordered by author, number, kind and the body's fields, and two are equal only
/// if dot and body are.
#[derive(Drop)]
pub struct Op<A: Allocator> {
    dot: Dot,
    body: Body<A>,
}

impl<A: Allocator> Model for Op<A> {
    ghost use Rattle.oct_ops.specs.Body.{Operation};

    ghost Value = { Operation };

    ghost use Rattle.oct_ops.specs.Valid.{IsOp};
    ghost use Rattle.oct_ops.specs.Views.{content};

    ghost view = { λ o. record { dot = o.dot; body = content o.body } };

    ghost invariant = { λ o. IsOp (record { dot = o.dot; body = content o.body }) };
}

// Each part of a body is valid: `prove!` learns it by this call, which is always true.
fn is_valid<A: Allocator>(body: &Body<A>) -> bool
    ensures yes { result ≡ true }
    ensures valid { IsBody (content body.now) }
{
    match body {
        Body::Block(block) => {
            let _start = block.start();
        }
        Body::Period(period) => {
            let _start = period.start();
        }
        Body::Note(note) => {
            let _name = note.name();
        }
        Body::Removal(removal) => {
            let _dots = removal.dots();
        }
    }
    true
}

// Whether the dot is valid, which it always is.
fn is_valid_dot(dot: &Dot) -> bool
    ensures yes { result ≡ true }
    ensures valid { IsDot dot.now }
{
    dot.number() >= 1
}

impl<A: Allocator> Body<A> {
    /// The game of a block or a period claim. Notes and removals are of none.
    pub fn code(&self) -> Option<Code>
        ensures { result ≡ game_of_body (content self.now) }
    {
        match self {
            Body::Block(block) => Some(block.code()),
            Body::Period(period) => Some(period.code()),
            Body::Note(_) | Body::Removal(_) => None,
        }
    }

    /// The number that stands for the kind in texts.
    pub fn kind(&self) -> u8
        ensures { result ≡ order.kind_of (content self.now) }
    {
        match self {
            Body::Block(_) => kinds::BLOCK,
            Body::Period(_) => kinds::PERIOD,
            Body::Note(_) => kinds::NOTE,
            Body::Removal(_) => kinds::REMOVAL,
        }
    }

    /// A body that is equal to this one, in memory of `alloc`.
    pub fn copy(&self, alloc: A) -> Result<Body<A>, AllocError>
        ensures { IfOk result (λ copy. content copy ≡ content self.now) }
    {
        Ok(match self {
            Body::Block(block) => Body::Block(block.copy(alloc)?),
            Body::Period(period) => Body::Period(*period),
            Body::Note(note) => Body::Note(note.copy(alloc)?),
            Body::Removal(removal) => Body::Removal(removal.copy(alloc)?),
        })
    }
}

impl<A: Allocator> Op<A> {
    /// The operation of this dot and body.
    pub fn new(dot: Dot, body: Body<A>) -> Op<A>
        ensures { result ≡ record { dot = dot; body = content body } }
    {
        prove!(is_valid_dot(&dot));
        prove!(is_valid(&body));
        Op { dot, body }
    }

    /// Who made the operation, and which of the author's operations it is.
    pub fn dot(&self) -> Dot
        ensures value { result ≡ self.now.dot }
        ensures valid { IsOp self.now }
    {
        self.dot
    }

    /// What the operation says.
    pub fn body(&self) -> &Body<A>
        ensures value { content result.now ≡ self.now.body }
        ensures valid { IsOp self.now }
    {
        &self.body
    }

    /// The body alone.
    pub fn into_body(self) -> Body<A>
        ensures value { content result ≡ self.body }
        ensures valid { IsOp self }
    {
        let Op { dot: _, body } = self;
        body
    }

    /// Whether the first edition of the formats can spell the operation: a block ends at or below `OLD_LIMIT`, and a
    /// claim's start and period are at most `OLD_LIMIT`. Notes and removals always keep the old limits.
    pub fn keeps_old_limits(&self) -> bool
        ensures { result ≡ keeps_old_limits self.now }
    {
        match &self.body {
            Body::Block(block) => block.end() as usize <= OLD_LIMIT,
            Body::Period(period) => {
                period.start() as usize <= OLD_LIMIT && period.period() as usize <= OLD_LIMIT
            }
            Body::Note(_) | Body::Removal(_) => true,
        }
    }

    /// An operation that is equal to this one, in memory of `alloc`.
    pub fn copy(&self, alloc: A) -> Result<Op<A>, AllocError>
        ensures { IfOk result (λ copy. copy ≡ self.now) }
    {
        Ok(Op {
            dot: self.dot,
            body: self.body.copy(alloc)?,
        })
    }
}

impl<A: Allocator> PartialEq for Body<A> {
    ghost use Rattle.std.specs.Ordering.{on, eq_by_cmp};
    ghost use Rattle.oct_ops.specs.ViewOrder.{content_cmp, content_eq_partial};

    ghost eq = { eq_by_cmp content_cmp };

    ghost laws = { content_eq_partial };

    fn eq(&self, other: &Body<A>) -> bool {
        self.cmp(other).is_eq()
    }
}

impl<A: Allocator> Eq for Body<A> {
    ghost use Rattle.oct_ops.specs.ViewOrder.{content_eq_equiv};

    ghost laws = { content_eq_equiv };
}

impl<A: Allocator> Ord for Body<A> {
    ghost use Rattle.std.specs.Prelude.{refl};
    ghost use Rattle.oct_ops.specs.ViewOrder.{content_cmp, content_cmp_total};

    ghost cmp = { content_cmp };

    ghost total = { content_cmp_total };

    ghost matches_partial_cmp = { λ a b. refl };

    ghost matches_eq = { λ a b. refl };

    // Most operations that are compared differ in their dots: without the bodies a search is a short loop.
    #[inline(never)]
    fn cmp(&self, other: &Body<A>) -> Ordering {
        match (self, other) {
            (Body::Block(mine), Body::Block(others)) => mine.cmp(others),
            (Body::Period(mine), Body::Period(others)) => mine.cmp(others),
            (Body::Note(mine), Body::Note(others)) => mine.cmp(others),
            (Body::Removal(mine), Body::Removal(others)) => mine.cmp(others),
            _ => self.kind().cmp(&other.kind()),
        }
    }
}

impl<A: Allocator> PartialOrd for Body<A> {
    ghost use Rattle.std.specs.Ordering.{as_partial_cmp};
    ghost use Rattle.oct_ops.specs.ViewOrder.{content_cmp, content_partial_order};

    ghost partial_cmp = { as_partial_cmp content_cmp };

    ghost laws = { content_partial_order };

    fn partial_cmp(&self, other: &Body<A>) -> Option<Ordering> {
        Some(self.cmp(other))
    }
}

impl<A: Allocator> PartialEq for Op<A> {
    ghost use Rattle.std.specs.Ordering.{eq_by_cmp};
    ghost use Rattle.oct_ops.specs.Order.{op_cmp};
    ghost use Rattle.oct_ops.specs.OrderLaws.{op_eq_partial};

    ghost eq = { eq_by_cmp op_cmp };

    ghost laws = { op_eq_partial };

    fn eq(&self, other: &Op<A>) -> bool {
        self.cmp(other).is_eq()
    }
}

impl<A: Allocator> Eq for Op<A> {
    ghost use Rattle.oct_ops.specs.OrderLaws.{op_eq_equiv};

    ghost laws = { op_eq_equiv };
}

impl<A: Allocator> Ord for Op<A> {
    ghost use Rattle.std.specs.Prelude.{refl};
    ghost use Rattle.oct_ops.specs.Order.{op_cmp};
    ghost use Rattle.oct_ops.specs.OrderLaws.{op_cmp_total};

    ghost cmp = { op_cmp };

    ghost total = { op_cmp_total };

    ghost matches_partial_cmp = { λ a b. refl };

    ghost matches_eq = { λ a b. refl };

    fn cmp(&self, other: &Op<A>) -> Ordering {
        match self.dot.cmp(&other.dot) {
            Ordering::Equal => self.body.cmp(&other.body),
            dots => dots,
        }
    }
}

impl<A: Allocator> PartialOrd for Op<A> {
    ghost use Rattle.std.specs.Ordering.{as_partial_cmp};
    ghost use Rattle.oct_ops.specs.Order.{op_cmp};
    ghost use Rattle.oct_ops.specs.OrderLaws.{op_partial_order};

    ghost partial_cmp = { as_partial_cmp op_cmp };

    ghost laws = { op_partial_order };

    fn partial_cmp(&self, other: &Op<A>) -> Option<Ordering> {
        Some(self.cmp(other))
    }
}
