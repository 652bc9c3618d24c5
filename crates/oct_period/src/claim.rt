//! A period claim under its dot.

use oct_ops::{Dot, Period};
use std::marker::Model;

/// A period claim under its dot. Claims are in the order of operations: by dot, then by the claim's code, start and period.
#[derive(Clone, Copy, PartialEq, Eq, PartialOrd, Ord)]
pub struct PeriodClaim {
    /// The dot of the claim's operation.
    pub dot: Dot,
    /// What is claimed.
    pub period: Period,
}

impl Model for PeriodClaim {
    ghost use Rattle.oct_period.specs.Claims.{Claim, claim_code};

    ghost Value = { Claim };

    ghost coded = { claim_code };

    ghost view = { λ c. (c.dot, c.period) };

    ghost inverse = { λ c. record { dot = c.0; period = c.1 } };
}
