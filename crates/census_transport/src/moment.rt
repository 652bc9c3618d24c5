//! The time of a line that is printed.

use jiff::Timestamp;
use std::fmt;
use std::time::Clock;

/// A time to the second, or none where the clock gave none.
#[derive(Clone, Copy)]
pub struct Moment(Option<Timestamp>);

impl Moment {
    /// The time by the system's clock.
    pub fn now(clock: &impl Clock) -> Moment {
        match Timestamp::now(clock) {
            Ok(now) => Moment(Timestamp::from_second(now.as_second()).ok()),
            Err(_) => Moment(None),
        }
    }
}

impl fmt::Display for Moment {
    // In UTC, as `2026-11-26T14:08:25Z`; `-` where there is none.
    fn fmt<W: fmt::Write>(&self, f: &mut fmt::Formatter<W>) -> fmt::Result {
        match &self.0 {
            Some(time) => time.fmt(f),
            None => f.write_str("-"),
        }
    }
}
