//! How long what is done may be kept in memory alone.

use std::time::{Clock, Duration, Instant};

/// The time since what is done was last saved.
#[derive(Drop)]
pub(crate) struct Pause {
    /// How many seconds pass at least between two saves.
    seconds: u64,
    /// When it was last saved; none where it never was, or where there is no clock.
    last: Option<Instant>,
}

impl Pause {
    /// Nothing was saved yet, so that it is time to.
    pub(crate) fn over(seconds: u64) -> Pause {
        Pause {
            seconds,
            last: None,
        }
    }

    /// The pause begins anew.
    pub(crate) fn begin<R: Clock>(&mut self, rt: &R) {
        self.last = Instant::now(rt).ok();
    }

    /// Whether it is time to save what is done. Where there is no clock it always is.
    pub(crate) fn is_due<R: Clock>(&self, rt: &R) -> bool {
        let Some(last) = self.last else {
            return true;
        };
        match last.elapsed(rt) {
            Ok(passed) => passed >= Duration::from_secs(self.seconds),
            Err(_) => true,
        }
    }
}
