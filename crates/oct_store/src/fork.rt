//! Dots that came with more than one content.

ghost use Rattle.std.specs.Prelude.{◌≡◌, ◌+◌, ◌<◌, ◌^◌};
ghost use Rattle.oct_store.specs.Rows.{uncounted, with_content};

use oct_ops::Dot;

/// A dot of a set of operations, with how many contents it has there: two or more.
#[derive(Clone, Copy, PartialEq, Eq)]
pub struct Fork {
    /// The dot that the contents share.
    pub dot: Dot,
    /// How many contents there are.
    pub contents: usize,
}

impl Fork {
    /// The dot before any of its contents was counted.
    pub(crate) fn uncounted(dot: Dot) -> Fork
        ensures { result ≡ uncounted dot }
    {
        Fork { dot, contents: 0 }
    }

    /// The dot with one more content.
    pub(crate) fn with_content(self) -> Fork
        requires { self.contents + 1 < 2 ^ 64 }
        ensures { result ≡ with_content self }
    {
        Fork {
            dot: self.dot,
            contents: self.contents + 1,
        }
    }
}
