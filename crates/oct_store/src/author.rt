//! What a set of operations shows of one author.

ghost use Rattle.std.specs.Prelude.{◌≡◌};
ghost use Rattle.oct_store.specs.Rows.{unseen, with_number};

/// An author of a set of operations.
#[derive(Clone, Copy, PartialEq, Eq)]
pub struct Author {
    /// The author's number, at least 1.
    pub author: u32,
    /// The greatest number through which all of the author's operations are in the set, or 0 where the first is not.
    pub through: u32,
    /// The greatest number of the author's operations in the set.
    pub last: u32,
}

impl Author {
    /// The author before any of its operations was seen.
    pub(crate) fn unseen(author: u32) -> Author
        ensures { result ≡ unseen author }
    {
        Author {
            author,
            through: 0,
            last: 0,
        }
    }

    /// The author with one more of its operations, where they are seen in order.
    pub(crate) fn with(self, number: u32) -> Author
        ensures { result ≡ with_number self number }
    {
        let is_next = self.through.checked_add(1) == Some(number);
        Author {
            author: self.author,
            through: if is_next { number } else { self.through },
            last: self.last.max(number),
        }
    }
}
