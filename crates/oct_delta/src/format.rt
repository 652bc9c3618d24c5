//! The two editions of the text of deltas.

ghost use Rattle.std.specs.Prelude.{◌≡◌, ◌↔◌, ◌≤◌, ◌++◌, None, IfSome, IsNone};
ghost use Rattle.oct_delta.specs.Formats.{format};
ghost use Rattle.oct_delta.specs.Decoding.{format_at};

use oct_code::{LIMIT, OLD_LIMIT};

/// Which tag a text begins with, and so which limit its operations keep.
#[derive(Clone, Copy, PartialEq, Eq)]
pub(crate) enum Edition {
    First,
    Second,
}

impl Edition {
    /// How many places a game has.
    pub(crate) fn limit(self) -> usize
        ensures value { result ≡ (format self).limit }
        ensures low { result ≤ LIMIT }
    {
        match self {
            Edition::First => OLD_LIMIT,
            Edition::Second => LIMIT,
        }
    }

    /// The first four bytes.
    pub(crate) fn tag(self) -> [u8; 4]
        ensures { result ≡ (format self).tag }
    {
        match self {
            Edition::First => *b"OGD1",
            Edition::Second => *b"OGD2",
        }
    }
}

/// The edition that the first four bytes name, and what follows them.
pub(crate) fn split_tag(bytes: &[u8]) -> Option<(Edition, &[u8])>
    ensures some { IfSome result (λ x. bytes.now ≡ (format x.0).tag ++ x.1.now) }
    ensures none { IsNone result ↔ (format_at bytes.now ≡ None) }
{
    match bytes {
        [b'O', b'G', b'D', b'1', rest @ ..] => Some((Edition::First, rest)),
        [b'O', b'G', b'D', b'2', rest @ ..] => Some((Edition::Second, rest)),
        _ => None,
    }
}
