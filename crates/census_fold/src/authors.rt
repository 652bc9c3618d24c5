//! Numbers of authors that texts have.

ghost use Rattle.std.specs.Prelude.{◌≡◌, ◌≤◌};
ghost use Rattle.census_fold.specs.Authors.{author_for, first_number};

use sha2::{Digest, Sha256};

/// The number of the author that a text has: what the first four bytes of its SHA-256 spell, or 1 where they are 0. Of N texts
/// two have one number by a chance of about N * N / 2^33: of 1,000 by one in 8,600.
pub fn author_for(text: &[u8]) -> u32
    ensures value { result ≡ author_for text.now }
    ensures some { 1 ≤ result }
{
    first_number(&Sha256::digest(text)).max(1)
}

// The number that the first four bytes spell.
fn first_number(digest: &[u8; 32]) -> u32
    ensures { result ≡ first_number digest.now }
{
    match digest {
        [a, b, c, d, ..] => u32::from_be_bytes([*a, *b, *c, *d]),
    }
}
