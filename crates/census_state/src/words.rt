//! Numbers of a command line.

ghost use Rattle.std.specs.Prelude.{◌≡◌, ◌↔◌, IsTrue, SomeIff, slice_index};
ghost use Rattle.std.specs.Str.Parse.{digits_value};
ghost use Rattle.census_state.specs.Words.{IsNumber};

/// The number that a word spells: some exactly where the word is one or more ASCII digits whose value is at most
/// `greatest`. Takes no memory.
///
///     number("007", 4_294_967_295)     // 7
///     number("+1", 4_294_967_295)      // none
pub fn number(word: &str, greatest: u64) -> Option<u64>
    ensures { SomeIff result (IsNumber word.now greatest) (digits_value 10 word.now) }
{
    if has_plus(word) {
        return None;
    }
    match word.parse::<u64>() {
        Ok(value) if value <= greatest => Some(value),
        _ => None,
    }
}

// Whether the word begins with a plus, which std would read.
fn has_plus(word: &str) -> bool
    ensures { IsTrue result ↔ (slice_index word.now 0 ≡ 43) }
{
    let bytes = word.as_bytes();
    !bytes.is_empty() && bytes[0] == b'+'
}
