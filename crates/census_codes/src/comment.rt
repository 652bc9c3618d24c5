//! The comment of a line.

ghost use Rattle.std.specs.Prelude.{◌≡◌, ◌≤◌, length};
ghost use Rattle.std.specs.List.{before_first, position, position_or_len};
ghost use Rattle.census_codes.specs.Codes.{begins_comment};

/// What stands before the comment of a line.
pub(crate) fn uncommented(line: &[u8]) -> &[u8]
    ensures { result.now ≡ before_first begins_comment line.now }
{
    &line[..said_len(line)]
}

// How many bytes stand before the first number sign, or all where there is none.
fn said_len(line: &[u8]) -> usize
    ensures value { result ≡ position_or_len begins_comment line.now }
    ensures within { result ≤ length line.now }
{
    first_sign(line).unwrap_or(line.len())
}

// The place of the first number sign.
fn first_sign(line: &[u8]) -> Option<usize>
    ensures { result ≡ position begins_comment line.now }
{
    line.iter().position(|byte| *byte == b'#')
}
