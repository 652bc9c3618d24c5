//! The lines of a text, and the words of a line.

ghost use Rattle.std.specs.Prelude.{◌≡◌, ◌<◌, ◌≤◌, ◌∷◌, [], length, IfSome, MatchOption, not};
ghost use Rattle.std.specs.List.{position, position_or_len};
ghost use Rattle.oct_bfile.specs.Bfile.{behind_line, behind_word, end_len, ends_line, is_blank, lines, words};

/// The first line of a text, without its end, and what stands behind that end. Lines end by LF, CR LF or CR. The answer is
/// none exactly where the text is empty.
pub fn next_line(bytes: &[u8]) -> Option<(&[u8], &[u8])>
    ensures lines { MatchOption result (lines bytes.now ≡ []) (λ parts. lines bytes.now ≡ parts.0.now ∷ lines parts.1.now) }
    ensures behind { IfSome result (λ parts. parts.1.now ≡ behind_line bytes.now) }
    ensures shorter { MatchOption result (length bytes.now ≡ 0) (λ parts. length parts.1.now < length bytes.now) }
{
    if bytes.is_empty() {
        return None;
    }
    let len = line_len(bytes);
    let rest = &bytes[len..];
    Some((&bytes[..len], &rest[end_len(rest)..]))
}

// How many bytes stand before the first LF or CR, or all where there is none.
fn line_len(bytes: &[u8]) -> usize
    ensures value { result ≡ position_or_len ends_line bytes.now }
    ensures within { result ≤ length bytes.now }
{
    first_end(bytes).unwrap_or(bytes.len())
}

// The place of the first LF or CR.
fn first_end(bytes: &[u8]) -> Option<usize>
    ensures { result ≡ position ends_line bytes.now }
{
    bytes.iter().position(|byte| ends_line(*byte))
}

// How many bytes the end of a line takes with which these begin; none at the end of the text.
fn end_len(bytes: &[u8]) -> usize
    ensures value { result ≡ end_len bytes.now }
    ensures within { result ≤ length bytes.now }
{
    match bytes {
        [] => 0,
        [b'\r', b'\n', ..] => 2,
        _ => 1,
    }
}

// Whether the byte is an LF or a CR.
fn ends_line(byte: u8) -> bool
    ensures { result ≡ ends_line byte }
{
    byte == b'\n' || byte == b'\r'
}

/// The first of the words of a line, and what stands behind it. Words are what stands between spaces and tabs, and have a byte.
/// The answer is none exactly where the line has no word.
pub fn next_word(line: &[u8]) -> Option<(&[u8], &[u8])>
    ensures words { MatchOption result (words line.now ≡ []) (λ parts. words line.now ≡ parts.0.now ∷ words parts.1.now) }
    ensures behind { IfSome result (λ parts. parts.1.now ≡ behind_word line.now) }
    ensures filled { MatchOption result (words line.now ≡ []) (λ parts. 0 < length parts.0.now) }
    ensures shorter { MatchOption result (words line.now ≡ []) (λ parts. length parts.1.now < length line.now) }
{
    let rest = &line[blank_len(line)..];
    if rest.is_empty() {
        return None;
    }
    let end = word_len(rest);
    Some((&rest[..end], &rest[end..]))
}

// How many blanks stand before the first other byte, or all where there is none.
fn blank_len(line: &[u8]) -> usize
    ensures value { result ≡ position_or_len (λ b. not (is_blank b)) line.now }
    ensures within { result ≤ length line.now }
{
    first_filled(line).unwrap_or(line.len())
}

// The place of the first byte that is no blank.
fn first_filled(line: &[u8]) -> Option<usize>
    ensures { result ≡ position (λ b. not (is_blank b)) line.now }
{
    line.iter().position(|byte| !is_blank(*byte))
}

// How many bytes stand before the first blank, or all where there is none.
fn word_len(line: &[u8]) -> usize
    ensures value { result ≡ position_or_len is_blank line.now }
    ensures within { result ≤ length line.now }
{
    first_blank(line).unwrap_or(line.len())
}

// The place of the first blank.
fn first_blank(line: &[u8]) -> Option<usize>
    ensures { result ≡ position is_blank line.now }
{
    line.iter().position(|byte| is_blank(*byte))
}

// Whether the byte is a space or a tab.
fn is_blank(byte: u8) -> bool
    ensures { result ≡ is_blank byte }
{
    byte == b' ' || byte == b'\t'
}
