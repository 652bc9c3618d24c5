//! What kind of file bytes are of.

/// What a file holds, as its first bytes say.
#[derive(Clone, Copy, PartialEq, Eq)]
pub(crate) enum Kind {
    Empty,
    State,
    Delta,
    Hexadecimal,
    Search,
    Bfile,
    Json,
    Other,
}

/// What the bytes hold.
pub(crate) fn kind_of(bytes: &[u8]) -> Kind {
    if bytes.starts_with(b"OGS1") {
        return Kind::State;
    }
    if bytes.starts_with(b"OGD1") || bytes.starts_with(b"OGD2") {
        return Kind::Delta;
    }
    if bytes.starts_with(b"4f4744") || bytes.starts_with(b"4F4744") {
        return Kind::Hexadecimal;
    }
    if bytes.starts_with(b"OGW1") {
        return Kind::Search;
    }
    match bytes.first() {
        None => Kind::Empty,
        Some(b'{') => Kind::Json,
        Some(b'#' | b'0'..=b'9') => Kind::Bfile,
        Some(_) => Kind::Other,
    }
}
