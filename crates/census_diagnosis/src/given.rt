//! A file as a command was given it.

/// A file of a command, and its bytes.
#[derive(Clone, Copy)]
pub struct Given<'a> {
    /// Its name on the command line; `census_failure::INPUT_NAME` where standard input is read in its place.
    pub name: &'a str,
    /// All its bytes.
    pub bytes: &'a [u8],
}

impl<'a> Given<'a> {
    /// The file of this name, with these bytes.
    pub fn new(name: &'a str, bytes: &'a [u8]) -> Given<'a> {
        Given { name, bytes }
    }
}
