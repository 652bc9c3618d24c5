//! A fault as the manual lists it.

/// What the manual says of a fault.
#[derive(Drop)]
pub struct Entry {
    /// What the fault is called.
    pub name: String,
    /// The exit status that goes with it.
    pub status: u8,
    /// What was wrong, as a sentence without its point.
    pub meaning: String,
    /// What to do, in the same form.
    pub remedy: &'static str,
}
