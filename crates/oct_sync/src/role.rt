//! The two sides of a session.

/// Which side of a session a replica is.
#[derive(Clone, Copy, PartialEq, Eq)]
pub enum Role {
    /// It speaks first.
    Client,
    /// It speaks first, says that it has nothing, and sends all.
    ClientOfAll,
    /// It speaks first, sends what the other side lacks, and takes nothing in.
    Giver,
    /// It answers.
    Server,
}
