//! The commands of sessions: a state and those of others, over the network.
//!
//! Each command stands in one file: its row, from which its help is made, what its words ask for, and what it does with that. Its
//! function `command` reads the words and does it.
//!
//! - `serve` has one session with whoever connects, `sync` one with whoever serves, and `hub` many at once.
//! - `watched` has a session beside advice.
//! - `endpoint` reads where a state meets its peers.
//!
//! Sessions themselves are `census_net`.
#![tactic(auto)]

// What is said of all sessions, between two texts.
macro_rules! of_sessions {
    ($front:literal, $back:literal) => {
        concat!(
            $front,
            "\
What other commands add to the state meanwhile stays. The state is saved also where a session ends
early. The connection is neither encrypted nor authenticated: an address other than the loopback is
for a trusted network or a tunnel.
",
            $back
        )
    };
}

mod endpoint;
pub mod hub;
pub mod serve;
pub mod sync;
mod watched;
