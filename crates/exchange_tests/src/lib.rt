//! Tests of replicas, and of sessions between them: worked cases, devices that fail, and what a call leaves where memory is
//! refused, request by request. They stand here so that the proof of a library need not be done again for its tests, and
//! wait for no command.
#![tactic(auto)]

#[cfg(test)]
mod answers;
#[cfg(test)]
mod frames;
#[cfg(test)]
mod replica;
#[cfg(test)]
mod surface;
#[cfg(test)]
mod sync;
