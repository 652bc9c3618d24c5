//! Tests of the libraries below the replica: worked cases whose answers come from outside, what a call leaves where memory is
//! refused, request by request, and that the calls which take no memory ask for none. They stand here so that the proof of
//! a library need not be done again for its tests.
#![tactic(auto)]

#[cfg(test)]
mod answers;
#[cfg(test)]
mod clocks;
#[cfg(test)]
mod codes;
#[cfg(test)]
mod deltas;
#[cfg(test)]
mod games;
#[cfg(test)]
mod ledgers;
#[cfg(test)]
mod notes;
#[cfg(test)]
mod operations;
#[cfg(test)]
mod reader;
#[cfg(test)]
mod requests;
#[cfg(test)]
mod saved;
#[cfg(test)]
mod search;
#[cfg(test)]
mod stores;
#[cfg(test)]
mod surface;
#[cfg(test)]
mod values;
#[cfg(test)]
mod vectors;
