//! Tests of what the program does with words, files and lines: worked cases, devices that fail, records, and searches that
//! are told of and taken up again. They stand here so that the proof of a library need not be done again for its tests.
#![tactic(auto)]

#[cfg(test)]
mod answers;
#[cfg(test)]
mod commands;
#[cfg(test)]
mod faults;
#[cfg(test)]
mod fold;
#[cfg(test)]
mod progress;
#[cfg(test)]
mod records;
#[cfg(test)]
mod resumed;
#[cfg(test)]
mod surface;
#[cfg(test)]
mod unions;
