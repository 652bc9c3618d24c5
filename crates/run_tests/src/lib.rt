//! Tests of the program, run on its words over files that a test makes: what each command answers, prints and leaves. They
//! stand here so that the proof of the program need not be done again for its tests.
#![tactic(auto)]

#[cfg(test)]
mod runs;
