//! The program `census`: one table of nim-sequences of octal games that a group of researchers can all trust.
//!
//!     census fold < examples/kayles.hex
//!     census init anna.state 1
//!     census compute anna.state 0.77 168
//!     census show anna.state
//!
//! What it does with its words is `census_run::run`.
#![tactic(auto)]

use census_run::run_called;
use std::process::ExitCode;

fn main(rt: HostRuntime) -> ExitCode {
    let (mut input, mut output, mut errors) = (rt.stdin(), rt.stdout(), rt.stderr());
    ExitCode::from(run_called(&rt, &mut input, &mut output, &mut errors))
}
