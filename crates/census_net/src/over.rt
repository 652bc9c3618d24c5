//! Sessions over two streams that are lent, as a shell and `ssh` lend standard input and output.

use crate::session::{Agreement, Streams};
use census_endpoint::{Allowance, Loaded};
use census_failure::{Advice, Failure, INPUT_NAME};
use census_transport::{Bounded, LentInput, LentOutput};
use oct_sync::Role;
use std::fs::File;
use std::io::{Read, Write};
use std::net::Net;
use std::rt::Files;

/// Does what `sync` does, with whoever writes the standard input, which this is, and reads the output. Neither of the two is
/// waited for with an end before the session is done: that is the affair of who lends them. The fault is that of the session,
/// or else `Authors`, or that of the state, as it is saved.
pub fn sync_over<R, I, O, E>(
    rt: &R,
    state: &str,
    allowance: Allowance,
    role: Role,
    loaded: &mut Loaded,
    input: &mut I,
    output: &mut O,
    advice: &mut Advice<'_, E>,
) -> Result<Agreement, Failure>
where
    R: Files<File = File> + AllocGlobal + Net,
    I: Read,
    O: Write,
    E: Write,
{
    lent(rt, allowance, input, output).ask(rt, state, role, loaded, advice)
}

/// Does what `serve` does, likewise: the other side is done by the last frame, which is written once the state is saved. The
/// fault is that of the state, as it is read first; then that of the session, or else `Authors`, or that of the state, as it is
/// saved; then that of the last frame.
pub fn serve_over<R, I, O, E>(
    rt: &R,
    state: &str,
    allowance: Allowance,
    input: &mut I,
    output: &mut O,
    advice: &mut Advice<'_, E>,
) -> Result<(), Failure>
where
    R: Files<File = File> + AllocGlobal + Net,
    I: Read,
    O: Write,
    E: Write,
{
    let (mut loaded, _) = Loaded::read(rt, state)?;
    lent(rt, allowance, input, output).answer(rt, state, &mut loaded, advice)
}

// The streams as the two directions of a session.
fn lent<'a, R, I, O>(
    rt: &'a R,
    allowance: Allowance,
    input: &'a mut I,
    output: &'a mut O,
) -> Streams<'a, LentInput<'a, R, I>, LentOutput<'a, O>> {
    Streams {
        name: INPUT_NAME,
        input: Bounded::new(LentInput::new(rt, input), allowance.most),
        output: LentOutput::new(output),
        allowance,
    }
}
