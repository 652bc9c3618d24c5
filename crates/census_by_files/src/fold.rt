//! `census fold`: what follows from lines of deltas.

use census_core::fold_intake;
use census_failure::Failure;
use census_words::CommandRow;
use std::alloc::Global;
use std::io::{Read, Write};
use std::mem;

/// Its row in the table.
pub const ROW: CommandRow = CommandRow {
    name: "fold",
    words: &[],
    options: &[],
    line: "What follows from deltas in hexadecimal, from standard input",
    about: "Reads deltas from standard input, and prints their catalogue",
    after: "\
Each line of the input is the hexadecimal text of one delta. The catalogue of the operations of all
lines is printed. Every other line that is not empty is refused; standard error says how many were.

Exit status: 0 done (also where lines were refused), 2 command line, 3 input or output, 4 memory

Example:
  census fold < examples/kayles.hex",
};

/// Does the command, which takes no words, and gives the exit status.
pub fn command<R, I, O, E>(
    rt: &R,
    input: &mut I,
    output: &mut O,
    errors: &mut E,
) -> Result<u8, Failure>
where
    R: AllocGlobal,
    I: Read,
    O: Write,
    E: Write,
{
    run(rt.alloc(), input, output, errors)?;
    Ok(0)
}

// Folds the input, and says how many lines were refused.
fn run<I: Read, O: Write, E: Write>(
    alloc: Global,
    input: &mut I,
    output: &mut O,
    errors: &mut E,
) -> Result<(), Failure> {
    let intake = fold_intake(alloc, input, output)?;
    let _ = writeln!(errors, "refused {}", intake.refused);
    // The program ends here: to give back each operation first would take a fifth of the time.
    mem::forget(intake);
    Ok(())
}
