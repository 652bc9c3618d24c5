//! `census claim`: the values of a b-file.

use census_arguments::{bytes, with_order};
use census_core::Request;
use census_failure::{Audience, Failure};
use census_requests::change::{Change, changing};
use census_requests::{System, watched};
use census_words::{CommandRow, words};
use clap::ArgMatches;
use std::alloc::Global;
use std::io::{Read, Write};

/// Its row in the table.
pub const ROW: CommandRow = CommandRow {
    name: "claim",
    words: &[words::STATE, words::CODE, words::BFILE],
    options: &[words::QUIET],
    line: "Issues the values of a b-file",
    about: "Issues the values of a b-file, and prints which operations they are",
    after: "\
The values are issued as blocks of 1024 and a last one of those that are left. They may be wrong: the
catalogue says at which heap. Lines end by LF, CR LF or CR, and
empty lines and those that begin with # are passed over. After a fault the state is as it was.

Exit status: 0 done, 1 refused: Load (the state), Code, Bfile (Form, Order or PastLimit and the first
faulty line, or Empty), Issue, TooMany; 2 command line, 3 file, 4 memory

Example:
  census claim anna.state 0.77 b002186.txt",
};

/// Reads the words of the command, does it, and gives the exit status.
pub fn command<R, I, O, E>(
    rt: &R,
    found: &ArgMatches<'_>,
    input: &mut I,
    output: &mut O,
    errors: &mut E,
    audience: Audience,
) -> Result<u8, Failure>
where
    R: System,
    I: Read,
    O: Write,
    E: Write,
{
    let asked = with_order(rt.alloc(), &ROW, task(rt.alloc(), found))?;
    watched::change(rt, &asked, input, output, errors, audience)?;
    Ok(0)
}

// What its words ask for.
fn task<'a>(alloc: Global, found: &ArgMatches<'a>) -> Result<Change<'a>, Failure> {
    let request = Request::Claim {
        code: bytes(alloc, found, words::CODE)?,
    };
    changing(found, Some(words::BFILE), request)
}
