//! `census move`: a winning move.

use crate::position::{Position, Question, asking_of};
use crate::watched;
use census_arguments::with_order;
use census_failure::{Audience, Failure};
use census_requests::System;
use census_words::{CommandRow, words};
use clap::ArgMatches;
use std::alloc::Global;
use std::io::Write;

/// Its row in the table.
pub const ROW: CommandRow = CommandRow {
    name: "move",
    words: &[words::STATE, words::CODE, words::HEAP],
    options: &[words::SEARCHED, words::EACH_JSON],
    line: "A winning move of a position",
    about: "Names a winning move of a position, or says that there is none",
    after: "\
`heap 2 of 9: remove 1, leave 3 and 5` says that of the heap at the place 2, counted from 0, which
has 9 beans, one is removed, and the rest is left as heaps of 3 and 5. Then the other player loses,
whatever the moves. Of several winning moves it is the first by place, then by the beans removed,
then by the smaller heap left. `none: the player to move loses` where there is none, and `unknown at
I` where the heap at the place I has no known value. With --json it is
{\"heap\":2,\"of\":9,\"remove\":1,\"leave\":[3,5]}, whose `heap` is null where there is none.
With --search COUNT, a game of which some heap is not known is searched as by census search: by a period
that COUNT values prove, also one that no claim proves, each heap has a value. The state stays as it is.

Exit status: 0 done (also where there is no move), 1 refused: Load (the state), Code, PastValue (a value is
above 65535); 2 command line, 3 file, 4 memory

Examples:
  census move anna.state 0.77 5 9 1000000000
  census move anna.state 0.16 10000000000 7 --search 1000000",
};

/// Reads the words of the command, does it, and gives the exit status.
pub fn command<R, O, E>(
    rt: &R,
    found: &ArgMatches<'_>,
    output: &mut O,
    errors: &mut E,
    audience: Audience,
) -> Result<u8, Failure>
where
    R: System,
    O: Write,
    E: Write,
{
    let asked = with_order(rt.alloc(), &ROW, task(rt.alloc(), found))?;
    watched::position(rt, &asked, output, errors, audience)?;
    Ok(0)
}

// What its words ask for.
fn task<'a>(alloc: Global, found: &ArgMatches<'a>) -> Result<Position<'a>, Failure> {
    asking_of(alloc, found, Question::Move)
}
