//! Searches again for the periods that notes say.

ghost use Rattle.std.specs.Prelude.{◌≡◌, ◌≤◌, ◌++◌, IfOk, IfErr, OnErr, OnOk};
ghost use Rattle.census_noted.specs.Rechecking.{IsRecheckFault, IsRechecked, IsSearchFault, IsSearchedFor, end_words, far_line, is_same, needed, silent_line, told_line, with_rechecked};

use crate::laws::what_is_so_is_least;
use oct_code::Code;
use oct_mex::SeenPeriod;
use oct_ops::Dot;
use oct_proved::ProvedPeriods;
use oct_said::{PeriodNote, append_period};
use oct_search::{MOST, Search, SearchError};
use oct_text::{append_labelled, append_labelled_dot, append_text};
use oct_window::Progress;
use std::alloc::{AllocError, Allocator};

/// What a search says of a note.
#[derive(Drop)]
pub struct Rechecked<A: Allocator> {
    /// The line that says it.
    pub line: Vec<u8, A>,
    /// Whether the search found the period that the note says.
    pub is_so: bool,
}

/// Searches again for the period of a note's game, by as many nim-values as the period that the note says needs: twice its start,
/// twice the period, and the number of the code's digits. It is so where the search finds that period from that start; then it holds
/// for every heap. A note that says no period is not so, and neither is one that needs more than 2^32 values, which are not
/// computed. `progress` is told how many values are known.
///
/// The error is `PastValue` where the nim-value of a heap below that number is above 65,535, before a period is found, or
/// `OutOfMemory`.
pub fn recheck<A: Allocator + Copy, P: Progress>(
    alloc: A,
    note: &PeriodNote,
    progress: &mut P,
) -> Result<Rechecked<A>, SearchError>
    ensures ok { IfOk result (λ done. IsRechecked note.now done.is_so done.line.items) }
    ensures err { IfErr result (IsRecheckFault note.now) }
{
    let Some(said) = note.said else {
        return Ok(Rechecked {
            line: silent_line(alloc, note.dot)?,
            is_so: false,
        });
    };
    match needed(note.code, said) {
        Some(count) => search_again(alloc, note.code, said, count, progress),
        None => Ok(Rechecked {
            line: far_line(alloc, note.code, said)?,
            is_so: false,
        }),
    }
}

/// Searches again as `recheck` does, and where the period that the note says is so, adds it to those that are proved: then it is the
/// least period of the game. The error is that of `recheck`; then nothing is added.
pub fn recheck_into<A: Allocator + Copy, B: Allocator, P: Progress>(
    alloc: A,
    proved: &mut ProvedPeriods<B>,
    note: &PeriodNote,
    progress: &mut P,
) -> Result<Rechecked<A>, SearchError>
    ensures ok { IfOk result (λ done. IsRechecked note.now done.is_so done.line.items) }
    ensures added { IfOk result (λ done. proved.new ≡ with_rechecked proved.old note.now done.is_so) }
    ensures kept { OnErr result (proved.new ≡ proved.old) }
    ensures err { IfErr result (IsRecheckFault note.now) }
{
    let done = recheck(alloc, note, progress)?;
    what_is_so_is_least();
    if let Some(said) = note.said
        && done.is_so
    {
        proved.add(note.code, said)?;
    }
    Ok(done)
}

// How many nim-values show the period by themselves, if a search computes so many.
fn needed(code: Code, said: SeenPeriod) -> Option<usize>
    ensures { result ≡ needed code said }
{
    if said.start > MOST || said.period > MOST {
        return None;
    }
    let count = 2 * said.start + 2 * said.period + code.len();
    if count <= MOST { Some(count) } else { None }
}

// What a search by so many nim-values says of a period.
fn search_again<A: Allocator + Copy, P: Progress>(
    alloc: A,
    code: Code,
    said: SeenPeriod,
    count: usize,
    progress: &mut P,
) -> Result<Rechecked<A>, SearchError>
    requires { count ≤ MOST }
    ensures ok { IfOk result (λ done. IsSearchedFor code count said done.is_so done.line.items) }
    ensures err { IfErr result (IsSearchFault code count) }
{
    let mut game = Search::new(alloc, code);
    let found = game.search(count, progress)?;
    Ok(Rechecked {
        line: told_line(alloc, code, found, game.len(), said)?,
        is_so: is_same(found, said),
    })
}

// Whether it is the period that is found.
fn is_same(found: Option<SeenPeriod>, said: SeenPeriod) -> bool
    ensures { result ≡ is_same found said }
{
    match found {
        Some(seen) => seen.start == said.start && seen.period == said.period,
        None => false,
    }
}

// ---- lines

// The line of a note that says no period.
fn silent_line<A: Allocator>(alloc: A, dot: Dot) -> Result<Vec<u8, A>, AllocError>
    ensures { IfOk result (λ line. line.items ≡ silent_line dot) }
{
    let mut line = Vec::new(alloc);
    append_labelled_dot(&mut line, b"note ", dot)?;
    append_text(&mut line, b" says no period\n")?;
    Ok(line)
}

// The line of a period that needs more nim-values than a search computes.
fn far_line<A: Allocator>(alloc: A, code: Code, said: SeenPeriod) -> Result<Vec<u8, A>, AllocError>
    ensures { IfOk result (λ line. line.items ≡ far_line code said) }
{
    let mut line = Vec::new(alloc);
    append_period(&mut line, code, said)?;
    append_labelled(&mut line, b" needs more than ", MOST)?;
    append_text(&mut line, b" values\n")?;
    Ok(line)
}

// The line of a period, of what is found, and of how many nim-values are computed.
fn told_line<A: Allocator>(
    alloc: A,
    code: Code,
    found: Option<SeenPeriod>,
    values: usize,
    said: SeenPeriod,
) -> Result<Vec<u8, A>, AllocError>
    ensures { IfOk result (λ line. line.items ≡ told_line code found values said) }
{
    let mut line = Vec::new(alloc);
    match found {
        Some(seen) => {
            append_period(&mut line, code, seen)?;
            append_end(&mut line, is_same(found, said), b", and not ", said)?;
        }
        None => {
            code.append_text(&mut line)?;
            append_labelled(&mut line, b" no period in ", values)?;
            append_end(&mut line, false, b" values, and not period ", said)?;
        }
    }
    Ok(line)
}

// Appends that it is so, or the period that is not so.
fn append_end<A: Allocator>(
    line: &mut Vec<u8, A>,
    is_so: bool,
    label: &[u8],
    said: SeenPeriod,
) -> Result<(), AllocError>
    ensures { OnOk result (line.new.items ≡ line.old.items ++ end_words is_so label.now said) }
{
    if is_so {
        return append_text(line, b" is so\n");
    }
    append_labelled(line, label, said.period)?;
    append_labelled(line, b" from ", said.start)?;
    append_text(line, b"\n")
}
