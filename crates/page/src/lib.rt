//! What a web page calls: commands of the program, for a module that imports nothing and is lent its memory.
//!
//! Each export is lent memory for its work (`lent::Memory`, of 4,096 bytes or a multiple of them), which is not used again, and an
//! `out` for its text. It puts as much of the text there as fits, says in `whole` how many bytes the whole text has, and gives the
//! number of the fault: the exit status that the command has at it, and 0 where there is none. Then the text is the answer, and
//! otherwise the words of the fault. A page that lent too little room asks again.
//!
//! - `search`, `values` and `picture` show the first nim-values of a game and the period that they prove.
//! - `position` says who wins a position, and by which move.
//! - `check` compares a b-file with the nim-values of a game.
//! - `report` and `catalogue` show what a file holds: a state, a delta, or lines of deltas.
//!
//! The answers are those of the layers below, over the arena of a page; a line that these write with the system's memory alone is
//! written here, by the same definition.
#![tactic(auto)]

ghost use Rattle.std.specs.Prelude.{◌≡◌};
ghost use Rattle.page.specs.Answers.{IsCatalogue, IsChecked, IsListed, IsPicture, IsPosition, IsReport, IsSearched, refused_told};
ghost use Rattle.page.specs.Telling.{Tells};

mod asking;
mod checking;
mod files;
mod lines;
mod playing;
mod searching;
mod telling;

use crate::telling::{tell, tell_lines, tell_no_memory};
use lent::{Memory, arena_over};

/// What `census search COUNT CODE` prints: the least period that the first `count` nim-values of a game prove, or that they prove
/// none. The faults are `Number`, where `count` is 0 or above 4,294,967,296; then `Code`; then `PastValue`.
#[unsafe(no_mangle)]
pub extern "C" fn search(
    memory: Memory,
    code: &[u8],
    count: u64,
    out: &mut [u8],
    whole: &mut u64,
) -> u32
    ensures { Tells (IsSearched code.now count) result out.old out.new whole.new }
{
    let Ok(arena) = arena_over(memory) else {
        return tell_no_memory(out, whole);
    };
    let answer = searching::search(&arena, code, count);
    tell(&arena, &answer, out, whole)
}

/// What `census search --bfile COUNT CODE` prints: the first `count` nim-values of a game as a b-file. The faults are those of
/// `search`.
#[unsafe(no_mangle)]
pub extern "C" fn values(
    memory: Memory,
    code: &[u8],
    count: u64,
    out: &mut [u8],
    whole: &mut u64,
) -> u32
    ensures { Tells (IsListed code.now count) result out.old out.new whole.new }
{
    let Ok(arena) = arena_over(memory) else {
        return tell_no_memory(out, whole);
    };
    let answer = searching::values(&arena, code, count);
    tell(&arena, &answer, out, whole)
}

/// What `census plot` prints of a state that has the first `count` nim-values of a game and the period that they prove: a picture
/// in SVG. The faults are `Number`, where `count` is 0 or above 65,536; then `Code`.
#[unsafe(no_mangle)]
pub extern "C" fn picture(
    memory: Memory,
    code: &[u8],
    count: u64,
    out: &mut [u8],
    whole: &mut u64,
) -> u32
    ensures { Tells (IsPicture code.now count) result out.old out.new whole.new }
{
    let Ok(arena) = arena_over(memory) else {
        return tell_no_memory(out, whole);
    };
    let answer = playing::picture(&arena, code, count);
    tell(&arena, &answer, out, whole)
}

/// What `census value` and then `census move` print of a position and of such a state: the value of the position and who wins it,
/// and a winning move. The faults are those of `picture`.
#[unsafe(no_mangle)]
pub extern "C" fn position(
    memory: Memory,
    code: &[u8],
    count: u64,
    heaps: &[u64],
    out: &mut [u8],
    whole: &mut u64,
) -> u32
    ensures { Tells (IsPosition code.now count heaps.now) result out.old out.new whole.new }
{
    let Ok(arena) = arena_over(memory) else {
        return tell_no_memory(out, whole);
    };
    let answer = playing::position(&arena, code, count, heaps);
    tell(&arena, &answer, out, whole)
}

/// What `census check` prints: which values of a b-file are no nim-values of the game of a code, or that all are right. The faults
/// are `TooLong`, where the file has more than 1,073,741,824 bytes; then `Code`; then `Bfile`.
#[unsafe(no_mangle)]
pub extern "C" fn check(
    memory: Memory,
    code: &[u8],
    file: &[u8],
    out: &mut [u8],
    whole: &mut u64,
) -> u32
    ensures { Tells (IsChecked code.now file.now) result out.old out.new whole.new }
{
    let Ok(arena) = arena_over(memory) else {
        return tell_no_memory(out, whole);
    };
    let answer = checking::check(&arena, code, file);
    tell(&arena, &answer, out, whole)
}

/// What `census report` prints of the operations of a file: a page in HTML. A file that begins with `OGS1` is a state, one that
/// begins with `OGD1` or `OGD2` a delta, and any other has lines of deltas in hexadecimal, as `census fold` reads them. Of these
/// `left_out` says how many are no deltas; it is 0 of a state, of a delta, and after a fault. The faults are `TooLong`, where the
/// file has more than 1,073,741,824 bytes; then `Load` of a state, or `Merge` of a delta.
#[unsafe(no_mangle)]
pub extern "C" fn report(
    memory: Memory,
    file: &[u8],
    out: &mut [u8],
    whole: &mut u64,
    left_out: &mut u64,
) -> u32
    ensures told { Tells (IsReport file.now) result out.old out.new whole.new }
    ensures left_out { left_out.new ≡ refused_told file.now result }
{
    let Ok(arena) = arena_over(memory) else {
        *left_out = 0;
        return tell_no_memory(out, whole);
    };
    let answer = files::report(&arena, file, left_out);
    tell_lines(&arena, &answer, out, whole, left_out)
}

/// What `census read FILE` prints of a file that is a state or a delta, and `census fold` of one that has lines of deltas: the
/// catalogue. `left_out` and the faults are those of `report`.
#[unsafe(no_mangle)]
pub extern "C" fn catalogue(
    memory: Memory,
    file: &[u8],
    out: &mut [u8],
    whole: &mut u64,
    left_out: &mut u64,
) -> u32
    ensures told { Tells (IsCatalogue file.now) result out.old out.new whole.new }
    ensures left_out { left_out.new ≡ refused_told file.now result }
{
    let Ok(arena) = arena_over(memory) else {
        *left_out = 0;
        return tell_no_memory(out, whole);
    };
    let answer = files::catalogue(&arena, file, left_out);
    tell_lines(&arena, &answer, out, whole, left_out)
}
