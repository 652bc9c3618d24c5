//! Which games of a list lack blocks, in files or in what the author of a state said.

ghost use Rattle.std.specs.Prelude.{◌≡◌, ◌≢◌, Ok, Err, IfOk, IfErr, map};
ghost use Rattle.census_fold.specs.Lacking.{left_in, own_left, said_by};

use crate::reading::held_together;
use census_state::{Fault, Holdings, load, read_codes};
use oct_code::Code;
use oct_left::left;
use oct_record::Record;
use std::alloc::{AllocError, Global};

/// The codes of a list of which files together do not have each of the heaps 1 to `count - 1` in a block, whoever said it, and
/// be it true or not: in the order of the list, and each as often as it stands there. The files are read as `read_together`
/// reads them; where there is none, nothing is said. No nim-value is computed. The fault is that of `read_together`.
pub fn left_in(
    alloc: Global,
    files: &[Vec<u8>],
    codes: &[Code],
    count: u32,
) -> Result<Vec<Code>, Fault>
    ensures ok { IfOk result (λ lacking. left_in (map (λ file. file.items) files.now) codes.now count ≡ Ok lacking.items) }
    ensures err { IfErr result (λ e. e ≢ Fault.OutOfMemory → left_in (map (λ file. file.items) files.now) codes.now count ≡ Err e) }
{
    let all = held_together(alloc, files)?;
    let lacking = left(all.as_record(), codes, count)?;
    Ok(lacking)
}

/// The codes of a list of which the author of a state has not issued blocks that have each of the heaps 1 to `count - 1`, be they
/// true or not: in the order of the list, and each as often as it stands there. What others said does not count. No nim-value is
/// computed. The first fault is `Load`; then `Code` of the first word that is none.
pub fn own_left(
    alloc: Global,
    state: &[u8],
    words: &[Vec<u8>],
    count: u32,
) -> Result<Vec<Code>, Fault>
    ensures ok { IfOk result (λ lacking. own_left state.now (map (λ word. word.items) words.now) count ≡ Ok lacking.items) }
    ensures err { IfErr result (λ e. e ≢ Fault.OutOfMemory → own_left state.now (map (λ word. word.items) words.now) count ≡ Err e) }
{
    let held = load(alloc, state)?;
    let named = read_codes(alloc, words)?;
    let own = said_by_its_author(alloc, &held)?;
    let lacking = left(own.as_record(), &named, count)?;
    Ok(lacking)
}

// What the record's own author issued, which both share.
fn said_by_its_author(alloc: Global, held: &Record<Global>) -> Result<Holdings<Global>, AllocError>
    ensures { IfOk result (λ own. own ≡ said_by held.now.author held.now.ops) }
{
    let author = held.author();
    let mut own = Holdings::new(alloc);
    for op in held.store().iter_shared() {
        if op.as_ref().dot().author() == author {
            own.share(op)?;
        }
    }
    Ok(own)
}
