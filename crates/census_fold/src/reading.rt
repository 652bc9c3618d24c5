//! What several files hold together.

ghost use Rattle.std.specs.Prelude.{◌≡◌, ◌≢◌, ◌⊎◌, Ok, Err, IfOk, IfErr, OnOk, map};
ghost use Rattle.std.specs.Io.KnownBytes.{Appends, Keeps};
ghost use Rattle.oct_ops.specs.Operations.{empty, listed, union};
ghost use Rattle.oct_pages.specs.Catalogue.{catalogue};
ghost use Rattle.oct_log.specs.Log.{log_text};
ghost use Rattle.census_fold.specs.Reading.{Written, diff_of_files, diff_of_files_in, held_onto, log_together, read_together};

use crate::digests::read_held;
use census_state::{Fault, Holdings, read_codes, write_fault};
use oct_log::{Wanted, write_diff, write_diff_of, write_log};
use oct_pages::{GameProgress, stream_catalogue};
use std::alloc::{AllocError, Global};
use std::io::Write;

/// Writes the catalogue of what files hold together, each a state or a delta, in pieces of some 64 KiB, as it is made, and tells
/// `progress` of each game; of no file it is that of no operation. A file is read as a state where it begins with `OGS1`, and else
/// as a delta. The fault is that of the first file that is neither, and nothing is written then: `Load` where it begins as a
/// state, and else `Merge`; or `Write` where the writer fails. `OutOfMemory` may come at any time.
pub fn read_together<W: Write, P: GameProgress>(
    alloc: Global,
    files: &[Vec<u8>],
    progress: &mut P,
    out: &mut W,
) -> Result<(), Fault>
    ensures ok { OnOk result (Written (W.contents out.old) (W.contents out.new) (read_together (map (λ file. file.items) files.now))) }
    ensures err { IfErr result (λ e. e ≢ Fault.OutOfMemory → e ≢ Fault.Write → read_together (map (λ file. file.items) files.now) ≡ Err e) }
    ensures kept { IfErr result (λ e. e ≢ Fault.OutOfMemory → e ≢ Fault.Write → Keeps (W.contents out.old) (W.contents out.new)) }
{
    let all = held_together(alloc, files)?;
    write_held(&all, progress, out)
}

// Writes the catalogue of what is held. The fault is `Write` or `OutOfMemory`.
fn write_held<W: Write, P: GameProgress>(
    held: &Holdings<Global>,
    progress: &mut P,
    out: &mut W,
) -> Result<(), Fault>
    ensures ok { OnOk result (Appends (W.contents out.old) (W.contents out.new) (catalogue (listed held.now))) }
    ensures err { IfErr result (λ e. (e ≡ Fault.Write) ⊎ (e ≡ Fault.OutOfMemory)) }
{
    let said = held.as_record();
    match stream_catalogue(said, said, progress, out) {
        Ok(()) => Ok(()),
        Err(error) => Err(write_fault(&error)),
    }
}

/// The log of what files hold together, each a state or a delta: a line for each operation that is wanted. The fault is as above.
pub fn log_together(
    alloc: Global,
    files: &[Vec<u8>],
    wanted: &Wanted<Global>,
) -> Result<Vec<u8>, Fault>
    ensures ok { IfOk result (λ text. log_together wanted.now (map (λ file. file.items) files.now) ≡ Ok text.items) }
    ensures err { IfErr result (λ e. e ≢ Fault.OutOfMemory → log_together wanted.now (map (λ file. file.items) files.now) ≡ Err e) }
{
    let all = held_together(alloc, files)?;
    let text = write_log(all.as_record(), wanted)?;
    Ok(text)
}

/// The lines by which the operations of two files differ, each a state or a delta; none where they are the same. The fault is
/// that of the first file that is neither: `Load` where it begins as a state, and else `Merge`. `OutOfMemory` may come before that.
pub fn diff(alloc: Global, one: &[u8], other: &[u8]) -> Result<Vec<u8>, Fault>
    ensures ok { IfOk result (λ text. diff_of_files one.now other.now ≡ Ok text.items) }
    ensures err { IfErr result (λ e. e ≢ Fault.OutOfMemory → diff_of_files one.now other.now ≡ Err e) }
{
    let one = read_held(alloc, one)?;
    let other = read_held(alloc, other)?;
    let all = both(alloc, &one, &other)?;
    let text = write_diff(
        one.as_record().store(),
        other.as_record().store(),
        all.as_record(),
    )?;
    Ok(text)
}

/// The lines by which two files differ in the games of these codes, each file a state or a delta. The fault is that of the first
/// file that is neither, as of `diff`; then `Code` of the first word that is none. `OutOfMemory` may come before that.
pub fn diff_of_games(
    alloc: Global,
    one: &[u8],
    other: &[u8],
    words: &[Vec<u8>],
) -> Result<Vec<u8>, Fault>
    ensures ok { IfOk result (λ text. diff_of_files_in one.now other.now (map (λ word. word.items) words.now) ≡ Ok text.items) }
    ensures err { IfErr result (λ e. e ≢ Fault.OutOfMemory → diff_of_files_in one.now other.now (map (λ word. word.items) words.now) ≡ Err e) }
{
    let first = read_held(alloc, one)?;
    let second = read_held(alloc, other)?;
    let named = read_codes(alloc, words)?;
    let all = both(alloc, &first, &second)?;
    let text = write_diff_of(
        first.as_record().store(),
        second.as_record().store(),
        all.as_record(),
        &named,
    )?;
    Ok(text)
}

// The operations of both.
fn both(
    alloc: Global,
    one: &Holdings<Global>,
    other: &Holdings<Global>,
) -> Result<Holdings<Global>, AllocError>
    ensures { IfOk result (λ all. all ≡ union one.now other.now) }
{
    let mut all = Holdings::new(alloc);
    all.join(one)?;
    all.join(other)?;
    Ok(all)
}

/// What the files hold.
pub(crate) fn held_together(alloc: Global, files: &[Vec<u8>]) -> Result<Holdings<Global>, Fault>
    ensures ok { IfOk result (λ all. held_onto empty (map (λ file. file.items) files.now) ≡ Ok all) }
    ensures err { IfErr result (λ e. e ≢ Fault.OutOfMemory → held_onto empty (map (λ file. file.items) files.now) ≡ Err e) }
{
    let mut all = Holdings::new(alloc);
    for file in files {
        let held = read_held(alloc, file)?;
        all.join(&held)?;
    }
    Ok(all)
}
