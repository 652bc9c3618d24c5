//! The commands that tell of games, and that show some of them alone.

ghost use Rattle.std.specs.Prelude.{◌≡◌, ◌≢◌, Ok, Err, IfOk, IfErr, OnOk, map};
ghost use Rattle.std.specs.Io.KnownBytes.{Keeps};
ghost use Rattle.oct_ops.specs.Operations.{listed};
ghost use Rattle.oct_sheet.specs.Sheet.{told_games};
ghost use Rattle.census_tell.specs.Overview.{games, games_in, list_games, named_or, only};
ghost use Rattle.census_tell.specs.Questions.{Written};
ghost use Rattle.census_state.specs.Replies.{answer_of};

use crate::viewing::{view_text, write_view};
use census_state::{Fault, Reply, View, games_alone, load, read_codes};
use oct_code::Code;
use oct_overview::{Condition, Listing, write_overview};
use oct_pages::{GameProgress, Unwatched};
use oct_record::Record;
use oct_sheet::told_codes;
use oct_text::{Form, Told};
use std::alloc::{AllocError, Global};
use std::io::Write;

/// What is told in lines of the games that are named, or where none is of all that have a block or a claim, and of those of which a
/// live note says a long period. One game is built at a time.
pub fn games(
    alloc: Global,
    state: &[u8],
    words: &[Vec<u8>],
    what: Told,
    form: Form,
) -> Result<Reply, Fault>
    ensures ok { IfOk result (λ reply. games state.now (map (λ word. word.items) words.now) what form ≡ Ok (answer_of reply)) }
    ensures err { IfErr result (λ e. e ≢ Fault.OutOfMemory → games state.now (map (λ word. word.items) words.now) what form ≡ Err e) }
{
    list_games(
        alloc,
        state,
        words,
        &[],
        Listing::of(what, form),
        &mut Unwatched,
    )
}

/// What is listed of those of the games that are named, or of all where none is, for which each of the conditions holds. One game
/// is built at a time, of which `progress` is told before.
pub fn list_games<P: GameProgress>(
    alloc: Global,
    state: &[u8],
    words: &[Vec<u8>],
    which: &[Condition],
    listing: Listing,
    progress: &mut P,
) -> Result<Reply, Fault>
    ensures ok { IfOk result (λ reply. list_games state.now (map (λ word. word.items) words.now) which.now listing ≡ Ok (answer_of reply)) }
    ensures err { IfErr result (λ e. e ≢ Fault.OutOfMemory → list_games state.now (map (λ word. word.items) words.now) which.now listing ≡ Err e) }
{
    let held = load(alloc, state)?;
    let named = read_codes(alloc, words)?;
    let text = games_text(alloc, &held, named, which, listing, progress)?;
    Ok(Reply::text_alone(text))
}

// What is listed of them.
fn games_text<P: GameProgress>(
    alloc: Global,
    held: &Record<Global>,
    named: Vec<Code>,
    which: &[Condition],
    listing: Listing,
    progress: &mut P,
) -> Result<Vec<u8>, AllocError>
    ensures { IfOk result (λ text. text.items ≡ games_in held.now.ops named.items which.now listing) }
{
    let codes = named_or_all(held, named)?;
    let mut text = Vec::new(alloc);
    write_overview(held, &codes, which, listing, progress, &mut text)?;
    Ok(text)
}

// The games that are named, or all that views tell of where none is.
fn named_or_all(held: &Record<Global>, named: Vec<Code>) -> Result<Vec<Code>, AllocError>
    ensures { IfOk result (λ codes. codes.items ≡ named_or named.items (told_games (listed held.now.ops))) }
{
    if named.is_empty() {
        return told_codes(held);
    }
    Ok(named)
}

/// What a view shows of the games that are named: their blocks and claims alone, with the authors of the whole state.
pub fn show_only(alloc: Global, state: &[u8], words: &[Vec<u8>], view: View) -> Result<Reply, Fault>
    ensures ok { IfOk result (λ reply. only state.now (map (λ word. word.items) words.now) view ≡ Ok (answer_of reply)) }
    ensures err { IfErr result (λ e. e ≢ Fault.OutOfMemory → only state.now (map (λ word. word.items) words.now) view ≡ Err e) }
{
    let held = load(alloc, state)?;
    let named = read_codes(alloc, words)?;
    let part = games_alone(alloc, &held, &named)?;
    let text = view_text(alloc, part.as_record(), &held, view)?;
    Ok(Reply::text_alone(text))
}

/// Writes that in pieces of some 64 KiB, as it is made, and tells `progress` of each game. The fault is that of the state or of a
/// code, and nothing is written then; or `Write` where the writer fails, and `OutOfMemory`: a part of the text may have been
/// written before.
pub fn stream_only<W: Write, P: GameProgress>(
    alloc: Global,
    state: &[u8],
    words: &[Vec<u8>],
    view: View,
    progress: &mut P,
    out: &mut W,
) -> Result<(), Fault>
    ensures ok { OnOk result (Written (W.contents out.old) (W.contents out.new) (only state.now (map (λ word. word.items) words.now) view)) }
    ensures err { IfErr result (λ e. e ≢ Fault.OutOfMemory → e ≢ Fault.Write → only state.now (map (λ word. word.items) words.now) view ≡ Err e) }
    ensures kept { IfErr result (λ e. e ≢ Fault.OutOfMemory → e ≢ Fault.Write → Keeps (W.contents out.old) (W.contents out.new)) }
{
    let held = load(alloc, state)?;
    let named = read_codes(alloc, words)?;
    let part = games_alone(alloc, &held, &named)?;
    write_view(alloc, part.as_record(), &held, view, progress, out)
}
