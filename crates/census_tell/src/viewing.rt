//! The commands that show all that is known.

ghost use Rattle.std.specs.Prelude.{◌≡◌, ◌≢◌, ◌⊎◌, Ok, Err, IfOk, IfErr, OnOk, OnErr};
ghost use Rattle.std.specs.Io.KnownBytes.{Appends, Keeps};
ghost use Rattle.census_tell.specs.Questions.{Written, shown, shown_among};
ghost use Rattle.census_state.specs.Replies.{answer_of};
ghost use Rattle.census_tell.specs.Viewing.{json_among};

use census_state::{Fault, Reply, View, load, write_fault};
use oct_json::stream_json;
use oct_pages::{GameProgress, Unwatched, stream_catalogue};
use oct_record::Record;
use oct_views::stream_report;
use std::alloc::{AllocError, Global};
use std::io::{self, Write};

/// All that is known, in a view.
pub fn show(alloc: Global, state: &[u8], view: View) -> Result<Reply, Fault>
    ensures ok { IfOk result (λ reply. shown view state.now ≡ Ok (answer_of reply)) }
    ensures err { IfErr result (λ e. e ≢ Fault.OutOfMemory → shown view state.now ≡ Err e) }
{
    let held = load(alloc, state)?;
    let text = view_text(alloc, &held, &held, view)?;
    Ok(Reply::text_alone(text))
}

/// Writes all that is known, in a view, in pieces of some 64 KiB, as it is made, and tells `progress` of each game. The fault is that
/// of the state, and nothing is written then; or `Write` where the writer fails, and `OutOfMemory`: a part of the text may have
/// been written before.
pub fn stream_view<W: Write, P: GameProgress>(
    alloc: Global,
    state: &[u8],
    view: View,
    progress: &mut P,
    out: &mut W,
) -> Result<(), Fault>
    ensures ok { OnOk result (Written (W.contents out.old) (W.contents out.new) (shown view state.now)) }
    ensures err { IfErr result (λ e. e ≢ Fault.OutOfMemory → e ≢ Fault.Write → shown view state.now ≡ Err e) }
    ensures kept { IfErr result (λ e. e ≢ Fault.OutOfMemory → e ≢ Fault.Write → Keeps (W.contents out.old) (W.contents out.new)) }
{
    let held = load(alloc, state)?;
    write_view(alloc, &held, &held, view, progress, out)
}

/// The text of a view of a part of what was said. It has one game in memory at a time, unless it is dear.
pub(crate) fn view_text(
    alloc: Global,
    part: &Record<Global>,
    whole: &Record<Global>,
    view: View,
) -> Result<Vec<u8>, AllocError>
    ensures { IfOk result (λ text. text.items ≡ shown_among view part.now.ops whole.now.ops) }
{
    let mut text = Vec::new(alloc);
    match stream(alloc, part, whole, view, &mut Unwatched, &mut text) {
        Ok(()) => Ok(text),
        Err(_) => Err(AllocError),
    }
}

/// Writes a view of a part of what was said. The fault is `Write` or `OutOfMemory`.
pub(crate) fn write_view<W: Write, P: GameProgress>(
    alloc: Global,
    part: &Record<Global>,
    whole: &Record<Global>,
    view: View,
    progress: &mut P,
    out: &mut W,
) -> Result<(), Fault>
    ensures ok { OnOk result (Appends (W.contents out.old) (W.contents out.new) (shown_among view part.now.ops whole.now.ops)) }
    ensures err { IfErr result (λ e. (e ≡ Fault.Write) ⊎ (e ≡ Fault.OutOfMemory)) }
{
    match stream(alloc, part, whole, view, progress, out) {
        Ok(()) => Ok(()),
        Err(error) => Err(write_fault(&error)),
    }
}

// Writes a view of a part of what was said.
fn stream<W: Write, P: GameProgress>(
    alloc: Global,
    part: &Record<Global>,
    whole: &Record<Global>,
    view: View,
    progress: &mut P,
    out: &mut W,
) -> io::Result<()>
    ensures { OnOk result (Appends (W.contents out.old) (W.contents out.new) (shown_among view part.now.ops whole.now.ops)) }
{
    match view {
        View::Catalogue => stream_catalogue(part, whole, progress, out),
        View::Json => stream_line(alloc, part, whole, progress, out),
        View::Report(how) => stream_report(part, whole, how, progress, out),
    }
}

// Writes the document, and the end of its line.
fn stream_line<W: Write, P: GameProgress>(
    alloc: Global,
    part: &Record<Global>,
    whole: &Record<Global>,
    progress: &mut P,
    out: &mut W,
) -> io::Result<()>
    ensures { OnOk result (Appends (W.contents out.old) (W.contents out.new) (json_among part.now.ops whole.now.ops)) }
{
    stream_json(alloc, part, whole, progress, out)?;
    out.write_all(b"\n")
}
