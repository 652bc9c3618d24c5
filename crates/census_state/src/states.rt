//! The commands that make a state, have it go on under another author, or merge a delta into it; what a session leaves; and
//! states as files hold them.

ghost use Rattle.std.specs.Prelude.{◌≡◌, ◌≢◌, ◌≤◌, length, Ok, Err, IfOk, IfErr};
ghost use Rattle.std.specs.List.{All};
ghost use Rattle.oct_delta.specs.Text.{Bytes};
ghost use Rattle.oct_ops.specs.Operations.{listed};
ghost use Rattle.oct_ops.specs.Valid.{IsOp};
ghost use Rattle.oct_record.specs.Content.{RecordContent};
ghost use Rattle.census_state.specs.Replies.{answer_of};
ghost use Rattle.census_state.specs.States.{foreign_to, init, merge, rejoined, renumber, unchanged, united, IsHeldBefore};
ghost use Rattle.census_state.specs.Stored.{loaded, saved};

use crate::fault::Fault;
use crate::reply::Reply;
use crate::texts::{number_line, renumbered_line, union_line};
use oct_delta::laws::texts_are_read;
use oct_ops::Dot;
use oct_record::Record;
use std::alloc::{AllocError, Global};

/// What a state's text says. No nim-value is computed.
pub fn load(alloc: Global, state: &[u8]) -> Result<Record<Global>, Fault>
    ensures ok { IfOk result (λ said. loaded state.now ≡ Ok said) }
    ensures valid { IfOk result (λ said. All IsOp (listed said.ops)) }
    ensures err { IfErr result (λ e. e ≢ Fault.OutOfMemory → loaded state.now ≡ Err e) }
{
    texts_are_read();
    let said = Record::load(alloc, state)?;
    Ok(said)
}

// How much a state's text may grow by what a command issues, before more memory is asked for.
const GROWTH: usize = 65_536;

/// The reply that writes the state of what was said, and this text. The state's text was so long when it was read: as much memory
/// and a little more is asked for at once.
pub fn save(
    alloc: Global,
    said: &Record<Global>,
    read: usize,
    text: Vec<u8>,
) -> Result<Reply, Fault>
    ensures ok { IfOk result (λ reply. saved said.now text.items ≡ Ok (answer_of reply)) }
    ensures err { IfErr result (λ e. e ≢ Fault.OutOfMemory → saved said.now text.items ≡ Err e) }
{
    let mut state = Vec::with_capacity(alloc, read.saturating_add(GROWTH))?;
    said.save(&mut state)?;
    Ok(Reply {
        state: Some(state),
        file: None,
        text,
    })
}

/// A new state of the author. `Zero` is answered before any memory is asked for.
pub fn init(alloc: Global, id: u32) -> Result<Reply, Fault>
    ensures ok { IfOk result (λ reply. init id ≡ Ok (answer_of reply)) }
    ensures err { IfErr result (λ e. e ≢ Fault.OutOfMemory → init id ≡ Err e) }
    ensures zero { id ≡ 0 → result ≡ Err Fault.Zero }
{
    let Ok(said) = Record::new(alloc, id) else {
        return Err(Fault::Zero);
    };
    let text = number_line(alloc, b"author ", u64::from(id))?;
    save(alloc, &said, 0, text)
}

/// The state under another author, from then on. `Zero` is answered before the state is looked at.
pub fn renumber(alloc: Global, state: &[u8], id: u32) -> Result<Reply, Fault>
    ensures ok { IfOk result (λ reply. renumber id state.now ≡ Ok (answer_of reply)) }
    ensures err { IfErr result (λ e. e ≢ Fault.OutOfMemory → renumber id state.now ≡ Err e) }
    ensures zero { id ≡ 0 → result ≡ Err Fault.Zero }
{
    if id == 0 {
        return Err(Fault::Zero);
    }
    let mut said = load(alloc, state)?;
    let old = said.renumber(id)?;
    let text = renumbered_line(alloc, old, id)?;
    save(alloc, &said, state.len(), text)
}

/// Takes the file's delta in.
pub fn merge(alloc: Global, state: &[u8], file: &[u8]) -> Result<Reply, Fault>
    ensures ok { IfOk result (λ reply. merge state.now file.now ≡ Ok (answer_of reply)) }
    ensures err { IfErr result (λ e. e ≢ Fault.OutOfMemory → merge state.now file.now ≡ Err e) }
{
    texts_are_read();
    let mut said = load(alloc, state)?;
    let new = said.take(file)?;
    let text = number_line(alloc, b"new ", u64::from(new))?;
    save(alloc, &said, state.len().saturating_add(file.len()), text)
}

/// What a state file is to hold after a session, and what was noticed.
#[derive(Drop)]
pub struct Rejoined {
    /// The new text of the file, and how many operations are new to it and how many there are.
    pub reply: Reply,
    /// The dot of the least operation by the file's own author that was held and that the file had not; none where there is none.
    /// Then someone else issues under that number, or the file is an old copy.
    pub foreign: Option<Dot>,
}

/// What is to be written after a session: the union of what the state file holds now, for another command may have changed
/// it meanwhile, and what the session held; the author stays. The text says how many operations are new to the
/// file and how many there are. The first refusal is `Load` where the bytes are no state; then `Author` where they are
/// another author's; then `TooMany`. Want of memory is `OutOfMemory`.
pub fn rejoin(alloc: Global, state: &[u8], held: &Record<Global>) -> Result<Rejoined, Fault>
    ensures ok { IfOk result (λ done. rejoined state.now held.now ≡ Ok (answer_of done.reply)) }
    ensures foreign { IfOk result (λ done. foreign_to state.now held.now ≡ Ok done.foreign) }
    ensures err { IfErr result (λ e. e ≢ Fault.OutOfMemory → rejoined state.now held.now ≡ Err e) }
{
    let mut kept = load(alloc, state)?;
    if kept.author() != held.author() {
        return Err(Fault::Author);
    }
    let foreign = kept.first_foreign(held);
    let before = kept.len();
    kept.join(held)?;
    let all = kept.len();
    let text = union_line(alloc, all - before, all)?;
    let reply = save(alloc, &kept, state.len(), text)?;
    Ok(Rejoined { reply, foreign })
}

/// The text of a session, where the state file says no more than is held, under the same author, and has so many operations. It
/// is the text of `rejoin` over such a file, which writes the state of what is held: as `write_state` does, so that the file need
/// not be read. The error is want of memory.
pub fn rejoined_text(
    alloc: Global,
    before: usize,
    held: &Record<Global>,
) -> Result<Vec<u8>, AllocError>
    requires { before ≤ length (listed held.now.ops) }
    ensures { IfOk result (λ text. (kept : RecordContent) → IsHeldBefore kept before held.now → united kept held.now.ops ≡ saved held.now text.items) }
{
    let all = held.len();
    let new = all - before;
    union_line(alloc, new, all)
}

/// The text of a session that brought nothing, where the state file says what is held: that no operation is new to the file, and
/// how many there are. It is the text of `rejoin` over such a file, which would write what stands there. The error is want of memory.
pub fn unchanged(alloc: Global, held: &Record<Global>) -> Result<Vec<u8>, AllocError>
    ensures text { IfOk result (λ text. text.items ≡ unchanged held.now) }
    ensures rejoined { IfOk result (λ text. (state : Bytes) → loaded state ≡ Ok held.now → rejoined state held.now ≡ saved held.now text.items) }
{
    union_line(alloc, 0, held.len())
}
