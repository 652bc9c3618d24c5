//! The commands that issue an operation.

ghost use Rattle.std.specs.Prelude.{◌≡◌, ◌≢◌, Ok, Err, IfOk, IfErr};
ghost use Rattle.oct_ops.specs.Views.{content};
ghost use Rattle.census_issue.specs.Issuing.{block_of, compute, import, issued, note, unnote};
ghost use Rattle.census_issue.specs.Issuing as spec;
ghost use Rattle.census_state.specs.Replies.{answer_of};

use crate::json_block::import_block;
use crate::texts::issued_line;
use census_state::{Fault, Reply, load, read_code, save};
use oct_ops::{Block, Body, Note, Period};
use oct_pages::game_of;
use oct_period::next_block;
use oct_record::Record;
use serde_json::Value;
use std::alloc::Global;

// Issues an operation of this body, and writes the state, whose text was so long when it was read.
fn issue(
    alloc: Global,
    mut said: Record<Global>,
    read: usize,
    body: Body<Global>,
) -> Result<Reply, Fault>
    ensures ok { IfOk result (λ reply. issued said (content body) ≡ Ok (answer_of reply)) }
    ensures err { IfErr result (λ e. e ≢ Fault.OutOfMemory → issued said (content body) ≡ Err e) }
{
    match said.issue(body) {
        Ok(dot) => {
            let text = issued_line(alloc, dot)?;
            save(alloc, &said, read, text)
        }
        Err((refused, _)) => Err(Fault::from(refused)),
    }
}

/// Issues the block of a JSON file.
pub fn import(alloc: Global, state: &[u8], file: &[u8]) -> Result<Reply, Fault>
    ensures ok { IfOk result (λ reply. import state.now file.now ≡ Ok (answer_of reply)) }
    ensures err { IfErr result (λ e. e ≢ Fault.OutOfMemory → import state.now file.now ≡ Err e) }
{
    let said = load(alloc, state)?;
    let block = read_block(alloc, file)?;
    issue(alloc, said, state.len(), Body::Block(block))
}

// The block of a JSON file.
fn read_block(alloc: Global, file: &[u8]) -> Result<Block<Global>, Fault>
    ensures ok { IfOk result (λ block. block_of file.now ≡ Ok block) }
    ensures err { IfErr result (λ e. e ≢ Fault.OutOfMemory → block_of file.now ≡ Err e) }
{
    let value = match Value::from_slice(alloc, file) {
        Ok(value) => value,
        Err(e) if e.is_memory() => return Err(Fault::OutOfMemory),
        Err(_) => return Err(Fault::Json),
    };
    let block = import_block(alloc, &value)?;
    Ok(block)
}

/// Computes the next nim-values of a game, and issues them as a block.
pub fn compute(alloc: Global, state: &[u8], code: &[u8], count: u32) -> Result<Reply, Fault>
    ensures ok { IfOk result (λ reply. compute state.now code.now count ≡ Ok (answer_of reply)) }
    ensures err { IfErr result (λ e. e ≢ Fault.OutOfMemory → compute state.now code.now count ≡ Err e) }
{
    let said = load(alloc, state)?;
    let code = read_code(code)?;
    let game = game_of(&said, code)?;
    let block = next_block(game.ledger(), count)?;
    issue(alloc, said, state.len(), Body::Block(block))
}

/// Issues a period claim.
pub fn period(
    alloc: Global,
    state: &[u8],
    code: &[u8],
    start: u32,
    period: u32,
) -> Result<Reply, Fault>
    ensures ok { IfOk result (λ reply. spec.period state.now code.now start period ≡ Ok (answer_of reply)) }
    ensures err { IfErr result (λ e. e ≢ Fault.OutOfMemory → spec.period state.now code.now start period ≡ Err e) }
{
    let said = load(alloc, state)?;
    let code = read_code(code)?;
    let claim = Period::new(code, start, period)?;
    issue(alloc, said, state.len(), Body::Period(claim))
}

/// Issues a note.
pub fn note(alloc: Global, state: &[u8], name: &[u8], text: &[u8]) -> Result<Reply, Fault>
    ensures ok { IfOk result (λ reply. note state.now name.now text.now ≡ Ok (answer_of reply)) }
    ensures err { IfErr result (λ e. e ≢ Fault.OutOfMemory → note state.now name.now text.now ≡ Err e) }
{
    let said = load(alloc, state)?;
    let note = Note::new(alloc, name, text)?;
    issue(alloc, said, state.len(), Body::Note(note))
}

/// Issues the removal of the live notes of a name.
pub fn unnote(alloc: Global, state: &[u8], name: &[u8]) -> Result<Reply, Fault>
    ensures ok { IfOk result (λ reply. unnote state.now name.now ≡ Ok (answer_of reply)) }
    ensures err { IfErr result (λ e. e ≢ Fault.OutOfMemory → unnote state.now name.now ≡ Err e) }
{
    let said = load(alloc, state)?;
    let removal = said.removal(name)?;
    issue(alloc, said, state.len(), Body::Removal(removal))
}
