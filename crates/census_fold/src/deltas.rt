//! The operations of a state, or of some of its games, as one delta.

ghost use Rattle.std.specs.Prelude.{◌≡◌, ◌≢◌, Ok, Err, IfOk, IfErr, map};
ghost use Rattle.std.specs.List.{All};
ghost use Rattle.oct_ops.specs.Operations.{listed};
ghost use Rattle.oct_ops.specs.Valid.{IsOp};
ghost use Rattle.census_fold.specs.Deltas.{delta, delta_of, delta_of_games};
ghost use Rattle.census_state.specs.Replies.{answer_of};

use crate::digests::text_of;
use census_state::{Fault, Reply, games_alone, load, number_line, read_codes};
use oct_join::Clock;
use oct_record::Record;
use std::alloc::Global;

/// All operations as one delta.
pub fn delta(alloc: Global, state: &[u8]) -> Result<Reply, Fault>
    ensures ok { IfOk result (λ reply. delta state.now ≡ Ok (answer_of reply)) }
    ensures err { IfErr result (λ e. e ≢ Fault.OutOfMemory → delta state.now ≡ Err e) }
{
    let held = load(alloc, state)?;
    delta_reply(alloc, &held)
}

/// The blocks and claims of the games of these codes as one delta, and no notes. The first refusal is `Load`; then `Code` of the
/// first word that is none; then `TooMany`.
pub fn delta_of_games(alloc: Global, state: &[u8], words: &[Vec<u8>]) -> Result<Reply, Fault>
    ensures ok { IfOk result (λ reply. delta_of_games state.now (map (λ word. word.items) words.now) ≡ Ok (answer_of reply)) }
    ensures err { IfErr result (λ e. e ≢ Fault.OutOfMemory → delta_of_games state.now (map (λ word. word.items) words.now) ≡ Err e) }
{
    let held = load(alloc, state)?;
    let named = read_codes(alloc, words)?;
    let part = games_alone(alloc, &held, &named)?;
    part_reply(alloc, part.as_record())
}

// The reply of what is held as one delta, be it a part.
fn part_reply(alloc: Global, part: &Record<Global>) -> Result<Reply, Fault>
    ensures ok { IfOk result (λ reply. delta_of (listed part.now.ops) ≡ Ok (answer_of reply)) }
    ensures err { IfErr result (λ e. e ≢ Fault.OutOfMemory → delta_of (listed part.now.ops) ≡ Err e) }
{
    let file = text_of(alloc, part)?;
    let text = number_line(alloc, b"operations ", part.len() as u64)?;
    Ok(Reply {
        state: None,
        file: Some(file),
        text,
    })
}

/// The reply of all operations that are held as one delta.
pub(crate) fn delta_reply(alloc: Global, held: &Record<Global>) -> Result<Reply, Fault>
    requires valid { All IsOp (listed held.now.ops) }
    ensures ok { IfOk result (λ reply. delta_of (listed held.now.ops) ≡ Ok (answer_of reply)) }
    ensures err { IfErr result (λ e. e ≢ Fault.OutOfMemory → delta_of (listed held.now.ops) ≡ Err e) }
{
    let mut file = Vec::new(alloc);
    held.delta(&Clock::new(alloc), &mut file)?;
    let text = number_line(alloc, b"operations ", held.len() as u64)?;
    Ok(Reply {
        state: None,
        file: Some(file),
        text,
    })
}
