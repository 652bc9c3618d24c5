//! The picture of some heaps of a game.

ghost use Rattle.std.specs.Prelude.{◌≡◌, ◌≢◌, ◌≤◌, Ok, Err, IfOk, IfErr, IfSome};
ghost use Rattle.census_tell.specs.Viewing.{heaps_fault, heaps_of, plot_heaps, some_heaps};

use census_state::{Fault, load, read_code};
use oct_pages::game_of;
use oct_period::Game;
use oct_plot::write_plot_between;
use std::alloc::Global;

/// The picture of the heaps `from` to `to` of a game, both among them, or of those up to the last known one, where that stands
/// before `to`. The fault is `Number` where `to` is below `from`, whatever the state is; then that of the state; then `Code`;
/// then `Number` where the value of `from` is not known.
pub fn plot_heaps(
    alloc: Global,
    state: &[u8],
    code: &[u8],
    from: u64,
    to: u64,
) -> Result<Vec<u8>, Fault>
    ensures ok { IfOk result (λ text. plot_heaps from to state.now code.now ≡ Ok text.items) }
    ensures err { IfErr result (λ e. e ≢ Fault.OutOfMemory → plot_heaps from to state.now code.now ≡ Err e) }
    ensures numbers { IfSome (heaps_fault from to) (λ e. result ≡ Err e) }
{
    if to < from {
        return Err(Fault::Number);
    }
    some_heaps(alloc, state, code, from, to)
}

// The picture of the heaps, whose numbers stand in order.
fn some_heaps(
    alloc: Global,
    state: &[u8],
    code: &[u8],
    from: u64,
    to: u64,
) -> Result<Vec<u8>, Fault>
    requires { from ≤ to }
    ensures ok { IfOk result (λ text. some_heaps from to state.now code.now ≡ Ok text.items) }
    ensures err { IfErr result (λ e. e ≢ Fault.OutOfMemory → some_heaps from to state.now code.now ≡ Err e) }
{
    let held = load(alloc, state)?;
    let code = read_code(code)?;
    let game = game_of(&held, code)?;
    heaps_text(alloc, &game, from, to)
}

// The picture of the heaps of a game, with the period that all known values prove.
fn heaps_text(alloc: Global, game: &Game<Global>, from: u64, to: u64) -> Result<Vec<u8>, Fault>
    requires { from ≤ to }
    ensures ok { IfOk result (λ text. heaps_of from to game.now ≡ Ok text.items) }
    ensures err { IfErr result (λ e. e ≢ Fault.OutOfMemory → heaps_of from to game.now ≡ Err e) }
{
    let code = game.code();
    let values = game.ledger().known_values();
    let known = values.len() as u64;
    if known <= from {
        return Err(Fault::Number);
    }
    let last = to.min(known - 1);
    let found = game.find_period();
    let mut text = Vec::new(alloc);
    write_plot_between(
        &code,
        values,
        from as usize,
        last as usize,
        &found,
        &mut text,
    )?;
    Ok(text)
}
