//! The nim-value of a position, by a state or else by a search.

ghost use Rattle.std.specs.Prelude.{◌≡◌, ◌≢◌, Err, IfErr, IfOk};
ghost use Rattle.census_core.specs.Reaching.{IsReachFault, IsValueFound};
ghost use Rattle.census_search.specs.Searching.{searchable};

use census_search::{check_searchable, reach};
use census_state::{Fault, load, read_code};
use census_tell::position_text;
use oct_pages::game_of;
use oct_text::Form;
use oct_window::Progress;
use std::alloc::Global;

/// The nim-value of a position and who wins it, or the first heap whose nim-value is not known: by what a state says of the game, as
/// `Value` of `Request` has it, and where a heap is not known by that, by a search of the game as `search` makes it, by `count`
/// nim-values at most.
///
/// The first fault is `Number`, where no search computes so many values; then `Load` and `Code`; then that of the search.
/// `OutOfMemory` may come before any of them but `Number`.
pub fn value_by_search<P: Progress>(
    alloc: Global,
    state: &[u8],
    code: &[u8],
    heaps: &[u64],
    count: u64,
    form: Form,
    progress: &mut P,
) -> Result<Vec<u8>, Fault>
    ensures ok { IfOk result (λ text. IsValueFound form state.now code.now heaps.now count text.items) }
    ensures err { IfErr result (λ e. e ≢ Fault.OutOfMemory → IsReachFault state.now code.now count e) }
    ensures number { IfErr (searchable count) (λ e. result ≡ Err e) }
{
    check_searchable(count)?;
    let held = load(alloc, state)?;
    let code = read_code(code)?;
    let game = game_of(&held, code)?;
    let position = match game.position_value(heaps) {
        Ok(value) => Ok(value),
        Err(_) => reach(alloc, code, count, heaps, progress)?,
    };
    Ok(position_text(alloc, position, form)?)
}
