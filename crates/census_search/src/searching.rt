//! How the period of a game is searched for, as far as memory goes.

ghost use Rattle.std.specs.Prelude.{◌≡◌, ◌≤◌, Ok, Err, IfOk, IfErr, OnOk};
ghost use Rattle.census_search.specs.Searching.{IsSearched, IsSearchFault, searchable};

use crate::search_text::search_text;
use census_state::Fault;
use oct_code::Code;
use oct_search::{MOST, Search};
use oct_text::Form;
use oct_window::Progress;
use std::alloc::Global;

/// The most nim-values of a game that a search computes.
pub const SEARCH_LIMIT: u64 = 4_294_967_296;

/// Computes nim-values of a game until they prove a period, or `count` of them are known, and gives the text that says what
/// was found: the least period that they prove, from the least heap that they prove it from, how many of them prove it, and
/// how many were computed; and then the nim-value of each of `heaps`, which the period gives for every heap, and which is
/// not known where no period is found and the heap is not below `count`. A period holds for every heap. It is looked for
/// at lengths that grow by a quarter, so that more values may be computed than prove it.
///
/// The fault is `Number` where `count` is 0 or above `SEARCH_LIMIT`, before any memory is asked for; `PastValue` where the
/// nim-value of a heap below `count` is above 65,535, before a period is proved; and `OutOfMemory`.
pub fn search<P: Progress>(
    alloc: Global,
    code: Code,
    count: u64,
    heaps: &[u64],
    form: Form,
    progress: &mut P,
) -> Result<Vec<u8>, Fault>
    ensures ok { IfOk result (λ text. IsSearched form code count heaps.now text.items) }
    ensures err { IfErr result (IsSearchFault code count) }
    ensures number { IfErr (searchable count) (λ e. result ≡ Err e) }
{
    check_searchable(count)?;
    let mut game = Search::new(alloc, code);
    let found = game.search(count as usize, progress)?;
    Ok(search_text(alloc, &game, found, heaps, form)?)
}

/// Computes the first `count` nim-values of a game. The faults are those of `search`.
pub fn first_values<P: Progress>(
    alloc: Global,
    code: Code,
    count: u64,
    progress: &mut P,
) -> Result<Search<Global>, Fault>
    ensures ok { OnOk result (searchable count ≡ Ok count) }
    ensures values { IfOk result (λ game. game ≡ record { code = code; len = count }) }
    ensures err { IfErr result (IsSearchFault code count) }
    ensures number { IfErr (searchable count) (λ e. result ≡ Err e) }
{
    check_searchable(count)?;
    let count = count as usize;
    let mut game = Search::new(alloc, code);
    game.extend_told(count, count, progress)?;
    Ok(game)
}

/// Refuses a number of values that no search computes: `Number` where it is 0 or above `SEARCH_LIMIT`.
pub fn check_searchable(count: u64) -> Result<(), Fault>
    ensures ok { OnOk result (searchable count ≡ Ok count) }
    ensures fits { OnOk result (count ≤ MOST) }
    ensures err { IfErr result (λ e. searchable count ≡ Err e) }
{
    if count == 0 || count > SEARCH_LIMIT {
        return Err(Fault::Number);
    }
    Ok(())
}
