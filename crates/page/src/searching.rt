//! The period that first nim-values prove, and their list.

ghost use Rattle.std.specs.Prelude.{◌≡◌, ◌+◌, ◌^◌, ◌≤◌, ◌++◌, [], Ok, Err, IfErr, IfOk, OnOk};
ghost use Rattle.oct_bfile.specs.Bfile.{bfile_text, row_text};
ghost use Rattle.oct_mex.specs.NimValues.{nim_values};
ghost use Rattle.oct_ops.specs.Operation.{repeating};
ghost use Rattle.oct_period.specs.Periods.{needs};
ghost use Rattle.oct_search.specs.Found.{IsFound};
ghost use Rattle.census_search.specs.SearchTexts.{game_line, period_line};
ghost use Rattle.census_search.specs.Searching.{IsSearched as IsSearchedFor, IsSearchFault};
ghost use Rattle.census_state.specs.PeriodTexts.{found_text, vain_line};
ghost use Rattle.oct_text.specs.declared.form.Form.TheVariants.{Lines};
ghost use Rattle.page.specs.Answers.{IsListed, IsSearched};

use crate::asking::asked;
use census_search::SEARCH_LIMIT;
use census_state::Fault;
use oct_code::Code;
use oct_mex::SeenPeriod;
use oct_search::{MOST, Nobody, Search};
use oct_text::{append_labelled, append_number, append_text};
use std::alloc::{AllocError, Allocator};

/// The line of the period that the first `count` nim-values of a game prove, computed until they prove one, or of none.
pub(crate) fn search<A: Allocator + Copy>(
    alloc: A,
    code: &[u8],
    count: u64,
) -> Result<Vec<u8, A>, Fault>
    ensures ok { IfOk result (λ text. IsSearched code.now count (Ok text.items)) }
    ensures err { IfErr result (λ e. IsSearched code.now count (Err e)) }
{
    let code = asked(SEARCH_LIMIT, count, code)?;
    search_game(alloc, code, count as usize)
}

// The line of a game.
fn search_game<A: Allocator + Copy>(alloc: A, code: Code, count: usize) -> Result<Vec<u8, A>, Fault>
    requires { count ≤ MOST }
    ensures ok { IfOk result (λ text. IsSearchedFor Lines code count [] text.items) }
    ensures err { IfErr result (IsSearchFault code count) }
{
    let mut game = Search::new(alloc, code);
    let found = game.search(count, &mut Nobody)?;
    Ok(game_line(alloc, &game, found)?)
}

// What is said of a game in which this period is found, or none.
fn game_line<A: Allocator + Copy>(
    alloc: A,
    game: &Search<A>,
    found: Option<SeenPeriod>,
) -> Result<Vec<u8, A>, AllocError>
    requires { IsFound game.now.code game.now.len found }
    ensures { IfOk result (λ text. text.items ≡ game_line game.now.code found game.now.len) }
{
    let mut text = Vec::new(alloc);
    match found {
        Some(seen) => append_period_line(&mut text, game.code(), seen, game.len())?,
        None => append_vain_line(&mut text, game.code(), game.len())?,
    }
    Ok(text)
}

// Appends the line of a period, and of how many nim-values are computed.
fn append_period_line<A: Allocator>(
    text: &mut Vec<u8, A>,
    code: Code,
    seen: SeenPeriod,
    values: usize,
) -> Result<(), AllocError>
    requires { seen.start + seen.period ≤ 2 ^ 60 }
    ensures { OnOk result (text.new.items ≡ text.old.items ++ period_line code seen values) }
{
    code.append_text(text)?;
    append_period(text, code, seen)?;
    append_labelled(text, b" values ", values)?;
    append_text(text, b"\n")
}

// Appends a period, its start, and how many values prove it.
fn append_period<A: Allocator>(
    text: &mut Vec<u8, A>,
    code: Code,
    seen: SeenPeriod,
) -> Result<(), AllocError>
    requires { seen.start + seen.period ≤ 2 ^ 60 }
    ensures { OnOk result (text.new.items ≡ text.old.items ++ found_text (repeating code seen.start seen.period)) }
{
    append_labelled(text, b" period ", seen.period)?;
    append_labelled(text, b" from ", seen.start)?;
    append_labelled(text, b" needs ", needs(code, seen))
}

// How many nim-values prove the period.
fn needs(code: Code, seen: SeenPeriod) -> usize
    requires { seen.start + seen.period ≤ 2 ^ 60 }
    ensures { result ≡ needs (repeating code seen.start seen.period) }
{
    2 * seen.start + 2 * seen.period + code.len()
}

// Appends the line of a game of which so many nim-values prove no period.
fn append_vain_line<A: Allocator>(
    text: &mut Vec<u8, A>,
    code: Code,
    values: usize,
) -> Result<(), AllocError>
    ensures { OnOk result (text.new.items ≡ text.old.items ++ vain_line code values) }
{
    code.append_text(text)?;
    append_labelled(text, b" no period in ", values)?;
    append_text(text, b" values\n")
}

/// The first `count` nim-values of a game as a b-file.
pub(crate) fn values<A: Allocator + Copy>(
    alloc: A,
    code: &[u8],
    count: u64,
) -> Result<Vec<u8, A>, Fault>
    ensures ok { IfOk result (λ text. IsListed code.now count (Ok text.items)) }
    ensures err { IfErr result (λ e. IsListed code.now count (Err e)) }
{
    let code = asked(SEARCH_LIMIT, count, code)?;
    list_game(alloc, code, count as usize)
}

// The list of a game.
fn list_game<A: Allocator + Copy>(alloc: A, code: Code, count: usize) -> Result<Vec<u8, A>, Fault>
    requires { count ≤ MOST }
    ensures ok { IfOk result (λ text. text.items ≡ bfile_text (nim_values code count)) }
    ensures err { IfErr result (IsSearchFault code count) }
{
    let mut game = Search::new(alloc, code);
    game.extend(count)?;
    Ok(rows(alloc, &game)?)
}

// The lines of the nim-values that are computed.
fn rows<A: Allocator + Copy>(alloc: A, game: &Search<A>) -> Result<Vec<u8, A>, AllocError>
    ensures { IfOk result (λ text. text.items ≡ bfile_text (nim_values game.now.code game.now.len)) }
{
    let mut text = Vec::new(alloc);
    for heap in 0..game.len() {
        append_row(&mut text, heap, game.known(heap))?;
    }
    Ok(text)
}

// Appends the line of a heap and its nim-value.
fn append_row<A: Allocator>(
    text: &mut Vec<u8, A>,
    heap: usize,
    value: u16,
) -> Result<(), AllocError>
    ensures { OnOk result (text.new.items ≡ text.old.items ++ row_text heap value) }
{
    append_number(text, heap)?;
    append_labelled(text, b" ", value)?;
    append_text(text, b"\n")
}
