//! What a search prints of a game: as lines, or as one line of JSON.

ghost use Rattle.std.specs.Prelude.{◌≡◌, ◌+◌, ◌^◌, ◌≤◌, ◌++◌, codes, IfOk, OnOk, Some};
ghost use Rattle.std.specs.List.{flat_map};
ghost use Rattle.oct_search.specs.Found.{IsFound};
ghost use Rattle.oct_ops.specs.Operation.{repeating};
ghost use Rattle.oct_period.specs.Periods.{needs};
ghost use Rattle.census_state.specs.PeriodTexts.{found_text};
ghost use Rattle.census_search.specs.SearchTexts.{found_members, game_line, heap_line, heap_object, heaps_member, json_text, lines_text, period_line, period_members, period_words, search_text, value_member, value_text};

use census_state::append_vain_line;
use oct_code::Code;
use oct_mex::SeenPeriod;
use oct_reach::heap_value;
use oct_search::Search;
use oct_text::{Form, append_labelled, append_text};
use std::alloc::{AllocError, Global};

/// What is said of a game in which this period is found, or none, and of some heaps.
pub(crate) fn search_text(
    alloc: Global,
    game: &Search<Global>,
    found: Option<SeenPeriod>,
    heaps: &[u64],
    form: Form,
) -> Result<Vec<u8>, AllocError>
    requires { IsFound game.now.code game.now.len found }
    ensures { IfOk result (λ text. text.items ≡ search_text form game.now.code found game.now.len heaps.now) }
{
    match form {
        Form::Lines => lines_text(alloc, game, found, heaps),
        Form::Json => json_text(alloc, game, found, heaps),
    }
}

// How many nim-values prove the period.
fn needs(code: Code, seen: SeenPeriod) -> usize
    requires { seen.start + seen.period ≤ 2 ^ 60 }
    ensures { result ≡ needs (repeating code seen.start seen.period) }
{
    2 * seen.start + 2 * seen.period + code.len()
}

// ---- lines

// The line of the game, and then one for each heap.
fn lines_text(
    alloc: Global,
    game: &Search<Global>,
    found: Option<SeenPeriod>,
    heaps: &[u64],
) -> Result<Vec<u8>, AllocError>
    requires { IsFound game.now.code game.now.len found }
    ensures { IfOk result (λ text. text.items ≡ lines_text game.now.code found game.now.len heaps.now) }
{
    let mut text = Vec::new(alloc);
    append_game_line(&mut text, game, found)?;
    for heap in heaps {
        append_heap_line(
            &mut text,
            game.code(),
            *heap,
            heap_value(game, found, *heap),
        )?;
    }
    Ok(text)
}

// Appends the line of the game.
fn append_game_line(
    text: &mut Vec<u8>,
    game: &Search<Global>,
    found: Option<SeenPeriod>,
) -> Result<(), AllocError>
    requires { IsFound game.now.code game.now.len found }
    ensures { OnOk result (text.new.items ≡ text.old.items ++ game_line game.now.code found game.now.len) }
{
    match found {
        Some(seen) => append_period_line(text, game.code(), seen, game.len()),
        None => append_vain_line(text, game.code(), game.len() as u64),
    }
}

// Appends the line of a period, and of how many nim-values are computed.
fn append_period_line(
    text: &mut Vec<u8>,
    code: Code,
    seen: SeenPeriod,
    values: usize,
) -> Result<(), AllocError>
    requires { seen.start + seen.period ≤ 2 ^ 60 }
    ensures { OnOk result (text.new.items ≡ text.old.items ++ period_line code seen values) }
{
    append_period_words(text, code, seen, values)?;
    append_text(text, b"\n")
}

/// Appends a period, and how many nim-values are computed, in words.
pub(crate) fn append_period_words(
    text: &mut Vec<u8>,
    code: Code,
    seen: SeenPeriod,
    values: usize,
) -> Result<(), AllocError>
    requires { seen.start + seen.period ≤ 2 ^ 60 }
    ensures { OnOk result (text.new.items ≡ text.old.items ++ period_words code seen values) }
{
    code.append_text(text)?;
    append_period(text, code, seen)?;
    append_labelled(text, b" values ", values)
}

// Appends a period, its start, and how many values prove it.
fn append_period(text: &mut Vec<u8>, code: Code, seen: SeenPeriod) -> Result<(), AllocError>
    requires { seen.start + seen.period ≤ 2 ^ 60 }
    ensures { OnOk result (text.new.items ≡ text.old.items ++ found_text (repeating code seen.start seen.period)) }
{
    append_labelled(text, b" period ", seen.period)?;
    append_labelled(text, b" from ", seen.start)?;
    append_labelled(text, b" needs ", needs(code, seen))
}

// Appends the line of a heap and its nim-value, if that is known.
fn append_heap_line(
    text: &mut Vec<u8>,
    code: Code,
    heap: u64,
    value: Option<u16>,
) -> Result<(), AllocError>
    ensures { OnOk result (text.new.items ≡ text.old.items ++ heap_line code heap value) }
{
    code.append_text(text)?;
    append_labelled(text, b" at ", heap)?;
    append_value(text, value)?;
    append_text(text, b"\n")
}

// Appends a nim-value, or that it is not known.
fn append_value(text: &mut Vec<u8>, value: Option<u16>) -> Result<(), AllocError>
    ensures { OnOk result (text.new.items ≡ text.old.items ++ value_text value) }
{
    match value {
        Some(value) => append_labelled(text, b" value ", value),
        None => append_text(text, b" not known"),
    }
}

// ---- JSON

// The object of the game, with an array of the heaps, if there are any.
fn json_text(
    alloc: Global,
    game: &Search<Global>,
    found: Option<SeenPeriod>,
    heaps: &[u64],
) -> Result<Vec<u8>, AllocError>
    requires { IsFound game.now.code game.now.len found }
    ensures { IfOk result (λ text. text.items ≡ json_text game.now.code found game.now.len heaps.now) }
{
    let mut text = Vec::new(alloc);
    append_text(&mut text, b"{\"code\":\"")?;
    game.code().append_text(&mut text)?;
    append_found_members(&mut text, game, found)?;
    append_labelled(&mut text, b",\"values\":", game.len())?;
    append_heaps_member(&mut text, game, found, heaps)?;
    append_text(&mut text, b"}\n")?;
    Ok(text)
}

// Appends the end of the code, and the period, if one is found.
fn append_found_members(
    text: &mut Vec<u8>,
    game: &Search<Global>,
    found: Option<SeenPeriod>,
) -> Result<(), AllocError>
    requires { IsFound game.now.code game.now.len found }
    ensures { OnOk result (text.new.items ≡ text.old.items ++ found_members game.now.code found) }
{
    match found {
        Some(seen) => {
            // Of these `len` says that there are not too many for the sum.
            let _ = game.len();
            append_period_members(text, game.code(), seen)
        }
        None => append_text(text, b"\",\"period\":null"),
    }
}

/// Appends the end of the code, a period, its start, and how many values prove it.
pub(crate) fn append_period_members(
    text: &mut Vec<u8>,
    code: Code,
    seen: SeenPeriod,
) -> Result<(), AllocError>
    requires { seen.start + seen.period ≤ 2 ^ 60 }
    ensures { OnOk result (text.new.items ≡ text.old.items ++ period_members code seen) }
{
    append_labelled(text, b"\",\"period\":", seen.period)?;
    append_labelled(text, b",\"from\":", seen.start)?;
    append_labelled(text, b",\"needs\":", needs(code, seen))
}

// Appends the array of the heaps, if there are any.
fn append_heaps_member(
    text: &mut Vec<u8>,
    game: &Search<Global>,
    found: Option<SeenPeriod>,
    heaps: &[u64],
) -> Result<(), AllocError>
    requires { IsFound game.now.code game.now.len found }
    ensures { OnOk result (text.new.items ≡ text.old.items ++ heaps_member game.now.code found game.now.len heaps.now) }
{
    let [first, others @ ..] = heaps else {
        return Ok(());
    };
    append_heap_object(text, game, found, b",\"at\":[", *first)?;
    append_heap_objects(text, game, found, others)?;
    append_text(text, b"]")
}

// Appends the objects of further heaps.
fn append_heap_objects(
    text: &mut Vec<u8>,
    game: &Search<Global>,
    found: Option<SeenPeriod>,
    heaps: &[u64],
) -> Result<(), AllocError>
    requires { IsFound game.now.code game.now.len found }
    ensures { OnOk result (text.new.items ≡ text.old.items ++ flat_map (heap_object game.now.code found game.now.len (codes ",")) heaps.now) }
{
    for heap in heaps {
        append_heap_object(text, game, found, b",", *heap)?;
    }
    Ok(())
}

// Appends the object of a heap, behind a separator.
fn append_heap_object(
    text: &mut Vec<u8>,
    game: &Search<Global>,
    found: Option<SeenPeriod>,
    separator: &[u8],
    heap: u64,
) -> Result<(), AllocError>
    requires { IsFound game.now.code game.now.len found }
    ensures { OnOk result (text.new.items ≡ text.old.items ++ heap_object game.now.code found game.now.len separator.now heap) }
{
    append_text(text, separator)?;
    append_labelled(text, b"{\"heap\":", heap)?;
    append_value_member(text, heap_value(game, found, heap))?;
    append_text(text, b"}")
}

// Appends a nim-value, or null where it is not known.
fn append_value_member(text: &mut Vec<u8>, value: Option<u16>) -> Result<(), AllocError>
    ensures { OnOk result (text.new.items ≡ text.old.items ++ value_member value) }
{
    match value {
        Some(value) => append_labelled(text, b",\"value\":", value),
        None => append_text(text, b",\"value\":null"),
    }
}
