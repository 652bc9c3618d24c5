//! What is said of a game by its first nim-values and the period that they prove.

ghost use Rattle.std.specs.Prelude.{◌≡◌, ◌≤◌, ◌++◌, Ok, Err, IfErr, IfOk, OnOk};
ghost use Rattle.census_tell.specs.Asking.{known_text, outcome_line, unknown_text, value_of, value_text};
ghost use Rattle.census_tell.specs.Moving.{left_text, lost_text, move_line, move_of, move_text};
ghost use Rattle.oct_text.specs.declared.form.Form.TheVariants.{Lines};
ghost use Rattle.page.specs.Answers.{IsPicture, IsPosition};
ghost use Rattle.page.specs.FirstGame as first;

use crate::asking::asked;
use crate::lines::append_line;
use census_search::{first_game, known_game};
use census_state::Fault;
use oct_code::{Code, LIMIT};
use oct_period::{Game, Move, Outcome, outcome_of};
use oct_plot::write_plot;
use oct_text::{append_labelled, append_text};
use std::alloc::{AllocError, Allocator};

// How many nim-values a state may have of a game.
const MOST: u64 = LIMIT as u64;

/// The picture of the first `count` nim-values of a game.
pub(crate) fn picture<A: Allocator + Copy>(
    alloc: A,
    code: &[u8],
    count: u64,
) -> Result<Vec<u8, A>, Fault>
    ensures ok { IfOk result (λ text. IsPicture code.now count (Ok text.items)) }
    ensures err { IfErr result (λ e. IsPicture code.now count (Err e)) }
{
    let code = asked(MOST, count, code)?;
    Ok(picture_text(alloc, code, count as u32)?)
}

// The text of the picture.
fn picture_text<A: Allocator + Copy>(
    alloc: A,
    code: Code,
    count: u32,
) -> Result<Vec<u8, A>, AllocError>
    requires some { 1 ≤ count }
    requires few { count ≤ LIMIT }
    ensures { IfOk result (λ text. text.items ≡ first.picture code count) }
{
    let game = known_game(alloc, code, count)?;
    let mut text = Vec::new(alloc);
    write_plot(
        &code,
        game.ledger().known_values(),
        &game.find_period(),
        &mut text,
    )?;
    Ok(text)
}

/// What is said of a position by the first `count` nim-values of a game: its value and who wins it, and then a winning move.
pub(crate) fn position<A: Allocator + Copy>(
    alloc: A,
    code: &[u8],
    count: u64,
    heaps: &[u64],
) -> Result<Vec<u8, A>, Fault>
    ensures ok { IfOk result (λ text. IsPosition code.now count heaps.now (Ok text.items)) }
    ensures err { IfErr result (λ e. IsPosition code.now count heaps.now (Err e)) }
{
    let code = asked(MOST, count, code)?;
    Ok(position_text(alloc, code, count as u32, heaps)?)
}

// The text of the position.
fn position_text<A: Allocator + Copy>(
    alloc: A,
    code: Code,
    count: u32,
    heaps: &[u64],
) -> Result<Vec<u8, A>, AllocError>
    requires some { 1 ≤ count }
    requires few { count ≤ LIMIT }
    ensures { IfOk result (λ text. text.items ≡ first.position code count heaps.now) }
{
    let game = first_game(alloc, code, count)?;
    let mut text = Vec::new(alloc);
    append_value(&mut text, &game, heaps)?;
    append_move(&mut text, &game, heaps)?;
    Ok(text)
}

// ---- the value

// Appends a position's value and who wins it, or the first heap whose nim-value is not known.
fn append_value<A: Allocator + Copy>(
    text: &mut Vec<u8, A>,
    game: &Game<A>,
    heaps: &[u64],
) -> Result<(), AllocError>
    ensures { OnOk result (text.new.items ≡ text.old.items ++ value_text Lines game.now.code heaps.now (value_of game.now heaps.now)) }
{
    let position = game.position_value(heaps);
    match position {
        Ok(value) => append_known(text, value, &outcome_of(position)),
        Err(unknown) => append_unknown(text, unknown.index),
    }
}

// Appends a value and who wins.
fn append_known<A: Allocator>(
    text: &mut Vec<u8, A>,
    value: u32,
    outcome: &Outcome,
) -> Result<(), AllocError>
    ensures { OnOk result (text.new.items ≡ text.old.items ++ known_text Lines value outcome.now) }
{
    append_line(text, b"value ", u64::from(value))?;
    append_text(text, outcome_line(outcome))
}

// The line of who wins, and none where it is not known.
fn outcome_line(outcome: &Outcome) -> &'static [u8]
    ensures { result.now ≡ outcome_line outcome.now }
{
    match outcome {
        Outcome::NextWins => b"next player wins\n",
        Outcome::NextLoses => b"next player loses\n",
        Outcome::Unknown { .. } => b"",
    }
}

// Appends the place of the first heap whose nim-value is not known.
fn append_unknown<A: Allocator>(text: &mut Vec<u8, A>, index: usize) -> Result<(), AllocError>
    ensures { OnOk result (text.new.items ≡ text.old.items ++ unknown_text Lines index) }
{
    append_line(text, b"unknown at ", index as u64)
}

// ---- the move

// Appends the first winning move, or that there is none, or the first heap whose nim-value is not known.
fn append_move<A: Allocator + Copy>(
    text: &mut Vec<u8, A>,
    game: &Game<A>,
    heaps: &[u64],
) -> Result<(), AllocError>
    ensures { OnOk result (text.new.items ≡ text.old.items ++ move_text Lines heaps.now (move_of game.now heaps.now)) }
{
    match game.winning_move(heaps) {
        Ok(Some(found)) => append_found(text, &found, heaps[found.index]),
        Ok(None) => append_lost(text),
        Err(unknown) => append_unknown(text, unknown.index),
    }
}

// Appends a move in a heap of so many beans.
fn append_found<A: Allocator>(
    text: &mut Vec<u8, A>,
    found: &Move,
    beans: u64,
) -> Result<(), AllocError>
    ensures { OnOk result (text.new.items ≡ text.old.items ++ move_line found.now beans) }
{
    append_labelled(text, b"heap ", found.index)?;
    append_labelled(text, b" of ", beans)?;
    append_labelled(text, b": remove ", found.removed)?;
    append_left(text, found.left.0, found.left.1)?;
    append_text(text, b"\n")
}

// Appends which heaps are left, of which one or both may be empty.
fn append_left<A: Allocator>(text: &mut Vec<u8, A>, less: u64, more: u64) -> Result<(), AllocError>
    ensures { OnOk result (text.new.items ≡ text.old.items ++ left_text less more) }
{
    if more == 0 {
        return append_text(text, b", leave nothing");
    }
    if less == 0 {
        return append_labelled(text, b", leave ", more);
    }
    append_labelled(text, b", leave ", less)?;
    append_labelled(text, b" and ", more)
}

// Appends that no move wins.
fn append_lost<A: Allocator>(text: &mut Vec<u8, A>) -> Result<(), AllocError>
    ensures { OnOk result (text.new.items ≡ text.old.items ++ lost_text Lines) }
{
    append_text(text, b"none: the player to move loses\n")
}
