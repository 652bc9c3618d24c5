//! The commands that ask for one game or one page of a state.

ghost use Rattle.std.specs.Prelude.{◌≡◌, ◌≢◌, Ok, Err, IfOk, IfErr};
ghost use Rattle.oct_ops.specs.Operations.{listed};
ghost use Rattle.census_tell.specs.Asking.{known_text, outcome_line, page, page_of, position_text, unknown_text, value_of, value_text};
ghost use Rattle.census_tell.specs.Questions.{answered, told_of};
ghost use Rattle.census_state.specs.Replies.{answer_of};
ghost use Rattle.census_tell.specs.Viewing.{bfile_of, plot_of};

use crate::json_lines::{unknown_object, value_object};
use crate::moving::move_text;
use census_state::{Fault, Reply, load, number_line, read_code};
use oct_bfile::write_bfile;
use oct_pages::{game_of, write_page_of};
use oct_period::{Game, Outcome, Unknown, outcome_of};
use oct_plot::write_plot;
use oct_record::Record;
use oct_text::Form;
use std::alloc::{AllocError, Global};

/// What is asked of one game.
#[derive(Clone, Copy)]
pub enum Question<'a> {
    /// The value of a position, and who wins it.
    Value(&'a [u64], Form),
    /// A winning move of a position.
    Move(&'a [u64], Form),
    /// The known nim-values as a b-file.
    Bfile,
    /// The known nim-values as a picture.
    Plot,
}

/// The answer to a question about a game. No other game is built.
pub fn answer(
    alloc: Global,
    state: &[u8],
    code: &[u8],
    question: Question<'_>,
) -> Result<Reply, Fault>
    ensures ok { IfOk result (λ reply. answered question.entry state.now code.now ≡ Ok (answer_of reply)) }
    ensures err { IfErr result (λ e. e ≢ Fault.OutOfMemory → answered question.entry state.now code.now ≡ Err e) }
{
    let held = load(alloc, state)?;
    let code = read_code(code)?;
    let game = game_of(&held, code)?;
    let text = answer_text(alloc, &game, question)?;
    Ok(Reply::text_alone(text))
}

// The text of the answer.
fn answer_text(
    alloc: Global,
    game: &Game<Global>,
    question: Question<'_>,
) -> Result<Vec<u8>, AllocError>
    ensures { IfOk result (λ text. text.items ≡ told_of question.entry game.now) }
{
    match question {
        Question::Value(heaps, form) => value_text(alloc, game, heaps, form),
        Question::Move(heaps, form) => move_text(alloc, game.winning_move(heaps), heaps, form),
        Question::Bfile => bfile_text(alloc, game),
        Question::Plot => plot_text(alloc, game),
    }
}

// A position's value and who wins it, or the first heap whose nim-value is not known.
fn value_text(
    alloc: Global,
    game: &Game<Global>,
    heaps: &[u64],
    form: Form,
) -> Result<Vec<u8>, AllocError>
    ensures { IfOk result (λ text. text.items ≡ value_text form game.now.code heaps.now (value_of game.now heaps.now)) }
{
    position_text(alloc, game.position_value(heaps), form)
}

/// The nim-value of a position and who wins it, or the first heap whose nim-value is not known.
pub fn position_text(
    alloc: Global,
    position: Result<u32, Unknown>,
    form: Form,
) -> Result<Vec<u8>, AllocError>
    ensures { IfOk result (λ text. text.items ≡ position_text form position) }
{
    match position {
        Ok(value) => known_text(alloc, value, &outcome_of(position), form),
        Err(unknown) => unknown_text(alloc, unknown.index, form),
    }
}

// A value and who wins.
fn known_text(
    alloc: Global,
    value: u32,
    outcome: &Outcome,
    form: Form,
) -> Result<Vec<u8>, AllocError>
    ensures { IfOk result (λ text. text.items ≡ known_text form value outcome.now) }
{
    match form {
        Form::Lines => {
            let mut text = number_line(alloc, b"value ", u64::from(value))?;
            text.extend_from_slice(outcome_line(outcome))?;
            Ok(text)
        }
        Form::Json => value_object(alloc, value, outcome),
    }
}

/// The place of the first heap whose nim-value is not known.
pub(crate) fn unknown_text(alloc: Global, index: usize, form: Form) -> Result<Vec<u8>, AllocError>
    ensures { IfOk result (λ text. text.items ≡ unknown_text form index) }
{
    match form {
        Form::Lines => number_line(alloc, b"unknown at ", index as u64),
        Form::Json => unknown_object(alloc, index),
    }
}

// The line of who wins, and none where it is not known.
fn outcome_line(outcome: &Outcome) -> &'static [u8]
    ensures { result.now ≡ outcome_line outcome.now }
{
    match outcome {
        Outcome::NextWins => b"next player wins\n",
        Outcome::NextLoses => b"next player loses\n",
        Outcome::Unknown { .. } => b"",
    }
}

// The known nim-values of a game as a b-file.
fn bfile_text(alloc: Global, game: &Game<Global>) -> Result<Vec<u8>, AllocError>
    ensures { IfOk result (λ text. text.items ≡ bfile_of game.now) }
{
    let mut text = Vec::new(alloc);
    write_bfile(game.ledger().known_values(), &mut text)?;
    Ok(text)
}

// The known nim-values of a game as a picture, with the period that they prove.
fn plot_text(alloc: Global, game: &Game<Global>) -> Result<Vec<u8>, AllocError>
    ensures { IfOk result (λ text. text.items ≡ plot_of game.now) }
{
    let code = game.code();
    let found = game.find_period();
    let mut text = Vec::new(alloc);
    write_plot(&code, game.ledger().known_values(), &found, &mut text)?;
    Ok(text)
}

/// One page of the catalogue.
pub fn page(alloc: Global, state: &[u8], number: u32) -> Result<Reply, Fault>
    ensures ok { IfOk result (λ reply. page state.now number ≡ Ok (answer_of reply)) }
    ensures err { IfErr result (λ e. e ≢ Fault.OutOfMemory → page state.now number ≡ Err e) }
{
    let held = load(alloc, state)?;
    page_reply(alloc, &held, number)
}

// The reply of one page of the catalogue of what is held.
fn page_reply(alloc: Global, held: &Record<Global>, number: u32) -> Result<Reply, Fault>
    ensures ok { IfOk result (λ reply. page_of (listed held.now.ops) number ≡ Ok (answer_of reply)) }
    ensures err { IfErr result (λ e. e ≢ Fault.OutOfMemory → page_of (listed held.now.ops) number ≡ Err e) }
{
    let mut text = Vec::new(alloc);
    if !write_page_of(held, number, &mut text)? {
        return Err(Fault::NoPage);
    }
    Ok(Reply::text_alone(text))
}
