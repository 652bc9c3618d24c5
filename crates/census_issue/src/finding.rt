//! How periods of games are found and claimed.

ghost use Rattle.std.specs.Prelude.{◌≡◌, ◌≢◌, ◌++◌, Ok, Err, IfOk, IfErr, IfSome, OnOk, map};
ghost use Rattle.std.specs.List.{flat_map};
ghost use Rattle.oct_pages.specs.GamesIn.{content_in};
ghost use Rattle.census_issue.specs.Finding.{find, find_line, found_told, surveyed, with_claim};
ghost use Rattle.census_state.specs.Replies.{answer_of};

use crate::found_object::append_found_object;
use crate::opened::issue_in;
use crate::texts::append_found;
use census_state::{Fault, Reply, load, read_codes};
use oct_code::Code;
use oct_ops::{Body, Period};
use oct_pages::game_of;
use oct_period::Game;
use oct_record::Record;
use oct_text::Form;
use std::alloc::{AllocError, Global};

/// Says of each game which period its known values prove. One game is built at a time.
pub fn find(alloc: Global, state: &[u8], codes: &[Vec<u8>], form: Form) -> Result<Reply, Fault>
    ensures ok { IfOk result (λ reply. find form state.now (map (λ word. word.items) codes.now) ≡ Ok (answer_of reply)) }
    ensures err { IfErr result (λ e. e ≢ Fault.OutOfMemory → find form state.now (map (λ word. word.items) codes.now) ≡ Err e) }
{
    let held = load(alloc, state)?;
    let codes = read_codes(alloc, codes)?;
    let text = find_each(alloc, &held, &codes, form)?;
    Ok(Reply::text_alone(text))
}

// A line for each game.
fn find_each(
    alloc: Global,
    held: &Record<Global>,
    codes: &[Code],
    form: Form,
) -> Result<Vec<u8>, AllocError>
    ensures { IfOk result (λ text. text.items ≡ flat_map (find_line form held.now.ops) codes.now) }
{
    let mut text = Vec::new(alloc);
    for code in codes {
        append_line(&mut text, held, *code, form)?;
    }
    Ok(text)
}

// Appends the line of a game.
fn append_line(
    text: &mut Vec<u8>,
    held: &Record<Global>,
    code: Code,
    form: Form,
) -> Result<(), AllocError>
    ensures { OnOk result (text.new.items ≡ text.old.items ++ find_line form held.now.ops code) }
{
    let game = game_of(held, code)?;
    append_told(text, code, &game.find_period(), game.ledger().known(), form)
}

// Appends which period is found of a game, what proves it, and how many of its values are known.
fn append_told(
    text: &mut Vec<u8>,
    code: Code,
    found: &Option<Period>,
    known: u32,
    form: Form,
) -> Result<(), AllocError>
    ensures { OnOk result (text.new.items ≡ text.old.items ++ found_told form code found.now known) }
{
    match form {
        Form::Lines => append_found(text, code, found, known),
        Form::Json => append_found_object(text, code, found, known),
    }
}

/// Says which period the known values of a game prove, and claims it. The game is that of what was said.
pub(crate) fn survey_known(
    alloc: Global,
    said: &mut Record<Global>,
    game: &mut Game<Global>,
    code: Code,
    form: Form,
) -> Result<Vec<u8>, Fault>
    requires { game.old ≡ content_in said.old.ops code }
    ensures ok { IfOk result (λ text. surveyed form code said.old ≡ Ok (record { replica = said.new; text = text.items })) }
    ensures err { IfErr result (λ e. e ≢ Fault.OutOfMemory → surveyed form code said.old ≡ Err e) }
{
    let found = game.find_period();
    let mut text = Vec::new(alloc);
    append_told(&mut text, code, &found, game.ledger().known(), form)?;
    claim_found(said, game, code, found)?;
    Ok(text)
}

// Claims the period that was found of a game, unless the set has the claim already.
fn claim_found(
    said: &mut Record<Global>,
    game: &mut Game<Global>,
    code: Code,
    found: Option<Period>,
) -> Result<(), Fault>
    requires game { game.old ≡ content_in said.old.ops code }
    requires found { IfSome found (λ claim. claim.code ≡ code) }
    ensures ok { OnOk result (with_claim said.old found ≡ Ok said.new) }
    ensures err { IfErr result (λ e. e ≢ Fault.OutOfMemory → with_claim said.old found ≡ Err e) }
{
    match found {
        Some(found) if !game.claims_period(&found) => {
            issue_in(said, game, code, Body::Period(found))
        }
        _ => Ok(()),
    }
}
