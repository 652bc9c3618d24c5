//! The commands that give each of several games its turn.

ghost use Rattle.std.specs.Prelude.{◌≡◌, ◌≢◌, ◌≤◌, [], false, Ok, Err, IfOk, IfErr, OnOk, map};
ghost use Rattle.oct_code.specs.declared.limits.TheConstants.{LIMIT};
ghost use Rattle.census_issue.specs.Extending.{in_turns, stages_in_turns, wanted};
ghost use Rattle.census_issue.specs.Finding.{turn_of};
ghost use Rattle.census_state.specs.Replies.{answer_of};
ghost use Rattle.oct_pages.specs.GamesIn.{content_in};
ghost use Rattle.census_issue.specs.Turns.{Kept, KeptSome, in_turn, stages};

use crate::extending::{check_count, extend_game};
use crate::finding::survey_known;
use crate::texts::extended_line;
use crate::turn_keeper::TurnKeeper;
use census_state::{Fault, Reply, load, read_codes, save};
use oct_code::Code;
use oct_pages::game_after;
use oct_period::{Game, Leaders};
use oct_record::Record;
use oct_text::Form;
use oct_window::Progress;
use std::alloc::Global;

/// What is done with a game whose wanted values are known.
#[derive(Clone, Copy)]
pub enum Aim {
    /// It is said how many blocks were issued.
    Extend,
    /// The period that they prove is said, in this form, and claimed.
    Survey(Form),
}

/// Makes so many values of each game known, by blocks of the next ones, and does with it what is aimed at. After each game the
/// keeper is handed what is done so far. `Number` is answered before any memory is asked for, and `File` where the keeper
/// refuses; what was kept before a fault stands.
pub fn give_turns<P: Progress, K: TurnKeeper<P>>(
    alloc: Global,
    state: &[u8],
    count: u32,
    codes: &[Vec<u8>],
    aim: Aim,
    progress: &mut P,
    keeper: &mut K,
) -> Result<Reply, Fault>
    ensures ok { IfOk result (λ reply. in_turns (turn_of aim) state.now count (map (λ word. word.items) codes.now) ≡ Ok (answer_of reply)) }
    ensures kept { OnOk result (Kept K.keeps keeper.old (stages_in_turns (turn_of aim) state.now count (map (λ word. word.items) codes.now)) keeper.new) }
    ensures err { IfErr result (λ e. e ≢ Fault.OutOfMemory → (e ≡ Fault.File → K.may_refuse ≡ false) → in_turns (turn_of aim) state.now count (map (λ word. word.items) codes.now) ≡ Err e) }
    ensures stands { IfErr result (λ e. e ≢ Fault.File → KeptSome K.keeps keeper.old (stages_in_turns (turn_of aim) state.now count (map (λ word. word.items) codes.now)) keeper.new) }
    ensures number { IfErr (wanted count) (λ e. result ≡ Err e) }
{
    check_count(count)?;
    let mut said = load(alloc, state)?;
    let codes = read_codes(alloc, codes)?;
    let text = turns(alloc, &mut said, count, &codes, aim, progress, keeper)?;
    save(alloc, &said, state.len(), text)
}

// Gives each game its turn, and a line.
fn turns<P: Progress, K: TurnKeeper<P>>(
    alloc: Global,
    said: &mut Record<Global>,
    count: u32,
    codes: &[Code],
    aim: Aim,
    progress: &mut P,
    keeper: &mut K,
) -> Result<Vec<u8>, Fault>
    requires { count ≤ LIMIT }
    ensures ok { IfOk result (λ text. in_turn (turn_of aim count) codes.now (record { replica = said.old; text = [] }) ≡ Ok (record { replica = said.new; text = text.items })) }
    ensures kept { OnOk result (Kept K.keeps keeper.old (stages (turn_of aim count) codes.now (record { replica = said.old; text = [] })) keeper.new) }
    ensures err { IfErr result (λ e. e ≢ Fault.OutOfMemory → (e ≡ Fault.File → K.may_refuse ≡ false) → in_turn (turn_of aim count) codes.now (record { replica = said.old; text = [] }) ≡ Err e) }
    ensures stands { IfErr result (λ e. e ≢ Fault.File → KeptSome K.keeps keeper.old (stages (turn_of aim count) codes.now (record { replica = said.old; text = [] })) keeper.new) }
{
    let mut text = Vec::new(alloc);
    let mut leaders = Leaders::new(alloc);
    for code in codes {
        let line = turn(alloc, said, count, *code, &mut leaders, aim, progress)?;
        text.extend_from_slice(&line)?;
        let Ok(()) = keeper.keep(said, &text, progress) else {
            return Err(Fault::File);
        };
    }
    Ok(text)
}

// Gives a game its turn. It is built, goes on with the values of games before it as far as they are its own, and is dropped at
// the end.
fn turn<P: Progress>(
    alloc: Global,
    said: &mut Record<Global>,
    count: u32,
    code: Code,
    leaders: &mut Leaders<Global>,
    aim: Aim,
    progress: &mut P,
) -> Result<Vec<u8>, Fault>
    requires { count ≤ LIMIT }
    ensures ok { IfOk result (λ text. turn_of aim count code said.old ≡ Ok (record { replica = said.new; text = text.items })) }
    ensures err { IfErr result (λ e. e ≢ Fault.OutOfMemory → turn_of aim count code said.old ≡ Err e) }
{
    let mut game = game_after(said, code, leaders)?;
    game.follow(leaders, count)?;
    let text = turn_with(alloc, said, &mut game, count, code, aim, progress)?;
    game.lead(leaders);
    Ok(text)
}

// Gives its turn to a game that is that of what was said.
fn turn_with<P: Progress>(
    alloc: Global,
    said: &mut Record<Global>,
    game: &mut Game<Global>,
    count: u32,
    code: Code,
    aim: Aim,
    progress: &mut P,
) -> Result<Vec<u8>, Fault>
    requires count { count ≤ LIMIT }
    requires game { game.old ≡ content_in said.old.ops code }
    ensures ok { IfOk result (λ text. turn_of aim count code said.old ≡ Ok (record { replica = said.new; text = text.items })) }
    ensures err { IfErr result (λ e. e ≢ Fault.OutOfMemory → turn_of aim count code said.old ≡ Err e) }
{
    let issued = extend_game(said, game, code, count, progress)?;
    match aim {
        Aim::Extend => Ok(extended_line(alloc, code, game.ledger().known(), issued)?),
        Aim::Survey(form) => survey_known(alloc, said, game, code, form),
    }
}
