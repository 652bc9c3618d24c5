//! A game that is open: it stays that of what was said while its author issues operations of it.

ghost use Rattle.std.specs.Prelude.{◌≡◌, ◌≢◌, Ok, Err, Some, IfErr, OnOk};
ghost use Rattle.oct_ops.specs.Games.{game_of_body};
ghost use Rattle.oct_ops.specs.Views.{content};
ghost use Rattle.oct_pages.specs.GamesIn.{content_in};
ghost use Rattle.census_issue.specs.Issuing.{with_body};

use census_state::Fault;
use oct_code::Code;
use oct_ops::{Body, Op};
use oct_period::Game;
use oct_record::{IssueError, Record};
use std::alloc::Global;
use std::rc::Rc;

/// Issues an operation of a game, which it shares with what was said.
pub(crate) fn issue_in(
    said: &mut Record<Global>,
    game: &mut Game<Global>,
    code: Code,
    body: Body<Global>,
) -> Result<(), Fault>
    requires game { game.old ≡ content_in said.old.ops code }
    requires code { game_of_body (content body) ≡ Some code }
    ensures ok { OnOk result (with_body said.old (content body) ≡ Ok said.new) }
    ensures game { OnOk result (game.new ≡ content_in said.new.ops code) }
    ensures err { IfErr result (λ e. e ≢ Fault.OutOfMemory → with_body said.old (content body) ≡ Err e) }
{
    let Some(dot) = said.next_dot() else {
        return Err(Fault::Issue(IssueError::LastNumber));
    };
    let Ok(op) = Rc::new(said.allocator(), Op::new(dot, body)) else {
        return Err(Fault::OutOfMemory);
    };
    said.share(&op)?;
    game.share(&op)?;
    Ok(())
}
