//! The games that are kept beside a record.

ghost use Rattle.std.specs.Prelude.{◌≡◌, None, Some, IsSome, OnOk, OnErr};
ghost use Rattle.std.specs.BTreeMap as tree;
ghost use Rattle.oct_code.specs.Code as octal;
ghost use Rattle.oct_ops.specs.Games.{game_of};
ghost use Rattle.oct_replica.specs.Beside.{HasOwnCode, after, filed, game_at, with_body};

use oct_code::Code;
use oct_ops::Op;
use oct_period::Game;
use std::alloc::{AllocError, Allocator};
use std::collections::BTreeMap;
use std::rc::Rc;

/// Puts an operation that is shared into its game, which is made where there is none; a note or a removal is of no game. Where
/// memory is refused, nothing changes.
pub(crate) fn file<A: Allocator + Copy>(
    games: &mut BTreeMap<Code, Game<A>, A>,
    alloc: A,
    op: &Rc<Op<A>, A>,
) -> Result<(), AllocError>
    requires { HasOwnCode (tree.get octal.code_cmp games.old) }
    ensures ok { OnOk result ((q : octal.Code) → tree.get octal.code_cmp games.new q ≡ filed (tree.get octal.code_cmp games.old) op.now.value.dot op.now.value.body q) }
    ensures err { OnErr result ((q : octal.Code) → tree.get octal.code_cmp games.new q ≡ tree.get octal.code_cmp games.old q) }
{
    match op.body().code() {
        Some(code) => file_in_game(games, alloc, code, op),
        None => Ok(()),
    }
}

// Puts the operation into the game that it is of.
fn file_in_game<A: Allocator + Copy>(
    games: &mut BTreeMap<Code, Game<A>, A>,
    alloc: A,
    code: Code,
    op: &Rc<Op<A>, A>,
) -> Result<(), AllocError>
    requires own { HasOwnCode (tree.get octal.code_cmp games.old) }
    requires game { game_of op.now.value ≡ Some code }
    ensures ok { OnOk result ((q : octal.Code) → tree.get octal.code_cmp games.new q ≡ after (tree.get octal.code_cmp games.old) code (with_body (game_at (tree.get octal.code_cmp games.old) code) op.now.value.dot op.now.value.body) q) }
    ensures err { OnErr result ((q : octal.Code) → tree.get octal.code_cmp games.new q ≡ tree.get octal.code_cmp games.old q) }
{
    if let Some(game) = games.get_mut(&code) {
        return game.share(op);
    }
    file_in_new_game(games, alloc, code, op)
}

// Makes the game of an operation, which is not there, and puts the operation into it. Without memory it goes again.
fn file_in_new_game<A: Allocator + Copy>(
    games: &mut BTreeMap<Code, Game<A>, A>,
    alloc: A,
    code: Code,
    op: &Rc<Op<A>, A>,
) -> Result<(), AllocError>
    requires own { HasOwnCode (tree.get octal.code_cmp games.old) }
    requires absent { tree.get octal.code_cmp games.old code ≡ None }
    requires game { game_of op.now.value ≡ Some code }
    ensures ok { OnOk result ((q : octal.Code) → tree.get octal.code_cmp games.new q ≡ after (tree.get octal.code_cmp games.old) code (with_body (game_at (tree.get octal.code_cmp games.old) code) op.now.value.dot op.now.value.body) q) }
    ensures err { OnErr result ((q : octal.Code) → tree.get octal.code_cmp games.new q ≡ tree.get octal.code_cmp games.old q) }
{
    let game = Game::new(alloc, code);
    let Ok(_) = games.insert(code, game) else {
        return Err(AllocError);
    };
    if let Err(refused) = file_there(games, code, op) {
        games.remove(&code);
        return Err(refused);
    }
    Ok(())
}

// Puts the operation into its game, which is there.
fn file_there<A: Allocator + Copy>(
    games: &mut BTreeMap<Code, Game<A>, A>,
    code: Code,
    op: &Rc<Op<A>, A>,
) -> Result<(), AllocError>
    requires own { HasOwnCode (tree.get octal.code_cmp games.old) }
    requires there { IsSome (tree.get octal.code_cmp games.old code) }
    requires game { game_of op.now.value ≡ Some code }
    ensures ok { OnOk result ((q : octal.Code) → tree.get octal.code_cmp games.new q ≡ after (tree.get octal.code_cmp games.old) code (with_body (game_at (tree.get octal.code_cmp games.old) code) op.now.value.dot op.now.value.body) q) }
    ensures err { OnErr result ((q : octal.Code) → tree.get octal.code_cmp games.new q ≡ tree.get octal.code_cmp games.old q) }
{
    match games.get_mut(&code) {
        Some(game) => game.share(op),
        None => unreachable!(),
    }
}
