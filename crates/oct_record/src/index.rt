//! What is kept beside a set: the operations of each game, and the notes.

ghost use Rattle.std.specs.Prelude.{◌≡◌, Some, OnOk, OnErr};
ghost use Rattle.std.specs.BTreeMap as tree;
ghost use Rattle.oct_code.specs.Code as octal;
ghost use Rattle.oct_ops.specs.Games.{game_of};
ghost use Rattle.oct_record.specs.Index.{filed, held_at, noted, unfiled, unnoted, AreFilled};

use oct_code::Code;
use oct_join::OpSet;
use oct_notes::Notes;
use oct_ops::Op;
use std::alloc::{AllocError, Allocator};
use std::collections::BTreeMap;
use std::rc::Rc;

/// Puts an operation that is shared among those of its game, or among the notes. Where memory is refused, nothing changes.
pub(crate) fn file<A: Allocator + Copy>(
    games: &mut BTreeMap<Code, OpSet<A>, A>,
    notes: &mut Notes<A>,
    alloc: A,
    op: &Rc<Op<A>, A>,
) -> Result<(), AllocError>
    ensures games { OnOk result ((q : octal.Code) → held_at (tree.get octal.code_cmp games.new) q ≡ filed op.now.value q (held_at (tree.get octal.code_cmp games.old) q)) }
    ensures notes { OnOk result (notes.new ≡ noted op.now.value notes.old) }
    ensures same_games { OnErr result ((q : octal.Code) → held_at (tree.get octal.code_cmp games.new) q ≡ held_at (tree.get octal.code_cmp games.old) q) }
    ensures same_notes { OnErr result (notes.new ≡ notes.old) }
    ensures filled { AreFilled (tree.get octal.code_cmp games.old) → AreFilled (tree.get octal.code_cmp games.new) }
{
    match op.body().code() {
        Some(code) => file_in_game(games, alloc, code, op),
        None => notes.share(op),
    }
}

// Puts the operation among those of its game.
fn file_in_game<A: Allocator + Copy>(
    games: &mut BTreeMap<Code, OpSet<A>, A>,
    alloc: A,
    code: Code,
    op: &Rc<Op<A>, A>,
) -> Result<(), AllocError>
    requires { game_of op.now.value ≡ Some code }
    ensures ok { OnOk result ((q : octal.Code) → held_at (tree.get octal.code_cmp games.new) q ≡ filed op.now.value q (held_at (tree.get octal.code_cmp games.old) q)) }
    ensures err { OnErr result ((q : octal.Code) → held_at (tree.get octal.code_cmp games.new) q ≡ held_at (tree.get octal.code_cmp games.old) q) }
    ensures filled { AreFilled (tree.get octal.code_cmp games.old) → AreFilled (tree.get octal.code_cmp games.new) }
{
    if let Some(held) = games.get_mut(&code) {
        held.share(op)?;
        return Ok(());
    }
    let mut held = OpSet::new(alloc);
    held.share(op)?;
    match games.insert(code, held) {
        Ok(_) => Ok(()),
        Err(_) => Err(AllocError),
    }
}

/// Takes an operation out of its game, or out of the notes. A game without operations goes.
pub(crate) fn unfile<A: Allocator + Copy>(
    games: &mut BTreeMap<Code, OpSet<A>, A>,
    notes: &mut Notes<A>,
    op: &Op<A>,
)
    ensures games { (q : octal.Code) → held_at (tree.get octal.code_cmp games.new) q ≡ unfiled op.now q (held_at (tree.get octal.code_cmp games.old) q) }
    ensures notes { notes.new ≡ unnoted op.now notes.old }
    ensures filled { AreFilled (tree.get octal.code_cmp games.old) → AreFilled (tree.get octal.code_cmp games.new) }
{
    match op.body().code() {
        Some(code) => unfile_in_game(games, code, op),
        None => notes.take_back(op),
    }
}

// Takes the operation out of its game, which goes with its last one.
fn unfile_in_game<A: Allocator + Copy>(
    games: &mut BTreeMap<Code, OpSet<A>, A>,
    code: Code,
    op: &Op<A>,
)
    requires { game_of op.now ≡ Some code }
    ensures games { (q : octal.Code) → held_at (tree.get octal.code_cmp games.new) q ≡ unfiled op.now q (held_at (tree.get octal.code_cmp games.old) q) }
    ensures filled { AreFilled (tree.get octal.code_cmp games.old) → AreFilled (tree.get octal.code_cmp games.new) }
{
    let Some(held) = games.get_mut(&code) else {
        return;
    };
    held.remove(op);
    if held.is_empty() {
        games.remove(&code);
    }
}
