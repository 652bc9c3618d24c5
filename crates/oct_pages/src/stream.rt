//! The catalogue, written as it is made.
#![tactic(auto, using(oct_ops::proofs::Growing::growing))]

ghost use Rattle.std.specs.Prelude.{◌≡◌, ◌++◌, OnOk};
ghost use Rattle.std.specs.Io.KnownBytes.{Appends};
ghost use Rattle.std.specs.List.{concat, flat_map};
ghost use Rattle.oct_ops.specs.Operations.{listed};
ghost use Rattle.oct_pages.specs.Catalogue.{catalogue_among, game_lines, games as games_of};
ghost use Rattle.written.specs.Output.{AppendsFront};

use crate::catalogue::append_rest;
use crate::games::append_game;
use crate::pager::Pager;
use oct_code::Code;
use oct_period::Leaders;
use oct_record::Record;
use oct_text::append_text;
use std::alloc::Allocator;
use std::collections::BTreeMap;
use std::io::{self, Write};
use written::spill;

/// Is told of each game of a long text before it is built.
pub trait GameProgress {
    /// This game is next, after so many of all.
    fn tell(&mut self, code: Code, done: u64, all: u64);
}

/// Tells nobody.
#[derive(Clone, Copy, PartialEq, Eq, Drop)]
pub struct Unwatched;

impl GameProgress for Unwatched {
    fn tell(&mut self, _: Code, _: u64, _: u64) {}
}

/// Writes the catalogue of a part of what was said, in which the authors are those of the whole, in pieces of some 64 KiB; one game is
/// in memory at a time. The error is that of the writer, or of the kind `OutOfMemory`; a part of the text may have been written then.
pub fn stream_catalogue<W: Write, P: GameProgress, A: Allocator + Copy>(
    part: &Record<A>,
    whole: &Record<A>,
    progress: &mut P,
    out: &mut W,
) -> io::Result<()>
    ensures { OnOk result (Appends (W.contents out.old) (W.contents out.new) (catalogue_among (listed part.now.ops) (listed whole.now.ops))) }
{
    let mut piece = Vec::new(part.allocator());
    append_text(&mut piece, b"census 2\n")?;
    stream_games(part, progress, &mut piece, out)?;
    append_rest(
        &mut piece,
        &mut Pager::All,
        part.store(),
        part.notes(),
        whole.store(),
    )?;
    out.write_all(&piece)
}

// Writes the lines of all games behind a piece, of which the end is still to be written.
fn stream_games<W: Write, P: GameProgress, A: Allocator + Copy>(
    part: &Record<A>,
    progress: &mut P,
    piece: &mut Vec<u8, A>,
    out: &mut W,
) -> io::Result<()>
    ensures { OnOk result (AppendsFront (W.contents out.old) (W.contents out.new) (piece.old.items ++ concat (flat_map (game_lines (listed part.now.ops)) (games_of (listed part.now.ops)))) piece.new.items) }
{
    let games = part.games();
    let none = BTreeMap::new(part.allocator());
    let all = games.len() as u64;
    let mut done = 0;
    let mut leaders = Leaders::new(part.allocator());
    for (code, ops) in games.iter() {
        progress.tell(*code, done, all);
        append_game(
            piece,
            &mut Pager::All,
            part,
            &none,
            *code,
            ops,
            &mut leaders,
        )?;
        spill(piece, out)?;
        done = done.saturating_add(1);
    }
    Ok(())
}
