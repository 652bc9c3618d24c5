//! A catalogue that is ready to be written.

ghost use Rattle.std.specs.Prelude.{OnOk, OnErr};
ghost use Rattle.std.specs.Io.KnownBytes.{Appends};
ghost use Rattle.written.specs.Output.{AppendsPrefix};

use crate::held_blocks::HeldBlocks;
use crate::held_lines::put_blocks;
use crate::outlet::put;
use std::alloc::Allocator;
use std::io::Write;
use std::marker::Model;
use written::{Unwritten, write_out};

/// A catalogue for which all memory was asked: it can be written, and no want of memory cuts it off. It is seen as its text. The
/// lines of the blocks of its last game are made as they are written, since they are most of the text where one game has nearly
/// all operations; what stands before and behind them is there.
#[derive(Drop)]
pub struct ReadyCatalogue<'a, A: Allocator + Copy> {
    pub(crate) front: Vec<u8, A>,
    pub(crate) blocks: Option<HeldBlocks<'a, A>>,
    pub(crate) rest: Vec<u8, A>,
}

impl<'a, A: Allocator + Copy> Model for ReadyCatalogue<'a, A> {
    ghost use Rattle.std.specs.Prelude.{◌++◌};
    ghost use Rattle.std.specs.List.{concat};
    ghost use Rattle.oct_pages.specs.Catalogue.{Text};
    ghost use Rattle.oct_pages.specs.HeldBlocks.{some_lines};

    ghost Value = { Text };

    ghost view = { λ r. r.front.items ++ concat (some_lines r.blocks) ++ r.rest.items };
}

impl<'a, A: Allocator + Copy> ReadyCatalogue<'a, A> {
    /// Writes it, and flushes. No memory is asked for: the one error is the writer's, and then a prefix of the text was written.
    pub fn write<W: Write>(self, out: &mut W) -> Result<(), Unwritten>
        ensures ok { OnOk result (Appends (W.contents out.old) (W.contents out.new) self.entry) }
        ensures err { OnErr result (AppendsPrefix (W.contents out.old) (W.contents out.new) self.entry) }
    {
        let ReadyCatalogue {
            front,
            blocks,
            rest,
        } = self;
        let mut piece = front;
        put_blocks(&mut piece, out, &blocks)?;
        put(&mut piece, out, &rest)?;
        write_out(out, &piece)
    }
}
