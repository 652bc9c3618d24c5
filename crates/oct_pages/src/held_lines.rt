//! The lines of blocks, each made when it is due.

ghost use Rattle.std.specs.Prelude.{◌≡◌, ◌++◌, true, OnOk, OnErr};
ghost use Rattle.std.specs.List.{concat};
ghost use Rattle.oct_ops.specs.Sets.{contains};
ghost use Rattle.oct_period.specs.Claims.{claims_in};
ghost use Rattle.oct_pages.specs.HeldBlocks.{held_lines, some_lines};
ghost use Rattle.oct_pages.specs.Sheet.{block_row};
ghost use Rattle.oct_verify.specs.Filing.{blocks_in};
ghost use Rattle.written.specs.Output.{AppendsFront, AppendsPrefix};

use crate::held_blocks::HeldBlocks;
use crate::outlet::put;
use crate::outlet_lines::put_block_row;
use crate::statuses::{BlockRow, block_of_game};
use oct_ops::{Block, Dot};
use std::alloc::Allocator;
use std::io::Write;
use written::Unwritten;

/// Puts the lines of all blocks behind the piece, where there are some, as `put` does.
pub(crate) fn put_blocks<W: Write, A: Allocator + Copy>(
    piece: &mut Vec<u8, A>,
    out: &mut W,
    blocks: &Option<HeldBlocks<'_, A>>,
) -> Result<(), Unwritten>
    ensures ok { OnOk result (AppendsFront (W.contents out.old) (W.contents out.new) (piece.old.items ++ concat (some_lines blocks.now)) piece.new.items) }
    ensures err { OnErr result (AppendsPrefix (W.contents out.old) (W.contents out.new) (piece.old.items ++ concat (some_lines blocks.now))) }
{
    match blocks {
        Some(blocks) => blocks.put_lines(piece, out),
        None => put(piece, out, b""),
    }
}

impl<A: Allocator + Copy> HeldBlocks<'_, A> {
    /// Puts the lines of all blocks behind the piece, as `put` does. No memory is asked for.
    pub(crate) fn put_lines<W: Write>(
        &self,
        piece: &mut Vec<u8, A>,
        out: &mut W,
    ) -> Result<(), Unwritten>
        ensures ok { OnOk result (AppendsFront (W.contents out.old) (W.contents out.new) (piece.old.items ++ concat (held_lines self.now)) piece.new.items) }
        ensures err { OnErr result (AppendsPrefix (W.contents out.old) (W.contents out.new) (piece.old.items ++ concat (held_lines self.now))) }
    {
        let code = self.game.code();
        for op in self.ops.iter() {
            if let Some(block) = block_of_game(op.body(), &code) {
                let row = self.row(op.dot(), block);
                put_block_row(piece, out, &row)?;
            }
        }
        Ok(())
    }

    // The row of a block.
    fn row(&self, dot: Dot, block: &Block<A>) -> BlockRow
        requires { contains self.now.game.blocks (dot, block.now) ≡ true }
        ensures { result ≡ block_row (blocks_in self.now.game.blocks) (claims_in self.now.game.claims) (dot, block.now) }
    {
        let start = block.start();
        let status = self.game.block_status_by(self.claim, &dot, block);
        BlockRow {
            dot,
            start,
            count: block.end() - start,
            status,
        }
    }
}
