//! The rows of each table.
#![tactic(auto, using(oct_ops::proofs::Growing::growing))]

ghost use Rattle.std.specs.Prelude.{◌≡◌, ◌++◌, None, Some, OnOk, codes};
ghost use Rattle.oct_ops.specs.Growth.{Extends};
ghost use Rattle.oct_ops.specs.Views.{content};
ghost use Rattle.oct_sql.specs.Cells.{cell_text, code_cell, name_cell, number_cell, truth_cell};
ghost use Rattle.oct_sql.specs.Script.{block_by, called_row, claim_by, game_row, kind_name, noted_row, operation_row, said_row};

use crate::cell::Cell::{self, Code as CodeText, Null, Number, Text};
use crate::cell::append_row;
use oct_code::Code;
use oct_log::append_said;
use oct_ops::{Body, Dot, Note, Op};
use oct_overview::LeastPeriod;
use oct_pages::{BlockRow, PeriodRow};
use oct_period::PeriodStatus;
use oct_sheet::Called;
use oct_store::{Author, Fork};
use oct_verify::Status;
use std::alloc::{AllocError, Allocator};

/// Rows of the type `R`, which stand in one table.
pub(crate) trait Rows<R> {
    ghost use Rattle.std.specs.Prelude.{ℕ, List};

    ghost text: { Self → R → List ℕ };

    /// Appends the statement that adds the row.
    fn append<A: Allocator + Copy>(&self, out: &mut Vec<u8, A>, row: &R) -> Result<(), AllocError>
        ensures ok { OnOk result (out.new.items ≡ out.old.items ++ text self.now row.now) }
        ensures grown { Extends out.old.items out.new.items };
}

/// Authors.
#[derive(Clone, Copy)]
pub(crate) struct Authors;

/// Blocks of a game.
#[derive(Clone, Copy)]
pub(crate) struct BlocksOf(pub Code);

/// Period claims of a game.
#[derive(Clone, Copy)]
pub(crate) struct ClaimsOf(pub Code);

/// Live notes.
#[derive(Clone, Copy)]
pub(crate) struct Notes;

/// Dots with several contents.
#[derive(Clone, Copy)]
pub(crate) struct Forks;

impl<'a> Rows<Called<'a>> for Authors {
    ghost use Rattle.oct_sql.specs.Script.{author_row};

    ghost text = { λ _ called. author_row called };

    fn append<A: Allocator + Copy>(
        &self,
        out: &mut Vec<u8, A>,
        row: &Called<'a>,
    ) -> Result<(), AllocError> {
        append_called(out, row.author, row.name)
    }
}

// Appends the row of an author of this name.
fn append_called<A: Allocator>(
    out: &mut Vec<u8, A>,
    author: Author,
    name: &[u8],
) -> Result<(), AllocError>
    ensures ok { OnOk result (out.new.items ≡ out.old.items ++ called_row author name.now) }
    ensures grown { Extends out.old.items out.new.items }
{
    append_row(
        out,
        b"authors",
        &[
            Number(u64::from(author.author)),
            name_cell(name),
            Number(u64::from(author.through)),
            Number(u64::from(author.last)),
        ],
    )
}

// The name of an author; nothing where there is none.
fn name_cell(name: &[u8]) -> Cell<'_>
    ensures { cell_text result ≡ name_cell name.now }
{
    if name.len() == 0 { Null } else { Text(name) }
}

/// Appends the row of a game, with its least period.
pub(crate) fn append_game_row<A: Allocator>(
    out: &mut Vec<u8, A>,
    code: Code,
    known: usize,
    least: &Option<LeastPeriod>,
) -> Result<(), AllocError>
    ensures ok { OnOk result (out.new.items ≡ out.old.items ++ game_row code known least.now) }
    ensures grown { Extends out.old.items out.new.items }
{
    match least {
        Some(least) => append_row(
            out,
            b"games",
            &[
                CodeText(code),
                Number(known as u64),
                Number(u64::from(least.period.period())),
                Number(u64::from(least.period.start())),
                truth_cell(least.is_claimed),
            ],
        ),
        None => append_row(
            out,
            b"games",
            &[CodeText(code), Number(known as u64), Null, Null, Null],
        ),
    }
}

// 1 for true, 0 for false.
fn truth_cell(holds: bool) -> Cell<'static>
    ensures { cell_text result ≡ truth_cell holds }
{
    if holds { Number(1) } else { Number(0) }
}

impl Rows<BlockRow> for BlocksOf {
    ghost use Rattle.oct_sql.specs.Script.{block_row};

    ghost text = { λ way block. block_row way.0 block };

    fn append<A: Allocator + Copy>(
        &self,
        out: &mut Vec<u8, A>,
        row: &BlockRow,
    ) -> Result<(), AllocError> {
        match row.status {
            Status::Proved => append_known_block(out, self.0, row, b"proved"),
            Status::Pending => append_known_block(out, self.0, row, b"pending"),
            Status::Refuted { at, claimed, truth } => append_block(
                out,
                self.0,
                row,
                b"refuted",
                Some(at),
                Some(claimed),
                Some(truth),
            ),
        }
    }
}

// Appends the row of a block of which no more is known than the word says.
fn append_known_block<A: Allocator>(
    out: &mut Vec<u8, A>,
    code: Code,
    row: &BlockRow,
    status: &'static [u8],
) -> Result<(), AllocError>
    ensures ok { OnOk result (out.new.items ≡ out.old.items ++ block_by code row.now status.now None None None) }
    ensures grown { Extends out.old.items out.new.items }
{
    append_block(out, code, row, status, None, None, None)
}

// Appends the row of a block, with the heap at which it is wrong, what it claims there, and what is true.
fn append_block<A: Allocator>(
    out: &mut Vec<u8, A>,
    code: Code,
    row: &BlockRow,
    status: &'static [u8],
    heap: Option<u32>,
    claimed: Option<u32>,
    truth: Option<u32>,
) -> Result<(), AllocError>
    ensures ok { OnOk result (out.new.items ≡ out.old.items ++ block_by code row.now status.now heap claimed truth) }
    ensures grown { Extends out.old.items out.new.items }
{
    append_row(
        out,
        b"blocks",
        &[
            Null,
            Number(u64::from(row.dot.author())),
            Number(u64::from(row.dot.number())),
            CodeText(code),
            Number(u64::from(row.start)),
            Number(u64::from(row.count)),
            Text(status),
            number_cell(heap),
            number_cell(claimed),
            number_cell(truth),
        ],
    )
}

// A number; nothing where there is none.
fn number_cell(number: Option<u32>) -> Cell<'static>
    ensures { cell_text result ≡ number_cell number }
{
    match number {
        Some(number) => Number(u64::from(number)),
        None => Null,
    }
}

impl Rows<PeriodRow> for ClaimsOf {
    ghost use Rattle.oct_sql.specs.Script.{claim_row};

    ghost text = { λ way claim. claim_row way.0 claim };

    fn append<A: Allocator + Copy>(
        &self,
        out: &mut Vec<u8, A>,
        row: &PeriodRow,
    ) -> Result<(), AllocError> {
        match row.status {
            PeriodStatus::Proved => append_known_claim(out, self.0, row),
            PeriodStatus::Refuted { at } => append_refuted_claim(out, self.0, row, at),
            PeriodStatus::Pending { needs } => append_pending_claim(out, self.0, row, needs),
        }
    }
}

// Appends the row of a claim that is proved.
fn append_known_claim<A: Allocator>(
    out: &mut Vec<u8, A>,
    code: Code,
    row: &PeriodRow,
) -> Result<(), AllocError>
    ensures ok { OnOk result (out.new.items ≡ out.old.items ++ claim_by code row.now (codes "proved") None None) }
    ensures grown { Extends out.old.items out.new.items }
{
    append_claim(out, code, row, b"proved", None, None)
}

// Appends the row of a claim that a heap breaks.
fn append_refuted_claim<A: Allocator>(
    out: &mut Vec<u8, A>,
    code: Code,
    row: &PeriodRow,
    at: u32,
) -> Result<(), AllocError>
    ensures ok { OnOk result (out.new.items ≡ out.old.items ++ claim_by code row.now (codes "refuted") (Some at) None) }
    ensures grown { Extends out.old.items out.new.items }
{
    append_claim(out, code, row, b"refuted", Some(at), None)
}

// Appends the row of a claim that so many known nim-values would decide.
fn append_pending_claim<A: Allocator>(
    out: &mut Vec<u8, A>,
    code: Code,
    row: &PeriodRow,
    needs: u32,
) -> Result<(), AllocError>
    ensures ok { OnOk result (out.new.items ≡ out.old.items ++ claim_by code row.now (codes "pending") None (Some needs)) }
    ensures grown { Extends out.old.items out.new.items }
{
    append_claim(out, code, row, b"pending", None, Some(needs))
}

// Appends the row of a claim, with the heap that breaks it, and how many nim-values would decide it.
fn append_claim<A: Allocator>(
    out: &mut Vec<u8, A>,
    code: Code,
    row: &PeriodRow,
    status: &'static [u8],
    heap: Option<u32>,
    needs: Option<u32>,
) -> Result<(), AllocError>
    ensures ok { OnOk result (out.new.items ≡ out.old.items ++ claim_by code row.now status.now heap needs) }
    ensures grown { Extends out.old.items out.new.items }
{
    append_row(
        out,
        b"claims",
        &[
            Null,
            Number(u64::from(row.dot.author())),
            Number(u64::from(row.dot.number())),
            CodeText(code),
            Number(u64::from(row.period.start())),
            Number(u64::from(row.period.period())),
            Text(status),
            number_cell(heap),
            number_cell(needs),
        ],
    )
}

/// Appends the row of an operation.
pub(crate) fn append_op<A: Allocator + Copy, B: Allocator>(
    out: &mut Vec<u8, A>,
    op: &Op<B>,
) -> Result<(), AllocError>
    ensures ok { OnOk result (out.new.items ≡ out.old.items ++ operation_row op.now) }
    ensures grown { Extends out.old.items out.new.items }
{
    let mut said = Vec::new(*out.allocator());
    append_said(&mut said, op.body())?;
    append_said_row(out, op.dot(), kind_name(op.body()), op.body().code(), &said)
}

// Appends the row of an operation of a kind, of a game or of none, that says this.
fn append_said_row<A: Allocator>(
    out: &mut Vec<u8, A>,
    dot: Dot,
    kind: &'static [u8],
    code: Option<Code>,
    said: &[u8],
) -> Result<(), AllocError>
    ensures ok { OnOk result (out.new.items ≡ out.old.items ++ said_row dot kind.now code said.now) }
    ensures grown { Extends out.old.items out.new.items }
{
    append_row(
        out,
        b"operations",
        &[
            Null,
            Number(u64::from(dot.author())),
            Number(u64::from(dot.number())),
            Text(kind),
            code_cell(code),
            Text(said),
        ],
    )
}

// The text of the code of a game; nothing where there is none.
fn code_cell(code: Option<Code>) -> Cell<'static>
    ensures { cell_text result ≡ code_cell code }
{
    match code {
        Some(code) => CodeText(code),
        None => Null,
    }
}

// What an operation of this body is.
fn kind_name<A: Allocator>(body: &Body<A>) -> &'static [u8]
    ensures { result.now ≡ kind_name (content body.now) }
{
    match body {
        Body::Block(_) => b"block",
        Body::Period(_) => b"period",
        Body::Note(_) => b"note",
        Body::Removal(_) => b"removal",
    }
}

impl<'a, B: Allocator> Rows<&'a Op<B>> for Notes {
    ghost use Rattle.oct_sql.specs.Script.{note_row};

    ghost text = { λ _ op. note_row op.now };

    fn append<A: Allocator + Copy>(
        &self,
        out: &mut Vec<u8, A>,
        row: &&'a Op<B>,
    ) -> Result<(), AllocError> {
        match row.body() {
            Body::Note(note) => append_note(out, row.dot(), note),
            _ => Ok(()),
        }
    }
}

// Appends the row of a note.
fn append_note<A: Allocator, B: Allocator>(
    out: &mut Vec<u8, A>,
    dot: Dot,
    note: &Note<B>,
) -> Result<(), AllocError>
    ensures ok { OnOk result (out.new.items ≡ out.old.items ++ noted_row dot note.now) }
    ensures grown { Extends out.old.items out.new.items }
{
    append_row(
        out,
        b"notes",
        &[
            Null,
            Number(u64::from(dot.author())),
            Number(u64::from(dot.number())),
            Text(note.name()),
            Text(note.text()),
        ],
    )
}

impl Rows<Fork> for Forks {
    ghost use Rattle.oct_sql.specs.Script.{fork_row};

    ghost text = { λ _ fork. fork_row fork };

    fn append<A: Allocator + Copy>(
        &self,
        out: &mut Vec<u8, A>,
        row: &Fork,
    ) -> Result<(), AllocError> {
        append_row(
            out,
            b"forks",
            &[
                Number(u64::from(row.dot.author())),
                Number(u64::from(row.dot.number())),
                Number(row.contents as u64),
            ],
        )
    }
}
