//! The rows of a sheet as JSON.

ghost use Rattle.std.specs.Prelude.{◌≡◌, [], IfOk};
ghost use Rattle.std.specs.Str.{IsAscii};
ghost use Rattle.serde_json.specs.View.{view};
ghost use Rattle.oct_code.specs.CodeText.{code_text};
ghost use Rattle.oct_pages.specs.Contents.{game_content};
ghost use Rattle.oct_json.specs.Json.{bare_game, block_by, game_of, least_data, long_data, named, no_values, note_data, numbers_of, pending_period, period_by, plain_block, proved_period, refuted_block, refuted_period, with_member, withdrawn_if, word};

use crate::forms::{ToJson, array_of};
use crate::marked::{
    MarkedBlock, MarkedPeriod, SaidPeriod, marked_blocks, marked_periods, said_rows,
};
use oct_code::Code;
use oct_ops::{Body, Dot, Note, Op};
use oct_overview::LeastPeriod;
use oct_pages::{BlockRow, GameSheet, PeriodRow};
use oct_period::PeriodStatus;
use oct_said::LongPeriod;
use oct_sheet::{Called, Remarks};
use oct_store::{Author, Fork};
use oct_verify::Status;
use serde_json::{Value, json, put};
use std::alloc::{AllocError, Global};

impl ToJson for MarkedBlock {
    ghost use Rattle.oct_json.specs.Json.{block_data};

    ghost form = { block_data };

    fn to_json(&self, alloc: Global) -> Result<Value, AllocError> {
        marked(alloc, block_value(alloc, &self.row)?, self.is_withdrawn)
    }
}

// A block, whether it is withdrawn or not.
fn block_value(alloc: Global, row: &BlockRow) -> Result<Value, AllocError>
    ensures { IfOk result (λ v. view v ≡ block_by row.now row.now.status) }
{
    match row.status {
        Status::Proved => plain_block(alloc, row, "proved"),
        Status::Pending => plain_block(alloc, row, "pending"),
        Status::Refuted { at, claimed, truth } => refuted_block(alloc, row, at, claimed, truth),
    }
}

// A block of which no more is known than the word says.
fn plain_block(alloc: Global, row: &BlockRow, status: &str) -> Result<Value, AllocError>
    ensures { IfOk result (λ v. view v ≡ plain_block row.now (word status.now)) }
{
    json!(in alloc; {
        "author": row.dot.author(),
        "count": row.count,
        "number": row.dot.number(),
        "start": row.start,
        "status": status
    })
}

// A block that is wrong at a heap.
fn refuted_block(
    alloc: Global,
    row: &BlockRow,
    at: u32,
    claimed: u32,
    truth: u32,
) -> Result<Value, AllocError>
    ensures { IfOk result (λ v. view v ≡ refuted_block row.now at claimed truth) }
{
    json!(in alloc; {
        "at": at,
        "author": row.dot.author(),
        "claimed": claimed,
        "count": row.count,
        "number": row.dot.number(),
        "start": row.start,
        "status": "refuted",
        "true": truth
    })
}

impl ToJson for MarkedPeriod {
    ghost use Rattle.oct_json.specs.Json.{period_data};

    ghost form = { period_data };

    fn to_json(&self, alloc: Global) -> Result<Value, AllocError> {
        marked(alloc, period_value(alloc, &self.row)?, self.is_withdrawn)
    }
}

// A claim, whether it is withdrawn or not.
fn period_value(alloc: Global, row: &PeriodRow) -> Result<Value, AllocError>
    ensures { IfOk result (λ v. view v ≡ period_by row.now row.now.status) }
{
    match row.status {
        PeriodStatus::Proved => proved_period(alloc, row),
        PeriodStatus::Refuted { at } => refuted_period(alloc, row, at),
        PeriodStatus::Pending { needs } => pending_period(alloc, row, needs),
    }
}

// A claim that is proved.
fn proved_period(alloc: Global, row: &PeriodRow) -> Result<Value, AllocError>
    ensures { IfOk result (λ v. view v ≡ proved_period row.now) }
{
    json!(in alloc; {
        "author": row.dot.author(),
        "number": row.dot.number(),
        "period": row.period.period(),
        "start": row.period.start(),
        "status": "proved"
    })
}

// A claim that a heap breaks.
fn refuted_period(alloc: Global, row: &PeriodRow, at: u32) -> Result<Value, AllocError>
    ensures { IfOk result (λ v. view v ≡ refuted_period row.now at) }
{
    json!(in alloc; {
        "at": at,
        "author": row.dot.author(),
        "number": row.dot.number(),
        "period": row.period.period(),
        "start": row.period.start(),
        "status": "refuted"
    })
}

// A claim that so many known nim-values would decide.
fn pending_period(alloc: Global, row: &PeriodRow, needs: u32) -> Result<Value, AllocError>
    ensures { IfOk result (λ v. view v ≡ pending_period row.now needs) }
{
    json!(in alloc; {
        "author": row.dot.author(),
        "needs": needs,
        "number": row.dot.number(),
        "period": row.period.period(),
        "start": row.period.start(),
        "status": "pending"
    })
}

// The row of what somebody said, which says that it is withdrawn where it is so.
fn marked(alloc: Global, row: Value, is_withdrawn: bool) -> Result<Value, AllocError>
    ensures { IfOk result (λ v. view v ≡ withdrawn_if is_withdrawn (view row)) }
{
    if is_withdrawn {
        with_member(alloc, row, "withdrawn", Value::Bool(true))
    } else {
        Ok(row)
    }
}

// The object with this member too. What is no object stays.
fn with_member(alloc: Global, row: Value, key: &str, value: Value) -> Result<Value, AllocError>
    ensures { IfOk result (λ v. view v ≡ with_member key.now (view value) (view row)) }
{
    match row {
        Value::Object(mut members) => {
            put(&mut members, alloc, key, value)?;
            Ok(Value::Object(members))
        }
        other => Ok(other),
    }
}

impl ToJson for SaidPeriod<'_> {
    ghost use Rattle.oct_json.specs.Json.{said_data};

    ghost form = { said_data };

    fn to_json(&self, alloc: Global) -> Result<Value, AllocError> {
        named(alloc, long_value(alloc, &self.long)?, self.name)
    }
}

// A long period, and by which author.
fn long_value(alloc: Global, long: &LongPeriod) -> Result<Value, AllocError>
    ensures { IfOk result (λ v. view v ≡ long_data long.now) }
{
    json!(in alloc; {
        "author": long.author,
        "period": long.seen.period,
        "start": long.seen.start
    })
}

// The row of an author with the name, where there is one.
fn named(alloc: Global, row: Value, name: &[u8]) -> Result<Value, AllocError>
    requires { IsAscii name.now }
    ensures { IfOk result (λ v. view v ≡ named name.now (view row)) }
{
    if name.is_empty() {
        return Ok(row);
    }
    let name = Value::try_from_str(alloc, ascii(name))?;
    with_member(alloc, row, "name", name)
}

/// The value of a game with this least period, and with what is said of it, but with none of its values.
pub(crate) fn bare_game_json(
    alloc: Global,
    game: &GameSheet<'_, Global>,
    remarks: &Remarks<'_, Global>,
    least: &Option<LeastPeriod>,
) -> Result<Value, AllocError>
    ensures { IfOk result (λ v. view v ≡ bare_game remarks.now (game_content game.now) least.now) }
{
    let blocks = array_of(alloc, &marked_blocks(alloc, &game.blocks, remarks)?)?;
    let periods = array_of(alloc, &marked_periods(alloc, &game.periods, remarks)?)?;
    let said = said_rows(alloc, remarks.said_of(game.code), remarks)?;
    let least = least_json(alloc, least)?;
    game_from(alloc, game, blocks, least, periods, &said)
}

// The value of a game of which these long periods are said, with none of its values.
fn game_from(
    alloc: Global,
    game: &GameSheet<'_, Global>,
    blocks: Value,
    least: Value,
    periods: Value,
    said: &[SaidPeriod<'_>],
) -> Result<Value, AllocError>
    ensures { IfOk result (λ v. view v ≡ game_of (view blocks) (game_content game.now) (view least) (view periods) said.now no_values) }
{
    let silent = silent_game(alloc, game, blocks, least, periods)?;
    if said.is_empty() {
        return Ok(silent);
    }
    with_member(alloc, silent, "said", array_of(alloc, said)?)
}

// The value of a game of which none is said, with none of its values.
fn silent_game(
    alloc: Global,
    game: &GameSheet<'_, Global>,
    blocks: Value,
    least: Value,
    periods: Value,
) -> Result<Value, AllocError>
    ensures { IfOk result (λ v. view v ≡ game_of (view blocks) (game_content game.now) (view least) (view periods) [] no_values) }
{
    let code = code_value(alloc, &game.code)?;
    json!(in alloc; {
        "blocks": blocks,
        "code": code,
        "known": game.values.len(),
        "least_period": least,
        "periods": periods,
        "values": []
    })
}

// The value of the least period that is proved; null where none is.
fn least_json(alloc: Global, least: &Option<LeastPeriod>) -> Result<Value, AllocError>
    ensures { IfOk result (λ v. view v ≡ least_data least.now) }
{
    match least {
        Some(least) => json!(in alloc; {
            "claimed": least.is_claimed,
            "period": least.period.period(),
            "start": least.period.start()
        }),
        None => Ok(Value::Null),
    }
}

// The text of a code.
fn code_value(alloc: Global, code: &Code) -> Result<Value, AllocError>
    ensures { IfOk result (λ v. view v ≡ word (code_text code.now)) }
{
    prove!(code.len() <= 16);
    let mut text = Vec::new(alloc);
    code.append_text(&mut text)?;
    Value::try_from_str(alloc, ascii(&text))
}

impl ToJson for &Op<Global> {
    ghost use Rattle.oct_json.specs.Json.{op_data};

    ghost form = { λ o. op_data o.now };

    fn to_json(&self, alloc: Global) -> Result<Value, AllocError> {
        match self.body() {
            Body::Note(note) => note_value(alloc, self.dot(), note),
            _ => Ok(Value::Null),
        }
    }
}

// A note.
fn note_value(alloc: Global, dot: Dot, note: &Note<Global>) -> Result<Value, AllocError>
    ensures { IfOk result (λ v. view v ≡ note_data dot note.now) }
{
    json!(in alloc; {
        "author": dot.author(),
        "name": ascii(note.name()),
        "number": dot.number(),
        "text": ascii(note.text())
    })
}

// The text of ASCII bytes.
fn ascii(bytes: &[u8]) -> &str
    requires { IsAscii bytes.now }
    ensures { result.now ≡ bytes.now }
{
    match str::from_utf8(bytes) {
        Ok(text) => text,
        Err(_) => unreachable!(),
    }
}

impl ToJson for Fork {
    ghost use Rattle.oct_json.specs.Json.{fork_data};

    ghost form = { fork_data };

    fn to_json(&self, alloc: Global) -> Result<Value, AllocError> {
        json!(in alloc; {
            "author": self.dot.author(),
            "contents": self.contents,
            "number": self.dot.number()
        })
    }
}

impl ToJson for Called<'_> {
    ghost use Rattle.oct_json.specs.Json.{author_data};

    ghost form = { author_data };

    fn to_json(&self, alloc: Global) -> Result<Value, AllocError> {
        named(alloc, author_value(alloc, &self.author)?, self.name)
    }
}

// An author, with a name or without.
fn author_value(alloc: Global, author: &Author) -> Result<Value, AllocError>
    ensures { IfOk result (λ v. view v ≡ numbers_of author.now) }
{
    json!(in alloc; {
        "author": author.author,
        "last": author.last,
        "through": author.through
    })
}
