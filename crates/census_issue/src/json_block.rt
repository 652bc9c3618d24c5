//! Blocks from JSON.

ghost use Rattle.std.specs.Prelude.{◌≡◌, ◌≢◌, Ok, Err, Some, IfOk, IfErr, option_map};
ghost use Rattle.serde_json.specs.View.{view, items_view};
ghost use Rattle.census_issue.specs.Imported.{Fields, code_in, fields_of, imported, whole, wholes};

use census_state::{ImportError, read_code};
use oct_code::Code;
use oct_ops::Block;
use serde_json::Value;
use std::alloc::Global;

/// The block that a JSON value spells: an object with exactly the keys `code`, which is the text of a code, `start`, a
/// whole number, and `values`, an array of whole numbers, all of them below 2^32. A refusal names the first fault, in the
/// order of `ImportError`.
pub fn import_block(alloc: Global, value: &Value) -> Result<Block<Global>, ImportError>
    ensures ok { IfOk result (λ block. imported (view value.now) ≡ Ok block) }
    ensures err { IfErr result (λ e. e ≢ ImportError.OutOfMemory → imported (view value.now) ≡ Err e) }
{
    let Some(fields) = fields_of(value) else {
        return Err(ImportError::Shape);
    };
    let Some(code) = code_in(fields.code) else {
        return Err(ImportError::Code);
    };
    let Some(start) = whole_number(fields.start) else {
        return Err(ImportError::Start);
    };
    let Some(items) = fields.values.as_array() else {
        return Err(ImportError::Values);
    };
    let values = whole_numbers(alloc, items)?;
    match Block::new(code, start, values) {
        Ok(block) => Ok(block),
        Err((fault, _)) => Err(ImportError::from(fault)),
    }
}

#[derive(Clone, Copy)]
struct BlockFields<'a> {
    code: &'a Value,
    start: &'a Value,
    values: &'a Value,
}

// What the keys of a block's object lead to.
fn fields_of(value: &Value) -> Option<BlockFields<'_>>
    ensures { option_map (λ f. record { code = view f.code.now; start = view f.start.now; values = view f.values.now }) result ≡ fields_of (view value.now) }
{
    let members = value.as_object()?;
    let count = members.len();
    if count != 3 {
        return None;
    }
    Some(BlockFields {
        code: value.get("code")?,
        start: value.get("start")?,
        values: value.get("values")?,
    })
}

// The code that the text spells.
fn code_in(value: &Value) -> Option<Code>
    ensures { result ≡ code_in (view value.now) }
{
    let text = value.as_str()?;
    read_code(text.as_bytes()).ok()
}

// The number, where it is whole and below 2^32.
fn whole_number(value: &Value) -> Option<u32>
    ensures { result ≡ whole (view value.now) }
{
    let number = value.as_u64()?;
    u32::try_from(number).ok()
}

// The numbers, where each is whole and below 2^32.
fn whole_numbers(alloc: Global, items: &[Value]) -> Result<Vec<u32>, ImportError>
    ensures ok { IfOk result (λ numbers. wholes (items_view items.now) ≡ Some numbers.items) }
    ensures err { IfErr result (λ e. e ≢ ImportError.OutOfMemory → (e ≡ ImportError.Values) × (wholes (items_view items.now) ≡ None)) }
{
    let mut numbers = Vec::new(alloc);
    for item in items {
        let Some(number) = whole_number(item) else {
            return Err(ImportError::Values);
        };
        if numbers.push(number).is_err() {
            return Err(ImportError::OutOfMemory);
        }
    }
    Ok(numbers)
}
