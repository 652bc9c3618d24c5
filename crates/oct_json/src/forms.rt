//! A record as JSON.
#![tactic(auto, using(oct_ops::proofs::Growing::growing))]

ghost use Rattle.std.specs.Prelude.{◌≡◌, ◌++◌, ◌-◌, false, length, map, take, IfOk, OnErr, OnOk};
ghost use Rattle.serde_json.specs.Data.{Data, array};
ghost use Rattle.serde_json.specs.View.{items_of, view};
ghost use Rattle.serde_json.specs.Written.{comma_if, compact_text, items_text};
ghost use Rattle.oct_ops.specs.Growth.{Extends};
ghost use Rattle.oct_pages.specs.Contents.{game_content};
ghost use Rattle.oct_json.specs.Json.{bare_game, count, game_data};
ghost use Rattle.oct_overview.specs.Line.{period_of};

use crate::json_rows::bare_game_json;
use oct_overview::LeastPeriod;
use oct_pages::GameSheet;
use oct_sheet::Remarks;
use oct_text::{append_number, append_text};
use serde_json::Value;
use std::alloc::{AllocError, Global};

// Room for a value and a comma. Where values have more digits, the text takes more room as it grows.
const VALUE_ROOM: usize = 6;

/// Appends what views show of one game with this least period, and with what these remarks say of it, as one JSON object, without
/// spaces. The one error is that memory is refused, and then `out` stays as it is.
pub fn write_game_json(
    alloc: Global,
    game: &GameSheet<'_, Global>,
    remarks: &Remarks<'_, Global>,
    least: &Option<LeastPeriod>,
    out: &mut Vec<u8>,
) -> Result<(), AllocError>
    requires { least.now ≡ period_of (game_content game.now) }
    ensures ok { OnOk result (out.new.items ≡ out.old.items ++ compact_text (game_data remarks.now (game_content game.now))) }
    ensures err { OnErr result (out.new.items ≡ out.old.items) }
{
    let before = out.len();
    let written = append_game_json(alloc, game, remarks, least, out);
    if written.is_err() {
        out.truncate(before);
    }
    written
}

// Appends what views show of one game. The values come last, so they are written behind the text of the rest, with no value built
// for them.
fn append_game_json(
    alloc: Global,
    game: &GameSheet<'_, Global>,
    remarks: &Remarks<'_, Global>,
    least: &Option<LeastPeriod>,
    out: &mut Vec<u8>,
) -> Result<(), AllocError>
    requires { least.now ≡ period_of (game_content game.now) }
    ensures ok { OnOk result (out.new.items ≡ out.old.items ++ compact_text (game_data remarks.now (game_content game.now))) }
    ensures grown { Extends out.old.items out.new.items }
{
    append_opening(alloc, game, remarks, least, out)?;
    append_numbers(out, game.values)?;
    append_text(out, b"}")
}

// Appends the object of a game up to the bracket that opens its values: that of a game with no values, but for its last two bytes.
fn append_opening(
    alloc: Global,
    game: &GameSheet<'_, Global>,
    remarks: &Remarks<'_, Global>,
    least: &Option<LeastPeriod>,
    out: &mut Vec<u8>,
) -> Result<(), AllocError>
    ensures ok { let text = compact_text (bare_game remarks.now (game_content game.now) least.now) in
        OnOk result (out.new.items ≡ out.old.items ++ take (length text - 2) text) }
    ensures grown { Extends out.old.items out.new.items }
{
    let value = bare_game_json(alloc, game, remarks, least)?;
    let text = value.to_string(alloc)?;
    let bytes = text.as_bytes();
    append_text(out, &bytes[..bytes.len() - 2])
}

// Appends the items of an array of numbers, and the bracket that closes it. Room for them is made at once.
fn append_numbers(out: &mut Vec<u8>, numbers: &[u32]) -> Result<(), AllocError>
    ensures ok { OnOk result (out.new.items ≡ out.old.items ++ items_text false (items_of (map count numbers.now))) }
    ensures grown { Extends out.old.items out.new.items }
{
    out.reserve(numbers.len().saturating_mul(VALUE_ROOM))?;
    let mut is_later = false;
    for number in numbers {
        append_comma(out, is_later)?;
        append_number(out, *number)?;
        is_later = true;
    }
    append_text(out, b"]")
}

/// Appends the comma before an item, where another one stands before it.
pub(crate) fn append_comma(out: &mut Vec<u8>, is_later: bool) -> Result<(), AllocError>
    ensures ok { OnOk result (out.new.items ≡ out.old.items ++ comma_if is_later) }
    ensures grown { Extends out.old.items out.new.items }
{
    if is_later {
        append_text(out, b",")
    } else {
        Ok(())
    }
}

/// What has a form in JSON.
pub(crate) trait ToJson {
    ghost form: { Self → Data };

    /// The value of this form.
    fn to_json(&self, alloc: Global) -> Result<Value, AllocError>
        ensures { IfOk result (λ v. view v ≡ form self.now) };
}

/// The array of the items in their order.
pub(crate) fn array_of<T: ToJson>(alloc: Global, items: &[T]) -> Result<Value, AllocError>
    ensures { IfOk result (λ v. view v ≡ array (items_of (map T.form items.now))) }
{
    let mut values = Vec::with_capacity(alloc, items.len())?;
    for item in items {
        values.push(item.to_json(alloc)?)?;
    }
    Ok(Value::Array(values))
}
