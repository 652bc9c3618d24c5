//! What a search in windows prints of a game: as a line, or as one line of JSON.

ghost use Rattle.std.specs.Prelude.{◌≡◌, ◌++◌, IfOk, OnOk};
ghost use Rattle.census_search.specs.SoughtTexts.{IsWritable, line_end, object_end, sought_line, sought_members, sought_object, sought_text, sought_words, unseen_words};

use crate::search_text::{append_period_members, append_period_words};
use census_state::append_vain_words;
use oct_code::Code;
use oct_text::{Form, append_labelled, append_text};
use oct_window::Sought;
use std::alloc::{AllocError, Global};

/// What is said of a game whose period was sought, by a search that was taken up again or from the beginning.
pub(crate) fn sought_text(
    alloc: Global,
    code: Code,
    sought: Sought,
    is_resumed: bool,
    form: Form,
) -> Result<Vec<u8>, AllocError>
    requires { IsWritable sought }
    ensures { IfOk result (λ text. text.items ≡ sought_text form is_resumed code sought) }
{
    match form {
        Form::Lines => line_text(alloc, code, sought, is_resumed),
        Form::Json => object_text(alloc, code, sought, is_resumed),
    }
}

// ---- a line

fn line_text(
    alloc: Global,
    code: Code,
    sought: Sought,
    is_resumed: bool,
) -> Result<Vec<u8>, AllocError>
    requires { IsWritable sought }
    ensures { IfOk result (λ text. text.items ≡ sought_line is_resumed code sought) }
{
    let mut text = Vec::new(alloc);
    append_words(&mut text, code, sought)?;
    append_text(&mut text, line_end(is_resumed))?;
    Ok(text)
}

fn line_end(is_resumed: bool) -> &'static [u8]
    ensures { result.now ≡ line_end is_resumed }
{
    if is_resumed {
        b" from a saved search\n"
    } else {
        b"\n"
    }
}

// Appends what the line of the game says.
fn append_words(text: &mut Vec<u8>, code: Code, sought: Sought) -> Result<(), AllocError>
    requires { IsWritable sought }
    ensures { OnOk result (text.new.items ≡ text.old.items ++ sought_words code sought) }
{
    match sought {
        Sought::Least(seen, values) => append_period_words(text, code, seen, values),
        Sought::Unshown(values) => append_vain_words(text, code, values as u64),
        Sought::Unseen(values, _) => append_unseen_words(text, code, values),
    }
}

// Appends that no period is seen.
fn append_unseen_words(text: &mut Vec<u8>, code: Code, values: usize) -> Result<(), AllocError>
    ensures { OnOk result (text.new.items ≡ text.old.items ++ unseen_words code values) }
{
    code.append_text(text)?;
    append_labelled(text, b" no period seen in ", values)?;
    append_text(text, b" values")
}

// ---- JSON

fn object_text(
    alloc: Global,
    code: Code,
    sought: Sought,
    is_resumed: bool,
) -> Result<Vec<u8>, AllocError>
    requires { IsWritable sought }
    ensures { IfOk result (λ text. text.items ≡ sought_object is_resumed code sought) }
{
    let mut text = Vec::new(alloc);
    append_text(&mut text, b"{\"code\":\"")?;
    code.append_text(&mut text)?;
    append_members(&mut text, code, sought)?;
    append_text(&mut text, object_end(is_resumed))?;
    Ok(text)
}

fn object_end(is_resumed: bool) -> &'static [u8]
    ensures { result.now ≡ object_end is_resumed }
{
    if is_resumed {
        b",\"saved\":true}\n"
    } else {
        b"}\n"
    }
}

// Appends the end of the code, and the members behind it.
fn append_members(text: &mut Vec<u8>, code: Code, sought: Sought) -> Result<(), AllocError>
    requires { IsWritable sought }
    ensures { OnOk result (text.new.items ≡ text.old.items ++ sought_members code sought) }
{
    match sought {
        Sought::Least(seen, values) => {
            append_period_members(text, code, seen)?;
            append_labelled(text, b",\"values\":", values)
        }
        Sought::Unshown(values) => {
            append_labelled(text, b"\",\"period\":null,\"values\":", values)
        }
        Sought::Unseen(values, _) => {
            append_labelled(text, b"\",\"period\":null,\"values\":", values)?;
            append_text(text, b",\"unseen\":true")
        }
    }
}
