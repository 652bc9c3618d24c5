//! The command that makes a database of all that is known.

ghost use Rattle.std.specs.Prelude.{◌≡◌, ◌≢◌, Ok, Err, IfOk, IfErr};
ghost use Rattle.oct_ops.specs.Operations.{listed};
ghost use Rattle.oct_sql.specs.Script.{script};
ghost use Rattle.census_state.specs.Replies.{answer_of};
ghost use Rattle.census_tell.specs.Viewing.{sql_script};

use census_state::{Fault, Reply, load};
use oct_record::Record;
use oct_sql::write_sql;
use std::alloc::{AllocError, Global};

/// The script in SQL that makes a database of all that is known. It has one game in memory at a time.
pub fn sql_script(alloc: Global, state: &[u8]) -> Result<Reply, Fault>
    ensures ok { IfOk result (λ reply. sql_script state.now ≡ Ok (answer_of reply)) }
    ensures err { IfErr result (λ e. e ≢ Fault.OutOfMemory → sql_script state.now ≡ Err e) }
{
    let held = load(alloc, state)?;
    let text = script_text(alloc, &held)?;
    Ok(Reply::text_alone(text))
}

// The script.
fn script_text(alloc: Global, held: &Record<Global>) -> Result<Vec<u8>, AllocError>
    ensures { IfOk result (λ text. text.items ≡ script (listed held.now.ops)) }
{
    let mut text = Vec::new(alloc);
    write_sql(held, &mut text)?;
    Ok(text)
}
