//! Lines of deltas, and the catalogue of what they say.

ghost use Rattle.std.specs.Prelude.{◌≡◌, ◌≢◌, ◌<◌, ◌≤◌, length, IfOk, OnOk, IfSome, IfErr, IsErrOf};
ghost use Rattle.std.specs.Io.KnownBytes.{Appends, Keeps};
ghost use Rattle.written.specs.Output.{AppendsPrefix};
ghost use Rattle.census_fold.specs.Folded.{folded, refused, taken};
ghost use Rattle.census_state.specs.Inputs.{IsFoldFault, IsInputFault};

use crate::taken::{Intake, take_lines};
use census_state::{Fault, INPUT_LIMIT};
use oct_pages::ready_catalogue;
use std::alloc::Allocator;
use std::io::{BufReader, Read, Write};

// How many bytes are asked for at a time.
const READ_AHEAD: usize = 65_536;

/// Reads the input to its end, a line at a time, takes in each line that is the hexadecimal text of a delta,
/// writes the catalogue of all their operations, and says how many other lines were not empty. Nothing is written before the
/// whole input was read and all memory was asked for; after `Write` a prefix of the catalogue was written.
pub fn fold_lines<A: Allocator + Copy, R: Read, W: Write>(
    alloc: A,
    reader: &mut R,
    writer: &mut W,
) -> Result<u64, Fault>
    ensures text { OnOk result (IfSome (R.remaining reader.old) (λ input. Appends (W.contents writer.old) (W.contents writer.new) (folded input))) }
    ensures refused { IfOk result (λ n. IfSome (R.remaining reader.old) (λ input. n ≡ refused input)) }
    ensures fits { OnOk result (IfSome (R.remaining reader.old) (λ input. length input ≤ INPUT_LIMIT)) }

    // Nothing is written before the whole input was read, and never more than a prefix of its text.
    ensures prefix { IsErrOf result Fault.Write → IfSome (R.remaining reader.old) (λ input. AppendsPrefix (W.contents writer.old) (W.contents writer.new) (folded input)) }
    ensures unwritten { IfErr result (λ e. e ≢ Fault.Write → Keeps (W.contents writer.old) (W.contents writer.new)) }
    ensures too_long { IsErrOf result Fault.TooLong → IfSome (R.remaining reader.old) (λ input. INPUT_LIMIT < length input) }
    ensures faults { IfErr result IsFoldFault }
{
    let intake = fold_intake(alloc, reader, writer)?;
    Ok(intake.refused)
}

/// Does what `fold_lines` does, and gives what the lines came to, so that its memory is given back when the caller likes.
pub fn fold_intake<A: Allocator + Copy, R: Read, W: Write>(
    alloc: A,
    reader: &mut R,
    writer: &mut W,
) -> Result<Intake<A>, Fault>
    ensures text { OnOk result (IfSome (R.remaining reader.old) (λ input. Appends (W.contents writer.old) (W.contents writer.new) (folded input))) }
    ensures taken { IfOk result (λ intake. IfSome (R.remaining reader.old) (λ input. intake.held ≡ taken input)) }
    ensures refused { IfOk result (λ intake. IfSome (R.remaining reader.old) (λ input. intake.refused ≡ refused input)) }
    ensures fits { OnOk result (IfSome (R.remaining reader.old) (λ input. length input ≤ INPUT_LIMIT)) }
    ensures prefix { IsErrOf result Fault.Write → IfSome (R.remaining reader.old) (λ input. AppendsPrefix (W.contents writer.old) (W.contents writer.new) (folded input)) }
    ensures unwritten { IfErr result (λ e. e ≢ Fault.Write → Keeps (W.contents writer.old) (W.contents writer.new)) }
    ensures too_long { IsErrOf result Fault.TooLong → IfSome (R.remaining reader.old) (λ input. INPUT_LIMIT < length input) }
    ensures faults { IfErr result IsFoldFault }
{
    let intake = read_lines(alloc, reader)?;
    let ready = ready_catalogue(intake.held.as_record())?;
    ready.write(writer)?;
    Ok(intake)
}

// Goes over the lines of the whole input.
fn read_lines<A: Allocator + Copy, R: Read>(alloc: A, reader: &mut R) -> Result<Intake<A>, Fault>
    ensures taken { IfOk result (λ intake. IfSome (R.remaining reader.old) (λ input. intake.held ≡ taken input)) }
    ensures refused { IfOk result (λ intake. IfSome (R.remaining reader.old) (λ input. intake.refused ≡ refused input)) }
    ensures fits { OnOk result (IfSome (R.remaining reader.old) (λ input. length input ≤ INPUT_LIMIT)) }
    ensures too_long { IsErrOf result Fault.TooLong → IfSome (R.remaining reader.old) (λ input. INPUT_LIMIT < length input) }
    ensures faults { IfErr result IsInputFault }
{
    let reader = reader.take(INPUT_LIMIT + 1);
    match BufReader::with_capacity(alloc, READ_AHEAD, reader) {
        Ok(mut input) => take_lines(alloc, &mut input, INPUT_LIMIT),
        Err(_) => Err(Fault::OutOfMemory),
    }
}
