//! What a file holds, and how it is shown.

ghost use Rattle.std.specs.Prelude.{◌≡◌, ◌≢◌, ◌≤◌, Ok, Err, IfErr, IfOk, OnOk, length};
ghost use Rattle.oct_record.specs.States.{has_tag};
ghost use Rattle.census_fold.specs.Digests.{operations_in};
ghost use Rattle.census_fold.specs.Folded.{refused, taken};
ghost use Rattle.census_state.specs.States.{delta_of};
ghost use Rattle.census_state.specs.Stored.{loaded};
ghost use Rattle.page.specs.Answers.{catalogued, reported};
ghost use Rattle.page.specs.Files.{held_in, is_tagged, refused_in};

use census_fold::fold_intake;
use census_state::{Fault, Holdings, INPUT_LIMIT};
use oct_delta::laws::texts_are_read;
use oct_pages::write_catalogue_of;
use oct_record::Record;
use oct_text::Shown;
use oct_views::write_report;
use std::alloc::Allocator;
use std::io::sink;

/// The page of what a file holds, and in `left_out` how many of its lines are no deltas.
pub(crate) fn report<A: Allocator + Copy>(
    alloc: A,
    file: &[u8],
    left_out: &mut u64,
) -> Result<Vec<u8, A>, Fault>
    ensures ok { IfOk result (λ text. reported file.now ≡ Ok text.items) }
    ensures err { IfErr result (λ e. e ≢ Fault.OutOfMemory → reported file.now ≡ Err e) }
    ensures refused { OnOk result (left_out.new ≡ refused_in file.now) }
{
    let held = read_file(alloc, file, left_out)?;
    let mut text = Vec::new(alloc);
    write_report(held.as_record(), Shown::Brief, &mut text)?;
    Ok(text)
}

/// The catalogue of what a file holds, and in `left_out` how many of its lines are no deltas.
pub(crate) fn catalogue<A: Allocator + Copy>(
    alloc: A,
    file: &[u8],
    left_out: &mut u64,
) -> Result<Vec<u8, A>, Fault>
    ensures ok { IfOk result (λ text. catalogued file.now ≡ Ok text.items) }
    ensures err { IfErr result (λ e. e ≢ Fault.OutOfMemory → catalogued file.now ≡ Err e) }
    ensures refused { OnOk result (left_out.new ≡ refused_in file.now) }
{
    let held = read_file(alloc, file, left_out)?;
    let mut text = Vec::new(alloc);
    write_catalogue_of(held.as_record(), &mut text)?;
    Ok(text)
}

// What a file holds: a state where it begins with `OGS1`, a delta where it begins with `OGD1` or `OGD2`, and else lines of deltas
// in hexadecimal. How many of its lines are no deltas is put into `left_out`.
fn read_file<A: Allocator + Copy>(
    alloc: A,
    file: &[u8],
    left_out: &mut u64,
) -> Result<Holdings<A>, Fault>
    ensures ok { IfOk result (λ held. held_in file.now ≡ Ok held) }
    ensures err { IfErr result (λ e. e ≢ Fault.OutOfMemory → held_in file.now ≡ Err e) }
    ensures refused { OnOk result (left_out.new ≡ refused_in file.now) }
{
    if file.len() as u64 > INPUT_LIMIT {
        return Err(Fault::TooLong);
    }
    if is_tagged(file) {
        *left_out = 0;
        return read_tagged(alloc, file);
    }
    read_lines(alloc, file, left_out)
}

// Whether the bytes begin as a state or a delta does.
fn is_tagged(file: &[u8]) -> bool
    ensures { result ≡ is_tagged file.now }
{
    is_state(file) || file.starts_with(b"OGD1") || file.starts_with(b"OGD2")
}

// Whether they begin as a state does.
fn is_state(file: &[u8]) -> bool
    ensures { result ≡ has_tag file.now }
{
    file.starts_with(b"OGS1")
}

// What a state or a delta holds.
fn read_tagged<A: Allocator + Copy>(alloc: A, file: &[u8]) -> Result<Holdings<A>, Fault>
    ensures ok { IfOk result (λ held. operations_in file.now ≡ Ok held) }
    ensures err { IfErr result (λ e. e ≢ Fault.OutOfMemory → operations_in file.now ≡ Err e) }
{
    if is_state(file) {
        let said = read_state(alloc, file)?;
        return Ok(Holdings::of(said));
    }
    read_delta(alloc, file)
}

// What a state's text says.
fn read_state<A: Allocator + Copy>(alloc: A, file: &[u8]) -> Result<Record<A>, Fault>
    ensures ok { IfOk result (λ said. loaded file.now ≡ Ok said) }
    ensures err { IfErr result (λ e. e ≢ Fault.OutOfMemory → loaded file.now ≡ Err e) }
{
    texts_are_read();
    let said = Record::load(alloc, file)?;
    Ok(said)
}

// What a delta says.
fn read_delta<A: Allocator + Copy>(alloc: A, file: &[u8]) -> Result<Holdings<A>, Fault>
    ensures ok { IfOk result (λ held. delta_of file.now ≡ Ok held) }
    ensures err { IfErr result (λ e. e ≢ Fault.OutOfMemory → delta_of file.now ≡ Err e) }
{
    texts_are_read();
    let mut held = Holdings::new(alloc);
    held.take(file)?;
    Ok(held)
}

// What lines of deltas hold, and how many are none.
fn read_lines<A: Allocator + Copy>(
    alloc: A,
    file: &[u8],
    left_out: &mut u64,
) -> Result<Holdings<A>, Fault>
    requires { length file.now ≤ INPUT_LIMIT }
    ensures ops { IfOk result (λ held. held ≡ taken file.now) }
    ensures refused { OnOk result (left_out.new ≡ refused file.now) }
    ensures err { IfErr result (λ e. e ≡ Fault.OutOfMemory) }
{
    let mut reader = file;
    match fold_intake(alloc, &mut reader, &mut sink()) {
        Ok(intake) => {
            *left_out = intake.refused;
            Ok(intake.held)
        }
        Err(_) => Err(Fault::OutOfMemory),
    }
}
