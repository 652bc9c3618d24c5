//! Several delta files as one.

ghost use Rattle.std.specs.Prelude.{◌≡◌, ◌≢◌, Ok, Err, None, Some, IfOk, IfErr, IfSome, IsSome, OnOk, OnErr, map};
ghost use Rattle.oct_delta.specs.Decoding.{read_delta};
ghost use Rattle.oct_delta.specs.Taken.{operations_of};
ghost use Rattle.oct_ops.specs.Operations.{union};
ghost use Rattle.oct_record.specs.Valid.{AreValid};
ghost use Rattle.census_state.specs.Replies.{answer_of};
ghost use Rattle.census_state.specs.States.{delta_refusal};
ghost use Rattle.census_fold.specs.Unions.{first_refused, united_files};

use crate::deltas::delta_reply;
use census_state::{Fault, Holdings, Reply};
use oct_delta::laws::texts_are_read;
use oct_delta::{DeltaFault, read_ops};
use oct_record::TakeError;
use std::alloc::{AllocError, Allocator, Global};

/// The union of delta files as one delta, and a text that counts its operations. No file gives the delta of no operation.
///
/// The first refusal is `Union`, where a file is no delta: the first such file, by its place, counted from 1. It comes before
/// any memory is asked for. Then comes `TooMany`, before which memory may be refused.
pub fn unite(alloc: Global, files: &[Vec<u8>]) -> Result<Reply, Fault>
    ensures ok { IfOk result (λ reply. united_files (map (λ file. file.items) files.now) ≡ Ok (answer_of reply)) }
    ensures err { IfErr result (λ e. e ≢ Fault.OutOfMemory → united_files (map (λ file. file.items) files.now) ≡ Err e) }
    // A file that is no delta is named also where memory would be refused.
    ensures union { IfSome (first_refused 1 (map (λ file. file.items) files.now)) (λ e. result ≡ Err e) }
{
    check_files(files)?;
    let mut all = Holdings::new(alloc);
    for file in files {
        take_file(&mut all, file)?;
    }
    delta_reply(alloc, all.as_record())
}

// Refuses the first file that is no delta.
fn check_files(files: &[Vec<u8>]) -> Result<(), Fault>
    ensures ok { OnOk result (first_refused 1 (map (λ file. file.items) files.now) ≡ None) }
    ensures err { IfErr result (λ e. first_refused 1 (map (λ file. file.items) files.now) ≡ Some e) }
{
    for (index, file) in files.iter().enumerate() {
        if let Err(cause) = check_file(file) {
            let place = index as u64 + 1;
            return Err(Fault::Union { place, cause });
        }
    }
    Ok(())
}

// Refuses a file that is no delta.
fn check_file(file: &[u8]) -> Result<(), TakeError>
    ensures ok { OnOk result (IsSome (read_delta file.now)) }
    ensures unread { OnErr result (read_delta file.now ≡ None) }
    ensures err { IfErr result (λ cause. cause ≡ delta_refusal file.now) }
{
    match read_ops(file) {
        Ok(_) => Ok(()),
        Err(DeltaFault::Version) => Err(TakeError::Version),
        Err(DeltaFault::Refused) => Err(TakeError::Refused),
    }
}

// Takes in the operations of a file that is a delta.
fn take_file(all: &mut Holdings<Global>, file: &[u8]) -> Result<(), AllocError>
    requires { IsSome (read_delta file.now) }
    ensures taken { OnOk result (all.new ≡ union all.old (operations_of file.now)) }
    ensures valid { OnOk result (AreValid (operations_of file.now)) }
{
    texts_are_read();
    match all.take(file) {
        Ok(_) => Ok(()),
        Err(TakeError::OutOfMemory { .. }) => Err(AllocError),
        Err(TakeError::Version | TakeError::Refused) => unreachable!(),
    }
}
