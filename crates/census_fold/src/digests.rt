//! The digest of the operations of a file.

ghost use Rattle.std.specs.Prelude.{◌≡◌, ◌≢◌, ◌++◌, Ok, Err, IfOk, IfErr};
ghost use Rattle.std.specs.List.{flat_map};
ghost use Rattle.sha2.specs.Sha256.{sha256};
ghost use Rattle.oct_delta.specs.Text.{op_bytes};
ghost use Rattle.oct_record.specs.States.{has_tag};
ghost use Rattle.census_fold.specs.Digests.{digest_of, digest_of_set, operations_in, text_of};

use census_state::{Fault, Holdings, load};
use oct_delta::laws::texts_are_read;
use oct_delta::{encode_each, put_head, put_op};
use oct_join::Ops;
use oct_record::Record;
use sha2::{Digest, Sha256};
use std::alloc::{AllocError, Global};

// So many bytes of a text are put together before they are taken in, and the text of one operation.
const PIECE: usize = 65_536;

/// The digest of the operations of a file, a state or a delta: the 64 hexadecimal digits, in lower case, of the SHA-256 of the
/// delta that is written of them all. So two files have one digest where they hold the same operations, whoever the authors of
/// the states are.
///
/// The file is read as a state where it begins with `OGS1`, and else as a delta. The first fault is `Load` where it is no such
/// state, or `Merge` where it is no delta; then `TooMany`. `OutOfMemory` may come before that.
pub fn digest(alloc: Global, file: &[u8]) -> Result<Vec<u8>, Fault>
    ensures ok { IfOk result (λ digits. digest_of file.now ≡ Ok digits.items) }
    ensures err { IfErr result (λ e. e ≢ Fault.OutOfMemory → digest_of file.now ≡ Err e) }
{
    let held = read_held(alloc, file)?;
    record_digest(alloc, held.as_record())
}

/// The digest of the operations of a record: that of each file that holds them and no others. The fault is `TooMany`.
/// `OutOfMemory` may come before that.
pub fn record_digest(alloc: Global, held: &Record<Global>) -> Result<Vec<u8>, Fault>
    ensures ok { IfOk result (λ digits. digest_of_set held.now.ops ≡ Ok digits.items) }
    ensures err { IfErr result (λ e. e ≢ Fault.OutOfMemory → digest_of_set held.now.ops ≡ Err e) }
{
    if held.len() > u32::MAX as usize {
        return Err(Fault::TooMany);
    }
    let mut head = Vec::new(alloc);
    put_head(&mut head, held.store().iter())?;
    let hash = hash_of(head, held.store().iter())?;
    let digits = hex::encode(alloc, hash)?;
    Ok(digits.into_bytes())
}

// The SHA-256 of a text of this head and of the operations behind it, which is put together and taken in piece by piece.
fn hash_of(head: Vec<u8>, ops: Ops<'_, Global>) -> Result<[u8; 32], AllocError>
    ensures { IfOk result (λ hash. hash ≡ sha256 (head.items ++ flat_map op_bytes ops.entry)) }
{
    let mut hasher = Sha256::new();
    let mut piece = head;
    for op in ops {
        if piece.len() >= PIECE {
            hasher.update(piece.as_slice());
            piece.clear();
        }
        put_op(&mut piece, op)?;
    }
    hasher.update(piece.as_slice());
    Ok(hasher.finalize())
}

/// What a file holds.
pub(crate) fn read_held(alloc: Global, file: &[u8]) -> Result<Holdings<Global>, Fault>
    ensures ok { IfOk result (λ held. operations_in file.now ≡ Ok held) }
    ensures err { IfErr result (λ e. e ≢ Fault.OutOfMemory → operations_in file.now ≡ Err e) }
{
    if is_state(file) {
        let said = load(alloc, file)?;
        return Ok(Holdings::of(said));
    }
    texts_are_read();
    let mut held = Holdings::new(alloc);
    held.take(file)?;
    Ok(held)
}

// Whether the bytes begin as a state does.
fn is_state(file: &[u8]) -> bool
    ensures { result ≡ has_tag file.now }
{
    file.starts_with(b"OGS1")
}

/// The one text of all operations.
pub(crate) fn text_of(alloc: Global, held: &Record<Global>) -> Result<Vec<u8>, Fault>
    ensures ok { IfOk result (λ text. text_of held.now.ops ≡ Ok text.items) }
    ensures err { IfErr result (λ e. e ≢ Fault.OutOfMemory → text_of held.now.ops ≡ Err e) }
{
    let mut text = Vec::new(alloc);
    encode_each(held.store().iter(), &mut text)?;
    Ok(text)
}
