//! Numbers at the end of a vector of bytes.

ghost use Rattle.std.specs.Prelude.{◌≡◌, ◌++◌, ◌^◌, ◌<◌, OnOk, length};
ghost use Rattle.std.specs.List.{All, flat_map};
ghost use Rattle.oct_saved.specs.Saved.{word_bytes};

use crate::word::Word;
use byteorder::{BigEndian, ByteOrder};
use std::alloc::{AllocError, Allocator};

/// Appends the length of a list, and then its numbers.
pub(crate) fn put_list<T: Word, A: Allocator>(
    out: &mut Vec<u8, A>,
    list: &[T],
) -> Result<(), AllocError>
    ensures bytes { OnOk result (out.new.items ≡ out.old.items ++ (word_bytes (length list.now) ++ flat_map (λ x. word_bytes (T.number x)) list.now)) }
    ensures len { length list.now < 2 ^ 64 }
    ensures fits { OnOk result (All (λ x. T.number x < T.bound) list.now) }
{
    put_number(out, list.len() as u64)?;
    put_numbers(out, list)
}

/// Appends numbers.
pub(crate) fn put_numbers<T: Word, A: Allocator>(
    out: &mut Vec<u8, A>,
    numbers: &[T],
) -> Result<(), AllocError>
    ensures bytes { OnOk result (out.new.items ≡ out.old.items ++ flat_map (λ x. word_bytes (T.number x)) numbers.now) }
    ensures fits { OnOk result (All (λ x. T.number x < T.bound) numbers.now) }
{
    for number in numbers {
        put_number(out, number.number())?;
    }
    Ok(())
}

/// Appends a number of 64 bits, big-endian.
#[tactic(auto, unfolding(crate::specs::Saved::word_bytes))]
pub(crate) fn put_number<A: Allocator>(out: &mut Vec<u8, A>, number: u64) -> Result<(), AllocError>
    ensures { OnOk result (out.new.items ≡ out.old.items ++ word_bytes number) }
{
    let mut bytes = [0; 8];
    BigEndian::write_u64(&mut bytes, number);
    out.extend_from_slice(&bytes)
}
