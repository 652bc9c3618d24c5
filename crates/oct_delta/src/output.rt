//! Bytes and numbers at the end of a vector. A refusal leaves what was there before at the front.
#![tactic(auto, using(oct_ops::proofs::Growing::growing))]

ghost use Rattle.std.specs.Prelude.{◌≡◌, ◌∷◌, ◌++◌, [], OnOk};
ghost use Rattle.std.specs.List.{flat_map};
ghost use Rattle.oct_delta.specs.Text.{Bytes, u16, u32};
ghost use Rattle.oct_ops.specs.Growth.{Extends};

use byteorder::{BigEndian, ByteOrder};
use std::alloc::{AllocError, Allocator};

/// Appends the bytes. After a refusal what was there before is at the front.
pub fn put_bytes<A: Allocator>(out: &mut Vec<u8, A>, bytes: &[u8]) -> Result<(), AllocError>
    ensures ok { OnOk result (out.new.items ≡ out.old.items ++ bytes.now) }
    ensures kept { Extends out.old.items out.new.items }
{
    out.extend_from_slice(bytes)
}

/// Appends a byte.
pub(crate) fn put_byte<A: Allocator>(out: &mut Vec<u8, A>, byte: u8) -> Result<(), AllocError>
    ensures ok { OnOk result (out.new.items ≡ out.old.items ++ byte ∷ []) }
    ensures kept { Extends out.old.items out.new.items }
{
    put_bytes(out, &[byte])
}

/// Appends a number of 16 bits, big-endian.
pub(crate) fn put_u16<A: Allocator>(out: &mut Vec<u8, A>, number: u16) -> Result<(), AllocError>
    ensures ok { OnOk result (out.new.items ≡ out.old.items ++ u16 number) }
    ensures kept { Extends out.old.items out.new.items }
{
    let mut bytes = [0; 2];
    BigEndian::write_u16(&mut bytes, number);
    put_bytes(out, &bytes)
}

/// Appends a number of 32 bits, big-endian. After a refusal what was there before is at the front.
pub fn put_u32<A: Allocator>(out: &mut Vec<u8, A>, number: u32) -> Result<(), AllocError>
    ensures ok { OnOk result (out.new.items ≡ out.old.items ++ u32 number) }
    ensures kept { Extends out.old.items out.new.items }
{
    let mut bytes = [0; 4];
    BigEndian::write_u32(&mut bytes, number);
    put_bytes(out, &bytes)
}

/// What may stand in a text many times, one after the other.
pub(crate) trait Put {
    ghost spelled: { Self → Bytes };

    /// Appends its bytes. After a refusal what was there before is at the front.
    fn put<A: Allocator>(&self, out: &mut Vec<u8, A>) -> Result<(), AllocError>
        ensures ok { OnOk result (out.new.items ≡ out.old.items ++ spelled self.now) }
        ensures kept { Extends out.old.items out.new.items };
}

impl Put for u32 {
    ghost spelled = { u32 };

    fn put<A: Allocator>(&self, out: &mut Vec<u8, A>) -> Result<(), AllocError> {
        put_u32(out, *self)
    }
}

/// Appends the bytes of each item.
pub(crate) fn put_each<P: Put, A: Allocator>(
    out: &mut Vec<u8, A>,
    items: &[P],
) -> Result<(), AllocError>
    ensures ok { OnOk result (out.new.items ≡ out.old.items ++ flat_map P.spelled items.now) }
    ensures kept { Extends out.old.items out.new.items }
{
    for item in items {
        item.put(out)?;
    }
    Ok(())
}
