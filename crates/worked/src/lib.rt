//! Worked deltas and states, for tests, with the catalogues that they have. They stand here as hexadecimal texts, with blanks
//! between their fields and a line for each operation, so that no encoder that is tested has a part in them. Where memory
//! is refused, a function of this crate gives none of the bytes, and what it was to append to may have some of them.
#![tactic(auto)]

use std::alloc::{AllocError, Global};

/// The block 1.1 of Kayles from heap 0 on: 0 1 2 3 1.
pub const FIRST: &str = "\
4f474431 00000001
00000001 00000001 01 00020707 00000000 0005 00000000 00000001 00000002 00000003 00000001";

/// The block 2.1 of Kayles from heap 5 on: 4 3 2.
pub const NEXT: &str = "\
4f474431 00000001
00000002 00000001 01 00020707 00000005 0003 00000004 00000003 00000002";

/// FIRST and NEXT.
pub const BOTH: &str = "\
4f474431 00000002
00000001 00000001 01 00020707 00000000 0005 00000000 00000001 00000002 00000003 00000001
00000002 00000001 01 00020707 00000005 0003 00000004 00000003 00000002";

/// The block 1.2 of Kayles from heap 2 on: 2 3.
pub const SECOND: &str = "\
4f474431 00000001
00000001 00000002 01 00020707 00000002 0002 00000002 00000003";

/// The block 1.3 of Kayles from heap 3 on: 3 1 4 3 2.
pub const THIRD: &str = "\
4f474431 00000001
00000001 00000003 01 00020707 00000003 0005 00000003 00000001 00000004 00000003 00000002";

/// The claim 1.2 that Kayles repeats by 12 from heap 71 on.
pub const RIGHT_CLAIM: &str = "\
4f474431 00000001
00000001 00000002 02 00020707 00000047 0000000c";

/// The claim 1.3 that it does so from heap 70 on.
pub const EARLY_CLAIM: &str = "\
4f474431 00000001
00000001 00000003 02 00020707 00000046 0000000c";

/// The block 1.4 of Kayles of heap 167 alone: 7.
pub const LAST: &str = "\
4f474431 00000001
00000001 00000004 01 00020707 000000a7 0001 00000007";

/// The block 1.1 of 0.3 from heap 0 on, 0 1 0 1 0 1 0, and the claim 1.2 from heap 1 by 2.
pub const TURNS: &str = "\
4f474431 00000002
00000001 00000001 01 000103 00000000 0007 00000000 00000001 00000000 00000001 00000000 00000001 00000000
00000001 00000002 02 000103 00000001 00000002";

/// The note 1.1, `kayles`: early.
pub const EARLY: &str = "\
4f474431 00000001
00000001 00000001 03 06 6b61796c6573 05 6561726c79";

/// The note 1.2, `kayles`: later.
pub const LATER: &str = "\
4f474431 00000001
00000001 00000002 03 06 6b61796c6573 05 6c61746572";

/// The removal 2.1 of the note 1.1.
pub const REMOVAL: &str = "\
4f474431 00000001
00000002 00000001 04 0001 00000001 00000001";

/// The note 7.1, `a`: one.
pub const ONE: &str = "\
4f474431 00000001
00000007 00000001 03 01 61 03 6f6e65";

/// Another note 7.1, `a`, issued from an old state: two.
pub const TWO: &str = "\
4f474431 00000001
00000007 00000001 03 01 61 03 74776f";

/// ONE and TWO.
pub const ONE_AND_TWO: &str = "\
4f474431 00000002
00000007 00000001 03 01 61 03 6f6e65
00000007 00000001 03 01 61 03 74776f";

/// The notes 5.1 and 5.3, `a`, without text.
pub const UNTOLD: &str = "\
4f474431 00000002
00000005 00000001 03 01 61 00
00000005 00000003 03 01 61 00";

/// The second of them alone.
pub const THIRD_UNTOLD: &str = "\
4f474431 00000001
00000005 00000003 03 01 61 00";

/// No operation, in the old format.
pub const NOTHING: &str = "4f474431 00000000";

/// No operation, in the new one.
pub const NOTHING_NEW: &str = "4f474432 00000000";

/// The state of author 7 without operations.
pub const EMPTY_STATE: &str = "4f475331 00000007 4f474431 00000000";

/// The same but for its last byte.
pub const CUT_STATE: &str = "4f475331 00000007 4f474431 000000";

/// The state of author 7 with FIRST.
pub const FIRST_STATE: &str = "\
4f475331 00000007 4f474431 00000001
00000001 00000001 01 00020707 00000000 0005 00000000 00000001 00000002 00000003 00000001";

/// The state of author 7 with UNTOLD.
pub const UNTOLD_STATE: &str = "\
4f475331 00000007 4f474431 00000002
00000005 00000001 03 01 61 00
00000005 00000003 03 01 61 00";

/// The catalogue of FIRST and NEXT.
pub const BOTH_SHOWN: &str = "\
census 2
game 0.77 known 8
values 0 0 1 2 3 1 4 3 2
block 1.1 at 0 count 5 proved
block 2.1 at 5 count 3 proved
author 1 through 1 last 1
author 2 through 1 last 1
end
";

/// That of NEXT alone.
pub const NEXT_SHOWN: &str = "\
census 2
game 0.77 known 1
values 0 0
block 2.1 at 5 count 3 pending
author 2 through 1 last 1
end
";

/// That of FIRST, SECOND and THIRD.
pub const THREE_SHOWN: &str = "\
census 2
game 0.77 known 8
values 0 0 1 2 3 1 4 3 2
block 1.1 at 0 count 5 proved
block 1.2 at 2 count 2 proved
block 1.3 at 3 count 5 proved
author 1 through 3 last 3
end
";

/// That of TURNS.
pub const TURNS_SHOWN: &str = "\
census 2
game 0.3 known 7
values 0 0 1 0 1 0 1 0
block 1.1 at 0 count 7 proved
period 1.2 from 1 by 2 proved
author 1 through 2 last 2
end
";

/// That of EARLY, LATER and REMOVAL.
pub const LATER_SHOWN: &str = "\
census 2
note kayles 1.2 later
author 1 through 2 last 2
author 2 through 1 last 1
end
";

/// That of UNTOLD.
pub const UNTOLD_SHOWN: &str =
    "census 2\nnote a 5.1 \nnote a 5.3 \nauthor 5 through 1 last 3\nend\n";

/// That of ONE and TWO.
pub const FORKED_SHOWN: &str = "\
census 2
note a 7.1 one
note a 7.1 two
fork 7.1 contents 2
author 7 through 1 last 1
end
";

/// That of the block 7.1 of 0.137 from heap 1 on: 1 1 2 0 3.
pub const COMPUTED: &str = "\
census 2
game 0.137 known 6
values 0 0 1 1 2 0 3
block 7.1 at 1 count 5 proved
author 7 through 1 last 1
end
";

/// That of no operation.
pub const NONE_SHOWN: &str = "census 2\nend\n";

/// The second page of the catalogue of the notes 3.1 to 3.70.
pub const SECOND_PAGE: &str =
    "note n 3.64 \nnote n 3.65 \nnote n 3.66 \nnote n 3.67 \nnote n 3.68 \nnote n 3.69 \nnote n 3.70 \nauthor 3 through 70 last 70\nend\n";

/// Appends the digits of a hexadecimal text.
pub fn put_digits(out: &mut Vec<u8>, text: &str) -> Result<(), AllocError> {
    for byte in text.bytes() {
        if byte != b' ' && byte != b'\n' {
            out.push(byte)?;
        }
    }
    Ok(())
}

/// The bytes of a hexadecimal text.
pub fn bytes(alloc: Global, text: &str) -> Option<Vec<u8>> {
    let mut digits = Vec::new(alloc);
    put_digits(&mut digits, text).ok()?;
    hex::decode(alloc, digits).ok()
}

/// Appends the bytes of a hexadecimal text.
pub fn put(alloc: Global, out: &mut Vec<u8>, text: &str) -> Option<()> {
    out.extend_from_slice(&bytes(alloc, text)?).ok()
}

/// Appends a number of four bytes.
pub fn put_number(out: &mut Vec<u8>, number: u32) -> Option<()> {
    out.extend_from_slice(&number.to_be_bytes()).ok()
}

/// The nim-values of Kayles for the heaps below 84, of which the last twelve repeat.
const KAYLES: [u32; 84] = [
    0, 1, 2, 3, 1, 4, 3, 2, 1, 4, 2, 6, 4, 1, 2, 7, 1, 4, 3, 2, 1, 4, 6, 7, 4, 1, 2, 8, 5, 4, 7, 2,
    1, 8, 6, 7, 4, 1, 2, 3, 1, 4, 7, 2, 1, 8, 2, 7, 4, 1, 2, 8, 1, 4, 7, 2, 1, 4, 2, 7, 4, 1, 2, 8,
    1, 4, 7, 2, 1, 8, 6, 7, 4, 1, 2, 8, 1, 4, 7, 2, 1, 8, 2, 7,
];

// Appends an operation: the block 1.1 of Kayles from heap 0 on, with the values of the heaps below 167.
fn put_long_block(alloc: Global, out: &mut Vec<u8>) -> Option<()> {
    put(alloc, out, "00000001 00000001 01 00020707 00000000 00a7")?;
    for heap in 0..167usize {
        let at = if heap < 84 { heap } else { 72 + heap % 12 };
        put_number(out, KAYLES[at])?;
    }
    Some(())
}

/// The delta of that block alone.
pub fn long_block(alloc: Global) -> Option<Vec<u8>> {
    let mut out = bytes(alloc, "4f474431 00000001")?;
    put_long_block(alloc, &mut out)?;
    Some(out)
}

/// The delta of that block with the claims RIGHT_CLAIM and EARLY_CLAIM.
pub fn long_claimed(alloc: Global) -> Option<Vec<u8>> {
    let mut out = bytes(alloc, "4f474431 00000003")?;
    put_long_block(alloc, &mut out)?;
    for claim in [
        "00000001 00000002 02 00020707 00000047 0000000c",
        "00000001 00000003 02 00020707 00000046 0000000c",
    ] {
        put(alloc, &mut out, claim)?;
    }
    Some(out)
}

/// The delta of the note 3.N, `n`, without text.
pub fn note_of_3(alloc: Global, number: u32) -> Option<Vec<u8>> {
    let mut out = bytes(alloc, "4f474431 00000001")?;
    put_note_of_3(alloc, &mut out, number)?;
    Some(out)
}

fn put_note_of_3(alloc: Global, out: &mut Vec<u8>, number: u32) -> Option<()> {
    put(alloc, out, "00000003")?;
    put_number(out, number)?;
    put(alloc, out, "03 01 6e 00")
}

/// The delta of the notes 3.1 to 3.70.
pub fn many_notes(alloc: Global) -> Option<Vec<u8>> {
    let mut out = bytes(alloc, "4f474431 00000046")?;
    for number in 1..71u32 {
        put_note_of_3(alloc, &mut out, number)?;
    }
    Some(out)
}

/// The delta of the blocks 3.1 to 3.70 of 0.3, each of heap 0 alone.
pub fn many_blocks(alloc: Global) -> Option<Vec<u8>> {
    let mut out = bytes(alloc, "4f474431 00000046")?;
    for number in 1..71u32 {
        put(alloc, &mut out, "00000003")?;
        put_number(&mut out, number)?;
        put(alloc, &mut out, "01 000103 00000000 0001 00000000")?;
    }
    Some(out)
}
