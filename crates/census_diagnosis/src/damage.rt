//! Where a delta is damaged.

use census_failure::shown;
use oct_delta::{DeltaError, Reader, op_size};
use std::alloc::{AllocError, Global};

// How many bytes are read at once, before those of a piece that is refused are read one by one.
const PIECE: usize = 4_096;

// The bytes of the tag and of the count.
const HEAD: usize = 8;

/// What is said of the damaged delta that begins at this byte of a file: where its whole operations end. Places are
/// counted from 0, the file's first byte.
pub(crate) fn damage_text(
    alloc: Global,
    name: &str,
    bytes: &[u8],
    begins: usize,
) -> Result<String, AllocError> {
    let name = shown(alloc, name)?;
    let delta = bytes.get(begins..).unwrap_or(b"");
    if delta.len() < HEAD {
        let end = bytes.len();
        return format!(in alloc; "{name} is cut off: it ends at byte {end}, before its operations");
    }
    let (mut scan, is_whole) = scanned(alloc, delta)?;
    let at = begins.saturating_add(scan.whole());
    if is_whole {
        return format!(in alloc; "{name} is cut off within the operation that begins at byte {at}");
    }
    format!(in alloc;
        "{name} is damaged: the operation that begins at byte {at} is none, or is not due"
    )
}

// A reader of a delta, and how far its whole operations reach.
#[derive(Drop)]
struct Scan {
    reader: Reader<Global>,
    /// How many operations are counted, and how many bytes the delta has through them.
    counted: usize,
    bytes: usize,
}

impl Scan {
    fn new(alloc: Global) -> Scan {
        Scan {
            reader: Reader::new(alloc),
            counted: 0,
            bytes: HEAD,
        }
    }

    // How many bytes the delta has through its last whole operation.
    fn whole(&mut self) -> usize {
        let items = self.reader.items();
        for item in items.get(self.counted..).unwrap_or(&[]) {
            self.bytes = self.bytes.saturating_add(op_size(item));
        }
        self.counted = items.len();
        self.bytes
    }

    // Takes a piece, and says whether it may be a part of a delta.
    fn take(&mut self, piece: &[u8]) -> Result<bool, AllocError> {
        match self.reader.feed(piece) {
            Ok(()) => Ok(true),
            Err(DeltaError::OutOfMemory) => Err(AllocError),
            Err(_) => Ok(false),
        }
    }
}

// A scan of the delta up to where it is damaged, and whether it is good as far as it goes.
fn scanned(alloc: Global, delta: &[u8]) -> Result<(Scan, bool), AllocError> {
    let good = good_bytes(alloc, delta)?;
    let mut scan = Scan::new(alloc);
    for piece in delta.get(..good).unwrap_or(b"").chunks(PIECE) {
        scan.take(piece)?;
    }
    for byte in delta.get(good..).unwrap_or(b"") {
        scan.whole();
        if !scan.take(&[*byte])? {
            return Ok((scan, false));
        }
    }
    Ok((scan, true))
}

// How many bytes the pieces have before the first that is refused.
fn good_bytes(alloc: Global, delta: &[u8]) -> Result<usize, AllocError> {
    let mut scan = Scan::new(alloc);
    let mut good = 0usize;
    for piece in delta.chunks(PIECE) {
        if !scan.take(piece)? {
            return Ok(good);
        }
        good = good.saturating_add(piece.len());
    }
    Ok(good)
}
