//! Operations and clocks as bytes.
//!
//! A delta is how operations travel: a tag of four bytes, a count, and then the operations in their order, each with one
//! spelling. All numbers are big-endian. So a text has one list, two replicas that hold the same operations write the
//! same bytes, and bytes that are no text are refused as a whole, before any memory is taken:
//!
//!     let mut out = Vec::new(alloc);
//!     encode(&list, &mut out)?;             // 1.1, note `kayles`: OGD1, 00000001, 00000001 00000001 03 06 6b61796c6573 00
//!     let same = decode(alloc, &out)?;      // the list again
//!     decode(alloc, &out[..20])             // Refused
//!
//! There are two formats with the same grammar: `OGD1` for games of `OLD_LIMIT` places, and `OGD2` for games of `LIMIT`
//! places. Both are read; a list is written as `OGD1` where that can spell it.
//!
//! - `decode` reads a delta, `read_ops` reads one operation by operation, without a list of them, `encode` writes one,
//!   `encode_each` that of a set without a list, and `op_size` says how long an operation's text is.
//! - `Reader` reads a delta that comes in pieces, and gives the operations as they come whole; `decode_pieces` feeds one.
//! - `decode_clock` and `encode_clock` do the same for clocks: a count, and then so many authors with their numbers.
//! - `put_head` and `put_op` write a delta piece by piece, and `put_bytes`, `put_u32` and `put_entries` what other texts are
//!   made of beside deltas.
//! - `laws` says what holds of all texts.
#![tactic(auto)]

mod building;
mod checking;
mod clock;
mod decoding;
mod each;
mod encoding;
mod error;
mod fault;
mod format;
mod input;
pub mod laws;
mod output;
mod reader;
mod state;
mod streaming;
mod text_ops;

pub use clock::{decode_clock, encode_clock, put_entries};
pub use decoding::decode;
pub use each::{encode_each, put_head, put_op};
pub use encoding::{MAX_OP_SIZE, encode, op_size};
pub use error::{ClockError, DeltaError, DeltaFault, EncodeError};
pub use oct_code::OutOfMemory;
pub use oct_ops::OpList;
pub use output::{put_bytes, put_u32};
pub use reader::{Reader, decode_pieces};
pub use text_ops::{TextOps, read_ops};
