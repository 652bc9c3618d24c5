//! Whoever holds operations under an author.

ghost use Rattle.std.specs.Prelude.{◌≡◌, not, false, IfOk, OnOk, OnErr};
ghost use Rattle.oct_ops.specs.Operations.{insert, contains};
ghost use Rattle.oct_record.specs.Content.{RecordContent};

use crate::record::Record;
use oct_ops::Op;
use std::alloc::{AllocError, Allocator};
use std::rc::Rc;

/// Holds a record, and perhaps what follows from it, and takes operations in. What is handed to it in other forms, as bytes,
/// lists or other records, is taken in by the functions of `taking`.
pub trait Holder<A: Allocator + Copy> {
    ghost content: { Self → RecordContent };

    /// The author, and the operations that are held.
    fn said(&self) -> &Record<A>
        ensures { result.now ≡ content self.now };

    /// Puts in an operation that others hold too, and says whether it is new. Memory can be refused only where it is new; then
    /// nothing changes.
    fn share(&mut self, op: &Rc<Op<A>, A>) -> Result<bool, AllocError>
        ensures added { IfOk result (λ added. added ≡ not (contains (content self.old).ops op.now.value)) }
        ensures ok { OnOk result (content self.new ≡ record (content self.old) { ops = insert (content self.old).ops op.now.value }) }
        ensures err { OnErr result (content self.new ≡ content self.old) }
        ensures absent { OnErr result (contains (content self.old).ops op.now.value ≡ false) };
}
