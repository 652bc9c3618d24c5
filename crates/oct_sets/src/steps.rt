//! Lists of steps.

ghost use Rattle.std.specs.Prelude.{◌≡◌, ◌++◌, ◌∷◌, [], OnOk};

use std::alloc::{AllocError, Allocator};

/// Steps from a heap to its options: by how much the larger heap that is left is smaller, and beside it, at the same place,
/// the nim-value of the other one.
#[derive(Drop)]
pub struct Steps<A: Allocator> {
    pub offsets: Vec<usize, A>,
    pub values: Vec<usize, A>,
}

impl<A: Allocator + Copy> Steps<A> {
    /// No steps. Takes no memory.
    pub(crate) fn new(alloc: A) -> Steps<A>
        ensures offsets { result.offsets.items ≡ [] }
        ensures values { result.values.items ≡ [] }
    {
        Steps {
            offsets: Vec::new(alloc),
            values: Vec::new(alloc),
        }
    }

    /// Adds a step.
    pub(crate) fn push(&mut self, offset: usize, value: usize) -> Result<(), AllocError>
        ensures offsets { OnOk result (self.new.offsets.items ≡ self.old.offsets.items ++ offset ∷ []) }
        ensures values { OnOk result (self.new.values.items ≡ self.old.values.items ++ value ∷ []) }
    {
        self.offsets.push(offset)?;
        self.values.push(value)?;
        Ok(())
    }
}
