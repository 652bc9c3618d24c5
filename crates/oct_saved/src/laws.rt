//! What holds of the texts of all places. A caller gets each law from the contract of its function.

ghost use Rattle.oct_saved.specs.Laws.{SameTextSamePlace};

use std::alloc::Allocator;

/// Two places with one text are of one game and as far as each other, and if the first is right, so is the second.
pub fn same_text_same_place<A: Allocator, B: Allocator>()
    ensures { SameTextSamePlace A B }
{}
