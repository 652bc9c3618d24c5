//! Memory that a host lends, and an arena over it: so a library allocates that imports nothing, as in a web page.
//!
//!     let arena = arena_over(memory)?;
//!     let mut squares = Vec::new(&arena);   // an allocator that is copied: `&Bump<Lender>`
//!
//! - `Memory` is a piece of memory that the host names by its address and its size.
//! - `Lender` gives it away as one block, once, and takes nothing back. It is the parent of an arena.
//! - `arena_over` makes the arena.
//!
//! What the host owes is said at `Memory`. That no more is given than is lent, and nothing twice, is proved: it is what an
//! `Allocator` has to meet. No clause says how much of the memory an arena can use.
#![tactic(auto)]

mod arena;
mod lender;
mod memory;

pub use arena::arena_over;
pub use lender::Lender;
pub use memory::Memory;
