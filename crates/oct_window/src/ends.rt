//! The ends of a list.

ghost use Rattle.std.specs.Prelude.{◌≡◌, ◌+◌, ◌-◌, ◌<◌, ◌≤◌, ℕ, slice_index, vec_len, vec_capacity};

use std::alloc::Allocator;

/// Keeps the first values of a list and its last ones, so many of each, and drops those between. Takes no memory.
pub(crate) fn keep_ends<A: Allocator>(list: &mut Vec<u16, A>, first: usize, last: usize)
    requires { first + last ≤ vec_len list.old }
    ensures len { vec_len list.new ≡ first + last }
    ensures room { vec_capacity list.new ≡ vec_capacity list.old }
    ensures first { (i : ℕ) → i < first → slice_index list.new.items i ≡ slice_index list.old.items i }
    ensures last { (i : ℕ) → i < last → slice_index list.new.items (first + i) ≡ slice_index list.old.items (vec_len list.old - last + i) }
{
    let len = list.len();
    list.copy_within(len - last..len, first);
    list.truncate(first + last);
}
