//! The values of what moves that leave two heaps leave of one, and of one and its twin.

ghost use Rattle.std.specs.Prelude.{◌≡◌, ◌+◌, ◌-◌, ◌*◌, ◌^◌, ◌<◌, ◌≤◌, ◌⊎◌, ◌↔◌, ℕ, IfOk, length, map, slice_index, slice_index_or, vec_len, vec_capacity};
ghost use Rattle.bitsets.specs.Sets.{Has};
ghost use Rattle.oct_code.specs.Code as octal;
ghost use Rattle.oct_sets.specs.Plans.{AreSplits, IsOneBefore};

use bitsets::Word;
use oct_code::Code;
use oct_mex::Cell;
use std::alloc::{AllocError, Allocator};

/// How many beans a move may remove that leaves two heaps.
pub(crate) fn splits_of<A: Allocator>(alloc: A, code: &Code) -> Result<Vec<usize, A>, AllocError>
    ensures few { IfOk result (λ splits. (k : ℕ) → k < length splits.items → slice_index splits.items k ≤ octal.len code.now) }
    ensures splits { IfOk result (λ splits. AreSplits code.now splits.items) }
{
    let mut splits = Vec::new(alloc);
    for removed in 0..code.len() + 1 {
        if code.allows(removed, 2) {
            splits.push(removed)?;
        }
    }
    Ok(splits)
}

/// Behind `back` empty words, for each place of a list of values from `first` on, the set of the values that stand before it by
/// these numbers. There is room for twice as many words as are empty.
pub(crate) fn words_of<T: Cell, W: Word, A: Allocator + Copy>(
    alloc: A,
    splits: &[usize],
    values: &[T],
    first: usize,
    back: usize,
) -> Result<Vec<W, A>, AllocError>
    requires few { length values.now ≤ back }
    requires limited { back < 2 ^ 62 }
    requires first { first ≤ length values.now }
    requires splits { (k : ℕ) → k < length splits.now → slice_index splits.now k ≤ first }
    requires low { (i : ℕ) → i < length values.now → slice_index (map T.number values.now) i < 2 ^ W.digits }
    ensures len { IfOk result (λ words. vec_len words ≡ back + (length values.now - first)) }
    ensures room { IfOk result (λ words. 2 * back ≤ vec_capacity words) }
    ensures pairs { IfOk result (λ words. (i v : ℕ) → first + i < length values.now → Has (slice_index (map W.number words.items) (back + i)) v ↔ IsOneBefore splits.now (map T.number values.now) (first + i) (length splits.now) v) }
{
    let mut words = Vec::with_capacity(alloc, 2 * back)?;
    words.resize(back, W::empty())?;
    for place in first..values.len() {
        words.push(split_set(splits, values, place))?;
    }
    Ok(words)
}

/// The set of the values that stand before a place by these numbers.
#[inline(always)]
pub(crate) fn split_set<T: Cell, W: Word>(splits: &[usize], values: &[T], place: usize) -> W
    requires within { place < length values.now }
    requires splits { (k : ℕ) → k < length splits.now → slice_index splits.now k ≤ place }
    requires low { (i : ℕ) → i < length values.now → slice_index (map T.number values.now) i < 2 ^ W.digits }
    ensures set { (v : ℕ) → Has (W.number result) v ↔ IsOneBefore splits.now (map T.number values.now) place (length splits.now) v }
{
    let mut set = W::empty();
    for removed in splits {
        set = set.united(W::one(number_at(values, place - *removed)));
    }
    set
}

/// The nim-value that stands at a place.
#[inline(always)]
pub(crate) fn number_at<T: Cell>(values: &[T], place: usize) -> usize
    requires { place < length values.now }
    ensures { result ≡ slice_index (map T.number values.now) place }
{
    values[place].number()
}

/// Keeps the last words, so many, and as many as `back` before them, whatever these are. Takes no memory.
pub(crate) fn keep_last<W: Word, A: Allocator>(words: &mut Vec<W, A>, back: usize, count: usize)
    requires { back + count ≤ vec_len words.old }
    ensures len { vec_len words.new ≡ back + count }
    ensures room { vec_capacity words.new ≡ vec_capacity words.old }
    ensures last { (i : ℕ) (word : W) → i < count → slice_index_or words.new.items (back + i) word ≡ slice_index_or words.old.items (vec_len words.old - count + i) word }
{
    let len = words.len();
    words.copy_within(len - count..len, back);
    words.truncate(back + count);
}

/// Makes the words of twins from the place `from` on: each has the numbers of the word that stands `back` places on, and of the one
/// `apart` before that, if there is one behind the first `back`.
pub(crate) fn unite_twins<W: Word>(words: &mut [W], back: usize, apart: usize, from: usize)
    requires least { back ≤ length words.old }
    requires most { length words.old ≤ 2 * back }
    requires limited { back < 2 ^ 62 }
    ensures len { length words.new ≡ length words.old }
    ensures first { (i : ℕ) → i < from → slice_index (map W.number words.new) i ≡ slice_index (map W.number words.old) i }
    ensures last { (i : ℕ) → back ≤ i → slice_index (map W.number words.new) i ≡ slice_index (map W.number words.old) i }
    ensures twins { (i v : ℕ) → from ≤ i → apart ≤ i → back + i < length words.old → Has (slice_index (map W.number words.new) i) v ↔ (Has (slice_index (map W.number words.old) (back + i)) v ⊎ Has (slice_index (map W.number words.old) (back + i - apart)) v) }
{
    for at in from.max(apart)..words.len() - back {
        words[at] = words[back + at].united(words[back + at - apart]);
    }
}
