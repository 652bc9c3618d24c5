//! The sets of the values of near options, for a block of heaps at a time, in words of either width.

ghost use Rattle.std.specs.Prelude.{◌≡◌, ◌+◌, ◌-◌, ◌*◌, ◌^◌, ◌<◌, ◌≤◌, ℕ, List, IfOk, IfSome, length, map, slice_index, vec_len, vec_capacity};
ghost use Rattle.std.specs.List.{Contains};
ghost use Rattle.oct_code.specs.Code as octal;
ghost use Rattle.oct_mex.specs.NimValues.{nim_value};
ghost use Rattle.oct_mex.specs.Windows.{IsSettled};
ghost use Rattle.oct_sets.specs.Plans.{AreFirst, AreLast, AreSplits, IsParted, IsShapedFar, IsShapedSteps, IsUnion};
ghost use Rattle.oct_sets.specs.Sets.{ArePairs, AreTwins, IsBlock, IsRightOf, IsShapedOf};

use crate::pairs::{keep_last, number_at, split_set, splits_of, unite_twins, words_of};
use crate::plan::{BLOCK, LOW, Plan};
use crate::settled::settled_by;
use crate::sorted::sorted;
use crate::witnesses::witnesses;
use bitsets::{Word, unite_steps};
use oct_code::Code;
use oct_mex::{Cell, Mask};
use std::alloc::{AllocError, Allocator};

/// The sets of the values of near options, by a plan, in words of one width.
#[derive(Drop)]
pub struct SetsOf<W, A: Allocator> {
    pub plan: Plan<A>,
    /// How many beans a move may remove that leaves two heaps.
    pub splits: Vec<usize, A>,
    /// No far heap of the plan is larger.
    pub reach: usize,
    /// From the place `back` of the plan on, for each of the last heaps the values of what those moves leave of it, were there no
    /// other heap: the set of a pair is that of the larger heap, turned by the value of the smaller one. Before them, so many places
    /// from each, these values together with those of the heap that is smaller by as much as twins of the plan differ.
    pub words: Vec<W, A>,
    /// So many words for twins are made.
    pub twins: usize,
    /// What far steps make, for each heap of a block.
    pub block: Vec<W, A>,
    /// The first heap of the block.
    pub start: usize,
    /// The heaps of the block before this one have what low steps make too.
    pub ready: usize,
    /// The next heap: one of the block.
    pub heap: usize,
}

impl<W: Word, A: Allocator + Copy> SetsOf<W, A> {
    /// The sets behind the values of the last heaps before the heap `heap`: by a plan that leads to the rare heaps, and to others
    /// of the small heaps, whose values are given. Memory is taken for the plan, a block, and four times as many words as there are
    /// values.
    pub(crate) fn new<T: Cell>(
        alloc: A,
        code: &Code,
        small: &[T],
        rare: &[u32],
        last: &[T],
        heap: usize,
    ) -> Result<SetsOf<W, A>, AllocError>
        requires some { 1 < length small.now }
        requires few { length small.now ≤ 2 ^ 32 }
        requires low { (h : ℕ) → h < length small.now → slice_index (map T.number small.now) h < 2 ^ W.digits }
        requires listed { (h : ℕ) → Contains rare.now h → h < length small.now }
        requires window { length last.now ≡ length small.now - 1 + octal.len code.now }
        requires least { (i : ℕ) → i < length last.now → slice_index (map T.number last.now) i < 2 ^ W.digits }
        requires room { 2 * (length small.now - 1) + octal.len code.now < heap }
        requires limited { heap ≤ 2 ^ 60 }
        ensures shaped { IfOk result (IsShapedOf W.digits (length small.now - 1) (length last.now)) }
        ensures heap { IfOk result (λ sets. sets.heap ≡ heap) }
        ensures right { AreFirst code.now (map T.number small.now) → AreLast code.now heap (map T.number last.now) → IfOk result (IsRightOf W.number W.digits code.now rare.now (length small.now - 1)) }
    {
        let chosen = witnesses(alloc, code, small, last, rare)?;
        let apart = chosen.apart;
        let heaps = sorted(alloc, small, rare, &chosen.alone, &chosen.twins, apart)?;
        let back = 2 * last.len() + 1;
        let plan = Plan::of(alloc, code, number_at(small, 0), &heaps, back, apart)?;
        let splits = splits_of(alloc, code)?;
        let words = words_of(alloc, &splits, last, code.len(), back)?;
        let mut block = Vec::new(alloc);
        block.resize(BLOCK, W::empty())?;
        let mut sets = SetsOf {
            plan,
            splits,
            reach: small.len() - 1,
            words,
            twins: 0,
            block,
            start: heap,
            ready: heap,
            heap,
        };
        sets.fill();
        Ok(sets)
    }

    /// The nim-value of the next heap, if near options by the plan settle it: one of a word, and common. The values of the last heaps
    /// before it are given.
    #[inline(always)]
    pub(crate) fn settle<T: Cell>(&self, mask: Mask, last: &[T]) -> Option<usize>
        requires shaped { IsShapedOf W.digits self.now.reach (length last.now) self.now }
        requires limited { self.now.heap ≤ 2 ^ 60 }
        requires low { (i : ℕ) → i < length last.now → slice_index (map T.number last.now) i < 2 ^ W.digits }
        ensures small { IfSome result (λ value. value < 2 ^ W.digits) }
        ensures value { (c : octal.Code) (heaps : List ℕ) (reach : ℕ) → IsRightOf W.number W.digits c heaps reach self.now → AreLast c self.now.heap (map T.number last.now) → IsParted c mask heaps reach self.now.heap → IfSome result (λ value. value ≡ nim_value c self.now.heap) }
        ensures settled { (c : octal.Code) (heaps : List ℕ) (reach : ℕ) → IsRightOf W.number W.digits c heaps reach self.now → AreLast c self.now.heap (map T.number last.now) → IsParted c mask heaps reach self.now.heap → IfSome result (λ value. IsSettled c mask reach self.now.heap) }
    {
        settled_by(mask, self.heap, self.near_set(last))
    }

    // The set of the next heap: that of the block, and what near steps make besides.
    #[inline(always)]
    fn near_set<T: Cell>(&self, last: &[T]) -> W
        requires shaped { IsShapedOf W.digits self.now.reach (length last.now) self.now }
        requires low { (i : ℕ) → i < length last.now → slice_index (map T.number last.now) i < 2 ^ W.digits }
        ensures union { (c : octal.Code) (heaps : List ℕ) (reach : ℕ) → IsRightOf W.number W.digits c heaps reach self.now → AreLast c self.now.heap (map T.number last.now) → IsUnion (2 ^ W.digits) c self.now.heap self.now.plan (W.number result) }
    {
        let near = &self.plan.near;
        let mut set = self.block[self.heap - self.start];
        for at in 0..near.offsets.len() {
            let value = number_at(last, last.len() - near.offsets[at]);
            set = set.united(W::one(value ^ near.values[at]));
        }
        set
    }

    /// Goes on to the next heap, by the values of the last heaps, of which this one is the last. Takes no memory.
    #[inline(always)]
    pub(crate) fn push<T: Cell>(&mut self, last: &[T])
        requires shaped { IsShapedOf W.digits self.old.reach (length last.now) self.old }
        requires some { 0 < length last.now }
        requires low { (i : ℕ) → i < length last.now → slice_index (map T.number last.now) i < 2 ^ W.digits }
        requires limited { self.old.heap < 2 ^ 60 }
        ensures shaped { IsShapedOf W.digits self.old.reach (length last.now) self.new }
        ensures reach { self.new.reach ≡ self.old.reach }
        ensures heap { self.new.heap ≡ self.old.heap + 1 }
        ensures right { (c : octal.Code) (heaps : List ℕ) (reach : ℕ) → IsRightOf W.number W.digits c heaps reach self.old → AreLast c (self.old.heap + 1) (map T.number last.now) → IsRightOf W.number W.digits c heaps reach self.new }
    {
        self.add_pair(last);
        self.heap += 1;
        if self.heap == self.ready {
            if self.heap == self.start + BLOCK {
                self.fill();
            } else {
                self.add_low();
            }
        }
    }

    // Adds the word of the next heap. Where there is no room, the first words are forgotten, and those for twins.
    #[inline(always)]
    fn add_pair<T: Cell>(&mut self, last: &[T])
        requires words { self.old.plan.back + self.old.reach ≤ vec_len self.old.words }
        requires reach { self.old.reach < self.old.plan.back }
        requires twice { vec_len self.old.words ≤ 2 * self.old.plan.back }
        requires spare { 2 * self.old.plan.back ≤ vec_capacity self.old.words }
        requires high { self.old.plan.back < 2 ^ 62 }
        requires twins { self.old.plan.back + self.old.twins ≤ vec_len self.old.words }
        requires splits { (k : ℕ) → k < length self.old.splits.items → slice_index self.old.splits.items k < length last.now }
        requires some { 0 < length last.now }
        requires low { (i : ℕ) → i < length last.now → slice_index (map T.number last.now) i < 2 ^ W.digits }
        ensures same { self.new ≡ record self.old { words = self.new.words; twins = self.new.twins } }
        ensures least { self.old.plan.back + self.old.reach ≤ vec_len self.new.words }
        ensures most { vec_len self.new.words ≤ vec_len self.old.words + 1 }
        ensures twice { vec_len self.new.words ≤ 2 * self.old.plan.back }
        ensures room { vec_capacity self.new.words ≡ vec_capacity self.old.words }
        ensures made { self.old.plan.back + self.new.twins ≤ vec_len self.new.words }
        ensures pairs { (c : octal.Code) → vec_len self.old.words ≤ self.old.plan.back + self.old.heap → length last.now ≤ self.old.heap + 1 → AreSplits c self.old.splits.items → ArePairs c self.old.heap self.old.plan.back (map W.number self.old.words.items) → AreLast c (self.old.heap + 1) (map T.number last.now) → ArePairs c (self.old.heap + 1) self.old.plan.back (map W.number self.new.words.items) }
        ensures twins { (c : octal.Code) → vec_len self.old.words ≤ self.old.plan.back + self.old.heap → AreTwins c self.old.heap self.old.plan.back self.old.plan.apart self.old.twins (map W.number self.old.words.items) → AreTwins c (self.old.heap + 1) self.old.plan.back self.old.plan.apart self.new.twins (map W.number self.new.words.items) }
    {
        let back = self.plan.back;
        if self.words.len() == 2 * back {
            keep_last(&mut self.words, back, self.reach);
            self.twins = 0;
        }
        self.words
            .push_reserved(split_set(&self.splits, last, last.len() - 1));
    }

    // Makes the sets of the block that begins with the next heap, those of its first group with low steps too: once in a block, so it
    // stands apart from what is done for each heap.
    #[inline(never)]
    fn fill(&mut self)
        requires far { IsShapedFar (2 ^ W.digits) self.old.reach self.old.plan.back self.old.plan.apart self.old.plan.far }
        requires low { IsShapedSteps (2 ^ W.digits) LOW self.old.reach self.old.plan.low }
        requires reach { self.old.reach < self.old.plan.back }
        requires words { self.old.plan.back + self.old.reach ≤ vec_len self.old.words }
        requires twice { vec_len self.old.words ≤ 2 * self.old.plan.back }
        requires spare { 2 * self.old.plan.back ≤ vec_capacity self.old.words }
        requires twins { self.old.plan.back + self.old.twins ≤ vec_len self.old.words }
        requires behind { vec_len self.old.words ≤ self.old.plan.back + self.old.heap }
        requires block { vec_len self.old.block ≡ BLOCK }
        requires high { self.old.plan.back < 2 ^ 62 }
        requires limited { self.old.heap ≤ 2 ^ 60 }
        ensures same { self.new ≡ record self.old { words = self.new.words; twins = vec_len self.old.words - self.old.plan.back; start = self.old.heap; ready = self.old.heap + LOW; block = self.new.block } }
        ensures words { vec_len self.new.words ≡ vec_len self.old.words }
        ensures room { vec_capacity self.new.words ≡ vec_capacity self.old.words }
        ensures len { vec_len self.new.block ≡ BLOCK }
        ensures pairs { (c : octal.Code) → ArePairs c self.old.heap self.old.plan.back (map W.number self.old.words.items) → ArePairs c self.old.heap self.old.plan.back (map W.number self.new.words.items) }
        ensures twins { (c : octal.Code) → ArePairs c self.old.heap self.old.plan.back (map W.number self.old.words.items) → AreTwins c self.old.heap self.old.plan.back self.old.plan.apart self.old.twins (map W.number self.old.words.items) → AreTwins c self.old.heap self.old.plan.back self.old.plan.apart (vec_len self.old.words - self.old.plan.back) (map W.number self.new.words.items) }
        ensures block { (c : octal.Code) → ArePairs c self.old.heap self.old.plan.back (map W.number self.old.words.items) → AreTwins c self.old.heap self.old.plan.back self.old.plan.apart self.old.twins (map W.number self.old.words.items) → IsBlock W.digits c self.old.heap self.old.plan LOW (map W.number self.new.block.items) }
    {
        self.add_twins();
        self.add_far();
        self.add_low();
    }

    // Makes the words for twins that are not made yet.
    #[inline(always)]
    fn add_twins(&mut self)
        requires words { self.old.plan.back ≤ vec_len self.old.words }
        requires twice { vec_len self.old.words ≤ 2 * self.old.plan.back }
        requires high { self.old.plan.back < 2 ^ 62 }
        requires spare { 2 * self.old.plan.back ≤ vec_capacity self.old.words }
        requires twins { self.old.plan.back + self.old.twins ≤ vec_len self.old.words }
        requires behind { vec_len self.old.words ≤ self.old.plan.back + self.old.heap }
        ensures same { self.new ≡ record self.old { words = self.new.words; twins = vec_len self.old.words - self.old.plan.back } }
        ensures len { vec_len self.new.words ≡ vec_len self.old.words }
        ensures room { vec_capacity self.new.words ≡ vec_capacity self.old.words }
        ensures pairs { (c : octal.Code) → ArePairs c self.old.heap self.old.plan.back (map W.number self.old.words.items) → ArePairs c self.old.heap self.old.plan.back (map W.number self.new.words.items) }
        ensures made { (c : octal.Code) → ArePairs c self.old.heap self.old.plan.back (map W.number self.old.words.items) → AreTwins c self.old.heap self.old.plan.back self.old.plan.apart self.old.twins (map W.number self.old.words.items) → AreTwins c self.old.heap self.old.plan.back self.old.plan.apart (vec_len self.old.words - self.old.plan.back) (map W.number self.new.words.items) }
    {
        let back = self.plan.back;
        unite_twins(&mut self.words, back, self.plan.apart, self.twins);
        self.twins = self.words.len() - back;
    }

    // Makes the sets of the block that begins with the next heap, by far steps alone.
    #[inline(always)]
    fn add_far(&mut self)
        requires far { IsShapedFar (2 ^ W.digits) self.old.reach self.old.plan.back self.old.plan.apart self.old.plan.far }
        requires words { self.old.plan.back + self.old.reach ≤ vec_len self.old.words }
        requires twins { vec_len self.old.words ≤ self.old.plan.back + self.old.twins }
        requires behind { vec_len self.old.words ≤ self.old.plan.back + self.old.heap }
        requires block { vec_len self.old.block ≡ BLOCK }
        requires limited { self.old.heap ≤ 2 ^ 60 }
        requires high { self.old.plan.back < 2 ^ 62 }
        ensures same { self.new ≡ record self.old { start = self.old.heap; ready = self.old.heap; block = self.new.block } }
        ensures len { vec_len self.new.block ≡ BLOCK }
        ensures block { (c : octal.Code) → ArePairs c self.old.heap self.old.plan.back (map W.number self.old.words.items) → AreTwins c self.old.heap self.old.plan.back self.old.plan.apart self.old.twins (map W.number self.old.words.items) → IsBlock W.digits c self.old.heap self.old.plan 0 (map W.number self.new.block.items) }
    {
        self.start = self.heap;
        self.ready = self.heap;
        let block: &mut [W] = &mut self.block;
        clear(block);
        let far = &self.plan.far;
        unite_steps(
            block,
            &self.words,
            self.words.len(),
            &far.offsets,
            &far.values,
        );
    }

    // Adds what low steps make to the sets of the group of heaps of the block that begins with the next heap.
    #[inline(never)]
    fn add_low(&mut self)
        requires low { IsShapedSteps (2 ^ W.digits) LOW self.old.reach self.old.plan.low }
        requires reach { self.old.reach < self.old.plan.back }
        requires words { self.old.plan.back + self.old.reach ≤ vec_len self.old.words }
        requires behind { vec_len self.old.words ≤ self.old.plan.back + self.old.heap }
        requires block { vec_len self.old.block ≡ BLOCK }
        requires next { self.old.heap ≡ self.old.ready }
        requires started { self.old.start ≤ self.old.ready }
        requires room { self.old.ready + LOW ≤ self.old.start + BLOCK }
        requires limited { self.old.heap ≤ 2 ^ 60 }
        requires high { self.old.plan.back < 2 ^ 62 }
        ensures same { self.new ≡ record self.old { ready = self.old.ready + LOW; block = self.new.block } }
        ensures len { vec_len self.new.block ≡ BLOCK }
        ensures block { (c : octal.Code) → ArePairs c self.old.heap self.old.plan.back (map W.number self.old.words.items) → IsBlock W.digits c self.old.start self.old.plan (self.old.ready - self.old.start) (map W.number self.old.block.items) → IsBlock W.digits c self.old.start self.old.plan (self.old.ready + LOW - self.old.start) (map W.number self.new.block.items) }
    {
        let from = self.ready - self.start;
        let group = &mut self.block[from..from + LOW];
        let low = &self.plan.low;
        unite_steps(
            group,
            &self.words,
            self.words.len(),
            &low.offsets,
            &low.values,
        );
        self.ready += LOW;
    }
}

// Leaves each set of a block with no number.
fn clear<W: Word>(block: &mut [W])
    ensures len { length block.new ≡ length block.old }
    ensures none { (i : ℕ) → i < length block.old → slice_index (map W.number block.new) i ≡ 0 }
{
    for at in 0..block.len() {
        block[at] = W::empty();
    }
}
