//! The steps by which the sets of heaps are made.

ghost use Rattle.std.specs.Prelude.{◌≡◌, ◌+◌, ◌-◌, ◌^◌, ◌<◌, ◌≤◌, ◌⊎◌, ◌↔◌, ℕ, OnOk, IfOk, length};
ghost use Rattle.std.specs.List.{Contains};
ghost use Rattle.oct_code.specs.Code as octal;
ghost use Rattle.oct_code.specs.Code.{len};
ghost use Rattle.oct_sets.specs.Plans.{AddsSteps, HasStep, IsEndStep, IsHeapStep, IsPairStep, IsShapedPlan, IsSmallStep, IsWithin};
ghost use Rattle.oct_sets.specs.declared.sorted.SmallHeap.{SmallHeap};

use crate::sorted::SmallHeap;
use crate::steps::Steps;
use oct_code::Code;
use std::alloc::{AllocError, Allocator};

/// The sets of so many heaps are made at a time by far steps.
pub const BLOCK: usize = 64;

/// A block has groups of so many heaps. What low steps make is added to the sets of one group at a time.
pub const LOW: usize = 8;

/// Steps to the options by which heaps are settled.
#[derive(Drop)]
pub struct Plan<A: Allocator> {
    /// Those that leave a small heap as large as a block or larger: the offset is the heap alone, and the step stands for all
    /// moves that leave it. They serve a whole block at a time. A step for a heap and its twin, which has the same value, has an
    /// offset that is larger than the heap by `back`.
    pub far: Steps<A>,
    /// Those that leave a smaller heap, as large as a group or larger, in the same way. They serve a group at a time.
    pub low: Steps<A>,
    /// The others, heap after heap.
    pub near: Steps<A>,
    /// From this offset on, a far step is one for twins.
    pub back: usize,
    /// The twin of a heap has so many beans more.
    pub apart: usize,
}

impl<A: Allocator + Copy> Plan<A> {
    /// The steps to the options that leave one heap, beside one of 0 beans and its value, and to those that leave one of the
    /// heaps of a list, or its twin. No heap or twin is as large as `back`.
    pub(crate) fn of(
        alloc: A,
        code: &Code,
        none: usize,
        heaps: &[SmallHeap],
        back: usize,
        apart: usize,
    ) -> Result<Plan<A>, AllocError>
        requires none { none < 64 }
        requires each { (h : SmallHeap) → Contains heaps.now h → IsWithin 64 (back - 1) apart h }
        requires some { 1 ≤ back }
        requires limited { back < 2 ^ 62 }
        ensures back { IfOk result (λ plan. plan.back ≡ back) }
        ensures apart { IfOk result (λ plan. plan.apart ≡ apart) }
        ensures shaped { (limit reach : ℕ) → none < limit → reach < back → ((h : SmallHeap) → Contains heaps.now h → IsWithin limit reach apart h) → IfOk result (IsShapedPlan limit reach (reach + len code.now)) }
        ensures steps { IfOk result (λ plan. (d x : ℕ) → HasStep code.now plan d x ↔ (IsEndStep code.now none (len code.now + 1) d x ⊎ IsHeapStep code.now apart heaps.now (length heaps.now) d x)) }
    {
        let mut plan = Plan {
            far: Steps::new(alloc),
            low: Steps::new(alloc),
            near: Steps::new(alloc),
            back,
            apart,
        };
        plan.add_ends(code, none)?;
        plan.add_heaps(code, heaps)?;
        Ok(plan)
    }

    // Adds the steps to the options that leave one heap, beside one of 0 beans and this value.
    fn add_ends(&mut self, code: &Code, value: usize) -> Result<(), AllocError>
        ensures back { self.new.back ≡ self.old.back }
        ensures apart { self.new.apart ≡ self.old.apart }
        ensures shaped { (limit reach width : ℕ) → value < limit → IsShapedPlan limit reach width self.old → len code.now ≤ width → OnOk result (IsShapedPlan limit reach width self.new) }
        ensures adds { (limit reach width : ℕ) → value < limit → IsShapedPlan limit reach width self.old → len code.now ≤ width → OnOk result (AddsSteps code.now self.old self.new (IsEndStep code.now value (len code.now + 1))) }
    {
        for removed in 1..code.len() + 1 {
            if code.allows(removed, 1) {
                self.near.push(removed, value)?;
            }
        }
        Ok(())
    }

    // Adds the steps to the options that leave one of the heaps of a list, or its twin.
    fn add_heaps(&mut self, code: &Code, heaps: &[SmallHeap]) -> Result<(), AllocError>
        requires each { (h : SmallHeap) → Contains heaps.now h → IsWithin 64 (self.old.back - 1) self.old.apart h }
        requires limited { self.old.back < 2 ^ 62 }
        ensures back { self.new.back ≡ self.old.back }
        ensures apart { self.new.apart ≡ self.old.apart }
        ensures shaped { (limit reach : ℕ) → IsShapedPlan limit reach (reach + len code.now) self.old → ((h : SmallHeap) → Contains heaps.now h → IsWithin limit reach self.old.apart h) → OnOk result (IsShapedPlan limit reach (reach + len code.now) self.new) }
        ensures adds { (limit reach : ℕ) → IsShapedPlan limit reach (reach + len code.now) self.old → ((h : SmallHeap) → Contains heaps.now h → IsWithin limit reach self.old.apart h) → OnOk result (AddsSteps code.now self.old self.new (IsHeapStep code.now self.old.apart heaps.now (length heaps.now))) }
    {
        for heap in heaps {
            self.add_small(code, *heap)?;
        }
        Ok(())
    }

    // Adds the steps to the options that leave a heap of a list, or its twin.
    fn add_small(&mut self, code: &Code, heap: SmallHeap) -> Result<(), AllocError>
        requires within { IsWithin 64 (self.old.back - 1) self.old.apart heap }
        requires limited { self.old.back < 2 ^ 62 }
        ensures back { self.new.back ≡ self.old.back }
        ensures apart { self.new.apart ≡ self.old.apart }
        ensures shaped { (limit reach : ℕ) → IsShapedPlan limit reach (reach + len code.now) self.old → IsWithin limit reach self.old.apart heap → OnOk result (IsShapedPlan limit reach (reach + len code.now) self.new) }
        ensures adds { (limit reach : ℕ) → IsShapedPlan limit reach (reach + len code.now) self.old → IsWithin limit reach self.old.apart heap → OnOk result (AddsSteps code.now self.old self.new (IsSmallStep code.now self.old.apart heap)) }
    {
        if heap.twin {
            self.add_twins(heap.heap as usize, heap.value as usize)
        } else {
            self.add_heap(code, heap.heap as usize, heap.value as usize)
        }
    }

    // Adds the far step to the options that leave a heap of this size and value, or its twin.
    fn add_twins(&mut self, heap: usize, value: usize) -> Result<(), AllocError>
        requires limited { heap < 2 ^ 62 }
        requires back { self.old.back < 2 ^ 62 }
        ensures back { self.new.back ≡ self.old.back }
        ensures apart { self.new.apart ≡ self.old.apart }
        ensures shaped { (limit reach width : ℕ) → value < limit → IsShapedPlan limit reach width self.old → BLOCK ≤ heap → heap + self.old.apart ≤ reach → OnOk result (IsShapedPlan limit reach width self.new) }
        ensures adds { (c : octal.Code) (limit reach width : ℕ) → IsShapedPlan limit reach width self.old → OnOk result (AddsSteps c self.old self.new (λ d x. IsPairStep c heap value (octal.len c + 1) d x ⊎ IsPairStep c (heap + self.old.apart) value (octal.len c + 1) d x)) }
    {
        self.far.push(self.back + heap, value)
    }

    // Adds the steps to the options that leave a heap of this size and value: one far or low step for all of them, or near ones.
    fn add_heap(&mut self, code: &Code, heap: usize, value: usize) -> Result<(), AllocError>
        requires some { 1 ≤ heap }
        requires limited { heap < 2 ^ 62 }
        ensures back { self.new.back ≡ self.old.back }
        ensures apart { self.new.apart ≡ self.old.apart }
        ensures shaped { (limit reach : ℕ) → value < limit → IsShapedPlan limit reach (reach + len code.now) self.old → heap ≤ reach → OnOk result (IsShapedPlan limit reach (reach + len code.now) self.new) }
        ensures adds { (limit reach : ℕ) → value < limit → IsShapedPlan limit reach (reach + len code.now) self.old → heap ≤ reach → OnOk result (AddsSteps code.now self.old self.new (IsPairStep code.now heap value (len code.now + 1))) }
    {
        if heap < LOW {
            self.add_near(code, heap, value)
        } else if heap < BLOCK {
            self.low.push(heap, value)
        } else {
            self.far.push(heap, value)
        }
    }

    // Adds the near steps to the options that leave a heap of this size and value.
    fn add_near(&mut self, code: &Code, heap: usize, value: usize) -> Result<(), AllocError>
        requires some { 1 ≤ heap }
        requires limited { heap < 2 ^ 62 }
        ensures back { self.new.back ≡ self.old.back }
        ensures apart { self.new.apart ≡ self.old.apart }
        ensures shaped { (limit reach : ℕ) → value < limit → IsShapedPlan limit reach (reach + len code.now) self.old → heap ≤ reach → OnOk result (IsShapedPlan limit reach (reach + len code.now) self.new) }
        ensures adds { (limit reach : ℕ) → value < limit → IsShapedPlan limit reach (reach + len code.now) self.old → heap ≤ reach → OnOk result (AddsSteps code.now self.old self.new (IsPairStep code.now heap value (len code.now + 1))) }
    {
        for removed in 0..code.len() + 1 {
            if code.allows(removed, 2) {
                self.near.push(removed + heap, value)?;
            }
        }
        Ok(())
    }
}
