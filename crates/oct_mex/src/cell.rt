//! What holds a nim-value.

ghost use Rattle.std.specs.Prelude.{◌≡◌, ℕ, ◌+◌, ◌/◌, ◌^◌, ◌<◌, ◌≤◌, ◌↔◌, IsTrue, MatchOption, length, map, slice_index};
ghost use Rattle.oct_mex.specs.Marks.{AreNimSums, IsPairValue};
ghost use Rattle.oct_mex.specs.Periods.{StandsWithin};

use std::simd::prelude::*;

/// The exclusive ors of so many pairs of heaps are taken together.
pub const LANES: usize = 32;

/// A number of a few bits that holds a nim-value. The nim-values of most games fit 8 bits, which take a quarter of the
/// memory that 32 take, and are compared four times as fast. What is done with many pairs of heaps at a time stands here,
/// once for each width, since the vector types differ; all other functions over cells are the same for each.
pub trait Cell: Copy {
    /// The nim-value.
    ghost number: { Self → ℕ };

    /// The least nim-value that does not fit.
    ghost bound: { ℕ };

    /// The nim-value.
    fn number(self) -> usize
        ensures { result ≡ number self };

    /// What holds a nim-value, if it fits.
    fn from_number(value: usize) -> Option<Self>
        ensures { MatchOption result (bound ≤ value) (λ cell. (number cell ≡ value) × (value < 2 ^ 32)) };

    /// The nim-sums, which are the exclusive ors of the values, of `LANES` pairs of heaps. The two heaps of each pair have
    /// `rest` beans; the smaller ones are `from`, `from + 1`, ...
    fn nim_sums(values: &[Self], rest: usize, from: usize) -> [Self; LANES]
        requires some { 1 ≤ from }
        requires smaller { from + LANES ≤ rest / 2 + 1 }
        requires held { rest ≤ length values.now }
        ensures { AreNimSums (slice_index (map number values.now)) rest from LANES (slice_index (map number result)) };

    /// Whether one of these nim-sums is `value`.
    fn has_nim_sum(values: &[Self], rest: usize, from: usize, value: Self) -> bool
        requires some { 1 ≤ from }
        requires smaller { from + LANES ≤ rest / 2 + 1 }
        requires held { rest ≤ length values.now }
        ensures { IsTrue result ↔ IsPairValue (slice_index (map number values.now)) rest from (from + LANES) (number value) };

    /// Whether one of the `LANES` values from a place on is `value`.
    fn has_value(values: &[Self], from: usize, value: Self) -> bool
        requires { from + LANES ≤ length values.now }
        ensures { IsTrue result ↔ StandsWithin (map number values.now) from (from + LANES) (number value) };
}

impl Cell for u8 {
    ghost number = { λ x. x };

    ghost bound = { 2 ^ 8 };

    fn number(self) -> usize {
        usize::from(self)
    }

    fn from_number(value: usize) -> Option<u8> {
        u8::try_from(value).ok()
    }

    fn nim_sums(values: &[u8], rest: usize, from: usize) -> [u8; LANES] {
        let smaller = u8x32::from_slice(&values[from..]);
        let larger = u8x32::from_slice(&values[rest + 1 - LANES - from..]).reverse();
        (smaller ^ larger).to_array()
    }

    fn has_nim_sum(values: &[u8], rest: usize, from: usize, value: u8) -> bool {
        let smaller = u8x32::from_slice(&values[from..]);
        let larger = u8x32::from_slice(&values[rest + 1 - LANES - from..]).reverse();
        (smaller ^ larger).simd_eq(u8x32::splat(value)).any()
    }

    fn has_value(values: &[u8], from: usize, value: u8) -> bool {
        u8x32::from_slice(&values[from..])
            .simd_eq(u8x32::splat(value))
            .any()
    }
}

impl Cell for u16 {
    ghost number = { λ x. x };

    ghost bound = { 2 ^ 16 };

    fn number(self) -> usize {
        usize::from(self)
    }

    fn from_number(value: usize) -> Option<u16> {
        u16::try_from(value).ok()
    }

    fn nim_sums(values: &[u16], rest: usize, from: usize) -> [u16; LANES] {
        let smaller = u16x32::from_slice(&values[from..]);
        let larger = u16x32::from_slice(&values[rest + 1 - LANES - from..]).reverse();
        (smaller ^ larger).to_array()
    }

    fn has_nim_sum(values: &[u16], rest: usize, from: usize, value: u16) -> bool {
        let smaller = u16x32::from_slice(&values[from..]);
        let larger = u16x32::from_slice(&values[rest + 1 - LANES - from..]).reverse();
        (smaller ^ larger).simd_eq(u16x32::splat(value)).any()
    }

    fn has_value(values: &[u16], from: usize, value: u16) -> bool {
        u16x32::from_slice(&values[from..])
            .simd_eq(u16x32::splat(value))
            .any()
    }
}

impl Cell for u32 {
    ghost number = { λ x. x };

    ghost bound = { 2 ^ 32 };

    fn number(self) -> usize {
        self as usize
    }

    fn from_number(value: usize) -> Option<u32> {
        u32::try_from(value).ok()
    }

    fn nim_sums(values: &[u32], rest: usize, from: usize) -> [u32; LANES] {
        let smaller = u32x32::from_slice(&values[from..]);
        let larger = u32x32::from_slice(&values[rest + 1 - LANES - from..]).reverse();
        (smaller ^ larger).to_array()
    }

    fn has_nim_sum(values: &[u32], rest: usize, from: usize, value: u32) -> bool {
        let smaller = u32x32::from_slice(&values[from..]);
        let larger = u32x32::from_slice(&values[rest + 1 - LANES - from..]).reverse();
        (smaller ^ larger).simd_eq(u32x32::splat(value)).any()
    }

    fn has_value(values: &[u32], from: usize, value: u32) -> bool {
        u32x32::from_slice(&values[from..])
            .simd_eq(u32x32::splat(value))
            .any()
    }
}
