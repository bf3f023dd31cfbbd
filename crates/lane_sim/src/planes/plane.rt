//! Eight 64-bit numbers side by side, and what is done with all of them at once.

ghost use Rattle.std.specs.Prelude.{◌≡◌, ℕ, ◌+◌, ◌-◌, ◌*◌, ◌/◌, ◌%◌, ◌^◌, ◌<◌, ◌≤◌, ◌↔◌, ◌==◌, nat_lt, IsTrue, bit_and, bit_or, bit_xor, if◌then◌else◌};
ghost use Rattle.lane_sim.specs.Planes.{AreLanes, lane};

use std::marker::Model;
use std::simd::prelude::*;

/// A 64-bit number in each of eight lanes.
#[derive(Clone, Copy)]
pub(crate) struct Plane(u64x8);

impl Model for Plane {
    ghost use Rattle.std.specs.Prelude.{ℕ, List};
    ghost use Rattle.lane_sim.specs.Planes.{AreLanes};

    ghost Value = { List ℕ };

    ghost view = { λ p. p.0 };

    ghost invariant = { λ p. AreLanes 64 p.0 };

    ghost inverse = { λ numbers. record { 0 = numbers } };
}

/// The greatest number of so many bits.
#[inline(always)]
fn greatest(bits: u8) -> u64
    requires some { 1 ≤ bits }
    requires small { bits ≤ 64 }
    ensures { result + 1 ≡ 2 ^ bits }
{
    u64::MAX >> (64 - bits)
}

impl Plane {
    /// One number in all lanes.
    #[inline(always)]
    pub(crate) fn splat(number: u64) -> Plane
        ensures { (j : ℕ) → j < 8 → lane result j ≡ number }
    {
        Plane(u64x8::splat(number))
    }

    /// The greatest number of so many bits in all lanes.
    #[inline(always)]
    pub(crate) fn full(bits: u8) -> Plane
        requires some { 1 ≤ bits }
        requires small { bits ≤ 64 }
        ensures { (j : ℕ) → j < 8 → lane result j + 1 ≡ 2 ^ bits }
    {
        Plane::splat(greatest(bits))
    }

    /// These numbers.
    #[inline(always)]
    pub(crate) fn from_array(numbers: [u64; 8]) -> Plane
        ensures { result ≡ numbers }
    {
        Plane(u64x8::from_array(numbers))
    }

    /// The number in a lane.
    #[inline(always)]
    pub(crate) fn at(self, number: u8) -> u64
        requires { number < 8 }
        ensures { result ≡ lane self number }
    {
        self.0[number as usize]
    }

    #[inline(always)]
    pub(crate) fn and(self, other: Plane) -> Plane
        ensures { (j : ℕ) → j < 8 → lane result j ≡ bit_and (lane self j) (lane other j) }
    {
        Plane(self.0 & other.0)
    }

    #[inline(always)]
    pub(crate) fn or(self, other: Plane) -> Plane
        ensures { (j : ℕ) → j < 8 → lane result j ≡ bit_or (lane self j) (lane other j) }
    {
        Plane(self.0 | other.0)
    }

    #[inline(always)]
    pub(crate) fn xor(self, other: Plane) -> Plane
        ensures { (j : ℕ) → j < 8 → lane result j ≡ bit_xor (lane self j) (lane other j) }
    {
        Plane(self.0 ^ other.0)
    }

    /// The sum in each lane, without the carry out of it.
    #[inline(always)]
    pub(crate) fn add(self, other: Plane) -> Plane
        ensures { (j : ℕ) → j < 8 → lane result j ≡ (lane self j + lane other j) % 2 ^ 64 }
    {
        Plane(self.0 + other.0)
    }

    /// The difference in each lane, modulo 2 to the 64.
    #[inline(always)]
    pub(crate) fn sub(self, other: Plane) -> Plane
        ensures { (j : ℕ) → j < 8 → lane result j ≡ (lane self j + (2 ^ 64 - lane other j)) % 2 ^ 64 }
    {
        Plane(self.0 - other.0)
    }

    /// 1 where the two are equal, else 0.
    #[inline(always)]
    pub(crate) fn equal(self, other: Plane) -> Plane
        ensures { (j : ℕ) → j < 8 → lane result j ≡ (if lane self j == lane other j then 1 else 0) }
    {
        Plane(
            self.0
                .simd_eq(other.0)
                .select(u64x8::splat(1), u64x8::splat(0)),
        )
    }

    /// 1 where this is the smaller, else 0.
    #[inline(always)]
    pub(crate) fn less(self, other: Plane) -> Plane
        ensures { (j : ℕ) → j < 8 → lane result j ≡ (if nat_lt (lane self j) (lane other j) then 1 else 0) }
    {
        Plane(
            self.0
                .simd_lt(other.0)
                .select(u64x8::splat(1), u64x8::splat(0)),
        )
    }

    /// `a` where this is not 0, else `b`.
    #[inline(always)]
    pub(crate) fn pick(self, a: Plane, b: Plane) -> Plane
        ensures { (j : ℕ) → j < 8 → lane result j ≡ (if lane self j == 0 then lane b j else lane a j) }
    {
        Plane(self.0.simd_eq(u64x8::splat(0)).select(b.0, a.0))
    }

    /// Each number times 2 to the `count`, without what goes past 64 bits.
    #[inline(always)]
    pub(crate) fn shift_left(self, count: u8) -> Plane
        requires { count < 64 }
        ensures { (j : ℕ) → j < 8 → lane result j ≡ lane self j * 2 ^ count % 2 ^ 64 }
    {
        Plane(self.0 << u64x8::splat(u64::from(count)))
    }

    /// Each number without its low bits.
    #[inline(always)]
    pub(crate) fn shift_right(self, count: u8) -> Plane
        requires { count < 64 }
        ensures { (j : ℕ) → j < 8 → lane result j ≡ lane self j / 2 ^ count }
    {
        Plane(self.0 >> u64x8::splat(u64::from(count)))
    }

    /// The low bits of each number.
    #[inline(always)]
    pub(crate) fn low_bits(self, bits: u8) -> Plane
        requires some { 1 ≤ bits }
        requires small { bits ≤ 64 }
        ensures { (j : ℕ) → j < 8 → lane result j ≡ lane self j % 2 ^ bits }
    {
        self.and(Plane::full(bits))
    }

    /// Whether the two have the same number in each lane.
    #[inline(always)]
    pub(crate) fn is_same(self, other: Plane) -> bool
        ensures { IsTrue result ↔ ((j : ℕ) → j < 8 → lane self j ≡ lane other j) }
    {
        self.0.simd_ne(other.0).to_bitmask() == 0
    }

    /// What a plane keeps.
    pub(crate) fn well_made(self)
        ensures { AreLanes 64 self }
    {
        let _ = self.0;
    }
}
