//! Values in eight lanes.

ghost use Rattle.std.specs.Prelude.{◌≡◌, ℕ, ◌+◌, ◌-◌, ◌*◌, ◌/◌, ◌%◌, ◌^◌, ◌<◌, ◌≤◌, ◌↔◌, IsTrue, slice_get, Some};
ghost use Rattle.av_base.specs.Word.{Word, IsWord, word, and_of, or_of, xor_of, add_of, sub_of, eq_of, less_of, not_of, any_of, slice_of, concat_of, mux_of};
ghost use Rattle.lane_sim.specs.Planes.{lane};
ghost use Rattle.lane_sim.specs.LaneWords.{LaneWord, IsLaneWord, InEach, value_at, word_in};

use crate::planes::plane::Plane;
use av_base::Val;
use std::marker::Model;

/// A value of 1 to 128 bits in each of eight lanes, all of one width. Where it is at most 64 bits, the low plane has them all.
#[derive(Clone, Copy)]
pub struct LaneVal {
    width: u8,
    low: Plane,
    high: Plane,
}

impl Model for LaneVal {
    ghost use Rattle.lane_sim.specs.LaneWords.{LaneWord, IsLaneWord};

    ghost Value = { LaneWord };

    ghost view = { λ v. record { width = v.width; low = v.low; high = v.high } };

    ghost invariant = { λ v. IsLaneWord (record { width = v.width; low = v.low; high = v.high }) };

    ghost inverse = { λ x. record { width = x.width; low = x.low; high = x.high } };
}

/// The low bits of what both planes hold.
#[inline(always)]
fn wide(width: u8, low: Plane, high: Plane) -> LaneVal
    requires wide { 64 < width }
    requires small { width ≤ 128 }
    ensures { InEach result (λ j. word width ((lane high j * 2 ^ 64 + lane low j) % 2 ^ width)) }
{
    low.well_made();
    let high = high.low_bits(width - 64);
    high.well_made();
    LaneVal { width, low, high }
}

/// The low bits of what the low plane holds.
#[inline(always)]
fn narrow(width: u8, low: Plane) -> LaneVal
    requires some_bit { 1 ≤ width }
    requires narrow { width ≤ 64 }
    ensures { InEach result (λ j. word width (lane low j % 2 ^ width)) }
{
    let low = low.low_bits(width);
    low.well_made();
    let high = Plane::splat(0);
    high.well_made();
    LaneVal { width, low, high }
}

/// The low 64 bits of a value.
fn low_half(value: Val) -> u64
    ensures half { result ≡ value.bits % 2 ^ 64 }
    ensures word { IsWord value.width value.bits }
{
    (value.bits() & u128::from(u64::MAX)) as u64
}

/// Those above them.
fn high_half(value: Val) -> u64
    ensures { result ≡ value.bits / 2 ^ 64 }
{
    (value.bits() >> 64) as u64
}

impl LaneVal {
    /// The width in bits.
    #[inline(always)]
    pub fn width(self) -> u8
        ensures value { result ≡ self.width }
        ensures word { IsLaneWord self }
    {
        self.width
    }

    /// The value in a lane.
    pub fn lane(self, lane: u8) -> Val
        requires { lane < 8 }
        ensures { result ≡ value_at self lane }
    {
        let bits = u128::from(self.high.at(lane)) << 64 | u128::from(self.low.at(lane));
        Val::new(self.width, bits).unwrap()
    }

    /// Whether each lane has the same number in both.
    #[inline(always)]
    pub fn is_same(self, other: LaneVal) -> bool
        ensures { IsTrue result ↔ ((j : ℕ) → j < 8 → (value_at self j).bits ≡ (value_at other j).bits) }
    {
        let same = self.low().is_same(other.low());
        if self.width() <= 64 && other.width() <= 64 {
            same
        } else {
            same && self.high().is_same(other.high())
        }
    }

    /// One value in all lanes.
    pub fn splat(value: Val) -> LaneVal
        ensures { InEach result (λ j. value) }
    {
        let low = Plane::splat(low_half(value));
        let high = Plane::splat(high_half(value));
        let width = value.width();
        if width <= 64 {
            narrow(width, low)
        } else {
            wide(width, low, high)
        }
    }

    /// These values, one for each lane.
    pub fn from(values: [Val; 8]) -> LaneVal
        requires { (j : ℕ) → j < 8 → (word_in values j).width ≡ (word_in values 0).width }
        ensures { InEach result (word_in values) }
    {
        let mut low = [0; 8];
        let mut high = [0; 8];
        for lane in 0..8 {
            low[lane] = low_half(values[lane]);
            high[lane] = high_half(values[lane]);
        }
        let width = values[0].width();
        if width <= 64 {
            narrow(width, Plane::from_array(low))
        } else {
            wide(width, Plane::from_array(low), Plane::from_array(high))
        }
    }

    /// The low 64 bits.
    #[inline(always)]
    fn low(self) -> Plane
        ensures lanes { (j : ℕ) → j < 8 → lane result j ≡ (value_at self j).bits % 2 ^ 64 }
        ensures word { IsLaneWord self }
    {
        self.low
    }

    /// The bits above them.
    #[inline(always)]
    fn high(self) -> Plane
        ensures { (j : ℕ) → j < 8 → lane result j ≡ (value_at self j).bits / 2 ^ 64 }
    {
        self.high
    }

    /// Bitwise and.
    #[inline(always)]
    pub fn and(self, other: LaneVal) -> LaneVal
        requires { self.width ≡ other.width }
        ensures { InEach result (λ j. and_of (value_at self j) (value_at other j)) }
    {
        let width = self.width();
        let low = self.low().and(other.low());
        if width <= 64 {
            narrow(width, low)
        } else {
            wide(width, low, self.high().and(other.high()))
        }
    }

    /// Bitwise or.
    #[inline(always)]
    pub fn or(self, other: LaneVal) -> LaneVal
        requires { self.width ≡ other.width }
        ensures { InEach result (λ j. or_of (value_at self j) (value_at other j)) }
    {
        let width = self.width();
        let low = self.low().or(other.low());
        if width <= 64 {
            narrow(width, low)
        } else {
            wide(width, low, self.high().or(other.high()))
        }
    }

    /// Bitwise exclusive or.
    #[inline(always)]
    pub fn xor(self, other: LaneVal) -> LaneVal
        requires { self.width ≡ other.width }
        ensures { InEach result (λ j. xor_of (value_at self j) (value_at other j)) }
    {
        let width = self.width();
        let low = self.low().xor(other.low());
        if width <= 64 {
            narrow(width, low)
        } else {
            wide(width, low, self.high().xor(other.high()))
        }
    }

    /// The sum, without the carry out of the top.
    #[inline(always)]
    pub fn add(self, other: LaneVal) -> LaneVal
        requires { self.width ≡ other.width }
        ensures { InEach result (λ j. add_of (value_at self j) (value_at other j)) }
    {
        let width = self.width();
        let low = self.low().add(other.low());
        if width <= 64 {
            narrow(width, low)
        } else {
            let carry = low.less(self.low());
            wide(width, low, self.high().add(other.high()).add(carry))
        }
    }

    /// The difference, modulo 2 to the width.
    #[inline(always)]
    pub fn sub(self, other: LaneVal) -> LaneVal
        requires { self.width ≡ other.width }
        ensures { InEach result (λ j. sub_of (value_at self j) (value_at other j)) }
    {
        let width = self.width();
        let low = self.low().sub(other.low());
        if width <= 64 {
            narrow(width, low)
        } else {
            let borrow = self.low().less(other.low());
            wide(width, low, self.high().sub(other.high()).sub(borrow))
        }
    }

    /// One bit: whether the two are equal.
    #[inline(always)]
    pub fn eq(self, other: LaneVal) -> LaneVal
        requires { self.width ≡ other.width }
        ensures { InEach result (λ j. eq_of (value_at self j) (value_at other j)) }
    {
        let low = self.low().equal(other.low());
        if self.width() <= 64 {
            narrow(1, low)
        } else {
            narrow(1, self.high().equal(other.high()).and(low))
        }
    }

    /// One bit: whether this is the smaller, both read without a sign.
    #[inline(always)]
    pub fn less(self, other: LaneVal) -> LaneVal
        requires { self.width ≡ other.width }
        ensures { InEach result (λ j. less_of (value_at self j) (value_at other j)) }
    {
        let low = self.low().less(other.low());
        if self.width() <= 64 {
            narrow(1, low)
        } else {
            let same = self.high().equal(other.high());
            narrow(1, self.high().less(other.high()).or(same.and(low)))
        }
    }

    /// Each bit turned.
    #[inline(always)]
    pub fn not(self) -> LaneVal
        ensures { InEach result (λ j. not_of (value_at self j)) }
    {
        let width = self.width();
        let low = Plane::full(64).sub(self.low());
        if width <= 64 {
            narrow(width, low)
        } else {
            wide(width, low, Plane::full(64).sub(self.high()))
        }
    }

    /// One bit: whether some bit is set.
    #[inline(always)]
    pub fn any(self) -> LaneVal
        ensures { InEach result (λ j. any_of (value_at self j)) }
    {
        if self.width() <= 64 {
            narrow(1, self.low().pick(Plane::splat(1), Plane::splat(0)))
        } else {
            let either = self.low().or(self.high());
            narrow(1, either.pick(Plane::splat(1), Plane::splat(0)))
        }
    }

    /// `a` where this bit is set, else `b`.
    #[inline(always)]
    pub fn mux(self, a: LaneVal, b: LaneVal) -> LaneVal
        requires one { self.width ≡ 1 }
        requires same { a.width ≡ b.width }
        ensures { InEach result (λ j. mux_of (value_at self j) (value_at a j) (value_at b j)) }
    {
        let width = a.width();
        let test = self.low();
        let low = test.pick(a.low(), b.low());
        if width <= 64 {
            narrow(width, low)
        } else {
            wide(width, low, test.pick(a.high(), b.high()))
        }
    }

    /// Both halves of what is left without so many low bits.
    #[inline(always)]
    fn without(self, count: u8) -> (Plane, Plane)
        requires { count < self.width }
        ensures low { (j : ℕ) → j < 8 → lane result.0 j ≡ (value_at self j).bits / 2 ^ count % 2 ^ 64 }
        ensures high { (j : ℕ) → j < 8 → lane result.1 j ≡ (value_at self j).bits / 2 ^ count / 2 ^ 64 }
    {
        if self.width() <= 64 {
            (self.low().shift_right(count), Plane::splat(0))
        } else if count == 0 {
            (self.low(), self.high())
        } else if count < 64 {
            let passed = self.high().shift_left(64 - count);
            (
                self.low().shift_right(count).or(passed),
                self.high().shift_right(count),
            )
        } else {
            (self.high().shift_right(count - 64), Plane::splat(0))
        }
    }

    /// The bits from `high` down to `low`.
    #[inline(always)]
    pub fn slice(self, high: u8, low: u8) -> LaneVal
        requires order { low ≤ high }
        requires inside { high < self.width }
        ensures { InEach result (λ j. slice_of (value_at self j) high low) }
    {
        let width = high - low + 1;
        let (below, above) = self.without(low);
        if width <= 64 {
            narrow(width, below)
        } else {
            wide(width, below, above)
        }
    }

    /// The bits of this above those of `low`.
    #[inline(always)]
    pub fn concat(self, low: LaneVal) -> LaneVal
        requires { self.width + low.width ≤ 128 }
        ensures { InEach result (λ j. concat_of (value_at self j) (value_at low j)) }
    {
        let count = low.width();
        let width = self.width() + count;
        if width <= 64 {
            narrow(width, self.low().shift_left(count).or(low.low()))
        } else if count < 64 {
            let passed = self.low().shift_right(64 - count);
            wide(
                width,
                self.low().shift_left(count).or(low.low()),
                self.high().shift_left(count).or(passed),
            )
        } else if count == 64 {
            wide(width, low.low(), self.low())
        } else {
            let raised = self.low().shift_left(count - 64);
            wide(width, low.low(), low.high().or(raised))
        }
    }
}
