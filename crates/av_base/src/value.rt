ghost use Rattle.std.specs.Prelude.{◌≡◌, ◌+◌, ◌-◌, ◌^◌, ◌<◌, ◌≤◌, ◌↔◌, ◌%◌, ◌*◌, ◌/◌, IsSome, IfSome, if◌then◌else◌};
ghost use Rattle.av_base.specs.Word.{IsWord, word, and_of, or_of, xor_of, add_of, sub_of, eq_of, less_of, not_of, any_of, slice_of, concat_of, mux_of};

use std::marker::Model;

/// A value of 1 to 128 bits.
#[derive(Clone, Copy, Debug, PartialEq, Eq)]
pub struct Val {
    width: u64,
    bits: u128,
}

impl Model for Val {
    ghost use Rattle.av_base.specs.Word.{Word, IsWord, word};

    ghost Value = { Word };

    ghost view = { λ v. word v.width v.bits };

    ghost invariant = { λ v. IsWord v.width v.bits };

    ghost inverse = { λ w. record { width = w.width; bits = w.bits } };
}

/// The greatest number of `width` bits.
fn greatest(width: u8) -> u128
    requires some { 1 ≤ width }
    requires small { width ≤ 128 }
    ensures { result + 1 ≡ 2 ^ width }
{
    u128::MAX >> (128 - width)
}

/// 1 or 0.
fn bit(b: bool) -> u128
    ensures small { result < 2 }
    ensures value { result ≡ (if b then 1 else 0) }
{
    if b { 1 } else { 0 }
}

/// The sum of two numbers of `width` bits, where a carry out of the top is dropped.
fn wrapped_sum(width: u8, a: u128, b: u128) -> u128
    requires first { IsWord width a }
    requires second { IsWord width b }
    ensures { result ≡ (a + b) % 2 ^ width }
{
    let room = greatest(width) - a;
    if b <= room { a + b } else { b - room - 1 }
}

/// The difference of two numbers of `width` bits, with one more bit borrowed where it is needed.
fn wrapped_difference(width: u8, a: u128, b: u128) -> u128
    requires first { IsWord width a }
    requires second { IsWord width b }
    ensures { result ≡ (a + (2 ^ width - b)) % 2 ^ width }
{
    if b <= a {
        a - b
    } else {
        greatest(width) - (b - a - 1)
    }
}

/// The low `width` bits.
fn low_bits(n: u128, width: u8) -> u128
    requires some { 1 ≤ width }
    requires small { width ≤ 128 }
    ensures { result ≡ n % 2 ^ width }
{
    n & greatest(width)
}

/// The bits of `high` before the `width` bits of `low`.
fn joined(high_width: u8, high: u128, width: u8, low: u128) -> u128
    requires first { IsWord high_width high }
    requires second { IsWord width low }
    requires small { high_width + width ≤ 128 }
    ensures value { result ≡ high * 2 ^ width + low }
    ensures fits { IsWord (high_width + width) result }
{
    (high << width) | low
}

impl Val {
    pub fn new(width: u8, bits: u128) -> Option<Val>
        ensures some { IsSome result ↔ IsWord width bits }
        ensures value { IfSome result (λ v. v ≡ word width bits) }
    {
        if width < 1 || width > 128 {
            return None;
        }
        if bits > greatest(width) {
            return None;
        }
        Some(Val {
            width: u64::from(width),
            bits,
        })
    }

    pub fn width(self) -> u8
        ensures value { result ≡ self.width }
        ensures word { IsWord self.width self.bits }
    {
        self.width as u8
    }

    pub fn bits(self) -> u128
        ensures value { result ≡ self.bits }
        ensures word { IsWord self.width self.bits }
    {
        self.bits
    }

    /// Bitwise and.
    pub fn and(self, b: Val) -> Val
        requires { self.width ≡ b.width }
        ensures { result ≡ and_of self b }
    {
        Val {
            width: self.width,
            bits: self.bits & b.bits,
        }
    }

    /// Bitwise or.
    pub fn or(self, b: Val) -> Val
        requires { self.width ≡ b.width }
        ensures { result ≡ or_of self b }
    {
        Val {
            width: self.width,
            bits: self.bits | b.bits,
        }
    }

    /// Bitwise exclusive or.
    pub fn xor(self, b: Val) -> Val
        requires { self.width ≡ b.width }
        ensures { result ≡ xor_of self b }
    {
        Val {
            width: self.width,
            bits: self.bits ^ b.bits,
        }
    }

    /// The sum, without the carry out of the top.
    pub fn add(self, b: Val) -> Val
        requires { self.width ≡ b.width }
        ensures { result ≡ add_of self b }
    {
        Val {
            width: self.width,
            bits: wrapped_sum(self.width(), self.bits, b.bits),
        }
    }

    /// The difference, modulo 2 to the width.
    pub fn sub(self, b: Val) -> Val
        requires { self.width ≡ b.width }
        ensures { result ≡ sub_of self b }
    {
        Val {
            width: self.width,
            bits: wrapped_difference(self.width(), self.bits, b.bits),
        }
    }

    /// One bit: whether the two are equal.
    pub fn eq(self, b: Val) -> Val
        requires { self.width ≡ b.width }
        ensures { result ≡ eq_of self b }
    {
        Val {
            width: 1,
            bits: bit(self.bits == b.bits),
        }
    }

    /// One bit: whether this is the smaller, both read without a sign.
    pub fn less(self, b: Val) -> Val
        requires { self.width ≡ b.width }
        ensures { result ≡ less_of self b }
    {
        Val {
            width: 1,
            bits: bit(self.bits < b.bits),
        }
    }

    /// Each bit turned.
    pub fn not(self) -> Val
        ensures { result ≡ not_of self }
    {
        Val {
            width: self.width,
            bits: greatest(self.width()) - self.bits,
        }
    }

    /// One bit: whether some bit is set.
    pub fn any(self) -> Val
        ensures { result ≡ any_of self }
    {
        Val {
            width: 1,
            bits: bit(self.bits != 0),
        }
    }

    /// The bits from `high` down to `low`.
    pub fn slice(self, high: u8, low: u8) -> Val
        requires order { low ≤ high }
        requires inside { high < self.width }
        ensures { result ≡ slice_of self high low }
    {
        let width = high - low + 1;
        Val {
            width: u64::from(width),
            bits: low_bits(self.bits >> low, width),
        }
    }

    /// The bits of this above those of `low`.
    pub fn concat(self, low: Val) -> Val
        requires { self.width + low.width ≤ 128 }
        ensures { result ≡ concat_of self low }
    {
        Val {
            width: self.width + low.width,
            bits: joined(self.width(), self.bits, low.width(), low.bits),
        }
    }

    /// `a` where this bit is set, else `b`.
    pub fn mux(self, a: Val, b: Val) -> Val
        requires one { self.width ≡ 1 }
        requires same { a.width ≡ b.width }
        ensures { result ≡ mux_of self a b }
    {
        if self.bits == 0 { b } else { a }
    }
}
