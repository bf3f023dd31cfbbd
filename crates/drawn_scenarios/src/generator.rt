//! The generator, and what is drawn from it.

ghost use Rattle.std.specs.Prelude.{◌≡◌, ◌+◌, ◌*◌, ◌^◌, ◌<◌, ◌≤◌, IfOk};
ghost use Rattle.drawn_scenarios.specs.Draws.{draw, word_of, stalls, pattern};

use av_base::{List, NoMemory};
use scenario_tables::Pattern;
use std::alloc::Global;
use std::marker::Model;

/// Draws numbers, each from the state that the one before left.
pub(crate) struct Generator {
    state: u64,
}

/// By hand, so that what drops one calls this, and isn't followed through its fields.
impl Drop for Generator {
    fn drop(self) {
        let Generator { state: _ } = self;
    }
}

impl Model for Generator {
    ghost use Rattle.std.specs.Prelude.{ℕ};

    ghost Value = { ℕ };

    ghost view = { λ g. g.state };
}

impl Generator {
    /// The generator of a lane, 0 to 7, of a number.
    pub(crate) fn of_lane(number: u32, lane: u8) -> Generator
        requires { lane < 8 }
        ensures { result ≡ 8 * number + lane }
    {
        Generator {
            state: 8 * u64::from(number) + u64::from(lane),
        }
    }

    /// A number below the bound.
    pub(crate) fn draw(&mut self, bound: u64) -> u64
        requires { 0 < bound }
        ensures drawn { (result, self.new) ≡ draw bound self.old }
        ensures small { result < bound }
    {
        self.state = 6_364_136_223_846_793_005u64
            .wrapping_mul(self.state)
            .wrapping_add(1_442_695_040_888_963_407);
        (self.state >> 33) % bound
    }

    /// A word of symbols of so many bits, each drawn below the bound. The first symbol has the highest-order bits, or the
    /// lowest.
    pub(crate) fn word(&mut self, first_high: bool, bits: u16, bound: u64, symbols: u8) -> u128
        requires some { 0 < bound }
        requires bits { bound ≤ 2 ^ bits }
        requires few { bits * symbols ≤ 128 }
        ensures drawn { (result, self.new) ≡ word_of first_high bits bound symbols self.old }
        ensures fits { result < 2 ^ (bits * symbols) }
    {
        let mut word = 0;
        'symbols: for k in 0..symbols {
            let place = if first_high { symbols - 1 - k } else { k };
            word += placed(self.draw(bound), bits, place);
        }
        word
    }

    /// Whether a cycle stalls: one in four does.
    fn stalls(&mut self) -> bool
        ensures { (result, self.new) ≡ stalls self.old }
    {
        self.draw(4) == 0
    }

    /// A pattern of 16 cycles.
    pub(crate) fn pattern(&mut self, alloc: Global) -> Result<Pattern, NoMemory>
        ensures { IfOk result (λ drawn. (drawn, self.new) ≡ pattern self.old) }
    {
        let mut stalls = List::new(alloc);
        'cycles: for _ in 0..16u8 {
            stalls.push(self.stalls())?;
        }
        Ok(Pattern { stalls })
    }
}

/// A symbol of so many bits at its place in a word.
fn placed(symbol: u64, bits: u16, place: u8) -> u128
    requires symbol { symbol < 2 ^ bits }
    requires within { bits * place + bits ≤ 128 }
    ensures { result ≡ symbol * 2 ^ (bits * place) }
{
    u128::from(symbol) << (u32::from(bits) * u32::from(place))
}
