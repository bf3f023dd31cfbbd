//! The empty symbols of each beat set to 0: a beat goes straight through, and no state is kept. It makes six nets for each symbol
//! and four more at most, and a beat passes in each cycle at any pace. Its law is that of `clear_is_a_stage`.

ghost use Rattle.std.specs.Prelude.{◌≡◌, ◌+◌, ◌*◌, ◌^◌, ◌<◌, ◌≤◌, nat_eq, nat_lt, if◌then◌else◌, length, IfOk};
ghost use Rattle.netlist.specs.Netlists.{IsNet};
ghost use Rattle.netlist.specs.Runs.{Always};
ghost use Rattle.net_parts.specs.Nets.{IsNetOfWidth};
ghost use Rattle.net_parts.specs.Growth.{AddsNets};
ghost use Rattle.st_format.specs.ClearNets.{IsClearShape, without_low, without_empty, ClearsBeat, clears_lasts};

use crate::counted::count_empty;
use item_queues::address_bits;
use net_parts::constant;
use netlist::{Builder, Net, NetFault};
use stage_core::pass::Nothing;
use stage_core::{BeatNets, Stage};
use stream_machines::machines::clear_is_a_stage;

/// A stage that clears what a packet's end leaves empty, between ends of any pace with the first symbol in the high-order bits.
#[derive(Clone, Copy)]
pub struct Clear {
    /// The symbols of a beat.
    pub symbols: u8,
    /// The bits of a symbol.
    pub bits: u8,
    pub ghost some: { 1 ≤ symbols },
    pub ghost some_bits: { 1 ≤ bits },
    pub ghost small: { bits * symbols ≤ 128 },
}

impl Clear {
    /// Of beats of so many symbols, each of so many bits.
    pub fn new(symbols: u8, bits: u8) -> Clear
        requires some { 1 ≤ symbols }
        requires some_bits { 1 ≤ bits }
        requires small { bits * symbols ≤ 128 }
        ensures symbols { result.symbols ≡ symbols }
        ensures bits { result.bits ≡ bits }
    {
        Clear { symbols, bits }
    }
}

/// The word with its lowest bits set to 0.
#[tactic(auto, using(net_parts::specs::Laws::growing))]
fn clear_low(builder: &mut Builder, word: Net, low: u8) -> Result<Net, NetFault>
    requires word { IsNet builder.old word }
    requires some { 1 ≤ low }
    requires inside { low ≤ word.width }
    requires small { word.width ≤ 128 }
    ensures net { IfOk result (λ high. IsNetOfWidth builder.new high word.width) }
    ensures value { IfOk result (λ high. Always builder.new (λ cycle. cycle.net high.number
        ≡ without_low low (cycle.net word.number))) }
    ensures adds { AddsNets 3 builder.old builder.new }
    ensures full { result ≡ Err NetFault.TooManyNets → 2 ^ 20 < length builder.old.lines + 3 }
{
    let width = builder.width(word);
    let zeros = constant(builder, low, 0)?;
    if low == width {
        return Ok(zeros);
    }
    let high = builder.slice(word, width - 1, low)?;
    builder.concat(high, zeros)
}

/// Whether this is the largest number of so many bits.
fn is_largest(number: u8, bits: u8) -> bool
    requires { number < 128 }
    ensures { result ≡ nat_eq (number + 1) (2 ^ bits) }
{
    bits < 8 && number + 1 == 1 << bits
}

/// The word with one more symbol cleared where more are empty. Where `empty` can't tell more, that is never.
#[tactic(auto, using(net_parts::specs::Laws::growing))]
fn clear_more(
    builder: &mut Builder,
    word: Net,
    cleared: Net,
    empty: Net,
    count: u8,
    bits: u8,
) -> Result<Net, NetFault>
    requires word { IsNet builder.old word }
    requires cleared { IsNetOfWidth builder.old cleared word.width }
    requires empty { IsNet builder.old empty }
    requires counts { count < 2 ^ empty.width }
    requires some_bits { 1 ≤ bits }
    requires inside { bits * count + bits ≤ word.width }
    requires small { word.width ≤ 128 }
    ensures net { IfOk result (λ more. IsNetOfWidth builder.new more word.width) }
    ensures value { IfOk result (λ more. Always builder.new (λ cycle. cycle.net more.number
        ≡ (if nat_lt count (cycle.net empty.number) then without_low (bits * count + bits) (cycle.net word.number)
        else cycle.net cleared.number))) }
    ensures adds { AddsNets 6 builder.old builder.new }
    ensures full { result ≡ Err NetFault.TooManyNets → 2 ^ 20 < length builder.old.lines + 6 }
{
    let width = builder.width(empty);
    if is_largest(count, width) {
        return Ok(cleared);
    }
    let number = constant(builder, width, count)?;
    let more = builder.less(number, empty)?;
    let shorter = clear_low(builder, word, bits * count + bits)?;
    builder.mux(more, shorter, cleared)
}

/// The word with its empty symbols cleared.
#[tactic(auto, using(net_parts::specs::Laws::growing))]
fn clear_symbols(
    builder: &mut Builder,
    word: Net,
    empty: Net,
    symbols: u8,
    bits: u8,
) -> Result<Net, NetFault>
    requires word { IsNetOfWidth builder.old word (bits * symbols) }
    requires empty { IsNet builder.old empty }
    requires counts { symbols ≤ 2 ^ empty.width }
    requires some_bits { 1 ≤ bits }
    requires small { bits * symbols ≤ 128 }
    ensures net { IfOk result (λ cleared. IsNetOfWidth builder.new cleared (bits * symbols)) }
    ensures value { IfOk result (λ cleared. Always builder.new (λ cycle. cycle.net cleared.number
        ≡ without_empty bits symbols (cycle.net empty.number) (cycle.net word.number))) }
    ensures adds { AddsNets (6 * symbols) builder.old builder.new }
    ensures full { result ≡ Err NetFault.TooManyNets → 2 ^ 20 < length builder.old.lines + 6 * symbols }
{
    let mut cleared = word;
    for count in 0..symbols {
        cleared = clear_more(builder, word, cleared, empty, count, bits)?;
    }
    Ok(cleared)
}

impl Stage for Clear {
    type Held = Nothing;

    ghost has_shape = { λ s shape. IsClearShape s.symbols s.bits shape };

    ghost passes_ready = { λ s shape. IsClearShape s.symbols s.bits shape };

    ghost shows_ready = { λ s. Unit {0} };

    ghost takes = { λ s widths. (widths.word ≡ s.bits * s.symbols) × (widths.empty ≤ 8) };

    ghost gives = { λ s widths. widths };

    ghost forward_nets = { λ s. 6 * s.symbols + 4 };

    ghost backward_nets = { λ s. 0 };

    ghost memories = { λ s. 0 };

    ghost owns = { λ kept n. ⊥ };

    ghost owns_memories = { λ kept m. ⊥ };

    ghost is_kept = { λ s kept netlist. Unit {0} };

    ghost forward_in = { λ s from to kept netlist. ClearsBeat s.symbols s.bits from to netlist };

    ghost backward_in = { λ s kept ready up netlist. up ≡ ready };

    #[tactic(auto, using(net_parts::specs::Laws::growing))]
    fn emit_forward(
        &self,
        builder: &mut Builder,
        from: BeatNets,
    ) -> Result<(BeatNets, Nothing), NetFault> {
        // Each count of symbols fits, and all that `empty` may show.
        let width = builder.width(from.empty).max(address_bits(self.symbols));
        let counted = count_empty(builder, &from, width)?;
        let word = clear_symbols(builder, from.word, counted.empty, self.symbols, self.bits)?;
        let to = BeatNets {
            word,
            ..from.copied()
        };
        Ok((to, Nothing))
    }

    fn emit_backward(
        &self,
        builder: &mut Builder,
        kept: Nothing,
        ready: Net,
    ) -> Result<Net, NetFault> {
        Ok(ready)
    }

    fn law(&self) {
        clear_is_a_stage();
    }

    ghost kept_lasts = { λ s kept old new h e w v. tt };

    ghost forward_lasts = { λ s from to kept old new h e. clears_lasts s.symbols s.bits from to old new h e };

    ghost backward_lasts = { λ s kept ready up old new h e. h };
}
