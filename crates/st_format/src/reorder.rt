//! The symbols of each beat in the other order: a beat goes straight through, and no state is kept. It makes two nets for each
//! symbol at most, and none for a single one; a beat passes in each cycle at any pace. Its law is that of `reorder_is_a_stage`.

ghost use Rattle.std.specs.Prelude.{◌≡◌, ◌*◌, ◌≤◌};
ghost use Rattle.st_format.specs.ReorderNets.{IsReorderShape, TurnsBeat, turns_lasts};

use crate::words::turn_symbols;
use netlist::{Builder, Net, NetFault};
use stage_core::pass::Nothing;
use stage_core::{BeatNets, Stage};
use stream_machines::machines::{reorder_is_a_stage, words_fit};

/// A stage that leads to the other order of symbols, between ends of any pace.
#[derive(Clone, Copy)]
pub struct Reorder {
    /// The symbols of a beat.
    pub symbols: u8,
    /// The bits of a symbol.
    pub bits: u8,
    pub ghost some: { 1 ≤ symbols },
    pub ghost some_bits: { 1 ≤ bits },
    pub ghost small: { bits * symbols ≤ 128 },
}

impl Reorder {
    /// Of beats of so many symbols, each of so many bits.
    pub fn new(symbols: u8, bits: u8) -> Reorder
        requires some { 1 ≤ symbols }
        requires some_bits { 1 ≤ bits }
        requires small { bits * symbols ≤ 128 }
        ensures symbols { result.symbols ≡ symbols }
        ensures bits { result.bits ≡ bits }
    {
        Reorder { symbols, bits }
    }
}

impl Stage for Reorder {
    type Held = Nothing;

    ghost has_shape = { λ s shape. IsReorderShape s.symbols s.bits shape };

    ghost passes_ready = { λ s shape. IsReorderShape s.symbols s.bits shape };

    ghost shows_ready = { λ s. Unit {0} };

    ghost takes = { λ s widths. widths.word ≡ s.bits * s.symbols };

    ghost gives = { λ s widths. widths };

    ghost forward_nets = { λ s. 2 * s.symbols };

    ghost backward_nets = { λ s. 0 };

    ghost memories = { λ s. 0 };

    ghost owns = { λ kept n. ⊥ };

    ghost owns_memories = { λ kept m. ⊥ };

    ghost is_kept = { λ s kept netlist. Unit {0} };

    ghost forward_in = { λ s from to kept netlist. TurnsBeat s.symbols s.bits from to netlist };

    ghost backward_in = { λ s kept ready up netlist. up ≡ ready };

    fn emit_forward(
        &self,
        builder: &mut Builder,
        from: BeatNets,
    ) -> Result<(BeatNets, Nothing), NetFault> {
        let word = turn_symbols(builder, from.word, self.symbols, self.bits)?;
        let to = BeatNets {
            word,
            ..from.copied()
        };
        Ok((to, Nothing))
    }

    fn emit_backward(
        &self,
        builder: &mut Builder,
        kept: Nothing,
        ready: Net,
    ) -> Result<Net, NetFault> {
        Ok(ready)
    }

    fn law(&self) {
        reorder_is_a_stage();
        words_fit();
    }

    ghost kept_lasts = { λ s kept old new h e w v. tt };

    ghost forward_lasts = { λ s from to kept old new h e. turns_lasts s.symbols s.bits from to old new h e };

    ghost backward_lasts = { λ s kept ready up old new h e. h };
}
