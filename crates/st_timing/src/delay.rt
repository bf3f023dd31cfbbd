//! A delay of ready: upstream shows the ready that downstream showed some cycles ago, and a beat goes straight through. At
//! ready latency 0 upstream it is shown only in ready cycles; a delay of no cycles is a wire. Its state is one register, it
//! holds no beat, and it makes five nets at most. Its law is that of `delay_is_a_stage`.

ghost use Rattle.std.specs.Prelude.{◌≡◌, ◌+◌, ◌≤◌};
ghost use Rattle.st_timing.specs.DelayNets.{IsDelayShape, delay_owns, DelayKeeps, DelayForward, DelayBackward, keeps_lasts, forward_lasts, backward_lasts};

use crate::transfer::transfers;
use net_parts::{bit_before, make_history, set_history};
use netlist::{Builder, Net, NetFault};
use stage_core::{BeatNets, Stage};
use stream_machines::machines::delay_is_a_stage;

/// A stage from a ready latency to a larger one, by a delay of ready.
#[derive(Clone, Copy)]
pub struct ReadyDelay {
    /// The ready latency upstream.
    pub up: u8,
    /// By how much the one downstream is larger.
    pub cycles: u8,
    pub ghost few: { up + cycles ≤ 8 },
}

impl ReadyDelay {
    /// A delay by so many cycles, behind a ready latency.
    pub fn new(up: u8, cycles: u8) -> ReadyDelay
        requires { up + cycles ≤ 8 }
        ensures up { result.up ≡ up }
        ensures cycles { result.cycles ≡ cycles }
    {
        ReadyDelay { up, cycles }
    }
}

/// What is kept of a delay.
#[derive(Clone, Copy)]
pub enum DelayKept {
    /// It is a wire.
    Wire,
    /// The register, and the ready that is shown upstream.
    Register { history: Net, ready: Net },
}

impl Stage for ReadyDelay {
    type Held = DelayKept;

    ghost has_shape = { λ s shape. IsDelayShape s.up s.cycles shape };

    ghost passes_ready = { λ s shape. IsDelayShape s.up s.cycles shape × (s.cycles ≡ 0) };

    ghost shows_ready = { λ s. s.cycles ≡ 0 };

    ghost takes = { λ s widths. Unit {0} };

    ghost gives = { λ s widths. widths };

    ghost forward_nets = { λ s. 3 };

    ghost backward_nets = { λ s. 2 };

    ghost memories = { λ s. 0 };

    ghost owns = { λ kept n. delay_owns kept n };

    ghost owns_memories = { λ kept m. ⊥ };

    ghost is_kept = { λ s kept netlist. DelayKeeps s.cycles kept netlist };

    ghost forward_in = { λ s from to kept netlist. DelayForward s.up s.cycles from to kept netlist };

    ghost backward_in = { λ s kept ready up netlist. DelayBackward s.cycles kept ready up netlist };

    #[tactic(auto, using(net_parts::specs::Laws::growing))]
    fn emit_forward(
        &self,
        builder: &mut Builder,
        from: BeatNets,
    ) -> Result<(BeatNets, DelayKept), NetFault> {
        if self.cycles == 0 {
            return Ok((from, DelayKept::Wire));
        }
        let history = make_history(builder, self.cycles)?;
        let ready = bit_before(builder, history, self.cycles)?;
        let valid = transfers(builder, self.up, from.valid, ready)?;
        let to = BeatNets {
            valid,
            ..from.copied()
        };
        Ok((to, DelayKept::Register { history, ready }))
    }

    #[tactic(auto, using(net_parts::specs::Laws::growing))]
    fn emit_backward(
        &self,
        builder: &mut Builder,
        kept: DelayKept,
        ready: Net,
    ) -> Result<Net, NetFault> {
        match kept {
            DelayKept::Wire => Ok(ready),
            DelayKept::Register {
                history,
                ready: shown,
            } => {
                set_history(builder, history, ready)?;
                Ok(shown)
            }
        }
    }

    fn law(&self) {
        delay_is_a_stage();
    }

    ghost kept_lasts = { λ s kept old new h e w v. keeps_lasts s.cycles kept old new h e w };

    ghost forward_lasts = { λ s from to kept old new h e. forward_lasts s.up s.cycles from to kept old new h e };

    ghost backward_lasts = { λ s kept ready up old new h e. backward_lasts s.cycles kept ready up old new h e };
}
