//! A register on the path of a stream. A beat that it takes is shown from the next cycle on; it takes one while it is empty
//! or gives its own. Its state is one beat, which is its hold. Its law is that of `register_is_a_stage`.

ghost use Rattle.stage_core.specs.Groups.{IsOfBeat};
ghost use Rattle.stage_core.specs.RegisterNets.{IsBufferShape, RegisterKeeps, RegisterForward, RegisterBackward, keeps_lasts, forward_lasts, backward_lasts};

use crate::beat::BeatNets;
use crate::makers::{load_beat, reg_beat};
use crate::stage::Stage;
use net_parts::has_room;
use netlist::{Builder, Net, NetFault};
use stream_machines::machines::register_is_a_stage;

/// A stage of one beat, between ends of ready latency 0. It passes ready on within the cycle.
#[derive(Clone, Copy)]
pub struct PipeReg;

/// The registers, and the nets of the beat that they take.
#[derive(Clone, Copy)]
pub struct RegisterKept {
    pub registers: BeatNets,
    pub from: BeatNets,
}

impl Stage for PipeReg {
    type Held = RegisterKept;

    ghost has_shape = { λ s shape. IsBufferShape 1 shape };

    ghost passes_ready = { λ s shape. IsBufferShape 1 shape };

    ghost shows_ready = { λ s. ⊥ };

    ghost takes = { λ s widths. Unit {0} };

    ghost gives = { λ s widths. widths };

    ghost forward_nets = { λ s. 7 };

    ghost backward_nets = { λ s. 9 };

    ghost memories = { λ s. 0 };

    ghost owns = { λ kept n. IsOfBeat kept.registers n };

    ghost owns_memories = { λ kept m. ⊥ };

    ghost is_kept = { λ s kept netlist. RegisterKeeps kept netlist };

    ghost forward_in = { λ s from to kept netlist. RegisterForward from to kept netlist };

    ghost backward_in = { λ s kept ready up netlist. RegisterBackward kept ready up netlist };

    fn emit_forward(
        &self,
        builder: &mut Builder,
        from: BeatNets,
    ) -> Result<(BeatNets, RegisterKept), NetFault> {
        let registers = reg_beat(builder, &from)?;
        let to = registers.copied();
        Ok((to, RegisterKept { registers, from }))
    }

    #[tactic(auto, using(net_parts::specs::Laws::growing))]
    fn emit_backward(
        &self,
        builder: &mut Builder,
        kept: RegisterKept,
        ready: Net,
    ) -> Result<Net, NetFault> {
        let registers = &kept.registers;
        let room = has_room(builder, registers.valid, ready)?;
        load_beat(builder, registers, room, &kept.from)?;
        Ok(room)
    }

    fn law(&self) {
        register_is_a_stage();
    }

    ghost kept_lasts = { λ s kept old new h e w v. keeps_lasts kept old new h e w };

    ghost forward_lasts = { λ s from to kept old new h e. forward_lasts from to kept old new h e };

    ghost backward_lasts = { λ s kept ready up old new h e. backward_lasts kept ready up old new h e };
}
