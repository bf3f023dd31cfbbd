//! A whole stage between the nets of a source and those of a sink.

ghost use Rattle.std.specs.Prelude.{◌≡◌, ◌+◌, ◌^◌, ◌<◌, ◌≤◌, length, IfOk, OnOk};
ghost use Rattle.stream_machines.specs.Stage.{Shape};
ghost use Rattle.stage_core.specs.Beats.{widths_of, AreBeatNets};
ghost use Rattle.net_parts.specs.Nets.{IsBit};
ghost use Rattle.net_parts.specs.Growth.{StillWait, StillWaitForWrite};
ghost use Rattle.net_parts.specs.Memories.{ForwardGrows};
ghost use Rattle.stage_core.specs.Law.{Stands, KeepsInLonger, PassesInLonger, IgnoresInLonger};

use crate::beat::BeatNets;
use crate::stage::Stage;
use netlist::{Builder, Net, NetFault};

/// The nets that a stage gives.
#[derive(Clone, Copy)]
pub struct StreamNets {
    /// To the sink.
    pub beat: BeatNets,
    /// To the source, one bit.
    pub ready: Net,
}

/// Makes a stage from the beat of a source and the ready of a sink. After an error the builder is to be dropped.
#[tactic(auto, using(net_parts::specs::Laws::growing))]
pub fn emit_stream<S: Stage>(
    stage: &S,
    builder: &mut Builder,
    from: BeatNets,
    ready: Net,
) -> Result<StreamNets, NetFault>
    requires from { AreBeatNets builder.old from }
    requires widths { S.takes stage.now (widths_of from) }
    requires ready { IsBit builder.old ready }
    ensures beat { IfOk result (λ made. AreBeatNets builder.new made.beat) }
    ensures widths { IfOk result (λ made. widths_of made.beat ≡ S.gives stage.now (widths_of from)) }
    ensures ready { IfOk result (λ made. IsBit builder.new made.ready) }

    // What its two calls leave stands.
    ensures stands { IfOk result (λ made. Stands
        (S.forward_in stage.now from made.beat) (λ kept. S.backward_in stage.now kept ready made.ready) builder.new) }

    // In each endless run of each longer netlist the stage keeps its law,
    ensures keeps { IfOk result (λ made. (shape : Shape) → S.has_shape stage.now shape
        → KeepsInLonger shape builder.new from made.ready made.beat ready) }
    ensures passes { IfOk result (λ made. (shape : Shape) → S.passes_ready stage.now shape
        → PassesInLonger shape builder.new from made.ready made.beat ready) }

    // and its beat doesn't depend on the ready of the same cycle.
    ensures ignores_ready { IfOk result (λ made. IgnoresInLonger builder.new from made.beat) }
    ensures grows { ForwardGrows (S.memories stage.now)
        (S.forward_nets stage.now + S.backward_nets stage.now) builder.old builder.new }
    ensures waits { StillWait builder.old builder.new }
    ensures no_more_wait { OnOk result (StillWait builder.new builder.old) }
    ensures still_wait_for_write { OnOk result (StillWaitForWrite builder.old builder.new) }
    ensures no_more_write { OnOk result (StillWaitForWrite builder.new builder.old) }

    // With room for its memories. Memory may run out at any net.
    ensures full { length builder.old.memories + S.memories stage.now ≤ 2 ^ 16
        → result ≡ Err NetFault.TooManyNets
        → 2 ^ 20 < length builder.old.lines + (S.forward_nets stage.now + S.backward_nets stage.now) }
{
    stage.law();
    let (beat, kept) = stage.emit_forward(builder, from)?;
    builder.well_made();
    let ready = stage.emit_backward(builder, kept, ready)?;
    Ok(StreamNets { beat, ready })
}
