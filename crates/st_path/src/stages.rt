//! The stages between a source and a sink, one behind the other, and the law of the whole. The chain is nested to the left up to
//! the queue: each step returns the chain with one more stage. What stands behind the queue holds nothing, so the queue shows
//! ready by what is on its way; the delay of ready stands last, since nothing may stand behind it.

ghost use Rattle.std.specs.Prelude.{◌≡◌, ◌+◌, ◌*◌, ◌^◌, ◌<◌, ◌≤◌, length, max, false, Option, IfOk, OnOk, IsTrue, if◌then◌else◌};
ghost use Rattle.stream_runs.specs.View.{Side};
ghost use Rattle.stream_runs.specs.Ends.{pace_of, side_of};
ghost use Rattle.stream_machines.specs.Wires.{wire_shape};
ghost use Rattle.stage_core.specs.Beats.{widths_of, AreBeatNets};
ghost use Rattle.net_parts.specs.Nets.{IsBit};
ghost use Rattle.net_parts.specs.Growth.{GrowsBy, GrowsInMemory, StillWait, StillWaitForWrite};
ghost use Rattle.st_channel.specs.FilterNets.{IsFilterShape};
ghost use Rattle.st_channel.specs.Ports.{HasChannels};
ghost use Rattle.st_timing.specs.Ends.{declared};
ghost use Rattle.st_path.specs.Joining.{HaveOneForm, CanJoin};
ghost use Rattle.st_path.specs.Between.{most_stage_nets, most_stage_memories, most_delay_nets, IsDelayEnough, joined_channel, joined_test, FitSide, AreStageNets, CarriesStream};
ghost use Rattle.st_path.specs.Parts.{source_of, sink_of, IsErrorTieOf, IsTurnBack, Reaches, ReachesBehind, timed_reach, errors_reach, formed_reach, rear_reach};

use iface_roles::{SinkPort, SourcePort};
use netlist::{Builder, Net, NetFault};
use st_channel::{ChannelFilter, ErrorTie};
use st_format::{Order, Reorder, Resize, format_of};
use st_timing::{ReadyDelay, Timing, timing_of};
use stage_core::{BeatNets, Chain, Fifo, Maybe, Stage, StreamNets, emit_stream, queue_is_between};
use stream_machines::machines::queue_takes_in;

/// What stands behind the queue.
type Rear = Chain<Maybe<Reorder>, ReadyDelay>;

/// A source, a sink, and the beats of the queue before the sink.
#[derive(Clone, Copy)]
pub(crate) struct Joint {
    pub source: SourcePort,
    pub sink: SinkPort,
    pub depth: u8,
}

/// Whether the beats have one form, and the sink takes each channel of the source.
fn has_one_form(source: &SourcePort, sink: &SinkPort) -> bool
    ensures form { IsTrue result → HaveOneForm (declared source.now) (declared sink.now) }
    ensures always { HaveOneForm (declared source.now) (declared sink.now) → IsTrue result }
{
    source.symbols == sink.symbols
        && source.symbol_bits == sink.symbol_bits
        && source.first_high == sink.first_high
        && source.channel_bits == sink.channel_bits
        && source.max_channel <= sink.max_channel
        && source.error_bits == sink.error_bits
        && source.packets == sink.packets
        && source.empty_bits == sink.empty_bits
}

/// Whether the source sends in ready cycles alone.
fn is_strict(source: &SourcePort) -> bool
    ensures strict { IsTrue result → (pace_of (declared source.now)).allowance ≡ (pace_of (declared source.now)).latency }
    ensures always { (pace_of (declared source.now)).allowance ≡ (pace_of (declared source.now)).latency → IsTrue result }
{
    !source.ready || source.allowance == source.latency
}

/// The filter on the channels that both ends have.
pub(crate) fn filter_of(source: &SourcePort, sink: &SinkPort) -> ChannelFilter
    requires source { HasChannels source.now.channel_bits source.now.max_channel }
    requires sink { HasChannels sink.now.channel_bits sink.now.max_channel }
    ensures latency { result.latency ≡ (pace_of (declared source.now)).latency }
    ensures source_bits { result.source.bits ≡ max source.now.channel_bits 1 }
    ensures source_largest { result.source.largest ≡ source.now.max_channel }
    ensures sink_bits { result.sink.bits ≡ max sink.now.channel_bits 1 }
    ensures sink_largest { result.sink.largest ≡ joined_channel (declared source.now) (declared sink.now) }
    ensures leads { (side : Side) → side.pace.latency ≡ (pace_of (declared source.now)).latency
        → side.max_channel ≤ source.now.max_channel → 0 < side.symbols
        → IsFilterShape result
        (wire_shape (joined_test (declared source.now) (declared sink.now)) side
        (record side { max_channel = joined_channel (declared source.now) (declared sink.now) }) side.pace.latency false) }
{
    let max_channel = source.max_channel.min(sink.max_channel);
    ChannelFilter::new(
        source,
        &SinkPort {
            max_channel,
            ..*sink
        },
    )
}

/// What ties the error of each beat, where the sink has an error port and the source none.
fn error_tie_of(source: &SourcePort, sink: &SinkPort) -> Maybe<ErrorTie>
    requires few { sink.now.error_bits ≤ 32 }
    ensures { IsErrorTieOf source.now.error_bits sink.now.error_bits result.stage }
{
    if source.error_bits > 0 || sink.error_bits == 0 {
        return Maybe { stage: None };
    }
    Maybe {
        stage: Some(ErrorTie::new(sink.error_bits)),
    }
}

/// What turns the symbols of each beat to the low-order bits, where the sink has the first there and the source, or what changed
/// the symbols of a beat, has not.
fn turn_back_of(source: &SourcePort, sink: &SinkPort) -> Maybe<Reorder>
    requires joined { CanJoin (declared source.now) (declared sink.now) }
    ensures { IsTurnBack (declared source.now) (declared sink.now) result.stage }
{
    if sink.first_high || !(source.first_high || source.symbols != sink.symbols) {
        return Maybe { stage: None };
    }
    Maybe {
        stage: Some(Reorder::new(sink.symbols, sink.symbol_bits as u8)),
    }
}

/// The filter on channels, and what leads to ready latency 0.
fn timed(joint: &Joint) -> Chain<ChannelFilter, Timing>
    requires { CanJoin (source_of joint.now) (sink_of joint.now) }
    ensures { let stage = ⟦<Chain<ChannelFilter, Timing> as Stage>⟧ in
        Reaches joint.now timed_reach (stage.has_shape result) (stage.passes_ready result) (stage.takes result) (stage.gives result) (stage.forward_nets result + stage.backward_nets result) (stage.memories result) }
{
    Chain {
        first: filter_of(&joint.source, &joint.sink),
        second: timing_of(&joint.source, &joint.sink),
    }
}

/// Adds the error where the source has none.
fn with_errors<S: Stage>(joint: &Joint, front: S) -> Chain<S, Maybe<ErrorTie>>
    requires joined { CanJoin (source_of joint.now) (sink_of joint.now) }
    requires front { Reaches joint.now timed_reach (S.has_shape front) (S.passes_ready front) (S.takes front) (S.gives front)
        (S.forward_nets front + S.backward_nets front) (S.memories front) }
    ensures { let stage = ⟦<Chain<S, Maybe<ErrorTie>> as Stage>⟧ in
        Reaches joint.now errors_reach (stage.has_shape result) (stage.passes_ready result) (stage.takes result) (stage.gives result) (stage.forward_nets result + stage.backward_nets result) (stage.memories result) }
{
    Chain {
        first: front,
        second: error_tie_of(&joint.source, &joint.sink),
    }
}

/// Adds what brings beats to the sink's symbols: what holds nothing first, so that it adds nothing to what stands behind it.
fn with_format<S: Stage>(joint: &Joint, front: S) -> Chain<Chain<S, Order>, Resize>
    requires joined { CanJoin (source_of joint.now) (sink_of joint.now) }
    requires front { Reaches joint.now errors_reach (S.has_shape front) (S.passes_ready front) (S.takes front) (S.gives front)
        (S.forward_nets front + S.backward_nets front) (S.memories front) }
    ensures { let stage = ⟦<Chain<Chain<S, Order>, Resize> as Stage>⟧ in
        Reaches joint.now formed_reach (stage.has_shape result) (stage.passes_ready result) (stage.takes result) (stage.gives result) (stage.forward_nets result + stage.backward_nets result) (stage.memories result) }
{
    let format = format_of(&joint.source, &joint.sink);
    Chain {
        first: Chain {
            first: front,
            second: format.first,
        },
        second: format.second,
    }
}

/// What leads from behind the queue to the sink: the turn to its order, and the delay of ready. It holds nothing.
fn rear_of(joint: &Joint) -> Rear
    requires { CanJoin (source_of joint.now) (sink_of joint.now) }
    ensures { let stage = ⟦<Rear as Stage>⟧ in
        ReachesBehind joint.now rear_reach (stage.has_shape result) (stage.passes_ready result) (stage.takes result) (stage.gives result) (stage.forward_nets result + stage.backward_nets result) (stage.memories result) }
{
    let delay = ReadyDelay::new(0, joint.sink.ready_latency());
    Chain {
        first: turn_back_of(&joint.source, &joint.sink),
        second: delay,
    }
}

/// Makes the queue and what stands behind it, and the stages before it too.
fn emit_formed<S: Stage + Drop>(
    joint: &Joint,
    front: S,
    builder: &mut Builder,
    from: BeatNets,
    ready: Net,
) -> Result<StreamNets, NetFault>
    requires joined { CanJoin (source_of joint.now) (sink_of joint.now) }
    requires shallow { joint.now.depth ≤ 64 }
    requires front { Reaches joint.now formed_reach (S.has_shape front) (S.passes_ready front) (S.takes front) (S.gives front)
        (S.forward_nets front + S.backward_nets front) (S.memories front) }
    requires widths { FitSide (side_of (source_of joint.now)) (source_of joint.now) (widths_of from) }
    requires from { AreBeatNets builder.old from }
    requires ready { IsBit builder.old ready }
    ensures nets { IfOk result (λ made. AreStageNets builder.new (source_of joint.now) (sink_of joint.now) made) }
    ensures carries { IfOk result (λ made. CarriesStream (source_of joint.now)
        (sink_of joint.now) joint.now.depth builder.new from made ready) }
    ensures grows { GrowsInMemory most_stage_nets most_stage_memories builder.old builder.new }
    ensures waits { StillWait builder.old builder.new }
    ensures no_more_wait { OnOk result (StillWait builder.new builder.old) }
    ensures still_wait_for_write { OnOk result (StillWaitForWrite builder.old builder.new) }
    ensures no_more_write { OnOk result (StillWaitForWrite builder.new builder.old) }
    ensures full { length builder.old.memories + most_stage_memories ≤ 2 ^ 16 → result ≡ Err NetFault.TooManyNets
        → 2 ^ 20 < length builder.old.lines + most_stage_nets }
{
    queue_takes_in();
    let queued = Chain {
        first: front,
        second: Fifo::new(joint.depth),
    };
    let stages = Chain {
        first: queued,
        second: rear_of(joint),
    };
    queue_is_between(&stages);
    emit_stream(&stages, builder, from, ready)
}

/// Makes all stages behind what adds the error, and that too.
fn emit_tied<S: Stage + Drop>(
    joint: &Joint,
    front: S,
    builder: &mut Builder,
    from: BeatNets,
    ready: Net,
) -> Result<StreamNets, NetFault>
    requires joined { CanJoin (source_of joint.now) (sink_of joint.now) }
    requires shallow { joint.now.depth ≤ 64 }
    requires front { Reaches joint.now errors_reach (S.has_shape front) (S.passes_ready front) (S.takes front) (S.gives front)
        (S.forward_nets front + S.backward_nets front) (S.memories front) }
    requires widths { FitSide (side_of (source_of joint.now)) (source_of joint.now) (widths_of from) }
    requires from { AreBeatNets builder.old from }
    requires ready { IsBit builder.old ready }
    ensures nets { IfOk result (λ made. AreStageNets builder.new (source_of joint.now) (sink_of joint.now) made) }
    ensures carries { IfOk result (λ made. CarriesStream (source_of joint.now)
        (sink_of joint.now) joint.now.depth builder.new from made ready) }
    ensures grows { GrowsInMemory most_stage_nets most_stage_memories builder.old builder.new }
    ensures waits { StillWait builder.old builder.new }
    ensures no_more_wait { OnOk result (StillWait builder.new builder.old) }
    ensures still_wait_for_write { OnOk result (StillWaitForWrite builder.old builder.new) }
    ensures no_more_write { OnOk result (StillWaitForWrite builder.new builder.old) }
    ensures full { length builder.old.memories + most_stage_memories ≤ 2 ^ 16 → result ≡ Err NetFault.TooManyNets
        → 2 ^ 20 < length builder.old.lines + most_stage_nets }
{
    let formed = with_format(joint, front);
    emit_formed(joint, formed, builder, from, ready)
}

/// Makes all stages, one behind the other.
fn emit_chain(
    joint: &Joint,
    builder: &mut Builder,
    from: BeatNets,
    ready: Net,
) -> Result<StreamNets, NetFault>
    requires joined { CanJoin (source_of joint.now) (sink_of joint.now) }
    requires shallow { joint.now.depth ≤ 64 }
    requires widths { FitSide (side_of (source_of joint.now)) (source_of joint.now) (widths_of from) }
    requires from { AreBeatNets builder.old from }
    requires ready { IsBit builder.old ready }
    ensures nets { IfOk result (λ made. AreStageNets builder.new (source_of joint.now) (sink_of joint.now) made) }
    ensures carries { IfOk result (λ made. CarriesStream (source_of joint.now)
        (sink_of joint.now) joint.now.depth builder.new from made ready) }
    ensures grows { GrowsInMemory most_stage_nets most_stage_memories builder.old builder.new }
    ensures waits { StillWait builder.old builder.new }
    ensures no_more_wait { OnOk result (StillWait builder.new builder.old) }
    ensures still_wait_for_write { OnOk result (StillWaitForWrite builder.old builder.new) }
    ensures no_more_write { OnOk result (StillWaitForWrite builder.new builder.old) }
    ensures full { length builder.old.memories + most_stage_memories ≤ 2 ^ 16 → result ≡ Err NetFault.TooManyNets
        → 2 ^ 20 < length builder.old.lines + most_stage_nets }
{
    let timed = timed(joint);
    let with_errors = with_errors(joint, timed);
    emit_tied(joint, with_errors, builder, from, ready)
}

/// Makes what stands between ends of one form of which the sink's ready latency isn't the shorter one, where the source sends in
/// ready cycles alone and no queue is needed: ready is delayed by the difference.
fn emit_delay(
    joint: &Joint,
    builder: &mut Builder,
    from: BeatNets,
    ready: Net,
) -> Result<StreamNets, NetFault>
    requires joined { CanJoin (source_of joint.now) (sink_of joint.now) }
    requires enough { IsDelayEnough (source_of joint.now) (sink_of joint.now) joint.now.depth }
    requires widths { FitSide (side_of (source_of joint.now)) (source_of joint.now) (widths_of from) }
    requires from { AreBeatNets builder.old from }
    requires ready { IsBit builder.old ready }
    ensures nets { IfOk result (λ made. AreStageNets builder.new (source_of joint.now) (sink_of joint.now) made) }
    ensures carries { IfOk result (λ made. CarriesStream (source_of joint.now)
        (sink_of joint.now) joint.now.depth builder.new from made ready) }
    ensures grows { GrowsBy most_delay_nets builder.old builder.new }
    ensures waits { StillWait builder.old builder.new }
    ensures no_more_wait { OnOk result (StillWait builder.new builder.old) }
    ensures still_wait_for_write { OnOk result (StillWaitForWrite builder.old builder.new) }
    ensures no_more_write { OnOk result (StillWaitForWrite builder.new builder.old) }
    ensures full { result ≡ Err NetFault.TooManyNets → 2 ^ 20 < length builder.old.lines + most_delay_nets }
    ensures same_widths { IfOk result (λ made. widths_of made.beat ≡ widths_of from) }
{
    let latency = joint.source.ready_latency();
    let cycles = joint.sink.ready_latency() - latency;
    builder.well_made();
    emit_stream(&ReadyDelay::new(latency, cycles), builder, from, ready)
}

/// Makes the stages between a source and a sink.
pub(crate) fn emit_stages(
    joint: &Joint,
    builder: &mut Builder,
    from: BeatNets,
    ready: Net,
) -> Result<StreamNets, NetFault>
    requires joined { CanJoin (source_of joint.now) (sink_of joint.now) }
    requires shallow { joint.now.depth ≤ 64 }
    requires widths { FitSide (side_of (source_of joint.now)) (source_of joint.now) (widths_of from) }
    requires from { AreBeatNets builder.old from }
    requires ready { IsBit builder.old ready }
    ensures nets { IfOk result (λ made. AreStageNets builder.new (source_of joint.now) (sink_of joint.now) made) }
    ensures carries { IfOk result (λ made. CarriesStream (source_of joint.now)
        (sink_of joint.now) joint.now.depth builder.new from made ready) }
    ensures grows { GrowsInMemory most_stage_nets most_stage_memories builder.old builder.new }
    ensures waits { StillWait builder.old builder.new }
    ensures no_more_wait { OnOk result (StillWait builder.new builder.old) }
    ensures still_wait_for_write { OnOk result (StillWaitForWrite builder.old builder.new) }
    ensures no_more_write { OnOk result (StillWaitForWrite builder.new builder.old) }
    ensures full { length builder.old.memories + most_stage_memories ≤ 2 ^ 16 → result ≡ Err NetFault.TooManyNets
        → 2 ^ 20 < length builder.old.lines + most_stage_nets }
    ensures few { IsDelayEnough (source_of joint.now) (sink_of joint.now) joint.now.depth
        → GrowsBy most_delay_nets builder.old builder.new }
    ensures same_widths { IsDelayEnough (source_of joint.now) (sink_of joint.now) joint.now.depth
        → IfOk result (λ made. widths_of made.beat ≡ widths_of from) }
{
    let one_form = has_one_form(&joint.source, &joint.sink);
    let strict = is_strict(&joint.source);
    let sooner = joint.source.ready_latency() <= joint.sink.ready_latency();
    if one_form && joint.sink.ready && joint.depth == 0 && strict && sooner {
        emit_delay(joint, builder, from, ready)
    } else {
        emit_chain(joint, builder, from, ready)
    }
}
