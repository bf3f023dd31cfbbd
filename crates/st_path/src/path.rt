ghost use Rattle.std.specs.Prelude.{◌≡◌, ◌+◌, ◌%◌, ◌^◌, ◌<◌, ◌≤◌, ◌==◌, ◌||◌, nat_lt, max, length, IfOk, OnOk, IfSome, IsTrue, if◌then◌else◌};
ghost use Rattle.netlist.specs.Netlists.{IsNet};
ghost use Rattle.netlist.specs.Runs.{Always};
ghost use Rattle.net_parts.specs.Nets.{IsBit};
ghost use Rattle.stage_core.specs.Beats.{AreBeatNets};
ghost use Rattle.net_parts.specs.Growth.{GrowsBy, GrowsInMemory, StillWait, StillWaitForWrite, AddsNets};
ghost use Rattle.st_timing.specs.Ends.{declared};
ghost use Rattle.st_path.specs.Joining.{CanJoin};
ghost use Rattle.st_path.specs.Ends.{IsNetIf, AreSourceNets, IsNetWhere, ArePathNets};
ghost use Rattle.st_path.specs.Serving.{most_nets, most_memories, ServesInLonger, IgnoresReady};
ghost use Rattle.st_path.specs.Between.{most_delay_nets, beat_of, IsReadyOf, IsDelayEnough, ShowsUnreached};

use crate::ends::{PathNets, SourceNets};
use crate::stages::{Joint, emit_stages, filter_of};
use iface_roles::{SinkPort, SourcePort};
use net_parts::{fit_bits, level};
use netlist::{Builder, Net, NetFault, goes_on};
use stage_core::BeatNets;
use stream_machines::machines::tie_is_a_stage;
use stream_machines::stages::rank_keeps_awake;
use stream_runs::same_beginnings;

/// The beat of a source; `low` stands for each port that it doesn't have.
fn beat_of(from: &SourceNets, low: Net) -> BeatNets
    ensures { result ≡ beat_of from.now low }
{
    BeatNets {
        valid: from.valid,
        word: from.word,
        channel: from.channel.unwrap_or(low),
        error: from.error.unwrap_or(low),
        first: from.startofpacket.unwrap_or(low),
        last: from.endofpacket.unwrap_or(low),
        empty: from.empty.unwrap_or(low),
    }
}

/// The ready of a sink: always high where it has no such port.
#[tactic(auto, using(net_parts::specs::Laws::growing))]
fn ready_or_high(builder: &mut Builder, ready: Option<Net>) -> Result<Net, NetFault>
    requires port { IfSome ready (IsBit builder.old) }
    ensures net { IfOk result (λ net. IsBit builder.new net) }
    ensures ready { IfOk result (λ net. IsReadyOf builder.new ready net) }
    ensures adds { AddsNets 1 builder.old builder.new }
    ensures full { result ≡ Err NetFault.TooManyNets → 2 ^ 20 < length builder.old.lines + 1 }
{
    match ready {
        Some(net) => Ok(net),
        None => level(builder, true),
    }
}

/// Shows in one bit that a beat on a channel above the sink's is accepted; never where the source has none.
#[tactic(auto, using(net_parts::specs::Laws::growing))]
fn emit_dropped(
    builder: &mut Builder,
    source: &SourcePort,
    sink: &SinkPort,
    from: &BeatNets,
    ready: Net,
    low: Net,
) -> Result<Net, NetFault>
    requires joined { CanJoin (declared source.now) (declared sink.now) }
    requires from { AreBeatNets builder.old from.now }
    requires width { from.now.channel.width ≡ max source.now.channel_bits 1 }
    requires ready { IsBit builder.old ready }
    requires low { IsBit builder.old low }
    requires is_low { Always builder.old (λ cycle. cycle.net low.number ≡ 0) }
    ensures net { IfOk result (λ net. IsBit builder.new net) }
    ensures shows { IfOk result (λ net. ShowsUnreached (declared source.now) (declared sink.now) builder.new from.now ready net) }
    ensures adds { AddsNets (if nat_lt sink.now.max_channel source.now.max_channel then 4 else 0) builder.old builder.new }
    ensures full { result ≡ Err NetFault.TooManyNets → 2 ^ 20 < length builder.old.lines + 4 }
{
    if source.max_channel <= sink.max_channel {
        return Ok(low);
    }
    filter_of(source, sink).emit_dropped(builder, from.copied(), ready)
}

/// `empty` with the bits of the sink's port, cut or with zeros above it; as it is without that port.
#[tactic(auto, using(net_parts::specs::Laws::growing))]
fn fit_empty(builder: &mut Builder, empty: Net, bits: u8) -> Result<Net, NetFault>
    requires empty { IsNet builder.old empty }
    requires few { bits ≤ 8 }
    ensures net { IfOk result (λ net. IsNetWhere (nat_lt 0 bits) bits builder.new net) }
    ensures value { IfOk result (λ net. 0 < bits
        → Always builder.new (λ cycle. cycle.net net.number ≡ cycle.net empty.number % 2 ^ bits)) }
    ensures none { IfOk result (λ net. bits ≡ 0 → net ≡ empty) }
    ensures adds { AddsNets (if (bits == 0) || (empty.width == bits) then 0 else 2) builder.old builder.new }
    ensures full { result ≡ Err NetFault.TooManyNets → 2 ^ 20 < length builder.old.lines + 2 }
{
    if bits == 0 {
        return Ok(empty);
    }
    let width = builder.width(empty);
    fit_bits(builder, empty, width, bits)
}

/// The beat with an `empty` of the sink's bits.
#[tactic(auto, using(net_parts::specs::Laws::growing))]
fn fit_beat(builder: &mut Builder, beat: &BeatNets, bits: u8) -> Result<BeatNets, NetFault>
    requires empty { IsNet builder.old beat.now.empty }
    requires few { bits ≤ 8 }
    ensures others { IfOk result (λ fitted. fitted ≡ record beat.now { empty = fitted.empty }) }
    ensures net { IfOk result (λ fitted. IsNetWhere (nat_lt 0 bits) bits builder.new fitted.empty) }
    ensures value { IfOk result (λ fitted. 0 < bits
        → Always builder.new (λ cycle. cycle.net fitted.empty.number ≡ cycle.net beat.now.empty.number % 2 ^ bits)) }
    ensures none { IfOk result (λ fitted. bits ≡ 0 → fitted.empty ≡ beat.now.empty) }
    ensures adds { AddsNets (if (bits == 0) || (beat.now.empty.width == bits) then 0 else 2) builder.old builder.new }
    ensures full { result ≡ Err NetFault.TooManyNets → 2 ^ 20 < length builder.old.lines + 2 }
{
    let empty = fit_empty(builder, beat.empty, bits)?;
    Ok(BeatNets {
        empty,
        ..beat.copied()
    })
}

/// Makes what stands between a source and a sink, with a queue of so many beats before the sink.
/// `ready` is the net of the sink's port, None where it has none. After an error the builder is to be dropped.
#[tactic(auto, using(net_parts::specs::Laws::growing))]
pub fn emit_path(
    builder: &mut Builder,
    source: &SourcePort,
    sink: &SinkPort,
    depth: u8,
    from: &SourceNets,
    ready: Option<Net>,
) -> Result<PathNets, NetFault>
    requires joined { CanJoin (declared source.now) (declared sink.now) }
    requires shallow { depth ≤ 64 }
    requires from { AreSourceNets builder.old (declared source.now) from.now }
    requires ready { IsNetIf sink.now.ready 1 builder.old ready }
    ensures nets { IfOk result (λ made. ArePathNets builder.new (declared sink.now) made) }

    // In each run of each longer netlist, as long as the source is legal, the stream is served and never idles.
    ensures serves { IfOk result (λ made. ServesInLonger (declared source.now)
        (declared sink.now) depth from.now ready made builder.new) }

    // What the sink is shown doesn't depend on the ready of the same cycle.
    ensures ignores_ready { IfOk result (λ made. IgnoresReady from.now made builder.new) }
    ensures grows { GrowsInMemory most_nets most_memories builder.old builder.new }

    // Where a delay of ready is enough, nothing else is made.
    ensures few { IsDelayEnough (declared source.now) (declared sink.now) depth
        → GrowsBy (most_delay_nets + 2) builder.old builder.new }
    ensures waits { StillWait builder.old builder.new }
    ensures no_more_wait { OnOk result (StillWait builder.new builder.old) }
    ensures still_wait_for_write { OnOk result (StillWaitForWrite builder.old builder.new) }
    ensures no_more_write { OnOk result (StillWaitForWrite builder.new builder.old) }

    // With room for its memories. Memory may run out at any net.
    ensures full { length builder.old.memories + most_memories ≤ 2 ^ 16 → result ≡ Err NetFault.TooManyNets
        → 2 ^ 20 < length builder.old.lines + most_nets }
{
    goes_on();
    same_beginnings();
    tie_is_a_stage();
    rank_keeps_awake();
    let low = level(builder, false)?;
    let high = ready_or_high(builder, ready)?;
    let start = beat_of(from, low);
    let joint = Joint {
        source: *source,
        sink: *sink,
        depth,
    };
    let made = emit_stages(&joint, builder, start.copied(), high)?;
    let beat = fit_beat(builder, &made.beat, sink.empty_bits)?;
    let dropped = emit_dropped(builder, source, sink, &start, made.ready, low)?;
    builder.well_made();
    Ok(PathNets {
        ready: made.ready,
        beat,
        dropped,
    })
}
