//! The adapter of channels: it passes the beats whose channel the sink takes, and drops the others. It compares channels only
//! where one may come that the sink doesn't take, or that has more bits than the sink's; else a beat and ready go straight
//! through, and between ends of the same channels it makes no net. At ready latency 0 it shows ready also where it shows no beat.
//! It keeps no state, and makes eight nets at most, and four more for `dropped`. Its law is that of `filter_is_a_stage`.

ghost use Rattle.std.specs.Prelude.{◌≡◌, ◌+◌, ◌^◌, ◌<◌, ◌≤◌, ◌==◌, ◌||◌, ◌&&◌, not, max, nat_lt, length, false, if◌then◌else◌, IsTrue, IfOk};
ghost use Rattle.iface_roles.specs.Records.{ready_latency};
ghost use Rattle.netlist.specs.Runs.{Always};
ghost use Rattle.stream_runs.specs.View.{Side};
ghost use Rattle.stream_runs.specs.Delivery.{reaches};
ghost use Rattle.stream_machines.specs.Wires.{wire_shape, filtered_side};
ghost use Rattle.net_parts.specs.Nets.{IsNetOfWidth, IsBit};
ghost use Rattle.stage_core.specs.Beats.{AreBeatNets};
ghost use Rattle.net_parts.specs.Growth.{AddsNets};
ghost use Rattle.st_channel.specs.Ports.{HasChannels};
ghost use Rattle.st_channel.specs.FilterNets.{compares, lets_through, is_ready_wire, drops, takes_beat, shown_nets, forward_nets, backward_nets, dropped_nets, IsFilterShape, FilterForward, FilterBackward, forward_lasts, backward_lasts};
ghost use Rattle.net_parts.specs.Laws.{net_lasts};

use crate::channels::Channels;
use iface_roles::{SinkPort, SourcePort};
use net_parts::{fit_bits, is_above, level};
use netlist::{Builder, Net, NetFault};
use stage_core::{BeatNets, Stage};
use stream_machines::machines::filter_is_a_stage;
use stream_machines::stages::pass_is_a_stage;

/// A stage from the channels of a source to those of a sink, at any ready latency.
#[derive(Clone, Copy)]
pub struct ChannelFilter {
    /// The ready latency at both ends.
    pub latency: u8,
    pub source: Channels,
    pub sink: Channels,
}

impl ChannelFilter {
    /// The filter right behind a source, for a sink.
    pub fn new(source: &SourcePort, sink: &SinkPort) -> ChannelFilter
        requires source { HasChannels source.now.channel_bits source.now.max_channel }
        requires sink { HasChannels sink.now.channel_bits sink.now.max_channel }
        ensures latency { result.latency ≡ ready_latency source.now }
        ensures source_bits { result.source.bits ≡ max source.now.channel_bits 1 }
        ensures source_largest { result.source.largest ≡ source.now.max_channel }
        ensures sink_bits { result.sink.bits ≡ max sink.now.channel_bits 1 }
        ensures sink_largest { result.sink.largest ≡ sink.now.max_channel }

        // It leads from each side of such channels to the same with the sink's, and passes what that side takes.
        ensures leads { (side : Side) → side.pace.latency ≡ result.latency → side.max_channel ≤ source.now.max_channel
            → 0 < side.symbols
            → IsFilterShape result
            (wire_shape (reaches (filtered_side side sink.now.max_channel)) side
            (filtered_side side sink.now.max_channel) side.pace.latency false) }
    {
        ChannelFilter {
            latency: source.ready_latency(),
            source: Channels::new(source.channel_bits, source.max_channel),
            sink: Channels::new(sink.channel_bits, sink.max_channel),
        }
    }

    /// A channel may come that the sink doesn't take, or that has more bits than the sink's.
    fn compares(&self) -> bool
        ensures { result ≡ compares self.now }
    {
        self.source.largest > self.sink.largest || self.source.bits > self.sink.bits
    }

    /// `valid` downstream.
    #[tactic(auto, using(net_parts::specs::Laws::growing))]
    fn shown(&self, builder: &mut Builder, valid: Net, channel: Net) -> Result<Net, NetFault>
        requires valid { IsBit builder.old valid }
        requires channel { IsNetOfWidth builder.old channel self.now.source.bits }
        ensures net { IfOk result (λ shown. IsBit builder.new shown) }
        ensures value { IfOk result (λ shown. Always builder.new (λ cycle. cycle.net shown.number
            ≡ (if lets_through self.now (cycle.net channel.number) then cycle.net valid.number else 0))) }
        ensures adds { AddsNets (shown_nets self.now) builder.old builder.new }
        ensures full { result ≡ Err NetFault.TooManyNets → 2 ^ 20 < length builder.old.lines + shown_nets self.now }
    {
        if !self.compares() {
            return Ok(valid);
        }
        let above = is_above(builder, channel, self.source.bits, self.sink.largest)?;
        let within = builder.not(above)?;
        builder.and(valid, within)
    }

    /// Shows that a beat was dropped, one bit, from the upstream beat and the upstream ready of the filter.
    #[tactic(auto, using(net_parts::specs::Laws::growing))]
    pub fn emit_dropped(
        &self,
        builder: &mut Builder,
        from: BeatNets,
        ready: Net,
    ) -> Result<Net, NetFault>
        requires from { AreBeatNets builder.old from }
        requires widths { from.channel.width ≡ self.now.source.bits }
        requires ready { IsBit builder.old ready }
        ensures net { IfOk result (λ dropped. IsBit builder.new dropped) }
        ensures drops { IfOk result (λ dropped. Always builder.new (λ cycle. (cycle.net dropped.number == 1)
            ≡ drops self.now cycle from ready)) }

        // Where no channel above the source's largest is shown, these are the beats that the sink doesn't take.
        ensures legal { IfOk result (λ dropped. Always builder.new (λ cycle. (IsTrue (cycle.net from.valid.number == 1)
            → cycle.net from.channel.number ≤ self.now.source.largest)
            → (cycle.net dropped.number == 1)
            ≡ (takes_beat self.now cycle from ready && nat_lt self.now.sink.largest (cycle.net from.channel.number)))) }
        ensures adds { AddsNets (dropped_nets self.now) builder.old builder.new }

        // Memory may run out at any net.
        ensures full { result ≡ Err NetFault.TooManyNets → 2 ^ 20 < length builder.old.lines + dropped_nets self.now }
    {
        if !self.compares() {
            return level(builder, false);
        }
        let above = is_above(builder, from.channel, self.source.bits, self.sink.largest)?;
        let over = builder.and(from.valid, above)?;
        if self.latency > 0 {
            return Ok(over);
        }
        builder.and(over, ready)
    }
}

/// Ready, or no beat is shown.
#[tactic(auto, using(net_parts::specs::Laws::growing))]
fn ready_or_idle(builder: &mut Builder, ready: Net, shown: Net) -> Result<Net, NetFault>
    requires ready { IsBit builder.old ready }
    requires shown { IsBit builder.old shown }
    ensures net { IfOk result (λ up. IsBit builder.new up) }
    ensures value { IfOk result (λ up. Always builder.new (λ cycle. (cycle.net up.number == 1)
        ≡ ((cycle.net ready.number == 1) || not (cycle.net shown.number == 1)))) }
    ensures adds { AddsNets 2 builder.old builder.new }
    ensures full { result ≡ Err NetFault.TooManyNets → 2 ^ 20 < length builder.old.lines + 2 }
{
    let idle = builder.not(shown)?;
    builder.or(ready, idle)
}

/// What is kept of a filter.
#[derive(Clone, Copy)]
pub struct FilterKept {
    /// `valid` downstream.
    pub valid: Net,
}

impl Stage for ChannelFilter {
    type Held = FilterKept;

    ghost has_shape = { λ s shape. IsFilterShape s shape };

    ghost passes_ready = { λ s shape. IsFilterShape s shape };

    ghost shows_ready = { λ s. IsTrue (is_ready_wire s) };

    ghost takes = { λ s widths. widths.channel ≡ s.source.bits };

    ghost gives = { λ s widths. record widths { channel = s.sink.bits } };

    ghost forward_nets = { λ s. forward_nets s };

    ghost backward_nets = { λ s. backward_nets s };

    ghost memories = { λ s. 0 };

    ghost owns = { λ kept n. ⊥ };

    ghost owns_memories = { λ kept m. ⊥ };

    ghost is_kept = { λ s kept netlist. IsBit netlist kept.valid };

    ghost forward_in = { λ s from to kept netlist. FilterForward s from to kept netlist };

    ghost backward_in = { λ s kept ready up netlist. FilterBackward s kept ready up netlist };

    #[tactic(auto, using(net_parts::specs::Laws::growing))]
    fn emit_forward(
        &self,
        builder: &mut Builder,
        from: BeatNets,
    ) -> Result<(BeatNets, FilterKept), NetFault> {
        let channel = fit_bits(builder, from.channel, self.source.bits, self.sink.bits)?;
        let valid = self.shown(builder, from.valid, from.channel)?;
        let to = BeatNets {
            valid,
            channel,
            ..from.copied()
        };
        Ok((to, FilterKept { valid }))
    }

    #[tactic(auto, using(net_parts::specs::Laws::growing))]
    fn emit_backward(
        &self,
        builder: &mut Builder,
        kept: FilterKept,
        ready: Net,
    ) -> Result<Net, NetFault> {
        if self.latency > 0 || !self.compares() {
            return Ok(ready);
        }
        ready_or_idle(builder, ready, kept.valid)
    }

    fn law(&self) {
        filter_is_a_stage();
        pass_is_a_stage();
    }

    ghost kept_lasts = { λ s kept old new h e w v. net_lasts old new kept.valid 1 e h };

    ghost forward_lasts = { λ s from to kept old new h e. forward_lasts s from to kept old new h e };

    ghost backward_lasts = { λ s kept ready up old new h e. backward_lasts s kept ready up old new h e };
}
