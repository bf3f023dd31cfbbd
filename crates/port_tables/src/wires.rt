//! Which streams are wires.

ghost use Rattle.std.specs.Prelude.{◌≡◌};
ghost use Rattle.st_timing.specs.Ends.{declared};
ghost use Rattle.port_tables.specs.Wires.{has_same_beats, has_plain_ready, is_wire_stream};

use iface_roles::{SinkPort, SourcePort};

fn has_same_beats(source: &SourcePort, sink: &SinkPort) -> bool
    ensures { result ≡ has_same_beats (declared source.now) (declared sink.now) }
{
    source.symbols == sink.symbols
        && source.symbol_bits == sink.symbol_bits
        && source.first_high == sink.first_high
        && source.channel_bits == sink.channel_bits
        && source.error_bits == sink.error_bits
        && source.packets == sink.packets
        && source.empty_bits == sink.empty_bits
}

/// Whether both ends have `ready`, with ready latency 0.
fn has_plain_ready(source: &SourcePort, sink: &SinkPort) -> bool
    ensures { result ≡ has_plain_ready (declared source.now) (declared sink.now) }
{
    source.ready && sink.ready && source.latency == 0 && sink.latency == 0
}

/// Whether nothing has to be cut, changed, delayed or kept between the ends.
pub fn is_wire_stream(source: &SourcePort, sink: &SinkPort, fifo: u8) -> bool
    ensures { result ≡ is_wire_stream (declared source.now) (declared sink.now) fifo }
{
    has_same_beats(source, sink)
        && source.max_channel <= sink.max_channel
        && has_plain_ready(source, sink)
        && fifo == 0
}
