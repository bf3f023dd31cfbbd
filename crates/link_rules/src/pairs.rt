ghost use Rattle.std.specs.Prelude.{◌≡◌, ◌≤◌, ◌<◌, MatchOption};
ghost use Rattle.iface_roles.specs.Proper.{IsProper};
ghost use Rattle.link_rules.specs.Pairs.{
  mm_tests,
  stream_tests,
  is_multiple,
  loses_beats,
  joins_channels,
  is_too_long,
  is_late,
  is_odd,
  fails,
  KeepsAll,
  IsLeastFailing,
};

use iface_roles::{
    AgentPort, Finished, HostPort, SinkPort, SourcePort, StreamPort, proper_records_are_bounded,
};

/// Whether the rule of this number refuses the host and the agent.
fn breaks_mm(host: &HostPort, agent: &AgentPort, same_clock: bool, rule: u8) -> bool
    requires some { 1 ≤ rule }
    requires last { rule ≤ 9 }
    ensures { result ≡ fails (mm_tests host.now agent.now same_clock) rule }
{
    match rule {
        1 => !host.waitrequest,
        2 => host.allowance > 0 || agent.allowance > 0,
        3 => host.word_bytes < agent.word_bytes && !agent.enables,
        4 => host.write_response || agent.write_response,
        5 => !(host.reads && agent.reads || host.writes && agent.writes),
        6 => host.lock || agent.unsupported,
        7 => host.wraps || agent.wraps || agent.boundaries,
        8 => !same_clock,
        _ => agent.setup_hold,
    }
}

/// The least of the rules P1 to P9 that refuses the pair. `same_clock` says that neither end is on another clock than
/// the system's.
pub fn check_mm(host: &HostPort, agent: &AgentPort, same_clock: bool) -> Option<u8>
    requires host { IsProper (Finished.Host host.now) }
    requires agent { IsProper (Finished.Agent agent.now) }
    ensures { MatchOption result
        (KeepsAll (mm_tests host.now agent.now same_clock))
        (IsLeastFailing (mm_tests host.now agent.now same_clock)) }
{
    for rule in 1..10 {
        if breaks_mm(host, agent, same_clock, rule) {
            return Some(rule);
        }
    }
    None
}

fn is_multiple(m: u8, n: u8) -> bool
    requires { 1 ≤ n }
    ensures { result ≡ is_multiple m n }
{
    m % n == 0
}

fn is_too_long(source: &SourcePort, sink: &SinkPort) -> bool
    ensures { result ≡ is_too_long source.now sink.now }
{
    u32::from(source.symbols) * u32::from(source.symbol_bits) > 128
        || u32::from(sink.symbols) * u32::from(sink.symbol_bits) > 128
}

fn is_late(end: &StreamPort) -> bool
    ensures { result ≡ is_late end.now }
{
    end.ready_latency() > 8 || end.ready && end.allowance > 16
}

fn is_odd(end: &StreamPort) -> bool
    ensures { result ≡ is_odd end.now }
{
    if end.ready {
        end.allowance < end.latency || end.latency == 0 && end.allowance > 0
    } else {
        end.allowance != end.latency
    }
}

/// Whether the rule of this number refuses the source and the sink.
fn breaks_stream(source: &SourcePort, sink: &SinkPort, same_clock: bool, rule: u8) -> bool
    requires source { 1 ≤ source.now.symbols }
    requires sink { 1 ≤ sink.now.symbols }
    requires some { 1 ≤ rule }
    requires last { rule ≤ 9 }
    ensures { result ≡ fails (stream_tests source.now sink.now same_clock) rule }
{
    match rule {
        1 => source.symbol_bits != sink.symbol_bits,
        2 => source.packets != sink.packets,
        3 => !source.ready && (sink.ready || !is_multiple(sink.symbols, source.symbols)),
        4 => source.channel_bits > 0 && !is_multiple(source.symbols, sink.symbols),
        5 => source.error_bits > 0 && source.error_bits != sink.error_bits,
        6 => is_too_long(source, sink),
        7 => is_late(source) || is_late(sink),
        8 => !same_clock,
        _ => is_odd(source) || is_odd(sink),
    }
}

/// The least of the rules S1 to S9 that refuses the pair. `same_clock` says that neither end is on another clock than
/// the system's.
pub fn check_st(source: &SourcePort, sink: &SinkPort, same_clock: bool) -> Option<u8>
    requires source { IsProper (Finished.Source source.now) }
    requires sink { IsProper (Finished.Sink sink.now) }
    ensures { MatchOption result
        (KeepsAll (stream_tests source.now sink.now same_clock))
        (IsLeastFailing (stream_tests source.now sink.now same_clock)) }
{
    proper_records_are_bounded();
    for rule in 1..10 {
        if breaks_stream(source, sink, same_clock, rule) {
            return Some(rule);
        }
    }
    None
}
