//! What a host and an agent need between them.

ghost use Rattle.std.specs.Prelude.{◌≡◌};
ghost use Rattle.memory_runs.specs.Sides.{burst_width};
ghost use Rattle.mm_width.specs.Pairs.{MayMeet, needs_drop, keeps_beats, packs, selects, place_bits, bits_between, needs_cut, is_wire_pair, cutter_between};

use command_nets::lane_bits;
use iface_roles::{AgentPort, HostPort};
use mm_burst::Cutter;

/// Whether a beat may have no enabled lane that the agent, which lacks byte enables, can't see.
pub fn needs_drop(host: &HostPort, agent: &AgentPort) -> bool
    ensures { result ≡ needs_drop host.now agent.now }
{
    host.enables && !agent.enables
}

/// Whether each beat of the host is one of the agent.
fn keeps_beats(host: &HostPort, agent: &AgentPort) -> bool
    ensures { result ≡ keeps_beats host.now agent.now }
{
    host.word_bytes == agent.word_bytes && !needs_drop(host, agent)
}

/// Whether the host's read bursts are gathered from wide words.
pub fn packs(host: &HostPort, agent: &AgentPort) -> bool
    ensures { result ≡ packs host.now agent.now }
{
    host.word_bytes < agent.word_bytes && host.burst_bits > 1
}

/// Whether its narrow words are selected from wide ones.
pub fn selects(host: &HostPort, agent: &AgentPort) -> bool
    ensures { result ≡ selects host.now agent.now }
{
    host.word_bytes < agent.word_bytes && !packs(host, agent)
}

/// The bits of a narrow word's place in a wide one, where reads are gathered, and else 0.
fn place_bits(host: &HostPort, agent: &AgentPort) -> u8
    requires { MayMeet host.now agent.now }
    ensures { result ≡ place_bits host.now agent.now }
{
    if packs(host, agent) {
        lane_bits(agent.word_bytes) - lane_bits(host.word_bytes)
    } else {
        0
    }
}

/// The width of a burstcount, 1 where there is none.
fn burst_width(bits: u8) -> u8
    ensures { result ≡ burst_width bits }
{
    if bits == 0 { 1 } else { bits }
}

/// The bits of burstcount with which bursts may go on: the agent's, or where a beat may become none or many, or many one, that of
/// single beats.
fn bits_between(host: &HostPort, agent: &AgentPort) -> u8
    ensures { result ≡ bits_between host.now agent.now }
{
    if keeps_beats(host, agent) {
        burst_width(agent.burst_bits)
    } else {
        1
    }
}

/// Whether the host may have longer bursts than those.
pub fn needs_cut(host: &HostPort, agent: &AgentPort) -> bool
    ensures { result ≡ needs_cut host.now agent.now }
{
    bits_between(host, agent) < burst_width(host.burst_bits)
}

/// What cuts the host's bursts, where that is needed.
pub fn cutter_between(host: &HostPort, agent: &AgentPort) -> Cutter
    requires { MayMeet host.now agent.now }
    ensures { result ≡ cutter_between host.now agent.now }
{
    let place_bits = place_bits(host, agent);
    let below_bits = bits_between(host, agent) + place_bits;
    Cutter {
        word_bytes: host.word_bytes,
        count_bits: burst_width(host.burst_bits).max(below_bits),
        below_bits,
        place_bits,
    }
}

/// Whether nothing stands between a host and an agent.
pub fn is_wire_pair(host: &HostPort, agent: &AgentPort) -> bool
    ensures { result ≡ is_wire_pair host.now agent.now }
{
    keeps_beats(host, agent) && !needs_cut(host, agent)
}
