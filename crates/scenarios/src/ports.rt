//! How much the ports of interfaces have room for.

ghost use Rattle.std.specs.Prelude.{◌≡◌, ◌*◌, ◌^◌, ◌≤◌, ◌<◌, nat_lt};
ghost use Rattle.iface_roles.specs.Proper.{range_of, span_of, IsBoundedHost, IsBoundedAgent};
ghost use Rattle.scenario_tables.specs.Statements.{longest_of, all_lanes};

use iface_roles::{AgentPort, HostPort};

/// How many bytes a host's addresses reach.
pub(crate) fn range(host: &HostPort) -> u64
    requires { IsBoundedHost host.now }
    ensures value { result ≡ range_of host.now }
    ensures small { result ≤ 2 ^ 32 }
{
    let addresses = 2u64.pow(u32::from(host.address_bits));
    if host.byte_units {
        addresses
    } else {
        addresses * u64::from(host.word_bytes)
    }
}

/// How many bytes an agent's addresses reach.
pub(crate) fn span(agent: &AgentPort) -> u64
    requires { IsBoundedAgent agent.now }
    ensures value { result ≡ span_of agent.now }
    ensures small { result ≤ 2 ^ 32 }
{
    let addresses = 2u64.pow(u32::from(agent.address_bits));
    let word = u64::from(agent.word_bytes);
    if agent.byte_units {
        addresses.max(word)
    } else {
        addresses * word
    }
}

/// How many beats the longest burst of a host has.
pub(crate) fn longest(host: &HostPort) -> u16
    requires { IsBoundedHost host.now }
    ensures value { result ≡ longest_of host.now }
    ensures small { result ≤ 1024 }
{
    2u16.pow(u32::from(host.burst_bits.saturating_sub(1)))
}

/// All lanes of a host's words.
pub(crate) fn all_lanes(host: &HostPort) -> u16
    requires { IsBoundedHost host.now }
    ensures { result ≡ all_lanes host.now.word_bytes }
{
    (2u32.pow(u32::from(host.word_bytes)) - 1) as u16
}

/// Whether a value has no more than so many bits.
pub(crate) fn fits(value: u128, bits: u32) -> bool
    ensures { result ≡ nat_lt value (2 ^ bits) }
{
    128 <= bits || value < 2u128.pow(bits)
}
