//! Where the words of an agent lie.

ghost use Rattle.std.specs.Prelude.{◌≡◌, ◌+◌, ◌*◌, ◌/◌, ◌%◌, ◌<◌, ◌≤◌, ◌^◌, ℕ};
ghost use Rattle.iface_roles.specs.Proper.{IsBoundedAgent, span_of};
ghost use Rattle.memory_runs.specs.Commands.{byte_address};
ghost use Rattle.memory_runs.specs.Sides.{agent_side};
ghost use Rattle.stand_ins.specs.Contents.{word_at};
ghost use Rattle.stand_ins.specs.Memory.{contents_of};

use crate::memory::Memory;
use iface_roles::AgentPort;

/// The bytes that an agent's addresses reach.
pub(crate) fn span(port: &AgentPort) -> u64
    requires { IsBoundedAgent port.now }
    ensures value { result ≡ span_of port.now }
{
    let reach = 1u64 << port.address_bits;
    let word_bytes = u64::from(port.word_bytes);
    if port.byte_units {
        reach.max(word_bytes)
    } else {
        reach * word_bytes
    }
}

/// An address in bytes, of a whole word.
pub(crate) fn byte_address(port: &AgentPort, address: u32) -> u64
    requires { IsBoundedAgent port.now }
    ensures value { result ≡ byte_address (agent_side port.now).shape address }
    ensures whole { result % port.now.word_bytes ≡ 0 }
    ensures few { result < 2 ^ 36 }
{
    let word_bytes = u64::from(port.word_bytes);
    let unit = if port.byte_units { 1 } else { word_bytes };
    let bytes = u64::from(address) * unit;
    bytes - bytes % word_bytes
}

/// The number of the word at a byte address, modulo the span.
pub(crate) fn word_number(port: &AgentPort, address: u64) -> u32
    requires bounded { IsBoundedAgent port.now }
    requires whole { address % port.now.word_bytes ≡ 0 }
    ensures number { result ≡ address % span_of port.now / port.now.word_bytes }
    ensures places { (lane : ℕ) → lane < port.now.word_bytes
        → (address + lane) % span_of port.now ≡ result * port.now.word_bytes + lane }
{
    ((address % span(port)) / u64::from(port.word_bytes)) as u32
}

/// The word at a byte address.
pub(crate) fn word_at(port: &AgentPort, memory: &Memory, address: u64) -> u128
    requires bounded { IsBoundedAgent port.now }
    requires whole { address % port.now.word_bytes ≡ 0 }
    requires bytes { memory.now.word_bytes ≡ port.now.word_bytes }
    ensures { result ≡ word_at (agent_side port.now) (contents_of memory.now) address }
{
    memory.word(word_number(port, address))
}
