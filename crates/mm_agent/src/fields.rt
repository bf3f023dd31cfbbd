//! The address that an agent gets, and nets in place of absent ports.

ghost use Rattle.std.specs.Prelude.{◌≡◌, true, false, ◌+◌, ◌*◌, ◌^◌, ◌<◌, ◌≤◌, ◌/◌, ◌%◌, length, IfOk, IfSome};
ghost use Rattle.iface_roles.specs.Proper.{IsBoundedAgent, span_of};
ghost use Rattle.netlist.specs.Netlists.{IsNet};
ghost use Rattle.netlist.specs.Runs.{Always};
ghost use Rattle.net_parts.specs.Nets.{IsNetOfWidth};
ghost use Rattle.net_parts.specs.Growth.{AddsNets};
ghost use Rattle.memory_runs.specs.Commands.{byte_address};
ghost use Rattle.command_nets.specs.Ports.{HasNet, value_or};
ghost use Rattle.mm_agent.specs.Agents.{has_address, shape_above, PlacesAddress};

use av_base::Val;
use command_nets::{lane_bits, raise};
use iface_roles::AgentPort;
use netlist::{Builder, Net, NetFault};

/// The net at a port, or one that is always low.
#[tactic(auto, using(net_parts::specs::Laws::growing))]
pub(crate) fn given_or_low(
    builder: &mut Builder,
    net: Option<Net>,
    bits: u8,
) -> Result<Net, NetFault>
    requires net { IfSome net (λ given. IsNetOfWidth builder.old given bits) }
    requires some { 1 ≤ bits }
    requires few { bits ≤ 128 }
    ensures net { IfOk result (λ made. IsNetOfWidth builder.new made bits) }
    ensures value { IfOk result (λ made. Always builder.new (λ cycle. cycle.net made.number ≡ value_or 0 net cycle)) }
    ensures adds { AddsNets 1 builder.old builder.new }
    ensures full { result ≡ Err NetFault.TooManyNets → 2 ^ 20 < length builder.old.lines + 1 }
{
    match net {
        Some(given) => Ok(given),
        None => builder.constant(Val::new(bits, 0).unwrap()),
    }
}

/// So many bits of the net above its lowest ones.
#[tactic(auto, using(net_parts::specs::Laws::growing))]
fn bits_above(builder: &mut Builder, net: Net, low: u8, bits: u8) -> Result<Net, NetFault>
    requires net { IsNet builder.old net }
    requires some { 1 ≤ bits }
    requires inside { low + bits ≤ net.width }
    requires few { low + bits ≤ 128 }
    ensures net { IfOk result (λ made. IsNetOfWidth builder.new made bits) }
    ensures value { IfOk result (λ made. Always builder.new (λ cycle. cycle.net made.number
        ≡ cycle.net net.number / 2 ^ low % 2 ^ bits)) }
    ensures adds { AddsNets 1 builder.old builder.new }
    ensures full { result ≡ Err NetFault.TooManyNets → 2 ^ 20 < length builder.old.lines + 1 }
{
    builder.slice(net, low + bits - 1, low)
}

/// The address in the span of an agent that counts bytes: that of a whole word.
#[tactic(auto, using(net_parts::specs::Laws::growing))]
fn place_byte(builder: &mut Builder, port: &AgentPort, address: Net) -> Result<Net, NetFault>
    requires port { IsBoundedAgent port.now }
    requires counts { port.now.byte_units ≡ true }
    requires some { 1 ≤ port.now.address_bits }
    requires address { IsNet builder.old address }
    requires reaches { span_of port.now ≤ 2 ^ address.width }
    ensures net { IfOk result (λ made. IsNetOfWidth builder.new made port.now.address_bits) }
    ensures value { IfOk result (λ made. Always builder.new (λ cycle. PlacesAddress port.now (cycle.net address.number)
        (cycle.net made.number))) }
    ensures adds { AddsNets 3 builder.old builder.new }
    ensures full { result ≡ Err NetFault.TooManyNets → 2 ^ 20 < length builder.old.lines + 3 }
{
    let low = lane_bits(port.word_bytes);
    if port.address_bits <= low {
        return builder.constant(Val::new(port.address_bits, 0).unwrap());
    }
    let high = builder.slice(address, port.address_bits - 1, low)?;
    raise(builder, high, low)
}

/// The address in the span of an agent that counts words.
#[tactic(auto, using(net_parts::specs::Laws::growing))]
fn place_word(builder: &mut Builder, port: &AgentPort, address: Net) -> Result<Net, NetFault>
    requires port { IsBoundedAgent port.now }
    requires counts { port.now.byte_units ≡ false }
    requires some { 1 ≤ port.now.address_bits }
    requires address { IsNet builder.old address }
    requires reaches { span_of port.now ≤ 2 ^ address.width }
    ensures net { IfOk result (λ made. IsNetOfWidth builder.new made port.now.address_bits) }
    ensures value { IfOk result (λ made. Always builder.new (λ cycle. PlacesAddress port.now (cycle.net address.number)
        (cycle.net made.number))) }
    ensures adds { AddsNets 1 builder.old builder.new }
    ensures full { result ≡ Err NetFault.TooManyNets → 2 ^ 20 < length builder.old.lines + 1 }
{
    let low = lane_bits(port.word_bytes);
    bits_above(builder, address, low, port.address_bits)
}

/// The address in the agent's span, in its unit, from one in bytes. Nothing is subtracted, since spans lie at multiples of
/// themselves.
pub(crate) fn place_address(
    builder: &mut Builder,
    port: &AgentPort,
    address: Net,
) -> Result<Option<Net>, NetFault>
    requires port { IsBoundedAgent port.now }
    requires address { IsNet builder.old address }
    requires reaches { span_of port.now ≤ 2 ^ address.width }
    ensures net { IfOk result (λ made. HasNet builder.new (has_address port.now) port.now.address_bits made) }
    ensures value { IfOk result (λ made. Always builder.new (λ cycle. PlacesAddress port.now (cycle.net address.number)
        (value_or 0 made cycle))) }
    ensures adds { AddsNets 3 builder.old builder.new }
    ensures full { result ≡ Err NetFault.TooManyNets → 2 ^ 20 < length builder.old.lines + 3 }
{
    if port.address_bits == 0 {
        return Ok(None);
    }
    let made = if port.byte_units {
        place_byte(builder, port, address)?
    } else {
        place_word(builder, port, address)?
    };
    Ok(Some(made))
}
