//! The nets of a command that the host alone determines.

ghost use Rattle.std.specs.Prelude.{◌≡◌, ◌+◌, ◌-◌, ◌*◌, ◌/◌, ◌%◌, ◌^◌, ◌<◌, ◌≤◌, length, IfOk, IfSome};
ghost use Rattle.iface_roles.specs.Proper.{IsBoundedHost, range_of};
ghost use Rattle.netlist.specs.Netlists.{IsNet};
ghost use Rattle.netlist.specs.Runs.{Always};
ghost use Rattle.net_parts.specs.Nets.{IsNetOfWidth};
ghost use Rattle.net_parts.specs.Growth.{AddsNets};
ghost use Rattle.memory_runs.specs.Commands.{byte_address};
ghost use Rattle.memory_runs.specs.Sides.{host_side, burst_width};
ghost use Rattle.command_nets.specs.Ports.{value_or, all_ones};
ghost use Rattle.mm_host.specs.Hosts.{AreHostNets, AreFields, ShowFields};

use crate::nets::HostNets;
use av_base::Val;
use command_nets::{lane_bits, raise, word_bits};
use iface_roles::HostPort;
use netlist::{Builder, Net, NetFault};

/// The nets of a command but for `more`; `read` is the host's own.
#[derive(Clone, Copy)]
pub struct Fields {
    /// One bit.
    pub read: Net,
    /// One bit.
    pub write: Net,
    /// In bytes.
    pub address: Net,
    pub word: Net,
    pub enables: Net,
    pub count: Net,
    /// One bit, always low.
    pub tag: Net,
}

/// As many ones.
pub(crate) fn ones(bits: u8) -> u128
    requires { bits ≤ 16 }
    ensures { result ≡ all_ones bits }
{
    (1 << bits) - 1
}

/// The bits of `count`: one where the host has no bursts.
pub(crate) fn count_bits(port: &HostPort) -> u8
    requires { IsBoundedHost port.now }
    ensures bits { result ≡ burst_width port.now.burst_bits }
    ensures some { 1 ≤ result }
    ensures few { result ≤ 11 }
{
    if port.burst_bits == 0 {
        1
    } else {
        port.burst_bits
    }
}

/// The net at a port, or one that always has this value.
#[tactic(auto, using(net_parts::specs::Laws::growing))]
pub(crate) fn given_or(
    builder: &mut Builder,
    net: Option<Net>,
    bits: u8,
    value: u128,
) -> Result<Net, NetFault>
    requires net { IfSome net (λ given. IsNetOfWidth builder.old given bits) }
    requires some { 1 ≤ bits }
    requires few { bits ≤ 128 }
    requires fits { value < 2 ^ bits }
    ensures net { IfOk result (λ made. IsNetOfWidth builder.new made bits) }
    ensures value { IfOk result (λ made. Always builder.new (λ cycle. cycle.net made.number ≡ value_or value net cycle)) }
    ensures adds { AddsNets 1 builder.old builder.new }
    ensures full { result ≡ Err NetFault.TooManyNets → 2 ^ 20 < length builder.old.lines + 1 }
{
    match net {
        Some(given) => Ok(given),
        None => builder.constant(Val::new(bits, value).unwrap()),
    }
}

/// The net with so many of its lowest bits low.
#[tactic(auto, using(net_parts::specs::Laws::growing))]
pub(crate) fn align(builder: &mut Builder, net: Net, bits: u8, low: u8) -> Result<Net, NetFault>
    requires net { IsNetOfWidth builder.old net bits }
    requires some { 1 ≤ bits }
    requires few { bits ≤ 128 }
    ensures net { IfOk result (λ made. IsNetOfWidth builder.new made bits) }
    ensures value { IfOk result (λ made. Always builder.new (λ cycle. cycle.net made.number
        ≡ cycle.net net.number - cycle.net net.number % 2 ^ low)) }
    ensures adds { AddsNets 3 builder.old builder.new }
    ensures full { result ≡ Err NetFault.TooManyNets → 2 ^ 20 < length builder.old.lines + 3 }
{
    if bits <= low {
        return builder.constant(Val::new(bits, 0).unwrap());
    }
    let high = builder.slice(net, bits - 1, low)?;
    raise(builder, high, low)
}

/// The byte address of the word that a host's address names.
#[tactic(auto, using(net_parts::specs::Laws::growing))]
pub(crate) fn in_bytes(
    builder: &mut Builder,
    port: &HostPort,
    address: Net,
) -> Result<Net, NetFault>
    requires port { IsBoundedHost port.now }
    requires address { IsNetOfWidth builder.old address port.now.address_bits }
    ensures net { IfOk result (λ made. IsNet builder.new made) }
    ensures reaches { IfOk result (λ made. 2 ^ made.width ≡ range_of port.now) }
    ensures value { IfOk result (λ made. Always builder.new (λ cycle. cycle.net made.number
        ≡ byte_address (host_side port.now).shape (cycle.net address.number))) }
    ensures adds { AddsNets 3 builder.old builder.new }
    ensures full { result ≡ Err NetFault.TooManyNets → 2 ^ 20 < length builder.old.lines + 3 }
{
    let low = lane_bits(port.word_bytes);
    if port.byte_units {
        align(builder, address, port.address_bits, low)
    } else {
        raise(builder, address, low)
    }
}

/// The byte enables of a host: all ones where it has none.
#[tactic(auto, using(net_parts::specs::Laws::growing))]
fn given_enables(builder: &mut Builder, port: &HostPort, nets: &HostNets) -> Result<Net, NetFault>
    requires port { IsBoundedHost port.now }
    requires nets { IfSome nets.now.byteenable (λ given. IsNetOfWidth builder.old given port.now.word_bytes) }
    ensures net { IfOk result (λ made. IsNetOfWidth builder.new made port.now.word_bytes) }
    ensures value { IfOk result (λ made. Always builder.new (λ cycle. cycle.net made.number
        ≡ value_or (all_ones port.now.word_bytes) nets.now.byteenable cycle)) }
    ensures adds { AddsNets 1 builder.old builder.new }
    ensures full { result ≡ Err NetFault.TooManyNets → 2 ^ 20 < length builder.old.lines + 1 }
{
    let bytes = port.word_bytes;
    given_or(builder, nets.byteenable, bytes, ones(bytes))
}

/// Makes them, each from its port, or as a constant where the host has none.
#[tactic(auto, using(net_parts::specs::Laws::growing))]
pub(crate) fn make_fields(
    builder: &mut Builder,
    port: &HostPort,
    nets: &HostNets,
) -> Result<Fields, NetFault>
    requires port { IsBoundedHost port.now }
    requires nets { AreHostNets builder.old port.now nets.now }
    ensures fields { IfOk result (λ made. AreFields builder.new port.now made) }
    ensures value { IfOk result (λ made. Always builder.new (ShowFields port.now nets.now made)) }
    ensures adds { AddsNets 9 builder.old builder.new }
    ensures full { result ≡ Err NetFault.TooManyNets → 2 ^ 20 < length builder.old.lines + 9 }
{
    let bytes = port.word_bytes;
    let read = given_or(builder, nets.read, 1, 0)?;
    let write = given_or(builder, nets.write, 1, 0)?;
    let address = in_bytes(builder, port, nets.address)?;
    let word = given_or(builder, nets.writedata, word_bits(bytes), 0)?;
    let enables = given_enables(builder, port, nets)?;
    let count = given_or(builder, nets.burstcount, count_bits(port), 1)?;
    let tag = given_or(builder, None, 1, 0)?;
    Ok(Fields {
        read,
        write,
        address,
        word,
        enables,
        count,
        tag,
    })
}
