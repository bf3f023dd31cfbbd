//! The widths of words, and of the addresses of their bytes.

ghost use Rattle.std.specs.Prelude.{◌≡◌, ◌+◌, ◌*◌, ◌^◌, ◌<◌, ◌≤◌, length, IfOk};
ghost use Rattle.iface_roles.specs.Proper.{IsWordSize};
ghost use Rattle.netlist.specs.Netlists.{IsNet};
ghost use Rattle.netlist.specs.Runs.{Always};
ghost use Rattle.net_parts.specs.Nets.{IsNetOfWidth};
ghost use Rattle.net_parts.specs.Growth.{AddsNets};

use av_base::Val;
use netlist::{Builder, Net, NetFault};

/// How many bits of a byte address tell the bytes of a word apart.
pub fn lane_bits(word_bytes: u8) -> u8
    requires { IsWordSize word_bytes }
    ensures power { word_bytes ≡ 2 ^ result }
    ensures few { result ≤ 4 }
{
    if word_bytes == 1 {
        0
    } else if word_bytes == 2 {
        1
    } else if word_bytes == 4 {
        2
    } else if word_bytes == 8 {
        3
    } else {
        4
    }
}

/// The bits of a word.
pub fn word_bits(word_bytes: u8) -> u8
    requires { IsWordSize word_bytes }
    ensures bits { result ≡ word_bytes * 8 }
    ensures some { 1 ≤ result }
    ensures few { result ≤ 128 }
{
    word_bytes * 8
}

/// The net with so many zeros below it.
#[tactic(auto, using(net_parts::specs::Laws::growing))]
pub fn raise(builder: &mut Builder, net: Net, zeros: u8) -> Result<Net, NetFault>
    requires net { IsNet builder.old net }
    requires few { net.width + zeros ≤ 128 }
    ensures net { IfOk result (λ made. IsNetOfWidth builder.new made (net.width + zeros)) }
    ensures value { IfOk result (λ made. Always builder.new (λ cycle. cycle.net made.number ≡ cycle.net net.number * 2 ^ zeros)) }
    ensures adds { AddsNets 2 builder.old builder.new }
    ensures full { result ≡ Err NetFault.TooManyNets → 2 ^ 20 < length builder.old.lines + 2 }
{
    if zeros == 0 {
        return Ok(net);
    }
    let low = builder.constant(Val::new(zeros, 0).unwrap())?;
    builder.concat(net, low)
}
