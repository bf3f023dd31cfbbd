//! The places of a narrow net in a wide one: it is moved to one of them, repeated on all of them, and taken from one.

ghost use Rattle.std.specs.Prelude.{◌≡◌, ℕ, ◌+◌, ◌*◌, ◌/◌, ◌%◌, ◌^◌, ◌<◌, ◌≤◌, length, IfOk};
ghost use Rattle.netlist.specs.Netlists.{IsNet};
ghost use Rattle.netlist.specs.Runs.{Always};
ghost use Rattle.net_parts.specs.Nets.{IsBit, IsNetOfWidth};
ghost use Rattle.net_parts.specs.Growth.{AddsNets};
ghost use Rattle.memory_links.specs.Gathers.{spread};
ghost use Rattle.memory_links.specs.Selects.{repeated};

use net_parts::{choose, constant};
use netlist::{Builder, Net, NetFault};

/// The net in the high half of one of twice its width where the bit is high, and else in the low half.
#[tactic(auto, using(net_parts::specs::Laws::growing))]
fn raise_once(builder: &mut Builder, net: Net, bit: Net) -> Result<Net, NetFault>
    requires net { IsNet builder.old net }
    requires bit { IsBit builder.old bit }
    requires few { net.width + net.width ≤ 128 }
    ensures net { IfOk result (λ made. IsNetOfWidth builder.new made (net.width + net.width)) }
    ensures value { IfOk result (λ made. Always builder.new (λ cycle. cycle.net made.number
        ≡ cycle.net net.number * 2 ^ (net.width * cycle.net bit.number))) }
    ensures adds { AddsNets 4 builder.old builder.new }
    ensures full { result ≡ Err NetFault.TooManyNets → 2 ^ 20 < length builder.old.lines + 4 }
{
    let width = builder.width(net);
    let zeros = constant(builder, width, 0)?;
    let high = builder.concat(net, zeros)?;
    let low = builder.concat(zeros, net)?;
    choose(builder, bit, high, low)
}

/// The net moved to the place that another one names, between zeros.
#[tactic(auto, using(net_parts::specs::Laws::growing))]
pub fn raise_to(builder: &mut Builder, net: Net, place: Net, bits: u8) -> Result<Net, NetFault>
    requires net { IsNet builder.old net }
    requires place { IsNetOfWidth builder.old place bits }
    requires some { 1 ≤ bits }
    requires few { net.width * 2 ^ bits ≤ 128 }
    ensures net { IfOk result (λ made. IsNetOfWidth builder.new made (net.width * 2 ^ bits)) }
    ensures value { IfOk result (λ made. Always builder.new (λ cycle. cycle.net made.number
        ≡ cycle.net net.number * 2 ^ (net.width * cycle.net place.number))) }
    ensures adds { AddsNets (6 * bits) builder.old builder.new }
    ensures full { result ≡ Err NetFault.TooManyNets → 2 ^ 20 < length builder.old.lines + 6 * bits }
{
    if bits == 1 {
        return raise_once(builder, net, place);
    }
    let low = builder.slice(place, 0, 0)?;
    let rest = builder.slice(place, bits - 1, 1)?;
    let raised = raise_once(builder, net, low)?;
    raise_to(builder, raised, rest, bits - 1)
}

/// The high half of the net where the bit is high, and else the low half.
#[tactic(auto, using(net_parts::specs::Laws::growing))]
fn take_half(builder: &mut Builder, net: Net, half: u8, bit: Net) -> Result<Net, NetFault>
    requires net { IsNetOfWidth builder.old net (half + half) }
    requires some { 1 ≤ half }
    requires few { half ≤ 64 }
    requires bit { IsBit builder.old bit }
    ensures net { IfOk result (λ made. IsNetOfWidth builder.new made half) }
    ensures value { IfOk result (λ made. Always builder.new (λ cycle. cycle.net made.number
        ≡ cycle.net net.number / 2 ^ (half * cycle.net bit.number) % 2 ^ half)) }
    ensures adds { AddsNets 3 builder.old builder.new }
    ensures full { result ≡ Err NetFault.TooManyNets → 2 ^ 20 < length builder.old.lines + 3 }
{
    let high = builder.slice(net, half + half - 1, half)?;
    let low = builder.slice(net, half - 1, 0)?;
    choose(builder, bit, high, low)
}

/// One place of a wide net, of so many bits: that which another net names.
#[tactic(auto, using(net_parts::specs::Laws::growing))]
pub fn take_place(
    builder: &mut Builder,
    wide: Net,
    width: u8,
    place: Net,
    bits: u8,
) -> Result<Net, NetFault>
    requires wide { IsNetOfWidth builder.old wide (width * 2 ^ bits) }
    requires few { width * 2 ^ bits ≤ 128 }
    requires width { 1 ≤ width }
    requires place { IsNetOfWidth builder.old place bits }
    requires some { 1 ≤ bits }
    ensures net { IfOk result (λ made. IsNetOfWidth builder.new made width) }
    ensures value { IfOk result (λ made. Always builder.new (λ cycle. cycle.net made.number
        ≡ cycle.net wide.number / 2 ^ (width * cycle.net place.number) % 2 ^ width)) }
    ensures adds { AddsNets (5 * bits) builder.old builder.new }
    ensures full { result ≡ Err NetFault.TooManyNets → 2 ^ 20 < length builder.old.lines + 5 * bits }
{
    if bits == 1 {
        return take_half(builder, wide, width, place);
    }
    let half = builder.width(wide) / 2;
    let top = builder.slice(place, bits - 1, bits - 1)?;
    let rest = builder.slice(place, bits - 2, 0)?;
    let taken = take_half(builder, wide, half, top)?;
    take_place(builder, taken, width, rest, bits - 1)
}

/// The net on each place of one that is so many times doubled.
#[tactic(auto, using(net_parts::specs::Laws::growing))]
pub fn repeat(builder: &mut Builder, word: Net, times: u8) -> Result<Net, NetFault>
    requires word { IsNet builder.old word }
    requires few { word.width * 2 ^ times ≤ 128 }
    ensures net { IfOk result (λ made. IsNetOfWidth builder.new made (word.width * 2 ^ times)) }
    ensures value { IfOk result (λ made. (bytes : ℕ) → word.width ≡ bytes * 8
        → Always builder.new (λ cycle. cycle.net made.number ≡ repeated bytes (2 ^ times) (cycle.net word.number))) }
    ensures spread { IfOk result (λ made. Always builder.new (λ cycle. cycle.net made.number
        ≡ spread word.width (2 ^ times) (cycle.net word.number))) }
    ensures adds { AddsNets times builder.old builder.new }
    ensures full { result ≡ Err NetFault.TooManyNets → 2 ^ 20 < length builder.old.lines + times }
{
    if times == 0 {
        return Ok(word);
    }
    let twice = builder.concat(word, word)?;
    repeat(builder, twice, times - 1)
}
