//! The lanes of a burst of narrow words in the wide word that holds it.

ghost use Rattle.std.specs.Prelude.{◌≡◌, ℕ, ◌+◌, ◌-◌, ◌*◌, ◌/◌, ◌%◌, ◌^◌, ◌<◌, ◌≤◌, length, IfOk};
ghost use Rattle.netlist.specs.Netlists.{IsNet};
ghost use Rattle.netlist.specs.Runs.{Always};
ghost use Rattle.net_parts.specs.Nets.{IsBit, IsNetOfWidth};
ghost use Rattle.net_parts.specs.Growth.{AddsNets};
ghost use Rattle.memory_links.specs.Gathers.{spread};

use mm_select::repeat;
use net_parts::{choose, constant};
use netlist::{Builder, Net, NetFault};

/// A net of so many bits, each high.
#[tactic(auto, using(net_parts::specs::Laws::growing))]
fn ones(builder: &mut Builder, bits: u8) -> Result<Net, NetFault>
    requires some { 1 ≤ bits }
    requires few { bits ≤ 128 }
    ensures net { IfOk result (λ made. IsNetOfWidth builder.new made bits) }
    ensures value { IfOk result (λ made. Always builder.new (λ cycle. cycle.net made.number ≡ 2 ^ bits - 1)) }
    ensures adds { AddsNets 2 builder.old builder.new }
    ensures full { result ≡ Err NetFault.TooManyNets → 2 ^ 20 < length builder.old.lines + 2 }
{
    let zeros = constant(builder, bits, 0)?;
    builder.not(zeros)
}

/// The lanes of one word where the bit is high, and else none.
#[tactic(auto, using(net_parts::specs::Laws::growing))]
fn low_word(builder: &mut Builder, bit: Net, lanes: u8) -> Result<Net, NetFault>
    requires bit { IsBit builder.old bit }
    requires some { 1 ≤ lanes }
    requires few { lanes ≤ 128 }
    ensures net { IfOk result (λ made. IsNetOfWidth builder.new made lanes) }
    ensures value { IfOk result (λ made. Always builder.new (λ cycle. cycle.net made.number
        ≡ 2 ^ (lanes * cycle.net bit.number) - 1)) }
    ensures adds { AddsNets 4 builder.old builder.new }
    ensures full { result ≡ Err NetFault.TooManyNets → 2 ^ 20 < length builder.old.lines + 4 }
{
    let zeros = constant(builder, lanes, 0)?;
    let full = ones(builder, lanes)?;
    choose(builder, bit, full, zeros)
}

/// The low lanes with as many above them as half of twice so many words have, where the bit is high.
#[tactic(auto, using(net_parts::specs::Laws::growing))]
fn more_words(builder: &mut Builder, top: Net, low: Net, lanes: u8) -> Result<Net, NetFault>
    requires top { IsBit builder.old top }
    requires low { IsNet builder.old low }
    requires some { 1 ≤ lanes }
    requires few { low.width + (low.width + lanes) ≤ 128 }
    ensures net { IfOk result (λ made. IsNetOfWidth builder.new made (low.width + (low.width + lanes))) }
    ensures value { IfOk result (λ made. Always builder.new (λ cycle. cycle.net made.number
        ≡ (cycle.net low.number + 1) * 2 ^ ((low.width + lanes) * cycle.net top.number) - 1)) }
    ensures adds { AddsNets 6 builder.old builder.new }
    ensures full { result ≡ Err NetFault.TooManyNets → 2 ^ 20 < length builder.old.lines + 6 }
{
    let half = builder.width(low) + lanes;
    let full = ones(builder, half)?;
    let many = builder.concat(low, full)?;
    let none = constant(builder, half, 0)?;
    let few = builder.concat(none, low)?;
    choose(builder, top, many, few)
}

/// The lanes of as many of the lowest words as a net of so many bits tells, each of so many lanes.
#[tactic(auto, using(net_parts::specs::Laws::growing))]
fn low_words(builder: &mut Builder, count: Net, lanes: u8, bits: u8) -> Result<Net, NetFault>
    requires count { IsNetOfWidth builder.old count bits }
    requires some { 1 ≤ bits }
    requires lanes { 1 ≤ lanes }
    requires few { lanes * 2 ^ bits ≤ 128 }
    ensures net { IfOk result (λ made. IsNetOfWidth builder.new made (lanes * (2 ^ bits - 1))) }
    ensures value { IfOk result (λ made. Always builder.new (λ cycle. cycle.net made.number
        ≡ 2 ^ (lanes * cycle.net count.number) - 1)) }
    ensures adds { AddsNets (8 * bits) builder.old builder.new }
    ensures full { result ≡ Err NetFault.TooManyNets → 2 ^ 20 < length builder.old.lines + 8 * bits }
{
    if bits == 1 {
        return low_word(builder, count, lanes);
    }
    let top = builder.slice(count, bits - 1, bits - 1)?;
    let rest = builder.slice(count, bits - 2, 0)?;
    let low = low_words(builder, rest, lanes, bits - 1)?;
    more_words(builder, top, low, lanes)
}

/// A net moved up by so many bits where a bit is high; what passes its width is lost.
#[tactic(auto, using(net_parts::specs::Laws::growing))]
fn pushed(builder: &mut Builder, net: Net, by: u8, bit: Net) -> Result<Net, NetFault>
    requires net { IsNet builder.old net }
    requires bit { IsBit builder.old bit }
    requires some { 1 ≤ by }
    requires less { by < net.width }
    ensures net { IfOk result (λ made. IsNetOfWidth builder.new made net.width) }
    ensures value { IfOk result (λ made. Always builder.new (λ cycle. cycle.net made.number
        ≡ (cycle.net net.number * 2 ^ (by * cycle.net bit.number)) % 2 ^ net.width)) }
    ensures adds { AddsNets 4 builder.old builder.new }
    ensures full { result ≡ Err NetFault.TooManyNets → 2 ^ 20 < length builder.old.lines + 4 }
{
    let width = builder.width(net);
    let low = builder.slice(net, width - by - 1, 0)?;
    let zeros = constant(builder, by, 0)?;
    let moved = builder.concat(low, zeros)?;
    choose(builder, bit, moved, net)
}

/// A net moved up by as many words as another one tells, each of so many lanes; what passes its width is lost.
#[tactic(auto, using(net_parts::specs::Laws::growing))]
fn pushed_to(
    builder: &mut Builder,
    net: Net,
    place: Net,
    lanes: u8,
    bits: u8,
) -> Result<Net, NetFault>
    requires net { IsNet builder.old net }
    requires place { IsNetOfWidth builder.old place bits }
    requires some { 1 ≤ bits }
    requires lanes { 1 ≤ lanes }
    requires within { lanes * 2 ^ bits ≤ net.width }
    requires few { lanes * 2 ^ bits ≤ 128 }
    ensures net { IfOk result (λ made. IsNetOfWidth builder.new made net.width) }
    ensures value { IfOk result (λ made. Always builder.new (λ cycle. cycle.net made.number
        ≡ (cycle.net net.number * 2 ^ (lanes * cycle.net place.number)) % 2 ^ net.width)) }
    ensures adds { AddsNets (6 * bits) builder.old builder.new }
    ensures full { result ≡ Err NetFault.TooManyNets → 2 ^ 20 < length builder.old.lines + 6 * bits }
{
    let bit = builder.slice(place, 0, 0)?;
    let moved = pushed(builder, net, lanes, bit)?;
    if bits == 1 {
        return Ok(moved);
    }
    let rest = builder.slice(place, bits - 1, 1)?;
    pushed_to(builder, moved, rest, 2 * lanes, bits - 1)
}

/// The byte enables of a burst of so many words from a place on, of which each has these; what passes the wide word is left out.
#[tactic(auto, using(net_parts::specs::Laws::growing))]
pub(crate) fn burst_lanes(
    builder: &mut Builder,
    enables: Net,
    count: Net,
    place: Net,
    places: u8,
) -> Result<Net, NetFault>
    requires enables { IsNet builder.old enables }
    requires count { IsNetOfWidth builder.old count (places + 1) }
    requires place { IsNetOfWidth builder.old place places }
    requires some { 1 ≤ places }
    requires few { enables.width * 2 ^ (places + 1) ≤ 128 }
    ensures net { IfOk result (λ made. IsNetOfWidth builder.new made (enables.width * 2 ^ places)) }
    ensures value { IfOk result (λ made. Always builder.new (λ cycle. cycle.net made.number
        ≡ (spread enables.width (cycle.net count.number) (cycle.net enables.number)
        * 2 ^ (enables.width * cycle.net place.number)) % 2 ^
        (enables.width * 2 ^ places))) }
    ensures adds { AddsNets (15 * places + 10) builder.old builder.new }
    ensures full { result ≡ Err NetFault.TooManyNets → 2 ^ 20 < length builder.old.lines + (15 * places + 10) }
{
    let lanes = builder.width(enables);
    let all = repeat(builder, enables, places)?;
    let words = low_words(builder, count, lanes, places + 1)?;
    let width = builder.width(all);
    let few = builder.slice(words, width - 1, 0)?;
    let low = builder.and(all, few)?;
    pushed_to(builder, low, place, lanes, places)
}
