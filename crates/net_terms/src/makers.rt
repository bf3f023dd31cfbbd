//! Makers of one net, by what it shows.

ghost use Rattle.std.specs.Prelude.{◌≡◌, ℕ, ◌+◌, ◌-◌, ◌*◌, ◌/◌, ◌%◌, ◌^◌, ◌<◌, ◌≤◌, Bool, true, false, not, ◌&&◌, ◌||◌, if◌then◌else◌, length, nat_eq, nat_lt, IfOk};
ghost use Rattle.histories.specs.History.{is_raised, one_if};
ghost use Rattle.netlist.specs.Netlists.{IsNet, IsMem};
ghost use Rattle.netlist.specs.Runs.{Always};
ghost use Rattle.net_parts.specs.Nets.{IsBit, IsNetOfWidth};
ghost use Rattle.net_parts.specs.Growth.{AddsNets, fit_nets};

use av_base::Val;
use net_parts::{choose, fit_bits, turned};
use netlist::{Builder, Mem, Net, NetFault};

/// One of two bits: the first where the other bit is high.
#[tactic(auto, using(net_parts::specs::Laws::growing))]
pub(crate) fn choose_bit(
    builder: &mut Builder,
    bit: Net,
    one: Net,
    other: Net,
) -> Result<Net, NetFault>
    requires bit { IsBit builder.old bit }
    requires one { IsBit builder.old one }
    requires other { IsBit builder.old other }
    ensures net { IfOk result (λ net. IsBit builder.new net) }
    ensures value { IfOk result (λ net. Always builder.new (λ cycle. is_raised (cycle.net net.number)
        ≡ (if is_raised (cycle.net bit.number) then is_raised (cycle.net one.number)
        else is_raised (cycle.net other.number)))) }
    ensures adds { AddsNets 1 builder.old builder.new }
    ensures full { result ≡ Err NetFault.TooManyNets → 2 ^ 20 < length builder.old.lines + 1 }
{
    choose(builder, bit, one, other)
}

/// High where both nets show the same.
#[tactic(auto, using(net_parts::specs::Laws::growing))]
pub(crate) fn is_equal(builder: &mut Builder, one: Net, other: Net) -> Result<Net, NetFault>
    requires one { IsNet builder.old one }
    requires other { IsNet builder.old other }
    requires widths { one.width ≡ other.width }
    ensures net { IfOk result (λ net. IsBit builder.new net) }
    ensures value { IfOk result (λ net. Always builder.new (λ cycle. is_raised (cycle.net net.number)
        ≡ nat_eq (cycle.net one.number) (cycle.net other.number))) }
    ensures adds { AddsNets 1 builder.old builder.new }
    ensures full { result ≡ Err NetFault.TooManyNets → 2 ^ 20 < length builder.old.lines + 1 }
{
    builder.eq(one, other)
}

/// High where the first net shows less than the second.
#[tactic(auto, using(net_parts::specs::Laws::growing))]
pub(crate) fn is_less(builder: &mut Builder, one: Net, other: Net) -> Result<Net, NetFault>
    requires one { IsNet builder.old one }
    requires other { IsNet builder.old other }
    requires widths { one.width ≡ other.width }
    ensures net { IfOk result (λ net. IsBit builder.new net) }
    ensures value { IfOk result (λ net. Always builder.new (λ cycle. is_raised (cycle.net net.number)
        ≡ nat_lt (cycle.net one.number) (cycle.net other.number))) }
    ensures adds { AddsNets 1 builder.old builder.new }
    ensures full { result ≡ Err NetFault.TooManyNets → 2 ^ 20 < length builder.old.lines + 1 }
{
    builder.less(one, other)
}

/// High where the net doesn't show 0.
#[tactic(auto, using(net_parts::specs::Laws::growing))]
pub(crate) fn is_any(builder: &mut Builder, one: Net) -> Result<Net, NetFault>
    requires one { IsNet builder.old one }
    ensures net { IfOk result (λ net. IsBit builder.new net) }
    ensures value { IfOk result (λ net. Always builder.new (λ cycle. is_raised (cycle.net net.number)
        ≡ nat_lt 0 (cycle.net one.number))) }
    ensures adds { AddsNets 1 builder.old builder.new }
    ensures full { result ≡ Err NetFault.TooManyNets → 2 ^ 20 < length builder.old.lines + 1 }
{
    builder.any(one)
}

/// High where the net shows 0.
#[tactic(auto, using(net_parts::specs::Laws::growing))]
pub(crate) fn is_zero(builder: &mut Builder, one: Net) -> Result<Net, NetFault>
    requires one { IsNet builder.old one }
    ensures net { IfOk result (λ net. IsBit builder.new net) }
    ensures value { IfOk result (λ net. Always builder.new (λ cycle. is_raised (cycle.net net.number)
        ≡ nat_eq (cycle.net one.number) 0)) }
    ensures adds { AddsNets 2 builder.old builder.new }
    ensures full { result ≡ Err NetFault.TooManyNets → 2 ^ 20 < length builder.old.lines + 2 }
{
    let some = is_any(builder, one)?;
    turned(builder, some)
}

/// A number.
#[tactic(auto, using(net_parts::specs::Laws::growing))]
pub(crate) fn number(builder: &mut Builder, bits: u8, value: u128) -> Result<Net, NetFault>
    requires some { 1 ≤ bits }
    requires few { bits ≤ 128 }
    requires fits { value < 2 ^ bits }
    ensures net { IfOk result (λ net. IsNetOfWidth builder.new net bits) }
    ensures value { IfOk result (λ net. Always builder.new (λ cycle. cycle.net net.number ≡ value)) }
    ensures adds { AddsNets 1 builder.old builder.new }
    ensures full { result ≡ Err NetFault.TooManyNets → 2 ^ 20 < length builder.old.lines + 1 }
{
    builder.constant(Val::new(bits, value).unwrap())
}

/// The sum, less what doesn't fit.
#[tactic(auto, using(net_parts::specs::Laws::growing))]
pub(crate) fn sum_of(builder: &mut Builder, one: Net, other: Net) -> Result<Net, NetFault>
    requires one { IsNet builder.old one }
    requires other { IsNet builder.old other }
    requires widths { one.width ≡ other.width }
    ensures net { IfOk result (λ net. IsNetOfWidth builder.new net one.width) }
    ensures value { IfOk result (λ net. Always builder.new (λ cycle. cycle.net net.number
        ≡ (cycle.net one.number + cycle.net other.number) % 2 ^ one.width)) }
    ensures adds { AddsNets 1 builder.old builder.new }
    ensures full { result ≡ Err NetFault.TooManyNets → 2 ^ 20 < length builder.old.lines + 1 }
{
    builder.add(one, other)
}

/// The difference, modulo 2 to the width.
#[tactic(auto, using(net_parts::specs::Laws::growing))]
pub(crate) fn difference_of(builder: &mut Builder, one: Net, other: Net) -> Result<Net, NetFault>
    requires one { IsNet builder.old one }
    requires other { IsNet builder.old other }
    requires widths { one.width ≡ other.width }
    ensures net { IfOk result (λ net. IsNetOfWidth builder.new net one.width) }
    ensures value { IfOk result (λ net. Always builder.new (λ cycle. cycle.net net.number
        ≡ (cycle.net one.number + (2 ^ one.width - cycle.net other.number)) % 2 ^ one.width)) }
    ensures adds { AddsNets 1 builder.old builder.new }
    ensures full { result ≡ Err NetFault.TooManyNets → 2 ^ 20 < length builder.old.lines + 1 }
{
    builder.sub(one, other)
}

/// One of two words: the first where the bit is high.
#[tactic(auto, using(net_parts::specs::Laws::growing))]
pub(crate) fn choose_word(
    builder: &mut Builder,
    bit: Net,
    one: Net,
    other: Net,
) -> Result<Net, NetFault>
    requires bit { IsBit builder.old bit }
    requires one { IsNet builder.old one }
    requires other { IsNet builder.old other }
    requires widths { one.width ≡ other.width }
    ensures net { IfOk result (λ net. IsNetOfWidth builder.new net one.width) }
    ensures value { IfOk result (λ net. Always builder.new (λ cycle. cycle.net net.number
        ≡ (if is_raised (cycle.net bit.number) then cycle.net one.number else cycle.net other.number))) }
    ensures adds { AddsNets 1 builder.old builder.new }
    ensures full { result ≡ Err NetFault.TooManyNets → 2 ^ 20 < length builder.old.lines + 1 }
{
    choose(builder, bit, one, other)
}

/// The first above the second.
#[tactic(auto, using(net_parts::specs::Laws::growing))]
pub(crate) fn joined(builder: &mut Builder, one: Net, other: Net) -> Result<Net, NetFault>
    requires one { IsNet builder.old one }
    requires other { IsNet builder.old other }
    requires widths { one.width + other.width ≤ 128 }
    ensures net { IfOk result (λ net. IsNetOfWidth builder.new net (one.width + other.width)) }
    ensures value { IfOk result (λ net. Always builder.new (λ cycle. cycle.net net.number
        ≡ cycle.net one.number * 2 ^ other.width + cycle.net other.number)) }
    ensures adds { AddsNets 1 builder.old builder.new }
    ensures full { result ≡ Err NetFault.TooManyNets → 2 ^ 20 < length builder.old.lines + 1 }
{
    builder.concat(one, other)
}

/// Some bits of a net.
#[tactic(auto, using(net_parts::specs::Laws::growing))]
pub(crate) fn cut(builder: &mut Builder, one: Net, high: u8, low: u8) -> Result<Net, NetFault>
    requires one { IsNet builder.old one }
    requires order { low ≤ high }
    requires inside { high < one.width }
    ensures net { IfOk result (λ net. IsNetOfWidth builder.new net (high - low + 1)) }
    ensures value { IfOk result (λ net. Always builder.new (λ cycle. cycle.net net.number
        ≡ cycle.net one.number / 2 ^ low % 2 ^ (high - low + 1))) }
    ensures adds { AddsNets 1 builder.old builder.new }
    ensures full { result ≡ Err NetFault.TooManyNets → 2 ^ 20 < length builder.old.lines + 1 }
{
    builder.slice(one, high, low)
}

/// A net in another width: cut, or with zeros above it.
#[tactic(auto, using(net_parts::specs::Laws::growing))]
pub(crate) fn fitted(builder: &mut Builder, one: Net, wanted: u8) -> Result<Net, NetFault>
    requires one { IsNet builder.old one }
    requires some { 1 ≤ wanted }
    requires few { wanted ≤ 128 }
    ensures net { IfOk result (λ net. IsNetOfWidth builder.new net wanted) }
    ensures value { IfOk result (λ net. Always builder.new (λ cycle. cycle.net net.number ≡ cycle.net one.number % 2 ^ wanted)) }
    ensures adds { AddsNets (fit_nets one.width wanted) builder.old builder.new }
    ensures full { result ≡ Err NetFault.TooManyNets → 2 ^ 20 < length builder.old.lines + (fit_nets one.width wanted) }
{
    let bits = builder.width(one);
    fit_bits(builder, one, bits, wanted)
}

/// The word at an address of a memory.
#[tactic(auto, using(net_parts::specs::Laws::growing))]
pub(crate) fn word_at(builder: &mut Builder, memory: Mem, address: Net) -> Result<Net, NetFault>
    requires memory { IsMem builder.old memory }
    requires address { IsNet builder.old address }
    requires widths { address.width ≡ memory.address_bits }
    ensures net { IfOk result (λ net. IsNetOfWidth builder.new net memory.width) }
    ensures value { IfOk result (λ net. Always builder.new (λ cycle. cycle.net net.number
        ≡ cycle.cell memory.number (cycle.net address.number))) }
    ensures adds { AddsNets 1 builder.old builder.new }
    ensures full { result ≡ Err NetFault.TooManyNets → 2 ^ 20 < length builder.old.lines + 1 }
{
    builder.read_memory(memory, address)
}

/// A bit as a number of that width.
#[tactic(auto, using(net_parts::specs::Laws::growing))]
pub(crate) fn flag_of(builder: &mut Builder, bit: Net) -> Result<Net, NetFault>
    requires bit { IsBit builder.old bit }
    ensures net { IfOk result (λ net. IsNetOfWidth builder.new net 1) }
    ensures value { IfOk result (λ net. Always builder.new (λ cycle. cycle.net net.number
        ≡ one_if (is_raised (cycle.net bit.number)))) }
    ensures adds { AddsNets 0 builder.old builder.new }
    ensures full { result ≡ Err NetFault.TooManyNets → 2 ^ 20 < length builder.old.lines + 0 }
{
    let _bit = builder.width(bit);
    Ok(bit)
}

/// A bit that is always this one.
#[tactic(auto, using(net_parts::specs::Laws::growing))]
pub(crate) fn always(builder: &mut Builder, high: bool) -> Result<Net, NetFault>
    ensures net { IfOk result (λ net. IsBit builder.new net) }
    ensures value { IfOk result (λ net. Always builder.new (λ cycle. is_raised (cycle.net net.number) ≡ high)) }
    ensures adds { AddsNets 1 builder.old builder.new }
    ensures full { result ≡ Err NetFault.TooManyNets → 2 ^ 20 < length builder.old.lines + 1 }
{
    net_parts::level(builder, high)
}

/// High where just one of the bits is.
#[tactic(auto, using(net_parts::specs::Laws::growing))]
pub(crate) fn just_one(builder: &mut Builder, a: Net, b: Net) -> Result<Net, NetFault>
    requires a { IsBit builder.old a }
    requires b { IsBit builder.old b }
    ensures net { IfOk result (λ net. IsBit builder.new net) }
    ensures value { IfOk result (λ net. Always builder.new (λ cycle. is_raised (cycle.net net.number)
        ≡ (if is_raised (cycle.net a.number) then not (is_raised (cycle.net b.number))
        else is_raised (cycle.net b.number)))) }
    ensures adds { AddsNets 1 builder.old builder.new }
    ensures full { result ≡ Err NetFault.TooManyNets → 2 ^ 20 < length builder.old.lines + 1 }
{
    builder.xor(a, b)
}
