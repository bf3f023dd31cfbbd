//! How many words each channel has, side by side in one register, the lowest channel in the low-order bits.

ghost use Rattle.std.specs.Prelude.{◌≡◌, ◌+◌, ◌-◌, ◌*◌, ◌%◌, ◌^◌, ◌<◌, ◌≤◌, ◌==◌, length, if◌then◌else◌, Err, IfOk};
ghost use Rattle.netlist.specs.Netlists.{IsNet, IsWaiting};
ghost use Rattle.netlist.specs.Runs.{Always};
ghost use Rattle.net_parts.specs.Nets.{IsBit, IsNetOfWidth, StartsLow};
ghost use Rattle.net_parts.specs.Growth.{AddsNets, GrowsBy, WaitsBeside};
ghost use Rattle.st_gather.specs.Counts.{field, Picks, AreLater};

use av_base::Val;
use net_parts::{choose, constant};
use netlist::{Builder, Net, NetFault};
use st_mux::shown_on;

/// The least number of bits that count the parts before the last one.
pub(crate) fn count_bits(parts: u8) -> u8
    requires { parts ≤ 16 }
    ensures some { 1 ≤ result }
    ensures few { result ≤ 4 }
    ensures fits { parts ≤ 2 ^ result }
{
    if parts <= 2 {
        1
    } else if parts <= 4 {
        2
    } else if parts <= 8 {
        3
    } else {
        4
    }
}

/// A register that begins with all counts at 0.
pub(crate) fn hold_counts(builder: &mut Builder, bits: u8) -> Result<Net, NetFault>
    requires some { 1 ≤ bits }
    requires few { bits ≤ 128 }
    ensures net { IfOk result (λ made. IsNetOfWidth builder.new made bits) }
    ensures number { IfOk result (λ made. made.number ≡ length builder.old.lines) }
    ensures starts { IfOk result (λ made. StartsLow builder.new made) }
    ensures waits { IfOk result (λ made. IsWaiting builder.new made.number) }
    ensures grows { GrowsBy 1 builder.old builder.new }
    ensures newly { IfOk result (λ made. WaitsBeside (λ n. n ≡ made.number) builder.old builder.new) }
    ensures full { result ≡ Err NetFault.TooManyNets → 2 ^ 20 < length builder.old.lines + 1 }
{
    builder.reg(Val::new(bits, 0).unwrap())
}

/// How many numbers the bits below the highest one have.
fn half_of(bits: u8) -> u8
    requires some { 1 ≤ bits }
    requires few { bits ≤ 4 }
    ensures { result ≡ 2 ^ (bits - 1) }
{
    match bits {
        1 => 1,
        2 => 2,
        3 => 4,
        _ => 8,
    }
}

/// The count of the channel of this number.
#[tactic(auto, using(net_parts::specs::Laws::growing))]
fn count_at(builder: &mut Builder, counts: Net, bits: u8, number: u8) -> Result<Net, NetFault>
    requires counts { IsNet builder.old counts }
    requires within { bits * (number + 1) ≤ counts.width }
    requires some { 1 ≤ bits }
    requires few { bits ≤ 4 }
    requires few_channels { number < 16 }
    ensures net { IfOk result (λ count. IsNetOfWidth builder.new count bits) }
    ensures value { IfOk result (λ count. Always builder.new (λ cycle. cycle.net count.number
        ≡ field bits number (cycle.net counts.number))) }
    ensures adds { AddsNets 1 builder.old builder.new }
    ensures full { result ≡ Err NetFault.TooManyNets → 2 ^ 20 < length builder.old.lines + 1 }
{
    let low = bits * number;
    builder.slice(counts, low + (bits - 1), low)
}

/// Of the counts of so many channels, from one on, that of the channel which has the number of the index's lowest bits among
/// them.
#[tactic(auto, using(net_parts::specs::Laws::growing))]
pub(crate) fn count_of(
    builder: &mut Builder,
    counts: Net,
    bits: u8,
    index: Net,
    index_bits: u8,
    from: u8,
    channels: u8,
) -> Result<Net, NetFault>
    requires counts { IsNet builder.old counts }
    requires within { bits * (from + channels) ≤ counts.width }
    requires some { 1 ≤ bits }
    requires few { bits ≤ 4 }
    requires index { IsNet builder.old index }
    requires index_within { index_bits ≤ index.width }
    requires few_index { index_bits ≤ 4 }
    requires some_channels { 1 ≤ channels }
    requires few_channels { from + channels ≤ 16 }
    requires fits { channels ≤ 2 ^ index_bits }
    ensures net { IfOk result (λ count. IsNetOfWidth builder.new count bits) }
    ensures value { IfOk result (λ count. Always builder.new (λ cycle. Picks (λ k. field bits k (cycle.net counts.number))
        (cycle.net index.number) index_bits from channels (cycle.net count.number))) }
    ensures adds { AddsNets (3 * channels - 2) builder.old builder.new }
    ensures full { result ≡ Err NetFault.TooManyNets → 2 ^ 20 < length builder.old.lines + (3 * channels - 2) }
{
    if index_bits == 0 {
        return count_at(builder, counts, bits, from);
    }
    let half = half_of(index_bits);
    if channels <= half {
        return count_of(builder, counts, bits, index, index_bits - 1, from, channels);
    }
    let low = count_of(builder, counts, bits, index, index_bits - 1, from, half)?;
    let high = count_of(
        builder,
        counts,
        bits,
        index,
        index_bits - 1,
        from + half,
        channels - half,
    )?;
    let bit = builder.slice(index, index_bits - 1, index_bits - 1)?;
    choose(builder, bit, high, low)
}

/// A count when another word has come: one more, or 0 where that one was the last of a beat.
#[tactic(auto, using(net_parts::specs::Laws::growing))]
pub(crate) fn next_count(
    builder: &mut Builder,
    count: Net,
    last: Net,
    bits: u8,
) -> Result<Net, NetFault>
    requires count { IsNetOfWidth builder.old count bits }
    requires last { IsBit builder.old last }
    requires some { 1 ≤ bits }
    requires few { bits ≤ 4 }
    ensures net { IfOk result (λ next. IsNetOfWidth builder.new next bits) }
    ensures value { IfOk result (λ next. Always builder.new (λ cycle. cycle.net next.number
        ≡ (if cycle.net last.number == 1 then 0 else (cycle.net count.number + 1) % 2 ^ bits))) }
    ensures adds { AddsNets 4 builder.old builder.new }
    ensures full { result ≡ Err NetFault.TooManyNets → 2 ^ 20 < length builder.old.lines + 4 }
{
    let one = constant(builder, bits, 1)?;
    let more = builder.add(count, one)?;
    let none = constant(builder, bits, 0)?;
    choose(builder, last, none, more)
}

/// The counts of the lowest so many channels a cycle later: where `moves` is high the channel's is the next one.
#[tactic(auto, using(net_parts::specs::Laws::growing))]
pub(crate) fn later_counts(
    builder: &mut Builder,
    counts: Net,
    bits: u8,
    moves: Net,
    channel: Net,
    channel_bits: u8,
    next: Net,
    channels: u8,
) -> Result<Net, NetFault>
    requires counts { IsNet builder.old counts }
    requires within { bits * channels ≤ counts.width }
    requires some { 1 ≤ bits }
    requires few { bits ≤ 4 }
    requires moves { IsBit builder.old moves }
    requires channel { IsNetOfWidth builder.old channel channel_bits }
    requires some_channel { 1 ≤ channel_bits }
    requires few_channel { channel_bits ≤ 4 }
    requires next { IsNetOfWidth builder.old next bits }
    requires some_channels { 1 ≤ channels }
    requires few_channels { channels ≤ 16 }
    requires fits { channels ≤ 2 ^ channel_bits }
    ensures net { IfOk result (λ later. IsNetOfWidth builder.new later (bits * channels)) }
    ensures value { IfOk result (λ later. Always builder.new (AreLater counts moves channel next bits channels later)) }
    ensures adds { AddsNets (6 * channels - 1) builder.old builder.new }
    ensures full { result ≡ Err NetFault.TooManyNets → 2 ^ 20 < length builder.old.lines + (6 * channels - 1) }
{
    let highest = channels - 1;
    let here = shown_on(builder, moves, channel, channel_bits, highest)?;
    let kept = count_at(builder, counts, bits, highest)?;
    let later = choose(builder, here, next, kept)?;
    if highest == 0 {
        return Ok(later);
    }
    let lower = later_counts(
        builder,
        counts,
        bits,
        moves,
        channel,
        channel_bits,
        next,
        highest,
    )?;
    builder.concat(later, lower)
}
