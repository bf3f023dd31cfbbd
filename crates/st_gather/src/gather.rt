//! A gatherer: it keeps the words that come on each channel until the last part of a beat comes, which goes straight through with
//! them. It makes nine nets for each channel and eleven more: a register for the counts of all, and a memory for their words.

ghost use Rattle.std.specs.Prelude.{◌≡◌, ◌+◌, ◌*◌, ◌^◌, ◌<◌, ◌≤◌, ◌⊎◌, length, Err, IfOk, OnOk};
ghost use Rattle.net_parts.specs.Nets.{IsBit, IsNetOfWidth};
ghost use Rattle.st_gather.specs.Words.{AreWordNets};
ghost use Rattle.st_gather.specs.Whole.{LeavesWhole};
ghost use Rattle.st_gather.specs.Gatherers.{IsShape, GathersInLonger};
ghost use Rattle.st_gather.specs.Flows.{IsCountBits, AreFlowNets, Flows, CountsOn, IsFlow, CountsWords};
ghost use Rattle.net_parts.specs.Growth.{AddsNets};

use crate::counts::{count_bits, count_of, hold_counts, later_counts, next_count};
use crate::words::{WordNets, join_words};
use net_parts::{constant, has_room};
use netlist::{Builder, Net, NetFault};
use routed_runs::machines::gatherer_gathers;

/// How large a gatherer is.
#[derive(Clone, Copy)]
pub struct GathererShape {
    /// At least 1, and no more than its bits can number.
    pub channels: u8,
    /// 1 to 4.
    pub channel_bits: u8,
    /// The bits of a word that comes.
    pub word_bits: u8,
    /// How many words make a beat, 2 to 16; they have at most 128 bits.
    pub parts: u8,
}

/// The nets that a gatherer gives. Its output shows the channel of its input.
#[derive(Clone, Copy)]
pub struct GathererNets {
    /// To the input, one bit.
    pub ready: Net,
    /// `valid` of the output, one bit.
    pub valid: Net,
    /// The beat that the output shows.
    pub word: Net,
}

/// What happens in a cycle.
#[derive(Clone, Copy)]
pub(crate) struct FlowNets {
    /// How many words the channel that is shown has.
    pub count: Net,
    /// One bit: with one more they make a beat.
    pub last: Net,
    /// One bit: a word that is shown is taken.
    pub room: Net,
    /// One bit: a beat is shown.
    pub valid: Net,
    /// One bit: a word comes.
    pub moves: Net,
}

/// What happens in a cycle, by the counts of the channels.
#[tactic(auto, using(net_parts::specs::Laws::growing))]
fn flow(
    builder: &mut Builder,
    shape: GathererShape,
    counts: Net,
    bits: u8,
    from: &WordNets,
    ready: Net,
) -> Result<FlowNets, NetFault>
    requires shape { IsShape shape }
    requires bits { IsCountBits shape bits }
    requires counts { IsNetOfWidth builder.old counts (bits * shape.channels) }
    requires from { AreWordNets builder.old shape.channel_bits shape.word_bits from.now }
    requires ready { IsBit builder.old ready }
    ensures nets { IfOk result (λ made. AreFlowNets builder.new bits made) }
    ensures flows { IfOk result (λ made. Flows builder.new shape bits counts from.now ready made) }
    ensures adds { AddsNets (3 * shape.channels + 4) builder.old builder.new }
    ensures full { result ≡ Err NetFault.TooManyNets → 2 ^ 20 < length builder.old.lines + (3 * shape.channels + 4) }
{
    let count = count_of(
        builder,
        counts,
        bits,
        from.channel,
        shape.channel_bits,
        0,
        shape.channels,
    )?;
    let most = constant(builder, bits, shape.parts - 1)?;
    let last = builder.eq(count, most)?;
    let room = has_room(builder, last, ready)?;
    let valid = builder.and(from.valid, last)?;
    let moves = builder.and(from.valid, room)?;
    Ok(FlowNets {
        count,
        last,
        room,
        valid,
        moves,
    })
}

/// The counts in the next cycle.
#[tactic(auto, using(net_parts::specs::Laws::growing))]
fn counts_then(
    builder: &mut Builder,
    shape: GathererShape,
    counts: Net,
    bits: u8,
    channel: Net,
    flow: &FlowNets,
) -> Result<Net, NetFault>
    requires shape { IsShape shape }
    requires bits { IsCountBits shape bits }
    requires counts { IsNetOfWidth builder.old counts (bits * shape.channels) }
    requires channel { IsNetOfWidth builder.old channel shape.channel_bits }
    requires flow { AreFlowNets builder.old bits flow.now }
    ensures net { IfOk result (λ later. IsNetOfWidth builder.new later (bits * shape.channels)) }
    ensures value { IfOk result (λ later. CountsOn builder.new shape bits counts channel flow.now later) }
    ensures adds { AddsNets (6 * shape.channels + 3) builder.old builder.new }
    ensures full { result ≡ Err NetFault.TooManyNets → 2 ^ 20 < length builder.old.lines + (6 * shape.channels + 3) }
{
    let next = next_count(builder, flow.count, flow.last, bits)?;
    later_counts(
        builder,
        counts,
        bits,
        flow.moves,
        channel,
        shape.channel_bits,
        next,
        shape.channels,
    )
}

/// The counts of the channels in a register, and what happens in a cycle.
#[tactic(auto, using(net_parts::specs::Laws::growing))]
fn count_channels(
    builder: &mut Builder,
    shape: GathererShape,
    from: &WordNets,
    ready: Net,
) -> Result<FlowNets, NetFault>
    requires shape { IsShape shape }
    requires from { AreWordNets builder.old shape.channel_bits shape.word_bits from.now }
    requires ready { IsBit builder.old ready }
    ensures nets { IfOk result (λ made. IsFlow builder.new made) }
    ensures counts { IfOk result (λ made. CountsWords builder.new shape from.now ready made) }
    ensures whole { OnOk result (LeavesWhole (9 * shape.channels + 8) builder.old builder.new) }
    ensures memories { OnOk result (builder.new.memories ≡ builder.old.memories) }
    ensures full { result ≡ Err NetFault.TooManyNets → 2 ^ 20 < length builder.old.lines + (9 * shape.channels + 8) }
{
    let bits = count_bits(shape.parts);
    let counts = hold_counts(builder, bits * shape.channels)?;
    let made = flow(builder, shape, counts, bits, from, ready)?;
    let later = counts_then(builder, shape, counts, bits, from.channel, &made)?;
    builder.set_next(counts, later);
    Ok(made)
}

/// Makes a gatherer from the nets of its input and the ready of its output. After an error the builder is to be dropped.
#[tactic(auto, using(net_parts::specs::Laws::growing))]
pub fn emit_gatherer(
    builder: &mut Builder,
    shape: GathererShape,
    from: &WordNets,
    ready: Net,
) -> Result<GathererNets, NetFault>
    requires shape { IsShape shape }
    requires from { AreWordNets builder.old shape.channel_bits shape.word_bits from.now }
    requires ready { IsBit builder.old ready }
    ensures ready { IfOk result (λ made. IsBit builder.new made.ready) }
    ensures valid { IfOk result (λ made. IsBit builder.new made.valid) }
    ensures word { IfOk result (λ made. IsNetOfWidth builder.new made.word (shape.word_bits * shape.parts)) }
    ensures gathers { IfOk result (λ made. GathersInLonger builder.new shape from.now ready made) }
    ensures whole { OnOk result (LeavesWhole (9 * shape.channels + 11) builder.old builder.new) }
    ensures full { result ≡ Err NetFault.TooManyNets
        → (2 ^ 20 < length builder.old.lines + (9 * shape.channels + 11)) ⊎ (2 ^ 16 < length builder.old.memories + 1) }
{
    gatherer_gathers();
    let made = count_channels(builder, shape, from, ready)?;
    let word = join_words(
        builder,
        from,
        shape.channel_bits,
        shape.word_bits,
        shape.parts,
        made.moves,
    )?;
    Ok(GathererNets {
        ready: made.room,
        valid: made.valid,
        word,
    })
}
