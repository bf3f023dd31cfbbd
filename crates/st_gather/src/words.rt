//! The words that each channel has, in a memory.

ghost use Rattle.std.specs.Prelude.{◌≡◌, ◌+◌, ◌-◌, ◌*◌, ◌^◌, ◌<◌, ◌≤◌, ◌⊎◌, length, Err, IfOk, OnOk};
ghost use Rattle.net_parts.specs.Nets.{IsBit, IsNetOfWidth};
ghost use Rattle.st_gather.specs.Words.{AreWordNets, JoinsWords};
ghost use Rattle.st_gather.specs.Whole.{LeavesWhole};

use netlist::{Builder, Net, NetFault};

/// The nets of an end beside `ready`.
#[derive(Clone, Copy)]
pub struct WordNets {
    /// One bit.
    pub valid: Net,
    pub word: Net,
    pub channel: Net,
}

/// The words that the channel has, and behind them the one that comes. Where `moves` is high the channel has this one too from
/// then on, and of all that it has the latest ones, one fewer than a beat.
#[tactic(auto, using(net_parts::specs::Laws::growing))]
pub(crate) fn join_words(
    builder: &mut Builder,
    from: &WordNets,
    channel_bits: u8,
    word_bits: u8,
    parts: u8,
    moves: Net,
) -> Result<Net, NetFault>
    requires from { AreWordNets builder.old channel_bits word_bits from.now }
    requires some_channel { 1 ≤ channel_bits }
    requires few_channels { channel_bits ≤ 4 }
    requires some_bit { 1 ≤ word_bits }
    requires some_parts { 2 ≤ parts }
    requires narrow { word_bits * parts ≤ 128 }
    requires moves { IsBit builder.old moves }
    ensures net { IfOk result (λ word. IsNetOfWidth builder.new word (word_bits * parts)) }
    ensures joins { IfOk result (λ word. JoinsWords builder.new from.now channel_bits word_bits parts moves word) }
    ensures whole { OnOk result (LeavesWhole 3 builder.old builder.new) }
    ensures full { result ≡ Err NetFault.TooManyNets
        → (2 ^ 20 < length builder.old.lines + 3) ⊎ (2 ^ 16 < length builder.old.memories + 1) }
{
    let kept_bits = word_bits * (parts - 1);
    let memory = builder.memory(kept_bits, channel_bits)?;
    let had = builder.read_memory(memory, from.channel)?;
    let word = builder.concat(had, from.word)?;
    let kept = builder.slice(word, kept_bits - 1, 0)?;
    builder.set_write(memory, moves, from.channel, kept);
    Ok(word)
}
