//! How many words of the oldest read came, and when its last one comes.

ghost use Rattle.std.specs.Prelude.{◌≡◌, ℕ, ◌+◌, ◌/◌, ◌%◌, ◌^◌, ◌<◌, ◌≤◌, ◌==◌, not, ◌&&◌, if◌then◌else◌, nat_eq, length, IfOk, OnOk, None, Some};
ghost use Rattle.histories.specs.History.{is_raised};
ghost use Rattle.netlist.specs.Netlists.{IsNet, IsWaiting};
ghost use Rattle.netlist.specs.Runs.{Always};
ghost use Rattle.net_parts.specs.Nets.{IsBit, IsNetOfWidth};
ghost use Rattle.net_parts.specs.Growth.{GrowsBy, AddsNets, StillWait, WaitsBeside, WaitsWithout, AreMadeBetween};
ghost use Rattle.command_nets.specs.Ports.{HasNet, value_or};
ghost use Rattle.read_queues.specs.Held.{owns_words, AreWordNets, AreWordsHeld, AreWordsOf, AnswersOldest, GotGoesOn, entry, entry_of, has_counts, count_width, bits_of};

use command_nets::count_until;
use net_parts::{both, constant, register, take_next};
use netlist::{Builder, Net, NetFault};

/// How many words the oldest read has, and how many of them came.
#[derive(Clone, Copy)]
pub enum OldestWords {
    /// Each read has one word.
    One,
    /// The count of the oldest read, and a register: so many of its words came.
    Counted { count: Net, got: Net },
}

/// The bits of a word of the memory: a tag, and above it a count where there are counts.
pub(crate) fn word_bits(tag_bits: u8, count_bits: Option<u8>) -> u8
    requires { bits_of count_bits + tag_bits ≤ 128 }
    ensures { result ≡ bits_of count_bits + tag_bits }
{
    match count_bits {
        None => tag_bits,
        Some(bits) => bits + tag_bits,
    }
}

/// The count of the oldest read, which stands in its word above the tag, and a register for the words that came.
#[tactic(auto, using(net_parts::specs::Laws::growing))]
fn hold_counted(
    builder: &mut Builder,
    oldest: Net,
    tag_bits: u8,
    bits: u8,
) -> Result<OldestWords, NetFault>
    requires oldest { IsNetOfWidth builder.old oldest (bits + tag_bits) }
    requires some_tag { 1 ≤ tag_bits }
    requires some { 1 ≤ bits }
    requires few { bits + tag_bits ≤ 128 }
    ensures held { IfOk result (λ words. AreWordsHeld builder.new oldest tag_bits words) }
    ensures kind { IfOk result (λ words. AreWordsOf (Some bits) words) }
    ensures owned { IfOk result (λ words. AreMadeBetween (owns_words words) builder.old builder.new) }
    ensures grows { GrowsBy 2 builder.old builder.new }
    ensures still_wait { StillWait builder.old builder.new }
    ensures own_wait { IfOk result (λ words. (n : ℕ) → owns_words words n → IsWaiting builder.new n) }
    ensures newly { IfOk result (λ words. WaitsBeside (owns_words words) builder.old builder.new) }
    ensures full { result ≡ Err NetFault.TooManyNets → 2 ^ 20 < length builder.old.lines + 2 }
{
    let count = builder.slice(oldest, bits + tag_bits - 1, tag_bits)?;
    let got = register(builder, bits)?;
    Ok(OldestWords::Counted { count, got })
}

/// What tells of the words of the oldest read.
pub(crate) fn hold_words(
    builder: &mut Builder,
    oldest: Net,
    tag_bits: u8,
    count_bits: Option<u8>,
) -> Result<OldestWords, NetFault>
    requires oldest { IsNetOfWidth builder.old oldest (bits_of count_bits + tag_bits) }
    requires some_tag { 1 ≤ tag_bits }
    requires some { (bits : ℕ) → count_bits ≡ Some bits → 1 ≤ bits }
    requires few { bits_of count_bits + tag_bits ≤ 128 }
    ensures held { IfOk result (λ words. AreWordsHeld builder.new oldest tag_bits words) }
    ensures kind { IfOk result (λ words. AreWordsOf count_bits words) }
    ensures owned { IfOk result (λ words. AreMadeBetween (owns_words words) builder.old builder.new) }
    ensures grows { GrowsBy 2 builder.old builder.new }
    ensures still_wait { StillWait builder.old builder.new }
    ensures own_wait { IfOk result (λ words. (n : ℕ) → owns_words words n → IsWaiting builder.new n) }
    ensures newly { IfOk result (λ words. WaitsBeside (owns_words words) builder.old builder.new) }
    ensures full { result ≡ Err NetFault.TooManyNets → 2 ^ 20 < length builder.old.lines + 2 }
{
    match count_bits {
        None => Ok(OldestWords::One),
        Some(bits) => hold_counted(builder, oldest, tag_bits, bits),
    }
}

/// The word of a read: its tag, and above it its count where there are counts.
#[tactic(auto, using(net_parts::specs::Laws::growing))]
pub(crate) fn word_of(
    builder: &mut Builder,
    words: &OldestWords,
    tag: Net,
    count: Option<Net>,
) -> Result<Net, NetFault>
    requires tag { IsNet builder.old tag }
    requires count { HasNet builder.old (has_counts words.now) (count_width words.now) count }
    requires few { count_width words.now + tag.width ≤ 128 }
    ensures net { IfOk result (λ word. IsNetOfWidth builder.new word (count_width words.now + tag.width)) }
    ensures value { IfOk result (λ word. Always builder.new (λ cycle. entry_of words.now tag.width (cycle.net word.number)
        ≡ entry (cycle.net tag.number) (value_or 1 count cycle))) }
    ensures adds { AddsNets 1 builder.old builder.new }
    ensures full { result ≡ Err NetFault.TooManyNets → 2 ^ 20 < length builder.old.lines + 1 }
{
    match count {
        None => Ok(tag),
        Some(net) => builder.concat(net, tag),
    }
}

/// Lets the register of a read's words go on, and tells whether the last one comes.
#[tactic(auto, using(net_parts::specs::Laws::growing))]
fn finish_counted(builder: &mut Builder, count: Net, got: Net, came: Net) -> Result<Net, NetFault>
    requires count { IsNet builder.old count }
    requires got { IsNetOfWidth builder.old got count.width }
    requires came { IsBit builder.old came }
    requires waits { IsWaiting builder.old got.number }
    ensures net { IfOk result (λ last. IsBit builder.new last) }
    ensures answers { IfOk result (λ last. AnswersOldest builder.new (OldestWords.Counted count got) came last) }
    ensures goes_on { IfOk result (λ last. GotGoesOn builder.new (OldestWords.Counted count got) came last) }
    ensures grows { GrowsBy 7 builder.old builder.new }
    ensures waits { (n : ℕ) → ¬ (n ≡ got.number) → IsWaiting builder.old n → IsWaiting builder.new n }
    ensures no_more_wait { OnOk result (WaitsWithout (λ n. n ≡ got.number) builder.old builder.new) }
    ensures full { result ≡ Err NetFault.TooManyNets → 2 ^ 20 < length builder.old.lines + 7 }
{
    let bits = builder.width(got);
    let one = constant(builder, bits, 1)?;
    let more = builder.add(got, one)?;
    let all = builder.eq(more, count)?;
    let last = both(builder, came, all)?;
    let next = count_until(builder, got, more, came, last)?;
    take_next(builder, got, next);
    Ok(last)
}

/// Whether the last word of the oldest read comes, where `came` says that a word comes for it.
pub(crate) fn finish_words(
    builder: &mut Builder,
    words: &OldestWords,
    came: Net,
) -> Result<Net, NetFault>
    requires nets { AreWordNets builder.old words.now }
    requires came { IsBit builder.old came }
    requires waits { (n : ℕ) → owns_words words.now n → IsWaiting builder.old n }
    ensures net { IfOk result (λ last. IsBit builder.new last) }
    ensures answers { IfOk result (λ last. AnswersOldest builder.new words.now came last) }
    ensures goes_on { IfOk result (λ last. GotGoesOn builder.new words.now came last) }
    ensures grows { GrowsBy 7 builder.old builder.new }
    ensures waits { (n : ℕ) → ¬ owns_words words.now n → IsWaiting builder.old n → IsWaiting builder.new n }
    ensures no_more_wait { OnOk result (WaitsWithout (owns_words words.now) builder.old builder.new) }
    ensures full { result ≡ Err NetFault.TooManyNets → 2 ^ 20 < length builder.old.lines + 7 }
{
    match words {
        OldestWords::One => Ok(came),
        OldestWords::Counted { count, got } => finish_counted(builder, *count, *got, came),
    }
}
