//! The unanswered reads of a host that reads in bursts: their counts in a queue of 16, and the words that the oldest has got.

ghost use Rattle.std.specs.Prelude.{◌≡◌, ℕ, ◌+◌, ◌-◌, ◌*◌, ◌^◌, ◌<◌, ◌≤◌, ◌⊎◌, not, ◌&&◌, ◌||◌, nat_eq, if◌then◌else◌, [], ◌∷◌, length, IfOk, OnOk};
ghost use Rattle.histories.specs.History.{is_raised, one_if};
ghost use Rattle.iface_roles.specs.Proper.{IsBoundedHost};
ghost use Rattle.netlist.specs.Netlists.{IsNet, IsWaiting, WaitsForWrite};
ghost use Rattle.netlist.specs.Runs.{Always};
ghost use Rattle.net_parts.specs.Nets.{IsBit, IsNetOfWidth, StartsLow};
ghost use Rattle.net_parts.specs.Growth.{GrowsInMemory, AddsNets, StillWait, WaitsBeside, WaitsWithout, StillWaitForWrite, WriteWaitsBeside, WriteWaitsWithout};
ghost use Rattle.item_queues.specs.Queues.{owns_memories};
ghost use Rattle.memory_runs.specs.Sides.{burst_width};
ghost use Rattle.mm_host.specs.Queued.{owns_words, AreWordsHeld, AnswersOldest, WordsGoOn};

use crate::fields::count_bits;
use command_nets::{both, register, take_next};
use iface_roles::HostPort;
use item_queues::{ItemQueue, finish_queue, hold_items, read_oldest};
use net_parts::{choose, constant, fit_bits};
use netlist::{Builder, Net, NetFault};

/// The most unanswered reads of a host.
const MOST_READS: u8 = 16;

/// The words that the oldest read has got after a cycle, none where it goes.
#[tactic(auto, using(net_parts::specs::Laws::growing))]
fn count_got(
    builder: &mut Builder,
    got: Net,
    goes: Net,
    lacks: Net,
    last: Net,
    bits: u8,
) -> Result<Net, NetFault>
    requires got { IsNetOfWidth builder.old got bits }
    requires goes { IsBit builder.old goes }
    requires lacks { IsNetOfWidth builder.old lacks bits }
    requires last { IsBit builder.old last }
    requires some { 1 ≤ bits }
    requires few { bits ≤ 128 }
    ensures net { IfOk result (λ next. IsNetOfWidth builder.new next bits) }
    ensures value { IfOk result (λ next. Always builder.new (λ cycle. cycle.net got.number + cycle.net lacks.number < 2 ^ bits
        → cycle.net next.number
        ≡ (if is_raised (cycle.net last.number) then 0
        else cycle.net got.number + one_if (is_raised (cycle.net goes.number) && not (nat_eq (cycle.net lacks.number) 0))))) }
    ensures adds { AddsNets 7 builder.old builder.new }
    ensures full { result ≡ Err NetFault.TooManyNets → 2 ^ 20 < length builder.old.lines + 7 }
{
    let some = builder.any(lacks)?;
    let more = both(builder, goes, some)?;
    let step = fit_bits(builder, more, 1, bits)?;
    let sum = builder.add(got, step)?;
    let zero = constant(builder, bits, 0)?;
    choose(builder, last, zero, sum)
}

/// What a word does to the oldest read.
#[derive(Clone, Copy)]
pub(crate) struct Answered {
    /// One bit: it was the last one, and the read goes.
    pub last: Net,
    /// The words that the oldest read has got in the next cycle.
    pub next: Net,
}

/// Answers the oldest read where a word comes.
#[tactic(auto, using(net_parts::specs::Laws::growing))]
fn answer_oldest(
    builder: &mut Builder,
    valid: Net,
    some: Net,
    beats: Net,
    got: Net,
    bits: u8,
) -> Result<Answered, NetFault>
    requires valid { IsBit builder.old valid }
    requires some_read { IsBit builder.old some }
    requires beats { IsNetOfWidth builder.old beats bits }
    requires got { IsNetOfWidth builder.old got bits }
    requires some { 1 ≤ bits }
    requires few { bits ≤ 128 }
    ensures last { IfOk result (λ made. IsBit builder.new made.last) }
    ensures next { IfOk result (λ made. IsNetOfWidth builder.new made.next bits) }
    ensures value { IfOk result (λ made. AnswersOldest builder.new valid some beats got made.last made.next) }
    ensures adds { AddsNets 12 builder.old builder.new }
    ensures full { result ≡ Err NetFault.TooManyNets → 2 ^ 20 < length builder.old.lines + 12 }
{
    let goes = both(builder, valid, some)?;
    let lacks = builder.sub(beats, got)?;
    let one = constant(builder, bits, 1)?;
    let single = builder.eq(lacks, one)?;
    let last = both(builder, goes, single)?;
    let next = count_got(builder, got, goes, lacks, last, bits)?;
    Ok(Answered { last, next })
}

/// The only net of an item.
fn only_net(item: &[Net; 1]) -> Net
    ensures { item.now ≡ result ∷ [] }
{
    let [net] = *item;
    net
}

/// The queue of the counts, and the words that the oldest read has got.
#[derive(Clone, Copy)]
pub(crate) struct HeldWords {
    pub queue: ItemQueue<1>,
    pub got: Net,
}

/// Makes a queue for the counts of the unanswered reads, whose number stands: there is none yet.
#[tactic(auto, using(net_parts::specs::Laws::growing))]
fn hold_words(
    builder: &mut Builder,
    bits: u8,
    count: Net,
    unanswered: Net,
) -> Result<HeldWords, NetFault>
    requires some { 1 ≤ bits }
    requires few { bits ≤ 128 }
    requires count { IsNet builder.old count }
    requires unanswered { IsNetOfWidth builder.old unanswered 5 }
    requires low { StartsLow builder.old unanswered }
    requires waits { IsWaiting builder.old unanswered.number }
    ensures held { IfOk result (AreWordsHeld builder.new bits count unanswered) }
    ensures owned { IfOk result (λ held. (n : ℕ) → owns_words held n → (n ≡ unanswered.number) ⊎ (length builder.old.lines ≤ n)) }
    ensures owned_memories { IfOk result (λ held. (m : ℕ) → owns_memories held.queue m → length builder.old.memories ≤ m) }
    ensures grows { GrowsInMemory 4 1 builder.old builder.new }
    ensures still_wait { StillWait builder.old builder.new }
    ensures own_wait { IfOk result (λ held. (n : ℕ) → owns_words held n → IsWaiting builder.new n) }
    ensures newly { IfOk result (λ held. WaitsBeside (owns_words held) builder.old builder.new) }
    ensures still_wait_for_write { StillWaitForWrite builder.old builder.new }
    ensures own_wait_for_write { IfOk result (λ held. (m : ℕ) → owns_memories held.queue m → WaitsForWrite builder.new m) }
    ensures newly_written { IfOk result (λ held. WriteWaitsBeside (owns_memories held.queue) builder.old builder.new) }
    ensures full { result ≡ Err NetFault.TooManyNets
        → (2 ^ 20 < length builder.old.lines + 4) ⊎ (2 ^ 16 < length builder.old.memories + 1) }
{
    let queue = hold_items(builder, &[count], MOST_READS, unanswered)?;
    let got = register(builder, bits)?;
    Ok(HeldWords { queue, got })
}

/// Lets the queue go on: a read that is taken below comes with its count, and the oldest one goes with its last word.
#[tactic(auto, using(net_parts::specs::Laws::growing))]
fn move_words(
    builder: &mut Builder,
    bits: u8,
    count: Net,
    unanswered: Net,
    held: HeldWords,
    taken: Net,
    valid: Net,
) -> Result<(), NetFault>
    requires some { 1 ≤ bits }
    requires few { bits ≤ 128 }
    requires count { IsNetOfWidth builder.old count bits }
    requires unanswered { IsNet builder.old unanswered }
    requires held { AreWordsHeld builder.old bits count unanswered held }
    requires taken { IsBit builder.old taken }
    requires valid { IsBit builder.old valid }
    requires waits { (n : ℕ) → owns_words held n → IsWaiting builder.old n }
    requires waits_for_write { (m : ℕ) → owns_memories held.queue m → WaitsForWrite builder.old m }
    ensures on { OnOk result (WordsGoOn builder.new count unanswered taken valid) }
    ensures grows { GrowsInMemory 34 0 builder.old builder.new }
    ensures waits { (n : ℕ) → ¬ owns_words held n → IsWaiting builder.old n → IsWaiting builder.new n }
    ensures no_more_wait { OnOk result (WaitsWithout (owns_words held) builder.old builder.new) }
    ensures still_wait_for_write { (m : ℕ) → ¬ owns_memories held.queue m → WaitsForWrite builder.old m
        → WaitsForWrite builder.new m }
    ensures no_more_write { OnOk result (WriteWaitsWithout (owns_memories held.queue) builder.old builder.new) }
    ensures full { result ≡ Err NetFault.TooManyNets → 2 ^ 20 < length builder.old.lines + 34 }
{
    let some = builder.any(unanswered)?;
    let oldest = read_oldest(builder, &held.queue, &[count])?;
    let beats = only_net(&oldest);
    let answered = answer_oldest(builder, valid, some, beats, held.got, bits)?;
    finish_queue(builder, &held.queue, &[count], taken, answered.last)?;
    take_next(builder, held.got, answered.next);
    Ok(())
}

/// Counts the words of reads in bursts: a read that is taken below comes with its count, and the oldest one goes with its last
/// word.
pub(crate) fn count_words(
    builder: &mut Builder,
    port: &HostPort,
    count: Net,
    unanswered: Net,
    taken: Net,
    valid: Net,
) -> Result<(), NetFault>
    requires port { IsBoundedHost port.now }
    requires count { IsNetOfWidth builder.old count (burst_width port.now.burst_bits) }
    requires unanswered { IsNetOfWidth builder.old unanswered 5 }
    requires low { StartsLow builder.old unanswered }
    requires taken { IsBit builder.old taken }
    requires valid { IsBit builder.old valid }
    requires waits { IsWaiting builder.old unanswered.number }
    ensures on { OnOk result (WordsGoOn builder.new count unanswered taken valid) }
    ensures grows { GrowsInMemory 38 1 builder.old builder.new }
    ensures waits { (n : ℕ) → ¬ (n ≡ unanswered.number) → IsWaiting builder.old n → IsWaiting builder.new n }
    ensures no_more_wait { OnOk result (WaitsWithout (λ n. n ≡ unanswered.number) builder.old builder.new) }
    ensures still_wait_for_write { StillWaitForWrite builder.old builder.new }
    ensures no_more_wait_for_write { OnOk result (StillWaitForWrite builder.new builder.old) }
    ensures full { result ≡ Err NetFault.TooManyNets
        → (2 ^ 20 < length builder.old.lines + 38) ⊎ (2 ^ 16 < length builder.old.memories + 1) }
{
    let bits = count_bits(port);
    match hold_words(builder, bits, count, unanswered) {
        Ok(held) => move_words(builder, bits, count, unanswered, held, taken, valid),
        Err(fault) => Err(fault),
    }
}
