//! The queue: its nets, and what they do from cycle to cycle.

ghost use Rattle.std.specs.Prelude.{◌≡◌, ℕ, ◌+◌, ◌^◌, ◌<◌, ◌≤◌, ◌⊎◌, length, IfOk, OnOk, Some};
ghost use Rattle.netlist.specs.Netlists.{IsNet, IsMem, IsWaiting, WaitsForWrite};
ghost use Rattle.net_parts.specs.Nets.{IsBit, IsNetOfWidth};
ghost use Rattle.net_parts.specs.Growth.{GrowsBy, GrowsInMemory, StillWait, WaitsBeside, WaitsWithout, AreMadeBetween, StillWaitForWrite, WriteWaitsBeside, WriteWaitsWithout};
ghost use Rattle.command_nets.specs.Ports.{HasNet};
ghost use Rattle.read_queues.specs.Held.{owns_queue, IsQueueMade, AreWordsOf, RegistersGoOn, TellsByState, bits_of, has_counts, count_width};
ghost use Rattle.read_queues.specs.Queues.{RunsAsQueue};

use crate::memory::{make_memory, take_writes};
use crate::pointers::{Pointers, hold_pointers};
use crate::words::{OldestWords, finish_words, hold_words, word_bits, word_of};
use item_queues::{address_bits, move_count, move_pointer};
use net_parts::{both, fit_bits, is_above};
use netlist::{Builder, Mem, Net, NetFault};

/// The nets of the unanswered reads, which stand in a memory from the place of the oldest one on.
#[derive(Clone, Copy)]
pub struct HeldReadQueue {
    /// The most unanswered reads.
    pub bound: u8,
    /// One bit: there are as many. By registers alone.
    pub full: Net,
    /// The tag of the oldest read. By registers and the memory alone.
    pub tag: Net,
    pub pointers: Pointers,
    pub memory: Mem,
    pub words: OldestWords,
}

/// What comes to the queue.
#[derive(Clone, Copy)]
pub struct ReadTraffic {
    /// One bit: a read is taken. Only while the queue isn't full.
    pub taken: Net,
    /// Its tag.
    pub tag: Net,
    /// How many words it has, at least 1; none where each read has one word.
    pub count: Option<Net>,
    /// One bit: a word comes that answers the oldest read.
    pub valid: Net,
}

/// The registers of a queue in this memory, and the nets that tell of the queue.
#[tactic(auto, using(net_parts::specs::Laws::growing))]
fn hold_queue(
    builder: &mut Builder,
    memory: Mem,
    bound: u8,
    tag_bits: u8,
    count_bits: Option<u8>,
    deep: u8,
) -> Result<HeldReadQueue, NetFault>
    requires memory { IsMem builder.old memory }
    requires some { 1 ≤ bound }
    requires few { bound ≤ 64 }
    requires some_tag { 1 ≤ tag_bits }
    requires some_count { (bits : ℕ) → count_bits ≡ Some bits → 1 ≤ bits }
    requires small { memory.width ≤ 128 }
    requires word { memory.width ≡ bits_of count_bits + tag_bits }
    requires some_place { 1 ≤ deep }
    requires few_places { deep ≤ 128 }
    requires places { memory.address_bits ≡ deep }
    requires depth { bound ≤ 2 ^ deep }
    requires shallow { (bits : ℕ) → 1 ≤ bits → bound ≤ 2 ^ bits → deep ≤ bits }
    ensures made { IfOk result (λ held. IsQueueMade builder.new held) }
    ensures memory { IfOk result (λ held. held.memory ≡ memory) }
    ensures bound { IfOk result (λ held. held.bound ≡ bound) }
    ensures tag { IfOk result (λ held. held.tag.width ≡ tag_bits) }
    ensures kind { IfOk result (λ held. AreWordsOf count_bits held.words) }
    ensures owned { IfOk result (λ held. AreMadeBetween (owns_queue held) builder.old builder.new) }
    ensures grows { GrowsBy 10 builder.old builder.new }
    ensures still_wait { StillWait builder.old builder.new }
    ensures own_wait { IfOk result (λ held. (n : ℕ) → owns_queue held n → IsWaiting builder.new n) }
    ensures newly { IfOk result (λ held. WaitsBeside (owns_queue held) builder.old builder.new) }
    ensures full { result ≡ Err NetFault.TooManyNets → 2 ^ 20 < length builder.old.lines + 10 }
{
    let pointers = hold_pointers(builder, bound, deep)?;
    let width = builder.width(pointers.unanswered);
    let full = is_above(builder, pointers.unanswered, width, u32::from(bound - 1))?;
    let oldest = builder.read_memory(memory, pointers.first)?;
    let tag = fit_bits(builder, oldest, word_bits(tag_bits, count_bits), tag_bits)?;
    let words = hold_words(builder, oldest, tag_bits, count_bits)?;
    Ok(HeldReadQueue {
        bound,
        full,
        tag,
        pointers,
        memory,
        words,
    })
}

/// Makes the nets of a queue of at most `bound` reads, of which there is none yet. Tags have so many bits, and so have counts;
/// without counts each read has one word. How many reads there are and their places in the memory are told in the fewest bits
/// that the bound allows.
pub fn make_queue(
    builder: &mut Builder,
    bound: u8,
    tag_bits: u8,
    count_bits: Option<u8>,
) -> Result<HeldReadQueue, NetFault>
    requires some { 1 ≤ bound }
    requires few { bound ≤ 64 }
    requires some_tag { 1 ≤ tag_bits }
    requires some_count { (bits : ℕ) → count_bits ≡ Some bits → 1 ≤ bits }
    requires small { bits_of count_bits + tag_bits ≤ 128 }
    ensures made { IfOk result (λ held. IsQueueMade builder.new held) }
    ensures bound { IfOk result (λ held. held.bound ≡ bound) }
    ensures tag { IfOk result (λ held. held.tag.width ≡ tag_bits) }
    ensures kind { IfOk result (λ held. AreWordsOf count_bits held.words) }
    ensures ignores { IfOk result (λ held. TellsByState builder.new held) }
    ensures owned { IfOk result (λ held. AreMadeBetween (owns_queue held) builder.old builder.new) }
    ensures owned_memory { IfOk result (λ held. (length builder.old.memories ≤ held.memory.number)
        × (held.memory.number < length builder.new.memories)) }
    ensures grows { GrowsInMemory 10 1 builder.old builder.new }
    ensures still_wait { StillWait builder.old builder.new }
    ensures own_wait { IfOk result (λ held. (n : ℕ) → owns_queue held n → IsWaiting builder.new n) }
    ensures newly { IfOk result (λ held. WaitsBeside (owns_queue held) builder.old builder.new) }
    ensures still_wait_for_write { StillWaitForWrite builder.old builder.new }
    ensures own_waits_for_write { IfOk result (λ held. WaitsForWrite builder.new held.memory.number) }
    ensures newly_written { IfOk result (λ held. WriteWaitsBeside (λ m. m ≡ held.memory.number) builder.old builder.new) }
    ensures full { result ≡ Err NetFault.TooManyNets
        → (2 ^ 20 < length builder.old.lines + 10) ⊎ (2 ^ 16 < length builder.old.memories + 1) }
{
    let deep = address_bits(bound);
    let memory = make_memory(builder, word_bits(tag_bits, count_bits), deep)?;
    hold_queue(builder, memory, bound, tag_bits, count_bits, deep)
}

/// Gives the registers their next nets.
#[tactic(auto, using(net_parts::specs::Laws::growing))]
fn finish_registers(
    builder: &mut Builder,
    held: &HeldReadQueue,
    traffic: &ReadTraffic,
) -> Result<(), NetFault>
    requires held { IsQueueMade builder.old held.now }
    requires taken { IsBit builder.old traffic.now.taken }
    requires valid { IsBit builder.old traffic.now.valid }
    requires waits { (n : ℕ) → owns_queue held.now n → IsWaiting builder.old n }
    ensures on { OnOk result (RegistersGoOn builder.new held.now traffic.now) }
    ensures grows { GrowsBy 21 builder.old builder.new }
    ensures waits { (n : ℕ) → ¬ owns_queue held.now n → IsWaiting builder.old n → IsWaiting builder.new n }
    ensures no_more_wait { OnOk result (WaitsWithout (owns_queue held.now) builder.old builder.new) }
    ensures full { result ≡ Err NetFault.TooManyNets → 2 ^ 20 < length builder.old.lines + 21 }
{
    let pointers = held.pointers;
    let some = builder.any(pointers.unanswered)?;
    let came = both(builder, traffic.valid, some)?;
    let last = finish_words(builder, &held.words, came)?;
    move_pointer(builder, pointers.first, last)?;
    move_pointer(builder, pointers.next, traffic.taken)?;
    move_count(builder, pointers.unanswered, traffic.taken, last)
}

/// Lets the queue go on: a read that is taken becomes its newest one, and a word answers its oldest one.
pub fn finish_queue(
    builder: &mut Builder,
    held: &HeldReadQueue,
    traffic: &ReadTraffic,
) -> Result<(), NetFault>
    requires held { IsQueueMade builder.old held.now }
    requires taken { IsBit builder.old traffic.now.taken }
    requires tag { IsNetOfWidth builder.old traffic.now.tag held.now.tag.width }
    requires count { HasNet builder.old (has_counts held.now.words) (count_width held.now.words) traffic.now.count }
    requires valid { IsBit builder.old traffic.now.valid }
    requires waits { (n : ℕ) → owns_queue held.now n → IsWaiting builder.old n }
    requires waits_for_write { WaitsForWrite builder.old held.now.memory.number }
    ensures runs { OnOk result (RunsAsQueue builder.new held.now traffic.now) }
    ensures grows { GrowsInMemory 22 0 builder.old builder.new }
    ensures waits { (n : ℕ) → ¬ owns_queue held.now n → IsWaiting builder.old n → IsWaiting builder.new n }
    ensures no_more_wait { OnOk result (WaitsWithout (owns_queue held.now) builder.old builder.new) }
    ensures still_wait_for_write { (m : ℕ) → ¬ (m ≡ held.now.memory.number) → WaitsForWrite builder.old m
        → WaitsForWrite builder.new m }
    ensures no_more_write { OnOk result (WriteWaitsWithout (λ m. m ≡ held.now.memory.number) builder.old builder.new) }
    ensures full { result ≡ Err NetFault.TooManyNets → 2 ^ 20 < length builder.old.lines + 22 }
{
    finish_registers(builder, held, traffic)?;
    let word = word_of(builder, &held.words, traffic.tag, traffic.count)?;
    take_writes(
        builder,
        held.memory,
        traffic.taken,
        held.pointers.next,
        word,
    );
    Ok(())
}
