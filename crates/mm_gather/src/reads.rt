//! The reads under way and the words that have come of them.

ghost use Rattle.std.specs.Prelude.{◌≡◌, ℕ, ◌+◌, ◌*◌, ◌/◌, ◌%◌, ◌^◌, ◌<◌, ◌≤◌, ◌⊎◌, not, ◌&&◌, nat_lt, if◌then◌else◌, List, ◌∷◌, [], length, IfOk, OnOk};
ghost use Rattle.histories.specs.History.{is_raised};
ghost use Rattle.netlist.specs.Runs.{Always};
ghost use Rattle.item_queues.specs.Storages.{shown_oldest};
ghost use Rattle.netlist.specs.Netlists.{IsNet, IsWaiting, WaitsForWrite};
ghost use Rattle.net_parts.specs.Nets.{IsBit, IsNetOfWidth};
ghost use Rattle.net_parts.specs.Groups.{group_widths};
ghost use Rattle.net_parts.specs.Growth.{AddsNets, GrowsInMemory, StillWait, WaitsBeside, WaitsWithout, AreMadeBetween, StillWaitForWrite, WriteWaitsBeside, WriteWaitsWithout};
ghost use Rattle.item_queues.specs.Queues.{owns, owns_memories, IsQueueMade, StartsEmpty, held_in};
ghost use Rattle.mm_gather.specs.Reads.{AreReadsHeld, HoldNoReads, GivesNow, ReadsGoOn, owns_reads, owns_read_memories};

use command_nets::{register, take_next, unless};
use item_queues::{ItemQueue, finish_queue, make_queue, read_oldest};
use mm_select::take_place;
use net_parts::{choose, constant};
use netlist::{Builder, Net, NetFault};

/// The reads under way, and the words that have come of them.
#[derive(Clone, Copy)]
pub struct HeldReads {
    /// Of each read under way the place of its first narrow word, and how many there are.
    pub entries: ItemQueue<2>,
    /// The wide words that have come, with their codes.
    pub words: ItemQueue<2>,
    /// How many narrow words of the oldest are given.
    pub given: Net,
}

/// A queue for so many words of so many bits, with their codes.
#[tactic(auto, using(net_parts::specs::Laws::growing))]
fn hold_words(builder: &mut Builder, bits: u8, reads: u8) -> Result<ItemQueue<2>, NetFault>
    requires some { 1 ≤ reads }
    requires some_bits { 1 ≤ bits }
    requires few_bits { bits ≤ 128 }
    ensures made { IfOk result (λ queue. (like : _) × (group_widths like ≡ bits ∷ 2 ∷ []) × IsQueueMade builder.new like queue) }
    ensures bound { IfOk result (λ queue. queue.bound ≡ reads) }
    ensures starts { IfOk result (λ queue. StartsEmpty builder.new queue) }
    ensures owned { IfOk result (λ queue. AreMadeBetween (owns queue) builder.old builder.new) }
    ensures owned_memories { IfOk result (λ queue. (m : ℕ) → owns_memories queue m
        → (length builder.old.memories ≤ m) × (m < length builder.new.memories)) }
    ensures grows { GrowsInMemory 9 2 builder.old builder.new }
    ensures still_wait { StillWait builder.old builder.new }
    ensures own_wait { IfOk result (λ queue. (n : ℕ) → owns queue n → IsWaiting builder.new n) }
    ensures newly { IfOk result (λ queue. WaitsBeside (owns queue) builder.old builder.new) }
    ensures still_wait_for_write { StillWaitForWrite builder.old builder.new }
    ensures own_wait_for_write { IfOk result (λ queue. (m : ℕ) → owns_memories queue m → WaitsForWrite builder.new m) }
    ensures newly_written { IfOk result (λ queue. WriteWaitsBeside (owns_memories queue) builder.old builder.new) }
    ensures full { result ≡ Err NetFault.TooManyNets
        → (2 ^ 20 < length builder.old.lines + 9) ⊎ (2 ^ 16 < length builder.old.memories + 2) }
{
    let word = constant(builder, bits, 0)?;
    let code = constant(builder, 2, 0)?;
    make_queue(builder, &[word, code], reads)
}

/// Room for so many reads, each with a place and a count, and for their words of so many bits.
#[tactic(auto, using(net_parts::specs::Laws::growing))]
pub(crate) fn hold_reads(
    builder: &mut Builder,
    place: Net,
    count: Net,
    bits: u8,
    reads: u8,
) -> Result<HeldReads, NetFault>
    requires place { IsNet builder.old place }
    requires count { IsNet builder.old count }
    requires some { 1 ≤ reads }
    requires some_bits { 1 ≤ bits }
    requires few_bits { bits ≤ 128 }
    ensures held { IfOk result (λ held. AreReadsHeld builder.new place count bits reads held) }
    ensures begins { IfOk result (λ held. HoldNoReads builder.new held) }
    ensures owned { IfOk result (λ held. AreMadeBetween (owns_reads held) builder.old builder.new) }
    ensures owned_memories { IfOk result (λ held. (m : ℕ) → owns_read_memories held m
        → (length builder.old.memories ≤ m) × (m < length builder.new.memories)) }
    ensures grows { GrowsInMemory 17 4 builder.old builder.new }
    ensures still_wait { StillWait builder.old builder.new }
    ensures own_wait { IfOk result (λ held. (n : ℕ) → owns_reads held n → IsWaiting builder.new n) }
    ensures newly { IfOk result (λ held. WaitsBeside (owns_reads held) builder.old builder.new) }
    ensures still_wait_for_write { StillWaitForWrite builder.old builder.new }
    ensures own_wait_for_write { IfOk result (λ held. (m : ℕ) → owns_read_memories held m → WaitsForWrite builder.new m) }
    ensures newly_written { IfOk result (λ held. WriteWaitsBeside (owns_read_memories held) builder.old builder.new) }
    ensures full { result ≡ Err NetFault.TooManyNets
        → (2 ^ 20 < length builder.old.lines + 17) ⊎ (2 ^ 16 < length builder.old.memories + 4) }
{
    let width = builder.width(count);
    let entries = make_queue(builder, &[place, count], reads)?;
    let words = hold_words(builder, bits, reads)?;
    let given = register(builder, width)?;
    Ok(HeldReads {
        entries,
        words,
        given,
    })
}

/// Both nets of an item.
pub(crate) fn both_nets(item: &[Net; 2]) -> (Net, Net)
    ensures { item.now ≡ result.0 ∷ result.1 ∷ [] }
{
    let [first, second] = *item;
    (first, second)
}

/// The place and the count of the oldest read.
#[tactic(auto, using(net_parts::specs::Laws::growing))]
fn oldest_read(
    builder: &mut Builder,
    held: &HeldReads,
    place: Net,
    count: Net,
) -> Result<(Net, Net), NetFault>
    requires entries { IsQueueMade builder.old (place ∷ count ∷ []) held.now.entries }
    ensures place { IfOk result (λ made. IsNetOfWidth builder.new made.0 place.width) }
    ensures count { IfOk result (λ made. IsNetOfWidth builder.new made.1 count.width) }
    ensures value { IfOk result (λ made. Always builder.new (λ cycle. 1 ≤ cycle.net held.now.entries.count.number
        → (coming : List ℕ)
        → shown_oldest (held_in cycle held.now.entries) coming ≡ 1 ∷ cycle.net made.0.number ∷ cycle.net made.1.number ∷ [])) }
    ensures adds { AddsNets 8 builder.old builder.new }
    ensures full { result ≡ Err NetFault.TooManyNets → 2 ^ 20 < length builder.old.lines + 8 }
{
    let oldest = read_oldest(builder, &held.entries, &[place, count])?;
    Ok(both_nets(&oldest))
}

/// One more, in as many bits.
#[tactic(auto, using(net_parts::specs::Laws::growing))]
fn one_more(builder: &mut Builder, given: Net) -> Result<Net, NetFault>
    requires given { IsNet builder.old given }
    ensures net { IfOk result (λ more. IsNetOfWidth builder.new more given.width) }
    ensures value { IfOk result (λ more. Always builder.new (λ cycle. cycle.net more.number
        ≡ (cycle.net given.number + 1) % 2 ^ given.width)) }
    ensures adds { AddsNets 2 builder.old builder.new }
    ensures full { result ≡ Err NetFault.TooManyNets → 2 ^ 20 < length builder.old.lines + 2 }
{
    let bits = builder.width(given);
    let one = constant(builder, bits, 1)?;
    builder.add(given, one)
}

/// Whether the word that is there is given for the last time: so many are given then, of as many.
#[tactic(auto, using(net_parts::specs::Laws::growing))]
fn last_now(builder: &mut Builder, full: Net, more: Net, many: Net) -> Result<Net, NetFault>
    requires full { IsBit builder.old full }
    requires more { IsNet builder.old more }
    requires many { IsNet builder.old many }
    requires widths { more.width ≡ many.width }
    ensures net { IfOk result (λ last. IsBit builder.new last) }
    ensures value { IfOk result (λ last. Always builder.new (λ cycle. is_raised (cycle.net last.number)
        ≡ (is_raised (cycle.net full.number) && not (nat_lt (cycle.net more.number) (cycle.net many.number))))) }
    ensures adds { AddsNets 3 builder.old builder.new }
    ensures full { result ≡ Err NetFault.TooManyNets → 2 ^ 20 < length builder.old.lines + 3 }
{
    let left = builder.less(more, many)?;
    unless(builder, full, left)
}

/// How many narrow words are given then: none where the last one is, and else one more where a word is there.
#[tactic(auto, using(net_parts::specs::Laws::growing))]
fn next_given(
    builder: &mut Builder,
    given: Net,
    more: Net,
    full: Net,
    last: Net,
) -> Result<Net, NetFault>
    requires given { IsNet builder.old given }
    requires more { IsNetOfWidth builder.old more given.width }
    requires full { IsBit builder.old full }
    requires last { IsBit builder.old last }
    ensures net { IfOk result (λ next. IsNetOfWidth builder.new next given.width) }
    ensures value { IfOk result (λ next. Always builder.new (λ cycle. cycle.net next.number
        ≡ (if is_raised (cycle.net last.number) then 0 else if is_raised (cycle.net full.number) then cycle.net more.number
        else cycle.net given.number))) }
    ensures adds { AddsNets 3 builder.old builder.new }
    ensures full { result ≡ Err NetFault.TooManyNets → 2 ^ 20 < length builder.old.lines + 3 }
{
    let bits = builder.width(given);
    let zero = constant(builder, bits, 0)?;
    let moved = choose(builder, full, more, given)?;
    choose(builder, last, zero, moved)
}

/// The narrow word of so many bits that is due: as many places behind the first one as are given, modulo the wide word.
#[tactic(auto, using(net_parts::specs::Laws::growing))]
fn due_word(
    builder: &mut Builder,
    wide: Net,
    width: u8,
    first: Net,
    given: Net,
) -> Result<Net, NetFault>
    requires first { IsNet builder.old first }
    requires some { 1 ≤ first.width }
    requires few { first.width ≤ 4 }
    requires given { IsNet builder.old given }
    requires reach { first.width ≤ given.width }
    requires some_bits { 1 ≤ width }
    requires wide { IsNetOfWidth builder.old wide (width * 2 ^ first.width) }
    requires few_bits { width * 2 ^ first.width ≤ 128 }
    ensures net { IfOk result (λ word. IsNetOfWidth builder.new word width) }
    ensures value { IfOk result (λ word. Always builder.new (λ cycle. cycle.net word.number
        ≡ cycle.net wide.number / 2 ^
        (width * ((cycle.net first.number + cycle.net given.number % 2 ^ first.width) % 2 ^ first.width)) % 2 ^ width)) }
    ensures adds { AddsNets 22 builder.old builder.new }
    ensures full { result ≡ Err NetFault.TooManyNets → 2 ^ 20 < length builder.old.lines + 22 }
{
    let places = builder.width(first);
    let low = builder.slice(given, places - 1, 0)?;
    let at = builder.add(first, low)?;
    take_place(builder, wide, width, at, places)
}

/// The narrow word that is given now.
#[derive(Clone, Copy)]
pub(crate) struct Given {
    pub word: Net,
    /// One bit: it is the last one of its wide word.
    pub last: Net,
    /// How many are given then.
    pub next: Net,
}

/// Cuts the narrow word that is due, of so many bytes, out of the oldest wide one, where that is there.
#[tactic(auto, using(net_parts::specs::Laws::growing))]
pub(crate) fn give_now(
    builder: &mut Builder,
    held: &HeldReads,
    place: Net,
    count: Net,
    full: Net,
    wide: Net,
    bytes: u8,
) -> Result<Given, NetFault>
    requires held { AreReadsHeld builder.old place count wide.width held.now.entries.bound held.now }
    requires some { 1 ≤ place.width }
    requires few { place.width ≤ 4 }
    requires count { count.width ≡ place.width + 1 }
    requires full { IsBit builder.old full }
    requires some_bytes { 1 ≤ bytes }
    requires wide { IsNetOfWidth builder.old wide (bytes * 8 * 2 ^ place.width) }
    requires few_bits { bytes * 8 * 2 ^ place.width ≤ 128 }
    ensures net { IfOk result (λ made. IsNetOfWidth builder.new made.word (bytes * 8)) }
    ensures last { IfOk result (λ made. IsBit builder.new made.last) }
    ensures next { IfOk result (λ made. IsNetOfWidth builder.new made.next held.now.given.width) }
    ensures gives { IfOk result (λ made. GivesNow builder.new bytes place.width held.now full wide made.word made.last made.next) }
    ensures adds { AddsNets 38 builder.old builder.new }
    ensures full { result ≡ Err NetFault.TooManyNets → 2 ^ 20 < length builder.old.lines + 38 }
{
    let (first, many) = oldest_read(builder, held, place, count)?;
    let more = one_more(builder, held.given)?;
    let last = last_now(builder, full, more, many)?;
    let word = due_word(builder, wide, bytes * 8, first, held.given)?;
    let next = next_given(builder, held.given, more, full, last)?;
    Ok(Given { word, last, next })
}

/// What the reads go on by in a cycle.
#[derive(Clone, Copy)]
pub(crate) struct Steps {
    /// The place and the count of a read, and whether it is taken.
    pub place: Net,
    pub count: Net,
    pub asks: Net,
    /// A word with its code, and whether it comes.
    pub word: Net,
    pub code: Net,
    pub comes: Net,
    /// The oldest read goes.
    pub last: Net,
    /// How many narrow words are given then.
    pub next: Net,
}

/// Lets the reads go on: one that is taken enters, a word that comes arrives, and both go with their last narrow word.
#[tactic(auto, using(net_parts::specs::Laws::growing))]
pub(crate) fn move_reads(
    builder: &mut Builder,
    held: &HeldReads,
    by: &Steps,
) -> Result<(), NetFault>
    requires held { AreReadsHeld builder.old by.now.place by.now.count by.now.word.width held.now.entries.bound held.now }
    requires place { IsNet builder.old by.now.place }
    requires count { IsNet builder.old by.now.count }
    requires asks { IsBit builder.old by.now.asks }
    requires word { IsNet builder.old by.now.word }
    requires code { IsNetOfWidth builder.old by.now.code 2 }
    requires comes { IsBit builder.old by.now.comes }
    requires last { IsBit builder.old by.now.last }
    requires next { IsNetOfWidth builder.old by.now.next held.now.given.width }
    requires waits { (n : ℕ) → owns_reads held.now n → IsWaiting builder.old n }
    requires waits_for_write { (m : ℕ) → owns_read_memories held.now m → WaitsForWrite builder.old m }
    ensures goes_on { OnOk result
        (ReadsGoOn builder.new held.now by.now.place by.now.count by.now.word by.now.code by.now.asks by.now.comes by.now.last by.now.next) }
    ensures grows { GrowsInMemory 36 0 builder.old builder.new }
    ensures waits { (n : ℕ) → ¬ owns_reads held.now n → IsWaiting builder.old n → IsWaiting builder.new n }
    ensures no_more_wait { OnOk result (WaitsWithout (owns_reads held.now) builder.old builder.new) }
    ensures still_wait_for_write { (m : ℕ) → ¬ owns_read_memories held.now m → WaitsForWrite builder.old m
        → WaitsForWrite builder.new m }
    ensures no_more_write { OnOk result (WriteWaitsWithout (owns_read_memories held.now) builder.old builder.new) }
    ensures full { result ≡ Err NetFault.TooManyNets → 2 ^ 20 < length builder.old.lines + 36 }
{
    take_next(builder, held.given, by.next);
    finish_queue(
        builder,
        &held.entries,
        &[by.place, by.count],
        by.asks,
        by.last,
    )?;
    finish_queue(builder, &held.words, &[by.word, by.code], by.comes, by.last)
}
