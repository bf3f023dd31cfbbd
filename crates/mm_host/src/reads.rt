//! How the reads of a host are bounded, by registers alone.

ghost use Rattle.std.specs.Prelude.{◌≡◌, ℕ, ◌+◌, ◌-◌, ◌/◌, ◌%◌, ◌^◌, ◌<◌, ◌⊎◌, true, false, not, ◌&&◌, ◌||◌, ◌==◌, if◌then◌else◌, length, IfOk, OnOk};
ghost use Rattle.histories.specs.History.{is_raised, one_if};
ghost use Rattle.iface_roles.specs.Proper.{IsBoundedHost};
ghost use Rattle.netlist.specs.Netlists.{IsNet, IsWaiting};
ghost use Rattle.netlist.specs.Runs.{Always};
ghost use Rattle.net_parts.specs.Nets.{IsBit, IsNetOfWidth};
ghost use Rattle.net_parts.specs.Growth.{GrowsBy, GrowsInMemory, AddsNets, StillWait, WaitsBeside, WaitsWithout, AreMadeBetween, StillWaitForWrite};
ghost use Rattle.mm_host.specs.Hosts.{reads_words};
ghost use Rattle.mm_host.specs.Reads.{owns_reads, AreCounted, AreReadsHeld, AsksOn, CountsOn, ReadsGoOn, is_unbounded};
ghost use Rattle.mm_host.specs.Queued.{QueuesOn};
ghost use Rattle.memory_runs.specs.Sides.{burst_width};

use crate::queue::count_words;
use command_nets::{both, either, register, take_next, turned, unless};
use iface_roles::HostPort;
use net_parts::{choose, fit_bits};
use netlist::{Builder, Net, NetFault};

/// What bounds the reads of a host.
#[derive(Clone, Copy)]
pub enum HeldReads {
    /// It can't read.
    Never,
    /// A register of one bit: the read that stands was taken below. For a host without `readdatavalid`.
    Asks { asked: Net },
    /// A register of five bits, the reads of one word that aren't answered, and its highest bit: they are 16.
    Counts { unanswered: Net, full: Net },
    /// The same of reads in bursts, whose counts a queue keeps.
    Queues { unanswered: Net, full: Net },
    /// Nothing here: what stands below never lets 16 of its reads, of one word each, go unanswered.
    Unbounded,
}

/// The read that is shown below, and what bounds it.
#[derive(Clone, Copy)]
pub(crate) struct ShownRead {
    pub shown: Net,
    pub held: HeldReads,
}

/// Shows a read until it is taken below.
#[tactic(auto, using(net_parts::specs::Laws::growing))]
fn hold_asked(builder: &mut Builder, port: &HostPort, read: Net) -> Result<ShownRead, NetFault>
    requires kind { port.now.readdatavalid ≡ false }
    requires read { IsBit builder.old read }
    ensures shown { IfOk result (λ made. IsBit builder.new made.shown) }
    ensures held { IfOk result (λ made. AreReadsHeld builder.new port.now read made.shown made.held) }
    ensures unbounded { IfOk result (λ made. is_unbounded made.held ≡ false) }
    ensures owned { IfOk result (λ made. AreMadeBetween (owns_reads made.held) builder.old builder.new) }
    ensures grows { GrowsBy 4 builder.old builder.new }
    ensures still_wait { StillWait builder.old builder.new }
    ensures own_wait { IfOk result (λ made. (n : ℕ) → owns_reads made.held n → IsWaiting builder.new n) }
    ensures newly { IfOk result (λ made. WaitsBeside (owns_reads made.held) builder.old builder.new) }
    ensures full { result ≡ Err NetFault.TooManyNets → 2 ^ 20 < length builder.old.lines + 4 }
{
    let asked = register(builder, 1)?;
    let shown = unless(builder, read, asked)?;
    let held = HeldReads::Asks { asked };
    Ok(ShownRead { shown, held })
}

/// Whether 16 reads are unanswered: the highest bit of their count.
#[tactic(auto, using(net_parts::specs::Laws::growing))]
fn are_sixteen(builder: &mut Builder, unanswered: Net) -> Result<Net, NetFault>
    requires unanswered { IsNetOfWidth builder.old unanswered 5 }
    ensures net { IfOk result (λ full. IsBit builder.new full) }
    ensures value { IfOk result (λ full. Always builder.new (λ cycle. cycle.net full.number
        ≡ cycle.net unanswered.number / 16 % 2)) }
    ensures adds { AddsNets 1 builder.old builder.new }
    ensures full { result ≡ Err NetFault.TooManyNets → 2 ^ 20 < length builder.old.lines + 1 }
{
    builder.slice(unanswered, 4, 4)
}

/// The read that is shown below, and the count of those that aren't answered.
#[derive(Clone, Copy)]
struct CountedRead {
    shown: Net,
    unanswered: Net,
    full: Net,
}

/// Shows a read while fewer than 16 are unanswered.
#[tactic(auto, using(net_parts::specs::Laws::growing))]
fn count_reads(builder: &mut Builder, read: Net) -> Result<CountedRead, NetFault>
    requires read { IsBit builder.old read }
    ensures shown { IfOk result (λ made. IsBit builder.new made.shown) }
    ensures counted { IfOk result (λ made. AreCounted builder.new read made.shown made.unanswered made.full) }
    ensures owned { IfOk result (λ made. AreMadeBetween (λ n. n ≡ made.unanswered.number) builder.old builder.new) }
    ensures grows { GrowsBy 4 builder.old builder.new }
    ensures still_wait { StillWait builder.old builder.new }
    ensures own_wait { IfOk result (λ made. IsWaiting builder.new made.unanswered.number) }
    ensures newly { IfOk result (λ made. WaitsBeside (λ n. n ≡ made.unanswered.number) builder.old builder.new) }
    ensures full { result ≡ Err NetFault.TooManyNets → 2 ^ 20 < length builder.old.lines + 4 }
{
    let unanswered = register(builder, 5)?;
    let full = are_sixteen(builder, unanswered)?;
    let shown = unless(builder, read, full)?;
    Ok(CountedRead {
        shown,
        unanswered,
        full,
    })
}

/// Shows a read of one word while fewer than 16 are unanswered.
fn hold_count(builder: &mut Builder, port: &HostPort, read: Net) -> Result<ShownRead, NetFault>
    requires kind { port.now.readdatavalid ≡ true }
    requires words { port.now.burst_bits ≡ 0 }
    requires read { IsBit builder.old read }
    ensures shown { IfOk result (λ made. IsBit builder.new made.shown) }
    ensures held { IfOk result (λ made. AreReadsHeld builder.new port.now read made.shown made.held) }
    ensures unbounded { IfOk result (λ made. is_unbounded made.held ≡ false) }
    ensures owned { IfOk result (λ made. AreMadeBetween (owns_reads made.held) builder.old builder.new) }
    ensures grows { GrowsBy 4 builder.old builder.new }
    ensures still_wait { StillWait builder.old builder.new }
    ensures own_wait { IfOk result (λ made. (n : ℕ) → owns_reads made.held n → IsWaiting builder.new n) }
    ensures newly { IfOk result (λ made. WaitsBeside (owns_reads made.held) builder.old builder.new) }
    ensures full { result ≡ Err NetFault.TooManyNets → 2 ^ 20 < length builder.old.lines + 4 }
{
    let counted = count_reads(builder, read)?;
    let held = HeldReads::Counts {
        unanswered: counted.unanswered,
        full: counted.full,
    };
    Ok(ShownRead {
        shown: counted.shown,
        held,
    })
}

/// Shows a read in a burst while fewer than 16 are unanswered.
fn hold_queue(builder: &mut Builder, port: &HostPort, read: Net) -> Result<ShownRead, NetFault>
    requires kind { port.now.readdatavalid ≡ true }
    requires read { IsBit builder.old read }
    ensures shown { IfOk result (λ made. IsBit builder.new made.shown) }
    ensures held { IfOk result (λ made. AreReadsHeld builder.new port.now read made.shown made.held) }
    ensures unbounded { IfOk result (λ made. is_unbounded made.held ≡ false) }
    ensures owned { IfOk result (λ made. AreMadeBetween (owns_reads made.held) builder.old builder.new) }
    ensures grows { GrowsBy 4 builder.old builder.new }
    ensures still_wait { StillWait builder.old builder.new }
    ensures own_wait { IfOk result (λ made. (n : ℕ) → owns_reads made.held n → IsWaiting builder.new n) }
    ensures newly { IfOk result (λ made. WaitsBeside (owns_reads made.held) builder.old builder.new) }
    ensures full { result ≡ Err NetFault.TooManyNets → 2 ^ 20 < length builder.old.lines + 4 }
{
    let counted = count_reads(builder, read)?;
    let held = HeldReads::Queues {
        unanswered: counted.unanswered,
        full: counted.full,
    };
    Ok(ShownRead {
        shown: counted.shown,
        held,
    })
}

/// Shows the reads of a host below, so far as the registers let them. Reads of one word need none where what stands below bounds
/// them.
pub(crate) fn hold_reads(
    builder: &mut Builder,
    port: &HostPort,
    read: Net,
    bounded: bool,
) -> Result<ShownRead, NetFault>
    requires port { IsBoundedHost port.now }
    requires read { IsBit builder.old read }
    requires none { port.now.reads ≡ false → Always builder.old (λ cycle. cycle.net read.number ≡ 0) }
    ensures shown { IfOk result (λ made. IsBit builder.new made.shown) }
    ensures held { IfOk result (λ made. AreReadsHeld builder.new port.now read made.shown made.held) }
    ensures unbounded { IfOk result (λ made. is_unbounded made.held ≡ (reads_words port.now && bounded)) }
    ensures owned { IfOk result (λ made. AreMadeBetween (owns_reads made.held) builder.old builder.new) }
    ensures grows { GrowsBy 4 builder.old builder.new }
    ensures still_wait { StillWait builder.old builder.new }
    ensures own_wait { IfOk result (λ made. (n : ℕ) → owns_reads made.held n → IsWaiting builder.new n) }
    ensures newly { IfOk result (λ made. WaitsBeside (owns_reads made.held) builder.old builder.new) }
    ensures full { result ≡ Err NetFault.TooManyNets → 2 ^ 20 < length builder.old.lines + 4 }
{
    if !port.reads {
        let held = HeldReads::Never;
        return Ok(ShownRead { shown: read, held });
    }
    if !port.readdatavalid {
        return hold_asked(builder, port, read);
    }
    if port.burst_bits != 0 {
        return hold_queue(builder, port, read);
    }
    if bounded {
        let held = HeldReads::Unbounded;
        return Ok(ShownRead { shown: read, held });
    }
    hold_count(builder, port, read)
}

/// The count of unanswered reads after a cycle in which a read is taken below, or a word comes. It doesn't fall below 0.
#[tactic(auto, using(net_parts::specs::Laws::growing))]
fn next_count(
    builder: &mut Builder,
    unanswered: Net,
    taken: Net,
    valid: Net,
) -> Result<Net, NetFault>
    requires unanswered { IsNetOfWidth builder.old unanswered 5 }
    requires taken { IsBit builder.old taken }
    requires valid { IsBit builder.old valid }
    ensures net { IfOk result (λ next. IsNetOfWidth builder.new next 5) }
    ensures value { IfOk result (λ next. Always builder.new (λ cycle. cycle.net unanswered.number
        + one_if (is_raised (cycle.net taken.number))
        < 32
        → cycle.net next.number
        ≡ (cycle.net unanswered.number - one_if (is_raised (cycle.net valid.number)))
        + one_if (is_raised (cycle.net taken.number)))) }
    ensures adds { AddsNets 8 builder.old builder.new }
    ensures full { result ≡ Err NetFault.TooManyNets → 2 ^ 20 < length builder.old.lines + 8 }
{
    let some = builder.any(unanswered)?;
    let answers = both(builder, valid, some)?;
    let more = fit_bits(builder, taken, 1, 5)?;
    let fewer = fit_bits(builder, answers, 1, 5)?;
    let sum = builder.add(unanswered, more)?;
    builder.sub(sum, fewer)
}

/// The waitrequest of a host that waits for its word: a read while it is unanswered, and a write as long as it waits below.
#[tactic(auto, using(net_parts::specs::Laws::growing))]
fn wait_for_word(
    builder: &mut Builder,
    read: Net,
    unanswered: Net,
    wait: Net,
) -> Result<Net, NetFault>
    requires read { IsBit builder.old read }
    requires unanswered { IsBit builder.old unanswered }
    requires wait { IsBit builder.old wait }
    ensures net { IfOk result (λ told. IsBit builder.new told) }
    ensures value { IfOk result (λ told. Always builder.new (λ cycle. cycle.net told.number
        ≡ (if cycle.net read.number == 0 then cycle.net wait.number else cycle.net unanswered.number))) }
    ensures adds { AddsNets 1 builder.old builder.new }
    ensures full { result ≡ Err NetFault.TooManyNets → 2 ^ 20 < length builder.old.lines + 1 }
{
    choose(builder, read, unanswered, wait)
}

/// Sets what asks, and makes the waitrequest that the host is told.
#[tactic(auto, using(net_parts::specs::Laws::growing))]
fn finish_asked(
    builder: &mut Builder,
    read: Net,
    shown: Net,
    asked: Net,
    wait: Net,
    valid: Net,
) -> Result<Net, NetFault>
    requires read { IsBit builder.old read }
    requires shown { IsBit builder.old shown }
    requires asked { IsBit builder.old asked }
    requires wait { IsBit builder.old wait }
    requires valid { IsBit builder.old valid }
    requires waits { IsWaiting builder.old asked.number }
    ensures told { IfOk result (λ told. IsBit builder.new told) }
    ensures on { IfOk result (λ told. AsksOn builder.new read shown asked wait valid told) }
    ensures grows { GrowsBy 12 builder.old builder.new }
    ensures waits { (n : ℕ) → ¬ (n ≡ asked.number) → IsWaiting builder.old n → IsWaiting builder.new n }
    ensures no_more_wait { OnOk result (WaitsWithout (λ n. n ≡ asked.number) builder.old builder.new) }
    ensures full { result ≡ Err NetFault.TooManyNets → 2 ^ 20 < length builder.old.lines + 12 }
{
    let answered = both(builder, asked, valid)?;
    let open = turned(builder, answered)?;
    let told = wait_for_word(builder, read, open, wait)?;
    let taken = unless(builder, shown, wait)?;
    let stands = either(builder, asked, taken)?;
    let next = unless(builder, stands, valid)?;
    take_next(builder, asked, next);
    Ok(told)
}

/// Sets the count of unanswered reads, and makes the waitrequest that the host is told.
#[tactic(auto, using(net_parts::specs::Laws::growing))]
fn finish_count(
    builder: &mut Builder,
    read: Net,
    shown: Net,
    unanswered: Net,
    full: Net,
    wait: Net,
    valid: Net,
) -> Result<Net, NetFault>
    requires read { IsBit builder.old read }
    requires shown { IsBit builder.old shown }
    requires unanswered { IsNetOfWidth builder.old unanswered 5 }
    requires full { IsBit builder.old full }
    requires wait { IsBit builder.old wait }
    requires valid { IsBit builder.old valid }
    requires waits { IsWaiting builder.old unanswered.number }
    ensures told { IfOk result (λ told. IsBit builder.new told) }
    ensures on { IfOk result (λ told. CountsOn builder.new read shown unanswered full wait valid told) }
    ensures grows { GrowsBy 12 builder.old builder.new }
    ensures waits { (n : ℕ) → ¬ (n ≡ unanswered.number) → IsWaiting builder.old n → IsWaiting builder.new n }
    ensures no_more_wait { OnOk result (WaitsWithout (λ n. n ≡ unanswered.number) builder.old builder.new) }
    ensures full { result ≡ Err NetFault.TooManyNets → 2 ^ 20 < length builder.old.lines + 12 }
{
    let shut = both(builder, full, read)?;
    let told = either(builder, shut, wait)?;
    let taken = unless(builder, shown, wait)?;
    let next = next_count(builder, unanswered, taken, valid)?;
    take_next(builder, unanswered, next);
    Ok(told)
}

/// Sets the queue of the counts of unanswered reads, and makes the waitrequest that the host is told.
#[tactic(auto, using(net_parts::specs::Laws::growing))]
fn finish_queue(
    builder: &mut Builder,
    port: &HostPort,
    read: Net,
    count: Net,
    shown: Net,
    unanswered: Net,
    full: Net,
    wait: Net,
    valid: Net,
) -> Result<Net, NetFault>
    requires port { IsBoundedHost port.now }
    requires read { IsBit builder.old read }
    requires count { IsNetOfWidth builder.old count (burst_width port.now.burst_bits) }
    requires shown { IsBit builder.old shown }
    requires counted { AreCounted builder.old read shown unanswered full }
    requires wait { IsBit builder.old wait }
    requires valid { IsBit builder.old valid }
    requires waits { IsWaiting builder.old unanswered.number }
    ensures told { IfOk result (λ told. IsBit builder.new told) }
    ensures on { IfOk result (λ told. QueuesOn builder.new read count shown unanswered full wait valid told) }
    ensures grows { GrowsInMemory 42 1 builder.old builder.new }
    ensures waits { (n : ℕ) → ¬ (n ≡ unanswered.number) → IsWaiting builder.old n → IsWaiting builder.new n }
    ensures no_more_wait { OnOk result (WaitsWithout (λ n. n ≡ unanswered.number) builder.old builder.new) }
    ensures still_wait_for_write { StillWaitForWrite builder.old builder.new }
    ensures no_more_wait_for_write { OnOk result (StillWaitForWrite builder.new builder.old) }
    ensures full { result ≡ Err NetFault.TooManyNets
        → (2 ^ 20 < length builder.old.lines + 42) ⊎ (2 ^ 16 < length builder.old.memories + 1) }
{
    let shut = both(builder, full, read)?;
    let told = either(builder, shut, wait)?;
    let taken = unless(builder, shown, wait)?;
    count_words(builder, port, count, unanswered, taken, valid)?;
    Ok(told)
}

/// Sets what bounds the reads, and makes the waitrequest that the host is told.
pub(crate) fn finish_reads(
    builder: &mut Builder,
    port: &HostPort,
    read: Net,
    count: Net,
    shown: &ShownRead,
    wait: Net,
    valid: Net,
) -> Result<Net, NetFault>
    requires port { IsBoundedHost port.now }
    requires held { AreReadsHeld builder.old port.now read shown.now.shown shown.now.held }
    requires read { IsBit builder.old read }
    requires count { IsNetOfWidth builder.old count (burst_width port.now.burst_bits) }
    requires shown { IsBit builder.old shown.now.shown }
    requires wait { IsBit builder.old wait }
    requires valid { IsBit builder.old valid }
    requires waits { (n : ℕ) → owns_reads shown.now.held n → IsWaiting builder.old n }
    ensures told { IfOk result (λ told. IsBit builder.new told) }
    ensures on { IfOk result (λ told. ReadsGoOn builder.new read count shown.now.shown wait valid told shown.now.held) }
    ensures grows { GrowsInMemory 42 1 builder.old builder.new }
    ensures waits { (n : ℕ) → ¬ owns_reads shown.now.held n → IsWaiting builder.old n → IsWaiting builder.new n }
    ensures no_more_wait { OnOk result (WaitsWithout (owns_reads shown.now.held) builder.old builder.new) }
    ensures still_wait_for_write { StillWaitForWrite builder.old builder.new }
    ensures no_more_wait_for_write { OnOk result (StillWaitForWrite builder.new builder.old) }
    ensures full { result ≡ Err NetFault.TooManyNets
        → (2 ^ 20 < length builder.old.lines + 42) ⊎ (2 ^ 16 < length builder.old.memories + 1) }
{
    match shown.held {
        HeldReads::Never | HeldReads::Unbounded => Ok(wait),
        HeldReads::Asks { asked } => finish_asked(builder, read, shown.shown, asked, wait, valid),
        HeldReads::Counts { unanswered, full } => {
            finish_count(builder, read, shown.shown, unanswered, full, wait, valid)
        }
        HeldReads::Queues { unanswered, full } => finish_queue(
            builder,
            port,
            read,
            count,
            shown.shown,
            unanswered,
            full,
            wait,
            valid,
        ),
    }
}
