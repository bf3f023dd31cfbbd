//! How the reads of an agent are bounded, by registers alone.

ghost use Rattle.std.specs.Prelude.{◌≡◌, ℕ, ◌+◌, ◌-◌, ◌^◌, ◌<◌, ◌≤◌, true, false, not, ◌&&◌, ◌||◌, length, IfOk, OnOk, IfSome};
ghost use Rattle.histories.specs.History.{is_raised, one_if};
ghost use Rattle.iface_roles.specs.Proper.{IsBoundedAgent};
ghost use Rattle.netlist.specs.Netlists.{IsNet, IsWaiting};
ghost use Rattle.netlist.specs.Runs.{Always};
ghost use Rattle.net_parts.specs.Nets.{IsBit, IsNetOfWidth};
ghost use Rattle.net_parts.specs.Growth.{GrowsBy, AddsNets, StillWait, WaitsBeside, WaitsWithout, AreMadeBetween};
ghost use Rattle.memory_parts.specs.Agent.{row_places};
ghost use Rattle.memory_runs.specs.Sides.{agent_side, bound_of};
ghost use Rattle.read_queues.specs.Held.{IsQueueMade};
ghost use Rattle.mm_agent.specs.Reads.{sets_reads, held_queue, IsReadQueue, AreReadsHeld, TellsWait, CountsOn, RowGoesOn, ReadsGoOn, IsNextCount, hold_nets, finish_nets};

use command_nets::{both, either, register, take_next, unless};
use iface_roles::AgentPort;
use net_parts::{fit_bits, is_above, set_history};
use netlist::{Builder, Net, NetFault};
use read_queues::HeldReadQueue;

/// What bounds the reads of an agent.
#[derive(Clone, Copy)]
pub enum HeldReads {
    /// It can't read.
    Never,
    /// A register that counts the reads that aren't answered, and whether they are as many as the agent bears.
    Counts { unanswered: Net, full: Net },
    /// A register with a bit for each cycle between a read and its word.
    Row { row: Net },
    /// A queue of the reads that aren't answered, with their tags.
    Queued { queue: HeldReadQueue },
}

/// The read that the agent is shown, and what bounds it.
#[derive(Clone, Copy)]
pub(crate) struct ShownRead {
    pub shown: Net,
    pub held: HeldReads,
}

/// The unanswered reads that an agent bears.
pub(crate) fn bound_on(port: &AgentPort) -> u8
    requires { IsBoundedAgent port.now }
    ensures bound { result ≡ bound_of port.now }
    ensures some { 1 ≤ result }
    ensures few { result ≤ 64 }
{
    if port.pending == 0 { 1 } else { port.pending }
}

/// The most unanswered reads with which an agent takes another one.
fn most_before_another(port: &AgentPort) -> u32
    requires { IsBoundedAgent port.now }
    ensures most { result + 1 ≡ bound_of port.now }
{
    u32::from(bound_on(port) - 1)
}

/// How many bits a count up to this bound needs.
fn bits_to(bound: u8) -> u8
    requires { bound ≤ 64 }
    ensures some { 1 ≤ result }
    ensures few { result ≤ 7 }
    ensures fits { bound < 2 ^ result }
{
    if bound < 2 {
        1
    } else if bound < 4 {
        2
    } else if bound < 8 {
        3
    } else if bound < 16 {
        4
    } else if bound < 32 {
        5
    } else if bound < 64 {
        6
    } else {
        7
    }
}

/// Shows a read while the agent bears one more.
#[tactic(auto, using(net_parts::specs::Laws::growing))]
fn hold_count(builder: &mut Builder, port: &AgentPort, read: Net) -> Result<ShownRead, NetFault>
    requires port { IsBoundedAgent port.now }
    requires reads { port.now.reads ≡ true }
    requires kind { port.now.readdatavalid ≡ true }
    requires read { IsBit builder.old read }
    ensures shown { IfOk result (λ made. IsBit builder.new made.shown) }
    ensures held { IfOk result (λ made. AreReadsHeld builder.new port.now read made.shown made.held) }
    ensures alone { IfOk result (λ made. held_queue made.held ≡ None) }
    ensures owned { IfOk result (λ made. AreMadeBetween (sets_reads made.held) builder.old builder.new) }
    ensures grows { GrowsBy 5 builder.old builder.new }
    ensures still_wait { StillWait builder.old builder.new }
    ensures own_wait { IfOk result (λ made. (n : ℕ) → sets_reads made.held n → IsWaiting builder.new n) }
    ensures newly { IfOk result (λ made. WaitsBeside (sets_reads made.held) builder.old builder.new) }
    ensures full { result ≡ Err NetFault.TooManyNets → 2 ^ 20 < length builder.old.lines + 5 }
{
    let bits = bits_to(bound_on(port));
    let unanswered = register(builder, bits)?;
    let full = is_above(builder, unanswered, bits, most_before_another(port))?;
    let shown = unless(builder, read, full)?;
    let held = HeldReads::Counts { unanswered, full };
    Ok(ShownRead { shown, held })
}

/// How many cycles after its acceptance a read's word goes up, at fixed latency.
pub(crate) fn places_of(port: &AgentPort) -> u8
    requires { IsBoundedAgent port.now }
    ensures places { result ≡ row_places (agent_side port.now) }
    ensures some { 1 ≤ result }
    ensures few { result ≤ 63 }
{
    if port.read_latency == 0 {
        1
    } else {
        port.read_latency
    }
}

/// Shows each read, with a row of bits from it to its word.
#[tactic(auto, using(net_parts::specs::Laws::growing))]
fn hold_row(builder: &mut Builder, port: &AgentPort, read: Net) -> Result<ShownRead, NetFault>
    requires port { IsBoundedAgent port.now }
    requires reads { port.now.reads ≡ true }
    requires kind { port.now.readdatavalid ≡ false }
    requires read { IsBit builder.old read }
    ensures shown { IfOk result (λ made. IsBit builder.new made.shown) }
    ensures held { IfOk result (λ made. AreReadsHeld builder.new port.now read made.shown made.held) }
    ensures alone { IfOk result (λ made. held_queue made.held ≡ None) }
    ensures owned { IfOk result (λ made. AreMadeBetween (sets_reads made.held) builder.old builder.new) }
    ensures grows { GrowsBy 1 builder.old builder.new }
    ensures still_wait { StillWait builder.old builder.new }
    ensures own_wait { IfOk result (λ made. (n : ℕ) → sets_reads made.held n → IsWaiting builder.new n) }
    ensures newly { IfOk result (λ made. WaitsBeside (sets_reads made.held) builder.old builder.new) }
    ensures full { result ≡ Err NetFault.TooManyNets → 2 ^ 20 < length builder.old.lines + 1 }
{
    let row = register(builder, places_of(port))?;
    let held = HeldReads::Row { row };
    Ok(ShownRead { shown: read, held })
}

/// Shows the reads, so far as the registers of this part let them.
fn hold_alone(builder: &mut Builder, port: &AgentPort, read: Net) -> Result<ShownRead, NetFault>
    requires port { IsBoundedAgent port.now }
    requires read { IsBit builder.old read }
    ensures shown { IfOk result (λ made. IsBit builder.new made.shown) }
    ensures held { IfOk result (λ made. AreReadsHeld builder.new port.now read made.shown made.held) }
    ensures alone { IfOk result (λ made. held_queue made.held ≡ None) }
    ensures owned { IfOk result (λ made. AreMadeBetween (sets_reads made.held) builder.old builder.new) }
    ensures grows { GrowsBy 5 builder.old builder.new }
    ensures still_wait { StillWait builder.old builder.new }
    ensures own_wait { IfOk result (λ made. (n : ℕ) → sets_reads made.held n → IsWaiting builder.new n) }
    ensures newly { IfOk result (λ made. WaitsBeside (sets_reads made.held) builder.old builder.new) }
    ensures full { result ≡ Err NetFault.TooManyNets → 2 ^ 20 < length builder.old.lines + 5 }
{
    if !port.reads {
        let held = HeldReads::Never;
        Ok(ShownRead { shown: read, held })
    } else if port.readdatavalid {
        hold_count(builder, port, read)
    } else {
        hold_row(builder, port, read)
    }
}

/// Shows the reads, so far as the queue or the registers of this part let them.
pub(crate) fn hold_reads(
    builder: &mut Builder,
    port: &AgentPort,
    queue: Option<HeldReadQueue>,
    read: Net,
) -> Result<ShownRead, NetFault>
    requires port { IsBoundedAgent port.now }
    requires queue { IfSome queue (IsReadQueue builder.old port.now) }
    requires read { IsBit builder.old read }
    ensures shown { IfOk result (λ made. IsBit builder.new made.shown) }
    ensures held { IfOk result (λ made. AreReadsHeld builder.new port.now read made.shown made.held) }
    ensures queue { IfOk result (λ made. held_queue made.held ≡ queue) }
    ensures owned { IfOk result (λ made. AreMadeBetween (sets_reads made.held) builder.old builder.new) }
    ensures grows { GrowsBy (hold_nets queue) builder.old builder.new }
    ensures still_wait { StillWait builder.old builder.new }
    ensures own_wait { IfOk result (λ made. (n : ℕ) → sets_reads made.held n → IsWaiting builder.new n) }
    ensures newly { IfOk result (λ made. WaitsBeside (sets_reads made.held) builder.old builder.new) }
    ensures full { result ≡ Err NetFault.TooManyNets → 2 ^ 20 < length builder.old.lines + hold_nets queue }
{
    match queue {
        Some(queue) => {
            let shown = unless(builder, read, queue.full)?;
            let held = HeldReads::Queued { queue };
            Ok(ShownRead { shown, held })
        }
        None => hold_alone(builder, port, read),
    }
}

/// Tells the part above to wait with a read while the agent bears no more, and with each beat while it is busy.
#[tactic(auto, using(net_parts::specs::Laws::growing))]
fn tell_wait(builder: &mut Builder, read: Net, full: Net, busy: Net) -> Result<Net, NetFault>
    requires read { IsBit builder.old read }
    requires full { IsBit builder.old full }
    requires busy { IsBit builder.old busy }
    ensures told { IfOk result (λ told. IsBit builder.new told) }
    ensures tells { IfOk result (TellsWait builder.new read full busy) }
    ensures adds { AddsNets 2 builder.old builder.new }
    ensures full { result ≡ Err NetFault.TooManyNets → 2 ^ 20 < length builder.old.lines + 2 }
{
    let shut = both(builder, full, read)?;
    either(builder, shut, busy)
}

/// The count of unanswered reads after a cycle in which a read is taken, or a word comes. It doesn't fall below 0.
#[tactic(auto, using(net_parts::specs::Laws::growing))]
fn next_count(
    builder: &mut Builder,
    unanswered: Net,
    taken: Net,
    valid: Net,
) -> Result<Net, NetFault>
    requires unanswered { IsNet builder.old unanswered }
    requires taken { IsBit builder.old taken }
    requires valid { IsBit builder.old valid }
    ensures net { IfOk result (λ next. IsNetOfWidth builder.new next unanswered.width) }
    ensures value { IfOk result (λ next. Always builder.new (λ cycle. IsNextCount unanswered.width (cycle.net unanswered.number)
        (cycle.net taken.number) (cycle.net valid.number) (cycle.net next.number))) }
    ensures adds { AddsNets 8 builder.old builder.new }
    ensures full { result ≡ Err NetFault.TooManyNets → 2 ^ 20 < length builder.old.lines + 8 }
{
    let bits = builder.width(unanswered);
    let some = builder.any(unanswered)?;
    let answers = both(builder, valid, some)?;
    let more = fit_bits(builder, taken, 1, bits)?;
    let fewer = fit_bits(builder, answers, 1, bits)?;
    let sum = builder.add(unanswered, more)?;
    builder.sub(sum, fewer)
}

/// Sets the count of unanswered reads, and makes the waitrequest for the part above.
#[tactic(auto, using(net_parts::specs::Laws::growing))]
fn finish_count(
    builder: &mut Builder,
    read: Net,
    shown: Net,
    unanswered: Net,
    full: Net,
    busy: Net,
    valid: Net,
) -> Result<Net, NetFault>
    requires read { IsBit builder.old read }
    requires shown { IsBit builder.old shown }
    requires unanswered { IsNet builder.old unanswered }
    requires full { IsBit builder.old full }
    requires busy { IsBit builder.old busy }
    requires valid { IsBit builder.old valid }
    requires waits { IsWaiting builder.old unanswered.number }
    ensures told { IfOk result (λ told. IsBit builder.new told) }
    ensures on { IfOk result (λ told. CountsOn builder.new read shown unanswered full busy valid told) }
    ensures grows { GrowsBy 12 builder.old builder.new }
    ensures waits { (n : ℕ) → ¬ (n ≡ unanswered.number) → IsWaiting builder.old n → IsWaiting builder.new n }
    ensures no_more_wait { OnOk result (WaitsWithout (λ n. n ≡ unanswered.number) builder.old builder.new) }
    ensures full { result ≡ Err NetFault.TooManyNets → 2 ^ 20 < length builder.old.lines + 12 }
{
    let told = tell_wait(builder, read, full, busy)?;
    let taken = unless(builder, shown, busy)?;
    let next = next_count(builder, unanswered, taken, valid)?;
    take_next(builder, unanswered, next);
    Ok(told)
}

/// Lets each read that is taken go along the row.
#[tactic(auto, using(net_parts::specs::Laws::growing))]
fn finish_row(builder: &mut Builder, shown: Net, row: Net, busy: Net) -> Result<Net, NetFault>
    requires shown { IsBit builder.old shown }
    requires row { IsNet builder.old row }
    requires busy { IsBit builder.old busy }
    requires waits { IsWaiting builder.old row.number }
    ensures told { IfOk result (λ told. IsBit builder.new told) }
    ensures on { IfOk result (RowGoesOn builder.new shown row busy) }
    ensures grows { GrowsBy 4 builder.old builder.new }
    ensures waits { (n : ℕ) → ¬ (n ≡ row.number) → IsWaiting builder.old n → IsWaiting builder.new n }
    ensures no_more_wait { OnOk result (WaitsWithout (λ n. n ≡ row.number) builder.old builder.new) }
    ensures full { result ≡ Err NetFault.TooManyNets → 2 ^ 20 < length builder.old.lines + 4 }
{
    let taken = unless(builder, shown, busy)?;
    set_history(builder, row, taken)?;
    Ok(busy)
}

/// Sets what bounds the reads, but for a queue, and makes the waitrequest for the part above. The agent doesn't accept what it is
/// shown while `busy` is high.
pub(crate) fn finish_reads(
    builder: &mut Builder,
    port: &AgentPort,
    read: Net,
    shown: &ShownRead,
    busy: Net,
    valid: Net,
) -> Result<Net, NetFault>
    requires held { AreReadsHeld builder.old port.now read shown.now.shown shown.now.held }
    requires read { IsBit builder.old read }
    requires shown { IsBit builder.old shown.now.shown }
    requires busy { IsBit builder.old busy }
    requires valid { IsBit builder.old valid }
    requires waits { (n : ℕ) → sets_reads shown.now.held n → IsWaiting builder.old n }
    ensures told { IfOk result (λ told. IsBit builder.new told) }
    ensures on { IfOk result (λ told. ReadsGoOn builder.new read shown.now.shown busy valid told shown.now.held) }
    ensures grows { GrowsBy (finish_nets (held_queue shown.now.held)) builder.old builder.new }
    ensures waits { (n : ℕ) → ¬ sets_reads shown.now.held n → IsWaiting builder.old n → IsWaiting builder.new n }
    ensures no_more_wait { OnOk result (WaitsWithout (sets_reads shown.now.held) builder.old builder.new) }
    ensures full { result ≡ Err NetFault.TooManyNets
        → 2 ^ 20 < length builder.old.lines + finish_nets (held_queue shown.now.held) }
{
    match shown.held {
        HeldReads::Never => Ok(busy),
        HeldReads::Counts { unanswered, full } => {
            finish_count(builder, read, shown.shown, unanswered, full, busy, valid)
        }
        HeldReads::Row { row } => finish_row(builder, shown.shown, row, busy),
        HeldReads::Queued { queue } => tell_wait(builder, read, queue.full, busy),
    }
}
