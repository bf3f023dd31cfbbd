//! How the wait of an agent is told: by its waitrequest, or by a count of the cycles for which a beat has stood.

ghost use Rattle.std.specs.Prelude.{◌≡◌, ℕ, true, false, not, ◌&&◌, nat_eq, ◌+◌, ◌^◌, ◌<◌, ◌≤◌, length, IfOk, OnOk};
ghost use Rattle.histories.specs.History.{is_raised};
ghost use Rattle.iface_roles.specs.Proper.{IsBoundedAgent};
ghost use Rattle.netlist.specs.Netlists.{IsNet, IsWaiting};
ghost use Rattle.netlist.specs.Runs.{Always};
ghost use Rattle.net_parts.specs.Nets.{IsBit, IsNetOfWidth};
ghost use Rattle.net_parts.specs.Growth.{GrowsBy, AddsNets, StillWait, WaitsBeside, WaitsWithout, AreMadeBetween};
ghost use Rattle.command_nets.specs.Ports.{HasNet};
ghost use Rattle.mm_agent.specs.Waits.{accepts_soon, wait_by, shows_beat, stood_next, owns_wait, WaitsNever, WaitsCount, IsWaitHeld, IsWaitStood, StoodOn, WaitGoesOn};

use command_nets::{both, either, register, take_next, turned};
use iface_roles::AgentPort;
use net_parts::{choose, constant, fit_bits, level};
use netlist::{Builder, Net, NetFault};

/// How the wait of an agent is told.
#[derive(Clone, Copy)]
pub enum HeldWait {
    /// By its waitrequest.
    Given,
    /// It accepts each beat in its first cycle.
    Soon,
    /// A register counts for how many cycles the beat has stood.
    Counts { stood: Net },
}

/// High while the agent doesn't accept what it is shown, and what tells that.
#[derive(Clone, Copy)]
pub(crate) struct ToldWait {
    pub busy: Net,
    pub held: HeldWait,
}

/// The count of the cycles for which a beat has stood, and the wait that it tells.
#[derive(Clone, Copy)]
struct StoodNets {
    stood: Net,
    busy: Net,
}

/// Whether no kind of beat that the agent has is to wait.
fn accepts_soon(port: &AgentPort) -> bool
    ensures { result ≡ accepts_soon port.now }
{
    !(port.writes && port.write_wait != 0) && !(port.reads && port.read_wait != 0)
}

/// The largest wait time, in cycles.
fn longest_wait(port: &AgentPort) -> u8
    ensures read { port.now.read_wait ≤ result }
    ensures write { port.now.writes ≡ true → port.now.write_wait ≤ result }
{
    if port.writes && port.read_wait < port.write_wait {
        port.write_wait
    } else {
        port.read_wait
    }
}

/// How many bits a count up to one more than this time needs.
fn bits_past(longest: u8) -> u8
    ensures some { 1 ≤ result }
    ensures few { result ≤ 9 }
    ensures fits { longest + 1 < 2 ^ result }
{
    if longest < 3 {
        2
    } else if longest < 7 {
        3
    } else if longest < 15 {
        4
    } else if longest < 31 {
        5
    } else if longest < 63 {
        6
    } else if longest < 127 {
        7
    } else if longest < 255 {
        8
    } else {
        9
    }
}

/// For how many cycles the beat is to stand.
#[tactic(auto, using(net_parts::specs::Laws::growing))]
fn time_of(builder: &mut Builder, port: &AgentPort, write: Net, bits: u8) -> Result<Net, NetFault>
    requires write { IsBit builder.old write }
    requires some { 1 ≤ bits }
    requires few { bits ≤ 9 }
    requires read_fits { port.now.read_wait < 2 ^ bits }
    requires write_fits { port.now.writes ≡ true → port.now.write_wait < 2 ^ bits }
    ensures net { IfOk result (λ time. IsNetOfWidth builder.new time bits) }
    ensures value { IfOk result (λ time. Always builder.new (λ cycle. cycle.net time.number
        ≡ wait_by port.now (cycle.net write.number))) }
    ensures adds { AddsNets 3 builder.old builder.new }
    ensures full { result ≡ Err NetFault.TooManyNets → 2 ^ 20 < length builder.old.lines + 3 }
{
    let of_reads = constant(builder, bits, port.read_wait)?;
    if !port.writes {
        return Ok(of_reads);
    }
    let of_writes = constant(builder, bits, port.write_wait)?;
    choose(builder, write, of_writes, of_reads)
}

/// The wait of an agent that accepts each beat in its first cycle. Where it has no reads, it is told to be busy while no write is
/// shown.
#[tactic(auto, using(net_parts::specs::Laws::growing))]
fn hold_soon(builder: &mut Builder, port: &AgentPort, write: Net) -> Result<Net, NetFault>
    requires port { IsBoundedAgent port.now }
    requires waits { port.now.waitrequest ≡ false }
    requires soon { accepts_soon port.now ≡ true }
    requires write { IsBit builder.old write }
    ensures net { IfOk result (λ busy. IsBit builder.new busy) }
    ensures never { IfOk result (WaitsNever builder.new port.now write) }
    ensures adds { AddsNets 1 builder.old builder.new }
    ensures full { result ≡ Err NetFault.TooManyNets → 2 ^ 20 < length builder.old.lines + 1 }
{
    if port.read_wait == 0 {
        level(builder, false)
    } else {
        turned(builder, write)
    }
}

/// A count of the cycles for which the beat has stood, and the wait that it tells.
#[tactic(auto, using(net_parts::specs::Laws::growing))]
fn hold_stood(builder: &mut Builder, port: &AgentPort, write: Net) -> Result<StoodNets, NetFault>
    requires waits { port.now.waitrequest ≡ false }
    requires late { accepts_soon port.now ≡ false }
    requires write { IsBit builder.old write }
    ensures busy { IfOk result (λ made. IsBit builder.new made.busy) }
    ensures counts { IfOk result (λ made. WaitsCount builder.new port.now write made.busy made.stood) }
    ensures number { IfOk result (λ made. made.stood.number ≡ length builder.old.lines) }
    ensures within { IfOk result (λ made. made.stood.number < length builder.new.lines) }
    ensures grows { GrowsBy 6 builder.old builder.new }
    ensures still_wait { StillWait builder.old builder.new }
    ensures own_wait { IfOk result (λ made. IsWaiting builder.new made.stood.number) }
    ensures newly { IfOk result (λ made. WaitsBeside (λ n. n ≡ made.stood.number) builder.old builder.new) }
    ensures full { result ≡ Err NetFault.TooManyNets → 2 ^ 20 < length builder.old.lines + 6 }
{
    let bits = bits_past(longest_wait(port));
    let stood = register(builder, bits)?;
    let time = time_of(builder, port, write, bits)?;
    let over = builder.eq(stood, time)?;
    let busy = turned(builder, over)?;
    Ok(StoodNets { stood, busy })
}

/// Whether the agent is busy, where it has no waitrequest.
fn hold_times(builder: &mut Builder, port: &AgentPort, write: Net) -> Result<ToldWait, NetFault>
    requires port { IsBoundedAgent port.now }
    requires waits { port.now.waitrequest ≡ false }
    requires write { IsBit builder.old write }
    ensures busy { IfOk result (λ made. IsBit builder.new made.busy) }
    ensures held { IfOk result (λ made. IsWaitHeld builder.new port.now None write made.busy made.held) }
    ensures owned { IfOk result (λ made. AreMadeBetween (owns_wait made.held) builder.old builder.new) }
    ensures grows { GrowsBy 6 builder.old builder.new }
    ensures still_wait { StillWait builder.old builder.new }
    ensures own_wait { IfOk result (λ made. (n : ℕ) → owns_wait made.held n → IsWaiting builder.new n) }
    ensures newly { IfOk result (λ made. WaitsBeside (owns_wait made.held) builder.old builder.new) }
    ensures full { result ≡ Err NetFault.TooManyNets → 2 ^ 20 < length builder.old.lines + 6 }
{
    if accepts_soon(port) {
        let busy = hold_soon(builder, port, write)?;
        let held = HeldWait::Soon;
        Ok(ToldWait { busy, held })
    } else {
        let made = hold_stood(builder, port, write)?;
        let held = HeldWait::Counts { stood: made.stood };
        Ok(ToldWait {
            busy: made.busy,
            held,
        })
    }
}

/// Whether the agent is busy, by its waitrequest or by its wait times.
pub(crate) fn hold_wait(
    builder: &mut Builder,
    port: &AgentPort,
    waitrequest: Option<Net>,
    write: Net,
) -> Result<ToldWait, NetFault>
    requires port { IsBoundedAgent port.now }
    requires waitrequest { HasNet builder.old port.now.waitrequest 1 waitrequest }
    requires write { IsBit builder.old write }
    ensures busy { IfOk result (λ made. IsBit builder.new made.busy) }
    ensures held { IfOk result (λ made. IsWaitHeld builder.new port.now waitrequest write made.busy made.held) }
    ensures owned { IfOk result (λ made. AreMadeBetween (owns_wait made.held) builder.old builder.new) }
    ensures grows { GrowsBy 6 builder.old builder.new }
    ensures still_wait { StillWait builder.old builder.new }
    ensures own_wait { IfOk result (λ made. (n : ℕ) → owns_wait made.held n → IsWaiting builder.new n) }
    ensures newly { IfOk result (λ made. WaitsBeside (owns_wait made.held) builder.old builder.new) }
    ensures full { result ≡ Err NetFault.TooManyNets → 2 ^ 20 < length builder.old.lines + 6 }
{
    match waitrequest {
        Some(busy) => {
            let held = HeldWait::Given;
            Ok(ToldWait { busy, held })
        }
        None => hold_times(builder, port, write),
    }
}

/// Whether the agent is shown a beat.
#[tactic(auto, using(net_parts::specs::Laws::growing))]
fn shows_beat(
    builder: &mut Builder,
    port: &AgentPort,
    read: Net,
    write: Net,
) -> Result<Net, NetFault>
    requires port { IsBoundedAgent port.now }
    requires read { IsBit builder.old read }
    requires write { IsBit builder.old write }
    ensures net { IfOk result (λ shows. IsBit builder.new shows) }
    ensures value { IfOk result (λ shows. Always builder.new (λ cycle. is_raised (cycle.net shows.number)
        ≡ shows_beat port.now (cycle.net read.number) (cycle.net write.number))) }
    ensures adds { AddsNets 1 builder.old builder.new }
    ensures full { result ≡ Err NetFault.TooManyNets → 2 ^ 20 < length builder.old.lines + 1 }
{
    if !port.writes {
        Ok(read)
    } else if !port.reads {
        Ok(write)
    } else {
        either(builder, read, write)
    }
}

/// The count of the cycles for which the beat has stood, after a cycle in which one stands or none does. It doesn't rise above
/// its largest value.
#[tactic(auto, using(net_parts::specs::Laws::growing))]
fn next_stood(builder: &mut Builder, stood: Net, stands: Net) -> Result<Net, NetFault>
    requires stood { IsNet builder.old stood }
    requires stands { IsBit builder.old stands }
    ensures net { IfOk result (λ next. IsNetOfWidth builder.new next stood.width) }
    ensures value { IfOk result (λ next. Always builder.new (λ cycle. cycle.net next.number
        ≡ stood_next stood.width (is_raised (cycle.net stands.number)) (cycle.net stood.number))) }
    ensures adds { AddsNets 7 builder.old builder.new }
    ensures full { result ≡ Err NetFault.TooManyNets → 2 ^ 20 < length builder.old.lines + 7 }
{
    let bits = builder.width(stood);
    let others = builder.not(stood)?;
    let rises = builder.any(others)?;
    let more = fit_bits(builder, rises, 1, bits)?;
    let risen = builder.add(stood, more)?;
    let none = constant(builder, bits, 0)?;
    choose(builder, stands, risen, none)
}

/// Sets the count of the cycles for which the beat has stood.
#[tactic(auto, using(net_parts::specs::Laws::growing))]
fn finish_stood(
    builder: &mut Builder,
    port: &AgentPort,
    read: Net,
    write: Net,
    busy: Net,
    stood: Net,
) -> Result<(), NetFault>
    requires port { IsBoundedAgent port.now }
    requires read { IsBit builder.old read }
    requires write { IsBit builder.old write }
    requires busy { IsBit builder.old busy }
    requires stood { IsNet builder.old stood }
    requires waits { IsWaiting builder.old stood.number }
    ensures on { OnOk result (StoodOn builder.new port.now read write busy stood) }
    ensures grows { GrowsBy 9 builder.old builder.new }
    ensures waits { (n : ℕ) → ¬ (n ≡ stood.number) → IsWaiting builder.old n → IsWaiting builder.new n }
    ensures no_more_wait { OnOk result (WaitsWithout (λ n. n ≡ stood.number) builder.old builder.new) }
    ensures full { result ≡ Err NetFault.TooManyNets → 2 ^ 20 < length builder.old.lines + 9 }
{
    let shows = shows_beat(builder, port, read, write)?;
    let stands = both(builder, shows, busy)?;
    let next = next_stood(builder, stood, stands)?;
    take_next(builder, stood, next);
    Ok(())
}

/// Sets what tells the wait, for an agent that is shown this `read` and this `write`, where it has the ports.
pub(crate) fn finish_wait(
    builder: &mut Builder,
    port: &AgentPort,
    read: Net,
    write: Net,
    told: &ToldWait,
) -> Result<(), NetFault>
    requires port { IsBoundedAgent port.now }
    requires held { IsWaitStood builder.old told.now.held }
    requires read { IsBit builder.old read }
    requires write { IsBit builder.old write }
    requires busy { IsBit builder.old told.now.busy }
    requires waits { (n : ℕ) → owns_wait told.now.held n → IsWaiting builder.old n }
    ensures on { OnOk result (WaitGoesOn builder.new port.now read write told.now.busy told.now.held) }
    ensures grows { GrowsBy 9 builder.old builder.new }
    ensures waits { (n : ℕ) → ¬ owns_wait told.now.held n → IsWaiting builder.old n → IsWaiting builder.new n }
    ensures no_more_wait { OnOk result (WaitsWithout (owns_wait told.now.held) builder.old builder.new) }
    ensures full { result ≡ Err NetFault.TooManyNets → 2 ^ 20 < length builder.old.lines + 9 }
{
    match told.held {
        HeldWait::Given | HeldWait::Soon => Ok(()),
        HeldWait::Counts { stood } => { finish_stood(builder, port, read, write, told.busy, stood) }
    }
}
