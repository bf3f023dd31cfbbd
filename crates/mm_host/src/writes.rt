//! The end of each command of a host: by a register where its writes come in bursts.

ghost use Rattle.std.specs.Prelude.{◌≡◌, ℕ, ◌+◌, ◌-◌, ◌^◌, ◌<◌, ◌≤◌, true, false, not, ◌&&◌, nat_eq, if◌then◌else◌, length, IfOk, OnOk};
ghost use Rattle.histories.specs.History.{is_raised, one_if};
ghost use Rattle.netlist.specs.Netlists.{IsNet, IsWaiting};
ghost use Rattle.netlist.specs.Runs.{Always};
ghost use Rattle.net_parts.specs.Nets.{IsBit, IsNetOfWidth};
ghost use Rattle.net_parts.specs.Growth.{GrowsBy, AddsNets, StillWait, WaitsBeside, WaitsWithout, AreMadeBetween};
ghost use Rattle.iface_roles.specs.Proper.{IsBoundedHost};
ghost use Rattle.memory_runs.specs.Sides.{burst_width};
ghost use Rattle.mm_host.specs.Writes.{owns_writes, beats_of, AreWritesHeld, LacksBeats, LacksOn, WritesGoOn};

use crate::fields::count_bits;
use command_nets::{register, take_next, turned, unless};
use iface_roles::HostPort;
use net_parts::{choose, constant, fit_bits, level};
use netlist::{Builder, Net, NetFault};

/// What tells the beats of a write burst.
#[derive(Clone, Copy)]
pub struct HeldWrites {
    /// A register: the beats that the burst lacks, 0 between bursts. As wide as `burstcount`.
    pub left: Net,
    /// The beats that it lacks with the one that is shown. As wide as `burstcount`.
    pub beats: Net,
}

/// The bit that another beat of the command follows, and what tells it.
#[derive(Clone, Copy)]
pub(crate) struct JoinedBeats {
    pub more: Net,
    pub held: Option<HeldWrites>,
}

/// The beats of the burst that is shown: those that it lacks, or the count where it begins.
#[tactic(auto, using(net_parts::specs::Laws::growing))]
fn count_beats(builder: &mut Builder, left: Net, count: Net, bits: u8) -> Result<Net, NetFault>
    requires left { IsNetOfWidth builder.old left bits }
    requires count { IsNetOfWidth builder.old count bits }
    ensures net { IfOk result (λ beats. IsNetOfWidth builder.new beats bits) }
    ensures value { IfOk result (λ beats. Always builder.new (λ cycle. cycle.net beats.number
        ≡ beats_of (cycle.net left.number) (cycle.net count.number))) }
    ensures adds { AddsNets 2 builder.old builder.new }
    ensures full { result ≡ Err NetFault.TooManyNets → 2 ^ 20 < length builder.old.lines + 2 }
{
    let under_way = builder.any(left)?;
    choose(builder, under_way, left, count)
}

/// The bit that another beat of the command follows: a write is shown, and isn't the last one of its burst.
#[tactic(auto, using(net_parts::specs::Laws::growing))]
fn joins_next(builder: &mut Builder, write: Net, beats: Net, bits: u8) -> Result<Net, NetFault>
    requires write { IsBit builder.old write }
    requires beats { IsNetOfWidth builder.old beats bits }
    requires some { 1 ≤ bits }
    requires few { bits ≤ 128 }
    ensures net { IfOk result (λ more. IsBit builder.new more) }
    ensures value { IfOk result (λ more. Always builder.new (λ cycle. cycle.net more.number
        ≡ one_if (is_raised (cycle.net write.number) && not (nat_eq (cycle.net beats.number) 1)))) }
    ensures adds { AddsNets 4 builder.old builder.new }
    ensures full { result ≡ Err NetFault.TooManyNets → 2 ^ 20 < length builder.old.lines + 4 }
{
    let one = constant(builder, bits, 1)?;
    let ends = builder.eq(beats, one)?;
    unless(builder, write, ends)
}

/// Counts the beats of write bursts.
#[tactic(auto, using(net_parts::specs::Laws::growing))]
fn hold_left(
    builder: &mut Builder,
    port: &HostPort,
    write: Net,
    count: Net,
) -> Result<JoinedBeats, NetFault>
    requires port { IsBoundedHost port.now }
    requires write { IsBit builder.old write }
    requires count { IsNetOfWidth builder.old count (burst_width port.now.burst_bits) }
    ensures more { IfOk result (λ made. IsBit builder.new made.more) }
    ensures held { IfOk result (λ made. AreWritesHeld builder.new port.now write count made.more made.held) }
    ensures owned { IfOk result (λ made. AreMadeBetween (owns_writes made.held) builder.old builder.new) }
    ensures grows { GrowsBy 7 builder.old builder.new }
    ensures still_wait { StillWait builder.old builder.new }
    ensures own_wait { IfOk result (λ made. (n : ℕ) → owns_writes made.held n → IsWaiting builder.new n) }
    ensures newly { IfOk result (λ made. WaitsBeside (owns_writes made.held) builder.old builder.new) }
    ensures full { result ≡ Err NetFault.TooManyNets → 2 ^ 20 < length builder.old.lines + 7 }
{
    let bits = count_bits(port);
    let left = register(builder, bits)?;
    let beats = count_beats(builder, left, count, bits)?;
    let more = joins_next(builder, write, beats, bits)?;
    let held = Some(HeldWrites { left, beats });
    Ok(JoinedBeats { more, held })
}

/// Joins the beats of each write burst.
#[tactic(auto, using(net_parts::specs::Laws::growing))]
pub(crate) fn hold_writes(
    builder: &mut Builder,
    port: &HostPort,
    write: Net,
    count: Net,
) -> Result<JoinedBeats, NetFault>
    requires port { IsBoundedHost port.now }
    requires write { IsBit builder.old write }
    requires count { IsNetOfWidth builder.old count (burst_width port.now.burst_bits) }
    requires none { port.now.writes ≡ false → Always builder.old (λ cycle. cycle.net write.number ≡ 0) }
    requires single { port.now.burst_bits ≡ 0 → Always builder.old (λ cycle. cycle.net count.number ≡ 1) }
    ensures more { IfOk result (λ made. IsBit builder.new made.more) }
    ensures held { IfOk result (λ made. AreWritesHeld builder.new port.now write count made.more made.held) }
    ensures owned { IfOk result (λ made. AreMadeBetween (owns_writes made.held) builder.old builder.new) }
    ensures grows { GrowsBy 7 builder.old builder.new }
    ensures still_wait { StillWait builder.old builder.new }
    ensures own_wait { IfOk result (λ made. (n : ℕ) → owns_writes made.held n → IsWaiting builder.new n) }
    ensures newly { IfOk result (λ made. WaitsBeside (owns_writes made.held) builder.old builder.new) }
    ensures full { result ≡ Err NetFault.TooManyNets → 2 ^ 20 < length builder.old.lines + 7 }
{
    if port.writes && port.burst_bits != 0 {
        return hold_left(builder, port, write, count);
    }
    let more = level(builder, false)?;
    Ok(JoinedBeats { more, held: None })
}

/// The number less one, and 0 where it is 0.
#[tactic(auto, using(net_parts::specs::Laws::growing))]
fn one_fewer(builder: &mut Builder, net: Net, bits: u8) -> Result<Net, NetFault>
    requires net { IsNetOfWidth builder.old net bits }
    requires some { 1 ≤ bits }
    requires few { bits ≤ 128 }
    ensures net { IfOk result (λ fewer. IsNetOfWidth builder.new fewer bits) }
    ensures value { IfOk result (λ fewer. Always builder.new (λ cycle. cycle.net fewer.number ≡ cycle.net net.number - 1)) }
    ensures adds { AddsNets 4 builder.old builder.new }
    ensures full { result ≡ Err NetFault.TooManyNets → 2 ^ 20 < length builder.old.lines + 4 }
{
    let some = builder.any(net)?;
    let one = fit_bits(builder, some, 1, bits)?;
    builder.sub(net, one)
}

/// Sets the beats that a write burst lacks.
#[tactic(auto, using(net_parts::specs::Laws::growing))]
fn finish_left(
    builder: &mut Builder,
    write: Net,
    wait: Net,
    held: HeldWrites,
    bits: u8,
) -> Result<(), NetFault>
    requires write { IsBit builder.old write }
    requires wait { IsBit builder.old wait }
    requires left { IsNetOfWidth builder.old held.left bits }
    requires beats { IsNetOfWidth builder.old held.beats bits }
    requires some { 1 ≤ bits }
    requires few { bits ≤ 128 }
    requires waits { IsWaiting builder.old held.left.number }
    ensures on { OnOk result (LacksOn builder.new write wait held) }
    ensures grows { GrowsBy 7 builder.old builder.new }
    ensures waits { (n : ℕ) → ¬ (n ≡ held.left.number) → IsWaiting builder.old n → IsWaiting builder.new n }
    ensures no_more_wait { OnOk result (WaitsWithout (λ n. n ≡ held.left.number) builder.old builder.new) }
    ensures full { result ≡ Err NetFault.TooManyNets → 2 ^ 20 < length builder.old.lines + 7 }
{
    let taken = unless(builder, write, wait)?;
    let fewer = one_fewer(builder, held.beats, bits)?;
    let next = choose(builder, taken, fewer, held.left)?;
    take_next(builder, held.left, next);
    Ok(())
}

/// Sets what tells the beats of write bursts.
#[tactic(auto, using(net_parts::specs::Laws::growing))]
pub(crate) fn finish_writes(
    builder: &mut Builder,
    port: &HostPort,
    write: Net,
    count: Net,
    wait: Net,
    joined: &JoinedBeats,
) -> Result<(), NetFault>
    requires port { IsBoundedHost port.now }
    requires held { AreWritesHeld builder.old port.now write count joined.now.more joined.now.held }
    requires write { IsBit builder.old write }
    requires wait { IsBit builder.old wait }
    requires waits { (n : ℕ) → owns_writes joined.now.held n → IsWaiting builder.old n }
    ensures on { OnOk result (WritesGoOn builder.new write wait joined.now.held) }
    ensures grows { GrowsBy 7 builder.old builder.new }
    ensures waits { (n : ℕ) → ¬ owns_writes joined.now.held n → IsWaiting builder.old n → IsWaiting builder.new n }
    ensures no_more_wait { OnOk result (WaitsWithout (owns_writes joined.now.held) builder.old builder.new) }
    ensures full { result ≡ Err NetFault.TooManyNets → 2 ^ 20 < length builder.old.lines + 7 }
{
    match joined.held {
        None => Ok(()),
        Some(held) => finish_left(builder, write, wait, held, count_bits(port)),
    }
}
