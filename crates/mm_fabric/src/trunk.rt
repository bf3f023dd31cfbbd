//! A host and its route, which wait for what the agents tell.

ghost use Rattle.std.specs.Prelude.{◌≡◌, ℕ, ◌+◌, ◌*◌, ◌^◌, ◌<◌, ◌≤◌, ◌&&◌, true, List, length, IfOk, OnOk};
ghost use Rattle.iface_roles.specs.Proper.{IsBoundedHost, range_of};
ghost use Rattle.netlist.specs.Netlists.{IsWaiting};
ghost use Rattle.net_parts.specs.Nets.{IsBit, IsRegister};
ghost use Rattle.net_parts.specs.Growth.{GrowsBy, GrowsInMemory, StillWait, WaitsBeside, WaitsWithout, AreMadeBetween, StillWaitForWrite};
ghost use Rattle.memory_runs.specs.declared.sides.route.Route.{Route};
ghost use Rattle.command_nets.specs.declared.nets.CommandNets.{CommandNets};
ghost use Rattle.mm_route.specs.Entries.{AreEntries, is_lone};
ghost use Rattle.mm_route.specs.Shown.{AreCommandsOf, widths_below};
ghost use Rattle.mm_route.specs.Forward.{RouteForward, forward_nets};
ghost use Rattle.mm_route.specs.Backward.{AreBackNets, backward_nets};
ghost use Rattle.mm_route.specs.Lone.{RunsAsWire};
ghost use Rattle.mm_route.specs.Machine.{RunsAsMachine};
ghost use Rattle.mm_host.specs.Hosts.{reads_words, AreHostNets};
ghost use Rattle.mm_host.specs.Reads.{is_unbounded};
ghost use Rattle.mm_host.specs.Forms.{AreAnswersTo, RunsAsHostWhile};
ghost use Rattle.mm_fabric.specs.Askers.{HasNoRoomFor};
ghost use Rattle.mm_fabric.specs.Trunks.{room_bits};
ghost use Rattle.mm_fabric.specs.Trunks.{owns, IsTrunk};

use command_nets::{AnswerNets, CommandNets, word_bits};
use iface_roles::HostPort;
use memory_runs::sides::Route;
use mm_host::{HeldHost, HostAnswer, HostNets, emit_host, finish_host};
use mm_route::{BackNets, HeldRoute, emit_route, finish_route};
use netlist::{Builder, Net, NetFault};
use std::alloc::Global;

/// The bits of the tag of a command: the number of its host.
const TAG_BITS: u8 = 4;

/// A host and its route between their calls.
#[derive(Clone, Copy)]
pub struct Trunk {
    pub host: HeldHost,
    pub route: HeldRoute,
}

/// What the route tells the host, and what the host is told.
#[derive(Clone, Copy)]
pub(crate) struct Told {
    pub wait: Net,
    pub answer: AnswerNets,
    pub host: HostAnswer,
}

/// The bits of the count of words that a host is owed: it holds 16 of its longest bursts.
fn room_bits(port: &HostPort) -> u8
    requires { IsBoundedHost port.now }
    ensures bits { result ≡ room_bits port.now }
    ensures some { 1 ≤ result }
    ensures few { result ≤ 128 }
{
    if port.burst_bits == 0 {
        5
    } else {
        4 + port.burst_bits
    }
}

/// Makes the commands of a host for its routes, in their order. `bounded`: the agents never let 16 reads of one word go
/// unanswered.
///
/// After an error the builder is to be dropped: registers may stand in it that wait.
pub(crate) fn begin_trunk(
    alloc: Global,
    builder: &mut Builder,
    number: u8,
    port: &HostPort,
    nets: &HostNets,
    routes: &[Route],
    bounded: bool,
) -> Result<(Vec<CommandNets>, Trunk), NetFault>
    requires number { number < 16 }
    requires port { IsBoundedHost port.now }
    requires nets { AreHostNets builder.old port.now nets.now }
    requires some { 1 ≤ length routes.now }
    requires few { length routes.now ≤ 32 }
    requires entries { (width : ℕ) → 2 ^ width ≡ range_of port.now → AreEntries width routes.now }
    ensures nets { IfOk result (λ p. p.1.host.nets ≡ nets.now) }
    ensures trunk { IfOk result (λ p. IsTrunk builder.new port.now (length routes.now) p.1) }
    ensures unbounded { IfOk result (λ p. is_unbounded p.1.host.reads ≡ (reads_words port.now && bounded)) }
    ensures forward { IfOk result (λ p. RouteForward routes.now number p.1.host.command p.0.items p.1.route builder.new) }
    ensures commands { IfOk result (λ p. AreCommandsOf builder.new (widths_below p.1.host.command 4) p.0.items) }
    ensures owned { IfOk result (λ p. AreMadeBetween (owns p.1) builder.old builder.new) }
    ensures grows { GrowsBy (51 + forward_nets (length routes.now)) builder.old builder.new }
    ensures waits { StillWait builder.old builder.new }
    ensures newly { IfOk result (λ p. WaitsBeside (owns p.1) builder.old builder.new) }
    ensures full { result ≡ Err NetFault.TooManyNets
        → 2 ^ 20 < length builder.old.lines + (51 + forward_nets (length routes.now)) }
{
    let host = emit_host(builder, port, nets, bounded)?;
    let (commands, route) = emit_route(
        alloc,
        builder,
        number,
        TAG_BITS,
        routes,
        room_bits(port),
        host.writes.is_some(),
        host.command,
    )?;
    Ok((commands, Trunk { host, route }))
}

/// Makes what the host is told of the waits and the answers of its routes, and gives the registers their next nets.
///
/// After an error the builder is to be dropped: registers may stand in it that wait.
pub(crate) fn finish_trunk(
    builder: &mut Builder,
    port: &HostPort,
    trunk: &Trunk,
    backs: &[BackNets],
) -> Result<Told, NetFault>
    requires port { IsBoundedHost port.now }
    requires trunk { IsTrunk builder.old port.now (length backs.now) trunk.now }
    requires few { length backs.now ≤ 128 }
    requires backs { AreBackNets builder.old (port.now.word_bytes * 8) backs.now }
    ensures told { IfOk result (λ told. AreAnswersTo builder.new port.now told.host) }
    ensures host { IfOk result (λ told. RunsAsHostWhile builder.new port.now trunk.now.host told.wait told.answer told.host) }
    ensures route { IfOk result (λ told. (entries : List Route) (host : ℕ) (command : CommandNets) (commands : List CommandNets)
        → RouteForward entries host command commands trunk.now.route builder.old
        → RunsAsMachine builder.new entries host command commands (room_bits port.now) backs.now told.wait told.answer) }
    ensures lone { IfOk result (λ told. (entries : List Route) (host : ℕ) (command : CommandNets) (commands : List CommandNets)
        → RouteForward entries host command commands trunk.now.route builder.old
        → is_lone entries command.address.width ≡ true
        → RunsAsWire builder.new trunk.now.route command commands backs.now told.wait told.answer) }
    ensures registers { (n : ℕ) → owns trunk.now n → IsRegister builder.new n }
    ensures grows { GrowsInMemory (backward_nets (length backs.now) + 171) 1 builder.old builder.new }
    ensures waits { (n : ℕ) → ¬ owns trunk.now n → IsWaiting builder.old n → IsWaiting builder.new n }
    ensures no_more_wait { OnOk result (WaitsWithout (owns trunk.now) builder.old builder.new) }
    ensures still_wait_for_write { StillWaitForWrite builder.old builder.new }
    ensures no_more_wait_for_write { OnOk result (StillWaitForWrite builder.new builder.old) }
    ensures full { result ≡ Err NetFault.TooManyNets → HasNoRoomFor (backward_nets (length backs.now) + 171) 1 builder.old }
{
    builder.well_made();
    let (wait, answer) = finish_route(
        builder,
        trunk.route,
        room_bits(port),
        backs,
        word_bits(port.word_bytes),
    )?;
    let host = finish_host(builder, port, &trunk.host, wait, &answer)?;
    Ok(Told { wait, answer, host })
}
