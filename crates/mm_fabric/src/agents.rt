//! What stands next to an agent: its arbiter, a pipe of stages, and the part below it.

ghost use Rattle.std.specs.Prelude.{◌≡◌, ℕ, ◌+◌, ◌*◌, ◌^◌, ◌<◌, ◌≤◌, length, IfOk, OnOk};
ghost use Rattle.std.specs.List.{AllZip};
ghost use Rattle.iface_roles.specs.Proper.{IsBoundedAgent};
ghost use Rattle.net_parts.specs.Growth.{GrowsInMemory, StillWait, StillWaitForWrite};
ghost use Rattle.mm_agent.specs.Agents.{AreAgentNets};
ghost use Rattle.mm_fabric.specs.Parts.{IsAgentPart, askers_of, commands_above, backs_above};
ghost use Rattle.mm_fabric.specs.Wide.{AsksFor, IsSeated, joined_agent_nets, joined_agent_memories};
ghost use Rattle.mm_fabric.specs.Rows.{told_seats};
ghost use Rattle.mm_fabric.specs.Askers.{MayAsk, AreAsked, AreToldBelow, agent_part_nets, HasNoRoomFor};
ghost use Rattle.mm_fabric.specs.Lone.{BoundsReads};

use crate::parts::{AgentPart, Asking, Seat};
use crate::rows::{begin_rows, finish_rows};
use crate::stages::{begin_stages, finish_stages};
use crate::wide::{widen_all, widest};
use av_base::List;
use command_nets::{CommandNets, word_bits};
use iface_roles::AgentPort;
use mm_agent::{AgentNets, emit_agent};
use mm_arbiter::{Asker, BackNets, emit_arbiter, finish_arbiter};
use mm_route::BackNets as RouteBackNets;
use netlist::{Builder, NetFault};
use std::alloc::{AllocError, Global};

/// The bits of the tag of a command: the number of its host.
const TAG_BITS: u8 = 4;

/// The same nets, as a route is told.
fn route_back(back: &BackNets) -> RouteBackNets
    ensures wait { result.wait ≡ back.now.wait }
    ensures answer { result.answer ≡ back.now.answer }
{
    RouteBackNets {
        wait: back.wait,
        answer: back.answer,
    }
}

/// The askers with their commands and what comes back, in their order, as where no links stand above.
fn seats_of(
    alloc: Global,
    askers: &[Asker],
    commands: &[CommandNets],
    backs: &[BackNets],
) -> Result<List<Seat>, NetFault>
    requires commands { length commands.now ≡ length askers.now }
    requires backs { length backs.now ≡ length askers.now }
    ensures askers { IfOk result (λ seats. askers_of seats ≡ askers.now) }
    ensures commands { IfOk result (λ seats. commands_above seats ≡ commands.now) }
    ensures backs { IfOk result (λ seats. backs_above seats ≡ backs.now) }
    ensures full { ¬ (result ≡ Err NetFault.TooManyNets) }
{
    let mut seats = List::new(alloc);
    for k in 0..askers.len() {
        let back = backs[k];
        let seat = Seat {
            host: askers[k].host,
            shares: askers[k].shares,
            command: commands[k],
            back: route_back(&back),
            told: route_back(&back),
        };
        if seats.push(seat).is_err() {
            return Err(NetFault::NoMemory);
        }
    }
    Ok(seats)
}

/// The seats, each told by its links, in their order.
fn seats_told(alloc: Global, seats: &[Seat], told: &[RouteBackNets]) -> Result<List<Seat>, NetFault>
    requires { length told.now ≡ length seats.now }
    ensures seats { IfOk result (λ made. made ≡ told_seats seats.now told.now) }
    ensures full { ¬ (result ≡ Err NetFault.TooManyNets) }
{
    let mut made = List::new(alloc);
    for k in 0..seats.len() {
        let seat = Seat {
            told: told[k],
            ..seats[k]
        };
        if made.push(seat).is_err() {
            return Err(NetFault::NoMemory);
        }
    }
    Ok(made)
}

/// Makes what stands next to an agent, behind commands of the same widths, with so many stages between arbiter and agent.
///
/// `TooManyNets` comes where the module has no room for these nets. After an error the builder is to be dropped: registers may
/// stand in it that wait.
pub(crate) fn emit_agent_part(
    alloc: Global,
    builder: &mut Builder,
    port: &AgentPort,
    nets: &AgentNets,
    askers: &[Asker],
    commands: &[CommandNets],
    stages: u8,
) -> Result<AgentPart, NetFault>
    requires stages { stages ≤ 4 }
    requires port { IsBoundedAgent port.now }
    requires nets { AreAgentNets builder.old port.now nets.now }
    requires askers { MayAsk askers.now }
    requires commands { AreAsked builder.old port.now askers.now commands.now }
    ensures part { IfOk result (IsAgentPart builder.new stages) }
    ensures port { IfOk result (λ part. part.port ≡ port.now) }
    ensures nets { IfOk result (λ part. part.nets ≡ nets.now) }
    ensures askers { IfOk result (λ part. askers_of part.seats ≡ askers.now) }
    ensures commands { IfOk result (λ part. commands_above part.seats ≡ commands.now) }
    ensures backs { IfOk result (λ part. AreToldBelow builder.new (port.now.word_bytes * 8) part.seats) }
    ensures bounds { IfOk result (BoundsReads builder.new stages) }
    ensures grows { GrowsInMemory (agent_part_nets (length askers.now)) 1 builder.old builder.new }
    ensures waits { StillWait builder.old builder.new }
    ensures no_more_wait { OnOk result (StillWait builder.new builder.old) }
    ensures still_wait_for_write { StillWaitForWrite builder.old builder.new }
    ensures no_more_wait_for_write { OnOk result (StillWaitForWrite builder.new builder.old) }

    // Memory may run out at any net.
    ensures full { result ≡ Err NetFault.TooManyNets → HasNoRoomFor (agent_part_nets (length askers.now)) 1 builder.old }
{
    let several = askers.len() > 1;
    let (asked, arbiter) = emit_arbiter(builder, askers, commands)?;
    let (command, kept) = begin_stages(builder, stages, several, &asked)?;
    let made = emit_agent(builder, port, nets, &command, several)?;
    builder.well_made();
    let told = finish_stages(builder, stages, several, kept, &made)?;
    let bits = word_bits(port.word_bytes);
    let backs = finish_arbiter(alloc, builder, &arbiter, askers, &told, TAG_BITS, bits)?;
    let seats = seats_of(alloc, askers, commands, &backs)?;
    Ok(AgentPart {
        port: *port,
        nets: *nets,
        seats,
        arbiter,
        asked,
        told,
        command,
        made,
    })
}

/// Makes what stands next to an agent, behind the hosts that ask, in their order: their links, the arbiter on addresses as wide
/// as the widest and counts of the agent's bursts, so many stages, and the part next to the agent.
///
/// `TooManyNets` comes where the module has no room for these nets. After an error the builder is to be dropped: registers may
/// stand in it that wait.
pub(crate) fn join_agent(
    alloc: Global,
    builder: &mut Builder,
    port: &AgentPort,
    nets: &AgentNets,
    askers: &[Asker],
    asking: &[Asking],
    stages: u8,
) -> Result<AgentPart, NetFault>
    requires stages { stages ≤ 4 }
    requires port { IsBoundedAgent port.now }
    requires nets { AreAgentNets builder.old port.now nets.now }
    requires askers { MayAsk askers.now }
    requires asking { AllZip (AsksFor builder.old port.now) askers.now asking.now }
    ensures part { IfOk result (IsAgentPart builder.new stages) }
    ensures port { IfOk result (λ part. part.port ≡ port.now) }
    ensures nets { IfOk result (λ part. part.nets ≡ nets.now) }
    ensures askers { IfOk result (λ part. askers_of part.seats ≡ askers.now) }
    ensures seats { IfOk result (λ part. AllZip (IsSeated builder.new port.now) asking.now part.seats) }
    ensures bounds { IfOk result (BoundsReads builder.new stages) }
    ensures grows { GrowsInMemory (joined_agent_nets (length askers.now))
        (joined_agent_memories (length askers.now)) builder.old builder.new }
    ensures waits { StillWait builder.old builder.new }
    ensures no_more_wait { OnOk result (StillWait builder.new builder.old) }
    ensures still_wait_for_write { OnOk result (StillWaitForWrite builder.old builder.new) }
    ensures no_more_wait_for_write { OnOk result (StillWaitForWrite builder.new builder.old) }

    // Memory may run out at any net.
    ensures full { result ≡ Err NetFault.TooManyNets
        → HasNoRoomFor (joined_agent_nets (length askers.now)) (joined_agent_memories (length askers.now)) builder.old }
{
    let begun = begin_rows(alloc, builder, port, stages, asking)?;
    let bits = widest(builder, port, &begun.commands);
    let wide = widen_all(alloc, builder, &begun.commands, bits)?;
    let mut part = emit_agent_part(alloc, builder, port, nets, askers, &wide, stages)?;
    let told = finish_rows(
        alloc,
        builder,
        port,
        stages,
        asking,
        begun.rows,
        part.seats.as_slice(),
    )?;
    part.seats = seats_told(alloc, part.seats.as_slice(), &told)?;
    Ok(part)
}
