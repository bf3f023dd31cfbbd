//! The links of the hosts that ask an agent, between their commands and its arbiter.

ghost use Rattle.std.specs.Prelude.{◌≡◌, ℕ, ◌+◌, ◌*◌, ◌^◌, ◌<◌, ◌≤◌, length, IfOk, OnOk};
ghost use Rattle.std.specs.List.{AllByRecursion};
ghost use Rattle.netlist.specs.Netlists.{IsWaiting, WaitsForWrite};
ghost use Rattle.net_parts.specs.Growth.{GrowsInMemory, StillWait, WaitsBeside, WaitsWithout, StillWaitForWrite, WriteWaitsBeside, WriteWaitsWithout};
ghost use Rattle.mm_width.specs.Widths.{AreBegunWidths, width_command_nets, width_answer_nets, width_memories};
ghost use Rattle.mm_fabric.specs.Askers.{HasNoRoomFor};
ghost use Rattle.mm_fabric.specs.Rows.{AllThree, MayLead, LeadsBelow, LeadsToSeat, IsOfRows, IsStoredByRows, TellsSeat};

use crate::parts::{Asking, Seat};
use command_nets::CommandNets;
use iface_roles::AgentPort;
use link_core::Begun;
use mm_route::BackNets;
use mm_width::{KeptByGather, Width, WidthKept, begin_width, finish_width};
use netlist::{Builder, NetFault};
use std::alloc::Global;

/// The links of some hosts, with the commands below them, in the order of the hosts.
#[derive(Drop)]
pub(crate) struct BegunRows {
    pub rows: Vec<Begun<Width, WidthKept>>,
    pub commands: Vec<CommandNets>,
}

/// Makes the commands below the links of each host that asks.
///
/// After an error the builder is to be dropped: registers may stand in it that wait.
pub(crate) fn begin_rows(
    alloc: Global,
    builder: &mut Builder,
    port: &AgentPort,
    stages: u8,
    asking: &[Asking],
) -> Result<BegunRows, NetFault>
    requires stages { stages ≤ 4 }
    requires asking { AllByRecursion (MayLead builder.old port.now) asking.now }
    ensures rows { IfOk result (λ begun. AllThree
        (LeadsBelow builder.new port.now stages) asking.now begun.rows.items begun.commands.items) }
    ensures begun { IfOk result (λ begun. AreBegunWidths begun.rows.items builder.new) }
    ensures grows { GrowsInMemory (width_command_nets * length asking.now)
        (width_memories * length asking.now) builder.old builder.new }
    ensures waits { StillWait builder.old builder.new }
    ensures newly { IfOk result (λ begun. WaitsBeside (IsOfRows begun.rows.items) builder.old builder.new) }

    // No register of theirs waited before.
    ensures apart { IfOk result (λ begun. (n : ℕ) → IsOfRows begun.rows.items n → ¬ IsWaiting builder.old n) }
    ensures still_wait_for_write { OnOk result (StillWaitForWrite builder.old builder.new) }
    ensures newly_written { IfOk result (λ begun. WriteWaitsBeside (IsStoredByRows begun.rows.items) builder.old builder.new) }

    // Nor a memory of theirs.
    ensures memories_apart { IfOk result (λ begun. (m : ℕ) → IsStoredByRows begun.rows.items m → ¬ WaitsForWrite builder.old m) }
    ensures full { result ≡ Err NetFault.TooManyNets
        → HasNoRoomFor (width_command_nets * length asking.now) (width_memories * length asking.now) builder.old }
{
    let _types: Option<KeptByGather> = None;
    let mut rows = Vec::new(alloc);
    let mut commands = Vec::new(alloc);
    for asked in asking {
        let below = begin_width(builder, &mut rows, &asked.port, port, stages, asked.command)?;
        commands.push(below)?;
    }
    Ok(BegunRows { rows, commands })
}

/// Makes what the links of each host tell it, from what the arbiter tells the host's seat.
///
/// After an error the builder is to be dropped: registers may stand in it that wait.
pub(crate) fn finish_rows(
    alloc: Global,
    builder: &mut Builder,
    port: &AgentPort,
    stages: u8,
    asking: &[Asking],
    rows: Vec<Begun<Width, WidthKept>>,
    seats: &[Seat],
) -> Result<Vec<BackNets>, NetFault>
    requires stages { stages ≤ 4 }
    requires rows { AllThree (LeadsToSeat builder.old port.now stages) asking.now rows.items seats.now }
    requires begun { AreBegunWidths rows.items builder.old }
    ensures told { IfOk result (λ told. AllThree (TellsSeat builder.new port.now) asking.now seats.now told.items) }
    ensures grows { GrowsInMemory (width_answer_nets * length asking.now) 0 builder.old builder.new }
    ensures waits { (n : ℕ) → ¬ IsOfRows rows.items n → IsWaiting builder.old n → IsWaiting builder.new n }
    ensures no_more_wait { OnOk result (WaitsWithout (IsOfRows rows.items) builder.old builder.new) }
    ensures still_wait_for_write { OnOk result
        ((m : ℕ) → ¬ IsStoredByRows rows.items m → WaitsForWrite builder.old m → WaitsForWrite builder.new m) }
    ensures written { OnOk result (WriteWaitsWithout (IsStoredByRows rows.items) builder.old builder.new) }
    ensures full { result ≡ Err NetFault.TooManyNets → 2 ^ 20 < length builder.old.lines + width_answer_nets * length asking.now }
{
    let _types: Option<KeptByGather> = None;
    let mut begun = rows;
    let mut told = Vec::new(alloc);
    while let Some(row) = begun.pop() {
        let k = begun.len();
        let back = seats[k].back;
        let (wait, answer) = finish_width(
            builder,
            &begun,
            row,
            &asking[k].port,
            port,
            stages,
            back.wait,
            back.answer,
        )?;
        told.insert(0, BackNets { wait, answer })?;
    }
    Ok(told)
}
