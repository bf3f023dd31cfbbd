//! Transactions with the scenario that states them.

ghost use Rattle.std.specs.Prelude.{◌≡◌, ◌≤◌, IfOk, IfErr};
ghost use Rattle.iface_roles.specs.Proper.{IsBoundedHost, range_of};
ghost use Rattle.scenario_tables.specs.Scenarios.{IsScenario};
ghost use Rattle.scenarios.specs.declared.faults.ScenarioFault.TheVariants.{NoMemory as OutOfMemory};
ghost use Rattle.packet_bytes.specs.Rules.{AreTransfers, IsFaultOf};
ghost use Rattle.scenario_runs.specs.Hosts.{IsTransferHost};
ghost use Rattle.scenario_runs.specs.Stated.{AreStated, scenario_of};

use crate::transfers::hosts::{host_name, reach};
use crate::transfers::laws::transfers_are_stated;
use av_base::NoMemory;
use iface_roles::HostPort;
use link_rules::Plan;
use packet_bytes::{PacketFault, Transfers};
use scenario_tables::Scenario;
use scenarios::{ScenarioFault, never_both, no_two_scenarios, read_scenario};
use std::alloc::Global;

/// The transactions of a stream, and the scenario in which host 0 does them and nothing else is stated.
#[derive(Drop)]
pub struct StatedTransfers {
    pub transfers: Transfers,
    pub scenario: Scenario,
}

/// Want of memory is the only answer other than a scenario.
fn want_of_memory(fault: ScenarioFault) -> NoMemory
    requires { fault ≡ OutOfMemory }
{
    match fault {
        ScenarioFault::NoMemory => NoMemory,
        ScenarioFault::Refused { .. } => unreachable!(),
    }
}

/// The scenario of transactions, as its text is read back.
fn read_back(
    alloc: Global,
    plan: &Plan,
    transfers: &Transfers,
    cycles: u32,
) -> Result<Scenario, NoMemory>
    requires { AreStated plan.now.system cycles transfers.now }
    ensures scenario { IfOk result (λ scenario. scenario ≡ scenario_of plan.now.system cycles transfers.now) }
    ensures fits { IfOk result (IsScenario plan.now.system) }
{
    no_two_scenarios();
    never_both();
    let name = host_name(alloc, plan)?;
    let text = transfers.scenario(alloc, name.as_str(), cycles)?;
    match read_scenario(alloc, text.as_slice(), plan) {
        Ok(scenario) => Ok(scenario),
        Err(fault) => Err(want_of_memory(fault)),
    }
}

/// Reads the transactions of a stream for host 0 of a plan, and states them as a scenario of so many cycles.
pub fn stated_transfers(
    alloc: Global,
    plan: &Plan,
    port: &HostPort,
    bytes: &[u8],
    cycles: u32,
) -> Result<StatedTransfers, PacketFault>
    requires host { IsTransferHost plan.now.system port.now }
    requires bounded { IsBoundedHost port.now }
    requires some { 1 ≤ cycles }
    requires few { cycles ≤ 65536 }
    ensures transfers { IfOk result (λ stated. AreTransfers port.now.word_bytes (range_of port.now) bytes.now stated.transfers) }
    ensures scenario { IfOk result (λ stated. stated.scenario ≡ scenario_of plan.now.system cycles stated.transfers) }
    ensures fits { IfOk result (λ stated. IsScenario plan.now.system stated.scenario) }
    ensures fault { IfErr result (IsFaultOf port.now.word_bytes (range_of port.now) bytes.now) }
{
    plan.well_made();
    transfers_are_stated();
    let transfers = Transfers::read(alloc, bytes, port.word_bytes, reach(port))?;
    let scenario = read_back(alloc, plan, &transfers, cycles)?;
    Ok(StatedTransfers {
        transfers,
        scenario,
    })
}
