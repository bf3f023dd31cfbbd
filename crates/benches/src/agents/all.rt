//! All agents of a test bench.

ghost use Rattle.std.specs.Prelude.{◌≡◌, ◌<◌, ◌≤◌, ℕ, List as Sequence, length, flat_map, slice_get, Some, true, IfOk, IsTrue, IsFalse};
ghost use Rattle.iface_roles.specs.declared.records.AgentPort.{AgentPort as Record};
ghost use Rattle.address_map.specs.Maps.{agents_of};
ghost use Rattle.port_tables.specs.Ports.{ports_of};
ghost use Rattle.port_tables.specs.PortMaps.{AreTold};
ghost use Rattle.port_rows.specs.Levels.{AllFit, set_levels};
ghost use Rattle.scenario_tables.specs.declared.statements.AgentStatement.{AgentStatement as Statement};
ghost use Rattle.scenario_tables.specs.Scenarios.{IsAgentAt};
ghost use Rattle.scenario_tables.specs.Statements.{IsAgentScript};
ghost use Rattle.benches.specs.Agents.{BenchAgentValue, AreFirstAgents, IsFirstAgent, sets_answered, gives_at_once, Fits};

use crate::agents::agent::BenchAgent;
use crate::parts::Simulator;
use av_base::NoMemory;
use interconnect::PortMap;
use link_rules::Plan;
use netlist::PortLine;
use port_rows::agent_ends::{AgentPlaces, AgentPorts, script_holds_bytes};
use port_rows::{InputRow, levels_stand};
use scenario_tables::{AgentStatement, Scripts};
use stand_ins::AgentStandIn;
use std::alloc::Global;
use trace_lines::EndName;

/// The agent of this number, before the first cycle of its script.
fn agent_of_plan<'a>(
    alloc: Global,
    plan: &'a Plan,
    ports: &PortMap,
    header: &[PortLine],
    script: &'a [AgentStatement],
    cycles: u32,
    number: usize,
) -> Result<BenchAgent<'a>, NoMemory>
    requires told { AreTold plan.now.system ports.now }
    requires header { header.now ≡ ports_of plan.now.system }
    requires number { number < length (agents_of plan.now.system) }
    requires script { (port : Record) → IsAgentAt plan.now.system number port → IsAgentScript port script.now }
    requires few { cycles ≤ 65536 }
    ensures { IfOk result (IsFirstAgent plan.now.system number script.now cycles) }
{
    plan.is_within_limits();
    script_holds_bytes(script);
    let end = plan.agents()[number];
    let port = plan.agent(number);
    let stand_in = match AgentStandIn::new(alloc, &port, script, cycles) {
        Ok(stand_in) => stand_in,
        Err(error) => return Err(error),
    };
    Ok(BenchAgent {
        name: EndName::of(plan, end),
        places: AgentPlaces::of(plan, ports, header, end),
        ports: AgentPorts::of(plan, ports, end, number as u32),
        port,
        stand_in,
    })
}

/// The agents of a plan, each before the first cycle of its script, with room for so many cycles. `header` is that of the plan's
/// module.
pub fn agents_of_plan<'a>(
    alloc: Global,
    plan: &'a Plan,
    ports: &PortMap,
    header: &[PortLine],
    scripts: &'a Scripts<AgentStatement>,
    cycles: u32,
) -> Result<Vec<BenchAgent<'a>>, NoMemory>
    requires told { AreTold plan.now.system ports.now }
    requires header { header.now ≡ ports_of plan.now.system }
    requires count { length scripts.now ≡ length (agents_of plan.now.system) }
    requires scripts { (a : ℕ) (port : Record) (script : Sequence Statement) → IsAgentAt plan.now.system a port
        → slice_get scripts.now a ≡ Some script → IsAgentScript port script }
    requires few { cycles ≤ 65536 }
    ensures { IfOk result (λ agents. AreFirstAgents plan.now.system scripts.now cycles agents.items) }
{
    let mut agents = Vec::new(alloc);
    'agents: for number in 0..scripts.len() {
        let script = scripts.script(number);
        match agent_of_plan(alloc, plan, ports, header, script, cycles, number) {
            Ok(agent) => agents.push(agent)?,
            Err(error) => return Err(error),
        }
    }
    Ok(agents)
}

/// Sets what all of them show in this cycle, once their commands are known, in a row that has room for it.
pub fn answer_all(agents: &[BenchAgent], sim: &Simulator, row: &mut InputRow)
    requires stepped { sim.now.stepped ≡ true }
    requires fits { (a : ℕ) (agent : BenchAgentValue) → slice_get agents.now a ≡ Some agent → Fits agent sim.now }
    requires room { AllFit row.old (flat_map (λ agent. sets_answered agent sim.now) agents.now) }
    ensures { row.new ≡ set_levels row.old (flat_map (λ agent. sets_answered agent sim.now) agents.now) }
{
    levels_stand();
    'agents: for agent in agents {
        agent.answer(sim, row);
    }
}

/// Whether one of them gives a word in the very cycle in which it takes the read.
pub fn any_gives_at_once(agents: &[BenchAgent]) -> bool
    ensures none { IsFalse result → (a : ℕ) (agent : BenchAgentValue) → slice_get agents.now a ≡ Some agent
        → IsFalse (gives_at_once agent) }
    ensures some { IsTrue result
        → (a : ℕ) × (agent : BenchAgentValue) × (slice_get agents.now a ≡ Some agent) × IsTrue (gives_at_once agent) }
{
    'agents: for agent in agents {
        if agent.gives_at_once() {
            return true;
        }
    }
    false
}
