ghost use Rattle.std.specs.Prelude.{◌≡◌, IfOk};
ghost use Rattle.drawn_scenarios.specs.Agents.{agent_script};
ghost use Rattle.drawn_scenarios.specs.Drawn.{agent_scripts};

use crate::generator::Generator;
use av_base::{List, NoMemory};
use iface_roles::AgentPort;
use link_rules::Plan;
use scenario_tables::{AgentStatement, Scripts};
use std::alloc::Global;

fn agent_script(
    alloc: Global,
    generator: &mut Generator,
    agent: &AgentPort,
) -> Result<List<AgentStatement>, NoMemory>
    ensures { IfOk result (λ script. (script, generator.new) ≡ agent_script agent.now generator.old) }
{
    let mut script = List::new(alloc);
    if agent.waitrequest {
        let pattern = generator.pattern(alloc)?;
        script.push(AgentStatement::Stall { pattern })?;
    }
    if agent.readdatavalid {
        let cycles = 1 + generator.draw(8) as u8;
        script.push(AgentStatement::Latency { cycles })?;
    }
    Ok(script)
}

/// What is set of each agent, by the agents' numbers.
pub(crate) fn agent_scripts(
    alloc: Global,
    generator: &mut Generator,
    plan: &Plan,
) -> Result<Scripts<AgentStatement>, NoMemory>
    ensures { IfOk result (λ scripts. (scripts, generator.new) ≡ agent_scripts plan.now.system generator.old) }
{
    let mut scripts = Scripts::blank(alloc, 0)?;
    'agents: for number in 0..plan.agents().len() {
        let script = agent_script(alloc, generator, &plan.agent(number))?;
        scripts.add(script)?;
    }
    Ok(scripts)
}
