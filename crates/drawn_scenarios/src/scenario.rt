ghost use Rattle.std.specs.Prelude.{◌≡◌, ◌<◌, ◌≤◌, IfOk};
ghost use Rattle.scenario_tables.specs.Scenarios.{IsScenario};
ghost use Rattle.drawn_scenarios.specs.Drawn.{drawn_scenario};

use crate::agents::agent_scripts;
use crate::generator::Generator;
use crate::hosts::host_scripts;
use crate::laws::{drawn_scenarios_fit, sources_are_drawable};
use crate::streams::stream_scripts;
use av_base::NoMemory;
use link_rules::Plan;
use scenario_tables::Scenario;
use std::alloc::Global;

/// The scenario that is drawn for a plan, in a lane of a number. It is for 1 to 65,536 cycles. Lanes are 0 to 7.
pub fn draw_scenario(
    alloc: Global,
    plan: &Plan,
    number: u32,
    lane: u8,
    cycles: u32,
) -> Result<Scenario, NoMemory>
    requires lane { lane < 8 }
    requires some { 1 ≤ cycles }
    requires few { cycles ≤ 65536 }
    ensures drawn { IfOk result (λ scenario. scenario ≡ drawn_scenario plan.now number lane cycles) }
    ensures fits { IfOk result (IsScenario plan.now.system) }
{
    plan.well_made();
    sources_are_drawable();
    drawn_scenarios_fit();
    let mut generator = Generator::of_lane(number, lane);
    let hosts = host_scripts(alloc, &mut generator, plan)?;
    let agents = agent_scripts(alloc, &mut generator, plan)?;
    let (sources, sinks) = stream_scripts(alloc, &mut generator, plan.stream_connections())?;
    Ok(Scenario {
        cycles,
        hosts,
        agents,
        sources,
        sinks,
    })
}
