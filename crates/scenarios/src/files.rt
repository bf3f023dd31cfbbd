//! Scenario files.

ghost use Rattle.std.specs.Prelude.{◌≡◌, ◌^◌, ◌<◌, length, IfOk, IfErr};
ghost use Rattle.scenario_tables.specs.Scenarios.{IsScenario};
ghost use Rattle.scenarios.specs.Files.{IsScenarioOf, IsFaultOf};

use crate::faults::{LineFault, ScenarioFault, ScenarioRule};
use crate::one_line::read_line;
use crate::so_far::SoFar;
use link_rules::Plan;
use scenario_tables::Scenario;
use std::alloc::Global;
use waves::Lines;

/// Reads a scenario for a plan from the bytes of a file.
#[tactic(auto, unfolding(crate::specs::Files::file_in))]
pub fn read_scenario(alloc: Global, bytes: &[u8], plan: &Plan) -> Result<Scenario, ScenarioFault>
    requires { length bytes.now < 2 ^ 31 }
    ensures stated { IfOk result (IsScenarioOf plan.now.system bytes.now) }
    ensures fits { IfOk result (IsScenario plan.now.system) }
    ensures fault { IfErr result (IsFaultOf plan.now.system bytes.now) }
{
    let mut so_far = SoFar::blank(alloc, plan)?;
    let mut lines = Lines::of(bytes);
    let mut number: u32 = 1;
    'lines: while let Some(line) = lines.next() {
        match read_line(alloc, plan, &mut so_far, line) {
            Ok(()) => number += 1,
            Err(LineFault::Broken { rule }) => {
                return Err(ScenarioFault::Refused { line: number, rule });
            }
            Err(LineFault::NoMemory) => return Err(ScenarioFault::NoMemory),
        }
    }
    let Some(scenario) = so_far.scenario() else {
        return Err(ScenarioFault::Refused {
            line: number,
            rule: ScenarioRule::Beginning,
        });
    };
    Ok(scenario)
}
