//! A simulation that is ready to run.

ghost use Rattle.std.specs.Prelude.{◌≡◌, ◌^◌, ◌<◌, ◌≤◌, ◌⊎◌, All, length, IfOk, IfErr};
ghost use Rattle.scenario_runs.specs.declared.faults.SimulateFault.TheVariants.{NoMemory};
ghost use Rattle.scenario_runs.specs.Simulations.{IsSimulateFault};
ghost use Rattle.scenario_runs.specs.Prepared.{IsPrepared};

use crate::faults::SimulateFault;
use crate::read_back::built_module;
use av_base::Bytes;
use interconnect::{Built, PortMap};
use link_rules::Plan;
use netlist::Module;
use scenario_tables::Scenario;
use scenarios::read_scenario;
use std::alloc::Global;
use system_plan::plan_of;

/// The most values that nets may have in all cycles together, as far as the weight of a plan bounds the nets.
pub(crate) const MOST_VALUES: u64 = 4_294_967_296;

/// A module, the plan that it is built for, where its ports stand, and the scenario that is to be run on it.
#[derive(Drop)]
pub struct Prepared {
    pub plan: Plan,
    pub ports: PortMap,
    pub module: Module,
    pub scenario: Scenario,
}

/// Reads a scenario for the system that files state, the first of which is the system file, and builds the module that it is for.
pub fn prepare(alloc: Global, files: &[Bytes], bytes: &[u8]) -> Result<Prepared, SimulateFault>
    requires some { 1 ≤ length files.now }
    requires few { length files.now ≤ 64 }
    requires short { All (λ bytes. length bytes < 2 ^ 31) files.now }
    requires short_scenario { length bytes.now < 2 ^ 31 }
    ensures prepared { IfOk result (IsPrepared files.now bytes.now) }
    ensures fault { IfErr result (λ fault. (fault ≡ NoMemory) ⊎ IsSimulateFault files.now bytes.now fault) }
{
    let plan = plan_of(alloc, files)?;
    let scenario = read_scenario(alloc, bytes, &plan)?;
    let count = u64::from(scenario.cycles) * u64::from(plan.weight());
    if count > MOST_VALUES {
        return Err(SimulateFault::TooManyValues { count });
    }
    let Built { module, ports } = built_module(alloc, &plan)?;
    Ok(Prepared {
        plan,
        ports,
        module,
        scenario,
    })
}
