//! What a host does in a simulation, for whoever notes it.

ghost use Rattle.std.specs.Prelude.{◌≡◌, ◌<◌, ℕ, List as Sequence, [], length, OnOk};
ghost use Rattle.address_map.specs.Maps.{hosts_of};
ghost use Rattle.interconnect.specs.Interconnect.{IsInterconnect};
ghost use Rattle.port_tables.specs.PortMaps.{AreTold};
ghost use Rattle.scenario_tables.specs.Scenarios.{IsScenario};
ghost use Rattle.simulations.specs.Noted.{IsNoted, with_beat, with_word};

use crate::simulation::Simulation;
use crate::sound::components_are_sound;
use av_base::{NoMemory, Val};
use interconnect::PortMap;
use link_rules::Plan;
use netlist::Module;
use scenario_tables::Scenario;
use simulated_runs::earlier_cycles_stay;
use std::alloc::Global;

/// Whoever notes what a host does, cycle by cycle.
pub trait HostNotes {
    /// Since the first, so many write beats were noted, and these words.
    ghost notes: { Self → Self → ℕ → Sequence ℕ → Type 0 };

    /// Notes a cycle: whether a write beat of the host is accepted in it, and the word that the host is given.
    fn note(&mut self, write_taken: bool, word: Option<Val>)
        ensures { (first : Self) (beats : ℕ) (words : Sequence ℕ) → notes first self.old beats words
            → notes first self.new (with_beat beats write_taken) (with_word words word) };
}

/// Runs the module of a plan under a scenario, and notes what the host of this number does, cycle by cycle. All memory is taken
/// before the first.
pub fn note_host<N: HostNotes>(
    alloc: Global,
    module: Module,
    plan: &Plan,
    ports: &PortMap,
    scenario: &Scenario,
    host: usize,
    notes: &mut N,
) -> Result<(), NoMemory>
    requires module { IsInterconnect plan.now «module» }
    requires ports { AreTold plan.now.system ports.now }
    requires scenario { IsScenario plan.now.system scenario.now }
    requires host { host < length (hosts_of plan.now.system) }
    requires nothing { N.notes notes.old notes.old 0 [] }
    ensures { OnOk result
        ((beats : ℕ) × (words : Sequence ℕ) × IsNoted plan.now scenario.now «module» host beats words
        × N.notes notes.old notes.new beats words) }
{
    components_are_sound();
    earlier_cycles_stay();
    let mut simulation = Simulation::new(alloc, module, plan, ports, scenario)?;
    'cycles: for _ in 0..scenario.cycles {
        simulation.evaluate();
        notes.note(simulation.is_write_taken(host), simulation.word_given(host));
        simulation.end_cycle();
    }
    Ok(())
}
