//! What is known of a bench as a cycle begins. The functions do nothing; their contracts are the laws.

ghost use Rattle.std.specs.Prelude.{◌≡◌, ◌<◌, ◌≤◌, ℕ, length, slice_get, Some};
ghost use Rattle.link_rules.specs.Plans.{PlanTable};
ghost use Rattle.netlist.specs.Netlists.{Netlist};
ghost use Rattle.netlist.specs.Runs.{Run};
ghost use Rattle.cycle_sim.specs.Sims.{SimValue};
ghost use Rattle.scenario_tables.specs.declared.scenario.Scenario.{Scenario};
ghost use Rattle.benches.specs.Hosts.{BenchHostValue};
ghost use Rattle.benches.specs.Hosts as of_hosts;
ghost use Rattle.benches.specs.Agents.{BenchAgentValue, first_word};
ghost use Rattle.benches.specs.Agents as of_agents;
ghost use Rattle.benches.specs.Streams.{BenchStreamValue};
ghost use Rattle.benches.specs.Streams as of_streams;
ghost use Rattle.simulations.specs.Benches.{BenchValue, IsSetUp, ComponentsStand};
ghost use Rattle.simulations.specs.Sound.{IsSoundHost, IsSoundAgent, IsSoundStream, AllFitPorts};

use benches::agents::{agents_show, agents_take_part};
use benches::hosts::hosts_take_part;
use benches::streams::{streams_show, streams_take_part};
use iface_roles::proper_records_are_bounded;
use link_rules::{ends_are_known, streams_are_numbered};
use port_rows::agent_ends::agents_are_commanded;
use port_rows::host_ends::shown_hosts_fit;

/// The components of a bench have scripts that fit them, and records that are bounded.
pub(crate) fn components_are_sound()
    ensures hosts { (plan : PlanTable) (scenario : Scenario) (netlist : Netlist) (run : Run) (c : ℕ) (bench : BenchValue)
        → IsSetUp plan scenario netlist → ComponentsStand plan scenario netlist run c bench
        → (h : ℕ) (host : BenchHostValue) → slice_get bench.hosts h ≡ Some host → IsSoundHost plan scenario netlist run c h host }
    ensures agents { (plan : PlanTable) (scenario : Scenario) (netlist : Netlist) (run : Run) (c : ℕ) (bench : BenchValue)
        → IsSetUp plan scenario netlist → ComponentsStand plan scenario netlist run c bench
        → (a : ℕ) (agent : BenchAgentValue) → slice_get bench.agents a ≡ Some agent
        → IsSoundAgent plan scenario netlist run c a agent }
    ensures streams { (plan : PlanTable) (scenario : Scenario) (netlist : Netlist) (run : Run) (c : ℕ) (bench : BenchValue)
        → IsSetUp plan scenario netlist → ComponentsStand plan scenario netlist run c bench
        → (s : ℕ) (stream : BenchStreamValue) → slice_get bench.streams s ≡ Some stream
        → IsSoundStream plan scenario netlist run c s stream }
{
    ends_are_known();
    streams_are_numbered();
    proper_records_are_bounded();
    agents_are_commanded();
    streams_show();
}

/// What they show before any command is known fits their ports.
pub(crate) fn first_words_fit()
    ensures { (plan : PlanTable) (scenario : Scenario) (netlist : Netlist) (run : Run) (c : ℕ) (bench : BenchValue)
        → IsSetUp plan scenario netlist → ComponentsStand plan scenario netlist run c bench
        → AllFitPorts bench (λ (agent : BenchAgentValue). first_word agent) }
{
    components_are_sound();
    shown_hosts_fit();
    agents_show();
    streams_show();
}

/// The outputs that they read are there, and a further cycle has room.
pub(crate) fn components_fit()
    ensures hosts { (plan : PlanTable) (scenario : Scenario) (netlist : Netlist) (run : Run) (c : ℕ) (bench : BenchValue)
        (sim : SimValue)
        → IsSetUp plan scenario netlist → ComponentsStand plan scenario netlist run c bench
        → sim.netlist ≡ netlist → (h : ℕ) (host : BenchHostValue) → slice_get bench.hosts h ≡ Some host → of_hosts.Fits host sim }
    ensures agents { (plan : PlanTable) (scenario : Scenario) (netlist : Netlist) (run : Run) (c : ℕ) (bench : BenchValue)
        (sim : SimValue)
        → IsSetUp plan scenario netlist → ComponentsStand plan scenario netlist run c bench
        → c < scenario.cycles → sim.netlist ≡ netlist → (a : ℕ) (agent : BenchAgentValue) → slice_get bench.agents a ≡ Some agent
        → of_agents.Fits agent sim }
    ensures streams { (plan : PlanTable) (scenario : Scenario) (netlist : Netlist) (run : Run) (c : ℕ) (bench : BenchValue)
        (sim : SimValue)
        → IsSetUp plan scenario netlist → ComponentsStand plan scenario netlist run c bench
        → c < scenario.cycles → sim.netlist ≡ netlist → (s : ℕ) (stream : BenchStreamValue)
        → slice_get bench.streams s ≡ Some stream → of_streams.Fits stream sim }
{
    components_are_sound();
    hosts_take_part();
    agents_take_part();
    streams_take_part();
}

/// There are at most 64 components.
pub(crate) fn components_are_few()
    ensures hosts { (plan : PlanTable) (scenario : Scenario) (netlist : Netlist) (run : Run) (c : ℕ) (bench : BenchValue)
        → IsSetUp plan scenario netlist → ComponentsStand plan scenario netlist run c bench → length bench.hosts ≤ 16 }
    ensures agents { (plan : PlanTable) (scenario : Scenario) (netlist : Netlist) (run : Run) (c : ℕ) (bench : BenchValue)
        → IsSetUp plan scenario netlist → ComponentsStand plan scenario netlist run c bench → length bench.agents ≤ 32 }
    ensures streams { (plan : PlanTable) (scenario : Scenario) (netlist : Netlist) (run : Run) (c : ℕ) (bench : BenchValue)
        → IsSetUp plan scenario netlist → ComponentsStand plan scenario netlist run c bench → length bench.streams ≤ 16 }
{
    streams_are_numbered();
}
