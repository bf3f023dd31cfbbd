//! What a fabric owes and keeps in every run. The functions do nothing; their contracts are the laws.

ghost use Rattle.std.specs.Prelude.{ℕ, ◌+◌, ◌<◌, IsTrue};
ghost use Rattle.link_rules.specs.Plans.{PlanTable, IsPlan};
ghost use Rattle.netlist.specs.Netlists.{Netlist};
ghost use Rattle.netlist.specs.Runs.{Run, IsEndlessRun};
ghost use Rattle.netlist.specs.Longer.{Extends};
ghost use Rattle.memory_runs.specs.Views.Responses.{AreCodes};
ghost use Rattle.memory_runs.specs.Order.{is_joined};
ghost use Rattle.memory_runs.specs.Plan.{AreViews};
ghost use Rattle.memory_runs.specs.Whole.{IsLegalRun, IsSafe};
ghost use Rattle.memory_runs.specs.Awake.{NeverIdles, IsFair};
ghost use Rattle.memory_runs.specs.Onward.{NoHostHangs, AcceptsSoon};
ghost use Rattle.memory_runs.specs.Moment.{IgnoresReaddata};
ghost use Rattle.memory_runs.specs.Packed.{ReadsEachTouchedWordOnce};
ghost use Rattle.memory_plans.specs.Systems.{memory_system};
ghost use Rattle.memory_awake.specs.Onward.{prompt_window};
ghost use Rattle.memory_awake.specs.RowSystem.{RowPorts, AreRows, IsFairRow, boundaries_of};
ghost use Rattle.memory_awake.specs.Theorem.{States, ArePlanned, AreMachines};
ghost use Rattle.memory_waits.specs.Windows.{host_window};
ghost use Rattle.memory_awake.specs.Packed.{RowsPack};
ghost use Rattle.mm_fabric.specs.Fabrics.{Fabric, IsFabric, seen_in, FabricShows};

use memory_awake::packed::packed_systems_read_words_once;
use memory_awake::rows::{
    machines_with_links_are_awake, machines_with_links_are_fair, what_rows_carry_fits,
};
use memory_awake::wired::pipes_have_stages;
use memory_links::bursts::cut_shows_fit_beats;
use memory_parts::joins::routes_show_fit_beats;
use memory_plans::{
    fit_commands_suit_agents, plans_are_apart, plans_are_memory_plans, routes_are_mapped,
    routes_are_the_map,
};
use memory_waits::hosts::no_host_hangs;
use memory_waits::prompt::alike_hosts_are_accepted;
use mm_arbiter::arbiter_ignores_answers;
use mm_route::route_ignores_answers;

/// What a run shows at the hosts and agents of a fabric fits their ports.
pub fn fabrics_show_views()
    ensures { (plan : PlanTable) → (netlist : Netlist) (fabric : Fabric) → IsFabric plan netlist fabric
        → (longer : Netlist) → Extends netlist longer → (run : Run) → IsEndlessRun longer run → (end : ℕ)
        → AreViews (memory_system plan) (seen_in plan fabric run) end }
{}

/// A fabric runs as machines, as long as the hosts and agents of the plan are legal. Its rows pack reads, and no beats are
/// dropped below a host with bursts and without byte enables.
pub(crate) fn fabrics_are_fairly_linked()
    ensures { (plan : PlanTable) → IsPlan plan → (netlist : Netlist) (fabric : Fabric) → IsFabric plan netlist fabric
        → (longer : Netlist) → Extends netlist longer → (run : Run) → IsEndlessRun longer run → (end : ℕ)
        → IsLegalRun (memory_system plan) (seen_in plan fabric run) end
        → (ports : RowPorts) × (states : States)
        × ArePlanned (memory_system plan) (boundaries_of ports) states
        × AreMachines AreCodes (memory_system plan) (seen_in plan fabric run) (boundaries_of ports) states end
        × (rows : AreRows (memory_system plan) (seen_in plan fabric run) ports end) × RowsPack rows
        × ((agent host : ℕ) → agent < (memory_system plan).agents → IsTrue (is_joined (memory_system plan) agent host)
        → IsFairRow (memory_system plan) ports agent host) }
{
    plans_are_memory_plans();
    plans_are_apart();
    routes_are_the_map();
    routes_are_mapped();
    fit_commands_suit_agents();
    routes_show_fit_beats();
    cut_shows_fit_beats();
    what_rows_carry_fits();
    pipes_have_stages();
    fabrics_show_views();
}

/// A fabric runs as machines: hosts, routes, links, arbiters, stages and agents, as long as the hosts and agents of the plan are
/// legal.
pub fn fabrics_are_linked()
    ensures { (plan : PlanTable) → IsPlan plan → (netlist : Netlist) (fabric : Fabric) → IsFabric plan netlist fabric
        → (longer : Netlist) → Extends netlist longer → (run : Run) → IsEndlessRun longer run → (end : ℕ)
        → IsLegalRun (memory_system plan) (seen_in plan fabric run) end
        → (ports : RowPorts) × (states : States)
        × ArePlanned (memory_system plan) (boundaries_of ports) states
        × AreMachines AreCodes (memory_system plan) (seen_in plan fabric run) (boundaries_of ports) states end
        × AreRows (memory_system plan) (seen_in plan fabric run) ports end }
{
    fabrics_are_fairly_linked();
}

/// So it is safe, never idles, lets no host hang, accepts soon, is fair, and reads each word of an agent that a host's read
/// touches once.
pub fn fabrics_are_served()
    ensures safe { (plan : PlanTable) → IsPlan plan → (netlist : Netlist) (fabric : Fabric) → IsFabric plan netlist fabric
        → (longer : Netlist) → Extends netlist longer → (run : Run) → IsEndlessRun longer run → (end : ℕ)
        → IsLegalRun (memory_system plan) (seen_in plan fabric run) end
        → IsSafe AreCodes (memory_system plan) (seen_in plan fabric run) end }
    ensures awake { (plan : PlanTable) → IsPlan plan → (netlist : Netlist) (fabric : Fabric) → IsFabric plan netlist fabric
        → (longer : Netlist) → Extends netlist longer → (run : Run) → IsEndlessRun longer run → (end : ℕ)
        → IsLegalRun (memory_system plan) (seen_in plan fabric run) (end + 2)
        → NeverIdles (memory_system plan) (seen_in plan fabric run) end }
    ensures moves { (plan : PlanTable) → IsPlan plan → (netlist : Netlist) (fabric : Fabric) → IsFabric plan netlist fabric
        → (longer : Netlist) → Extends netlist longer → (run : Run) → IsEndlessRun longer run → (end : ℕ)
        → IsLegalRun (memory_system plan) (seen_in plan fabric run) (end + 2)
        → NoHostHangs (host_window (memory_system plan)) (memory_system plan) (seen_in plan fabric run) end }
    ensures accepts { (plan : PlanTable) → IsPlan plan → (netlist : Netlist) (fabric : Fabric) → IsFabric plan netlist fabric
        → (longer : Netlist) → Extends netlist longer → (run : Run) → IsEndlessRun longer run → (end : ℕ)
        → IsLegalRun (memory_system plan) (seen_in plan fabric run) (end + 2)
        → AcceptsSoon (prompt_window (memory_system plan)) (memory_system plan) (seen_in plan fabric run) end }
    ensures fair { (plan : PlanTable) → IsPlan plan → (netlist : Netlist) (fabric : Fabric) → IsFabric plan netlist fabric
        → (longer : Netlist) → Extends netlist longer → (run : Run) → IsEndlessRun longer run → (end : ℕ)
        → IsLegalRun (memory_system plan) (seen_in plan fabric run) end
        → IsFair (memory_system plan) (seen_in plan fabric run) end }
    ensures packed { (plan : PlanTable) → IsPlan plan → (netlist : Netlist) (fabric : Fabric) → IsFabric plan netlist fabric
        → (longer : Netlist) → Extends netlist longer → (run : Run) → IsEndlessRun longer run → (end : ℕ)
        → IsLegalRun (memory_system plan) (seen_in plan fabric run) end
        → (host agent : ℕ) → host < (memory_system plan).hosts → agent < (memory_system plan).agents
        → ReadsEachTouchedWordOnce (memory_system plan) (seen_in plan fabric run) host agent end }
{
    plans_are_apart();
    fabrics_are_fairly_linked();
    machines_with_links_are_awake();
    no_host_hangs();
    alike_hosts_are_accepted();
    machines_with_links_are_fair();
    packed_systems_read_words_once();
}

/// No command that a fabric shows depends on a word that comes in its cycle, nor on its code.
pub fn fabrics_ignore_words()
    ensures { (plan : PlanTable) → IsPlan plan → (netlist : Netlist) (fabric : Fabric) → IsFabric plan netlist fabric
        → (longer : Netlist) → Extends netlist longer
        → IgnoresReaddata AreCodes (memory_system plan) (FabricShows plan longer fabric) }
{
    plans_are_memory_plans();
    plans_are_apart();
    route_ignores_answers();
    arbiter_ignores_answers();
}
