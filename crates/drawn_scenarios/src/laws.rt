//! What holds of the links of a plan, and of the scenarios that are drawn for it.

ghost use Rattle.std.specs.Prelude.{◌≡◌, ◌<◌, ◌≤◌, ℕ, Some, length, slice_get};
ghost use Rattle.link_rules.specs.declared.plan_connections.MemoryConnection.{MemoryConnection};
ghost use Rattle.address_map.specs.Maps.{hosts_of};
ghost use Rattle.link_rules.specs.declared.plan_connections.StreamConnection.{StreamConnection};
ghost use Rattle.link_rules.specs.PlanConnections.{stream_connections};
ghost use Rattle.link_rules.specs.Plans.{PlanTable, IsPlan};
ghost use Rattle.scenario_tables.specs.Scenarios.{IsScenario};
ghost use Rattle.drawn_scenarios.specs.Hosts.{IsReached, links_of};
ghost use Rattle.drawn_scenarios.specs.Streams.{IsDrawable};
ghost use Rattle.drawn_scenarios.specs.Drawn.{drawn_scenario};

use address_map::{ends_are_joined, ends_have_one_number};
use iface_roles::proper_records_are_bounded;
use link_rules::{links_keep_rules, memory_connections_are_numbered, streams_are_numbered};

/// Each host of a plan reaches all that its agents take.
pub(crate) fn links_are_reached()
    ensures { (plan : PlanTable) → IsPlan plan → (host k : ℕ) (link : MemoryConnection)
        → slice_get (links_of plan.system host) k ≡ Some link → IsReached link }
{
    proper_records_are_bounded();
    memory_connections_are_numbered();
}

/// Each host of a plan has a link.
pub(crate) fn hosts_have_connections()
    ensures { (plan : PlanTable) → IsPlan plan → (host : ℕ) → host < length (hosts_of plan.system)
        → 0 < length (links_of plan.system host) }
{
    ends_are_joined();
    ends_have_one_number();
    memory_connections_are_numbered();
}

/// A beat of each source of a plan has room in a word.
pub(crate) fn sources_are_drawable()
    ensures { (plan : PlanTable) → IsPlan plan → (k : ℕ) (link : StreamConnection)
        → slice_get (stream_connections plan.system) k ≡ Some link → IsDrawable link.source }
{
    proper_records_are_bounded();
    streams_are_numbered();
    links_keep_rules();
}

/// Each scenario that is drawn for a plan fits it.
pub fn drawn_scenarios_fit()
    ensures { (plan : PlanTable) → IsPlan plan → (number lane cycles : ℕ) → 1 ≤ cycles → cycles ≤ 65536
        → IsScenario plan.system (drawn_scenario plan number lane cycles) }
{
    links_are_reached();
    sources_are_drawable();
    proper_records_are_bounded();
    memory_connections_are_numbered();
    ends_have_one_number();
}
