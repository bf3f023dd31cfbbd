//! What the links of every plan give the parts between its hosts and agents. The functions do nothing; their contracts are the
//! laws.

ghost use Rattle.std.specs.Prelude.{◌*◌, ◌≤◌, length};
ghost use Rattle.address_map.specs.Maps.{agents_of};
ghost use Rattle.link_rules.specs.PlanConnections.{memory_connections};
ghost use Rattle.link_rules.specs.Plans.{PlanTable, IsPlan};
ghost use Rattle.mm_fabric.specs.Links.{IsLinkedPlan};

use address_map::{ends_are_joined, ends_have_one_number};
use link_rules::memory_connections_are_numbered;
use memory_plans::{
    plans_are_apart, plans_are_memory_plans, plans_have_their_ends, routes_are_the_map,
    spans_fit_ranges, words_fit_pairs,
};

/// Each host has a route and each agent a host that asks, and all of them are along the plan's links.
pub(crate) fn plans_are_linked()
    ensures { (plan : PlanTable) → IsPlan plan → IsLinkedPlan plan }
{
    ends_have_one_number();
    ends_are_joined();
    memory_connections_are_numbered();
    plans_are_memory_plans();
    routes_are_the_map();
    plans_have_their_ends();
    plans_are_apart();
    spans_fit_ranges();
    words_fit_pairs();
}

/// At most 16 hosts are joined to an agent.
pub fn links_are_few()
    ensures { (plan : PlanTable) → IsPlan plan → length (memory_connections plan.system) ≤ 16 * length (agents_of plan.system) }
{
    memory_connections_are_numbered();
    plans_are_linked();
}
