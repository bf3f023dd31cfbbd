//! The hosts and agents of a plan as the system that memory-mapped runs speak of, and what every plan gives the parts that stand
//! between them.
#![tactic(auto)]

mod given;
mod routes;

ghost use Rattle.std.specs.Prelude.{◌≡◌, ℕ, Some, nat_eq, slice_get};
ghost use Rattle.std.specs.List.{IsDistinct};
ghost use Rattle.link_rules.specs.declared.plan_connections.MemoryConnection.{MemoryConnection};
ghost use Rattle.link_rules.specs.PlanConnections.{memory_connections};
ghost use Rattle.link_rules.specs.Plans.{PlanTable, IsPlan};
ghost use Rattle.memory_runs.specs.Plan.{IsMemoryPlan};
ghost use Rattle.memory_plans.specs.Systems.{memory_system, HasLink};

pub use given::{
    fit_commands_suit_agents, links_are_connections, plans_are_apart, plans_have_their_ends,
    routes_are_mapped, spans_fit_ranges, words_fit_pairs,
};
pub use routes::{host_routes, routes_are_the_map};

/// Every plan keeps all that the theorems on systems of machines ask, and joins no host to an agent twice.
pub fn plans_are_memory_plans()
    ensures kept { (plan : PlanTable) → IsPlan plan → IsMemoryPlan (memory_system plan) }
    ensures apart { (plan : PlanTable) → IsPlan plan → (agent : ℕ) → IsDistinct nat_eq ((memory_system plan).joined agent) }
    ensures links { (plan : PlanTable) → IsPlan plan → (k : ℕ) (link : MemoryConnection)
        → slice_get (memory_connections plan.system) k ≡ Some link → HasLink (memory_system plan) link }
{
    iface_roles::proper_records_are_bounded();
    address_map::places_are_in_footprints();
    address_map::ends_have_one_number();
    link_rules::memory_connections_are_numbered();
    link_rules::links_keep_rules();
    link_rules::ends_are_known();
}
