//! What every plan gives the parts between its hosts and agents. The functions do nothing; their contracts are the laws.

ghost use Rattle.std.specs.Prelude.{◌≡◌, ◌^◌, ◌<◌, ◌≤◌, ℕ, Some, true, IsTrue, length, slice_get};
ghost use Rattle.iface_roles.specs.declared.records.AgentPort.{AgentPort};
ghost use Rattle.iface_roles.specs.declared.records.HostPort.{HostPort};
ghost use Rattle.iface_roles.specs.Proper.{range_of, span_of};
ghost use Rattle.address_map.specs.Maps.{hosts_of, agents_of, mm_connections};
ghost use Rattle.link_rules.specs.declared.plan_connections.MemoryConnection.{MemoryConnection};
ghost use Rattle.link_rules.specs.PlanConnections.{memory_connections};
ghost use Rattle.link_rules.specs.Plans.{PlanTable, IsPlan};
ghost use Rattle.memory_machines.specs.Link.{Port};
ghost use Rattle.memory_machines.specs.Lines.{IsFit};
ghost use Rattle.memory_plans.specs.Systems.{memory_system};
ghost use Rattle.mm_agent.specs.Agents.{shape_above};
ghost use Rattle.mm_agent.specs.Forms.{AreFitFor};
ghost use Rattle.memory_awake.specs.Fair.{are_apart};
ghost use Rattle.memory_plans.specs.Maps.{IsHostOf, IsAgentOf, HasHost, HasAgent, JoinsEnds, RoutesAreMapped};

use crate::{plans_are_memory_plans, routes_are_the_map};
use iface_roles::proper_records_are_bounded;
use link_rules::{ends_are_known, links_keep_rules, memory_connections_are_numbered};

/// Each number of a host or an agent stands for ports that fit the tables, and each link joins the ports of its numbers.
pub fn plans_have_their_ends()
    ensures hosts { (plan : PlanTable) → IsPlan plan → (host : ℕ) → host < length (hosts_of plan.system) → HasHost plan host }
    ensures agents { (plan : PlanTable) → IsPlan plan → (agent : ℕ) → agent < length (agents_of plan.system)
        → HasAgent plan agent }
    ensures links { (plan : PlanTable) → IsPlan plan → (k : ℕ) (link : MemoryConnection)
        → slice_get (memory_connections plan.system) k ≡ Some link → JoinsEnds plan link }
{
    proper_records_are_bounded();
    memory_connections_are_numbered();
    ends_are_known();
}

/// The routes of each host are its map, for byte addresses that reach just the range of the host.
pub fn routes_are_mapped()
    ensures { (plan : PlanTable) → IsPlan plan → (host : ℕ) (port : HostPort) → IsHostOf plan host port → (width : ℕ)
        → 2 ^ width ≡ range_of port → RoutesAreMapped plan host port width }
{
    plans_are_memory_plans();
    routes_are_the_map();
    memory_connections_are_numbered();
}

/// The span of an agent is within the range of each host that is joined to it.
pub fn spans_fit_ranges()
    ensures { (plan : PlanTable) → IsPlan plan → (k : ℕ) (link : MemoryConnection)
        → slice_get (memory_connections plan.system) k ≡ Some link → span_of link.agent ≤ range_of link.host }
{
    memory_connections_are_numbered();
}

/// A word of a host is within its range, and an agent that is wider than its host has byte enables.
pub fn words_fit_pairs()
    ensures word { (plan : PlanTable) → IsPlan plan → (k : ℕ) (link : MemoryConnection)
        → slice_get (memory_connections plan.system) k ≡ Some link → link.host.word_bytes ≤ range_of link.host }
    ensures lanes { (plan : PlanTable) → IsPlan plan → (k : ℕ) (link : MemoryConnection)
        → slice_get (memory_connections plan.system) k ≡ Some link → link.host.word_bytes < link.agent.word_bytes
        → link.agent.enables ≡ true }
{
    memory_connections_are_numbered();
    links_keep_rules();
}

/// There are no more links than connections of hosts to agents.
pub fn links_are_connections()
    ensures { (plan : PlanTable) → IsPlan plan → length (memory_connections plan.system) ≤ length (mm_connections plan.system) }
{}

/// No host is joined to an agent twice.
pub fn plans_are_apart()
    ensures { (plan : PlanTable) → IsPlan plan → (agent : ℕ) → IsTrue (are_apart ((memory_system plan).joined agent)) }
{
    plans_are_memory_plans();
}

/// Commands that can be given to an agent, in its own shape, are fit for the part next to it.
pub fn fit_commands_suit_agents()
    ensures { (plan : PlanTable) (agent : ℕ) (port : AgentPort) → IsAgentOf plan agent port → (up : Port)
        → up.shape ≡ shape_above port → (end : ℕ) → IsFit (memory_system plan) agent up end → AreFitFor port up end }
{}
