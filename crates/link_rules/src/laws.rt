//! What holds of the links of every plan, and of the numbers of its streams, hosts and agents.

ghost use Rattle.std.specs.Prelude.{◌≡◌, ℕ, ◌<◌, Some, map, slice_get};
ghost use Rattle.iface_roles.specs.declared.kinds.Kind.TheVariants.{Mm};
ghost use Rattle.system_tables.specs.declared.tables.Connection.{Connection};
ghost use Rattle.system_tables.specs.declared.tables.EndId.{EndId as Id};
ghost use Rattle.system_tables.specs.Tables.{SystemTable, IsSystem};
ghost use Rattle.address_map.specs.Maps.{hosts_of, agents_of};
ghost use Rattle.link_rules.specs.declared.plan_connections.MemoryConnection.{MemoryConnection};
ghost use Rattle.link_rules.specs.declared.plan_connections.StreamConnection.{StreamConnection};
ghost use Rattle.link_rules.specs.Links.{streams_of};
ghost use Rattle.link_rules.specs.PlanConnections.{stream_connections, memory_connections, IsStreamConnection, IsMemoryConnection, HasMemoryConnection, KeepsStreamRules, KeepsMmRules, IsHostEnd, IsAgentEnd};
ghost use Rattle.link_rules.specs.Plans.{PlanTable, IsPlan};

use address_map::{ends_are_joined, ends_have_one_number};

/// Each stream has a link, by its number, and the numbers of the streams' connections rise.
pub fn streams_are_numbered()
    ensures numbers { (system : SystemTable) → IsSystem system
        → map (λ link. link.connection) (stream_connections system) ≡ streams_of system }
    ensures links { (system : SystemTable) → IsSystem system → (number : ℕ) (link : StreamConnection)
        → slice_get (stream_connections system) number ≡ Some link → IsStreamConnection system number link }
    ensures rising { (system : SystemTable) (j k a b : ℕ) → j < k → slice_get (streams_of system) j ≡ Some a
        → slice_get (streams_of system) k ≡ Some b → a < b }
{}

/// Each link of a host to an agent is that of its connection, and each such connection has one.
pub fn memory_connections_are_numbered()
    ensures links { (system : SystemTable) → IsSystem system → (k : ℕ) (link : MemoryConnection)
        → slice_get (memory_connections system) k ≡ Some link → IsMemoryConnection system link }
    ensures each { (system : SystemTable) → IsSystem system → (number : ℕ) (connection : Connection)
        → slice_get system.connections number ≡ Some connection → connection.kind ≡ Mm → HasMemoryConnection system number }
{
    ends_have_one_number();
}

/// The links of a plan keep the rules on their ends.
pub fn links_keep_rules()
    ensures streams { (plan : PlanTable) → IsPlan plan → (k : ℕ) (link : StreamConnection)
        → slice_get (stream_connections plan.system) k ≡ Some link → KeepsStreamRules plan.system link }
    ensures memory { (plan : PlanTable) → IsPlan plan → (k : ℕ) (link : MemoryConnection)
        → slice_get (memory_connections plan.system) k ≡ Some link → KeepsMmRules plan.system link }
{
    streams_are_numbered();
    memory_connections_are_numbered();
}

/// Each host and each agent of a system is one.
pub fn ends_are_known()
    ensures hosts { (system : SystemTable) → IsSystem system → (number : ℕ) (end : Id)
        → slice_get (hosts_of system) number ≡ Some end → IsHostEnd system end }
    ensures agents { (system : SystemTable) → IsSystem system → (number : ℕ) (end : Id)
        → slice_get (agents_of system) number ≡ Some end → IsAgentEnd system end }
{
    ends_are_joined();
}
