ghost use Rattle.std.specs.Prelude.{List, ℕ, ◌↔◌, ◌≡◌, ◌-◌, ◌%◌, slice_get, Some, true};
ghost use Rattle.iface_roles.specs.declared.kinds.Side.{Side};
ghost use Rattle.system_tables.specs.declared.tables.Connection.{Connection};
ghost use Rattle.system_tables.specs.declared.tables.EndId.{EndId};
ghost use Rattle.iface_roles.specs.declared.records.Finished.TheVariants.{Host};
ghost use Rattle.iface_roles.specs.declared.records.HostPort.{HostPort};
ghost use Rattle.system_tables.specs.Tables.{SystemTable, IsSystem, IsEnd};
ghost use Rattle.address_map.specs.Footprints.{footprints};
ghost use Rattle.address_map.specs.Maps.{MapEntry, Access, AreMapsOf, IsPlace, IsJoined, IsEntryOf, hosts_of, place_of, is_mm, end_at, mm_ends, connection_at};

use iface_roles::proper_records_are_bounded;

/// An access goes to a connection exactly where that is the host's, its footprint holds the address and its agent has
/// this kind of transfer.
pub fn places_are_in_footprints()
    ensures { (system : SystemTable) (maps : List (List MapEntry)) → AreMapsOf system maps
        → (number : ℕ) (host : EndId) (entries : List MapEntry)
        → slice_get (hosts_of system) number ≡ Some host → slice_get maps number ≡ Some entries
        → (access : Access) (address connection : ℕ)
        → (place_of entries access address ≡ Some connection) ↔ IsPlace (footprints system) host access address connection }
{}

/// Each host and each agent has one number.
pub fn ends_have_one_number()
    ensures there { (system : SystemTable) (side : Side) (k : ℕ) (connection : Connection)
        → slice_get system.connections k ≡ Some connection
        → is_mm connection.kind ≡ true → (number : ℕ) × (slice_get (mm_ends side system) number ≡ Some (end_at side connection)) }
    ensures one { (system : SystemTable) (side : Side) (j k : ℕ) (end : EndId) → slice_get (mm_ends side system) j ≡ Some end
        → slice_get (mm_ends side system) k ≡ Some end → j ≡ k }
{}

/// Each host and each agent is an end of a connection.
pub fn ends_are_joined()
    ensures { (system : SystemTable) (side : Side) (number : ℕ) (end : EndId) → slice_get (mm_ends side system) number ≡ Some end
        → IsJoined system side end }
{}

/// Each entry in the map of a host is that of one of the host's connections.
pub fn entries_are_of_connections()
    ensures { (system : SystemTable) (maps : List (List MapEntry)) → AreMapsOf system maps
        → (number : ℕ) (host : EndId) (entries : List MapEntry)
        → slice_get (hosts_of system) number ≡ Some host → slice_get maps number ≡ Some entries → (k : ℕ) (entry : MapEntry)
        → slice_get entries k ≡ Some entry → IsEntryOf system host entry }
{}

/// The bits of an address below the word size of its host don't decide where it goes.
pub fn low_bits_are_free()
    ensures { (system : SystemTable) (maps : List (List MapEntry)) → IsSystem system → AreMapsOf system maps
        → (number : ℕ) (end : EndId) (host : HostPort) (entries : List MapEntry)
        → slice_get (hosts_of system) number ≡ Some end → IsEnd system end (Host host) → slice_get maps number ≡ Some entries
        → (address : ℕ) → connection_at entries (address - address % host.word_bytes) ≡ connection_at entries address }
{
    proper_records_are_bounded();
}
