//! That the text of transactions is read. The function does nothing; its contract is the law.

ghost use Rattle.std.specs.Prelude.{ℕ, ◌≤◌, ◌<◌, List, slice_index};
ghost use Rattle.iface_roles.specs.declared.records.HostPort.{HostPort};
ghost use Rattle.iface_roles.specs.Proper.{IsBoundedHost, range_of};
ghost use Rattle.system_tables.specs.Tables.{SystemTable, IsSystem};
ghost use Rattle.packet_bytes.specs.declared.transfers.Transfers.{Transfers};
ghost use Rattle.packet_bytes.specs.Rules.{AreTransfers};
ghost use Rattle.scenario_runs.specs.Hosts.{IsTransferHost};
ghost use Rattle.scenario_runs.specs.Stated.{AreStated};

use link_rules::ends_are_known;

/// The text of transactions at host 0 of a system is a scenario of it: so many cycles, and their commands at that host, one after
/// the other.
pub fn transfers_are_stated()
    ensures { (system : SystemTable) (port : HostPort) (cycles : ℕ) (bytes : List ℕ) (transfers : Transfers) → IsSystem system
        → IsTransferHost system port → IsBoundedHost port → 1 ≤ cycles → cycles ≤ 65536
        → ((k : ℕ) → slice_index bytes k < 256) → AreTransfers port.word_bytes (range_of port) bytes transfers
        → AreStated system cycles transfers }
{
    ends_are_known();
}
