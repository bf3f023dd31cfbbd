//! What holds of every run with stand-ins, and small runs that show it. The functions do nothing; their contracts are the laws.

ghost use Rattle.std.specs.Prelude.{◌≡◌, ℕ, List};
ghost use Rattle.iface_roles.specs.declared.records.HostPort.{HostPort};
ghost use Rattle.memory_runs.specs.Views.{HostView};
ghost use Rattle.memory_runs.specs.Legal.{IsLegalHost};
ghost use Rattle.memory_runs.specs.Sides.{host_side};
ghost use Rattle.scenario_tables.specs.declared.statements.HostStatement.{HostStatement};
ghost use Rattle.scenario_tables.specs.Statements.{IsHostScript};
ghost use Rattle.stand_ins.specs.HostsStandIns.{IsHostStandIn};
ghost use Rattle.stand_ins.specs.HostsWorked.{shown_at, nothing, write_of, read_of_two};

/// Whatever the module answers, a stand-in is a legal host.
pub fn stand_in_hosts_are_legal()
    ensures { (port : HostPort) (script : List HostStatement) (view : HostView) (end : ℕ) → IsHostScript port script
        → IsHostStandIn port script view end → IsLegalHost (host_side port) view end }
{}

/// What a host shows over some cycles: it rests, writes a burst of two words, whose first waits for a cycle, and reads two.
pub fn shown_levels()
    ensures rests { shown_at 0 ≡ nothing }
    ensures waits { shown_at 1 ≡ write_of 7 }
    ensures accepted { shown_at 2 ≡ write_of 7 }
    ensures second { shown_at 3 ≡ write_of 9 }
    ensures reads { shown_at 4 ≡ read_of_two }
    ensures done { shown_at 5 ≡ nothing }
    ensures not_early { ¬ (shown_at 2 ≡ write_of 9) }
    ensures not_twice { ¬ (shown_at 5 ≡ read_of_two) }
{}
