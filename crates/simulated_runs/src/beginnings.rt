//! What holds of runs that show the same in their first cycles. The functions do nothing; their contracts are the laws.

ghost use Rattle.std.specs.Prelude.{◌≡◌, ◌<◌, ℕ, List};
ghost use Rattle.iface_roles.specs.declared.records.HostPort.{HostPort};
ghost use Rattle.iface_roles.specs.declared.records.AgentPort.{AgentPort};
ghost use Rattle.iface_roles.specs.declared.records.StreamPort.{StreamPort};
ghost use Rattle.memory_runs.specs.Views.{HostView, AgentSide, AgentView};
ghost use Rattle.memory_runs.specs.Commands.{agent_accepts, transfer_at};
ghost use Rattle.memory_runs.specs.Beginnings.{HostsAgree, AgentsAgree};
ghost use Rattle.stream_runs.specs.View.{EndView, AgreeBefore};
ghost use Rattle.scenario_tables.specs.declared.statements.HostStatement.{HostStatement};
ghost use Rattle.scenario_tables.specs.declared.statements.AgentStatement.{AgentStatement};
ghost use Rattle.scenario_tables.specs.declared.statements.SourceStatement.{SourceStatement};
ghost use Rattle.scenario_tables.specs.declared.statements.Pattern.{Pattern};
ghost use Rattle.stand_ins.specs.Steps.{Step};
ghost use Rattle.stand_ins.specs.HostsStandIns.{IsHostStandIn, left_before};
ghost use Rattle.stand_ins.specs.StandIns.{IsAgentStandIn};
ghost use Rattle.stand_ins.specs.Whole.{AgentStandInValue, StandsFor};
ghost use Rattle.stand_ins.specs.Sources.{IsSourceStandIn, keeping_at};
ghost use Rattle.stand_ins.specs.Sinks.{IsSinkStandIn};

/// A view that shows the same before a cycle is that of the same stand-in up to it.
pub fn stand_ins_by_beginnings()
    ensures hosts { (port : HostPort) (script : List HostStatement) (one two : HostView) (end : ℕ) → HostsAgree one two end
        → IsHostStandIn port script one end → IsHostStandIn port script two end }
    ensures agents { (port : AgentPort) (script : List AgentStatement) (one two : AgentView) (end : ℕ) → AgentsAgree one two end
        → IsAgentStandIn port script one end → IsAgentStandIn port script two end }
    ensures sources { (port : StreamPort) (script : List SourceStatement) (one two : EndView) (end : ℕ) → AgreeBefore one two end
        → IsSourceStandIn port script one end → IsSourceStandIn port script two end }
    ensures sinks { (script : List Pattern) (one two : EndView) (end : ℕ) → AgreeBefore one two end → IsSinkStandIn script one end
        → IsSinkStandIn script two end }
{}

/// What stand-ins keep as a cycle begins is the same where the views show the same before it.
pub fn states_by_beginnings()
    ensures hosts { (steps : List Step) (one two : HostView) (end : ℕ) → HostsAgree one two end
        → left_before steps one.waitrequest end ≡ left_before steps two.waitrequest end }
    ensures agents { (script : List AgentStatement) (agent : AgentStandInValue) (one two : AgentView)
        → AgentsAgree one two agent.cycle → StandsFor script agent one → StandsFor script agent two }
    ensures sources { (port : StreamPort) (script : List SourceStatement) (one two : EndView) (end : ℕ) → AgreeBefore one two end
        → keeping_at port script one end ≡ keeping_at port script two end }
{}

/// What an agent takes in a cycle is the same where the views show the same up to it.
pub fn taken_by_beginnings()
    ensures accepted { (side : AgentSide) (one two : AgentView) (end c : ℕ) → AgentsAgree one two end → c < end
        → agent_accepts side one c ≡ agent_accepts side two c }
    ensures transfer { (side : AgentSide) (one two : AgentView) (end c : ℕ) → AgentsAgree one two end → c < end
        → transfer_at side.shape one.signals (agent_accepts side one) c
        ≡ transfer_at side.shape two.signals (agent_accepts side two) c }
{}
