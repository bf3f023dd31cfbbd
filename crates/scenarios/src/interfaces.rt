//! The interfaces that statements name.

ghost use Rattle.std.specs.Prelude.{◌≡◌, ◌<◌, ℕ, ◌++◌, ◌∷◌, [], length, slice_get, Some, None, IfOk, IfErr};
ghost use Rattle.std.specs.Str.{bytes_eq};
ghost use Rattle.std.specs.List.{position_or_len};
ghost use Rattle.iface_roles.specs.declared.records.Finished.{Finished as Known};
ghost use Rattle.iface_roles.specs.Proper.{IsBoundedHost, IsBoundedAgent, IsBoundedStream};
ghost use Rattle.system_tables.specs.declared.tables.EndId.{EndId as Id};
ghost use Rattle.system_tables.specs.Tables.{IsEnd};
ghost use Rattle.address_map.specs.Maps.{hosts_of, agents_of};
ghost use Rattle.link_rules.specs.declared.plan_connections.StreamConnection.{StreamConnection as Link};
ghost use Rattle.link_rules.specs.PlanConnections.{stream_connections};
ghost use Rattle.map_text.specs.Text.{end_name};
ghost use Rattle.scenarios.specs.declared.faults.ScenarioRule.TheVariants.{Interfaces};
ghost use Rattle.scenarios.specs.Interfaces.{place_of, host_named, agent_named, stream_end, stream_port, stream_named};

use crate::faults::{ScenarioRule, refuse_if};
use iface_roles::{AgentPort, HostPort, Side, StreamPort};
use link_rules::{Plan, StreamConnection, ends_are_known, streams_are_numbered};
use system_tables::EndId;

/// What is known of an interface, with its number; that of a source or a sink is its stream's.
#[derive(Clone, Copy)]
pub(crate) struct Named<P> {
    pub(crate) number: usize,
    pub(crate) port: P,
}

/// Whether a word is two names with a dot between them.
fn is_pair(word: &[u8], instance: &[u8], interface: &[u8]) -> bool
    ensures { result ≡ bytes_eq (instance.now ++ 46 ∷ [] ++ interface.now) word.now }
{
    let Some(dotted) = word.strip_prefix(instance) else {
        return false;
    };
    let Some(behind) = dotted.strip_prefix(b".".as_slice()) else {
        return false;
    };
    behind == interface
}

/// Whether a word is the name of an end.
fn is_name(plan: &Plan, end: EndId, word: &[u8]) -> bool
    requires { (known : Known) × IsEnd plan.now.system end known }
    ensures { result ≡ bytes_eq (end_name plan.now.system end) word.now }
{
    is_pair(
        word,
        plan.instance_name(end).as_bytes(),
        plan.interface_name(end).as_bytes(),
    )
}

/// How many ends stand before the first whose name is the word.
fn place_len(plan: &Plan, ends: &[EndId], word: &[u8]) -> usize
    requires { (k : ℕ) (end : Id) → slice_get ends.now k ≡ Some end → (known : Known) × IsEnd plan.now.system end known }
    ensures { result ≡ position_or_len (λ end. bytes_eq (end_name plan.now.system end) word.now) ends.now }
{
    let mut count = 0;
    'ends: for end in ends {
        if is_name(plan, *end, word) {
            return count;
        }
        count += 1;
    }
    count
}

/// The number of the end that a word names among these.
fn number_named(plan: &Plan, ends: &[EndId], word: &[u8]) -> Result<usize, ScenarioRule>
    requires { (k : ℕ) (end : Id) → slice_get ends.now k ≡ Some end → (known : Known) × IsEnd plan.now.system end known }
    ensures ok { IfOk result (λ number. place_of plan.now.system ends.now word.now ≡ Some number) }
    ensures inside { IfOk result (λ number. number < length ends.now) }
    ensures none { IfErr result (λ rule. (place_of plan.now.system ends.now word.now ≡ None) × (rule ≡ Interfaces)) }
{
    let number = place_len(plan, ends, word);
    refuse_if(ends.len() <= number, ScenarioRule::Interfaces)?;
    Ok(number)
}

/// The host that a word names.
#[tactic(auto, unfolding(crate::specs::Interfaces::host_named))]
pub(crate) fn host_named(plan: &Plan, word: &[u8]) -> Result<Named<HostPort>, ScenarioRule>
    ensures ok { IfOk result (λ host. host_named plan.now.system word.now ≡ Some host) }
    ensures number { IfOk result (λ host. host.number < length (hosts_of plan.now.system)) }
    ensures port { IfOk result (λ host. IsBoundedHost host.port) }
    ensures none { IfErr result (λ rule. (host_named plan.now.system word.now ≡ None) × (rule ≡ Interfaces)) }
{
    plan.well_made();
    ends_are_known();
    let number = number_named(plan, plan.hosts(), word)?;
    Ok(Named {
        number,
        port: plan.host(number),
    })
}

/// The agent that a word names.
#[tactic(auto, unfolding(crate::specs::Interfaces::agent_named))]
pub(crate) fn agent_named(plan: &Plan, word: &[u8]) -> Result<Named<AgentPort>, ScenarioRule>
    ensures ok { IfOk result (λ agent. agent_named plan.now.system word.now ≡ Some agent) }
    ensures number { IfOk result (λ agent. agent.number < length (agents_of plan.now.system)) }
    ensures port { IfOk result (λ agent. IsBoundedAgent agent.port) }
    ensures none { IfErr result (λ rule. (agent_named plan.now.system word.now ≡ None) × (rule ≡ Interfaces)) }
{
    plan.well_made();
    ends_are_known();
    let number = number_named(plan, plan.agents(), word)?;
    Ok(Named {
        number,
        port: plan.agent(number),
    })
}

fn end_of(link: &StreamConnection, side: Side) -> EndId
    ensures { result ≡ stream_end side link.now }
{
    match side {
        Side::Start => link.source_end,
        Side::End => link.sink_end,
    }
}

fn port_of(link: &StreamConnection, side: Side) -> StreamPort
    ensures { result ≡ stream_port side link.now }
{
    match side {
        Side::Start => link.source,
        Side::End => link.sink,
    }
}

/// How many streams stand before the first whose end on this side has the word as its name.
fn stream_len(plan: &Plan, side: Side, word: &[u8]) -> usize
    ensures { result
        ≡ position_or_len (λ (link : Link). bytes_eq (end_name plan.now.system (stream_end side link)) word.now)
        (stream_connections plan.now.system) }
{
    plan.well_made();
    streams_are_numbered();
    let mut count = 0;
    'streams: for link in plan.stream_connections() {
        if is_name(plan, end_of(link, side), word) {
            return count;
        }
        count += 1;
    }
    count
}

/// The source, or the sink, that a word names.
#[tactic(auto, unfolding(crate::specs::Interfaces::stream_named))]
pub(crate) fn stream_named(
    plan: &Plan,
    side: Side,
    word: &[u8],
) -> Result<Named<StreamPort>, ScenarioRule>
    ensures ok { IfOk result (λ stream. stream_named plan.now.system side word.now ≡ Some stream) }
    ensures number { IfOk result (λ stream. stream.number < length (stream_connections plan.now.system)) }
    ensures port { IfOk result (λ stream. IsBoundedStream stream.port) }
    ensures none { IfErr result (λ rule. (stream_named plan.now.system side word.now ≡ None) × (rule ≡ Interfaces)) }
{
    let number = stream_len(plan, side, word);
    refuse_if(
        plan.stream_connections().len() <= number,
        ScenarioRule::Interfaces,
    )?;
    let link = plan.stream(number);
    Ok(Named {
        number,
        port: port_of(&link, side),
    })
}
