//! The nets between the hosts and agents of a plan, host by host and agent by agent.

use av_base::List;
use command_nets::{AnswerNets, CommandNets};
use iface_roles::{AgentPort, HostPort};
use mm_agent::{AgentMade, AgentNets};
use mm_arbiter::{BelowNets, HeldArbiter};
use mm_host::{HeldHost, HostAnswer};
use mm_route::{BackNets, HeldRoute};
use netlist::Net;

/// Below a route: the command to one of the host's agents, and what comes back.
#[derive(Clone, Copy)]
pub struct Way {
    /// The agent's number.
    pub agent: u8,
    pub command: CommandNets,
    pub back: BackNets,
}

/// All that stands next to a host, its route with it.
#[derive(Drop)]
pub struct HostPart {
    pub port: HostPort,
    pub held: HeldHost,
    pub route: HeldRoute,
    /// In the order of the routes.
    pub ways: List<Way>,
    /// What the route tells the part next to the host.
    pub wait: Net,
    pub answer: AnswerNets,
    /// What the host is told.
    pub told: HostAnswer,
}

/// A host that asks an agent: its ports, and its command for the agent.
#[derive(Clone, Copy)]
pub(crate) struct Asking {
    pub port: HostPort,
    pub command: CommandNets,
}

/// Above an arbiter: a host with its shares, below the links that fit its words to the agent's.
#[derive(Clone, Copy)]
pub struct Seat {
    /// The host's number.
    pub host: u8,
    /// 1 to 63.
    pub shares: u8,
    /// Below the links, on nets as wide as the others'.
    pub command: CommandNets,
    /// What the arbiter tells the links.
    pub back: BackNets,
    /// What the links tell the host's route.
    pub told: BackNets,
}

/// All that stands next to an agent, its arbiter with it.
#[derive(Drop)]
pub struct AgentPart {
    pub port: AgentPort,
    pub nets: AgentNets,
    /// In the order of the connections.
    pub seats: List<Seat>,
    pub arbiter: HeldArbiter,
    /// Below the arbiter, above the pipe of stages.
    pub asked: CommandNets,
    /// What the pipe tells the arbiter.
    pub told: BelowNets,
    /// Below the pipe.
    pub command: CommandNets,
    pub made: AgentMade,
}
