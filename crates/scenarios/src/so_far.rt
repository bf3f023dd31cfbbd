//! What the lines before one have stated.

ghost use Rattle.std.specs.Prelude.{◌≡◌, IfOk};
ghost use Rattle.scenarios.specs.SoFar.{blank, is_early, scenario_of};

use av_base::NoMemory;
use link_rules::Plan;
use scenario_tables::{AgentStatement, HostStatement, Pattern, Scenario, Scripts, SourceStatement};
use std::alloc::Global;

/// What the lines before one have stated: for how many cycles, where they say, and the statements of each interface.
pub(crate) struct SoFar {
    pub(crate) cycles: Option<u32>,
    pub(crate) hosts: Scripts<HostStatement>,
    pub(crate) agents: Scripts<AgentStatement>,
    pub(crate) sources: Scripts<SourceStatement>,
    pub(crate) sinks: Scripts<Pattern>,
}

/// By hand, so that what drops one calls this, and isn't followed through its fields.
impl Drop for SoFar {
    fn drop(self) {
        let SoFar {
            cycles: _,
            hosts: _,
            agents: _,
            sources: _,
            sinks: _,
        } = self;
    }
}

impl SoFar {
    ghost use Rattle.scenarios.specs.SoFar.{blank, is_early, scenario_of};

    /// What stands before the first line.
    pub(crate) fn blank(alloc: Global, plan: &Plan) -> Result<SoFar, NoMemory>
        ensures { IfOk result (λ so_far. so_far ≡ blank plan.now.system) }
    {
        Ok(SoFar {
            cycles: None,
            hosts: Scripts::blank(alloc, plan.hosts().len())?,
            agents: Scripts::blank(alloc, plan.agents().len())?,
            sources: Scripts::blank(alloc, plan.stream_connections().len())?,
            sinks: Scripts::blank(alloc, plan.stream_connections().len())?,
        })
    }

    /// Whether no line has stated for how many cycles the scenario is.
    pub(crate) fn is_early(&self) -> bool
        ensures { result ≡ is_early self.now }
    {
        self.cycles.is_none()
    }

    /// The scenario that all lines have stated.
    pub(crate) fn scenario(self) -> Option<Scenario>
        ensures { result ≡ scenario_of self }
    {
        let SoFar {
            cycles,
            hosts,
            agents,
            sources,
            sinks,
        } = self;
        Some(Scenario {
            cycles: cycles?,
            hosts,
            agents,
            sources,
            sinks,
        })
    }
}
