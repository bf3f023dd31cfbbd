use crate::scripts::Scripts;
use crate::statements::{AgentStatement, HostStatement, Pattern, SourceStatement};

/// A scenario for a plan: for how many cycles it is, and the statements of each interface. Hosts and agents have the plan's
/// numbers, a source and a sink that of their stream.
pub struct Scenario {
    /// 1 to 65,536.
    pub cycles: u32,
    pub hosts: Scripts<HostStatement>,
    pub agents: Scripts<AgentStatement>,
    pub sources: Scripts<SourceStatement>,
    /// At most one pattern for each sink.
    pub sinks: Scripts<Pattern>,
}

/// By hand, so that what drops one calls this, and isn't followed through its fields.
impl Drop for Scenario {
    fn drop(self) {
        let Scenario {
            cycles: _,
            hosts: _,
            agents: _,
            sources: _,
            sinks: _,
        } = self;
    }
}
