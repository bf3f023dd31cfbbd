//! Hosts and agents at the ports of a module, and what happens at them.

use crate::ends::{Agent, Answer, Command, Driver, Event, HostWork, Log, Memory, Row, Rule, Tally};
use iface_roles::Role;
use netlist::Module;
use row_steps::{Bench, Inputs, Outputs, System, port_that_ends};
use std::alloc::{AllocError, Global};
use system_tables::EndId;

/// A host at the ports of the module.
#[derive(Clone, Copy)]
struct HostAt<'a> {
    work: &'a HostWork,
    number: u32,
    end: EndId,
    driver: Driver,
}

/// An agent at the ports of the module.
#[derive(Drop)]
struct AgentAt {
    agent: Agent,
    number: u32,
    end: EndId,
    /// Its port `grant`.
    grant: Option<u32>,
    memory: Memory,
}

/// All of them, as a cycle begins.
#[derive(Drop)]
pub struct Ends<'a> {
    /// By their numbers.
    hosts: Vec<HostAt<'a>>,
    agents: Vec<AgentAt>,
    log: Log,
}

/// Sets what a host shows.
fn set_command(inputs: &mut Inputs, host: EndId, command: &Command) -> Result<(), AllocError> {
    let levels = [
        (Role::Address, command.address),
        (Role::Read, u128::from(command.read)),
        (Role::Write, u128::from(command.write)),
        (Role::WriteData, command.word),
        (Role::ByteEnable, command.lanes),
        (Role::BurstCount, command.count),
    ];
    for (role, bits) in levels {
        inputs.set(host, role, bits)?;
    }
    Ok(())
}

/// Sets what an agent gives.
fn set_answer(inputs: &mut Inputs, agent: EndId, answer: &Answer) -> Result<(), AllocError> {
    inputs.set(agent, Role::WaitRequest, u128::from(answer.wait))?;
    inputs.set(agent, Role::ReadDataValid, u128::from(answer.valid))?;
    inputs.set(agent, Role::ReadData, answer.word)?;
    inputs.set(agent, Role::Response, answer.code)
}

/// What a host sees.
fn answer_at(outputs: &Outputs, host: EndId) -> Answer {
    Answer {
        wait: outputs.is_high(host, Role::WaitRequest),
        valid: outputs.is_high(host, Role::ReadDataValid),
        word: outputs.level(host, Role::ReadData),
        code: outputs.level(host, Role::Response),
    }
}

impl AgentAt {
    fn new(alloc: Global, agent: Agent, number: u32, end: EndId, module: &Module) -> AgentAt {
        AgentAt {
            agent,
            number,
            end,
            grant: port_that_ends(module, "$grant", number as usize),
            memory: Memory::new(alloc),
        }
    }

    /// The lanes that the agent sees: all of them where it has no byte enables.
    fn lanes_at(&self, outputs: &Outputs) -> u128 {
        if self.agent.shape.enables {
            outputs.level(self.end, Role::ByteEnable)
        } else {
            self.agent.shape.all_lanes()
        }
    }

    /// The beats of a burst that the agent sees.
    fn count_at(&self, outputs: &Outputs) -> u128 {
        if self.agent.shape.burst_bits > 0 {
            outputs.level(self.end, Role::BurstCount)
        } else {
            1
        }
    }

    /// What the agent sees.
    fn command_at(&self, outputs: &Outputs) -> Command {
        Command {
            read: outputs.is_high(self.end, Role::Read),
            write: outputs.is_high(self.end, Role::Write),
            address: outputs.level(self.end, Role::Address),
            word: outputs.level(self.end, Role::WriteData),
            lanes: self.lanes_at(outputs),
            count: self.count_at(outputs),
        }
    }

    /// The rule that is broken once the cycle has ended.
    fn broken_after(&self) -> Option<Rule> {
        if self.memory.bears_too_many(&self.agent) {
            Some(Rule::AgentBound { agent: self.number })
        } else {
            None
        }
    }

    /// The cycle ends.
    fn sees(&mut self, outputs: &Outputs, cycle: u32, log: &mut Log) -> Result<(), AllocError> {
        let command = self.command_at(outputs);
        let answer = self.memory.gives(&self.agent, cycle);
        log.note(
            cycle,
            self.memory.judges(&self.agent, self.number, &command),
        );
        let accepted = self.memory.sees(&self.agent, &command, &answer, cycle)?;
        log.note(cycle, self.broken_after());
        let Some(beat) = accepted else {
            return Ok(());
        };
        let event = Event::Accepts {
            agent: self.number,
            host: outputs.level_at(self.grant),
            beat,
            enables: self.agent.shape.enables,
            bursts: self.agent.shape.burst_bits > 0,
        };
        log.push(cycle, event)
    }
}

impl HostAt<'_> {
    /// The cycle ends.
    fn sees(&mut self, outputs: &Outputs, cycle: u32, log: &mut Log) -> Result<(), AllocError> {
        let host = &self.work.host;
        let shown = self.driver.shows(self.work);
        let answer = answer_at(outputs, self.end);
        log.note(
            cycle,
            self.driver.judges(self.work, self.number, &shown, &answer),
        );
        let Some((word, code)) = self.driver.sees(host, &shown, &answer) else {
            return Ok(());
        };
        let event = Event::Gets {
            host: self.number,
            word,
            code: if host.response { Some(code) } else { None },
        };
        log.push(cycle, event)
    }
}

/// The hosts of a row at the ports of its module.
fn hosts_at<'a>(
    alloc: Global,
    row: &'a Row,
    system: &System,
) -> Result<Vec<HostAt<'a>>, AllocError> {
    let mut hosts = Vec::new(alloc);
    let ends = row.hosts.as_slice().iter().zip(system.plan.hosts());
    for (number, (work, end)) in (0..u32::MAX).zip(ends) {
        hosts.push(HostAt {
            work,
            number,
            end: *end,
            driver: Driver::new(),
        })?;
    }
    Ok(hosts)
}

/// The agents of a row at the ports of its module.
fn agents_at(alloc: Global, row: &Row, system: &System) -> Result<Vec<AgentAt>, AllocError> {
    let mut agents = Vec::new(alloc);
    let ends = row.agents.as_slice().iter().zip(system.plan.agents());
    for (number, (agent, end)) in (0..u32::MAX).zip(ends) {
        agents.push(AgentAt::new(alloc, *agent, number, *end, &system.built.module))?;
    }
    Ok(agents)
}

impl Ends<'_> {
    /// Those of a row at the ports of its module.
    pub fn new<'a>(alloc: Global, row: &'a Row, system: &System) -> Result<Ends<'a>, AllocError> {
        Ok(Ends {
            hosts: hosts_at(alloc, row, system)?,
            agents: agents_at(alloc, row, system)?,
            log: Log::new(alloc),
        })
    }

    /// What came of it.
    pub fn tally(self) -> Tally {
        let mut left = 0usize;
        let mut unanswered = 0u32;
        for joined in self.hosts.as_slice() {
            left = left.saturating_add(joined.driver.left(joined.work));
            unanswered = unanswered.saturating_add(joined.driver.unanswered());
        }
        Tally {
            left,
            unanswered,
            log: self.log,
        }
    }
}

impl Bench for Ends<'_> {
    fn shows(&self, inputs: &mut Inputs, cycle: u32) -> Result<(), AllocError> {
        for joined in self.hosts.as_slice() {
            set_command(inputs, joined.end, &joined.driver.shows(joined.work))?;
        }
        for joined in self.agents.as_slice() {
            set_answer(
                inputs,
                joined.end,
                &joined.memory.gives(&joined.agent, cycle),
            )?;
        }
        Ok(())
    }

    fn sees(&mut self, outputs: &Outputs, cycle: u32) -> Result<(), AllocError> {
        for joined in self.agents.as_mut_slice().iter_mut() {
            joined.sees(outputs, cycle, &mut self.log)?;
        }
        for joined in self.hosts.as_mut_slice().iter_mut() {
            joined.sees(outputs, cycle, &mut self.log)?;
        }
        Ok(())
    }
}
