//! What stands in for an agent.

ghost use Rattle.std.specs.Prelude.{◌≡◌, ◌%◌, ◌+◌, ◌<◌, ◌≤◌, ◌&&◌, ◌||◌, not, nat_eq, [], IsTrue, IfOk, if◌then◌else◌};
ghost use Rattle.iface_roles.specs.Proper.{IsBoundedAgent, span_of};
ghost use Rattle.memory_runs.specs.Commands.{longest_burst};
ghost use Rattle.memory_runs.specs.Sides.{agent_side, bound_of};
ghost use Rattle.scenario_tables.specs.Statements.{IsAgentScript};
ghost use Rattle.stand_ins.specs.Steps.{levels_of};
ghost use Rattle.stand_ins.specs.Contents.{filled};
ghost use Rattle.stand_ins.specs.Codes.{code_at};
ghost use Rattle.stand_ins.specs.Answers.{waiting_after, word_asked, code_asked};
ghost use Rattle.stand_ins.specs.StandIns.{stalls_in};
ghost use Rattle.stand_ins.specs.Memory.{contents_of};
ghost use Rattle.stand_ins.specs.Whole.{carries, wait_of, accepts, address_shown, gives, word_shown, word_now, code_shown, code_now, IsAnswered, IsBehind, IsFirst};

use crate::burst::WriteBurst;
use crate::codes::{code_at, coded};
use crate::delayed::{Answer, DelayedWords};
use crate::hosts::CommandLevels;
use crate::memory::Memory;
use crate::places::{byte_address, span, word_at};
use crate::script::{fill, latency, stall_pattern};
use crate::waiting::WaitingWords;
use av_base::NoMemory;
use iface_roles::AgentPort;
use scenario_tables::AgentStatement;
use std::alloc::Global;
use std::marker::Model;

/// Stands in for an agent: a map of bytes that stalls by its pattern and gives the words that it is asked for, with their
/// codes. All its memory is taken when it is made.
#[derive(Drop)]
pub struct AgentStandIn<'a> {
    port: AgentPort,
    stalls: &'a [bool],
    latency: u8,
    /// The statements that say the codes of words.
    coded: &'a [AgentStatement],
    cycle: u32,
    /// For how many cycles there is room.
    cycles: u32,
    /// For how many cycles the beat has stood, at fixed wait states.
    stood: u32,
    burst: WriteBurst,
    memory: Memory,
    waiting: WaitingWords,
    delayed: DelayedWords,
}

impl<'a> Model for AgentStandIn<'a> {
    ghost use Rattle.stand_ins.specs.Whole.{AgentStandInValue, IsKept, burst_of};

    ghost Value = { AgentStandInValue };

    ghost view = { λ s. record {
      port =
          s.port;
      stalls =
          s.stalls.now;
      latency =
          s.latency;
      coded =
          s.coded.now;
      cycle =
          s.cycle;
      cycles =
          s.cycles;
      stood =
          s.stood;
      burst = burst_of s.burst;
      memory = s.memory;
      waiting = s.waiting.waiting;
      delayed = s.delayed;
    } };

    ghost invariant = { λ s. IsKept s.port s.cycle s.cycles s.stood s.burst s.memory s.waiting };
}

/// The longest burst of an agent, in beats.
fn longest(port: &AgentPort) -> u16
    requires { IsBoundedAgent port.now }
    ensures { result ≡ longest_burst (agent_side port.now).burst_bits }
{
    if port.burst_bits == 0 {
        1
    } else {
        1 << (port.burst_bits - 1)
    }
}

/// How many unanswered reads an agent bears.
fn pending(port: &AgentPort) -> u8
    ensures { result ≡ bound_of port.now }
{
    if port.pending == 0 { 1 } else { port.pending }
}

/// For how many cycles a beat stands at fixed wait states before the one that takes it.
fn wait_of(port: &AgentPort, levels: &CommandLevels) -> u32
    ensures { result ≡ wait_of (agent_side port.now) (levels_of levels.now) }
{
    u32::from(if levels.write {
        port.write_wait
    } else {
        port.read_wait
    })
}

fn carries(levels: &CommandLevels) -> bool
    ensures { result ≡ carries (levels_of levels.now) }
{
    levels.read || levels.write
}

/// The word that a command asks for, 0 where none does.
fn word_asked(port: &AgentPort, memory: &Memory, levels: &CommandLevels, reads: bool) -> u128
    requires bounded { IsBoundedAgent port.now }
    requires bytes { memory.now.word_bytes ≡ port.now.word_bytes }
    ensures { result ≡ word_asked (agent_side port.now) (contents_of memory.now) (levels_of levels.now) reads }
{
    if reads {
        word_at(port, memory, byte_address(port, levels.address))
    } else {
        0
    }
}

/// The code of the word that a command asks for, 0 where none does.
fn code_asked(
    port: &AgentPort,
    script: &[AgentStatement],
    levels: &CommandLevels,
    reads: bool,
) -> u8
    requires { IsBoundedAgent port.now }
    ensures { result ≡ code_asked (agent_side port.now) (code_at (agent_side port.now) script.now) (levels_of levels.now) reads }
{
    if reads {
        code_at(port, script, byte_address(port, levels.address))
    } else {
        0
    }
}

/// Ends a cycle for the words that wait.
fn pass_waiting(
    waiting: &mut WaitingWords,
    port: &AgentPort,
    memory: &Memory,
    script: &[AgentStatement],
    cycle: u32,
    latency: u8,
    levels: &CommandLevels,
    reads: bool,
)
    requires bounded { IsBoundedAgent port.now }
    requires bytes { memory.now.word_bytes ≡ port.now.word_bytes }
    requires few { cycle < 65536 }
    requires longest { waiting.old.longest ≡ longest_burst (agent_side port.now).burst_bits }
    requires pending { waiting.old.pending ≡ (agent_side port.now).pending }
    ensures waiting { waiting.new.waiting
        ≡ waiting_after (agent_side port.now) latency cycle (contents_of memory.now) (code_at (agent_side port.now) script.now)
        (levels_of levels.now) reads waiting.old.waiting }
    ensures longest { waiting.new.longest ≡ waiting.old.longest }
    ensures pending { waiting.new.pending ≡ waiting.old.pending }
{
    waiting.go_on(cycle);
    if reads && waiting.bears(levels.count) {
        waiting.ask(port, memory, script, cycle + u32::from(latency), levels);
    }
}

/// For how many cycles a beat has stood behind a cycle.
fn stood_behind(port: &AgentPort, stood: u32, levels: &CommandLevels) -> u32
    requires { stood < 65536 }
    ensures value { result
        ≡ (if carries (levels_of levels.now) && not (nat_eq stood (wait_of (agent_side port.now) (levels_of levels.now)))
        then stood + 1 else 0) }
    ensures few { result ≤ stood + 1 }
{
    if carries(levels) && stood != wait_of(port, levels) {
        stood + 1
    } else {
        0
    }
}

/// The bytes of an agent at first, with room for a word in each cycle.
fn first_memory(
    alloc: Global,
    port: &AgentPort,
    script: &[AgentStatement],
    cycles: u32,
) -> Result<Memory, NoMemory>
    requires bounded { IsBoundedAgent port.now }
    requires script { IsAgentScript port.now script.now }
    ensures contents { IfOk result (λ memory. contents_of memory ≡ filled script.now) }
    ensures word_bytes { IfOk result (λ memory. memory.word_bytes ≡ port.now.word_bytes) }
    ensures room { IfOk result (λ memory. cycles ≤ memory.room) }
{
    let mut memory = Memory::new(alloc, port.word_bytes);
    fill(&mut memory, script)?;
    memory.reserve(cycles)?;
    Ok(memory)
}

/// Room for the words that wait, where there is `readdatavalid`.
fn waiting_room(alloc: Global, port: &AgentPort) -> Result<WaitingWords, NoMemory>
    requires { IsBoundedAgent port.now }
    ensures waiting { IfOk result (λ words. words.waiting ≡ []) }
    ensures longest { IfOk result (λ words. IsTrue port.now.readdatavalid
        → words.longest ≡ longest_burst (agent_side port.now).burst_bits) }
    ensures pending { IfOk result (λ words. IsTrue port.now.readdatavalid → words.pending ≡ (agent_side port.now).pending) }
{
    if port.readdatavalid {
        WaitingWords::new(alloc, longest(port), pending(port))
    } else {
        WaitingWords::new(alloc, 0, 0)
    }
}

impl<'a> AgentStandIn<'a> {
    /// Stands in for an agent with this script, for so many cycles at most: 65,536 or fewer.
    pub fn new(
        alloc: Global,
        port: &AgentPort,
        script: &'a [AgentStatement],
        cycles: u32,
    ) -> Result<AgentStandIn<'a>, NoMemory>
        requires bounded { IsBoundedAgent port.now }
        requires script { IsAgentScript port.now script.now }
        requires few { cycles ≤ 65536 }
        ensures { IfOk result (IsFirst port.now script.now cycles) }
    {
        let memory = first_memory(alloc, port, script, cycles)?;
        let waiting = waiting_room(alloc, port)?;
        let delay = if port.readdatavalid {
            0
        } else {
            port.read_latency
        };
        let delayed = DelayedWords::new(alloc, delay)?;
        Ok(AgentStandIn {
            port: *port,
            stalls: stall_pattern(script),
            latency: latency(script),
            coded: coded(script),
            cycle: 0,
            cycles,
            stood: 0,
            burst: WriteBurst {
                left: 0,
                done: 0,
                first: 0,
            },
            memory,
            waiting,
            delayed,
        })
    }

    /// Whether `waitrequest` is raised in this cycle.
    pub fn waits(&self) -> bool
        ensures { result ≡ stalls_in self.now.stalls self.now.cycle }
    {
        if self.stalls.is_empty() {
            return false;
        }
        self.stalls[self.cycle as usize % self.stalls.len()]
    }

    /// Whether `readdatavalid` is raised in this cycle.
    pub fn gives(&self) -> bool
        ensures { result ≡ gives self.now }
    {
        self.port.readdatavalid && self.waiting.is_due(self.cycle)
    }

    /// What `readdata` bears in this cycle, but for a word that is given in the cycle that asks for it.
    pub fn word(&self) -> u128
        ensures { result ≡ word_shown self.now }
    {
        if self.port.readdatavalid {
            self.waiting.word(self.cycle)
        } else {
            self.delayed.first().word
        }
    }

    /// The code of that word, which `response` bears: 0 where none is given.
    pub fn code(&self) -> u8
        ensures { result ≡ code_shown self.now }
    {
        if self.port.readdatavalid {
            self.waiting.code(self.cycle)
        } else {
            self.delayed.first().code
        }
    }

    /// Whether the agent takes what these levels show in this cycle.
    pub fn accepts(&self, levels: &CommandLevels) -> bool
        ensures { result ≡ accepts self.now (levels_of levels.now) }
    {
        if self.port.waitrequest {
            carries(levels) && !self.waits()
        } else {
            carries(levels) && self.stood == wait_of(&self.port, levels)
        }
    }

    /// The offset of the word that these levels write or of the first one that they read, in bytes.
    pub fn offset(&self, levels: &CommandLevels) -> u32
        ensures { result ≡ address_shown self.now (levels_of levels.now) % span_of self.now.port }
    {
        let address = if levels.write {
            self.burst.address(&self.port, levels)
        } else {
            byte_address(&self.port, levels.address)
        };
        (address % span(&self.port)) as u32
    }

    /// The word that these levels ask for in this cycle, 0 where they ask for none. At read latency 0 it is what `readdata`
    /// bears in this very cycle.
    pub fn word_now(&self, levels: &CommandLevels) -> u128
        ensures { result ≡ word_now self.now (levels_of levels.now) }
    {
        let reads = self.accepts(levels) && !levels.write;
        word_asked(&self.port, &self.memory, levels, reads)
    }

    /// The code of the word that these levels ask for in this cycle, 0 where they ask for none.
    pub fn code_now(&self, levels: &CommandLevels) -> u8
        ensures { result ≡ code_now self.now (levels_of levels.now) }
    {
        let reads = self.accepts(levels) && !levels.write;
        code_asked(&self.port, self.coded, levels, reads)
    }

    /// Ends the cycle for the words that wait or are under way.
    fn answer(&mut self, levels: &CommandLevels, reads: bool)
        requires { self.old.cycle < self.old.cycles }
        ensures { IsAnswered self.old (levels_of levels.now) reads self.new }
    {
        if self.port.readdatavalid {
            pass_waiting(
                &mut self.waiting,
                &self.port,
                &self.memory,
                self.coded,
                self.cycle,
                self.latency,
                levels,
                reads,
            );
        } else {
            self.delayed.go_on(Answer {
                word: word_asked(&self.port, &self.memory, levels, reads),
                code: code_asked(&self.port, self.coded, levels, reads),
            });
        }
    }

    /// Ends the cycle, in which the module showed these levels.
    pub fn take(&mut self, levels: &CommandLevels)
        requires { self.old.cycle < self.old.cycles }
        ensures { IsBehind self.old (levels_of levels.now) self.new }
    {
        let accepts = self.accepts(levels);
        self.answer(levels, accepts && !levels.write);
        if accepts && levels.write {
            self.burst.write(&mut self.memory, &self.port, levels);
            self.burst = self.burst.next(&self.port, levels);
        }
        self.stood = stood_behind(&self.port, self.stood, levels);
        self.cycle += 1;
    }
}
