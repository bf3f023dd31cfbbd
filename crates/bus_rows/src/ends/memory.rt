//! An agent that keeps to what it declares: a memory, or with a fixed latency of 0 a clock.

use crate::ends::ends::{Agent, is_high_in};
use crate::ends::rules::Rule;
use crate::ends::signals::{Answer, Beat, Command};
use std::alloc::{AllocError, Global};

/// A word that was written, and its number.
#[derive(Clone, Copy)]
struct Written {
    number: u128,
    word: u128,
}

/// A word of a read, and the cycle in which it is given.
#[derive(Clone, Copy)]
struct Owed {
    cycle: u128,
    word: u128,
    code: u128,
    /// Whether it is the last of its read.
    ends: bool,
}

/// The write under way: the number of its next word, and how many are to come.
#[derive(Clone, Copy)]
struct Burst {
    number: u128,
    left: u128,
}

/// The agent, as a cycle begins.
#[derive(Drop)]
pub struct Memory {
    /// What was written, the latest last.
    written: Vec<Written>,
    /// The words of the reads that were accepted.
    owed: Vec<Owed>,
    given: usize,
    /// How many reads aren't fully answered.
    unanswered: u32,
    burst: Burst,
    /// The beat that it has let wait.
    waiting: Option<Command>,
    /// For how many cycles.
    stood: u32,
}

/// The bits of lanes.
fn bits_of(lanes: u128) -> u128 {
    let mut bits = 0u128;
    for lane in 0u32..16 {
        if lanes.checked_shr(lane).unwrap_or(0) & 1 == 1 {
            bits |= 0xffu128.checked_shl(lane.saturating_mul(8)).unwrap_or(0);
        }
    }
    bits
}

impl Memory {
    /// The agent before the first cycle.
    pub fn new(alloc: Global) -> Memory {
        Memory {
            written: Vec::new(alloc),
            owed: Vec::new(alloc),
            given: 0,
            unanswered: 0,
            burst: Burst { number: 0, left: 0 },
            waiting: None,
            stood: 0,
        }
    }

    /// The word with this number.
    fn word_at(&self, agent: &Agent, number: u128) -> u128 {
        let mut word = agent.word_of(number);
        for written in self.written.as_slice() {
            if written.number == number {
                word = written.word;
            }
        }
        word
    }

    /// The word that comes in a cycle.
    fn comes(&self, agent: &Agent, cycle: u32) -> Option<Owed> {
        if is_high_in(agent.late, cycle) {
            return None;
        }
        match self.owed.get(self.given) {
            Some(owed) if owed.cycle <= u128::from(cycle) => Some(*owed),
            _ => None,
        }
    }

    /// The word at the agent's ports, and its code. Where no word comes, each bit is set, or it is a clock.
    fn stands(agent: &Agent, next: Option<Owed>, cycle: u32) -> (u128, u128) {
        let cycle = u128::from(cycle);
        match next {
            Some(owed) => (owed.word, owed.code),
            None if agent.is_clock() => (agent.word_of(cycle), agent.code_of(cycle)),
            None => (agent.shape.full_word(), 3),
        }
    }

    /// What the agent gives.
    pub fn gives(&self, agent: &Agent, cycle: u32) -> Answer {
        let next = self.comes(agent, cycle);
        let (word, code) = Memory::stands(agent, next, cycle);
        Answer {
            wait: is_high_in(agent.wait, cycle),
            valid: next.is_some(),
            word,
            code,
        }
    }

    /// Whether a beat hasn't stood for as long as the agent asks.
    fn is_early(&self, agent: &Agent, command: &Command) -> bool {
        let wait = if command.read {
            agent.read_wait
        } else {
            agent.write_wait
        };
        agent.wait.is_none() && self.stood < u32::from(wait)
    }

    /// Another beat may come in the next cycle.
    fn begin_anew(&mut self) {
        self.waiting = None;
        self.stood = 0;
    }

    /// Whether a command begins with a beat that is shown.
    fn begins(&self) -> bool {
        self.burst.left == 0
    }

    /// The number of the word that a beat is of.
    fn number_of(&self, agent: &Agent, command: &Command) -> u128 {
        if self.begins() {
            agent.word_number(command.address)
        } else {
            self.burst.number
        }
    }

    /// A read is accepted that begins with the word of this number.
    fn reads(
        &mut self,
        agent: &Agent,
        number: u128,
        count: u128,
        cycle: u32,
    ) -> Result<(), AllocError> {
        let cycle = u128::from(cycle).saturating_add(u128::from(agent.latency));
        let count = u16::try_from(count).unwrap_or(0);
        for behind in 0..count {
            let number = agent.number_behind(number, u128::from(behind));
            let owed = Owed {
                cycle,
                word: self.word_at(agent, number),
                code: agent.code_of(number),
                ends: behind.saturating_add(1) == count,
            };
            self.owed.push(owed)?;
        }
        self.unanswered = self.unanswered.saturating_add(1);
        Ok(())
    }

    /// A beat of a write is accepted, of the word with this number.
    fn writes(&mut self, agent: &Agent, number: u128, command: &Command) -> Result<(), AllocError> {
        let left = if self.begins() {
            command.count
        } else {
            self.burst.left
        };
        self.burst = Burst {
            number: agent.number_behind(number, 1),
            left: left.saturating_sub(1),
        };
        let bits = bits_of(command.lanes);
        let word = (self.word_at(agent, number) & !bits) | (command.word & bits);
        self.written.push(Written { number, word })?;
        Ok(())
    }

    /// A beat is accepted.
    fn accepts(
        &mut self,
        agent: &Agent,
        command: &Command,
        cycle: u32,
    ) -> Result<Beat, AllocError> {
        let begins = self.begins();
        let number = self.number_of(agent, command);
        if command.read && !agent.is_clock() {
            self.reads(agent, number, command.count, cycle)?;
        }
        if command.write {
            self.writes(agent, number, command)?;
        }
        Ok(Beat {
            command: Command {
                address: if begins {
                    command.address
                } else {
                    agent.address_of(number)
                },
                ..*command
            },
            begins,
        })
    }

    /// A word is given.
    fn gave(&mut self) {
        if let Some(owed) = self.owed.get(self.given) {
            if owed.ends {
                self.unanswered = self.unanswered.saturating_sub(1);
            }
        }
        self.given = self.given.saturating_add(1);
    }

    /// The cycle ends; gives the beat that the agent accepts.
    pub fn sees(
        &mut self,
        agent: &Agent,
        command: &Command,
        answer: &Answer,
        cycle: u32,
    ) -> Result<Option<Beat>, AllocError> {
        if answer.valid {
            self.gave();
        }
        if !command.is_shown() {
            self.begin_anew();
            return Ok(None);
        }
        if answer.wait || self.is_early(agent, command) {
            self.waiting = Some(*command);
            self.stood = self.stood.saturating_add(1);
            return Ok(None);
        }
        self.begin_anew();
        let beat = self.accepts(agent, command, cycle)?;
        Ok(Some(beat))
    }

    /// Whether a burst that begins has no beat, or more than the agent takes.
    fn is_too_long(&self, agent: &Agent, command: &Command) -> bool {
        let longest = u128::from(agent.shape.longest_burst());
        self.begins() && (command.count == 0 || command.count > longest)
    }

    /// The rule that is broken by what the agent of this number sees.
    pub fn judges(&self, agent: &Agent, number: u32, command: &Command) -> Option<Rule> {
        let changed = match self.waiting {
            Some(waiting) => waiting != *command,
            None => false,
        };
        let bytes = if agent.shape.counts_words {
            1
        } else {
            u128::from(agent.shape.word_bytes())
        };
        if changed {
            Some(Rule::Held { agent: number })
        } else if command.read && command.write {
            Some(Rule::OneKind { agent: number })
        } else if command.is_shown() && command.address.checked_rem(bytes).unwrap_or(0) != 0 {
            Some(Rule::Aligned { agent: number })
        } else if command.is_shown() && self.is_too_long(agent, command) {
            Some(Rule::Longest { agent: number })
        } else if command.read && !self.begins() {
            Some(Rule::Unfinished { agent: number })
        } else {
            None
        }
    }

    /// Whether more reads are unanswered than the agent bears.
    pub fn bears_too_many(&self, agent: &Agent) -> bool {
        !agent.fixed && self.unanswered > u32::from(agent.bound())
    }
}
