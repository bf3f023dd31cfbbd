//! The words that were asked for and aren't given.

ghost use Rattle.std.specs.Prelude.{◌≡◌, ◌+◌, ◌*◌, ◌<◌, ◌≤◌, ◌&&◌, nat_lt, nat_le, [], ◌++◌, length, IfOk};
ghost use Rattle.circular_buffer.specs.Buffer.{buffer};
ghost use Rattle.iface_roles.specs.Proper.{IsBoundedAgent};
ghost use Rattle.memory_runs.specs.Sides.{agent_side};
ghost use Rattle.stand_ins.specs.Steps.{levels_of};
ghost use Rattle.stand_ins.specs.Answers.{is_due, word_due, code_due, still_waiting, commands_among, asked_words};
ghost use Rattle.stand_ins.specs.Memory.{contents_of};
ghost use Rattle.stand_ins.specs.Codes.{code_at};

use crate::codes::code_at;
use crate::hosts::CommandLevels;
use crate::memory::Memory;
use crate::places::{byte_address, word_at};
use av_base::NoMemory;
use circular_buffer::HeapCircularBuffer;
use iface_roles::AgentPort;
use scenario_tables::AgentStatement;
use std::alloc::Global;
use std::marker::Model;

/// A word that was asked for and isn't given.
#[derive(Clone, Copy, PartialEq, Eq)]
pub struct Waiting {
    pub word: u128,
    pub code: u8,
    /// The first cycle in which it may be given.
    pub due: u32,
    /// It is the last of its command.
    pub last: bool,
}

/// The words that wait, in the order in which they are given.
#[derive(Drop)]
pub(crate) struct WaitingWords {
    words: HeapCircularBuffer<Waiting>,
    /// How many commands they belong to.
    commands: u8,
    /// The longest burst.
    longest: u16,
    /// How many commands there may be.
    pending: u8,
}

impl Model for WaitingWords {
    ghost use Rattle.stand_ins.specs.Kept.{WaitingValue, FitRoom};

    ghost Value = { WaitingValue };

    ghost view = { λ w. record { waiting = w.words.items; longest = w.longest; pending = w.pending } };

    ghost invariant = { λ w. FitRoom w.words.items w.commands w.longest w.pending w.words.capacity };
}

/// Lets the words of a read wait. There is room for them.
fn push_words(
    words: &mut HeapCircularBuffer<Waiting>,
    port: &AgentPort,
    memory: &Memory,
    script: &[AgentStatement],
    due: u32,
    levels: &CommandLevels,
)
    requires bounded { IsBoundedAgent port.now }
    requires bytes { memory.now.word_bytes ≡ port.now.word_bytes }
    requires room { length words.old.items + levels.now.count ≤ words.old.capacity }
    ensures { words.new
        ≡ buffer
        (words.old.items
        ++ asked_words (agent_side port.now) (contents_of memory.now) (code_at (agent_side port.now) script.now) due
        (levels_of levels.now)) words.old.capacity }
{
    let first = byte_address(port, levels.address);
    'words: for number in 0..levels.count {
        let address = first + u64::from(number) * u64::from(port.word_bytes);
        let _ = words.try_push_back(Waiting {
            word: word_at(port, memory, address),
            code: code_at(port, script, address),
            due,
            last: number + 1 == levels.count,
        });
    }
}

impl WaitingWords {
    /// Room for so many commands of so many words at most.
    pub(crate) fn new(alloc: Global, longest: u16, pending: u8) -> Result<WaitingWords, NoMemory>
        ensures waiting { IfOk result (λ words. words.waiting ≡ []) }
        ensures longest { IfOk result (λ words. words.longest ≡ longest) }
        ensures pending { IfOk result (λ words. words.pending ≡ pending) }
    {
        let room = usize::from(longest) * usize::from(pending);
        Ok(WaitingWords {
            words: HeapCircularBuffer::with_capacity(alloc, room)?,
            commands: 0,
            longest,
            pending,
        })
    }

    /// Whether a word is given in a cycle.
    pub(crate) fn is_due(&self, cycle: u32) -> bool
        ensures { result ≡ is_due cycle self.now.waiting }
    {
        match self.words.front() {
            Some(first) => first.due <= cycle,
            None => false,
        }
    }

    /// The word that is given in a cycle, 0 where none is.
    pub(crate) fn word(&self, cycle: u32) -> u128
        ensures { result ≡ word_due cycle self.now.waiting }
    {
        match self.words.front() {
            Some(first) if first.due <= cycle => first.word,
            _ => 0,
        }
    }

    /// And its code.
    pub(crate) fn code(&self, cycle: u32) -> u8
        ensures { result ≡ code_due cycle self.now.waiting }
    {
        match self.words.front() {
            Some(first) if first.due <= cycle => first.code,
            _ => 0,
        }
    }

    /// Ends a cycle: the word that was given waits no more.
    pub(crate) fn go_on(&mut self, cycle: u32)
        ensures waiting { self.new.waiting ≡ still_waiting cycle self.old.waiting }
        ensures longest { self.new.longest ≡ self.old.longest }
        ensures pending { self.new.pending ≡ self.old.pending }
    {
        let Some(first) = self.words.front().copied() else {
            return;
        };
        if first.due <= cycle {
            let _ = self.words.pop_front();
            if first.last {
                self.commands -= 1;
            }
        }
    }

    /// Whether a read of so many words is borne.
    pub(crate) fn bears(&self, count: u16) -> bool
        ensures { result ≡ (nat_lt (commands_among self.now.waiting) self.now.pending && nat_le count self.now.longest) }
    {
        self.commands < self.pending && count <= self.longest
    }

    /// Lets the words of a read wait.
    pub(crate) fn ask(
        &mut self,
        port: &AgentPort,
        memory: &Memory,
        script: &[AgentStatement],
        due: u32,
        levels: &CommandLevels,
    )
        requires bounded { IsBoundedAgent port.now }
        requires bytes { memory.now.word_bytes ≡ port.now.word_bytes }
        requires few { commands_among self.old.waiting < self.old.pending }
        requires short { levels.now.count ≤ self.old.longest }
        ensures waiting { self.new.waiting
            ≡ self.old.waiting
            ++ asked_words (agent_side port.now) (contents_of memory.now) (code_at (agent_side port.now) script.now) due
            (levels_of levels.now) }
        ensures longest { self.new.longest ≡ self.old.longest }
        ensures pending { self.new.pending ≡ self.old.pending }
    {
        push_words(&mut self.words, port, memory, script, due, levels);
        if levels.count > 0 {
            self.commands += 1;
        }
    }
}
