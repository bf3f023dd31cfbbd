//! The write burst under way at an agent.

ghost use Rattle.std.specs.Prelude.{◌≡◌, ◌+◌, ◌*◌, ◌%◌, ◌<◌, ◌≤◌, nat_eq, if◌then◌else◌};
ghost use Rattle.iface_roles.specs.Proper.{IsBoundedAgent};
ghost use Rattle.memory_runs.specs.Operations.{own_operations, memory_after};
ghost use Rattle.memory_runs.specs.Commands.{byte_address, next_burst, write_transfer};
ghost use Rattle.memory_runs.specs.Sides.{agent_side};
ghost use Rattle.stand_ins.specs.Steps.{levels_of};
ghost use Rattle.stand_ins.specs.Memory.{contents_of};
ghost use Rattle.stand_ins.specs.Whole.{burst_of, IsBurstKept};
ghost use Rattle.std.specs.Prelude.{flat_map};

use crate::hosts::CommandLevels;
use crate::memory::Memory;
use crate::places::{byte_address, word_number};
use iface_roles::AgentPort;

/// How many beats of a burst aren't taken yet, how many are, and the byte address of the first.
#[derive(Clone, Copy)]
pub struct WriteBurst {
    pub left: u16,
    pub done: u16,
    pub first: u64,
}

impl WriteBurst {
    /// The byte address of a write beat.
    pub(crate) fn address(&self, port: &AgentPort, levels: &CommandLevels) -> u64
        requires bounded { IsBoundedAgent port.now }
        requires kept { IsBurstKept port.now self.now }
        ensures value { result
            ≡ (if nat_eq self.now.left 0 then byte_address (agent_side port.now).shape levels.now.address else self.now.first)
            + (if nat_eq self.now.left 0 then 0 else self.now.done) * port.now.word_bytes }
        ensures whole { result % port.now.word_bytes ≡ 0 }
    {
        if self.left == 0 {
            byte_address(port, levels.address)
        } else {
            self.first + u64::from(self.done) * u64::from(port.word_bytes)
        }
    }

    /// The burst behind a write beat that is taken.
    pub(crate) fn next(&self, port: &AgentPort, levels: &CommandLevels) -> WriteBurst
        requires bounded { IsBoundedAgent port.now }
        requires kept { IsBurstKept port.now self.now }
        ensures value { burst_of result ≡ next_burst (agent_side port.now).shape (levels_of levels.now) (burst_of self.now) }
        ensures kept { IsBurstKept port.now result }
    {
        if self.left == 0 {
            WriteBurst {
                left: levels.count.saturating_sub(1),
                done: 1,
                first: byte_address(port, levels.address),
            }
        } else {
            WriteBurst {
                left: self.left - 1,
                done: self.done + 1,
                first: self.first,
            }
        }
    }

    /// Writes a beat that is taken. There is room for its word.
    pub(crate) fn write(&self, memory: &mut Memory, port: &AgentPort, levels: &CommandLevels)
        requires bounded { IsBoundedAgent port.now }
        requires kept { IsBurstKept port.now self.now }
        requires bytes { memory.old.word_bytes ≡ port.now.word_bytes }
        requires room { 0 < memory.old.room }
        ensures contents { contents_of memory.new
            ≡ memory_after (contents_of memory.old)
            (flat_map (own_operations (agent_side port.now).shape (agent_side port.now).span)
            (write_transfer (agent_side port.now).shape (levels_of levels.now) (burst_of self.now)).beats) }
        ensures word_bytes { memory.new.word_bytes ≡ memory.old.word_bytes }
        ensures room { memory.old.room ≤ memory.new.room + 1 }
    {
        let address = self.address(port, levels);
        memory.write(word_number(port, address), levels.word, levels.enables);
    }
}
