//! What the script of an agent says.

ghost use Rattle.std.specs.Prelude.{◌≡◌, ◌+◌, ◌<◌, ◌≤◌, ◌^◌, All, OnOk, length, flat_map};
ghost use Rattle.iface_roles.specs.declared.records.AgentPort.{AgentPort};
ghost use Rattle.iface_roles.specs.Proper.{IsBoundedAgent};
ghost use Rattle.memory_runs.specs.Operations.{memory_after};
ghost use Rattle.scenario_tables.specs.Statements.{FitsAgent};
ghost use Rattle.stand_ins.specs.Contents.{writes_from, fills};
ghost use Rattle.stand_ins.specs.Answers.{latency_of};
ghost use Rattle.stand_ins.specs.StandIns.{stall_pattern};
ghost use Rattle.stand_ins.specs.Memory.{contents_of};

use crate::memory::Memory;
use av_base::NoMemory;
use scenario_tables::AgentStatement;

/// The stalls of a script, none where it says nothing of them.
pub(crate) fn stall_pattern(script: &[AgentStatement]) -> &[bool]
    ensures { result.now ≡ stall_pattern script.now }
{
    'statements: for statement in script {
        if let AgentStatement::Stall { pattern } = statement {
            return pattern.stalls.as_slice();
        }
    }
    &[]
}

/// The latency of a script, in cycles.
pub(crate) fn latency(script: &[AgentStatement]) -> u8
    ensures { result ≡ latency_of script.now }
{
    'statements: for statement in script {
        if let AgentStatement::Latency { cycles } = statement {
            return *cycles;
        }
    }
    1
}

/// Writes bytes one after another from an offset on.
fn fill_bytes(memory: &mut Memory, offset: u32, bytes: &[u8]) -> Result<(), NoMemory>
    requires { offset + length bytes.now ≤ 2 ^ 32 }
    ensures ok { OnOk result (contents_of memory.new ≡ memory_after (contents_of memory.old) (writes_from offset bytes.now)) }
    ensures word_bytes { memory.new.word_bytes ≡ memory.old.word_bytes }
{
    'bytes: for (k, byte) in bytes.iter().enumerate() {
        memory.put(offset + k as u32, *byte)?;
    }
    Ok(())
}

/// Writes what a statement fills.
fn fill_statement(memory: &mut Memory, statement: &AgentStatement) -> Result<(), NoMemory>
    requires { (port : AgentPort) × IsBoundedAgent port × FitsAgent port statement.now }
    ensures ok { OnOk result (contents_of memory.new ≡ memory_after (contents_of memory.old) (fills statement.now)) }
    ensures word_bytes { memory.new.word_bytes ≡ memory.old.word_bytes }
{
    match statement {
        AgentStatement::Fill { offset, bytes } => fill_bytes(memory, *offset, bytes.as_slice()),
        _ => Ok(()),
    }
}

/// Writes what a script fills.
pub(crate) fn fill(memory: &mut Memory, script: &[AgentStatement]) -> Result<(), NoMemory>
    requires { (port : AgentPort) × IsBoundedAgent port × All (FitsAgent port) script.now }
    ensures ok { OnOk result (contents_of memory.new ≡ memory_after (contents_of memory.old) (flat_map fills script.now)) }
    ensures word_bytes { memory.new.word_bytes ≡ memory.old.word_bytes }
{
    'statements: for statement in script {
        fill_statement(memory, statement)?;
    }
    Ok(())
}
