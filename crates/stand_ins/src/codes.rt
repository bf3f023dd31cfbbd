//! The codes that a script states.

ghost use Rattle.std.specs.Prelude.{◌≡◌, ◌%◌};
ghost use Rattle.iface_roles.specs.Proper.{IsBoundedAgent};
ghost use Rattle.memory_runs.specs.Views.{AgentSide};
ghost use Rattle.memory_runs.specs.Sides.{agent_side};
ghost use Rattle.stand_ins.specs.Codes.{code_at};

use crate::places::word_number;
use iface_roles::AgentPort;
use scenario_tables::AgentStatement;

/// The statements from the first one of a code on. Those before say nothing of codes.
pub(crate) fn coded(script: &[AgentStatement]) -> &[AgentStatement]
    ensures { (side : AgentSide) → code_at side result.now ≡ code_at side script.now }
{
    'statements: for (k, statement) in script.iter().enumerate() {
        if let AgentStatement::Code { .. } = statement {
            return &script[k..];
        }
    }
    &[]
}

/// The code of the word at a byte address.
pub(crate) fn code_at(port: &AgentPort, script: &[AgentStatement], address: u64) -> u8
    requires bounded { IsBoundedAgent port.now }
    requires whole { address % port.now.word_bytes ≡ 0 }
    ensures { result ≡ code_at (agent_side port.now) script.now address }
{
    let word_bytes = u32::from(port.word_bytes);
    let number = word_number(port, address);
    let mut last = 0;
    'statements: for statement in script {
        if let AgentStatement::Code { offset, code } = statement {
            if *offset / word_bytes == number {
                last = *code;
            }
        }
    }
    last
}
