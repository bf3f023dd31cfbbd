//! What scripts fill are bytes. The functions do nothing.

ghost use Rattle.std.specs.Prelude.{◌<◌, ℕ, slice_index};
ghost use Rattle.port_rows.specs.Agents.{AllHoldBytes, HoldsBytes};

use scenario_tables::AgentStatement;

fn are_bytes(bytes: &[u8])
    ensures { (k : ℕ) → slice_index bytes.now k < 256 }
{}

fn holds_bytes(statement: &AgentStatement)
    ensures { HoldsBytes statement.now }
{
    if let AgentStatement::Fill { offset: _, bytes } = statement {
        are_bytes(bytes.as_slice());
    }
}

/// What a script fills are bytes.
pub fn script_holds_bytes(script: &[AgentStatement])
    ensures { AllHoldBytes script.now }
{
    'statements: for statement in script {
        holds_bytes(statement);
    }
}
