//! What stands in for a sink.

ghost use Rattle.std.specs.Prelude.{◌≡◌, All};
ghost use Rattle.scenario_tables.specs.Statements.{IsPattern};
ghost use Rattle.stand_ins.specs.Sinks.{stalls_in, ready_in};

use scenario_tables::Pattern;

/// Whether a pattern stalls in the cycle of this number, from 0.
pub fn stalls(pattern: &Pattern, cycle: u32) -> bool
    requires { IsPattern pattern.now }
    ensures { result ≡ stalls_in pattern.now cycle }
{
    pattern.stalls.as_slice()[cycle as usize % pattern.stalls.len()]
}

/// Whether a sink of this script is ready in the cycle of this number, from 0: always without a pattern.
pub fn is_ready(script: &[Pattern], cycle: u32) -> bool
    requires { All IsPattern script.now }
    ensures { result ≡ ready_in script.now cycle }
{
    match script.first() {
        Some(pattern) => !stalls(pattern, cycle),
        None => true,
    }
}
