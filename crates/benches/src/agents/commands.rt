//! Levels at the outputs of a module that command an agent.

ghost use Rattle.std.specs.Prelude.{◌≡◌, ◌<◌, ◌≤◌, ◌^◌, ℕ, true};
ghost use Rattle.histories.specs.History.{one_if};
ghost use Rattle.scenario_tables.specs.Statements.{all_lanes};
ghost use Rattle.benches.specs.Outputs.{level_now, IsOutputIf};

use crate::parts::{Simulator, level_at};

/// All lanes of a word.
pub(crate) fn all_lanes(word_bytes: u8) -> u16
    requires { word_bytes ≤ 16 }
    ensures { result ≡ all_lanes word_bytes }
{
    (2u32.pow(u32::from(word_bytes)) - 1) as u16
}

/// Whether an output of one bit is high; an absent one is low.
pub(crate) fn is_high(sim: &Simulator, port: Option<u32>) -> bool
    requires stepped { sim.now.stepped ≡ true }
    requires there { IsOutputIf sim.now.netlist 1 port }
    ensures { one_if result ≡ level_now sim.now 0 port }
{
    level_at(sim, port, 0) == 1
}

/// The level at an output of at most 4 bits, 0 where it is absent.
pub(crate) fn nibble_at(sim: &Simulator, port: Option<u32>) -> u8
    requires stepped { sim.now.stepped ≡ true }
    requires there { IsOutputIf sim.now.netlist 4 port }
    ensures { result ≡ level_now sim.now 0 port }
{
    level_at(sim, port, 0) as u8
}

/// The level at an output of at most 16 bits.
pub(crate) fn short_at(sim: &Simulator, port: Option<u32>, absent: u16) -> u16
    requires stepped { sim.now.stepped ≡ true }
    requires there { IsOutputIf sim.now.netlist 16 port }
    ensures value { result ≡ level_now sim.now absent port }
    ensures fits { (most : ℕ) → IsOutputIf sim.now.netlist most port → absent < 2 ^ most → result < 2 ^ most }
{
    level_at(sim, port, u128::from(absent)) as u16
}

/// The level at an output of at most 32 bits, 0 where it is absent.
pub(crate) fn address_at(sim: &Simulator, port: Option<u32>) -> u32
    requires stepped { sim.now.stepped ≡ true }
    requires there { IsOutputIf sim.now.netlist 32 port }
    ensures { result ≡ level_now sim.now 0 port }
{
    level_at(sim, port, 0) as u32
}
