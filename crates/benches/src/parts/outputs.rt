ghost use Rattle.std.specs.Prelude.{◌≡◌, ℕ, ◌<◌, ◌^◌, true};
ghost use Rattle.netlist.specs.Netlists.{IsOutputPort};
ghost use Rattle.benches.specs.Outputs.{level_now, IsOutputIf};

use crate::parts::simulator::Simulator;

/// The level at an output of a module in the present cycle, and a stated one where there is no port.
pub fn level_at(sim: &Simulator, port: Option<u32>, absent: u128) -> u128
    requires stepped { sim.now.stepped ≡ true }
    requires there { IsOutputIf sim.now.netlist 128 port }
    ensures value { result ≡ level_now sim.now absent port }
    ensures fits { (most : ℕ) → IsOutputIf sim.now.netlist most port → absent < 2 ^ most → result < 2 ^ most }
{
    match port {
        Some(port) => sim.output(port).bits(),
        None => absent,
    }
}
