ghost use Rattle.std.specs.Prelude.{◌≡◌, ℕ, ◌<◌, true};
ghost use Rattle.netlist.specs.Netlists.{IsOutputPort};
ghost use Rattle.netlist.specs.Signals.{port_net};
ghost use Rattle.cycle_sim.specs.Sims.{present};
ghost use Rattle.lane_sim.specs.LaneSims.{lane_of};

use crate::parts::kind::SimulatorKind;
use av_base::Val;
use cycle_sim::Sim;
use lane_sim::Lanes;
use std::marker::Model;

/// A simulator whose outputs a test bench reads: a plain one, or a lane of eight, which is told as a plain one.
#[derive(Drop)]
pub struct Simulator<'a> {
    kind: SimulatorKind<'a>,
}

impl<'a> Model for Simulator<'a> {
    ghost use Rattle.cycle_sim.specs.Sims.{SimValue};
    ghost use Rattle.benches.specs.Simulators.{simulator_of, IsKind};

    ghost Value = { SimValue };

    ghost view = { λ s. simulator_of s.kind };

    ghost invariant = { λ s. IsKind s.kind };
}

impl<'a> Simulator<'a> {
    pub fn plain(sim: &'a Sim) -> Simulator<'a>
        ensures { result ≡ sim.now }
    {
        Simulator {
            kind: SimulatorKind::Plain(sim),
        }
    }

    /// A lane below 8.
    pub fn lane(lanes: &'a Lanes, lane: u8) -> Simulator<'a>
        requires { lane < 8 }
        ensures { result ≡ lane_of lanes.now lane }
    {
        Simulator {
            kind: SimulatorKind::Lane(lanes, lane),
        }
    }
}

impl Simulator<'_> {
    /// The value at an output port in the present cycle.
    pub fn output(&self, port: u32) -> Val
        requires port_is { (w : ℕ) × IsOutputPort self.now.netlist.ports port w }
        requires stepped { self.now.stepped ≡ true }
        ensures width { IsOutputPort self.now.netlist.ports port result.width }
        ensures bits { result.bits ≡ (present self.now).net (port_net self.now.netlist port) }
    {
        match self.kind {
            SimulatorKind::Plain(sim) => sim.output(port),
            SimulatorKind::Lane(lanes, lane) => lanes.output(port, lane),
        }
    }
}
