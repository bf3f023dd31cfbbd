//! The benches of all lanes, one after another.

ghost use Rattle.std.specs.Prelude.{◌≡◌, ◌<◌, ℕ, length, slice_get, Some, IsFalse};
ghost use Rattle.cycle_sim.specs.Sims.{SimValue};
ghost use Rattle.lane_sim.specs.LaneSims.{lane_of};
ghost use Rattle.benches.specs.Agents.{BenchAgentValue, gives_at_once};
ghost use Rattle.benches.specs.Counting.{HaveRoom};
ghost use Rattle.simulations.specs.Cycles.{HasCycleLeft, IsAsked, IsTold};
ghost use Rattle.simulations.specs.Value.{value_with};
ghost use Rattle.simulations.specs.Lanes.{EachBecomes, EachLane, value_in};
ghost use Rattle.simulations.specs.Phases.{HasShown, HasAnswered, HasEnded};

use crate::campaigns::lane_bench::LaneBench;
use benches::parts::Simulator;
use lane_sim::Lanes;

/// In each lane the components show what they can before any command is known.
pub(crate) fn show_all(benches: &mut [LaneBench])
    requires count { length benches.old ≡ 8 }
    requires left { EachLane (λ j lane. (sim : SimValue) × HasCycleLeft (value_with sim lane.bench)) benches.old }
    ensures count { length benches.new ≡ 8 }
    ensures each { EachBecomes (λ j before after. HasShown before after) benches.old benches.new }
{
    for lane in 0..8 {
        benches[lane].show();
    }
}

/// Whether an agent of some lane gives words in the very cycle that asks.
pub(crate) fn any_gives_at_once(benches: &[LaneBench]) -> bool
    ensures { IsFalse result → (j : ℕ) (lane : LaneBench) → slice_get benches.now j ≡ Some lane
        → (a : ℕ) (agent : BenchAgentValue) → slice_get lane.bench.agents.items a ≡ Some agent → IsFalse (gives_at_once agent) }
{
    'lanes: for lane in benches {
        if lane.bench.gives_at_once() {
            return true;
        }
    }
    false
}

/// In each lane the agents answer the commands of the present cycle.
pub(crate) fn answer_all(benches: &mut [LaneBench], lanes: &Lanes)
    requires count { length benches.old ≡ 8 }
    requires asked { EachLane (λ j lane. IsAsked (value_in lanes.now j lane)) benches.old }
    ensures count { length benches.new ≡ 8 }
    ensures each { EachBecomes (λ j before after. HasAnswered (lane_of lanes.now j) before after) benches.old benches.new }
{
    for lane in 0..8 {
        benches[lane as usize].answer(&Simulator::lane(lanes, lane));
    }
}

/// Each lane's bench counts what is done in the present cycle, and ends it.
pub(crate) fn end_all(benches: &mut [LaneBench], lanes: &Lanes)
    requires count { length benches.old ≡ 8 }
    requires told { EachLane (λ j lane. IsTold (value_in lanes.now j lane)) benches.old }
    requires room { EachLane (λ j lane. HaveRoom 64 lane.counts) benches.old }
    ensures count { length benches.new ≡ 8 }
    ensures each { EachBecomes (λ j before after. HasEnded (lane_of lanes.now j) before after) benches.old benches.new }
{
    for lane in 0..8 {
        benches[lane as usize].end_cycle(&Simulator::lane(lanes, lane));
    }
}
