//! What the benches set, as inputs of all lanes.

ghost use Rattle.std.specs.Prelude.{◌≡◌, ◌<◌, ℕ, List, length, slice_get, slice_index_or, Some, true, IfOk};
ghost use Rattle.av_base.specs.Word.{word};
ghost use Rattle.cycle_sim.specs.Sims.{AreInputs, input_widths, widths_of};
ghost use Rattle.lane_sim.specs.LaneWords.{value_at};
ghost use Rattle.lane_sim.specs.LaneSims.{IsStepWith, lane_of, lane_words};
ghost use Rattle.simulations.specs.Lanes.{EachLane};

use crate::campaigns::lane_bench::LaneBench;
use av_base::{NoMemory, Val};
use lane_sim::Lanes;
use lane_sim::planes::LaneVal;
use std::alloc::Global;

/// A value for each input that the benches set.
pub(crate) fn first_inputs(alloc: Global, benches: &[LaneBench]) -> Result<Vec<LaneVal>, NoMemory>
    requires { length benches.now ≡ 8 }
    ensures { IfOk result (λ inputs. (lane : LaneBench) → slice_get benches.now 0 ≡ Some lane
        → length inputs.items ≡ length lane.bench.row) }
{
    let mut inputs = Vec::new(alloc);
    let nothing = LaneVal::splat(Val::new(1, 0).unwrap());
    inputs.resize(benches[0].input_count(), nothing)?;
    Ok(inputs)
}

/// What the benches set at a place among the inputs.
fn inputs_at(benches: &[LaneBench], place: usize) -> LaneVal
    requires count { length benches.now ≡ 8 }
    requires rows { (widths : List ℕ) × (place < length widths)
        × EachLane (λ j lane. (length lane.bench.row ≡ length widths) × (widths_of lane.bench.row ≡ widths)) benches.now }
    ensures { EachLane (λ j lane. value_at result j ≡ slice_index_or lane.bench.row place (word 0 0)) benches.now }
{
    let mut values = [benches[0].input(place); 8];
    for lane in 0..8 {
        values[lane] = benches[lane].input(place);
    }
    LaneVal::from(values)
}

/// Takes what the benches set at all places.
fn take_rows(benches: &[LaneBench], inputs: &mut [LaneVal])
    requires count { length benches.now ≡ 8 }
    requires rows { (widths : List ℕ) × (length inputs.old ≡ length widths)
        × EachLane (λ j lane. widths_of lane.bench.row ≡ widths) benches.now }
    ensures count { length inputs.new ≡ length inputs.old }
    ensures rows { EachLane (λ j lane. lane_words j inputs.new ≡ lane.bench.row) benches.now }
{
    for place in 0..inputs.len() {
        inputs[place] = inputs_at(benches, place);
    }
}

/// Evaluates the present cycle of each lane with what its bench sets.
pub(crate) fn step(lanes: &mut Lanes, benches: &[LaneBench], inputs: &mut [LaneVal])
    requires count { length benches.now ≡ 8 }
    requires inputs { length inputs.old ≡ length (input_widths lanes.old.netlist.ports) }
    requires rows { EachLane (λ j lane. AreInputs lanes.old.netlist lane.bench.row) benches.now }
    ensures inputs { length inputs.new ≡ length inputs.old }
    ensures netlist { lanes.new.netlist ≡ lanes.old.netlist }
    ensures stepped { lanes.new.stepped ≡ true }
    ensures lanes { EachLane (λ j lane. IsStepWith (lane_of lanes.old j) (lane_of lanes.new j) lane.bench.row) benches.now }
{
    take_rows(benches, inputs);
    lanes.step(inputs);
}
