//! Modules that are run.

ghost use Rattle.std.specs.Prelude.{◌≡◌, ◌<◌, ◌≤◌, true};

use crate::inputs::{Inputs, Random};
use av_base::{NoMemory, Val};
use cycle_sim::Sim;
use lane_sim::Lanes;
use lane_sim::planes::LaneVal;
use netlist::Module;
use std::alloc::Global;

/// Where a plain simulator and the lanes have different values, if they do.
pub(crate) enum Answer {
    Same,
    Differ { cycle: u32, lane: u8, net: u32 },
    Unfit,
}

fn step_lanes(lanes: &mut Lanes, inputs: &[LaneVal]) -> bool
    ensures { result ≡ true → lanes.new.stepped ≡ true }
{
    if lanes.fits(inputs) {
        lanes.step(inputs);
        return true;
    }
    false
}

fn step_plain(sim: &mut Sim, inputs: &[Val]) -> bool
    ensures { result ≡ true → sim.new.stepped ≡ true }
{
    if sim.fits(inputs) {
        sim.step(inputs);
        return true;
    }
    false
}

fn advance_plain(sim: &mut Sim) {
    if sim.is_stepped() {
        sim.advance();
    }
}

/// The first net that a plain simulator has otherwise than a lane.
fn difference(lanes: &Lanes, lane: u8, sim: &Sim) -> Option<u32> {
    if !lanes.is_stepped() || !sim.is_stepped() || lane >= 8 {
        return Some(0);
    }
    let count = lanes.module().net_count().min(sim.module().net_count());
    for net in 0..count {
        if lanes.value(net, lane) != sim.value(net) {
            return Some(net);
        }
    }
    None
}

/// Runs both, and compares each net of each lane in each cycle.
pub(crate) fn compare(
    alloc: Global,
    lanes: &mut Lanes,
    sims: &mut [Sim],
    cycles: u32,
) -> Result<Answer, NoMemory> {
    let mut random = Random::new(1);
    let mut inputs = Inputs::new(alloc)?;
    for cycle in 0..cycles {
        inputs.draw(&mut random, lanes.module().ports())?;
        if !step_lanes(lanes, inputs.lanes.as_slice()) {
            return Ok(Answer::Unfit);
        }
        for (lane, (sim, plain)) in sims.iter_mut().zip(inputs.plain.iter()).enumerate() {
            if !step_plain(sim, plain.as_slice()) {
                return Ok(Answer::Unfit);
            }
            let lane = (lane % 8) as u8;
            if let Some(net) = difference(lanes, lane, sim) {
                return Ok(Answer::Differ { cycle, lane, net });
            }
            advance_plain(sim);
        }
        if lanes.is_stepped() {
            lanes.advance();
        }
    }
    Ok(Answer::Same)
}

/// Runs the lanes alone.
pub(crate) fn run_lanes(alloc: Global, lanes: &mut Lanes, cycles: u32) -> Result<bool, NoMemory> {
    let mut random = Random::new(1);
    let mut inputs = Inputs::new(alloc)?;
    for _ in 0..cycles {
        inputs.draw(&mut random, lanes.module().ports())?;
        if !step_lanes(lanes, inputs.lanes.as_slice()) {
            return Ok(false);
        }
        if lanes.is_stepped() {
            lanes.advance();
        }
    }
    Ok(true)
}

/// Runs the plain simulators alone.
pub(crate) fn run_plain(alloc: Global, sims: &mut [Sim], cycles: u32) -> Result<bool, NoMemory> {
    let mut random = Random::new(1);
    let mut inputs = Inputs::new(alloc)?;
    for _ in 0..cycles {
        if let Some(first) = sims.first() {
            inputs.draw(&mut random, first.module().ports())?;
        }
        for (sim, plain) in sims.iter_mut().zip(inputs.plain.iter()) {
            if !step_plain(sim, plain.as_slice()) {
                return Ok(false);
            }
            advance_plain(sim);
        }
    }
    Ok(true)
}
