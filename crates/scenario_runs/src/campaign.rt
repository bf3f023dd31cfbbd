//! Campaigns: eight drawn scenarios on one module, and the lines that tell of them.

ghost use Rattle.std.specs.Prelude.{◌≡◌, ◌+◌, ◌<◌, ◌≤◌, ◌^◌, ◌++◌, ℕ, All, length, slice_get, Some, IfOk, IfErr, OnErr};
ghost use Rattle.interconnect.specs.Interconnect.{IsInterconnect};
ghost use Rattle.port_tables.specs.PortMaps.{AreTold};
ghost use Rattle.scenario_tables.specs.declared.scenario.Scenario.{Scenario as Stated};
ghost use Rattle.scenario_tables.specs.Scenarios.{IsScenario};
ghost use Rattle.answer_lines.specs.declared.exit.Exit.TheVariants.{NoMemory as WantOfMemory};
ghost use Rattle.system_plan.specs.Plans.{IsCause};
ghost use Rattle.simulations.specs.Counted.{AreCountedRuns};
ghost use Rattle.scenario_runs.specs.Campaigns.{AreUnstepped, CanRun, EndsCampaign, IsCampaign, campaign_end, campaign_text, lane_line, lane_scenarios};

use crate::read_back::built_module;
use answer_lines::Exit;
use arrayvec::ArrayVec;
use av_base::lines::Line;
use av_base::{Bytes, NoMemory};
use av_files::{Sink, put_all};
use drawn_scenarios::draw_scenario;
use interconnect::{Built, PortMap};
use lane_sim::Lanes;
use link_rules::Plan;
use scenario_tables::Scenario;
use simulations::campaigns::count_lanes;
use std::alloc::Global;
use system_plan::{Refusal, plan_of};
use trace_lines::Counts;

/// For how many cycles the scenarios are drawn.
const CYCLES: u32 = 256;

/// The lanes of a plan's module, before their first cycle, where the module's ports stand, and the number of the campaign.
#[derive(Drop)]
pub struct Campaign {
    pub plan: Plan,
    pub ports: PortMap,
    pub lanes: Lanes,
    pub number: u32,
}

/// The campaign of a number on the module of a plan.
fn campaign_of(alloc: Global, plan: Plan, number: u32) -> Result<Campaign, NoMemory>
    ensures plan { IfOk result (λ campaign. campaign.plan ≡ plan) }
    ensures number { IfOk result (λ campaign. campaign.number ≡ number) }
    ensures can_run { IfOk result CanRun }
{
    let Built { module, ports } = built_module(alloc, &plan)?;
    let lanes = Lanes::new(alloc, module)?;
    Ok(Campaign {
        plan,
        ports,
        lanes,
        number,
    })
}

/// The campaign of a number on the system that files state, of which the first is the system file.
pub fn prepare_campaign(alloc: Global, files: &[Bytes], number: u32) -> Result<Campaign, Refusal>
    requires some { 1 ≤ length files.now }
    requires few { length files.now ≤ 64 }
    requires short { All (λ bytes. length bytes < 2 ^ 31) files.now }
    ensures campaign { IfOk result (IsCampaign files.now number) }
    ensures refused { IfErr result (IsCause files.now) }
{
    let plan = plan_of(alloc, files)?;
    match campaign_of(alloc, plan, number) {
        Ok(campaign) => Ok(campaign),
        Err(_) => Err(Refusal::NoMemory),
    }
}

/// What is drawn for the eight lanes of a number.
fn draw_scenarios(alloc: Global, plan: &Plan, number: u32) -> Result<Vec<Scenario>, NoMemory>
    ensures drawn { IfOk result (λ scenarios. scenarios.items ≡ lane_scenarios plan.now number) }
    ensures fit { IfOk result (λ scenarios. (j : ℕ) (scenario : Stated) → slice_get scenarios.items j ≡ Some scenario
        → IsScenario plan.now.system scenario) }
{
    let mut scenarios = Vec::new(alloc);
    for lane in 0..8 {
        let scenario = draw_scenario(alloc, plan, number, lane, CYCLES)?;
        scenarios.push(scenario)?;
    }
    Ok(scenarios)
}

/// Runs what is drawn for the eight lanes of a number.
fn counts_of(
    alloc: Global,
    lanes: &mut Lanes,
    plan: &Plan,
    ports: &PortMap,
    number: u32,
) -> Result<[Counts; 8], NoMemory>
    requires module { IsInterconnect plan.now lanes.old.netlist }
    requires unstepped { AreUnstepped lanes.old }
    requires ports { AreTold plan.now.system ports.now }
    ensures netlist { lanes.new.netlist ≡ lanes.old.netlist }
    ensures counted { IfOk result (AreCountedRuns plan.now (lane_scenarios plan.now number) lanes.new) }
    ensures nothing { OnErr result (lanes.new ≡ lanes.old) }
{
    let scenarios = draw_scenarios(alloc, plan, number)?;
    count_lanes(alloc, lanes, plan, ports, scenarios.as_slice(), CYCLES)
}

/// The line of a lane.
fn lane_line(lane: u8, counts: &Counts) -> Line
    ensures text { result ≡ lane_line lane counts.now }
    ensures short { length result ≤ 200 }
{
    let mut line = Line::new();
    line.put_part(b"lane ", u64::from(lane));
    line.put_part(b" taken ", counts.taken);
    line.put_part(b" answered ", counts.answered);
    line.put_part(b" delivered ", counts.delivered);
    line.put_part(b" dropped ", counts.dropped);
    line.put(b"\n");
    line
}

/// The last line.
fn end_line(number: u32) -> Line
    ensures text { result ≡ campaign_end number }
    ensures short { length result ≤ 200 }
{
    let mut line = Line::new();
    line.put_part(b"end campaign ", u64::from(number));
    line.put(b"\n");
    line
}

fn put_line(text: &mut ArrayVec<u8, 2048>, line: &Line)
    requires { length text.old.items + length line.now ≤ 2048 }
    ensures { text.new.items ≡ text.old.items ++ line.now }
{
    let done = text.try_extend_from_slice(line.as_slice()).is_ok();
    prove!(done);
}

/// The text of a campaign. It takes no memory.
fn campaign_text(number: u32, counts: &[Counts]) -> ArrayVec<u8, 2048>
    requires { length counts.now ≡ 8 }
    ensures { result.items ≡ campaign_text number counts.now }
{
    let mut text = ArrayVec::new();
    for lane in 0..8u8 {
        put_line(&mut text, &lane_line(lane, &counts[lane as usize]));
    }
    put_line(&mut text, &end_line(number));
    text
}

/// Runs lanes that have not stepped, each for 256 cycles on the scenario that is drawn for it and this number, and writes the
/// lines that tell of them:
/// `Done`, or `WriteFault` where they could not be written whole. At `NoMemory` no lane has stepped and nothing is written.
pub fn campaign_module<K: Sink>(
    alloc: Global,
    lanes: &mut Lanes,
    plan: &Plan,
    ports: &PortMap,
    number: u32,
    sink: &mut K,
) -> Exit
    requires module { IsInterconnect plan.now lanes.old.netlist }
    requires unstepped { AreUnstepped lanes.old }
    requires ports { AreTold plan.now.system ports.now }
    ensures netlist { lanes.new.netlist ≡ lanes.old.netlist }
    ensures ends { EndsCampaign plan.now number lanes.new (K.held sink.old) (K.held sink.new) (K.faults sink.old)
        (K.faults sink.new) result }
    ensures lanes_stand { result ≡ WantOfMemory → lanes.new ≡ lanes.old }
    ensures nothing { result ≡ WantOfMemory → sink.new ≡ sink.old }
    ensures grows { K.faults sink.old ≤ K.faults sink.new }
    ensures below { K.faults sink.old < 2 ^ 64 → K.faults sink.new < 2 ^ 64 }
{
    let Ok(counts) = counts_of(alloc, lanes, plan, ports, number) else {
        return Exit::NoMemory;
    };
    if put_all(sink, campaign_text(number, &counts).as_slice()) {
        Exit::Done
    } else {
        Exit::WriteFault
    }
}
