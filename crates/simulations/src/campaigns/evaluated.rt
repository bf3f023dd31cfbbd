//! A cycle of eight lanes.

ghost use Rattle.std.specs.Prelude.{◌≡◌, ◌+◌, ◌<◌, ℕ, List, length, true};
ghost use Rattle.cycle_sim.specs.Sims.{input_widths};
ghost use Rattle.link_rules.specs.Plans.{PlanTable};
ghost use Rattle.scenario_tables.specs.declared.scenario.Scenario.{Scenario};
ghost use Rattle.simulations.specs.Cycles.{HasCycleLeft, IsAsked};
ghost use Rattle.simulations.specs.Lanes.{EachBecomes, EachLane, LanesSoFar, value_in};
ghost use Rattle.simulations.specs.Phases.{IsEvaluatedFrom, IsShownFrom, IsAnsweredFrom};

use crate::campaigns::all::{answer_all, any_gives_at_once, end_all, show_all};
use crate::campaigns::inputs::step;
use crate::campaigns::lane_bench::LaneBench;
use crate::{answers_are_evaluated, counts_go_on, first_steps_are_shown};
use lane_sim::Lanes;
use lane_sim::planes::LaneVal;

/// Evaluates the present cycle of each lane with what the components show before any command is known.
fn show(lanes: &mut Lanes, benches: &mut [LaneBench], inputs: &mut [LaneVal])
    requires count { length benches.old ≡ 8 }
    requires inputs { length inputs.old ≡ length (input_widths lanes.old.netlist.ports) }
    requires left { EachLane (λ j lane. HasCycleLeft (value_in lanes.old j lane)) benches.old }
    ensures count { length benches.new ≡ 8 }
    ensures inputs { length inputs.new ≡ length inputs.old }
    ensures netlist { lanes.new.netlist ≡ lanes.old.netlist }
    ensures stepped { lanes.new.stepped ≡ true }
    ensures each { EachBecomes (λ j before after. IsShownFrom (value_in lanes.old j before)
        (value_in lanes.new j after)) benches.old benches.new }
    ensures counts { EachBecomes (λ j before after. after.counts ≡ before.counts) benches.old benches.new }
{
    first_steps_are_shown();
    show_all(benches);
    step(lanes, benches, inputs);
}

/// Evaluates it again, now that the commands are known, with the words of agents that give them in the cycle that asks.
fn answer(lanes: &mut Lanes, benches: &mut [LaneBench], inputs: &mut [LaneVal])
    requires count { length benches.old ≡ 8 }
    requires inputs { length inputs.old ≡ length (input_widths lanes.old.netlist.ports) }
    requires asked { EachLane (λ j lane. IsAsked (value_in lanes.old j lane)) benches.old }
    ensures count { length benches.new ≡ 8 }
    ensures inputs { length inputs.new ≡ length inputs.old }
    ensures netlist { lanes.new.netlist ≡ lanes.old.netlist }
    ensures stepped { lanes.new.stepped ≡ true }
    ensures each { EachBecomes (λ j before after. IsAnsweredFrom (value_in lanes.old j before)
        (value_in lanes.new j after)) benches.old benches.new }
    ensures counts { EachBecomes (λ j before after. after.counts ≡ before.counts) benches.old benches.new }
{
    answers_are_evaluated();
    answer_all(benches, lanes);
    step(lanes, benches, inputs);
}

/// Evaluates the present cycle of each lane: each component does in it what its script says.
fn evaluate(lanes: &mut Lanes, benches: &mut [LaneBench], inputs: &mut [LaneVal])
    requires count { length benches.old ≡ 8 }
    requires inputs { length inputs.old ≡ length (input_widths lanes.old.netlist.ports) }
    requires left { EachLane (λ j lane. HasCycleLeft (value_in lanes.old j lane)) benches.old }
    ensures count { length benches.new ≡ 8 }
    ensures inputs { length inputs.new ≡ length inputs.old }
    ensures netlist { lanes.new.netlist ≡ lanes.old.netlist }
    ensures stepped { lanes.new.stepped ≡ true }
    ensures each { EachBecomes (λ j before after. IsEvaluatedFrom (value_in lanes.old j before)
        (value_in lanes.new j after)) benches.old benches.new }
    ensures counts { EachBecomes (λ j before after. after.counts ≡ before.counts) benches.old benches.new }
{
    answers_are_evaluated();
    show(lanes, benches, inputs);
    if any_gives_at_once(benches) {
        answer(lanes, benches, inputs);
    }
}

/// Runs all lanes for a cycle, and counts what is done in it.
pub(crate) fn run_cycle(lanes: &mut Lanes, benches: &mut [LaneBench], inputs: &mut [LaneVal])
    requires inputs { length inputs.old ≡ length (input_widths lanes.old.netlist.ports) }
    requires so_far { (plan : PlanTable) × (scenarios : List Scenario) × (cycles : ℕ) × (c : ℕ) × (c < cycles)
        × LanesSoFar plan scenarios cycles c lanes.old benches.old }
    ensures inputs { length inputs.new ≡ length inputs.old }
    ensures netlist { lanes.new.netlist ≡ lanes.old.netlist }
    ensures more { (plan : PlanTable) (scenarios : List Scenario) (cycles c : ℕ) → c < cycles
        → LanesSoFar plan scenarios cycles c lanes.old benches.old
        → LanesSoFar plan scenarios cycles (c + 1) lanes.new benches.new }
{
    counts_go_on();
    evaluate(lanes, benches, inputs);
    end_all(benches, lanes);
    lanes.advance();
}
