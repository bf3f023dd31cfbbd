ghost use Rattle.std.specs.Prelude.{◌≡◌, ◌<◌, ◌≤◌, ℕ, length, slice_index_or};
ghost use Rattle.av_base.specs.Word.{word};
ghost use Rattle.cycle_sim.specs.Sims.{SimValue};
ghost use Rattle.benches.specs.Counting.{HaveRoom};
ghost use Rattle.simulations.specs.Cycles.{HasCycleLeft, IsAsked, IsTold};
ghost use Rattle.simulations.specs.Value.{value_with};
ghost use Rattle.simulations.specs.Phases.{HasShown, HasAnswered, HasEnded};

use crate::Bench;
use av_base::Val;
use benches::parts::Simulator;
use trace_lines::Counts;

/// The bench of a lane, and what was counted of it.
#[derive(Drop)]
pub struct LaneBench<'a> {
    pub(crate) bench: Bench<'a>,
    pub(crate) counts: Counts,
}

impl LaneBench<'_> {
    /// For how many inputs it sets values.
    pub(crate) fn input_count(&self) -> usize
        ensures { result ≡ length self.now.bench.row }
    {
        self.bench.row().len()
    }

    /// What it sets at this place among the inputs.
    pub(crate) fn input(&self, place: usize) -> Val
        requires { place < length self.now.bench.row }
        ensures { result ≡ slice_index_or self.now.bench.row place (word 0 0) }
    {
        self.bench.row()[place]
    }

    /// Sets what the components show before any command is known.
    pub(crate) fn show(&mut self)
        requires { (sim : SimValue) × HasCycleLeft (value_with sim self.old.bench) }
        ensures { HasShown self.old self.new }
    {
        self.bench.show();
    }

    /// Sets the words of agents that give them in the cycle that asks.
    pub(crate) fn answer(&mut self, sim: &Simulator)
        requires { IsAsked (value_with sim.now self.old.bench) }
        ensures { HasAnswered sim.now self.old self.new }
    {
        self.bench.answer(sim);
    }

    /// Counts what is done in the present cycle, and ends it.
    pub(crate) fn end_cycle(&mut self, sim: &Simulator)
        requires told { IsTold (value_with sim.now self.old.bench) }
        requires room { HaveRoom 64 self.old.counts }
        ensures { HasEnded sim.now self.old self.new }
    {
        self.counts = self.bench.count(sim, self.counts);
        self.bench.end_cycle(sim);
    }
}
