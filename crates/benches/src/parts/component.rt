ghost use Rattle.std.specs.Prelude.{◌≡◌, ℕ, ◌<◌, ◌≤◌, ◌^◌, List as Sequence, true};
ghost use Rattle.std.specs.Bool.{OnTrue, OnFalse};
ghost use Rattle.av_files.specs.Outside.{Rose, with_more};
ghost use Rattle.cycle_sim.specs.Sims.{SimValue};
ghost use Rattle.port_rows.specs.Levels.{Level as Given, AllFit, set_levels};
ghost use Rattle.trace_lines.specs.declared.counts.Counts.{Counts as Counted};
ghost use Rattle.benches.specs.Counting.{AreFew};
ghost use Rattle.benches.specs.Writing.{text_of, HoldsPart};

use crate::parts::simulator::Simulator;
use av_files::Sink;
use port_rows::InputRow;
use trace_lines::Counts;

/// What stands in for a component at the ports of a module, cycle by cycle.
pub trait Component {
    /// What it sets in the row of this cycle's inputs.
    ghost sets: { Self → Sequence Given };

    /// It can take part in the present cycle of this simulator: the ports that it reads are outputs of its module, as wide as
    /// they are to be, and a further cycle has room.
    ghost fits: { Self → SimValue → Type 0 };

    /// The lines that tell of it in the cycle of this number.
    ghost tells: { Self → SimValue → ℕ → Sequence (Sequence ℕ) };

    /// What it adds to the counts in this cycle.
    ghost counts: { Self → SimValue → Counted };

    /// How it may stand behind this cycle.
    ghost follows: { Self → SimValue → Self → Type 0 };

    /// Sets what it shows in this cycle in a row, which has room for it.
    fn show(&self, row: &mut InputRow)
        requires { AllFit row.old (sets self.now) }
        ensures { row.new ≡ set_levels row.old (sets self.now) };

    /// Writes the lines that tell of it in the present cycle, which has this number.
    fn tell<K: Sink>(&self, cycle: u32, sim: &Simulator, sink: &mut K) -> bool
        requires stepped { sim.now.stepped ≡ true }
        requires fits { fits self.now sim.now }
        ensures all { OnTrue result (K.held sink.new ≡ with_more (K.held sink.old) (text_of (tells self.now sim.now cycle))) }
        ensures part { OnFalse result (HoldsPart (K.held sink.old) (K.held sink.new) (text_of (tells self.now sim.now cycle))) }
        ensures rose { OnFalse result (Rose (K.faults sink.old) (K.faults sink.new)) }
        ensures grows { K.faults sink.old ≤ K.faults sink.new }
        ensures below { K.faults sink.old < 2 ^ 64 → K.faults sink.new < 2 ^ 64 };

    /// What it adds to the counts in the present cycle.
    fn count(&self, sim: &Simulator) -> Counts
        requires stepped { sim.now.stepped ≡ true }
        requires fits { fits self.now sim.now }
        ensures value { result ≡ counts self.now sim.now }
        ensures few { AreFew result };

    /// Ends the present cycle.
    fn end_cycle(&mut self, sim: &Simulator)
        requires stepped { sim.now.stepped ≡ true }
        requires fits { fits self.old sim.now }
        ensures { follows self.old sim.now self.new };
}
