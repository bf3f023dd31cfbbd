//! All components of a kind, one after another.

ghost use Rattle.std.specs.Prelude.{◌≡◌, ℕ, ◌+◌, ◌*◌, ◌<◌, ◌≤◌, ◌^◌, true, length, flat_map, slice_get, Some};
ghost use Rattle.std.specs.Bool.{OnTrue, OnFalse};
ghost use Rattle.av_files.specs.Outside.{Rose, with_more};
ghost use Rattle.port_rows.specs.Levels.{AllFit, set_levels};
ghost use Rattle.trace_lines.specs.Sums.{with_counts};
ghost use Rattle.benches.specs.Counting.{AreFew, HaveRoom, counted_together};
ghost use Rattle.benches.specs.Writing.{text_of, HoldsPart};

use crate::parts::component::Component;
use crate::parts::simulator::Simulator;
use av_files::Sink;
use port_rows::{InputRow, levels_stand};
use trace_lines::Counts;

/// Sets what all of them show in this cycle in a row, which has room for it.
pub fn show_all<C: Component>(components: &[C], row: &mut InputRow)
    requires { AllFit row.old (flat_map C.sets components.now) }
    ensures { row.new ≡ set_levels row.old (flat_map C.sets components.now) }
{
    levels_stand();
    'components: for component in components {
        component.show(row);
    }
}

/// Writes the lines that tell of all of them in the present cycle.
pub fn tell_all<C: Component, K: Sink>(
    components: &[C],
    cycle: u32,
    sim: &Simulator,
    sink: &mut K,
) -> bool
    requires stepped { sim.now.stepped ≡ true }
    requires fits { (k : ℕ) (component : C) → slice_get components.now k ≡ Some component → C.fits component sim.now }
    ensures all { OnTrue result
        (K.held sink.new
        ≡ with_more (K.held sink.old) (text_of (flat_map (λ (c : C). C.tells c sim.now cycle) components.now))) }
    ensures part { OnFalse result
        (HoldsPart (K.held sink.old) (K.held sink.new)
        (text_of (flat_map (λ (c : C). C.tells c sim.now cycle) components.now))) }
    ensures rose { OnFalse result (Rose (K.faults sink.old) (K.faults sink.new)) }
    ensures grows { K.faults sink.old ≤ K.faults sink.new }
    ensures below { K.faults sink.old < 2 ^ 64 → K.faults sink.new < 2 ^ 64 }
{
    'components: for component in components {
        if !component.tell(cycle, sim, sink) {
            return false;
        }
    }
    true
}

/// Ends the present cycle of all of them.
pub fn end_cycle_of_all<C: Component>(components: &mut [C], sim: &Simulator)
    requires stepped { sim.now.stepped ≡ true }
    requires fits { (k : ℕ) (component : C) → slice_get components.old k ≡ Some component → C.fits component sim.now }
    ensures count { length components.new ≡ length components.old }
    ensures each { (k : ℕ) (before after : C) → slice_get components.old k ≡ Some before → slice_get components.new k ≡ Some after
        → C.follows before sim.now after }
{
    'components: for component in components.iter_mut() {
        component.end_cycle(sim);
    }
}

/// One more component's counts, for which there is room.
fn with_more(counts: Counts, more: Counts) -> Counts
    requires room { HaveRoom 1 counts }
    requires few { AreFew more }
    ensures { result ≡ with_counts counts more }
{
    Counts {
        taken: counts.taken + more.taken,
        answered: counts.answered + more.answered,
        delivered: counts.delivered + more.delivered,
        dropped: counts.dropped + more.dropped,
    }
}

/// Adds what all of them count in the present cycle to counts that have room for it.
pub fn count_all<C: Component>(components: &[C], sim: &Simulator, counts: Counts) -> Counts
    requires stepped { sim.now.stepped ≡ true }
    requires fits { (k : ℕ) (component : C) → slice_get components.now k ≡ Some component → C.fits component sim.now }
    requires room { HaveRoom (length components.now) counts }
    ensures value { result ≡ with_counts counts (counted_together (λ (c : C). C.counts c sim.now) components.now) }
    ensures room { (more : ℕ) → HaveRoom (length components.now + more) counts → HaveRoom more result }
{
    let mut sum = counts;
    'components: for component in components {
        sum = with_more(sum, component.count(sim));
    }
    sum
}
