//! What holds of runs that begin with cleared memories. The functions do nothing; their contracts are the laws.

ghost use Rattle.std.specs.Prelude.{ℕ, ◌<◌};
ghost use Rattle.netlist.specs.Netlists.{Netlist, IsModule};
ghost use Rattle.netlist.specs.Runs.{Run, Cycle, cycle_of, Steps, SameInputs, SameState, SameNets};
ghost use Rattle.cycle_sim.specs.Standing.{IsFirst, IsClearedRun};

use netlist::agree;

/// A module has one state to begin with, and one that follows a cycle.
pub fn follow()
    ensures first { (netlist : Netlist) (x y : Cycle) → IsModule netlist → IsFirst netlist x → IsFirst netlist y
        → SameState netlist x y }
    ensures next { (netlist : Netlist) (x y x_next y_next : Cycle) → IsModule netlist → SameNets netlist x y
        → SameState netlist x y → Steps netlist x x_next → Steps netlist y y_next → SameState netlist x_next y_next }
{}

/// And so one run for given inputs: two agree on each net in each cycle.
pub fn one_run()
    ensures { (netlist : Netlist) → IsModule netlist → (x y : Run) (cycles : ℕ) → IsClearedRun netlist x cycles
        → IsClearedRun netlist y cycles
        → ((c : ℕ) → c < cycles → SameInputs netlist (cycle_of x c) (cycle_of y c)) → (c : ℕ) → c < cycles
        → SameNets netlist (cycle_of x c) (cycle_of y c) }
{
    agree();
}
