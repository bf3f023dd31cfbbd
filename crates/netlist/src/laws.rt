//! What holds of each run of each netlist. The functions do nothing; their contracts are the laws.

ghost use Rattle.std.specs.Prelude.{◌≡◌, ℕ, ◌<◌, ◌≤◌, slice_get, Some};
ghost use Rattle.netlist.specs.Netlists.{Netlist, IsWellMade, IsInputPort, driver_of, input_net};
ghost use Rattle.netlist.specs.declared.line.PortLine.{PortLine};
ghost use Rattle.netlist.specs.Runs.{Run, Cycle, IsRun, IsValuation, InputsFit, AlwaysFit, StateFits, WordsFit, SameInputs, SameState, SameNets, Always, HasValuation, HasRun, GoesOn};
ghost use Rattle.netlist.specs.Longer.{Keeps, Extends};
ghost use Rattle.netlist.specs.Signals.{port_net, port_value, signal};

/// Any inputs and first contents, each within its width, have a run of every length.
pub fn has_run()
    ensures { (netlist : Netlist) → IsWellMade netlist → (inputs : ℕ → ℕ → ℕ) (contents : ℕ → ℕ → ℕ) (cycles : ℕ)
        → AlwaysFit netlist.ports inputs cycles → WordsFit netlist.memories contents → HasRun netlist inputs contents cycles }
{}

/// Any inputs and state, each within its width, have a valuation.
pub fn has_valuation()
    ensures { (netlist : Netlist) → IsWellMade netlist → (given : Cycle) → InputsFit netlist.ports given.input
        → StateFits netlist given → HasValuation netlist given }
{}

/// And no second one: two valuations with equal inputs and state agree on every net.
pub fn agree()
    ensures { (netlist : Netlist) → IsWellMade netlist → (x y : Cycle) → IsValuation netlist x → IsValuation netlist y
        → SameInputs netlist x y → SameState netlist x y → SameNets netlist x y }
{}

/// The first cycles of a run are a run.
pub fn prefix()
    ensures { (netlist : Netlist) (run : Run) (cycles fewer : ℕ) → IsRun netlist run cycles → fewer ≤ cycles
        → IsRun netlist run fewer }
{}

/// Each run of so many cycles is the beginning of an endless one, in inputs, nets and words.
pub fn goes_on()
    ensures { (netlist : Netlist) → IsWellMade netlist → (run : Run) (cycles : ℕ) → IsRun netlist run cycles
        → GoesOn netlist run cycles }
{}

/// A run of a netlist that keeps another is a run of the other, and a valuation one of the other.
pub fn keeps()
    ensures extends { (old new : Netlist) → Keeps old new → Extends old new }
    ensures chain { (old middle new : Netlist) → Keeps old middle → Keeps middle new → Keeps old new }
{}

/// What stands at a port, by its number and by its name.
pub fn signals()
    ensures output { (netlist : Netlist) (k n : ℕ) → driver_of netlist k ≡ Some n → (run : Run) (c : ℕ)
        → port_value netlist run c k ≡ run.net c n }
    ensures input { (netlist : Netlist) → IsWellMade netlist → (k w : ℕ) → IsInputPort netlist.ports k w
        → Always netlist (λ cycle. cycle.net (port_net netlist k) ≡ cycle.input k) }
    ensures input_net { (netlist : Netlist) → IsWellMade netlist → (k w : ℕ) → IsInputPort netlist.ports k w
        → Always netlist (λ cycle. cycle.net (input_net netlist.ports k) ≡ cycle.input k) }
    ensures named { (netlist : Netlist) → IsWellMade netlist → (k : ℕ) (port : PortLine) → slice_get netlist.ports k ≡ Some port
        → (run : Run) → signal netlist run port.name ≡ Some (λ c. port_value netlist run c k) }
{}
