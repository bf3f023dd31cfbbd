//! What holds of each netlist that has an arbiter. The function does nothing; its contract is the law.

ghost use Rattle.std.specs.Prelude.{◌≡◌, ℕ, List};
ghost use Rattle.netlist.specs.Netlists.{Netlist};
ghost use Rattle.netlist.specs.Runs.{Cycle, IsValuation};
ghost use Rattle.command_nets.specs.declared.nets.CommandNets.{CommandNets};
ghost use Rattle.command_nets.specs.Nets.{ShowSame};
ghost use Rattle.mm_arbiter.specs.declared.asker.Asker.{Asker};
ghost use Rattle.mm_arbiter.specs.declared.arbiter.HeldArbiter.{HeldArbiter};
ghost use Rattle.mm_arbiter.specs.Shown.{ShowAllSame};
ghost use Rattle.mm_arbiter.specs.Forward.{owns, ArbiterForward};

/// What is shown below in a cycle doesn't depend on the wait or the answer of that cycle: any two valuations with one state of
/// the arbiter, be it one that no run reaches, and the same commands above show the same on all nets of the command below.
pub fn arbiter_ignores_answers()
    ensures { (askers : List Asker) (commands : List CommandNets) (command : CommandNets) (held : HeldArbiter) (netlist : Netlist)
        → ArbiterForward askers commands command held netlist
        → (one other : Cycle) → IsValuation netlist one → IsValuation netlist other
        → ((n : ℕ) → owns held n → one.net n ≡ other.net n) → ShowAllSame commands one other → ShowSame command one other }
{}
