//! What holds of each netlist that has a route. The function does nothing; its contract is the law.

ghost use Rattle.std.specs.Prelude.{◌≡◌, ℕ, List};
ghost use Rattle.netlist.specs.Netlists.{Netlist};
ghost use Rattle.netlist.specs.Runs.{Cycle, IsValuation};
ghost use Rattle.command_nets.specs.declared.nets.CommandNets.{CommandNets};
ghost use Rattle.command_nets.specs.Nets.{ShowSame};
ghost use Rattle.memory_runs.specs.declared.sides.route.Route.{Route};
ghost use Rattle.mm_route.specs.declared.route.HeldRoute.{HeldRoute};
ghost use Rattle.mm_route.specs.Forward.{owns, RouteForward};
ghost use Rattle.mm_route.specs.Machine.{ShowAllSame};

/// What is shown below in a cycle doesn't depend on the waits or the answers of that cycle: two valuations with one state of the
/// route and the same command above have the same commands below.
pub fn route_ignores_answers()
    ensures { (entries : List Route) (host : ℕ) (command : CommandNets) (commands : List CommandNets) (held : HeldRoute)
        (netlist : Netlist)
        → RouteForward entries host command commands held netlist
        → (one other : Cycle) → IsValuation netlist one → IsValuation netlist other
        → ((n : ℕ) → owns held n → one.net n ≡ other.net n) → ShowSame command one other → ShowAllSame commands one other }
{}
