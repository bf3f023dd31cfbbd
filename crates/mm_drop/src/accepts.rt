//! Whether what stands above is accepted: taken below, kept, or swallowed.

ghost use Rattle.std.specs.Prelude.{◌≡◌, ◌+◌, ◌^◌, ◌<◌, length, IfOk};
ghost use Rattle.histories.specs.History.{is_raised};
ghost use Rattle.netlist.specs.Runs.{Always};
ghost use Rattle.net_parts.specs.Nets.{IsBit};
ghost use Rattle.net_parts.specs.Growth.{AddsNets};
ghost use Rattle.memory_links.specs.Drops.{accepted};
ghost use Rattle.mm_drop.specs.Nets.{AreStandingNets, now_in};

use crate::shows::StandingNets;
use net_terms::{And, Bit, Bus, IsZero, Mux, Not, Or, Wire};
use netlist::{Builder, Net, NetFault};

/// Whether what stands above is accepted, where `taken` says that a beat is taken below.
#[tactic(auto, using(net_parts::specs::Laws::growing))]
pub(crate) fn accepts(
    builder: &mut Builder,
    now: &StandingNets,
    taken: Net,
) -> Result<Net, NetFault>
    requires now { AreStandingNets builder.old now.now }
    requires taken { IsBit builder.old taken }
    ensures net { IfOk result (λ net. IsBit builder.new net) }
    ensures value { IfOk result (λ net. Always builder.new (λ cycle. is_raised (cycle.net net.number)
        ≡ accepted (now_in cycle now.now) (is_raised (cycle.net taken.number)))) }
    ensures adds { AddsNets 16 builder.old builder.new }
    ensures full { result ≡ Err NetFault.TooManyNets → 2 ^ 20 < length builder.old.lines + 16 }
{
    // a beat that may be kept needs an empty place, and another one goes straight through
    let acting = Mux(
        And(Wire(now.writes), Wire(now.more)),
        Or(Not(Wire(now.holds)), Wire(taken)),
        And(Not(Wire(now.holds)), Wire(taken)),
    );
    // one without a lane is swallowed
    let next = Or(Wire(now.writes), IsZero(Bus(now.reads)));
    let ends = And(Wire(now.holds), Not(Wire(now.more)));
    let swallows = And(next, Or(Not(ends), Wire(taken)));
    And(Wire(now.shown), Mux(Wire(now.acts), acting, swallows)).emit(builder)
}
