//! A queue between two stages. Each of the three keeps its own law between the nets of its ends, so what the queue shows is known
//! whatever stands around it.

ghost use Rattle.std.specs.Prelude.{◌≡◌};
ghost use Rattle.netlist.specs.Nets.{NetValue};
ghost use Rattle.netlist.specs.Netlists.{Netlist};
ghost use Rattle.stage_core.specs.declared.beat.BeatNets.{BeatNets};
ghost use Rattle.stage_core.specs.Law.{Stands};
ghost use Rattle.stage_core.specs.Queued.{HasQueue};

use crate::chain::Chain;
use crate::queue::Fifo;
use crate::stage::Stage;

/// Where such stages stand in a netlist, there are nets before the queue and nets behind it, between which it shows ready
/// in each cycle that begins with an empty place.
pub fn queue_is_between<A: Stage, B: Stage>(stages: &Chain<Chain<A, Fifo>, B>)
    ensures { let stage = ⟦<Chain<Chain<A, Fifo>, B> as Stage>⟧ in
        (from to : BeatNets) (ready up : NetValue) (netlist : Netlist)
        → Stands (stage.forward_in stages.now from to) (λ kept. stage.backward_in stages.now kept ready up) netlist
        → HasQueue (A.has_shape stages.now.first.first) stages.now.first.second.depth
        (B.has_shape stages.now.second) netlist from up to ready }
{
    stages.first.first.law();
    stages.second.law();
}
