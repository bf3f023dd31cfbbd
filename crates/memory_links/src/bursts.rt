//! Links that cut bursts.

ghost use Rattle.std.specs.Prelude.{ℕ, Bool, false};
ghost use Rattle.memory_machines.specs.Link.{Target, Port, AreLegalAt, AnswersAreOwed};
ghost use Rattle.memory_machines.specs.Lines.{HandsOn};
ghost use Rattle.memory_machines.specs.Machines.{ShowsFitBeats};
ghost use Rattle.memory_links.specs.Links.{IsLink, IsStraightLink};
ghost use Rattle.memory_links.specs.InStep.{GoesInStep};
ghost use Rattle.memory_links.specs.Cutters.{Reach, CutterState, RunsAsCutter, IsCutPlan, cut_form};

/// A cutter of bursts into those that an agent takes, or into single beats, keeps all that a link promises.
pub fn cut_is_a_link()
    ensures { (target : Target) (reach : Reach) (longest : ℕ) (up down : Port) (state : CutterState) (end : ℕ)
        → IsCutPlan reach longest up.shape down.shape
        → RunsAsCutter reach longest up down state → IsLink (cut_form target) up down end }
{
    memory_machines::wires::wire_is_a_row()
}

/// It is prompt, and a plain command goes straight through it once all earlier words are given.
pub fn cut_is_straight()
    ensures { (target : Target) (reach : Reach) (longest : ℕ) (up down : Port) (state : CutterState) (end : ℕ)
        → IsCutPlan reach longest up.shape down.shape
        → RunsAsCutter reach longest up down state → (few : ℕ) (may_burst : Bool)
        → IsStraightLink few false may_burst target up down end }
{}

/// It goes in step: a plain command stays plain, and nothing is taken below before it is accepted.
pub fn cut_goes_in_step()
    ensures { (target : Target) (reach : Reach) (longest : ℕ) (up down : Port) (state : CutterState) (end : ℕ)
        → IsCutPlan reach longest up.shape down.shape
        → RunsAsCutter reach longest up down state → AreLegalAt up end → AnswersAreOwed down end
        → GoesInStep false target up down end }
{}

/// Below it the commands are legal: no burst is longer than may be, and none is cut off. No tags and no kinds are made.
pub fn cut_brings_bursts()
    ensures legal { (reach : Reach) (longest : ℕ) (up down : Port) (state : CutterState) (end : ℕ)
        → IsCutPlan reach longest up.shape down.shape → RunsAsCutter reach longest up down state
        → AreLegalAt up end → AreLegalAt down end }
    ensures tags { (reach : Reach) (longest : ℕ) (up down : Port) (state : CutterState) (end : ℕ)
        → IsCutPlan reach longest up.shape down.shape → RunsAsCutter reach longest up down state
        → AreLegalAt up end → HandsOn up down end }
{}

/// What it shows below is fit as long as all is that is shown above, whatever waits and whatever is answered.
pub fn cut_shows_fit_beats()
    ensures { (reach : Reach) (longest : ℕ) (up down : Port) (state : CutterState) (end : ℕ)
        → IsCutPlan reach longest up.shape down.shape → RunsAsCutter reach longest up down state
        → ShowsFitBeats up end → ShowsFitBeats down end }
{}
