//! What reads a wide word once for all narrow words of it that a read asks, below a cutter at the ends of its words.

ghost use Rattle.std.specs.Prelude.{◌≡◌, ◌<◌, ◌≤◌, ◌*◌, ℕ, Bool, length};
ghost use Rattle.memory_runs.specs.Views.{Shape};
ghost use Rattle.memory_machines.specs.Link.{Target, Port, AreLegalAt, AnswersAreOwed};
ghost use Rattle.memory_machines.specs.Machines.{ShowsFitBeats};
ghost use Rattle.memory_links.specs.Begins.{BeginsBelow};
ghost use Rattle.memory_links.specs.Cutters.{Reach, CutterState, RunsAsCutter, IsCutPlan, IsTouchPlan, reach_words};
ghost use Rattle.memory_links.specs.Gathers.{GatherState, RunsAsGather, IsGatherPlan, LieInWords, gather_form};
ghost use Rattle.memory_links.specs.Links.{IsLink};
ghost use Rattle.memory_links.specs.Selects.{EnablesFit};

/// Cut at the ends of wide words, each read burst lies in one of them, and writes are single beats, whatever waits and
/// whatever is answered.
pub fn touches_lie_in_words()
    ensures plan { (many : ℕ) (up down : Shape) → IsTouchPlan many up down
        → IsCutPlan (reach_words up.word_bytes many) 1 up down }
    ensures lie { (many : ℕ) (up down : Port) (state : CutterState) (end : ℕ) (wide : Shape)
        → IsTouchPlan many up.shape down.shape
        → RunsAsCutter (reach_words up.shape.word_bytes many) 1 up down state
        → ShowsFitBeats up end → EnablesFit up end → wide.word_bytes ≡ many * up.shape.word_bytes → LieInWords down wide end }
{}

/// What gathers keeps all that a link promises, where at least two reads may be under way in it.
pub fn gather_is_a_link()
    ensures { (target : Target) (up down : Port) (many room : ℕ) (state : GatherState) (end : ℕ)
        → IsGatherPlan target up.shape down.shape many
        → 1 < room → RunsAsGather room up down state → LieInWords up down.shape end → IsLink (gather_form target) up down end }
{
    memory_machines::wires::wire_is_a_row();
    memory_machines::machines::beat_is_selected()
}

/// Its registers are bounded in every run, legal or not.
pub fn gather_is_bounded()
    ensures entries { (room : ℕ) (up down : Port) (state : GatherState) → RunsAsGather room up down state → (c : ℕ)
        → length (state.entries c) ≤ room }
    ensures words { (room : ℕ) (up down : Port) (state : GatherState) → RunsAsGather room up down state → (c : ℕ)
        → length (state.words c) ≤ length (state.entries c) }
    ensures given { (room most : ℕ) (up down : Port) (state : GatherState) → RunsAsGather room up down state → 0 < most
        → ((c : ℕ) → up.commands.count c ≤ most)
        → (c : ℕ) → state.given c < most }
{}

/// What it shows below is fit, single beats, as long as all is that is shown above, whatever waits and whatever is answered.
pub fn gather_shows_fit_beats()
    ensures { (target : Target) (up down : Port) (many room : ℕ) (state : GatherState) (end : ℕ)
        → IsGatherPlan target up.shape down.shape many
        → RunsAsGather room up down state → ShowsFitBeats up end → ShowsFitBeats down end }
{
    memory_machines::machines::beat_is_selected()
}

/// It begins below what waits above, in its own cycle. So a cutter over it does, in as many cycles.
pub fn packed_reads_begin()
    ensures gather { (target : Target) (up down : Port) (many room : ℕ) (state : GatherState) (end : ℕ)
        → IsGatherPlan target up.shape down.shape many
        → 0 < room → RunsAsGather room up down state → LieInWords up down.shape end → AreLegalAt up end → AnswersAreOwed down end
        → (few : ℕ) (may_burst : Bool) → BeginsBelow few may_burst target up down end }
    ensures cut { (target : Target) (reach : Reach) (longest : ℕ) (up middle down : Port) (state : CutterState) (end few : ℕ)
        (may_burst : Bool)
        → IsCutPlan reach longest up.shape middle.shape → RunsAsCutter reach longest up middle state
        → AreLegalAt up end → AnswersAreOwed middle end → BeginsBelow few may_burst target middle down end
        → BeginsBelow few may_burst target up down end }
{
    memory_machines::machines::beat_is_selected()
}
