//! How few beats and words links keep back, and which of them they don't hand on.

ghost use Rattle.std.specs.Prelude.{◌≡◌, ◌<◌, ℕ, suc, List, true, false};
ghost use Rattle.histories.specs.History.{is_raised};
ghost use Rattle.memory_machines.specs.Link.{Target, Port, AreLegalAt, takes};
ghost use Rattle.memory_machines.specs.Machines.{MaySplit};
ghost use Rattle.memory_machines.specs.PartRanks.{JoinsAlike};
ghost use Rattle.memory_links.specs.Cutters.{Reach, CutterState, RunsAsCutter, IsCutPlan, is_sending};
ghost use Rattle.memory_links.specs.Drops.{DropState, RunsAsDrop, IsDropPlan};
ghost use Rattle.memory_links.specs.Gathers.{GatherState, RunsAsGather, IsGatherPlan};
ghost use Rattle.memory_links.specs.Passes.{ShowsWrite, PassesAtOnce, PassesActs, AcceptsActs};
ghost use Rattle.memory_links.specs.Selects.{RunsAsSelect, IsSelectPlan, EnablesFit, takes_read};
ghost use Rattle.memory_links.specs.Splits.{SplitState, RunsAsSplit};

/// A lane selector and a cutter of bursts take a beat below with each one that they accept, and give only words that come from
/// below.
/// So does a splitter, where each beat that it accepts has an operation: it swallows empty write beats that are joined to others.
pub fn links_pass_at_once()
    ensures select { (target : Target) (up down : Port) (many room : ℕ) (offsets : ℕ → List ℕ)
        → IsSelectPlan target up.shape down.shape many
        → 1 < room → RunsAsSelect room up down offsets → (end : ℕ) → PassesAtOnce up down end }
    ensures cut { (reach : Reach) (longest : ℕ) (up down : Port) (state : CutterState) → RunsAsCutter reach longest up down state
        → (end : ℕ) → PassesAtOnce up down end }
    ensures split { (target : Target) (room count : ℕ) (up down : Port) (state : SplitState)
        → MaySplit target up.shape down.shape count
        → RunsAsSplit room up down state → (end : ℕ) → AreLegalAt up end → AcceptsActs target up end → PassesAtOnce up down end }
{
    memory_machines::machines::beat_is_selected();
    memory_machines::machines::beat_is_pieces()
}

/// What drops beats without a lane hands all others on but one that it may keep, and the words that it gives by itself are those
/// of reads without a lane.
pub fn drop_passes_others()
    ensures { (target : Target) (room : ℕ) (up down : Port) (state : DropState) (end : ℕ) → IsDropPlan target up.shape down.shape
        → RunsAsDrop room up down state → AreLegalAt up end → JoinsAlike target up end → PassesActs 1 target up down end }
{}

/// A lane selector shows each write beat that ends its command below as such a beat. A cutter of bursts does while it sends no
/// read by itself.
pub fn links_show_writes()
    ensures select { (target : Target) (up down : Port) (many room : ℕ) (offsets : ℕ → List ℕ)
        → IsSelectPlan target up.shape down.shape many
        → 1 < room → RunsAsSelect room up down offsets → (end : ℕ) → EnablesFit up end → AreLegalAt up end → (c : ℕ) → c < end
        → ShowsWrite up down c }
    ensures cut { (target : Target) (reach : Reach) (longest : ℕ) (up down : Port) (state : CutterState)
        → IsCutPlan reach longest up.shape down.shape → RunsAsCutter reach longest up down state
        → (end : ℕ) → AreLegalAt up end → (c : ℕ) → c < end → is_sending state c ≡ false → ShowsWrite up down c }
{
    memory_machines::machines::beat_is_selected()
}

/// What gathers accepts each beat in the cycle in which it is taken below. Where that is a read, and a word comes in the next
/// cycle, one is given above.
pub fn gather_passes_at_once()
    ensures takes { (target : Target) (up down : Port) (many room : ℕ) (state : GatherState)
        → IsGatherPlan target up.shape down.shape many
        → RunsAsGather room up down state → (c : ℕ) → takes down c ≡ takes up c }
    ensures gives { (room : ℕ) (up down : Port) (state : GatherState) → RunsAsGather room up down state
        → (c : ℕ) → takes_read up c ≡ true → is_raised (down.answers.valid (suc c)) ≡ true
        → is_raised (up.answers.valid (suc c)) ≡ true }
{
    memory_machines::machines::beat_is_selected()
}
