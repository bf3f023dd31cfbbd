//! How links begin below what waits above, so that rows of them are prompt.

ghost use Rattle.std.specs.Prelude.{◌≡◌, ◌<◌, ℕ, Bool, List, false, IsTrue};
ghost use Rattle.memory_runs.specs.Commands.{shows};
ghost use Rattle.memory_machines.specs.Link.{Target, Port, AreLegalAt, AnswersAreOwed, marked_at};
ghost use Rattle.memory_machines.specs.Machines.{MaySplit};
ghost use Rattle.memory_machines.specs.PartRanks.{JoinsAlike};
ghost use Rattle.memory_machines.specs.Straight.{IsShownPromptly, may_be_prompt};
ghost use Rattle.memory_links.specs.Begins.{BeginsBelow};
ghost use Rattle.memory_links.specs.Cutters.{Reach, CutterState, RunsAsCutter, IsCutPlan};
ghost use Rattle.memory_links.specs.Drops.{DropState, RunsAsDrop, IsDropPlan};
ghost use Rattle.memory_links.specs.Selects.{RunsAsSelect, IsSelectPlan, EnablesFit};
ghost use Rattle.memory_links.specs.Splits.{SplitState, RunsAsSplit};

/// A link, or a row of links, that begins below what waits above shows first beats promptly.
pub fn what_begins_is_prompt()
    ensures { (few : ℕ) (may_burst : Bool) (target : Target) (up down : Port) (end : ℕ) → AreLegalAt up end → AreLegalAt down end
        → BeginsBelow few may_burst target up down end → IsShownPromptly few may_burst target up down end }
{}

/// Where each write that is shown above ends its command, what begins single writes below begins all. Where commands have one
/// beat each transfer ends.
pub fn single_writes_begin()
    ensures begins { (few : ℕ) (may_burst : Bool) (target : Target) (up down : Port) (end : ℕ)
        → ((c : ℕ) → c < end → IsTrue (shows up.commands.signals c) → IsTrue (may_be_prompt false (marked_at up c)))
        → BeginsBelow few false target up down end → BeginsBelow few may_burst target up down end }
    ensures ends { (port : Port) (end : ℕ) → AreLegalAt port end → port.shape.burst_bits ≡ 1
        → (c : ℕ) → c < end → IsTrue (shows port.commands.signals c) → IsTrue (marked_at port c).transfer.ends }
{}

/// A wire, a lane selector and a splitter begin below what waits above, in its own cycle. So does what drops beats, but for a
/// write that another may follow, which it keeps.
pub fn links_begin_below()
    ensures pass { (few : ℕ) (may_burst : Bool) (target : Target) (port : Port) (end : ℕ) → AreLegalAt port end
        → BeginsBelow few may_burst target port port end }
    ensures select { (target : Target) (up down : Port) (many room : ℕ) (offsets : ℕ → List ℕ) (end : ℕ)
        → IsSelectPlan target up.shape down.shape many
        → 1 < room → RunsAsSelect room up down offsets → EnablesFit up end → AreLegalAt up end → AnswersAreOwed down end
        → (few : ℕ) (may_burst : Bool) → BeginsBelow few may_burst target up down end }
    ensures split { (target : Target) (room count : ℕ) (up down : Port) (state : SplitState) (end : ℕ)
        → MaySplit target up.shape down.shape count
        → 0 < room → RunsAsSplit room up down state → AreLegalAt up end → AnswersAreOwed down end → (few : ℕ) (may_burst : Bool)
        → BeginsBelow few may_burst target up down end }
    ensures drop { (target : Target) (room : ℕ) (up down : Port) (state : DropState) (end : ℕ)
        → IsDropPlan target up.shape down.shape
        → 0 < room → RunsAsDrop room up down state → JoinsAlike target up end → AreLegalAt up end → AnswersAreOwed down end
        → (few : ℕ) → BeginsBelow few false target up down end }
{
    memory_machines::machines::beat_is_selected();
    memory_machines::machines::split_carries();
    memory_machines::machines::beat_is_pieces();
    memory_machines::links::link_is_a_row();
    memory_machines::wires::wire_is_a_link()
}

/// A splitter over what drops beats begins a transfer below one cycle later at the latest: a first piece that is kept goes on
/// with the second one.
pub fn split_begins_over_drop()
    ensures { (target : Target) (deep room count : ℕ) (up middle down : Port) (splits : SplitState) (drops : DropState) (end : ℕ)
        → MaySplit target up.shape middle.shape count → 0 < deep → RunsAsSplit deep up middle splits
        → IsDropPlan target middle.shape down.shape → 0 < room → RunsAsDrop room middle down drops → JoinsAlike target up end
        → AreLegalAt up end → AnswersAreOwed down end
        → (few : ℕ) → 0 < few → BeginsBelow few false target up down end }
{
    memory_machines::machines::split_carries();
    memory_machines::machines::beat_is_pieces()
}

/// A cutter of bursts over a link, or a row of links, that begins below what waits above does so with it, in as many cycles.
pub fn cutters_begin_over_links()
    ensures { (target : Target) (reach : Reach) (longest : ℕ) (up middle down : Port) (state : CutterState) (end few : ℕ)
        (may_burst : Bool)
        → IsCutPlan reach longest up.shape middle.shape → RunsAsCutter reach longest up middle state
        → AreLegalAt up end → AnswersAreOwed middle end → BeginsBelow few may_burst target middle down end
        → BeginsBelow few may_burst target up down end }
{}
