//! What keeps beats without an enabled lane from an agent without byte enables.

ghost use Rattle.std.specs.Prelude.{◌<◌, ◌≡◌, ℕ, true, false, IsTrue};
ghost use Rattle.histories.specs.History.{is_raised};
ghost use Rattle.memory_machines.specs.Link.{Target, Port, AreLegalAt, AnswersAreOwed, marked_at, operations_in, is_nonempty};
ghost use Rattle.memory_machines.specs.Straight.{shows_plain};
ghost use Rattle.memory_machines.specs.Lines.{HasLanes, HandsOn};
ghost use Rattle.memory_machines.specs.PartRanks.{JoinsAlike};
ghost use Rattle.memory_links.specs.Links.{IsLink, IsStraightLink, OwesNothingBelow};
ghost use Rattle.memory_links.specs.InStep.{GoesInStep};
ghost use Rattle.memory_links.specs.Drops.{DropState, RunsAsDrop, IsDropPlan, drop_form};

/// Below it the commands are legal, each beat has an operation, and no tags and no kinds are made.
pub fn drop_brings_lanes()
    ensures legal { (target : Target) (room : ℕ) (up down : Port) (state : DropState) (end : ℕ)
        → IsDropPlan target up.shape down.shape
        → RunsAsDrop room up down state → AreLegalAt up end → AreLegalAt down end }
    ensures lanes { (target : Target) (room : ℕ) (up down : Port) (state : DropState) (end : ℕ)
        → IsDropPlan target up.shape down.shape
        → RunsAsDrop room up down state → AreLegalAt up end → HasLanes target down end }
    ensures tags { (target : Target) (room : ℕ) (up down : Port) (state : DropState) (end : ℕ)
        → IsDropPlan target up.shape down.shape
        → RunsAsDrop room up down state → AreLegalAt up end → HandsOn up down end }
{}

/// A word of its own never comes together with one from below, each word above is owed, and where nothing is owed above, nothing
/// is owed below.
pub fn drop_owes_its_words()
    ensures apart { (target : Target) (room : ℕ) (up down : Port) (state : DropState) (end : ℕ)
        → IsDropPlan target up.shape down.shape
        → RunsAsDrop room up down state → AreLegalAt up end → AnswersAreOwed down end
        → (c : ℕ) → c < end → state.own c ≡ true → is_raised (down.answers.valid c) ≡ false }
    ensures owed { (target : Target) (room : ℕ) (up down : Port) (state : DropState) (end : ℕ)
        → IsDropPlan target up.shape down.shape
        → RunsAsDrop room up down state → AreLegalAt up end → AnswersAreOwed down end → AnswersAreOwed up end }
    ensures quiet { (target : Target) (room : ℕ) (up down : Port) (state : DropState) (end : ℕ)
        → IsDropPlan target up.shape down.shape
        → RunsAsDrop room up down state → OwesNothingBelow up down end }
{}

/// It keeps all that a link promises where joined commands above are alike, as they are behind a route. At least one read may be
/// under way.
pub fn drop_is_a_link()
    ensures { (target : Target) (room : ℕ) (up down : Port) (state : DropState) (end : ℕ) → IsDropPlan target up.shape down.shape
        → 0 < room → RunsAsDrop room up down state → JoinsAlike target up end → IsLink (drop_form target) up down end }
{
    memory_machines::wires::wire_is_a_row()
}

/// There it is straight and goes in step, and it shows a read, and a write of one beat, in its own cycle once all earlier ones
/// are taken and answered.
/// A write that another may follow is kept, so of joined writes nothing is said.
pub fn drop_is_straight()
    ensures straight { (target : Target) (room : ℕ) (up down : Port) (state : DropState) (end : ℕ)
        → IsDropPlan target up.shape down.shape
        → 0 < room → RunsAsDrop room up down state → JoinsAlike target up end → (few : ℕ)
        → IsStraightLink few false false target up down end }
    ensures step { (target : Target) (room : ℕ) (up down : Port) (state : DropState) (end : ℕ)
        → IsDropPlan target up.shape down.shape
        → 0 < room → RunsAsDrop room up down state → JoinsAlike target up end → AreLegalAt up end → AnswersAreOwed down end
        → GoesInStep false target up down end }
{}

/// Where the words are those of the agent, each plain command has an operation.
pub fn plain_commands_act()
    ensures { (target : Target) (port : Port) (c : ℕ) → 0 < port.shape.word_bytes
        → target.shape.word_bytes ≡ port.shape.word_bytes
        → IsTrue (shows_plain port c) → IsTrue (is_nonempty (operations_in target port.shape (marked_at port c))) }
{}
