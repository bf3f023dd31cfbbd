//! Links between words of different sizes.

ghost use Rattle.std.specs.Prelude.{◌<◌, ℕ, List, false};
ghost use Rattle.memory_machines.specs.Link.{Target, Port, AreLegalAt, AnswersAreOwed, CarriesCommands};
ghost use Rattle.memory_machines.specs.Straight.{GoesStraightThrough};
ghost use Rattle.memory_links.specs.InStep.{GoesInStep};
ghost use Rattle.memory_machines.specs.Lines.{HandsOn};
ghost use Rattle.memory_machines.specs.PartRanks.{HoldsBack};
ghost use Rattle.memory_machines.specs.Machines.{IsExpanderRun, MaySplit, split_parts, parts_sent};
ghost use Rattle.memory_links.specs.Links.{IsLink};
ghost use Rattle.memory_links.specs.Selects.{RunsAsSelect, IsSelectPlan, EnablesFit, select_form};
ghost use Rattle.memory_links.specs.Splits.{SplitState, RunsAsSplit, split_rest, split_form};

/// A lane selector keeps all that a link promises, where at least two reads may be under way in it.
pub fn select_is_a_link()
    ensures { (target : Target) (up down : Port) (many room : ℕ) (offsets : ℕ → List ℕ) (end : ℕ)
        → IsSelectPlan target up.shape down.shape many → 1 < room → RunsAsSelect room up down offsets → EnablesFit up end
        → IsLink (select_form target) up down end }
{
    memory_machines::links::link_is_a_row();
    memory_machines::wires::wire_is_a_link();
    memory_machines::machines::beat_is_selected()
}

/// A splitter sends the pieces of each beat in order and accepts the beat with the last of them, so it carries commands, holds
/// nothing, and makes no tags and no kinds of its own.
pub fn split_carries_commands()
    ensures pieces { (room : ℕ) (up down : Port) (state : SplitState) (end : ℕ) → RunsAsSplit room up down state
        → AreLegalAt up end
        → IsExpanderRun (split_parts up.shape down.shape) up down (parts_sent up down) (split_rest up down state) end }
    ensures commands { (target : Target) (room count : ℕ) (up down : Port) (state : SplitState) (end : ℕ)
        → MaySplit target up.shape down.shape count
        → RunsAsSplit room up down state → AreLegalAt up end → CarriesCommands target 0 up down end }
    ensures back { (target : Target) (room count : ℕ) (up down : Port) (state : SplitState) (end : ℕ)
        → MaySplit target up.shape down.shape count
        → RunsAsSplit room up down state → AreLegalAt up end → HoldsBack 0 target up down end }
    ensures tags { (room : ℕ) (up down : Port) (state : SplitState) (end : ℕ) → RunsAsSplit room up down state → AreLegalAt up end
        → HandsOn up down end }
{
    memory_machines::machines::split_carries()
}

/// A splitter keeps all that a link promises: each word above is gathered from the words of its pieces, with the greatest of
/// their codes, and its rank is 1 while a word is owed below.
pub fn split_is_a_link()
    ensures { (target : Target) (room count : ℕ) (up down : Port) (state : SplitState) (end : ℕ)
        → MaySplit target up.shape down.shape count
        → 0 < room → RunsAsSplit room up down state → IsLink (split_form target) up down end }
{
    memory_machines::machines::split_carries();
    memory_machines::machines::beat_is_pieces()
}

/// Between equal words a splitter sends each beat as one piece, so a plain command goes straight through it once all words of
/// earlier commands are given, and it goes in step.
pub fn split_is_straight()
    ensures straight { (target : Target) (room : ℕ) (up down : Port) (state : SplitState) (end : ℕ)
        → MaySplit target up.shape down.shape 1
        → 0 < room → RunsAsSplit room up down state → AreLegalAt up end → AnswersAreOwed down end
        → GoesStraightThrough (λ c. false) target up down end }
    ensures step { (target : Target) (room : ℕ) (up down : Port) (state : SplitState) (end : ℕ)
        → MaySplit target up.shape down.shape 1
        → 0 < room → RunsAsSplit room up down state → AreLegalAt up end → AnswersAreOwed down end
        → GoesInStep false target up down end }
{
    memory_machines::machines::split_carries();
    memory_machines::machines::beat_is_pieces()
}
