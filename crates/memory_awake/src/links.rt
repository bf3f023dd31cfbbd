//! How little the links of a row keep back while the port behind their route is still.

ghost use Rattle.std.specs.Prelude.{◌≡◌, ℕ, ◌<◌, ◌≤◌, Bool, List, IsTrue, IsFalse, false};
ghost use Rattle.memory_machines.specs.Lines.{KeepsRow, BringsLanes, HavePlacedLanes, sent_by, target_of};
ghost use Rattle.memory_runs.specs.Order.{host_transfers};
ghost use Rattle.memory_runs.specs.Commands.{shows};
ghost use Rattle.memory_machines.specs.Link.{Target, Port, AreLegalAt, AnswersAreOwed, marked_at};
ghost use Rattle.memory_machines.specs.Machines.{MaySplit};
ghost use Rattle.memory_machines.specs.PartRanks.{JoinsAlike};
ghost use Rattle.memory_machines.specs.Straight.{GoesStraightThrough, IsShownPromptly, may_be_prompt};
ghost use Rattle.memory_links.specs.Cutters.{Reach, CutterState, RunsAsCutter, IsCutPlan};
ghost use Rattle.memory_links.specs.Drops.{DropState, RunsAsDrop, IsDropPlan};
ghost use Rattle.memory_links.specs.Gathers.{GatherState, RunsAsGather, IsGatherPlan, LieInWords};
ghost use Rattle.memory_links.specs.Going.{KeepsGoing};
ghost use Rattle.memory_links.specs.InStep.{GoesInStep};
ghost use Rattle.memory_links.specs.Selects.{RunsAsSelect, IsSelectPlan, EnablesFit};
ghost use Rattle.memory_links.specs.Splits.{SplitState, RunsAsSplit};
ghost use Rattle.memory_runs.specs.Views.{System, Run};
ghost use Rattle.memory_awake.specs.Rows.{IsModestRow, CutsBursts, FitsWords, DropsBeats, IsWired, GathersBelowCut, drops_some, ports_of_three, one_beat_lowest};
ghost use Rattle.memory_awake.specs.Slack.{Slack, Slacks, PassesOn, PassesWhileStill, host_allows, toll};
ghost use Rattle.memory_awake.specs.Ways.{Ways, Standing, Standings};
ghost use Rattle.memory_awake.specs.Still.{StirsAbove, SpentStirs};

/// What passes on in each stretch of cycles does so while any port is still. A lane selector and a cutter of bursts keep nothing
/// back, wherever they stand.
/// A splitter and what gathers keep nothing back while `top` is still, where all that stirs their upper port stirs `top`,
/// which may be that port.
/// What drops beats keeps back one beat, and no word, while `top` is still, where each beat without a lane that stirs its upper
/// port stirs `top`.
pub fn links_pass_while_still()
    ensures any { (slack : Slack) (top up down : Port) (end : ℕ) → PassesOn slack up down end
        → PassesWhileStill slack top up down end }
    ensures select { (target : Target) (top up down : Port) (many room : ℕ) (offsets : ℕ → List ℕ)
        → IsSelectPlan target up.shape down.shape many
        → 1 < room → RunsAsSelect room up down offsets → (end : ℕ)
        → PassesWhileStill (record { hold = 0; kept = 0 }) top up down end }
    ensures cut { (reach : Reach) (longest : ℕ) (top up down : Port) (state : CutterState)
        → RunsAsCutter reach longest up down state
        → (end : ℕ) → PassesWhileStill (record { hold = 0; kept = 0 }) top up down end }
    ensures gather { (target : Target) (top up down : Port) (many room : ℕ) (state : GatherState)
        → IsGatherPlan target up.shape down.shape many
        → RunsAsGather room up down state → (end : ℕ) → StirsAbove top up end
        → PassesWhileStill (record { hold = 0; kept = 0 }) top up down end }
    ensures split { (room : ℕ) (top up down : Port) (state : SplitState) → RunsAsSplit room up down state
        → (end : ℕ) → StirsAbove top up end → PassesWhileStill (record { hold = 0; kept = 0 }) top up down end }
    ensures drop { (room : ℕ) (top up down : Port) (state : DropState) → RunsAsDrop room up down state
        → (end : ℕ) → SpentStirs top up end → PassesWhileStill (record { hold = 1; kept = 0 }) top up down end }
{
    memory_links::passes::links_pass_at_once();
    memory_links::passes::gather_passes_at_once()
}

/// What stirs the port below a lane selector or a cutter of bursts stirs the one above it in the same cycle. Below a splitter
/// and what gathers each beat without a lane does that stirs the port there. So it is in rows of these.
pub fn what_is_swallowed_stirs()
    ensures select { (room : ℕ) (up down : Port) (offsets : ℕ → List ℕ) → RunsAsSelect room up down offsets → (end : ℕ)
        → StirsAbove up down end }
    ensures cut { (reach : Reach) (longest : ℕ) (up down : Port) (state : CutterState) → RunsAsCutter reach longest up down state
        → (end : ℕ) → StirsAbove up down end }
    ensures gather { (target : Target) (up down : Port) (many room : ℕ) (state : GatherState)
        → IsGatherPlan target up.shape down.shape many
        → RunsAsGather room up down state → (end : ℕ) → SpentStirs up down end }
    ensures split { (room : ℕ) (up down : Port) (state : SplitState) → RunsAsSplit room up down state
        → (end : ℕ) → AreLegalAt up end → AnswersAreOwed down end → SpentStirs up down end }
    ensures above { (up down : Port) (end : ℕ) → StirsAbove up down end → SpentStirs up down end }
    ensures further { (top up down : Port) (end : ℕ) → StirsAbove top up end → SpentStirs up down end → SpentStirs top down end }
{
    memory_links::passes::gather_passes_at_once()
}

/// Each of these links keeps going, with a rank of at most 1, or that is always 0, where its commands are legal, its answers are
/// owed and joined commands are alike.
pub fn links_keep_going()
    ensures select { (target : Target) (up down : Port) (many room : ℕ) (offsets : ℕ → List ℕ) (end : ℕ)
        → IsSelectPlan target up.shape down.shape many
        → 1 < room → RunsAsSelect room up down offsets → EnablesFit up end → AreLegalAt up end → AnswersAreOwed down end
        → JoinsAlike target up end
        → (rank : ℕ → ℕ) × KeepsGoing target up down rank 0 end }
    ensures gather { (target : Target) (up down : Port) (many room : ℕ) (state : GatherState) (end : ℕ)
        → IsGatherPlan target up.shape down.shape many
        → 1 < room → RunsAsGather room up down state → LieInWords up down.shape end → AreLegalAt up end → AnswersAreOwed down end
        → JoinsAlike target up end
        → (rank : ℕ → ℕ) × KeepsGoing target up down rank 0 end }
    ensures cut { (target : Target) (reach : Reach) (longest : ℕ) (up down : Port) (state : CutterState) (end : ℕ)
        → IsCutPlan reach longest up.shape down.shape
        → RunsAsCutter reach longest up down state → AreLegalAt up end → AnswersAreOwed down end → JoinsAlike target up end
        → (rank : ℕ → ℕ) × KeepsGoing target up down rank 0 end }
    ensures split { (target : Target) (room count : ℕ) (up down : Port) (state : SplitState) (end : ℕ)
        → MaySplit target up.shape down.shape count
        → 0 < room → RunsAsSplit room up down state → AreLegalAt up end → AnswersAreOwed down end → JoinsAlike target up end
        → (rank : ℕ → ℕ) × KeepsGoing target up down rank 1 end }
    ensures drop { (target : Target) (room : ℕ) (up down : Port) (state : DropState) (end : ℕ)
        → IsDropPlan target up.shape down.shape
        → 0 < room → RunsAsDrop room up down state → AreLegalAt up end → AnswersAreOwed down end → JoinsAlike target up end
        → (rank : ℕ → ℕ) × KeepsGoing target up down rank 1 end }
{
    memory_links::widths::select_is_a_link();
    memory_links::bursts::cut_is_a_link();
    memory_links::gathers::gather_is_a_link();
    memory_links::widths::split_is_a_link();
    memory_links::drops::drop_is_a_link()
}

/// A row that cuts bursts, or doesn't, fits words to those of the agent, or doesn't, and drops beats without a lane, or
/// doesn't, and in which what gathers stands below a cutter at the ends of its words, keeps going and holds little back, as
/// `AreLinks` asks, where commands are legal, their byte enables fit and joined ones are alike behind the route, and answers
/// are owed before the arbiter. Such rows fit in the windows.
pub fn rows_are_modest()
    ensures rows { (target : Target) (top middle low down : Port) (end : ℕ) (cuts : CutsBursts top middle)
        (fits : FitsWords target middle low)
        → DropsBeats target low down
        → GathersBelowCut cuts fits → EnablesFit top end → AreLegalAt top end → AnswersAreOwed down end
        → JoinsAlike target top end
        → (standing : ℕ → Standing) × IsModestRow target 3 (ports_of_three down low middle top) standing one_beat_lowest end }
    ensures fit { (system : System) (ways : Ways) (standings : Standings) (slacks : Slacks) (target : Target) (h end : ℕ)
        → IsModestRow target (ways.above h) (ways.upper h) (standings.upper h) (slacks.upper h) end
        → (host_allows system ways standings slacks h ≤ 15) × (toll ways standings h ≤ 5) }
{
    links_pass_while_still();
    what_is_swallowed_stirs();
    links_keep_going();
    crate::wires_keep_going();
    crate::modest_links_fit();
    memory_links::rows::pass_is_a_link();
    memory_links::bursts::cut_is_a_link();
    memory_links::widths::select_is_a_link();
    memory_links::gathers::touches_lie_in_words();
    memory_links::gathers::gather_is_a_link();
    memory_links::widths::split_is_a_link();
    memory_links::drops::drop_is_a_link()
}

/// Such a row keeps its line, and holds two transfers at most, where byte enables fit and joined commands are alike behind the
/// route. It brings lanes where it drops beats, or the host shows none without a lane for an agent without byte enables.
pub fn rows_keep_their_lines()
    ensures row { (target : Target) (top middle low down : Port) (end : ℕ) (cuts : CutsBursts top middle)
        (fits : FitsWords target middle low)
        → DropsBeats target low down
        → GathersBelowCut cuts fits → EnablesFit top end → JoinsAlike target top end → KeepsRow target 2 top down end }
    ensures lanes { (system : System) (run : Run) (host agent : ℕ) (top middle low down : Port) (end : ℕ)
        (cuts : CutsBursts top middle) (fits : FitsWords (target_of system agent) middle low)
        (drops : DropsBeats (target_of system agent) low down)
        → GathersBelowCut cuts fits → EnablesFit top end → JoinsAlike (target_of system agent) top end
        → (IsFalse (drops_some drops) → (c : ℕ) → c ≤ end
        → HavePlacedLanes system host agent (sent_by (host_transfers system run host c)))
        → BringsLanes system run host agent top down end }
{
    memory_machines::links::rows_compose();
    memory_links::rows::pass_is_a_link();
    memory_links::rows::chain_is_a_link();
    memory_links::bursts::cut_is_a_link();
    memory_links::widths::select_is_a_link();
    memory_links::gathers::touches_lie_in_words();
    memory_links::gathers::gather_is_a_link();
    memory_links::widths::split_is_a_link();
    memory_links::drops::drop_is_a_link()
}

/// Plain commands go straight through such a row, and it goes in step between equal words. It shows first beats within a cycle: a
/// first piece that is kept, where beats are dropped, goes on with the second one. There the first beats of joined writes aren't
/// to be shown promptly, or each write that is shown ends its command.
pub fn rows_are_straight()
    ensures straight { (target : Target) (top middle low down : Port) (end : ℕ) (cuts : CutsBursts top middle)
        (fits : FitsWords target middle low)
        → DropsBeats target low down
        → GathersBelowCut cuts fits → EnablesFit top end → AreLegalAt top end → AnswersAreOwed down end
        → JoinsAlike target top end
        → GoesStraightThrough (λ c. false) target top down end }
    ensures step { (target : Target) (top middle low down : Port) (end : ℕ) (cuts : CutsBursts top middle)
        (fits : FitsWords target middle low)
        → DropsBeats target low down
        → GathersBelowCut cuts fits → EnablesFit top end → AreLegalAt top end → AnswersAreOwed down end
        → JoinsAlike target top end
        → top.shape.word_bytes ≡ down.shape.word_bytes → GoesInStep false target top down end }
    ensures prompt { (few : ℕ) (may_burst : Bool) (target : Target) (top middle low down : Port) (end : ℕ) → 0 < few
        → (cuts : CutsBursts top middle) (fits : FitsWords target middle low) → DropsBeats target low down
        → GathersBelowCut cuts fits → EnablesFit top end → (IsTrue may_burst → IsWired low down) → AreLegalAt top end
        → AnswersAreOwed down end → JoinsAlike target top end
        → IsShownPromptly few may_burst target top down end }
    ensures single { (few : ℕ) (may_burst : Bool) (target : Target) (top middle low down : Port) (end : ℕ) → 0 < few
        → (cuts : CutsBursts top middle) (fits : FitsWords target middle low) → DropsBeats target low down
        → GathersBelowCut cuts fits → EnablesFit top end
        → ((c : ℕ) → c < end → IsTrue (shows top.commands.signals c) → IsTrue (may_be_prompt false (marked_at top c)))
        → AreLegalAt top end → AnswersAreOwed down end → JoinsAlike target top end
        → IsShownPromptly few may_burst target top down end }
{
    memory_machines::links::rows_compose();
    memory_links::rows::pass_is_a_link();
    memory_links::rows::pass_goes_in_step();
    memory_links::rows::chain_is_a_link();
    memory_links::rows::chain_is_straight();
    memory_links::bursts::cut_is_a_link();
    memory_links::bursts::cut_is_straight();
    memory_links::bursts::cut_goes_in_step();
    memory_links::widths::select_is_a_link();
    memory_links::gathers::touches_lie_in_words();
    memory_links::gathers::gather_is_a_link();
    memory_links::widths::split_is_a_link();
    memory_links::widths::split_is_straight();
    memory_links::drops::drop_is_a_link();
    memory_links::drops::drop_is_straight();
    memory_links::drops::plain_commands_act();
    memory_links::begins::what_begins_is_prompt();
    memory_links::begins::single_writes_begin();
    memory_links::begins::links_begin_below();
    memory_links::gathers::packed_reads_begin();
    memory_links::begins::split_begins_over_drop();
    memory_links::begins::cutters_begin_over_links()
}
