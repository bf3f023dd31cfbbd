//! Packed reads: each word of the agent that a read touches is read in at most one beat.

ghost use Rattle.std.specs.Prelude.{◌≡◌, ◌<◌, ◌*◌, ℕ, List};
ghost use Rattle.memory_runs.specs.Packed.{ReadsEachTouchedWordOnce};
ghost use Rattle.memory_runs.specs.Views.{System, Run};
ghost use Rattle.memory_machines.specs.Link.{Target, Port, AreLegalAt};
ghost use Rattle.memory_machines.specs.Machines.{ShowsFitBeats};
ghost use Rattle.memory_links.specs.Cutters.{Reach, CutterState, RunsAsCutter, IsCutPlan, IsTouchPlan, reach_words, cut_form};
ghost use Rattle.memory_links.specs.Gathers.{GatherState, RunsAsGather, IsGatherPlan, gather_form};
ghost use Rattle.memory_links.specs.Links.{IsLink, chain_form};
ghost use Rattle.memory_links.specs.Packs.{PacksReads, TakesTouches};
ghost use Rattle.memory_links.specs.Selects.{RunsAsSelect, IsSelectPlan, EnablesFit};

/// A cutter at the ends of wide words and what gathers below it keep, in a row, all that a link promises, and read each word
/// that a read touches once: the beats that are taken below are the touches of what was accepted above.
pub fn packed_rows()
    ensures row { (target : Target) (many room : ℕ) (up middle down : Port) (cut : CutterState) (gather : GatherState) (end : ℕ)
        → IsTouchPlan many up.shape middle.shape
        → IsGatherPlan target middle.shape down.shape many → 1 < room
        → RunsAsCutter (reach_words up.shape.word_bytes many) 1 up middle cut → RunsAsGather room middle down gather
        → ShowsFitBeats up end → EnablesFit up end → IsLink (chain_form (cut_form target) (gather_form target)) up down end }
    ensures packs { (target : Target) (many room : ℕ) (up middle down : Port) (cut : CutterState) (gather : GatherState) (end : ℕ)
        → IsTouchPlan many up.shape middle.shape
        → IsGatherPlan target middle.shape down.shape many → 1 < room
        → RunsAsCutter (reach_words up.shape.word_bytes many) 1 up middle cut → RunsAsGather room middle down gather
        → ShowsFitBeats up end → EnablesFit up end → (times : ℕ) → 0 < times → target.span ≡ times * target.shape.word_bytes
        → AreLegalAt up end → PacksReads target up down end }
{
    memory_machines::wires::wire_is_a_row();
    crate::rows::chain_is_a_link();
    memory_machines::machines::beat_is_selected()
}

/// Where the beats that an agent takes of a host are the touches of what the host has presented, each word that a read
/// touches is read in at most one beat.
pub fn touches_are_read_once()
    ensures { (system : System) (run : Run) (host agent end : ℕ) → TakesTouches system run host agent end
        → ReadsEachTouchedWordOnce system run host agent end }
{}

/// Between equal words a wire packs reads, and so does a cutter into bursts of whatever length: each beat is a touch there.
pub fn equal_words_pack()
    ensures wire { (target : Target) (port : Port) (times end : ℕ) → 0 < port.shape.word_bytes → 0 < times
        → target.shape.word_bytes ≡ port.shape.word_bytes
        → target.span ≡ times * target.shape.word_bytes → PacksReads target port port end }
    ensures cut { (target : Target) (reach : Reach) (longest : ℕ) (up down : Port) (state : CutterState) (end times : ℕ)
        → IsCutPlan reach longest up.shape down.shape
        → RunsAsCutter reach longest up down state → AreLegalAt up end
        → 0 < times → target.shape.word_bytes ≡ up.shape.word_bytes → target.span ≡ times * target.shape.word_bytes
        → PacksReads target up down end }
{}

/// A lane selector packs reads: each of its commands is one touch.
pub fn selectors_pack()
    ensures { (target : Target) (up down : Port) (many room : ℕ) (offsets : ℕ → List ℕ) (end : ℕ)
        → IsSelectPlan target up.shape down.shape many
        → 1 < room → RunsAsSelect room up down offsets → EnablesFit up end → AreLegalAt up end → PacksReads target up down end }
{
    memory_machines::machines::beat_is_selected()
}
