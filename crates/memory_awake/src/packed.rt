//! Packed reads in whole systems of machines: each word of an agent that a host's read touches is read once. From rows of links
//! to the ports of a system.

pub mod agree;

ghost use Rattle.std.specs.Prelude.{◌≡◌, ℕ, ◌<◌, ◌≤◌, ◌*◌};
ghost use Rattle.memory_runs.specs.Packed.{ReadsEachTouchedWordOnce};
ghost use Rattle.memory_runs.specs.Views.{Responses, System, Run};
ghost use Rattle.memory_runs.specs.Whole.{IsLegalRun};
ghost use Rattle.memory_machines.specs.Link.{Target, Port, AreLegalAt};
ghost use Rattle.memory_machines.specs.Machines.{MaySplit};
ghost use Rattle.memory_links.specs.Drops.{DropState, RunsAsDrop, IsDropPlan};
ghost use Rattle.memory_links.specs.Packs.{PacksReads};
ghost use Rattle.memory_links.specs.Selects.{EnablesFit};
ghost use Rattle.memory_links.specs.Splits.{SplitState, RunsAsSplit};
ghost use Rattle.memory_awake.specs.Rows.{CutsBursts, FitsWords, DropsBeats, GathersBelowCut};
ghost use Rattle.memory_awake.specs.RowSystem.{RowPorts, AreRows, boundaries_of};
ghost use Rattle.memory_awake.specs.Theorem.{States, ArePlanned, AreMachines};
ghost use Rattle.memory_awake.specs.Wires.{IsWire};
ghost use Rattle.memory_awake.specs.Packed.{KeepsSizes, RowPacks, RowsPack};

/// A wire hands each beat on with its operations. What drops beats without a lane hands on the others, and a splitter that stands
/// between equal words those that have an operation.
pub fn links_keep_sizes()
    ensures wire { (target : Target) (up down : Port) (end : ℕ) → IsWire up down → KeepsSizes target up down end }
    ensures drop { (target : Target) (room : ℕ) (up down : Port) (state : DropState) (end : ℕ)
        → IsDropPlan target up.shape down.shape
        → RunsAsDrop room up down state → KeepsSizes target up down end }
    ensures split { (target : Target) (room count : ℕ) (up down : Port) (state : SplitState) (end : ℕ)
        → MaySplit target up.shape down.shape count
        → RunsAsSplit room up down state → AreLegalAt up end → up.shape.word_bytes ≤ target.shape.word_bytes
        → KeepsSizes target up down end }
{}

/// A row packs reads where the host's word is no larger than the agent's, and the span is a whole number of these.
pub fn rows_pack_reads()
    ensures { (target : Target) (top middle low down : Port) (end : ℕ) (cuts : CutsBursts top middle)
        (fits : FitsWords target middle low)
        → DropsBeats target low down
        → GathersBelowCut cuts fits → RowPacks cuts fits → top.shape.word_bytes ≤ target.shape.word_bytes
        → down.shape.word_bytes ≡ target.shape.word_bytes
        → (times : ℕ) → 0 < times → target.span ≡ times * target.shape.word_bytes → EnablesFit top end → AreLegalAt top end
        → PacksReads target top down end }
{
    memory_links::packs::packed_rows();
    memory_links::packs::equal_words_pack();
    memory_links::packs::selectors_pack();
    memory_links::bursts::cut_brings_bursts()
}

/// In a system of machines whose rows pack reads, each word of an agent that a host's read touches is read in one beat at most.
pub fn packed_systems_read_words_once()
    ensures { (responses : Responses) (system : System) (run : Run) (ports : RowPorts) (states : States) (end : ℕ)
        → ArePlanned system (boundaries_of ports) states → AreMachines responses system run (boundaries_of ports) states end
        → (rows : AreRows system run ports end) → RowsPack rows → IsLegalRun system run end
        → (host agent : ℕ) → host < system.hosts → agent < system.agents → ReadsEachTouchedWordOnce system run host agent end }
{
    rows_pack_reads();
    memory_links::packs::touches_are_read_once();
    crate::rows::machines_with_links_are_built();
    crate::built::machines_keep_their_lines();
    crate::built::machines_settle();
    crate::built::machines_keep_their_records()
}
